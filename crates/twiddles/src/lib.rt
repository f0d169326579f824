// The twiddles of the DCT-IV. The definitions have the FFT's twiddles too; what a transform reads of them is in fft_tables.
// New: src/common/kissfft.rs and src/common/dct_iv.rs of lc3-codec 0.2.0 compute these values, and a run of them gave
// these tables.

#![tactic(auto)]

ghost use Rattle.std.specs.Prelude.{◌≡◌, map};
ghost use Rattle.std.specs.Float.Ieee.{neg};

mod tables; // tables.rt: the DCT's twiddles

pub use tables::dct;

// Entry. Every number gets the other sign: what the inverse FFT does to its imaginary parts.
pub fn negate(im: &mut [f32])
    ensures { im.new ≡ map neg im.old }
{
    for x in im.iter_mut() {
        *x = -*x;
    }
}
