// The configurations: a row of numbers and the edges of the bands for each.
// Ported from src/common/config.rs and src/tables/band_index_tables.rs of lc3-codec 0.2.0, and changed: a configuration is a number, 44.1 kHz
// stays behind, frames of 5 and 2.5 ms are LC3plus's as liblc3 has them, the row has the number of upper bands too, and every function is total.

#![tactic(auto)]

ghost use Rattle.std.specs.Prelude.{◌≡◌};
ghost use Rattle.config.specs.Config.{valid, nf, z, ne, nb, rate, duration, upper, half, among, fft_sizes, dct_lengths};

mod tables; // tables.rt: the rows and the edges

pub use tables::edges;

// A configuration's row, under the Rust's names where it has them: duration is in microseconds, upper is the number of bands that the flag
// counts as upper.
#[derive(Clone, Copy)]
pub struct Lc3Config {
    pub fs: usize,
    pub ne: usize,
    pub duration: usize,
    pub nb: usize,
    pub nf: usize,
    pub z: usize,
    pub upper: usize,
}

// Entry. Whether c is a configuration.
pub fn valid(c: u8) -> bool
    ensures { result ≡ valid c }
{
    c <= 19
}

// Entry. The samples of a frame.
pub fn nf(c: u8) -> usize
    ensures { result ≡ nf c }
{
    tables::row(c).nf
}

// Entry. The zeros at the window's end.
pub fn z(c: u8) -> usize
    ensures { result ≡ z c }
{
    tables::row(c).z
}

// Entry. The lines that are coded.
pub fn ne(c: u8) -> usize
    ensures { result ≡ ne c }
{
    tables::row(c).ne
}

// Entry. The bands.
pub fn nb(c: u8) -> usize
    ensures { result ≡ nb c }
{
    tables::row(c).nb
}

// Entry. The samples in a second.
pub fn rate(c: u8) -> usize
    ensures { result ≡ rate c }
{
    tables::row(c).fs
}

// Entry. The microseconds of a frame.
pub fn duration(c: u8) -> usize
    ensures { result ≡ duration c }
{
    tables::row(c).duration
}

// Entry. The last bands, which the flag counts as upper.
pub fn upper(c: u8) -> usize
    ensures { result ≡ upper c }
{
    tables::row(c).upper
}

// Entry. The FFT's size.
#[tactic(auto, unfolding(crate::specs::Config::half))]
pub fn half(c: u8) -> usize
    ensures { result ≡ half c }
{
    let row = tables::row(c);
    row.nf / 2
}

// Entry. Whether n is the FFT's size at a configuration.
#[tactic(auto, using(crate::proofs::Among::any_among), unfolding(crate::specs::Config::fft_sizes, crate::specs::Config::half, crate::specs::Config::row, crate::specs::Tables::rows))]
pub fn is_fft_size(n: usize) -> bool
    ensures { result ≡ among fft_sizes n }
{
    tables::FFT_SIZES.contains(&n)
}

// Entry. Whether n is the DCT's length at a configuration.
#[tactic(auto, using(crate::proofs::Among::any_among), unfolding(crate::specs::Config::dct_lengths, crate::specs::Config::row, crate::specs::Tables::rows))]
pub fn is_dct_length(n: usize) -> bool
    ensures { result ≡ among dct_lengths n }
{
    tables::DCT_LENGTHS.contains(&n)
}
