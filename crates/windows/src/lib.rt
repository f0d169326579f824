// The windows of the configurations as bits, and the reading of one entry.
// The bits are liblc3's, as data/README.md says; the names are those by which lc3-codec 0.2.0 uses
// its windows (src/encoder/modified_dct.rs), and of 5 and 2.5 ms, which it does not have, of the
// same form.

#![tactic(auto)]

ghost use Rattle.std.specs.Prelude.{◌≡◌, ◌<◌, length, get_or};
ghost use Rattle.std.specs.Float.{binary32};
ghost use Rattle.std.specs.Float.Ieee.{of_bits};
ghost use Rattle.windows.specs.Windows.{Numbers};

mod tables; // tables.rt: a table for each configuration

pub use tables::window;

// Inner. Entry k of a window, as the number that its bits are.
pub fn weight(w: &[u32], k: usize) -> f32
    requires { (k < length w.now) × Numbers w.now }
    ensures { result ≡ of_bits binary32 (get_or w.now k 0) }
{
    f32::from_bits(w[k])
}
