// The gain of each length. Written by tools/tables from data/twiddles.txt.
// New: the two modified_dct.rs of lc3-codec 0.2.0 compute these values, and a run of them gave this table.

#![tactic(auto)]

ghost use Rattle.std.specs.Prelude.{◌≡◌};
ghost use Rattle.gains.specs.Gains.{gain};

// Entry. 1 / sqrt (2 nf) as the Rust computes it, and 0.0 for a length that no configuration has.
pub fn gain(nf: usize) -> f32
    ensures { result ≡ gain nf }
{
    match nf {
        20 => 0.15811388,
        40 => 0.1118034,
        60 => 0.09128709,
        80 => 0.07905694,
        120 => 0.06454972,
        160 => 0.0559017,
        180 => 0.05270463,
        240 => 0.045643546,
        320 => 0.03952847,
        360 => 0.0372678,
        480 => 0.03227486,
        _ => 0.0,
    }
}
