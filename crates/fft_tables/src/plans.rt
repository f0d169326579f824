// The plan of each FFT size. Written by tools/tables from data/configs.txt.
ghost use Rattle.std.specs.Prelude.{◌≡◌};
ghost use Rattle.fft_tables.specs.FftTables.{plan_lent};

static PLAN_10: [usize; 4] = [2, 5, 5, 1];

static PLAN_20: [usize; 4] = [4, 5, 5, 1];

static PLAN_30: [usize; 6] = [2, 15, 3, 5, 5, 1];

static PLAN_40: [usize; 6] = [4, 10, 2, 5, 5, 1];

static PLAN_60: [usize; 6] = [4, 15, 3, 5, 5, 1];

static PLAN_80: [usize; 6] = [4, 20, 4, 5, 5, 1];

static PLAN_90: [usize; 8] = [2, 45, 3, 15, 3, 5, 5, 1];

static PLAN_120: [usize; 8] = [4, 30, 2, 15, 3, 5, 5, 1];

static PLAN_160: [usize; 8] = [4, 40, 4, 10, 2, 5, 5, 1];

static PLAN_180: [usize; 8] = [4, 45, 3, 15, 3, 5, 5, 1];

static PLAN_240: [usize; 8] = [4, 60, 4, 15, 3, 5, 5, 1];

// Entry. The plan of a size: radix, inner length, radix, inner length, .. down to 1; nothing for a
// size that no configuration has. A match, since a static refers to no other.
pub fn plan(n: usize) -> &'static [usize]
    ensures { result.now ≡ plan_lent n }
{
    match n {
        10 => &PLAN_10,
        20 => &PLAN_20,
        30 => &PLAN_30,
        40 => &PLAN_40,
        60 => &PLAN_60,
        80 => &PLAN_80,
        90 => &PLAN_90,
        120 => &PLAN_120,
        160 => &PLAN_160,
        180 => &PLAN_180,
        240 => &PLAN_240,
        _ => &[],
    }
}
