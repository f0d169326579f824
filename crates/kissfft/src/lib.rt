// The complex FFT: its refusals, the tables of its size, and the entry.
// Ported from src/common/kissfft.rs of lc3-codec 0.2.0, and changed: the tables are constant, and refusals stand in place of panics. The
// transform itself is a crate below this one.

#![tactic(auto)]

ghost use Rattle.std.specs.Prelude.{◌≡◌, true, ◌≤◌, length};
ghost use Rattle.laws.specs.Lists.{failing};
ghost use Rattle.laws.specs.Passes.{passes6};
ghost use Rattle.refusals.specs.Refusals.{told_by};
ghost use Rattle.fft_tables.specs.FftTables.{packed_re, packed_im};
ghost use Rattle.kf_work.specs.Lent.{TransformFits};
ghost use Rattle.kissfft.specs.Fft.{earlier, verdict, Transformed, outcome, answer};

use kf_work::transform;
use refusals::Refusal;
use twiddles::negate;

// The lowest place where a part does not pass 6, if there is one.
fn first_bad(re: &[f32], im: &[f32]) -> Option<usize>
    ensures { result ≡ earlier (failing passes6 re.now) (failing passes6 im.now) }
{
    match (laws::first_failing_6(re), laws::first_failing_6(im)) {
        (Some(a), Some(b)) => Some(a.min(b)),
        (a, None) => a,
        (None, b) => b,
    }
}

// The refusals, in their order, for outputs of c and d places.
fn judge(size: usize, x: &[f32], y: &[f32], c: usize, d: usize) -> Result<(), Refusal>
    ensures { told_by result ≡ verdict size x.now y.now c d }
{
    if !config::is_fft_size(size) {
        return Err(Refusal::BadSize);
    }
    if x.len() != size || y.len() != size {
        return Err(Refusal::BadInput);
    }
    if c != size || d != size {
        return Err(Refusal::BadOutput);
    }
    match first_bad(x, y) {
        Some(index) => Err(Refusal::BadValue(index)),
        None => Ok(()),
    }
}

// The inverse transform, with the imaginary parts of the forward twiddles of its size, which are
// negated in an area of the function's own, of N places. To clear an area as large as the largest
// size needs costs a small transform more than to copy its twiddles.
fn inverted<const N: usize>(
    re: &mut [f32],
    im: &mut [f32],
    x: &[f32],
    y: &[f32],
    tr: &[f32],
    ti: &[f32],
)
    requires { TransformFits x.now y.now re.old im.old × (tr.now ≡ packed_re (length x.now)) × (ti.now ≡ packed_im (length x.now)) × (length ti.now ≤ N) × (N ≤ 239) }
    ensures { Transformed true x.now y.now re.new im.new }
{
    let mut room = [0.0f32; N];
    let ui = &mut room[..ti.len()];
    ui.copy_from_slice(ti);
    negate(ui);
    transform(re, im, x, y, tr, ui, fft_tables::plan(x.len()), true);
}

// The transform with the tables and the plan of its size.
fn run(re: &mut [f32], im: &mut [f32], x: &[f32], y: &[f32], inverse: bool)
    requires { TransformFits x.now y.now re.old im.old }
    ensures { Transformed inverse x.now y.now re.new im.new }
{
    let n = x.len();
    let (tr, ti) = fft_tables::packed(n).split_at(n - 1);
    if !inverse {
        transform(re, im, x, y, tr, ti, fft_tables::plan(n), false);
    } else if n <= 40 {
        inverted::<39>(re, im, x, y, tr, ti);
    } else {
        inverted::<239>(re, im, x, y, tr, ti);
    }
}

// Entry. The transform of size numbers, forward or inverse, the inverse not divided by size. A refused call writes nothing.
pub fn fft(
    size: usize,
    inverse: bool,
    re_in: &[f32],
    im_in: &[f32],
    re_out: &mut [f32],
    im_out: &mut [f32],
) -> Result<(), Refusal>
    ensures { outcome (told_by result) re_out.new im_out.new ≡ answer size inverse re_in.now im_in.now re_out.old im_out.old }
{
    judge(size, re_in, im_in, re_out.len(), im_out.len())?;
    run(re_out, im_out, re_in, im_in, inverse);
    Ok(())
}
