// The recursive transform by a plan, below the tables and the refusals: the stage that calls itself on the rest of the plan.
// Ported from src/common/kissfft.rs of lc3-codec 0.2.0, and changed: real and imaginary parts in slices of their own, twiddles and plan
// lent, the twiddles in the order in which the stages read them; the innermost stage is done in the one above it. The butterflies are a crate below this one.

#![tactic(auto)]

ghost use Rattle.std.specs.Prelude.{◌≡◌, false, ◌+◌, ◌*◌, ◌<◌, ◌≤◌, length, get_or};
ghost use Rattle.complex.specs.Complex.{at, InBoth};
ghost use Rattle.laws.specs.Lists.{tab};
ghost use Rattle.butterflies.specs.Butterflies.{stage};
ghost use Rattle.kf_work.specs.Work.{plan};
ghost use Rattle.kf_work.specs.Packed.{packed_column, leaves, worked, PackedTransformed};
ghost use Rattle.kf_work.specs.Lent.{LeavesFit, WorkFits, TransformFits};

use butterflies::{fives, kf_bfly5};
use complex::{Complex, get};
use quads::{Radix2, Radix3, Radix4, quad, turn};

// Places from, from + s, .. of the input: the five numbers of an innermost stage.
fn copied(x: &[f32], y: &[f32], s: usize, from: usize) -> [Complex; 5]
    requires { InBoth («from» + 4 * s) x.now y.now }
    ensures { result ≡ tab 5 (λ q. at x.now y.now («from» + q * s)) }
{
    [
        get(x, y, from),
        get(x, y, from + s),
        get(x, y, from + 2 * s),
        get(x, y, from + 3 * s),
        get(x, y, from + 4 * s),
    ]
}

// The innermost stages below the plan's first radix, which they are as many as, one after the other. The radix is read at each round. A `for` was tried, and misses
// the speed: of a loop with a known count the compiler makes a second, for many rounds, which never runs. A transform of 160 numbers takes 434 instructions more
// with it, and each stage 632 bytes of stack and not 200.
fn kf_leaves(
    re: &mut [f32],
    im: &mut [f32],
    x: &[f32],
    y: &[f32],
    tr: &[f32],
    ti: &[f32],
    plan: &[usize],
    fstride: usize,
    from: usize,
)
    requires { (0 < length plan.now) × LeavesFit (get_or plan.now 0 0) fstride «from» x.now y.now tr.now ti.now re.old im.old }
    ensures { at re.new im.new ≡ leaves plan.now fstride «from» (at tr.now ti.now) (at x.now y.now) (at re.old im.old) }
{
    let s = fstride * plan[0];
    let mut q = 0;
    while q < plan[0] {
        let column = copied(x, y, s, from + q * fstride);
        kf_bfly5(&mut re[q * 5..], &mut im[q * 5..], column, tr, ti);
        q += 1;
    }
}

// The butterfly of radix p on the block that begins here. A match, since a radix is a type: a `dyn`
// is no plainer, and would be a call of its own for each column.
fn kf_bfly(
    re: &mut [f32],
    im: &mut [f32],
    tr: &[f32],
    ti: &[f32],
    p: usize,
    m: usize,
    inverse: bool,
)
    requires { (2 ≤ p) × (p ≤ 4) × (0 < m) × (m * p ≤ 1 + length tr.now) × (m * p ≤ 1 + length ti.now) × (m * p ≤ length re.old) × (m * p ≤ length im.old) }
    ensures { at re.new im.new ≡ stage p m (packed_column (at tr.now ti.now) inverse p m) (at re.old im.old) }
{
    match p {
        2 => butterflies::kf_bfly(re, im, tr, ti, m, Radix2),
        3 => {
            let y = get(tr, ti, 3 * m - 2);
            butterflies::kf_bfly(re, im, tr, ti, m, Radix3 { y });
        }
        _ => butterflies::kf_bfly(re, im, tr, ti, m, Radix4 { inverse }),
    }
}

// The same where parts have five places. Radix 4 is left to the function above: called from two places it stays out of the stack of the stage that calls itself.
fn kf_fives(re: &mut [f32], im: &mut [f32], tr: &[f32], ti: &[f32], p: usize, inverse: bool)
    requires { (2 ≤ p) × (p ≤ 4) × (5 * p ≤ 1 + length tr.now) × (5 * p ≤ 1 + length ti.now) × (5 * p ≤ length re.old) × (5 * p ≤ length im.old) }
    ensures { at re.new im.new ≡ stage p 5 (packed_column (at tr.now ti.now) inverse p 5) (at re.old im.old) }
{
    match p {
        2 => fives(re, im, tr, ti, Radix2),
        3 => {
            let y = get(tr, ti, 13);
            fives(re, im, tr, ti, Radix3 { y });
        }
        _ => kf_bfly(re, im, tr, ti, p, 5, inverse),
    }
}

// The transform of places from, from + fstride, .. of the input by the plan, into the block that begins here. Places past it stay.
fn kf_work(
    re: &mut [f32],
    im: &mut [f32],
    x: &[f32],
    y: &[f32],
    tr: &[f32],
    ti: &[f32],
    plan: &[usize],
    fstride: usize,
    from: usize,
    inverse: bool,
)
    requires { WorkFits plan.now fstride «from» x.now y.now tr.now ti.now re.old im.old }
    ensures { at re.new im.new ≡ worked plan.now fstride «from» inverse (at tr.now ti.now) (at x.now y.now) (at re.old im.old) }
{
    let p = plan[0];
    let m = plan[1];
    let k = m * (p - 1);
    let ur = &tr[k..];
    let ui = &ti[k..];
    if m == 5 {
        kf_leaves(re, im, x, y, ur, ui, plan, fstride, from);
        kf_fives(re, im, tr, ti, p, inverse);
        return;
    }
    let rest = &plan[2..];
    for q in 0..p {
        kf_work(
            &mut re[q * m..],
            &mut im[q * m..],
            x,
            y,
            ur,
            ui,
            rest,
            fstride * p,
            from + q * fstride,
            inverse,
        );
    }
    kf_bfly(re, im, tr, ti, p, m, inverse);
}

// Inner. The transform of the numbers in x and y into re and im, with the plan of their number and the packed twiddles of its direction.
pub fn transform(
    re: &mut [f32],
    im: &mut [f32],
    x: &[f32],
    y: &[f32],
    tr: &[f32],
    ti: &[f32],
    factors: &[usize],
    inverse: bool,
)
    requires { TransformFits x.now y.now re.old im.old × (length x.now ≡ 1 + length tr.now) × (length x.now ≡ 1 + length ti.now) × (factors.now ≡ plan (length x.now)) }
    ensures { PackedTransformed inverse tr.now ti.now x.now y.now re.new im.new }
{
    kf_work(re, im, x, y, tr, ti, factors, 1, 0, inverse);
}

// Inner. The same of ten numbers, forward. Their plan has one stage above the two innermost, and all is written out, with no plan to read: the compiler puts it
// into its one caller, where it knows every place, and keeps the numbers in registers. `fives`, called from here as well, it would leave out of the stage that calls itself.
pub fn transform_10(re: &mut [f32], im: &mut [f32], x: &[f32], y: &[f32], tr: &[f32], ti: &[f32])
    requires { (length x.now ≡ 10) × (length y.now ≡ 10) × (length tr.now ≡ 9) × (length ti.now ≡ 9) × (length re.old ≡ 10) × (length im.old ≡ 10) }
    ensures { PackedTransformed false tr.now ti.now x.now y.now re.new im.new }
{
    let ur = &tr[5..];
    let ui = &ti[5..];
    for q in 0..2 {
        let column = copied(x, y, 2, q);
        kf_bfly5(&mut re[q * 5..], &mut im[q * 5..], column, ur, ui);
    }
    quad(re, im, tr, ti, 5, 0, Radix2);
    turn(re, im, tr, ti, 5, 4, Radix2);
}
