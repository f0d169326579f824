// The DCT-IV of each length by its steps: what goes into its FFT, the FFT, and what comes out.
// Ported from src/common/dct_iv.rs of lc3-codec 0.2.0, and changed: the points are slices of their
// parts, the tables are constant and lent, and the work areas are the function's own.

#![tactic(auto)]

ghost use Rattle.std.specs.Prelude.{◌≡◌, false, ◌+◌, ◌*◌, ◌<◌, T, length, set};
ghost use Rattle.complex.specs.Complex.{at};
ghost use Rattle.config.specs.Config.{among, fft_sizes};
ghost use Rattle.kf_work.specs.Work.{BothParts, plan};
ghost use Rattle.kf_work.specs.Packed.{PackedTransformed};
ghost use Rattle.kf_work.specs.Lent.{TransformFits};
ghost use Rattle.dct_steps.specs.Dct.{point, twiddled_out, dct_iv};

use complex::{Complex, get, put};
use kf_work::{transform, transform_10};

// Inner. The points: twiddle n times the value at 2n and the value as far from the end, whose place is counted down: worked out from n it costs more.
pub fn twiddle_in(buf: &[f32], dr: &[f32], di: &[f32], xr: &mut [f32], xi: &mut [f32])
    requires { (length buf.now ≡ 2 * length xr.old) × (length dr.now ≡ length xr.old) × (length di.now ≡ length xr.old) × (length xi.old ≡ length xr.old) }
    ensures { BothParts (length xr.old) (point (at dr.now di.now) buf.now) xr.new xi.new }
{
    let mut back = buf.len();
    for n in 0..xr.len() {
        back -= 2;
        let w = get(dr, di, n);
        let v = Complex::new(buf[2 * n], buf[back + 1]);
        put(xr, xi, n, w * v);
    }
}

// Two neighbouring places.
fn pair(buf: &mut [f32], k: usize, a: f32, b: f32)
    requires { k + 1 < length buf.old }
    ensures { buf.new ≡ set (set buf.old k a) (k + 1) b }
{
    buf[k] = a;
    buf[k + 1] = b;
}

// Inner. The numbers twiddled again, and their parts doubled, the imaginary ones negated first. Place 2n is of number n and the next of the number as far
// from the end: a number's own two places, far apart, cost more than twiddling it twice.
pub fn twiddle_out(ar: &[f32], ai: &[f32], dr: &[f32], di: &[f32], buf: &mut [f32])
    requires { (length buf.old ≡ 2 * length ar.now) × (length dr.now ≡ length ar.now) × (length di.now ≡ length ar.now) × (length ai.now ≡ length ar.now) }
    ensures { buf.new ≡ twiddled_out (at dr.now di.now) (length buf.old) (at ar.now ai.now) }
{
    let c = ar.len();
    for n in 0..c {
        let k = c - 1 - n;
        let a = get(dr, di, n) * get(ar, ai, n);
        let b = get(dr, di, k) * get(ar, ai, k);
        pair(buf, 2 * n, a.r * 2.0, -b.i * 2.0);
    }
}

// The FFT of C numbers, forward: that of ten is written out.
fn transform_of<const C: usize>(
    re: &mut [f32],
    im: &mut [f32],
    x: &[f32],
    y: &[f32],
    tr: &[f32],
    ti: &[f32],
)
    requires { TransformFits x.now y.now re.old im.old × (length x.now ≡ C) × (C ≡ 1 + length tr.now) × (C ≡ 1 + length ti.now) }
    ensures { PackedTransformed false tr.now ti.now x.now y.now re.new im.new }
{
    if C == 10 {
        transform_10(re, im, x, y, tr, ti);
    } else {
        transform(re, im, x, y, tr, ti, fft_tables::plan(C), false);
    }
}

// Inner. The DCT-IV of 2 C values, by an FFT of C numbers. There is a function for each C, so that
// the work areas of one are on the stack at a time, and the compiler knows how often each loop
// turns and that no two areas overlap.
#[inline(never)]
pub fn by<const C: usize>(buf: &mut [f32])
    requires { T (among fft_sizes C) × (length buf.old ≡ 2 * C) }
    ensures { buf.new ≡ dct_iv buf.old }
{
    let (dr, di) = twiddles::dct(C).split_at(C);
    let (tr, ti) = fft_tables::packed(C).split_at(C - 1);
    let mut xr = [0.0f32; C];
    let mut xi = [0.0f32; C];
    let mut ar = [0.0f32; C];
    let mut ai = [0.0f32; C];
    twiddle_in(buf, dr, di, &mut xr, &mut xi);
    transform_of::<C>(&mut ar, &mut ai, &xr, &xi, tr, ti);
    twiddle_out(&ar, &ai, dr, di, buf);
}
