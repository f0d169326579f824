// The butterflies of the transform on the block that begins where their slices begin: in place, but for radix 5, whose five numbers come by value.
// Ported from src/common/kissfft.rs of lc3-codec 0.2.0, and changed: real and imaginary parts in slices of their own, the twiddles lent, a stage's one beside
// the other. Four columns are turned at a time, a crate below this one; the arithmetic of a column is another.

#![tactic(auto)]

ghost use Rattle.std.specs.Prelude.{◌≡◌, ◌<◌, ◌≤◌, length};
ghost use Rattle.laws.specs.Lists.{tab};
ghost use Rattle.complex.specs.Complex.{parts, at};
ghost use Rattle.columns.specs.Column.{five, col};
ghost use Rattle.quads.specs.Beside.{twist_by, one32, beside_by, beside5};
ghost use Rattle.quads.specs.Rows.{writes, Room};
ghost use Rattle.butterflies.specs.Butterflies.{stage};

use columns::five;
use complex::{Complex, get, put};
use quads::{Radix, quad, turn};

// Inner. The butterfly of a radix on the block's parts of m places. Places past the block stay.
pub fn kf_bfly<const R: usize, K: Radix<R>>(
    re: &mut [f32],
    im: &mut [f32],
    tr: &[f32],
    ti: &[f32],
    m: usize,
    radix: K,
)
    requires { (0 < m) × Room R m tr.now ti.now re.old im.old }
    ensures { at re.new im.new ≡ stage R m (beside_by (K.makes radix) (at tr.now ti.now) m) (at re.old im.old) }
{
    for q in 0..m / 4 {
        quad(re, im, tr, ti, m, 4 * q, radix);
    }
    for i in m / 4 * 4..m {
        turn(re, im, tr, ti, m, i, radix);
    }
}

// Inner. The same where parts have five places, as above the innermost stage: four columns and one, without a loop.
pub fn fives<const R: usize, K: Radix<R>>(
    re: &mut [f32],
    im: &mut [f32],
    tr: &[f32],
    ti: &[f32],
    radix: K,
)
    requires { Room R 5 tr.now ti.now re.old im.old }
    ensures { at re.new im.new ≡ stage R 5 (beside_by (K.makes radix) (at tr.now ti.now) 5) (at re.old im.old) }
{
    quad(re, im, tr, ti, 5, 0, radix);
    turn(re, im, tr, ti, 5, 4, radix);
}

// The five numbers turned, all but the first times no turn, (1, zero): it changes the signs of zeros.
fn turned5(column: [Complex; 5], zero: f32, ya: Complex, yb: Complex) -> [Complex; 5]
    ensures { result ≡ tab 5 (five ya yb (twist_by (λ q. parts one32 zero) (col column))) }
{
    let w = Complex::new(1.0, zero);
    let [s0, s1, s2, s3, s4] = column;
    five([s0, s1 * w, s2 * w, s3 * w, s4 * w], ya, yb)
}

// Inner. The butterfly of radix 5, which is the innermost stage of every plan: its five numbers are handed over as they were copied, and turned into
// the block's first five places.
pub fn kf_bfly5(re: &mut [f32], im: &mut [f32], column: [Complex; 5], tr: &[f32], ti: &[f32])
    requires { (3 ≤ length tr.now) × (3 ≤ length ti.now) × (5 ≤ length re.old) × (5 ≤ length im.old) }
    ensures { at re.new im.new ≡ writes (at re.old im.old) 0 (beside5 (at tr.now ti.now) (col column)) 5 }
{
    let v = turned5(column, ti[0], get(tr, ti, 1), get(tr, ti, 2));
    for q in 0..5 {
        put(re, im, q, v[q]);
    }
}
