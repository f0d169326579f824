// One column of a block, and four neighbouring columns, turned in place, for any radix: read with their twiddles, which stand one beside the other, and then written.
// Four columns are all read before any is written, part by part, so that the compiler turns them at once.
// Ported from kf_bfly2, kf_bfly3 and kf_bfly4 of src/common/kissfft.rs of lc3-codec 0.2.0, and changed: the body of each loop in functions of its own, which are over
// the radix. Real and imaginary parts stay two slices each, as the C interface hands them.

#![tactic(auto)]

ghost use Rattle.std.specs.Prelude.{◌≡◌, [], ◌∷◌, ℕ, ◌+◌, ◌<◌, ◌≤◌, length};
ghost use Rattle.std.proofs.Common.{rules};
ghost use Rattle.laws.specs.Lists.{tab};
ghost use Rattle.complex.specs.declared.Complex.{Complex};
ghost use Rattle.complex.specs.Complex.{times, at, InBoth};
ghost use Rattle.columns.specs.Column.{two, three, four, col};
ghost use Rattle.quads.specs.Beside.{beside_by};
ghost use Rattle.quads.specs.Radix.{Sees, Through, sees2, sees3, sees4, in_turn_lem, exchange};
ghost use Rattle.quads.specs.Rows.{writes, in_turn, exchanged, turned, turned_columns, Room, lane};

use columns::{four, three, two};
use complex::{Complex, get, put};

// Place k times twiddle w.
fn twiddled(re: &[f32], im: &[f32], tr: &[f32], ti: &[f32], k: usize, w: usize) -> Complex
    requires { InBoth k re.now im.now × InBoth w tr.now ti.now }
    ensures { result ≡ times (at re.now im.now k) (at tr.now ti.now w) }
{
    let x = get(re, im, k);
    x * get(tr, ti, w)
}

// The four neighbouring places from k on become a, b, c, d.
fn lane(s: &mut [f32], k: usize, a: f32, b: f32, c: f32, d: f32)
    requires { k + 4 ≤ length s.old }
    ensures { s.new ≡ lane s.old k a b c d }
{
    s[k] = a;
    s[k + 1] = b;
    s[k + 2] = c;
    s[k + 3] = d;
}

// The same of both parts.
fn row(re: &mut [f32], im: &mut [f32], k: usize, a: Complex, b: Complex, c: Complex, d: Complex)
    requires { (k + 4 ≤ length re.old) × (k + 4 ≤ length im.old) }
    ensures { at re.new im.new ≡ writes (at re.old im.old) k (col (a ∷ b ∷ c ∷ d ∷ [])) 4 }
{
    lane(re, k, a.r, b.r, c.r, d.r);
    lane(im, k, a.i, b.i, c.i, d.i);
}

// A radix: what its butterfly makes of a column of R places, and where the parts of the outcome go.
pub trait Radix<const R: usize>: Copy {
    // The column that the butterfly makes of one.
    ghost makes: { Self → (ℕ → Complex) → ℕ → Complex };

    // The part of it that is handed back at place q.
    ghost order: { Self → ℕ → ℕ };

    // Inner. The column turned, its parts in that order.
    fn turned(self, column: [Complex; R]) -> [Complex; R]
        ensures { result ≡ tab R (λ q. makes self (col column.entry) (order self q)) };

    // Inner. The part that stands at place q.
    fn part(self, q: usize) -> usize
        requires { q < R }
        ensures { result ≡ order self q };

    // The radixes of the plans are 2 to 5.
    ghost few: { (0 < R) × (R ≤ 5) };

    // The butterfly looks at the column's R places and no others.
    ghost sees: { (radix : Self) → Sees R (makes radix) };

    // The order goes through all parts, and is its own inverse.
    ghost through: { (radix : Self) → Through R (order radix) };
}

// Radix 2.
#[derive(Clone, Copy)]
pub struct Radix2;

impl Radix<2> for Radix2 {
    ghost makes = { λ _. two };

    ghost order = { λ _. in_turn };

    ghost few = { Prim.search rules };

    ghost sees = { λ _. sees2 };

    ghost through = { λ _. in_turn_lem 2 };

    fn turned(self, column: [Complex; 2]) -> [Complex; 2]
        ensures { result ≡ tab 2 (two (col column)) }
    {
        two(column)
    }

    fn part(self, q: usize) -> usize
        ensures { result ≡ q }
    {
        q // both in turn
    }
}

// Radix 3, where y is the twiddle of a third of a turn.
#[derive(Clone, Copy)]
pub struct Radix3 {
    pub y: Complex,
}

impl Radix<3> for Radix3 {
    ghost makes = { λ radix. three radix.y };

    ghost order = { λ _. in_turn };

    ghost few = { Prim.search rules };

    ghost sees = { λ radix. sees3 radix.y };

    ghost through = { λ _. in_turn_lem 3 };

    fn turned(self, column: [Complex; 3]) -> [Complex; 3]
        ensures { result ≡ tab 3 (three self.y (col column)) }
    {
        three(column, self.y)
    }

    fn part(self, q: usize) -> usize
        ensures { result ≡ q }
    {
        q // the three in turn
    }
}

// Radix 4. The inverse turns as the forward one does and has parts 1 and 3 exchanged: a branch in the arithmetic would cost more.
#[derive(Clone, Copy)]
pub struct Radix4 {
    pub inverse: bool,
}

impl Radix<4> for Radix4 {
    ghost makes = { λ radix. four radix.inverse };

    ghost order = { λ radix. exchanged radix.inverse };

    ghost few = { Prim.search rules };

    ghost sees = { λ radix. sees4 radix.inverse };

    ghost through = { λ radix. exchange radix.inverse };

    fn turned(self, column: [Complex; 4]) -> [Complex; 4]
        ensures { result ≡ tab 4 (λ q. four self.inverse (col column) (exchanged self.inverse q)) }
    {
        four(column, false)
    }

    fn part(self, q: usize) -> usize
        requires { q < 4 }
        ensures { result ≡ exchanged self.inverse q }
    {
        if self.inverse { (4 - q) % 4 } else { q }
    }
}

// What column i is turned into: its places are read, and all but the first twiddled.
fn turned<const R: usize, K: Radix<R>>(
    re: &[f32],
    im: &[f32],
    tr: &[f32],
    ti: &[f32],
    m: usize,
    i: usize,
    radix: K,
) -> [Complex; R]
    requires { (i < m) × Room R m tr.now ti.now re.now im.now }
    ensures { result ≡ tab R (λ q. turned m (beside_by (K.makes radix) (at tr.now ti.now) m) (at re.now im.now) i (K.order radix q)) }
{
    let mut column = [get(re, im, i); R];
    for q in 1..R {
        column[q] = twiddled(re, im, tr, ti, i + m * q, i + m * (q - 1));
    }
    radix.turned(column)
}

// Inner. Column i turned.
pub fn turn<const R: usize, K: Radix<R>>(
    re: &mut [f32],
    im: &mut [f32],
    tr: &[f32],
    ti: &[f32],
    m: usize,
    i: usize,
    radix: K,
)
    requires { (i < m) × Room R m tr.now ti.now re.old im.old }
    ensures { at re.new im.new ≡ turned_columns 1 R m (K.order radix) (beside_by (K.makes radix) (at tr.now ti.now) m) i (at re.old im.old) }
{
    let v = turned(re, im, tr, ti, m, i, radix);
    for q in 0..R {
        put(re, im, i + m * radix.part(q), v[q]);
    }
}

// Inner. Columns j to j + 3 turned.
pub fn quad<const R: usize, K: Radix<R>>(
    re: &mut [f32],
    im: &mut [f32],
    tr: &[f32],
    ti: &[f32],
    m: usize,
    j: usize,
    radix: K,
)
    requires { (j + 4 ≤ m) × Room R m tr.now ti.now re.old im.old }
    ensures { at re.new im.new ≡ turned_columns 4 R m (K.order radix) (beside_by (K.makes radix) (at tr.now ti.now) m) j (at re.old im.old) }
{
    let a = turned(re, im, tr, ti, m, j, radix);
    let b = turned(re, im, tr, ti, m, j + 1, radix);
    let c = turned(re, im, tr, ti, m, j + 2, radix);
    let d = turned(re, im, tr, ti, m, j + 3, radix);
    for q in 0..R {
        row(re, im, j + m * radix.part(q), a[q], b[q], c[q], d[q]);
    }
}
