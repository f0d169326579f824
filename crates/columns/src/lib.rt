// What a butterfly makes of one column, whose places but the first are twiddled already: complex numbers in and out by value.
// Ported from kf_bfly2 to kf_bfly5 of src/common/kissfft.rs of lc3-codec 0.2.0, and changed: the arithmetic of a column in functions of its own.

#![tactic(auto)]

ghost use Rattle.std.specs.Prelude.{◌≡◌};
ghost use Rattle.laws.specs.Lists.{tab};
ghost use Rattle.columns.specs.Column.{plus_quarter, minus_quarter, mix, near, far, two, three, four, five, col};

use complex::Complex;

// x + i y: x plus y turned by a quarter.
fn plus_quarter(x: Complex, y: Complex) -> Complex
    ensures { result ≡ plus_quarter x y }
{
    Complex {
        r: x.r - y.i,
        i: x.i + y.r,
    }
}

// x - i y: x minus y turned by a quarter.
fn minus_quarter(x: Complex, y: Complex) -> Complex
    ensures { result ≡ minus_quarter x y }
{
    Complex {
        r: x.r + y.i,
        i: x.i - y.r,
    }
}

// Entry. Radix 2 on a twiddled column.
pub fn two(column: [Complex; 2]) -> [Complex; 2]
    ensures { result ≡ tab 2 (two (col column)) }
{
    let [a, t] = column;
    [a + t, a - t]
}

// Entry. Radix 3, where y is the twiddle of a third of a turn.
pub fn three(column: [Complex; 3], y: Complex) -> [Complex; 3]
    ensures { result ≡ tab 3 (three y (col column)) }
{
    let [a, s1, s2] = column;
    let s3 = s1 + s2;
    let x = a - s3.scaled(0.5);
    let d = s1 - s2;
    let s0 = d.scaled(y.i);
    [a + s3, plus_quarter(x, s0), minus_quarter(x, s0)]
}

// Entry. Radix 4.
pub fn four(column: [Complex; 4], inverse: bool) -> [Complex; 4]
    ensures { result ≡ tab 4 (four inverse (col column)) }
{
    let [a, s0, s1, s2] = column;
    let s5 = a - s1;
    let b = a + s1;
    let s3 = s0 + s2;
    let s4 = s0 - s2;
    if inverse {
        return [b + s3, plus_quarter(s5, s4), b - s3, minus_quarter(s5, s4)];
    }
    [b + s3, minus_quarter(s5, s4), b - s3, plus_quarter(s5, s4)]
}

// s0 + s7 x + s8 w, from the left.
fn mix(s0: Complex, s7: Complex, s8: Complex, x: f32, w: f32) -> Complex
    ensures { result ≡ mix s0 s7 s8 x w }
{
    Complex {
        r: s0.r + s7.r * x + s8.r * w,
        i: s0.i + s7.i * x + s8.i * w,
    }
}

fn near(s10: Complex, s9: Complex, ya: Complex, yb: Complex) -> Complex
    ensures { result ≡ near s10 s9 ya yb }
{
    Complex {
        r: s10.i * ya.i + s9.i * yb.i,
        i: -(s10.r * ya.i) - s9.r * yb.i,
    }
}

fn far(s10: Complex, s9: Complex, ya: Complex, yb: Complex) -> Complex
    ensures { result ≡ far s10 s9 ya yb }
{
    Complex {
        r: -(s10.i * yb.i) + s9.i * ya.i,
        i: s10.r * yb.i - s9.r * ya.i,
    }
}

// Entry. Radix 5, where ya and yb are the twiddles of a fifth and of two fifths of a turn.
pub fn five(column: [Complex; 5], ya: Complex, yb: Complex) -> [Complex; 5]
    ensures { result ≡ tab 5 (five ya yb (col column)) }
{
    let [s0, s1, s2, s3, s4] = column;
    let s7 = s1 + s4;
    let s10 = s1 - s4;
    let s8 = s2 + s3;
    let s9 = s2 - s3;
    let s5 = mix(s0, s7, s8, ya.r, yb.r);
    let s6 = near(s10, s9, ya, yb);
    let s11 = mix(s0, s7, s8, yb.r, ya.r);
    let s12 = far(s10, s9, ya, yb);
    [s0 + (s7 + s8), s5 - s6, s11 + s12, s11 - s12, s5 + s6]
}
