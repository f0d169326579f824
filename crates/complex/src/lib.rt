// A complex number of two f32 parts, by value, and places of a pair of slices read and written as one number.
// Ported from src/common/complex.rs of lc3-codec 0.2.0, and changed: no operator that assigns, `scaled` in place of one; `get` and `put` are new.

#![tactic(auto)]

ghost use Rattle.std.specs.Prelude.{◌≡◌};
ghost use Rattle.complex.specs.Complex.{parts, plus, minus, times, scale, at, upd, InBoth};

use std::ops::{Add, Mul, Sub};

#[derive(Clone, Copy, Debug, PartialEq)]
pub struct Complex {
    pub r: f32,
    pub i: f32,
}

impl Complex {
    // Entry. The number with these parts.
    pub fn new(r: f32, i: f32) -> Complex
        ensures { result ≡ parts r i }
    {
        Complex { r, i }
    }

    // Entry. Both parts times a real.
    pub fn scaled(self, s: f32) -> Complex
        ensures { result ≡ scale self s }
    {
        Complex {
            r: self.r * s,
            i: self.i * s,
        }
    }
}

// The sum, part by part.
impl Add for Complex {
    type Output = Complex;

    ghost add_gives = { λ a b sum. sum ≡ plus a b };

    // Entry.
    fn add(self, b: Complex) -> Complex
        ensures { result ≡ plus self b }
    {
        Complex {
            r: self.r + b.r,
            i: self.i + b.i,
        }
    }
}

// The difference, part by part.
impl Sub for Complex {
    type Output = Complex;

    ghost sub_gives = { λ a b difference. difference ≡ minus a b };

    // Entry.
    fn sub(self, b: Complex) -> Complex
        ensures { result ≡ minus self b }
    {
        Complex {
            r: self.r - b.r,
            i: self.i - b.i,
        }
    }
}

// The product: four products, a difference and a sum, each rounded once and never fused.
impl Mul for Complex {
    type Output = Complex;

    ghost mul_gives = { λ a b product. product ≡ times a b };

    // Entry.
    fn mul(self, b: Complex) -> Complex
        ensures { result ≡ times self b }
    {
        Complex {
            r: self.r * b.r - self.i * b.i,
            i: self.r * b.i + self.i * b.r,
        }
    }
}

// Inner. Place k of two slices of parts.
pub fn get(re: &[f32], im: &[f32], k: usize) -> Complex
    requires { InBoth k re.now im.now }
    ensures { result ≡ at re.now im.now k }
{
    Complex { r: re[k], i: im[k] }
}

// Inner. Place k becomes c, and every other place stays.
pub fn put(re: &mut [f32], im: &mut [f32], k: usize, c: Complex)
    requires { InBoth k re.old im.old }
    ensures { at re.new im.new ≡ upd (at re.old im.old) k c }
{
    re[k] = c.r;
    im[k] = c.i;
}
