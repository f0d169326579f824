// How near values computed in f32 are to sums in f64, which stand in bytes as tools/gate/double_sums writes them. New in this port.
ghost use Rattle.std.specs.Prelude.{◌≡◌, ◌+◌, ◌*◌, ◌≤◌, min, length, from_bits};
ghost use Rattle.std.specs.Float.{binary64};
ghost use Rattle.against_double.specs.Near.{long, sum_of, magnitude, larger, peak, doublings, near, least};

// 64 bits, little-endian, at the front.
fn long(b: &[u8]) -> u64
    ensures { result ≡ long b.now }
{
    call_log::word(b) as u64 + 0x1_0000_0000 * (call_log::word(call_log::rest(b, 4)) as u64)
}

// The f64 of 64 bits. Every NaN's pattern is a NaN.
fn double(bits: u64) -> f64
    ensures { result ≡ from_bits binary64 bits }
{
    if bits % 0x8000_0000_0000_0000 > 0x7ff0_0000_0000_0000 {
        0.0 / 0.0
    } else {
        f64::from_bits(bits)
    }
}

// Sum k. Past the end of b it is 0.
fn sum(b: &[u8], k: usize) -> f64
    requires { k ≤ 1024 }
    ensures { result ≡ sum_of b.now k }
{
    double(long(call_log::rest(b, 8 * k)))
}

// Not `abs`, which is another value at -0.0: the definition may not change its meaning.
fn magnitude(x: f64) -> f64
    ensures { result ≡ magnitude x }
{
    if x < 0.0 { -x } else { x }
}

// Not `max`, which is another value beside a NaN: the definition may not change its meaning.
fn larger(a: f64, b: f64) -> f64
    ensures { result ≡ larger a b }
{
    if a < b { b } else { a }
}

// The greatest magnitude of the first n sums.
fn peak(b: &[u8], n: usize) -> f64
    requires { n ≤ 1024 }
    ensures { result ≡ peak b.now n }
{
    let mut p = 0.0;
    for i in 0..n {
        p = larger(p, magnitude(sum(b, i)));
    }
    p
}

// How often an error doubles, 60 times at most, and is not above the peak.
fn doublings(error: f64, p: f64) -> usize
    ensures { result ≡ doublings 60 error p }
{
    let mut d = error;
    for n in 0..60 {
        d += d;
        if !(d <= p) {
            return n;
        }
    }
    60
}

// The same for a value and its sum.
fn near(x: f32, s: f64, p: f64) -> usize
    ensures { result ≡ near x s p }
{
    doublings(magnitude(std::num::f32_to_f64_with_nan(x) - s), p)
}

// The same for the value of `values` that is the least near.
fn least(values: &[f32], b: &[u8], p: f64) -> usize
    requires { length values.now ≤ 1024 }
    ensures { result ≡ least values.now b.now p (length values.now) }
{
    let mut r = 60;
    for (i, x) in values.iter().enumerate() {
        r = r.min(near(*x, sum(b, i), p));
    }
    r
}

// Inner. Every value is within 2^-r of the peak of the sums, and r is the greatest such number up to 60.
pub fn nearness(values: &[f32], b: &[u8]) -> usize
    requires { length values.now ≤ 1024 }
    ensures { result ≡ least values.now b.now (peak b.now (length values.now)) (length values.now) }
{
    least(values, b, peak(b, values.len()))
}
