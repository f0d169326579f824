// The steps of a measurement: the energies and peaks of bands, and what the near-Nyquist flag compares. They know no configuration.
// Ported from src/encoder/modified_dct.rs of lc3-codec 0.2.0, and changed: a function for each step, lengths and tables as arguments,
// and bands of few lines by themselves.

#![tactic(auto)]

ghost use Rattle.std.specs.Prelude.{◌≡◌, true, false, ◌+◌, ◌*◌, ◌/◌, ◌≤◌, ◌<◌, length, get_or, take, drop, Float};
ghost use Rattle.std.proofs.lemmas.List.Edits.{sets};
ghost use Rattle.std.specs.Float.{nan};
ghost use Rattle.laws.specs.Lists.{tab, Rising};
ghost use Rattle.measurement_steps.specs.Energy.{energy, band_of, energies, total, exceeds};
ghost use Rattle.measurement_steps.specs.Singles.{Apart, Fours, begun};
ghost use Rattle.measurement_steps.specs.Peak.{square, peak_of, peaks, higher, up_to, whole, placed};

// What a band has come to: the sum of its lines' shares, the first line with the greatest product, and that product.
#[derive(Clone, Copy)]
pub struct Reading {
    pub energy: f32,
    pub peak: usize,
    pub greatest: f32,
}

// A line times itself.
fn square(lines: &[f32], i: usize) -> f32
    requires { i < length lines.now }
    ensures { result ≡ square (get_or lines.now i nan) }
{
    let x = lines[i];
    x * x
}

// The energy of a band of one line.
fn one(lines: &[f32], i: usize) -> f32
    requires { i < length lines.now }
    ensures { result ≡ energy (take 1 (drop i lines.now)) }
{
    0.0 + square(lines, i) / 1.0
}

// A band before its first line, of whatever width.
fn start(lines: &[f32]) -> Reading
    requires { 0 < length lines.now }
    ensures { (width : Float) → result ≡ up_to width lines.now 0 }
{
    Reading {
        energy: 0.0,
        peak: 0,
        greatest: square(lines, 0),
    }
}

// With line i in the peak's stead where its product is greater.
fn higher(b: Reading, i: usize, product: f32) -> Reading
    ensures { result ≡ higher b i product }
{
    if b.greatest < product {
        Reading {
            peak: i,
            greatest: product,
            ..b
        }
    } else {
        b
    }
}

// A line more.
fn more(lines: &[f32], i: usize, width: f32, b: Reading) -> Reading
    requires { (i < length lines.now) × (b ≡ up_to width lines.now i) }
    ensures { result ≡ up_to width lines.now (i + 1) }
{
    let p = square(lines, i);
    let summed = Reading {
        energy: b.energy + p / width,
        ..b
    };
    higher(summed, i, p)
}

// N lines more, each of which the compiler sees.
fn several<const N: usize>(lines: &[f32], i: usize, width: f32, b: Reading) -> Reading
    requires { (i + N ≤ length lines.now) × (b ≡ up_to width lines.now i) }
    ensures { result ≡ up_to width lines.now (i + N) }
{
    let mut b = b;
    for k in i..i + N {
        b = more(lines, k, width, b);
    }
    b
}

// Four lines more. Their products are worked out first, so that the compiler divides several at once.
fn four(lines: &[f32], i: usize, width: f32, b: Reading) -> Reading
    requires { (i + 4 ≤ length lines.now) × (b ≡ up_to width lines.now i) }
    ensures { result ≡ up_to width lines.now (i + 4) }
{
    let p = square(lines, i);
    let q = square(lines, i + 1);
    let r = square(lines, i + 2);
    let s = square(lines, i + 3);
    let summed = Reading {
        energy: b.energy + p / width + q / width + r / width + s / width,
        ..b
    };
    let half = higher(higher(summed, i, p), i + 1, q);
    higher(higher(half, i + 2, r), i + 3, s)
}

// The last lines, three at most.
fn rest(lines: &[f32], i: usize, width: f32, b: Reading) -> Reading
    requires { (i ≤ length lines.now) × (length lines.now < i + 4) × (b ≡ up_to width lines.now i) }
    ensures { result ≡ up_to width lines.now (length lines.now) }
{
    match lines.len() - i {
        1 => more(lines, i, width, b),
        2 => several::<2>(lines, i, width, b),
        3 => several::<3>(lines, i, width, b),
        _ => b,
    }
}

// A band of any number of lines: by fours, then the rest.
fn many(lines: &[f32]) -> Reading
    requires { (0 < length lines.now) × (length lines.now ≤ 480) }
    ensures { result ≡ whole lines.now }
{
    let n = lines.len();
    let width = n as i32 as f32; // an i32 is one conversion, where a usize wants a test
    let mut b = start(lines);
    for q in 0..n / 4 {
        b = four(lines, 4 * q, width, b);
    }
    rest(lines, n / 4 * 4, width, b)
}

// One band, from its lines. The bands of few lines, which are many, are spared the loop. One plain loop over the lines in place of this, `four` and `many` was
// tried, in a sketch: it takes 583 instructions a measurement more at configuration 3 (16 %), and 390 more at 19 (24 %).
fn measured(lines: &[f32]) -> Reading
    requires { (0 < length lines.now) × (length lines.now ≤ 480) }
    ensures { result ≡ whole lines.now }
{
    let none = start(lines);
    match lines.len() {
        1 => more(lines, 0, 1.0, none),
        2 => several::<2>(lines, 0, 2.0, none),
        3 => several::<3>(lines, 0, 3.0, none),
        4 => four(lines, 0, 4.0, none),
        5 => more(lines, 4, 5.0, four(lines, 0, 5.0, none)),
        6 => several::<2>(lines, 4, 6.0, four(lines, 0, 6.0, none)),
        7 => several::<3>(lines, 4, 7.0, four(lines, 0, 7.0, none)),
        8 => four(lines, 4, 8.0, four(lines, 0, 8.0, none)),
        9 => {
            let eight = four(lines, 4, 9.0, four(lines, 0, 9.0, none));
            more(lines, 8, 9.0, eight)
        }
        _ => many(lines),
    }
}

// Four bands of one line each, from place b of both slices on. The lines are read before the first energy is written, so that the compiler takes four at once.
fn single(lines: &[f32], from: usize, out: &mut [f32], places: &mut [usize], b: usize)
    requires { (from + 4 ≤ length lines.now) × (length lines.now ≤ 480) × (b + 4 ≤ length out.old) × (b + 4 ≤ length places.old) }
    ensures { (out.new ≡ sets out.old b (tab 4 (λ k. energy (take 1 (drop (from + k) lines.now)))))
        × (places.new ≡ sets places.old b (tab 4 (λ k. from + k))) }
{
    let x = one(lines, from);
    let y = one(lines, from + 1);
    let z = one(lines, from + 2);
    let w = one(lines, from + 3);
    out[b] = x;
    out[b + 1] = y;
    out[b + 2] = z;
    out[b + 3] = w;
    places[b] = from;
    places[b + 1] = from + 1;
    places[b + 2] = from + 2;
    places[b + 3] = from + 3;
}

// Whether the four bands from b on are of one line each: each has a line, so the last edge tells.
fn apart(edges: &[usize], b: usize) -> bool
    requires { (b + 4 < length edges.now) × Rising (b + 4) edges.now 480 }
    ensures { (result ≡ true → Apart edges.now b) × (result ≡ false → Apart edges.now b → ⊥) }
{
    edges[b + 4] == edges[b] + 4
}

// The first bands, by fours as long as these are of one line each; and by how many fours.
fn singles(lines: &[f32], edges: &[usize], out: &mut [f32], places: &mut [usize]) -> usize
    requires { (length lines.now ≤ 480) × (length out.old < length edges.now) × (length places.old ≡ length out.old) × Rising (length out.old) edges.now (length lines.now) }
    ensures fours { Fours (length out.old) edges.now result }
    ensures bands { (out.new ≡ begun (4 * result) (λ b. energy (band_of edges.now lines.now b)) out.old)
        × (places.new ≡ begun (4 * result) (peak_of edges.now lines.now) places.old) }
{
    for q in 0..out.len() / 4 {
        if !apart(edges, 4 * q) {
            return q;
        }
        single(lines, edges[4 * q], out, places, 4 * q);
    }
    out.len() / 4
}

// Band b: its energy, and its peak from line 0 of the frame.
fn band(lines: &[f32], edges: &[usize], b: usize) -> Reading
    requires { (length lines.now ≤ 480) × (b + 1 < length edges.now) × (get_or edges.now b 0 < get_or edges.now (b + 1) 0) × (get_or edges.now (b + 1) 0 ≤ length lines.now) }
    ensures { result ≡ placed (get_or edges.now b 0) (whole (band_of edges.now lines.now b)) }
{
    let from = edges[b];
    let to = edges[b + 1];
    let own = measured(&lines[from..to]);
    Reading {
        peak: from + own.peak,
        ..own
    }
}

// Inner. The energy and the peak of each band.
pub fn apply_energy_estimation(
    lines: &[f32],
    edges: &[usize],
    out: &mut [f32],
    places: &mut [usize],
)
    requires { (length lines.now ≤ 480) × (length out.old < length edges.now) × (length places.old ≡ length out.old) × Rising (length out.old) edges.now (length lines.now) }
    ensures { (out.new ≡ energies (length out.old) edges.now lines.now)
        × (places.new ≡ peaks (length out.old) edges.now lines.now) }
{
    for b in 4 * singles(lines, edges, out, places)..out.len() {
        let own = band(lines, edges, b);
        out[b] = own.energy;
        places[b] = own.peak;
    }
}

// Inner. The energies of as many bands as there are lines, of one line each, which is its band's peak.
pub fn ones(lines: &[f32], out: &mut [f32], places: &mut [usize])
    requires { (length lines.now ≡ length out.old) × (length places.old ≡ length out.old) }
    ensures { (out.new ≡ tab (length out.old) (λ b. energy (take 1 (drop b lines.now))))
        × (places.new ≡ tab (length out.old) (λ b. b)) }
{
    for b in 0..out.len() {
        out[b] = one(lines, b);
        places[b] = b;
    }
}

// Inner. The sum of energies, from 0.0 in their order.
pub fn total(es: &[f32]) -> f32
    ensures { result ≡ total es.now }
{
    es.iter().fold(0.0, |sum, x| sum + *x)
}

// Inner. Whether the bands from split on exceed 30 times those before it, strictly.
pub fn exceeds(es: &[f32], split: usize) -> bool
    requires { split ≤ length es.now }
    ensures { result ≡ exceeds split es.now }
{
    let (lower, upper) = es.split_at(split);
    total(upper) > 30.0 * total(lower)
}
