// The steps of a synthesis frame, but for the DCT, one loop each. They know no configuration; h is nf / 2 throughout.
// Ported from src/decoder/modified_dct.rs of lc3-codec 0.2.0, and changed: parts of a slice lent one after the other,
// each unfolded place computed where it is wanted, where the Rust moves a half aside and makes all 2 nf places, and the gain applied to the values before that.

#![tactic(auto)]

ghost use Rattle.std.specs.Prelude.{◌≡◌, ◌+◌, ◌-◌, ◌*◌, ◌≤◌, ◌<◌, length, get_or, take, drop, replicate};
ghost use mathlib.Core.List.{zip_with};
ghost use Rattle.std.specs.Float.{binary32};
ghost use Rattle.std.specs.Float.Ieee.{add, of_bits};
ghost use Rattle.laws.specs.Numbers.{zero32};
ghost use Rattle.synthesis_steps.specs.Places.{padded, places, unfolded, windowed, output, remains};
ghost use Rattle.gains.specs.Gains.{scaled};
ghost use Rattle.windows.specs.Windows.{Numbers};

// Inner. All of `to` +0.0.
pub fn zeros(to: &mut [f32])
    ensures { to.new ≡ replicate (length to.old) zero32 }
{
    to.fill(0.0);
}

// Inner. All of `to` from `from`, every place times the gain.
pub fn scaled(from: &[f32], g: f32, to: &mut [f32])
    requires { length from.now ≡ length to.old }
    ensures { to.new ≡ scaled g from.now }
{
    // by the index: through a `zip` with `iter_mut` the proof does not close, since it knows nothing of what was written
    for (i, o) in to.iter_mut().enumerate() {
        *o = from[i] * g;
    }
}

// All of `to` from `from`. A loop of its own, since std's `copy_from_slice` calls memmove, which the
// archive for C would need from outside.
fn copy(from: &[f32], to: &mut [f32])
    requires { length from.now ≡ length to.old }
    ensures { to.new ≡ from.now }
{
    for i in 0..to.len() {
        to[i] = from[i];
    }
}

// Inner. The lines, and zeros after them.
#[tactic(auto, unfolding(crate::specs::Places::padded))]
pub fn pad(lines: &[f32], buf: &mut [f32])
    requires { length lines.now ≤ length buf.old }
    ensures { buf.new ≡ padded (length buf.old) lines.now }
{
    let (front, rest) = buf.split_at_mut(lines.len());
    copy(lines, front);
    rest.fill(0.0);
}

// A frame to unfold: its nf values v and the window w; h is nf / 2. The values unfold to 2 nf places, each times the window, which is read backwards.
#[derive(Clone, Copy)]
struct Unfolding<'a> {
    v: &'a [f32],
    w: &'a [u32],
    h: usize,
    ghost small: { h ≤ 240 },
    ghost values: { length v.now ≡ 2 * h },
    ghost window: { length w.now ≡ 4 * h },
    ghost numbers: { Numbers w.now },
}

impl Unfolding<'_> {
    // The window's factor of place k.
    fn factor(self, k: usize) -> f32
        requires { k < 4 * self.h }
        ensures { result ≡ of_bits binary32 (get_or self.entry.w.now (4 * self.entry.h - 1 - k) 0) }
    {
        windows::weight(self.w, 4 * self.h - 1 - k)
    }

    // Of the places the ones from `from` on, as many as `out` has, within the first quarter: the second half of the values. The past is added to them.
    fn first_quarter(self, from: usize, past: &[f32], out: &mut [f32])
        requires { (from + length out.old ≤ self.h) × (length past.now ≡ length out.old) }
        ensures { out.new ≡ zip_with (add binary32) past.now (take (length out.old) (drop from (places self.entry.h self.entry.v.now self.entry.w.now))) }
    {
        let start = self.h + from;
        for (i, o) in out.iter_mut().enumerate() {
            *o = past[i] + self.v[start + i] * self.factor(from + i);
        }
    }

    // The same of the second quarter, all of it: the second half of the values, backwards and negated.
    fn second_quarter(self, past: &[f32], out: &mut [f32])
        requires { (length out.old ≡ self.h) × (length past.now ≡ length out.old) }
        ensures { out.new ≡ zip_with (add binary32) past.now (take (length out.old) (drop self.entry.h (places self.entry.h self.entry.v.now self.entry.w.now))) }
    {
        let end = 2 * self.h;
        for (i, o) in out.iter_mut().enumerate() {
            *o = past[i] + -self.v[end - 1 - i] * self.factor(self.h + i);
        }
    }

    // Places within the third quarter, from `from` on, with no past: the first half of the values, backwards and negated.
    fn third_quarter(self, from: usize, out: &mut [f32])
        requires { (2 * self.h ≤ from) × (from + length out.old ≤ 3 * self.h) }
        ensures { out.new ≡ take (length out.old) (drop from (places self.entry.h self.entry.v.now self.entry.w.now)) }
    {
        let end = 3 * self.h - from;
        for (i, o) in out.iter_mut().enumerate() {
            *o = -self.v[end - 1 - i] * self.factor(from + i);
        }
    }

    // The last quarter, all of it: the first half of the values, negated.
    fn last_quarter(self, out: &mut [f32])
        requires { length out.old ≡ self.h }
        ensures { out.new ≡ take (length out.old) (drop (3 * self.entry.h) (places self.entry.h self.entry.v.now self.entry.w.now)) }
    {
        for (i, o) in out.iter_mut().enumerate() {
            *o = -self.v[i] * self.factor(3 * self.h + i);
        }
    }
}

// The three below take the parts of an `Unfolding` one by one, and say its facts in words: what callers are asked may not change.

// The three functions below keep what they ask in its words: they are public, named in docs/API.md,
// and a caller may not be asked for another type.

// Inner. The samples that the memory is added to: memory + places z to nf - 1. In them, as in the memory below, the next part of the places begins at the seam.
pub fn overlapped(v: &[f32], w: &[u32], memory: &[f32], samples: &mut [f32], z: usize, h: usize)
    requires { (h ≤ 240) × (z ≤ h) × (length v.now ≡ 2 * h) × (length w.now ≡ 4 * h) × Numbers w.now × (length memory.now ≡ 2 * h - z) × (length samples.old ≡ 2 * h - z) }
    ensures { samples.new ≡ zip_with (add binary32) memory.now (take (2 * h - z) (drop z (windowed w.now (unfolded h v.now)))) }
{
    let u = Unfolding { v, w, h };
    let (past, past_seam) = memory.split_at(h - z);
    let (first, second) = samples.split_at_mut(h - z);
    u.first_quarter(z, past, first);
    u.second_quarter(past_seam, second);
}

// Inner. The memory becomes places nf + z to 2 nf - 1.
pub fn remaining(v: &[f32], w: &[u32], memory: &mut [f32], z: usize, h: usize)
    requires { (h ≤ 240) × (z ≤ h) × (length v.now ≡ 2 * h) × (length w.now ≡ 4 * h) × Numbers w.now × (length memory.old ≡ 2 * h - z) }
    ensures { memory.new ≡ remains (2 * h) z (windowed w.now (unfolded h v.now)) }
{
    let u = Unfolding { v, w, h };
    let (third, last) = memory.split_at_mut(h - z);
    u.third_quarter(2 * h + z, third);
    u.last_quarter(last);
}

// Inner. The samples: memory + places z to nf - 1, then places nf to nf + z - 1 as they are. The memory becomes places nf + z to 2 nf - 1.
// The places are those that the values unfold to, under gain and window: each is computed where it goes, and no list holds them all.
pub fn overlap_add(
    v: &[f32],
    w: &[u32],
    memory: &mut [f32],
    samples: &mut [f32],
    z: usize,
    h: usize,
)
    requires { (h ≤ 240) × (z ≤ h) × (length v.now ≡ 2 * h) × (length w.now ≡ 4 * h) × Numbers w.now × (length memory.old ≡ 2 * h - z) × (length samples.old ≡ 2 * h) }
    ensures samples { samples.new ≡ output (2 * h) z memory.old (windowed w.now (unfolded h v.now)) }
    ensures memory { memory.new ≡ remains (2 * h) z (windowed w.now (unfolded h v.now)) }
{
    let u = Unfolding { v, w, h };
    let (summed, bare) = samples.split_at_mut(2 * h - z);
    overlapped(v, w, memory, summed, z, h);
    u.third_quarter(2 * h, bare);
    remaining(v, w, memory, z, h);
}
