// The steps of an analysis frame, but for the DCT: fold, gain, and what the next frame's fold will read. They know no configuration.
// Ported from src/encoder/modified_dct.rs of lc3-codec 0.2.0, and changed: a function for each step, lengths and tables as arguments,
// and the time buffer is not made: the fold reads its places from the past and the frame.

#![tactic(auto)]

ghost use Rattle.std.specs.Prelude.{◌≡◌, ◌++◌, ◌+◌, ◌-◌, ◌*◌, ◌≤◌, ◌<◌, pos, length, drop, replicate};
ghost use Rattle.std.specs.Float.{binary32};
ghost use Rattle.std.specs.Float.Ieee.{sub};
ghost use Rattle.laws.specs.Lists.{tab};
ghost use Rattle.windows.specs.Windows.{Numbers};
ghost use Rattle.analysis_steps.specs.Fold.{weighed, fold_high};
ghost use Rattle.analysis_steps.specs.Runs.{quiet, low, low_at, still, FoldFits, folded_of};
ghost use Rattle.gains.specs.Gains.{scaled};

// Inner. Zeros for a channel.
pub fn silence_300() -> [i16; 300]
    ensures { result ≡ replicate 300 (pos 0) }
{
    [0i16; 300]
}

// All of `to` from `from`. A loop of its own, since std's `copy_from_slice` calls memmove, which the
// archive for C would need from outside.
fn copy(from: &[i16], to: &mut [i16])
    requires { length from.now ≡ length to.old }
    ensures { to.new ≡ from.now }
{
    for i in 0..to.len() {
        to[i] = from[i];
    }
}

// Inner. What the next step will read, in place of what this one read: the frame's last samples, and zeros to the end.
pub fn keep(input: &[i16], z: usize, samples: &mut [i16])
    requires { (z ≤ length input.now) × (length input.now ≤ length samples.old + z) }
    ensures { samples.new ≡ drop z input.now ++ replicate (length samples.old - length (drop z input.now)) (pos 0) }
{
    let last = &input[z..];
    let (kept, rest) = samples.split_at_mut(last.len());
    copy(last, kept);
    rest.fill(0);
}

// Samples, and the window from the first of them on.
#[derive(Clone, Copy)]
struct Windowed<'a> {
    t: &'a [i16],
    w: &'a [u32],
    ghost long: { length t.now ≤ length w.now },
    ghost numbers: { Numbers w.now },
}

impl<'a> Windowed<'a> {
    // Sample k by the window.
    #[tactic(auto, unfolding(crate::specs::Fold::weighed))]
    fn weighed(self, k: usize) -> f32
        requires { k < length self.t.now }
        ensures { result ≡ weighed self.entry.t.now self.entry.w.now k }
    {
        self.t[k] as f32 * windows::weight(self.w, k)
    }

    // The samples that follow these, by the window from there on.
    fn then(self, t: &'a [i16]) -> Windowed<'a>
        requires { length self.t.now + length t.now ≤ length self.w.now }
        ensures { (result.t.now ≡ t.now) × (result.w.now ≡ drop (length self.entry.t.now) self.entry.w.now) }
    {
        Windowed {
            t,
            w: &self.w[self.t.len()..],
        }
    }
}

// A run of the fold that reads the frame alone, backwards and forwards from place from.
fn fold_frame(x: Windowed, from: usize, out: &mut [f32])
    requires { (length out.old ≤ from) × (from + length out.old ≤ length x.t.now) }
    ensures { out.new ≡ tab (length out.old) (low_at x.entry.t.now x.entry.w.now from) }
{
    for (i, o) in out.iter_mut().enumerate() {
        *o = -x.weighed(from - 1 - i) - x.weighed(from + i);
    }
}

// The run that reads the frame backwards, and forwards the zeros behind it. A zero's product with the window stays: it decides the sign of a zero.
fn fold_zeros(x: Windowed, from: usize, out: &mut [f32])
    requires { (length out.old ≤ from) × (from ≤ length x.t.now) × (length x.t.now + length out.old ≤ length x.w.now) }
    ensures { out.new ≡ tab (length out.old) (λ i.
        low (weighed x.entry.t.now x.entry.w.now (from - 1 - i)) (still x.entry.w.now (length x.entry.t.now + i))) }
{
    for (i, o) in out.iter_mut().enumerate() {
        *o = -x.weighed(from - 1 - i) - 0.0 * windows::weight(x.w, x.t.len() + i);
    }
}

// A run of the fold's second half: the past forwards from place from, less x backwards from place to.
fn fold_past(past: Windowed, from: usize, x: Windowed, to: usize, out: &mut [f32])
    requires { (from + length out.old ≤ length past.t.now) × (length out.old ≤ to) × (to ≤ length x.t.now) }
    ensures { out.new ≡ tab (length out.old) (λ i.
        sub binary32 (weighed past.entry.t.now past.entry.w.now (from + i)) (weighed x.entry.t.now x.entry.w.now (to - 1 - i))) }
{
    for (i, o) in out.iter_mut().enumerate() {
        *o = past.weighed(from + i) - x.weighed(to - 1 - i);
    }
}

// The first half of the fold, from the frame x and the z zeros behind it.
fn fold_low(x: Windowed, z: usize, out: &mut [f32])
    requires { (z ≤ length out.old) × (length x.t.now ≡ 2 * length out.old) × (length x.w.now ≡ length x.t.now + z) }
    ensures { out.new ≡ tab (length out.old) (low_at (x.entry.t.now ++ quiet z) x.entry.w.now (length out.old + z)) }
{
    let h = out.len();
    let (within, behind) = out.split_at_mut(h - z);
    fold_frame(x, h + z, within);
    fold_zeros(x, 2 * z, behind);
}

// The second half of the fold, from the past and the first z samples of the frame x.
fn fold_high(past: Windowed, x: &[i16], z: usize, out: &mut [f32])
    requires { (z ≤ length out.old) × (length past.t.now + z ≡ 2 * length out.old) × (z ≤ length x.now)
        × (length past.t.now + length x.now ≤ length past.w.now) }
    ensures { out.new ≡ tab (length out.old) (fold_high (length out.old) past.entry.w.now (past.entry.t.now ++ x.now)) }
{
    let (meets, rest) = out.split_at_mut(z);
    fold_past(past, 0, past.then(x), z, meets);
    fold_past(past, z, past, past.t.len(), rest);
}

// Inner. The time buffer of 2 nf samples, which is the past, the frame and zeros, folded with the window w to nf values.
// The buffer itself is not made: each place is read where it stands.
pub fn fold(past: &[i16], input: &[i16], w: &[u32], out: &mut [f32])
    requires { FoldFits (length out.old) past.now input.now w.now }
    ensures { out.new ≡ folded_of (length out.old) w.now past.now input.now }
{
    let h = out.len() / 2;
    let z = out.len() - past.len();
    let past = Windowed { t: past, w };
    let (low, high) = out.split_at_mut(h);
    fold_low(past.then(input), z, low);
    fold_high(past, input, z, high);
}

// Inner. Each value by the gain.
pub fn scale(buf: &mut [f32], gain: f32)
    ensures { buf.new ≡ scaled gain buf.old }
{
    for x in buf.iter_mut() {
        *x *= gain;
    }
}
