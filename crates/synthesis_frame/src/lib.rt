// A synthesis frame in two steps, so that the DCT's work areas and the frame's are not on the stack at once: the DCT of its lines, then its samples and memory.
// Ported from src/decoder/modified_dct.rs of lc3-codec 0.2.0, and changed: the window and the work area are the caller's.

#![tactic(auto)]

ghost use Rattle.std.specs.Prelude.{◌≡◌, ◌-◌, ◌*◌, ◌≤◌, T, length};
ghost use Rattle.config.specs.Config.{among, dct_lengths};
ghost use Rattle.windows.specs.Windows.{Numbers};
ghost use Rattle.dct_steps.specs.Dct.{dct_iv};
ghost use Rattle.synthesis_steps.specs.Places.{padded, unfolded, windowed, output, remains};
ghost use Rattle.gains.specs.Gains.{scaled};

// Inner. The DCT of the lines, which zeros follow; the samples' slice is worked in, as in the Rust.
pub fn apply_dct(lines: &[f32], samples: &mut [f32])
    requires { (length lines.now ≤ length samples.old) × T (among dct_lengths (length samples.old)) }
    ensures { samples.new ≡ dct_iv (padded (length samples.old) lines.now) }
{
    synthesis_steps::pad(lines, samples);
    dct_iv::run(samples);
}

// Inner. These values, which stand in the samples' slice, to samples and memory. They are moved to v, a work area of nf places, times the gain.
pub fn overlap_add(
    v: &mut [f32],
    w: &[u32],
    memory: &mut [f32],
    samples: &mut [f32],
    g: f32,
    z: usize,
    h: usize,
)
    requires { (h ≤ 240) × (z ≤ h) × (length v.old ≡ 2 * h) × (length w.now ≡ 4 * h) × Numbers w.now × (length memory.old ≡ 2 * h - z) × (length samples.old ≡ 2 * h) }
    ensures values { v.new ≡ scaled g samples.old }
    ensures memory { memory.new ≡ remains (2 * h) z (windowed w.now (unfolded h (scaled g samples.old))) }
    ensures samples { samples.new ≡ output (2 * h) z memory.old (windowed w.now (unfolded h (scaled g samples.old))) }
{
    synthesis_steps::scaled(samples, g, v);
    synthesis_steps::overlap_add(v, w, memory, samples, z, h);
}
