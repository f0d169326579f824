// A synthesis frame over the configuration: lines and memory to samples and memory. No refusals here, and no channel.
// Ported from src/decoder/modified_dct.rs of lc3-codec 0.2.0, and changed: a configuration number picks the tables, and the work areas are the
// frame's own.

#![tactic(auto)]

ghost use Rattle.std.specs.Prelude.{◌≡◌, ◌-◌, T, length};
ghost use Rattle.config.specs.Config.{valid, nf, z, ne};
ghost use Rattle.synthesis_samples.specs.Samples.{samples_of, memory_of};

// Inner. A frame of lines and its past to samples and the next past.
pub fn samples_of(c: u8, lines: &[f32], memory: &mut [f32], samples: &mut [f32])
    requires { T (valid c) × (length lines.now ≡ ne c) × (length memory.old ≡ nf c - z c) × (length samples.old ≡ nf c) }
    ensures memory { memory.new ≡ memory_of c lines.now }
    ensures samples { samples.new ≡ samples_of c memory.old lines.now }
{
    synthesis_frame::apply_dct(lines, samples);
    synthesis_overlap::overlap_of(c, memory, samples);
}
