// The first half of an analysis frame over the configuration: frame and past to lines. No refusals
// here, and no channel.
// Ported from src/encoder/modified_dct.rs of lc3-codec 0.2.0, and changed: a configuration number
// picks the tables, and the time buffer is not made.

#![tactic(auto)]

ghost use Rattle.std.specs.Prelude.{◌≡◌, ◌-◌, T, length};
ghost use Rattle.config.specs.Config.{valid, nf, z};
ghost use Rattle.analysis_lines.specs.Lines.{lines_of};

// Inner. The lines of a frame, after its past: fold with the window, DCT, gain.
pub fn lines_of(c: u8, past: &[i16], input: &[i16], lines: &mut [f32])
    requires { T (valid c) × (length past.now ≡ nf c - z c) × (length input.now ≡ nf c) × (length lines.old ≡ nf c) }
    ensures { lines.new ≡ lines_of c past.now input.now }
{
    analysis_steps::fold(past, input, windows::window(c), lines);
    dct_iv::run(lines);
    analysis_steps::scale(lines, gains::gain(lines.len()));
}
