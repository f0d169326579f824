// The archive for C: an export for each entry of c_api, of the same name and with the same clauses, that hands its arguments to it and its answer back.
// A library of Rattle exports nothing to C, and nothing of Rattle can stand on an archive, so each has a room of its own. New in this port.

#![tactic(auto)]

ghost use Rattle.std.specs.Prelude.{◌≡◌};
ghost use Rattle.kissfft.specs.Fft as ft;
ghost use Rattle.dct_iv.specs.DctIv as dc;
ghost use Rattle.analysis.specs.Analysis as an;
ghost use Rattle.measurement.specs.Measurement as ms;
ghost use Rattle.synthesis.specs.Synthesis as sy;
ghost use Rattle.loudest.specs.Loudest.{heard, outcome as heard_by};
ghost use Rattle.near_nyquist.specs.Sooner.{asked, outcome as asked_by};
ghost use Rattle.c_api.specs.Layout.{analysis_answered, synthesis_answered, analysis_cleared, analysis_outcome, analysis_outcome_at, measured, measured_outcome, synthesis_cleared, synthesis_outcome, synthesis_outcome_at, loudest_heard, nyquist_asked};

use c_api::{AnalysisAnswered, Asked, LoudestHeard, Measured, SynthesisCleared, SynthesisFramed};
use refusals::Verdict;

// The FFT, forward or inverse.
#[unsafe(no_mangle)]
pub extern "C" fn loamscarf_fft(
    size: usize,
    inverse: bool,
    re_in: &[f32],
    im_in: &[f32],
    re_out: &mut [f32],
    im_out: &mut [f32],
) -> Verdict
    ensures { ft.outcome result re_out.new im_out.new ≡ ft.answer size inverse re_in.now im_in.now re_out.old im_out.old }
{
    c_api::loamscarf_fft(size, inverse, re_in, im_in, re_out, im_out)
}

// The DCT-IV, in place.
#[unsafe(no_mangle)]
pub extern "C" fn loamscarf_dct_iv(length: usize, buf: &mut [f32]) -> Verdict
    ensures { dc.outcome result buf.new ≡ dc.answer length buf.old }
{
    c_api::loamscarf_dct_iv(length, buf)
}

// A fresh analysis channel.
#[unsafe(no_mangle)]
pub extern "C" fn loamscarf_analysis_clear(config: u8) -> AnalysisAnswered
    ensures { result ≡ analysis_cleared (an.cleared config) }
{
    c_api::loamscarf_analysis_clear(config)
}

// A frame of samples to lines.
#[unsafe(no_mangle)]
pub extern "C" fn loamscarf_analysis_frame(
    channel: analysis::Channel,
    input: &[i16],
    lines: &mut [f32],
) -> AnalysisAnswered
    ensures { an.frames channel (an.lent input.now lines.old) ≡ analysis_outcome result lines.new }
{
    c_api::loamscarf_analysis_frame(channel, input, lines)
}

// The same on a channel that stays in the caller's memory, of which it gets the configuration and the samples: nothing of it is copied.
#[unsafe(no_mangle)]
pub extern "C" fn loamscarf_analysis_frame_at(
    config: u8,
    samples: &mut [i16; 300],
    input: &[i16],
    lines: &mut [f32],
) -> u8
    ensures { an.frames (an.channel_of config samples.old) (an.lent input.now lines.old) ≡ analysis_outcome_at config result samples.new lines.new }
{
    c_api::loamscarf_analysis_frame_at(config, samples, input, lines)
}

// The energies and peaks of lines, and their flag.
#[unsafe(no_mangle)]
pub extern "C" fn loamscarf_measure(
    config: u8,
    lines: &[f32],
    energies: &mut [f32],
    peaks: &mut [usize],
) -> Measured
    ensures { measured_outcome result energies.new peaks.new ≡ ms.measures config (ms.lent lines.now energies.old peaks.old) }
{
    c_api::loamscarf_measure(config, lines, energies, peaks)
}

// A fresh synthesis channel.
#[unsafe(no_mangle)]
pub extern "C" fn loamscarf_synthesis_clear(config: u8) -> SynthesisCleared
    ensures { result ≡ synthesis_cleared (sy.cleared config) }
{
    c_api::loamscarf_synthesis_clear(config)
}

// A frame of lines to samples.
#[unsafe(no_mangle)]
pub extern "C" fn loamscarf_synthesis_frame(
    channel: synthesis::Channel,
    lines: &[f32],
    samples: &mut [f32],
) -> SynthesisFramed
    ensures { sy.frames channel (sy.lent lines.now samples.old) ≡ synthesis_outcome result samples.new }
{
    c_api::loamscarf_synthesis_frame(channel, lines, samples)
}

// The same on a channel that stays in the caller's memory, of which it gets the configuration and the memory.
#[unsafe(no_mangle)]
pub extern "C" fn loamscarf_synthesis_frame_at(
    config: u8,
    memory: &mut [f32; 300],
    lines: &[f32],
    samples: &mut [f32],
) -> Verdict
    ensures { sy.frames (sy.channel_of config memory.old) (sy.lent lines.now samples.old) ≡ synthesis_outcome_at config result memory.new samples.new }
{
    c_api::loamscarf_synthesis_frame_at(config, memory, lines, samples)
}

// The loudest band of the energies of a configuration.
#[unsafe(no_mangle)]
pub extern "C" fn loamscarf_loudest_band(config: u8, energies: &[f32]) -> LoudestHeard
    ensures { result ≡ loudest_heard (heard config energies.now) }
{
    c_api::loamscarf_loudest_band(config, energies)
}

// Whether the energies of a configuration lie near the Nyquist frequency, and how many bands were read for it.
#[unsafe(no_mangle)]
pub extern "C" fn loamscarf_near_nyquist(config: u8, energies: &[f32]) -> Asked
    ensures { result ≡ nyquist_asked (asked config energies.now) }
{
    c_api::loamscarf_near_nyquist(config, energies)
}
