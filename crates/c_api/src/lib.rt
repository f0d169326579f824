// The entries for C and for Rust: each hands its arguments to an entry of the port, and its answer back. What crosses has C's layout, and a slice
// crosses as a pointer and a length. New in this port.

#![tactic(auto)]

ghost use Rattle.std.specs.Prelude.{◌≡◌};
ghost use Rattle.kissfft.specs.Fft as ft;
ghost use Rattle.dct_iv.specs.DctIv as dc;
ghost use Rattle.analysis.specs.Analysis as an;
ghost use Rattle.measurement.specs.Measurement as ms;
ghost use Rattle.synthesis.specs.Synthesis as sy;
ghost use Rattle.loudest.specs.Loudest.{heard, outcome as heard_by};
ghost use Rattle.near_nyquist.specs.Sooner.{asked, outcome as asked_by};
ghost use Rattle.c_api.specs.Layout.{analysis_answered, synthesis_answered, analysis_cleared, analysis_outcome, analysis_outcome_at, measured, measured_outcome, synthesis_cleared, synthesis_outcome, synthesis_outcome_at, loudest_heard, nyquist_asked};

use loudest::Loudest;
use near_nyquist::Sooner;
use refusals::{Answered, Refusal, Verdict};

// An analysis channel after a call, and the call's number. No generic struct in place of this one and the next: the C interface has none.
#[repr(C)]
#[derive(Clone, Copy)]
pub struct AnalysisAnswered {
    pub number: u8,
    pub channel: analysis::Channel,
}

impl From<Answered<analysis::Channel>> for AnalysisAnswered {
    ghost from_gives = { λ answered given. given ≡ analysis_answered answered };

    // Entry. The number of an answer, and its channel.
    fn from(answered: Answered<analysis::Channel>) -> AnalysisAnswered
        ensures { result ≡ analysis_answered answered }
    {
        AnalysisAnswered {
            number: Verdict::from(answered.told).number,
            channel: answered.channel,
        }
    }
}

// A fresh synthesis channel, and the clear's number.
#[repr(C)]
#[derive(Clone, Copy)]
pub struct SynthesisCleared {
    pub number: u8,
    pub channel: synthesis::Channel,
}

impl From<Answered<synthesis::Channel>> for SynthesisCleared {
    ghost from_gives = { λ answered given. given ≡ synthesis_answered answered };

    // Entry. The number of an answer, and its channel.
    fn from(answered: Answered<synthesis::Channel>) -> SynthesisCleared
        ensures { result ≡ synthesis_answered answered }
    {
        SynthesisCleared {
            number: Verdict::from(answered.told).number,
            channel: answered.channel,
        }
    }
}

// A synthesis frame's answer.
#[repr(C)]
#[derive(Clone, Copy)]
pub struct SynthesisFramed {
    pub number: u8,
    pub index: usize,
    pub channel: synthesis::Channel,
}

// A measurement's answer.
#[repr(C)]
#[derive(Clone, Copy)]
pub struct Measured {
    pub number: u8,
    pub index: usize,
    pub flag: bool,
}

impl From<Result<bool, Refusal>> for Measured {
    ghost from_gives = { λ told given. given ≡ measured told };

    // Entry. The numbers of an answer, and its flag.
    fn from(told: Result<bool, Refusal>) -> Measured
        ensures { result ≡ measured told }
    {
        match told {
            Ok(flag) => Measured {
                number: 0,
                index: 0,
                flag,
            },
            Err(refusal) => Measured {
                number: refusal.number(),
                index: refusal.index(),
                flag: false,
            },
        }
    }
}

// The loudest band's answer: band and product are 0 where it is quiet.
#[repr(C)]
#[derive(Clone, Copy)]
pub struct LoudestHeard {
    pub number: u8,
    pub index: usize,
    pub loud: bool,
    pub band: usize,
    pub product: f32,
}

impl From<Result<Loudest, Refusal>> for LoudestHeard {
    ghost from_gives = { λ told given. given ≡ loudest_heard (heard_by told) };

    // Entry. The numbers of an answer, and its band.
    fn from(told: Result<Loudest, Refusal>) -> LoudestHeard
        ensures { result ≡ loudest_heard (heard_by told) }
    {
        let quiet = LoudestHeard {
            number: 0,
            index: 0,
            loud: false,
            band: 0,
            product: 0.0,
        };
        match told {
            Ok(Loudest::Quiet) => quiet,
            Ok(Loudest::Loud(band, product)) => LoudestHeard {
                loud: true,
                band,
                product,
                ..quiet
            },
            Err(refusal) => LoudestHeard {
                number: refusal.number(),
                index: refusal.index(),
                ..quiet
            },
        }
    }
}

// The answer on nearness to the Nyquist frequency, and how many bands were read for it.
#[repr(C)]
#[derive(Clone, Copy)]
pub struct Asked {
    pub number: u8,
    pub index: usize,
    pub answer: bool,
    pub read: usize,
}

impl From<Result<Sooner, Refusal>> for Asked {
    ghost from_gives = { λ told given. given ≡ nyquist_asked (asked_by told) };

    // Entry. The numbers of an answer, and what it says.
    fn from(told: Result<Sooner, Refusal>) -> Asked
        ensures { result ≡ nyquist_asked (asked_by told) }
    {
        match told {
            Ok(Sooner { answer, read }) => Asked {
                number: 0,
                index: 0,
                answer,
                read,
            },
            Err(refusal) => Asked {
                number: refusal.number(),
                index: refusal.index(),
                answer: false,
                read: 0,
            },
        }
    }
}

// Entry. The FFT, forward or inverse.
#[unsafe(no_mangle)]
pub extern "C" fn loamscarf_fft(
    size: usize,
    inverse: bool,
    re_in: &[f32],
    im_in: &[f32],
    re_out: &mut [f32],
    im_out: &mut [f32],
) -> Verdict
    ensures { ft.outcome result re_out.new im_out.new ≡ ft.answer size inverse re_in.now im_in.now re_out.old im_out.old }
{
    Verdict::from(kissfft::fft(size, inverse, re_in, im_in, re_out, im_out))
}

// Entry. The DCT-IV, in place.
#[unsafe(no_mangle)]
pub extern "C" fn loamscarf_dct_iv(length: usize, buf: &mut [f32]) -> Verdict
    ensures { dc.outcome result buf.new ≡ dc.answer length buf.old }
{
    Verdict::from(dct_iv::dct_iv(length, buf))
}

// Entry. A fresh analysis channel.
#[unsafe(no_mangle)]
pub extern "C" fn loamscarf_analysis_clear(config: u8) -> AnalysisAnswered
    ensures { result ≡ analysis_cleared (an.cleared config) }
{
    AnalysisAnswered::from(analysis::clear(config))
}

// Entry. A frame of samples to lines. Not through `Channel::frame`: the compiler would copy the channel once more.
#[unsafe(no_mangle)]
pub extern "C" fn loamscarf_analysis_frame(
    channel: analysis::Channel,
    input: &[i16],
    lines: &mut [f32],
) -> AnalysisAnswered
    ensures { an.frames channel (an.lent input.now lines.old) ≡ analysis_outcome result lines.new }
{
    let config = channel.config;
    let mut framed = AnalysisAnswered { number: 0, channel };
    let told = analysis::frame_at(config, &mut framed.channel.samples, input, lines);
    framed.number = Verdict::from(told).number;
    framed
}

// Entry. The same on a channel that stays in the caller's memory, of which it gets the configuration and the samples: nothing of it is copied.
#[unsafe(no_mangle)]
pub extern "C" fn loamscarf_analysis_frame_at(
    config: u8,
    samples: &mut [i16; 300],
    input: &[i16],
    lines: &mut [f32],
) -> u8
    ensures { an.frames (an.channel_of config samples.old) (an.lent input.now lines.old) ≡ analysis_outcome_at config result samples.new lines.new }
{
    Verdict::from(analysis::frame_at(config, samples, input, lines)).number
}

// Entry. The energies and peaks of lines, and their flag.
#[unsafe(no_mangle)]
pub extern "C" fn loamscarf_measure(
    config: u8,
    lines: &[f32],
    energies: &mut [f32],
    peaks: &mut [usize],
) -> Measured
    ensures { measured_outcome result energies.new peaks.new ≡ ms.measures config (ms.lent lines.now energies.old peaks.old) }
{
    Measured::from(measurement::measure(config, lines, energies, peaks))
}

// Entry. A fresh synthesis channel.
#[unsafe(no_mangle)]
pub extern "C" fn loamscarf_synthesis_clear(config: u8) -> SynthesisCleared
    ensures { result ≡ synthesis_cleared (sy.cleared config) }
{
    SynthesisCleared::from(synthesis::clear(config))
}

// Entry. A frame of lines to samples. Not through `Channel::frame`, as in analysis.
#[unsafe(no_mangle)]
pub extern "C" fn loamscarf_synthesis_frame(
    channel: synthesis::Channel,
    lines: &[f32],
    samples: &mut [f32],
) -> SynthesisFramed
    ensures { sy.frames channel (sy.lent lines.now samples.old) ≡ synthesis_outcome result samples.new }
{
    let config = channel.config;
    let mut framed = SynthesisFramed {
        number: 0,
        index: 0,
        channel,
    };
    let told = synthesis::frame_at(config, &mut framed.channel.memory, lines, samples);
    let verdict = Verdict::from(told);
    framed.number = verdict.number;
    framed.index = verdict.index;
    framed
}

// Entry. The same on a channel that stays in the caller's memory, of which it gets the configuration and the memory.
#[unsafe(no_mangle)]
pub extern "C" fn loamscarf_synthesis_frame_at(
    config: u8,
    memory: &mut [f32; 300],
    lines: &[f32],
    samples: &mut [f32],
) -> Verdict
    ensures { sy.frames (sy.channel_of config memory.old) (sy.lent lines.now samples.old) ≡ synthesis_outcome_at config result memory.new samples.new }
{
    Verdict::from(synthesis::frame_at(config, memory, lines, samples))
}

// Entry. The loudest band of the energies of a configuration.
#[unsafe(no_mangle)]
pub extern "C" fn loamscarf_loudest_band(config: u8, energies: &[f32]) -> LoudestHeard
    ensures { result ≡ loudest_heard (heard config energies.now) }
{
    LoudestHeard::from(loudest::loudest_band(config, energies))
}

// Entry. Whether the energies of a configuration lie near the Nyquist frequency, and how many bands were read for it.
#[unsafe(no_mangle)]
pub extern "C" fn loamscarf_near_nyquist(config: u8, energies: &[f32]) -> Asked
    ensures { result ≡ nyquist_asked (asked config energies.now) }
{
    Asked::from(near_nyquist::near_nyquist(config, energies))
}
