// The analysis channel: its samples, `clear`, and a frame by value and in place.
// Ported from src/encoder/modified_dct.rs of lc3-codec 0.2.0, and changed: a configuration number picks the tables, the channel goes in by value
// and comes back, or lends its array, the time buffer is the frame's own, and a call with wrong lengths is refused.

#![tactic(auto)]

ghost use Rattle.std.specs.Prelude.{◌≡◌, T, length, Ok};
ghost use Rattle.config.specs.Config.{valid, nf};
ghost use Rattle.refusals.specs.Refusals.{told, told_by};
ghost use Rattle.analysis.specs.Analysis.{channel_of, channel_past, silent, cleared, number, accepted, frames, lent, cleared_by, outcome, outcome_at};

use refusals::{Answered, Refusal};

// What a stream keeps between frames: the last samples of the frame before, and zeros at the places that its configuration has no use for.
#[repr(C)]
#[derive(Clone, Copy)]
pub struct Channel {
    pub config: u8,
    pub samples: [i16; 300],
}

impl Channel {
    // The one function that makes a channel.
    fn new(config: u8, samples: [i16; 300]) -> Channel
        ensures { result ≡ channel_of config samples }
    {
        Channel { config, samples }
    }
}

// A channel with nothing in its past.
fn silent(config: u8) -> Channel
    ensures { result ≡ silent config }
{
    Channel::new(config, [0i16; 300])
}

// Entry. A fresh channel; of a number that is no configuration, a refusal and a channel of configuration 255.
pub fn clear(config: u8) -> Answered<Channel>
    ensures { cleared_by result ≡ cleared config }
{
    let clear = refusals::on_clear(config);
    Answered {
        told: clear.told,
        channel: silent(clear.config),
    }
}

// Whether a call is refused, in the order of document 01's table.
fn judge(c: u8, input: &[i16], lines: &[f32]) -> Result<(), Refusal>
    ensures { told_by result ≡ told (number c (lent input.now lines.now)) }
{
    if !config::valid(c) {
        return Err(Refusal::BadConfig);
    }
    let nf = config::nf(c);
    if input.len() != nf {
        return Err(Refusal::BadInput);
    }
    if lines.len() != nf {
        return Err(Refusal::BadOutput);
    }
    Ok(())
}

// The step of a call that is not refused. The samples, of 300 places, come as a slice: the checker follows no part of an array behind a reference.
fn step(c: u8, samples: &mut [i16], input: &[i16], lines: &mut [f32])
    requires { T (valid c) × (length input.now ≡ nf c) × (length lines.old ≡ nf c) × (length samples.old ≡ 300) }
    ensures { accepted c (channel_past (channel_of c samples.old)) input.now ≡ outcome_at c (Ok tt) samples.new lines.new }
{
    let z = config::z(c);
    let keep = input.len() - z;
    analysis_lines::lines_of(c, &samples[..keep], input, lines);
    analysis_steps::keep(input, z, samples);
}

// Entry. A frame of samples to its lines, on a channel that stays where it is: its configuration, and its samples, lent. A refusal writes nothing.
pub fn frame_at(
    config: u8,
    samples: &mut [i16; 300],
    input: &[i16],
    lines: &mut [f32],
) -> Result<(), Refusal>
    ensures { frames (channel_of config samples.old) (lent input.now lines.old)
        ≡ outcome_at config result samples.new lines.new }
{
    judge(config, input, lines)?;
    step(config, samples, input, lines);
    Ok(())
}

impl Channel {
    // Entry. The same with the channel handed in and back.
    pub fn frame(self, input: &[i16], lines: &mut [f32]) -> Answered<Channel>
        ensures { frames self (lent input.now lines.old) ≡ outcome result lines.new }
    {
        let config = self.config;
        let mut answered = Answered {
            told: Ok(()),
            channel: self,
        };
        answered.told = frame_at(config, &mut answered.channel.samples, input, lines);
        answered
    }
}
