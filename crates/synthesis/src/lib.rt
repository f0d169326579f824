// The synthesis channel: its memory, `clear`, and a frame by value and in place.
// Ported from src/decoder/modified_dct.rs of lc3-codec 0.2.0, and changed: a configuration number picks the tables, the channel goes in by value
// and comes back, or lends its array, the work areas are the frame's own, and a call with wrong lengths or lines is refused.

#![tactic(auto)]

ghost use Rattle.std.specs.Prelude.{◌≡◌, length};
ghost use Rattle.refusals.specs.Refusals.{told_by};
ghost use Rattle.synthesis.specs.Synthesis.{kept_of, channel_of, channel_past, silent, cleared, number, verdict, frames, lent, cleared_by, outcome, outcome_at};
ghost use Rattle.synthesis_samples.specs.Samples.{samples_of};

use refusals::{Answered, Refusal};

// What a stream keeps between frames: the last places of the frame before, and zeros at the places that its configuration has no use for.
#[repr(C)]
#[derive(Clone, Copy)]
pub struct Channel {
    pub config: u8,
    pub memory: [f32; 300],
}

impl Channel {
    // The one function that makes a channel.
    fn new(config: u8, memory: [f32; 300]) -> Channel
        ensures { result ≡ channel_of config memory }
    {
        Channel { config, memory }
    }
}

// A channel with nothing in its past.
fn silent(config: u8) -> Channel
    ensures { result ≡ silent config }
{
    Channel::new(config, [0.0f32; 300])
}

// Entry. A fresh channel; of a number that is no configuration, a refusal and a channel of configuration 255.
// Not one function with analysis's: document 01 gives each its own kind of channel, and a trait that makes one, with its
// definitions as members, would be longer than what it saves.
pub fn clear(config: u8) -> Answered<Channel>
    ensures { cleared_by result ≡ cleared config }
{
    let clear = refusals::on_clear(config);
    Answered {
        told: clear.told,
        channel: silent(clear.config),
    }
}

// Whether a call is refused, in the order of document 01's table.
fn judge(c: u8, lines: &[f32], samples: &[f32]) -> Result<(), Refusal>
    ensures { told_by result ≡ verdict c (lent lines.now samples.now) }
{
    if !config::valid(c) {
        return Err(Refusal::BadConfig);
    }
    if lines.len() != config::ne(c) {
        return Err(Refusal::BadInput);
    }
    if samples.len() != config::nf(c) {
        return Err(Refusal::BadOutput);
    }
    refusals::on_values(lines)
}

// The step of a call that is not refused. The memory, of 300 places, comes as a slice: the checker follows no part of an array behind a reference.
fn step(config: u8, lines: &[f32], memory: &mut [f32], samples: &mut [f32])
    requires { (number config (lent lines.now samples.old) ≡ 0) × (length memory.old ≡ 300) }
    ensures memory { memory.new ≡ kept_of config lines.now }
    ensures samples { samples.new ≡ samples_of config (channel_past (channel_of config memory.old)) lines.now }
{
    let keep = samples.len() - config::z(config);
    synthesis_samples::samples_of(config, lines, &mut memory[..keep], samples);
    synthesis_steps::zeros(&mut memory[keep..]);
}

// Entry. A frame of lines to its samples, on a channel that stays where it is: its configuration, and its memory, lent. A refusal writes nothing.
pub fn frame_at(
    config: u8,
    memory: &mut [f32; 300],
    lines: &[f32],
    samples: &mut [f32],
) -> Result<(), Refusal>
    ensures { frames (channel_of config memory.old) (lent lines.now samples.old) ≡ outcome_at config result memory.new samples.new }
{
    judge(config, lines, samples)?;
    step(config, lines, memory, samples);
    Ok(())
}

impl Channel {
    // Entry. The same with the channel handed in and back.
    pub fn frame(self, lines: &[f32], samples: &mut [f32]) -> Answered<Channel>
        ensures { frames self (lent lines.now samples.old) ≡ outcome result samples.new }
    {
        let config = self.config;
        let mut answered = Answered {
            told: Ok(()),
            channel: self,
        };
        answered.told = frame_at(config, &mut answered.channel.memory, lines, samples);
        answered
    }
}
