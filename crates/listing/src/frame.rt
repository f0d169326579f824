// What a frame's line tells: flag and loudest band, and the channel after it.
ghost use Rattle.std.specs.Prelude.{◌≡◌, T, length, replicate};
ghost use Rattle.config.specs.Config.{valid, nf, nb};
ghost use Rattle.frame_file.specs.File.{samples, frame_bytes};
ghost use Rattle.listing.specs.Listing.{zeros, listened, ListenedIn};

use analysis::Channel;
use loudest::Loudest;

#[derive(Clone, Copy)]
pub struct Listened {
    pub flag: bool,
    pub loudest: Loudest,
    pub channel: Channel,
}

// The lines of a frame, their measurement and the loudest of their bands, in the rooms lent.
fn listen_in(
    channel: Channel,
    input: &[i16],
    lines: &mut [f32],
    energies: &mut [f32],
    peaks: &mut [usize],
) -> Listened
    requires { (lines.old ≡ zeros (nf channel.config)) × (energies.old ≡ zeros (nb channel.config)) × (peaks.old ≡ replicate (nb channel.config) 0) }
    ensures { ListenedIn channel input.now result lines.new energies.new peaks.new }
{
    let config = channel.config;
    let framed = channel.frame(input, lines);
    let flag = measurement::measure(config, lines, energies, peaks).unwrap_or(false);
    let loudest = loudest::loudest_band(config, energies).unwrap_or(Loudest::Quiet);
    Listened {
        flag,
        loudest,
        channel: framed.channel,
    }
}

// The same in rooms of its own.
fn listen(channel: Channel, input: &[i16]) -> Listened
    requires { T (valid channel.config) }
    ensures { result ≡ listened channel input.now }
{
    let config = channel.config;
    let n = config::nf(config);
    let b = config::nb(config);
    let mut lines = [0.0; 480];
    let mut energies = [0.0; 64];
    let mut peaks = [0usize; 64];
    listen_in(
        channel,
        input,
        &mut lines[..n],
        &mut energies[..b],
        &mut peaks[..b],
    )
}

// Inner. The same of a whole record's bytes.
pub fn listen_to(channel: Channel, bytes: &[u8]) -> Listened
    requires { T (valid channel.config) × (length bytes.now ≡ frame_bytes channel.config) }
    ensures { result ≡ listened channel (samples (nf channel.config) bytes.now) }
{
    let n = config::nf(channel.config);
    let mut samples = [0i16; 480];
    frame_file::decode(bytes, &mut samples[..n]);
    listen(channel, &samples[..n])
}
