// Compares lines, energies and samples with the specification's sums in double precision, which tools/gate/double_sums stored in data/sums. Prints for each
// configuration the worst error of each kind as a power of two of its frame's peak, and `failed` before that where one is above 2^-20.

#![tactic(auto)]

ghost use Rattle.std.specs.Prelude.{◌≡◌, ◌≤◌, min, T, length, nat_le};
ghost use Rattle.config.specs.Config.{valid};

use std::fs::File;

mod near; // near.rt: how near values are to sums

// The frames of each configuration, and how near they have to be.
const FRAMES: usize = 5;

const LIMIT: usize = 20;

// How near lines, energies and samples were in the frames so far.
#[derive(Clone, Copy)]
struct Worst {
    lines: usize,
    energies: usize,
    samples: usize,
}

#[derive(Clone, Copy)]
struct Analysed {
    channel: analysis::Channel,
    lines: usize,
    energies: usize,
}

#[derive(Clone, Copy)]
struct Played {
    channel: synthesis::Channel,
    samples: usize,
}

// Both channels after a frame, and how near it was.
#[derive(Clone, Copy)]
struct Stepped {
    analysis: analysis::Channel,
    synthesis: synthesis::Channel,
    worst: Worst,
}

impl Worst {
    fn with(self, lines: usize, energies: usize, samples: usize) -> Worst
        ensures { (result.lines ≡ min self.lines lines) × (result.energies ≡ min self.energies energies) × (result.samples ≡ min self.samples samples) }
    {
        Worst {
            lines: self.lines.min(lines),
            energies: self.energies.min(energies),
            samples: self.samples.min(samples),
        }
    }

    // Whether all are near enough.
    fn passes(self) -> bool
        ensures { result ≡ nat_le 20 (min (min self.lines self.energies) self.samples) }
    {
        LIMIT <= self.lines.min(self.energies).min(self.samples)
    }
}

// Fills buf from the file. Whether all of it was there.
fn fill(file: &File, buf: &mut [u8]) -> bool {
    let mut input = file;
    streams::read_full(&mut input, buf) == buf.len()
}

// How near values are to the sums that buf is filled with; not at all where those are cut.
fn compare_by(file: &File, values: &[f32], buf: &mut [u8]) -> usize
    requires { length values.now ≤ 480 }
{
    if !fill(file, buf) {
        return 0;
    }
    near::nearness(values, buf)
}

// How near values are to the next sums of the file.
fn compare(file: &File, values: &[f32]) -> usize
    requires { length values.now ≤ 480 }
{
    let mut buf = io::buffer();
    let n = 8 * values.len();
    compare_by(file, values, &mut buf[..n])
}

fn samples_by(file: &File, out: &mut [i16], buf: &mut [u8]) {
    fill(file, buf);
    call_log::samples(buf, out);
}

// The next samples of the file, as many as out has places.
fn read_samples(file: &File, out: &mut [i16])
    requires { length out.old ≤ 480 }
{
    let mut buf = io::buffer();
    let n = 2 + 2 * out.len();
    samples_by(file, out, &mut buf[..n]);
}

fn floats_by(file: &File, out: &mut [f32], buf: &mut [u8]) {
    fill(file, buf);
    call_log::floats(buf, out);
}

// The next lines of the file, as many as out has places.
fn read_lines(file: &File, out: &mut [f32])
    requires { length out.old ≤ 480 }
{
    let mut buf = io::buffer();
    let n = 2 + 4 * out.len();
    floats_by(file, out, &mut buf[..n]);
}

// The next frame of the file, analysed and measured in the slices lent.
fn analyse_in(
    file: &File,
    channel: analysis::Channel,
    frame: &mut [i16],
    lines: &mut [f32],
    energies: &mut [f32],
    peaks: &mut [usize],
) -> Analysed
    requires { (length frame.old ≤ 480) × (length lines.old ≤ 480) × (length energies.old ≤ 480) }
{
    read_samples(file, frame);
    let config = channel.config;
    let framed = channel.frame(frame, lines);
    let next = framed.channel;
    // the stored frames are of the configuration's lengths, and a refusal would leave zeros to compare
    let _ = measurement::measure(config, lines, energies, peaks);
    let by_lines = compare(file, lines);
    let by_energies = compare(file, energies);
    Analysed {
        channel: next,
        lines: by_lines,
        energies: by_energies,
    }
}

// The next frame of the file, analysed and measured.
fn analyse(file: &File, channel: analysis::Channel, nf: usize, nb: usize) -> Analysed
    requires { (nf ≤ 480) × (nb ≤ 480) }
{
    let mut frame = [0i16; 480];
    let mut lines = [0.0; 480];
    let mut energies = [0.0; 480];
    let mut peaks = [0usize; 480]; // which are compared with nothing here
    analyse_in(
        file,
        channel,
        &mut frame[..nf],
        &mut lines[..nf],
        &mut energies[..nb],
        &mut peaks[..nb],
    )
}

// The next lines of the file, played in the slices lent.
fn play_in(
    file: &File,
    channel: synthesis::Channel,
    lines: &mut [f32],
    samples: &mut [f32],
) -> Played
    requires { (length lines.old ≤ 480) × (length samples.old ≤ 480) }
{
    read_lines(file, lines);
    let framed = channel.frame(lines, samples);
    let next = framed.channel;
    let by_samples = compare(file, samples);
    Played {
        channel: next,
        samples: by_samples,
    }
}

// The next lines of the file, played.
fn play(file: &File, channel: synthesis::Channel, ne: usize, nf: usize) -> Played
    requires { (ne ≤ 480) × (nf ≤ 480) }
{
    let mut lines = [0.0; 480];
    let mut samples = [0.0; 480];
    play_in(file, channel, &mut lines[..ne], &mut samples[..nf])
}

// A frame of both channels.
fn step(file: &File, c: u8, a: analysis::Channel, s: synthesis::Channel, w: Worst) -> Stepped
    requires { T (valid c) }
{
    let x = analyse(file, a, config::nf(c), config::nb(c));
    let y = play(file, s, config::ne(c), config::nf(c));
    let analysis = x.channel;
    let synthesis = y.channel;
    Stepped {
        analysis,
        synthesis,
        worst: w.with(x.lines, x.energies, y.samples),
    }
}

// All frames of a configuration.
fn configuration(file: &File, c: u8) -> Worst
    requires { T (valid c) }
{
    let fresh = analysis::clear(c);
    let silent = synthesis::clear(c);
    let mut a = fresh.channel;
    let mut s = silent.channel;
    let mut w = Worst {
        lines: 60,
        energies: 60,
        samples: 60,
    };
    for k in 0..FRAMES {
        let next = step(file, c, a, s, w);
        a = next.analysis;
        s = next.synthesis;
        w = next.worst;
    }
    w
}

fn write(rt: &HostRuntime, bytes: &[u8]) {
    let mut output = rt.stdout();
    streams::write_all(&mut output, bytes);
}

fn write_decimal(rt: &HostRuntime, n: u64) {
    let mut digits = [0u8; 20];
    let k = io::decimal(n, &mut digits);
    write(rt, &digits[..k]);
}

fn print_power(rt: &HostRuntime, name: &[u8], n: usize) {
    write(rt, name);
    write(rt, b" 2^-");
    write_decimal(rt, n as u64);
}

fn report(rt: &HostRuntime, c: u8, w: Worst) {
    if !w.passes() {
        write(rt, b"failed ");
    }
    write_decimal(rt, c as u64);
    print_power(rt, b" lines", w.lines);
    print_power(rt, b" energies", w.energies);
    print_power(rt, b" samples", w.samples);
    write(rt, b"\n");
}

fn configurations(rt: &HostRuntime, file: &File) {
    for c in 0..255u8 {
        if config::valid(c) {
            report(rt, c, configuration(file, c));
        }
    }
}

fn main(rt: HostRuntime) {
    match File::open(&rt, "sums") {
        Ok(file) => configurations(&rt, &file),
        Err(error) => {
            let mut errors = rt.stderr();
            streams::fail(&mut errors, b"sums", &error);
        }
    }
}
