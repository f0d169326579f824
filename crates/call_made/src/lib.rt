// The calls of a log (`LMC`), made: the bytes of a whole call and the channels in, the channels and the answer out. New in this port.

#![tactic(auto)]

ghost use Rattle.std.specs.Prelude.{◌≡◌, length, get_or, drop};
ghost use Rattle.laws.specs.Lists.{tab};
ghost use Rattle.frame_file.specs.File.{short};
ghost use Rattle.refusals.specs.Refusals.{told_by};
ghost use Rattle.call_log.specs.Log.{Places, sample_of, float_of};
ghost use Rattle.dct_iv.specs.DctIv as dc;
ghost use Rattle.near_nyquist.specs.Sooner as near;
ghost use Rattle.call_made.specs.Made.{floats, past_floats, past_samples, with_peaks, one, plain, called, after_clear, clear_analysis, clear_synthesis, frame_on, frame, measure_on, measure, measure_after, both, analyse, play_on, play, fft_on, fft, dct, loudest_on, loudest, asked_as, ask_on, ask, set_analysis, set_synthesis, with_analysis, with_synthesis, with_answer, bench_of, fresh, on_none, on_synthesis, made};

use call_text::Extra;
use loudest::Loudest;
use near_nyquist::Sooner;
use refusals::{Answered, Refusal, Verdict};

// What a call answers: the numbers of its first line, and its output areas, m places of x, n of y and o of z, which are peaks or the number of bands read.
#[derive(Clone, Copy)]
pub struct Answer {
    pub told: Verdict,
    pub extra: Extra,
    pub x: [f32; 1024],
    pub m: usize,
    pub y: [f32; 1024],
    pub n: usize,
    pub z: [usize; 1024],
    pub o: usize,
}

// A channel after a call, and the answer.
#[derive(Clone, Copy)]
pub struct Called<C> {
    pub channel: C,
    pub answer: Answer,
}

// The channels, and the answer of the last call.
#[derive(Clone, Copy)]
pub struct Bench {
    pub analysis: analysis::Channel,
    pub synthesis: synthesis::Channel,
    pub answer: Answer,
}

// The values after a count, as many as out has places, and the bytes after all of them.
fn read_floats<'a>(b: &'a [u8], out: &mut [f32]) -> &'a [u8]
    ensures { (result.now ≡ past_floats b.now) × (out.new ≡ tab (length out.old) (float_of b.now)) }
{
    call_log::floats(b, out);
    call_log::rest(b, 2 + 4 * call_log::count(b))
}

// The bytes after the samples that follow a count.
fn past_samples(b: &[u8]) -> &[u8]
    ensures { result.now ≡ past_samples b.now }
{
    call_log::rest(b, 2 + 2 * call_log::count(b))
}

// What a call is told, whatever it gives beside.
fn told<T: Copy>(answer: Result<T, Refusal>) -> Verdict
    ensures { result ≡ told_by answer }
{
    Verdict::from(match answer {
        Ok(_) => Ok(()),
        Err(refusal) => Err(refusal),
    })
}

// The answer of a call that has no output area.
fn plain(number: u8) -> Answer
    ensures { result ≡ plain number }
{
    one_area(
        Verdict { number, index: 0 },
        Extra::Nothing,
        call_log::area(),
        0,
    )
}

// The answer of a call that has one, m places of x.
fn one_area(told: Verdict, extra: Extra, x: [f32; 1024], m: usize) -> Answer
    ensures { result ≡ one told.number told.index extra x m }
{
    with_peaks(told, extra, x, m, call_log::peaks(), 0)
}

// The same with peaks, or bands read, o places of z.
fn with_peaks(
    told: Verdict,
    extra: Extra,
    x: [f32; 1024],
    m: usize,
    z: [usize; 1024],
    o: usize,
) -> Answer
    ensures { result ≡ with_peaks told.number told.index extra x m z o }
{
    Answer {
        told,
        extra,
        x,
        m,
        y: call_log::area(),
        n: 0,
        z,
        o,
    }
}

// A channel, with an answer that has no output area.
fn called_as<C: Copy>(channel: C, number: u8) -> Called<C>
    ensures { result ≡ called channel (plain number) }
{
    Called {
        channel,
        answer: plain(number),
    }
}

// A channel after a clear: the old one where it was refused.
fn after_clear<C: Copy>(old: C, cleared: Answered<C>) -> Called<C>
    ensures { result ≡ after_clear old (told_by cleared.told).number cleared.channel }
{
    let number = told(cleared.told).number;
    let channel = if number == 0 { cleared.channel } else { old };
    called_as(channel, number)
}

// 1: clear of the analysis channel.
fn clear_analysis(old: analysis::Channel, b: &[u8]) -> Called<analysis::Channel>
    ensures { result ≡ clear_analysis old b.now }
{
    after_clear(old, analysis::clear(call_log::byte_at(b, 1)))
}

// 11: frame to lines alone: the samples, the call. That the area has the places is said again, since lending them needs it.
fn frame(channel: analysis::Channel, b: &[u8]) -> Called<analysis::Channel>
    ensures value { result ≡ frame channel b.now }
    ensures places { Places result.answer.m result.answer.x }
{
    let input = call_log::rest(b, 1);
    let mut room = [0i16; 1024];
    let k = call_log::count_places(input, &room);
    frame_on(channel, input, &mut room[..k])
}

fn frame_on(channel: analysis::Channel, b: &[u8], input: &mut [i16]) -> Called<analysis::Channel>
    ensures value { result ≡ frame_on channel (tab (length input.old) (sample_of b.now)) (past_samples b.now) }
    ensures places { Places result.answer.m result.answer.x }
    ensures input_after { input.new ≡ tab (length input.old) (sample_of b.now) }
{
    call_log::samples(b, input);
    let mut x = call_log::area();
    let m = call_log::count_places(past_samples(b), &x);
    let framed = channel.frame(input, &mut x[..m]);
    let number = told(framed.told).number;
    Called {
        channel: framed.channel,
        answer: one_area(Verdict { number, index: 0 }, Extra::Nothing, x, m),
    }
}

// 12: measurement alone: the lines, the call.
fn measure(b: &[u8]) -> Answer
    ensures { result ≡ measure b.now }
{
    let input = call_log::rest(b, 2);
    let mut room = call_log::area();
    let k = call_log::count_places(input, &room);
    measure_read(call_log::byte_at(b, 1), input, &mut room[..k])
}

fn measure_read(config: u8, b: &[u8], lines: &mut [f32]) -> Answer
    ensures value { result ≡ measure_on config (tab (length lines.old) (float_of b.now)) (past_floats b.now) }
    ensures lines_after { lines.new ≡ tab (length lines.old) (float_of b.now) }
{
    let lengths = read_floats(b, lines);
    measure_on(config, lines, lengths)
}

fn measure_on(config: u8, lines: &[f32], lengths: &[u8]) -> Answer
    ensures { result ≡ measure_on config lines.now lengths.now }
{
    let mut x = call_log::area();
    let mut z = call_log::peaks();
    let m = call_log::count_places(lengths, &x);
    let o = call_log::count_places(call_log::rest(lengths, 2), &z);
    let measured = measurement::measure(config, lines, &mut x[..m], &mut z[..o]);
    let flag = measured.unwrap_or(false);
    with_peaks(told(measured), Extra::Flag(flag), x, m, z, o)
}

// 2: analysis frame: both in turn, the frame to lines and the measurement of them.
fn analyse(channel: analysis::Channel, b: &[u8]) -> Called<analysis::Channel>
    ensures { result ≡ analyse channel b.now }
{
    let framed = frame(channel, b);
    let lines = framed.answer;
    let lengths = past_samples(call_log::rest(b, 1));
    let energies = measure_after(channel.config, lines, call_log::rest(lengths, 2));
    Called {
        channel: framed.channel,
        answer: both(lines, energies),
    }
}

// The measurement after a frame. Where that was refused no call is made.
fn measure_after(config: u8, framed: Answer, lengths: &[u8]) -> Answer
    requires { Places framed.m framed.x }
    ensures { result ≡ measure_after config framed lengths.now }
{
    if framed.told.number != 0 {
        return with_peaks(
            framed.told,
            Extra::Flag(false),
            call_log::area(),
            call_log::count(lengths),
            call_log::peaks(),
            call_log::count(call_log::rest(lengths, 2)),
        );
    }
    let x = framed.x;
    let m = framed.m;
    measure_on(config, &x[..m], lengths)
}

// One answer of the two.
fn both(first: Answer, second: Answer) -> Answer
    ensures { result ≡ both first second }
{
    let x = first.x;
    let y = second.x;
    let z = second.z;
    Answer {
        told: second.told,
        extra: second.extra,
        x,
        m: first.m,
        y,
        n: second.m,
        z,
        o: second.o,
    }
}

// 3: clear of the synthesis channel.
fn clear_synthesis(old: synthesis::Channel, b: &[u8]) -> Called<synthesis::Channel>
    ensures { result ≡ clear_synthesis old b.now }
{
    after_clear(old, synthesis::clear(call_log::byte_at(b, 1)))
}

// 4: synthesis frame: the lines, the call.
fn play(channel: synthesis::Channel, b: &[u8]) -> Called<synthesis::Channel>
    ensures { result ≡ play channel b.now }
{
    let input = call_log::rest(b, 1);
    let mut room = call_log::area();
    let k = call_log::count_places(input, &room);
    play_on(channel, input, &mut room[..k])
}

fn play_on(channel: synthesis::Channel, b: &[u8], lines: &mut [f32]) -> Called<synthesis::Channel>
    ensures value { result ≡ play_on channel (tab (length lines.old) (float_of b.now)) (past_floats b.now) }
    ensures lines_after { lines.new ≡ tab (length lines.old) (float_of b.now) }
{
    let length = read_floats(b, lines);
    let mut x = call_log::area();
    let m = call_log::count_places(length, &x);
    let framed = channel.frame(lines, &mut x[..m]);
    Called {
        channel: framed.channel,
        answer: one_area(told(framed.told), Extra::Nothing, x, m),
    }
}

// 5: FFT: the real parts, the imaginary parts, the call.
fn fft(b: &[u8]) -> Answer
    ensures { result ≡ fft b.now }
{
    let parts = call_log::rest(b, 4);
    let mut re = call_log::area();
    let k = call_log::count_places(parts, &re);
    fft_real(b, parts, &mut re[..k])
}

fn fft_real(b: &[u8], parts: &[u8], re: &mut [f32]) -> Answer
    ensures value { result ≡ fft_on b.now (tab (length re.old) (float_of parts.now)) (floats (past_floats parts.now)) (past_floats (past_floats parts.now)) }
    ensures re_after { re.new ≡ tab (length re.old) (float_of parts.now) }
{
    let imag = read_floats(parts, re);
    let mut im = call_log::area();
    let k = call_log::count_places(imag, &im);
    fft_imag(b, imag, re, &mut im[..k])
}

fn fft_imag(b: &[u8], parts: &[u8], re: &[f32], im: &mut [f32]) -> Answer
    ensures value { result ≡ fft_on b.now re.now (tab (length im.old) (float_of parts.now)) (past_floats parts.now) }
    ensures im_after { im.new ≡ tab (length im.old) (float_of parts.now) }
{
    let lengths = read_floats(parts, im);
    let mut x = call_log::area();
    let mut y = call_log::area();
    let m = call_log::count_places(lengths, &x);
    let n = call_log::count_places(call_log::rest(lengths, 2), &y);
    let size = call_log::short(call_log::rest(b, 1)) as usize;
    let is_inverse = call_log::byte_at(b, 3) == 1;
    let transformed = kissfft::fft(size, is_inverse, re, im, &mut x[..m], &mut y[..n]);
    Answer {
        told: told(transformed),
        extra: Extra::Nothing,
        x,
        m,
        y,
        n,
        z: call_log::peaks(),
        o: 0,
    }
}

// 6: DCT.
fn dct(b: &[u8]) -> Answer
    ensures { result ≡ dct b.now }
{
    let mut x = call_log::area();
    let m = call_log::count_places(call_log::rest(b, 3), &x);
    let transformed = dct_on(b, &mut x[..m]);
    one_area(told(transformed), Extra::Nothing, x, m)
}

fn dct_on(b: &[u8], values: &mut [f32]) -> Result<(), Refusal>
    ensures { dc.outcome (told_by result) values.new ≡ dc.answer (short (drop 1 b.now)) (tab (length values.old) (float_of (drop 3 b.now))) }
{
    call_log::floats(call_log::rest(b, 3), values);
    dct_iv::dct_iv(call_log::short(call_log::rest(b, 1)) as usize, values)
}

// 7: loudest band: the energies, the call. The area is its product.
fn loudest(b: &[u8]) -> Answer
    ensures { result ≡ loudest b.now }
{
    let mut room = call_log::area();
    let k = call_log::count_places(call_log::rest(b, 2), &room);
    loudest_on(b, &mut room[..k])
}

fn loudest_on(b: &[u8], energies: &mut [f32]) -> Answer
    ensures value { result ≡ loudest_on (get_or b.now 1 0) (tab (length energies.old) (float_of (drop 2 b.now))) }
    ensures energies_after { energies.new ≡ tab (length energies.old) (float_of (drop 2 b.now)) }
{
    call_log::floats(call_log::rest(b, 2), energies);
    let heard = loudest::loudest_band(call_log::byte_at(b, 1), energies);
    let found = heard.unwrap_or(Loudest::Quiet);
    let mut x = call_log::area();
    let Loudest::Loud(band, product) = found else {
        return one_area(told(heard), Extra::Nothing, x, 0);
    };
    x[0] = product;
    one_area(told(heard), Extra::Band(band), x, 1)
}

// 14: the flag, sooner: the energies, the call. The place is the number of bands read.
fn ask(b: &[u8]) -> Answer
    ensures { result ≡ ask b.now }
{
    let mut room = call_log::area();
    let k = call_log::count_places(call_log::rest(b, 2), &room);
    ask_on(b, &mut room[..k])
}

fn ask_on(b: &[u8], energies: &mut [f32]) -> Answer
    ensures value { result ≡ ask_on (get_or b.now 1 0) (tab (length energies.old) (float_of (drop 2 b.now))) }
    ensures energies_after { energies.new ≡ tab (length energies.old) (float_of (drop 2 b.now)) }
{
    call_log::floats(call_log::rest(b, 2), energies);
    asked_as(near_nyquist::near_nyquist(call_log::byte_at(b, 1), energies))
}

fn asked_as(asked: Result<Sooner, Refusal>) -> Answer
    ensures { result ≡ asked_as (near.outcome asked) }
{
    let sooner = asked.unwrap_or(Sooner {
        answer: false,
        read: 0,
    });
    let mut z = call_log::peaks();
    z[0] = sooner.read;
    with_peaks(
        told(asked),
        Extra::Flag(sooner.answer),
        call_log::area(),
        0,
        z,
        1,
    )
}

// 9: set of the analysis channel.
fn set_analysis(b: &[u8]) -> Called<analysis::Channel>
    ensures { result ≡ set_analysis b.now }
{
    let input = call_log::rest(b, 2);
    let mut samples = [0i16; 300];
    let k = call_log::count_places(input, &samples);
    call_log::samples(input, &mut samples[..k]);
    let config = call_log::byte_at(b, 1);
    called_as(analysis::Channel { config, samples }, 0)
}

// 10: set of the synthesis channel.
fn set_synthesis(b: &[u8]) -> Called<synthesis::Channel>
    ensures { result ≡ set_synthesis b.now }
{
    let input = call_log::rest(b, 2);
    let mut memory = [0.0; 300];
    let k = call_log::count_places(input, &memory);
    call_log::floats(input, &mut memory[..k]);
    let config = call_log::byte_at(b, 1);
    called_as(synthesis::Channel { config, memory }, 0)
}

// The channels, with an answer.
fn bench_of(analysis: analysis::Channel, synthesis: synthesis::Channel, answer: Answer) -> Bench
    ensures { result ≡ bench_of analysis synthesis answer }
{
    Bench {
        analysis,
        synthesis,
        answer,
    }
}

// Entry. Both channels as a refused clear gives them.
pub fn fresh() -> Bench
    ensures { result ≡ fresh }
{
    let a = analysis::clear(255);
    let s = synthesis::clear(255);
    bench_of(a.channel, s.channel, plain(0))
}

impl Bench {
    // With an analysis channel and an answer.
    fn analysed(self, made: Called<analysis::Channel>) -> Bench
        ensures { result ≡ with_analysis self made }
    {
        bench_of(made.channel, self.synthesis, made.answer)
    }

    // With a synthesis channel and an answer.
    fn played(self, made: Called<synthesis::Channel>) -> Bench
        ensures { result ≡ with_synthesis self made }
    {
        bench_of(self.analysis, made.channel, made.answer)
    }

    // With an answer.
    fn answered(self, answer: Answer) -> Bench
        ensures { result ≡ with_answer self answer }
    {
        bench_of(self.analysis, self.synthesis, answer)
    }

    // A call on no channel, if it is one.
    fn on_none(self, kind: u8, b: &[u8]) -> Bench
        ensures { result ≡ on_none self kind b.now }
    {
        match kind {
            5 => self.answered(fft(b)),
            6 => self.answered(dct(b)),
            7 => self.answered(loudest(b)),
            12 => self.answered(measure(b)),
            14 => self.answered(ask(b)),
            _ => self,
        }
    }

    // A call on the synthesis channel, or on none.
    fn on_synthesis(self, kind: u8, b: &[u8]) -> Bench
        ensures { result ≡ on_synthesis self kind b.now }
    {
        match kind {
            3 => self.played(clear_synthesis(self.synthesis, b)),
            4 => self.played(play(self.synthesis, b)),
            10 => self.played(set_synthesis(b)),
            _ => self.on_none(kind, b),
        }
    }

    // Entry. After a call of a kind, whose bytes are b.
    pub fn made(self, kind: u8, b: &[u8]) -> Bench
        ensures { result ≡ made self kind b.now }
    {
        match kind {
            1 => self.analysed(clear_analysis(self.analysis, b)),
            2 => self.analysed(analyse(self.analysis, b)),
            9 => self.analysed(set_analysis(b)),
            11 => self.analysed(frame(self.analysis, b)),
            _ => self.on_synthesis(kind, b),
        }
    }
}
