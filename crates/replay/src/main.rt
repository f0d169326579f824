// Replays a log of calls: reads it on standard input, makes each call, and prints what the library answers.
// What a call's bytes mean is proved in call_log, its answer in call_made, its text in call_text, and how a step puts them together here. Of what
// reads and writes nothing is stated but that it is safe and ends.

#![tactic(auto)]

ghost use Rattle.std.specs.Prelude.{◌≤◌, ◌≡◌, length, take};
ghost use Rattle.call_text.specs.Page.{page, written};
ghost use Rattle.replay.specs.Unused.{Unused};
ghost use Rattle.replay.specs.Steps.{answer_text, made_text, last_text, taken_of, used_of, bench_after, stepped};

use call_made::{Answer, Bench};

// The longest call: an FFT with 1,024 values in each slice.
const LONGEST: usize = 8204;

// More than the longest answer takes: a frame's, with 1,024 lines, energies and peaks.
const ANSWER: usize = 24576;

// The bytes of the input that are not used yet; over where the log has no more.
#[derive(Clone, Copy)]
struct Input {
    from: usize,
    to: usize,
    is_over: bool,
}

// A bench, how far the output is filled, and how many bytes the call before took: 0 after the last line.
#[derive(Clone, Copy)]
struct Stepped {
    bench: Bench,
    at: usize,
    used: usize,
}

// ---- the text

// The first n places of an area, and no more than it has.
fn part<T>(area: &[T], n: usize) -> &[T]
    ensures { result.now ≡ take n area.now }
{
    area.get(..n).unwrap_or(area)
}

// The text of call number count.
fn put_answer(out: &mut [u8], at: usize, count: u64, kind: u8, answer: Answer) -> usize
    ensures { page out.new result ≡ written (page out.old at) (answer_text count kind answer) }
{
    let e = answer.extra;
    let x = answer.x;
    let y = answer.y;
    let z = answer.z;
    call_text::put_call(
        out,
        at,
        count,
        kind,
        answer.told.number,
        answer.told.index,
        e,
        part(&x, answer.m),
        part(&y, answer.n),
        part(&z, answer.o),
    )
}

// The same, after the call; 8 shows both channels.
fn put(out: &mut [u8], at: usize, count: u64, kind: u8, bench: Bench) -> usize
    ensures { page out.new result ≡ written (page out.old at) (made_text count kind bench) }
{
    if kind == 8 {
        let a = bench.analysis;
        let s = bench.synthesis;
        let samples = a.samples;
        let memory = s.memory;
        return call_text::put_show(out, at, count, a.config, &samples, s.config, &memory);
    }
    put_answer(out, at, count, kind, bench.answer)
}

// The last line.
fn last(out: &mut [u8], at: usize, is_end: bool, count: u64) -> usize
    ensures { page out.new result ≡ written (page out.old at) (last_text is_end count) }
{
    if is_end {
        return call_text::put_last(out, at, b"end", count);
    }
    call_text::put_last(out, at, b"stopped", count)
}

// ---- a step

// How many bytes the call at the front of b takes, 0 where there is none.
fn taken(b: &[u8]) -> usize
    ensures value { result ≡ taken_of b.now }
    ensures upper_bound { result ≤ length b.now }
{
    call_log::call_taken(b).unwrap_or(0)
}

// The call at the front of b, or the last line; neither where its text would find no room.
fn step(bench: Bench, b: &[u8], out: &mut [u8], at: usize, count: u64) -> Stepped
    ensures used_value { (result.used ≡ used_of b.now out.old at) × (result.bench ≡ bench_after bench b.now result.used) }
    ensures at_after { page out.new result.at ≡ stepped bench b.now out.old at count }
    ensures used_in_bounds { result.used ≤ length b.now }
{
    if out.len() <= at {
        return Stepped { bench, at, used: 0 };
    }
    let n = taken(b);
    if n == 0 {
        return Stepped {
            bench,
            at: last(out, at, b.len() == 0, count),
            used: 0,
        };
    }
    let kind = call_log::byte_at(b, 0);
    let next = bench.made(kind, &b[..n]);
    Stepped {
        bench: next,
        at: put(out, at, count, kind, next),
        used: n,
    }
}

// ---- the input

// Moves the bytes that are not used yet to the front, and says how many they are.
fn to_front(input: &mut [u8], from: usize, to: usize) -> usize
    requires { (from ≤ to) × (to ≤ length input.old) }
    ensures { result ≤ length input.new }
{
    let n = to - from;
    for i in 0..n {
        input[i] = input[from + i];
    }
    n
}

// The input with a longest call in it, or all that is left.
fn ready(rt: &HostRuntime, input: &mut [u8], at: Input) -> Input
    requires { Unused at.from at.to (length input.old) }
    ensures { Unused result.from result.to (length input.new) }
{
    if at.is_over || LONGEST <= at.to - at.from {
        return at;
    }
    let kept = to_front(input, at.from, at.to);
    let room = &mut input[kept..];
    let mut stdin = rt.stdin();
    let n = streams::read_full(&mut stdin, room);
    Input {
        from: 0,
        to: kept + n,
        is_over: n < room.len(),
    }
}

// ---- the output

// A line on standard error.
fn tell(rt: &HostRuntime, line: &[u8]) {
    let mut stderr = rt.stderr();
    streams::write_all(&mut stderr, line);
}

// Writes out what the output holds, and gives the place to go on at: the output's end where a write failed or a text found no room.
fn flush(rt: &HostRuntime, out: &[u8], at: usize) -> usize {
    if out.len() <= at {
        tell(rt, b"replay: the text is cut\n");
        return out.len();
    }
    let mut stdout = rt.stdout();
    if !streams::write_all(&mut stdout, &out[..at]) {
        tell(rt, b"replay: a write failed\n");
        return out.len();
    }
    0
}

// The place to go on at, with room for an answer after it.
fn room(rt: &HostRuntime, out: &[u8], at: usize) -> usize {
    if out.len() <= at {
        return at;
    }
    if ANSWER <= out.len() - at {
        return at;
    }
    flush(rt, out, at)
}

// ---- the run

// The calls after the header, one after the other, as long as they can be counted. How far the output is filled.
fn calls(rt: &HostRuntime, input: &mut [u8], out: &mut [u8], header: Input) -> usize
    requires { Unused header.from header.to (length input.old) }
{
    let mut unused = header;
    let mut bench = call_made::fresh();
    let mut at = 0;
    for count in 0..u64::MAX {
        unused = ready(rt, input, unused);
        let from = unused.from;
        let to = unused.to;
        let step = step(bench, &input[from..to], out, at, count);
        unused.from = from + step.used;
        bench = step.bench;
        if step.used == 0 {
            return step.at;
        }
        at = room(rt, out, step.at);
    }
    at
}

// The whole log.
fn run(rt: &HostRuntime, input: &mut [u8], out: &mut [u8]) -> usize {
    let mut stdin = rt.stdin();
    let n = streams::read_full(&mut stdin, input);
    match call_log::read_header(&input[..n]) {
        Ok(()) => {
            let is_over = n < input.len();
            calls(
                rt,
                input,
                out,
                Input {
                    from: 5,
                    to: n,
                    is_over,
                },
            )
        }
        Err(refusal) => call_text::put_last(out, 0, b"refused", refusal.number() as u64),
    }
}

fn main(rt: HostRuntime) {
    let mut input = io::large_buffer();
    let mut out = io::large_buffer();
    let at = run(&rt, &mut input, &mut out);
    flush(&rt, &out, at);
}
