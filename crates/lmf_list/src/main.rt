// Lists the frame file on standard input to standard output. The work is listing's; here is only reading and writing. No contract can tell what is read, nor that
// a write happened: these functions state what they make of it, and the gate runs the program on inputs and outputs that come and go in pieces, or fail.

#![tactic(auto)]

ghost use Rattle.std.specs.Prelude.{◌≡◌, ◌+◌, ◌≤◌, length, take};
ghost use Rattle.listing.specs.Steps as steps;
ghost use Rattle.lmf_list.specs.Reading.{brought, Came, Filled, Next};
ghost use Rattle.lmf_list.specs.Writing.{Room, Put, Ended};

use listing::{Lister, Stepped, Text};
use std::io::Read;

// What was read: how many bytes, whether more may come, and whether no read failed.
#[derive(Clone, Copy)]
struct Input {
    len: usize,
    more: bool,
    ok: bool,
}

// How many bytes of text wait to be written, and whether all before them went out.
#[derive(Clone, Copy)]
struct Output {
    len: usize,
    ok: bool,
}

// A step of the listing, and what was read for it.
#[derive(Clone, Copy)]
struct ReadStep {
    stepped: Stepped,
    input: Input,
}

// How a listing ended: the step that was its last, and what still waits to be written.
#[derive(Clone, Copy)]
struct Ending {
    step: ReadStep,
    output: Output,
}

// What a read has brought that put bytes to the places from `at` to `end`, or failed.
fn brought(at: usize, end: usize, failed: bool) -> Input
    ensures { result ≡ brought at end failed }
{
    if failed {
        return Input {
            len: at,
            more: false,
            ok: false,
        };
    }
    Input {
        len: end,
        more: at < end,
        ok: true,
    }
}

// A line on standard error.
fn tell(rt: &HostRuntime, line: &[u8]) {
    let mut errors = rt.stderr();
    streams::write_all(&mut errors, line);
}

// Reads once, to the places of buf from `at` on.
fn read_more(rt: &HostRuntime, buf: &mut [u8], at: usize) -> Input
    requires { at ≤ length buf.old }
    ensures { Came buf.old at result buf.new }
{
    let mut input = rt.stdin();
    match input.read(&mut buf[at..]) {
        Ok(n) => brought(at, at + n, false),
        Err(_) => {
            tell(rt, b"read failed\n");
            brought(at, at, true)
        }
    }
}

// Reads until buf is full, the input ends or a read fails, however small the pieces are that come.
fn fill(rt: &HostRuntime, buf: &mut [u8]) -> Input
    ensures { Filled result buf.new }
{
    let mut input = Input {
        len: 0,
        more: true,
        ok: true,
    };
    while input.more && input.len < buf.len() {
        let at = input.len;
        input = read_more(rt, buf, at);
    }
    input
}

// Writes the first n bytes, and says so on standard error where that fails.
fn flush(rt: &HostRuntime, out: &[u8], n: usize) -> bool
    requires { n ≤ length out.now }
{
    let mut output = rt.stdout();
    let ok = streams::write_all(&mut output, &out[..n]);
    if !ok {
        tell(rt, b"write failed\n");
    }
    ok
}

// Makes room for a line after the first n bytes, which go out where there is too little.
fn room(rt: &HostRuntime, out: &[u8], n: usize) -> Output
    requires { n ≤ length out.now }
    ensures { Room (length out.now) n result }
{
    if out.len() - n < 64 {
        let ok = flush(rt, out, n);
        return Output { len: 0, ok };
    }
    Output { len: n, ok: true }
}

// Puts a line after the first n bytes.
fn emit(rt: &HostRuntime, out: &mut [u8], n: usize, text: Text) -> Output
    requires { (64 ≤ length out.old) × (n ≤ length out.old) }
    ensures { Put out.old n text result out.new }
{
    let ready = room(rt, out, n);
    let at = ready.len;
    let len = text.copy_to(out, at);
    Output { len, ok: ready.ok }
}

// The header's step, on as much as there is of it.
fn open(rt: &HostRuntime, header: &mut [u8]) -> ReadStep
    ensures { (result.stepped ≡ steps.opening (take result.input.len header.new)) × Filled result.input header.new }
{
    let input = fill(rt, header);
    let got = input.len;
    let stepped = listing::open(&header[..got]);
    ReadStep { stepped, input }
}

// A record's step, on as much as there is of it.
fn step(rt: &HostRuntime, lister: Lister, frame: &mut [u8]) -> ReadStep
    ensures { (result.stepped ≡ steps.step lister (take result.input.len frame.new)) × Filled result.input frame.new }
{
    let input = fill(rt, frame);
    let got = input.len;
    let stepped = lister.step(&frame[..got]);
    ReadStep { stepped, input }
}

// The next record's step, on no more than a frame's bytes.
fn next(rt: &HostRuntime, lister: Lister, room: &mut [u8]) -> ReadStep
    requires { 960 ≤ length room.old }
    ensures { Next lister result room.new }
{
    let want = lister.wanted();
    step(rt, lister, &mut room[..want])
}

// Line after line, to the last. A proved loop has to end, and nothing says that a file does: no more frames are listed than can be counted.
fn lines(rt: &HostRuntime, out: &mut [u8]) -> Ending
    requires { 64 ≤ length out.old }
    ensures { Ended result out.new }
{
    let mut header = [0u8; 6];
    let mut room = [0u8; 960]; // the longest frame's bytes
    let mut step = open(rt, &mut header);
    let mut output = Output { len: 0, ok: true };
    while step.input.ok && output.ok {
        let stepped = step.stepped;
        let text = stepped.text;
        let n = output.len;
        output = emit(rt, out, n, text);
        let lister = stepped.lister;
        if stepped.used == 0 || lister.count == u64::MAX {
            break;
        }
        step = next(rt, lister, &mut room);
    }
    Ending { step, output }
}

// A read that fails is told on standard error and ends the listing with no last line; after a write that failed, which is told there too, nothing more is written.
fn main(rt: HostRuntime) {
    let mut out = io::buffer();
    let ending = lines(&rt, &mut out);
    let output = ending.output;
    if output.ok {
        let n = output.len;
        flush(&rt, &out, n);
    }
}
