// Reading and writing that goes on until all is read or written, over std's readers and writers. A call that fails counts as one that moved nothing.

#![tactic(auto)]

ghost use Rattle.std.specs.Prelude.{◌≡◌, ◌≤◌, ℕ, List, true, length, take};
ghost use Rattle.std.specs.Io.{StartsWith};
ghost use Rattle.std.specs.Io.KnownBytes.{Appends, Consumes};

use std::fmt::InlineText;
use std::io::{Error, Read, Write};

// Reads once. How many bytes it put at the start of buf: 0 at the input's end, and where the read failed.
fn read_some<R: Read>(from: &mut R, buf: &mut [u8]) -> usize
    ensures in_bounds { result ≤ length buf.new }
    ensures bytes { Consumes (R.remaining from.old) (R.remaining from.new) (take result buf.new) }
{
    from.read(buf).unwrap_or(0)
}

// Loops here go by what a call moved: a `for` over a range is no plainer, since a turn moves any
// number of bytes.

// Entry. Reads until buf is full, the input ends or a read fails, and says how many bytes it put at the start of buf. For an empty buf it reads nothing.
pub fn read_full<R: Read>(from: &mut R, buf: &mut [u8]) -> usize
    ensures in_bounds { result ≤ length buf.new }
    ensures bytes { Consumes (R.remaining from.old) (R.remaining from.new) (take result buf.new) }
{
    let mut done = 0;
    while done < buf.len() {
        let n = read_some(from, &mut buf[done..]);
        if n == 0 {
            break;
        }
        done += n;
    }
    done
}

// Writes once. How many bytes of buf went out: 0 where the writer takes none, and where the write failed.
fn write_some<W: Write>(to: &mut W, buf: &[u8]) -> usize
    ensures in_bounds { result ≤ length buf.now }
    ensures bytes { Appends (W.contents to.old) (W.contents to.new) (take result buf.now) }
{
    to.write(buf).unwrap_or(0)
}

// Entry. Writes all of buf, and says so, or stops at the first write that takes nothing or fails: then some of buf may have gone out. For an empty buf it writes nothing.
pub fn write_all<W: Write>(to: &mut W, buf: &[u8]) -> bool
    ensures all { result ≡ true → Appends (W.contents to.old) (W.contents to.new) buf.now }
    ensures front { (n : ℕ) × Appends (W.contents to.old) (W.contents to.new) (take n buf.now) }
{
    let mut done = 0;
    while done < buf.len() {
        let n = write_some(to, &buf[done..]);
        if n == 0 {
            return false;
        }
        done += n;
    }
    true
}

// What an error's text says before the system's number, which std puts after it.
fn reason(text: &str) -> &str
    ensures { StartsWith text.now result.now }
{
    match text.split_once(" (os error ") {
        Some((front, _)) => front,
        None => text,
    }
}

// Entry. Writes a line of what failed and why, as `NAME: No such file or directory`.
pub fn fail<W: Write>(to: &mut W, what: &[u8], error: &Error)
    ensures { (line : List ℕ) × Appends (W.contents to.old) (W.contents to.new) line }
{
    let text = InlineText::<128>::of(error);
    let why = reason(text.as_str());
    write_all(to, what);
    write_all(to, b": ");
    write_all(to, why.as_bytes());
    write_all(to, b"\n");
}
