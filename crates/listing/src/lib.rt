// The listing of a frame file, a step for the header and one for each record: the line, the bytes used, and what is carried on.
// New in this port.

#![tactic(auto)]

ghost use Rattle.std.specs.Prelude.{◌≡◌, ◌++◌, ◌≤◌, T, length};
ghost use Rattle.config.specs.Config.{valid, nf};
ghost use Rattle.frame_file.specs.File.{samples, frame_bytes};
ghost use Rattle.plain_text.specs.Text.{newline, decimal};
ghost use Rattle.listing.specs.Text.{first_line, frame_line, end_line, refused_line};
ghost use Rattle.listing.specs.Listing.{listened};
ghost use Rattle.listing.specs.Steps.{text, start, opening, counted, framed, step};

mod frame; // frame.rt: a frame's flag and loudest band
mod line; // line.rt: a line of text by value

use frame_file::Record;
pub use line::Text;
use loudest::Loudest;

// What is carried from record to record: the analysis channel and the number of frames listed.
#[derive(Clone, Copy)]
pub struct Lister {
    pub channel: analysis::Channel,
    pub count: u64,
}

// A line, how many bytes of the file its record used, 0 at the last line, and what is carried on.
#[derive(Clone, Copy)]
pub struct Stepped {
    pub text: Text,
    pub used: usize,
    pub lister: Lister,
}

// The first line of a listing.
fn first_line(version: u16, config: u8) -> Text
    ensures { result ≡ text (first_line version config) }
{
    let marked = line::blank().with_bytes(b"LMF ");
    marked
        .numbered(version as u64, b" ")
        .numbered(config as u64, b"\n")
}

// A word, a number and a newline.
fn worded(word: &[u8], n: u64) -> Text
    requires { length word.now ≤ 40 }
    ensures { result ≡ text (word.now ++ (decimal n ++ newline)) }
{
    line::blank().with_bytes(word).numbered(n, b"\n")
}

fn end_line(count: u64) -> Text
    ensures { result ≡ text (end_line count) }
{
    worded(b"end ", count)
}

fn refused_line(number: u8) -> Text
    ensures { result ≡ text (refused_line number) }
{
    worded(b"refused ", number as u64)
}

// A frame's line: its number, flag and loudest band, or a dash where there is none.
fn frame_line(n: u64, flag: bool, loudest: Loudest) -> Text
    ensures { result ≡ text (frame_line n flag loudest) }
{
    let between = [b' ', plain_text::digit(flag), b' '];
    let t = line::blank().numbered(n, &between);
    let Loudest::Loud(band, _) = loudest else {
        return t.with_bytes(b"-\n");
    };
    t.numbered(band as u64, b"\n")
}

// A listing that begins, on a fresh channel.
fn start(config: u8) -> Lister
    ensures { result ≡ start config }
{
    Lister {
        channel: analysis::clear(config).channel,
        count: 0,
    }
}

// One frame more; the count stays at its largest.
fn one_more(n: u64) -> u64
    ensures { result ≡ counted n }
{
    if n < u64::MAX { n + 1 } else { n }
}

impl Lister {
    // The last line.
    fn last(self, text: Text) -> Stepped
        ensures { result ≡ record { text = text; used = 0; lister = self } }
    {
        Stepped {
            text,
            used: 0,
            lister: self,
        }
    }

    // A whole record's line.
    fn frame(self, bytes: &[u8]) -> Stepped
        requires { T (valid self.channel.config) × (length bytes.now ≡ frame_bytes self.channel.config) }
        ensures { result ≡ framed self (length bytes.now) (listened self.channel (samples (nf self.channel.config) bytes.now)) }
    {
        let measured = frame::listen_to(self.channel, bytes);
        let text = frame_line(self.count, measured.flag, measured.loudest);
        Stepped {
            text,
            used: bytes.len(),
            lister: Lister {
                channel: measured.channel,
                count: one_more(self.count),
            },
        }
    }

    // Entry. The line of what the bytes that are left of the file begin with: a frame's, or the last.
    pub fn step(self, bytes: &[u8]) -> Stepped
        ensures { result ≡ step self bytes.now }
    {
        match frame_file::read_record(self.channel.config, bytes) {
            Ok(Record::Frame(used)) => self.frame(&bytes[..used]),
            Ok(Record::End) => self.last(end_line(self.count)),
            Err(refusal) => self.last(refused_line(refusal.number())),
        }
    }

    // Entry. How many bytes a step wants at most: those of a frame.
    pub fn wanted(self) -> usize
        ensures { result ≡ frame_bytes self.channel.config }
    {
        2 * config::nf(self.channel.config)
    }
}

// Entry. The line of a file's header, from its first six bytes or more, or from what there is of them.
pub fn open(file: &[u8]) -> Stepped
    ensures { result ≡ opening file.now }
{
    match frame_file::read_header(file) {
        Ok(header) => Stepped {
            text: first_line(header.version, header.config),
            used: 6,
            lister: start(header.config),
        },
        Err(refusal) => start(255).last(refused_line(refusal.number())),
    }
}
