// The text that a call of the log is answered with, written into a lent buffer. A byte that finds no
// room is dropped, so that nothing is asked of a caller. New in this port.

#![tactic(auto)]

ghost use Rattle.std.specs.Prelude.{◌≡◌, [], ◌∷◌, ◌++◌, List, ℕ};
ghost use Rattle.io.specs.Digits.{last_digits};
ghost use Rattle.plain_text.specs.Text.{newline, decimal};
ghost use Rattle.call_text.specs.Page.{page, written};
ghost use Rattle.call_text.specs.Pages.{Writes};
ghost use Rattle.call_text.specs.Lines.{value, sample, spaced, worded, numbers, extra, answer, measured_lines, energy_line, area_lines, call_text, analysis_line, synthesis_line, show_text, last_line};

// What a call's first line says last: nothing, the flag of a measurement or the sooner one, the
// loudest band.
#[derive(Clone, Copy, PartialEq, Eq, Debug)]
pub enum Extra {
    Nothing,
    Flag(bool),
    Band(usize),
}

// A lent buffer, and the place where the next byte goes.
#[derive(Drop)]
struct Page<'a> {
    out: &'a mut [u8],
    at: usize,
}

// What has a text of its own on a page.
trait Spelled: Copy {
    ghost text: { Self → List ℕ };

    fn put_on(self, page: &mut Page)
        ensures { Writes page.old page.new (text self) };
}

// A place of an area: its bits, and nan for a NaN.
impl Spelled for f32 {
    ghost text = { value };

    fn put_on(self, page: &mut Page) {
        if self.is_nan() {
            page.put_bytes(b"nan");
        } else {
            page.put_bits(self.to_bits());
        }
    }
}

// A sample in decimal.
impl Spelled for i16 {
    ghost text = { sample };

    fn put_on(self, page: &mut Page) {
        if self < 0 {
            page.put(b'-');
        }
        page.put_decimal(self.unsigned_abs() as u64);
    }
}

// A peak, or a number of bands, in decimal.
impl Spelled for usize {
    ghost text = { decimal };

    fn put_on(self, page: &mut Page) {
        page.put_decimal(self as u64);
    }
}

impl Page<'_> {
    // A byte.
    fn put(&mut self, b: u8)
        ensures { Writes self.old self.new (b ∷ []) }
    {
        if self.at < self.out.len() {
            self.out[self.at] = b;
            self.at += 1;
        }
    }

    // Bytes, one after the other.
    fn put_bytes(&mut self, bytes: &[u8])
        ensures { Writes self.old self.new bytes.now }
    {
        for b in bytes {
            self.put(*b);
        }
    }

    // A number in decimal.
    fn put_decimal(&mut self, n: u64)
        ensures { Writes self.old self.new (decimal n) }
    {
        let mut room = [0u8; 20];
        let k = io::decimal(n, &mut room);
        self.put_bytes(&room[..k]);
    }

    // Eight hexadecimal digits.
    fn put_bits(&mut self, bits: u32)
        ensures { Writes self.old self.new (last_digits 16 8 bits) }
    {
        let mut room = [0u8; 16];
        let k = io::hex(bits as u64, 8, &mut room);
        self.put_bytes(&room[..k]);
    }

    // The places of a line, a space before each, and the line's end.
    fn put_places<T: Spelled>(&mut self, places: &[T])
        ensures { Writes self.old self.new (spaced T.text places.now ++ newline) }
    {
        for place in places {
            self.put(b' ');
            place.put_on(self);
        }
        self.put(b'\n');
    }

    // A word, a space and a number.
    fn put_worded(&mut self, word: &[u8], n: u64)
        ensures { Writes self.old self.new (worded word.now n) }
    {
        self.put_bytes(word);
        self.put(b' ');
        self.put_decimal(n);
    }

    // EXTRA.
    fn put_extra(&mut self, e: Extra)
        ensures { Writes self.old self.new (extra e) }
    {
        match e {
            Extra::Nothing => self.put(b'-'),
            Extra::Flag(flag) => self.put(plain_text::digit(flag)),
            Extra::Band(band) => self.put_decimal(band as u64),
        }
    }

    // Two numbers of a call's first line, each with a space after it.
    fn put_numbers(&mut self, a: u64, b: u64)
        ensures { Writes self.old self.new (numbers a b) }
    {
        self.put_decimal(a);
        self.put_worded(b"", b);
        self.put(b' ');
    }

    // The rest of a call's first line.
    fn put_answer(&mut self, number: u8, index: usize, e: Extra)
        ensures { Writes self.old self.new (answer number index e) }
    {
        self.put_numbers(number as u64, index as u64);
        self.put_extra(e);
        self.put(b'\n');
    }

    // A line: its name and its places.
    fn put_line<T: Spelled>(&mut self, name: &[u8], places: &[T])
        ensures { Writes self.old self.new (name.now ++ spaced T.text places.now ++ newline) }
    {
        self.put_bytes(name);
        self.put_places(places);
    }

    // The lines of a measurement.
    fn put_measured(&mut self, energies: &[f32], peaks: &[usize])
        ensures { Writes self.old self.new (measured_lines energies.now peaks.now) }
    {
        self.put_line(b"energies", energies);
        self.put_line(b"peaks", peaks);
    }

    // A channel's line: its configuration and what it keeps.
    fn put_channel<T: Spelled>(&mut self, name: &[u8], config: u8, kept: &[T])
        ensures { Writes self.old self.new (worded name.now config ++ spaced T.text kept.now ++ newline) }
    {
        self.put_worded(name, config as u64);
        self.put_places(kept);
    }

    // The line `energy`, where there is one.
    fn put_energy(&mut self, x: &[f32])
        ensures { Writes self.old self.new (energy_line x.now) }
    {
        if !x.is_empty() {
            self.put_line(b"energy", x);
        }
    }

    // The lines of the areas that a call of a kind has.
    fn put_areas(&mut self, kind: u8, x: &[f32], y: &[f32], z: &[usize])
        ensures { Writes self.old self.new (area_lines kind x.now y.now z.now) }
    {
        match kind {
            2 => {
                self.put_line(b"lines", x);
                self.put_measured(y, z);
            }
            4 => self.put_line(b"samples", x),
            5 => {
                self.put_line(b"real", x);
                self.put_line(b"imag", y);
            }
            6 => self.put_line(b"buffer", x),
            7 => self.put_energy(x),
            11 => self.put_line(b"lines", x),
            12 => self.put_measured(x, z),
            14 => self.put_line(b"read", z),
            _ => {}
        }
    }
}

// Entry. The text of a call that does not show the channels, with the places of its areas.
pub fn put_call(
    out: &mut [u8],
    at: usize,
    count: u64,
    kind: u8,
    number: u8,
    index: usize,
    e: Extra,
    x: &[f32],
    y: &[f32],
    z: &[usize],
) -> usize
    ensures { page out.new result ≡ written (page out.old at) (call_text count kind number index e x.now y.now z.now) }
{
    let mut page = Page { out, at };
    page.put_numbers(count, kind as u64);
    page.put_answer(number, index, e);
    page.put_areas(kind, x, y, z);
    page.at
}

// Entry. The text of a call that shows the channels.
pub fn put_show(
    out: &mut [u8],
    at: usize,
    count: u64,
    a: u8,
    samples: &[i16],
    s: u8,
    memory: &[f32],
) -> usize
    ensures { page out.new result ≡ written (page out.old at) (show_text count a samples.now s memory.now) }
{
    let mut page = Page { out, at };
    page.put_numbers(count, 8);
    page.put_answer(0, 0, Extra::Nothing);
    page.put_channel(b"analysis", a, samples);
    page.put_channel(b"synthesis", s, memory);
    page.at
}

// Entry. The last line.
pub fn put_last(out: &mut [u8], at: usize, word: &[u8], n: u64) -> usize
    ensures { page out.new result ≡ written (page out.old at) (last_line word.now n) }
{
    let mut page = Page { out, at };
    page.put_worded(word, n);
    page.put(b'\n');
    page.at
}
