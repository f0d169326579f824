// The log of calls (`LMC`) taken apart: its header, how many bytes a call takes, and the values in
// it. Every function is total: a byte past the end reads as 0. New in this port.

#![tactic(auto)]

ghost use Rattle.std.specs.Prelude.{◌≡◌, ◌+◌, ◌*◌, ◌≤◌, ◌<◌, min, length, get_or, drop};
ghost use Rattle.std.specs.Float.Ieee.{of_bits};
ghost use Rattle.std.specs.Float.{binary32};
ghost use Rattle.laws.specs.Lists.{tab};
ghost use Rattle.frame_file.specs.File.{short};
ghost use Rattle.call_log.specs.Log.{word, Places, sample_of, float_of, before, before_peak, header_of, within, listed, field_taken, call_taken};

mod layout; // layout.rt: the fields of each kind of call

use layout::Field;
use refusals::Refusal;
use std::array;

// Byte k.
pub fn byte_at(b: &[u8], k: usize) -> u8
    ensures { result ≡ get_or b.now k 0 }
{
    b.get(k).copied().unwrap_or(0)
}

// The bytes from place k on.
pub fn rest(b: &[u8], k: usize) -> &[u8]
    ensures { result.now ≡ drop k b.now }
{
    b.get(k..).unwrap_or(&[])
}

// 16 bits, little-endian, at the front.
pub fn short(b: &[u8]) -> u16
    ensures { result ≡ short b.now }
{
    frame_file::join(byte_at(b, 0), byte_at(b, 1))
}

// 32 bits, little-endian, at the front.
pub fn word(b: &[u8]) -> u32
    ensures { result ≡ word b.now }
{
    u32::from(short(b)) + 65536 * u32::from(short(rest(b, 2)))
}

// The f32 of 32 bits. Every NaN's pattern is a NaN.
fn float(bits: u32) -> f32
    ensures { result ≡ of_bits binary32 bits }
{
    if bits % 0x8000_0000 > 0x7f80_0000 {
        0.0 / 0.0
    } else {
        f32::from_bits(bits)
    }
}

// A count at the front, or 1,024 where it is more.
pub fn count(b: &[u8]) -> usize
    ensures value { result ≡ min (short b.now) 1024 }
    ensures upper_bound { result ≤ 1024 }
{
    usize::from(short(b)).min(1024)
}

// How many places of the room a count at the front asks for: all where it is more.
pub fn count_places<T>(b: &[u8], room: &[T]) -> usize
    ensures value { result ≡ min (short b.now) (length room.now) }
    ensures places { Places result room.now }
{
    usize::from(short(b)).min(room.len())
}

// The samples after the count at the front of b, as many as out has places.
pub fn samples(b: &[u8], out: &mut [i16])
    ensures { out.new ≡ tab (length out.old) (sample_of b.now) }
{
    for (i, x) in out.iter_mut().enumerate() {
        *x = frame_file::sample(short(rest(b, 2 + 2 * i)));
    }
}

// The values after the count at the front of b, as many as out has places.
pub fn floats(b: &[u8], out: &mut [f32])
    ensures { out.new ≡ tab (length out.old) (float_of b.now) }
{
    for (i, x) in out.iter_mut().enumerate() {
        *x = float(word(rest(b, 2 + 4 * i)));
    }
}

// An output area as it is before a call.
pub fn area() -> [f32; 1024]
    ensures value { result ≡ tab 1024 before }
    ensures places { 1024 ≡ length result }
{
    array::from_fn(|i| i as f32 + 0.5)
}

// A peaks' area as it is before a call.
pub fn peaks() -> [usize; 1024]
    ensures value { result ≡ tab 1024 before_peak }
    ensures places { 1024 ≡ length result }
{
    array::from_fn(|i| i + 7)
}

// Entry. The test of the first five bytes of a log: 8, 9 and 10.
pub fn read_header(b: &[u8]) -> Result<(), Refusal>
    ensures { result ≡ header_of b.now }
{
    if b.len() < 5 {
        return Err(Refusal::ShortFile);
    }
    if !frame_file::begins(b, b"LMC") {
        return Err(Refusal::BadMark);
    }
    if short(rest(b, 3)) != 3 {
        return Err(Refusal::BadVersion);
    }
    Ok(())
}

// n bytes, where b has them.
fn within(b: &[u8], n: usize) -> Option<usize>
    ensures { result ≡ within b.now n }
{
    if n <= b.len() { Some(n) } else { None }
}

// A count of at most `most`, and that many values of `width` bytes each.
fn listed(b: &[u8], most: usize, width: usize) -> Option<usize>
    requires { width ≤ 4 }
    ensures { result ≡ listed b.now most width }
{
    let n = usize::from(short(b));
    if n <= most {
        within(b, 2 + width * n)
    } else {
        None
    }
}

// How many bytes a field takes at the front of b.
fn field_taken(b: &[u8], field: Field) -> Option<usize>
    ensures { result ≡ field_taken b.now field }
{
    match field {
        Field::Nothing => Some(0),
        Field::Byte => within(b, 1),
        Field::Flag => {
            if byte_at(b, 0) <= 1 {
                within(b, 1)
            } else {
                None
            }
        }
        Field::Number => within(b, 2),
        Field::Length => listed(b, 1024, 0),
        Field::Samples(most) => listed(b, most, 2),
        Field::Floats(most) => listed(b, most, 4),
        Field::Unknown => None,
    }
}

// Entry. How many bytes the call at the front of b takes: none where it is cut, unknown or too
// long.
pub fn call_taken(b: &[u8]) -> Option<usize>
    ensures { result ≡ call_taken b.now }
{
    let mut k = 1;
    for field in layout::fields_of(byte_at(b, 0)) {
        k += field_taken(rest(b, k), *field)?;
    }
    Some(k)
}
