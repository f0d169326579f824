// The frame file `LMF`: what a header and a record are, and a record's samples. New in this port.

#![tactic(auto)]

ghost use Rattle.std.specs.Prelude.{◌≡◌, ◌+◌, ◌*◌, ◌≤◌, length};
ghost use Rattle.frame_file.specs.File.{signed, samples, lmf, marked, header_of, record_of};

use refusals::Refusal;

// What a good header says.
#[derive(Clone, Copy, PartialEq, Eq, Debug)]
pub struct Header {
    pub version: u16,
    pub config: u8,
}

// What stands at a record's place: a frame, with the bytes that it uses, or the file's end. An
// Option is no plainer: the names say which of the two stands there.
#[derive(Clone, Copy, PartialEq, Eq, Debug)]
pub enum Record {
    Frame(usize),
    End,
}

// Entry. 16 bits, little-endian.
pub fn join(low: u8, high: u8) -> u16
    ensures { result ≡ low + 256 * high }
{
    u16::from_le_bytes([low, high])
}

// Inner. Whether a file or a log, of three bytes or more, begins with the mark.
pub fn begins(file: &[u8], mark: &[u8; 3]) -> bool
    requires { 3 ≤ length file.now }
    ensures { result ≡ marked mark.now file.now }
{
    file.starts_with(mark)
}

// The header of a file with the given mark.
fn header_with(file: &[u8], mark: &[u8; 3]) -> Result<Header, Refusal>
    ensures { result ≡ header_of mark.now file.now }
{
    if file.len() < 6 {
        return Err(Refusal::ShortFile);
    }
    if !begins(file, mark) {
        return Err(Refusal::BadMark);
    }
    let version = join(file[3], file[4]);
    if version != 1 {
        return Err(Refusal::BadVersion);
    }
    let config = file[5];
    if config::valid(config) {
        Ok(Header { version, config })
    } else {
        Err(Refusal::BadConfig)
    }
}

// Entry. The header of a frame file, from its first six bytes or more, or from what there is of
// them.
pub fn read_header(file: &[u8]) -> Result<Header, Refusal>
    ensures { result ≡ header_of lmf file.now }
{
    header_with(file, b"LMF")
}

// Entry. What the bytes that are left of a file begin with.
pub fn read_record(config: u8, bytes: &[u8]) -> Result<Record, Refusal>
    ensures { result ≡ record_of config bytes.now }
{
    if !config::valid(config) {
        return Err(Refusal::BadConfig);
    }
    if bytes.is_empty() {
        return Ok(Record::End);
    }
    let used = 2 * config::nf(config);
    if bytes.len() < used {
        return Err(Refusal::CutFrame);
    }
    Ok(Record::Frame(used))
}

// Entry. The sample that 16 bits stand for.
pub fn sample(n: u16) -> i16
    ensures { result ≡ signed n }
{
    n.cast_signed()
}

// Inner. A whole record's samples.
pub fn decode(bytes: &[u8], out: &mut [i16])
    requires { length bytes.now ≡ 2 * length out.old }
    ensures { out.new ≡ samples (length out.old) bytes.now }
{
    for (i, x) in out.iter_mut().enumerate() {
        *x = sample(join(bytes[2 * i], bytes[2 * i + 1]));
    }
}
