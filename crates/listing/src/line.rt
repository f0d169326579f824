// A line of text by value: the first len bytes of the array, and zeros after them.
ghost use Rattle.std.specs.Prelude.{◌≡◌, ◌++◌, ◌+◌, ◌≤◌, min, length};
ghost use Rattle.std.proofs.Math.Seq.{paste};
ghost use Rattle.plain_text.specs.Text.{decimal};
ghost use Rattle.listing.specs.Steps.{blank, with};

#[derive(Clone, Copy)]
pub struct Text {
    pub bytes: [u8; 64],
    pub len: usize,
}

// A line with nothing in it yet.
pub fn blank() -> Text
    ensures { result ≡ blank }
{
    Text {
        bytes: [0u8; 64],
        len: 0,
    }
}

// d with s from place `at` on.
fn put(d: [u8; 64], at: usize, s: &[u8]) -> [u8; 64]
    requires { at + length s.now ≤ 64 }
    ensures { result ≡ paste d at s.now (length s.now) }
{
    let mut out = d;
    out[at..at + s.len()].copy_from_slice(s);
    out
}

impl Text {
    // Inner. The text with the bytes s after its own.
    pub fn with_bytes(self, s: &[u8]) -> Text
        requires { self.len + length s.now ≤ 64 }
        ensures { result ≡ with self s.now }
    {
        Text {
            bytes: put(self.bytes, self.len, s),
            len: self.len + s.len(),
        }
    }

    // Inner. The text with a number in decimal after its own bytes.
    pub fn with_number(self, n: u64) -> Text
        requires { self.len + 20 ≤ 64 }
        ensures { result ≡ with self (decimal n) }
    {
        let mut digits = [0u8; 20];
        let k = io::decimal(n, &mut digits);
        self.with_bytes(&digits[..k])
    }

    // Inner. The text with a number and the bytes s after it.
    pub fn numbered(self, n: u64, s: &[u8]) -> Text
        requires { self.len + (20 + length s.now) ≤ 64 }
        ensures { result ≡ with self (decimal n ++ s.now) }
    {
        self.with_number(n).with_bytes(s)
    }

    // Inner. How many bytes the text has, and no more than its array.
    pub fn size(self) -> usize
        ensures { result ≡ min self.len 64 }
    {
        self.len.min(64)
    }

    // Inner. The text's bytes into out from place `at` on; the place after them.
    pub fn copy_to(self, out: &mut [u8], at: usize) -> usize
        requires { at + 64 ≤ length out.old }
        ensures { (result ≡ at + min self.len 64) × (out.new ≡ paste out.old at self.bytes (min self.len 64)) }
    {
        let n = self.size();
        out[at..at + n].copy_from_slice(&self.bytes[..n]);
        at + n
    }
}
