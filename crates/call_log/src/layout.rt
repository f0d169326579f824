// What a call of each kind is made of.
ghost use Rattle.std.specs.Prelude.{◌≡◌, length};
ghost use Rattle.call_log.specs.Log.{fields_of};

use Field::{Byte, Flag, Floats, Length, Nothing, Number, Samples, Unknown};

// A part of a call. Samples and Floats are a count, at most the number that they carry, and that
// many values.
#[derive(Clone, Copy, PartialEq, Eq, Debug)]
pub enum Field {
    Nothing,
    Byte,
    Flag,
    Number,
    Length,
    Samples(usize),
    Floats(usize),
    Unknown,
}

// The fields of a call of each kind, in its order.
static ROWS: [[Field; 6]; 15] = [
    [Unknown, Nothing, Nothing, Nothing, Nothing, Nothing], // 0: no call
    [Byte, Nothing, Nothing, Nothing, Nothing, Nothing], // 1: clear of the analysis channel
    [Samples(1024), Length, Length, Length, Nothing, Nothing], // 2: analysis frame
    [Byte, Nothing, Nothing, Nothing, Nothing, Nothing], // 3: clear of the synthesis channel
    [Floats(1024), Length, Nothing, Nothing, Nothing, Nothing], // 4: synthesis frame
    [Number, Flag, Floats(1024), Floats(1024), Length, Length], // 5: FFT
    [Number, Floats(1024), Nothing, Nothing, Nothing, Nothing], // 6: DCT
    [Byte, Floats(1024), Nothing, Nothing, Nothing, Nothing], // 7: loudest band
    [Nothing, Nothing, Nothing, Nothing, Nothing, Nothing], // 8: show both channels
    [Byte, Samples(300), Nothing, Nothing, Nothing, Nothing], // 9: set the analysis channel
    [Byte, Floats(300), Nothing, Nothing, Nothing, Nothing], // 10: set the synthesis channel
    [Samples(1024), Length, Nothing, Nothing, Nothing, Nothing], // 11: frame to lines alone
    [Byte, Floats(1024), Length, Length, Nothing, Nothing], // 12: measurement alone
    [Unknown, Nothing, Nothing, Nothing, Nothing, Nothing], // 13: no call
    [Byte, Floats(1024), Nothing, Nothing, Nothing, Nothing], // 14: the flag, sooner
];

static NO_CALL: [Field; 6] = [Unknown; 6];

// Inner. The fields of a call of a kind; above the last kind none is known.
#[tactic(auto, unfolding(crate::specs::Log::fields_of, crate::specs::Log::rows))]
pub fn fields_of(kind: u8) -> &'static [Field; 6]
    ensures value { result.now ≡ fields_of kind }
    ensures count { 6 ≡ length result.now }
{
    ROWS.get(usize::from(kind)).unwrap_or(&NO_CALL)
}
