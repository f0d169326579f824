// What lines of text are made of: a space, a newline, a flag as a digit, a number in decimal, whose laws, that the kit's `io::decimal` writes it, are in
// proofs/. New in this port.

#![tactic(auto)]

ghost use Rattle.std.specs.Prelude.{◌≡◌};
ghost use Rattle.plain_text.specs.Text.{digit};

// Entry. A flag as a digit.
pub fn digit(flag: bool) -> u8
    ensures { result ≡ digit flag }
{
    if flag { b'1' } else { b'0' }
}
