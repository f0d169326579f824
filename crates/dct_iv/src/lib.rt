// The DCT-IV by an FFT of half its length: its refusals, the length's own function, and the entry.
// Ported from src/common/dct_iv.rs of lc3-codec 0.2.0, and changed: refusals stand in place of panics. The DCT itself is a crate below this one.

#![tactic(auto)]

ghost use Rattle.std.specs.Prelude.{◌≡◌, T, length};
ghost use Rattle.config.specs.Config.{among, dct_lengths};
ghost use Rattle.refusals.specs.Refusals.{told_by};
ghost use Rattle.dct_steps.specs.Dct.{dct_iv};
ghost use Rattle.dct_iv.specs.DctIv.{verdict, outcome, answer};

use dct_steps::by;
use refusals::Refusal;

// Inner. The DCT-IV of buf, in place. A match, since a const parameter is no value: a closure or a
// table of functions is no plainer.
#[tactic(auto, unfolding(config::specs::Config::fft_sizes, config::specs::Config::half, config::specs::Config::row, config::specs::Tables::rows))]
pub fn run(buf: &mut [f32])
    requires { T (among dct_lengths (length buf.old)) }
    ensures { buf.new ≡ dct_iv buf.old }
{
    match buf.len() {
        20 => by::<10>(buf),
        40 => by::<20>(buf),
        60 => by::<30>(buf),
        80 => by::<40>(buf),
        120 => by::<60>(buf),
        160 => by::<80>(buf),
        180 => by::<90>(buf),
        240 => by::<120>(buf),
        320 => by::<160>(buf),
        360 => by::<180>(buf),
        _ => by::<240>(buf),
    }
}

// The refusals, in their order.
fn judge(n: usize, buf: &[f32]) -> Result<(), Refusal>
    ensures { told_by result ≡ verdict n buf.now }
{
    if !config::is_dct_length(n) {
        return Err(Refusal::BadSize);
    }
    if buf.len() != n {
        return Err(Refusal::BadInput);
    }
    refusals::on_values(buf)
}

// Entry. The DCT-IV of buf, in place. A refused call writes nothing.
pub fn dct_iv(length: usize, buf: &mut [f32]) -> Result<(), Refusal>
    ensures { outcome (told_by result) buf.new ≡ answer length buf.old }
{
    judge(length, buf)?;
    run(buf);
    Ok(())
}
