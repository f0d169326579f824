// The near-Nyquist flag of energies, sooner: it stops at the first upper band that settles it, and says how many bands it read. New in this port.

#![tactic(auto)]

ghost use Rattle.std.specs.Prelude.{◌≡◌, not, ◌≤◌, T, length};
ghost use Rattle.std.specs.Float.Ieee.{lt};
ghost use Rattle.laws.specs.Lists.{first};
ghost use Rattle.config.specs.Config.{valid, nb};
ghost use Rattle.near_nyquist.specs.Sooner.{running, stop, told, answer, asked, outcome};

use refusals::Refusal;

// The answer, and how many bands were read for it.
#[derive(Clone, Copy)]
pub struct Sooner {
    pub answer: bool,
    pub read: usize,
}

// The first energy with which the sum, from 0.0 in their order, exceeds the bound, strictly; their number where none does.
fn first_above(energies: &[f32], bound: f32) -> usize
    ensures { result ≡ first (λ sum. not (lt bound sum)) (running energies.now) }
{
    let mut sum = 0.0f32;
    for (i, energy) in energies.iter().enumerate() {
        sum += *energy;
        if sum > bound {
            return i;
        }
    }
    energies.len()
}

// The band that settles the flag: the first from split on at which their sum exceeds 30 times that of the bands before split; their number where none does.
fn stop(energies: &[f32], split: usize) -> usize
    requires { split ≤ length energies.now }
    ensures { result ≡ stop split energies.now }
{
    let (lower, upper) = energies.split_at(split);
    split + first_above(upper, 30.0 * measurement_steps::total(lower))
}

// The answer on energies that pass 7. At 48 kHz no band is read.
fn answer(c: u8, energies: &[f32]) -> Sooner
    requires { T (valid c) × (length energies.now ≡ nb c) }
    ensures { told result.answer result.read ≡ answer c energies.now }
{
    if 32000 < config::rate(c) {
        return Sooner {
            answer: false,
            read: 0,
        };
    }
    let bands = energies.len();
    let band = stop(energies, bands - config::upper(c));
    let answer = band < bands;
    Sooner {
        answer,
        read: if answer { band + 1 } else { bands },
    }
}

// Entry. Whether the energies of a configuration lie near the Nyquist frequency.
pub fn near_nyquist(config: u8, energies: &[f32]) -> Result<Sooner, Refusal>
    ensures { outcome result ≡ asked config energies.now }
{
    refusals::on_energies(config, energies)?;
    Ok(answer(config, energies))
}
