// The loudest band of a frame: quiet, or the first band with the greatest energy times number of lines. New in this port.

#![tactic(auto)]

ghost use Rattle.std.specs.Prelude.{◌≡◌, ◌<◌, T, length};
ghost use Rattle.laws.specs.Lists.{first, Rising};
ghost use Rattle.laws.specs.Passes.{passes7};
ghost use Rattle.laws.specs.Greatest.{best};
ghost use Rattle.config.specs.Config.{valid, nb};
ghost use Rattle.loudest.specs.Loudest.{product, products, loudest, heard, outcome};

use refusals::Refusal;

// An enum of its own, and no Option: a rule of the project, document 01's "Language forms by place".
// Loud carries the band, and the product that it is ranked by.
#[derive(Clone, Copy)]
pub enum Loudest {
    Quiet,
    Loud(usize, f32),
}

// What band b is ranked by: its energy times its number of lines.
fn product(energies: &[f32], edges: &[usize], b: usize) -> f32
    requires { (b < length energies.now) × (length energies.now < length edges.now) × Rising (length energies.now) edges.now 480 }
    ensures { result ≡ product edges.now energies.now b }
{
    let lines = edges[b + 1] - edges[b];
    energies[b] * lines as i32 as f32
}

// The first band with the greatest product: a later one takes its stead only where it is greater.
fn scan(energies: &[f32], edges: &[usize]) -> usize
    requires { (0 < length energies.now) × (length energies.now < length edges.now) × Rising (length energies.now) edges.now 480 }
    ensures { result ≡ best (products edges.now energies.now) (length energies.now) }
{
    let mut band = 0;
    let mut greatest = product(energies, edges, 0);
    for i in 0..energies.len() {
        let own = product(energies, edges, i);
        if greatest < own {
            band = i;
            greatest = own;
        }
    }
    band
}

// The answer on energies that pass 7: where the greatest product is zero, all energies are.
fn answer(c: u8, energies: &[f32]) -> Loudest
    requires { T (valid c) × (length energies.now ≡ nb c) × (first passes7 energies.now ≡ length energies.now) }
    ensures { result ≡ loudest c energies.now }
{
    let edges = config::edges(c);
    let band = scan(energies, edges);
    let greatest = product(energies, edges, band);
    if 0.0 < greatest {
        Loudest::Loud(band, greatest)
    } else {
        Loudest::Quiet
    }
}

// Entry. The loudest band of the energies of a configuration.
pub fn loudest_band(config: u8, energies: &[f32]) -> Result<Loudest, Refusal>
    ensures { outcome result ≡ heard config energies.now }
{
    refusals::on_energies(config, energies)?;
    Ok(answer(config, energies))
}
