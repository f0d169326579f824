// The measurement of lines, wherever they come from: the energies and peaks of their bands, and the near-Nyquist flag. It knows no channel and no window.
// Ported from src/encoder/modified_dct.rs of lc3-codec 0.2.0, and changed: a call of its own, a configuration number picks the bands,
// each band has its peak, and a call with wrong lengths or lines is refused.

#![tactic(auto)]

ghost use Rattle.std.specs.Prelude.{◌≡◌, T, length};
ghost use Rattle.config.specs.Config.{valid, nf, nb};
ghost use Rattle.refusals.specs.Refusals.{told_by};
ghost use Rattle.measurement.specs.Measurement.{energies_of, peaks_of, flag_of, number, verdict, measures, lent, outcome};

use refusals::Refusal;

// Whether the energies lie near the Nyquist frequency. Never at 48 kHz.
fn is_near_nyquist(c: u8, energies: &[f32]) -> bool
    requires { T (valid c) × (length energies.now ≡ nb c) }
    ensures { result ≡ flag_of c energies.now }
{
    if 32000 < config::rate(c) {
        return false;
    }
    measurement_steps::exceeds(energies, energies.len() - config::upper(c))
}

// The energies and peaks of the lines. Where there are as many bands as lines each has one, and the edges are not needed.
fn apply_energy_estimation(c: u8, lines: &[f32], energies: &mut [f32], peaks: &mut [usize])
    requires { T (valid c) × (length lines.now ≡ nf c) × (length energies.old ≡ nb c) × (length peaks.old ≡ nb c) }
    ensures { (energies.new ≡ energies_of c lines.now) × (peaks.new ≡ peaks_of c lines.now) }
{
    if energies.len() == lines.len() {
        measurement_steps::ones(lines, energies, peaks);
        return;
    }
    let edges = config::edges(c);
    measurement_steps::apply_energy_estimation(lines, edges, energies, peaks);
}

// The refusals, in the order of document 01's table.
fn judge(c: u8, lines: &[f32], energies: &[f32], peaks: &[usize]) -> Result<(), Refusal>
    ensures { told_by result ≡ verdict (number c (lent lines.now energies.now peaks.now)) (lent lines.now energies.now peaks.now) }
{
    if !config::valid(c) {
        return Err(Refusal::BadConfig);
    }
    if lines.len() != config::nf(c) {
        return Err(Refusal::BadInput);
    }
    if energies.len() != config::nb(c) || peaks.len() != config::nb(c) {
        return Err(Refusal::BadEnergies);
    }
    refusals::on_values(lines)
}

// Entry. The energies and peaks of nf lines, and their flag. A refusal writes nothing.
pub fn measure(
    config: u8,
    lines: &[f32],
    energies: &mut [f32],
    peaks: &mut [usize],
) -> Result<bool, Refusal>
    ensures { outcome result energies.new peaks.new ≡ measures config (lent lines.now energies.old peaks.old) }
{
    judge(config, lines, energies, peaks)?;
    apply_energy_estimation(config, lines, energies, peaks);
    Ok(is_near_nyquist(config, energies))
}
