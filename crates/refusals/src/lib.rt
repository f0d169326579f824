// The refusals: why a call is refused, document 01's numbers for it, and the tests that several
// calls make alike. New in this port.

#![tactic(auto)]

ghost use Rattle.std.specs.Prelude.{◌≡◌};
ghost use Rattle.refusals.specs.Refusals.{number_of, index_of, told_by, on_clear, on_values, on_energies};

// Why a call is refused, in the order in which the reasons are tested. A bad value and a bad
// energy say which is the first.
#[derive(Clone, Copy, PartialEq, Eq, Debug)]
pub enum Refusal {
    BadConfig,
    BadSize,
    BadInput,
    BadOutput,
    BadEnergies,
    BadValue(usize),
    BadEnergy(usize),
    ShortFile,
    BadMark,
    BadVersion,
    CutFrame,
}

impl Refusal {
    // Entry. Document 01's number.
    pub fn number(self) -> u8
        ensures { result ≡ number_of self }
    {
        match self {
            Refusal::BadConfig => 1,
            Refusal::BadSize => 2,
            Refusal::BadInput => 3,
            Refusal::BadOutput => 4,
            Refusal::BadEnergies => 5,
            Refusal::BadValue(_) => 6,
            Refusal::BadEnergy(_) => 7,
            Refusal::ShortFile => 8,
            Refusal::BadMark => 9,
            Refusal::BadVersion => 10,
            Refusal::CutFrame => 11,
        }
    }

    // Entry. The index beside the number: the first bad value's or energy's, else 0.
    pub fn index(self) -> usize
        ensures { result ≡ index_of self }
    {
        match self {
            Refusal::BadValue(index) | Refusal::BadEnergy(index) => index,
            _ => 0,
        }
    }
}

// What C is told of a call: the number, 0 where it is accepted, and for numbers 6 and 7 the index.
#[repr(C)]
#[derive(Clone, Copy)]
pub struct Verdict {
    pub number: u8,
    pub index: usize,
}

impl From<Result<(), Refusal>> for Verdict {
    ghost from_gives = { λ told v. v ≡ told_by told };

    // Entry. The number and the index of an answer.
    fn from(told: Result<(), Refusal>) -> Verdict
        ensures { result ≡ told_by told }
    {
        match told {
            Ok(()) => Verdict {
                number: 0,
                index: 0,
            },
            Err(refusal) => Verdict {
                number: refusal.number(),
                index: refusal.index(),
            },
        }
    }
}

// What a call on a channel answers: whether it is refused, and the channel after it.
#[derive(Clone, Copy)]
pub struct Answered<C> {
    pub told: Result<(), Refusal>,
    pub channel: C,
}

// What a clear is told, and the configuration of the channel that it gives.
#[derive(Clone, Copy)]
pub struct Clear {
    pub told: Result<(), Refusal>,
    pub config: u8,
}

// Entry. The test of a clear, 1, and its channel's configuration: the one asked for, or 255 beside
// a refusal.
pub fn on_clear(config: u8) -> Clear
    ensures { result ≡ on_clear config }
{
    if config::valid(config) {
        Clear {
            told: Ok(()),
            config,
        }
    } else {
        Clear {
            told: Err(Refusal::BadConfig),
            config: 255,
        }
    }
}

// Entry. The test of values that have passed all others: 6.
pub fn on_values(values: &[f32]) -> Result<(), Refusal>
    ensures { told_by result ≡ on_values values.now }
{
    match laws::first_failing_6(values) {
        Some(index) => Err(Refusal::BadValue(index)),
        None => Ok(()),
    }
}

// Entry. The tests of the energies of a configuration: 1, 5 and 7.
pub fn on_energies(config: u8, energies: &[f32]) -> Result<(), Refusal>
    ensures { told_by result ≡ on_energies config energies.now }
{
    if !config::valid(config) {
        return Err(Refusal::BadConfig);
    }
    if energies.len() != config::nb(config) {
        return Err(Refusal::BadEnergies);
    }
    match laws::first_failing_7(energies) {
        Some(index) => Err(Refusal::BadEnergy(index)),
        None => Ok(()),
    }
}
