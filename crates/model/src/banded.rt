ghost use Rattle.std.specs.Prelude.{◌≡◌, ◌≤◌, true, is_ok, slice_index_or};
ghost use Rattle.fault.specs.Checks.{RefusesFirst};
ghost use Rattle.fault.specs.declared.Fault.TheVariants.{Parameter};
ghost use Rattle.model.specs.Meaning.{MadeOf, within_outside};
ghost use Rattle.model.specs.Banded.{banded, limit, limits, Broken, OutOfRange, AllInRange, Uncut};

use super::Model as ModeModel;
use cost::Charge;
use fault::Fault;

/// The eight parameters of a banded model, in the order in which they are checked. The default ones are all 0, and pass
/// no check.
#[derive(Clone, Copy, PartialEq, Eq, Debug, Default)]
pub struct Parameters {
    pub modes: u16,
    pub values: u16,
    pub band: u16,
    pub hop: u16,
    pub rate: u16,
    pub slope: u16,
    pub centre: u16,
    pub spacing: u16,
}

// A parameter's value, with the least and the greatest that it may have.
#[derive(Clone, Copy)]
struct Limit {
    value: u16,
    least: u16,
    most: u16,
}

impl Limit {
    fn new(value: u16, least: u16, most: u16) -> Limit
        ensures { result ≡ limit value least most }
    {
        Limit { value, least, most }
    }
}

// Names the first parameter that is out of its range.
fn first_broken(limits: &[Limit]) -> Result<(), Fault>
    ensures { RefusesFirst (λ i. Broken (slice_index_or limits.now i (limit 0 0 0))) Parameter result }
{
    let broken = limits.iter().position(|limit| limit.value < limit.least
        || limit.most < limit.value);
    // A match: with `map_or`, as for the entries of a table, the proof did not close here.
    match broken {
        Some(i) => Err(Fault::Parameter(i)),
        None => Ok(()),
    }
}

impl Parameters {
    fn limits(&self) -> [Limit; 8]
        ensures { result ≡ limits self.now }
    {
        [
            Limit::new(self.modes, 1, 32),
            Limit::new(self.values, 1, 256),
            Limit::new(self.band, 0, 31),
            Limit::new(self.hop, 0, 1000),
            Limit::new(self.rate, 0, 1000),
            Limit::new(self.slope, 0, 8),
            Limit::new(self.centre, 0, 255),
            Limit::new(self.spacing, 0, 255),
        ]
    }

    /// Names the first parameter that is out of its range.
    pub fn check(&self) -> Result<(), Fault>
        ensures first { RefusesFirst (OutOfRange self.now) Parameter result }
        ensures uncut { is_ok result ≡ true → Uncut self.now }
    {
        first_broken(&self.limits())
    }
}

/// A model by formulas: passages cost by distance, readings by the distance from their mode's centre.
#[derive(Clone, Copy, PartialEq, Eq, Debug)]
pub struct Banded {
    parameters: Parameters,
    ghost few: { parameters.modes ≤ 32 },
    ghost low: { parameters.values ≤ 256 },
}

impl Banded {
    /// The model of these parameters, with zero modes and zero values where their check fails.
    pub fn new(parameters: Parameters) -> Banded
        ensures { MadeOf (AllInRange parameters) (banded parameters) (⟦<Banded as ModeModel>⟧.meaning result) }
    {
        let Ok(()) = parameters.check() else {
            return Banded {
                parameters: Parameters::default(),
            };
        };
        Banded { parameters }
    }
}

impl ModeModel for Banded {
    ghost use Rattle.model.specs.Made.{meaning_of_banded};

    ghost meaning = { meaning_of_banded };

    ghost outside = { λ b. within_outside _ _ _ _ _ };

    fn modes(&self) -> usize {
        usize::from(self.parameters.modes)
    }

    fn values(&self) -> usize {
        usize::from(self.parameters.values)
    }

    fn start(&self, mode: usize) -> Charge {
        if mode >= self.modes() {
            return Charge::worst();
        }
        Charge::saturating(0, 0)
    }

    fn passage(&self, from: usize, to: usize) -> Charge {
        if from >= self.modes() || to >= self.modes() {
            return Charge::worst();
        }
        let distance = from.abs_diff(to) as u64;
        if distance == 0 {
            return Charge::saturating(0, 0);
        }
        let breaches = u64::from(distance > u64::from(self.parameters.band));
        let penalty = u64::from(self.parameters.hop) + u64::from(self.parameters.rate) * distance;
        Charge::saturating(breaches, penalty)
    }

    fn reading(&self, mode: usize, value: usize) -> Charge {
        if mode >= self.modes() || value >= self.values() {
            return Charge::worst();
        }
        let centre = u64::from(self.parameters.centre)
            + u64::from(self.parameters.spacing) * mode as u64;
        let distance = (value as u64).abs_diff(centre);
        Charge::saturating(0, u64::from(self.parameters.slope) * distance)
    }
}
