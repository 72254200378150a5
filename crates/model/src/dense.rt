ghost use Rattle.std.specs.Prelude.{◌≡◌, ◌<◌, ◌≤◌, true, length, is_ok, slice_index};
ghost use Rattle.fault.specs.Checks.{RefusesFirst};
ghost use Rattle.fault.specs.declared.Fault.TheVariants.{TableEntry};
ghost use Rattle.model.specs.Meaning.{MadeOf, within_outside};
ghost use Rattle.model.specs.Dense.{MOST_ENTRY, size, dense, charge_at, SoundTable, CheckedTable, UncutTable};

use super::Model as ModeModel;
use cost::Charge;
use fault::Fault;

/// A model by a table of numbers, each breaches × 65,536 + penalty: first the start charge of each mode,
/// then for each mode its passages to each mode, then for each mode its readings of each value.
#[derive(Clone, Copy, PartialEq, Eq, Debug)]
pub struct DenseTable<'a> {
    modes: usize,
    values: usize,
    numbers: &'a [u32],
    ghost few: { modes ≤ 32 },
    ghost low: { values ≤ 256 },
    ghost whole: { length numbers.now ≡ size modes values },
}

// Names the first entry that is too large.
// It shares the library's `position` with `first_broken`; element, test and fault differ.
fn first_entry_above(numbers: &[u32]) -> Result<(), Fault>
    ensures { RefusesFirst (λ i. MOST_ENTRY < slice_index numbers.now i) TableEntry result }
{
    numbers
        .iter()
        .position(|n| *n > 655359)
        .map_or(Ok(()), |i| Err(Fault::TableEntry(i)))
}

impl<'a> DenseTable<'a> {
    /// Names the first fault: the shape, the length, or the first entry that is too large.
    pub fn check(modes: usize, values: usize, numbers: &[u32]) -> Result<(), Fault>
        ensures checked { CheckedTable modes values numbers.now result }
        ensures uncut { is_ok result ≡ true → UncutTable numbers.now }
    {
        if modes < 1 || modes > 32 || values < 1 || values > 256 {
            return Err(Fault::TableShape);
        }
        if numbers.len() != modes + modes * modes + modes * values {
            return Err(Fault::TableLength);
        }
        first_entry_above(numbers)
    }

    /// The model of this table, with zero modes and zero values where its check fails.
    pub fn new(modes: usize, values: usize, numbers: &'a [u32]) -> DenseTable<'a>
        ensures { MadeOf (SoundTable modes values numbers.now) (dense modes values numbers.now) (⟦<DenseTable<'a> as ModeModel>⟧.meaning result) }
    {
        let Ok(()) = DenseTable::check(modes, values, numbers) else {
            return DenseTable {
                modes: 0,
                values: 0,
                numbers: &[],
            };
        };
        DenseTable {
            modes,
            values,
            numbers,
        }
    }

    fn charge_at(&self, i: usize) -> Charge
        requires { i < length self.now.numbers.now }
        ensures { result ≡ charge_at self.now.numbers.now i }
    {
        let n = u64::from(self.numbers[i]);
        Charge::saturating(n / 65536, n % 65536)
    }
}

impl<'a> ModeModel for DenseTable<'a> {
    ghost use Rattle.model.specs.Made.{meaning_of_table};

    ghost meaning = { meaning_of_table };

    ghost outside = { λ d. within_outside _ _ _ _ _ };

    fn modes(&self) -> usize {
        self.modes
    }

    fn values(&self) -> usize {
        self.values
    }

    fn start(&self, mode: usize) -> Charge {
        if mode >= self.modes {
            return Charge::worst();
        }
        self.charge_at(mode)
    }

    fn passage(&self, from: usize, to: usize) -> Charge {
        if from >= self.modes || to >= self.modes {
            return Charge::worst();
        }
        self.charge_at(self.modes + from * self.modes + to)
    }

    fn reading(&self, mode: usize, value: usize) -> Charge {
        if mode >= self.modes || value >= self.values {
            return Charge::worst();
        }
        self.charge_at(self.modes + self.modes * self.modes + mode * self.values + value)
    }
}
