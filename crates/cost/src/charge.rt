ghost use Rattle.std.specs.Prelude.{◌≡◌, ◌≤◌};

use std::fmt;

/// What a model asks for a start, a passage or a reading: breaches, 0 to 9, and a penalty.
#[derive(Clone, Copy, PartialEq, Eq, Debug)]
pub struct Charge {
    pub breaches: u8,
    pub penalty: u16,
    ghost few: { breaches ≤ 9 },
    ghost low: { penalty ≤ 65535 },
}

impl Charge {
    ghost use Rattle.cost.specs.Charges.{charge, worst};

    /// The charge of these breaches and this penalty; a number too large for a charge is cut to the largest.
    pub fn saturating(breaches: u64, penalty: u64) -> Charge
        ensures { result ≡ charge breaches penalty }
    {
        Charge {
            breaches: breaches.min(9) as u8,
            penalty: penalty.min(65535) as u16,
        }
    }

    /// The answer about a mode or a value that a model does not have.
    pub fn worst() -> Charge
        ensures { result ≡ worst }
    {
        Charge::saturating(9, 65535)
    }
}

/// A cost as a kind carries it at run time.
#[derive(Clone, Copy, PartialEq, Eq, Debug)]
pub struct Total {
    pub breaches: u64,
    pub penalty: u64,
}

/// A cost as it is shown. Not a `Total`: only the kind can say what is shown of one.
#[derive(Clone, Copy, PartialEq, Eq, Debug)]
pub struct Shown {
    pub breaches: u64,
    pub penalty: u64,
}

impl fmt::Display for Shown {
    fn fmt<W: fmt::Write>(&self, f: &mut fmt::Formatter<W>) -> fmt::Result {
        let breaches = self.breaches;
        let penalty = self.penalty;
        write!(f, "{breaches} and {penalty}")
    }
}
