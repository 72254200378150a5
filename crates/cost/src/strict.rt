ghost use Rattle.std.specs.Prelude.{◌≡◌};
ghost use Rattle.cost.specs.Strict.{strict};

use super::charge::{Charge, Shown, Total};
use super::kind::CostKind;

/// Bars every charge with a breach; otherwise the cost is the penalty.
#[derive(Clone, Copy, PartialEq, Eq, Debug)]
pub struct Strict {}

impl CostKind for Strict {
    ghost kind = { λ _. strict };

    // Each kind has its own zero: sharing it would tie the kinds together for two lines.
    fn zero(&self) -> Total {
        Total {
            breaches: 0,
            penalty: 0,
        }
    }

    fn cost(&self, charge: Charge) -> Option<Total> {
        if charge.breaches > 0 {
            return None;
        }
        Some(Total {
            breaches: 0,
            penalty: u64::from(charge.penalty),
        })
    }

    fn sum(&self, a: Total, b: Total) -> Total {
        Total {
            breaches: 0,
            penalty: a.penalty.wrapping_add(b.penalty),
        }
    }

    fn less(&self, a: Total, b: Total) -> bool {
        a.penalty < b.penalty
    }

    fn shown(&self, a: Total) -> Shown {
        Shown {
            breaches: 0,
            penalty: a.penalty,
        }
    }
}
