ghost use Rattle.std.specs.Prelude.{◌≡◌};
ghost use Rattle.cost.specs.Graded.{graded};

use super::charge::{Charge, Shown, Total};
use super::kind::CostKind;

/// Bars nothing; breaches and penalties are added apart and compared in that order.
#[derive(Clone, Copy, PartialEq, Eq, Debug)]
pub struct Graded {}

impl CostKind for Graded {
    ghost kind = { λ _. graded };

    fn zero(&self) -> Total {
        Total {
            breaches: 0,
            penalty: 0,
        }
    }

    fn cost(&self, charge: Charge) -> Option<Total> {
        Some(Total {
            breaches: u64::from(charge.breaches),
            penalty: u64::from(charge.penalty),
        })
    }

    fn sum(&self, a: Total, b: Total) -> Total {
        Total {
            breaches: a.breaches.wrapping_add(b.breaches),
            penalty: a.penalty.wrapping_add(b.penalty),
        }
    }

    fn less(&self, a: Total, b: Total) -> bool {
        (a.breaches, a.penalty) < (b.breaches, b.penalty)
    }

    fn shown(&self, a: Total) -> Shown {
        Shown {
            breaches: a.breaches,
            penalty: a.penalty,
        }
    }
}
