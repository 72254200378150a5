ghost use Rattle.std.specs.Prelude.{◌≡◌};
ghost use Rattle.cost.specs.Kind.{Kind, carried_cost, Summed, Compared, ShownAs, Charged};

use super::charge::{Charge, Shown, Total};

/// A kind of cost. Its meaning is a set of costs with a zero, a sum and an order that keep the laws of `Kind`,
/// what each charge costs or that it is barred, and how a cost is shown and carried.
///
/// Sums, order and shown numbers are answered for every total that carries a sum of at most 2,000,000 charges;
/// of other totals nothing is said.
pub trait CostKind {
    ghost kind: { Self → Kind };

    /// The cost of nothing.
    fn zero(&self) -> Total
        ensures { result ≡ (kind self.now).carried (kind self.now).zero };

    /// What a charge costs, or `None` where it is barred.
    fn cost(&self, charge: Charge) -> Option<Total>
        ensures { result ≡ carried_cost (kind self.now) charge };

    /// The sum of two costs.
    fn sum(&self, a: Total, b: Total) -> Total
        ensures { Summed (kind self.now) a b result };

    /// Whether the first is less than the second.
    fn less(&self, a: Total, b: Total) -> bool
        ensures { Compared (kind self.now) a b result };

    /// The numbers that are shown of a cost.
    fn shown(&self, a: Total) -> Shown
        ensures { ShownAs (kind self.now) a result };

    /// The total with one more charge, or `None` where the charge is barred.
    fn charged(&self, total: Total, charge: Charge) -> Option<Total>
        ensures { Charged (kind self.now) total charge result }
    {
        let cost = self.cost(charge)?;
        Some(self.sum(total, cost))
    }
}
