ghost use Rattle.std.specs.Prelude.{◌≡◌, ℕ, true, is_some, Some};
ghost use Rattle.trellis.specs.Carried.{Through, Better, Arrived, OneOf, best_from};

use cost::{Charge, CostKind, Total};

/// The best way into a mode: its total, and the mode that it comes from.
#[derive(Clone, Copy, PartialEq, Eq, Debug)]
pub struct Best {
    pub total: Total,
    pub from: u8,
}

/// The total with one more charge, if there is one.
// The caller asks for the charge in every case, here and in `arrived`: asked for only where there is a total, it makes the
// loops over the modes slower.
pub fn through<C: CostKind>(kind: &C, total: Option<Total>, passage: Charge) -> Option<Total>
    ensures carried { Through (C.CostKind.kind kind.now) total passage result }
    ensures some { is_some result ≡ true → is_some total ≡ true }
{
    kind.charged(total?, passage)
}

/// The better of the best so far and the total of the next mode, which loses a tie.
pub fn better<C: CostKind>(
    kind: &C,
    best: Option<Best>,
    next: Option<Total>,
    from: u8,
) -> Option<Best>
    ensures carried { Better (C.CostKind.kind kind.now) best next from result }
    ensures one { OneOf best next from result }
{
    let Some(total) = next else {
        return best;
    };
    // One match: with `is_none_or` the best so far is copied at each mode, which made the loops over the modes much slower.
    match best {
        Some(b) if !kind.less(total, b.total) => best,
        _ => Some(Best { total, from }),
    }
}

/// The best way with the charge of the reading added.
pub fn arrived<C: CostKind>(kind: &C, best: Option<Best>, reading: Charge) -> Option<Best>
    ensures carried { Arrived (C.CostKind.kind kind.now) best reading result }
    ensures same { (s : ℕ) → best_from result ≡ Some s → best_from best ≡ Some s }
{
    let Best { total, from } = best?;
    let total = kind.charged(total, reading)?;
    Some(Best { total, from })
}
