ghost use Rattle.std.specs.Prelude.{◌≡◌};
ghost use Rattle.trellis.specs.Rows.{Marked};
ghost use Rattle.trellis.specs.State.{modes, present, other, Kept};
ghost use Rattle.decoder.specs.Decoder.{Advanced, BackedAfter};

use cost::CostKind;
use model::{Costs, Model};
use trellis::Rows;

/// Writes the row after the first reading or a later one, and the predecessor of each mode into `from`.
/// Answers whether a mode is reachable.
// The predecessors go into the caller's array, since memory is fixed.
pub fn next_row<M: Model, C: CostKind>(
    rows: &mut Rows,
    costs: &Costs<M, C>,
    taken: u32,
    reading: usize,
    from: &mut [Option<u8>; 32],
) -> bool
    ensures advanced { Advanced (C.CostKind.kind costs.now.kind.now) (M.Model.meaning costs.now.model.now) (modes rows.old) taken (present rows.old) reading (other rows.new) from.new result }
    ensures marked { Marked (modes rows.old) (other rows.new) from.new result }
    ensures backed { BackedAfter taken (modes rows.old) (present rows.old) from.new }
    ensures kept { Kept rows.old rows.new }
{
    // The number of readings taken says which of the two steps it is; a type for each would repeat the count.
    if taken == 0 {
        return rows.first(costs, reading, from);
    }
    rows.next(costs, reading, from)
}
