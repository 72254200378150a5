//! One reading of the trellis: from the totals of all modes to the next totals, and the predecessor of each mode.
#![tactic(auto)]

ghost use Rattle.std.specs.Prelude.{◌≡◌, min};
ghost use Rattle.trellis.specs.Size.{MODES};
ghost use Rattle.trellis.specs.Rows.{Backed, Advances, First, Ends, Marked, AllBacked, AllThemselves};

mod best;
mod row;

pub use best::Best;
use cost::CostKind;
use model::{Costs, Model};
use row::{Modes, Row, first_row, least_in, next_row};

/// Two rows of totals, one for each mode: the present one, and one to write the next into.
#[derive(Debug, Drop)]
pub struct Rows {
    // One count for both rows and for the predecessors: with an `ArrayVec` for each, three lengths would have to agree.
    modes: Modes,
    even: Row,
    odd: Row,
    // Whether the odd row is the present one: so a turn moves no total, whatever the number of modes.
    turned: bool,
}

impl Rows {
    ghost use Rattle.trellis.specs.State.{modes, present, other, Kept, Turned};

    /// Rows of no modes.
    pub fn new() -> Self
        ensures { modes result ≡ 0 }
    {
        Rows {
            modes: Modes { count: 0 },
            even: [None; 32],
            odd: [None; 32],
            turned: false,
        }
    }

    /// Rows of so many modes, at most 32, for a new log.
    pub fn reset(&mut self, count: usize)
        ensures { modes self.new ≡ min count MODES }
    {
        let count = count.min(32);
        self.modes = Modes { count };
    }

    /// The number of modes.
    pub fn modes(&self) -> usize
        ensures { result ≡ modes self.now }
    {
        self.modes.count
    }

    /// Writes the row after the first reading, and into `from` each reachable mode as its own predecessor.
    /// Answers whether a mode is reachable. The present row stays.
    pub fn first<M: Model, C: CostKind>(
        &mut self,
        costs: &Costs<M, C>,
        reading: usize,
        from: &mut [Option<u8>; 32],
    ) -> bool
        ensures first { modes self.old ≡ (M.Model.meaning costs.now.model.now).modes → First (C.CostKind.kind costs.now.kind.now) (M.Model.meaning costs.now.model.now) reading (other self.new) from.new result }
        ensures marked { Marked (modes self.old) (other self.new) from.new result }
        ensures themselves { AllThemselves (modes self.old) from.new }
        ensures kept { Kept self.old self.new }
    {
        let modes = self.modes;
        // A branch for each row, here, in `next` and in `least`: one is read and the other written, as the flag says.
        if self.turned {
            return first_row(costs, modes, reading, &mut self.even, from);
        }
        first_row(costs, modes, reading, &mut self.odd, from)
    }

    /// Writes the row after one more reading, and the predecessor of each mode into `from`.
    /// Answers whether a mode is reachable. The present row stays.
    pub fn next<M: Model, C: CostKind>(
        &mut self,
        costs: &Costs<M, C>,
        reading: usize,
        from: &mut [Option<u8>; 32],
    ) -> bool
        ensures next { Advances (C.CostKind.kind costs.now.kind.now) (M.Model.meaning costs.now.model.now) (modes self.old) (present self.old) reading (other self.new) from.new result }
        ensures marked { Marked (modes self.old) (other self.new) from.new result }
        ensures backed { AllBacked (modes self.old) (present self.old) from.new }
        ensures kept { Kept self.old self.new }
    {
        let modes = self.modes;
        if self.turned {
            return next_row(costs, modes, &self.odd, reading, &mut self.even, from);
        }
        next_row(costs, modes, &self.even, reading, &mut self.odd, from)
    }

    /// The row that was written last is now the present one, and the other way round.
    pub fn turn(&mut self)
        ensures { Turned self.old self.new }
    {
        self.turned = !self.turned;
    }

    /// The last mode of the cheapest path of the log, with its total; `None` if no mode is reachable.
    pub fn least<M: Model, C: CostKind>(&self, costs: &Costs<M, C>) -> Option<Best>
        ensures ends { Ends (C.CostKind.kind costs.now.kind.now) (M.Model.meaning costs.now.model.now) (modes self.now) (present self.now) result }
        ensures backed { Backed (modes self.now) (present self.now) result }
    {
        if self.turned {
            return least_in(costs, self.modes, &self.odd);
        }
        least_in(costs, self.modes, &self.even)
    }
}
