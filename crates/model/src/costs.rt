use cost::{CostKind, Total};

/// What starts, passages and readings cost: the charges of a model under a kind of cost.
#[derive(Debug, Drop)]
pub struct Costs<'a, M, C> {
    pub model: &'a M,
    pub kind: &'a C,
}

impl<'a, M: super::Model, C: CostKind> Costs<'a, M, C> {
    ghost use Rattle.cost.specs.Kind.{Charged};

    // Clauses name kind and meaning in full, here and above: a word of specs/ cannot read the members of a bound.

    /// The total of a start in a mode, or `None` where it is barred.
    pub fn start(&self, mode: usize) -> Option<Total>
        ensures { Charged (C.CostKind.kind self.now.kind.now) ((C.CostKind.kind self.now.kind.now).carried (C.CostKind.kind self.now.kind.now).zero) ((M.Model.meaning self.now.model.now).start mode) result }
    {
        self.kind.charged(self.kind.zero(), self.model.start(mode))
    }

    /// The total with one more passage, or `None` where it is barred.
    pub fn passage(&self, total: Total, from: usize, to: usize) -> Option<Total>
        ensures { Charged (C.CostKind.kind self.now.kind.now) total ((M.Model.meaning self.now.model.now).passage from to) result }
    {
        self.kind.charged(total, self.model.passage(from, to))
    }

    /// The total with one more reading, or `None` where it is barred.
    pub fn reading(&self, total: Total, mode: usize, value: usize) -> Option<Total>
        ensures { Charged (C.CostKind.kind self.now.kind.now) total ((M.Model.meaning self.now.model.now).reading mode value) result }
    {
        self.kind.charged(total, self.model.reading(mode, value))
    }
}
