//! The engine: one reading at a time, the rows of totals, the survivor tree and the ring of ready modes in step.
#![tactic(auto)]

ghost use Rattle.std.specs.Prelude.{◌≡◌, ◌%◌, ◌<◌, min, slice_index};
ghost use Rattle.viterbi.specs.Lists.{Counted};
ghost use Rattle.viterbi.specs.Paths.{Log};
ghost use Rattle.trellis.specs.Size.{MODES, READINGS};
ghost use Rattle.decoder.specs.Linked.{Linked};

mod row;

use cost::{CostKind, Total};
use fault::Fault;
use model::{Costs, Model};
use row::next_row;
use survivors::Survivors;
use trellis::Rows;

/// The cells of the survivor tree.
const CELLS: usize = 1024;

/// The readings taken of one log: the totals of all modes, the undecided parts of their cheapest paths, and the decided
/// modes, where the mode of the reading i stands at the place i mod 4,096 of the ring.
#[derive(Debug, Drop)]
pub struct Decoder {
    rows: Rows,
    tree: Survivors,
    ring: [u8; 4096],
    ghost linked: { Linked rows tree },
}

impl Decoder {
    ghost use Rattle.decoder.specs.Shown.{PLACES, OnPath, decided, ring, taken};
    ghost use Rattle.decoder.specs.Decoder.{Fresh, Stands, Stepped, Ended};

    /// No readings, and no modes.
    pub fn new() -> Self
        ensures { Fresh 0 result }
    {
        let rows = Rows::new();
        let tree = Survivors::new();
        Decoder {
            rows,
            tree,
            ring: [0; 4096],
        }
    }

    /// Forgets all readings, for a log of so many modes, at most 32.
    pub fn reset(&mut self, modes: usize)
        ensures { Fresh (min modes MODES) self.new }
    {
        self.tree.clear();
        self.rows.reset(modes);
    }

    /// Takes one more reading, or refuses it: where the tree has too few free cells, and where no mode would be reachable.
    /// `at` is the place that a fault tells.
    pub fn step<M: Model, C: CostKind>(
        &mut self,
        costs: &Costs<M, C>,
        reading: usize,
        at: usize,
    ) -> Result<(), Fault>
        requires { taken self.old < READINGS }
        ensures { (xs : Log) → Stands (C.CostKind.kind costs.now.kind.now) (M.Model.meaning costs.now.model.now) xs self.old → Stepped (C.CostKind.kind costs.now.kind.now) (M.Model.meaning costs.now.model.now) xs reading at self.old result self.new }
    {
        let modes = self.rows.modes();
        let needed = self.live() + modes;
        if needed > CELLS {
            return Err(Fault::TreeFull(at));
        }
        let mut from = [None; 32];
        let taken = self.taken();
        if !next_row(&mut self.rows, costs, taken, reading, &mut from) {
            return Err(Fault::NoReachableMode(at));
        }
        self.rows.turn();
        self.tree.grow(&from[..modes]);
        self.tree.settle(&mut self.ring);
        Ok(())
    }

    /// Settles the cheapest path of the log and answers its total.
    pub fn finish<M: Model, C: CostKind>(&mut self, costs: &Costs<M, C>) -> Total
        ensures { (xs : Log) → Stands (C.CostKind.kind costs.now.kind.now) (M.Model.meaning costs.now.model.now) xs self.old → Ended (C.CostKind.kind costs.now.kind.now) (M.Model.meaning costs.now.model.now) xs result self.new }
    {
        if self.taken() == 0 {
            return costs.kind.zero();
        }
        // After a reading some mode is reachable, so there is an end.
        let Some(best) = self.rows.least(costs) else {
            return costs.kind.zero();
        };
        self.tree.finish(best.from, &mut self.ring);
        best.total
    }

    /// How many readings were taken.
    pub fn taken(&self) -> u32
        ensures { result ≡ taken self.now }
    {
        self.tree.taken()
    }

    /// How many of them are decided.
    pub fn decided(&self) -> u32
        ensures { result ≡ decided self.now }
    {
        self.tree.decided()
    }

    /// How many cells are live.
    pub fn live(&self) -> usize
        ensures { Counted (OnPath self.now) result }
    {
        self.tree.live()
    }

    /// The mode in the ring at the place of reading `i`.
    pub fn mode(&self, i: u32) -> u8
        ensures { result ≡ slice_index (ring self.now) (i % PLACES) }
    {
        self.ring[(i % 4096) as usize]
    }
}
