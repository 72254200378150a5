//! Viterbi's algorithm over a table with a row for every reading.
ghost use Rattle.std.specs.Prelude.{◌≡◌, ◌+◌, ◌≤◌, IfOk, if◌then◌else◌, vec_len};
ghost use Rattle.reference.specs.Table.{modes, accepted};

use super::{Decoded, Progress};
use cost::{CostKind, Total};
use model::{Costs, Model};
use std::alloc::{AllocError, Global};

// The cheapest way to a mode: its total, and the mode that it comes from, at the first reading the mode itself.
#[derive(Clone, Copy, PartialEq, Eq, Debug)]
struct Arrival {
    total: Total,
    before: usize,
}

/// For every accepted reading and every mode the cheapest way to it, or `None` where the mode is not reachable.
#[derive(Debug, Drop)]
pub struct FullTable {
    heap: Global,
    modes: usize,
    rows: Vec<Vec<Option<Arrival>>>,
}

impl FullTable {
    /// A table without readings, for a model of `count` modes.
    pub fn new(heap: Global, count: usize) -> FullTable
        ensures modes { modes result ≡ count }
        ensures rows { accepted result ≡ 0 }
    {
        FullTable {
            heap,
            modes: count,
            rows: Vec::new(heap),
        }
    }

    // The way to a mode at the first reading.
    fn first<M: Model, C: CostKind>(
        costs: &Costs<M, C>,
        mode: usize,
        value: usize,
    ) -> Option<Arrival> {
        let started = costs.start(mode)?;
        let total = costs.reading(started, mode, value)?;
        Some(Arrival {
            total,
            before: mode,
        })
    }

    // The total of a mode through the mode `before` of the last row, with that mode.
    fn through<M: Model, C: CostKind>(
        last: &[Option<Arrival>],
        costs: &Costs<M, C>,
        before: usize,
        mode: usize,
        value: usize,
    ) -> Option<(usize, Total)> {
        let way = last.get(before).copied().flatten()?;
        let passed = costs.passage(way.total, before, mode)?;
        let total = costs.reading(passed, mode, value)?;
        Some((before, total))
    }

    // The cheapest way to a mode at the next reading; of equal ones the one through the lowest mode.
    fn arrival<M: Model, C: CostKind>(
        &self,
        costs: &Costs<M, C>,
        mode: usize,
        value: usize,
    ) -> Option<Arrival> {
        let Some(last) = self.rows.last() else {
            return FullTable::first(costs, mode, value);
        };
        (0..self.modes)
            .filter_map(|before| FullTable::through(last, costs, before, mode, value))
            .reduce(|best, way| cheaper(costs.kind, best, way))
            .map(|(before, total)| Arrival { total, before })
    }

    /// Takes one more reading, or refuses it with `false` where no mode would be reachable.
    // A plain yes or no: there is one cause, and nothing to hand back.
    pub fn push<M: Model, C: CostKind>(
        &mut self,
        costs: &Costs<M, C>,
        value: usize,
    ) -> Result<bool, AllocError>
        ensures modes { modes self.new ≡ modes self.old }
        ensures rows { IfOk result (λ b. accepted self.new ≡ accepted self.old + (if b then 1 else 0)) }
    {
        let row: Vec<Option<Arrival>> = (0..self.modes)
            .map(|mode| self.arrival(costs, mode, value))
            .collect(self.heap)?;
        let reachable = row.iter().any(|arrival| arrival.is_some());
        if reachable {
            self.rows.push(row)?;
        }
        Ok(reachable)
    }

    // The path to a mode, from the last reading back.
    fn path(&self, mode: usize) -> Result<Vec<usize>, AllocError>
        ensures { IfOk result (λ p. vec_len p ≡ accepted self.now) }
    {
        let mut path = Vec::new(self.heap);
        let mut mode = mode;
        for row in self.rows.iter().rev() {
            path.push(mode)?;
            let way = row.get(mode).copied().flatten();
            mode = way.map_or(mode, |way| way.before);
        }
        path.reverse();
        Ok(path)
    }

    // The cheapest paths to all reachable modes.
    fn paths(&self) -> Result<Vec<Vec<usize>>, AllocError> {
        let mut paths = Vec::new(self.heap);
        if let Some(last) = self.rows.last() {
            for (mode, arrival) in last.iter().enumerate() {
                if arrival.is_some() {
                    paths.push(self.path(mode)?)?;
                }
            }
        }
        Ok(paths)
    }

    // The reachable mode of least total, of equal ones the lowest, and that total.
    fn best_end<C: CostKind>(&self, kind: &C) -> Option<(usize, Total)> {
        self.rows
            .last()?
            .iter()
            .enumerate()
            .filter_map(|(mode, arrival)| arrival.map(|way| (mode, way.total)))
            .reduce(|best, end| cheaper(kind, best, end))
    }

    /// The cheapest path of the log, with its total.
    pub fn decode<C: CostKind>(&self, kind: &C) -> Result<Decoded, AllocError>
        ensures { IfOk result (λ d. vec_len d.modes ≡ accepted self.now) }
    {
        // A log without readings has no end, and its path is empty from any mode.
        let (last, total) = self.best_end(kind).unwrap_or((0, kind.zero()));
        let modes = self.path(last)?;
        Ok(Decoded { modes, total })
    }

    /// How many readings are decided, and how many cells are live.
    pub fn progress(&self) -> Result<Progress, AllocError>
        ensures { IfOk result (λ p. p.decided ≤ accepted self.now) }
    {
        let paths = self.paths()?;
        let mut decided: usize = 0;
        let mut live: usize = 0;
        // One pass, so that no reading is counted twice.
        for reading in 0..self.rows.len() {
            let cells = cells_at(&paths, self.modes, reading);
            if live == 0 && cells == 1 {
                decided += 1;
            } else {
                live = live.saturating_add(cells);
            }
        }
        Ok(Progress { decided, live })
    }
}

// Of two modes with their totals the one of less total; of equal ones the first.
// A comparison of its own: the two slow decoders are held against each other.
fn cheaper<C: CostKind>(kind: &C, best: (usize, Total), next: (usize, Total)) -> (usize, Total) {
    if kind.less(next.1, best.1) {
        next
    } else {
        best
    }
}

// How many modes the paths have at this reading.
fn cells_at(paths: &[Vec<usize>], modes: usize, reading: usize) -> usize {
    (0..modes)
        .filter(|mode| paths.iter().any(|path| path.get(reading) == Some(mode)))
        .count()
}
