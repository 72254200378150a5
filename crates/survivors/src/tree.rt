ghost use Rattle.std.specs.Prelude.{◌≡◌, ℕ, ◌+◌, ◌<◌, ◌≤◌, length};
ghost use Rattle.survivors.specs.Cells.{at, plus};
ghost use Rattle.survivors.specs.Trees.{Attached, Cleared, Holds, Layered, Next, NoneFrom, Ready, Real, Released, Shed, Sprout, Valid, both, without_root};

use arrayvec::ArrayVec;
use std::array;

/// A mode at a reading, on the path of some tip.
#[derive(Clone, Copy, PartialEq, Eq, Debug)]
pub struct Cell {
    /// The reading's index in the log.
    pub layer: u32,
    /// The sum of the places of the cells below this one: with one such cell, its place.
    pub heirs: u32,
    /// The place of the cell above this one. In the oldest layer it counts for nothing: there the cell above was decided, and its place is not taken out.
    pub parent: u16,
    /// How many cells below and tips refer to this one; 0 in a free cell.
    pub refs: u16,
    pub mode: u8,
}

// A constant and no `Default`: all cells are built as one array of it.
pub const EMPTY: Cell = Cell {
    layer: 0,
    heirs: 0,
    parent: 0,
    refs: 0,
    mode: 0,
};

/// For each mode the cell of the newest layer that its path ends in.
pub type Tips = [Option<u16>; 32];

// Memory is fixed and there is no heap, so the cells are an array and refer to one another by places.
/// The cells of the undecided readings, each below the one it goes on from.
#[derive(Debug, Drop)]
pub struct Tree {
    pub cells: [Cell; 1024],
    /// The places of the free cells.
    pub free: ArrayVec<u16, 1024>,
    /// Readings decided: the oldest layer.
    pub base: u32,
    /// Readings taken: the next layer.
    pub top: u32,
    /// The number of cells in the oldest layer, and the sum of their places.
    pub width: u16,
    pub first: u32,
}

impl Tree {
    pub fn new() -> Self
        ensures { Cleared result }
    {
        Tree {
            cells: [EMPTY; 1024],
            free: ArrayVec::from(array::from_fn(|i| i as u16)),
            base: 0,
            top: 0,
            width: 0,
            first: 0,
        }
    }

    // A new cell of `mode` in the newest layer, under `parent`, which only the oldest layer goes without.
    fn attach(&mut self, mode: u8, parent: Option<u16>) -> u16
        requires { (h : ℕ → ℕ) × Ready self.old h mode parent }
        ensures { Attached self.old mode parent result self.new }
    {
        let i = self.free.pop().unwrap();
        self.cells[i as usize] = Cell {
            layer: self.top,
            heirs: 0,
            parent: parent.unwrap_or(0),
            refs: 1,
            mode,
        };
        match parent {
            Some(p) => {
                let above = self.cells[p as usize];
                self.cells[p as usize] = Cell {
                    heirs: above.heirs + i as u32,
                    refs: above.refs + 1,
                    ..above
                };
            }
            None => {
                self.width += 1;
                self.first += i as u32;
            }
        }
        i
    }

    // Gives back one reference to `cell`; a cell with none left is free, and gives back its own.
    fn release(&mut self, cell: u16)
        requires held { (h : ℕ → ℕ) × Holds self.old (plus h cell) }
        requires real { cell < 1024 }
        ensures { Released self.old cell self.new }
    {
        let mut c = cell;
        'up: loop {
            let old = self.cells[c as usize];
            self.cells[c as usize].refs = old.refs - 1;
            if old.refs > 1 {
                return;
            }
            self.free.push(c);
            if old.layer == self.base {
                self.width -= 1;
                self.first -= c as u32;
                return;
            }
            self.cells[old.parent as usize].heirs -= c as u32;
            c = old.parent;
        }
    }

    /// Gives back the references of the tips, which only modes below `modes` have.
    pub fn shed(&mut self, tips: &Tips, modes: usize)
        requires held { (h : ℕ → ℕ) × Holds self.old (both tips.now h) }
        requires real { Real tips.now }
        requires within { modes ≤ 32 }
        requires none { NoneFrom modes tips.now }
        ensures { Shed self.old tips.now self.new }
    {
        for tip in &tips[..modes] {
            if let Some(cell) = *tip {
                self.release(cell);
            }
        }
    }

    // A cell of the new layer for each reachable mode. The new layer's tips are written in place, so that they are copied once.
    fn sprout(&mut self, preds: &[Option<u8>], tips: &Tips, new: &mut Tips)
        requires next { Next self.old tips.now preds.now }
        requires blank { NoneFrom 0 new.old }
        ensures { Sprout self.old tips.now preds.now (length preds.now) self.new new.new }
    {
        for (u, pred) in preds.iter().enumerate() {
            if let Some(from) = *pred {
                let i = self.attach(u as u8, tips[from as usize]);
                new[u] = Some(i);
            }
        }
    }

    /// A new layer: the mode u goes on from the mode preds[u], and is not reachable where that is None. Answers its tips.
    pub fn grow(&mut self, preds: &[Option<u8>], tips: &Tips, modes: usize) -> Tips
        requires next { Next self.old tips.now preds.now }
        requires within { modes ≤ 32 }
        requires none { NoneFrom modes tips.now }
        ensures layered { Layered self.old tips.now preds.now self.new result }
        ensures none { NoneFrom (length preds.now) result }
    {
        let mut new = [None; 32];
        self.sprout(preds, tips, &mut new);
        self.shed(tips, modes);
        self.top += 1;
        new
    }

    /// Decides the oldest layer, which has one cell, and answers that cell's mode.
    pub fn decide(&mut self) -> u8
        requires cell { self.old.first < 1024 }
        requires room { length self.old.free.items < 1024 }
        requires later { self.old.base < self.old.top }
        ensures mode { result ≡ (at self.old.cells self.old.first).mode }
        ensures tree { self.new ≡ without_root self.old }
    {
        let r = self.first as usize;
        let root = self.cells[r];
        self.cells[r].refs = 0;
        self.free.push(r as u16);
        self.base += 1;
        if self.base == self.top {
            self.width = 0;
            self.first = 0;
        } else {
            self.width = root.refs;
            self.first = root.heirs;
        }
        root.mode
    }

    /// Gives back the references of the tips, which are all that there are, and counts readings from 0 again.
    pub fn clear(&mut self, tips: &Tips, modes: usize)
        requires valid { Valid self.old tips.now }
        requires within { modes ≤ 32 }
        requires none { NoneFrom modes tips.now }
        ensures { Cleared self.new }
    {
        self.shed(tips, modes);
        self.base = 0;
        self.top = 0;
    }
}
