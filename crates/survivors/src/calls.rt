ghost use Rattle.std.specs.Prelude.{◌≡◌, ◌<◌};
ghost use Rattle.viterbi.specs.Lists.{Counted};
ghost use Rattle.survivors.specs.Survivors.{Blank, Finished, Grown, HasTip, MayGrow, OnPath, Settled, decided, taken};

use super::Survivors;
use super::tree::Tree;

impl Survivors {
    /// No readings, no tips.
    pub fn new() -> Self
        ensures { Blank result }
    {
        let tree = Tree::new();
        Survivors {
            tree,
            tips: [None; 32],
            modes: 0,
        }
    }

    /// How many readings were taken.
    pub fn taken(&self) -> u32
        ensures { result ≡ taken self.now }
    {
        self.tree.top
    }

    /// How many readings are decided.
    pub fn decided(&self) -> u32
        ensures { result ≡ decided self.now }
    {
        self.tree.base
    }

    /// How many pairs of an undecided reading and a mode lie on the paths of the tips.
    pub fn live(&self) -> usize
        ensures { Counted (OnPath self.now) result }
    {
        1024 - self.tree.free.len()
    }

    /// Takes one more reading: the mode u goes on from the mode preds[u], and is not reachable where that is None.
    pub fn grow(&mut self, preds: &[Option<u8>])
        requires { MayGrow self.old preds.now }
        ensures { Grown self.old preds.now self.new }
    {
        self.tips = self.tree.grow(preds, &self.tips, self.modes);
        self.modes = preds.len();
    }

    /// Decides what all paths share, from the oldest undecided reading on; the mode of the reading i goes to the place i mod 4,096 of the ring.
    pub fn settle(&mut self, ring: &mut [u8; 4096])
        ensures { Settled self.old ring.old self.new ring.new }
    {
        'down: while self.tree.width == 1 {
            let place = (self.tree.base % 4096) as usize;
            ring[place] = self.tree.decide();
            if self.tree.base == self.tree.top {
                self.tips = [None; 32];
            }
        }
    }

    /// Decides the whole path to the mode `best`; where all is decided already, nothing happens.
    pub fn finish(&mut self, best: u8, ring: &mut [u8; 4096])
        requires { decided self.old < taken self.old → HasTip self.old best }
        ensures { Finished self.old best ring.old self.new ring.new }
    {
        if self.tree.base < self.tree.top {
            let best = best as usize;
            let tip = self.tips[best].take();
            self.tree.shed(&self.tips, self.modes);
            self.tips = [None; 32];
            self.tips[best] = tip;
            self.settle(ring);
        }
    }

    /// Forgets all readings and paths.
    pub fn clear(&mut self)
        ensures { Blank self.new }
    {
        self.tree.clear(&self.tips, self.modes);
        self.tips = [None; 32];
        self.modes = 0;
    }
}
