//! The survivor tree of an online Viterbi decoder: the undecided parts of the cheapest paths to all reachable modes, in 1,024 cells.
#![tactic(auto)]

ghost use Rattle.std.specs.Prelude.{◌≤◌};
ghost use Rattle.survivors.specs.Trees.{NoneFrom, Valid};

mod calls;
mod tree;

use tree::{Tips, Tree};

/// The undecided parts of the paths to all reachable modes. Paths that begin alike share their cells.
#[derive(Debug, Drop)]
pub struct Survivors {
    tree: Tree,
    // Beside the tree: its methods run while tree and tips do not fit together.
    tips: Tips,
    // Only modes below this one have tips: so a reading takes time in its modes, however many places there are for tips.
    modes: usize,
    ghost valid: { Valid tree tips },
    ghost within: { modes ≤ 32 },
    ghost none: { NoneFrom modes tips },
}

#[cfg(test)]
mod tests;
