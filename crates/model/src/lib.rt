//! Models: what starts, passages and readings cost, by a table or by a formula.
#![tactic(auto)]

ghost use Rattle.std.specs.Prelude.{◌≡◌};
ghost use Rattle.model.specs.Meaning.{Meaning, OutsideIsWorst};

use cost::Charge;

mod banded;
mod costs;
mod dense;

pub use banded::{Banded, Parameters};
pub use costs::Costs;
pub use dense::DenseTable;

/// A model, by its meaning: what it answers to every question. Modes and values count from 0.
/// The answer about a mode or a value that it does not have is the worst charge, 9 breaches and penalty 65,535.
pub trait Model {
    ghost meaning: { Self → Meaning };

    ghost outside: { (m : Self) → OutsideIsWorst (meaning m) };

    /// The number of modes.
    fn modes(&self) -> usize
        ensures { result ≡ (meaning self.now).modes };

    /// The number of reading values.
    fn values(&self) -> usize
        ensures { result ≡ (meaning self.now).values };

    /// The charge of a start in a mode.
    fn start(&self, mode: usize) -> Charge
        ensures { result ≡ (meaning self.now).start mode };

    /// The charge of the passage from one mode to another, or to itself.
    fn passage(&self, from: usize, to: usize) -> Charge
        ensures { result ≡ (meaning self.now).passage from to };

    /// The charge of a reading in a mode.
    fn reading(&self, mode: usize, value: usize) -> Charge
        ensures { result ≡ (meaning self.now).reading mode value };
}

#[cfg(test)]
mod tests;
