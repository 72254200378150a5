//! Charges, what they cost, and how costs are added, compared and shown.
#![tactic(auto)]

mod charge;
mod graded;
mod kind;
mod strict;

pub use charge::{Charge, Shown, Total};
pub use graded::Graded;
pub use kind::CostKind;
pub use strict::Strict;
