//! Two slow decoders, written straight from the rules, to compare the estimator's answers with. They share no code with it:
//! the estimator asks kinds and models themselves, and only the decoders here ask `Costs` for totals. With each other they
//! share that and the types of their answers, and no comparison, path or count.
#![tactic(auto)]

pub mod all_paths;
pub mod full_table;

use cost::Total;

/// The cheapest path of a log, one mode for each reading, and its total.
#[derive(PartialEq, Eq, Debug, Drop)]
pub struct Decoded {
    pub modes: Vec<usize>,
    pub total: Total,
}

/// How far a running log is decided: the number of decided readings, and of live cells.
#[derive(Clone, Copy, PartialEq, Eq, Debug)]
pub struct Progress {
    pub decided: usize,
    pub live: usize,
}
