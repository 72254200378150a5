//! The theory of cheapest paths, for every kind of cost and every model.
//!
//! Each function below has a theorem as its contract and does nothing at run time: whoever calls it may use the theorem.
#![tactic(auto)]

ghost use Rattle.model.specs.Meaning.{Meaning};
ghost use Rattle.viterbi.specs.Theorems.{Unique, Exist, Computed, OneStep, Beginnings, Final, Grows, Forest, LiveCells, Totals};
ghost use Rattle.viterbi.specs.Worked.{WorkedLogs};

use cost::CostKind;

/// The cheapest path to a mode, and of a log, is one path of one cost.
pub fn cheapest_paths_are_unique<C: CostKind>(kind: &C)
    ensures { (m : Meaning) → Unique (C.CostKind.kind kind.now) m }
{}

/// Where a mode is reachable, it has a cheapest path, and so has the log.
pub fn cheapest_paths_exist<C: CostKind>(kind: &C)
    ensures { (m : Meaning) → Exist (C.CostKind.kind kind.now) m }
{}

/// Viterbi's algorithm finds these paths and no others.
pub fn algorithm_finds_cheapest_paths<C: CostKind>(kind: &C)
    ensures { (m : Meaning) → Computed (C.CostKind.kind kind.now) m }
{}

/// One more reading extends the cheapest path to the least predecessor, of equal ones the lowest.
pub fn one_more_reading<C: CostKind>(kind: &C)
    ensures { (m : Meaning) → OneStep (C.CostKind.kind kind.now) m }
{}

/// Every beginning of a cheapest path is the cheapest path to its own last mode.
pub fn beginnings_are_cheapest<C: CostKind>(kind: &C)
    ensures { (m : Meaning) → Beginnings (C.CostKind.kind kind.now) m }
{}

/// What is decided begins the cheapest path of the log, however the log goes on.
pub fn decided_is_final<C: CostKind>(kind: &C)
    ensures { (m : Meaning) → Final (C.CostKind.kind kind.now) m }
{}

/// What is decided is one list, and only grows.
pub fn decided_only_grows<C: CostKind>(kind: &C)
    ensures { (m : Meaning) → Grows (C.CostKind.kind kind.now) m }
{}

/// Survivors that meet agree up to there, and the decided readings end where a layer first has two cells.
pub fn survivors_form_a_forest<C: CostKind>(kind: &C)
    ensures { (m : Meaning) → Forest (C.CostKind.kind kind.now) m }
{}

/// The number of live cells is one number.
pub fn live_cells_are_one_number<C: CostKind>(kind: &C)
    ensures { (m : Meaning) → LiveCells (C.CostKind.kind kind.now) m }
{}

/// Scanning the totals of the modes finds the least predecessor and the next total.
pub fn totals_suffice<C: CostKind>(kind: &C)
    ensures { (m : Meaning) → Totals (C.CostKind.kind kind.now) m }
{}

/// The worked logs: paths, totals, decided modes and live cells.
pub fn worked_logs()
    ensures { WorkedLogs }
{}
