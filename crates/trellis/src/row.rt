ghost use Rattle.std.specs.Prelude.{◌≡◌, ℕ, ◌<◌, ◌≤◌};
ghost use Rattle.trellis.specs.Size.{MODES};
ghost use Rattle.trellis.specs.Rows.{LeastBy, OneBy, WrittenBy, Into, WayIn, Backed, BegunBy, Filled, Ends, Advances, First, Marked, AllBacked, AllThemselves, Beyond};
ghost use Rattle.trellis.specs.Carried.{best_total, best_from};

use super::best::{Best, arrived, better, through};
use cost::{CostKind, Total};
use model::{Costs, Model};

/// A total for each mode that is reachable.
pub type Row = [Option<Total>; 32];

/// How many modes there are: at most 32.
#[derive(Clone, Copy, PartialEq, Eq, Debug)]
pub struct Modes {
    pub count: usize,
    ghost few: { count ≤ MODES },
}

/// Of the modes, the first whose total is least. `total` tells the total of a mode, if there is one.
fn least_by<C: CostKind, F: Fn(usize) -> Option<Total>>(
    kind: &C,
    modes: Modes,
    total: F,
) -> Option<Best>
    requires { (s : ℕ) → s < modes.count → F.pre total s }
    ensures least { LeastBy (C.CostKind.kind kind.now) modes.count (F.post total) result }
    ensures one { OneBy modes.count (F.post total) result }
{
    let mut best = None;
    // Model and row are asked about a mode by its number, so this goes over the numbers.
    for s in 0..modes.count {
        best = better(kind, best, total(s), s as u8);
    }
    best
}

/// The best way into mode `t`, before the reading is charged.
fn into<M: Model, C: CostKind>(
    costs: &Costs<M, C>,
    modes: Modes,
    old: &Row,
    t: usize,
) -> Option<Best>
    ensures least { Into (C.CostKind.kind costs.now.kind.now) (M.Model.meaning costs.now.model.now) modes.count old.now t modes.count result }
    ensures backed { Backed modes.count old.now result }
{
    least_by(
        costs.kind,
        modes,
        |s| through(costs.kind, old[s], costs.model.passage(s, t)),
    )
}

/// The best way into mode `t` at a reading.
fn enter<M: Model, C: CostKind>(
    costs: &Costs<M, C>,
    modes: Modes,
    old: &Row,
    reading: usize,
    t: usize,
) -> Option<Best>
    ensures { WayIn (C.CostKind.kind costs.now.kind.now) (M.Model.meaning costs.now.model.now) modes.count old.now reading t result }
{
    let best = into(costs, modes, old, t);
    arrived(costs.kind, best, costs.model.reading(t, reading))
}

/// The first reading in mode `t`, which comes from itself.
fn begin<M: Model, C: CostKind>(costs: &Costs<M, C>, reading: usize, t: usize) -> Option<Best>
    requires { t < MODES }
    ensures { BegunBy (C.CostKind.kind costs.now.kind.now) (M.Model.meaning costs.now.model.now) reading t (best_total result) (best_from result) }
{
    let started = costs.kind.charged(costs.kind.zero(), costs.model.start(t))?;
    let total = costs
        .kind
        .charged(started, costs.model.reading(t, reading))?;
    Some(Best {
        total,
        from: t as u8,
    })
}

/// Writes the way into each mode, as `way` tells it: its total into `new`, and the mode that it comes from into `from`.
/// Answers whether a mode is reachable.
// The answer stands beside two arrays since memory is fixed: both are the caller's and are written in place.
fn fill<F: Fn(usize) -> Option<Best>>(
    modes: Modes,
    new: &mut Row,
    from: &mut [Option<u8>; 32],
    way: F,
) -> bool
    requires { (t : ℕ) → t < modes.count → F.pre way t }
    ensures filled { Filled (WrittenBy (F.post way)) modes.count new.old new.new from.old from.new result }
{
    let mut any = false;
    // By index: of arrays that two `iter_mut` in a `zip` write, a proof knows nothing.
    for t in 0..modes.count {
        let best = way(t);
        new[t] = best.map(|b| b.total);
        from[t] = best.map(|b| b.from);
        any |= best.is_some();
    }
    any
}

/// Writes the row after the first reading into `new`, and into `from` each reachable mode as its own predecessor.
/// Answers whether a mode is reachable.
pub fn first_row<M: Model, C: CostKind>(
    costs: &Costs<M, C>,
    modes: Modes,
    reading: usize,
    new: &mut Row,
    from: &mut [Option<u8>; 32],
) -> bool
    ensures first { modes.count ≡ (M.Model.meaning costs.now.model.now).modes → First (C.CostKind.kind costs.now.kind.now) (M.Model.meaning costs.now.model.now) reading new.new from.new result }
    ensures marked { Marked modes.count new.new from.new result }
    ensures themselves { AllThemselves modes.count from.new }
    ensures beyond { Beyond modes.count new.new new.old }
    ensures beyond_from { Beyond modes.count from.new from.old }
{
    fill(modes, new, from, |t| begin(costs, reading, t))
}

/// From the row `old`, writes the row after one more reading into `new`, and the predecessor of each mode into `from`.
/// Answers whether a mode is reachable.
pub fn next_row<M: Model, C: CostKind>(
    costs: &Costs<M, C>,
    modes: Modes,
    old: &Row,
    reading: usize,
    new: &mut Row,
    from: &mut [Option<u8>; 32],
) -> bool
    ensures next { Advances (C.CostKind.kind costs.now.kind.now) (M.Model.meaning costs.now.model.now) modes.count old.now reading new.new from.new result }
    ensures marked { Marked modes.count new.new from.new result }
    ensures backed { AllBacked modes.count old.now from.new }
    ensures beyond { Beyond modes.count new.new new.old }
    ensures beyond_from { Beyond modes.count from.new from.old }
{
    let way = |t: usize| -> Option<Best>
        ensures { WayIn (C.CostKind.kind costs.entry.now.kind.now) (M.Model.meaning costs.entry.now.model.now) modes.count old.entry.now reading t result }
    { enter(costs, modes, old, reading, t) };
    fill(modes, new, from, way)
}

/// The last mode of the cheapest path of the log, with its total; `None` if no mode is reachable.
pub fn least_in<M: Model, C: CostKind>(costs: &Costs<M, C>, modes: Modes, row: &Row) -> Option<Best>
    ensures ends { Ends (C.CostKind.kind costs.now.kind.now) (M.Model.meaning costs.now.model.now) modes.count row.now result }
    ensures backed { Backed modes.count row.now result }
{
    least_by(costs.kind, modes, |s| row[s])
}
