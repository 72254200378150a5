//! The cheapest path, found by trying every path.
ghost use Rattle.std.specs.Prelude.{◌≡◌, ◌≤◌, length, IfSome, IfOk, vec_len};

use super::{Decoded, Progress};
use cost::{CostKind, Total};
use model::{Costs, Model};
use std::alloc::{AllocError, Global};
use std::collections::BTreeSet;

// What a path costs, or `None` where one of its charges is barred or it does not end in the mode asked for.
fn cost_of<M: Model, C: CostKind>(
    costs: &Costs<M, C>,
    readings: &[u8],
    path: &[usize],
    end: Option<usize>,
) -> Option<Total> {
    if end.is_some_and(|end| path.last() != Some(&end)) {
        return None;
    }
    let mut total = costs.kind.zero();
    let mut before: Option<usize> = None;
    for (&value, &mode) in readings.iter().zip(path.iter()) {
        let moved = match before {
            None => costs.start(mode)?,
            Some(from) => costs.passage(total, from, mode)?,
        };
        total = costs.reading(moved, mode, usize::from(value))?;
        before = Some(mode);
    }
    Some(total)
}

// The next path, in the order in which the mode of the latest reading counts most.
fn advance(path: &mut [usize], modes: usize) {
    for mode in path.iter_mut() {
        if *mode < modes && *mode + 1 < modes {
            *mode += 1;
            return;
        }
        *mode = 0;
    }
}

// How many paths there are, or the largest number.
fn count(readings: &[u8], modes: usize) -> usize {
    readings
        .iter()
        .fold(1usize, |paths, _| paths.saturating_mul(modes))
}

// The cheapest path, to the mode `end` if one is asked for. Of equally cheap paths the first one tried is kept: it has the
// lower mode at the latest reading where they differ.
fn cheapest<M: Model, C: CostKind>(
    heap: Global,
    costs: &Costs<M, C>,
    readings: &[u8],
    end: Option<usize>,
) -> Result<Option<Decoded>, AllocError>
    ensures { IfOk result (λ o. IfSome o (λ d. vec_len d.modes ≡ length readings.now)) }
{
    let modes = costs.model.modes();
    let mut path = vec![in heap; 0; readings.len()]?;
    let mut best: Option<Decoded> = None;
    for _ in 0..count(readings, modes) {
        if let Some(total) = cost_of(costs, readings, &path, end) {
            // A comparison of its own: the two slow decoders are held against each other.
            if best
                .as_ref()
                .is_none_or(|kept| costs.kind.less(total, kept.total))
            {
                let modes = path.clone()?;
                best = Some(Decoded { modes, total });
            }
        }
        advance(&mut path, modes);
    }
    Ok(best)
}

/// The cheapest path of the log, or `None` where no path is open.
pub fn decode<M: Model, C: CostKind>(
    heap: Global,
    costs: &Costs<M, C>,
    readings: &[u8],
) -> Result<Option<Decoded>, AllocError>
    ensures { IfOk result (λ o. IfSome o (λ d. vec_len d.modes ≡ length readings.now)) }
{
    cheapest(heap, costs, readings, None)
}

// How many readings two paths share from the first on.
fn shared(a: &[usize], b: &[usize]) -> usize {
    a.iter().zip(b.iter()).take_while(|(x, y)| *x == *y).count()
}

// How many of the first readings all paths share.
fn common(paths: &[Vec<usize>], readings: usize) -> usize
    ensures { result ≤ readings }
{
    let Some(first) = paths.first() else {
        return readings;
    };
    let fewest = paths.iter().map(|path| shared(first, path)).min();
    fewest.unwrap_or(readings).min(readings)
}

// The cheapest paths to all reachable modes.
fn paths<M: Model, C: CostKind>(
    heap: Global,
    costs: &Costs<M, C>,
    readings: &[u8],
) -> Result<Vec<Vec<usize>>, AllocError> {
    let mut paths = Vec::new(heap);
    for mode in 0..costs.model.modes() {
        if let Some(found) = cheapest(heap, costs, readings, Some(mode))? {
            paths.push(found.modes)?;
        }
    }
    Ok(paths)
}

/// How many readings are decided, which is what the cheapest paths to all reachable modes share, and how many cells are
/// live, which are the pairs of a later reading and a mode on one of these paths.
pub fn progress<M: Model, C: CostKind>(
    heap: Global,
    costs: &Costs<M, C>,
    readings: &[u8],
) -> Result<Progress, AllocError>
    ensures { IfOk result (λ p. p.decided ≤ length readings.now) }
{
    let paths = paths(heap, costs, readings)?;
    let decided = common(&paths, readings.len());
    let mut cells = BTreeSet::new(heap);
    let undecided = paths
        .iter()
        .flat_map(|path| path.iter().copied().enumerate().skip(decided));
    for cell in undecided {
        cells.insert(cell)?;
    }
    let live = cells.len();
    Ok(Progress { decided, live })
}
