//! The worked logs: short logs whose answers are known.
use super::comparison::Comparison;
use cost::{CostKind, Graded, Shown, Strict};
use model::{Banded, Costs, DenseTable, Model, Parameters};
use reference::Progress;
use reference::full_table::FullTable;

// A log with the answers that it should have: the modes and the total of its cheapest path, and how many readings are
// decided and how many cells are live after each accepted reading.
#[derive(Clone, Copy)]
struct Log<'a> {
    name: &'a str,
    readings: &'a [u8],
    modes: &'a [usize],
    total: Shown,
    after: &'a [Progress],
}

const fn after(decided: usize, live: usize) -> Progress {
    Progress { decided, live }
}

const fn total(breaches: u64, penalty: u64) -> Shown {
    Shown { breaches, penalty }
}

/// The saw: two modes whose centres are 2 and 7.
pub(crate) const SAW: Parameters = Parameters {
    modes: 2,
    values: 10,
    band: 1,
    hop: 3,
    rate: 1,
    slope: 1,
    centre: 2,
    spacing: 5,
};

// Prints a log and what the full table finds in it, and notes whether that is as expected.
fn show<M: Model, C: CostKind>(
    comparison: &mut Comparison,
    model: &M,
    kind: &C,
    log: &Log,
) -> anyhow::Result<()> {
    let costs = &Costs { model, kind };
    let heap = comparison.heap();
    let name = log.name;
    let readings = log.readings;
    println!(comparison.rt; "{name}: readings {readings:?}")?;
    let mut table = FullTable::new(heap, model.modes());
    let mut found = Vec::new(heap);
    for (place, value) in readings.iter().enumerate() {
        if !table.push(costs, usize::from(*value))? {
            println!(comparison.rt; "  no mode is reachable with the reading at {place}")?;
            break;
        }
        found.push(table.progress()?)?;
    }
    let decided: Vec<usize> = found.iter().map(|p| p.decided).collect(heap)?;
    let live: Vec<usize> = found.iter().map(|p| p.live).collect(heap)?;
    println!(comparison.rt; "  decided {decided:?}, live cells {live:?}")?;
    let path = table.decode(kind)?;
    let modes = path.modes.as_slice();
    let total = kind.shown(path.total);
    println!(comparison.rt; "  modes {modes:?}, total {total}")?;
    let engine = comparison.agrees(costs, readings)?;
    let same = if engine { "the same" } else { "NOT the same" };
    println!(comparison.rt; "  the engine: {same}")?;
    let expected = found.as_slice() == log.after && modes == log.modes && total == log.total;
    comparison.note(expected && engine)
}

/// A log of the saw, and one of no readings.
pub(crate) fn saw_logs(comparison: &mut Comparison) -> anyhow::Result<()> {
    let saw = Banded::new(SAW);
    let cut = Log {
        name: "saw under Strict",
        readings: &[2, 2, 7, 7, 7],
        modes: &[0, 0, 1, 1, 1],
        total: total(0, 4),
        after: &[
            after(0, 2),
            after(1, 2),
            after(2, 2),
            after(2, 4),
            after(4, 2),
        ],
    };
    show(comparison, &saw, &Strict {}, &cut)?;
    let empty = Log {
        name: "no readings under Strict",
        readings: &[],
        modes: &[],
        total: total(0, 0),
        after: &[],
    };
    show(comparison, &saw, &Strict {}, &empty)
}

/// Logs with equally cheap paths: the lower mode at the latest difference wins.
pub(crate) fn tie_logs(comparison: &mut Comparison) -> anyhow::Result<()> {
    let even = Banded::new(Parameters {
        hop: 0,
        rate: 0,
        spacing: 4,
        ..SAW
    });
    let free = Log {
        name: "free passages under Strict",
        readings: &[4, 6],
        modes: &[0, 1],
        total: total(0, 2),
        after: &[after(0, 2), after(1, 2)],
    };
    show(comparison, &even, &Strict {}, &free)?;
    three_modes(comparison)
}

// Two ways to the end cost the same.
fn three_modes(comparison: &mut Comparison) -> anyhow::Result<()> {
    let wide = Banded::new(Parameters {
        modes: 3,
        hop: 0,
        centre: 0,
        spacing: 4,
        ..SAW
    });
    let three = Log {
        name: "three modes under Strict",
        readings: &[0, 8],
        modes: &[0, 1],
        total: total(0, 5),
        after: &[after(0, 3), after(0, 5)],
    };
    show(comparison, &wide, &Strict {}, &three)?;
    let graded = Log {
        name: "three modes under Graded",
        ..three
    };
    show(comparison, &wide, &Graded {}, &graded)
}

/// Logs of a table whose only passage has a breach.
pub(crate) fn breach_logs(comparison: &mut Comparison) -> anyhow::Result<()> {
    let table = DenseTable::new(1, 1, &[0, 65536, 0]);
    let barred = Log {
        name: "a breach under Strict",
        readings: &[0, 0],
        modes: &[0],
        total: total(0, 0),
        after: &[after(1, 0)],
    };
    show(comparison, &table, &Strict {}, &barred)?;
    let counted = Log {
        name: "a breach under Graded",
        readings: &[0, 0],
        modes: &[0, 0],
        total: total(1, 0),
        after: &[after(1, 0), after(2, 0)],
    };
    show(comparison, &table, &Graded {}, &counted)
}
