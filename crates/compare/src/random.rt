//! Random logs: the full table against every path.
ghost use Rattle.std.specs.Prelude.{◌<◌, ◌≤◌};

use super::comparison::Comparison;
use cost::{CostKind, Graded, Strict};
use model::{Costs, DenseTable, Model};
use reference::all_paths;
use reference::full_table::FullTable;
use std::alloc::Global;

/// How many random tables are tried; each decodes one log under each kind.
const TABLES: u32 = 200;

/// How many longer logs are tried under each kind.
const LONG_LOGS: u32 = 10;

// A small generator of numbers, the same at every run.
#[derive(Drop)]
struct Dice {
    state: u32,
}

// The numbers of a random dense table.
#[derive(Drop)]
struct Table {
    modes: u32,
    values: u32,
    numbers: Vec<u32>,
}

impl Dice {
    // A number below `sides`, or 0.
    fn roll(&mut self, sides: u32) -> u32
        ensures { 0 < sides → result < sides }
    {
        self.state ^= self.state.wrapping_mul(8192);
        self.state ^= self.state >> 17;
        self.state ^= self.state.wrapping_mul(32);
        if sides == 0 { 0 } else { self.state % sides }
    }

    fn value(&mut self, values: u32) -> u8 {
        (self.roll(values) & 0xff) as u8
    }

    // Sixty readings.
    fn readings(&mut self, heap: Global, values: u32) -> anyhow::Result<Vec<u8>> {
        let mut readings = Vec::new(heap);
        for _ in 0..60 {
            readings.push(self.value(values))?;
        }
        Ok(readings)
    }

    // A table with few penalties, of so many modes and values at most.
    fn table(&mut self, heap: Global, modes: u32, values: u32) -> anyhow::Result<Table>
        requires modes { (0 < modes) × (modes ≤ 8) }
        requires values { (0 < values) × (values ≤ 8) }
    {
        let modes = self.roll(modes) + 1;
        let values = self.roll(values) + 1;
        let mut numbers = Vec::new(heap);
        for _ in 0..modes + modes * modes + modes * values {
            let breach = self.roll(5) / 4;
            numbers.push(breach * 65536 + self.roll(4))?;
        }
        Ok(Table {
            modes,
            values,
            numbers,
        })
    }
}

impl Table {
    fn model(&self) -> DenseTable<'_> {
        DenseTable::new(self.modes as usize, self.values as usize, &self.numbers)
    }
}

// Decodes one random log of at most six readings both ways, with decided readings and live cells after each one.
// A reading that is refused must leave no path open.
fn one<M: Model, C: CostKind>(
    comparison: &mut Comparison,
    dice: &mut Dice,
    costs: &Costs<M, C>,
    values: u32,
) -> anyhow::Result<()> {
    let heap = comparison.heap();
    let mut table = FullTable::new(heap, costs.model.modes());
    let mut readings = Vec::new(heap);
    for _ in 0..dice.roll(7) {
        let value = dice.value(values);
        readings.push(value)?;
        if table.push(costs, usize::from(value))? {
            let other = all_paths::progress(heap, costs, &readings)?;
            comparison.count(table.progress()? == other);
        } else {
            let other = all_paths::decode(heap, costs, &readings)?;
            comparison.count(other.is_none());
            let _ = readings.pop();
        }
    }
    let equal = comparison.agrees(costs, &readings)?;
    comparison.count(equal);
    let found = table.decode(costs.kind)?;
    let other = all_paths::decode(heap, costs, &readings)?;
    comparison.count(other.is_some_and(|other| other == found));
    Ok(())
}

/// Random logs of random tables of at most three modes, with few penalties, so that many paths are equally cheap.
pub(crate) fn logs(comparison: &mut Comparison) -> anyhow::Result<()> {
    let mut dice = Dice { state: 2463534242 };
    for _ in 0..TABLES {
        let table = dice.table(comparison.heap(), 3, 3)?;
        let model = &table.model();
        let kind = &Strict {};
        one(comparison, &mut dice, &Costs { model, kind }, table.values)?;
        let kind = &Graded {};
        one(comparison, &mut dice, &Costs { model, kind }, table.values)?;
    }
    println!(comparison.rt;
        "{TABLES} random tables, a log under each kind: full table, engine and every path"
    )?;
    Ok(())
}

/// Longer random logs of tables of at most eight modes: the engine against the full table.
pub(crate) fn long_logs(comparison: &mut Comparison) -> anyhow::Result<()> {
    let mut dice = Dice { state: 88675123 };
    for _ in 0..LONG_LOGS {
        let table = dice.table(comparison.heap(), 8, 4)?;
        let readings = dice.readings(comparison.heap(), table.values)?;
        let model = &table.model();
        let kind = &Strict {};
        let strict = comparison.agrees(&Costs { model, kind }, &readings)?;
        comparison.count(strict);
        let kind = &Graded {};
        let graded = comparison.agrees(&Costs { model, kind }, &readings)?;
        comparison.count(graded);
    }
    println!(comparison.rt;
        "{LONG_LOGS} logs of 60 readings under each kind: the engine against the full table"
    )?;
    Ok(())
}
