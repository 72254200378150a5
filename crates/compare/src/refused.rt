//! Models whose parts are out of range: the first fault is named, and the model has no modes.
use super::comparison::Comparison;
use super::worked::SAW;
use fault::Fault;
use model::{Banded, DenseTable, Model, Parameters};

// Prints what a check says, and notes whether it names this fault and the model has no modes and no values.
fn show<M: Model>(
    comparison: &mut Comparison,
    name: &str,
    model: &M,
    checked: Result<(), Fault>,
    expected: Fault,
) -> anyhow::Result<()> {
    match checked {
        Ok(()) => println!(comparison.rt; "{name}: no fault")?,
        Err(fault) => println!(comparison.rt; "{name}: {fault}")?,
    }
    comparison.note(checked == Err(expected) && model.modes() == 0 && model.values() == 0)
}

fn tables(comparison: &mut Comparison) -> anyhow::Result<()> {
    let numbers = [0, 655360, 655360];
    let cases = [
        ("a table of 33 modes", 33, 1, Fault::TableShape),
        ("a table of 257 values", 1, 257, Fault::TableShape),
        ("a table that is too short", 2, 1, Fault::TableLength),
        ("a table with two large entries", 1, 1, Fault::TableEntry(1)),
    ];
    for (name, modes, values, expected) in cases {
        let model = DenseTable::new(modes, values, &numbers);
        let checked = DenseTable::check(modes, values, &numbers);
        show(comparison, name, &model, checked, expected)?;
    }
    Ok(())
}

/// Tables and parameters that are refused.
pub(crate) fn models(comparison: &mut Comparison) -> anyhow::Result<()> {
    tables(comparison)?;
    let parameters = Parameters {
        band: 32,
        spacing: 256,
        ..SAW
    };
    let model = Banded::new(parameters);
    let name = "a saw with a band of 32 and a spacing of 256";
    show(
        comparison,
        name,
        &model,
        parameters.check(),
        Fault::Parameter(2),
    )
}
