use super::*;
use fault::Fault;
use std::test::Fail;

// The steepest parameters that pass the check.
const STEEP: Parameters = Parameters {
    modes: 32,
    values: 256,
    band: 30,
    hop: 1000,
    rate: 1000,
    slope: 8,
    centre: 255,
    spacing: 255,
};

#[test]
fn tables_of_the_least_and_the_greatest_size(rt: HostRuntime) -> Result<(), Fail> {
    assert_eq!(rt; DenseTable::check(1, 1, &[0, 0, 7]), Ok(()));
    let mut numbers = vec![in rt.alloc(); 0; 9247]?;
    numbers.push(655359)?;
    assert_eq!(rt; DenseTable::check(32, 256, &numbers), Ok(()));
    let table = DenseTable::new(32, 256, &numbers);
    assert_eq!(rt; table.reading(31, 255), Charge::worst());
    assert_eq!(rt; table.reading(31, 254), Charge::saturating(0, 0));
    numbers.push(0)?;
    assert_eq!(rt; DenseTable::new(32, 256, &numbers).modes(), 0);
    Ok(())
}

#[test]
fn the_first_fault_is_named(rt: HostRuntime) {
    let large = [655360, 0, 655360];
    assert_eq!(rt; DenseTable::check(0, 1, &large), Err(Fault::TableShape));
    assert_eq!(rt; DenseTable::check(2, 1, &large), Err(Fault::TableLength));
    assert_eq!(rt; DenseTable::check(1, 1, &large), Err(Fault::TableEntry(0)));
    let parameters = Parameters {
        hop: 1001,
        slope: 9,
        ..STEEP
    };
    assert_eq!(rt; parameters.check(), Err(Fault::Parameter(3)));
}

#[test]
fn the_steepest_formulas_fit(rt: HostRuntime) {
    assert_eq!(rt; STEEP.check(), Ok(()));
    let model = Banded::new(STEEP);
    assert_eq!(rt; model.reading(31, 0), Charge::saturating(0, 8 * 8160));
    assert_eq!(rt; model.passage(0, 31), Charge::saturating(1, 32000));
    assert_eq!(rt; model.passage(30, 0), Charge::saturating(0, 31000));
    assert_eq!(rt; model.passage(32, 0), Charge::worst());
}
