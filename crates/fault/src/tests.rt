use super::*;
use std::test::Fail;

// Every fault, with the sentence that it prints.
const SENTENCES: [(Fault, &str); 21] = [
    (
        Fault::UnusableModel,
        "fault 1 (session, place 0): the model needs 1 to 32 modes and 1 to 256 reading values",
    ),
    (
        Fault::NotIdle,
        "fault 2 (session, place 0): the last log is not closed or abandoned yet",
    ),
    (
        Fault::LogNumber,
        "fault 3 (session, place 0): the log number is not above the last one, or is above 2097151",
    ),
    (
        Fault::TokenDoesNotFit,
        "fault 4 (session, place 0): the token belongs to another log or another state",
    ),
    (
        Fault::ReadingOutOfRange(5),
        "fault 5 (session, place 5): the model has no such reading value",
    ),
    (
        Fault::LogFull(6),
        "fault 6 (session, place 6): the log has 1000000 readings already",
    ),
    (
        Fault::TooManyUndrawn(7),
        "fault 7 (session, place 7): 4096 accepted readings are not drawn yet",
    ),
    (
        Fault::TreeFull(8),
        "fault 8 (session, place 8): too many paths are still open",
    ),
    (
        Fault::NoReachableMode(9),
        "fault 9 (session, place 9): no mode can follow with this reading",
    ),
    (
        Fault::ModesNotDrawn,
        "fault 10 (session, place 0): there are modes that are not drawn yet",
    ),
    (
        Fault::TableShape,
        "fault 11 (model, place 0): the table needs 1 to 32 modes and 1 to 256 reading values",
    ),
    (
        Fault::TableLength,
        "fault 12 (model, place 0): the table is too short or too long",
    ),
    (
        Fault::TableEntry(13),
        "fault 13 (model, place 13): a number in the table is above 655359",
    ),
    (
        Fault::Parameter(7),
        "fault 14 (model, place 7): a parameter of the model is out of its range",
    ),
    (
        Fault::UnknownLead(15),
        "fault 15 (file, place 15): no record begins with this byte",
    ),
    (
        Fault::FileEnds(16),
        "fault 16 (file, place 16): the file ends inside a record or a log",
    ),
    (
        Fault::BadNumber(17),
        "fault 17 (file, place 17): a number is not in its shortest form or is too long",
    ),
    (
        Fault::RecordNotAllowed(18),
        "fault 18 (file, place 18): this record is not allowed here",
    ),
    (
        Fault::OutputTooSmall(19),
        "fault 19 (file, place 19): the output has no room for the next record",
    ),
    (
        Fault::LengthOutOfRange(20),
        "fault 20 (file, place 20): a length or a number is out of range",
    ),
    (
        Fault::QueueFull,
        "fault 21 (queue, place 0): the queue is full",
    ),
];

#[test]
fn a_fault_prints_as_a_sentence(rt: HostRuntime) -> Result<(), Fail> {
    for (fault, expected) in SENTENCES {
        let text = format!(in rt.alloc(); "{fault}")?;
        assert_eq!(rt; text.as_str(), expected);
    }
    Ok(())
}
