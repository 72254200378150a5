//! Every refusal of the estimator in one type: what went wrong, which layer refuses, and at which place.
#![tactic(auto)]

ghost use Rattle.std.specs.Prelude.{◌≡◌};
ghost use Rattle.fault.specs.Table.{row};

use std::error::Error;
use std::fmt;

/// The layer that refuses.
#[derive(Clone, Copy, PartialEq, Eq, Debug)]
pub enum Layer {
    Session,
    Model,
    File,
    Queue,
}

/// What went wrong. A case carries its place where the place is not always 0.
#[derive(Clone, Copy, PartialEq, Eq, Debug)]
pub enum Fault {
    /// A start with a model of no or too many modes or reading values.
    UnusableModel,
    /// A start while a log is running or ended.
    NotIdle,
    /// A start with a log number that is not above the last one started, or is above 2,097,151.
    LogNumber,
    /// A token of another log or another state.
    TokenDoesNotFit,
    /// A reading that is no value of the model, at this place of the piece.
    ReadingOutOfRange(usize),
    /// A reading after 1,000,000 accepted ones.
    LogFull(usize),
    /// A reading while 4,096 accepted ones are not drawn.
    TooManyUndrawn(usize),
    /// A reading for which the survivor tree has no room.
    TreeFull(usize),
    /// A reading after which no mode would be reachable.
    NoReachableMode(usize),
    /// A close before every mode is drawn.
    ModesNotDrawn,
    /// A table of no or too many modes or reading values.
    TableShape,
    /// A table whose length does not fit its modes and values.
    TableLength,
    /// A table entry above 655,359, at this index.
    TableEntry(usize),
    /// A parameter of a banded model out of its range, by its position from 0 to 7.
    Parameter(usize),
    /// A record that begins with an unknown byte.
    UnknownLead(usize),
    /// A file that ends inside a record or inside a log.
    FileEnds(usize),
    /// A number that is not in its shortest form, or has a fourth group.
    BadNumber(usize),
    /// A record that is not allowed where it stands.
    RecordNotAllowed(usize),
    /// An output buffer without room for the next record.
    OutputTooSmall(usize),
    /// A length out of range, or a number too large to be written.
    LengthOutOfRange(usize),
    /// A queue without room for one more element.
    QueueFull,
}

impl Fault {
    /// The number of the refusal, 1 to 21.
    pub fn number(&self) -> u8
        ensures { result ≡ (row self.now).number }
    {
        match *self {
            Fault::UnusableModel => 1,
            Fault::NotIdle => 2,
            Fault::LogNumber => 3,
            Fault::TokenDoesNotFit => 4,
            Fault::ReadingOutOfRange(_) => 5,
            Fault::LogFull(_) => 6,
            Fault::TooManyUndrawn(_) => 7,
            Fault::TreeFull(_) => 8,
            Fault::NoReachableMode(_) => 9,
            Fault::ModesNotDrawn => 10,
            Fault::TableShape => 11,
            Fault::TableLength => 12,
            Fault::TableEntry(_) => 13,
            Fault::Parameter(_) => 14,
            Fault::UnknownLead(_) => 15,
            Fault::FileEnds(_) => 16,
            Fault::BadNumber(_) => 17,
            Fault::RecordNotAllowed(_) => 18,
            Fault::OutputTooSmall(_) => 19,
            Fault::LengthOutOfRange(_) => 20,
            Fault::QueueFull => 21,
        }
    }

    /// The layer that refuses.
    pub fn layer(&self) -> Layer
        ensures { result ≡ (row self.now).layer }
    {
        // By the numbers of the table, which go by layers: cases would name all 21 again.
        match self.number() {
            0..=10 => Layer::Session,
            11..=14 => Layer::Model,
            15..=20 => Layer::File,
            _ => Layer::Queue,
        }
    }

    /// Where it went wrong: a place in a piece, a table, a parameter list, a file or an output.
    pub fn place(&self) -> usize
        ensures { result ≡ (row self.now).place }
    {
        match *self {
            Fault::ReadingOutOfRange(at)
            | Fault::LogFull(at)
            | Fault::TooManyUndrawn(at)
            | Fault::TreeFull(at)
            | Fault::NoReachableMode(at)
            | Fault::TableEntry(at)
            | Fault::Parameter(at)
            | Fault::UnknownLead(at)
            | Fault::FileEnds(at)
            | Fault::BadNumber(at)
            | Fault::RecordNotAllowed(at)
            | Fault::OutputTooSmall(at)
            | Fault::LengthOutOfRange(at) => at,
            _ => 0,
        }
    }

    // What went wrong, in words.
    fn sentence(&self) -> &'static str {
        match *self {
            Fault::UnusableModel => "the model needs 1 to 32 modes and 1 to 256 reading values",
            Fault::NotIdle => "the last log is not closed or abandoned yet",
            Fault::LogNumber => "the log number is not above the last one, or is above 2097151",
            Fault::TokenDoesNotFit => "the token belongs to another log or another state",
            Fault::ReadingOutOfRange(_) => "the model has no such reading value",
            Fault::LogFull(_) => "the log has 1000000 readings already",
            Fault::TooManyUndrawn(_) => "4096 accepted readings are not drawn yet",
            Fault::TreeFull(_) => "too many paths are still open",
            Fault::NoReachableMode(_) => "no mode can follow with this reading",
            Fault::ModesNotDrawn => "there are modes that are not drawn yet",
            Fault::TableShape => "the table needs 1 to 32 modes and 1 to 256 reading values",
            Fault::TableLength => "the table is too short or too long",
            Fault::TableEntry(_) => "a number in the table is above 655359",
            Fault::Parameter(_) => "a parameter of the model is out of its range",
            Fault::UnknownLead(_) => "no record begins with this byte",
            Fault::FileEnds(_) => "the file ends inside a record or a log",
            Fault::BadNumber(_) => "a number is not in its shortest form or is too long",
            Fault::RecordNotAllowed(_) => "this record is not allowed here",
            Fault::OutputTooSmall(_) => "the output has no room for the next record",
            Fault::LengthOutOfRange(_) => "a length or a number is out of range",
            Fault::QueueFull => "the queue is full",
        }
    }
}

impl fmt::Display for Layer {
    fn fmt<W: fmt::Write>(&self, f: &mut fmt::Formatter<W>) -> fmt::Result {
        let name = match *self {
            Layer::Session => "session",
            Layer::Model => "model",
            Layer::File => "file",
            Layer::Queue => "queue",
        };
        write!(f, "{name}")
    }
}

impl fmt::Display for Fault {
    fn fmt<W: fmt::Write>(&self, f: &mut fmt::Formatter<W>) -> fmt::Result {
        let number = self.number();
        let layer = self.layer();
        let place = self.place();
        let sentence = self.sentence();
        write!(f, "fault {number} ({layer}, place {place}): {sentence}")
    }
}

impl Error for Fault {}

#[cfg(test)]
mod tests;
