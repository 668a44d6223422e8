//! Faults of a file of a database, their names and the parts of the file that have them.

ghost use Rattle.std.specs.Prelude.{◌≡◌};
ghost use Rattle.heap_model.specs.Files.{faulty_part, file_fault_name};

use crate::names::Which;
use std::fmt;
use std::fmt::Display;
use thiserror::Error;

/// The part of a file that has a fault.
#[derive(Clone, Copy)]
pub enum FaultyPart {
    /// The fault names no part.
    Whole,
    /// This info block.
    Block(Which),
    /// The entry with this index.
    Entry(u32),
}

impl Display for FaultyPart {
    /// Prints a space and the part, or nothing for the whole.
    fn fmt<W: fmt::Write>(&self, f: &mut fmt::Formatter<W>) -> fmt::Result {
        match self {
            FaultyPart::Whole => Ok(()),
            FaultyPart::Block(which) => write!(f, " {which}"),
            FaultyPart::Entry(index) => write!(f, " {index}"),
        }
    }
}

/// A fault of a file that is to be read as a database, PDB or PRC (File Format Specification). If a
/// file has several faults, the first one in this order is reported.
#[derive(Clone, Copy, Debug, PartialEq, Eq, Error)]
#[error("{}{}", self.name(), self.part())]
pub enum FileFault {
    /// The file ends before its header does, or before its list of entries does.
    Truncated,
    /// The header says that the list of entries continues elsewhere.
    ChainedList,
    /// The name has no bytes.
    EmptyName,
    /// The offset of an info block lies before the end of the entries or after the end of the file.
    BadInfo(Which),
    /// The same for the data of an entry. The number is the index of the first such entry, counted
    /// from 0. Only a deleted record may have no data.
    BadOffset(u32),
}

impl FileFault {
    /// Returns the name of the fault.
    pub fn name(self) -> &'static str
        ensures { result.now ≡ file_fault_name self }
    {
        match self {
            FileFault::Truncated => "Truncated",
            FileFault::ChainedList => "ChainedList",
            FileFault::EmptyName => "EmptyName",
            FileFault::BadInfo(_) => "BadInfo",
            FileFault::BadOffset(_) => "BadOffset",
        }
    }

    /// Returns the part of the file that has the fault.
    pub fn part(self) -> FaultyPart
        ensures { result ≡ faulty_part self }
    {
        match self {
            FileFault::Truncated | FileFault::ChainedList | FileFault::EmptyName => {
                FaultyPart::Whole
            }
            FileFault::BadInfo(which) => FaultyPart::Block(which),
            FileFault::BadOffset(index) => FaultyPart::Entry(index),
        }
    }
}
