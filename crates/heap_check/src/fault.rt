//! The faults of a heap image, their names and their numbers.

ghost use Rattle.std.specs.Prelude.{◌≡◌};
ghost use Rattle.heap_check.specs.Faults.{heap_fault_name, heap_fault_numbers};

use std::fmt;
use std::fmt::Display;
use thiserror::Error;

/// The numbers of a fault, in the order in which they are printed after its name.
#[derive(Clone, Copy)]
pub enum Numbers {
    Zero,
    One(u32),
    Two(u32, u32),
}

impl Display for Numbers {
    /// Prints each number after a space.
    fn fmt<W: fmt::Write>(&self, f: &mut fmt::Formatter<W>) -> fmt::Result {
        match self {
            Numbers::Zero => Ok(()),
            Numbers::One(number) => write!(f, " {number}"),
            Numbers::Two(first, second) => write!(f, " {first} {second}"),
        }
    }
}

/// The first fault of an image that isn't a heap. The faults are tested in this order. The text of
/// a fault is its name and, if it has one, its number. That is an offset in bytes from the image's
/// start, but for `BadTable`.
#[derive(Clone, Copy, Debug, PartialEq, Eq, Error)]
#[error("{}{}", self.name(), self.numbers())]
pub enum HeapFault {
    /// Under 16 bytes, or the magic is there and the size field is above the length.
    TooShort,
    /// The first four bytes are neither `PHI1` nor `PHI2`.
    BadMagic,
    /// The size field isn't the length, isn't a multiple of 8, or isn't 64 to 16,777,208.
    BadSize,
    /// There are no slots, or less than 8 bytes are left after the table and its padding.
    BadSlotCount,
    /// Bytes 10 and 11 aren't zero.
    BadReserved,
    /// A padding byte after the table isn't zero.
    BadPadding,
    /// The first chunk that is not well-formed, by its offset.
    BadChunk(u32),
    /// The first word `next` along the chain of tables that is not 0 and leads to no table, or to
    /// one for the second time. Its number counts the further tables before it.
    BadTable(u32),
    /// The first slot in use whose word isn't the place of a movable chunk which names it, by its
    /// offset.
    SlotMismatch(u32),
    /// The first movable chunk that names no slot which holds its place, by its offset.
    ChunkWithoutSlot(u32),
    /// The first fixed chunk with owner 15, or with owner 0 and no table, by its offset.
    BadFixedOwner(u32),
    /// The directory word is neither 0 nor the offset of a slot in use whose chunk has owner 0.
    BadDirectory,
}

impl HeapFault {
    /// Returns the name of the fault.
    pub fn name(self) -> &'static str
        ensures { result.now ≡ heap_fault_name self }
    {
        match self {
            HeapFault::TooShort => "TooShort",
            HeapFault::BadMagic => "BadMagic",
            HeapFault::BadSize => "BadSize",
            HeapFault::BadSlotCount => "BadSlotCount",
            HeapFault::BadReserved => "BadReserved",
            HeapFault::BadPadding => "BadPadding",
            HeapFault::BadChunk(_) => "BadChunk",
            HeapFault::BadTable(_) => "BadTable",
            HeapFault::SlotMismatch(_) => "SlotMismatch",
            HeapFault::ChunkWithoutSlot(_) => "ChunkWithoutSlot",
            HeapFault::BadFixedOwner(_) => "BadFixedOwner",
            HeapFault::BadDirectory => "BadDirectory",
        }
    }

    /// Returns the numbers of the fault: one at most.
    pub fn numbers(self) -> Numbers
        ensures { result ≡ heap_fault_numbers self }
    {
        match self {
            HeapFault::BadChunk(number)
            | HeapFault::BadTable(number)
            | HeapFault::SlotMismatch(number)
            | HeapFault::ChunkWithoutSlot(number)
            | HeapFault::BadFixedOwner(number) => Numbers::One(number),
            HeapFault::TooShort
            | HeapFault::BadMagic
            | HeapFault::BadSize
            | HeapFault::BadSlotCount
            | HeapFault::BadReserved
            | HeapFault::BadPadding
            | HeapFault::BadDirectory => Numbers::Zero,
        }
    }
}
