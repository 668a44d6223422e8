//! The faults of a store, their names and their numbers.

ghost use Rattle.std.specs.Prelude.{◌≡◌};
ghost use Rattle.store_check.specs.Faults.{store_fault_name, store_fault_numbers};

use heap_check::{HeapFault, Numbers};
use thiserror::Error;

/// The first fault of an image that isn't a store. The faults are tested in this order. The text of
/// a fault is its name and the numbers that locate it. A database is named by its index in the
/// directory. An entry is named by its database and its index there, and a chunk by the offset of
/// its slot.
#[derive(Clone, Copy, Debug, PartialEq, Eq, Error)]
#[error("{}{}", self.name(), self.numbers())]
pub enum StoreFault {
    /// The image isn't even an accepted heap.
    Heap(HeapFault),
    /// The first bad word of the directory, by its index. A word is bad if it is incomplete, is one
    /// too many, or occurs earlier. It is also bad if it is the directory's own slot, or not the
    /// slot of a chunk of owner 0.
    BadDirectorySlot(u32),
    /// The first database with a bad header. A header is bad if it is too short, continues in
    /// another list, or doesn't have the length of itself and its entries. It is also bad if an
    /// info word is neither 0 nor the slot of a chunk of owner 15.
    BadHeader(u32),
    /// The first entry whose slot isn't that of a chunk of owner 15. Only a deleted record may have
    /// the slot 0.
    BadEntry(u32, u32),
    /// The least slot that two entries or info blocks name.
    SharedChunk(u32),
    /// The least slot whose chunk has owner 15 or 0 and isn't used. A chunk of owner 15 must be
    /// named by an entry or as an info block. A chunk of owner 0 must be the directory or listed
    /// there.
    StrayChunk(u32),
    /// The first record whose unique ID is 0, or that of an earlier record of its database.
    BadId(u32, u32),
    /// The first database whose name isn't 1 to 31 bytes other than zero, followed by zeros.
    BadName(u32),
    /// The first database with the name of an earlier one.
    SameName(u32),
    /// An allocation failed, so nothing is known of the databases.
    OutOfMemory,
}

impl StoreFault {
    /// Returns the name of the fault.
    pub fn name(self) -> &'static str
        ensures { result.now ≡ store_fault_name self }
    {
        match self {
            StoreFault::Heap(fault) => fault.name(),
            StoreFault::BadDirectorySlot(_) => "BadDirectorySlot",
            StoreFault::BadHeader(_) => "BadHeader",
            StoreFault::BadEntry(_, _) => "BadEntry",
            StoreFault::SharedChunk(_) => "SharedChunk",
            StoreFault::StrayChunk(_) => "StrayChunk",
            StoreFault::BadId(_, _) => "BadId",
            StoreFault::BadName(_) => "BadName",
            StoreFault::SameName(_) => "SameName",
            StoreFault::OutOfMemory => "OutOfMemory",
        }
    }

    /// Returns the numbers of the fault.
    pub fn numbers(self) -> Numbers
        ensures { result ≡ store_fault_numbers self }
    {
        match self {
            StoreFault::Heap(fault) => fault.numbers(),
            StoreFault::BadEntry(database, index) | StoreFault::BadId(database, index) => {
                Numbers::Two(database, index)
            }
            StoreFault::BadDirectorySlot(number)
            | StoreFault::BadHeader(number)
            | StoreFault::SharedChunk(number)
            | StoreFault::StrayChunk(number)
            | StoreFault::BadName(number)
            | StoreFault::SameName(number) => Numbers::One(number),
            StoreFault::OutOfMemory => Numbers::Zero,
        }
    }
}
