//! Why a call was refused.

ghost use Rattle.std.specs.Prelude.{◌≡◌};
ghost use Rattle.heap_model.specs.Numbers.{number_of, name_of};

use crate::file_fault::FileFault;
use std::error::Error;
use std::fmt;
use std::fmt::Display;

/// Why a call was refused. A refused call leaves the meaning of the heap as it was. The numbers are
/// this project's own; a device may return other ones.
#[derive(Clone, Copy, Debug, PartialEq, Eq)]
pub enum Refusal {
    /// The name is neither that of a caller's chunk nor that of data of a database.
    InvalidHandle,
    /// The chunk is data of a database.
    OwnedByDatabase,
    /// The chunk is locked.
    ChunkLocked,
    /// The chunk has no lock.
    ChunkNotLocked,
    /// The chunk has 14 locks already.
    LockOverflow,
    /// The chunk is fixed.
    ChunkFixed,
    /// The owner isn't one of 1 to 14.
    InvalidOwner,
    /// There is no free slot, or not enough free space.
    NotEnoughSpace,
    /// The range reaches beyond the chunk's end.
    OutOfBounds,
    /// No database has this number, this name or this index.
    NoSuchDatabase,
    /// The database has resources, not records.
    NotRecordDatabase,
    /// The database has records, not resources.
    NotResourceDatabase,
    /// The database is read-only.
    ReadOnly,
    /// No entry has this index, or no record of the category comes at an index or after it.
    IndexOutOfRange,
    /// The record is deleted.
    RecordDeleted,
    /// The record is in use.
    RecordBusy,
    /// The number of databases, or of entries of the database, is already at its maximum.
    TooManyEntries,
    /// The category isn't one of 0 to 15. Calls that count or find also accept 0xFF.
    InvalidCategory,
    /// Another record has the unique ID.
    DuplicateId,
    /// No record has the unique ID.
    UniqueIdNotFound,
    /// Another database has the name, or the database has the info block already.
    AlreadyExists,
    /// The name is not valid: a database's name has 1 to 31 bytes, none of them zero.
    InvalidName,
    /// No resource has the type and the id, or no resource of the type has the index.
    ResourceNotFound,
    /// The database has no such info block.
    NoInfoBlock,
    /// The file can't be read as a database. The fault is the first one that it has.
    BadFile(FileFault),
    /// An allocation failed that the call needs.
    OutOfMemory,
    /// A chunk that the call acts on is lent.
    Lent,
}

impl Refusal {
    /// Returns the number of the refusal.
    pub fn number(self) -> u8
        ensures { result ≡ number_of self }
    {
        match self {
            Refusal::InvalidHandle => 1,
            Refusal::OwnedByDatabase => 2,
            Refusal::ChunkLocked => 3,
            Refusal::ChunkNotLocked => 4,
            Refusal::LockOverflow => 5,
            Refusal::ChunkFixed => 6,
            Refusal::InvalidOwner => 7,
            Refusal::NotEnoughSpace => 8,
            Refusal::OutOfBounds => 9,
            Refusal::NoSuchDatabase => 10,
            Refusal::NotRecordDatabase => 11,
            Refusal::NotResourceDatabase => 12,
            Refusal::ReadOnly => 13,
            Refusal::IndexOutOfRange => 14,
            Refusal::RecordDeleted => 15,
            Refusal::RecordBusy => 16,
            Refusal::TooManyEntries => 17,
            Refusal::InvalidCategory => 18,
            Refusal::DuplicateId => 19,
            Refusal::UniqueIdNotFound => 20,
            Refusal::AlreadyExists => 21,
            Refusal::InvalidName => 22,
            Refusal::ResourceNotFound => 23,
            Refusal::NoInfoBlock => 24,
            Refusal::BadFile(_) => 25,
            Refusal::OutOfMemory => 26,
            Refusal::Lent => 27,
        }
    }

    /// Returns the name of the refusal.
    pub fn name(self) -> &'static str
        ensures { result.now ≡ name_of self }
    {
        match self {
            Refusal::InvalidHandle => "InvalidHandle",
            Refusal::OwnedByDatabase => "OwnedByDatabase",
            Refusal::ChunkLocked => "ChunkLocked",
            Refusal::ChunkNotLocked => "ChunkNotLocked",
            Refusal::LockOverflow => "LockOverflow",
            Refusal::ChunkFixed => "ChunkFixed",
            Refusal::InvalidOwner => "InvalidOwner",
            Refusal::NotEnoughSpace => "NotEnoughSpace",
            Refusal::OutOfBounds => "OutOfBounds",
            Refusal::NoSuchDatabase => "NoSuchDatabase",
            Refusal::NotRecordDatabase => "NotRecordDatabase",
            Refusal::NotResourceDatabase => "NotResourceDatabase",
            Refusal::ReadOnly => "ReadOnly",
            Refusal::IndexOutOfRange => "IndexOutOfRange",
            Refusal::RecordDeleted => "RecordDeleted",
            Refusal::RecordBusy => "RecordBusy",
            Refusal::TooManyEntries => "TooManyEntries",
            Refusal::InvalidCategory => "InvalidCategory",
            Refusal::DuplicateId => "DuplicateId",
            Refusal::UniqueIdNotFound => "UniqueIdNotFound",
            Refusal::AlreadyExists => "AlreadyExists",
            Refusal::InvalidName => "InvalidName",
            Refusal::ResourceNotFound => "ResourceNotFound",
            Refusal::NoInfoBlock => "NoInfoBlock",
            Refusal::BadFile(_) => "BadFile",
            Refusal::OutOfMemory => "OutOfMemory",
            Refusal::Lent => "Lent",
        }
    }
}

impl Display for Refusal {
    fn fmt<W: fmt::Write>(&self, f: &mut fmt::Formatter<W>) -> fmt::Result {
        match self {
            Refusal::BadFile(fault) => write!(f, "{} {fault}", self.name()),
            refusal => f.write_str(refusal.name()),
        }
    }
}

impl Error for Refusal {}
