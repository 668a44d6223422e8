//! Calls of the managers, and the replies to them.

use crate::bytes::Bytes;
use crate::database::{DbInfo, DbName};
use crate::entry::{RecordInfo, ResourceInfo};
use crate::names::{Db, Name, Place, Which};
use crate::refusal::Refusal;

/// A call of the memory manager (Palm OS Programmer's API Reference, "Memory Manager"). `C` is how
/// the call gives its chunk: by its name, unless another type is given. `B` is how it gives its
/// bytes: as bytes of its own, likewise. Sizes and offsets within a chunk count bytes.
#[derive(Drop, Debug)]
pub enum MemoryCall<C = Name, B = Bytes> {
    HandleNew {
        size: u32,
        owner: u8,
    },
    PtrNew {
        size: u32,
        owner: u8,
    },
    Free(C),
    Lock(C),
    Unlock(C),
    Size(C),
    Owner(C),
    Locks(C),
    Read {
        name: C,
        at: u32,
        count: u32,
    },
    Write {
        name: C,
        at: u32,
        bytes: B,
    },
    Set {
        name: C,
        at: u32,
        count: u32,
        byte: u8,
    },
    StrCopy {
        name: C,
        at: u32,
        text: B,
    },
    Resize {
        name: C,
        size: u32,
    },
    SetOwner {
        name: C,
        owner: u8,
    },
    Recover(Place),
    FreeByOwner(u8),
    FreeBytes,
    LargestStretch,
    Compact,
    /// Adds a master pointer table of 15 slots.
    MoreSlots,
}

/// A call on the databases of a store (Palm OS Programmer's API Reference, "Data Manager"). `C` is
/// how the call gives its chunk: by its name, unless another type is given. `D` is how it gives its
/// database: by its number, likewise.
#[derive(Drop, Debug)]
pub enum DatabaseCall<C = Name, D = Db> {
    Create {
        name: DbName,
        /// The type, its four bytes as a number.
        kind: u32,
        creator: u32,
        /// If true, the entries are resources; otherwise they are records.
        resources: bool,
        date: u32,
    },
    Delete(D),
    Find(DbName),
    /// Finds the database at an index, in the order of the directory.
    Nth(u32),
    Count,
    Info(D),
    /// Sets fields of the header. The call ignores the modification number, the seed and the number
    /// of entries that it is given. It also ignores the attribute that says whether there are
    /// resources.
    SetInfo(D, DbInfo),
    /// Makes a caller's chunk an info block of a database that doesn't have this block.
    SetInfoBlock {
        db: D,
        which: Which,
        name: C,
    },
    /// Takes the info block from the database. Its chunk gets an owner of 1 to 14.
    TakeInfoBlock {
        db: D,
        which: Which,
        owner: u8,
    },
    InfoBlock(D, Which),
}

/// A call on the records of a database (Palm OS Programmer's API Reference, "Data Manager"). `C`
/// and `D` are those of `DatabaseCall`. Records are counted from 0.
#[derive(Drop, Debug)]
pub enum RecordCall<C = Name, D = Db> {
    /// Makes a record of `size` bytes at an index. If the index is beyond the end, the record comes
    /// last.
    New {
        db: D,
        at: u32,
        size: u32,
    },
    Delete(D, u32),
    Archive(D, u32),
    Remove(D, u32),
    /// Moves a record to right before the record at `to`. Both indices are counted before the move.
    Move {
        db: D,
        from: u32,
        to: u32,
    },
    Get(D, u32),
    Query(D, u32),
    Release {
        db: D,
        index: u32,
        dirty: bool,
    },
    Info(D, u32),
    Resize {
        db: D,
        index: u32,
        size: u32,
    },
    Count(D),
    /// Makes a record at an index, with a caller's chunk for its data. If the index is beyond the
    /// end, the record comes last.
    Attach {
        db: D,
        at: u32,
        name: C,
    },
    /// Makes a caller's chunk the data of a record. The chunk of the old data gets an owner of 1 to
    /// 14.
    AttachReplacing {
        db: D,
        index: u32,
        name: C,
        owner: u8,
    },
    /// Removes the entry. The chunk of its data gets an owner of 1 to 14.
    Detach {
        db: D,
        index: u32,
        owner: u8,
    },
    /// Sets the attributes and the unique ID of a record. The attribute bits of a deleted and of a
    /// busy record stay. Of `id` the low 24 bits are used; if they are 0, the ID stays.
    SetInfo {
        db: D,
        index: u32,
        attributes: u8,
        id: u32,
    },
    FindById(D, u32),
    /// Counts the records of a category, 0 to 15, or of any category, for 0xFF.
    CountInCategory(D, u8),
    /// Finds the first record of a category, from an index on. The category is as for
    /// `CountInCategory`.
    NextInCategory {
        db: D,
        from: u32,
        category: u8,
    },
    /// Counts the records of a category before an index. The category is as for `CountInCategory`.
    PositionInCategory {
        db: D,
        index: u32,
        category: u8,
    },
    MoveCategory {
        db: D,
        to: u8,
        from: u8,
        dirty: bool,
    },
    DeleteCategory(D, u8),
}

/// A call on the resources of a database (Palm OS Programmer's API Reference, "Data Manager"). `C`
/// and `D` are those of `DatabaseCall`. Resources are counted from 0; a new one comes after all
/// others. Two resources may have the same type and id.
#[derive(Drop, Debug)]
pub enum ResourceCall<C = Name, D = Db> {
    /// Makes a resource of `size` bytes.
    New {
        db: D,
        /// The type, its four bytes as a number.
        kind: u32,
        id: u16,
        size: u32,
    },
    /// Makes a resource with a caller's chunk for its data.
    Attach {
        db: D,
        kind: u32,
        id: u16,
        name: C,
    },
    /// Removes the entry. The chunk of its data gets an owner of 1 to 14.
    Detach {
        db: D,
        index: u32,
        owner: u8,
    },
    Remove(D, u32),
    Resize {
        db: D,
        index: u32,
        size: u32,
    },
    Info(D, u32),
    SetInfo {
        db: D,
        index: u32,
        kind: u32,
        id: u16,
    },
    /// Finds the first resource of a type and an id.
    Find {
        db: D,
        kind: u32,
        id: u16,
    },
    /// Finds the resource of a type by its index among the resources of the type, counted from 0.
    FindType {
        db: D,
        kind: u32,
        nth: u32,
    },
    Count(D),
}

/// A call on files of databases, PDB and PRC (Palm OS File Format Specification). `D` is how the
/// call gives its database, and `B` how it gives its bytes.
#[derive(Drop, Debug)]
pub enum FileCall<D = Db, B = Bytes> {
    /// Adds the database of a file after the other databases. The bytes are those of the file.
    Import(B),
    /// Returns the bytes of the file of a database.
    Export(D),
}

/// A call of any manager. `C`, `D` and `B` are how it gives its chunk, its database and its bytes.
#[derive(Drop, Debug)]
pub enum Call<C = Name, D = Db, B = Bytes> {
    Memory(MemoryCall<C, B>),
    Database(DatabaseCall<C, D>),
    Record(RecordCall<C, D>),
    Resource(ResourceCall<C, D>),
    File(FileCall<D, B>),
}

/// The reply to a call: a refusal, or a result.
#[derive(Drop, Debug, PartialEq, Eq)]
pub enum Reply {
    Refused(Refusal),
    Done,
    Number(u32),
    Named(Name),
    Locked { place: Place, count: u8 },
    /// The bytes of a chunk, or of a file.
    Data(Bytes),
    Database(Db),
    Info(DbInfo),
    /// The index of the new entry, and the name of its data.
    Made { index: u32, name: Name },
    Record(RecordInfo),
    Resource(ResourceInfo),
}
