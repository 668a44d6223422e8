//! The information on entries that callers give and get.

use database_edits::OpenDatabase;

/// An item that was found in a database, such as an entry, and the open database.
#[derive(Clone, Copy)]
pub struct InDatabase<T> {
    pub opened: OpenDatabase,
    pub item: T,
}

/// The fields of an entry except for its data. If the entry is new, a record has no ID yet, and
/// gets it from the seed of the database: the fields are an `EntryInfo<()>`.
#[derive(Clone, Copy)]
pub enum EntryInfo<Id = u32> {
    /// The unique ID is 1 to 0xFFFFFF.
    Record { attributes: u8, id: Id },
    /// The type is its four bytes as a number.
    Resource { kind: u32, id: u16 },
}
