//! Entries of either kind.

ghost use Rattle.std.specs.Prelude.{◌≡◌, ◌+◌, ◌≤◌, length};
ghost use Rattle.heap_model.specs.DatabaseFields.{header_size};
ghost use Rattle.heap_model.specs.Database.{resources_in, entry_in, entry_bytes, entry_data};
ghost use Rattle.heap_model.specs.Database as databases;
ghost use Rattle.db_format.specs.Entries.{WritesEntry};
ghost use Rattle.db_format.specs.EitherEntry.{entry_of, is_resource, HasFittingId};

use crate::body::has_resources;
use crate::entries::{RecordEntry, ResourceEntry};
use crate::entry_bytes::EntryBytes;

/// The entry of a record or of a resource. All entries of one database are of the same kind.
#[derive(Clone, Copy)]
pub enum DbEntry {
    Record(RecordEntry),
    Resource(ResourceEntry),
}

impl DbEntry {
    /// Reads the entry at an index. The header's attributes determine its kind.
    pub fn read(body: &[u8], index: u16) -> DbEntry
        requires header { header_size ≤ length body.now }
        requires inside { databases.entry_offset (resources_in body.now) (index + 1) ≤ length body.now }
        ensures is { entry_of result ≡ entry_in body.now index }
        ensures kind { is_resource result ≡ resources_in body.now }
        ensures id { HasFittingId result }
    {
        if has_resources(body) {
            DbEntry::Resource(ResourceEntry::read(body, index))
        } else {
            DbEntry::Record(RecordEntry::read(body, index))
        }
    }

    /// Returns whether the entry is a resource's. Otherwise it is a record's.
    #[inline]
    pub fn is_resource(self) -> bool
        ensures { result ≡ is_resource self }
    {
        match self {
            DbEntry::Record(_) => false,
            DbEntry::Resource(_) => true,
        }
    }

    /// Returns the slot of the entry's data.
    #[inline]
    pub fn slot(self) -> u32
        ensures { result ≡ entry_data (entry_of self) }
    {
        match self {
            DbEntry::Record(entry) => entry.slot,
            DbEntry::Resource(entry) => entry.slot,
        }
    }

    /// Returns the bytes of the entry.
    pub fn to_bytes(self) -> EntryBytes
        requires { HasFittingId self }
        ensures is { result ≡ entry_bytes (entry_of self) }
        ensures written { WritesEntry (is_resource self) (entry_of self) result }
    {
        match self {
            DbEntry::Record(entry) => EntryBytes::of(&entry.to_bytes()),
            DbEntry::Resource(entry) => EntryBytes::of(&entry.to_bytes()),
        }
    }
}
