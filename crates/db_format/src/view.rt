//! Databases that are read.

ghost use Rattle.std.specs.Prelude.{◌≡◌, ◌<◌, false, true, Some, length, slice_get};
ghost use Rattle.heap_model.specs.Database.{has_resources, IsSpelled, database_in};
ghost use Rattle.heap_model.specs.EntrySteps.{OfEntry, HasId};
ghost use Rattle.db_format.specs.Entries.{record_of, resource_of};

use crate::body;
use crate::database_attributes::DbAttrs;
use crate::entries::{RecordEntry, ResourceEntry, record_id};
use std::marker::Model;

/// A database, read from the bytes that spell it. Contracts see the database.
#[derive(Drop)]
pub struct DatabaseView<'a> {
    bytes: &'a [u8],
}

impl<'a> Model for DatabaseView<'a> {
    ghost use Rattle.std.specs.Prelude.{ℕ};
    ghost use Rattle.heap_model.specs.Database.{Database, IsSpelled, database_in};

    ghost Value = { Database ℕ };

    ghost view = { λ view. database_in view.bytes.now };

    ghost invariant = { λ view. IsSpelled (database_in view.bytes.now) view.bytes.now };
}

impl<'a> DatabaseView<'a> {
    /// Wraps the bytes that spell a database.
    #[inline]
    pub fn of(bytes: &'a [u8]) -> DatabaseView<'a>
        requires { IsSpelled (database_in bytes.now) bytes.now }
        ensures { result ≡ database_in bytes.now }
    {
        DatabaseView { bytes }
    }

    /// Returns the attributes of the database.
    #[inline]
    pub fn attributes(&self) -> DbAttrs
        ensures { result.0 ≡ self.now.header.attributes }
    {
        DbAttrs(body::attributes(self.bytes))
    }

    /// Returns the number of its entries.
    #[inline]
    pub fn entry_count(&self) -> u32
        ensures { result ≡ length self.now.entries }
    {
        body::entry_count(self.bytes) as u32
    }

    /// Returns the record at an index.
    #[inline]
    pub fn record(&self, index: u32) -> RecordEntry
        requires inside { index < length self.now.entries }
        requires records { has_resources self.now.header.attributes ≡ false }
        ensures { slice_get self.now.entries index ≡ Some (record_of result) }
    {
        RecordEntry::read(self.bytes, index as u16)
    }

    /// Returns the unique ID of the record at an index.
    #[inline]
    pub fn record_id(&self, index: u32) -> u32
        requires inside { index < length self.now.entries }
        requires records { has_resources self.now.header.attributes ≡ false }
        ensures { OfEntry (slice_get self.now.entries index) (HasId result) }
    {
        record_id(self.bytes, index as u16)
    }

    /// Returns the resource at an index.
    #[inline]
    pub fn resource(&self, index: u32) -> ResourceEntry
        requires inside { index < length self.now.entries }
        requires resources { has_resources self.now.header.attributes ≡ true }
        ensures { slice_get self.now.entries index ≡ Some (resource_of result) }
    {
        ResourceEntry::read(self.bytes, index as u16)
    }
}
