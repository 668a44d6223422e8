//! Entries that stay the same.

ghost use Rattle.std.specs.Prelude.{◌≡◌, ◌↔◌, IsTrue, IsFalse, length};
ghost use Rattle.heap_model.specs.Database.{database_in};
ghost use Rattle.heap_model.specs.Store.{unique_ids};
ghost use Rattle.db_format.specs.EitherEntry.{entry_of};
ghost use Rattle.canonical_file.specs.Changes.{IsIdle, NoneIsBusy};

use db_format::DbEntry;
use pdb_format::{FileBytes, PdbFile, idle_attributes};

/// Returns whether an entry is a resource, or a record that isn't busy.
fn is_idle(entry: DbEntry) -> bool
    ensures { IsTrue result ↔ IsIdle (entry_of entry) }
{
    match entry {
        DbEntry::Record(record) => idle_attributes(record.attributes).0 == record.attributes.0,
        DbEntry::Resource(_) => true,
    }
}

/// Returns whether a record of a file is busy.
pub(crate) fn has_busy<B: FileBytes>(file: &PdbFile<'_, B>) -> bool
    ensures { IsFalse result ↔ NoneIsBusy file.now }
{
    for index in 0..file.entry_count() {
        if !is_idle(file.entry(index)) {
            return true;
        }
    }
    false
}

/// Returns whether these IDs, one for each record of a file, are the IDs in the file.
pub(crate) fn keeps_ids<B: FileBytes>(file: &PdbFile<'_, B>, ids: &[u32]) -> bool
    requires { length ids.now ≡ length (unique_ids (database_in file.now)) }
    ensures { IsTrue result ↔ (ids.now ≡ unique_ids (database_in file.now)) }
{
    if file.has_resources() {
        return true;
    }
    for index in 0..file.entry_count() {
        if ids[index as usize] != file.record_id(index) {
            return false;
        }
    }
    true
}
