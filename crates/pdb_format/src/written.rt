//! Entries and seeds as they are written to a file.

ghost use Rattle.std.specs.Prelude.{◌≡◌, ◌≤◌, ◌<◌, ◌^◌, length, All};
ghost use Rattle.heap_model.specs.UniqueIds as unique;
ghost use Rattle.heap_model.specs.UniqueIds.{greatest_id};
ghost use Rattle.heap_model.specs.Database.{entry_with};
ghost use Rattle.heap_model.specs.Files as files;
ghost use Rattle.heap_model.specs.Files.{idle_entry};
ghost use Rattle.db_format.specs.EitherEntry.{entry_of, is_resource, HasFittingId};

use bitflags::Flags;
use db_format::{DbEntry, RecordAttrs, SEEDS};

/// Returns the attributes of a record that isn't busy.
pub fn idle_attributes(attributes: RecordAttrs) -> RecordAttrs
    ensures { result.0 ≡ files.idle_attributes attributes.0 }
{
    attributes.difference(RecordAttrs::BUSY)
}

/// Returns an entry as it is written: it isn't busy, and its data is at the offset `at`.
pub fn idle_entry_at(entry: DbEntry, at: u32) -> DbEntry
    requires { HasFittingId entry }
    ensures is { entry_of result ≡ entry_with (λ _. at) (idle_entry (entry_of entry)) }
    ensures kind { is_resource result ≡ is_resource entry }
    ensures id { HasFittingId result }
{
    match entry {
        DbEntry::Record(mut record) => {
            record.attributes = idle_attributes(record.attributes);
            record.slot = at;
            DbEntry::Record(record)
        }
        DbEntry::Resource(mut resource) => {
            resource.slot = at;
            DbEntry::Resource(resource)
        }
    }
}

/// Returns the field of the seed with another seed in its low 24 bits. The bits above them stay.
pub(crate) fn with_seed(field: u32, seed: u32) -> u32
    requires { seed ≤ greatest_id }
    ensures { result ≡ unique.with_seed field seed }
{
    field / SEEDS * SEEDS + seed
}
