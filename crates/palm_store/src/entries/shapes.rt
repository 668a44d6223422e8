//! Entries as a database has them: converted for callers, and made or changed from the fields that
//! callers give.

ghost use Rattle.std.specs.Prelude.{◌≡◌, ℕ};
ghost use Rattle.heap_model.specs.Database.{EntryFits};
ghost use Rattle.heap_model.specs.Database as databases;
ghost use Rattle.heap_model.specs.EntrySteps.{without_data, IsNameOf, Tells};
ghost use Rattle.db_format.specs.EitherEntry.{entry_of, is_resource, HasFittingId};
ghost use Rattle.palm_store.specs.EntryInfos.{with_info, HasFittingInfo};

use crate::entries::infos::EntryInfo;
use bitflags::Flags;
use db_format::{DbEntry, RecordAttrs, RecordEntry, ResourceEntry};
use heap_model::{Entry, Name, RecordInfo, ResourceInfo};

/// Returns the fields of an entry, as callers get them.
#[inline(always)]
pub(crate) fn told(entry: DbEntry) -> Entry
    ensures { Tells result (entry_of entry) }
{
    match entry {
        DbEntry::Record(record) => Entry::Record(RecordInfo {
            attributes: record.attributes.bits(),
            id: record.id,
            data: name_of(record.slot),
        }),
        DbEntry::Resource(resource) => Entry::Resource(ResourceInfo {
            kind: resource.kind,
            id: resource.id,
            data: Name(resource.slot),
        }),
    }
}

/// Returns the name of the chunk in a slot; there is none for 0.
#[inline(always)]
fn name_of(slot: u32) -> Option<Name>
    ensures { IsNameOf slot result }
{
    if slot == 0 { None } else { Some(Name(slot)) }
}

/// Returns an entry with the given fields, if they are of its kind, and with the data that it had.
pub(crate) fn entry_with(entry: DbEntry, info: EntryInfo) -> DbEntry
    requires id { HasFittingId entry }
    requires fits { EntryFits (is_resource entry) (entry_of entry) }
    requires info { HasFittingInfo info }
    ensures is { entry_of result ≡ with_info info (entry_of entry) }
    ensures kind { is_resource result ≡ is_resource entry }
    ensures id { HasFittingId result }
    ensures fits { EntryFits (is_resource result) (entry_of result) }
{
    match info {
        EntryInfo::Record { attributes, id } => match entry {
            DbEntry::Record(record) => DbEntry::Record(RecordEntry {
                attributes: RecordAttrs::from_bits_retain(attributes),
                id,
                slot: record.slot,
            }),
            DbEntry::Resource(resource) => DbEntry::Resource(resource),
        },
        EntryInfo::Resource { kind, id } => match entry {
            DbEntry::Record(record) => DbEntry::Record(record),
            DbEntry::Resource(resource) => DbEntry::Resource(ResourceEntry {
                kind,
                id,
                slot: resource.slot,
            }),
        },
    }
}

/// Returns an entry without data. If it is a record, it is deleted then.
pub(crate) fn emptied(entry: DbEntry) -> DbEntry
    requires id { HasFittingId entry }
    requires fits { EntryFits (is_resource entry) (entry_of entry) }
    ensures is { entry_of result ≡ without_data (entry_of entry) }
    ensures kind { is_resource result ≡ is_resource entry }
    ensures id { HasFittingId result }
    ensures fits { EntryFits (is_resource result) (entry_of result) }
{
    match entry {
        DbEntry::Record(record) => DbEntry::Record(RecordEntry {
            attributes: record.attributes.union(RecordAttrs::DELETE),
            id: record.id,
            slot: 0,
        }),
        DbEntry::Resource(resource) => DbEntry::Resource(ResourceEntry {
            kind: resource.kind,
            id: resource.id,
            slot: 0,
        }),
    }
}

/// Returns an entry with its data in this slot.
pub(crate) fn with_slot(entry: DbEntry, slot: Name) -> DbEntry
    requires id { HasFittingId entry }
    ensures is { entry_of result ≡ databases.entry_with (λ (none : ℕ). slot.0) (entry_of entry) }
    ensures kind { is_resource result ≡ is_resource entry }
    ensures id { HasFittingId result }
    ensures fits { EntryFits (is_resource entry) (entry_of entry)
        → EntryFits (is_resource result) (entry_of result) }
{
    match entry {
        DbEntry::Record(record) => DbEntry::Record(RecordEntry {
            attributes: record.attributes,
            id: record.id,
            slot: slot.0,
        }),
        DbEntry::Resource(resource) => DbEntry::Resource(ResourceEntry {
            kind: resource.kind,
            id: resource.id,
            slot: slot.0,
        }),
    }
}
