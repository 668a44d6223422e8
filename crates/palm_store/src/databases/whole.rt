//! The description of a whole new database, as a caller gives it.

ghost use Rattle.std.specs.Prelude.{◌≡◌, ◌+◌, ◌<◌, None, length, slice_index_or};
ghost use Rattle.heap_model.specs.Database.{EntryFits};
ghost use Rattle.db_format.specs.EitherEntry.{entry_of, HasFittingId};
ghost use Rattle.db_format.specs.Headers.{header_values};
ghost use Rattle.palm_store.specs.WholeDatabases.{data_sizes, CanCome, header_asked, entry_named};

use crate::entries::EntryInfo;
use bitflags::Flags;
use db_format::{
    DbEntry, DbHeader, INFO_BLOCKS, NameField, RecordAttrs, RecordEntry, ResourceEntry,
};
use heap_model::{DbInfo, Name};

/// The sizes in bytes of the info blocks of a new database, if they are to exist.
#[derive(Clone, Copy)]
pub struct BlockSizes {
    pub app_info: Option<u32>,
    pub sort_info: Option<u32>,
}

/// Returns the size at an index among the data of a database: the AppInfo block, the SortInfo
/// block, and then the entries.
pub(crate) fn size_at(
    blocks: BlockSizes,
    entries: &[(EntryInfo, Option<u32>)],
    index: usize,
) -> Option<u32>
    requires inside { index < 2 + length entries.now }
    ensures { result ≡ slice_index_or (data_sizes blocks entries.now) index None }
{
    match index {
        0 => blocks.app_info,
        1 => blocks.sort_info,
        _ => entries[index - INFO_BLOCKS].1,
    }
}

/// Returns the given entry, with its data under a name.
pub(crate) fn named_entry(entry: (EntryInfo, Option<u32>), name: Name, resources: bool) -> DbEntry
    requires { CanCome resources entry }
    ensures is { entry_of result ≡ entry_named entry name.0 }
    ensures id { HasFittingId result }
    ensures fits { EntryFits resources (entry_of result) }
{
    match entry.0 {
        EntryInfo::Record { attributes, id } => DbEntry::Record(RecordEntry {
            attributes: RecordAttrs::from_bits_retain(attributes),
            id,
            slot: name.0,
        }),
        EntryInfo::Resource { kind, id } => DbEntry::Resource(ResourceEntry {
            kind,
            id,
            slot: name.0,
        }),
    }
}

/// Returns the given header, with its info blocks under these names.
pub(crate) fn named_header(
    info: &DbInfo,
    name: NameField,
    app_info: Name,
    sort_info: Name,
) -> DbHeader
    requires { name ≡ info.now.name }
    ensures values { header_values result ≡ header_asked info.now }
    ensures app_info { result.app_info ≡ app_info.0 }
    ensures sort_info { result.sort_info ≡ sort_info.0 }
    ensures entry_count { result.entry_count ≡ info.now.entry_count }
{
    DbHeader {
        name,
        attributes: info.attributes,
        version: info.version,
        creation_date: info.creation_date,
        modification_date: info.modification_date,
        backup_date: info.backup_date,
        modification_number: info.modification_number,
        app_info: app_info.0,
        sort_info: sort_info.0,
        kind: info.kind,
        creator: info.creator,
        seed: info.seed,
        entry_count: info.entry_count,
    }
}
