//! The offsets of the fields of a header and of the entries, as in `DatabaseFields`.

ghost use Rattle.std.specs.Prelude.{◌≡◌, ◌≤◌, ◌<◌, ◌^◌};
ghost use Rattle.heap_model.specs.Database as databases;
ghost use Rattle.heap_model.specs.DatabaseFields as fields;

/// The size of the name's field in bytes. The field comes first in a header: the name, then zeros.
pub const NAME_SIZE: usize = 32;

/// The offsets of the numbers of a header. The attributes, the version and the number of entries
/// have two bytes each. Each other number has four bytes.
pub(crate) const ATTRIBUTES_AT: usize = 32;

pub(crate) const VERSION_AT: usize = 34;

pub(crate) const CREATION_DATE_AT: usize = 36;

pub(crate) const MODIFICATION_DATE_AT: usize = 40;

pub(crate) const BACKUP_DATE_AT: usize = 44;

/// The offset of the modification number.
pub const MODIFICATION_NUMBER_AT: usize = 48;

pub(crate) const APP_INFO_AT: usize = 52;

pub(crate) const SORT_INFO_AT: usize = 56;

pub(crate) const KIND_AT: usize = 60;

pub(crate) const CREATOR_AT: usize = 64;

/// The offset of the seed of the unique IDs.
pub const SEED_AT: usize = 68;

/// The offset of the field for a further list of entries, which is 0 in valid databases.
pub const NEXT_LIST_AT: usize = 72;

/// The offset of the number of entries.
pub const ENTRY_COUNT_AT: usize = 76;

/// The size of a header in bytes. The entries follow it.
pub const DATABASE_HEADER_SIZE: usize = 78;

/// The number of info blocks that a database may have. They come before the data of the entries:
/// first the AppInfo block, then the SortInfo block.
pub const INFO_BLOCKS: usize = 2;

/// The offsets of the fields in a record's entry, after the slot of its data.
pub const RECORD_ATTRIBUTES_AT: usize = 4;

pub(crate) const RECORD_ID_AT: usize = 5;

/// The offsets of the fields in a resource's entry, after its type.
pub(crate) const RESOURCE_ID_AT: usize = 4;

/// The offset of the slot of a resource's data in its entry.
pub const RESOURCE_DATA_AT: usize = 6;

/// The size of a record's entry in bytes.
pub const RECORD_SIZE: usize = 8;

/// The size of a resource's entry in bytes.
pub const RESOURCE_SIZE: usize = 10;

/// Returns the size of an entry in bytes, in a database of resources or of records.
#[inline]
pub fn entry_size(resources: bool) -> usize
    ensures { result ≡ fields.entry_size resources }
{
    if resources {
        RESOURCE_SIZE
    } else {
        RECORD_SIZE
    }
}

/// Returns the offset of the entry at an index, in bytes from the header's start. For the number of
/// entries it is the offset at which they end.
#[inline]
pub fn entry_offset(resources: bool, index: u16) -> usize
    ensures { result ≡ databases.entry_offset resources index }
{
    DATABASE_HEADER_SIZE + entry_size(resources) * index as usize
}
