//! The header of a database and its entries: read from the bytes of its chunk, and as bytes to
//! write there.
//!
//! ```text
//!  0              name, and zeros up to the end of its field
//! 32  u16 attributes             u16 version
//! 36  u32 creation date          u32 modification date       u32 date of the last backup
//! 48  u32 modification number    u32 slot of AppInfo         u32 slot of SortInfo
//! 60  u32 type                   u32 creator                 u32 seed of the unique IDs
//! 72  u32 zero                   u16 number of entries
//! 78  the entries: of a record   u32 slot, u8 attributes, unique ID of 3 bytes
//!                  of a resource u32 type, u16 id, u32 slot
//! ```
//!
//! The numbers are big-endian. A reader takes the bytes as a slice, which a heap lends. The bytes
//! to write come as a small array, since no slice stays lent during a write.
//!
//! To change a field, read the header or the entry, set the field, and write all its bytes back.
//! The modification number, the seed, the number of entries and the slot of an info block can also
//! be written alone. Start with `specs/Headers.antt` and `specs/Entries.antt`: they define what
//! these writes do to the database.
#![tactic(auto)]

mod body;
mod database_attributes;
mod db_entry;
mod entries;
mod entry_bytes;
mod fields;
mod header;
mod header_fields;
mod name;
mod record_attributes;
mod view;
mod words;

pub use body::{
    MOST_DATABASES, app_info, attributes, entries_end, entry_count, has_resources, is_whole,
    modification_number, next_list, seed, sort_info,
};
pub use database_attributes::DbAttrs;
pub use db_entry::DbEntry;
pub use entries::{GREATEST_ID, RecordEntry, ResourceEntry, SEEDS, entry_slot, record_id};
pub use entry_bytes::EntryBytes;
pub use fields::{
    DATABASE_HEADER_SIZE, ENTRY_COUNT_AT, INFO_BLOCKS, MODIFICATION_NUMBER_AT, NAME_SIZE,
    NEXT_LIST_AT, RECORD_ATTRIBUTES_AT, RECORD_SIZE, RESOURCE_DATA_AT, RESOURCE_SIZE, SEED_AT,
    entry_offset, entry_size,
};
pub use header::DbHeader;
pub use header_fields::{
    entry_count_bytes, info_block_at, info_block_bytes, modification_number_bytes, seed_bytes,
};
pub use name::{NameField, has_name, is_name, name_in};
pub use record_attributes::{CATEGORIES, RecordAttrs};
pub use view::DatabaseView;
