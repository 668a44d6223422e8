//! Reads single fields of a database's header from its bytes.

ghost use Rattle.std.specs.Prelude.{◌≡◌, ◌≤◌, ◌↔◌, length, IsTrue};
ghost use Rattle.heap_model.specs.Bytes.{u16_at, u32_at};
ghost use Rattle.heap_model.specs.DatabaseFields.{header_size, attributes_at, modification_number_at, app_info_at, sort_info_at, seed_at, next_list_at};
ghost use Rattle.heap_model.specs.Database.{resources_in, entry_count_in};
ghost use Rattle.heap_model.specs.Database as databases;
ghost use Rattle.db_format.specs.Headers.{AreWholeBytes};

use crate::database_attributes::DbAttrs;
use crate::fields::{
    APP_INFO_AT, ATTRIBUTES_AT, DATABASE_HEADER_SIZE, ENTRY_COUNT_AT, MODIFICATION_NUMBER_AT,
    NEXT_LIST_AT, SEED_AT, SORT_INFO_AT, entry_offset,
};
use crate::words::{u16_in, u32_in};

/// The greatest number of databases that a store may have.
pub const MOST_DATABASES: u32 = 1024;

/// Returns the attributes of a database.
#[inline]
pub fn attributes(bytes: &[u8]) -> u16
    requires { header_size ≤ length bytes.now }
    ensures { result ≡ u16_at bytes.now attributes_at }
{
    u16_in(bytes, ATTRIBUTES_AT)
}

/// Returns whether the entries of a database are resources. Otherwise they are records.
#[inline]
pub fn has_resources(bytes: &[u8]) -> bool
    requires { header_size ≤ length bytes.now }
    ensures { result ≡ resources_in bytes.now }
{
    DbAttrs(attributes(bytes)).has_resources()
}

/// Returns the slot of the AppInfo block, or 0 if there is none.
#[inline]
pub fn app_info(bytes: &[u8]) -> u32
    requires { header_size ≤ length bytes.now }
    ensures { result ≡ u32_at bytes.now app_info_at }
{
    u32_in(bytes, APP_INFO_AT)
}

/// Returns the slot of the SortInfo block, or 0 if there is none.
#[inline]
pub fn sort_info(bytes: &[u8]) -> u32
    requires { header_size ≤ length bytes.now }
    ensures { result ≡ u32_at bytes.now sort_info_at }
{
    u32_in(bytes, SORT_INFO_AT)
}

/// Returns the whole field of the seed of the unique IDs.
#[inline]
pub fn seed(bytes: &[u8]) -> u32
    requires { header_size ≤ length bytes.now }
    ensures { result ≡ u32_at bytes.now seed_at }
{
    u32_in(bytes, SEED_AT)
}

/// Returns the modification number.
#[inline]
pub fn modification_number(bytes: &[u8]) -> u32
    requires { header_size ≤ length bytes.now }
    ensures { result ≡ u32_at bytes.now modification_number_at }
{
    u32_in(bytes, MODIFICATION_NUMBER_AT)
}

/// Returns the number of entries in the header.
#[inline]
pub fn entry_count(bytes: &[u8]) -> u16
    requires { header_size ≤ length bytes.now }
    ensures { result ≡ entry_count_in bytes.now }
{
    u16_in(bytes, ENTRY_COUNT_AT)
}

/// Returns the field for the offset of a further list of entries. It is 0 in valid databases.
#[inline]
pub fn next_list(bytes: &[u8]) -> u32
    requires { header_size ≤ length bytes.now }
    ensures { result ≡ u32_at bytes.now next_list_at }
{
    u32_in(bytes, NEXT_LIST_AT)
}

/// Returns the offset at which the last entry ends, in bytes from the header's start. The number
/// of entries is the one in the header.
#[inline]
pub fn entries_end(bytes: &[u8]) -> usize
    requires { header_size ≤ length bytes.now }
    ensures { result ≡ databases.entry_offset (resources_in bytes.now) (entry_count_in bytes.now) }
{
    entry_offset(has_resources(bytes), entry_count(bytes))
}

/// Returns whether the bytes are a header and exactly as many entries as the header has, with no
/// further list of entries. If they also have a name (`has_name`), they spell a database.
pub fn is_whole(bytes: &[u8]) -> bool
    ensures { IsTrue result ↔ AreWholeBytes bytes.now }
{
    if bytes.len() < DATABASE_HEADER_SIZE {
        return false;
    }
    if next_list(bytes) != 0 {
        return false;
    }
    bytes.len() == entries_end(bytes)
}
