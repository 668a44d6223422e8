//! The sound offsets and entries of a file that may be damaged.

ghost use Rattle.std.specs.Prelude.{◌≡◌, ◌≤◌, length};
ghost use Rattle.heap_model.specs.DatabaseFields.{header_size};
ghost use Rattle.heap_model.specs.Database.{entry_count_in, entry_offset, resources_in};
ghost use Rattle.db_format.specs.EitherEntry.{entry_of};
ghost use Rattle.canonical_file.specs.Salvage as words;

use db_format::{
    DATABASE_HEADER_SIZE, DbEntry, entries_end, entry_count, entry_size, has_resources,
};

/// Returns whether a block can begin at this offset.
pub(crate) fn is_sound_offset(file: &[u8], at: u32) -> bool
    requires { header_size ≤ length file.now }
    ensures { result ≡ words.is_sound_offset file.now at }
{
    let at = at as usize;
    entries_end(file) <= at && at <= file.len()
}

/// Returns whether the data of an entry can begin at its offset, or whether it is a deleted record
/// without data.
pub(crate) fn is_sound_entry(file: &[u8], entry: DbEntry) -> bool
    requires { header_size ≤ length file.now }
    ensures { result ≡ words.is_sound_entry file.now (entry_of entry) }
{
    match entry {
        DbEntry::Record(record) => {
            is_sound_offset(file, record.slot)
                || (record.attributes.is_deleted() && record.slot == 0)
        }
        DbEntry::Resource(resource) => is_sound_offset(file, resource.slot),
    }
}

/// Returns the offset of an info block if it is sound, and otherwise 0.
pub(crate) fn sound_info(file: &[u8], at: u32) -> u32
    requires { header_size ≤ length file.now }
    ensures { result ≡ words.sound_info file.now at }
{
    if is_sound_offset(file, at) { at } else { 0 }
}

/// Returns the number of entries that the file has as a whole.
pub(crate) fn whole_entries(file: &[u8]) -> u16
    requires { header_size ≤ length file.now }
    ensures is { result ≡ words.whole_entries file.now }
    ensures most { result ≤ entry_count_in file.now }
    ensures inside { entry_offset (resources_in file.now) result ≤ length file.now }
{
    let room = (file.len() - DATABASE_HEADER_SIZE) / entry_size(has_resources(file));
    (entry_count(file) as usize).min(room) as u16
}
