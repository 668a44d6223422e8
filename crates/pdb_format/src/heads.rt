//! The header and the entries of a file, read from its first bytes.

ghost use Rattle.std.specs.Prelude.{◌≡◌, ◌<◌, ◌≤◌, ◌↔◌, Some, false, length, IsTrue};
ghost use Rattle.heap_model.specs.Bytes.{u32_at};
ghost use Rattle.heap_model.specs.DatabaseFields.{header_size, app_info_at, sort_info_at, next_list_at, seed_at};
ghost use Rattle.heap_model.specs.Database.{HasName, IsDatabaseName, resources_in, entry_count_in, entry_in, entry_data, database_in};
ghost use Rattle.heap_model.specs.Database as databases;
ghost use Rattle.heap_model.specs.Files as files;
ghost use Rattle.heap_model.specs.Store.{unique_id};
ghost use Rattle.heap_model.specs.UniqueIds.{greatest_id};
ghost use Rattle.db_format.specs.EitherEntry.{entry_of, is_resource, HasFittingId};
ghost use Rattle.db_format.specs.Headers.{IsHeaderOf};

use crate::file_bytes::FileBytes;
use db_format::{DbEntry, DbHeader};

/// Returns the field for the offset of a further list of entries.
#[tactic(auto, using(crate::proofs::StartLaws::next_list_started))]
pub(crate) fn next_list<B: FileBytes>(file: &B) -> u32
    requires { header_size ≤ length (B.bytes file.now) }
    ensures { result ≡ u32_at (B.bytes file.now) next_list_at }
{
    db_format::next_list(file.start())
}

/// Returns the offset of the AppInfo block, or 0 if there is none.
#[tactic(auto, using(crate::proofs::StartLaws::app_started))]
pub(crate) fn app_info<B: FileBytes>(file: &B) -> u32
    requires { header_size ≤ length (B.bytes file.now) }
    ensures { result ≡ u32_at (B.bytes file.now) app_info_at }
{
    db_format::app_info(file.start())
}

/// Returns the offset of the SortInfo block, or 0 if there is none.
#[tactic(auto, using(crate::proofs::StartLaws::sort_started))]
pub(crate) fn sort_info<B: FileBytes>(file: &B) -> u32
    requires { header_size ≤ length (B.bytes file.now) }
    ensures { result ≡ u32_at (B.bytes file.now) sort_info_at }
{
    db_format::sort_info(file.start())
}

/// Returns the whole field of the seed of the unique IDs.
#[tactic(auto, using(crate::proofs::StartLaws::seed_started))]
pub(crate) fn seed<B: FileBytes>(file: &B) -> u32
    requires { header_size ≤ length (B.bytes file.now) }
    ensures { result ≡ u32_at (B.bytes file.now) seed_at }
{
    db_format::seed(file.start())
}

/// Returns whether the entries of a file are resources. Otherwise they are records.
#[tactic(auto, using(crate::proofs::StartLaws::resources_started))]
pub fn has_resources<B: FileBytes>(file: &B) -> bool
    requires { header_size ≤ length (B.bytes file.now) }
    ensures { result ≡ resources_in (B.bytes file.now) }
{
    db_format::has_resources(file.start())
}

/// Returns the number of entries.
#[tactic(auto, using(crate::proofs::StartLaws::count_started))]
pub(crate) fn entry_count<B: FileBytes>(file: &B) -> u16
    requires { header_size ≤ length (B.bytes file.now) }
    ensures { result ≡ entry_count_in (B.bytes file.now) }
{
    db_format::entry_count(file.start())
}

/// Returns the offset at which the entries end.
#[tactic(auto, using(crate::proofs::StartLaws::end_started))]
pub fn entries_end<B: FileBytes>(file: &B) -> usize
    requires { header_size ≤ length (B.bytes file.now) }
    ensures { result ≡ files.entries_end (B.bytes file.now) }
{
    db_format::entries_end(file.start())
}

/// Returns the name, which may be empty.
#[tactic(auto, using(crate::proofs::StartLaws::name_started))]
pub fn name_in<B: FileBytes>(file: &B) -> &[u8]
    requires { header_size ≤ length (B.bytes file.now) }
    ensures { result.now ≡ databases.name_in (B.bytes file.now) }
{
    db_format::name_in(file.start())
}

/// Returns whether only zeros follow the name in its field.
pub(crate) fn has_name<B: FileBytes>(file: &B) -> bool
    requires { header_size ≤ length (B.bytes file.now) }
    ensures { IsTrue result ↔ HasName (B.bytes file.now) }
{
    db_format::has_name(file.start())
}

/// Returns the header.
#[tactic(auto, using(crate::proofs::StartLaws::header_by_entries, crate::proofs::StartLaws::name_started, crate::proofs::StartLaws::entries_started, crate::proofs::StartLaws::database_started))]
pub(crate) fn header<B: FileBytes>(file: &B) -> DbHeader
    requires whole { files.entries_end (B.bytes file.now) ≤ length (B.bytes file.now) }
    requires name { IsDatabaseName (databases.name_in (B.bytes file.now)) }
    ensures { IsHeaderOf (database_in (B.bytes file.now)) result }
{
    DbHeader::read(file.start())
}

/// Returns the entry at an index.
#[tactic(auto, using(crate::proofs::StartLaws::header_by_entries, crate::proofs::StartLaws::entry_within_start, crate::proofs::StartLaws::entry_started, crate::proofs::StartLaws::resources_started))]
pub(crate) fn entry_at<B: FileBytes>(file: &B, index: u16) -> DbEntry
    requires whole { files.entries_end (B.bytes file.now) ≤ length (B.bytes file.now) }
    requires inside { index < entry_count_in (B.bytes file.now) }
    ensures is { entry_of result ≡ entry_in (B.bytes file.now) index }
    ensures kind { is_resource result ≡ resources_in (B.bytes file.now) }
    ensures id { HasFittingId result }
{
    DbEntry::read(file.start(), index)
}

/// Returns the offset of the data of the entry at an index.
#[tactic(auto, using(crate::proofs::StartLaws::header_by_entries, crate::proofs::StartLaws::entry_within_start, crate::proofs::StartLaws::entry_started))]
pub(crate) fn entry_slot<B: FileBytes>(file: &B, index: u16) -> u32
    requires whole { files.entries_end (B.bytes file.now) ≤ length (B.bytes file.now) }
    requires inside { index < entry_count_in (B.bytes file.now) }
    ensures { result ≡ entry_data (entry_in (B.bytes file.now) index) }
{
    let start = file.start();
    db_format::entry_slot(start, db_format::has_resources(start), index)
}

/// Returns the unique ID of the record at an index.
#[tactic(auto, using(crate::proofs::StartLaws::header_by_entries, crate::proofs::StartLaws::entry_within_start, crate::proofs::StartLaws::entry_started, crate::proofs::StartLaws::resources_started))]
pub(crate) fn record_id<B: FileBytes>(file: &B, index: u16) -> u32
    requires whole { files.entries_end (B.bytes file.now) ≤ length (B.bytes file.now) }
    requires inside { index < entry_count_in (B.bytes file.now) }
    requires records { resources_in (B.bytes file.now) ≡ false }
    ensures is { Some result ≡ unique_id (entry_in (B.bytes file.now) index) }
    ensures most { result ≤ greatest_id }
{
    db_format::record_id(file.start(), index)
}
