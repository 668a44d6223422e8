//! Finds the first fault of a file.

ghost use Rattle.std.specs.Prelude.{◌≡◌, ◌≢◌, ◌≤◌, ◌<◌, ◌+◌, ◌↔◌, ℕ, length, IsTrue, IfSome, IfNone, OnOk, IfErr};
ghost use Rattle.heap_model.specs.Lists.{Least};
ghost use Rattle.heap_model.specs.DatabaseFields.{header_size};
ghost use Rattle.heap_model.specs.Database.{entry_count_in};
ghost use Rattle.heap_model.specs.Files.{entries_end, IsOutside, IsBadInfo, HasBadOffset, IsFirstFault, HasNoFault};
ghost use Rattle.heap_model.specs.Files.{HasFault};
ghost use Rattle.heap_model.specs.declared.file_fault.FileFault.TheVariants.{Truncated, BadOffset};
ghost use Rattle.db_format.specs.EitherEntry.{entry_of};

use crate::file_bytes::FileBytes;
use crate::heads::{app_info, entries_end, entry_at, entry_count, name_in, next_list, sort_info};
use db_format::{DATABASE_HEADER_SIZE, DbEntry};
use heap_model::{FileFault, Which};

/// Returns whether the file ends before its header does, or before its list of entries does.
fn is_truncated<B: FileBytes>(file: &B) -> bool
    ensures { IsTrue result ↔ HasFault (B.bytes file.now) Truncated }
{
    file.size() < DATABASE_HEADER_SIZE || file.size() < entries_end(file)
}

/// Returns whether no block may begin at this offset: it is before the end of the entries, or after
/// the end of the file.
fn is_outside<B: FileBytes>(file: &B, at: u32) -> bool
    requires { header_size ≤ length (B.bytes file.now) }
    ensures { IsTrue result ↔ IsOutside (B.bytes file.now) at }
{
    let at = at as usize;
    at < entries_end(file) || file.size() < at
}

/// Returns whether there is an info block, and it can't begin at the offset in the file.
fn is_bad_info<B: FileBytes>(file: &B, at: u32) -> bool
    requires { header_size ≤ length (B.bytes file.now) }
    ensures { IsTrue result ↔ IsBadInfo (B.bytes file.now) at }
{
    at != 0 && is_outside(file, at)
}

/// Returns whether an entry has data, and the data can't begin at the offset in the file. Only a
/// deleted record may have no data.
fn has_bad_offset<B: FileBytes>(file: &B, entry: DbEntry) -> bool
    requires { header_size ≤ length (B.bytes file.now) }
    ensures { IsTrue result ↔ HasBadOffset (B.bytes file.now) (entry_of entry) }
{
    match entry {
        DbEntry::Record(record) => {
            (record.slot != 0 || !record.attributes.is_deleted()) && is_outside(file, record.slot)
        }
        DbEntry::Resource(resource) => is_outside(file, resource.slot),
    }
}

/// Returns the index of the first entry with a bad offset.
fn find_bad_offset<B: FileBytes>(file: &B) -> Option<u16>
    requires header { header_size ≤ length (B.bytes file.now) }
    requires entries { entries_end (B.bytes file.now) ≤ length (B.bytes file.now) }
    ensures some { IfSome result (Least (λ index. HasFault (B.bytes file.now) (BadOffset index))) }
    ensures none { IfNone result ((index : ℕ) → index < entry_count_in (B.bytes file.now) → HasFault (B.bytes file.now) (BadOffset index) → ⊥) }
{
    for index in 0..entry_count(file) {
        if has_bad_offset(file, entry_at(file, index)) {
            return Some(index);
        }
    }
    None
}

/// Checks a file, and returns its first fault, in the order of `file_faults`. A file without fault
/// is read as a database.
///
/// # Errors
///
/// - `Truncated`: if the file ends before its header or its list of entries does.
/// - `ChainedList`: if the header refers to a further list of entries.
/// - `EmptyName`: if the name is empty.
/// - `BadInfo`: if there is this info block, but its offset is before the end of the entries or
///   after the end of the file.
/// - `BadOffset`: if the offset of the data of this entry is bad in the same way. It is the first
///   entry with a bad offset.
#[tactic(auto, using(crate::proofs::FaultLaws::truncated_first, crate::proofs::FaultLaws::chained_first, crate::proofs::FaultLaws::unnamed_first, crate::proofs::FaultLaws::app_first, crate::proofs::FaultLaws::sort_first, crate::proofs::FaultLaws::first_of_entries, crate::proofs::FaultLaws::no_fault))]
pub fn check_bytes<B: FileBytes>(file: &B) -> Result<(), FileFault>
    ensures sound { OnOk result (HasNoFault (B.bytes file.now)) }
    ensures first { IfErr result (IsFirstFault (B.bytes file.now)) }
{
    if is_truncated(file) {
        return Err(FileFault::Truncated);
    }
    if next_list(file) != 0 {
        return Err(FileFault::ChainedList);
    }
    if name_in(file).is_empty() {
        return Err(FileFault::EmptyName);
    }
    if is_bad_info(file, app_info(file)) {
        return Err(FileFault::BadInfo(Which::App));
    }
    if is_bad_info(file, sort_info(file)) {
        return Err(FileFault::BadInfo(Which::Sort));
    }
    match find_bad_offset(file) {
        Some(index) => Err(FileFault::BadOffset(index as u32)),
        None => Ok(()),
    }
}

/// The same as `check_bytes`, for all bytes of a file.
///
/// # Errors
///
/// The same as those of `check_bytes`.
pub fn check_file(file: &[u8]) -> Result<(), FileFault>
    ensures sound { OnOk result (HasNoFault file.now) }
    ensures first { IfErr result (IsFirstFault file.now) }
{
    check_bytes(&file)
}
