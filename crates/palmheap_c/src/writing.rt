//! Files that are put together from values and data of the caller.

ghost use Rattle.std.specs.Prelude.{[], ◌∷◌, ◌++◌, ◌≡◌, ◌≤◌, ◌⊎◌, ℕ, List, drop, length, map, true, IfErr, IfOk, IfSome, IsNone, OnErr, OnOk};
ghost use Rattle.std.specs.List.{AllPass, list_all};
ghost use Rattle.allowance.specs.Refusals.{GrowthRefused};
ghost use Rattle.db_format.specs.Headers.{header_values};
ghost use Rattle.heap_model.specs.Bytes.{AreBytes};
ghost use Rattle.heap_model.specs.Database.{IsDatabaseName, has_resources};
ghost use Rattle.canonical_file.specs.Canonical.{most_bytes};
ghost use Rattle.pdb_format.specs.Writable.{IsWritableEntry};
ghost use Rattle.file_parts.specs.ExactListed.{IsListedExact, exact_listed};
ghost use Rattle.file_parts.specs.Listed.{IsListed, database_listed};
ghost use Rattle.file_parts.specs.Values.{valued};
ghost use Rattle.palmheap_c.specs.Answers.{IsMemoryAnswer, no_file};
ghost use Rattle.palmheap_c.specs.Buffers.{buffer};
ghost use Rattle.palmheap_c.specs.FileEntries as entries;
ghost use Rattle.palmheap_c.specs.Writing as words;

use crate::answers::{Answer, NO_FILE, NO_MEMORY, TOO_LARGE};
use crate::blocks::Block;
use crate::buffers::put_bytes;
use crate::file_entries::FileEntry;
use crate::infos::DatabaseInfo;
use allowance::{copied, push};
use db_format::{DbAttrs, DbEntry, DbHeader, NameField, RecordAttrs, RecordEntry, ResourceEntry};
use file_parts::{
    Listed, ListedExact, PackFault, ValueFault, list_entry, list_exact, list_header, pack_exact,
};
use heap_model::Bytes;
use std::alloc::{AllocError, Global};

/// What a file is put together from.
#[derive(Clone, Copy)]
pub(crate) struct Given<'a> {
    pub(crate) bytes: &'a [u8],
    pub(crate) header: &'a DatabaseInfo,
    pub(crate) app: Block,
    pub(crate) sort: Block,
    pub(crate) entries: &'a [FileEntry],
    pub(crate) filler: &'a [u8],
    pub(crate) order: &'a [u32],
}

/// Writes the file of these values into a buffer. They have the form of `palmheap_pdb_read`, with
/// places in `bytes`. The bytes of the name's field after the name are written as they are. `filler`
/// comes before the first block. The blocks with the ranks in `order` come first, and then the others
/// in list order. Sets `count` to the size of the file in bytes, also if the buffer is too short for
/// it.
#[unsafe(no_mangle)]
pub extern "C" fn palmheap_pdb_write(
    alloc: Global,
    bytes: &[u8],
    header: &DatabaseInfo,
    app: &Block,
    sort: &Block,
    entries: &[FileEntry],
    filler: &[u8],
    order: &[u32],
    file: &mut [u8],
    count: &mut usize,
) -> Answer
    ensures answer { words.IsWriteAnswer
        (words.given bytes.now header.now app.now sort.now entries.now filler.now order.now)
        (buffer file.old count.old) (buffer file.new count.new) result }
    ensures back { (read : List ℕ) → AreBytes read → length read ≤ most_bytes → words.IsReadOf read
        (words.given bytes.now header.now app.now sort.now entries.now filler.now order.now)
        → words.IsWrittenBack read (buffer file.old count.old) (buffer file.new count.new) result }
{
    let given = Given {
        bytes,
        header,
        app: *app,
        sort: *sort,
        entries,
        filler,
        order,
    };
    put_file(alloc, &given, file, count)
}

/// Writes the file of these values into a buffer.
fn put_file(alloc: Global, given: &Given<'_>, file: &mut [u8], count: &mut usize) -> Answer
    ensures { words.IsWriteAnswer (words.given_by given.now)
        (buffer file.old count.old) (buffer file.new count.new) result }
{
    match file_of(alloc, given) {
        Ok(bytes) => put_bytes(&bytes, file, count),
        Err(answer) => answer,
    }
}

/// Returns the file of these values.
fn file_of(alloc: Global, given: &Given<'_>) -> Result<Vec<u8>, Answer>
    ensures ok { IfOk result (λ bytes. words.IsFileOf (words.given_by given.now) bytes.items) }
    ensures err { IfErr result (words.IsWriteRefusal (words.given_by given.now)) }
{
    let listed = match listed_of(alloc, given) {
        Ok(listed) => listed,
        Err(answer) => return Err(answer),
    };
    if !are_inside(given) {
        return Err(NO_FILE);
    }
    match exact_of(alloc, given, listed) {
        Ok(exact) => packed(alloc, given, exact),
        Err(answer) => Err(answer),
    }
}

/// Returns whether each block that is there lies within the data.
fn are_inside(given: &Given<'_>) -> bool
    ensures { result ≡ words.are_inside (words.given_by given.now) }
{
    let size = given.bytes.len();
    is_inside(size, given.app) && is_inside(size, given.sort) && have_places(size, given.entries)
}

/// Returns the header of a database without info blocks and entries.
fn header_of(info: &DatabaseInfo) -> Option<DbHeader>
    ensures some { IfSome result (λ header. header_values header ≡ words.header_from_c info.now) }
    ensures none { IsNone result → IsDatabaseName (words.name_from_c info.now) → ⊥ }
{
    let length = info.name.len().min(info.name_length as usize);
    let Some(name) = NameField::of_name(&info.name[..length]) else {
        return None;
    };
    Some(DbHeader {
        name,
        attributes: info.attributes,
        version: info.version,
        creation_date: info.creation_date,
        modification_date: info.modification_date,
        backup_date: info.backup_date,
        modification_number: info.modification_number,
        app_info: 0,
        sort_info: 0,
        kind: info.kind,
        creator: info.creator,
        seed: info.seed,
        entry_count: 0,
    })
}

/// Returns the entry of a file, without the offset of its data.
fn entry_of(resources: bool, entry: &FileEntry) -> Option<DbEntry>
    ensures some { IfSome result (λ found.
        valued found entry.now.has_data ≡ words.named_entry resources entry.now) }
    ensures none { IsNone result
        → IsWritableEntry resources (words.named_entry resources entry.now) → ⊥ }
{
    if !resources {
        return Some(DbEntry::Record(RecordEntry {
            attributes: RecordAttrs(entry.attributes),
            id: entry.id,
            slot: 0,
        }));
    }
    match u16::try_from(entry.id) {
        Ok(id) => Some(DbEntry::Resource(ResourceEntry {
            kind: entry.kind,
            id,
            slot: 0,
        })),
        Err(_) => None,
    }
}

/// Adds an entry to a database.
fn add_entry(
    alloc: Global,
    listed: &mut Listed<'static>,
    resources: bool,
    entry: &FileEntry,
) -> Result<(), Answer>
    requires good { IsListed listed.old }
    requires kind { resources ≡ has_resources (database_listed listed.old).header.attributes }
    ensures good { IsListed listed.new }
    ensures added { OnOk result (database_listed listed.new
        ≡ words.with_named (database_listed listed.old) resources entry.now) }
    ensures err { IfErr result (λ answer. IsMemoryAnswer answer
        ⊎ ((answer ≡ no_file) × words.IsRefusedEntry resources (length (database_listed listed.old).entries) entry.now)) }
{
    let Some(found) = entry_of(resources, entry) else {
        return Err(NO_FILE);
    };
    match list_entry(&alloc, listed, found, entry.has_data) {
        Ok(()) => Ok(()),
        Err(ValueFault::NoFile) => Err(NO_FILE),
        Err(ValueFault::OutOfMemory) => Err(NO_MEMORY),
    }
}

/// Adds entries to a database that has none.
fn add_entries(
    alloc: Global,
    listed: &mut Listed<'static>,
    resources: bool,
    entries: &[FileEntry],
) -> Result<(), Answer>
    requires good { IsListed listed.old }
    requires kind { resources ≡ has_resources (database_listed listed.old).header.attributes }
    requires none { (database_listed listed.old).entries ≡ [] }
    ensures good { IsListed listed.new }
    ensures added { OnOk result (database_listed listed.new
        ≡ words.with_all (database_listed listed.old) resources entries.now) }
    ensures err { IfErr result (λ answer. IsMemoryAnswer answer
        ⊎ ((answer ≡ no_file) × words.HasRefusedEntry resources entries.now)) }
{
    for entry in entries {
        match add_entry(alloc, listed, resources, entry) {
            Ok(()) => {}
            Err(answer) => return Err(answer),
        }
    }
    Ok(())
}

/// Returns the database of these values, without its data.
fn listed_of(alloc: Global, given: &Given<'_>) -> Result<Listed<'static>, Answer>
    ensures good { IfOk result IsListed }
    ensures database { IfOk result (λ listed.
        database_listed listed ≡ words.named_database (words.given_by given.now)) }
    ensures err { IfErr result (words.IsWriteRefusal (words.given_by given.now)) }
{
    let Some(header) = header_of(given.header) else {
        return Err(NO_FILE);
    };
    let resources = DbAttrs(header.attributes).has_resources();
    let mut listed = list_header(&alloc, header, given.app.is_there, given.sort.is_there);
    match add_entries(alloc, &mut listed, resources, given.entries) {
        Ok(()) => Ok(listed),
        Err(answer) => Err(answer),
    }
}

/// Returns the place of an entry's data.
fn data_of(entry: &FileEntry) -> Block
    ensures { result ≡ entries.place_of_data entry.now }
{
    Block {
        start: entry.start,
        end: entry.end,
        is_there: entry.has_data,
    }
}

/// Returns whether a block is not there, or lies within the first `size` bytes.
fn is_inside(size: usize, block: Block) -> bool
    ensures { result ≡ words.is_inside size block }
{
    !block.is_there || (block.start <= block.end && block.end <= size)
}

/// Returns whether the data of each entry lies within the first `size` bytes.
fn have_places(size: usize, entries: &[FileEntry]) -> bool
    ensures { result ≡ list_all (words.has_data_inside size) entries.now }
{
    for entry in entries {
        if !is_inside(size, data_of(entry)) {
            return false;
        }
    }
    true
}

/// Returns the bytes of a block, and none if it is not there.
fn bytes_at<'a>(bytes: &'a [u8], block: Block) -> &'a [u8]
    requires { words.is_inside (length bytes.now) block ≡ true }
    ensures { result.now ≡ words.block_from_c bytes.now block }
{
    if block.is_there {
        &bytes[block.start..block.end]
    } else {
        &[]
    }
}

/// Appends a copy of some bytes to the parts.
fn add_part(alloc: Global, parts: &mut Vec<Bytes>, bytes: &[u8]) -> Result<(), AllocError>
    ensures items { OnOk result (parts.new.items ≡ parts.old.items ++ (bytes.now ∷ [])) }
    ensures short { OnErr result GrowthRefused }
{
    push(&alloc, parts, Bytes::of(copied(&alloc, bytes)?))
}

/// Appends a copy of the data of each entry to the parts.
fn add_parts(
    alloc: Global,
    parts: &mut Vec<Bytes>,
    bytes: &[u8],
    entries: &[FileEntry],
) -> Result<(), AllocError>
    requires { AllPass (words.has_data_inside (length bytes.now)) entries.now }
    ensures items { OnOk result (parts.new.items
        ≡ parts.old.items ++ map (words.part_from_c bytes.now) entries.now) }
    ensures short { OnErr result GrowthRefused }
{
    for entry in entries {
        add_part(alloc, parts, bytes_at(bytes, data_of(entry)))?;
    }
    Ok(())
}

/// Returns copies of the blocks by their ranks, and of the filler.
#[tactic(auto, using(crate::proofs::WriteLaws::app_inside, crate::proofs::WriteLaws::sort_inside, crate::proofs::WriteLaws::all_inside))]
fn parts_of(alloc: Global, given: &Given<'_>) -> Result<Vec<Bytes>, AllocError>
    requires { words.are_inside (words.given_by given.now) ≡ true }
    ensures parts { IfOk result (λ parts. parts.items ≡ words.parts_from_c (words.given_by given.now)) }
    ensures short { OnErr result GrowthRefused }
{
    let mut parts = Vec::new(alloc);
    add_part(alloc, &mut parts, bytes_at(given.bytes, given.app))?;
    add_part(alloc, &mut parts, bytes_at(given.bytes, given.sort))?;
    add_parts(alloc, &mut parts, given.bytes, given.entries)?;
    add_part(alloc, &mut parts, given.filler)?;
    Ok(parts)
}

/// Returns the bytes of the name's field after the name.
fn after_name<'a>(info: &'a DatabaseInfo) -> &'a [u8]
    ensures { result.now ≡ drop info.now.name_length info.now.name }
{
    let length = info.name.len().min(info.name_length as usize);
    &info.name[length..]
}

/// Returns the file of a database with these values, before its parts are known.
fn exact_of<'a>(
    alloc: Global,
    given: &Given<'a>,
    listed: Listed<'a>,
) -> Result<ListedExact<'a>, Answer>
    requires good { IsListed listed }
    requires database { database_listed listed ≡ words.named_database (words.given_by given.now) }
    ensures text { IfOk result (λ exact. exact_listed exact ≡ words.text_from_c (words.given_by given.now)) }
    ensures good { IfOk result IsListedExact }
    ensures err { IfErr result (words.IsWriteRefusal (words.given_by given.now)) }
{
    match list_exact(&alloc, listed, after_name(given.header), given.order) {
        Ok(exact) => Ok(exact),
        Err(ValueFault::NoFile) => Err(NO_FILE),
        Err(ValueFault::OutOfMemory) => Err(NO_MEMORY),
    }
}

/// Puts the parts together.
#[tactic(auto, using(crate::proofs::WriteLaws::has_parts, crate::proofs::WriteLaws::file_from_c, crate::proofs::WriteLaws::too_long, crate::proofs::WriteLaws::misplaced))]
fn packed(alloc: Global, given: &Given<'_>, exact: ListedExact<'_>) -> Result<Vec<u8>, Answer>
    requires inside { words.are_inside (words.given_by given.now) ≡ true }
    requires text { exact_listed exact ≡ words.text_from_c (words.given_by given.now) }
    requires good { IsListedExact exact }
    ensures ok { IfOk result (λ bytes. words.IsFileOf (words.given_by given.now) bytes.items) }
    ensures err { IfErr result (words.IsWriteRefusal (words.given_by given.now)) }
{
    let Ok(parts) = parts_of(alloc, given) else {
        return Err(NO_MEMORY);
    };
    match pack_exact(&alloc, &exact, &parts) {
        Ok(bytes) => Ok(bytes),
        Err(PackFault::TooLarge) => Err(TOO_LARGE),
        Err(PackFault::BadLine(_)) => Err(NO_FILE),
        Err(PackFault::OutOfMemory) => Err(NO_MEMORY),
    }
}
