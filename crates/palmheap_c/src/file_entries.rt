//! The header and the entries of a PDB or PRC file, as structures.

ghost use Rattle.std.specs.Prelude.{◌≡◌, ◌≤◌, ◌<◌, ◌+◌, drop, length, take};
ghost use Rattle.db_format.specs.EitherEntry.{entry_of};
ghost use Rattle.heap_model.specs.Database.{entry_count_in};
ghost use Rattle.heap_model.specs.Lists.{numbered};
ghost use Rattle.palmheap_c.specs.FileEntries as words;

use crate::answers::{Answer, NO_FAULT, NO_MEMORY, NO_ROOM, of_file};
use crate::blocks::Block;
use crate::infos::{DatabaseInfo, of_database};
use db_format::DbEntry;
use pdb_format::{OpenFault, PdbFile};
use std::alloc::Global;

/// The entry of a record or a resource in a file, with the place of its data: from `start` up to
/// `end`, in bytes from the file's start, if `has_data`. A record has no type, so its `kind` is 0. A
/// resource has no attributes, so they are 0.
#[repr(C)]
#[derive(Clone, Copy, Debug, PartialEq, Eq)]
pub struct FileEntry {
    pub start: usize,
    pub end: usize,
    pub kind: u32,
    pub id: u32,
    pub attributes: u8,
    pub has_data: bool,
}

/// Reads the header of a file, the places of its AppInfo and SortInfo blocks, and its entries with
/// the places of their data. Sets `count` to the number of the entries, also if `entries` is too
/// short for them. The header's name ends before its first zero byte.
#[unsafe(no_mangle)]
pub extern "C" fn palmheap_pdb_read(
    alloc: Global,
    file: &[u8],
    header: &mut DatabaseInfo,
    app: &mut Block,
    sort: &mut Block,
    entries: &mut [FileEntry],
    count: &mut usize,
) -> Answer
    ensures { words.IsReadAnswer file.now
        (words.outputs header.old app.old sort.old entries.old count.old)
        (words.outputs header.new app.new sort.new entries.new count.new) result }
{
    let opened = match PdbFile::open(&alloc, file) {
        Ok(opened) => opened,
        Err(OpenFault::BadFile(fault)) => return of_file(fault),
        Err(OpenFault::OutOfMemory) => return NO_MEMORY,
    };
    *count = opened.entry_count() as usize;
    if entries.len() < *count {
        return NO_ROOM;
    }
    *header = of_database(&opened.header().info());
    *app = block_at(&opened, 0);
    *sort = block_at(&opened, 1);
    put_entries(entries, &opened);
    opened.know_file();
    NO_FAULT
}

/// Returns the place of the block of a rank.
fn block_at(file: &PdbFile<'_>, rank: usize) -> Block
    requires { rank < 2 + entry_count_in file.now }
    ensures { result ≡ words.place_of_rank file.now rank }
{
    match file.block(rank) {
        Some(block) => Block {
            start: block.start,
            end: block.end,
            is_there: true,
        },
        None => Block {
            start: 0,
            end: 0,
            is_there: false,
        },
    }
}

/// Writes the entries of a file to the start of `to`.
fn put_entries(to: &mut [FileEntry], file: &PdbFile<'_>)
    requires { entry_count_in file.now ≤ length to.old }
    ensures read { take (entry_count_in file.now) to.new
        ≡ numbered (words.file_entry_at file.now) (entry_count_in file.now) }
    ensures others { drop (entry_count_in file.now) to.new ≡ drop (entry_count_in file.now) to.old }
{
    for index in 0..file.entry_count() {
        to[index as usize] = entry_at(file, index);
    }
}

/// Returns the entry at an index.
fn entry_at(file: &PdbFile<'_>, index: u16) -> FileEntry
    requires { index < entry_count_in file.now }
    ensures { result ≡ words.file_entry_at file.now index }
{
    with_block(file.entry(index), block_at(file, 2 + index as usize))
}

/// Returns an entry with the place of its data.
fn with_block(entry: DbEntry, block: Block) -> FileEntry
    ensures { result ≡ words.entry_in_c (entry_of entry) block }
{
    let (kind, id, attributes) = match entry {
        DbEntry::Record(record) => (0, record.id, record.attributes.0),
        DbEntry::Resource(resource) => (resource.kind, u32::from(resource.id), 0),
    };
    FileEntry {
        start: block.start,
        end: block.end,
        kind,
        id,
        attributes,
        has_data: block.is_there,
    }
}
