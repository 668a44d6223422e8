//! The offsets of a database's blocks in its file, and the length of the file.

ghost use Rattle.std.specs.Prelude.{◌≡◌, ◌<◌, ◌^◌, length};
ghost use Rattle.heap_model.specs.Meaning.{ChunkMap};
ghost use Rattle.heap_model.specs.Store.{bytes_named};
ghost use Rattle.heap_model.specs.Files as files;
ghost use Rattle.pdb_files.specs.FileParts.{block_under, content_of, MayBeRead, IsExportable, ArePlaces};

use db_format::{app_info, entry_count, entry_slot, has_resources, sort_info};
use heap_model::Name;
use palm_store::Store;
use pdb_format::first_place_after;

/// The offsets of the info blocks in a file, 0 for an absent block, and the offset where the data
/// of the entries begins.
#[derive(Clone, Copy)]
pub(crate) struct Places {
    pub(crate) app_info: u32,
    pub(crate) sort_info: u32,
    pub(crate) data: u32,
}

/// Returns the block that a slot stands for. If there is none, it has no bytes.
#[inline]
pub(crate) fn block(store: &Store, slot: u32) -> &[u8]
    requires { MayBeRead store.now slot }
    ensures { result.now ≡ files.block_bytes (block_under store.now.bytes slot) }
{
    if slot == 0 {
        &[]
    } else {
        store.chunk_bytes(Name(slot))
    }
}

/// Returns how many bytes a slot's block has.
#[inline]
pub(crate) fn block_size(store: &Store, slot: u32) -> u32
    requires own { MayBeRead store.now slot }
    requires short { files.block_size (block_under store.now.bytes slot) < 2 ^ 32 }
    ensures { result ≡ files.block_size (block_under store.now.bytes slot) }
{
    block(store, slot).len() as u32
}

/// Returns the offset `at` of a slot's block, or 0 if the slot stands for none.
#[inline]
pub(crate) fn block_offset(at: u32, slot: u32) -> u32
    ensures { (chunks : ChunkMap) → result ≡ files.block_offset at (bytes_named chunks slot) }
{
    if slot == 0 { 0 } else { at }
}

/// Returns the offset of the first block in the file of a database.
fn first_block(store: &Store, bytes: &[u8]) -> u32
    requires { IsExportable store.now bytes.now }
    ensures { result ≡ files.first_block (content_of store.now.bytes bytes.now) }
{
    first_place_after(has_resources(bytes), entry_count(bytes))
}

/// Finds the offsets of the blocks in the file of a database, given by its bytes.
pub(crate) fn find_places(store: &Store, bytes: &[u8]) -> Places
    requires { IsExportable store.now bytes.now }
    ensures { ArePlaces (content_of store.now.bytes bytes.now) result }
{
    let app_at = first_block(store, bytes);
    let app_info = app_info(bytes);
    let sort_at = app_at + block_size(store, app_info);
    let sort_info = sort_info(bytes);
    Places {
        app_info: block_offset(app_at, app_info),
        sort_info: block_offset(sort_at, sort_info),
        data: sort_at + block_size(store, sort_info),
    }
}

/// Returns how many bytes the file of a database has. The database is given by its bytes.
pub(crate) fn file_size(store: &Store, bytes: &[u8]) -> u32
    requires { IsExportable store.now bytes.now }
    ensures { result ≡ length (files.file_of (content_of store.now.bytes bytes.now)) }
{
    let resources = has_resources(bytes);
    let mut size = find_places(store, bytes).data;
    for index in 0..entry_count(bytes) {
        size += block_size(store, entry_slot(bytes, resources, index));
    }
    size
}
