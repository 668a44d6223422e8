//! The parts of a file, in their order.

ghost use Rattle.std.specs.Prelude.{◌≡◌, ◌+◌, ◌<◌, ◌^◌, is_ok, length};
ghost use Rattle.std.specs.List.{flat_map};
ghost use Rattle.palm_text.specs.Counted.{Writes};
ghost use Rattle.heap_model.specs.Meaning.{ChunkMap};
ghost use Rattle.heap_model.specs.Database.{HasShape, data_in};
ghost use Rattle.heap_model.specs.Files.{block_bytes, file_of};
ghost use Rattle.db_format.specs.EitherEntry.{entry_of, HasFittingId};
ghost use Rattle.pdb_format.specs.FileTexts.{header_text, entries_text, data_text};
ghost use Rattle.pdb_files.specs.FileParts.{content_of, NamesReadableData, IsExportable, ArePlaces, file_entry};

use crate::exporting::places::{Places, block, block_offset, block_size, find_places};
use db_format::{DbEntry, DbHeader, app_info, entry_count, entry_slot, has_resources, sort_info};
use palm_store::Store;
use palm_text::{Counted, WriteFault, put_all};
use pdb_format::{FILLER, idle_entry_at};
use std::io::Write;

/// Writes the file of a database, given by its bytes.
pub(crate) fn put_file<W: Write>(
    store: &Store,
    bytes: &[u8],
    out: &mut Counted<W>,
) -> Result<(), WriteFault>
    requires { IsExportable store.now bytes.now }
    ensures { Writes W.contents out.old out.new
        (file_of (content_of store.now.bytes bytes.now)) (is_ok result) }
{
    let places = find_places(store, bytes);
    put_header(store, bytes, places, out)?;
    put_entries(store, bytes, places.data, out)?;
    put_all(out, &FILLER)?;
    put_blocks(store, bytes, out)
}

/// Writes the header.
fn put_header<W: Write>(
    store: &Store,
    bytes: &[u8],
    places: Places,
    out: &mut Counted<W>,
) -> Result<(), WriteFault>
    requires shape { HasShape bytes.now }
    requires places { ArePlaces (content_of store.now.bytes bytes.now) places }
    ensures { Writes W.contents out.old out.new
        (header_text (content_of store.now.bytes bytes.now)) (is_ok result) }
{
    let mut header = DbHeader::read(bytes);
    header.app_info = places.app_info;
    header.sort_info = places.sort_info;
    put_all(out, &header.to_bytes())
}

/// Writes the entries. Their data begins at the offset `first`.
fn put_entries<W: Write>(
    store: &Store,
    bytes: &[u8],
    first: u32,
    out: &mut Counted<W>,
) -> Result<(), WriteFault>
    requires shape { HasShape bytes.now }
    requires names { NamesReadableData store.now bytes.now }
    requires short { first + length (data_text (content_of store.now.bytes bytes.now).entries)
        < 2 ^ 32 }
    ensures { Writes W.contents out.old out.new
        (entries_text first (content_of store.now.bytes bytes.now).entries) (is_ok result) }
{
    let mut at = first;
    for index in 0..entry_count(bytes) {
        let entry = DbEntry::read(bytes, index);
        let size = block_size(store, entry.slot());
        put_all(out, in_file(entry, at).to_bytes().as_slice())?;
        at += size;
    }
    Ok(())
}

/// Returns an entry as its file has it: no record is busy, and its data is at the offset `at`.
fn in_file(entry: DbEntry, at: u32) -> DbEntry
    requires { HasFittingId entry }
    ensures is { (chunks : ChunkMap) → entry_of result ≡ file_entry chunks at (entry_of entry) }
    ensures id { HasFittingId result }
{
    idle_entry_at(entry, block_offset(at, entry.slot()))
}

/// Writes the blocks.
fn put_blocks<W: Write>(store: &Store, bytes: &[u8], out: &mut Counted<W>) -> Result<(), WriteFault>
    requires shape { HasShape bytes.now }
    requires names { NamesReadableData store.now bytes.now }
    ensures { Writes W.contents out.old out.new
        (flat_map block_bytes (data_in (content_of store.now.bytes bytes.now))) (is_ok result) }
{
    put_all(out, block(store, app_info(bytes)))?;
    put_all(out, block(store, sort_info(bytes)))?;
    put_data(store, bytes, out)
}

/// Writes the data of the entries.
fn put_data<W: Write>(store: &Store, bytes: &[u8], out: &mut Counted<W>) -> Result<(), WriteFault>
    requires shape { HasShape bytes.now }
    requires names { NamesReadableData store.now bytes.now }
    ensures { Writes W.contents out.old out.new
        (data_text (content_of store.now.bytes bytes.now).entries) (is_ok result) }
{
    let resources = has_resources(bytes);
    for index in 0..entry_count(bytes) {
        put_all(out, block(store, entry_slot(bytes, resources, index)))?;
    }
    Ok(())
}
