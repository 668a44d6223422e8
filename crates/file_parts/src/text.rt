//! The text `database`.

ghost use Rattle.std.specs.Prelude.{◌≡◌, ◌<◌, ◌++◌, ℕ, List, Option, None, codes, is_ok, slice_index_or};
ghost use Rattle.heap_model.specs.Database.{Database, entry_count_in, entry_with};
ghost use Rattle.heap_model.specs.Files.{Reads, blocks_in};
ghost use Rattle.db_format.specs.Headers.{header_values};
ghost use Rattle.db_format.specs.EitherEntry.{entry_of};
ghost use Rattle.palm_text.specs.Counted.{Writes};
ghost use Rattle.pdb_format.specs.ReadFiles.{HasIdsFor, entries_read};
ghost use Rattle.pdb_format.specs.Blocks.{bytes_at};
ghost use Rattle.file_parts.specs.Texts.{app_name, database_text, entry_lines, entry_name, entry_values, header_lines};
ghost use Rattle.file_parts.specs.Texts.{info_line, name_if_data, named_entries, part_text, sort_name, with_names};
ghost use Rattle.file_parts.specs.Unpacking.{IsUnpacked, database_of, line_at};

use crate::unpacked::Unpacked;
use db_format::{DbEntry, DbHeader, INFO_BLOCKS};
use palm_text::{Counted, Piece, WriteFault, put_pieces};
use pdb_format::{Block, PdbFile};
use std::io::Write;

/// Writes the lines of the values of a header.
pub(crate) fn put_header<'a, W: Write>(
    out: &mut Counted<W>,
    header: &'a DbHeader,
) -> Result<(), WriteFault>
    ensures { Writes W.contents out.old out.new (header_lines (header_values header.now)) (is_ok result) }
{
    put_pieces(
        out,
        &[
            Piece::Text(b"name "),
            Piece::Spelled(header.name.name()),
            Piece::Text(b"\nattributes "),
            Piece::Hex16(header.attributes),
            Piece::Text(b"\nversion "),
            Piece::Number(u32::from(header.version)),
            Piece::Text(b"\ncreated "),
            Piece::Number(header.creation_date),
            Piece::Text(b"\nmodified "),
            Piece::Number(header.modification_date),
            Piece::Text(b"\nbackup "),
            Piece::Number(header.backup_date),
            Piece::Text(b"\nnumber "),
            Piece::Number(header.modification_number),
            Piece::Text(b"\ntype "),
            Piece::FourBytes(header.kind),
            Piece::Text(b"\ncreator "),
            Piece::FourBytes(header.creator),
            Piece::Text(b"\nseed "),
            Piece::Hex32(header.seed),
            Piece::Text(b"\n"),
        ],
    )
}

/// Writes the line of an info block. The line's word is also the name of its part.
fn put_info<W: Write>(
    out: &mut Counted<W>,
    word: &[u8],
    block: Option<Block>,
) -> Result<(), WriteFault>
    ensures { (file : List ℕ) → Writes W.contents out.old out.new
        (info_line word.now (name_if_data word.now (bytes_at file block))) (is_ok result) }
{
    match block {
        None => put_pieces(out, &[Piece::Text(word), Piece::Text(b" none\n")]),
        Some(_) => put_pieces(
            out,
            &[
                Piece::Text(word),
                Piece::Text(b" "),
                Piece::Text(word),
                Piece::Text(b"\n"),
            ],
        ),
    }
}

/// Writes the kind of an entry, and its values.
pub(crate) fn put_values<W: Write>(out: &mut Counted<W>, entry: DbEntry) -> Result<(), WriteFault>
    ensures { (part : Option (List ℕ)) → Writes W.contents out.old out.new
        (entry_values (entry_with (λ _. part) (entry_of entry))) (is_ok result) }
{
    match entry {
        DbEntry::Record(record) => put_pieces(
            out,
            &[
                Piece::Text(b"record "),
                Piece::Hex8(record.attributes.0),
                Piece::Text(b" "),
                Piece::Number(record.id),
            ],
        ),
        DbEntry::Resource(resource) => put_pieces(
            out,
            &[
                Piece::Text(b"resource "),
                Piece::FourBytes(resource.kind),
                Piece::Text(b" "),
                Piece::Number(u32::from(resource.id)),
            ],
        ),
    }
}

/// Writes the end of the line of an entry: the name of its part.
pub(crate) fn put_part<W: Write>(
    out: &mut Counted<W>,
    index: u16,
    block: Option<Block>,
) -> Result<(), WriteFault>
    ensures { (file : List ℕ) → Writes W.contents out.old out.new
        (part_text (name_if_data (entry_name index) (bytes_at file block))) (is_ok result) }
{
    let index = u32::from(index);
    match block {
        None => put_pieces(out, &[Piece::Text(b" none\n")]),
        Some(_) => put_pieces(
            out,
            &[
                Piece::Text(b" "),
                Piece::Number(index / 10_000),
                Piece::Number(index / 1_000 % 10),
                Piece::Number(index / 100 % 10),
                Piece::Number(index / 10 % 10),
                Piece::Number(index % 10),
                Piece::Text(b"\n"),
            ],
        ),
    }
}

/// Writes the line of the entry at an index.
fn put_entry<W: Write>(
    out: &mut Counted<W>,
    file: &PdbFile<'_>,
    ids: &[u32],
    index: u16,
) -> Result<(), WriteFault>
    requires ids { HasIdsFor file.now ids.now }
    requires inside { index < entry_count_in file.now }
    ensures { Writes W.contents out.old out.new (line_at file.now ids.now index) (is_ok result) }
{
    let block = file.block(INFO_BLOCKS + index as usize);
    match put_values(out, file.written_entry(index, ids, 0)) {
        Ok(()) => put_part(out, index, block),
        Err(fault) => Err(fault),
    }
}

/// Writes the lines of all entries.
fn put_entries<W: Write>(
    out: &mut Counted<W>,
    file: &PdbFile<'_>,
    ids: &[u32],
) -> Result<(), WriteFault>
    requires { HasIdsFor file.now ids.now }
    ensures { Writes W.contents out.old out.new
        (entry_lines (named_entries 0 (entries_read file.now ids.now))) (is_ok result) }
{
    for index in 0..file.entry_count() {
        match put_entry(out, file, ids, index) {
            Ok(()) => {}
            Err(fault) => return Err(fault),
        }
    }
    Ok(())
}

/// Writes the line of the AppInfo block.
fn put_app<W: Write>(out: &mut Counted<W>, file: &PdbFile<'_>) -> Result<(), WriteFault>
    ensures { Writes W.contents out.old out.new
        (info_line (codes "app") (name_if_data app_name (slice_index_or (blocks_in file.now) 0 None))) (is_ok result) }
{
    put_info(out, b"app", file.block(0))
}

/// Writes the line of the SortInfo block.
fn put_sort<W: Write>(out: &mut Counted<W>, file: &PdbFile<'_>) -> Result<(), WriteFault>
    ensures { Writes W.contents out.old out.new
        (info_line (codes "sort") (name_if_data sort_name (slice_index_or (blocks_in file.now) 1 None))) (is_ok result) }
{
    put_info(out, b"sort", file.block(1))
}

/// Writes the lines of the info blocks.
pub(crate) fn put_infos<W: Write>(
    out: &mut Counted<W>,
    file: &PdbFile<'_>,
) -> Result<(), WriteFault>
    ensures { Writes W.contents out.old out.new (info_line (codes "app")
        (name_if_data app_name (slice_index_or (blocks_in file.now) 0 None))
        ++ info_line (codes "sort") (name_if_data sort_name (slice_index_or (blocks_in file.now) 1 None)))
        (is_ok result) }
{
    match put_app(out, file) {
        Ok(()) => put_sort(out, file),
        Err(fault) => Err(fault),
    }
}

/// Writes the lines after those of the header.
fn put_body<W: Write>(
    out: &mut Counted<W>,
    file: &PdbFile<'_>,
    ids: &[u32],
) -> Result<(), WriteFault>
    requires { HasIdsFor file.now ids.now }
    ensures { Writes W.contents out.old out.new ((info_line (codes "app")
        (name_if_data app_name (slice_index_or (blocks_in file.now) 0 None))
        ++ info_line (codes "sort") (name_if_data sort_name (slice_index_or (blocks_in file.now) 1 None)))
        ++ entry_lines (named_entries 0 (entries_read file.now ids.now))) (is_ok result) }
{
    match put_infos(out, file) {
        Ok(()) => put_entries(out, file, ids),
        Err(fault) => Err(fault),
    }
}

/// Writes the text of the database that is read from a file, with the names of its parts.
fn put_text<W: Write>(out: &mut Counted<W>, unpacked: &Unpacked<'_>) -> Result<(), WriteFault>
    requires { IsUnpacked unpacked.now }
    ensures { Writes W.contents out.old out.new
        (database_text (with_names (database_of unpacked.now))) (is_ok result) }
{
    let file = &unpacked.file;
    let header = file.header_with_seed(unpacked.given.seed);
    match put_header(out, &header) {
        Ok(()) => put_body(out, file, unpacked.given.ids.as_slice()),
        Err(fault) => Err(fault),
    }
}

/// Writes the text `database` of a file that was taken apart.
///
/// It doesn't flush `out`, and allocates nothing. After a write fails, it writes nothing more.
///
/// # Errors
///
/// - `WriteFault`: if a write failed, or took 0 bytes.
pub fn put_database<W: Write>(
    out: &mut Counted<W>,
    unpacked: &Unpacked<'_>,
) -> Result<(), WriteFault>
    requires { IsUnpacked unpacked.now }
    ensures { (database : Database (Option (List ℕ))) → Reads unpacked.now.file database
        → Writes W.contents out.old out.new (database_text (with_names database)) (is_ok result) }
{
    unpacked.file.know_file();
    put_text(out, unpacked)
}
