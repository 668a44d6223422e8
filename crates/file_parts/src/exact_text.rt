//! The text `database` of an exact folder.

ghost use Rattle.std.specs.Prelude.{◌≡◌, ◌<◌, ◌≤◌, ◌-◌, ◌++◌, is_ok, length, drop, nat_lt, slice_index, take};
ghost use Rattle.heap_model.specs.DatabaseFields.{name_size};
ghost use Rattle.heap_model.specs.Database.{IsDatabaseName, entry_count_in, name_in};
ghost use Rattle.palm_text.specs.Counted.{Writes};
ghost use Rattle.palm_text.specs.Pieces.{piece_text};
ghost use Rattle.file_parts.specs.Texts.{body_lines, database_text, entry_lines, with_names};
ghost use Rattle.file_parts.specs.Exact as files;
ghost use Rattle.file_parts.specs.Exact.{exact_database};
ghost use Rattle.file_parts.specs.ExactTexts.{exact_lines, exact_text, is_rising, order_line, order_lines, rank_word, text_of_exact};
ghost use Rattle.file_parts.specs.ExactUnpacking.{IsUnpackedExact, after_name_text, exact_entry_line, exact_of, filler_text, order_text};

use crate::exact_unpacked::UnpackedExact;
use crate::text::{put_header, put_infos, put_part, put_values};
use db_format::{INFO_BLOCKS, NAME_SIZE};
use palm_text::{Counted, Piece, WriteFault, put_pieces};
use pdb_format::PdbFile;
use std::io::Write;

/// Writes the text `database` of a file that was taken apart as it stands. It doesn't flush `out`,
/// and allocates nothing. After a write fails, it writes nothing more.
///
/// # Errors
///
/// - `WriteFault`: if a write failed, or took 0 bytes.
pub(crate) fn put_exact<W: Write>(
    out: &mut Counted<W>,
    unpacked: &UnpackedExact<'_>,
) -> Result<(), WriteFault>
    requires { IsUnpackedExact unpacked.now }
    ensures { Writes W.contents out.old out.new (exact_text (text_of_exact (exact_of unpacked.now))) (is_ok result) }
{
    match put_lines(out, unpacked) {
        Ok(()) => put_database_lines(out, &unpacked.file),
        Err(fault) => Err(fault),
    }
}

/// Writes the lines before those of the database.
fn put_lines<W: Write>(out: &mut Counted<W>, unpacked: &UnpackedExact<'_>) -> Result<(), WriteFault>
    requires { IsUnpackedExact unpacked.now }
    ensures { Writes W.contents out.old out.new (exact_lines (text_of_exact (exact_of unpacked.now))) (is_ok result) }
{
    match put_pieces(out, &[Piece::Text(b"exact\n")]) {
        Ok(()) => put_more(out, unpacked),
        Err(fault) => Err(fault),
    }
}

/// Writes the lines from the bytes after the name on.
fn put_more<W: Write>(out: &mut Counted<W>, unpacked: &UnpackedExact<'_>) -> Result<(), WriteFault>
    ensures { Writes W.contents out.old out.new (after_name_text unpacked.now.file
        ++ (filler_text unpacked.now.file ++ order_text unpacked.now.ranks.items)) (is_ok result) }
{
    match put_after_name(out, &unpacked.file) {
        Ok(()) => put_placing(out, unpacked),
        Err(fault) => Err(fault),
    }
}

/// Writes the line of the filler, and the lines `order`.
fn put_placing<W: Write>(
    out: &mut Counted<W>,
    unpacked: &UnpackedExact<'_>,
) -> Result<(), WriteFault>
    ensures { Writes W.contents out.old out.new (filler_text unpacked.now.file
        ++ order_text unpacked.now.ranks.items) (is_ok result) }
{
    match put_filler(out, &unpacked.file) {
        Ok(()) => put_order(out, unpacked.ranks.as_slice()),
        Err(fault) => Err(fault),
    }
}

/// Writes the line with the bytes after the name, if one of them isn't zero.
fn put_after_name<W: Write>(out: &mut Counted<W>, file: &PdbFile<'_>) -> Result<(), WriteFault>
    ensures { Writes W.contents out.old out.new (after_name_text file.now) (is_ok result) }
{
    if file.has_name() {
        return Ok(());
    }
    put_pieces(
        out,
        &[
            Piece::Text(b"namefield "),
            Piece::Hex(after_name(file)),
            Piece::Text(b"\n"),
        ],
    )
}

/// Returns the bytes after the name in its field.
fn after_name<'a>(file: &PdbFile<'a>) -> &'a [u8]
    ensures is { result.now ≡ drop (length (name_in file.now)) (take name_size file.now) }
    ensures valid { IsDatabaseName (name_in file.now) }
    ensures long { name_size ≤ length file.now }
{
    let bytes = file.bytes();
    let size = file.name().len();
    &bytes[size..NAME_SIZE]
}

/// Writes the line of the filler.
fn put_filler<W: Write>(out: &mut Counted<W>, file: &PdbFile<'_>) -> Result<(), WriteFault>
    ensures { Writes W.contents out.old out.new (filler_text file.now) (is_ok result) }
{
    if file.filler().is_empty() {
        put_pieces(out, &[Piece::Text(b"filler none\n")])
    } else {
        put_pieces(out, &[Piece::Text(b"filler filler\n")])
    }
}

/// Writes the lines `order`, if the blocks are not in list order.
fn put_order<W: Write>(out: &mut Counted<W>, ranks: &[u32]) -> Result<(), WriteFault>
    ensures { Writes W.contents out.old out.new (order_text ranks.now) (is_ok result) }
{
    if is_list_order(ranks) {
        return Ok(());
    }
    put_ranks(out, ranks)
}

/// Returns whether ranks are in list order.
fn is_list_order(ranks: &[u32]) -> bool
    ensures { result ≡ is_rising ranks.now }
{
    for index in 1..ranks.len() {
        if is_lower(ranks, index) {
            return false;
        }
    }
    true
}

/// Returns whether the rank at an index is lower than the one before it.
fn is_lower(ranks: &[u32], index: usize) -> bool
    requires above { 0 < index }
    requires inside { index < length ranks.now }
    ensures { result ≡ nat_lt (slice_index ranks.now index) (slice_index ranks.now (index - 1)) }
{
    ranks[index] < ranks[index - 1]
}

/// Writes a line `order` for each rank.
fn put_ranks<W: Write>(out: &mut Counted<W>, ranks: &[u32]) -> Result<(), WriteFault>
    ensures { Writes W.contents out.old out.new (order_lines ranks.now) (is_ok result) }
{
    for rank in ranks {
        match put_rank(out, *rank) {
            Ok(()) => {}
            Err(fault) => return Err(fault),
        }
    }
    Ok(())
}

/// Writes the line `order` of a rank.
fn put_rank<W: Write>(out: &mut Counted<W>, rank: u32) -> Result<(), WriteFault>
    ensures { Writes W.contents out.old out.new (order_line rank) (is_ok result) }
{
    put_pieces(
        out,
        &[Piece::Text(b"order "), rank_piece(rank), Piece::Text(b"\n")],
    )
}

/// Returns the word for a rank.
fn rank_piece<'a>(rank: u32) -> Piece<'a>
    ensures { piece_text result ≡ rank_word rank }
{
    match rank {
        0 => Piece::Text(b"app"),
        1 => Piece::Text(b"sort"),
        _ => Piece::Number(rank - INFO_BLOCKS as u32),
    }
}

/// Writes the lines of the header, the info blocks and the entries, as they stand.
fn put_database_lines<W: Write>(out: &mut Counted<W>, file: &PdbFile<'_>) -> Result<(), WriteFault>
    ensures { Writes W.contents out.old out.new (database_text (with_names (exact_database file.now))) (is_ok result) }
{
    match put_header(out, &file.header()) {
        Ok(()) => put_body(out, file),
        Err(fault) => Err(fault),
    }
}

/// Writes the lines of the info blocks and of the entries.
fn put_body<W: Write>(out: &mut Counted<W>, file: &PdbFile<'_>) -> Result<(), WriteFault>
    ensures { Writes W.contents out.old out.new (body_lines (with_names (exact_database file.now))) (is_ok result) }
{
    match put_infos(out, file) {
        Ok(()) => put_entries(out, file),
        Err(fault) => Err(fault),
    }
}

/// Writes the line of the entry at an index.
fn put_entry<W: Write>(
    out: &mut Counted<W>,
    file: &PdbFile<'_>,
    index: u16,
) -> Result<(), WriteFault>
    requires { index < entry_count_in file.now }
    ensures { Writes W.contents out.old out.new (exact_entry_line file.now index) (is_ok result) }
{
    let block = file.block(INFO_BLOCKS + index as usize);
    match put_values(out, file.entry(index)) {
        Ok(()) => put_part(out, index, block),
        Err(fault) => Err(fault),
    }
}

/// Writes the lines of all entries.
fn put_entries<W: Write>(out: &mut Counted<W>, file: &PdbFile<'_>) -> Result<(), WriteFault>
    ensures { Writes W.contents out.old out.new
        (entry_lines (with_names (exact_database file.now)).entries) (is_ok result) }
{
    for index in 0..file.entry_count() {
        match put_entry(out, file, index) {
            Ok(()) => {}
            Err(fault) => return Err(fault),
        }
    }
    Ok(())
}
