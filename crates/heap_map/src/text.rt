//! The lines of the picture, on a writer.

ghost use Rattle.std.specs.Prelude.{[], ◌≡◌, ◌≤◌, ◌<◌, ◌+◌, ◌*◌, ◌^◌, ℕ, length, replicate, is_ok};
ghost use Rattle.heap_model.specs.Store.{Accepted};
ghost use Rattle.palm_text.specs.Counted.{Writes};
ghost use Rattle.db_format.specs.Headers.{AreWholeBytes};
ghost use Rattle.heap_map.specs.Text as texts;
ghost use Rattle.heap_map.specs.Text.{padded, row_text, row_lines, database_lines, map_database_line, name_and_count, head_text, free_text};

use crate::marks::letter_of;
use crate::reading::{directory_in, header_in};
use chunk_format::SLOT_SIZE;
use db_format::{entry_count, has_resources, name_in};
use itoa::Buffer;
use palm_text::{Counted, Piece, WriteFault, put_all, put_pieces};
use raw_region::Region;
use std::io::Write;

/// The number of marks in a row.
const ROW: usize = 64;

/// The spaces before a short number.
const SPACES: &[u8; 8] = b"        ";

/// Writes the first line.
#[tactic(auto, unfolding(crate::specs::Text::head_text))]
pub(crate) fn put_head<W: Write>(
    out: &mut Counted<W>,
    size: u32,
    slots: u32,
    used: u32,
    cell: u32,
) -> Result<(), WriteFault>
    ensures { Writes W.contents out.old out.new (head_text size slots used cell) (is_ok result) }
{
    put_pieces(
        out,
        &[
            Piece::Text(b"size "),
            Piece::Number(size),
            Piece::Text(b" slots "),
            Piece::Number(slots),
            Piece::Text(b" used "),
            Piece::Number(used),
            Piece::Text(b" cell "),
            Piece::Number(cell),
            Piece::Text(b"\n"),
        ],
    )
}

/// Returns `count` spaces.
fn spaces(count: usize) -> &'static [u8]
    requires { count ≤ 8 }
    ensures { result.now ≡ replicate count 32 }
{
    &SPACES[..count]
}

/// Writes a number with spaces before it, so that it is 8 bytes wide.
fn put_padded<W: Write>(out: &mut Counted<W>, number: u32) -> Result<(), WriteFault>
    ensures { Writes W.contents out.old out.new (padded number) (is_ok result) }
{
    let mut digits = Buffer::new();
    let digits = digits.format(number).as_bytes();
    match put_all(out, spaces(SPACES.len().saturating_sub(digits.len()))) {
        Ok(()) => put_all(out, digits),
        Err(fault) => Err(fault),
    }
}

/// Writes a row: the offset of its first byte, and its marks.
#[tactic(auto, using(palm_text::proofs::Parts::then, palm_text::proofs::Parts::stops), unfolding(crate::specs::Text::row_text))]
fn put_row<W: Write>(out: &mut Counted<W>, offset: u32, row: &[u8]) -> Result<(), WriteFault>
    ensures { Writes W.contents out.old out.new (row_text offset row.now) (is_ok result) }
{
    put_padded(out, offset)?;
    put_pieces(
        out,
        &[Piece::Text(b" "), Piece::Text(row), Piece::Text(b"\n")],
    )
}

/// Writes marks in rows. They are the marks of cells of `size` bytes, the first of which begins at
/// `start`.
pub(crate) fn put_rows<W: Write>(
    out: &mut Counted<W>,
    start: u32,
    size: u32,
    marks: &[u8],
) -> Result<(), WriteFault>
    requires few { length marks.now < 2 ^ 24 }
    requires offsets { (k : ℕ) → k < length marks.now → start + size * k < 2 ^ 24 }
    ensures { Writes W.contents out.old out.new (row_lines start size marks.now) (is_ok result) }
{
    for row in 0..(marks.len() + (ROW - 1)) / ROW {
        let first = ROW * row;
        let end = (first + ROW).min(marks.len());
        match put_row(out, start + size * first as u32, &marks[first..end]) {
            Ok(()) => {}
            Err(fault) => return Err(fault),
        }
    }
    Ok(())
}

/// Writes how many bytes are free, in how many pieces, and how many the largest has.
#[tactic(auto, unfolding(crate::specs::Text::free_text))]
pub(crate) fn put_free<W: Write>(
    out: &mut Counted<W>,
    total: u32,
    pieces: u32,
    largest: u32,
) -> Result<(), WriteFault>
    ensures { Writes W.contents out.old out.new (free_text total pieces largest) (is_ok result) }
{
    put_pieces(
        out,
        &[
            Piece::Text(b"free "),
            Piece::Number(total),
            Piece::Text(b" in "),
            Piece::Number(pieces),
            Piece::Text(b" pieces, the largest "),
            Piece::Number(largest),
            Piece::Text(b"\n"),
        ],
    )
}

/// Returns the word for the entries of a database, with the end of its line.
fn kind_text(resources: bool) -> &'static [u8]
    ensures { result.now ≡ texts.kind_text resources }
{
    if resources {
        b" resources\n"
    } else {
        b" records\n"
    }
}

/// Writes the name of a database, and how many entries it has.
#[tactic(auto, unfolding(crate::specs::Text::name_and_count))]
fn put_entries<W: Write>(out: &mut Counted<W>, header: &[u8]) -> Result<(), WriteFault>
    requires { AreWholeBytes header.now }
    ensures { Writes W.contents out.old out.new (name_and_count header.now) (is_ok result) }
{
    put_pieces(
        out,
        &[
            Piece::Text(b" "),
            Piece::Spelled(name_in(header)),
            Piece::Text(b" "),
            Piece::Number(u32::from(entry_count(header))),
            Piece::Text(kind_text(has_resources(header))),
        ],
    )
}

/// Writes the letter of a database, its name, and how many entries it has.
#[tactic(auto, using(palm_text::proofs::Parts::then, palm_text::proofs::Parts::stops), unfolding(crate::specs::Text::map_database_line))]
fn put_database<W: Write>(
    out: &mut Counted<W>,
    number: u32,
    header: &[u8],
) -> Result<(), WriteFault>
    requires number { 1 ≤ number }
    requires whole { AreWholeBytes header.now }
    ensures { Writes W.contents out.old out.new (map_database_line number header.now) (is_ok result) }
{
    put_all(out, &[letter_of(number)])?;
    put_entries(out, header)
}

/// Writes the lines of the databases of an accepted image.
pub(crate) fn put_databases<W: Write>(
    out: &mut Counted<W>,
    region: &Region,
) -> Result<(), WriteFault>
    requires whole { region.now.lents ≡ [] }
    requires accepted { Accepted region.now.bytes }
    ensures { Writes W.contents out.old out.new (database_lines region.now.bytes) (is_ok result) }
{
    let directory = directory_in(region);
    let count = directory.len() / SLOT_SIZE as usize;
    for db in 0..count {
        match put_database(out, db as u32 + 1, header_in(region, directory, db)) {
            Ok(()) => {}
            Err(fault) => return Err(fault),
        }
    }
    Ok(())
}
