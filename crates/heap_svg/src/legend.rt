//! The legend: the kinds of chunks and the databases.

ghost use Rattle.std.specs.Prelude.{[], ◌≡◌, ◌≤◌, ◌<◌, ◌^◌, is_ok};
ghost use Rattle.heap_model.specs.Store.{Accepted};
ghost use Rattle.db_format.specs.Headers.{AreWholeBytes};
ghost use Rattle.palm_text.specs.Counted.{Writes};
ghost use Rattle.heap_svg.specs.Legend as texts;
ghost use Rattle.heap_svg.specs.Legend.{count_note, database_note, databases_note, entries_note, escaped, escaped_byte, kinds_text, letter_note, byte_reference, square_text};

use crate::bytes_of_rows::PITCH;
use chunk_format::SLOT_SIZE;
use db_format::{entry_count, has_resources, name_in};
use heap_map::{directory_in, header_in, letter_of};
use palm_text::{Counted, Piece, WriteFault, put_all, put_pieces};
use raw_region::Region;
use std::io::Write;

/// Writes the kinds and their colours.
#[tactic(auto, unfolding(crate::specs::Legend::kinds_text))]
pub(crate) fn put_kinds<W: Write>(out: &mut Counted<W>, rows: u32) -> Result<(), WriteFault>
    requires { rows < 2 ^ 26 }
    ensures { Writes W.contents out.old out.new (kinds_text rows) (is_ok result) }
{
    put_pieces(
        out,
        &[
            Piece::Text(b"<g transform=\"translate(74 "),
            Piece::Number(PITCH * rows + 88),
            Piece::Text(b")\">\n"),
            Piece::Text(
                b"<path class=\"c5\" d=\"M0 0h12v12h-12z\"/><text x=\"17\" y=\"10\">head and slots</text>\n",
            ),
            Piece::Text(
                b"<path class=\"c2\" d=\"M140 0h12v12h-12z\"/><text x=\"157\" y=\"10\">directory and headers</text>\n",
            ),
            Piece::Text(
                b"<path class=\"c3\" d=\"M320 0h12v12h-12z\"/><text x=\"337\" y=\"10\">other movable chunks</text>\n",
            ),
            Piece::Text(
                b"<path class=\"c0\" d=\"M500 0h12v12h-12z\"/><text x=\"517\" y=\"10\">fixed</text>\n",
            ),
            Piece::Text(
                b"<path class=\"c1\" d=\"M590 0h12v12h-12z\"/><text x=\"607\" y=\"10\">locked</text>\n",
            ),
            Piece::Text(
                b"<path class=\"c4\" d=\"M690 0h12v12h-12z\"/><text x=\"707\" y=\"10\">free</text>\n",
            ),
            Piece::Text(b"</g>\n"),
        ],
    )
}

/// Returns whether a byte of a name is written as a number: it has a meaning in XML, or is a
/// character above ASCII.
fn is_by_number(byte: u8) -> bool
    ensures { result ≡ texts.is_by_number byte }
{
    byte == b'&' || byte == b'<' || byte == b'>' || byte >= 160
}

/// Writes a byte as a number.
#[tactic(auto, unfolding(crate::specs::Legend::byte_reference))]
fn put_number<W: Write>(out: &mut Counted<W>, byte: u8) -> Result<(), WriteFault>
    ensures { Writes W.contents out.old out.new (byte_reference byte) (is_ok result) }
{
    put_pieces(
        out,
        &[
            Piece::Text(b"&#"),
            Piece::Number(u32::from(byte)),
            Piece::Text(b";"),
        ],
    )
}

/// Returns whether a byte is printed in ASCII.
fn is_printed(byte: u8) -> bool
    ensures { result ≡ texts.is_printed byte }
{
    byte >= b' ' && byte <= b'~'
}

/// Writes a byte unchanged if it is printed in ASCII, else a question mark.
#[tactic(auto, using(crate::proofs::ChoiceLaws::when_yes, crate::proofs::ChoiceLaws::when_no))]
fn put_plain<W: Write>(out: &mut Counted<W>, byte: u8) -> Result<(), WriteFault>
    ensures { Writes W.contents out.old out.new (texts.plain_byte byte) (is_ok result) }
{
    if is_printed(byte) {
        put_all(out, &[byte])
    } else {
        put_all(out, b"?")
    }
}

/// Writes a byte of a name, escaped for XML.
#[tactic(auto, using(crate::proofs::ChoiceLaws::when_yes, crate::proofs::ChoiceLaws::when_no))]
fn put_byte<W: Write>(out: &mut Counted<W>, byte: u8) -> Result<(), WriteFault>
    ensures { Writes W.contents out.old out.new (escaped_byte byte) (is_ok result) }
{
    if is_by_number(byte) {
        put_number(out, byte)
    } else {
        put_plain(out, byte)
    }
}

/// Writes a name, escaped for XML.
fn put_escaped<W: Write>(out: &mut Counted<W>, name: &[u8]) -> Result<(), WriteFault>
    ensures { Writes W.contents out.old out.new (escaped name.now) (is_ok result) }
{
    for byte in name {
        match put_byte(out, *byte) {
            Ok(()) => {}
            Err(fault) => return Err(fault),
        }
    }
    Ok(())
}

/// Returns the word for the entries of a database, with the end of its line.
fn kind_note(resources: bool) -> &'static [u8]
    ensures { result.now ≡ texts.kind_note resources }
{
    if resources {
        b" resources</text></g>\n"
    } else {
        b" records</text></g>\n"
    }
}

/// Writes the number of entries of a database.
#[tactic(auto, unfolding(crate::specs::Legend::count_note))]
fn put_count_note<W: Write>(out: &mut Counted<W>, header: &[u8]) -> Result<(), WriteFault>
    requires { AreWholeBytes header.now }
    ensures { Writes W.contents out.old out.new (count_note header.now) (is_ok result) }
{
    put_pieces(
        out,
        &[
            Piece::Text(b": "),
            Piece::Number(u32::from(entry_count(header))),
            Piece::Text(kind_note(has_resources(header))),
        ],
    )
}

/// Writes the name of a database, and the number of its entries.
#[tactic(auto, using(palm_text::proofs::Parts::then, palm_text::proofs::Parts::stops), unfolding(crate::specs::Legend::entries_note))]
fn put_entries_note<W: Write>(out: &mut Counted<W>, header: &[u8]) -> Result<(), WriteFault>
    requires { AreWholeBytes header.now }
    ensures { Writes W.contents out.old out.new (entries_note header.now) (is_ok result) }
{
    put_escaped(out, name_in(header))?;
    put_count_note(out, header)
}

/// Writes a square with the colour of a database.
#[tactic(auto, unfolding(crate::specs::Legend::square_text))]
fn put_square<W: Write>(out: &mut Counted<W>, rows: u32, db: u32) -> Result<(), WriteFault>
    requires rows { rows < 2 ^ 26 }
    requires db { db < 2 ^ 16 }
    ensures { Writes W.contents out.old out.new (square_text rows db) (is_ok result) }
{
    put_pieces(
        out,
        &[
            Piece::Text(b"<g transform=\"translate("),
            Piece::Number(480 * (db % 2) + 74),
            Piece::Text(b" "),
            Piece::Number(22 * (db / 2) + (PITCH * rows + 88 + 22)),
            Piece::Text(b")\"><path class=\"c"),
            Piece::Number(db % 8 + 6),
            Piece::Text(b"\" d=\"M0 0h12v12h-12z\"/><text x=\"17\" y=\"10\">"),
        ],
    )
}

/// Writes the letter of a database, its name, and the number of its entries.
fn put_letter_note<W: Write>(out: &mut Counted<W>, db: u32, header: &[u8]) -> Result<(), WriteFault>
    requires db { db < 2 ^ 16 }
    requires whole { AreWholeBytes header.now }
    ensures { Writes W.contents out.old out.new (letter_note db header.now) (is_ok result) }
{
    match put_all(out, &[letter_of(db + 1), b' ']) {
        Ok(()) => put_entries_note(out, header),
        Err(fault) => Err(fault),
    }
}

/// Writes a database of the legend.
#[tactic(auto, using(palm_text::proofs::Parts::then, palm_text::proofs::Parts::stops), unfolding(crate::specs::Legend::database_note))]
fn put_database_note<W: Write>(
    out: &mut Counted<W>,
    rows: u32,
    db: u32,
    header: &[u8],
) -> Result<(), WriteFault>
    requires rows { rows < 2 ^ 26 }
    requires db { db < 2 ^ 16 }
    requires whole { AreWholeBytes header.now }
    ensures { Writes W.contents out.old out.new (database_note rows db header.now) (is_ok result) }
{
    put_square(out, rows, db)?;
    put_letter_note(out, db, header)
}

/// Writes the databases of the legend.
pub(crate) fn put_databases_note<W: Write>(
    out: &mut Counted<W>,
    region: &Region,
    rows: u32,
) -> Result<(), WriteFault>
    requires whole { region.now.lents ≡ [] }
    requires accepted { Accepted region.now.bytes }
    requires rows { rows < 2 ^ 26 }
    ensures { Writes W.contents out.old out.new
        (databases_note region.now.bytes rows) (is_ok result) }
{
    let directory = directory_in(region);
    let count = directory.len() / SLOT_SIZE as usize;
    for db in 0..count {
        match put_database_note(out, rows, db as u32, header_in(region, directory, db)) {
            Ok(()) => {}
            Err(fault) => return Err(fault),
        }
    }
    Ok(())
}
