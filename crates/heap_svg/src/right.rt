//! The text next to the rows: their offsets at the left, the rooms of stretches at the right.

ghost use Rattle.std.specs.Prelude.{◌≡◌, ◌≤◌, ◌<◌, ◌+◌, ◌*◌, ◌^◌, length, is_ok};
ghost use Rattle.heap_model.specs.Space.{greatest};
ghost use Rattle.palm_text.specs.Counted.{Writes};
ghost use Rattle.heap_svg.specs.Rows as texts;
ghost use Rattle.heap_svg.specs.Rows.{label_text, labels_text, largest_text, more_text, right_text, rights_text, text_start, sizes_in};

use crate::bytes_of_rows::PITCH;
use crate::rooms::Room;
use palm_text::{Counted, Piece, WriteFault, put_all, put_pieces};
use std::io::Write;

/// Writes the start of a text at a row: where it stands from the left, and its class.
#[tactic(auto, unfolding(crate::specs::Rows::text_start))]
fn put_row_start<'a, W: Write>(
    out: &mut Counted<W>,
    x: &'a [u8],
    class: &'a [u8],
    row: u32,
) -> Result<(), WriteFault>
    requires { row < 2 ^ 26 }
    ensures { Writes W.contents out.old out.new (text_start x.now class.now row) (is_ok result) }
{
    put_pieces(
        out,
        &[
            Piece::Text(b"<text x=\""),
            Piece::Text(x),
            Piece::Text(b"\" y=\""),
            Piece::Number(PITCH * row + 85),
            Piece::Text(b"\" class=\""),
            Piece::Text(class),
            Piece::Text(b"\">"),
        ],
    )
}

/// Writes the offset of a row.
#[tactic(auto, using(palm_text::proofs::Parts::then, palm_text::proofs::Parts::stops), unfolding(crate::specs::Rows::label_text))]
fn put_label<W: Write>(out: &mut Counted<W>, line: u32, row: u32) -> Result<(), WriteFault>
    requires row { row < 2 ^ 26 }
    requires offset { line * row < 2 ^ 32 }
    ensures { Writes W.contents out.old out.new (label_text line row) (is_ok result) }
{
    put_row_start(out, b"68", b"n", row)?;
    put_pieces(out, &[Piece::Number(line * row), Piece::Text(b"</text>\n")])
}

/// Writes the offsets of all rows.
pub(crate) fn put_labels<W: Write>(
    out: &mut Counted<W>,
    line: u32,
    rows: u32,
) -> Result<(), WriteFault>
    requires rows { rows < 2 ^ 26 }
    requires offsets { line * rows < 2 ^ 32 }
    ensures { Writes W.contents out.old out.new (labels_text line rows) (is_ok result) }
{
    for row in 0..rows {
        match put_label(out, line, row) {
            Ok(()) => {}
            Err(fault) => return Err(fault),
        }
    }
    Ok(())
}

/// The rooms of the stretches that begin in a row: their number, and the size of the largest one.
#[derive(Clone, Copy)]
struct RowRooms {
    count: u32,
    largest: u32,
}

/// Counts the rooms of the stretches that begin in a row of `line` bytes.
fn rooms_in(rooms: &[Room], line: u32, row: u32) -> RowRooms
    requires line { 1 ≤ line }
    requires few { length rooms.now < 2 ^ 32 }
    ensures count { result.count ≡ length (sizes_in line row rooms.now) }
    ensures largest { result.largest ≡ greatest (sizes_in line row rooms.now) }
{
    let mut here = RowRooms {
        count: 0,
        largest: 0,
    };
    for room in rooms {
        if room.start / line == row {
            here = RowRooms {
                count: here.count + 1,
                largest: room.size.max(here.largest),
            };
        }
    }
    here
}

/// Writes the number of other rooms if there are any, and the end of the line.
#[tactic(auto, using(crate::proofs::ChoiceLaws::when_none, crate::proofs::ChoiceLaws::when_some), unfolding(crate::specs::Rows::more_text))]
fn put_more<W: Write>(out: &mut Counted<W>, others: u32) -> Result<(), WriteFault>
    ensures { Writes W.contents out.old out.new (more_text others) (is_ok result) }
{
    if others == 0 {
        return put_all(out, b"</text>\n");
    }
    put_pieces(
        out,
        &[
            Piece::Text(b" and "),
            Piece::Number(others),
            Piece::Text(b" more</text>\n"),
        ],
    )
}

/// Writes the size of the largest room.
#[tactic(auto, using(palm_text::proofs::Parts::then, palm_text::proofs::Parts::stops), unfolding(crate::specs::Rows::largest_text))]
fn put_largest<W: Write>(out: &mut Counted<W>, row: u32, largest: u32) -> Result<(), WriteFault>
    requires { row < 2 ^ 26 }
    ensures { Writes W.contents out.old out.new (largest_text row largest) (is_ok result) }
{
    put_row_start(out, b"1082", b"r", row)?;
    put_pieces(out, &[Piece::Number(largest), Piece::Text(b" bytes")])
}

/// Writes the size of the largest room, and the number of other rooms.
#[tactic(auto, using(palm_text::proofs::Parts::then, palm_text::proofs::Parts::stops), unfolding(crate::specs::Rows::sizes_text))]
fn put_sizes<W: Write>(out: &mut Counted<W>, row: u32, rooms: RowRooms) -> Result<(), WriteFault>
    requires { row < 2 ^ 26 }
    ensures { Writes W.contents out.old out.new
        (texts.sizes_text row rooms.count rooms.largest) (is_ok result) }
{
    put_largest(out, row, rooms.largest)?;
    put_more(out, rooms.count.saturating_sub(1))
}

/// Writes the rooms of a row, if there are any.
#[tactic(auto, using(palm_text::proofs::Parts::nothing, crate::proofs::ChoiceLaws::when_none, crate::proofs::ChoiceLaws::when_some), unfolding(crate::specs::Rows::right_text))]
fn put_right<W: Write>(out: &mut Counted<W>, row: u32, rooms: RowRooms) -> Result<(), WriteFault>
    requires { row < 2 ^ 26 }
    ensures { Writes W.contents out.old out.new
        (right_text row rooms.count rooms.largest) (is_ok result) }
{
    if rooms.count == 0 {
        Ok(())
    } else {
        put_sizes(out, row, rooms)
    }
}

/// Writes the rooms of all rows.
pub(crate) fn put_rights<W: Write>(
    out: &mut Counted<W>,
    line: u32,
    rooms: &[Room],
    rows: u32,
) -> Result<(), WriteFault>
    requires line { 1 ≤ line }
    requires few { length rooms.now < 2 ^ 32 }
    requires rows { rows < 2 ^ 26 }
    ensures { Writes W.contents out.old out.new (rights_text line rooms.now rows) (is_ok result) }
{
    for row in 0..rows {
        match put_right(out, row, rooms_in(rooms, line, row)) {
            Ok(()) => {}
            Err(fault) => return Err(fault),
        }
    }
    Ok(())
}
