//! Rectangles. A strip has one in each row that it touches.

ghost use Rattle.std.specs.Prelude.{◌≡◌, ◌≤◌, ◌<◌, ◌+◌, ◌*◌, ◌^◌, All, is_ok};
ghost use Rattle.palm_text.specs.Counted.{Writes};
ghost use Rattle.heap_svg.specs.Rows as texts;
ghost use Rattle.heap_svg.specs.Rows.{rect_text, strip_text, strips_text, title_text};

use crate::bytes_of_rows::PITCH;
use crate::strips::{HEAD, Strip};
use heap_map::{FIXED, FREE, LOCKED, MANAGERS, OTHER};
use palm_text::{Counted, Piece, WriteFault, put_pieces};
use std::io::Write;

/// Returns the number of the style class of a mark. Databases have eight colours in turn.
fn class_of(mark: u32) -> u32
    ensures { result ≡ texts.class_number mark }
{
    match mark {
        FIXED => 0,
        LOCKED => 1,
        MANAGERS => 2,
        OTHER => 3,
        FREE => 4,
        HEAD => 5,
        _ => mark.saturating_sub(3) % 8 + 6,
    }
}

/// Returns the start of a rectangle, up to the number of its class.
fn class_front(is_thin: bool) -> &'static [u8]
    ensures { result.now ≡ texts.class_front is_thin }
{
    if is_thin {
        b"<path class=\"s c"
    } else {
        b"<path class=\"c"
    }
}

/// Writes a rectangle of a strip in a row, from its start in the row and its width, both in bytes.
#[tactic(auto, unfolding(crate::specs::Rows::rect_text))]
fn put_rect<W: Write>(
    out: &mut Counted<W>,
    strip: Strip,
    row: u32,
    x: u32,
    width: u32,
) -> Result<(), WriteFault>
    requires { row < 2 ^ 26 }
    ensures { Writes W.contents out.old out.new (rect_text strip row x width) (is_ok result) }
{
    put_pieces(
        out,
        &[
            Piece::Text(class_front(strip.is_thin)),
            Piece::Number(class_of(strip.mark)),
            Piece::Text(b"\" d=\"M"),
            Piece::Number(x),
            Piece::Text(b" "),
            Piece::Number(PITCH * row),
            Piece::Text(b"h"),
            Piece::Number(width),
            Piece::Text(b"v14h-"),
            Piece::Number(width),
            Piece::Text(b"z\">"),
        ],
    )
}

/// Writes the tooltip of a strip: its offset and its size.
#[tactic(auto, unfolding(crate::specs::Rows::title_text))]
fn put_title<W: Write>(out: &mut Counted<W>, strip: Strip) -> Result<(), WriteFault>
    ensures { Writes W.contents out.old out.new (title_text strip) (is_ok result) }
{
    put_pieces(
        out,
        &[
            Piece::Text(b"<title>"),
            Piece::Number(strip.at),
            Piece::Text(b": "),
            Piece::Number(strip.size),
            Piece::Text(b"</title></path>\n"),
        ],
    )
}

/// Writes the part of a strip in a row of `line` bytes.
fn put_part<W: Write>(
    out: &mut Counted<W>,
    line: u32,
    strip: Strip,
    row: u32,
) -> Result<(), WriteFault>
    requires small { line < 2 ^ 24 }
    requires inside { strip.at + strip.size < 2 ^ 24 }
    requires row { row < 2 ^ 26 }
    requires start { line * row < 2 ^ 25 }
    ensures { Writes W.contents out.old out.new (texts.strip_row line strip row) (is_ok result) }
{
    let start = line * row;
    let end = (strip.at + strip.size).min(start + line);
    let width = end.saturating_sub(strip.at.max(start));
    let x = strip.at.saturating_sub(start);
    match put_rect(out, strip, row, x, width) {
        Ok(()) => put_title(out, strip),
        Err(fault) => Err(fault),
    }
}

/// Writes a strip: a rectangle in each row that it touches.
fn put_strip<W: Write>(out: &mut Counted<W>, line: u32, strip: Strip) -> Result<(), WriteFault>
    requires line { 64 ≤ line }
    requires small { line < 2 ^ 24 }
    requires inside { strip.at + strip.size < 2 ^ 24 }
    ensures { Writes W.contents out.old out.new (strip_text line strip) (is_ok result) }
{
    let first = strip.at / line;
    let end = (strip.at + strip.size + (line - 1)) / line;
    for i in 0..end.saturating_sub(first) {
        match put_part(out, line, strip, first + i) {
            Ok(()) => {}
            Err(fault) => return Err(fault),
        }
    }
    Ok(())
}

/// Writes all strips.
pub(crate) fn put_strips<W: Write>(
    out: &mut Counted<W>,
    line: u32,
    strips: &[Strip],
) -> Result<(), WriteFault>
    requires line { 64 ≤ line }
    requires small { line < 2 ^ 24 }
    requires inside { All (λ strip. strip.at + strip.size < 2 ^ 24) strips.now }
    ensures { Writes W.contents out.old out.new (strips_text line strips.now) (is_ok result) }
{
    for strip in strips {
        match put_strip(out, line, *strip) {
            Ok(()) => {}
            Err(fault) => return Err(fault),
        }
    }
    Ok(())
}
