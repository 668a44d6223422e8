//! Free pieces by size.

ghost use Rattle.std.specs.Prelude.{◌≡◌, ◌<◌, ◌≤◌, ◌+◌, ◌*◌, ◌^◌, count_by, length, is_ok};
ghost use Rattle.palm_text.specs.Counted.{Writes};
ghost use Rattle.heap_svg.specs.Legend as texts;
ghost use Rattle.heap_svg.specs.Legend.{least_of, pieces_by_size, pieces_text, size_note, size_notes, sizes_head};

use palm_text::{Counted, Piece, WriteFault, put_pieces};
use std::io::Write;

/// Returns the least size of the class with an index: a piece of the class has at least these bytes,
/// and fewer than twice as many.
fn least_size(index: u32) -> u32
    requires { index < 21 }
    ensures is { result ≡ least_of index }
    ensures small { result < 2 ^ 31 }
{
    8 << index
}

/// Returns whether a piece of this size belongs to a class.
fn is_of_size(least: u32, size: u32) -> bool
    requires { least < 2 ^ 31 }
    ensures { result ≡ texts.is_of_size least size }
{
    least <= size && size < 2 * least
}

/// Returns the number of pieces of a class.
#[tactic(auto, using(std::proofs::lemmas::List::Sums::count_by_more_yes, std::proofs::lemmas::List::Sums::count_by_more_no))]
fn count_of(pieces: &[u32], least: u32) -> u32
    requires least { least < 2 ^ 31 }
    requires few { length pieces.now < 2 ^ 32 }
    ensures { result ≡ count_by (texts.is_of_size least) pieces.now }
{
    let mut count = 0;
    for size in pieces {
        if is_of_size(least, *size) {
            count += 1;
        }
    }
    count
}

/// Writes the number of pieces of a class if there are any, at the place of an index.
#[tactic(auto, using(palm_text::proofs::Parts::nothing, crate::proofs::ChoiceLaws::when_none, crate::proofs::ChoiceLaws::when_some), unfolding(crate::specs::Legend::size_note))]
fn put_size_note<W: Write>(
    out: &mut Counted<W>,
    top: u32,
    index: u32,
    least: u32,
    count: u32,
) -> Result<(), WriteFault>
    requires top { top < 2 ^ 31 }
    requires index { index < 21 }
    ensures { Writes W.contents out.old out.new (size_note top index least count) (is_ok result) }
{
    if count == 0 {
        return Ok(());
    }
    put_pieces(
        out,
        &[
            Piece::Text(b"<text x=\""),
            Piece::Number(142 * (index % 7) + 74),
            Piece::Text(b"\" y=\""),
            Piece::Number(18 * (index / 7) + (top + 18)),
            Piece::Text(b"\">"),
            Piece::Number(least),
            Piece::Text(b": "),
            Piece::Number(count),
            Piece::Text(b"</text>\n"),
        ],
    )
}

/// Writes the number of pieces of each class.
fn put_size_notes<W: Write>(
    out: &mut Counted<W>,
    top: u32,
    pieces: &[u32],
) -> Result<(), WriteFault>
    requires top { top < 2 ^ 31 }
    requires few { length pieces.now < 2 ^ 32 }
    ensures { Writes W.contents out.old out.new (size_notes top pieces.now) (is_ok result) }
{
    for index in 0..21u32 {
        let least = least_size(index);
        match put_size_note(out, top, index, least, count_of(pieces, least)) {
            Ok(()) => {}
            Err(fault) => return Err(fault),
        }
    }
    Ok(())
}

/// Writes the line above the classes.
#[tactic(auto, unfolding(crate::specs::Legend::sizes_head))]
fn put_sizes_head<W: Write>(out: &mut Counted<W>, top: u32) -> Result<(), WriteFault>
    ensures { Writes W.contents out.old out.new (sizes_head top) (is_ok result) }
{
    put_pieces(
        out,
        &[
            Piece::Text(b"<text x=\"74\" y=\""),
            Piece::Number(top),
            Piece::Text(b"\">free pieces by size, from:</text>\n"),
        ],
    )
}

/// Writes the line above the classes, and the number of pieces of each class.
#[tactic(auto, using(palm_text::proofs::Parts::then, palm_text::proofs::Parts::stops), unfolding(crate::specs::Legend::pieces_by_size))]
fn put_sizes<W: Write>(out: &mut Counted<W>, top: u32, pieces: &[u32]) -> Result<(), WriteFault>
    requires top { top < 2 ^ 31 }
    requires few { length pieces.now < 2 ^ 32 }
    ensures { Writes W.contents out.old out.new (pieces_by_size top pieces.now) (is_ok result) }
{
    put_sizes_head(out, top)?;
    put_size_notes(out, top, pieces)
}

/// Writes the free pieces by size, from `top` pixels on, if there are any.
#[tactic(auto, using(palm_text::proofs::Parts::nothing, crate::proofs::ChoiceLaws::when_none, crate::proofs::ChoiceLaws::when_some), unfolding(crate::specs::Legend::pieces_text))]
pub(crate) fn put_pieces_by_size<W: Write>(
    out: &mut Counted<W>,
    top: u32,
    pieces: &[u32],
) -> Result<(), WriteFault>
    requires top { top < 2 ^ 31 }
    requires few { length pieces.now < 2 ^ 32 }
    ensures { Writes W.contents out.old out.new (pieces_text top pieces.now) (is_ok result) }
{
    if pieces.len() == 0 {
        Ok(())
    } else {
        put_sizes(out, top, pieces)
    }
}
