//! The text after the name of a fault of a file.

ghost use Rattle.std.specs.Prelude.{◌≡◌, ◌++◌};
ghost use Rattle.palm_text.specs.FaultTexts.{faulty_text};
ghost use Rattle.palm_text.specs.Pieces.{piece_text};

use crate::pieces::Piece;
use heap_model::{FaultyPart, Which};

const NOTHING: Piece<'static> = Piece::Text(b"");

/// Returns a space and the part of a file that has a fault, or nothing for the whole.
pub fn faulty_pieces(part: FaultyPart) -> (&'static [u8], Piece<'static>)
    ensures { result.0.now ++ piece_text result.1 ≡ faulty_text part }
{
    match part {
        FaultyPart::Whole => (b"", NOTHING),
        FaultyPart::Block(Which::App) => (b" app", NOTHING),
        FaultyPart::Block(Which::Sort) => (b" sort", NOTHING),
        FaultyPart::Entry(index) => (b" ", Piece::Number(index)),
    }
}
