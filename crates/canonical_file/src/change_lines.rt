//! The line that lists the changes.

ghost use Rattle.std.specs.Prelude.{◌≡◌, is_ok};
ghost use Rattle.palm_text.specs.Counted.{Writes};
ghost use Rattle.palm_text.specs.Pieces.{piece_text};
ghost use Rattle.canonical_file.specs.Changes as words;
ghost use Rattle.canonical_file.specs.Changes.{changes_line};

use crate::changes::Changes;
use palm_text::{Counted, Piece, WriteFault, put_all, put_pieces};
use std::io::Write;

/// Returns the word if `holds`, and no text otherwise.
pub(crate) fn word(holds: bool, text: &'static [u8]) -> Piece<'static>
    ensures { piece_text result ≡ words.word holds text.now }
{
    if holds {
        Piece::Text(text)
    } else {
        Piece::Text(b"")
    }
}

/// Writes the line that lists the changes: `canonical` if there are none, and otherwise `changes`
/// and a word for each change.
///
/// # Errors
///
/// - `WriteFault`: if a write failed, or took 0 bytes.
#[tactic(auto, unfolding(crate::specs::Changes::changes_line))]
pub fn put_changes<W: Write>(out: &mut Counted<W>, changes: Changes) -> Result<(), WriteFault>
    ensures { Writes W.contents out.old out.new (changes_line changes) (is_ok result) }
{
    if changes.is_none() {
        return put_all(out, b"canonical\n");
    }
    put_words(out, changes)
}

/// Writes `changes` and a word for each change.
#[tactic(auto, unfolding(crate::specs::Changes::words_line))]
fn put_words<W: Write>(out: &mut Counted<W>, changes: Changes) -> Result<(), WriteFault>
    ensures { Writes W.contents out.old out.new (words.words_line changes) (is_ok result) }
{
    put_pieces(
        out,
        &[
            Piece::Text(b"changes"),
            word(changes.busy, b" busy"),
            word(changes.filler, b" filler"),
            word(changes.ids, b" ids"),
            word(changes.name, b" name"),
            word(changes.order, b" order"),
            Piece::Text(b"\n"),
        ],
    )
}
