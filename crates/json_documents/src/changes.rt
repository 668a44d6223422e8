//! The words of the changes when a file is rewritten.

ghost use Rattle.std.specs.Prelude.{◌≡◌, ◌&&◌, ◌||◌, is_ok};
ghost use Rattle.canonical_file.specs.Changes as changes;
ghost use Rattle.palm_text.specs.Counted.{Writes};
ghost use Rattle.unicode_text.specs.Pieces.{json_text};
ghost use Rattle.json_documents.specs.RowTexts.{changes_json, comma_if};

use canonical_file::Changes;
use palm_text::{Counted, WriteFault};
use std::io::Write;
use unicode_text::JsonPiece::Text;
use unicode_text::{JsonPiece, put_json};

/// Returns the text if `holds`, and no text otherwise.
fn word(holds: bool, text: &'static [u8]) -> JsonPiece<'static>
    ensures { json_text result ≡ changes.word holds text.now }
{
    if holds { Text(text) } else { Text(b"") }
}

/// Returns whether one of two facts holds.
fn either(one: bool, other: bool) -> bool
    ensures { result ≡ (one || other) }
{
    one || other
}

/// Returns a comma if a word stands before it and one after it, and no text otherwise.
fn comma_between(before: bool, after: bool) -> JsonPiece<'static>
    ensures { json_text result ≡ comma_if (before && after) }
{
    if before { word(after, b",") } else { Text(b"") }
}

/// Writes a word for each change.
pub(crate) fn put_changes<W: Write>(
    out: &mut Counted<W>,
    changes: Changes,
) -> Result<(), WriteFault>
    ensures { Writes W.contents out.old out.new (changes_json changes) (is_ok result) }
{
    let two = either(changes.busy, changes.filler);
    let three = either(two, changes.ids);
    let four = either(three, changes.name);
    put_json(
        out,
        &[
            Text(b"\"changes\":["),
            word(changes.busy, b"\"busy\""),
            comma_between(changes.busy, changes.filler),
            word(changes.filler, b"\"filler\""),
            comma_between(two, changes.ids),
            word(changes.ids, b"\"ids\""),
            comma_between(three, changes.name),
            word(changes.name, b"\"name\""),
            comma_between(four, changes.order),
            word(changes.order, b"\"order\""),
            Text(b"]}\n"),
        ],
    )
}
