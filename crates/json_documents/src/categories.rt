//! The array of the names of categories.

ghost use Rattle.std.specs.Prelude.{◌≡◌, ◌++◌, is_ok};
ghost use Rattle.palm_text.specs.Counted.{Writes};
ghost use Rattle.unicode_text.specs.Pieces.{json_text};
ghost use Rattle.json_documents.specs.RowTexts as words;
ghost use Rattle.json_documents.specs.RowTexts.{category_json};

use db_format::{CATEGORIES, NameField};
use palm_text::{Counted, WriteFault};
use std::io::Write;
use unicode_text::JsonPiece::{String, Text};
use unicode_text::{JsonPiece, put_json};

/// The number of the last category.
const LAST_CATEGORY: u8 = CATEGORIES - 1;

/// Returns the start of the array, or the comma before the category of a number.
fn array_start(number: u8) -> JsonPiece<'static>
    ensures { json_text result ≡ words.array_start number }
{
    if number == 0 {
        Text(b"\"categories\":[")
    } else {
        Text(b",")
    }
}

/// Returns the end of the array, if the category of a number is the last.
fn array_end(number: u8) -> JsonPiece<'static>
    ensures { json_text result ≡ words.array_end number }
{
    if number == LAST_CATEGORY {
        Text(b"],")
    } else {
        Text(b"")
    }
}

/// Returns the string of a name, or `null` if there is none.
fn name_json(name: &Option<NameField>) -> JsonPiece<'_>
    ensures { json_text result ≡ words.name_json name.now }
{
    match name {
        Some(name) => String(name.name()),
        None => Text(b"null"),
    }
}

/// Writes a category in the array.
pub(crate) fn put_category<W: Write>(
    out: &mut Counted<W>,
    number: u8,
    name: &Option<NameField>,
) -> Result<(), WriteFault>
    ensures { Writes W.contents out.old out.new (category_json number name.now) (is_ok result) }
{
    put_json(
        out,
        &[array_start(number), name_json(name), array_end(number)],
    )
}
