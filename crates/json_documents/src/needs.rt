//! The part of a heap that the database of a file takes.

ghost use Rattle.std.specs.Prelude.{is_ok};
ghost use Rattle.palm_text.specs.Counted.{Writes};
ghost use Rattle.json_documents.specs.RowTexts.{needs_json, needs_of};

use itoa::Buffer;
use palm_text::{Counted, WriteFault};
use std::io::Write;
use unicode_text::JsonPiece::Text;
use unicode_text::put_json;

/// Writes the digits of the least size and number of slots of a new image with the database.
fn put_digits<'a, W: Write>(
    out: &mut Counted<W>,
    size: &'a [u8],
    slots: &'a [u8],
) -> Result<(), WriteFault>
    ensures { Writes W.contents out.old out.new (needs_of size.now slots.now) (is_ok result) }
{
    put_json(
        out,
        &[
            Text(b"],\"needs\":{\"size\":"),
            Text(size),
            Text(b",\"slots\":"),
            Text(slots),
            Text(b"},"),
        ],
    )
}

/// Writes the least size and number of slots of a new image with the database.
pub(crate) fn put_needs<W: Write>(
    out: &mut Counted<W>,
    size: u64,
    slots: u64,
) -> Result<(), WriteFault>
    ensures { Writes W.contents out.old out.new (needs_json size slots) (is_ok result) }
{
    let mut size_digits = Buffer::new();
    let mut slot_digits = Buffer::new();
    put_digits(
        out,
        size_digits.format(size).as_bytes(),
        slot_digits.format(slots).as_bytes(),
    )
}
