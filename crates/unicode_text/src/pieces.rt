//! Documents that are written piece by piece.

ghost use Rattle.std.specs.Prelude.{is_ok};
ghost use Rattle.palm_text.specs.Counted.{Writes};
ghost use Rattle.unicode_text.specs.Pieces.{json_of, json_text};

use crate::strings::{put_hex_string, put_string, put_utf8_string};
use itoa::Buffer;
use palm_text::{Counted, HasText, WriteFault, four_bytes, put_all, put_each};
use std::io::Write;

/// A piece of a document.
#[derive(Clone, Copy)]
pub enum JsonPiece<'a> {
    /// These bytes.
    Text(&'a [u8]),
    /// A number in decimal.
    Number(u32),
    /// The string of these bytes.
    String(&'a [u8]),
    /// The string of this text. Characters outside ASCII stay in UTF-8.
    Utf8(&'a str),
    /// The string of the hex digits of these bytes.
    Hex(&'a [u8]),
    /// The string of the four bytes of a number. Types and creators are written this way.
    FourBytes(u32),
    /// The string of their hex digits.
    FourHex(u32),
}

/// Writes pieces, one after another.
pub fn put_json<W: Write>(out: &mut Counted<W>, pieces: &[JsonPiece]) -> Result<(), WriteFault>
    ensures { Writes W.contents out.old out.new (json_of pieces.now) (is_ok result) }
{
    put_each(out, pieces)
}

impl HasText for JsonPiece<'_> {
    ghost text = { json_text };

    fn put_to<W: Write>(&self, out: &mut Counted<W>) -> Result<(), WriteFault> {
        match self {
            JsonPiece::Text(text) => put_all(out, text),
            JsonPiece::Number(number) => {
                let mut buffer = Buffer::new();
                put_all(out, buffer.format(*number).as_bytes())
            }
            JsonPiece::String(bytes) => put_string(out, bytes),
            JsonPiece::Utf8(text) => put_utf8_string(out, text),
            JsonPiece::Hex(bytes) => put_hex_string(out, bytes),
            JsonPiece::FourBytes(number) => put_string(out, &four_bytes(*number)),
            JsonPiece::FourHex(number) => put_hex_string(out, &four_bytes(*number)),
        }
    }
}
