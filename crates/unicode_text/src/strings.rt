//! Strings.

ghost use Rattle.std.specs.Prelude.{◌≡◌, is_ok};
ghost use Rattle.palm_text.specs.Counted.{Writes};
ghost use Rattle.unicode_text.specs.Strings as words;
ghost use Rattle.unicode_text.specs.Strings.{closed_string, escape_of, hex_string, string, string_character, string_characters, string_in, utf8_string};

use crate::characters::character_of;
use palm_text::{Counted, Piece, WriteFault, put_all, put_pieces};
use std::io::Write;

/// What the bytes of a string are.
#[derive(Clone, Copy)]
enum Coding {
    /// Characters of Windows-1252.
    Windows1252,
    /// A text in UTF-8, whose characters outside ASCII stay as they are.
    Utf8,
}

/// Writes the string of some bytes.
pub(crate) fn put_string<W: Write>(out: &mut Counted<W>, bytes: &[u8]) -> Result<(), WriteFault>
    ensures { Writes W.contents out.old out.new (string bytes.now) (is_ok result) }
{
    put_coded(out, Coding::Windows1252, bytes)
}

/// Writes the string of a text. Characters outside ASCII stay in UTF-8.
pub(crate) fn put_utf8_string<W: Write>(out: &mut Counted<W>, text: &str) -> Result<(), WriteFault>
    ensures { Writes W.contents out.old out.new (utf8_string text.now) (is_ok result) }
{
    put_coded(out, Coding::Utf8, text.as_bytes())
}

/// Writes the string of some bytes in a coding.
#[tactic(auto, using(palm_text::proofs::Parts::then, palm_text::proofs::Parts::stops))]
fn put_coded<W: Write>(out: &mut Counted<W>, coding: Coding, bytes: &[u8]) -> Result<(), WriteFault>
    ensures { Writes W.contents out.old out.new (string_in coding bytes.now) (is_ok result) }
{
    put_all(out, b"\"")?;
    put_closed(out, coding, bytes)
}

/// Writes the characters of some bytes, and the quote after them.
#[tactic(auto, using(palm_text::proofs::Parts::then, palm_text::proofs::Parts::stops))]
fn put_closed<W: Write>(
    out: &mut Counted<W>,
    coding: Coding,
    bytes: &[u8],
) -> Result<(), WriteFault>
    ensures { Writes W.contents out.old out.new (closed_string coding bytes.now) (is_ok result) }
{
    put_characters(out, coding, bytes)?;
    put_all(out, b"\"")
}

/// Writes the characters of some bytes.
fn put_characters<W: Write>(
    out: &mut Counted<W>,
    coding: Coding,
    bytes: &[u8],
) -> Result<(), WriteFault>
    ensures { Writes W.contents out.old out.new (string_characters coding bytes.now)
        (is_ok result) }
{
    for byte in bytes {
        match put_character(out, coding, *byte) {
            Ok(()) => {}
            Err(fault) => return Err(fault),
        }
    }
    Ok(())
}

/// Writes the character of a byte.
fn put_character<W: Write>(out: &mut Counted<W>, coding: Coding, byte: u8) -> Result<(), WriteFault>
    ensures { Writes W.contents out.old out.new (string_character coding byte) (is_ok result) }
{
    if is_kept(coding, byte) {
        put_all(out, &[byte])
    } else {
        put_escaped(out, byte)
    }
}

/// Returns whether a byte stands in a string as it is.
fn is_kept(coding: Coding, byte: u8) -> bool
    ensures { result ≡ words.is_kept coding byte }
{
    match coding {
        Coding::Windows1252 => is_plain(byte),
        Coding::Utf8 => is_plain(byte) || byte >= 0x80,
    }
}

/// Writes the escape of a byte.
fn put_escaped<W: Write>(out: &mut Counted<W>, byte: u8) -> Result<(), WriteFault>
    ensures { Writes W.contents out.old out.new (escape_of byte) (is_ok result) }
{
    let code = code_of(byte);
    put_pieces(out, &[Piece::Text(b"\\u"), Piece::Hex16(code)])
}

/// Returns whether a byte is a character that needs no escape.
fn is_plain(byte: u8) -> bool
    ensures { result ≡ words.is_plain_in_string byte }
{
    byte >= b' ' && byte <= b'~' && byte != b'"' && byte != b'\\'
}

/// Returns the code of the character of a byte. A byte without a character has its own code.
fn code_of(byte: u8) -> u16
    ensures { result ≡ words.code_of byte }
{
    match character_of(byte) {
        Some(character) => character as u16,
        None => u16::from(byte),
    }
}

/// Writes the string of the hex digits of some bytes.
pub(crate) fn put_hex_string<W: Write>(out: &mut Counted<W>, bytes: &[u8]) -> Result<(), WriteFault>
    ensures { Writes W.contents out.old out.new (hex_string bytes.now) (is_ok result) }
{
    put_pieces(
        out,
        &[Piece::Text(b"\""), Piece::Hex(bytes), Piece::Text(b"\"")],
    )
}
