//! Names as text.

ghost use Rattle.std.specs.Prelude.{◌≡◌, is_ok};
ghost use Rattle.palm_text.specs.Counted.{Writes};
ghost use Rattle.unicode_text.specs.Texts as words;
ghost use Rattle.unicode_text.specs.Texts.{between, characters, characters_before, text_between};

use crate::characters::character_of;
use palm_text::{Counted, WriteFault, are_printable, put_all};
use std::io::Write;

/// Returns the character that is written for a byte: U+FFFD for a control character, or for none.
fn shown(byte: u8) -> char
    ensures { result ≡ words.shown byte }
{
    match character_of(byte) {
        Some(character) if !character.is_control() => character,
        _ => char::REPLACEMENT_CHARACTER,
    }
}

/// Writes the character of a byte.
fn put_character<W: Write>(out: &mut Counted<W>, byte: u8) -> Result<(), WriteFault>
    ensures { Writes W.contents out.old out.new (words.character byte) (is_ok result) }
{
    let mut buffer = [0; 4];
    put_all(out, shown(byte).encode_utf8(&mut buffer).as_bytes())
}

/// Writes the characters of some bytes.
fn put_characters<W: Write>(out: &mut Counted<W>, bytes: &[u8]) -> Result<(), WriteFault>
    ensures { Writes W.contents out.old out.new (characters bytes.now) (is_ok result) }
{
    for byte in bytes {
        match put_character(out, *byte) {
            Ok(()) => {}
            Err(fault) => return Err(fault),
        }
    }
    Ok(())
}

/// Writes the characters of some bytes, and a text after them.
#[tactic(auto, using(palm_text::proofs::Parts::then, palm_text::proofs::Parts::stops))]
fn put_closed<W: Write>(out: &mut Counted<W>, bytes: &[u8], after: &[u8]) -> Result<(), WriteFault>
    ensures { Writes W.contents out.old out.new (characters_before bytes.now after.now) (is_ok result) }
{
    put_characters(out, bytes)?;
    put_all(out, after)
}

/// Writes the characters of a name between two texts.
///
/// # Errors
///
/// - `WriteFault`: if a write failed, or took 0 bytes.
#[tactic(auto, using(palm_text::proofs::Parts::then, palm_text::proofs::Parts::stops))]
pub fn put_between<W: Write>(
    out: &mut Counted<W>,
    before: &[u8],
    name: &[u8],
    after: &[u8],
) -> Result<(), WriteFault>
    ensures { Writes W.contents out.old out.new (between before.now name.now after.now) (is_ok result) }
{
    put_all(out, before)?;
    put_closed(out, name, after)
}

/// Writes the characters of a name between two texts, if scripts don't spell the name in quotes.
/// Otherwise it writes nothing.
///
/// # Errors
///
/// - `WriteFault`: if a write failed, or took 0 bytes.
#[tactic(auto, using(palm_text::proofs::Parts::nothing))]
pub fn put_text<W: Write>(
    out: &mut Counted<W>,
    before: &[u8],
    name: &[u8],
    after: &[u8],
) -> Result<(), WriteFault>
    ensures { Writes W.contents out.old out.new (text_between before.now name.now after.now) (is_ok result) }
{
    if are_printable(name) {
        Ok(())
    } else {
        put_between(out, before, name, after)
    }
}
