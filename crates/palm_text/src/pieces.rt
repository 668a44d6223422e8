//! Lines that are written piece by piece.

ghost use Rattle.std.specs.Prelude.{◌≡◌, ◌≤◌, is_ok, length};
ghost use Rattle.hex.specs.Hex.{encode_lower};
ghost use Rattle.heap_model.specs.Bytes.{u16_bytes, u32_bytes};
ghost use Rattle.palm_text.specs.Counted.{Writes};
ghost use Rattle.palm_text.specs.Pieces.{piece_text, text_of_pieces};

use crate::counted::Counted;
use crate::has_text::{HasText, put_each};
use crate::output::{WriteFault, put_all};
use crate::spelled::put_spelled;
use byteorder::{BigEndian, ByteOrder};
use itoa::Buffer;
use std::io::Write;

/// The number of bytes that are printed in hex at a time.
const TURN: usize = 32;

/// A piece of a line.
#[derive(Clone, Copy)]
pub enum Piece<'a> {
    /// These bytes.
    Text(&'a [u8]),
    /// A text as scripts spell it. It is in quotes if each byte is a character from space to `~`,
    /// except `"`. Otherwise it is `x:` and two hex digits in lower case for each byte.
    Spelled(&'a [u8]),
    /// The four bytes of a number, as a spelled text. Types and creators are printed this way.
    FourBytes(u32),
    /// A number in decimal.
    Number(u32),
    /// Two hex digits in lower case for each byte, and nothing for no bytes.
    Hex(&'a [u8]),
    /// A number in two hex digits in lower case.
    Hex8(u8),
    /// A number in four hex digits in lower case.
    Hex16(u16),
    /// A number in eight hex digits in lower case.
    Hex32(u32),
}

/// Writes pieces, one after another.
#[tactic(auto, using(crate::proofs::PieceTexts::put_all_of))]
pub fn put_pieces<W: Write>(out: &mut Counted<W>, pieces: &[Piece]) -> Result<(), WriteFault>
    ensures { Writes W.contents out.old out.new (text_of_pieces pieces.now) (is_ok result) }
{
    put_each(out, pieces)
}

impl HasText for Piece<'_> {
    ghost text = { piece_text };

    fn put_to<W: Write>(&self, out: &mut Counted<W>) -> Result<(), WriteFault> {
        match self {
            Piece::Text(text) => put_all(out, text),
            Piece::Spelled(text) => put_spelled(out, text),
            Piece::FourBytes(number) => put_spelled(out, &four_bytes(*number)),
            Piece::Number(number) => {
                let mut buffer = Buffer::new();
                put_all(out, buffer.format(*number).as_bytes())
            }
            Piece::Hex(bytes) => put_hex(out, bytes),
            Piece::Hex8(number) => put_hex_turn(out, &[*number]),
            Piece::Hex16(number) => put_hex_16(out, *number),
            Piece::Hex32(number) => put_hex_turn(out, &four_bytes(*number)),
        }
    }
}

/// Returns the four bytes of a number, big-endian.
pub fn four_bytes(number: u32) -> [u8; 4]
    ensures { result ≡ u32_bytes number }
{
    let mut bytes = [0; 4];
    BigEndian::write_u32(&mut bytes, number);
    bytes
}

/// Writes a number in four hex digits.
fn put_hex_16<W: Write>(out: &mut Counted<W>, number: u16) -> Result<(), WriteFault>
    ensures { Writes W.contents out.old out.new (encode_lower (u16_bytes number)) (is_ok result) }
{
    let mut bytes = [0; 2];
    BigEndian::write_u16(&mut bytes, number);
    put_hex_turn(out, &bytes)
}

/// Writes bytes in hex, `TURN` at a time, so it needs no memory.
pub(crate) fn put_hex<W: Write>(out: &mut Counted<W>, bytes: &[u8]) -> Result<(), WriteFault>
    ensures { Writes W.contents out.old out.new (encode_lower bytes.now) (is_ok result) }
{
    let mut rest = bytes;
    while !rest.is_empty() {
        let (turn, behind) = rest.split_at(rest.len().min(TURN));
        match put_hex_turn(out, turn) {
            Ok(()) => {}
            Err(fault) => return Err(fault),
        }
        rest = behind;
    }
    Ok(())
}

fn put_hex_turn<W: Write>(out: &mut Counted<W>, bytes: &[u8]) -> Result<(), WriteFault>
    requires { length bytes.now ≤ TURN }
    ensures { Writes W.contents out.old out.new (encode_lower bytes.now) (is_ok result) }
{
    let mut buffer = [0; 2 * TURN];
    let digits = &mut buffer[..2 * bytes.len()];
    hex::encode_to_slice(bytes, digits).unwrap();
    put_all(out, digits)
}
