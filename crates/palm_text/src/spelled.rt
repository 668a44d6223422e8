//! Writes bytes as scripts spell text.

ghost use Rattle.std.specs.Prelude.{◌≡◌, is_ok};
ghost use Rattle.std.specs.List.{list_all};
ghost use Rattle.palm_text.specs.Counted.{Writes};
ghost use Rattle.palm_text.specs.Pieces as pieces;
ghost use Rattle.palm_text.specs.Pieces.{closed, marked_hex, script_quoted, script_spelled};

use crate::counted::Counted;
use crate::output::{WriteFault, put_all};
use crate::pieces::put_hex;
use std::io::Write;

/// Reports whether quotes may contain all of these bytes.
pub fn are_printable(bytes: &[u8]) -> bool
    ensures { result ≡ list_all pieces.is_printable bytes.now }
{
    for byte in bytes {
        if !is_printable(*byte) {
            return false;
        }
    }
    true
}

/// Reports whether quotes may contain a byte.
fn is_printable(byte: u8) -> bool
    ensures { result ≡ pieces.is_printable byte }
{
    byte >= b' ' && byte <= b'~' && byte != b'"'
}

/// Writes bytes in quotes if all are printable, and otherwise in hex.
pub(crate) fn put_spelled<W: Write>(out: &mut Counted<W>, bytes: &[u8]) -> Result<(), WriteFault>
    ensures { Writes W.contents out.old out.new (script_spelled bytes.now) (is_ok result) }
{
    if are_printable(bytes) {
        put_quoted(out, bytes)
    } else {
        put_marked_hex(out, bytes)
    }
}

fn put_quoted<W: Write>(out: &mut Counted<W>, bytes: &[u8]) -> Result<(), WriteFault>
    ensures { Writes W.contents out.old out.new (script_quoted bytes.now) (is_ok result) }
{
    match put_all(out, b"\"") {
        Ok(()) => put_closed(out, bytes),
        Err(fault) => Err(fault),
    }
}

/// Writes bytes and the quote after them.
fn put_closed<W: Write>(out: &mut Counted<W>, bytes: &[u8]) -> Result<(), WriteFault>
    ensures { Writes W.contents out.old out.new (closed bytes.now) (is_ok result) }
{
    match put_all(out, bytes) {
        Ok(()) => put_all(out, b"\""),
        Err(fault) => Err(fault),
    }
}

fn put_marked_hex<W: Write>(out: &mut Counted<W>, bytes: &[u8]) -> Result<(), WriteFault>
    ensures { Writes W.contents out.old out.new (marked_hex bytes.now) (is_ok result) }
{
    match put_all(out, b"x:") {
        Ok(()) => put_hex(out, bytes),
        Err(fault) => Err(fault),
    }
}
