//! Writes all of some bytes, and flushes after them.

ghost use Rattle.std.specs.Prelude.{is_ok};
ghost use Rattle.palm_text.specs.Counted.{Writes};
ghost use Rattle.palm_text.specs.Output.{Puts};

use crate::counted::Counted;
use std::io::Write;
use thiserror::Error;

/// A write failed, or took 0 bytes.
#[derive(Clone, Copy, Debug, PartialEq, Eq, Error)]
#[error("a write failed")]
pub struct WriteFault;

/// Writes all of `bytes`, and doesn't flush. It stops at the first write that fails or takes 0
/// bytes.
pub fn put_all<W: Write>(out: &mut Counted<W>, bytes: &[u8]) -> Result<(), WriteFault>
    ensures { Writes W.contents out.old out.new bytes.now (is_ok result) }
{
    let mut rest = bytes;
    while !rest.is_empty() {
        match out.write(rest) {
            Ok(n) if n > 0 => rest = &rest[n..],
            _ => return Err(WriteFault),
        }
    }
    Ok(())
}

/// Writes all of `bytes`, and flushes once. At the first write that fails or takes 0 bytes it stops
/// and doesn't flush.
#[tactic(auto, using(crate::proofs::Parts::then_flush))]
pub fn put<W: Write>(out: &mut Counted<W>, bytes: &[u8]) -> Result<(), WriteFault>
    ensures { Puts W.contents out.old out.new bytes.now (is_ok result) }
{
    put_all(out, bytes)?;
    out.flush().map_err(|_| WriteFault)
}
