//! One read.

ghost use Rattle.std.specs.Prelude.{Ok, Err};
ghost use Rattle.std.specs.Io.{ReadsAtMost};
ghost use Rattle.std.specs.Io.KnownBytes.{ReadConsumes};

use std::io;
use std::io::Read;
use thiserror::Error;

/// The error of a read that failed. Only `read_once` makes one, so a function that returns one has
/// it from a failed read.
#[derive(Clone, Copy, Debug, Error)]
#[error("{error}")]
pub struct ReadFailure {
    error: io::Error,
}

/// Reads once, by one call of the reader, and returns the number of bytes.
pub fn read_once<R: Read>(reader: &mut R, turn: &mut [u8]) -> Result<usize, ReadFailure>
    ensures bound { ReadsAtMost result turn.new }
    ensures bytes { ReadConsumes (R.remaining reader.old) (R.remaining reader.new) result turn.new }
{
    match reader.read(turn) {
        Ok(n) => Ok(n),
        Err(error) => Err(ReadFailure { error }),
    }
}
