//! Reads up to a line feed.

ghost use Rattle.std.specs.Prelude.{◌≡◌, ◌<◌, ◌≤◌, Ok, Err, IfErr, IfSome, OnOk, false, true, length, vec_len};
ghost use Rattle.std.specs.Io.{StartsWith};
ghost use Rattle.std.specs.Io.KnownBytes.{IsAtEnd, Keeps, prepend_known};
ghost use Rattle.program_io.specs.Status.{IsOfReading};

use allowance::Allowance;
use program_io::{InputFault, MOST_INPUT, read_turn};
use std::io::Read;

/// Reads until the new bytes contain a line feed, or to the end. It appends them, and returns
/// whether it is at the end.
///
/// # Errors
/// - `Read`: if a read failed.
/// - `TooLong`: if there are more than `MOST_INPUT` bytes.
/// - `Memory`: if an allocation failed.
pub(crate) fn read_ahead<A: Allowance, R: Read>(
    memory: &A,
    reader: &mut R,
    turn: &mut [u8],
    text: &mut Vec<u8>,
) -> Result<bool, InputFault>
    requires room { 0 < length turn.old }
    requires limit { vec_len text.old ≤ MOST_INPUT }
    ensures limit { OnOk result (vec_len text.new ≤ MOST_INPUT) }
    ensures more { OnOk result (StartsWith text.new.items text.old.items) }
    ensures kept { OnOk result (Keeps
        (prepend_known text.old.items (R.remaining reader.old))
        (prepend_known text.new.items (R.remaining reader.new))) }
    ensures end { result ≡ Ok true → IsAtEnd (R.remaining reader.new) }
    ensures longer { result ≡ Ok false → vec_len text.old < vec_len text.new }
    ensures too_long { result ≡ Err InputFault.TooLong
        → IfSome (prepend_known text.old.items (R.remaining reader.old))
        (λ all. MOST_INPUT < length all) }
    ensures no_memory { result ≡ Err InputFault.Memory → A.is_short memory.now }
    ensures of_reading { IfErr result IsOfReading }
{
    loop {
        let before = text.len();
        if read_turn(memory, reader, turn, text)? == 0 {
            return Ok(true);
        }
        if text[before..].contains(&b'\n') {
            return Ok(false);
        }
    }
}
