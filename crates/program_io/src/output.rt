//! Lines that are printed, and the status that follows.

ghost use Rattle.std.specs.Prelude.{◌≡◌, ◌≢◌, ◌⊎◌, IsOkAnd, is_ok, string_bytes, true, false};
ghost use Rattle.std.specs.Result.{IsErr};
ghost use Rattle.palm_text.specs.Counted.{Flushes, Writes};
ghost use Rattle.palm_text.specs.Output.{Puts};
ghost use Rattle.program_io.specs.BadLines.{bad_line};

use crate::status::Status;
use palm_text::{Counted, Piece, WriteFault, put, put_pieces};
use std::alloc::AllocError;
use std::io::Write;

/// Flushes a writer.
pub fn flushed<V: Write>(out: &mut Counted<V>) -> Result<(), WriteFault>
    ensures { Flushes V.contents out.old out.new (is_ok result) }
{
    out.flush().map_err(|_| WriteFault)
}

/// Prints a line and flushes `out`. Returns `status`, or `WriteFault` if a write or the flush
/// failed.
pub fn say<V: Write>(line: &[u8], status: Status, out: &mut Counted<V>) -> Status
    requires { status ≢ Status.WriteFault }
    ensures status { (result ≡ status) ⊎ (result ≡ Status.WriteFault) }
    ensures said { result ≡ status → Puts V.contents out.old out.new line.now true }
    ensures fault { result ≡ Status.WriteFault → Puts V.contents out.old out.new line.now false }
{
    match put(out, line) {
        Ok(()) => status,
        Err(_) => Status::WriteFault,
    }
}

/// Prints `bad` and the name of a fault, and flushes `out`. Returns `status`, or `WriteFault` if a
/// write or the flush failed.
pub fn say_bad<V: Write>(name: &str, status: Status, out: &mut Counted<V>) -> Status
    requires { status ≢ Status.WriteFault }
    ensures status { (result ≡ status) ⊎ (result ≡ Status.WriteFault) }
    ensures said { result ≡ status → Puts V.contents out.old out.new (bad_line name.now) true }
    ensures fault { result ≡ Status.WriteFault
        → Puts V.contents out.old out.new (bad_line name.now) false }
{
    match put_bad(out, name) {
        Ok(()) => status,
        Err(_) => Status::WriteFault,
    }
}

/// Writes `bad` and the name of a fault, and flushes `out`.
#[tactic(auto, using(palm_text::proofs::Parts::then_flush))]
fn put_bad<V: Write>(out: &mut Counted<V>, name: &str) -> Result<(), WriteFault>
    ensures { Puts V.contents out.old out.new (bad_line name.now) (is_ok result) }
{
    put_bad_line(out, name)?;
    flushed(out)
}

/// Writes `bad` and the name of a fault.
fn put_bad_line<V: Write>(out: &mut Counted<V>, name: &str) -> Result<(), WriteFault>
    ensures { Writes V.contents out.old out.new (bad_line name.now) (is_ok result) }
{
    put_pieces(
        out,
        &[
            Piece::Text(b"bad "),
            Piece::Text(name.as_bytes()),
            Piece::Text(b"\n"),
        ],
    )
}

/// Prints a line and flushes `out`. Returns `status`, or the fault if an allocation, a write or the
/// flush failed.
pub fn say_text<V: Write>(
    line: Result<String, AllocError>,
    status: Status,
    out: &mut Counted<V>,
) -> Status
    requires write { status ≢ Status.WriteFault }
    requires memory { status ≢ Status.NoMemory }
    ensures status { (result ≡ status) ⊎ (result ≡ Status.WriteFault) ⊎ (result ≡ Status.NoMemory) }
    ensures said { result ≡ status → IsOkAnd line (λ line.
        Puts V.contents out.old out.new (string_bytes line) true) }
    ensures fault { result ≡ Status.WriteFault → IsOkAnd line (λ line.
        Puts V.contents out.old out.new (string_bytes line) false) }
    ensures no_memory { result ≡ Status.NoMemory
        → IsErr line × (out.new ≡ out.old) }
{
    match line {
        Ok(line) => say(line.as_bytes(), status, out),
        Err(_) => Status::NoMemory,
    }
}
