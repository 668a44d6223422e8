//! The first error of a buffered writer.

ghost use Rattle.std.specs.Prelude.{◌≡◌};

use crate::faults::STANDARD_OUTPUT;
use palm_text::Counted;
use program_io::{Noted, Status, report_outcome};
use std::io;
use std::io::{BufWriter, Write};

/// Returns the first error of a buffered writer. It discards the bytes that a fault left in the
/// buffer: to drop the buffer would write them again.
pub fn buffered_fault<W: Write + Drop>(buffer: BufWriter<Noted<W>>) -> Option<io::Error> {
    let (writer, _) = buffer.into_parts();
    let (_, fault) = writer.into_parts();
    fault
}

/// Reports on standard error why a command failed, if it did, and returns its status. `out` is the
/// command's buffered standard output.
pub fn report_buffered<R: Eprint, W: Write + Drop>(
    rt: &R,
    status: Status,
    out: Counted<BufWriter<Noted<W>>>,
) -> Status
    ensures { result ≡ status }
{
    let fault = buffered_fault(out.into_inner());
    report_outcome(rt, status, &[(STANDARD_OUTPUT, fault)]);
    status
}
