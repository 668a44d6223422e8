//! The outputs of a command, and its end after it wrote to one or to two.

ghost use Rattle.std.specs.Prelude.{◌≡◌, ◌⊎◌, IfErr};

use crate::faults::STANDARD_OUTPUT;
use crate::replacing::{OutputKind, output_for};
use palm_text::Counted;
use program_io::{Noted, OutputFile, Status, report_outcome};
use std::io;
use std::io::Write;
use std::rt::Files;

/// Returns a writer for an image at a path, as `output_for` does.
///
/// # Errors
/// - `WriteFault`: there is a file that looks like a PDB or PRC file.
/// - `NoMemory`: an allocation failed.
pub fn image_output<'a, R: Files + Eprint + AllocGlobal>(
    rt: &'a R,
    path: &str,
) -> Result<Counted<Noted<OutputFile<'a, R>>>, Status>
    ensures { IfErr result (λ status. (status ≡ Status.WriteFault) ⊎ (status ≡ Status.NoMemory)) }
{
    match output_for(rt, path, OutputKind::Image) {
        Ok(out) => Ok(Counted::new(Noted::new(out))),
        Err(status) => Err(status),
    }
}

/// Closes the output file of a command. Returns the first error of its writer.
pub fn close_output<R: Files + AllocGlobal>(
    out: Counted<Noted<OutputFile<'_, R>>>,
) -> Option<io::Error> {
    let (out, fault) = out.into_inner().into_parts();
    out.close();
    fault
}

/// Reports on standard error why a command failed, if it did, and returns its status. `out` is the
/// command's standard output.
pub fn report_output<R: Eprint, W: Write + Drop>(
    rt: &R,
    status: Status,
    out: Counted<Noted<W>>,
) -> Status
    ensures { result ≡ status }
{
    let (_, fault) = out.into_inner().into_parts();
    report_outcome(rt, status, &[(STANDARD_OUTPUT, fault)]);
    status
}

/// Reports on standard error why a command with two outputs failed, if it did, and returns its
/// status. `file` has the name of the main output, and the first error of its writer. `name` is the
/// name of `out`.
pub fn report_outputs<R: Eprint, W: Write + Drop>(
    rt: &R,
    status: Status,
    file: (&str, Option<io::Error>),
    name: &str,
    out: Counted<Noted<W>>,
) -> Status
    ensures { result ≡ status }
{
    let (_, fault) = out.into_inner().into_parts();
    report_outcome(rt, status, &[file, (name, fault)]);
    status
}

/// Closes the image that a command wrote to a path. Reports on standard error why the command
/// failed, if it did, and returns its status. `out` is its standard output.
pub fn report_image<R: Files + Eprint + AllocGlobal, W: Write + Drop>(
    rt: &R,
    status: Status,
    path: &str,
    image_out: Counted<Noted<OutputFile<'_, R>>>,
    out: Counted<Noted<W>>,
) -> Status
    ensures { result ≡ status }
{
    report_outputs(
        rt,
        status,
        (path, close_output(image_out)),
        STANDARD_OUTPUT,
        out,
    )
}
