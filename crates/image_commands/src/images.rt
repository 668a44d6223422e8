//! The commands `new` and `check`.

ghost use Rattle.std.specs.Prelude.{[], ◌≡◌, ◌≢◌};

use crate::commands::{check_region_from, cmd_new_from};
use command_files::{
    fail, image_output, on_image, report_buffered, report_image, report_output, suggest_explain,
};
use palm_text::Counted;
use program_io::command_line::Form;
use program_io::{Noted, Status};
use raw_region::Region;
use std::io;
use std::io::{BufWriter, Input};
use std::rt::Files;

/// Runs `new`: writes a blank image to a path. A PDB or PRC file isn't replaced.
pub fn new<R: Files + Print + Eprint + AllocGlobal>(
    rt: &R,
    size: u32,
    slots: u16,
    path: &str,
) -> Status
    ensures not_refused { result ≢ Status.Refused }
    ensures reads_nothing { result ≢ Status.ReadFault }
{
    let mut image_out = match image_output(rt, path) {
        Ok(image_out) => image_out,
        Err(status) => return status,
    };
    let mut out = Counted::new(Noted::new(io::writer(rt)));
    let status = cmd_new_from(&rt.alloc(), size, slots, &mut image_out, &mut out);
    let status = report_image(rt, status, path, image_out, out);
    suggest_explain(rt, status, Some(size));
    status
}

/// Runs `check` on the image at a path, and prints in a form. The path `-` means standard input.
pub fn check<R: Files + Input + Print + Eprint + AllocGlobal>(
    rt: &R,
    path: &str,
    form: Form,
) -> Status
    ensures { result ≢ Status.BadWords }
{
    on_image(rt, path, |image| match form {
        Form::Text => print_lines(rt, image),
        Form::Json => print_document(rt, image),
    })
}

/// Checks an image, and prints lines.
fn print_lines<R: Print + Eprint + AllocGlobal>(rt: &R, image: Region) -> Status
    requires { image.lents ≡ [] }
    ensures { result ≢ Status.BadWords }
{
    let mut out = Counted::new(Noted::new(io::writer(rt)));
    let status = check_region_from(&rt.alloc(), &image, Form::Text, &mut out);
    report_output(rt, status, out)
}

/// Checks an image, and prints a document. A buffer collects its parts.
fn print_document<R: Print + Eprint + AllocGlobal>(rt: &R, image: Region) -> Status
    requires { image.lents ≡ [] }
    ensures { result ≢ Status.BadWords }
{
    let Ok(out) = BufWriter::new(rt.alloc(), Noted::new(io::writer(rt))) else {
        return fail(rt, Status::NoMemory);
    };
    let mut out = Counted::new(out);
    let status = check_region_from(&rt.alloc(), &image, Form::Json, &mut out);
    report_buffered(rt, status, out)
}
