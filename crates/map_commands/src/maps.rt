//! The command `map`, over files.

ghost use Rattle.std.specs.Prelude.{[], ◌≡◌, ◌≢◌, None};

use crate::draw_command::draw_region_from;
use crate::map_command::map_region_from;
use command_files::{
    STANDARD_ERROR, STANDARD_OUTPUT, STANDARD_STREAM, buffered_fault, fail, on_image,
    output_for_picture, report_buffered, report_outputs,
};
use palm_text::Counted;
use program_io::{ErrorOutput, Noted, Status};
use raw_region::Region;
use std::alloc::Global;
use std::io;
use std::io::{BufWriter, Input, Write};
use std::rt::Files;

/// Runs `map`: prints the picture of the image at a path as text. The path `-` means standard
/// input.
pub fn map<R: Files + Input + Print + Eprint + AllocGlobal>(rt: &R, path: &str) -> Status
    ensures { result ≢ Status.BadWords }
{
    on_image(rt, path, |image| print_map(rt, image))
}

/// Runs `map` with an output file: writes the picture of the image at a path as SVG. The path `-`
/// means standard input. The output path `-` means standard output, and then the reply goes to
/// standard error.
pub fn draw<R: Files + Input + Print + Eprint + AllocGlobal>(
    rt: &R,
    path: &str,
    out_path: &str,
) -> Status
    ensures { result ≢ Status.BadWords }
{
    on_image(
        rt,
        path,
        |image|
            requires { image.lents ≡ [] }
        {
            if out_path == STANDARD_STREAM {
                draw_to_output(rt, image)
            } else {
                draw_to_file(rt, image, out_path)
            }
        },
    )
}

/// Prints the picture of an image as text.
fn print_map<R: Print + Eprint + AllocGlobal>(rt: &R, image: Region) -> Status
    requires { image.lents ≡ [] }
    ensures { result ≢ Status.BadWords }
{
    let Ok(out) = BufWriter::new(rt.alloc(), Noted::new(io::writer(rt))) else {
        return fail(rt, Status::NoMemory);
    };
    let mut out = Counted::new(out);
    let status = map_region_from(&rt.alloc(), &image, &mut out);
    report_buffered(rt, status, out)
}

/// Writes the picture of an image through a buffer. Returns the status with the first error of
/// `file_out`.
fn draw_buffered<W: Write + Drop, V: Write>(
    alloc: Global,
    image: &Region,
    file_out: W,
    out: &mut Counted<V>,
) -> (Status, Option<io::Error>)
    requires { image.now.lents ≡ [] }
    ensures { result.0 ≢ Status.BadWords }
{
    let Ok(file_out) = BufWriter::new(alloc, Noted::new(file_out)) else {
        return (Status::NoMemory, None);
    };
    let mut file_out = Counted::new(file_out);
    let status = draw_region_from(&alloc, image, &mut file_out, out);
    (status, buffered_fault(file_out.into_inner()))
}

/// Writes the picture of an image to standard output.
fn draw_to_output<R: Print + Eprint + AllocGlobal>(rt: &R, image: Region) -> Status
    requires { image.lents ≡ [] }
    ensures { result ≢ Status.BadWords }
{
    let mut out = Counted::new(Noted::new(ErrorOutput::new(rt)));
    let (status, file_fault) = draw_buffered(rt.alloc(), &image, io::writer(rt), &mut out);
    report_outputs(
        rt,
        status,
        (STANDARD_OUTPUT, file_fault),
        STANDARD_ERROR,
        out,
    )
}

/// Writes the picture of an image to a file. An image and a PDB or PRC file aren't replaced.
fn draw_to_file<R: Files + Print + Eprint + AllocGlobal>(
    rt: &R,
    image: Region,
    out_path: &str,
) -> Status
    requires { image.lents ≡ [] }
    ensures { result ≢ Status.BadWords }
{
    let mut file_out = match output_for_picture(rt, out_path) {
        Ok(file_out) => file_out,
        Err(status) => return status,
    };
    let mut out = Counted::new(Noted::new(io::writer(rt)));
    let (status, file_fault) = draw_buffered(rt.alloc(), &image, &mut file_out, &mut out);
    file_out.close();
    report_outputs(rt, status, (out_path, file_fault), STANDARD_OUTPUT, out)
}
