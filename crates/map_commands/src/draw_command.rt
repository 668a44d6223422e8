//! The command `map` with an output file: the picture of an image, as SVG.

ghost use Rattle.std.specs.Prelude.{[], ◌≡◌};
ghost use Rattle.map_commands.specs.Drawing.{EndsDraw, PutsDrawing};
ghost use Rattle.map_commands.specs.Mapping.{PutsPicture};
ghost use Rattle.palm_text.specs.Output.{output};

use allowance::Allowance;
use heap_map::MapFault;
use heap_svg::put_svg;
use image_commands::say_bad_image;
use palm_text::Counted;
use program_io::{Status, say};
use raw_region::Region;
use std::io::Write;

/// Writes the picture of an image in a region as SVG to `file_out`, and then `ok` to `out`.
///
/// If the image is refused, prints `bad` and its first fault, and writes nothing to `file_out`.
/// Each allocation asks `memory` for a grant.
pub fn draw_region_from<A: Allowance, W: Write, V: Write>(
    memory: &A,
    region: &Region,
    file_out: &mut Counted<W>,
    out: &mut Counted<V>,
) -> Status
    requires whole { region.now.lents ≡ [] }
    ensures ends { EndsDraw region.now.bytes (output W.contents file_out.old file_out.new)
        (output V.contents out.old out.new) result }
    ensures short { result ≡ Status.NoMemory → A.is_short memory.now }
{
    match put_flushed(memory, region, file_out) {
        Ok(()) => say(b"ok\n", Status::Done, out),
        Err(MapFault::BadImage(fault)) => say_bad_image(out, fault),
        Err(MapFault::OutOfMemory) => Status::NoMemory,
        Err(MapFault::Write) => Status::WriteFault,
    }
}

/// Writes the picture of an image as SVG, and flushes.
#[tactic(auto, using(crate::proofs::Drawn::flushed, crate::proofs::Drawn::flush_fails, crate::proofs::Drawn::stops))]
fn put_flushed<A: Allowance, W: Write>(
    memory: &A,
    region: &Region,
    file_out: &mut Counted<W>,
) -> Result<(), MapFault>
    requires whole { region.now.lents ≡ [] }
    ensures { PutsPicture region.now.bytes
        (PutsDrawing region.now.bytes (output W.contents file_out.old file_out.new))
        (file_out.new ≡ file_out.old) (A.is_short memory.now) result }
{
    put_svg(memory, region, file_out)?;
    match file_out.flush() {
        Ok(()) => Ok(()),
        Err(_) => Err(MapFault::Write),
    }
}
