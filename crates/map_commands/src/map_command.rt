//! The command `map`: the picture of an image, as text.

ghost use Rattle.std.specs.Prelude.{[], ◌≡◌};
ghost use Rattle.map_commands.specs.Mapping.{EndsMap};
ghost use Rattle.palm_text.specs.Output.{output};

use allowance::Allowance;
use heap_map::{MapFault, put_map};
use image_commands::say_bad_image;
use palm_text::Counted;
use program_io::{Status, flushed};
use raw_region::Region;
use std::io::Write;

/// Prints the picture of an image. If the image is refused, prints `bad` and its first fault. Each
/// allocation asks `memory` for a grant.
#[tactic(auto, using(crate::proofs::Mapped::flushed, crate::proofs::Mapped::flush_fails, crate::proofs::Mapped::stops))]
pub fn map_region_from<A: Allowance, V: Write>(
    memory: &A,
    region: &Region,
    out: &mut Counted<V>,
) -> Status
    requires whole { region.now.lents ≡ [] }
    ensures ends { EndsMap region.now.bytes (output V.contents out.old out.new) result }
    ensures short { result ≡ Status.NoMemory → A.is_short memory.now }
{
    match put_map(memory, region, out) {
        Ok(()) => match flushed(out) {
            Ok(()) => Status::Done,
            Err(_) => Status::WriteFault,
        },
        Err(MapFault::BadImage(fault)) => say_bad_image(out, fault),
        Err(MapFault::OutOfMemory) => Status::NoMemory,
        Err(MapFault::Write) => Status::WriteFault,
    }
}
