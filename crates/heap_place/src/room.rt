//! Searches for a run of neighbouring free chunks.
#![tactic(auto, using(laws_heap::proofs::LentBodies::frame_within, laws_heap::proofs::LentBodies::table_within))]

ghost use Rattle.std.specs.Prelude.{◌≡◌, ◌≤◌, ◌<◌, ◌+◌, ◌^◌, length, IfSome, IfNone};
ghost use Rattle.heap_model.specs.Reading.{chunks_of};
ghost use Rattle.heap_model.specs.Space.{NoRun};
ghost use Rattle.heap_model.specs.Layout.{IsRoom};
ghost use Rattle.heap_model.specs.Lending.{HoldsHeap};
ghost use Rattle.heap_place.specs.Search.{run_by};
ghost use Rattle.chunk_format.specs.Header.{size_by};

use chunk_format::{Header, area_start};
use raw_region::Region;

/// The start of a run of neighbouring free chunks, as an offset from the image's start, and the
/// size of its first chunks in bytes.
#[derive(Clone, Copy)]
pub struct Room {
    pub at: u32,
    pub size: u32,
}

/// Returns the first run of neighbouring free chunks that has `size` bytes, up to the chunk with
/// which it has them.
pub fn find_room(region: &Region, size: u32) -> Option<Room>
    requires heap { HoldsHeap region.now }
    requires some_size { 0 < size }
    ensures room { IfSome result (λ room. IsRoom region.now.bytes room.at room.size) }
    ensures enough { IfSome result (λ room. size ≤ room.size) }
    ensures none { IfNone result (NoRun (chunks_of region.now.bytes) size) }
{
    let end = region.len() as u32;
    let mut at = area_start(region);
    let mut run_size = 0;
    while at < end {
        let (header, taken) = Header::at_with_size(region, at);
        at += taken;
        run_size = run_with(run_size, header);
        if run_size >= size {
            return Some(Room {
                at: at - run_size,
                size: run_size,
            });
        }
    }
    None
}

/// Returns the bytes of a run of free chunks when the next chunk is known. A free chunk adds its
/// size, and a live one resets the count to 0.
#[inline]
fn run_with(run_size: u32, header: Header) -> u32
    requires { run_size + size_by header < 2 ^ 32 }
    ensures { result ≡ run_by run_size header }
{
    match header {
        Header::Free { size } => run_size + size,
        _ => 0,
    }
}
