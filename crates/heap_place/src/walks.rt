//! Walks over all chunks.
#![tactic(auto, using(laws_heap::proofs::LentBodies::frame_within, laws_heap::proofs::LentBodies::table_within))]

ghost use Rattle.std.specs.Prelude.{◌≡◌, ◌≤◌, ◌<◌, ◌+◌, ◌^◌, length, IfSome, IfNone};
ghost use Rattle.heap_model.specs.Reading.{chunks_of};
ghost use Rattle.heap_model.specs.Space.{free_total};
ghost use Rattle.heap_model.specs.Lending.{HoldsHeap};
ghost use Rattle.std.specs.Bool.{OnTrue, OnFalse};
ghost use Rattle.heap_model.specs.Memory.{Misses};
ghost use Rattle.heap_place.specs.Found.{IsFound, NoneFixedAs, NoneBeginsAt};
ghost use Rattle.heap_place.specs.Search.{free_by};

use crate::found::{Found, as_fixed};
use chunk_format::{HEADER_SIZE, Header, area_start};
use heap_model::{Name, Place};
use raw_region::Region;

/// Returns the fixed chunk that has a name: the name is the offset of its body.
#[inline(never)]
pub fn find_fixed(region: &Region, name: Name) -> Option<Found>
    requires heap { HoldsHeap region.now }
    ensures found { IfSome result (IsFound region.now.bytes name.0) }
    ensures there { IfSome result (λ found. found.place.0 ≡ name.0) }
    ensures none { IfNone result
        (NoneFixedAs region.now.bytes name.0 (chunks_of region.now.bytes)) }
{
    let end = region.len() as u32;
    let mut at = area_start(region);
    while at < end {
        let (header, taken) = Header::at_with_size(region, at);
        if let Some(found) = as_fixed(header, Place(at + HEADER_SIZE), name) {
            return Some(found);
        }
        at += taken;
    }
    None
}

/// Returns whether a chunk begins at an offset.
#[inline(never)]
pub(crate) fn begins_at(region: &Region, there: u32) -> bool
    requires heap { HoldsHeap region.now }
    ensures begins { OnTrue result (Misses region.now.lents there HEADER_SIZE) }
    ensures none { OnFalse result (NoneBeginsAt region.now.bytes there (chunks_of region.now.bytes)) }
{
    let end = region.len() as u32;
    let mut at = area_start(region);
    while at < end {
        if at == there {
            return true;
        }
        let (_, taken) = Header::at_with_size(region, at);
        at += taken;
    }
    false
}

/// Returns whether a header at an offset may be read. If a body is lent, all chunks are searched
/// for one that begins there.
#[inline]
pub(crate) fn may_read_header(region: &Region, there: u32) -> bool
    requires heap { HoldsHeap region.now }
    ensures reads { OnTrue result (Misses region.now.lents there HEADER_SIZE) }
    ensures none { OnFalse result (NoneBeginsAt region.now.bytes there (chunks_of region.now.bytes)) }
{
    if region.is_whole() {
        return true;
    }
    begins_at(region, there)
}

/// Returns the sum of the sizes of the free chunks, in bytes.
pub fn free_bytes(region: &Region) -> u32
    requires heap { HoldsHeap region.now }
    ensures { result ≡ free_total region.now.bytes }
{
    let end = region.len() as u32;
    let mut at = area_start(region);
    let mut count = 0;
    while at < end {
        let (header, taken) = Header::at_with_size(region, at);
        count += size_if_free(header);
        at += taken;
    }
    count
}

/// Returns the size of a free chunk, and 0 for a live one.
#[inline]
pub fn size_if_free(header: Header) -> u32
    ensures { result ≡ free_by header }
{
    match header {
        Header::Free { size } => size,
        _ => 0,
    }
}
