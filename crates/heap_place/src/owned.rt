//! Makes all chunks of an owner free.
#![tactic(auto, using(laws_heap::proofs::LentBodies::frame_within, laws_heap::proofs::LentBodies::table_within))]

ghost use Rattle.std.specs.Prelude.{IfSome, IfNone, ◌≡◌, ◌≤◌, ◌<◌, ◌+◌, ◌^◌, count_by, length};
ghost use Rattle.heap_model.specs.Chunk.{is_owned_by};
ghost use Rattle.heap_model.specs.Lending.{LendsNoneOf, HoldsHeap};
ghost use Rattle.heap_model.specs.Layout.{Becomes, layout_of, owned_freed, WritesPlain};
ghost use Rattle.heap_place.specs.Found.{owned_by, IsOne};
ghost use Rattle.raw_region.specs.Marks.{BeginsAt};

use crate::found::Found;
use crate::release::release;
use chunk_format::{FIXED_LOCK, HEADER_SIZE, Header, area_start};
use heap_model::{Name, Place};
use raw_region::Region;

/// Makes the chunks of an owner free in one walk, and returns their number. The caller must ensure
/// that none of them is lent.
pub fn release_owned(region: &mut Region, owner: u8) -> u32
    requires heap { HoldsHeap region.old }
    requires some_owner { 0 < owner }
    requires none_lent { LendsNoneOf region.old owner }
    ensures gone { Becomes region.old.bytes region.new.bytes
        (owned_freed owner (layout_of region.old.bytes)) }
    ensures count { result ≡ count_by (is_owned_by owner) (layout_of region.old.bytes) }
    ensures plain { WritesPlain region.old.bytes region.new.bytes }
    ensures rest { region.new ≡ record region.old { bytes = region.new.bytes } }
    ensures heap { HoldsHeap region.new }
{
    let end = region.len() as u32;
    let mut at = area_start(region);
    let mut count = 0;
    while at < end {
        let (header, size) = Header::at_with_size(region, at);
        match if_owned(header, Place(at + HEADER_SIZE), owner) {
            Some(found) => {
                at += release(region, found);
                count += 1;
            }
            None => at += size,
        }
    }
    count
}

/// Returns a chunk of an owner whose body is lent, if there is one. If nothing is lent, no chunk is
/// looked at.
pub fn lent_of_owner(region: &Region, owner: u8) -> Option<Found>
    requires heap { HoldsHeap region.now }
    requires some_owner { 0 < owner }
    ensures found { IfSome result (λ found. IsOne region.now.bytes found) }
    ensures owns { IfSome result (λ found. found.owner ≡ owner) }
    ensures begins { IfSome result (λ found. BeginsAt found.place.0 region.now.lents) }
    ensures none { IfNone result (LendsNoneOf region.now owner) }
{
    if region.is_whole() {
        return None;
    }
    let end = region.len() as u32;
    let mut at = area_start(region);
    while at < end {
        let (header, size) = Header::at_with_size(region, at);
        if let Some(found) = if_owned(header, Place(at + HEADER_SIZE), owner) {
            if region.lends_at(found.place.0) {
                return Some(found);
            }
        }
        at += size;
    }
    None
}

/// Returns the chunk whose body is at a place, if its header names this owner.
#[inline]
fn if_owned(header: Header, place: Place, owner: u8) -> Option<Found>
    ensures { result ≡ owned_by header place owner }
{
    match header {
        Header::Movable {
            length,
            lock,
            owner: own,
            slot,
        } if own == owner => Some(Found {
            name: Name(slot),
            place,
            length,
            lock,
            owner,
        }),
        Header::Fixed { length, owner: own } if own == owner => Some(Found {
            name: Name(place.0),
            place,
            length,
            lock: FIXED_LOCK,
            owner,
        }),
        _ => None,
    }
}
