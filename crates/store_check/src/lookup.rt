//! The chunks of the manager: the places of their bodies, by their slots, and the bytes there.
#![tactic(auto, using(laws_heap::proofs::Lending::all_within, laws_heap::proofs::Lending::all_misses))]

ghost use Rattle.std.specs.Prelude.{[], ◌≡◌, ◌≤◌, ◌<◌, ◌+◌, length, slice_range, None};
ghost use Rattle.heap_model.specs.Chunk.{managers_owner};
ghost use Rattle.heap_model.specs.Heap.{HeapAccepted};
ghost use Rattle.heap_model.specs.Store.{owner_under, directory_bytes};
ghost use Rattle.store_check.specs.Listing.{listed_at, listed_count as model_count, header_at, IsGoodDirectory, AreListed};
ghost use Rattle.store_check.specs.Lookup.{HasBody, body_if_movable};

use crate::words::word_at;
use chunk_format::{HEADER_SIZE, Header, directory};
use heap_model::Place;
use master_table::word_of;
use raw_region::Region;

/// The body of a movable chunk: its place and its length in bytes.
#[derive(Clone, Copy)]
pub(crate) struct Body {
    pub(crate) place: Place,
    pub(crate) length: u32,
}

/// The entry of a table in which no body is noted yet.
pub(crate) const NO_BODY: Body = Body {
    place: Place(0),
    length: 0,
};

/// Returns the body at a place of the chunk with this header, if it is a movable one.
#[inline]
fn as_movable(header: Header, place: Place) -> Option<Body>
    ensures { result ≡ body_if_movable header place }
{
    match header {
        Header::Movable { length, .. } => Some(Body { place, length }),
        _ => None,
    }
}

/// Returns the body of a chunk of the manager's. Its slot holds the place.
fn body_under(region: &Region, slot: u32) -> Body
    requires whole { region.now.lents ≡ [] }
    requires accepted { HeapAccepted region.now.bytes }
    requires managers { owner_under region.now.bytes slot ≡ managers_owner }
    ensures { HasBody region.now.bytes slot result }
{
    let place = Place(word_of(region, slot));
    as_movable(Header::at(region, place.0 - HEADER_SIZE), place).unwrap()
}

/// Returns the bytes of a body.
#[inline]
pub(crate) fn bytes_of(region: &Region, body: Body) -> &[u8]
    requires whole { region.now.lents ≡ [] }
    requires inside { body.place.0 + body.length ≤ length region.now.bytes }
    ensures { result.now ≡ slice_range region.now.bytes
        body.place.0 (body.place.0 + body.length) }
{
    region.slice(body.place.0 as usize, body.length as usize)
}

/// Returns the bytes of the directory. There are none if the directory word is 0.
pub(crate) fn directory_in(region: &Region) -> &[u8]
    requires whole { region.now.lents ≡ [] }
    requires accepted { HeapAccepted region.now.bytes }
    ensures { result.now ≡ directory_bytes region.now.bytes }
{
    let slot = directory(region);
    if slot == 0 {
        return region.slice(0, 0);
    }
    bytes_of(region, body_under(region, slot))
}

/// Returns the body under the directory's word with an index: the header of that database and its
/// entries.
pub(crate) fn find_header(region: &Region, directory: &[u8], db: usize) -> Body
    requires whole { region.now.lents ≡ [] }
    requires listing { IsGoodDirectory region.now.bytes directory.now }
    requires below { db < model_count region.now.bytes }
    ensures { HasBody region.now.bytes (listed_at region.now.bytes db) result }
{
    body_under(region, word_at(directory, db))
}

/// Returns the bytes of the header of the database with an index, and of its entries.
#[inline]
pub(crate) fn header_of<'a>(region: &'a Region, headers: &[Body], db: usize) -> &'a [u8]
    requires whole { region.now.lents ≡ [] }
    requires listed { AreListed region.now.bytes headers.now }
    requires below { db < length headers.now }
    ensures { result.now ≡ header_at region.now.bytes db }
{
    bytes_of(region, headers[db])
}
