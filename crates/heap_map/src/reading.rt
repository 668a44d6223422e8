//! The headers of databases in a region.
#![tactic(auto, using(laws_heap::proofs::Lending::all_within, laws_heap::proofs::Lending::all_misses))]

ghost use Rattle.std.specs.Prelude.{[], ◌≡◌, ◌<◌};
ghost use Rattle.heap_model.specs.Chunk.{managers_owner};
ghost use Rattle.heap_model.specs.Heap.{HeapAccepted};
ghost use Rattle.heap_model.specs.Store.{bytes_under, owner_under, directory_bytes, Accepted};
ghost use Rattle.store_check.specs.Listing.{header_at, listed_count};

use byteorder::{BigEndian, ByteOrder};
use chunk_format::{HEADER_SIZE, SLOT_SIZE, directory, live_fields};
use master_table::word_of;
use raw_region::Region;

/// Returns the bytes of a chunk of the manager's, by its slot.
fn managers_bytes(region: &Region, slot: u32) -> &[u8]
    requires whole { region.now.lents ≡ [] }
    requires accepted { HeapAccepted region.now.bytes }
    requires managers { owner_under region.now.bytes slot ≡ managers_owner }
    ensures { result.now ≡ bytes_under region.now.bytes slot }
{
    let place = word_of(region, slot);
    let length = live_fields(region, place - HEADER_SIZE).length;
    region.slice(place as usize, length as usize)
}

/// Returns the bytes of the directory. There are none if the directory word is 0.
pub fn directory_in(region: &Region) -> &[u8]
    requires whole { region.now.lents ≡ [] }
    requires accepted { HeapAccepted region.now.bytes }
    ensures { result.now ≡ directory_bytes region.now.bytes }
{
    let slot = directory(region);
    if slot == 0 {
        return region.slice(0, 0);
    }
    managers_bytes(region, slot)
}

/// Returns the header and the entries of the database with an index.
pub fn header_in<'a>(region: &'a Region, directory: &[u8], db: usize) -> &'a [u8]
    requires whole { region.now.lents ≡ [] }
    requires accepted { Accepted region.now.bytes }
    requires directory { directory.now ≡ directory_bytes region.now.bytes }
    requires below { db < listed_count region.now.bytes }
    ensures { result.now ≡ header_at region.now.bytes db }
{
    let at = SLOT_SIZE as usize * db;
    let slot = BigEndian::read_u32(&directory[at..at + SLOT_SIZE as usize]);
    managers_bytes(region, slot)
}
