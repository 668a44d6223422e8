//! Makes a live chunk free.
#![tactic(auto, using(laws_heap::proofs::LentBodies::frame_within, laws_heap::proofs::LentBodies::table_within))]

ghost use Rattle.std.specs.Prelude.{◌≡◌, ◌≢◌, ◌<◌, ◌+◌, ◌-◌, ◌^◌, length};
ghost use Rattle.heap_model.specs.Memory.{Misses};
ghost use Rattle.heap_model.specs.Lending.{LendsOther, HoldsHeap};
ghost use Rattle.heap_model.specs.Heap.{directory_of};
ghost use Rattle.heap_model.specs.Layout.{Alters, FreeUpTo, freed, WritesPlain};
ghost use Rattle.heap_place.specs.Found.{IsOne, header_offset};
ghost use Rattle.heap_place.specs.Search.{free_size_at, ChunksFrom, FreesAlone};
ghost use Rattle.heap_place.specs.Resizes.{IsBound, BeginsWithFree};
ghost use Rattle.heap_place.specs.Lists.{Any, IsFreeChunk, KeepsFree, HasLists};

use crate::found::Found;
use crate::lists::{Lists, push};
use crate::walks::size_if_free;
use chunk_format::{FIXED_LOCK, HEADER_SIZE, Header, size_of_body};
use raw_region::Region;

/// Makes a live chunk free without joining it with its neighbours, and empties its slot, if it has
/// one. Returns the size of the free chunk.
#[inline(always)]
pub fn release(region: &mut Region, found: Found) -> u32
    requires heap { HoldsHeap region.old }
    requires found { IsOne region.old.bytes found }
    requires other { LendsOther region.old found.place.0 }
    requires no_directory { found.name.0 ≢ directory_of region.old.bytes }
    ensures gone { Alters region.old.bytes region.new.bytes (header_offset found) freed }
    ensures chunk { IsFreeChunk region.new.bytes (header_offset found) result }
    ensures exact { FreesAlone region.old.bytes region.new.bytes found result }
    ensures keeps { KeepsFree Any region.old.bytes region.new.bytes }
    ensures plain { WritesPlain region.old.bytes region.new.bytes }
    ensures rest { region.new ≡ record region.old { bytes = region.new.bytes } }
    ensures heap { HoldsHeap region.new }
{
    let at = found.place.0 - HEADER_SIZE;
    let size = size_of_body(found.length);
    Header::Free { size }.write(region, at);
    if found.lock != FIXED_LOCK {
        master_table::clear(region, found.name);
    }
    size
}

/// Makes a live chunk free without joining it with its neighbours, and puts it into its list.
/// Returns the size of the free chunk.
#[inline(always)]
pub fn release_listed(region: &mut Region, lists: &mut Lists, found: Found) -> u32
    requires heap { HoldsHeap region.old }
    requires found { IsOne region.old.bytes found }
    requires other { LendsOther region.old found.place.0 }
    requires no_directory { found.name.0 ≢ directory_of region.old.bytes }
    requires lists { HasLists region.old.bytes lists.old }
    ensures gone { Alters region.old.bytes region.new.bytes (header_offset found) freed }
    ensures free { FreeUpTo region.new.bytes (header_offset found) (header_offset found + result) }
    ensures lists { HasLists region.new.bytes lists.new }
    ensures plain { WritesPlain region.old.bytes region.new.bytes }
    ensures rest { region.new ≡ record region.old { bytes = region.new.bytes } }
    ensures heap { HoldsHeap region.new }
{
    let size = release(region, found);
    push(region, lists, found.place.0 - HEADER_SIZE, size);
    size
}

/// Returns the size of the chunk at `at` if it is free. Returns 0 if it is live or if the image
/// ends there.
#[inline(always)]
pub fn free_size(region: &Region, at: u32) -> u32
    requires small { length region.now.bytes < 2 ^ 24 }
    requires chunks { ChunksFrom region.now.bytes at }
    requires misses { at < length region.now.bytes → Misses region.now.lents at HEADER_SIZE }
    ensures { result ≡ free_size_at region.now.bytes at }
{
    if at as usize >= region.len() {
        return 0;
    }
    size_if_free(Header::at(region, at))
}

/// Returns the sum of the sizes of the run of free chunks that begins at `at`.
#[inline]
pub fn free_run(region: &Region, at: u32) -> u32
    requires heap { HoldsHeap region.now }
    requires bound { IsBound region.now.bytes at }
    ensures { BeginsWithFree region.now.bytes at result }
{
    let mut end = at;
    let mut size = free_size(region, end);
    while size > 0 {
        end += size;
        size = free_size(region, end);
    }
    end - at
}
