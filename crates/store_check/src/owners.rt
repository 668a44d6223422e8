//! The owners of the chunks of slots, as they were noted.
#![tactic(auto, using(laws_heap::proofs::Lending::all_within, laws_heap::proofs::Lending::all_misses))]

ghost use Rattle.std.specs.Prelude.{[], ◌≡◌, ◌↔◌, ℕ, List, length, IsTrue, IfOk, OnErr, None};
ghost use Rattle.heap_model.specs.Chunk.{managers_owner, data_owner};
ghost use Rattle.heap_model.specs.Heap.{HeapAccepted};
ghost use Rattle.heap_model.specs.Store.{owner_under};
ghost use Rattle.heap_check.specs.Owners.{NoneMarked, HasOwners};
ghost use Rattle.store_check.specs.Owners.{IsOurOwner, TellsOwner};

use crate::marks::mark_count;
use allowance::{Allowance, filled};
use chunk_format::{DATA_OWNER, MANAGERS_OWNER};
use heap_check::{NO_OWNER, mark_number, note_owners};
use raw_region::Region;
use std::alloc::AllocError;

/// Allocates marks, and notes in them the owners of the chunks of an image's slots. The only error
/// is a failed allocation.
pub(crate) fn noted_owners<A: Allowance>(memory: &A, region: &Region) -> Result<Vec<u8>, AllocError>
    requires whole { region.now.lents ≡ [] }
    requires accepted { HeapAccepted region.now.bytes }
    ensures owners { IfOk result (λ owners. HasOwners region.now.bytes owners.items) }
    ensures short { OnErr result (A.is_short memory.now) }
{
    let mut owners = no_owners(memory, mark_count(region))?;
    note_owners(region, &mut owners);
    Ok(owners)
}

/// Allocates `count` marks for owners, in which no owner is noted. The only error is a failed
/// allocation.
fn no_owners<A: Allowance>(memory: &A, count: usize) -> Result<Vec<u8>, AllocError>
    ensures len { IfOk result (λ owners. length owners.items ≡ count) }
    ensures clear { IfOk result (λ owners. NoneMarked owners.items) }
    ensures short { OnErr result (A.is_short memory.now) }
{
    filled(memory, NO_OWNER, count)
}

/// Returns the noted owner of a slot's chunk. A word that is no slot has none.
#[inline]
fn noted_owner(slot: u32, owners: &[u8]) -> u8
    ensures { (image : List ℕ) → HeapAccepted image → HasOwners image owners.now
        → TellsOwner image slot result }
{
    match mark_number(slot) {
        Some(number) => {
            if (number as usize) < owners.len() {
                owners[number as usize]
            } else {
                NO_OWNER
            }
        }
        None => NO_OWNER,
    }
}

/// Returns whether this is the owner of chunks of the manager's, or of chunks for data.
#[inline]
pub(crate) fn is_our_owner(owner: u8) -> bool
    ensures { IsTrue result ↔ IsOurOwner owner }
{
    owner == MANAGERS_OWNER || owner == DATA_OWNER
}

/// Returns whether a slot has a chunk of the manager's.
pub(crate) fn is_managers(slot: u32, owners: &[u8]) -> bool
    ensures { (image : List ℕ) → HeapAccepted image → HasOwners image owners.now
        → (IsTrue result ↔ (owner_under image slot ≡ managers_owner)) }
{
    noted_owner(slot, owners) == MANAGERS_OWNER
}

/// Returns whether a slot has a chunk for data.
#[inline]
pub(crate) fn is_for_data(slot: u32, owners: &[u8]) -> bool
    ensures { (image : List ℕ) → HeapAccepted image → HasOwners image owners.now
        → (IsTrue result ↔ (owner_under image slot ≡ data_owner)) }
{
    noted_owner(slot, owners) == DATA_OWNER
}
