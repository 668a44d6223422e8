//! Chunks of slots that a database has, and of names that it gets.

ghost use Rattle.std.specs.Prelude.{◌≡◌, ◌<◌, OnOk, IfErr};
ghost use Rattle.heap_model.specs.Heap.{HeapAccepted, directory_of};
ghost use Rattle.heap_model.specs.Reading.{held};
ghost use Rattle.heap_model.specs.Space.{MovesNothing};
ghost use Rattle.heap_model.specs.Maps.{gone};
ghost use Rattle.heap_model.specs.Leaving.{Leaves};
ghost use Rattle.heap_model.specs.MemorySteps.{Of, IsLocked};
ghost use Rattle.heap_model.specs.Refusals.{NoneHolds, FirstBrings};
ghost use Rattle.mem_manager.specs.Lookup.{IsMovable};
ghost use Rattle.database_edits.specs.Kept.{OnlyWrites};
ghost use Rattle.palm_store.specs.EntryCalls.{MayBeGiven, checks_of_giving};

use heap_model::{Name, Refusal};
use mem_manager::{DATA_OWNER, FIXED_LOCK, Heap, MANAGERS_OWNER};

/// Frees the chunk of a slot, if there is one. The chunk has no lock, so it isn't lent.
#[inline(always)]
pub(crate) fn free_chunk_of(heap: &mut Heap, slot: Name)
    requires heap { HeapAccepted heap.old.bytes }
    requires movable { 0 < slot.0 → IsMovable heap.old.bytes slot.0 }
    requires unlocked { 0 < slot.0 → Of (held heap.old.bytes slot.0) IsLocked → ⊥ }
    requires no_directory { 0 < slot.0 → slot.0 ≡ directory_of heap.old.bytes → ⊥ }
    ensures leaves { Leaves heap.old.bytes heap.new.bytes (gone (held heap.old.bytes) slot.0) }
    ensures unmoved { MovesNothing heap.old.bytes heap.new.bytes }
    ensures kept { OnlyWrites heap.old heap.new }
{
    if slot.0 != 0 {
        let chunk = heap.sys_find(slot);
        heap.sys_free(slot, chunk);
    }
}

/// Checks that a database can take the chunk of a name.
///
/// # Errors
/// - `InvalidHandle`: if the name is neither a caller's chunk nor data of a database.
/// - `OwnedByDatabase`: if the chunk is one for data.
/// - `ChunkFixed`: if the chunk is fixed.
#[inline(always)]
pub(crate) fn check_taken(heap: &Heap, name: Name) -> Result<(), Refusal>
    ensures may { OnOk result (MayBeGiven heap.now.bytes name.0) }
    ensures could { OnOk result (NoneHolds (checks_of_giving heap.now.bytes name.0)) }
    ensures why { IfErr result (FirstBrings (checks_of_giving heap.now.bytes name.0)) }
{
    let Some(chunk) = heap.sys_chunk(name) else {
        return Err(Refusal::InvalidHandle);
    };
    if chunk.owner == MANAGERS_OWNER {
        return Err(Refusal::InvalidHandle);
    }
    if chunk.owner == DATA_OWNER {
        return Err(Refusal::OwnedByDatabase);
    }
    if chunk.lock == FIXED_LOCK {
        return Err(Refusal::ChunkFixed);
    }
    Ok(())
}
