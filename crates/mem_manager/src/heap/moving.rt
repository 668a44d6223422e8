//! Calls that move chunks.
#![tactic(auto, using(crate::proofs::Places::found_named, laws_heap::proofs::LentBodies::table_within))]

ghost use Rattle.std.specs.Prelude.{◌≡◌, ◌≢◌, ◌+◌, OnOk, OnErr, IfErr};
ghost use Rattle.heap_model.specs.Chunk.{fixed_lock};
ghost use Rattle.heap_model.specs.Lending.{LendsOther, HoldsHeap};
ghost use Rattle.heap_model.specs.Space.{MovesOneStretchAnd};
ghost use Rattle.heap_model.specs.Reading.{chunks_of};
ghost use Rattle.heap_model.specs.Packing.{Packed, Slid};
ghost use Rattle.heap_model.specs.Refusals.{NoneHolds, FirstBrings};
ghost use Rattle.heap_model.specs.MemorySteps.{Does};
ghost use Rattle.heap_model.specs.declared.call.MemoryCall.{MemoryCall};
ghost use Rattle.heap_model.specs.declared.call.Reply.{Reply};
ghost use Rattle.mem_manager.specs.Replies.{done_or_refused};
ghost use Rattle.heap_place.specs.Found.{IsOne};
ghost use Rattle.heap_compact.specs.Resized.{Resized};
ghost use Rattle.mem_manager.specs.Lookup.{MovesOnlyToGrow, checks_of_growth};

use crate::heap::Heap;
use crate::lookup::{check_callers, check_here, check_movable, find};
use heap_compact::{Space, resize_by_moving};
use heap_model::{Name, Refusal};
use heap_place::Found;

impl Heap {
    /// Gathers the free bytes of each stretch in one chunk after its live ones, which keep their
    /// order. Returns the number of bytes that moved, headers included. It copies each of them
    /// once, and no other byte.
    pub fn compact(&mut self) -> u32
        ensures does { Does self.old MemoryCall.Compact (Reply.Number result) self.new }
        ensures packed { Packed (chunks_of self.new.bytes) }
        ensures chunks { Slid (chunks_of self.old.bytes) (chunks_of self.new.bytes) }
        ensures slid { self.new.slid ≡ self.old.slid + result }
    {
        self.space.compact()
    }

    /// Gives a chunk `size` bytes: a prefix of its bytes, or all of them and then zeros. If its own
    /// bytes and the free chunk directly after it are enough, nothing moves. Else it may move, and
    /// other chunks of one stretch too.
    ///
    /// # Errors
    ///
    /// - `InvalidHandle`: no chunk has the name, or the manager owns the chunk.
    /// - `OwnedByDatabase`: the chunk is data of a database.
    /// - `ChunkFixed`: the chunk is fixed.
    /// - `Lent`: the bytes of the chunk are lent.
    /// - `ChunkLocked`: the chunk is locked and would have to move.
    /// - `NotEnoughSpace`: the chunk isn't locked, and no stretch has the room. The chunk's own
    ///   bytes count as room of its stretch.
    pub fn resize(&mut self, name: Name, size: u32) -> Result<(), Refusal>
        ensures does { Does self.old (MemoryCall.Resize name size)
            (done_or_refused result) self.new }
        ensures unmoved { MovesOnlyToGrow self.old.bytes self.new.bytes name.0 size }
        ensures one_stretch { MovesOneStretchAnd self.old.bytes self.new.bytes name.0 }
        ensures refused { OnErr result (self.new ≡ self.old) }
    {
        let found = find(&self.space, &self.known, name)?;
        check_callers(found)?;
        check_movable(found)?;
        check_here(&self.space, found)?;
        resize_found(&mut self.space, found, size)
    }
}

/// Gives a movable chunk that was found `size` bytes, as `Heap::resize` does.
#[inline(always)]
pub(crate) fn resize_found(space: &mut Space, found: Found, size: u32) -> Result<(), Refusal>
    requires other { LendsOther space.old found.place.0 }
    requires found { IsOne space.old.bytes found }
    requires movable { found.lock ≢ fixed_lock }
    ensures done { OnOk result (Resized space.old.bytes space.new.bytes found.name.0 size) }
    ensures could { OnOk result (NoneHolds (checks_of_growth space.old found.name.0 size)) }
    ensures refused { OnErr result (space.new ≡ space.old) }
    ensures why { IfErr result
        (λ refusal. FirstBrings (checks_of_growth space.old found.name.0 size) refusal) }
    ensures unmoved { MovesOnlyToGrow space.old.bytes space.new.bytes found.name.0 size }
    ensures one_stretch { MovesOneStretchAnd space.old.bytes space.new.bytes found.name.0 }
    ensures rest { space.new ≡ record space.old { bytes = space.new.bytes; slid = space.new.slid } }
    ensures heap { HoldsHeap space.new }
{
    space.holds();
    if space.grow_in_place(found, size) {
        return Ok(());
    }
    if found.lock > 0 {
        return Err(Refusal::ChunkLocked);
    }
    if !resize_by_moving(space, apart(found), size) {
        return Err(Refusal::NotEnoughSpace);
    }
    Ok(())
}

/// Returns the chunk in a new value, for a call that takes it by its address. Only the new value is
/// written to memory: the chunk that was found stays in registers.
#[inline(always)]
fn apart(found: Found) -> Found
    ensures { result ≡ found }
{
    Found {
        name: found.name,
        lock: found.lock,
        owner: found.owner,
        place: found.place,
        length: found.length,
    }
}
