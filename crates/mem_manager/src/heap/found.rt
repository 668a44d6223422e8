//! Calls for the store above on a movable chunk that it has found. The chunk is looked up once. The
//! result is passed to each call with the chunk's name, which contracts refer to. It is valid until
//! the chunk moves, is freed, or gets another length, owner or lock.
#![tactic(auto, using(laws_heap::proofs::LentBodies::table_within))]

ghost use Rattle.std.specs.Prelude.{◌≡◌, ◌≢◌, ◌≤◌, ◌<◌, ◌+◌, length, slice_range, IfErr, OnOk, OnErr};
ghost use Rattle.heap_model.specs.Chunk.{managers_owner};
ghost use Rattle.heap_model.specs.Heap.{directory_of};
ghost use Rattle.heap_model.specs.Lending.{IsLent, KeepsLoan};
ghost use Rattle.heap_model.specs.Reading.{held};
ghost use Rattle.heap_model.specs.Space.{MovesNothing, MovesOneStretchAnd};
ghost use Rattle.heap_model.specs.Maps.{gone, put, sized};
ghost use Rattle.heap_model.specs.Store.{bytes_under, owner_under};
ghost use Rattle.heap_model.specs.Leaving.{Leaves};
ghost use Rattle.heap_model.specs.Refusals.{NoneHolds, FirstBrings};
ghost use Rattle.raw_region.specs.ByteChanges.{changed_every};
ghost use Rattle.mem_manager.specs.Lookup.{IsMovable, StandsAs, IsHere, MovesOnlyToGrow, checks_of_growth};

use crate::heap::Heap;
use crate::heap::moving::resize_found;
use crate::lookup::check_here;
use heap_model::{Name, Refusal};
use heap_place::Found;
use raw_region::ByteChange;

impl Heap {
    /// Finds a movable chunk.
    #[inline(always)]
    pub fn sys_find(&self, name: Name) -> Found
        requires { IsMovable self.now.bytes name.0 }
        ensures stands { StandsAs self.now.bytes name.0 result }
        ensures unlocked { result.lock ≡ 0 → IsLent self.now name.0 → ⊥ }
    {
        self.space.movable(name)
    }

    /// Returns the bytes of a movable chunk that was found, as they are in the image.
    #[inline(always)]
    pub fn sys_body_found(&self, name: Name, found: Found) -> &[u8]
        requires stands { StandsAs self.now.bytes name.0 found }
        requires here { IsHere self.now name.0 }
        ensures { result.now ≡ bytes_under self.now.bytes name.0 }
    {
        // The heap is looked at, so that its invariant is known.
        let _ = &self.space;
        self.body_of(found)
    }

    /// Writes bytes over those of a movable chunk that was found, from `at` within it on.
    #[inline(always)]
    pub fn sys_write(&mut self, name: Name, found: Found, at: u32, bytes: &[u8])
        requires stands { StandsAs self.old.bytes name.0 found }
        requires here { IsHere self.old name.0 }
        requires within { at + length bytes.now ≤ length (bytes_under self.old.bytes name.0) }
        ensures leaves { Leaves self.old.bytes self.new.bytes
            (put (held self.old.bytes) name.0 at bytes.now) }
        ensures unmoved { MovesNothing self.old.bytes self.new.bytes }
        ensures stands { StandsAs self.new.bytes name.0 found }
        ensures loan { KeepsLoan self.old self.new }
        ensures rest { self.new ≡ record self.old { bytes = self.new.bytes } }
    {
        self.space.write(found, at, bytes);
    }

    /// Changes every `step`-th byte of a range of a movable chunk that was found. Of the `count`
    /// bytes from `at` within the chunk on, those at `skip`, `skip + step`, `skip + 2 * step` and
    /// so on change.
    #[inline(always)]
    pub fn sys_change_every<C: ByteChange>(
        &mut self,
        name: Name,
        found: Found,
        at: u32,
        count: u32,
        skip: u32,
        step: u32,
        change: C,
    )
        requires stands { StandsAs self.old.bytes name.0 found }
        requires here { IsHere self.old name.0 }
        requires within { at + count ≤ length (bytes_under self.old.bytes name.0) }
        requires step { 0 < step }
        ensures leaves { Leaves self.old.bytes self.new.bytes (put (held self.old.bytes) name.0 at
            (changed_every (C.made change) step skip
            (slice_range (bytes_under self.old.bytes name.0) at (at + count)))) }
        ensures unmoved { MovesNothing self.old.bytes self.new.bytes }
        ensures stands { StandsAs self.new.bytes name.0 found }
        ensures loan { KeepsLoan self.old self.new }
        ensures rest { self.new ≡ record self.old { bytes = self.new.bytes } }
    {
        self.space
            .change_every(found, at, count, skip, step, change);
    }

    /// Copies `count` bytes of a movable chunk that was found, from `from` within it to `to` within
    /// it. The ranges may overlap.
    #[inline(always)]
    pub fn sys_slide(&mut self, name: Name, found: Found, from: u32, to: u32, count: u32)
        requires stands { StandsAs self.old.bytes name.0 found }
        requires here { IsHere self.old name.0 }
        requires from_within { from + count ≤ length (bytes_under self.old.bytes name.0) }
        requires to_within { to + count ≤ length (bytes_under self.old.bytes name.0) }
        ensures leaves { Leaves self.old.bytes self.new.bytes (put (held self.old.bytes) name.0 to
            (slice_range (bytes_under self.old.bytes name.0) from (from + count))) }
        ensures stands { StandsAs self.new.bytes name.0 found }
        ensures loan { KeepsLoan self.old self.new }
        ensures rest { self.new ≡ record self.old
            { bytes = self.new.bytes; slid = self.old.slid + count } }
    {
        self.space.slide_within(found, from, to, count);
    }

    /// Gives a movable chunk that was found `size` bytes: a prefix of its bytes, or all of them and
    /// then zeros. The chunk may be the directory. What moves is as with `resize`. After the call
    /// the chunk must be found again.
    ///
    /// # Errors
    ///
    /// - `Lent`: the bytes of the chunk are lent.
    /// - `ChunkLocked`: the chunk is locked and would have to move.
    /// - `NotEnoughSpace`: the chunk isn't locked, and no stretch has the room.
    #[inline(always)]
    pub fn sys_resize(&mut self, name: Name, found: Found, size: u32) -> Result<(), Refusal>
        requires stands { StandsAs self.old.bytes name.0 found }
        ensures done { OnOk result (Leaves self.old.bytes self.new.bytes
            (sized (held self.old.bytes) name.0 size)) }
        ensures could { OnOk result (NoneHolds (checks_of_growth self.old name.0 size)) }
        ensures refused { OnErr result (self.new ≡ self.old) }
        ensures why { IfErr result
            (λ refusal. FirstBrings (checks_of_growth self.old name.0 size) refusal) }
        ensures unmoved { MovesOnlyToGrow self.old.bytes self.new.bytes name.0 size }
        ensures one_stretch { MovesOneStretchAnd self.old.bytes self.new.bytes name.0 }
        ensures managers { owner_under self.old.bytes name.0 ≡ managers_owner
            → IsLent self.old name.0 → ⊥ }
        ensures loan { KeepsLoan self.old self.new }
        ensures rest { self.new ≡ record self.old { bytes = self.new.bytes; slid = self.new.slid } }
    {
        check_here(&self.space, found)?;
        resize_found(&mut self.space, found, size)
    }

    /// Frees a movable chunk that was found. It may not be the directory.
    #[inline(always)]
    pub fn sys_free(&mut self, name: Name, found: Found)
        requires stands { StandsAs self.old.bytes name.0 found }
        requires here { IsHere self.old name.0 }
        requires no_directory { name.0 ≢ directory_of self.old.bytes }
        ensures leaves { Leaves self.old.bytes self.new.bytes (gone (held self.old.bytes) name.0) }
        ensures unmoved { MovesNothing self.old.bytes self.new.bytes }
        ensures loan { KeepsLoan self.old self.new }
        ensures rest { self.new ≡ record self.old { bytes = self.new.bytes } }
    {
        // The heap is looked at, so that its invariant is known.
        let _ = &self.space;
        self.give_back(name, found);
    }
}
