//! Calls that change a chunk in its place.
#![tactic(auto, using(crate::proofs::Places::found_named, laws_heap::proofs::LentBodies::table_within))]

ghost use Rattle.std.specs.Prelude.{◌≡◌, ◌≤◌, ◌<◌, ℕ, OnErr};
ghost use Rattle.heap_model.specs.MemorySteps.{Does};
ghost use Rattle.heap_model.specs.Space.{place_of};
ghost use Rattle.heap_model.specs.declared.call.MemoryCall.{MemoryCall};
ghost use Rattle.mem_manager.specs.Replies.{done_or_refused, number_or_refused, lock_or_refused};

use crate::bounds::{before_zero, check_ended_range, check_owner, check_range};
use crate::heap::{Heap, Locked};
use crate::lookup::{
    check_callers, check_here, check_locked, check_movable, find, find_again, find_open,
};
use heap_model::{Name, Refusal};

/// The maximum number of locks of a movable chunk.
pub const MOST_LOCKS: u8 = 14;

impl Heap {
    /// Locks a movable chunk once more, and returns its place and its new lock count. While the
    /// lock count isn't 0, the chunk keeps its place. The lock itself moves no chunk.
    ///
    /// # Errors
    ///
    /// - `InvalidHandle`: no chunk has the name, or the manager owns the chunk.
    /// - `ChunkFixed`: the chunk is fixed.
    /// - `LockOverflow`: the chunk has 14 locks already.
    pub fn lock(&mut self, name: Name) -> Result<Locked, Refusal>
        ensures does { Does self.old (MemoryCall.Lock name) (lock_or_refused result) self.new }
        ensures refused { OnErr result (self.new ≡ self.old) }
        ensures unmoved { (other : ℕ)
            → place_of self.new.bytes other ≡ place_of self.old.bytes other }
    {
        let found = find(&self.space, &self.known, name)?;
        check_movable(found)?;
        if found.lock == MOST_LOCKS {
            return Err(Refusal::LockOverflow);
        }
        let count = found.lock + 1;
        self.space.relock(found, count);
        Ok(Locked {
            place: found.place,
            count,
        })
    }

    /// Takes one lock off a movable chunk, and returns its new lock count.
    ///
    /// # Errors
    ///
    /// - `InvalidHandle`: no chunk has the name, or the manager owns the chunk.
    /// - `ChunkFixed`: the chunk is fixed.
    /// - `ChunkNotLocked`: the chunk has no lock.
    /// - `Lent`: the bytes of the chunk are lent.
    pub fn unlock(&mut self, name: Name) -> Result<u8, Refusal>
        ensures does { Does self.old (MemoryCall.Unlock name) (number_or_refused result) self.new }
        ensures refused { OnErr result (self.new ≡ self.old) }
    {
        let found = find(&self.space, &self.known, name)?;
        check_movable(found)?;
        check_locked(found)?;
        check_here(&self.space, found)?;
        let count = found.lock - 1;
        self.space.relock(found, count);
        Ok(count)
    }

    /// Writes bytes over those of a locked or fixed chunk, from `at` within it on.
    ///
    /// # Errors
    ///
    /// - `InvalidHandle`: no chunk has the name, or the manager owns the chunk.
    /// - `ChunkNotLocked`: the chunk has no lock and isn't fixed.
    /// - `Lent`: the bytes of the chunk are lent.
    /// - `OutOfBounds`: the range reaches beyond the chunk's end.
    pub fn write(&mut self, name: Name, at: u32, bytes: &[u8]) -> Result<(), Refusal>
        ensures does { Does self.old (MemoryCall.Write name at bytes.now)
            (done_or_refused result) self.new }
        ensures refused { OnErr result (self.new ≡ self.old) }
    {
        let found = find_open(&self.space, &mut self.known, name)?;
        check_range(at, bytes.len(), found.length)?;
        self.space.write(found, at, bytes);
        Ok(())
    }

    /// Sets `count` bytes of a locked or fixed chunk to `byte`, from `at` within it on.
    ///
    /// # Errors
    ///
    /// - `InvalidHandle`: no chunk has the name, or the manager owns the chunk.
    /// - `ChunkNotLocked`: the chunk has no lock and isn't fixed.
    /// - `Lent`: the bytes of the chunk are lent.
    /// - `OutOfBounds`: the range reaches beyond the chunk's end.
    pub fn set(&mut self, name: Name, at: u32, count: u32, byte: u8) -> Result<(), Refusal>
        ensures does { Does self.old (MemoryCall.Set name at count byte)
            (done_or_refused result) self.new }
        ensures refused { OnErr result (self.new ≡ self.old) }
    {
        let found = find_open(&self.space, &mut self.known, name)?;
        check_range(at, count as usize, found.length)?;
        self.space.fill(found, at, count, byte);
        Ok(())
    }

    /// Writes the bytes of `text` before its first zero byte, and then one zero byte. They
    /// overwrite bytes of a locked or fixed chunk, from `at` within it on. If `text` has no zero
    /// byte, all its bytes are written.
    ///
    /// # Errors
    ///
    /// - `InvalidHandle`: no chunk has the name, or the manager owns the chunk.
    /// - `ChunkNotLocked`: the chunk has no lock and isn't fixed.
    /// - `Lent`: the bytes of the chunk are lent.
    /// - `OutOfBounds`: the range, which includes the zero byte, reaches beyond the chunk's end.
    pub fn str_copy(&mut self, name: Name, at: u32, text: &[u8]) -> Result<(), Refusal>
        ensures does { Does self.old (MemoryCall.StrCopy name at text.now)
            (done_or_refused result) self.new }
        ensures refused { OnErr result (self.new ≡ self.old) }
    {
        let found = find_open(&self.space, &mut self.known, name)?;
        let part = before_zero(text);
        check_ended_range(at, part.len(), found.length)?;
        self.space.write_ended(found, at, part);
        Ok(())
    }

    /// Gives a caller's chunk to another owner, 1 to 14.
    ///
    /// # Errors
    ///
    /// - `InvalidHandle`: no chunk has the name, or the manager owns the chunk.
    /// - `OwnedByDatabase`: the chunk is data of a database.
    /// - `InvalidOwner`: the owner isn't one of 1 to 14.
    pub fn set_owner(&mut self, name: Name, owner: u8) -> Result<(), Refusal>
        ensures does { Does self.old (MemoryCall.SetOwner name owner) (done_or_refused result) self.new }
        ensures refused { OnErr result (self.new ≡ self.old) }
    {
        let found = find_again(&self.space, &mut self.known, name)?;
        check_callers(found)?;
        check_owner(owner)?;
        self.space.reown(found, owner);
        Ok(())
    }
}
