//! Calls of the memory manager that change a chunk at its place.

ghost use Rattle.std.specs.Prelude.{◌≡◌, ℕ, OnErr};
ghost use Rattle.heap_model.specs.MemorySteps.{reply_of};
ghost use Rattle.heap_model.specs.Space.{place_of};
ghost use Rattle.heap_model.specs.declared.call.MemoryCall.{MemoryCall};
ghost use Rattle.heap_model.specs.declared.call.Reply.{Reply};
ghost use Rattle.palm_store.specs.Replies.{DoesMemory, done_or_refused, number_or_refused};

use crate::store::Store;
use heap_model::{Name, Refusal};
use mem_manager::Locked;

impl Store {
    /// Locks a movable chunk once more, up to 14 times, and returns its place and the new lock
    /// count. While the count is not 0, the chunk keeps its place. The lock itself moves no chunk.
    ///
    /// # Errors
    /// - `InvalidHandle`: if the name is neither a caller's chunk nor data of a database.
    /// - `ChunkFixed`: if the chunk is fixed.
    /// - `LockOverflow`: if the chunk has 14 locks already.
    pub fn lock(&mut self, name: Name) -> Result<Locked, Refusal>
        ensures does { DoesMemory self.old (MemoryCall.Lock name)
            (reply_of (λ locked. Reply.Locked locked.place locked.count) result) self.new }
        ensures refused { OnErr result (self.new ≡ self.old) }
        ensures unmoved { (other : ℕ)
            → place_of self.new.bytes other ≡ place_of self.old.bytes other }
    {
        self.heap.lock(name)
    }

    /// Takes one lock off a movable chunk, and returns the number of locks left.
    ///
    /// # Errors
    /// - `InvalidHandle`: if the name is neither a caller's chunk nor data of a database.
    /// - `ChunkFixed`: if the chunk is fixed.
    /// - `ChunkNotLocked`: if the chunk has no lock.
    /// - `Lent`: if the chunk is lent.
    pub fn unlock(&mut self, name: Name) -> Result<u8, Refusal>
        ensures does { DoesMemory self.old (MemoryCall.Unlock name) (number_or_refused result) self.new }
        ensures refused { OnErr result (self.new ≡ self.old) }
    {
        self.heap.unlock(name)
    }

    /// Writes bytes over those of a locked or fixed chunk, from `at` within it on.
    ///
    /// # Errors
    /// - `InvalidHandle`: if the name is neither a caller's chunk nor data of a database.
    /// - `ChunkNotLocked`: if the chunk is movable and has no lock.
    /// - `Lent`: if the chunk is lent.
    /// - `OutOfBounds`: if the range reaches beyond the chunk's end.
    pub fn write(&mut self, name: Name, at: u32, bytes: &[u8]) -> Result<(), Refusal>
        ensures does { DoesMemory self.old (MemoryCall.Write name at bytes.now)
            (done_or_refused result) self.new }
        ensures refused { OnErr result (self.new ≡ self.old) }
    {
        self.heap.write(name, at, bytes)
    }

    /// Sets each of `count` bytes of a locked or fixed chunk to `byte`, from `at` within it on.
    ///
    /// # Errors
    /// The same as for `write`.
    pub fn set(&mut self, name: Name, at: u32, count: u32, byte: u8) -> Result<(), Refusal>
        ensures does { DoesMemory self.old (MemoryCall.Set name at count byte)
            (done_or_refused result) self.new }
        ensures refused { OnErr result (self.new ≡ self.old) }
    {
        self.heap.set(name, at, count, byte)
    }

    /// Writes the bytes of `text` before its first zero byte, or all of them if it has none, and
    /// then one zero byte. They go over those of a locked or fixed chunk, from `at` within it on.
    ///
    /// # Errors
    /// The same as for `write`; the zero byte counts for `OutOfBounds`.
    pub fn str_copy(&mut self, name: Name, at: u32, text: &[u8]) -> Result<(), Refusal>
        ensures does { DoesMemory self.old (MemoryCall.StrCopy name at text.now)
            (done_or_refused result) self.new }
        ensures refused { OnErr result (self.new ≡ self.old) }
    {
        self.heap.str_copy(name, at, text)
    }

    /// Gives a caller's chunk to another owner, 1 to 14.
    ///
    /// # Errors
    /// - `InvalidHandle`: if the name is neither a caller's chunk nor data of a database.
    /// - `OwnedByDatabase`: if the chunk is one for data.
    /// - `InvalidOwner`: if the owner isn't one of 1 to 14.
    pub fn set_owner(&mut self, name: Name, owner: u8) -> Result<(), Refusal>
        ensures does { DoesMemory self.old (MemoryCall.SetOwner name owner)
            (done_or_refused result) self.new }
        ensures refused { OnErr result (self.new ≡ self.old) }
    {
        self.heap.set_owner(name, owner)
    }
}
