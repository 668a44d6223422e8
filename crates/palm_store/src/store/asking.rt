//! Calls of the memory manager that read from a store and leave it as it is.

ghost use Rattle.std.specs.Prelude.{◌≢◌, Err};
ghost use Rattle.heap_model.specs.MemorySteps.{reply_of};
ghost use Rattle.heap_model.specs.declared.call.MemoryCall.{MemoryCall};
ghost use Rattle.heap_model.specs.declared.call.Reply.{Reply};
ghost use Rattle.palm_store.specs.Replies.{DoesMemory, number_or_refused, name_or_refused};

use crate::store::Store;
use heap_model::{Name, Place, Refusal};

impl Store {
    /// Returns the size of a chunk's body in bytes, as it was asked for.
    ///
    /// # Errors
    /// - `InvalidHandle`: if the name is neither a caller's chunk nor data of a database.
    pub fn size(&self, name: Name) -> Result<u32, Refusal>
        ensures { DoesMemory self.now (MemoryCall.Size name) (number_or_refused result) self.now }
    {
        self.heap.size(name)
    }

    /// Returns the owner of a chunk.
    ///
    /// # Errors
    /// - `InvalidHandle`: if the name is neither a caller's chunk nor data of a database.
    pub fn owner(&self, name: Name) -> Result<u8, Refusal>
        ensures { DoesMemory self.now (MemoryCall.Owner name) (number_or_refused result) self.now }
    {
        self.heap.owner(name)
    }

    /// Returns the lock count of a chunk, up to 14; that of a fixed chunk is 15.
    ///
    /// # Errors
    /// - `InvalidHandle`: if the name is neither a caller's chunk nor data of a database.
    #[inline(always)]
    pub fn locks(&self, name: Name) -> Result<u8, Refusal>
        ensures { DoesMemory self.now (MemoryCall.Locks name) (number_or_refused result) self.now }
    {
        self.heap.locks(name)
    }

    /// Returns `count` bytes of a chunk, from `at` within it on, without a copy or an allocation.
    ///
    /// # Errors
    /// - `InvalidHandle`: if the name is neither a caller's chunk nor data of a database.
    /// - `Lent`: if the chunk is lent.
    /// - `OutOfBounds`: if the range reaches beyond the chunk's end.
    pub fn read(&self, name: Name, at: u32, count: u32) -> Result<&[u8], Refusal>
        ensures does { DoesMemory self.now (MemoryCall.Read name at count)
            (reply_of (λ bytes. Reply.Data bytes.now) result) self.now }
        ensures takes_no_memory { result ≢ Err Refusal.OutOfMemory }
    {
        self.heap.read(name, at, count)
    }

    /// Returns the name of the caller's chunk whose body is at a place. Bytes of a body that look
    /// like a header name nothing.
    ///
    /// # Errors
    /// - `InvalidHandle`: if no caller's chunk has its body there.
    pub fn recover(&self, place: Place) -> Result<Name, Refusal>
        ensures { DoesMemory self.now (MemoryCall.Recover place) (name_or_refused result) self.now }
    {
        self.heap.recover(place)
    }

    /// Returns the total size of the free chunks, in bytes.
    pub fn free_bytes(&self) -> u32
        ensures { DoesMemory self.now MemoryCall.FreeBytes (Reply.Number result) self.now }
    {
        self.heap.free_bytes()
    }

    /// Returns the greatest room of a stretch, in bytes: the total size of its free chunks, which
    /// compaction joins. A chunk takes 8 bytes more than its body, rounded up to a multiple of 8.
    /// The result is 0 if there is no stretch.
    pub fn largest_stretch(&self) -> u32
        ensures { DoesMemory self.now MemoryCall.LargestStretch (Reply.Number result) self.now }
    {
        self.heap.largest_stretch()
    }
}
