//! Calls that read a heap and leave it unchanged.
#![tactic(auto, using(crate::proofs::Places::found_named, laws_heap::proofs::LentBodies::table_within))]

ghost use Rattle.std.specs.Prelude.{◌≡◌, ◌≢◌, ◌≤◌, ◌<◌, Err};
ghost use Rattle.heap_model.specs.MemorySteps.{Does, reply_of};
ghost use Rattle.heap_model.specs.declared.call.MemoryCall.{MemoryCall};
ghost use Rattle.heap_model.specs.declared.call.Reply.{Reply};
ghost use Rattle.mem_manager.specs.Replies.{number_or_refused, name_or_refused};

use crate::bounds::check_range;
use crate::heap::Heap;
use crate::lookup::{check_here_in_line, find, name_at};
use chunk_format::MANAGERS_OWNER;
use heap_model::{Name, Place, Refusal};

impl Heap {
    /// Returns the size of a chunk's body in bytes, as the caller asked for it.
    ///
    /// # Errors
    ///
    /// - `InvalidHandle`: no chunk has the name, or the manager owns the chunk.
    pub fn size(&self, name: Name) -> Result<u32, Refusal>
        ensures { Does self.now (MemoryCall.Size name) (number_or_refused result) self.now }
    {
        match self.space.in_near_slot(name) {
            Some(found) if found.owner != MANAGERS_OWNER => Ok(found.length),
            _ => self.size_other(name),
        }
    }

    /// Returns the size of the chunk of any name, or refuses. It is a function of its own, so that
    /// only what the chunk of a slot near needs is in line.
    #[inline(never)]
    fn size_other(&self, name: Name) -> Result<u32, Refusal>
        ensures { Does self.now (MemoryCall.Size name) (number_or_refused result) self.now }
    {
        let found = find(&self.space, &self.known, name)?;
        Ok(found.length)
    }

    /// Returns the owner of a chunk.
    ///
    /// # Errors
    ///
    /// - `InvalidHandle`: no chunk has the name, or the manager owns the chunk.
    pub fn owner(&self, name: Name) -> Result<u8, Refusal>
        ensures { Does self.now (MemoryCall.Owner name) (number_or_refused result) self.now }
    {
        let found = find(&self.space, &self.known, name)?;
        Ok(found.owner)
    }

    /// Returns the lock count of a chunk, 0 to 14. A fixed chunk has 15.
    ///
    /// # Errors
    ///
    /// - `InvalidHandle`: no chunk has the name, or the manager owns the chunk.
    pub fn locks(&self, name: Name) -> Result<u8, Refusal>
        ensures { Does self.now (MemoryCall.Locks name) (number_or_refused result) self.now }
    {
        let found = find(&self.space, &self.known, name)?;
        Ok(found.lock)
    }

    /// Returns `count` bytes of a chunk, from `at` within it on, as they are in the image. It
    /// allocates no memory.
    ///
    /// # Errors
    ///
    /// - `InvalidHandle`: no chunk has the name, or the manager owns the chunk.
    /// - `Lent`: the bytes of the chunk are lent.
    /// - `OutOfBounds`: the range reaches beyond the chunk's end.
    pub fn read(&self, name: Name, at: u32, count: u32) -> Result<&[u8], Refusal>
        ensures does { Does self.now (MemoryCall.Read name at count)
            (reply_of (λ bytes. Reply.Data bytes.now) result) self.now }
        ensures takes_no_memory { result ≢ Err Refusal.OutOfMemory }
    {
        let found = find(&self.space, &self.known, name)?;
        check_here_in_line(&self.space, found)?;
        check_range(at, count as usize, found.length)?;
        let start = found.place.0 as usize + at as usize;
        Ok(self.space.region().slice(start, count as usize))
    }

    /// Returns the name of the chunk whose body is at a place. Bytes of a body that look like a
    /// header name nothing.
    ///
    /// # Errors
    ///
    /// - `InvalidHandle`: no chunk has its body there, or the manager owns the chunk.
    pub fn recover(&self, place: Place) -> Result<Name, Refusal>
        ensures { Does self.now (MemoryCall.Recover place) (name_or_refused result) self.now }
    {
        name_at(&self.space, &self.known, place)
    }

    /// Returns the sum of the sizes of the free chunks, in bytes.
    pub fn free_bytes(&self) -> u32
        ensures { Does self.now MemoryCall.FreeBytes (Reply.Number result) self.now }
    {
        self.space.free_bytes()
    }

    /// Returns the greatest room of a stretch, in bytes, or 0 if there is no stretch. The room of a
    /// stretch is the sum of its free chunks, which it has in one chunk once it is compacted. A
    /// chunk takes 8 bytes more than its body, and whole units of 8.
    pub fn largest_stretch(&self) -> u32
        ensures { Does self.now MemoryCall.LargestStretch (Reply.Number result) self.now }
    {
        self.space.largest_room()
    }
}
