//! Calls of the memory manager that make, free and move chunks.

ghost use Rattle.std.specs.Prelude.{◌≡◌, ◌+◌, OnErr};
ghost use Rattle.heap_model.specs.Chunk.{need};
ghost use Rattle.heap_model.specs.MoreTables.{gained_length};
ghost use Rattle.heap_model.specs.Space.{NoRun, FitsInPlace, MovesNothing, MovesOneStretch, MovesOneStretchAnd, moved_bytes};
ghost use Rattle.heap_model.specs.Reading.{chunks_of};
ghost use Rattle.heap_model.specs.Packing.{Packed, Slid};
ghost use Rattle.heap_model.specs.declared.call.MemoryCall.{MemoryCall};
ghost use Rattle.heap_model.specs.declared.call.Reply.{Reply};
ghost use Rattle.palm_store.specs.Replies.{DoesMemory, done_or_refused, number_or_refused, name_or_refused};

use crate::store::Store;
use heap_model::{Name, Refusal};

impl Store {
    /// Makes a movable chunk of `size` zeros, without a lock, for an owner of 1 to 14. Its name is
    /// the offset of a slot that was empty.
    ///
    /// If no run of neighbouring free chunks has the room, the chunks of one stretch are packed. No
    /// others move.
    ///
    /// # Errors
    /// - `InvalidOwner`: if the owner isn't one of 1 to 14.
    /// - `NotEnoughSpace`: if no slot is free, or no stretch has the room.
    pub fn handle_new(&mut self, size: u32, owner: u8) -> Result<Name, Refusal>
        ensures does { DoesMemory self.old (MemoryCall.HandleNew size owner)
            (name_or_refused result) self.new }
        ensures unmoved { (NoRun (chunks_of self.old.bytes) (need size) → ⊥)
            → MovesNothing self.old.bytes self.new.bytes }
        ensures one_stretch { MovesOneStretch self.old.bytes self.new.bytes }
        ensures once { self.new.slid ≡ self.old.slid + moved_bytes self.old.bytes self.new.bytes }
        ensures refused { OnErr result (self.new ≡ self.old) }
    {
        self.heap.handle_new(size, owner)
    }

    /// Makes a fixed chunk of `size` zeros. It moves chunks as `handle_new` does.
    ///
    /// # Errors
    /// - `InvalidOwner`: if the owner isn't one of 1 to 14.
    /// - `NotEnoughSpace`: if no stretch has the room.
    pub fn ptr_new(&mut self, size: u32, owner: u8) -> Result<Name, Refusal>
        ensures does { DoesMemory self.old (MemoryCall.PtrNew size owner)
            (name_or_refused result) self.new }
        ensures unmoved { (NoRun (chunks_of self.old.bytes) (need size) → ⊥)
            → MovesNothing self.old.bytes self.new.bytes }
        ensures one_stretch { MovesOneStretch self.old.bytes self.new.bytes }
        ensures once { self.new.slid ≡ self.old.slid + moved_bytes self.old.bytes self.new.bytes }
        ensures refused { OnErr result (self.new ≡ self.old) }
    {
        self.heap.ptr_new(size, owner)
    }

    /// Makes a further master pointer table of 15 empty slots, the last of the chain. It moves
    /// chunks as `ptr_new` does.
    ///
    /// # Errors
    /// - `NotEnoughSpace`: if the image has no chain of tables, or if no stretch has the room.
    pub fn more_slots(&mut self) -> Result<(), Refusal>
        ensures does { DoesMemory self.old MemoryCall.MoreSlots (done_or_refused result) self.new }
        ensures unmoved { (NoRun (chunks_of self.old.bytes) (need gained_length) → ⊥)
            → MovesNothing self.old.bytes self.new.bytes }
        ensures one_stretch { MovesOneStretch self.old.bytes self.new.bytes }
        ensures once { self.new.slid ≡ self.old.slid + moved_bytes self.old.bytes self.new.bytes }
        ensures refused { OnErr result (self.new ≡ self.old) }
    {
        self.heap.more_slots()
    }

    /// Frees a caller's chunk that has no lock. It may be fixed.
    ///
    /// # Errors
    /// - `InvalidHandle`: if the name is neither a caller's chunk nor data of a database.
    /// - `OwnedByDatabase`: if the chunk is one for data.
    /// - `ChunkLocked`: if the chunk is locked.
    /// - `Lent`: if the chunk is lent.
    pub fn free(&mut self, name: Name) -> Result<(), Refusal>
        ensures does { DoesMemory self.old (MemoryCall.Free name) (done_or_refused result) self.new }
        ensures refused { OnErr result (self.new ≡ self.old) }
    {
        self.heap.free(name)
    }

    /// Frees all chunks of an owner, 1 to 14, locked and fixed ones too, and returns their number.
    ///
    /// # Errors
    /// - `InvalidOwner`: if the owner isn't one of 1 to 14.
    /// - `Lent`: if one of the chunks is lent.
    pub fn free_by_owner(&mut self, owner: u8) -> Result<u32, Refusal>
        ensures does { DoesMemory self.old (MemoryCall.FreeByOwner owner)
            (number_or_refused result) self.new }
        ensures refused { OnErr result (self.new ≡ self.old) }
    {
        self.heap.free_by_owner(owner)
    }

    /// Gathers the free bytes of each stretch in one chunk after its live ones, which keep their
    /// order. It returns how many bytes have moved, headers included. It copies each of them once,
    /// and no other byte.
    pub fn compact(&mut self) -> u32
        ensures does { DoesMemory self.old MemoryCall.Compact (Reply.Number result) self.new }
        ensures packed { Packed (chunks_of self.new.bytes) }
        ensures chunks { Slid (chunks_of self.old.bytes) (chunks_of self.new.bytes) }
        ensures slid { self.new.slid ≡ self.old.slid + result }
    {
        self.heap.compact()
    }

    /// Gives a chunk `size` bytes: its first ones, or all of them and zeros after them. If the
    /// bytes fit with the free ones directly after the chunk, nothing moves. Otherwise it may move,
    /// and other chunks of one stretch too.
    ///
    /// # Errors
    /// - `InvalidHandle`: if the name is neither a caller's chunk nor data of a database.
    /// - `OwnedByDatabase`: if the chunk is one for data.
    /// - `ChunkFixed`: if the chunk is fixed.
    /// - `Lent`: if the chunk is lent.
    /// - `ChunkLocked`: if the chunk is locked and would have to move.
    /// - `NotEnoughSpace`: if the chunk is not locked and no stretch has the room. Its own bytes
    ///   count as room of its own stretch.
    pub fn resize(&mut self, name: Name, size: u32) -> Result<(), Refusal>
        ensures does { DoesMemory self.old (MemoryCall.Resize name size)
            (done_or_refused result) self.new }
        ensures unmoved { FitsInPlace self.old.bytes name.0 (need size)
            → MovesNothing self.old.bytes self.new.bytes }
        ensures one_stretch { MovesOneStretchAnd self.old.bytes self.new.bytes name.0 }
        ensures refused { OnErr result (self.new ≡ self.old) }
    {
        self.heap.resize(name, size)
    }
}
