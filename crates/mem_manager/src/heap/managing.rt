//! Calls for the store above, on its own chunks (owner 0) and on those of databases (owner 15).
//! They have preconditions. Only `sys_new` refuses, with `NotEnoughSpace`.
#![tactic(auto, using(laws_heap::proofs::LentBodies::table_within))]

ghost use Rattle.std.specs.Prelude.{◌≡◌, ◌≢◌, ◌≤◌, ◌<◌, ◌+◌, length, slice_range, IsSome, IfOk, IfErr, OnOk, OnErr};
ghost use Rattle.heap_model.specs.Chunk.{need, managers_owner, data_owner};
ghost use Rattle.heap_model.specs.Rooms.{Lowers};
ghost use Rattle.heap_model.specs.Heap.{directory_of};
ghost use Rattle.heap_model.specs.Lending.{KeepsLoan};
ghost use Rattle.heap_model.specs.Reading.{held};
ghost use Rattle.heap_model.specs.Space.{MovesOneStretch, moved_bytes};
ghost use Rattle.heap_model.specs.Maps.{reowned};
ghost use Rattle.heap_model.specs.Store.{bytes_under, owner_under};
ghost use Rattle.heap_model.specs.Leaving.{Leaves, NamesDirectory};
ghost use Rattle.mem_manager.specs.Lookup.{IsMovable, IsHere, MakesNew, HasNoRoomFor, MovesOnlyForRoom};

use crate::heap::Heap;
use crate::heap::making::{make_movable, next_empty_slot};
use heap_model::{Name, Refusal};

impl Heap {
    /// Makes a movable chunk of `size` zeros, without a lock, for any owner. Its name is the offset
    /// of a slot that was empty.
    ///
    /// # Errors
    ///
    /// - `NotEnoughSpace`: no slot is free, or no stretch has the room.
    pub fn sys_new(&mut self, size: u32, owner: u8) -> Result<Name, Refusal>
        requires owner { owner ≤ data_owner }
        ensures made { IfOk result
            (λ name. MakesNew self.old.bytes self.new.bytes name.0 size owner) }
        ensures had_room { OnOk result (HasNoRoomFor self.old.bytes size → ⊥) }
        ensures no_room { OnErr result (HasNoRoomFor self.old.bytes size) }
        ensures refusal { IfErr result (λ refusal. refusal ≡ Refusal.NotEnoughSpace) }
        ensures refused { OnErr result (self.new ≡ self.old) }
        ensures unmoved { MovesOnlyForRoom self.old.bytes self.new.bytes size }
        ensures one_stretch { MovesOneStretch self.old.bytes self.new.bytes }
        ensures lowers { OnOk result (Lowers self.old.bytes self.new.bytes (need size)) }
        ensures once { self.new.slid ≡ self.old.slid + moved_bytes self.old.bytes self.new.bytes }
        ensures loan { KeepsLoan self.old self.new }
        ensures rest { self.new ≡ record self.old { bytes = self.new.bytes; slid = self.new.slid } }
    {
        let found = next_empty_slot(self.space.region(), self.used, self.start, self.freed);
        let slot = make_movable(&mut self.space, found, size, owner)?;
        self.used = slot.before;
        self.start = slot.table;
        Ok(slot.name)
    }

    /// Returns `count` bytes of any chunk, from `at` within it on, as they are in the image.
    pub fn sys_read(&self, name: Name, at: u32, count: u32) -> &[u8]
        requires there { IsSome (held self.now.bytes name.0) }
        requires within { at + count ≤ length (bytes_under self.now.bytes name.0) }
        requires here { IsHere self.now name.0 }
        ensures { result.now ≡ slice_range (bytes_under self.now.bytes name.0) at (at + count) }
    {
        let found = self.space.chunk(name);
        let start = found.place.0 as usize + at as usize;
        self.space.region().slice(start, count as usize)
    }

    /// Gives a movable chunk to another owner, 1 to 15. The directory always belongs to the
    /// manager.
    #[inline(always)]
    pub fn sys_set_owner(&mut self, name: Name, owner: u8)
        requires movable { IsMovable self.old.bytes name.0 }
        requires no_directory { name.0 ≢ directory_of self.old.bytes }
        requires some_owner { 0 < owner }
        requires most_owner { owner ≤ data_owner }
        ensures leaves { Leaves self.old.bytes self.new.bytes
            (reowned (held self.old.bytes) name.0 owner) }
        ensures loan { KeepsLoan self.old self.new }
        ensures rest { self.new ≡ record self.old { bytes = self.new.bytes } }
    {
        let found = self.sys_find(name);
        self.space.reown(found, owner);
    }

    /// Returns the name of the directory's chunk, or `Name(0)` if there is no directory.
    pub fn directory(&self) -> Name
        ensures { result.0 ≡ directory_of self.now.bytes }
    {
        self.space.directory()
    }

    /// Makes a chunk of the manager the directory.
    pub fn set_directory(&mut self, name: Name)
        requires managers { owner_under self.old.bytes name.0 ≡ managers_owner }
        ensures names { NamesDirectory self.old.bytes self.new.bytes name.0 }
        ensures loan { KeepsLoan self.old self.new }
        ensures rest { self.new ≡ record self.old { bytes = self.new.bytes } }
    {
        self.space.set_directory(name);
    }
}
