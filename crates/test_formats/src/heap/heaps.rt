//! Heaps by their words, and calls on chunks by their names.
#![tactic(auto, using(laws_heap::proofs::Lending::all_within, laws_heap::proofs::LentBodies::none_lends))]

ghost use Rattle.std.specs.Prelude.{[], ◌<◌, ◌≡◌, IfOk, None};

use chunk_format::{chunk_size, directory};
use heap_check::check_heap;
use heap_compact::Space;
use heap_model::{Name, Place};
use heap_place::{Found, Room};
use master_table::{TableStart, first_empty_slot};
use raw_region::Region;
use std::alloc::Global;
use std::marker::Model;
use std::test::Fail;
use test_support::changed_words;

/// A blank image of 128 bytes with 4 slots in which words are changed.
pub(crate) fn image(alloc: Global, words: &[(usize, u32)]) -> Result<Region, Fail>
    ensures { IfOk result (λ region. region.lents ≡ []) }
{
    changed_words(alloc, 128, 4, words)
}

/// A space whose region the checker accepted, and of which nothing is lent. The calls keep it so.
#[derive(Drop)]
pub(crate) struct CheckedSpace {
    space: Space,
}

impl Model for CheckedSpace {
    ghost use Rattle.heap_model.specs.Memory.{Memory};
    ghost use Rattle.heap_model.specs.Heap.{HeapAccepted};

    ghost Value = { Memory };

    ghost view = { λ checked. checked.space };

    ghost use Rattle.std.specs.Prelude.{[], ◌≡◌};

    ghost invariant = { λ checked. HeapAccepted checked.space.bytes × (checked.space.lents ≡ []) };
}

/// A blank heap of 128 bytes with 4 slots in which words are changed, which the checker accepts.
pub(crate) fn heap(alloc: Global, words: &[(usize, u32)]) -> Result<CheckedSpace, Fail> {
    accepted(image(alloc, words)?)
}

/// The space of a region that the checker accepts.
pub(crate) fn accepted(region: Region) -> Result<CheckedSpace, Fail>
    requires { region.lents ≡ [] }
{
    match check_heap(&region) {
        Ok(_) => Ok(CheckedSpace {
            space: Space::of_accepted(region),
        }),
        Err(_) => Err("no heap")?,
    }
}

impl CheckedSpace {
    /// Gives the region back.
    pub(crate) fn into_region(self) -> Region
        ensures { result.lents ≡ [] }
    {
        let CheckedSpace { space } = self;
        space.into_region()
    }

    pub(crate) fn region(&self) -> &Region
        ensures { result.now.lents ≡ [] }
    {
        self.space.region()
    }

    /// All bytes of the region.
    pub(crate) fn bytes(&self) -> &[u8] {
        self.space.region().as_slice()
    }

    pub(crate) fn find(&self, name: Name) -> Option<Found> {
        self.space.find(name)
    }

    pub(crate) fn find_at(&self, place: Place) -> Option<Found> {
        self.space.find_at(place)
    }

    pub(crate) fn free_bytes(&self) -> u32 {
        self.space.free_bytes()
    }

    /// Where there is room for a size. None where there is none, and for no byte.
    pub(crate) fn find_room(&self, size: u32) -> Option<Room> {
        if size == 0 {
            return None;
        }
        self.space.find_room(size)
    }

    /// Makes a movable chunk, under the first empty slot. None where there is no room or no slot,
    /// and for what is no owner.
    pub(crate) fn make(&mut self, count: u32, owner: u8) -> Option<u32> {
        let room = self.space.find_room(chunk_size(count)?)?;
        let slot = first_empty_slot(self.space.region(), TableStart::first(), 0)?.name;
        if owner >= 16 {
            return None;
        }
        self.space.claim(room, slot, count, owner);
        Some(slot.0)
    }

    /// Makes a fixed chunk of a caller's. None where there is no room.
    pub(crate) fn make_fixed(&mut self, count: u32) -> Option<u32> {
        let room = self.space.find_room(chunk_size(count)?)?;
        Some(self.space.claim_fixed(room, count, 14).0)
    }

    /// Gives back the chunk of a name, and returns how many bytes are free there then. None where
    /// there is no such chunk, and for the directory.
    pub(crate) fn give_back(&mut self, name: Name) -> Option<u32> {
        let found = self.space.find(name)?;
        if found.name.0 == directory(self.space.region()) {
            return None;
        }
        Some(self.space.give_back(found))
    }

    /// Gives the movable chunk of a name another lock count, and returns it. None where it
    /// couldn't: one of the manager's has no locks.
    pub(crate) fn relock(&mut self, name: Name, lock: u8) -> Option<u32> {
        let found = self.space.find(name)?;
        if found.lock >= 15 || found.owner == 0 || lock >= 15 {
            return None;
        }
        self.space.relock(found, lock);
        Some(u32::from(lock))
    }

    /// Gives back all chunks of an owner, and returns how many there were. None for the manager.
    pub(crate) fn give_back_owned(&mut self, owner: u8) -> Option<u32> {
        if owner == 0 {
            return None;
        }
        Some(self.space.give_back_owned(owner))
    }

    /// Gives the chunk of a name `count` bytes, and says whether they fit into what it takes. None
    /// where there is no such chunk.
    pub(crate) fn shrink(&mut self, name: Name, count: u32) -> Option<bool> {
        let found = self.space.find(name)?;
        if chunk_size(count)? > chunk_size(found.length)? {
            return Some(false);
        }
        self.space.shrink(found, count);
        Some(true)
    }

    /// Gives the chunk of a name `count` bytes where it stands, and says whether it could. None
    /// where there is no such chunk.
    pub(crate) fn grow_in_place(&mut self, name: Name, count: u32) -> Option<bool> {
        let found = self.space.find(name)?;
        Some(self.space.grow_in_place(found, count))
    }

    /// Moves the chunk of a name to the first room that has `count` bytes, and says whether it
    /// could: one with locks stays. None where there is no such chunk.
    pub(crate) fn relocate(&mut self, name: Name, count: u32) -> Option<bool> {
        let found = self.space.find(name)?;
        if found.lock > 0 {
            return Some(false);
        }
        Some(self.space.relocate(found, count))
    }
}
