//! Defines the type that owns a heap: its region, the lists of its free chunks, and remembered
//! tables.

ghost use Rattle.std.specs.Prelude.{◌≡◌, ◌≢◌, ◌≤◌, ◌<◌, ◌+◌, ◌-◌, ◌*◌, ◌++◌, ◌∷◌, ◌⊎◌, [], length, replicate, slice_range, min, count_by, IsSome, IfSome, IfNone, Some, None, true, IsTrue, ◌↔◌};
ghost use Rattle.raw_region.specs.Holes.{AllLieIn};
ghost use Rattle.raw_region.specs.Parts.{IsOut};
ghost use Rattle.raw_region.specs.Marks.{BeginsAt, IsNextLent, NoneBeginsAbove};
ghost use Rattle.heap_model.specs.Memory.{without};
ghost use Rattle.std.specs.Bool.{OnTrue, OnFalse};
ghost use Rattle.heap_model.specs.Bytes.{u32_at};
ghost use Rattle.heap_model.specs.Chunk.{movable, fixed, need, fixed_lock, is_owned_by, managers_owner, data_owner};
ghost use Rattle.heap_model.specs.Slots.{IsSlot, is_chained, slots_total as model_total};
ghost use Rattle.heap_model.specs.MoreTables.{table_need, PutsTable};
ghost use Rattle.heap_model.specs.Meaning.{LiveChunk};
ghost use Rattle.heap_model.specs.Lending.{LendsOther, LendsNoneOf, HoldsHeap};
ghost use Rattle.heap_model.specs.Heap.{directory_of};
ghost use Rattle.heap_model.specs.Reading.{chunks_of, held};
ghost use Rattle.heap_model.specs.Space.{NoRun, Short, free_total, moved_bytes, rooms, greatest};
ghost use Rattle.heap_model.specs.Packing.{packed, OpensBehind};
ghost use Rattle.heap_model.specs.Resizing.{Shrinks, GrowsInPlace};
ghost use Rattle.heap_model.specs.Placing.{SameFrame};
ghost use Rattle.heap_model.specs.Store.{owner_under};
ghost use Rattle.heap_model.specs.Leaving.{NamesDirectory};
ghost use Rattle.heap_model.specs.Layout.{Becomes, layout_of, owned_freed, Alters, freed, with_lock, with_owner, with_bytes, FreeUpTo, IsSpot, Claims, WritesPlain};
ghost use Rattle.heap_compact.specs.ByteChanges.{ChangesEvery};
ghost use Rattle.master_table.specs.Table.{HoldsNothing};
ghost use Rattle.heap_place.specs.Found.{IsFound, IsOne, NothingAt, CanGoTo, SlidesWithin, header_offset};
ghost use Rattle.heap_place.specs.Resizes.{TellsWhetherInPlace};
ghost use Rattle.heap_place.specs.Relocation.{RelocatesToRun};
ghost use Rattle.heap_compact.specs.Stretches.{IsStretch, IsFoundAmong, HasRoom, HasRoomOf, OpensExactly, PacksStretch, RoomAtEnd, SlidesStretch};

use crate::open::open_in;
use crate::pack::{compact, pack_stretch};
use crate::relocate::relocate;
use crate::resize::{grow_in_place_at, resize_listed};
use crate::stretch::{
    Stretch, is_whole, largest_room, room_of_stretch, stretch_around, stretch_with_room,
};
use chunk_format::{HEADER_SIZE, TABLE_LENGTH, size_of_body};
use heap_model::{Name, Place};
use heap_place::alter::{relock_at, reown_at};
use heap_place::claim::{claim_fixed_at, claim_movable, claim_table_at};
use heap_place::directory::{directory_name, name_directory};
use heap_place::gather::{build, build_unless_packed, gather};
use heap_place::lists::{Lists, take};
use heap_place::lookup::{
    chunk_named, find_named, find_placed, in_near_slot, in_slot, in_slot_by_call, lent_above,
    movable_named,
};
use heap_place::owned::{lent_of_owner, release_owned};
use heap_place::release::release_listed;
use heap_place::search::find_spot;
use heap_place::walks::free_bytes;
use heap_place::{Found, Room};
use master_table::KnownTables;
use raw_region::{ByteChange, Part, Region};
use std::marker::Model;

/// A region that holds a heap, whose chunks are found and changed. Contracts see only the region's
/// value.
#[derive(Drop)]
pub struct Space {
    region: Region,
    lists: Lists,
    /// Further tables that are remembered, so that their slots and the end of the chain are found
    /// without a walk along it.
    tables: KnownTables,
}

impl Model for Space {
    ghost use Rattle.heap_model.specs.Memory.{Memory};
    ghost use Rattle.heap_compact.specs.Kept.{IsSpace};

    ghost Value = { Memory };

    ghost view = { λ space. space.region };

    ghost invariant = { λ space. IsSpace space.region space.lists space.tables };
}

impl Space {
    /// Wraps a region that is a heap, and walks its chain of tables to remember them.
    pub fn of_accepted(region: Region) -> Space
        requires heap { HoldsHeap region }
        ensures { result ≡ region }
    {
        let tables = KnownTables::of(&region);
        Space {
            region,
            lists: Lists::none(),
            tables,
        }
    }

    /// Returns the region.
    pub fn into_region(self) -> Region
        ensures same { result ≡ self }
        ensures heap { HoldsHeap result }
    {
        let Space { region, .. } = self;
        region
    }

    /// Returns the region, for reading.
    #[inline]
    pub fn region(&self) -> &Region
        ensures same { result.now ≡ self.now }
        ensures heap { HoldsHeap self.now }
    {
        &self.region
    }

    /// Does nothing. Its contract says what every space holds.
    #[inline(always)]
    pub fn holds(&self)
        ensures { HoldsHeap self.now }
    {
        let _ = &self.region;
    }

    /// Returns the chunk that has a name, whoever owns it. For a slot's name it calls `in_slot`;
    /// for any other name it walks the chunks.
    pub fn find(&self, name: Name) -> Option<Found>
        ensures found { IfSome result (IsFound self.now.bytes name.0) }
        ensures none { IfNone result (held self.now.bytes name.0 ≡ None) }
    {
        find_named(&self.region, &self.tables, name)
    }

    /// Returns the chunk of a name that is a slot's, whoever owns it. For a slot of the first table
    /// or of a remembered one, the cost does not depend on the heap's size.
    #[inline(always)]
    pub fn in_slot(&self, name: Name) -> Option<Found>
        ensures found { IfSome result (IsFound self.now.bytes name.0) }
        ensures none { IfNone result (HoldsNothing self.now.bytes name.0) }
    {
        in_slot(&self.region, &self.tables, name)
    }

    /// Returns the same as `in_slot`. Only the look-up in the first table is in line.
    #[inline(always)]
    pub fn in_slot_by_call(&self, name: Name) -> Option<Found>
        ensures found { IfSome result (IsFound self.now.bytes name.0) }
        ensures none { IfNone result (HoldsNothing self.now.bytes name.0) }
    {
        in_slot_by_call(&self.region, &self.tables, name)
    }

    /// Returns the chunk of a name that is a slot's, whoever owns it, if the slot is in the first
    /// table, or in one that is in the entry of its block. None also if the slot is elsewhere. It
    /// calls no function.
    #[inline(always)]
    pub fn in_near_slot(&self, name: Name) -> Option<Found>
        ensures found { IfSome result (IsFound self.now.bytes name.0) }
    {
        in_near_slot(&self.region, &self.tables, name)
    }

    /// Returns the chunk of a name that has one, as `find` does. It never walks the chunks, even if
    /// the name isn't a slot's.
    #[inline(always)]
    pub fn chunk(&self, name: Name) -> Found
        requires there { IsSome (held self.now.bytes name.0) }
        ensures { IsFound self.now.bytes name.0 result }
    {
        chunk_named(&self.region, &self.tables, name)
    }

    /// Returns the chunk of a name that has a movable one, as `chunk` does. It tests nothing.
    #[inline(always)]
    pub fn movable(&self, name: Name) -> Found
        requires there { IsSome (held self.now.bytes name.0) }
        requires movable { (live : LiveChunk) → held self.now.bytes name.0 ≡ Some live
            → live.lock ≢ fixed_lock }
        ensures { IsFound self.now.bytes name.0 result }
    {
        movable_named(&self.region, name)
    }

    /// Returns the live chunk whose body is at a place, whoever owns it. Bytes of a body that look
    /// like a header are not taken for one.
    pub fn find_at(&self, place: Place) -> Option<Found>
        ensures found { IfSome result (IsOne self.now.bytes) }
        ensures there { IfSome result (λ found. found.place.0 ≡ place.0) }
        ensures none { IfNone result (NothingAt self.now.bytes place.0) }
    {
        find_placed(&self.region, &self.tables, place)
    }

    /// Returns the name of the directory's chunk, or `Name(0)` if there is none.
    pub fn directory(&self) -> Name
        ensures { result.0 ≡ directory_of self.now.bytes }
    {
        directory_name(&self.region)
    }

    /// Makes a chunk of the manager's the directory, or no chunk if the name is 0.
    pub fn set_directory(&mut self, name: Name)
        requires managers { (name.0 ≡ 0) ⊎ (owner_under self.old.bytes name.0 ≡ managers_owner) }
        ensures names { NamesDirectory self.old.bytes self.new.bytes name.0 }
        ensures plain { WritesPlain self.old.bytes self.new.bytes }
        ensures rest { self.new ≡ record self.old { bytes = self.new.bytes } }
        ensures heap { HoldsHeap self.new }
    {
        name_directory(&mut self.region, name);
    }

    /// Returns the sum of the sizes of the free chunks, in bytes.
    pub fn free_bytes(&self) -> u32
        ensures { result ≡ free_total self.now.bytes }
    {
        free_bytes(&self.region)
    }

    /// Returns the greatest room that a stretch has, in bytes: the size of its one free run after
    /// packing. Returns 0 if there is no stretch. Takes one walk over the chunks.
    pub fn largest_room(&self) -> u32
        ensures { result ≡ greatest (rooms self.now.bytes) }
    {
        largest_room(&self.region)
    }

    /// Finds room for a chunk of `size` bytes, header included: neighbouring free chunks. Returns
    /// None if no run of free chunks has `size` bytes. It looks at the first chunks of the lists.
    /// If none of them is large enough, it walks the chunks.
    pub fn find_room(&self, size: u32) -> Option<Room>
        requires some_size { 0 < size }
        ensures room { IfSome result (λ room. IsSpot self.now.bytes room.at room.size) }
        ensures enough { IfSome result (λ room. size ≤ room.size) }
        ensures none { IfNone result (NoRun (chunks_of self.now.bytes) size) }
    {
        find_spot(&self.region, &self.lists, size)
    }

    /// Makes the start of room a movable chunk of `count` zeros and no locks, which the empty slot
    /// names.
    pub fn claim(&mut self, room: Room, slot: Name, count: u32, owner: u8)
        requires room { IsSpot self.old.bytes room.at room.size }
        requires enough { need count ≤ room.size }
        requires slot { IsSlot self.old.bytes slot.0 }
        requires empty { u32_at self.old.bytes slot.0 ≡ 0 }
        requires owner { owner ≤ data_owner }
        ensures made { Claims self.old.bytes self.new.bytes room.at room.size
            (movable (replicate count 0) 0 owner slot.0) }
        ensures plain { WritesPlain self.old.bytes self.new.bytes }
        ensures rest { self.new ≡ record self.old { bytes = self.new.bytes } }
        ensures heap { HoldsHeap self.new }
    {
        take(&mut self.region, &mut self.lists, room, size_of_body(count));
        claim_movable(&mut self.region, room.at, slot, count, owner);
        build_unless_packed(&mut self.region, &mut self.lists);
    }

    /// Makes the start of room a fixed chunk of `count` zeros, and returns its name.
    pub fn claim_fixed(&mut self, room: Room, count: u32, owner: u8) -> Name
        requires room { IsSpot self.old.bytes room.at room.size }
        requires enough { need count ≤ room.size }
        requires some_owner { 0 < owner }
        requires most_owner { owner < data_owner }
        ensures made { Claims self.old.bytes self.new.bytes room.at room.size
            (fixed (replicate count 0) owner) }
        ensures name { result.0 ≡ room.at + HEADER_SIZE }
        ensures plain { WritesPlain self.old.bytes self.new.bytes }
        ensures rest { self.new ≡ record self.old { bytes = self.new.bytes } }
        ensures heap { HoldsHeap self.new }
    {
        take(&mut self.region, &mut self.lists, room, size_of_body(count));
        claim_fixed_at(&mut self.region, room.at, count, owner);
        build_unless_packed(&mut self.region, &mut self.lists);
        Name(room.at + HEADER_SIZE)
    }

    /// Makes the start of room a further table of empty slots, the last of the chain.
    pub fn claim_table(&mut self, room: Room)
        requires chained { is_chained self.old.bytes ≡ true }
        requires room { IsSpot self.old.bytes room.at room.size }
        requires enough { table_need ≤ room.size }
        ensures made { PutsTable self.old.bytes self.new.bytes (room.at + 8) }
        ensures plain { WritesPlain self.old.bytes self.new.bytes }
        ensures rest { self.new ≡ record self.old { bytes = self.new.bytes } }
        ensures heap { HoldsHeap self.new }
    {
        take(
            &mut self.region,
            &mut self.lists,
            room,
            size_of_body(TABLE_LENGTH),
        );
        let start = self.tables.move_to_last(&self.region);
        claim_table_at(&mut self.region, room.at, start);
        self.tables.remember(Place(room.at + HEADER_SIZE));
        build_unless_packed(&mut self.region, &mut self.lists);
    }

    /// Returns how many slots there are. It walks only along the tables after the one that was the
    /// last when the last one was looked for.
    pub fn slots_total(&self) -> u32
        ensures { result ≡ model_total self.now.bytes }
    {
        self.tables.slots_total(&self.region)
    }

    /// Makes a live chunk free, and returns the number of free bytes from its header up to the next
    /// chunk. The slot of a movable chunk is emptied. The directory can't be given back.
    #[inline(always)]
    pub fn give_back(&mut self, found: Found) -> u32
        requires found { IsOne self.old.bytes found }
        requires other { LendsOther self.old found.place.0 }
        requires no_directory { found.name.0 ≢ directory_of self.old.bytes }
        ensures gone { Alters self.old.bytes self.new.bytes (header_offset found) freed }
        ensures free { FreeUpTo self.new.bytes (header_offset found) (header_offset found + result) }
        ensures plain { WritesPlain self.old.bytes self.new.bytes }
        ensures rest { self.new ≡ record self.old { bytes = self.new.bytes } }
        ensures heap { HoldsHeap self.new }
    {
        build(&mut self.region, &mut self.lists);
        release_listed(&mut self.region, &mut self.lists, found)
    }

    /// Makes all chunks of an owner but the manager free, locked and fixed ones too, and returns
    /// their number. Takes one walk over the chunks and one that joins free neighbours. The caller
    /// must ensure that none of them is lent.
    pub fn give_back_owned(&mut self, owner: u8) -> u32
        requires some_owner { 0 < owner }
        requires none_lent { LendsNoneOf self.old owner }
        ensures gone { Becomes self.old.bytes self.new.bytes
            (owned_freed owner (layout_of self.old.bytes)) }
        ensures count { result ≡ count_by (is_owned_by owner) (layout_of self.old.bytes) }
        ensures plain { WritesPlain self.old.bytes self.new.bytes }
        ensures rest { self.new ≡ record self.old { bytes = self.new.bytes } }
        ensures heap { HoldsHeap self.new }
    {
        let count = release_owned(&mut self.region, owner);
        gather(&mut self.region, &mut self.lists);
        count
    }

    /// Gives a movable chunk another lock count. A chunk of the manager's, whose owner is 0, can't
    /// be locked.
    pub fn relock(&mut self, found: Found, lock: u8)
        requires found { IsOne self.old.bytes found }
        requires movable { found.lock < fixed_lock }
        requires lock { lock < fixed_lock }
        requires stays { (0 < lock) ⊎ LendsOther self.old found.place.0 }
        requires owned { (lock ≡ 0) ⊎ (0 < found.owner) }
        ensures made { Alters self.old.bytes self.new.bytes (header_offset found) (with_lock lock) }
        ensures plain { WritesPlain self.old.bytes self.new.bytes }
        ensures rest { self.new ≡ record self.old { bytes = self.new.bytes } }
        ensures heap { HoldsHeap self.new }
    {
        relock_at(&mut self.region, found, lock);
    }

    /// Gives a live chunk to another owner.
    #[inline(always)]
    pub fn reown(&mut self, found: Found, owner: u8)
        requires found { IsOne self.old.bytes found }
        requires owner { CanGoTo self.old.bytes found owner }
        ensures made { Alters self.old.bytes self.new.bytes (header_offset found) (with_owner owner) }
        ensures plain { WritesPlain self.old.bytes self.new.bytes }
        ensures rest { self.new ≡ record self.old { bytes = self.new.bytes } }
        ensures heap { HoldsHeap self.new }
    {
        reown_at(&mut self.region, found, owner);
    }

    /// Writes bytes over those of a live chunk, starting at offset `at` within its body.
    #[inline(always)]
    pub fn write(&mut self, found: Found, at: u32, bytes: &[u8])
        requires found { IsOne self.old.bytes found }
        requires other { LendsOther self.old found.place.0 }
        requires within { at + length bytes.now ≤ found.length }
        ensures made { Alters self.old.bytes self.new.bytes (header_offset found)
            (with_bytes at bytes.now) }
        ensures plain { WritesPlain self.old.bytes self.new.bytes }
        ensures rest { self.new ≡ record self.old { bytes = self.new.bytes } }
        ensures heap { HoldsHeap self.new }
    {
        self.region
            .write(found.place.0 as usize + at as usize, bytes);
    }

    /// Writes bytes and then one zero byte over those of a live chunk, starting at offset `at`
    /// within its body.
    pub fn write_ended(&mut self, found: Found, at: u32, bytes: &[u8])
        requires found { IsOne self.old.bytes found }
        requires other { LendsOther self.old found.place.0 }
        requires within { at + length bytes.now + 1 ≤ found.length }
        ensures made { Alters self.old.bytes self.new.bytes (header_offset found)
            (with_bytes at (bytes.now ++ 0 ∷ [])) }
        ensures plain { WritesPlain self.old.bytes self.new.bytes }
        ensures rest { self.new ≡ record self.old { bytes = self.new.bytes } }
        ensures heap { HoldsHeap self.new }
    {
        let start = found.place.0 as usize + at as usize;
        self.region.write(start, bytes);
        self.region.fill(start + bytes.len(), 1, 0);
    }

    /// Sets `count` bytes of a live chunk to `byte`, starting at offset `at` within its body.
    pub fn fill(&mut self, found: Found, at: u32, count: u32, byte: u8)
        requires found { IsOne self.old.bytes found }
        requires other { LendsOther self.old found.place.0 }
        requires within { at + count ≤ found.length }
        ensures made { Alters self.old.bytes self.new.bytes (header_offset found)
            (with_bytes at (replicate count byte)) }
        ensures plain { WritesPlain self.old.bytes self.new.bytes }
        ensures rest { self.new ≡ record self.old { bytes = self.new.bytes } }
        ensures heap { HoldsHeap self.new }
    {
        self.region
            .fill(found.place.0 as usize + at as usize, count as usize, byte);
    }

    /// Copies `count` bytes of a live chunk from offset `from` within its body to offset `to`. The
    /// two parts may overlap: the copy has the bytes from before the call.
    pub fn slide_within(&mut self, found: Found, from: u32, to: u32, count: u32)
        requires found { IsOne self.old.bytes found }
        requires other { LendsOther self.old found.place.0 }
        requires from_within { from + count ≤ found.length }
        requires to_within { to + count ≤ found.length }
        ensures made { SlidesWithin self.old.bytes self.new.bytes found from to count }
        ensures plain { WritesPlain self.old.bytes self.new.bytes }
        ensures rest { self.new ≡ record self.old
            { bytes = self.new.bytes; slid = self.old.slid + count } }
        ensures heap { HoldsHeap self.new }
    {
        let body = found.place.0 as usize;
        self.region
            .slide(body + from as usize, body + to as usize, count as usize);
    }

    /// Changes bytes of a live chunk at equal distances: of the `count` bytes from offset `at`
    /// within its body, those at `skip`, `skip + step`, `skip + 2 * step`, ..
    pub fn change_every<C: ByteChange>(
        &mut self,
        found: Found,
        at: u32,
        count: u32,
        skip: u32,
        step: u32,
        change: C,
    )
        requires found { IsOne self.old.bytes found }
        requires other { LendsOther self.old found.place.0 }
        requires within { at + count ≤ found.length }
        requires step { 0 < step }
        ensures made { ChangesEvery self.old.bytes self.new.bytes found at count skip step
            (C.made change) }
        ensures plain { WritesPlain self.old.bytes self.new.bytes }
        ensures rest { self.new ≡ record self.old { bytes = self.new.bytes } }
        ensures heap { HoldsHeap self.new }
    {
        let start = found.place.0 as usize + at as usize;
        self.region.change_every(start, count as usize, skip as usize, step as usize, change);
    }

    /// Lends the body of a live chunk that stays, which isn't lent. Until it is taken back the body
    /// reads as zeros.
    pub fn lend(&mut self, found: Found) -> Part
        requires other { LendsOther self.old found.place.0 }
        requires found { IsOne self.old.bytes found }
        requires stays { 0 < found.lock }
        ensures part { result.bytes ≡ slice_range self.old.bytes found.place.0 (found.place.0 + found.length) }
        ensures made { Alters self.old.bytes self.new.bytes (header_offset found)
            (with_bytes 0 (replicate found.length 0)) }
        ensures plain { WritesPlain self.old.bytes self.new.bytes }
        ensures out { self.new.lents ≡ record
            { at = found.place.0; count = found.length; start = result.start } ∷ self.old.lents }
        ensures rest { self.new ≡ record self.old { bytes = self.new.bytes; lents = self.new.lents } }
        ensures heap { HoldsHeap self.new }
    {
        self.region
            .lend(found.place.0 as usize, found.length as usize)
    }

    /// Takes back a lent part, which is the body of a live chunk. Others stay lent.
    pub fn take_back(&mut self, found: Found, part: Part)
        requires out { IsOut self.old.lents found.place.0 part }
        requires found { IsOne self.old.bytes found }
        requires whole { length part.bytes ≡ found.length }
        ensures made { Alters self.old.bytes self.new.bytes (header_offset found)
            (with_bytes 0 part.bytes) }
        ensures plain { WritesPlain self.old.bytes self.new.bytes }
        ensures rest { self.new
            ≡ record self.old { bytes = self.new.bytes; lents = without found.place.0 self.old.lents } }
        ensures heap { HoldsHeap self.new }
    {
        self.region.take_back(found.place.0 as usize, part);
    }

    /// Returns whether the body of a live chunk is lent.
    #[inline]
    pub fn lends(&self, found: Found) -> bool
        requires found { IsOne self.now.bytes found }
        ensures { IsTrue result ↔ BeginsAt found.place.0 self.now.lents }
    {
        self.region.lends_at(found.place.0)
    }

    /// Returns a chunk of an owner whose body is lent, if there is one.
    pub fn lent_of_owner(&self, owner: u8) -> Option<Found>
        requires some_owner { 0 < owner }
        ensures found { IfSome result (λ found. IsOne self.now.bytes found) }
        ensures owns { IfSome result (λ found. found.owner ≡ owner) }
        ensures begins { IfSome result (λ found. BeginsAt found.place.0 self.now.lents) }
        ensures none { IfNone result (LendsNoneOf self.now owner) }
    {
        lent_of_owner(&self.region, owner)
    }

    /// Returns the chunk with the least place above `after` whose body is lent, if there is one.
    pub fn lent_above(&self, after: Place) -> Option<Found>
        ensures found { IfSome result (λ found. IsOne self.now.bytes found) }
        ensures next { IfSome result (λ found. IsNextLent self.now.lents after.0 found.place.0) }
        ensures none { IfNone result (NoneBeginsAbove after.0 self.now.lents) }
    {
        lent_above(&self.region, after)
    }

    /// Returns where the region's bytes begin in the machine's memory.
    #[inline]
    pub fn start(&self) -> *mut u8
        ensures { AllLieIn result (length self.now.bytes) self.now.lents }
    {
        self.region.start()
    }

    /// Returns whether nothing is lent.
    #[inline]
    pub fn is_whole(&self) -> bool
        ensures { IsTrue result ↔ (self.now.lents ≡ []) }
    {
        self.region.is_whole()
    }

    /// Gives a live chunk `count` bytes in place, which must fit into the size of the chunk. Bytes
    /// that it gains within its slack are zero, and bytes that it no longer takes become free.
    /// Nothing moves.
    pub fn shrink(&mut self, found: Found, count: u32)
        requires found { IsOne self.old.bytes found }
        requires other { LendsOther self.old found.place.0 }
        requires fits { need count ≤ need found.length }
        ensures made { Shrinks self.old.bytes self.new.bytes (header_offset found) count }
        ensures plain { WritesPlain self.old.bytes self.new.bytes }
        ensures rest { self.new ≡ record self.old { bytes = self.new.bytes } }
        ensures heap { HoldsHeap self.new }
    {
        resize_listed(&mut self.region, &mut self.lists, found, count, 0);
    }

    /// Gives a live chunk `count` bytes in place, if its own and those of the free chunks directly
    /// after it suffice. Returns whether they do. Bytes that it gains are zero, and the rest is
    /// free. Nothing moves.
    #[inline(always)]
    pub fn grow_in_place(&mut self, found: Found, count: u32) -> bool
        requires found { IsOne self.old.bytes found }
        requires other { LendsOther self.old found.place.0 }
        ensures made { OnTrue result
            (GrowsInPlace self.old.bytes self.new.bytes (header_offset found) count) }
        ensures refused { OnFalse result (self.new ≡ self.old) }
        ensures tells { TellsWhetherInPlace self.old.bytes found (need count) result }
        ensures plain { WritesPlain self.old.bytes self.new.bytes }
        ensures rest { self.new ≡ record self.old { bytes = self.new.bytes } }
        ensures heap { HoldsHeap self.new }
    {
        grow_in_place_at(&mut self.region, &mut self.lists, found, count)
    }

    /// Packs the chunks of each stretch: they go to its start, and its room is after them. Returns
    /// the number of bytes that were slid, which are those of the chunks that have moved.
    pub fn compact(&mut self) -> u32
        ensures packed { Becomes self.old.bytes self.new.bytes (packed (chunks_of self.old.bytes)) }
        ensures exact { chunks_of self.new.bytes ≡ packed (chunks_of self.old.bytes) }
        ensures moved { result ≡ moved_bytes self.old.bytes self.new.bytes }
        ensures plain { WritesPlain self.old.bytes self.new.bytes }
        ensures slid { self.new.slid ≡ self.old.slid + result }
        ensures rest { self.new ≡ record self.old { bytes = self.new.bytes; slid = self.new.slid } }
        ensures heap { HoldsHeap self.new }
    {
        self.lists.set_built(true);
        compact(&mut self.region, &mut self.lists)
    }

    /// Returns the stretch of a movable chunk without locks that was found.
    pub fn stretch_around(&self, found: Found) -> Stretch
        requires found { IsOne self.now.bytes found }
        requires unlocked { found.lock ≡ 0 }
        ensures around { IsFoundAmong self.now.bytes found result }
        ensures stretch { IsStretch self.now.bytes result }
    {
        stretch_around(&self.region, found)
    }

    /// Returns a stretch whose room has `size` bytes. None if the room of every stretch is less.
    pub fn stretch_with_room(&self, size: u32) -> Option<Stretch>
        requires some_size { 0 < size }
        ensures stretch { IfSome result (IsStretch self.now.bytes) }
        ensures room { IfSome result (HasRoom self.now.bytes size) }
        ensures none { IfNone result (Short self.now.bytes size) }
    {
        stretch_with_room(&self.region, size)
    }

    /// Returns the sum of the sizes of a stretch's free chunks, in bytes.
    pub fn room_of(&self, stretch: Stretch) -> u32
        requires stretch { IsStretch self.now.bytes stretch }
        ensures { HasRoomOf self.now.bytes stretch result }
    {
        room_of_stretch(&self.region, stretch)
    }

    /// Packs the chunks of one stretch, and returns the size of the room after them, in bytes.
    pub fn pack_stretch(&mut self, stretch: Stretch) -> u32
        requires stretch { IsStretch self.old.bytes stretch }
        ensures packed { PacksStretch self.old.bytes self.new.bytes stretch }
        ensures room { RoomAtEnd self.old.bytes self.new.bytes stretch result }
        ensures frame { SameFrame self.old.bytes self.new.bytes }
        ensures plain { WritesPlain self.old.bytes self.new.bytes }
        ensures slid { SlidesStretch self.old.bytes stretch self.old.slid self.new.slid }
        ensures rest { self.new ≡ record self.old { bytes = self.new.bytes; slid = self.new.slid } }
        ensures heap { HoldsHeap self.new }
    {
        let whole = is_whole(&self.region, stretch);
        self.lists.note_packing(whole);
        pack_stretch(&mut self.region, &mut self.lists, stretch)
    }

    /// Opens room after a movable chunk without locks, which was found in this stretch. The free
    /// chunks of the stretch become one, directly after the chunk. A `Found` of a chunk of the
    /// stretch may be out of date afterwards.
    pub fn open_behind(&mut self, found: Found, stretch: Stretch)
        requires among { IsFoundAmong self.old.bytes found stretch }
        ensures opened { OpensBehind self.old.bytes self.new.bytes (header_offset found) }
        ensures exact { OpensExactly self.old.bytes self.new.bytes (header_offset found) }
        ensures frame { SameFrame self.old.bytes self.new.bytes }
        ensures plain { WritesPlain self.old.bytes self.new.bytes }
        ensures few { self.new.slid ≤ self.old.slid + 2 * (stretch.end - stretch.start) }
        ensures rest { self.new ≡ record self.old { bytes = self.new.bytes; slid = self.new.slid } }
        ensures heap { HoldsHeap self.new }
    {
        self.lists.set_built(is_whole(&self.region, stretch));
        open_in(&mut self.region, &mut self.lists, stretch, found);
    }

    /// Moves a movable chunk without locks to the start of room that `find_room` finds. It has
    /// `count` bytes there: its first ones, or all of them and zeros after them. Returns whether
    /// there is room. No other chunk moves.
    #[inline(always)]
    pub fn relocate(&mut self, found: Found, count: u32) -> bool
        requires found { IsOne self.old.bytes found }
        requires unlocked { found.lock ≡ 0 }
        ensures moved { OnTrue result (RelocatesToRun self.old.bytes self.new.bytes found count) }
        ensures had_run { OnTrue result (NoRun (chunks_of self.old.bytes) (need count) → ⊥) }
        ensures no_run { OnFalse result (NoRun (chunks_of self.old.bytes) (need count)) }
        ensures refused { OnFalse result (self.new ≡ self.old) }
        ensures frame { SameFrame self.old.bytes self.new.bytes }
        ensures plain { WritesPlain self.old.bytes self.new.bytes }
        ensures slid { OnTrue result (self.new.slid ≡ self.old.slid + min found.length count) }
        ensures rest { self.new ≡ record self.old { bytes = self.new.bytes; slid = self.new.slid } }
        ensures heap { HoldsHeap self.new }
    {
        relocate(&mut self.region, &mut self.lists, found, count)
    }
}
