//! Calls that make chunks and free them.
#![tactic(auto, using(laws_heap::proofs::LentBodies::table_within, laws_heap::proofs::LentBodies::frame_within))]

ghost use Rattle.std.specs.Prelude.{◌≡◌, ◌≢◌, ◌≤◌, ◌<◌, ◌+◌, ◌↔◌, ℕ, List, IfSome, IfOk, OnOk, IfErr, OnErr, None};
ghost use Rattle.heap_model.specs.Chunk.{need, data_owner};
ghost use Rattle.heap_model.specs.Heap.{directory_of};
ghost use Rattle.heap_model.specs.Leaving.{Leaves};
ghost use Rattle.heap_model.specs.Lending.{LendsBodies, LendsOther, HoldsHeap, KeepsLoan};
ghost use Rattle.heap_model.specs.Maps.{gone};
ghost use Rattle.heap_model.specs.Reading.{chunks_of, held};
ghost use Rattle.heap_model.specs.Space.{NoRun, Short, free_slots, MovesNothing, MovesOneStretch, moved_bytes};
ghost use Rattle.heap_model.specs.Packing.{SlidesOneStretch};
ghost use Rattle.heap_model.specs.Layout.{IsSpot};
ghost use Rattle.heap_model.specs.Rooms.{Lowers};
ghost use Rattle.heap_model.specs.MoreTables.{gained_length};
ghost use Rattle.heap_model.specs.MemorySteps.{Does};
ghost use Rattle.heap_model.specs.declared.call.MemoryCall.{MemoryCall};
ghost use Rattle.mem_manager.specs.Replies.{done_or_refused, number_or_refused, name_or_refused};
ghost use Rattle.heap_place.specs.Found.{IsFound, IsOne};
ghost use Rattle.master_table.specs.Table.{IsTiled, IsStart, NotAmong, UsedBefore};
ghost use Rattle.mem_manager.specs.Lookup.{IsNextEmpty, IsSlotOrNone, MakesNew, HasNoRoomFor, MovesOnlyForRoom};

use crate::bounds::check_owner;
use crate::heap::Heap;
use crate::known::KnownNames;
use crate::lookup::{check_callers, check_here, find};
use chunk_format::{FIXED_LOCK, MANAGERS_OWNER, TABLE_LENGTH, chunk_size, is_chained, slot_count};
use heap_compact::{Space, make_room};
use heap_model::{Name, Refusal};
use heap_place::{Found, Room};
use master_table::{EmptySlot, TableStart, first_empty_slot, least_number, word_of};
use raw_region::Region;

impl Heap {
    /// Makes a movable chunk of `size` zeros, without a lock, for an owner of 1 to 14. Its name is
    /// the offset of a slot that was empty.
    ///
    /// If no run of neighbouring free chunks has the room, the chunks of one stretch are packed. No
    /// chunk of another stretch moves.
    ///
    /// # Errors
    ///
    /// - `InvalidOwner`: the owner isn't one of 1 to 14.
    /// - `NotEnoughSpace`: no slot is free, or no stretch has the room.
    pub fn handle_new(&mut self, size: u32, owner: u8) -> Result<Name, Refusal>
        ensures does { Does self.old (MemoryCall.HandleNew size owner)
            (name_or_refused result) self.new }
        ensures unmoved { MovesOnlyForRoom self.old.bytes self.new.bytes size }
        ensures one_stretch { MovesOneStretch self.old.bytes self.new.bytes }
        ensures once { self.new.slid ≡ self.old.slid + moved_bytes self.old.bytes self.new.bytes }
        ensures refused { OnErr result (self.new ≡ self.old) }
    {
        // The heap is looked at, so that its invariant is known.
        let _ = &self.space;
        check_owner(owner)?;
        self.sys_new(size, owner)
    }

    /// Makes a fixed chunk of `size` zeros. What moves is as with a movable one.
    ///
    /// # Errors
    ///
    /// - `InvalidOwner`: the owner isn't one of 1 to 14.
    /// - `NotEnoughSpace`: no stretch has the room.
    pub fn ptr_new(&mut self, size: u32, owner: u8) -> Result<Name, Refusal>
        ensures does { Does self.old (MemoryCall.PtrNew size owner)
            (name_or_refused result) self.new }
        ensures unmoved { MovesOnlyForRoom self.old.bytes self.new.bytes size }
        ensures one_stretch { MovesOneStretch self.old.bytes self.new.bytes }
        ensures once { self.new.slid ≡ self.old.slid + moved_bytes self.old.bytes self.new.bytes }
        ensures refused { OnErr result (self.new ≡ self.old) }
    {
        let space = &mut self.space;
        check_owner(owner)?;
        let room = room_for(space, size)?;
        let name = space.claim_fixed(room, size, owner);
        self.known.remember(name);
        Ok(name)
    }

    /// Makes a further master pointer table of 15 empty slots, the last of the chain. It moves
    /// chunks as `ptr_new` does.
    ///
    /// # Errors
    ///
    /// - `NotEnoughSpace`: the image has no chain of tables, or no stretch has the room.
    pub fn more_slots(&mut self) -> Result<(), Refusal>
        ensures does { Does self.old MemoryCall.MoreSlots (done_or_refused result) self.new }
        ensures unmoved { MovesOnlyForRoom self.old.bytes self.new.bytes gained_length }
        ensures one_stretch { MovesOneStretch self.old.bytes self.new.bytes }
        ensures once { self.new.slid ≡ self.old.slid + moved_bytes self.old.bytes self.new.bytes }
        ensures refused { OnErr result (self.new ≡ self.old) }
    {
        let space = &mut self.space;
        let total = space.slots_total();
        make_table(space)?;
        self.used = self.used.min(total);
        Ok(())
    }

    /// Frees a caller's chunk that has no lock. A fixed chunk may be freed.
    ///
    /// # Errors
    ///
    /// - `InvalidHandle`: no chunk has the name, or the manager owns the chunk.
    /// - `OwnedByDatabase`: the chunk is data of a database.
    /// - `ChunkLocked`: the chunk is movable and has a lock.
    /// - `Lent`: the bytes of the chunk are lent.
    #[inline(always)]
    pub fn free(&mut self, name: Name) -> Result<(), Refusal>
        ensures does { Does self.old (MemoryCall.Free name) (done_or_refused result) self.new }
        ensures refused { OnErr result (self.new ≡ self.old) }
    {
        match self.space.in_near_slot(name) {
            Some(found) if found.owner != MANAGERS_OWNER => self.free_found(name, found),
            _ => self.free_other(name),
        }
    }

    /// Frees the chunk of a name that isn't a slot's, or refuses. It is a function of its own, so
    /// that only what the chunk of a slot needs is in line.
    #[inline(never)]
    fn free_other(&mut self, name: Name) -> Result<(), Refusal>
        ensures does { Does self.old (MemoryCall.Free name) (done_or_refused result) self.new }
        ensures refused { OnErr result (self.new ≡ self.old) }
    {
        let found = find(&self.space, &self.known, name)?;
        self.free_found(name, found)
    }

    /// Frees the chunk of a name that was found.
    #[inline(always)]
    fn free_found(&mut self, name: Name, found: Found) -> Result<(), Refusal>
        requires found { IsFound self.old.bytes name.0 found }
        requires callers { 1 ≤ found.owner }
        ensures does { Does self.old (MemoryCall.Free name) (done_or_refused result) self.new }
        ensures refused { OnErr result (self.new ≡ self.old) }
    {
        // The heap is looked at, so that its invariant is known.
        let _ = &self.space;
        check_callers(found)?;
        if found.lock > 0 && found.lock < FIXED_LOCK {
            return Err(Refusal::ChunkLocked);
        }
        check_here(&self.space, found)?;
        self.give_back(name, found);
        Ok(())
    }

    /// Gives the chunk of a name back, which was found, and forgets its name.
    #[inline(always)]
    pub(crate) fn give_back(&mut self, name: Name, found: Found)
        requires found { IsFound self.old.bytes name.0 found }
        requires other { LendsOther self.old found.place.0 }
        requires no_directory { name.0 ≢ directory_of self.old.bytes }
        ensures leaves { Leaves self.old.bytes self.new.bytes (gone (held self.old.bytes) name.0) }
        ensures unmoved { MovesNothing self.old.bytes self.new.bytes }
        ensures loan { KeepsLoan self.old self.new }
        ensures rest { self.new ≡ record self.old { bytes = self.new.bytes } }
    {
        self.used = used_without(self.space.region(), self.used, name);
        self.freed = freed_slot(self.space.region(), self.freed, found);
        self.known.forget(name);
        self.space.give_back(found);
    }

    /// Frees all chunks of an owner, 1 to 14, locked and fixed ones too, and returns their number.
    ///
    /// # Errors
    ///
    /// - `InvalidOwner`: the owner isn't one of 1 to 14.
    /// - `Lent`: the bytes of one of the chunks are lent.
    pub fn free_by_owner(&mut self, owner: u8) -> Result<u32, Refusal>
        ensures does { Does self.old (MemoryCall.FreeByOwner owner) (number_or_refused result) self.new }
        ensures refused { OnErr result (self.new ≡ self.old) }
    {
        // The heap is looked at, so that its invariant is known.
        let _ = &self.space;
        check_owner(owner)?;
        if let Some(found) = self.space.lent_of_owner(owner) {
            let _place = found.place;
            return Err(Refusal::Lent);
        }
        let count = self.space.give_back_owned(owner);
        self.used = 0;
        self.start = TableStart::first();
        self.freed = Name(0);
        self.known = KnownNames::none();
        Ok(count)
    }
}

/// Finds an empty slot. It is the slot of a further table that was freed last, if that is empty.
/// Else it is the first empty slot after the first `used` ones.
pub(crate) fn next_empty_slot(
    region: &Region,
    used: u32,
    start: TableStart,
    freed: Name,
) -> Option<EmptySlot>
    requires heap { HoldsHeap region.now }
    requires in_use { UsedBefore region.now.bytes used }
    requires start { IsStart region.now.bytes start }
    requires freed { IsSlotOrNone region.now.bytes freed.0 }
    ensures some { IfSome result (λ slot. IsNextEmpty region.now.bytes slot.name.0 slot.before) }
    ensures none { (result ≡ None) ↔ (free_slots region.now.bytes ≡ 0) }
    ensures table { IfSome result (λ slot. IsStart region.now.bytes slot.table) }
{
    if freed.0 != 0 && word_of(region, freed.0) == 0 {
        return Some(EmptySlot {
            name: freed,
            before: used,
            table: start,
        });
    }
    first_empty_slot(region, start, used)
}

/// Makes a movable chunk of `size` zeros, without a lock, under an empty slot that was found.
/// Returns the slot.
pub(crate) fn make_movable(
    space: &mut Space,
    found: Option<EmptySlot>,
    size: u32,
    owner: u8,
) -> Result<EmptySlot, Refusal>
    requires some { IfSome found (λ slot. IsNextEmpty space.old.bytes slot.name.0 slot.before) }
    requires none { (found ≡ None) ↔ (free_slots space.old.bytes ≡ 0) }
    requires table { IfSome found (λ slot. IsStart space.old.bytes slot.table) }
    requires owner { owner ≤ data_owner }
    ensures made { IfOk result
        (λ slot. MakesNew space.old.bytes space.new.bytes slot.name.0 size owner) }
    ensures in_use { IfOk result (λ slot. UsedBefore space.new.bytes slot.before) }
    ensures table { IfOk result (λ slot. IsStart space.new.bytes slot.table) }
    ensures had_room { OnOk result (HasNoRoomFor space.old.bytes size → ⊥) }
    ensures no_room { OnErr result (HasNoRoomFor space.old.bytes size) }
    ensures refusal { IfErr result (λ refusal. refusal ≡ Refusal.NotEnoughSpace) }
    ensures refused { OnErr result (space.new ≡ space.old) }
    ensures unmoved { MovesOnlyForRoom space.old.bytes space.new.bytes size }
    ensures one_stretch { MovesOneStretch space.old.bytes space.new.bytes }
    ensures lowers { OnOk result (Lowers space.old.bytes space.new.bytes (need size)) }
    ensures once { space.new.slid ≡ space.old.slid + moved_bytes space.old.bytes space.new.bytes }
    ensures rest { space.new ≡ record space.old { bytes = space.new.bytes; slid = space.new.slid } }
    ensures heap { HoldsHeap space.new }
{
    space.holds();
    let slot = found.ok_or(Refusal::NotEnoughSpace)?;
    let room = room_for(space, size)?;
    space.claim(room, slot.name, size, owner);
    Ok(slot)
}

/// Makes a further table of empty slots, as `Heap::more_slots` does.
fn make_table(space: &mut Space) -> Result<(), Refusal>
    ensures does { Does space.old MemoryCall.MoreSlots (done_or_refused result) space.new }
    ensures unmoved { MovesOnlyForRoom space.old.bytes space.new.bytes gained_length }
    ensures one_stretch { MovesOneStretch space.old.bytes space.new.bytes }
    ensures once { space.new.slid ≡ space.old.slid + moved_bytes space.old.bytes space.new.bytes }
    ensures refused { OnErr result (space.new ≡ space.old) }
    ensures heap { HoldsHeap space.new }
{
    space.holds();
    if !is_chained(space.region()) {
        return Err(Refusal::NotEnoughSpace);
    }
    let room = room_for(space, TABLE_LENGTH)?;
    space.claim_table(room);
    Ok(())
}

/// Returns room for a chunk of `size` bytes. Packs one stretch if it has to.
fn room_for(space: &mut Space, size: u32) -> Result<Room, Refusal>
    ensures room { IfOk result (λ room. IsSpot space.new.bytes room.at room.size) }
    ensures enough { IfOk result (λ room. need size ≤ room.size) }
    ensures not_short { OnOk result (Short space.old.bytes (need size) → ⊥) }
    ensures short { OnErr result (Short space.old.bytes (need size)) }
    ensures refusal { IfErr result (λ refusal. refusal ≡ Refusal.NotEnoughSpace) }
    ensures refused { OnErr result (space.new ≡ space.old) }
    ensures unmoved { (NoRun (chunks_of space.old.bytes) (need size) → ⊥) → space.new ≡ space.old }
    ensures slides { SlidesOneStretch space.old.bytes space.new.bytes }
    ensures once { space.new.slid ≡ space.old.slid + moved_bytes space.old.bytes space.new.bytes }
    ensures rest { space.new ≡ record space.old { bytes = space.new.bytes; slid = space.new.slid } }
    ensures heap { HoldsHeap space.new }
{
    space.holds();
    let Some(needed) = chunk_size(size) else {
        return Err(Refusal::NotEnoughSpace);
    };
    make_room(space, needed).ok_or(Refusal::NotEnoughSpace)
}

/// Returns how many of the first `used` slots are before the slot of a name. They stay in use when
/// that slot is emptied. If the slot isn't among the first `used`, all of them may stay. If it is
/// in a further table, the result may be smaller.
#[inline(always)]
pub(crate) fn used_without(region: &Region, used: u32, name: Name) -> u32
    requires tiled { IsTiled region.now.bytes }
    requires lent { LendsBodies region.now }
    ensures fewer { result ≤ used }
    ensures apart { NotAmong region.now.bytes result name.0 }
{
    used.min(least_number(region, name))
}

/// Returns the slot of a further table that was freed last, once a chunk that was found is freed.
/// It is the chunk's own slot if that is in a further table, else `freed`.
#[inline(always)]
pub(crate) fn freed_slot(region: &Region, freed: Name, found: Found) -> Name
    requires heap { HoldsHeap region.now }
    requires found { IsOne region.now.bytes found }
    requires freed { IsSlotOrNone region.now.bytes freed.0 }
    ensures { IsSlotOrNone region.now.bytes result.0 }
{
    let further = least_number(region, found.name) == slot_count(region) as u32;
    if further && found.lock != FIXED_LOCK {
        found.name
    } else {
        freed
    }
}
