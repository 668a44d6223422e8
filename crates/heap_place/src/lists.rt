//! The lists of free chunks, one for each class of sizes.
#![tactic(auto, using(laws_heap::proofs::LentBodies::frame_within, laws_heap::proofs::LentBodies::table_within))]

ghost use Rattle.std.specs.Prelude.{◌≡◌, ◌≤◌, ◌<◌, ◌+◌, ◌-◌, ◌%◌, ◌^◌, length, replicate, slice_index, slice_set, IfSome};
ghost use Rattle.heap_model.specs.Bytes.{u32_at};
ghost use Rattle.heap_model.specs.Chunk.{need};
ghost use Rattle.heap_model.specs.Memory.{IsWithin};
ghost use Rattle.heap_model.specs.Reading.{size_field, chunks_of};
ghost use Rattle.heap_model.specs.Layout.{Becomes, IsSpot, WritesPlain};
ghost use Rattle.heap_model.specs.Lending.{HoldsHeap};
ghost use Rattle.heap_place.specs.Lists.{class_count, IsOfClass, IsFreeChunk, Pushes, HasLists, AreLists, Outside, ButAt, CutsRoom, SameChunks};
ghost use Rattle.heap_place.specs.Gathers.{Before};

use crate::claim::cut;
use crate::room::Room;
use crate::splice::take_out;
use raw_region::Region;
use std::marker::Model;

/// The number of classes of sizes.
const CLASSES: usize = 21;

/// The offset within a free chunk of its link: the second word of its header.
pub const LINK_AT: usize = 4;

/// The least number that does not fit a size field.
pub const ABOVE_SIZES: u32 = 0x100_0000;

/// The most chunks of a list that a call visits if its cost must not depend on the heap's size.
const FEW: usize = 64;

/// More chunks than a list has. An image has fewer than 2^24 bytes, and a chunk takes at least 8 of
/// them.
const ALL: usize = 0x20_0000;

/// The lists. Contracts see only the heads.
#[derive(Drop)]
pub struct Lists {
    /// For each class, the offset of the first chunk of its list, or 0 if the list is empty.
    heads: [u32; CLASSES],
    /// Whether the lists were built since they were last dropped. If not, free chunks may be
    /// missing from them.
    built: bool,
    /// Whether a stretch that isn't the whole heap was packed for the chunk that is made next.
    /// Making that chunk does not build the lists, so that no walk over all chunks follows the
    /// packing.
    packed: bool,
}

impl Model for Lists {
    ghost use Rattle.std.specs.Prelude.{ℕ, List};

    ghost Value = { List ℕ };

    ghost view = { λ lists. lists.heads };
}

impl Lists {
    /// No chunk is in a list.
    pub fn none() -> Lists
        ensures { result ≡ replicate class_count 0 }
    {
        Lists {
            heads: [0; CLASSES],
            built: false,
            packed: false,
        }
    }

    /// Returns the offset of the first chunk of a list, or 0 if the list is empty.
    #[inline(always)]
    pub fn head(&self, class: usize) -> u32
        requires { class < class_count }
        ensures { result ≡ slice_index self.now class }
    {
        self.heads[class]
    }

    /// Makes the chunk at `at` the first of a list.
    #[inline(always)]
    pub fn set_head(&mut self, class: usize, at: u32)
        requires { class < class_count }
        ensures { self.new ≡ slice_set self.old class at }
    {
        self.heads[class] = at;
    }

    /// Empties all lists, which are then filled.
    #[inline(always)]
    pub fn empty(&mut self)
        ensures { self.new ≡ replicate class_count 0 }
    {
        self.heads = [0; CLASSES];
    }

    /// Drops all lists.
    #[inline(always)]
    pub fn drop_all(&mut self)
        ensures { self.new ≡ replicate class_count 0 }
    {
        self.heads = [0; CLASSES];
        self.built = false;
    }

    /// Returns whether the lists were built since they were last dropped.
    #[inline(always)]
    pub fn are_built(&self) -> bool {
        self.built
    }

    /// Notes whether the lists are built.
    #[inline(always)]
    pub fn set_built(&mut self, built: bool)
        ensures { self.new ≡ self.old }
    {
        self.built = built;
    }

    /// Notes that a stretch was packed, the whole heap or not.
    #[inline(always)]
    pub fn note_packing(&mut self, whole: bool)
        ensures { self.new ≡ self.old }
    {
        self.built = whole;
        self.packed = !whole;
    }

    /// Notes that room was found without packing.
    #[inline(always)]
    pub fn forget_packing(&mut self)
        ensures { self.new ≡ self.old }
    {
        self.packed = false;
    }

    /// Returns whether a stretch was packed for the chunk that was made. If so, the lists are not
    /// built, and the next chunk that is made builds them.
    #[inline(always)]
    pub fn take_packed(&mut self) -> bool
        ensures { self.new ≡ self.old }
    {
        let packed = self.packed;
        if packed {
            self.built = false;
            self.packed = false;
        }
        packed
    }
}

/// Returns the class of a free chunk of `size` bytes.
#[inline(always)]
pub fn class_of(size: u32) -> usize
    requires least { need 0 ≤ size }
    requires small { size < 2 ^ 24 }
    ensures of_class { IsOfClass result size }
    ensures below { result < class_count }
{
    (31 - (size / 8).leading_zeros()) as usize
}

/// Puts the free chunk at `at`, which is in no list, at the head of the list of its class.
#[inline(always)]
pub fn push(region: &mut Region, lists: &mut Lists, at: u32, size: u32)
    requires heap { HoldsHeap region.old }
    requires free { IsFreeChunk region.old.bytes at size }
    ensures pushed { Pushes region.old.bytes region.new.bytes lists.old lists.new at }
    ensures rest { region.new ≡ record region.old { bytes = region.new.bytes } }
    ensures heap { HoldsHeap region.new }
{
    let class = class_of(size);
    region.put_u32(at as usize + LINK_AT, lists.head(class));
    lists.set_head(class, at);
}

/// Puts the free chunk of `room` bytes that ends at `end` into its list, unless `room` is 0. The
/// lists contain the free chunks before it.
pub fn push_room(region: &mut Region, lists: &mut Lists, end: u32, room: u32)
    requires heap { HoldsHeap region.old }
    requires within { room ≤ end }
    requires free { 0 < room → IsFreeChunk region.old.bytes (end - room) room }
    requires lists { AreLists (Before (end - room)) region.old.bytes lists.old }
    ensures same { SameChunks region.old.bytes region.new.bytes }
    ensures lists { AreLists (Before end) region.new.bytes lists.new }
    ensures rest { region.new ≡ record region.old { bytes = region.new.bytes } }
    ensures heap { HoldsHeap region.new }
{
    if room > 0 {
        push(region, lists, end - room, room);
    }
}

/// Drops all lists, and puts the free chunk at `at` into its own.
pub fn push_alone(region: &mut Region, lists: &mut Lists, at: u32, size: u32)
    requires heap { HoldsHeap region.old }
    requires free { IsFreeChunk region.old.bytes at size }
    ensures same { SameChunks region.old.bytes region.new.bytes }
    ensures lists { HasLists region.new.bytes lists.new }
    ensures rest { region.new ≡ record region.old { bytes = region.new.bytes } }
    ensures heap { HoldsHeap region.new }
{
    lists.empty();
    push(region, lists, at, size);
}

/// Returns the size of a free chunk, from its first word.
#[inline]
fn size_at(region: &Region, at: u32) -> u32
    requires { IsWithin region.now at 4 }
    ensures { result ≡ size_field (u32_at region.now.bytes at) }
{
    region.get_u32(at as usize) % ABOVE_SIZES
}

/// Takes the free chunks of room out of their lists. If the room is not one chunk among the first
/// `probes` of its list, all lists are dropped.
#[inline(always)]
fn unlink(region: &mut Region, lists: &mut Lists, room: Room, probes: usize)
    requires heap { HoldsHeap region.old }
    requires room { IsSpot region.old.bytes room.at room.size }
    requires some { need 0 ≤ room.size }
    requires lists { HasLists region.old.bytes lists.old }
    ensures same { SameChunks region.old.bytes region.new.bytes }
    ensures lists { AreLists (Outside room.at room.size) region.new.bytes lists.new }
    ensures rest { region.new ≡ record region.old { bytes = region.new.bytes } }
    ensures heap { HoldsHeap region.new }
{
    if size_at(region, room.at) == room.size {
        take_out(region, lists, room.at, room.size, probes);
    } else {
        lists.drop_all();
    }
}

/// The same for room that may be empty. It visits at most `FEW` chunks.
#[inline(always)]
pub fn unlink_run(region: &mut Region, lists: &mut Lists, room: Room)
    requires heap { HoldsHeap region.old }
    requires room { IsSpot region.old.bytes room.at room.size }
    requires lists { HasLists region.old.bytes lists.old }
    ensures same { SameChunks region.old.bytes region.new.bytes }
    ensures lists { AreLists (Outside room.at room.size) region.new.bytes lists.new }
    ensures rest { region.new ≡ record region.old { bytes = region.new.bytes } }
    ensures heap { HoldsHeap region.new }
{
    if room.size == 0 {
        return;
    }
    unlink(region, lists, room, FEW);
}

/// Makes the start of room one free chunk of `size` bytes, which is in no list. The rest of the
/// room becomes another free chunk, which is in its list. If the room is not the first of a list, a
/// walk over the chunks before it has found it. So its list may be searched to the end.
pub fn take(region: &mut Region, lists: &mut Lists, room: Room, size: u32)
    requires heap { HoldsHeap region.old }
    requires room { IsSpot region.old.bytes room.at room.size }
    requires least { need 0 ≤ size }
    requires whole { size % 8 ≡ 0 }
    requires within { size ≤ room.size }
    requires lists { HasLists region.old.bytes lists.old }
    ensures same { Becomes region.old.bytes region.new.bytes (chunks_of region.old.bytes) }
    ensures cut { CutsRoom region.old.bytes region.new.bytes room.at room.size size }
    ensures lists { AreLists (ButAt room.at) region.new.bytes lists.new }
    ensures plain { WritesPlain region.old.bytes region.new.bytes }
    ensures rest { region.new ≡ record region.old { bytes = region.new.bytes } }
    ensures heap { HoldsHeap region.new }
{
    unlink(region, lists, room, ALL);
    cut(region, room, size);
    if size < room.size {
        push(region, lists, room.at + size, room.size - size);
    }
}

/// Returns the first chunk of a list if it has `size` bytes. It tries each class that can have a
/// chunk of this size.
pub fn find_listed(region: &Region, lists: &Lists, size: u32) -> Option<Room>
    requires heap { HoldsHeap region.now }
    requires lists { HasLists region.now.bytes lists.now }
    requires least { need 0 ≤ size }
    requires small { size < 2 ^ 24 }
    ensures room { IfSome result (λ room. IsSpot region.now.bytes room.at room.size) }
    ensures enough { IfSome result (λ room. size ≤ room.size) }
{
    for class in class_of(size)..CLASSES {
        let at = lists.head(class);
        if at != 0 {
            let found = size_at(region, at);
            if found >= size {
                return Some(Room { at, size: found });
            }
        }
    }
    None
}
