//! Makes a live chunk at the start of room.
#![tactic(auto, using(laws_heap::proofs::LentBodies::frame_within, laws_heap::proofs::LentBodies::table_within, laws_heap::proofs::Lending::part_misses))]

ghost use Rattle.std.specs.Prelude.{◌≡◌, ◌≤◌, ◌<◌, ◌+◌, ◌%◌, ◌^◌, length, replicate, true};
ghost use Rattle.heap_model.specs.Bytes.{u32_at};
ghost use Rattle.heap_model.specs.Chunk.{movable, fixed, need, data_owner};
ghost use Rattle.heap_model.specs.Memory.{Misses};
ghost use Rattle.heap_model.specs.Slots.{IsSlot, is_chained};
ghost use Rattle.heap_model.specs.MoreTables.{table_need, PutsTable};
ghost use Rattle.heap_model.specs.Reading.{chunks_of};
ghost use Rattle.heap_model.specs.Layout.{Becomes, IsSpot, WritesPlain};
ghost use Rattle.heap_model.specs.Lending.{HoldsHeap};
ghost use Rattle.master_table.specs.Table.{IsStart};
ghost use Rattle.heap_place.specs.Search.{WroteRest};
ghost use Rattle.heap_place.specs.Lists.{IsFreeChunk, KeepsFree, Outside, ButAt, CutsRoom, Fills};

use crate::room::Room;
use chunk_format::{HEADER_SIZE, Header, MANAGERS_OWNER, TABLE_LENGTH};
use heap_model::{Name, Place};
use master_table::{TableStart, add_table};
use raw_region::Region;

/// Makes the start of a run of free chunks one free chunk of `size` bytes, and the rest another.
pub fn cut(region: &mut Region, room: Room, size: u32)
    requires heap { HoldsHeap region.old }
    requires room { IsSpot region.old.bytes room.at room.size }
    requires least { need 0 ≤ size }
    requires whole { size % 8 ≡ 0 }
    requires within { size ≤ room.size }
    ensures same { Becomes region.old.bytes region.new.bytes (chunks_of region.old.bytes) }
    ensures cut { CutsRoom region.old.bytes region.new.bytes room.at room.size size }
    ensures keeps { KeepsFree (Outside room.at room.size) region.old.bytes region.new.bytes }
    ensures plain { WritesPlain region.old.bytes region.new.bytes }
    ensures rest { region.new ≡ record region.old { bytes = region.new.bytes } }
    ensures heap { HoldsHeap region.new }
{
    write_rest(region, room.at + size, room.size - size);
    Header::Free { size }.write(region, room.at);
}

/// Writes the header of a free chunk of `size` bytes at `at`, unless `size` is 0.
#[inline(always)]
pub fn write_rest(region: &mut Region, at: u32, size: u32)
    requires inside { at + size ≤ length region.old.bytes }
    requires misses { Misses region.old.lents at size }
    requires small { length region.old.bytes < 2 ^ 24 }
    requires whole { size % 8 ≡ 0 }
    ensures wrote { WroteRest region.old.bytes region.new.bytes at size }
    ensures rest { region.new ≡ record region.old { bytes = region.new.bytes } }
{
    if size > 0 {
        Header::Free { size }.write(region, at);
    }
}

/// Makes the free chunk at `at` a movable one of `count` zeros.
pub fn claim_movable(region: &mut Region, at: u32, slot: Name, count: u32, owner: u8)
    requires heap { HoldsHeap region.old }
    requires free { IsFreeChunk region.old.bytes at (need count) }
    requires slot { IsSlot region.old.bytes slot.0 }
    requires empty { u32_at region.old.bytes slot.0 ≡ 0 }
    requires owner { owner ≤ data_owner }
    ensures made { Fills region.old.bytes region.new.bytes at (need count)
        (movable (replicate count 0) 0 owner slot.0) }
    ensures keeps { KeepsFree (ButAt at) region.old.bytes region.new.bytes }
    ensures plain { WritesPlain region.old.bytes region.new.bytes }
    ensures rest { region.new ≡ record region.old { bytes = region.new.bytes } }
    ensures heap { HoldsHeap region.new }
{
    let header = Header::Movable {
        length: count,
        lock: 0,
        owner,
        slot: slot.0,
    };
    header.write(region, at);
    region.fill(at as usize + HEADER_SIZE as usize, count as usize, 0);
    master_table::set(region, slot, Place(at + HEADER_SIZE));
}

/// Makes the free chunk at `at` a fixed one of `count` zeros.
pub fn claim_fixed_at(region: &mut Region, at: u32, count: u32, owner: u8)
    requires heap { HoldsHeap region.old }
    requires free { IsFreeChunk region.old.bytes at (need count) }
    requires some_owner { 0 < owner }
    requires most_owner { owner < data_owner }
    ensures made { Fills region.old.bytes region.new.bytes at (need count)
        (fixed (replicate count 0) owner) }
    ensures keeps { KeepsFree (ButAt at) region.old.bytes region.new.bytes }
    ensures plain { WritesPlain region.old.bytes region.new.bytes }
    ensures rest { region.new ≡ record region.old { bytes = region.new.bytes } }
    ensures heap { HoldsHeap region.new }
{
    let header = Header::Fixed {
        length: count,
        owner,
    };
    header.write(region, at);
    let body = at as usize + HEADER_SIZE as usize;
    region.fill(body, count as usize, 0);
}

/// Makes the free chunk at `at` a table of empty slots, the last of the chain. The end of the chain
/// is looked for from the table `start` on.
pub fn claim_table_at(region: &mut Region, at: u32, start: TableStart)
    requires heap { HoldsHeap region.old }
    requires free { IsFreeChunk region.old.bytes at table_need }
    requires chained { is_chained region.old.bytes ≡ true }
    requires start { IsStart region.old.bytes start }
    ensures made { PutsTable region.old.bytes region.new.bytes (at + 8) }
    ensures keeps { KeepsFree (ButAt at) region.old.bytes region.new.bytes }
    ensures plain { WritesPlain region.old.bytes region.new.bytes }
    ensures rest { region.new ≡ record region.old { bytes = region.new.bytes } }
    ensures heap { HoldsHeap region.new }
{
    let header = Header::Fixed {
        length: TABLE_LENGTH,
        owner: MANAGERS_OWNER,
    };
    header.write(region, at);
    let body = at + HEADER_SIZE;
    region.fill(body as usize, TABLE_LENGTH as usize, 0);
    add_table(region, start, Place(body));
}
