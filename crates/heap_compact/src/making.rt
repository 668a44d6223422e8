//! Makes room for a chunk. If no run of free chunks has it, one stretch is packed.

ghost use Rattle.std.specs.Prelude.{◌≡◌, ◌≤◌, ◌<◌, ◌+◌, IfSome, IfNone};
ghost use Rattle.heap_model.specs.Reading.{chunks_of};
ghost use Rattle.heap_model.specs.Space.{NoRun, Short, moved_bytes};
ghost use Rattle.heap_model.specs.Packing.{SlidesOneStretch};
ghost use Rattle.heap_model.specs.Layout.{IsRoom, IsSpot};
ghost use Rattle.heap_model.specs.Lending.{HoldsHeap};

use crate::space::Space;
use heap_place::Room;

/// Makes room for a chunk of `size` bytes, header included: neighbouring free chunks. If no run of
/// free chunks has `size` bytes, it packs the first stretch whose room has them. Returns None if
/// the room of every stretch is less; then nothing has changed.
pub fn make_room(space: &mut Space, size: u32) -> Option<Room>
    requires some_size { 0 < size }
    ensures room { IfSome result (λ room. IsSpot space.new.bytes room.at room.size) }
    ensures enough { IfSome result (λ room. size ≤ room.size) }
    ensures not_short { IfSome result (λ room. Short space.old.bytes size → ⊥) }
    ensures short { IfNone result (Short space.old.bytes size) }
    ensures refused { IfNone result (space.new ≡ space.old) }
    ensures unmoved { (NoRun (chunks_of space.old.bytes) size → ⊥) → space.new ≡ space.old }
    ensures slides { SlidesOneStretch space.old.bytes space.new.bytes }
    ensures once { space.new.slid ≡ space.old.slid + moved_bytes space.old.bytes space.new.bytes }
    ensures rest { space.new ≡ record space.old { bytes = space.new.bytes; slid = space.new.slid } }
    ensures heap { HoldsHeap space.new }
{
    space.holds();
    match space.find_room(size) {
        Some(room) => Some(room),
        None => room_by_packing(space, size),
    }
}

/// Packs the first stretch whose room has `size` bytes, and returns that room. Returns None if the
/// room of every stretch is less.
pub(crate) fn room_by_packing(space: &mut Space, size: u32) -> Option<Room>
    requires some_size { 0 < size }
    ensures room { IfSome result (λ room. IsRoom space.new.bytes room.at room.size) }
    ensures enough { IfSome result (λ room. size ≤ room.size) }
    ensures not_short { IfSome result (λ room. Short space.old.bytes size → ⊥) }
    ensures short { IfNone result (Short space.old.bytes size) }
    ensures refused { IfNone result (space.new ≡ space.old) }
    ensures slides { SlidesOneStretch space.old.bytes space.new.bytes }
    ensures once { space.new.slid ≡ space.old.slid + moved_bytes space.old.bytes space.new.bytes }
    ensures rest { space.new ≡ record space.old { bytes = space.new.bytes; slid = space.new.slid } }
    ensures heap { HoldsHeap space.new }
{
    space.holds();
    let stretch = space.stretch_with_room(size)?;
    let room = space.pack_stretch(stretch);
    Some(Room {
        at: stretch.end - room,
        size: room,
    })
}
