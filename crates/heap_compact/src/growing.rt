//! Gives a chunk another length that doesn't fit its place.

ghost use Rattle.std.specs.Prelude.{◌≡◌};
ghost use Rattle.std.specs.Bool.{OnTrue, OnFalse};
ghost use Rattle.heap_model.specs.Chunk.{need};
ghost use Rattle.heap_model.specs.Reading.{chunks_of};
ghost use Rattle.heap_model.specs.Space.{NoRun, ShortFor, FitsInPlace, MovesAlone, MovesOneStretchAnd};
ghost use Rattle.heap_model.specs.Lending.{HoldsHeap};
ghost use Rattle.heap_place.specs.Found.{IsOne};
ghost use Rattle.heap_compact.specs.Stretches.{IsFoundAmong};
ghost use Rattle.heap_compact.specs.Resized.{IsLoose, Resized, FitsInStretch};

use crate::making::room_by_packing;
use crate::space::Space;
use crate::stretch::Stretch;
use chunk_format::{chunk_size, size_of_body};
use heap_model::Name;
use heap_place::Found;

/// Gives a movable chunk without locks that was found `count` bytes: its first ones, or all of them
/// and zeros after them. The chunk or others of one stretch may move. Returns whether there is
/// room, which is looked for in this order:
///
/// - in a free run elsewhere
/// - in the chunk's own stretch
/// - in another stretch
///
/// If there is no room, nothing has changed.
#[inline(never)]
pub fn resize_by_moving(space: &mut Space, found: Found, count: u32) -> bool
    requires found { IsOne space.old.bytes found }
    requires unlocked { found.lock ≡ 0 }
    ensures resized { OnTrue result (Resized space.old.bytes space.new.bytes found.name.0 count) }
    ensures not_short { OnTrue result (ShortFor space.old.bytes found.name.0 (need count) → ⊥) }
    ensures short { OnFalse result (ShortFor space.old.bytes found.name.0 (need count)) }
    ensures one_stretch { MovesOneStretchAnd space.old.bytes space.new.bytes found.name.0 }
    ensures refused { OnFalse result (space.new ≡ space.old) }
    ensures rest { space.new ≡ record space.old { bytes = space.new.bytes; slid = space.new.slid } }
    ensures heap { HoldsHeap space.new }
{
    space.holds();
    if space.relocate(found, count) {
        return true;
    }
    resize_by_packing(space, found, count)
}

/// The same if no free run has the room: in the chunk's own stretch, or else in another.
fn resize_by_packing(space: &mut Space, found: Found, count: u32) -> bool
    requires found { IsOne space.old.bytes found }
    requires unlocked { found.lock ≡ 0 }
    ensures resized { OnTrue result (Resized space.old.bytes space.new.bytes found.name.0 count) }
    ensures not_short { OnTrue result (ShortFor space.old.bytes found.name.0 (need count) → ⊥) }
    ensures short { OnFalse result (ShortFor space.old.bytes found.name.0 (need count)) }
    ensures one_stretch { MovesOneStretchAnd space.old.bytes space.new.bytes found.name.0 }
    ensures refused { OnFalse result (space.new ≡ space.old) }
    ensures rest { space.new ≡ record space.old { bytes = space.new.bytes; slid = space.new.slid } }
    ensures heap { HoldsHeap space.new }
{
    space.holds();
    let size = match chunk_size(count) {
        Some(size) => size,
        None => return false,
    };
    let stretch = space.stretch_around(found);
    if size_of_body(found.length) + space.room_of(stretch) >= size {
        grow_in_stretch(space, found, stretch, count);
        return true;
    }
    match room_by_packing(space, size) {
        Some(_) => {
            relocate_named(space, found.name, count);
            true
        }
        None => false,
    }
}

/// Moves a name's chunk to a free run that has the room. The caller must prove that there is one.
fn relocate_named(space: &mut Space, name: Name, count: u32)
    requires loose { IsLoose space.old.bytes name.0 }
    requires has_run { NoRun (chunks_of space.old.bytes) (need count) → ⊥ }
    ensures resized { Resized space.old.bytes space.new.bytes name.0 count }
    ensures alone { MovesAlone space.old.bytes space.new.bytes name.0 }
    ensures rest { space.new ≡ record space.old { bytes = space.new.bytes; slid = space.new.slid } }
    ensures heap { HoldsHeap space.new }
{
    space.holds();
    let found = space.chunk(name);
    space.relocate(found, count);
}

/// Opens room after a chunk, and grows the chunk over it. The caller must prove that the chunk is
/// of this stretch, whose room suffices.
fn grow_in_stretch(space: &mut Space, found: Found, stretch: Stretch, count: u32)
    requires found { IsOne space.old.bytes found }
    requires unlocked { found.lock ≡ 0 }
    requires among { IsFoundAmong space.old.bytes found stretch }
    requires fits { FitsInStretch space.old.bytes found (need count) }
    ensures resized { Resized space.old.bytes space.new.bytes found.name.0 count }
    ensures one_stretch { MovesOneStretchAnd space.old.bytes space.new.bytes found.name.0 }
    ensures rest { space.new ≡ record space.old { bytes = space.new.bytes; slid = space.new.slid } }
    ensures heap { HoldsHeap space.new }
{
    space.holds();
    space.open_behind(found, stretch);
    grow_named(space, found.name, count);
}

/// Gives a name's chunk `count` bytes in place. The caller must prove that its own bytes and the
/// free ones after it suffice.
fn grow_named(space: &mut Space, name: Name, count: u32)
    requires loose { IsLoose space.old.bytes name.0 }
    requires fits { FitsInPlace space.old.bytes name.0 (need count) }
    ensures resized { Resized space.old.bytes space.new.bytes name.0 count }
    ensures alone { MovesAlone space.old.bytes space.new.bytes name.0 }
    ensures rest { space.new ≡ record space.old { bytes = space.new.bytes } }
    ensures heap { HoldsHeap space.new }
{
    space.holds();
    let found = space.chunk(name);
    space.grow_in_place(found, count);
}
