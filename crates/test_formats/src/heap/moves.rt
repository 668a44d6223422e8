//! What calls may move, tried on pairs of images: each relation holds of some of them, and not of
//! others.
#![tactic(auto, unfolding(heap_model::specs::Bytes::u16_at, heap_model::specs::Bytes::u32_at, heap_model::specs::Bytes::u32_bytes, heap_model::specs::Slots::slots_of, heap_model::specs::Slots::further_tables, heap_model::specs::Reading::chunk_at, heap_model::specs::Reading::chunks_from, heap_model::specs::Reading::chunks_of, heap_model::specs::Reading::held, heap_model::specs::Reading::is_accepted,))]

ghost use Rattle.std.specs.Prelude.{◌≡◌, ◌++◌, true, ◌∷◌};
ghost use Rattle.heap_model.specs.Reading.{chunks_of, is_accepted};
ghost use Rattle.heap_model.specs.Space.{Still, MovesNothing, MovesAlone, MovesOneStretch, MovesOneStretchAnd, FitsInPlace};
ghost use Rattle.heap_model.specs.Packing.{SlidesOneStretch};
ghost use Rattle.test_formats.specs.Stretches.{one_in_front};
ghost use Rattle.test_formats.specs.Moves.{first_stretch, locked_one, second_stretch, scattered, front_packed, both_packed, last_relocated, turned, locked_moved, one_freed};

/// The images are heaps.
fn images_are_heaps()
    ensures scattered { is_accepted scattered ≡ true }
    ensures front_packed { is_accepted front_packed ≡ true }
    ensures both_packed { is_accepted both_packed ≡ true }
    ensures last_relocated { is_accepted last_relocated ≡ true }
    ensures turned { is_accepted turned ≡ true }
    ensures locked_moved { is_accepted locked_moved ≡ true }
    ensures one_freed { is_accepted one_freed ≡ true }
    ensures chunks { chunks_of scattered ≡ first_stretch ++ locked_one ∷ second_stretch }
{}

/// A locked chunk stays where it was, whatever else moves.
fn locked_chunk_is_still()
    ensures packed { Still scattered front_packed }
    ensures not_moved { Still scattered locked_moved → ⊥ }
{}

/// One chunk is given back, and the locked one takes the free bytes after it: nothing has moved.
fn nothing_moves()
    ensures holds { MovesNothing scattered one_freed }
    ensures not_packed { MovesNothing scattered front_packed → ⊥ }
    ensures not_locked { MovesNothing scattered locked_moved → ⊥ }
{}

/// A chunk goes elsewhere alone, and not so where a stretch was packed for it.
fn one_chunk_moves()
    ensures holds { MovesAlone front_packed last_relocated 28 }
    ensures not_another { MovesAlone front_packed last_relocated 16 → ⊥ }
    ensures not_packed { MovesAlone scattered last_relocated 28 → ⊥ }
{}

/// Chunks of one stretch move, in whichever order; a locked one is in no stretch.
fn one_stretch_moves()
    ensures packed { MovesOneStretch scattered front_packed }
    ensures turned { MovesOneStretch scattered turned }
    ensures not_two { MovesOneStretch scattered both_packed → ⊥ }
    ensures not_locked { MovesOneStretch scattered locked_moved → ⊥ }
{}

/// A stretch is packed, and a chunk of another goes elsewhere.
fn one_stretch_and_one_chunk_move()
    ensures holds { MovesOneStretchAnd scattered last_relocated 28 }
    ensures not_another { MovesOneStretchAnd scattered last_relocated 16 → ⊥ }
    ensures not_one_stretch { MovesOneStretch scattered last_relocated → ⊥ }
{}

/// Chunks of one stretch slide in their order.
fn one_stretch_slides()
    ensures packed { SlidesOneStretch scattered front_packed }
    ensures not_two { SlidesOneStretch scattered both_packed → ⊥ }
    ensures not_turned { SlidesOneStretch scattered turned → ⊥ }
    ensures not_locked { SlidesOneStretch scattered locked_moved → ⊥ }
{}

/// A chunk has its own bytes and those of the free chunks directly after it, to the last one; also
/// a locked chunk.
fn chunk_fits_in_place()
    ensures locked { FitsInPlace scattered 24 32 }
    ensures not_locked { FitsInPlace scattered 24 40 → ⊥ }
    ensures behind_room { FitsInPlace scattered 16 16 }
    ensures not_behind_room { FitsInPlace scattered 16 24 → ⊥ }
    ensures before_two { FitsInPlace one_in_front 20 96 }
    ensures not_before_two { FitsInPlace one_in_front 20 104 → ⊥ }
{}

/// What the functions above promise is proved, and they run to their end.
#[test]
fn moves_are_tried() {
    images_are_heaps();
    locked_chunk_is_still();
    nothing_moves();
    one_chunk_moves();
    one_stretch_moves();
    one_stretch_and_one_chunk_move();
    one_stretch_slides();
    chunk_fits_in_place();
}
