//! The definitions of compaction and resizing, tried on images of three chunks and on lists.
#![tactic(auto, unfolding(heap_model::specs::Bytes::u16_at, heap_model::specs::Bytes::u32_at, heap_model::specs::Bytes::u32_bytes, heap_model::specs::Slots::slots_of, heap_model::specs::Slots::further_tables, heap_model::specs::Reading::chunk_at, heap_model::specs::Reading::chunks_from, heap_model::specs::Reading::chunks_of, heap_model::specs::Reading::held, heap_model::specs::Reading::is_accepted, heap_model::specs::Resizing::grown, heap_model::specs::Resizing::relocated,))]

ghost use Rattle.std.specs.Prelude.{◌≡◌, ◌++◌, ℕ, true, List, [], ◌∷◌, replicate, Option, Some, None};
ghost use Rattle.heap_model.specs.Chunk.{free, movable, fixed};
ghost use Rattle.heap_model.specs.Reading.{chunks_of, is_accepted};
ghost use Rattle.heap_model.specs.Space.{rooms, rooms_of, stretches, greatest, with_freed, free_behind, place_of, moved_bytes};
ghost use Rattle.heap_model.specs.Layout.{layout_of};
ghost use Rattle.heap_model.specs.Packing.{lives, staying, packed, moved_by_packing, opened};
ghost use Rattle.heap_model.specs.Resizing.{with_length, shrunk, grown, relocated};
ghost use Rattle.test_formats.specs.Stretches.{chunk_of, locked_of, zeros_of, numbers_from, one_between, locked_between, one_in_front, two_behind, two_about, behind_a_little};

/// A chunk between two free ones: its stretch has the room of both, and packing slides it to the
/// front.
fn two_rooms_are_one()
    ensures accepted { is_accepted one_between ≡ true }
    ensures chunks { chunks_of one_between ≡ free 32 ∷ chunk_of 20 ∷ free 32 ∷ [] }
    ensures room { rooms one_between ≡ 64 ∷ [] }
    ensures packed { packed (chunks_of one_between) ≡ chunk_of 20 ∷ free 64 ∷ [] }
    ensures moved { moved_by_packing (chunks_of one_between) ≡ 32 }
    ensures none_stays { staying 32 (chunks_of one_between) ≡ [] }
{}

/// An image of what packing leaves, its room split in two: what moved is seen by the places.
fn packed_image_is_read()
    ensures accepted { is_accepted one_in_front ≡ true }
    ensures layout { layout_of one_in_front ≡ packed (chunks_of one_between) }
    ensures place { place_of one_in_front 20 ≡ Some 40 }
    ensures moved { moved_bytes one_between one_in_front ≡ 32 }
    ensures room { rooms one_in_front ≡ 64 ∷ [] }
    ensures again { moved_by_packing (chunks_of one_in_front) ≡ 0 }
    ensures nothing { moved_bytes one_in_front one_in_front ≡ 0 }
{}

/// A locked chunk between two free ones stays, and each has a stretch of its own.
fn locked_chunk_parts_rooms()
    ensures accepted { is_accepted locked_between ≡ true }
    ensures room { rooms locked_between ≡ 32 ∷ 32 ∷ [] }
    ensures greatest { greatest (rooms locked_between) ≡ 32 }
    ensures packed { packed (chunks_of locked_between) ≡ free 32 ∷ locked_of 20 ∷ free 32 ∷ [] }
    ensures moved { moved_by_packing (chunks_of locked_between) ≡ 0 }
    ensures stays { staying 32 (chunks_of locked_between) ≡ 64 ∷ [] }
{}

/// A chunk slides over a room that is smaller than it, into its own bytes.
fn chunk_slides_into_itself()
    ensures accepted { is_accepted behind_a_little ≡ true }
    ensures packed { packed (chunks_of behind_a_little)
        ≡ movable (numbers_from 0 80) 0 1 16 ∷ free 8 ∷ [] }
    ensures moved { moved_by_packing (chunks_of behind_a_little) ≡ 88 }
{}

/// Several stretches: each has its own room, and a fixed chunk stays as a locked one does.
fn stretches_are_packed_apart()
    ensures packed { packed (free 8 ∷ chunk_of 16 ∷ free 16 ∷ locked_of 20 ∷ chunk_of 24
        ∷ fixed [] 1 ∷ free 8 ∷ free 24 ∷ chunk_of 28 ∷ [])
        ≡ chunk_of 16 ∷ free 24 ∷ locked_of 20 ∷ chunk_of 24 ∷ fixed [] 1 ∷ chunk_of 28
        ∷ free 32 ∷ [] }
    ensures moved { moved_by_packing (free 8 ∷ chunk_of 16 ∷ free 16 ∷ locked_of 20 ∷ chunk_of 24
        ∷ fixed [] 1 ∷ free 8 ∷ free 24 ∷ chunk_of 28 ∷ [])
        ≡ 64 }
    ensures rooms { rooms_of (stretches (free 8 ∷ chunk_of 16 ∷ free 16 ∷ locked_of 20
        ∷ chunk_of 24 ∷ fixed [] 1 ∷ free 8 ∷ free 24 ∷ chunk_of 28 ∷ []))
        ≡ 24 ∷ 0 ∷ 32 ∷ [] }
    ensures none { rooms_of (stretches (locked_of 16 ∷ fixed [] 1 ∷ [])) ≡ [] }
    ensures live { lives (free 8 ∷ chunk_of 16 ∷ fixed [] 1 ∷ free 8 ∷ [])
        ≡ chunk_of 16 ∷ fixed [] 1 ∷ [] }
    ensures stay { staying 0 (free 8 ∷ chunk_of 16 ∷ locked_of 20 ∷ free 8 ∷ fixed [] 1 ∷ [])
        ≡ 40 ∷ 80 ∷ [] }
{}

/// The room before a chunk counts for its resize, with its own size: 64 bytes are a need of 56
/// here.
fn room_in_front_counts()
    ensures accepted { is_accepted two_behind ≡ true }
    ensures behind { free_behind two_behind 20 ≡ 0 }
    ensures room { rooms two_behind ≡ 32 ∷ [] }
    ensures own { rooms_of (stretches (with_freed (chunks_of two_behind) 20)) ≡ 64 ∷ [] }
    ensures opened { opened (free 32 ∷ []) (chunk_of 20) (chunk_of 24 ∷ [])
        ≡ chunk_of 20 ∷ free 32 ∷ chunk_of 24 ∷ [] }
    ensures grown { grown 32 56 32 (chunk_of 20 ∷ free 32 ∷ chunk_of 24 ∷ [])
        ≡ zeros_of 56 20 ∷ chunk_of 24 ∷ [] }
{}

/// The room after its neighbours counts, too.
fn room_behind_neighbours_counts()
    ensures opened { opened [] (chunk_of 16) (chunk_of 20 ∷ free 32 ∷ [])
        ≡ chunk_of 16 ∷ free 32 ∷ chunk_of 20 ∷ [] }
    ensures none { opened (chunk_of 16 ∷ []) (chunk_of 20) [] ≡ chunk_of 16 ∷ chunk_of 20 ∷ [] }
{}

/// A locked chunk may take the free bytes directly after it.
fn locked_chunk_grows_in_place()
    ensures accepted { is_accepted two_about ≡ true }
    ensures behind { free_behind two_about 16 ≡ 32 }
    ensures grown { grown 32 56 32 (layout_of two_about)
        ≡ movable (replicate 56 0) 1 1 16 ∷ chunk_of 20 ∷ [] }
    ensures some_left { grown 32 25 32 (layout_of two_about)
        ≡ movable (replicate 25 0) 1 1 16 ∷ free 24 ∷ chunk_of 20 ∷ [] }
{}

/// A shorter chunk leaves what it does not need free, and a longer one has zeros after its own
/// bytes.
fn lengths_are_changed()
    ensures shorter { shrunk 3 (movable (numbers_from 1 17) 2 1 16)
        ≡ movable (1 ∷ 2 ∷ 3 ∷ []) 2 1 16 ∷ free 16 ∷ [] }
    ensures as_long { shrunk 17 (movable (numbers_from 1 24) 2 1 16)
        ≡ movable (numbers_from 1 17) 2 1 16 ∷ [] }
    ensures longer { with_length 26 (movable (numbers_from 1 23) 0 1 16)
        ≡ movable (numbers_from 1 23 ++ 0 ∷ 0 ∷ 0 ∷ []) 0 1 16 }
    ensures empty { with_length 0 (fixed (7 ∷ []) 3) ≡ fixed [] 3 }
{}

/// A chunk goes to the front of a free one, and leaves its own bytes free.
fn chunk_is_relocated()
    ensures behind { relocated 32 96 (zeros_of 40 16) 32 (chunk_of 16 ∷ chunk_of 20 ∷ free 64 ∷ [])
        ≡ free 32 ∷ chunk_of 20 ∷ zeros_of 40 16 ∷ free 16 ∷ [] }
    ensures in_front { relocated 96 32 (zeros_of 56 16) 32 (free 64 ∷ chunk_of 16 ∷ chunk_of 20
        ∷ [])
        ≡ zeros_of 56 16 ∷ free 32 ∷ chunk_of 20 ∷ [] }
{}

/// What the functions above promise is proved, and they run to their end.
#[test]
fn stretches_are_tried() {
    two_rooms_are_one();
    packed_image_is_read();
    locked_chunk_parts_rooms();
    chunk_slides_into_itself();
    stretches_are_packed_apart();
    room_in_front_counts();
    room_behind_neighbours_counts();
    locked_chunk_grows_in_place();
    lengths_are_changed();
    chunk_is_relocated();
}
