//! The definitions of an image, tried on images: what is read off the images of docs/FORMAT.md, and
//! off the smallest image that breaks each part of the definition of an accepted heap alone.

ghost use Rattle.std.specs.Prelude.{◌≡◌, ◌++◌, ◌-◌, ◌*◌, ℕ, Bool, true, false, List, [], ◌∷◌, map, length, replicate, Option, Some, None};
ghost use Rattle.heap_model.specs.Bytes.{u32_bytes};
ghost use Rattle.heap_model.specs.Chunk.{free, movable, fixed, size_of};
ghost use Rattle.heap_model.specs.Slots.{slots_of};
ghost use Rattle.heap_model.specs.Reading.{chunk_at, chunks_of, held, is_accepted};
ghost use Rattle.test_formats.specs.HeapImages.{words, blank_image, one_chunk_image, database_image, padded_words, small_image, BreaksAlone, IsOutOfShape};

/// A blank image has one free chunk and holds nothing.
fn blank_image_is_read()
    ensures accepted { is_accepted blank_image ≡ true }
    ensures chunks { chunks_of blank_image ≡ free 96 ∷ [] }
    ensures slots { slots_of blank_image ≡ 16 ∷ 20 ∷ 24 ∷ 28 ∷ [] }
    ensures nothing { held blank_image 16 ≡ None }
{}

/// A movable chunk has its bytes without the slack, and is held under its slot.
fn movable_chunk_is_read()
    ensures accepted { is_accepted one_chunk_image ≡ true }
    ensures chunks { chunks_of one_chunk_image ≡ movable (replicate 10 0) 0 1 16 ∷ free 72 ∷ [] }
    ensures held { held one_chunk_image 16
        ≡ Some (record { bytes = replicate 10 0; lock = 0; owner = 1 }) }
    ensures place { held one_chunk_image 40 ≡ None }
{}

/// The chunks of a database: directory, header and two records.
fn database_image_is_read()
    ensures accepted { is_accepted database_image ≡ true }
    ensures sizes { map size_of (chunks_of database_image) ≡ 16 ∷ 104 ∷ 16 ∷ 16 ∷ 8 ∷ [] }
    ensures directory { held database_image 16
        ≡ Some (record { bytes = words (0x14 ∷ []); lock = 0; owner = 0 }) }
    ensures record { held database_image 24
        ≡ Some (record { bytes = replicate 8 0x41; lock = 0; owner = 15 }) }
{}

/// A fixed chunk is held under its place. Slack may be any, and free neighbours need not be joined.
fn fixed_chunk_is_read()
    ensures accepted { is_accepted (small_image 0 0 (0x04000010 ∷ 0xFE000000 ∷ 0x01020304
        ∷ 0xFFFFFFFF ∷ 0x80000008 ∷ 7 ∷ 0x80000010 ∷ []))
        ≡ true }
    ensures chunks { chunks_of (small_image 0 0 (0x04000010 ∷ 0xFE000000 ∷ 0x01020304
        ∷ 0xFFFFFFFF ∷ 0x80000008 ∷ 7 ∷ 0x80000010 ∷ []))
        ≡ fixed (1 ∷ 2 ∷ 3 ∷ 4 ∷ []) 14 ∷ free 8 ∷ free 16 ∷ [] }
    ensures held { held (small_image 0 0 (0x04000010 ∷ 0xFE000000 ∷ 0x01020304 ∷ 0xFFFFFFFF
        ∷ 0x80000008 ∷ 7 ∷ 0x80000010 ∷ [])) 32
        ≡ Some (record { bytes = 1 ∷ 2 ∷ 3 ∷ 4 ∷ []; lock = 15; owner = 14 }) }
{}

/// Each part of the head is broken by an image that keeps all others. (A length that is not a
/// multiple of 8 has no such image, and the greatest size none that is small.)
fn head_parts_break_alone()
    ensures magic { BreaksAlone (padded_words 64 (0x50484933 ∷ 64 ∷ 0x00010000 ∷ 0 ∷ 0 ∷ 0 ∷ 0x80000028
        ∷ [])) 0 }
    ensures size { BreaksAlone (padded_words 64 (0x50484931 ∷ 72 ∷ 0x00010000 ∷ 0 ∷ 0 ∷ 0 ∷ 0x80000028
        ∷ [])) 1 }
    ensures least { BreaksAlone (padded_words 56 (0x50484931 ∷ 56 ∷ 0x00010000 ∷ 0 ∷ 0 ∷ 0 ∷ 0x80000020
        ∷ [])) 2 }
    ensures some_slot { BreaksAlone (padded_words 64 (0x50484931 ∷ 64 ∷ 0 ∷ 0 ∷ 0x80000030 ∷ [])) 5 }
    ensures a_chunk_fits { BreaksAlone (padded_words 64 (0x50484931 ∷ 64 ∷ 0x000C0000 ∷ [])) 6 }
    ensures reserved { BreaksAlone (padded_words 64 (0x50484931 ∷ 64 ∷ 0x00010001 ∷ 0 ∷ 0 ∷ 0
        ∷ 0x80000028 ∷ [])) 7 }
    ensures padding { BreaksAlone (padded_words 64 (0x50484931 ∷ 64 ∷ 0x00010000 ∷ 0 ∷ 0 ∷ 1
        ∷ 0x80000028 ∷ [])) 8 }
{}

/// Each part of the chunks and slots is broken by an image that keeps all others.
fn area_parts_break_alone()
    ensures tiled { BreaksAlone (small_image 0 0 (0x80000030 ∷ [])) 9 }
    ensures rest { BreaksAlone (small_image 0 0 (0x80000020 ∷ [])) 9 }
    ensures next_of_no_table { BreaksAlone (padded_words 64 (0x50484932 ∷ 64 ∷ 0x00010000 ∷ 0 ∷ 0 ∷ 32
        ∷ 0x80000028 ∷ [])) 10 }
    ensures slot_of_nothing { BreaksAlone (small_image 0 32 (0x80000028 ∷ [])) 11 }
    ensures slot_inside_a_chunk { BreaksAlone (small_image 0 40 (0x00000018 ∷ 0xF1000000 ∷ 0 ∷ 0
        ∷ 0 ∷ 0 ∷ 0x80000010 ∷ [])) 11 }
    ensures two_slots_on_one_chunk { BreaksAlone (padded_words 64 (0x50484931 ∷ 64 ∷ 0x00020000 ∷ 0
        ∷ 32 ∷ 32 ∷ 0x00000010 ∷ 0x01FFFFFC ∷ 0 ∷ 0 ∷ 0x80000018 ∷ [])) 11 }
    ensures empty_slot { BreaksAlone (small_image 0 0 (0x00000010 ∷ 0x01FFFFFC ∷ 0 ∷ 0
        ∷ 0x80000018 ∷ [])) 12 }
    ensures two_chunks_on_one_slot { BreaksAlone (small_image 0 32 (0x00000010 ∷ 0x01FFFFFC ∷ 0
        ∷ 0 ∷ 0x00000010 ∷ 0x01FFFFF4 ∷ 0 ∷ 0 ∷ 0x80000008 ∷ [])) 12 }
    ensures fixed_of_owner_0 { BreaksAlone (small_image 0 0 (0x00000010 ∷ 0xF0000000 ∷ 0 ∷ 0
        ∷ 0x80000018 ∷ [])) 13 }
    ensures fixed_of_owner_15 { BreaksAlone (small_image 0 0 (0x00000010 ∷ 0xFF000000 ∷ 0 ∷ 0
        ∷ 0x80000018 ∷ [])) 13 }
    ensures directory_no_slot { BreaksAlone (small_image 20 0 (0x80000028 ∷ [])) 14 }
    ensures directory_empty { BreaksAlone (small_image 16 0 (0x80000028 ∷ [])) 14 }
    ensures directory_of_owner_1 { BreaksAlone (small_image 16 32 (0x00000010 ∷ 0x01FFFFFC ∷ 0
        ∷ 0 ∷ 0x80000018 ∷ [])) 14 }
{}

/// Each way in which a chunk is out of shape, and the words next to it that are in shape.
fn shape_is_read()
    ensures size_below_8 { IsOutOfShape 0x80000000 0 }
    ensures size_not_whole { IsOutOfShape 0x8000000C 0 }
    ensures size_beyond { IsOutOfShape 0x80000030 0 }
    ensures zero_bit { IsOutOfShape 0x10000010 0xF1000000 }
    ensures adjustment_above_7 { IsOutOfShape 0x08000018 0xF1000000 }
    ensures adjustment_above_body { IsOutOfShape 0x01000008 0xF1000000 }
    ensures fixed_with_offset { IsOutOfShape 0x00000010 0xF1000001 }
    ensures locked_of_owner_0 { IsOutOfShape 0x00000010 0x10FFFFFC }
    ensures locked { chunk_at (small_image 0 0 (0x07000010 ∷ 0xE1FFFFFC ∷ 0x41000000 ∷ [])) 24
        ≡ Some (movable (0x41 ∷ []) 14 1 16) }
    ensures behind_its_slot { chunk_at (small_image 0 0 (0x00000008 ∷ 0x00000004 ∷ [])) 24
        ≡ Some (movable [] 0 0 32) }
{}

/// What the functions above promise is proved, and they run to their end.
#[test]
fn definitions_are_tried() {
    blank_image_is_read();
    movable_chunk_is_read();
    database_image_is_read();
    fixed_chunk_is_read();
    head_parts_break_alone();
    area_parts_break_alone();
    shape_is_read();
}
