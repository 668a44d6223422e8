//! Tables, slots, chunks and names of images with a chain.
#![tactic(auto, unfolding(heap_model::specs::Bytes::u16_at, heap_model::specs::Bytes::u32_at, heap_model::specs::Bytes::u32_bytes, heap_model::specs::Chunk::seen, heap_model::specs::Slots::slots_of, heap_model::specs::Slots::further_tables, heap_model::specs::Reading::chunk_at, heap_model::specs::Reading::chunks_from, heap_model::specs::Reading::chunks_of, heap_model::specs::Reading::held, heap_model::specs::Reading::is_accepted,))]

ghost use Rattle.std.specs.Prelude.{◌≡◌, ℕ, true, false, List, [], ◌∷◌, take, length, replicate, Some, None};
ghost use Rattle.heap_model.specs.Chunk.{free, movable, fixed, seen};
ghost use Rattle.heap_model.specs.Slots.{further_tables, slots_of};
ghost use Rattle.heap_model.specs.Reading.{chunk_at, chunks_of, held, area_tests, is_accepted};
ghost use Rattle.heap_model.specs.Space.{place_of};
ghost use Rattle.test_chains.specs.ChainedImages.{made_table, two_tables, empty_tables, three_tables, behind_chunk, cycle, stray_table};

/// A table, and a chunk in its slot. The table has no name.
fn two_tables_are_read()
    ensures accepted { is_accepted two_tables ≡ true }
    ensures further { further_tables two_tables ≡ made_table 32 1 ∷ [] }
    ensures slots { slots_of two_tables ≡ 16 ∷ 36 ∷ [] }
    ensures chunks { chunks_of two_tables
        ≡ fixed (replicate 8 0) 0 ∷ movable (0x41 ∷ 0x42 ∷ 0x43 ∷ 0x44 ∷ []) 0 1 36 ∷ free 8 ∷ [] }
    ensures held { held two_tables 36
        ≡ Some (record { bytes = 0x41 ∷ 0x42 ∷ 0x43 ∷ 0x44 ∷ []; lock = 0; owner = 1 }) }
    ensures place { place_of two_tables 36 ≡ Some 48 }
    ensures no_name { held two_tables 32 ≡ None }
    ensures no_place { place_of two_tables 32 ≡ None }
{}

/// Slots have the order of the chain, not that of the offsets.
fn three_tables_are_read()
    ensures accepted { is_accepted three_tables ≡ true }
    ensures further { further_tables three_tables ≡ made_table 56 1 ∷ made_table 32 1 ∷ [] }
    ensures slots { slots_of three_tables ≡ 16 ∷ 60 ∷ 36 ∷ [] }
    ensures held { held three_tables 60 ≡ Some (record { bytes = []; lock = 0; owner = 1 }) }
    ensures place { place_of three_tables 60 ≡ Some 48 }
    ensures empty { held three_tables 36 ≡ None }
    ensures no_name { held three_tables 56 ≡ None }
{}

/// A table need not be the first chunk. Its slack is no slot.
fn table_after_a_chunk_is_read()
    ensures accepted { is_accepted behind_chunk ≡ true }
    ensures further { further_tables behind_chunk ≡ made_table 40 2 ∷ [] }
    ensures slots { slots_of behind_chunk ≡ 16 ∷ 44 ∷ 48 ∷ [] }
    ensures chunks { chunks_of behind_chunk
        ≡ movable [] 0 1 16 ∷ fixed (replicate 12 0) 0 ∷ fixed [] 1 ∷ [] }
    ensures held { held behind_chunk 16 ≡ Some (record { bytes = []; lock = 0; owner = 1 }) }
    ensures fixed { held behind_chunk 64 ≡ Some (record { bytes = []; lock = 15; owner = 1 }) }
    ensures no_name { held behind_chunk 40 ≡ None }
{}

/// An image whose tables lead in a circle is refused: its tables are read again and again.
fn cycle_is_read()
    ensures refused { is_accepted cycle ≡ false }
    ensures chain_alone { area_tests cycle
        ≡ true ∷ false ∷ true ∷ true ∷ true ∷ true ∷ [] }
    ensures further { take 3 (further_tables cycle) ≡ made_table 32 1 ∷ made_table 48 1 ∷ made_table 32 1 ∷ [] }
    ensures ends { length (further_tables cycle) ≡ 64 }
    ensures slots { take 4 (slots_of cycle) ≡ 16 ∷ 36 ∷ 52 ∷ 36 ∷ [] }
{}

/// An image with a table that is not in the chain is refused.
fn stray_table_is_read()
    ensures refused { is_accepted stray_table ≡ false }
    ensures fixed_alone { area_tests stray_table
        ≡ true ∷ true ∷ true ∷ true ∷ false ∷ true ∷ [] }
    ensures further { further_tables stray_table ≡ [] }
    ensures slots { slots_of stray_table ≡ 16 ∷ [] }
{}

/// What a slot of a table contains is no part of the chunk. All bytes of other chunks are, and the
/// word `next` of a table.
fn slots_are_not_seen()
    ensures of_table { seen 15 0 (1 ∷ 2 ∷ 3 ∷ 4 ∷ 5 ∷ 6 ∷ []) ≡ 1 ∷ 2 ∷ 3 ∷ 4 ∷ 0 ∷ 0 ∷ [] }
    ensures callers { seen 15 1 (1 ∷ 2 ∷ 3 ∷ 4 ∷ 5 ∷ 6 ∷ []) ≡ 1 ∷ 2 ∷ 3 ∷ 4 ∷ 5 ∷ 6 ∷ [] }
    ensures movable { seen 0 0 (1 ∷ 2 ∷ 3 ∷ 4 ∷ 5 ∷ 6 ∷ []) ≡ 1 ∷ 2 ∷ 3 ∷ 4 ∷ 5 ∷ 6 ∷ [] }
    ensures same_chunk { chunk_at two_tables 24 ≡ chunk_at empty_tables 24 }
    ensures next_counts { chunk_at cycle 24
        ≡ Some (fixed (0 ∷ 0 ∷ 0 ∷ 48 ∷ replicate 4 0) 0) }
{}

/// What the functions above promise is proved, and they run to their end.
#[test]
fn tables_are_tried() {
    two_tables_are_read();
    three_tables_are_read();
    table_after_a_chunk_is_read();
    cycle_is_read();
    stray_table_is_read();
    slots_are_not_seen();
}
