//! Chains that are refused, and fixed chunks that are no tables.
#![tactic(auto, unfolding(heap_model::specs::Bytes::u16_at, heap_model::specs::Bytes::u32_at, heap_model::specs::Bytes::u32_bytes, heap_model::specs::Chunk::seen, heap_model::specs::Slots::slots_of, heap_model::specs::Slots::further_tables, heap_model::specs::Reading::chunk_at, heap_model::specs::Reading::chunks_from, heap_model::specs::Reading::chunks_of, heap_model::specs::Reading::held, heap_model::specs::Reading::is_accepted,))]

ghost use Rattle.std.specs.Prelude.{◌≡◌, ℕ, true, false, [], ◌∷◌};
ghost use Rattle.heap_model.specs.Chunk.{fixed};
ghost use Rattle.heap_model.specs.Placed.{EveryPlaced};
ghost use Rattle.heap_model.specs.Slots.{further_tables};
ghost use Rattle.heap_model.specs.Heap.{IsKnownIfFixed};
ghost use Rattle.heap_model.specs.Reading.{chunks_of, is_accepted};
ghost use Rattle.heap_check.specs.Faults.{IsBadTable};
ghost use Rattle.test_chains.specs.ChainedImages.{made_table, two_tables, behind_chunk, cycle, stray_table, next_is_free};

/// A fixed chunk is known if it is one of the tables, or a caller's.
fn fixed_chunks_are_known()
    ensures in_list { IsKnownIfFixed (made_table 32 1 ∷ made_table 64 1 ∷ []) 56 (fixed [] 0) }
    ensures not_another { IsKnownIfFixed (made_table 32 1 ∷ made_table 64 1 ∷ []) 40 (fixed [] 0) → ⊥ }
    ensures callers { IsKnownIfFixed [] 40 (fixed [] 14) }
    ensures not_data { IsKnownIfFixed (made_table 32 1 ∷ []) 24 (fixed [] 15) → ⊥ }
    ensures in_chain { EveryPlaced (IsKnownIfFixed (further_tables two_tables)) 24
        (chunks_of two_tables) }
    ensures with_a_callers { EveryPlaced (IsKnownIfFixed (further_tables behind_chunk)) 24
        (chunks_of behind_chunk) }
    ensures not_stray { EveryPlaced (IsKnownIfFixed (further_tables stray_table)) 24
        (chunks_of stray_table) → ⊥ }
{}

/// The number of a bad table counts the tables before the word that leads to none or back.
fn bad_tables_are_found()
    ensures free_chunk { IsBadTable next_is_free 0 }
    ensures not_another { IsBadTable next_is_free 1 → ⊥ }
    ensures circle { IsBadTable cycle 2 }
    ensures not_first { IsBadTable cycle 0 → ⊥ }
    ensures not_once { IsBadTable cycle 1 → ⊥ }
    ensures not_again { IsBadTable cycle 3 → ⊥ }
    ensures none { (number : ℕ) → IsBadTable two_tables number → ⊥ }
    ensures refused { is_accepted next_is_free ≡ false }
{}

/// What the functions above promise is proved, and they run to their end.
#[test]
fn refused_chains_are_tried() {
    fixed_chunks_are_known();
    bad_tables_are_found();
}
