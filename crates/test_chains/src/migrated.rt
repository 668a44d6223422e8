//! The migration of an image to one with a chain.
#![tactic(auto, unfolding(heap_model::specs::Bytes::u16_at, heap_model::specs::Bytes::u32_at, heap_model::specs::Bytes::u32_bytes, heap_model::specs::Chunk::seen, heap_model::specs::Slots::slots_of, heap_model::specs::Slots::further_tables, heap_model::specs::Reading::chunk_at, heap_model::specs::Reading::chunks_from, heap_model::specs::Reading::chunks_of, heap_model::specs::Reading::held, heap_model::specs::Reading::is_accepted,))]

ghost use Rattle.std.specs.Prelude.{◌≡◌, ℕ, true, [], ◌∷◌, Option, None};
ghost use Rattle.heap_model.specs.Meaning.{LiveChunk};
ghost use Rattle.heap_model.specs.Migration.{Migrates, MigratesBytes};
ghost use Rattle.heap_model.specs.Reading.{held, is_accepted};
ghost use Rattle.heap_migration.specs.Stores.{RaisesFixed};
ghost use Rattle.test_chains.specs.MigratedImages.{two_slots, grown_two_slots, one_slot, chained_one_slot, slot_kept, offset_kept, next_set, slack_changed, fixed_changed, nothing};

/// The images are heaps.
fn images_are_heaps()
    ensures two { is_accepted two_slots ≡ true }
    ensures grown { is_accepted grown_two_slots ≡ true }
    ensures one { is_accepted one_slot ≡ true }
    ensures chained { is_accepted chained_one_slot ≡ true }
    ensures slack { is_accepted slack_changed ≡ true }
    ensures fixed { is_accepted fixed_changed ≡ true }
{}

/// The new image byte for byte: with an even number of slots it is 8 bytes longer, with an odd one
/// it is as long. Each wrong image has one other word.
fn bytes_of_the_new_image()
    ensures even { MigratesBytes two_slots grown_two_slots 8 }
    ensures odd { MigratesBytes one_slot chained_one_slot 0 }
    ensures not_0 { MigratesBytes two_slots grown_two_slots 0 → ⊥ }
    ensures not_plain { MigratesBytes one_slot one_slot 0 → ⊥ }
    ensures slot { MigratesBytes two_slots slot_kept 8 → ⊥ }
    ensures offset { MigratesBytes two_slots offset_kept 8 → ⊥ }
    ensures next { MigratesBytes two_slots next_set 8 → ⊥ }
    ensures slack { MigratesBytes two_slots slack_changed 8 → ⊥ }
    ensures fixed { MigratesBytes two_slots fixed_changed 8 → ⊥ }
{}

/// The new image holds the same under each slot, and fixed chunks under greater names.
fn names_of_the_new_image()
    ensures even { Migrates two_slots grown_two_slots 8 }
    ensures odd { Migrates one_slot chained_one_slot 0 }
    ensures not_0 { Migrates two_slots grown_two_slots 0 → ⊥ }
    ensures not_plain { Migrates one_slot one_slot 0 → ⊥ }
    ensures fixed { Migrates two_slots fixed_changed 8 → ⊥ }
{}

/// The map after it: only names of fixed chunks are greater.
fn names_of_fixed_chunks_rise()
    ensures even { RaisesFixed (held two_slots) (held grown_two_slots) 8 }
    ensures odd { RaisesFixed (held one_slot) (held chained_one_slot) 0 }
    ensures not_0 { RaisesFixed (held two_slots) (held grown_two_slots) 0 → ⊥ }
    ensures fixed { RaisesFixed (held two_slots) (held fixed_changed) 8 → ⊥ }
    ensures lost { RaisesFixed (held two_slots) nothing 8 → ⊥ }
    ensures found { RaisesFixed nothing (held grown_two_slots) 8 → ⊥ }
{}

/// What the functions above promise is proved, and they run to their end.
#[test]
fn migration_is_tried() {
    images_are_heaps();
    bytes_of_the_new_image();
    names_of_the_new_image();
    names_of_fixed_chunks_rise();
}
