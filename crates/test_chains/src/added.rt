//! Tables that are added to a chain.
#![tactic(auto, unfolding(heap_model::specs::Bytes::u16_at, heap_model::specs::Bytes::u32_at, heap_model::specs::Bytes::u32_bytes, heap_model::specs::Chunk::seen, heap_model::specs::Slots::slots_of, heap_model::specs::Slots::further_tables, heap_model::specs::Reading::chunk_at, heap_model::specs::Reading::chunks_from, heap_model::specs::Reading::chunks_of, heap_model::specs::Reading::held, heap_model::specs::Reading::is_accepted,))]

ghost use Rattle.std.specs.Prelude.{◌≡◌, true, false};
ghost use Rattle.heap_model.specs.Slots.{tables_of};
ghost use Rattle.heap_model.specs.MoreTables.{HasNoMore, HasNewTable, GainsTable};
ghost use Rattle.heap_model.specs.Reading.{is_accepted};
ghost use Rattle.heap_model.specs.StoreSteps.{LeavesTables};
ghost use Rattle.heap_model.specs.declared.call.MemoryCall.TheVariants.{MoreSlots, Compact};
ghost use Rattle.heap_model.specs.declared.call.Call.TheVariants.{Memory};
ghost use Rattle.heap_model.specs.declared.call.Reply.TheVariants.{Done, Refused};
ghost use Rattle.heap_model.specs.declared.refusal.Refusal.TheVariants.{NotEnoughSpace};
ghost use Rattle.test_chains.specs.ChainedImages.{room_for_table, room_too_small, new_table, used_table, table_added, table_in_front, smaller_table, one_in_slot, one_in_new_slot, plain_image};

/// An image with a table that is not in the chain is no heap.
fn images_are_heaps()
    ensures room { is_accepted room_for_table ≡ true }
    ensures added { is_accepted table_added ≡ true }
    ensures in_front { is_accepted table_in_front ≡ true }
    ensures smaller { is_accepted smaller_table ≡ true }
    ensures one_in_slot { is_accepted one_in_slot ≡ true }
    ensures one_in_new_slot { is_accepted one_in_new_slot ≡ true }
    ensures not_in_chain { is_accepted new_table ≡ false }
{}

/// Before a table joins the chain it is a chunk of the manager's, of the right size, full of zeros.
fn new_table_is_there()
    ensures holds { HasNewTable new_table 48 }
    ensures not_another { HasNewTable new_table 32 → ⊥ }
    ensures not_free { HasNewTable room_for_table 48 → ⊥ }
    ensures not_in_chain { HasNewTable table_added 48 → ⊥ }
    ensures not_zeros { HasNewTable used_table 48 → ⊥ }
{}

/// The new table is the last of the chain, and has 15 empty slots.
fn table_is_gained()
    ensures holds { GainsTable room_for_table table_added 48 }
    ensures not_another { GainsTable room_for_table table_added 32 → ⊥ }
    ensures not_in_front { GainsTable room_for_table table_in_front 48 → ⊥ }
    ensures not_smaller { GainsTable room_for_table smaller_table 48 → ⊥ }
    ensures not_in_chain { GainsTable room_for_table new_table 48 → ⊥ }
    ensures not_in_use { GainsTable one_in_slot one_in_new_slot 48 → ⊥ }
    ensures not_again { GainsTable table_added table_added 48 → ⊥ }
{}

/// A chunk of 72 bytes has room for a table, one of 64 bytes hasn't.
fn room_for_a_table_is_read()
    ensures none { HasNoMore table_added }
    ensures too_small { HasNoMore room_too_small }
    ensures no_chain { HasNoMore plain_image }
    ensures not_enough { HasNoMore room_for_table → ⊥ }
{}

/// An accepted `MoreSlots` adds a table at the end. A refused one, and any other call, adds none.
fn calls_leave_tables()
    ensures added { LeavesTables (Memory MoreSlots) Done (tables_of room_for_table) (tables_of table_added) }
    ensures not_in_front { LeavesTables (Memory MoreSlots) Done (tables_of room_for_table)
        (tables_of table_in_front) → ⊥ }
    ensures not_none { LeavesTables (Memory MoreSlots) Done (tables_of room_for_table)
        (tables_of room_for_table) → ⊥ }
    ensures refused { LeavesTables (Memory MoreSlots) (Refused NotEnoughSpace)
        (tables_of room_for_table) (tables_of room_for_table) }
    ensures not_refused { LeavesTables (Memory MoreSlots) (Refused NotEnoughSpace)
        (tables_of room_for_table) (tables_of table_added) → ⊥ }
    ensures not_another { LeavesTables (Memory Compact) Done (tables_of room_for_table)
        (tables_of table_added) → ⊥ }
{}

/// What the functions above promise is proved, and they run to their end.
#[test]
fn added_tables_are_tried() {
    images_are_heaps();
    new_table_is_there();
    table_is_gained();
    room_for_a_table_is_read();
    calls_leave_tables();
}
