//! The chain of tables: its last word `next`, and a table that is added at the end.
#![tactic(auto, using(crate::proofs::LentLaws::frame_of, crate::proofs::LentLaws::head_of))]

ghost use Rattle.std.specs.Prelude.{◌≡◌, length, true};
ghost use Rattle.heap_model.specs.Bytes.{u32_bytes, overwritten};
ghost use Rattle.heap_model.specs.Lending.{LendsBodies};
ghost use Rattle.heap_model.specs.Slots.{is_chained};
ghost use Rattle.heap_model.specs.MoreTables.{last_next as model_last, HasNewTable, AddsSlots};
ghost use Rattle.master_table.specs.Table.{IsTiled, IsStart};

use crate::slots::TableStart;
use heap_model::Place;
use raw_region::Region;

/// Adds a table of empty slots at the end of the chain: writes the table's place into the last word
/// `next`. It walks from a table of the chain on.
pub fn add_table(region: &mut Region, start: TableStart, place: Place)
    requires chained { is_chained region.old.bytes ≡ true }
    requires table { HasNewTable region.old.bytes place.0 }
    requires lent { LendsBodies region.old }
    requires start { IsStart region.old.bytes start }
    ensures adds { AddsSlots region.old.bytes region.new.bytes place.0 }
    ensures after { region.new ≡ record region.old
        { bytes = overwritten region.old.bytes (model_last region.old.bytes) (u32_bytes place.0) } }
    ensures len { length region.new.bytes ≡ length region.old.bytes }
{
    let last = last_next(region, start);
    region.put_u32(last as usize, place.0);
}

/// The offset of the last word `next`.
fn last_next(region: &Region, start: TableStart) -> u32
    requires tiled { IsTiled region.now.bytes }
    requires chained { is_chained region.now.bytes ≡ true }
    requires lent { LendsBodies region.now }
    requires start { IsStart region.now.bytes start }
    ensures { result ≡ model_last region.now.bytes }
{
    let mut at = start.next_word(region);
    let mut next = region.get_u32(at as usize);
    while next != 0 {
        at = next;
        next = region.get_u32(next as usize);
    }
    at
}
