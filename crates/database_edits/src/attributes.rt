//! Changes the attributes of all records of a database in one pass.

ghost use Rattle.std.specs.Prelude.{◌≡◌, false};
ghost use Rattle.database_edits.specs.Kept.{OnlyWrites};
ghost use Rattle.mem_manager.specs.Lookup.{StandsAs};
ghost use Rattle.database_edits.specs.Recorded.{attributes_changed};
ghost use Rattle.database_edits.specs.Edits.{Changes, HasKindHere};
ghost use Rattle.database_edits.specs.Opened.{IsOpenHere};

use crate::opened::OpenDatabase;
use db_format::{DATABASE_HEADER_SIZE, RECORD_ATTRIBUTES_AT, RECORD_SIZE};
use heap_model::Name;
use mem_manager::Heap;
use raw_region::ByteChange;

/// Replaces the attributes of each record by what `change` makes of them.
#[tactic(auto, using(crate::proofs::Recorded::long_enough, crate::proofs::Recorded::short_enough, crate::proofs::Loans::spelled_here))]
pub fn change_attributes<C: ByteChange>(heap: &mut Heap, opened: OpenDatabase, change: C)
    requires opened { IsOpenHere heap.old.bytes opened }
    requires records { HasKindHere heap.old.bytes opened.db.0 false }
    ensures changed { Changes heap.old.bytes heap.new.bytes opened.db.0
        (attributes_changed (C.made change)) }
    ensures stands { StandsAs heap.new.bytes opened.db.0 opened.chunk }
    ensures kept { OnlyWrites heap.old heap.new }
{
    let entries = heap.sys_body_found(Name(opened.db.0), opened.chunk).len() - DATABASE_HEADER_SIZE;
    heap.sys_change_every(
        Name(opened.db.0),
        opened.chunk,
        DATABASE_HEADER_SIZE as u32,
        entries as u32,
        RECORD_ATTRIBUTES_AT as u32,
        RECORD_SIZE as u32,
        change,
    );
}
