//! The names of databases.

ghost use Rattle.std.specs.Prelude.{◌≡◌, ◌↔◌, IsTrue, IfSome, IfNone};
ghost use Rattle.heap_model.specs.Store.{Accepted, store_of};
ghost use Rattle.heap_model.specs.DatabaseSteps.{IsTaken};
ghost use Rattle.palm_store.specs.Databases.{HasNumber, HasOtherName, name_under};

use crate::lookup::directory::{DIRECTORY_WORD_SIZE, directory_bytes, listed_in};
use crate::lookup::header::header_of;
use db_format::name_in;
use heap_model::Db;
use mem_manager::Heap;

/// Returns whether a database has this name.
fn is_named(heap: &Heap, db: Db, name: &[u8]) -> bool
    requires accepted { Accepted heap.now.bytes }
    requires number { HasNumber heap.now.bytes db.0 }
    ensures { IsTrue result ↔ (name_under heap.now.bytes db.0 ≡ name.now) }
{
    name_in(header_of(heap, db)) == name
}

/// Finds the database of another number that has this name; with `Db(0)`, that of any number.
pub(crate) fn find_named(heap: &Heap, db: Db, name: &[u8]) -> Option<Db>
    requires { Accepted heap.now.bytes }
    ensures there { IfSome result (λ other. HasOtherName heap.now.bytes db.0 name.now other.0) }
    ensures none { IfNone result (IsTaken (store_of heap.now.bytes) db.0 name.now → ⊥) }
{
    let directory = directory_bytes(heap);
    for index in 0..directory.len() / DIRECTORY_WORD_SIZE {
        let other = listed_in(directory, index);
        if other != db && is_named(heap, other, name) {
            return Some(other);
        }
    }
    None
}

/// Returns whether a database of another number has this name; with `Db(0)`, whether any database
/// has.
pub(crate) fn has_other_name(heap: &Heap, db: Db, name: &[u8]) -> bool
    requires { Accepted heap.now.bytes }
    ensures { IsTrue result ↔ IsTaken (store_of heap.now.bytes) db.0 name.now }
{
    find_named(heap, db, name).is_some()
}
