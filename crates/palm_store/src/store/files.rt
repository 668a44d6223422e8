//! Calls for a crate that reads databases from files and writes them to files. They refuse nothing.
//! The caller must prove their preconditions.

ghost use Rattle.std.specs.Prelude.{◌≡◌, ◌↔◌, None, length, IfSome, IfNone, IsTrue, Any};
ghost use Rattle.heap_model.specs.Lending.{IsLent};
ghost use Rattle.heap_model.specs.Space.{MovesNothing};
ghost use Rattle.heap_model.specs.Database.{HasShape, IsSpelled, database_in};
ghost use Rattle.heap_model.specs.Store.{Accepted, bytes_of, store_of};
ghost use Rattle.heap_model.specs.StoreWords.{with_number};
ghost use Rattle.palm_store.specs.Databases.{HasNumber, HasDatabase, named_under};
ghost use Rattle.database_edits.specs.Kept.{OnlyWrites};
ghost use Rattle.palm_store.specs.EntryCalls.{LeavesChanged};
ghost use Rattle.palm_store.specs.Files.{IsDataName, HasDataOf, data_filled};

use crate::databases::has_lent;
use crate::lookup::{find_header, opened_of};
use crate::store::Store;
use heap_model::{Db, Name};

impl Store {
    /// Returns the bytes of the database of a number, in the image: its header, and its entries
    /// after it. Returns `None` if there is no such database.
    pub fn database_bytes(&self, db: Db) -> Option<&[u8]>
        ensures accepted { Accepted self.now.bytes }
        ensures none { IfNone result (with_number (store_of self.now.bytes) db.0 ≡ None) }
        ensures is { IfSome result
            (λ bytes. HasDatabase self.now.bytes db.0 (database_in bytes.now)) }
        ensures spelled { IfSome result (λ bytes. IsSpelled (database_in bytes.now) bytes.now) }
        ensures shape { IfSome result (λ bytes. HasShape bytes.now) }
    {
        find_header(&self.heap, db).ok()
    }

    /// Returns the bytes of a chunk that a database names, in the image. There are none for
    /// `Name(0)`, which means that it has no chunk.
    pub fn chunk_bytes(&self, name: Name) -> &[u8]
        requires names { IsDataName self.now.bytes name.0 }
        requires here { IsLent self.now name.0 → ⊥ }
        ensures { result.now ≡ bytes_of ((store_of self.now.bytes).map name.0) }
    {
        if name.0 == 0 {
            &[]
        } else {
            self.heap.sys_body(name)
        }
    }

    /// Returns whether a database names a chunk whose body is lent.
    pub fn lends_data(&self, db: Db) -> bool
        requires { HasNumber self.now.bytes db.0 }
        ensures { IsTrue result ↔ Any (IsLent self.now) (named_under self.now.bytes db.0) }
    {
        has_lent(&self.heap, opened_of(&self.heap, db))
    }

    /// Writes bytes over all of a chunk for data without a lock: an info block of a database, or
    /// the data of an entry.
    pub fn fill_data(&mut self, name: Name, bytes: &[u8])
        requires { HasDataOf self.old.bytes name.0 (length bytes.now) }
        ensures filled { LeavesChanged self.old self.new
            (λ store. data_filled store name.0 bytes.now) }
        ensures unmoved { MovesNothing self.old.bytes self.new.bytes }
        ensures kept { OnlyWrites self.old self.new }
    {
        let chunk = self.heap.sys_find(name);
        self.heap.sys_write(name, chunk, 0, bytes);
    }
}
