//! The directory: the numbers of the databases, in its order.

ghost use Rattle.std.specs.Prelude.{◌≡◌, ◌<◌, ◌≤◌, ◌+◌, ◌*◌, ◌/◌, length};
ghost use Rattle.heap_model.specs.Bytes.{u32_at};
ghost use Rattle.heap_model.specs.Store.{Accepted, listed, most_databases};
ghost use Rattle.heap_model.specs.Store as stores;
ghost use Rattle.palm_store.specs.Databases.{HasNumber, IsListedAt};

use byteorder::{BigEndian, ByteOrder};
use heap_model::Db;
use mem_manager::Heap;

/// How many bytes a number, the slot of a header, takes in the directory.
pub(crate) const DIRECTORY_WORD_SIZE: usize = chunk_format::SLOT_SIZE as usize;

/// Returns the bytes of the directory in the image. There are none if no database was made yet.
pub(crate) fn directory_bytes(heap: &Heap) -> &[u8]
    requires { Accepted heap.now.bytes }
    ensures is { result.now ≡ stores.directory_bytes heap.now.bytes }
    ensures listed { length (listed heap.now.bytes) ≡ length result.now / DIRECTORY_WORD_SIZE }
    ensures few { length (listed heap.now.bytes) ≤ most_databases }
{
    let directory = heap.directory();
    if directory.0 == 0 {
        &[]
    } else {
        heap.sys_body(directory)
    }
}

/// Returns the number at an index of the directory's bytes.
#[inline]
#[tactic(auto, using(db_format::proofs::WordLaws::u32_at_part))]
pub(crate) fn listed_in(directory: &[u8], index: usize) -> Db
    requires { DIRECTORY_WORD_SIZE * index + DIRECTORY_WORD_SIZE ≤ length directory.now }
    ensures { result.0 ≡ u32_at directory.now (DIRECTORY_WORD_SIZE * index) }
{
    let at = index * DIRECTORY_WORD_SIZE;
    Db(BigEndian::read_u32(&directory[at..at + DIRECTORY_WORD_SIZE]))
}

/// Returns the number of databases.
pub(crate) fn count_databases(heap: &Heap) -> u32
    requires { Accepted heap.now.bytes }
    ensures { result ≡ length (listed heap.now.bytes) }
{
    (directory_bytes(heap).len() / DIRECTORY_WORD_SIZE) as u32
}

/// Searches the directory for a database, and returns its index.
pub(crate) fn index_of(heap: &Heap, db: Db) -> u32
    requires accepted { Accepted heap.now.bytes }
    requires number { HasNumber heap.now.bytes db.0 }
    ensures { IsListedAt heap.now.bytes db.0 result }
{
    let directory = directory_bytes(heap);
    let mut index = 0;
    while listed_in(directory, index) != db {
        index += 1;
    }
    index as u32
}
