//! The header of a database, by its number.

ghost use Rattle.std.specs.Prelude.{◌≡◌, None, IfOk, IfErr, OnOk, OnErr};
ghost use Rattle.heap_model.specs.Database.{IsSpelled, HasShape, database_in};
ghost use Rattle.heap_model.specs.Store.{Accepted, bytes_under, store_of};
ghost use Rattle.heap_model.specs.StoreWords.{with_number};
ghost use Rattle.heap_model.specs.DatabaseSteps.{info_of};
ghost use Rattle.mem_manager.specs.Lookup.{StandsAs};
ghost use Rattle.palm_store.specs.Databases.{HasNumber};
ghost use Rattle.palm_store.specs.Opened.{IsOpened};

use database_edits::OpenDatabase;
use db_format::{DbHeader, entry_count};
use heap_model::{Db, DbInfo, Name, Refusal};
use mem_manager::{Found, Heap, MANAGERS_OWNER};

/// Returns the chunk of the database with a number, in its current state. It costs the same however
/// many databases there are: each chunk of the manager's is a header or the directory.
///
/// # Errors
/// - `NoSuchDatabase`: if no database has the number.
#[inline(always)]
fn find_chunk(heap: &Heap, db: Db) -> Result<Found, Refusal>
    requires { Accepted heap.now.bytes }
    ensures known { OnOk result (HasNumber heap.now.bytes db.0) }
    ensures is { IfOk result (StandsAs heap.now.bytes db.0) }
    ensures unknown { OnErr result (with_number (store_of heap.now.bytes) db.0 ≡ None) }
    ensures refusal { IfErr result (λ refusal. refusal ≡ Refusal.NoSuchDatabase) }
{
    let Some(chunk) = heap.sys_chunk(Name(db.0)) else {
        return Err(Refusal::NoSuchDatabase);
    };
    if chunk.owner != MANAGERS_OWNER || db.0 == heap.directory().0 {
        return Err(Refusal::NoSuchDatabase);
    }
    Ok(chunk)
}

/// Finds the database with a number. It costs the same however many databases there are.
///
/// # Errors
/// - `NoSuchDatabase`: if no database has the number.
#[inline(always)]
pub(crate) fn find_opened(heap: &Heap, db: Db) -> Result<OpenDatabase, Refusal>
    requires { Accepted heap.now.bytes }
    ensures known { OnOk result (HasNumber heap.now.bytes db.0) }
    ensures opened { IfOk result (IsOpened heap.now.bytes) }
    ensures db { IfOk result (λ opened. opened.db ≡ db) }
    ensures unknown { OnErr result (with_number (store_of heap.now.bytes) db.0 ≡ None) }
    ensures refusal { IfErr result (λ refusal. refusal ≡ Refusal.NoSuchDatabase) }
{
    let chunk = find_chunk(heap, db)?;
    Ok(opened_in(heap, db, chunk))
}

/// Returns the database with a number that is one.
#[inline(always)]
pub(crate) fn opened_of(heap: &Heap, db: Db) -> OpenDatabase
    requires accepted { Accepted heap.now.bytes }
    requires number { HasNumber heap.now.bytes db.0 }
    ensures opened { IsOpened heap.now.bytes result }
    ensures db { result.db ≡ db }
{
    opened_in(heap, db, heap.sys_find(Name(db.0)))
}

/// Returns the database with a number, and with this chunk.
#[inline(always)]
fn opened_in(heap: &Heap, db: Db, chunk: Found) -> OpenDatabase
    requires accepted { Accepted heap.now.bytes }
    requires number { HasNumber heap.now.bytes db.0 }
    requires chunk { StandsAs heap.now.bytes db.0 chunk }
    ensures opened { IsOpened heap.now.bytes result }
    ensures db { result.db ≡ db }
{
    OpenDatabase {
        db,
        chunk,
        entry_count: entry_count(heap.sys_body_found(Name(db.0), chunk)) as u32,
    }
}

/// Returns the bytes of an open database in the image: its header, and its entries after it.
#[inline(always)]
pub(crate) fn header_in(heap: &Heap, opened: OpenDatabase) -> &[u8]
    requires accepted { Accepted heap.now.bytes }
    requires opened { IsOpened heap.now.bytes opened }
    ensures is { result.now ≡ bytes_under heap.now.bytes opened.db.0 }
    ensures spelled { IsSpelled (database_in result.now) result.now }
    ensures shape { HasShape result.now }
{
    heap.sys_body_found(Name(opened.db.0), opened.chunk)
}

/// Returns the bytes of the database with a number, as `header_in` does.
///
/// # Errors
/// - `NoSuchDatabase`: if no database has the number.
#[inline(always)]
pub(crate) fn find_header(heap: &Heap, db: Db) -> Result<&[u8], Refusal>
    requires { Accepted heap.now.bytes }
    ensures known { OnOk result (HasNumber heap.now.bytes db.0) }
    ensures is { IfOk result (λ header. header.now ≡ bytes_under heap.now.bytes db.0) }
    ensures spelled { IfOk result (λ header. IsSpelled (database_in header.now) header.now) }
    ensures shape { IfOk result (λ header. HasShape header.now) }
    ensures unknown { OnErr result (with_number (store_of heap.now.bytes) db.0 ≡ None) }
    ensures refusal { IfErr result (λ refusal. refusal ≡ Refusal.NoSuchDatabase) }
{
    let opened = find_opened(heap, db)?;
    Ok(header_in(heap, opened))
}

/// Returns the bytes of a database, as `header_in` does.
#[inline(always)]
pub(crate) fn header_of(heap: &Heap, db: Db) -> &[u8]
    requires accepted { Accepted heap.now.bytes }
    requires number { HasNumber heap.now.bytes db.0 }
    ensures is { result.now ≡ bytes_under heap.now.bytes db.0 }
    ensures spelled { IsSpelled (database_in result.now) result.now }
    ensures shape { HasShape result.now }
{
    header_in(heap, opened_of(heap, db))
}

/// Reads the fields of the header in these bytes.
pub(crate) fn info_in(bytes: &[u8]) -> DbInfo
    requires { HasShape bytes.now }
    ensures { result ≡ info_of (database_in bytes.now) }
{
    DbHeader::read(bytes).info()
}
