//! The first checks of the calls on entries.

ghost use Rattle.std.specs.Prelude.{◌≡◌, [], length, OnOk, IfOk, IfErr};
ghost use Rattle.heap_model.specs.Database.{has_resources};
ghost use Rattle.heap_model.specs.Store.{Accepted};
ghost use Rattle.heap_model.specs.Refusals.{NoneHolds, FirstBrings};
ghost use Rattle.palm_store.specs.Databases.{HasNumber, HasDatabase};
ghost use Rattle.palm_store.specs.Opened.{IsOpened};
ghost use Rattle.palm_store.specs.EntryCalls.{entries_of_image, resources_of_image};
ghost use Rattle.palm_store.specs.Checks.{are_resources, wrong_kind, attribute_checks, opening_checks, finding_checks, IsFoundAt, IsTold, IsOfKind};

use crate::entries::InDatabase;
use crate::store::Store;
use database_edits::OpenDatabase;
use db_format::{DatabaseView, DbAttrs};
use heap_model::{Db, Entry, Refusal};

/// The kind of the entries that a call acts on.
#[derive(Clone, Copy)]
pub enum EntryKind {
    Records,
    Resources,
}

/// How a call uses a database. A read-only database may not be written.
#[derive(Clone, Copy)]
pub enum Access {
    Read,
    Write,
}

impl EntryKind {
    /// Returns whether the entries are resources.
    fn are_resources(self) -> bool
        ensures { result ≡ are_resources self }
    {
        match self {
            EntryKind::Records => false,
            EntryKind::Resources => true,
        }
    }

    /// Returns the refusal of a call on entries of this kind, if the database has those of the
    /// other kind.
    fn wrong_kind(self) -> Refusal
        ensures { result ≡ wrong_kind self }
    {
        match self {
            EntryKind::Records => Refusal::NotRecordDatabase,
            EntryKind::Resources => Refusal::NotResourceDatabase,
        }
    }
}

/// Opens a database that has entries of a kind, for an access.
///
/// The order is that of `opening_checks`.
///
/// # Errors
/// - `NoSuchDatabase`: if no database has the number.
/// - `NotRecordDatabase` or `NotResourceDatabase`: if it has entries of the other kind.
/// - `ReadOnly`: if the access is `Access::Write` and the database is read-only.
#[inline(always)]
pub fn open_database<'a>(
    store: &'a Store,
    db: Db,
    kind: EntryKind,
    access: Access,
) -> Result<DatabaseView<'a>, Refusal>
    ensures accepted { Accepted store.now.bytes }
    ensures is { IfOk result (λ database. HasDatabase store.now.bytes db.0 database) }
    ensures kind { IfOk result (λ database.
        has_resources database.header.attributes ≡ are_resources kind) }
    ensures passes { OnOk result (NoneHolds (opening_checks store.now.bytes db kind access [])) }
    ensures refused { IfErr result
        (FirstBrings (opening_checks store.now.bytes db kind access [])) }
{
    let database = store.find_database(db)?;
    check_attributes(database.attributes(), kind, access)?;
    Ok(database)
}

/// Opens a database that has entries of a kind, for an access, for the calls on entries.
///
/// # Errors
/// The same as for `open_database`.
#[inline(always)]
pub fn open_entries(
    store: &Store,
    db: Db,
    kind: EntryKind,
    access: Access,
) -> Result<OpenDatabase, Refusal>
    ensures accepted { Accepted store.now.bytes }
    ensures known { OnOk result (HasNumber store.now.bytes db.0) }
    ensures opened { IfOk result (IsOpened store.now.bytes) }
    ensures db { IfOk result (λ opened. opened.db ≡ db) }
    ensures kind { OnOk result (resources_of_image store.now.bytes db ≡ are_resources kind) }
    ensures passes { OnOk result (NoneHolds (opening_checks store.now.bytes db kind access [])) }
    ensures refused { IfErr result
        (FirstBrings (opening_checks store.now.bytes db kind access [])) }
{
    let opened = store.find_opened(db)?;
    let database = store.database_in(opened);
    check_attributes(database.attributes(), kind, access)?;
    Ok(opened)
}

/// Returns the number of entries of a database that has entries of a kind, for an access.
///
/// # Errors
/// The same as for `open_database`.
#[inline(always)]
pub fn count_entries(store: &Store, db: Db, kind: EntryKind, access: Access) -> Result<u32, Refusal>
    ensures accepted { Accepted store.now.bytes }
    ensures known { OnOk result (HasNumber store.now.bytes db.0) }
    ensures kind { OnOk result (resources_of_image store.now.bytes db ≡ are_resources kind) }
    ensures count { IfOk result (λ count. count ≡ length (entries_of_image store.now.bytes db)) }
    ensures passes { OnOk result (NoneHolds (opening_checks store.now.bytes db kind access [])) }
    ensures refused { IfErr result
        (FirstBrings (opening_checks store.now.bytes db kind access [])) }
{
    Ok(open_entries(store, db, kind, access)?.entry_count)
}

/// Returns the fields of the entry at an index, of a database that has entries of a kind, for an
/// access.
///
/// The order is that of `finding_checks`.
///
/// # Errors
/// - Those of `open_database`.
/// - `IndexOutOfRange`: if there is no entry at the index.
#[inline(always)]
pub fn find_entry(
    store: &Store,
    db: Db,
    index: u32,
    kind: EntryKind,
    access: Access,
) -> Result<InDatabase<Entry>, Refusal>
    ensures accepted { Accepted store.now.bytes }
    ensures found { IfOk result (λ found. IsFoundAt store.now.bytes db index kind found.opened) }
    ensures is { IfOk result (λ found. IsTold store.now.bytes db index found.item) }
    ensures of_kind { IfOk result (λ found. IsOfKind kind found.item) }
    ensures passes { OnOk result
        (NoneHolds (finding_checks store.now.bytes db index kind access)) }
    ensures refused { IfErr result
        (FirstBrings (finding_checks store.now.bytes db index kind access)) }
{
    let opened = open_entries(store, db, kind, access)?;
    if index >= opened.entry_count {
        return Err(Refusal::IndexOutOfRange);
    }
    Ok(InDatabase {
        opened,
        item: store.entry_in(opened, index),
    })
}

/// Checks that a database with these attributes has entries of a kind and allows an access.
#[inline(always)]
fn check_attributes(attributes: DbAttrs, kind: EntryKind, access: Access) -> Result<(), Refusal>
    ensures kind { OnOk result (has_resources attributes.0 ≡ are_resources kind) }
    ensures passes { OnOk result (NoneHolds (attribute_checks attributes.0 kind access)) }
    ensures refused { IfErr result (FirstBrings (attribute_checks attributes.0 kind access)) }
{
    if attributes.has_resources() != kind.are_resources() {
        return Err(kind.wrong_kind());
    }
    match access {
        Access::Read => Ok(()),
        Access::Write if attributes.is_read_only() => Err(Refusal::ReadOnly),
        Access::Write => Ok(()),
    }
}
