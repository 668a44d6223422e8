//! The fields of headers and entries of databases, as C sees them.

ghost use Rattle.std.specs.Prelude.{◌≡◌, take};
ghost use Rattle.heap_model.specs.Database.{name_field};
ghost use Rattle.palmheap_c.specs.Infos.{database_from_c, record_from_c, resource_from_c};

use heap_model::{DbInfo, DbName};

/// The header of a database. The first `name_length` bytes of `name` are its name, and the others
/// are 0.
#[repr(C)]
#[derive(Clone, Copy, Debug, PartialEq, Eq)]
pub struct DatabaseInfo {
    pub name: [u8; 32],
    pub name_length: u32,
    pub creation_date: u32,
    pub modification_date: u32,
    pub backup_date: u32,
    pub modification_number: u32,
    pub kind: u32,
    pub creator: u32,
    pub seed: u32,
    pub attributes: u16,
    pub version: u16,
    pub entry_count: u16,
}

/// The entry of a record. If `has_data` is true, `data` is the chunk of its data.
#[repr(C)]
#[derive(Clone, Copy, Debug, PartialEq, Eq)]
pub struct RecordInfo {
    pub id: u32,
    pub data: u32,
    pub attributes: u8,
    pub has_data: bool,
}

/// The entry of a resource. `data` is the chunk of its data.
#[repr(C)]
#[derive(Clone, Copy, Debug, PartialEq, Eq)]
pub struct ResourceInfo {
    pub kind: u32,
    pub data: u32,
    pub id: u16,
}

#[tactic(auto, using(crate::proofs::NameLaws::field_filled))]
pub(crate) fn of_database(info: &DbInfo) -> DatabaseInfo
    ensures told { database_from_c result ≡ info.now }
    ensures field { result.name ≡ name_field info.now.name }
{
    let bytes = info.name.as_slice();
    let mut name = [0; 32];
    name[..bytes.len()].copy_from_slice(bytes);
    DatabaseInfo {
        name,
        name_length: bytes.len() as u32,
        creation_date: info.creation_date,
        modification_date: info.modification_date,
        backup_date: info.backup_date,
        modification_number: info.modification_number,
        kind: info.kind,
        creator: info.creator,
        seed: info.seed,
        attributes: info.attributes,
        version: info.version,
        entry_count: info.entry_count,
    }
}

/// Returns the name of a database.
#[tactic(auto, using(crate::proofs::NameLaws::name_told))]
fn name_of(info: &DatabaseInfo) -> DbName
    ensures { result ≡ take info.now.name_length info.now.name }
{
    let length = info.name.len().min(info.name_length as usize);
    DbName::of(&info.name[..length])
}

pub(crate) fn database_of(info: &DatabaseInfo) -> DbInfo
    ensures { result ≡ database_from_c info.now }
{
    DbInfo {
        name: name_of(info),
        attributes: info.attributes,
        version: info.version,
        creation_date: info.creation_date,
        modification_date: info.modification_date,
        backup_date: info.backup_date,
        modification_number: info.modification_number,
        kind: info.kind,
        creator: info.creator,
        seed: info.seed,
        entry_count: info.entry_count,
    }
}

pub(crate) fn of_record(info: heap_model::RecordInfo) -> RecordInfo
    ensures { record_from_c result ≡ info }
{
    let (data, has_data) = match info.data {
        Some(name) => (name.0, true),
        None => (0, false),
    };
    RecordInfo {
        id: info.id,
        data,
        attributes: info.attributes,
        has_data,
    }
}

pub(crate) fn of_resource(info: heap_model::ResourceInfo) -> ResourceInfo
    ensures { resource_from_c result ≡ info }
{
    ResourceInfo {
        kind: info.kind,
        data: info.data.0,
        id: info.id,
    }
}
