//! The headers of databases.

ghost use Rattle.std.specs.Prelude.{◌≡◌, ◌≤◌, ℕ, length, take};
ghost use Rattle.heap_model.specs.DatabaseFields.{name_size, header_size};
ghost use Rattle.heap_model.specs.Database.{Database, IsDatabaseName, name_field, name_in, header_bytes, database_in};
ghost use Rattle.db_format.specs.Headers.{IsHeaderOf, WritesHeader, info_told};

use crate::fields::{
    APP_INFO_AT, ATTRIBUTES_AT, BACKUP_DATE_AT, CREATION_DATE_AT, CREATOR_AT, DATABASE_HEADER_SIZE,
    ENTRY_COUNT_AT, KIND_AT, MODIFICATION_DATE_AT, MODIFICATION_NUMBER_AT, NAME_SIZE, NEXT_LIST_AT,
    SEED_AT, SORT_INFO_AT, VERSION_AT,
};
use crate::name::NameField;
use crate::words::{put_u16, put_u32, u16_in, u32_in};
use heap_model::{DbInfo, DbName};

/// The header of a database (Palm OS File Format Specification, "PDB Format"), with slots instead
/// of a file's offsets. The field for a further list of entries is always zero, and is left out
/// here.
#[derive(Clone, Copy)]
pub struct DbHeader {
    pub name: NameField,
    pub attributes: u16,
    pub version: u16,
    pub creation_date: u32,
    pub modification_date: u32,
    pub backup_date: u32,
    pub modification_number: u32,
    /// The slot of the AppInfo block, or 0.
    pub app_info: u32,
    /// The slot of the SortInfo block, or 0.
    pub sort_info: u32,
    /// The database's type: its four bytes as a number.
    pub kind: u32,
    /// The database's creator: its four bytes as a number.
    pub creator: u32,
    /// The seed of the unique IDs of records.
    pub seed: u32,
    pub entry_count: u16,
}

impl DbHeader {
    /// Reads the header at the start of the bytes of a database. The bytes need a name, and need
    /// not be valid otherwise.
    pub fn read(bytes: &[u8]) -> DbHeader
        requires header { header_size ≤ length bytes.now }
        requires name { IsDatabaseName (name_in bytes.now) }
        ensures { IsHeaderOf (database_in bytes.now) result }
    {
        DbHeader {
            name: NameField::read(bytes),
            attributes: u16_in(bytes, ATTRIBUTES_AT),
            version: u16_in(bytes, VERSION_AT),
            creation_date: u32_in(bytes, CREATION_DATE_AT),
            modification_date: u32_in(bytes, MODIFICATION_DATE_AT),
            backup_date: u32_in(bytes, BACKUP_DATE_AT),
            modification_number: u32_in(bytes, MODIFICATION_NUMBER_AT),
            app_info: u32_in(bytes, APP_INFO_AT),
            sort_info: u32_in(bytes, SORT_INFO_AT),
            kind: u32_in(bytes, KIND_AT),
            creator: u32_in(bytes, CREATOR_AT),
            seed: u32_in(bytes, SEED_AT),
            entry_count: u16_in(bytes, ENTRY_COUNT_AT),
        }
    }

    /// Returns the values of the header that callers see: all but the slots of the info blocks.
    pub fn info(&self) -> DbInfo
        ensures { result ≡ info_told self.now }
    {
        DbInfo {
            name: DbName::of(self.name.name()),
            attributes: self.attributes,
            version: self.version,
            creation_date: self.creation_date,
            modification_date: self.modification_date,
            backup_date: self.backup_date,
            modification_number: self.modification_number,
            kind: self.kind,
            creator: self.creator,
            seed: self.seed,
            entry_count: self.entry_count,
        }
    }

    /// Returns the bytes of the header.
    pub fn to_bytes(&self) -> [u8; DATABASE_HEADER_SIZE]
        ensures is { (database : Database ℕ) → IsHeaderOf database self.now → result ≡ header_bytes database }
        ensures written { WritesHeader self.now result }
    {
        let mut bytes = begin_with(self.name);
        put_u16(&mut bytes, ATTRIBUTES_AT, self.attributes);
        put_u16(&mut bytes, VERSION_AT, self.version);
        put_u32(&mut bytes, CREATION_DATE_AT, self.creation_date);
        put_u32(&mut bytes, MODIFICATION_DATE_AT, self.modification_date);
        put_u32(&mut bytes, BACKUP_DATE_AT, self.backup_date);
        put_u32(&mut bytes, MODIFICATION_NUMBER_AT, self.modification_number);
        put_u32(&mut bytes, APP_INFO_AT, self.app_info);
        put_u32(&mut bytes, SORT_INFO_AT, self.sort_info);
        put_u32(&mut bytes, KIND_AT, self.kind);
        put_u32(&mut bytes, CREATOR_AT, self.creator);
        put_u32(&mut bytes, SEED_AT, self.seed);
        put_u32(&mut bytes, NEXT_LIST_AT, 0);
        put_u16(&mut bytes, ENTRY_COUNT_AT, self.entry_count);
        bytes
    }
}

/// Returns the bytes of a header that has a name and zeros in all other fields.
fn begin_with(name: NameField) -> [u8; DATABASE_HEADER_SIZE]
    ensures front { take name_size result ≡ name_field name }
    ensures valid { IsDatabaseName name }
{
    let mut bytes = [0; DATABASE_HEADER_SIZE];
    bytes[..NAME_SIZE].copy_from_slice(&name.to_bytes());
    bytes
}
