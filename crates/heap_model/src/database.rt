//! The name of a database and the fields of its header, as calls give and return them.

ghost use Rattle.std.specs.Prelude.{◌≡◌, ◌≤◌, length, take, bytes_eq};
ghost use Rattle.std.specs.Cmp.{partial_equiv_from_equiv};
ghost use Rattle.std.specs.Cmp.Lexicographic.{nat_list_eq_equiv};
ghost use Rattle.heap_model.specs.DatabaseFields.{name_size};

use std::marker::Model;

/// The bytes that a caller gives or gets for the name of a database. At most the first 32 bytes are
/// kept; a name of 32 bytes is already too long. Contracts see a list of bytes.
#[derive(Drop, Debug)]
pub struct DbName {
    bytes: [u8; 32],
    length: u8,
}

impl Model for DbName {
    ghost use Rattle.std.specs.Prelude.{ℕ, List, ◌≤◌, take};

    ghost Value = { List ℕ };

    ghost view = { λ name. take name.length name.bytes };

    ghost invariant = { λ name. name.length ≤ 32 };
}

impl DbName {
    /// Keeps the first 32 bytes, or all bytes if there are fewer.
    pub fn of(bytes: &[u8]) -> DbName
        ensures { result ≡ take name_size bytes.now }
    {
        let mut kept = [0; 32];
        let length = bytes.len().min(kept.len());
        kept[..length].copy_from_slice(&bytes[..length]);
        DbName {
            bytes: kept,
            length: length as u8,
        }
    }

    /// Returns the bytes, in order.
    pub fn as_slice(&self) -> &[u8]
        ensures is { result.now ≡ self.now }
        ensures few { length result.now ≤ name_size }
    {
        &self.bytes[..self.length as usize]
    }
}

impl PartialEq for DbName {
    ghost eq = { λ a b. bytes_eq a b };

    ghost laws = { partial_equiv_from_equiv nat_list_eq_equiv };

    fn eq(&self, other: &DbName) -> bool {
        self.as_slice() == other.as_slice()
    }
}

impl Eq for DbName {
    ghost laws = { nat_list_eq_equiv };
}

/// The fields of a database's header, and its number of entries (Palm OS Programmer's API
/// Reference, `DmDatabaseInfo`; the fields are those of the File Format Specification). Dates count
/// seconds; no call interprets them.
#[derive(Drop, Debug, PartialEq, Eq)]
pub struct DbInfo {
    pub name: DbName,
    pub attributes: u16,
    pub version: u16,
    pub creation_date: u32,
    pub modification_date: u32,
    pub backup_date: u32,
    /// How often calls have changed the database, modulo 2^32.
    pub modification_number: u32,
    /// The database's type: its four bytes as a number.
    pub kind: u32,
    /// The database's creator: its four bytes as a number.
    pub creator: u32,
    /// The seed of the unique IDs of its records.
    pub seed: u32,
    pub entry_count: u16,
}
