//! The names of databases, and the field in which a header has one.

ghost use Rattle.std.specs.Prelude.{◌≡◌, ◌≢◌, ◌+◌, ◌≤◌, ◌<◌, ◌↔◌, ℕ, length, slice_index, IsTrue, SomeIff};
ghost use Rattle.heap_model.specs.DatabaseFields.{name_size};
ghost use Rattle.heap_model.specs.Database.{name_field, IsDatabaseName, HasName};
ghost use Rattle.heap_model.specs.Database as databases;

use crate::fields::NAME_SIZE;
use std::marker::Model;

/// The name of a database in its field of 32 bytes, followed by zeros. Contracts see only the name:
/// 1 to 31 bytes, none of them zero.
#[derive(Clone, Copy)]
pub struct NameField {
    bytes: [u8; 32],
}

impl Model for NameField {
    ghost use Rattle.std.specs.Prelude.{ℕ, List};
    ghost use Rattle.std.proofs.Common.{ap, sym};
    ghost use Rattle.heap_model.specs.Database.{name_in, name_field};
    ghost use Rattle.db_format.specs.Names.{IsNameField};

    ghost Value = { List ℕ };

    ghost view = { λ field. name_in field.bytes };

    ghost invariant = { λ field. IsNameField field.bytes };

    ghost inverse = { λ name. record { bytes = name_field name } };

    ghost inverse_ok = { λ a h. ap (λ (bytes : List ℕ). record { bytes = bytes }) (sym h.field) };
}

/// Returns the number of bytes before the first zero, and at most 31.
#[inline]
fn name_length(bytes: &[u8]) -> usize
    requires { name_size ≤ length bytes.now }
    ensures most { result < name_size }
    ensures before { (k : ℕ) → k < result → slice_index bytes.now k ≢ 0 }
    ensures behind { result + 1 < name_size → slice_index bytes.now result ≡ 0 }
{
    for index in 0..NAME_SIZE - 1 {
        if bytes[index] == 0 {
            return index;
        }
    }
    NAME_SIZE - 1
}

/// Returns the name in a header: the bytes before the first zero, and at most 31 of them.
#[inline]
pub fn name_in(bytes: &[u8]) -> &[u8]
    requires { name_size ≤ length bytes.now }
    ensures { result.now ≡ databases.name_in bytes.now }
{
    let length = name_length(bytes);
    &bytes[..length]
}

/// Returns whether these bytes are the name of a database: 1 to 31 bytes, none of them zero.
pub fn is_name(name: &[u8]) -> bool
    ensures { IsTrue result ↔ IsDatabaseName name.now }
{
    if name.is_empty() {
        return false;
    }
    if name.len() >= NAME_SIZE {
        return false;
    }
    !name.contains(&0)
}

/// Returns whether the field at the start has a name: its bytes, and then zeros up to the end of
/// the field.
pub fn has_name(bytes: &[u8]) -> bool
    requires { name_size ≤ length bytes.now }
    ensures { IsTrue result ↔ HasName bytes.now }
{
    let name = name_in(bytes);
    if !is_name(name) {
        return false;
    }
    let field = padded(name).to_bytes();
    field[..] == bytes[..NAME_SIZE]
}

impl NameField {
    /// Returns the field of a name, or `None` if these bytes aren't a name.
    pub fn of_name(name: &[u8]) -> Option<NameField>
        ensures { SomeIff result (IsDatabaseName name.now) name.now }
    {
        if is_name(name) {
            Some(padded(name))
        } else {
            None
        }
    }

    /// Reads the field of the name in a header. If no zero ends the name, it has 31 bytes. The
    /// bytes of the field after the first zero are ignored.
    pub fn read(bytes: &[u8]) -> NameField
        requires field { name_size ≤ length bytes.now }
        requires name { IsDatabaseName (databases.name_in bytes.now) }
        ensures { result ≡ databases.name_in bytes.now }
    {
        padded(name_in(bytes))
    }

    /// Returns the name, without the zeros after it.
    pub fn name(&self) -> &[u8]
        ensures is { result.now ≡ self.now }
        ensures valid { IsDatabaseName self.now }
    {
        name_in(&self.bytes)
    }

    /// Returns the bytes of the field.
    pub fn to_bytes(self) -> [u8; 32]
        ensures is { result ≡ name_field self }
        ensures valid { IsDatabaseName self }
    {
        self.bytes
    }
}

/// Returns the field of a name.
fn padded(name: &[u8]) -> NameField
    requires { IsDatabaseName name.now }
    ensures { result ≡ name.now }
{
    let mut bytes = [0; NAME_SIZE];
    bytes[..name.len()].copy_from_slice(name);
    NameField { bytes }
}
