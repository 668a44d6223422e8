//! The bytes of an entry of either kind.

ghost use Rattle.std.specs.Prelude.{◌≡◌, ◌≤◌, length, take};
ghost use Rattle.heap_model.specs.DatabaseFields.{resource_size};

use crate::fields::RESOURCE_SIZE;
use std::marker::Model;

/// The bytes of the entry of a record or of a resource. Contracts see them as a list.
#[derive(Drop)]
pub struct EntryBytes {
    bytes: [u8; 10],
    size: usize,
}

impl Model for EntryBytes {
    ghost use Rattle.std.specs.Prelude.{◌≤◌, ℕ, List, take};

    ghost Value = { List ℕ };

    ghost view = { λ entry. take entry.size entry.bytes };

    ghost invariant = { λ entry. entry.size ≤ 10 };
}

impl EntryBytes {
    /// Copies the bytes of an entry.
    pub(crate) fn of(entry: &[u8]) -> EntryBytes
        requires { length entry.now ≤ resource_size }
        ensures { result ≡ entry.now }
    {
        let mut bytes = [0; RESOURCE_SIZE];
        let size = entry.len();
        bytes[..size].copy_from_slice(entry);
        EntryBytes { bytes, size }
    }

    /// Returns the bytes, in order.
    #[inline]
    pub fn as_slice(&self) -> &[u8]
        ensures { result.now ≡ self.now }
    {
        &self.bytes[..self.size]
    }
}
