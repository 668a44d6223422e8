//! The names of the files of parts.

ghost use Rattle.std.specs.Prelude.{◌≡◌};

use std::marker::Model;

/// The name of the file of a part, borrowed from a text. Contracts see its bytes.
#[derive(Drop)]
pub struct PartFile<'a> {
    name: &'a [u8],
}

impl<'a> Model for PartFile<'a> {
    ghost use Rattle.std.specs.Prelude.{ℕ, List};

    ghost Value = { List ℕ };

    ghost view = { λ part. part.name.now };
}

impl<'a> PartFile<'a> {
    /// Returns the part with this name.
    pub(crate) fn of(name: &'a [u8]) -> PartFile<'a>
        ensures { result ≡ name.now }
    {
        PartFile { name }
    }

    /// Returns the name.
    pub fn name(&self) -> &'a [u8]
        ensures { result.now ≡ self.now }
    {
        self.name
    }
}
