//! Bytes of a file that were not read.

ghost use Rattle.std.specs.Prelude.{◌≡◌, ℕ, List};

use std::marker::Model;

/// Bytes of a file that were not read. Only contracts see them, so it takes no space.
#[derive(Drop)]
pub struct Unread {
    pub ghost bytes: { List ℕ },
}

impl Model for Unread {
    ghost use base.Fml.{ftrue};

    ghost also_owns = { λ _. ftrue };
}

/// Names bytes for contracts.
pub fn name_unread() -> Unread
    ghost bytes: { List ℕ }
    ensures { result.bytes ≡ bytes }
{
    Unread {}
}
