//! Names of fixed chunks that were found.

ghost use Rattle.std.specs.Prelude.{◌≡◌, ◌≢◌, ◌<◌, ◌↔◌, ℕ};
ghost use Rattle.std.specs.Bool.{OnTrue, OnFalse};
ghost use Rattle.mem_manager.specs.Known.{IsKnown, Remembers, entry_of_name};

use heap_model::Name;
use std::marker::Model;

/// The number of names that are remembered at a time.
const REMEMBERED_NAMES: usize = 64;

/// Names of fixed chunks. The offset of a name gives its entry, so a new name replaces the one that
/// was there. An entry without a name is 0. Contracts see the entries as a list.
#[derive(Drop)]
pub(crate) struct KnownNames {
    names: [u32; REMEMBERED_NAMES],
}

impl Model for KnownNames {
    ghost use Rattle.std.specs.Prelude.{ℕ, List};

    ghost Value = { List ℕ };

    ghost view = { λ known. known.names };
}

impl KnownNames {
    /// Returns a table that contains no name.
    pub(crate) fn none() -> KnownNames
        ensures { (name : ℕ) → IsKnown result name → ⊥ }
    {
        KnownNames {
            names: [0; REMEMBERED_NAMES],
        }
    }

    /// Returns whether a name is remembered.
    #[inline(always)]
    pub(crate) fn has(&self, name: Name) -> bool
        ensures known { OnTrue result (IsKnown self.now name.0) }
        ensures unknown { OnFalse result (IsKnown self.now name.0 → ⊥) }
    {
        name.0 != 0 && self.names[entry_of_name(name)] == name.0
    }

    /// Remembers a name.
    #[inline]
    pub(crate) fn remember(&mut self, name: Name)
        ensures { Remembers self.old self.new name.0 }
    {
        self.names[entry_of_name(name)] = name.0;
    }

    /// Forgets a name.
    #[inline(always)]
    pub(crate) fn forget(&mut self, name: Name)
        ensures { (other : ℕ) → (IsKnown self.new other
            ↔ (IsKnown self.old other × (other ≢ name.0))) }
    {
        if self.has(name) {
            self.names[entry_of_name(name)] = 0;
        }
    }
}

/// Returns the entry of a name. Bodies of fixed chunks begin at multiples of 8.
#[inline]
fn entry_of_name(name: Name) -> usize
    ensures is { result ≡ entry_of_name name.0 }
    ensures below { result < REMEMBERED_NAMES }
{
    (name.0 / 8) as usize % REMEMBERED_NAMES
}
