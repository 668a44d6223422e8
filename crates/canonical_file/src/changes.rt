//! The changes of a file.

ghost use Rattle.std.specs.Prelude.{◌≡◌, ◌≤◌, ℕ, IsTrue, length, IfOk, OnErr, All};
ghost use Rattle.pdb_format.specs.Opened.{most_file_bytes};
ghost use Rattle.canonical_file.specs.Canonical.{IsCanonical};
ghost use Rattle.canonical_file.specs.Changes as words;
ghost use Rattle.canonical_file.specs.Changes.{AreChanges};
ghost use Rattle.canonical_file.specs.Given.{AreGivenIn};

use crate::entry_changes::{has_busy, keeps_ids};
use crate::offsets::is_in_order;
use allowance::Allowance;
use file_ids::{GivenIds, give_ids};
use pdb_format::{FileBytes, PdbFile};
use std::alloc::AllocError;

/// The changes of a file when it is rewritten. Each field has the name of its word in a listing.
#[derive(Clone, Copy, Debug, PartialEq, Eq)]
pub struct Changes {
    /// A record is busy. In the new file it is not busy.
    pub busy: bool,
    /// The bytes between the entries and the first block are not exactly two zeros.
    pub filler: bool,
    /// A record gets another ID. Its own is 0, or the ID of an earlier record.
    pub ids: bool,
    /// The bytes after the name, in its field, are not all zeros.
    pub name: bool,
    /// The blocks are not in the order of the list.
    pub order: bool,
}

impl Changes {
    /// Returns whether nothing changes.
    pub fn is_none(self) -> bool
        ensures { result ≡ words.is_none self }
    {
        !(self.busy || self.filler || self.ids || self.name || self.order)
    }
}

/// The same as `find_changes`, for the IDs that the file's records get. It allocates nothing.
pub fn changes_by<B: FileBytes>(file: &PdbFile<'_, B>, given: &GivenIds) -> Changes
    requires short { length file.now ≤ most_file_bytes }
    requires given { AreGivenIn file.now given.now.ids.items given.now.seed }
    ensures changes { AreChanges file.now result }
    ensures same { IsTrue (words.is_none result) → IsCanonical file.now file.now }
{
    file.know_file();
    Changes {
        busy: has_busy(file),
        filler: !file.has_filler(),
        ids: !keeps_ids(file, &given.ids),
        name: !file.has_name(),
        order: !is_in_order(file),
    }
}

/// Returns the changes of a file when it is rewritten. If there are none, the file is its own
/// canonical form.
///
/// It allocates a set of IDs and the IDs of the records (see `file_ids`). It doesn't allocate the
/// canonical form.
///
/// # Errors
///
/// - `AllocError`: if an allocation failed.
pub fn find_changes<A: Allowance, B: FileBytes>(
    memory: &A,
    file: &PdbFile<'_, B>,
) -> Result<Changes, AllocError>
    requires { length file.now ≤ most_file_bytes }
    ensures changes { IfOk result (AreChanges file.now) }
    ensures same { IfOk result (λ changes.
        IsTrue (words.is_none changes) → IsCanonical file.now file.now) }
    ensures short { OnErr result (A.is_short memory.now) }
{
    let given = give_ids(memory, file)?;
    Ok(changes_by(file, &given))
}
