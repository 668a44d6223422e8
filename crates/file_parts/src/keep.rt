//! The things that a file keeps when it is rewritten.

ghost use Rattle.std.specs.Prelude.{◌≡◌, ◌≤◌, IsTrue, length, IfOk, OnErr};
ghost use Rattle.pdb_format.specs.Opened.{most_file_bytes};
ghost use Rattle.canonical_file.specs.Given.{AreGivenIn};
ghost use Rattle.file_parts.specs.Keeping as words;
ghost use Rattle.file_parts.specs.Keeping.{AreChangesLeft};

use allowance::Allowance;
use canonical_file::{Changes, changes_by};
use file_ids::{GivenIds, give_ids};
use pdb_format::{FileBytes, PdbFile};
use std::alloc::AllocError;

/// The things that a file keeps when it is rewritten. The rest of the new file is as in the
/// canonical form.
#[derive(Clone, Copy, Debug, PartialEq, Eq)]
pub struct Keep {
    /// The unique IDs as they are, with 0 and repeated ones, and the seed.
    pub ids: bool,
    /// The bytes between the entries and the first block.
    pub filler: bool,
    /// The order of the blocks by their offsets, and at one offset by rank.
    pub order: bool,
}

impl Keep {
    /// Returns the changes that are left of the changes of a file.
    pub fn left_of(self, changes: Changes) -> Changes
        ensures { result ≡ words.changes_left self changes }
    {
        Changes {
            busy: changes.busy,
            filler: changes.filler && !self.filler,
            ids: changes.ids && !self.ids,
            name: changes.name,
            order: changes.order && !self.order,
        }
    }

    /// Returns the changes of a file that are left, for the IDs that its records get in the
    /// canonical form. It allocates nothing.
    pub fn changes_by<B: FileBytes>(self, file: &PdbFile<'_, B>, given: &GivenIds) -> Changes
        requires short { length file.now ≤ most_file_bytes }
        requires given { AreGivenIn file.now given.now.ids.items given.now.seed }
        ensures { AreChangesLeft self file.now result }
    {
        file.know_file();
        self.left_of(changes_by(file, given))
    }

    /// Returns the changes of a file that are left.
    ///
    /// It allocates a set of IDs and the IDs of the records (see `file_ids`).
    ///
    /// # Errors
    ///
    /// - `AllocError`: if an allocation failed.
    pub fn find_changes<A: Allowance, B: FileBytes>(
        self,
        memory: &A,
        file: &PdbFile<'_, B>,
    ) -> Result<Changes, AllocError>
        requires { length file.now ≤ most_file_bytes }
        ensures left { IfOk result (AreChangesLeft self file.now) }
        ensures short { OnErr result (A.is_short memory.now) }
    {
        let given = give_ids(memory, file)?;
        Ok(self.changes_by(file, &given))
    }
}
