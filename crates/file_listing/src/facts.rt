//! The facts of a listing that are found before its first row is written.

ghost use Rattle.std.specs.Prelude.{◌≤◌, length, IfOk, OnErr};
ghost use Rattle.pdb_format.specs.Opened.{most_file_bytes};
ghost use Rattle.file_listing.specs.Listing.{AreFacts};

use crate::categories::{Categories, categories_of};
use crate::moments::moment_of;
use crate::rows::Moment;
use allowance::Allowance;
use canonical_file::{Changes, find_changes};
use pdb_format::{FileBytes, PdbFile};
use std::alloc::AllocError;

/// The moments of a file's header, the names of its categories, and the changes when the file is
/// rewritten.
#[derive(Drop)]
pub(crate) struct Facts<'a> {
    pub(crate) created: Moment,
    pub(crate) modified: Moment,
    pub(crate) backup: Moment,
    pub(crate) categories: Categories<'a>,
    pub(crate) changes: Changes,
}

/// Returns the facts of a file.
pub(crate) fn facts_of<'a, A: Allowance, B: FileBytes>(
    memory: &A,
    file: &'a PdbFile<'_, B>,
) -> Result<Facts<'a>, AllocError>
    requires { length file.now ≤ most_file_bytes }
    ensures facts { IfOk result (AreFacts file.now) }
    ensures short { OnErr result (A.is_short memory.now) }
{
    let header = file.header();
    Ok(Facts {
        created: moment_of(header.creation_date),
        modified: moment_of(header.modification_date),
        backup: moment_of(header.backup_date),
        categories: categories_of(file),
        changes: find_changes(memory, file)?,
    })
}
