//! The IDs of records in a file that is written.

ghost use Rattle.std.specs.Prelude.{◌≡◌, ◌≤◌, ◌<◌};
ghost use Rattle.heap_model.specs.UniqueIds.{greatest_id};
ghost use Rattle.heap_model.specs.Database.{entry_count_in, entry_with, resources_in};
ghost use Rattle.db_format.specs.EitherEntry.{entry_of, is_resource, HasFittingId};
ghost use Rattle.pdb_format.specs.ReadFiles.{entry_read_at};
ghost use Rattle.canonical_file.specs.Written as words;
ghost use Rattle.canonical_file.specs.Written.{CanHaveIds, ids_of};

use db_format::DbEntry;
use file_ids::GivenIds;
use pdb_format::{FileBytes, PdbFile, idle_entry_at};

/// The IDs of the records of a file when it is written again.
#[derive(Clone, Copy)]
pub enum RecordIds<'a> {
    /// These IDs, one for each record, and this seed.
    Given(&'a GivenIds),
    /// The IDs and the seed of the file, with 0 and IDs that occur twice.
    Own,
}

/// Returns the seed of the unique IDs: the low 24 bits of its field.
pub fn seed_for<B: FileBytes>(file: &PdbFile<'_, B>, ids: RecordIds<'_>) -> u32
    requires { CanHaveIds file.now ids }
    ensures is { result ≡ words.seed_of file.now ids.entry }
    ensures most { result ≤ greatest_id }
{
    match ids {
        RecordIds::Given(given) => given.seed,
        RecordIds::Own => file.seed(),
    }
}

/// Returns the entry at an index as it is written: it isn't busy, a record has its ID, and the data
/// is at the offset `at`.
pub fn entry_with_id<B: FileBytes>(
    file: &PdbFile<'_, B>,
    ids: RecordIds<'_>,
    index: u16,
    at: u32,
) -> DbEntry
    requires inside { index < entry_count_in file.now }
    requires ids { CanHaveIds file.now ids }
    ensures is { entry_of result
        ≡ entry_with (λ _. at) (entry_read_at file.now (ids_of file.now ids.entry) index) }
    ensures kind { is_resource result ≡ resources_in file.now }
    ensures id { HasFittingId result }
{
    match ids {
        RecordIds::Given(given) => file.written_entry(index, &given.ids, at),
        RecordIds::Own => idle_entry_at(file.entry(index), at),
    }
}
