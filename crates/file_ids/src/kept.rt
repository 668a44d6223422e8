//! The first pass: the records that keep their IDs.

ghost use Rattle.std.specs.Prelude.{◌≡◌, ◌<◌, ◌≤◌, ◌*◌, ℕ, [], false, length, All};
ghost use Rattle.heap_model.specs.Database.{resources_in, entry_count_in, database_in};
ghost use Rattle.heap_model.specs.Store.{unique_ids};
ghost use Rattle.heap_model.specs.UniqueIds.{greatest_id};
ghost use Rattle.heap_model.specs.Files.{kept_ids};
ghost use Rattle.bit_sets.specs.Sets.{HasNone};
ghost use Rattle.file_ids.specs.Passes.{HasIds, kept_or_none};

use pdb_format::{FileBytes, PdbFile};

/// Writes the ID of each record that keeps its ID into `ids`, and adds it to the set. At first all
/// of `ids` are 0, and the set is empty.
pub(crate) fn keep_ids<B: FileBytes>(file: &PdbFile<'_, B>, taken: &mut [u8], ids: &mut [u32])
    requires records { resources_in file.now ≡ false }
    requires bits { greatest_id < 8 * length taken.old }
    requires empty { HasNone taken.old }
    requires count { length ids.old ≡ entry_count_in file.now }
    requires zeros { All (λ id. id ≡ 0) ids.old }
    ensures kept { ids.new ≡ kept_or_none [] (unique_ids (database_in file.now)) }
    ensures taken { HasIds taken.new (kept_ids [] (unique_ids (database_in file.now))) }
    ensures most { All (λ id. id ≤ greatest_id) ids.new }
{
    for index in 0..file.entry_count() {
        let id = file.record_id(index);
        if id != 0 && !bit_sets::has(taken, id) {
            bit_sets::add(taken, id);
            ids[index as usize] = id;
        }
    }
}
