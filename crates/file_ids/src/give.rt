//! The IDs that the records of a file get.

ghost use Rattle.std.specs.Prelude.{◌≡◌, ◌<◌, ◌≤◌, ◌*◌, ℕ, false, length, IfOk, OnErr, All};
ghost use Rattle.heap_model.specs.Lists.{Distinct};
ghost use Rattle.heap_model.specs.Database.{resources_in, entry_count_in, header_in, database_in};
ghost use Rattle.heap_model.specs.Store.{unique_ids};
ghost use Rattle.heap_model.specs.UniqueIds.{greatest_id, seed_in};
ghost use Rattle.heap_model.specs.EntrySteps.{most_entries};
ghost use Rattle.heap_model.specs.Files.{HaveIds};
ghost use Rattle.bit_sets.specs.Sets.{HasNone};

use crate::fresh::give_fresh;
use crate::kept::keep_ids;
use allowance::{Allowance, filled, zeros};
use db_format::GREATEST_ID;
use pdb_format::{FileBytes, PdbFile};
use std::alloc::AllocError;

/// The IDs of the records of a file, in their order, and the seed after the last of them. The seed
/// has 24 bits.
#[derive(Drop, Debug, PartialEq, Eq)]
pub struct GivenIds {
    pub ids: Vec<u32>,
    pub seed: u32,
}

/// Gives each record of a file its ID. A file of resources has no records, and its seed stays.
///
/// It allocates a bit for each possible ID (2 MiB), and the IDs that it returns. Its time is linear
/// in the number of records, for all IDs and seeds.
///
/// # Errors
///
/// - `AllocError`: if `memory` refused a grant, or an allocation failed.
pub fn give_ids<A: Allowance, B: FileBytes>(
    memory: &A,
    file: &PdbFile<'_, B>,
) -> Result<GivenIds, AllocError>
    ensures given { IfOk result (λ given. HaveIds (seed_in (header_in file.now).seed)
        (unique_ids (database_in file.now)) given.ids.items given.seed) }
    ensures fit { IfOk result (λ given.
        All (λ id. (0 < id) × (id ≤ greatest_id)) given.ids.items) }
    ensures distinct { IfOk result (λ given. Distinct given.ids.items) }
    ensures seed { IfOk result (λ given. given.seed ≤ greatest_id) }
    ensures short { OnErr result (A.is_short memory.now) }
{
    if file.has_resources() {
        return Ok(GivenIds {
            ids: Vec::new(memory.allocator()),
            seed: file.seed(),
        });
    }
    let mut taken = set_for(memory, GREATEST_ID as usize / 8 + 1)?;
    let mut ids = zeros_for(memory, file.entry_count())?;
    let seed = put_ids(file, &mut taken, &mut ids);
    Ok(GivenIds { ids, seed })
}

/// Writes the ID of each record into `ids`, and returns the new seed. At first all of `ids` are 0,
/// and the set `taken` is empty.
fn put_ids<B: FileBytes>(file: &PdbFile<'_, B>, taken: &mut [u8], ids: &mut [u32]) -> u32
    requires records { resources_in file.now ≡ false }
    requires bits { greatest_id < 8 * length taken.old }
    requires empty { HasNone taken.old }
    requires count { length ids.old ≡ entry_count_in file.now }
    requires few { length ids.old ≤ most_entries }
    requires zeros { All (λ id. id ≡ 0) ids.old }
    ensures given { HaveIds (seed_in (header_in file.now).seed)
        (unique_ids (database_in file.now)) ids.new result }
    ensures fit { All (λ id. (0 < id) × (id ≤ greatest_id)) ids.new }
    ensures distinct { Distinct ids.new }
    ensures seed { result ≤ greatest_id }
{
    keep_ids(file, taken, ids);
    give_fresh(taken, ids, file.seed())
}

/// Allocates an empty set of `size` bytes.
fn set_for<A: Allowance>(memory: &A, size: usize) -> Result<Vec<u8>, AllocError>
    ensures len { IfOk result (λ set. length set.items ≡ size) }
    ensures empty { IfOk result (λ set. HasNone set.items) }
    ensures short { OnErr result (A.is_short memory.now) }
{
    zeros(memory, size)
}

/// Allocates `count` zeros, which later become IDs.
fn zeros_for<A: Allowance>(memory: &A, count: u16) -> Result<Vec<u32>, AllocError>
    ensures len { IfOk result (λ ids. length ids.items ≡ count) }
    ensures zeros { IfOk result (λ ids. All (λ id. id ≡ 0) ids.items) }
    ensures short { OnErr result (A.is_short memory.now) }
{
    filled(memory, 0, count as usize)
}
