//! The header of a canonical form, and the offsets of its blocks.

ghost use Rattle.std.specs.Prelude.{◌≡◌, ◌≤◌, ◌<◌, ◌+◌, ◌^◌, ℕ, List, drop, length, slice_index_or, None};
ghost use Rattle.std.specs.List.{sum_by};
ghost use Rattle.heap_model.specs.Database.{entry_count_in};
ghost use Rattle.heap_model.specs.UniqueIds.{greatest_id};
ghost use Rattle.pdb_format.specs.Blocks.{places_in, length_within};
ghost use Rattle.pdb_format.specs.FileTexts.{data_at, header_text};
ghost use Rattle.pdb_format.specs.ReadFiles.{database_read};
ghost use Rattle.canonical_file.specs.Canonical.{most_bytes};

use crate::blocks::{block_length, block_offset};
use db_format::DATABASE_HEADER_SIZE;
use pdb_format::{FileBytes, PdbFile};

/// Returns the offset of the data of the entries: after the info blocks.
pub(crate) fn data_start<B: FileBytes>(file: &PdbFile<'_, B>) -> u32
    requires { length file.now ≤ most_bytes }
    ensures is { (ids : List ℕ) (seed : ℕ) → result ≡ data_at (database_read file.now ids seed) }
    ensures fits { result + sum_by length_within (drop 2 (places_in file.now)) < 2 ^ 32 }
{
    file.know_file();
    let app = file.block(0);
    let sort = file.block(1);
    file.first_place() + block_length(app) as u32 + block_length(sort) as u32
}

/// Returns the bytes of the header, with this seed.
pub(crate) fn header_bytes<B: FileBytes>(
    file: &PdbFile<'_, B>,
    seed: u32,
) -> [u8; DATABASE_HEADER_SIZE]
    requires size { length file.now ≤ most_bytes }
    requires seed { seed ≤ greatest_id }
    ensures { (ids : List ℕ) → result ≡ header_text (database_read file.now ids seed) }
{
    file.know_file();
    let app = file.block(0);
    let app_at = file.first_place();
    let sort_at = app_at + block_length(app) as u32;
    let mut header = file.header_with_seed(seed);
    header.app_info = block_offset(app_at, app);
    header.sort_info = block_offset(sort_at, file.block(1));
    header.to_bytes()
}
