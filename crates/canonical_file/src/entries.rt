//! The entries of a canonical form.

ghost use Rattle.std.specs.Prelude.{◌≡◌, ◌≤◌, ◌<◌, ◌+◌, ◌++◌, ◌^◌, drop, length, vec_len, vec_capacity, slice_index_or, None};
ghost use Rattle.std.specs.List.{sum_by};
ghost use Rattle.heap_model.specs.Database.{entry_count_in};
ghost use Rattle.heap_model.specs.Files.{blocks_in};
ghost use Rattle.db_format.specs.EitherEntry.{entry_of, HasFittingId};
ghost use Rattle.pdb_format.specs.Blocks.{bytes_at, length_within, places_in};
ghost use Rattle.pdb_format.specs.FileTexts.{entries_text};
ghost use Rattle.pdb_format.specs.ReadFiles.{entries_read, entry_read_at};
ghost use Rattle.canonical_file.specs.Canonical.{placed_entry};
ghost use Rattle.canonical_file.specs.Written.{CanHaveIds, ids_of};

use crate::blocks::{append, block_length, block_offset};
use crate::record_ids::{RecordIds, entry_with_id};
use db_format::{DbEntry, INFO_BLOCKS};
use pdb_format::{Block, FileBytes, PdbFile};

/// Returns the entry at an index, with its data at an offset. A record gets its ID from `ids`.
fn entry_at<B: FileBytes>(
    file: &PdbFile<'_, B>,
    ids: RecordIds<'_>,
    index: u16,
    at: u32,
    block: Option<Block>,
) -> DbEntry
    requires inside { index < entry_count_in file.now }
    requires ids { CanHaveIds file.now ids }
    requires block { bytes_at file.now block
        ≡ slice_index_or (blocks_in file.now) (2 + index) None }
    ensures is { entry_of result
        ≡ placed_entry at (entry_read_at file.now (ids_of file.now ids.entry) index) }
    ensures id { HasFittingId result }
{
    entry_with_id(file, ids, index, block_offset(at, block))
}

/// Appends the entries to a vector that has room for them. Their data begins at the offset `first`.
pub(crate) fn append_entries<B: FileBytes>(
    file: &PdbFile<'_, B>,
    ids: RecordIds<'_>,
    first: u32,
    bytes: &mut Vec<u8>,
)
    requires ids { CanHaveIds file.now ids }
    requires fits { first + sum_by length_within (drop 2 (places_in file.now)) < 2 ^ 32 }
    requires room { vec_len bytes.old
        + length (entries_text first (entries_read file.now (ids_of file.now ids)))
        ≤ vec_capacity bytes.old }
    ensures items { bytes.new.items ≡ bytes.old.items
        ++ entries_text first (entries_read file.now (ids_of file.now ids.entry)) }
    ensures len { vec_len bytes.new ≡ vec_len bytes.old
        + length (entries_text first (entries_read file.now (ids_of file.now ids.entry))) }
    ensures capacity { vec_capacity bytes.old ≤ vec_capacity bytes.new }
{
    let blocks = file.blocks();
    let mut at = first;
    for index in 0..file.entry_count() {
        let block = blocks[INFO_BLOCKS + index as usize];
        append(
            bytes,
            entry_at(file, ids, index, at, block).to_bytes().as_slice(),
        );
        at += block_length(block) as u32;
    }
}
