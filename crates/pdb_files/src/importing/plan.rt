//! The plan for the database of a file, before any of it is made.

ghost use Rattle.std.specs.Prelude.{◌≡◌, ◌<◌, ◌≤◌, ◌+◌, ◌^◌, ◌↔◌, None, IsTrue, length, IfOk, OnErr, All, slice_index_or};
ghost use Rattle.heap_model.specs.Database.{entry_count_in, IsDatabaseName};
ghost use Rattle.heap_model.specs.EntrySteps.{most_entries};
ghost use Rattle.heap_model.specs.UniqueIds.{greatest_id};
ghost use Rattle.heap_model.specs.Files.{blocks_in};
ghost use Rattle.heap_model.specs.FileSteps.{size_of_block};
ghost use Rattle.pdb_format.specs.Blocks.{IsBlockWithin};
ghost use Rattle.pdb_format.specs.Opened.{HasPlaces};
ghost use Rattle.palm_store.specs.WholeDatabases.{header_asked};
ghost use Rattle.pdb_format.specs.Blocks.{size_within};
ghost use Rattle.pdb_format.specs.ReadFiles.{header_read, HasIdsFor};
ghost use Rattle.pdb_files.specs.Plans.{IsShort, IsPlannedOf, ArePlannedOf, IsPlan};

use allowance::{Allowance, push};
use db_format::{DbEntry, INFO_BLOCKS, ResourceEntry};
use file_ids::give_ids;
use heap_model::DbInfo;
use palm_store::{BlockSizes, EntryInfo};
use pdb_format::{Block, PdbFile, idle_attributes};
use std::alloc::AllocError;

/// The plan for the database of a file: the header, the sizes of the info blocks, and the entries
/// with the sizes of their data.
#[derive(Drop)]
pub(super) struct Plan {
    pub(super) info: DbInfo,
    pub(super) sizes: BlockSizes,
    pub(super) entries: Vec<(EntryInfo, Option<u32>)>,
}

/// Reads the plan for the database of a file with blocks at these places. The only error is a
/// failed allocation.
pub(super) fn read_plan<A: Allowance>(
    memory: &A,
    file: &PdbFile<'_>,
    blocks: &[Option<Block>],
) -> Result<Plan, AllocError>
    requires places { HasPlaces file.now blocks.now }
    requires size { length file.now < 2 ^ 63 }
    requires short { All IsShort blocks.now }
    ensures plan { IfOk result (IsPlan file.now) }
    ensures short { OnErr result (A.is_short memory.now) }
{
    let given = give_ids(memory, file)?;
    let entries = plan_entries(memory, file, blocks, &given.ids)?;
    Ok(Plan {
        info: header_of(file, given.seed),
        sizes: sizes_of(blocks),
        entries,
    })
}

/// Whether a block is absent or has less than 4 GiB.
fn is_short(block: Option<Block>) -> bool
    requires { IsBlockWithin usize.MAX block }
    ensures { IsTrue result ↔ IsShort block }
{
    match block {
        Some(block) => block.end - block.start <= u32::MAX as usize,
        None => true,
    }
}

/// Whether each of these blocks is absent or has less than 4 GiB. No heap has room for more.
pub(super) fn are_short(blocks: &[Option<Block>]) -> bool
    requires { All (IsBlockWithin usize.MAX) blocks.now }
    ensures { IsTrue result ↔ All IsShort blocks.now }
{
    for index in 0..blocks.len() {
        if !is_short(blocks[index]) {
            return false;
        }
    }
    true
}

/// Returns the header of a file's database, with `seed` as the low 24 bits of its seed field.
fn header_of(file: &PdbFile<'_>, seed: u32) -> DbInfo
    requires { seed ≤ greatest_id }
    ensures header { header_asked result ≡ header_read file.now seed }
    ensures entry_count { result.entry_count ≡ entry_count_in file.now }
    ensures few { result.entry_count ≤ most_entries }
    ensures name { IsDatabaseName result.name }
{
    file.header_with_seed(seed).info()
}

/// Returns how many bytes a block has, if there is one.
fn size_of(block: Option<Block>) -> Option<u32>
    requires within { IsBlockWithin usize.MAX block }
    requires short { IsShort block }
    ensures { result ≡ size_within block }
{
    match block {
        Some(block) => Some((block.end - block.start) as u32),
        None => None,
    }
}

/// Returns how many bytes the info blocks have. They are the first of these blocks.
fn sizes_of(blocks: &[Option<Block>]) -> BlockSizes
    requires within { All (IsBlockWithin usize.MAX) blocks.now }
    requires short { All IsShort blocks.now }
    requires inside { 2 ≤ length blocks.now }
    ensures app_info { result.app_info ≡ size_within (slice_index_or blocks.now 0 None) }
    ensures sort_info { result.sort_info ≡ size_within (slice_index_or blocks.now 1 None) }
{
    BlockSizes {
        app_info: size_of(blocks[0]),
        sort_info: size_of(blocks[1]),
    }
}

/// Plans an entry of a file. A record gets its ID from `ids`, and its data has this size.
fn plan_entry(
    file: &PdbFile<'_>,
    index: u16,
    ids: &[u32],
    size: Option<u32>,
) -> (EntryInfo, Option<u32>)
    requires inside { index < entry_count_in file.now }
    requires ids { HasIdsFor file.now ids.now }
    requires size { size ≡ size_of_block (slice_index_or (blocks_in file.now) (2 + index) None) }
    ensures { IsPlannedOf file.now ids.now index result }
{
    file.know_file();
    match file.entry(index) {
        DbEntry::Record(record) => {
            let attributes = idle_attributes(record.attributes).0;
            let id = ids[index as usize];
            (EntryInfo::Record { attributes, id }, size)
        }
        DbEntry::Resource(resource) => {
            let ResourceEntry { kind, id, .. } = resource;
            (EntryInfo::Resource { kind, id }, size)
        }
    }
}

/// Plans the entries of a file, in their order.
fn plan_entries<A: Allowance>(
    memory: &A,
    file: &PdbFile<'_>,
    blocks: &[Option<Block>],
    ids: &[u32],
) -> Result<Vec<(EntryInfo, Option<u32>)>, AllocError>
    requires places { HasPlaces file.now blocks.now }
    requires size { length file.now < 2 ^ 63 }
    requires short { All IsShort blocks.now }
    requires ids { HasIdsFor file.now ids.now }
    ensures planned { IfOk result (λ entries.
        ArePlannedOf file.now ids.now entries.items (entry_count_in file.now)) }
    ensures short { OnErr result (A.is_short memory.now) }
{
    let mut entries = Vec::new(memory.allocator());
    for index in 0..file.entry_count() {
        let size = size_of(blocks[INFO_BLOCKS + index as usize]);
        push(memory, &mut entries, plan_entry(file, index, ids, size))?;
    }
    Ok(entries)
}
