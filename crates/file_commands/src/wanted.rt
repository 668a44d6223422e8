//! The block of a file that is asked for.

ghost use Rattle.std.specs.Prelude.{◌≡◌, ◌+◌, ◌<◌, ◌↔◌, IfOk, IfErr, IfSome, IfNone, IsTrue, option_map, true};
ghost use Rattle.heap_model.specs.Database.{resources_in, entry_count_in};
ghost use Rattle.heap_model.specs.ResourceSteps.{HasTypeAndId};
ghost use Rattle.db_format.specs.EitherEntry.{entry_of};
ghost use Rattle.file_parts.specs.Replacing.{has_block_of_rank};
ghost use Rattle.file_commands.specs.WantedBlocks.{FindsRank, HasNoResource, IsFirstResource, IsWantedBlock, LacksBlock, block_of_rank, info_rank};

use crate::block_words::WantedBlock;
use db_format::{DbEntry, INFO_BLOCKS};
use heap_model::{Refusal, Which};
use pdb_format::PdbFile;

/// Returns the bytes of the block that is asked for.
///
/// # Errors
///
/// The same as for `find_rank`.
#[tactic(auto, using(crate::proofs::ResourceData::wanted_has))]
pub fn find_block<'a>(file: &PdbFile<'a>, wanted: WantedBlock) -> Result<&'a [u8], Refusal>
    ensures block { IfOk result (λ bytes. IsWantedBlock file.now wanted bytes.now) }
    ensures lacks { IfErr result (LacksBlock file.now wanted) }
{
    match find_rank(file, wanted) {
        Ok(rank) => match bytes_at(file, rank) {
            Some(bytes) => Ok(bytes),
            None => unreachable!(),
        },
        Err(refusal) => Err(refusal),
    }
}

/// Returns the rank of the block that is asked for.
///
/// # Errors
///
/// - `NoInfoBlock`: if the file doesn't have the info block.
/// - `IndexOutOfRange`: if the file doesn't have that many entries.
/// - `RecordDeleted`: if the record has no data.
/// - `NotResourceDatabase`: if a resource is asked for, and the file has records.
/// - `ResourceNotFound`: if no resource has the type and the id.
pub(crate) fn find_rank(file: &PdbFile<'_>, wanted: WantedBlock) -> Result<usize, Refusal>
    ensures { FindsRank file.now wanted result }
{
    match wanted {
        WantedBlock::Info(which) => find_info(file, which),
        WantedBlock::Entry(index) => find_data(file, index),
        WantedBlock::Resource(kind, id) => find_resource(file, kind, id),
    }
}

/// Returns the rank of an info block that the file has.
fn find_info(file: &PdbFile<'_>, which: Which) -> Result<usize, Refusal>
    ensures { FindsRank file.now (WantedBlock.Info which) result }
{
    let rank = rank_of(which);
    match bytes_at(file, rank) {
        Some(_) => Ok(rank),
        None => Err(Refusal::NoInfoBlock),
    }
}

/// Returns the rank of an info block.
fn rank_of(which: Which) -> usize
    ensures is { result ≡ info_rank which }
    ensures most { result < 2 }
{
    match which {
        Which::App => 0,
        Which::Sort => 1,
    }
}

/// Returns the rank of the data of the entry at an index.
fn find_data(file: &PdbFile<'_>, index: u32) -> Result<usize, Refusal>
    ensures { FindsRank file.now (WantedBlock.Entry index) result }
{
    if index >= u32::from(file.entry_count()) {
        return Err(Refusal::IndexOutOfRange);
    }
    let rank = INFO_BLOCKS + index as usize;
    match bytes_at(file, rank) {
        Some(_) => Ok(rank),
        None => Err(Refusal::RecordDeleted),
    }
}

/// Returns the rank of the data of the first resource of a type and an id.
fn find_resource(file: &PdbFile<'_>, kind: u32, id: u16) -> Result<usize, Refusal>
    ensures { FindsRank file.now (WantedBlock.Resource kind id) result }
{
    if !file.has_resources() {
        return Err(Refusal::NotResourceDatabase);
    }
    match first_resource(file, kind, id) {
        Some(index) => Ok(rank_of_first(file, kind, id, index)),
        None => Err(Refusal::ResourceNotFound),
    }
}

/// Returns the index of the first resource of a type and an id.
fn first_resource(file: &PdbFile<'_>, kind: u32, id: u16) -> Option<u16>
    ensures is { IfSome result (IsFirstResource file.now kind id) }
    ensures none { IfNone result (HasNoResource file.now kind id) }
{
    for index in 0..file.entry_count() {
        if has_type_and_id(file.entry(index), kind, id) {
            return Some(index);
        }
    }
    None
}

/// Returns the rank of the data of the first resource of a type and an id, by its index. A resource
/// always has data.
fn rank_of_first(file: &PdbFile<'_>, kind: u32, id: u16, index: u16) -> usize
    requires { IsFirstResource file.now kind id index }
    ensures is { result ≡ 2 + index }
    ensures there { has_block_of_rank file.now result ≡ true }
{
    file.know_file();
    INFO_BLOCKS + index as usize
}

/// Returns whether an entry is a resource of a type and an id.
fn has_type_and_id(entry: DbEntry, kind: u32, id: u16) -> bool
    ensures { IsTrue result ↔ HasTypeAndId kind id (entry_of entry) }
{
    match entry {
        DbEntry::Record(_) => false,
        DbEntry::Resource(resource) => resource.kind == kind && resource.id == id,
    }
}

/// Returns the bytes of the block of a rank, if the file has the block.
fn bytes_at<'a>(file: &PdbFile<'a>, rank: usize) -> Option<&'a [u8]>
    requires { rank < 2 + entry_count_in file.now }
    ensures { option_map (λ bytes. bytes.now) result ≡ block_of_rank file.now rank }
{
    match file.block(rank) {
        Some(block) => Some(file.bytes_of(block)),
        None => None,
    }
}
