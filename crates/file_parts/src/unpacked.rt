//! Files that are taken apart.

ghost use Rattle.std.specs.Prelude.{◌≡◌, ◌≤◌, ◌<◌, length, slice_index_or, Err, None, IfOk, IfErr, OnOk, MatchOption};
ghost use Rattle.heap_model.specs.Files.{HasNoFault, Reads, blocks_in};
ghost use Rattle.file_parts.specs.Laws.{PacksBack};
ghost use Rattle.canonical_file.specs.Canonical.{most_bytes};
ghost use Rattle.file_parts.specs.Unpacking as unpacking;
ghost use Rattle.file_parts.specs.Unpacking.{IsUnpackFault, IsPartOfRank, IsUnpacked, database_of};

use allowance::Allowance;
use db_format::INFO_BLOCKS;
use file_ids::{GivenIds, give_ids};
use heap_model::FileFault;
use pdb_format::{OpenFault, PdbFile};
use thiserror::Error;

/// The reason why a file was not taken apart.
#[derive(Clone, Copy, Debug, PartialEq, Eq, Error)]
pub enum UnpackFault {
    /// The file has this first fault.
    #[error("{0}")]
    BadFile(FileFault),
    /// An allocation failed.
    #[error("OutOfMemory")]
    OutOfMemory,
}

/// A file with the places of its blocks, and the IDs that its records get.
#[derive(Drop)]
pub struct Unpacked<'a> {
    pub(crate) file: PdbFile<'a>,
    pub(crate) given: GivenIds,
}

/// The name of a part.
#[derive(Clone, Copy, Debug, PartialEq, Eq)]
pub enum PartName {
    /// The part of the AppInfo block: `app`.
    App,
    /// The part of the SortInfo block: `sort`.
    Sort,
    /// The part of the data of an entry: its index in five digits.
    Entry(usize),
    /// The part of the bytes before the first block, in an exact folder: `filler`.
    Filler,
}

/// A part: its name, and its bytes in the file.
#[derive(Clone, Copy)]
pub struct Part<'a> {
    pub name: PartName,
    pub bytes: &'a [u8],
}

/// Takes a file apart. It allocates the places of the blocks and the IDs of the records.
///
/// # Errors
///
/// - `BadFile`: if the file has a fault. It contains the first one.
/// - `OutOfMemory`: if an allocation failed.
pub fn unpack<'a, A: Allowance>(memory: &A, file: &'a [u8]) -> Result<Unpacked<'a>, UnpackFault>
    requires { length file.now ≤ most_bytes }
    ensures same { IfOk result (λ unpacked. unpacked.file ≡ file.now) }
    ensures done { IfOk result IsUnpacked }
    ensures reads { IfOk result (λ unpacked. Reads unpacked.file (database_of unpacked)) }
    ensures packs { IfOk result (λ unpacked. PacksBack (database_of unpacked)) }
    ensures why { IfErr result (IsUnpackFault file.now) }
    ensures short { result ≡ Err UnpackFault.OutOfMemory → A.is_short memory.now }
{
    match open_file(memory, file) {
        Ok(file) => taken_apart(memory, file),
        Err(fault) => Err(fault),
    }
}

/// Opens a file that is taken apart.
pub(crate) fn open_file<'a, A: Allowance>(
    memory: &A,
    file: &'a [u8],
) -> Result<PdbFile<'a>, UnpackFault>
    ensures same { IfOk result (λ opened. opened ≡ file.now) }
    ensures good { OnOk result (HasNoFault file.now) }
    ensures why { IfErr result (IsUnpackFault file.now) }
    ensures short { result ≡ Err UnpackFault.OutOfMemory → A.is_short memory.now }
{
    match PdbFile::open(memory, file) {
        Ok(file) => Ok(file),
        Err(OpenFault::BadFile(fault)) => Err(UnpackFault::BadFile(fault)),
        Err(OpenFault::OutOfMemory) => Err(UnpackFault::OutOfMemory),
    }
}

/// Takes a file that is opened apart.
fn taken_apart<'a, A: Allowance>(memory: &A, file: PdbFile<'a>) -> Result<Unpacked<'a>, UnpackFault>
    requires { length file ≤ most_bytes }
    ensures same { IfOk result (λ unpacked. unpacked.file ≡ file.entry) }
    ensures done { IfOk result IsUnpacked }
    ensures reads { IfOk result (λ unpacked. Reads unpacked.file (database_of unpacked)) }
    ensures packs { IfOk result (λ unpacked. PacksBack (database_of unpacked)) }
    ensures memory { IfErr result (λ fault. fault ≡ UnpackFault.OutOfMemory) }
    ensures short { IfErr result (λ _. A.is_short memory.now) }
{
    file.know_file();
    match give_ids(memory, &file) {
        Ok(given) => Ok(Unpacked { file, given }),
        Err(_) => Err(UnpackFault::OutOfMemory),
    }
}

impl<'a> Unpacked<'a> {
    /// Returns the number of ranks: two for the info blocks, and one for each entry.
    pub fn rank_count(&self) -> usize
        ensures is { result ≡ length (blocks_in self.now.file) }
        ensures most { result ≤ 65537 }
    {
        self.file.rank_count()
    }

    /// Returns the part of a rank, or `None` if there is no block. The rank is 0 for the AppInfo
    /// block, 1 for the SortInfo block, and 2 more than its index for the data of an entry.
    pub fn part(&self, rank: usize) -> Option<Part<'a>>
        requires { rank < length (blocks_in self.now.file) }
        ensures { MatchOption result (slice_index_or (blocks_in self.now.file) rank None ≡ None)
            (IsPartOfRank self.now.file rank) }
    {
        part_of(&self.file, rank)
    }
}

/// Returns the part of a rank.
pub(crate) fn part_of<'a>(file: &PdbFile<'a>, rank: usize) -> Option<Part<'a>>
    requires { rank < length (blocks_in file.now) }
    ensures { MatchOption result (slice_index_or (blocks_in file.now) rank None ≡ None)
        (IsPartOfRank file.now rank) }
{
    match file.block(rank) {
        Some(block) => Some(Part {
            name: name_of(rank),
            bytes: file.bytes_of(block),
        }),
        None => None,
    }
}

/// Returns the name of the part of a rank.
fn name_of(rank: usize) -> PartName
    ensures { unpacking.name_text result ≡ unpacking.name_at rank }
{
    match rank {
        0 => PartName::App,
        1 => PartName::Sort,
        _ => PartName::Entry(rank - INFO_BLOCKS),
    }
}
