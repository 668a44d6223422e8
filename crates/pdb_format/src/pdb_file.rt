//! Files that are opened.

ghost use Rattle.std.specs.Prelude.{◌≡◌, ◌≤◌, ◌<◌, ◌+◌, false, Err, Some, None, ◌^◌, ◌↔◌, IsTrue, IfOk, OnOk, IfErr, OnErr, length, take, option_map, slice_index, slice_index_or, slice_range};
ghost use Rattle.heap_model.specs.Bytes.{AreBytes};
ghost use Rattle.heap_model.specs.UniqueIds.{greatest_id, seed_in};
ghost use Rattle.heap_model.specs.Database.{IsDatabaseName, HasName, name_in, database_in, header_in, resources_in, entry_count_in, entry_in, entry_with};
ghost use Rattle.heap_model.specs.Store.{unique_id};
ghost use Rattle.heap_model.specs.Files as files;
ghost use Rattle.heap_model.specs.Files.{HasNoFault, blocks_in, offsets_in};
ghost use Rattle.db_format.specs.EitherEntry.{entry_of, is_resource, HasFittingId};
ghost use Rattle.db_format.specs.Headers.{IsHeaderOf, header_values};
ghost use Rattle.pdb_format.specs.Blocks.{bytes_at, places_in, IsBlockWithin};
ghost use Rattle.pdb_format.specs.FileStarts.{most_app};
ghost use Rattle.pdb_format.specs.Filler as fillers;
ghost use Rattle.pdb_format.specs.ReadFiles.{HasIdsFor, entry_read_at, header_read};
ghost use Rattle.pdb_format.specs.Opened.{HasPlaces};
ghost use Rattle.pdb_format.specs.OpenFaults.{IsOpenFault};

use crate::blocks::{Block, find_blocks};
use crate::faults::check_bytes;
use crate::file_bytes::FileBytes;
use crate::filler::{filler_of, filler_size, first_place_after, has_filler};
use crate::heads;
use crate::written::{idle_entry_at, with_seed};
use allowance::Allowance;
use db_format::{DbEntry, DbHeader, GREATEST_ID, INFO_BLOCKS};
use heap_model::FileFault;
use std::alloc::AllocError;
use std::marker::{Model, PhantomData};

/// The greatest size of a file in bytes. Its offsets are numbers of 32 bits.
pub const MOST_FILE_BYTES: usize = 4_294_967_295;

/// The reason why a file was not opened.
#[derive(Clone, Copy)]
pub enum OpenFault {
    /// The file has this first fault.
    BadFile(FileFault),
    /// An allocation failed.
    OutOfMemory,
}

/// A PDB or PRC file without fault, with the places of its blocks. `PdbFile<'a>` borrows all bytes
/// of the file. Others have what `FileBytes` gives. Contracts see all bytes of the file.
///
/// The rank of a block is 0 for the AppInfo block, 1 for the SortInfo block, and 2 more than its
/// index for the data of an entry.
#[derive(Drop)]
pub struct PdbFile<'a, B: FileBytes = &'a [u8]> {
    bytes: B,
    blocks: Vec<Option<Block>>,
    borrowed: PhantomData<&'a [u8]>,
}

impl<'a, B: FileBytes> Model for PdbFile<'a, B> {
    ghost use Rattle.std.specs.Prelude.{ℕ, List};
    ghost use Rattle.pdb_format.specs.Opened.{HasPlaces};

    ghost Value = { List ℕ };

    ghost view = { λ file. B.bytes file.bytes };

    ghost invariant = { λ file. HasPlaces (B.bytes file.bytes) file.blocks.items };
}

impl<'a> PdbFile<'a> {
    /// The same as `open_bytes`, for all bytes of a file.
    ///
    /// # Errors
    ///
    /// The same as those of `open_bytes`.
    pub fn open<A: Allowance>(memory: &A, bytes: &'a [u8]) -> Result<PdbFile<'a>, OpenFault>
        ensures opened { IfOk result (λ file. file ≡ bytes.now) }
        ensures good { OnOk result (HasNoFault bytes.now) }
        ensures why { IfErr result (IsOpenFault bytes.now) }
        ensures short { result ≡ Err OpenFault.OutOfMemory → A.is_short memory.now }
    {
        PdbFile::open_bytes(memory, bytes)
    }

    /// Finds the places of the blocks of a file that is known to have no fault.
    ///
    /// # Errors
    ///
    /// - `AllocError`: if `memory` refused a grant, or an allocation failed.
    pub fn of<A: Allowance>(memory: &A, bytes: &'a [u8]) -> Result<PdbFile<'a>, AllocError>
        requires { HasNoFault bytes.now }
        ensures opened { IfOk result (λ file. file ≡ bytes.now) }
        ensures short { OnErr result (A.is_short memory.now) }
    {
        PdbFile::of_bytes(memory, bytes)
    }

    /// Returns the bytes of the file.
    pub fn bytes(&self) -> &'a [u8]
        ensures bytes { result.now ≡ self.now }
        ensures good { HasNoFault self.now }
        ensures numbers { AreBytes self.now }
    {
        know_bytes(&self.bytes);
        self.bytes
    }

    /// Returns the name.
    pub fn name(&self) -> &'a [u8]
        ensures is { result.now ≡ name_in self.now }
        ensures valid { IsDatabaseName (name_in self.now) }
    {
        db_format::name_in(self.bytes)
    }

    /// Returns the bytes between the entries and the first block, or up to the end of the file if
    /// there is none.
    pub fn filler(&self) -> &'a [u8]
        ensures { result.now ≡ fillers.filler_in self.now }
    {
        filler_of(self.bytes)
    }

    /// Returns the bytes at a place in the file.
    pub fn bytes_of(&self, block: Block) -> &'a [u8]
        requires { IsBlockWithin (length self.now) (Some block) }
        ensures { result.now ≡ slice_range self.now block.start block.end }
    {
        &self.bytes[block.start..block.end]
    }
}

impl<'a, B: FileBytes> PdbFile<'a, B> {
    /// Checks a file, and finds the places of its blocks. It sorts the offsets once.
    ///
    /// # Errors
    ///
    /// - `BadFile`: if the file has a fault. It contains the first one, as `check_bytes` has it.
    /// - `OutOfMemory`: if `memory` refused a grant, or an allocation failed.
    pub fn open_bytes<A: Allowance>(memory: &A, bytes: B) -> Result<PdbFile<'a, B>, OpenFault>
        ensures opened { IfOk result (λ file. file ≡ B.bytes bytes) }
        ensures good { OnOk result (HasNoFault (B.bytes bytes)) }
        ensures why { IfErr result (IsOpenFault (B.bytes bytes)) }
        ensures short { result ≡ Err OpenFault.OutOfMemory → A.is_short memory.now }
    {
        if let Err(fault) = check_bytes(&bytes) {
            return Err(OpenFault::BadFile(fault));
        }
        match PdbFile::of_bytes(memory, bytes) {
            Ok(file) => Ok(file),
            Err(_) => Err(OpenFault::OutOfMemory),
        }
    }

    /// Finds the places of the blocks of a file that is known to have no fault.
    ///
    /// # Errors
    ///
    /// - `AllocError`: if `memory` refused a grant, or an allocation failed.
    pub fn of_bytes<A: Allowance>(memory: &A, bytes: B) -> Result<PdbFile<'a, B>, AllocError>
        requires { HasNoFault (B.bytes bytes) }
        ensures opened { IfOk result (λ file. file ≡ B.bytes bytes) }
        ensures short { OnErr result (A.is_short memory.now) }
    {
        match find_blocks(memory, &bytes) {
            Ok(blocks) => Ok(PdbFile {
                bytes,
                blocks,
                borrowed: PhantomData,
            }),
            Err(fault) => Err(fault),
        }
    }

    /// Proves what holds of each file that is opened: it has no fault, its numbers are bytes, and its
    /// blocks are at their places.
    pub fn know_file(&self)
        ensures good { HasNoFault self.now }
        ensures numbers { AreBytes self.now }
        ensures places { HasPlaces self.now (places_in self.now) }
    {
        know_bytes(&self.bytes);
        let _blocks = self.blocks();
    }

    /// Returns whether only zeros follow the name in its field.
    pub fn has_name(&self) -> bool
        ensures { IsTrue result ↔ HasName self.now }
    {
        heads::has_name(&self.bytes)
    }

    /// Returns the header.
    pub fn header(&self) -> DbHeader
        ensures is { IsHeaderOf (database_in self.now) result }
        ensures values { header_values result ≡ header_in self.now }
    {
        heads::header(&self.bytes)
    }

    /// Returns the header as it is read, with this seed in the low 24 bits of its field.
    pub fn header_with_seed(&self, seed: u32) -> DbHeader
        requires { seed ≤ greatest_id }
        ensures values { header_values result ≡ header_read self.now seed }
        ensures entry_count { result.entry_count ≡ entry_count_in self.now }
        ensures name { IsDatabaseName result.name }
    {
        let mut header = heads::header(&self.bytes);
        header.seed = with_seed(header.seed, seed);
        header
    }

    /// Returns the seed of the unique IDs: the low 24 bits of its field.
    pub fn seed(&self) -> u32
        ensures is { result ≡ seed_in (header_in self.now).seed }
        ensures most { result ≤ greatest_id }
    {
        heads::seed(&self.bytes) & GREATEST_ID
    }

    /// Returns whether the entries are resources. Otherwise they are records.
    pub fn has_resources(&self) -> bool
        ensures { result ≡ resources_in self.now }
    {
        heads::has_resources(&self.bytes)
    }

    /// Returns the number of entries.
    pub fn entry_count(&self) -> u16
        ensures { result ≡ entry_count_in self.now }
    {
        heads::entry_count(&self.bytes)
    }

    /// Returns the entry at an index.
    pub fn entry(&self, index: u16) -> DbEntry
        requires { index < entry_count_in self.now }
        ensures is { entry_of result ≡ entry_in self.now index }
        ensures kind { is_resource result ≡ resources_in self.now }
        ensures id { HasFittingId result }
    {
        heads::entry_at(&self.bytes, index)
    }

    /// Returns the unique ID of the record at an index.
    pub fn record_id(&self, index: u16) -> u32
        requires inside { index < entry_count_in self.now }
        requires records { resources_in self.now ≡ false }
        ensures is { Some result ≡ unique_id (entry_in self.now index) }
        ensures most { result ≤ greatest_id }
    {
        heads::record_id(&self.bytes, index)
    }

    /// Returns the entry at an index as it is written: it isn't busy, a record has its ID of `ids`,
    /// and the data is at the offset `at`.
    pub fn written_entry(&self, index: u16, ids: &[u32], at: u32) -> DbEntry
        requires inside { index < entry_count_in self.now }
        requires ids { HasIdsFor self.now ids.now }
        ensures is { entry_of result
            ≡ entry_with (λ _. at) (entry_read_at self.now ids.now index) }
        ensures kind { is_resource result ≡ resources_in self.now }
        ensures id { HasFittingId result }
    {
        match idle_entry_at(self.entry(index), at) {
            DbEntry::Record(mut record) => {
                record.id = ids[index as usize];
                DbEntry::Record(record)
            }
            DbEntry::Resource(resource) => DbEntry::Resource(resource),
        }
    }

    /// Returns the offset at which the entries end.
    pub fn entries_end(&self) -> usize
        ensures is { result ≡ files.entries_end self.now }
        ensures inside { result ≤ length self.now }
    {
        heads::entries_end(&self.bytes)
    }

    /// Returns the offset of the first block when the file is written again.
    pub fn first_place(&self) -> u32
        ensures is { result ≡ fillers.first_place self.now }
        ensures most { result ≤ length self.now + 2 }
    {
        self.know_file();
        first_place_after(self.has_resources(), self.entry_count())
    }

    /// Returns the number of ranks: two for the info blocks, and one for each entry.
    pub fn rank_count(&self) -> usize
        ensures is { result ≡ 2 + entry_count_in self.now }
        ensures blocks { result ≡ length (blocks_in self.now) }
        ensures offsets { result ≡ length (offsets_in self.now) }
        ensures most { result ≤ 65537 }
    {
        INFO_BLOCKS + self.entry_count() as usize
    }

    /// Returns the offset of the block of a rank, or 0 if the file doesn't have the block.
    pub fn offset(&self, rank: usize) -> usize
        requires { rank < 2 + entry_count_in self.now }
        ensures is { result ≡ slice_index (offsets_in self.now) rank }
        ensures inside { result ≤ length self.now }
    {
        match self.block(rank) {
            Some(block) => block.start,
            None => 0,
        }
    }

    /// Returns the places of the blocks by their rank.
    pub fn blocks(&self) -> &[Option<Block>]
        ensures places { HasPlaces self.now result.now }
        ensures size { length self.now < 2 ^ 63 }
    {
        let _size = self.bytes.size();
        &self.blocks
    }

    /// Returns the place of the block of a rank, if the file has the block.
    pub fn block(&self, rank: usize) -> Option<Block>
        requires { rank < 2 + entry_count_in self.now }
        ensures place { result ≡ slice_index_or (places_in self.now) rank None }
        ensures is { bytes_at self.now result ≡ slice_index_or (blocks_in self.now) rank None }
        ensures within { IsBlockWithin (length self.now) result }
    {
        let blocks = self.blocks();
        blocks[rank]
    }

    /// Returns the size of the file in bytes.
    pub fn size(&self) -> usize
        ensures { result ≡ length self.now }
    {
        self.bytes.size()
    }

    /// Returns the number of bytes between the entries and the first block, or up to the end of the
    /// file if there is none.
    pub fn filler_size(&self) -> usize
        ensures { result ≡ length (fillers.filler_in self.now) }
    {
        filler_size(&self.bytes)
    }

    /// Returns whether the bytes between the entries and the first block are those of `FILLER`.
    pub fn has_filler(&self) -> bool
        ensures { IsTrue result ↔ (fillers.filler_in self.now ≡ fillers.written_filler) }
    {
        has_filler(&self.bytes)
    }

    /// Returns the first bytes of the AppInfo block, at most `MOST_APP`, if the file has the block.
    pub fn app(&self) -> Option<&[u8]>
        ensures { option_map (λ app. app.now) result
            ≡ option_map (take most_app) (slice_index_or (blocks_in self.now) 0 None) }
    {
        match self.block(0) {
            Some(block) => Some(front(self.bytes.app(), block.end - block.start)),
            None => None,
        }
    }
}

/// Returns the first `count` bytes, or all if there are fewer.
fn front(bytes: &[u8], count: usize) -> &[u8]
    ensures { result.now ≡ take count bytes.now }
{
    &bytes[..bytes.len().min(count)]
}

/// Proves that the numbers of a file are bytes.
fn know_bytes<B: FileBytes>(file: &B)
    ensures { AreBytes (B.bytes file.now) }
{
    let _start = file.start();
}
