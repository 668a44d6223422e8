//! Files that are rewritten in canonical form, but for some things that are kept.

ghost use Rattle.std.specs.Prelude.{◌≡◌, ◌≤◌, if◌then◌else◌, ℕ, List, IsFalse, IsTrue, Err, IfOk, IfErr, is_ok, length};
ghost use Rattle.std.specs.List.Sorted.{IsNonDecreasing, IsPermutation};
ghost use Rattle.heap_model.specs.Database.{database_in, header_in};
ghost use Rattle.heap_model.specs.Store.{unique_ids};
ghost use Rattle.heap_model.specs.UniqueIds.{seed_in};
ghost use Rattle.palm_text.specs.Counted.{Writes};
ghost use Rattle.canonical_file.specs.Canonical.{GetsIds};
ghost use Rattle.canonical_file.specs.Given.{AreGivenIn};
ghost use Rattle.canonical_file.specs.Written.{CanHaveIds, ids_of, seed_of};
ghost use Rattle.pdb_format.specs.Filler.{filler_in, written_filler};
ghost use Rattle.pdb_format.specs.ReadFiles.{database_read};
ghost use Rattle.file_parts.specs.ExactUnpacking.{IsUnpackedExact, exact_of};
ghost use Rattle.file_parts.specs.Keeping.{KeepsParts, kept_exact};
ghost use Rattle.file_parts.specs.Kept.{IsKeepFault, IsKeeping, IsKeptFile, bytes_kept, exact_keeping};

use crate::exact_unpacked::UnpackedExact;
use crate::exact_writing::{ExactSource, PlaceFault, Places, place_blocks, put_exact};
use crate::keep::Keep;
use crate::replaced::old_block;
use allowance::Allowance;
use canonical_file::{RecordIds, entry_with_id, seed_for};
use db_format::{DbEntry, DbHeader, NAME_SIZE};
use file_ids::GivenIds;
use palm_text::{Counted, WriteFault};
use pdb_format::{FILLER, PdbFile};
use std::io::Write;

/// A file, the order of its blocks, the IDs of its records, and its filler when it is rewritten.
#[derive(Drop)]
pub(crate) struct Keeping<'a> {
    file: PdbFile<'a>,
    ranks: Vec<u32>,
    ids: RecordIds<'a>,
    filler: &'a [u8],
}

/// A file that keeps some things, ready to be written.
#[derive(Drop)]
pub struct Kept<'a> {
    keeping: Keeping<'a>,
    places: Places,
}

impl ExactSource for Keeping<'_> {
    ghost exact = { exact_keeping };

    ghost is_good = { IsKeeping };

    fn ranks(&self) -> &[u32] {
        self.ranks.as_slice()
    }

    fn rank_count(&self) -> usize {
        self.file.rank_count()
    }

    fn block(&self, rank: usize) -> &[u8] {
        old_block(&self.file, rank)
    }

    fn first_offset(&self) -> u32 {
        (self.file.entries_end() + self.filler.len()) as u32
    }

    fn name_field(&self) -> [u8; NAME_SIZE] {
        self.file.header().name.to_bytes()
    }

    fn header(&self) -> DbHeader {
        self.file.header_with_seed(seed_for(&self.file, self.ids))
    }

    fn entry(&self, index: u16) -> DbEntry {
        entry_with_id(&self.file, self.ids, index, 0)
    }

    fn filler(&self) -> &[u8] {
        self.filler
    }
}

/// Lays a file out that keeps these things. Its records get these IDs, unless the IDs are kept. It
/// allocates the offsets of the blocks.
///
/// # Errors
///
/// - `TooLarge`: if the file would have more than `MOST_BYTES` bytes.
/// - `OutOfMemory`: if an allocation failed.
pub fn keep_parts<'a, A: Allowance>(
    memory: &A,
    unpacked: UnpackedExact<'a>,
    given: &'a GivenIds,
    keep: Keep,
) -> Result<Kept<'a>, PlaceFault>
    requires good { IsUnpackedExact unpacked }
    requires ids { GetsIds unpacked.file given.now }
    requires given { AreGivenIn unpacked.file given.now.ids.items given.now.seed }
    ensures done { IfOk result IsKeptFile }
    ensures keeps { IfOk result (λ kept. KeepsParts keep unpacked.entry.file (bytes_kept kept)) }
    ensures why { IfErr result (IsKeepFault keep unpacked.entry.file) }
    ensures short { result ≡ Err PlaceFault.OutOfMemory → A.is_short memory.now }
{
    unpacked.file.know_file();
    let keeping = keeping_of(unpacked, given, keep);
    match place_blocks(memory, &keeping) {
        Ok(places) => Ok(Kept { keeping, places }),
        Err(fault) => Err(fault),
    }
}

/// Returns the file that keeps these things.
fn keeping_of<'a>(unpacked: UnpackedExact<'a>, given: &'a GivenIds, keep: Keep) -> Keeping<'a>
    requires good { IsUnpackedExact unpacked }
    requires ids { GetsIds unpacked.file given.now }
    ensures good { IsKeeping result }
    ensures is { exact_keeping result ≡ kept_exact keep (exact_of unpacked.entry)
        (database_read unpacked.entry.file given.now.ids.items given.now.seed) }
{
    let UnpackedExact { file, ranks } = unpacked;
    file.know_file();
    let order = ranks_for(ranks, keep);
    let ids = ids_for(given, keep);
    let filler = filler_for(&file, keep);
    Keeping {
        file,
        ranks: order,
        ids,
        filler,
    }
}

/// Returns the ranks of the blocks in the order of a file that keeps these things. List order is the
/// order of the ranks.
fn ranks_for(ranks: Vec<u32>, keep: Keep) -> Vec<u32>
    ensures kept { IsTrue keep.order → result.items ≡ ranks.items }
    ensures all { IsPermutation ranks.items result.items }
    ensures sorted { IsFalse keep.order → IsNonDecreasing result.items }
{
    if keep.order {
        return ranks;
    }
    let mut listed = ranks;
    listed.sort_unstable();
    listed
}

/// Returns the IDs of the records of a file that keeps these things.
fn ids_for<'a>(given: &'a GivenIds, keep: Keep) -> RecordIds<'a>
    ensures can { (file : List ℕ) → GetsIds file given.now → CanHaveIds file result }
    ensures ids { (file : List ℕ) → ids_of file result
        ≡ (if keep.ids then unique_ids (database_in file) else given.now.ids.items) }
    ensures seed { (file : List ℕ) → seed_of file result
        ≡ (if keep.ids then seed_in (header_in file).seed else given.now.seed) }
{
    if keep.ids {
        RecordIds::Own
    } else {
        RecordIds::Given(given)
    }
}

/// Returns the filler of a file that keeps these things.
fn filler_for<'a>(file: &PdbFile<'a>, keep: Keep) -> &'a [u8]
    ensures { result.now ≡ (if keep.filler then filler_in file.now else written_filler) }
{
    if keep.filler { file.filler() } else { &FILLER }
}

impl<'a> Kept<'a> {
    /// Returns the size of the file in bytes.
    pub fn size(&self) -> usize
        requires { IsKeptFile self.now }
        ensures { result ≡ length (bytes_kept self.now) }
    {
        self.places.size as usize
    }

    /// Writes the file. It doesn't flush `out`, and allocates nothing. After a write fails, it
    /// writes nothing more.
    ///
    /// # Errors
    ///
    /// - `WriteFault`: if a write failed, or took 0 bytes.
    pub fn put<W: Write>(&self, out: &mut Counted<W>) -> Result<(), WriteFault>
        requires { IsKeptFile self.now }
        ensures { Writes W.contents out.old out.new (bytes_kept self.now) (is_ok result) }
    {
        put_exact(out, &self.keeping, self.places.offsets.as_slice())
    }
}
