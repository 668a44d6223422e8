//! The canonical form of a file, as bytes and on a writer.

ghost use Rattle.std.specs.Prelude.{◌≡◌, ◌≢◌, ◌≤◌, ◌+◌, ◌++◌, ℕ, List, [], length, false, Err, IfOk, IfErr, OnErr, is_ok, vec_len, vec_capacity};
ghost use Rattle.std.specs.List.{flat_map};
ghost use Rattle.heap_model.specs.Files.{block_bytes, blocks_in, file_of};
ghost use Rattle.palm_text.specs.Counted.{Writes};
ghost use Rattle.pdb_format.specs.Filler.{first_place};
ghost use Rattle.pdb_format.specs.ReadFiles.{database_read};
ghost use Rattle.canonical_file.specs.Canonical.{GetsIds, HasBlocksOf, IsCanonical, IsCanonicalFault, WritesCanonical, WritesOne, WroteCanonical, WroteOne, most_bytes};
ghost use Rattle.canonical_file.specs.Written.{CanHaveIds, IsWrittenBy, ids_of, seed_of};

use crate::blocks::{append, append_blocks, put_blocks, total_length};
use crate::entries::append_entries;
use crate::header::{data_start, header_bytes};
use crate::record_ids::{RecordIds, seed_for};
use allowance::{Allowance, room_for};
use file_ids::{GivenIds, give_ids};
use heap_model::FileFault;
use palm_text::{Counted, WriteFault, put_all};
use pdb_format::{FILLER, FileBytes, MOST_FILE_BYTES, PdbFile};
use std::alloc::AllocError;
use std::io::Write;
use thiserror::Error;

/// The greatest size in bytes of a file that is rewritten. Its canonical form can be two bytes longer.
pub const MOST_BYTES: usize = MOST_FILE_BYTES - 2;

/// The reason why no canonical form was written.
#[derive(Clone, Copy, Debug, PartialEq, Eq, Error)]
pub enum CanonicalFault {
    /// The file has this first fault, so no database is read from it.
    #[error("{0}")]
    BadFile(FileFault),
    /// An allocation failed.
    #[error("OutOfMemory")]
    OutOfMemory,
    /// A write failed, or took 0 bytes.
    #[error("a write failed")]
    Write,
}

/// Returns the size of the canonical form of a file in bytes.
fn file_size<B: FileBytes>(file: &PdbFile<'_, B>) -> usize
    requires { length file.now ≤ most_bytes }
    ensures { (ids : List ℕ) (seed : ℕ)
        → result ≡ length (file_of (database_read file.now ids seed)) }
{
    file.first_place() as usize + total_length(file.blocks())
}

/// Writes the part of a new file before its blocks into an empty vector that has room for it.
fn append_head<B: FileBytes>(file: &PdbFile<'_, B>, ids: RecordIds<'_>, bytes: &mut Vec<u8>)
    requires size { length file.now ≤ most_bytes }
    requires ids { CanHaveIds file.now ids }
    requires empty { bytes.old.items ≡ [] }
    requires none { vec_len bytes.old ≡ 0 }
    requires room { first_place file.now ≤ vec_capacity bytes.old }
    ensures items { bytes.new.items ++ flat_map block_bytes (blocks_in file.now)
        ≡ file_of (database_read file.now (ids_of file.now ids.entry) (seed_of file.now ids.entry)) }
    ensures len { vec_len bytes.new ≡ first_place file.now }
    ensures capacity { vec_capacity bytes.old ≤ vec_capacity bytes.new }
{
    file.know_file();
    append(bytes, &header_bytes(file, seed_for(file, ids)));
    append_entries(file, ids, data_start(file), bytes);
    append(bytes, &FILLER);
}

/// Returns the canonical form of a file.
///
/// It allocates the canonical form, a set of IDs, and the IDs of the records (see `file_ids`).
///
/// # Errors
///
/// - `AllocError`: if an allocation failed.
pub fn canonical_bytes<A: Allowance>(memory: &A, file: &PdbFile<'_>) -> Result<Vec<u8>, AllocError>
    requires { length file.now ≤ most_bytes }
    ensures canonical { IfOk result (λ bytes. IsCanonical file.now bytes.items) }
    ensures short { OnErr result (A.is_short memory.now) }
{
    file.know_file();
    let given = give_ids(memory, file)?;
    let mut bytes = room_for(memory, file_size(file))?;
    append_head(file, RecordIds::Given(&given), &mut bytes);
    append_blocks(file.bytes(), file.blocks(), &mut bytes);
    Ok(bytes)
}

/// Returns the part of the canonical form of a file before its blocks: all of it but the blocks.
///
/// It allocates this part, a set of IDs, and the IDs of the records (see `file_ids`).
///
/// # Errors
///
/// - `AllocError`: if an allocation failed.
pub fn canonical_head<A: Allowance, B: FileBytes>(
    memory: &A,
    file: &PdbFile<'_, B>,
) -> Result<Vec<u8>, AllocError>
    requires { length file.now ≤ most_bytes }
    ensures canonical { IfOk result (λ head. IsCanonical file.now
        (head.items ++ flat_map block_bytes (blocks_in file.now))) }
    ensures short { OnErr result (A.is_short memory.now) }
{
    file.know_file();
    let given = give_ids(memory, file)?;
    head_of(memory, file, RecordIds::Given(&given))
}

/// Returns the part of a new file before its blocks. Its records have these IDs.
///
/// # Errors
///
/// - `AllocError`: if an allocation failed.
fn head_of<A: Allowance, B: FileBytes>(
    memory: &A,
    file: &PdbFile<'_, B>,
    ids: RecordIds<'_>,
) -> Result<Vec<u8>, AllocError>
    requires size { length file.now ≤ most_bytes }
    requires ids { CanHaveIds file.now ids }
    ensures is { IfOk result (λ head. IsWrittenBy file.now ids.entry
        (head.items ++ flat_map block_bytes (blocks_in file.now))) }
    ensures short { OnErr result (A.is_short memory.now) }
{
    file.know_file();
    let mut head = room_for(memory, file.first_place() as usize)?;
    append_head(file, ids, &mut head);
    Ok(head)
}

/// Returns the size of a new file in bytes, by the part before its blocks.
fn form_size<B: FileBytes>(file: &PdbFile<'_, B>, head: &[u8]) -> usize
    requires { length file.now ≤ most_bytes }
    ensures { result ≡ length (head.now ++ flat_map block_bytes (blocks_in file.now)) }
{
    head.len() + total_length(file.blocks())
}

/// Writes a new file: the part before its blocks, and the blocks, whose bytes the source has.
#[tactic(auto, using(palm_text::proofs::Parts::then, palm_text::proofs::Parts::stops))]
fn put_form<B: FileBytes, W: Write>(
    file: &PdbFile<'_, B>,
    source: &[u8],
    head: &[u8],
    out: &mut Counted<W>,
) -> Result<(), WriteFault>
    requires { HasBlocksOf file.now source.now }
    ensures { Writes W.contents out.old out.new
        (head.now ++ flat_map block_bytes (blocks_in file.now)) (is_ok result) }
{
    put_all(out, head)?;
    put_blocks(source, file.blocks(), out)
}

/// Writes a new file for a file whose records get these IDs, and returns its size in bytes. The
/// source has the bytes of its blocks.
///
/// Blocks that follow each other in the source are one write. It doesn't flush `out`. After
/// a write fails, it writes nothing more.
///
/// # Errors
///
/// - `OutOfMemory`: if an allocation failed.
/// - `Write`: if a write failed, or took 0 bytes.
pub(crate) fn put_written<A: Allowance, B: FileBytes, W: Write>(
    memory: &A,
    file: &PdbFile<'_, B>,
    source: &[u8],
    ids: RecordIds<'_>,
    out: &mut Counted<W>,
) -> Result<usize, CanonicalFault>
    requires size { length file.now ≤ most_bytes }
    requires source { HasBlocksOf file.now source.now }
    requires ids { CanHaveIds file.now ids }
    ensures done { IfOk result
        (WroteOne (IsWrittenBy file.now ids.entry) W.contents out.old out.new) }
    ensures why { IfErr result (IsCanonicalFault file.now) }
    ensures untouched { IfErr result (λ fault. fault ≢ CanonicalFault.Write → out.new ≡ out.old) }
    ensures write { result ≡ Err CanonicalFault.Write
        → WritesOne (IsWrittenBy file.now ids.entry) W.contents out.old out.new false }
    ensures short { result ≡ Err CanonicalFault.OutOfMemory → A.is_short memory.now }
{
    file.know_file();
    let Ok(head) = head_of(memory, file, ids) else {
        return Err(CanonicalFault::OutOfMemory);
    };
    match put_form(file, source, &head, out) {
        Ok(()) => Ok(form_size(file, &head)),
        Err(_) => Err(CanonicalFault::Write),
    }
}

/// The same as `put_written` for the canonical form of a file, whose records get these IDs.
///
/// # Errors
///
/// - `OutOfMemory`: if an allocation failed.
/// - `Write`: if a write failed, or took 0 bytes.
pub(crate) fn put_canonical_from<A: Allowance, B: FileBytes, W: Write>(
    memory: &A,
    file: &PdbFile<'_, B>,
    source: &[u8],
    given: &GivenIds,
    out: &mut Counted<W>,
) -> Result<usize, CanonicalFault>
    requires size { length file.now ≤ most_bytes }
    requires source { HasBlocksOf file.now source.now }
    requires ids { GetsIds file.now given.now }
    ensures done { IfOk result (WroteCanonical file.now W.contents out.old out.new) }
    ensures why { IfErr result (IsCanonicalFault file.now) }
    ensures untouched { IfErr result (λ fault. fault ≢ CanonicalFault.Write → out.new ≡ out.old) }
    ensures write { result ≡ Err CanonicalFault.Write
        → WritesCanonical file.now W.contents out.old out.new false }
    ensures short { result ≡ Err CanonicalFault.OutOfMemory → A.is_short memory.now }
{
    file.know_file();
    put_written(memory, file, source, RecordIds::Given(given), out)
}

/// Writes the canonical form of a file whose records get these IDs, and returns its size in bytes.
///
/// Blocks that follow each other in the original file are one write. It doesn't flush `out`. After
/// a write fails, it writes nothing more.
///
/// # Errors
///
/// - `OutOfMemory`: if an allocation failed.
/// - `Write`: if a write failed, or took 0 bytes.
pub fn put_canonical_by<A: Allowance, W: Write>(
    memory: &A,
    file: &PdbFile<'_>,
    given: &GivenIds,
    out: &mut Counted<W>,
) -> Result<usize, CanonicalFault>
    requires size { length file.now ≤ most_bytes }
    requires ids { GetsIds file.now given.now }
    ensures done { IfOk result (WroteCanonical file.now W.contents out.old out.new) }
    ensures why { IfErr result (IsCanonicalFault file.now) }
    ensures untouched { IfErr result (λ fault. fault ≢ CanonicalFault.Write → out.new ≡ out.old) }
    ensures write { result ≡ Err CanonicalFault.Write
        → WritesCanonical file.now W.contents out.old out.new false }
    ensures short { result ≡ Err CanonicalFault.OutOfMemory → A.is_short memory.now }
{
    file.know_file();
    put_canonical_from(memory, file, file.bytes(), given, out)
}
