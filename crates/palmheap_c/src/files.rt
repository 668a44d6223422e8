//! Functions on PDB and PRC files (Palm OS File Format Specification). They keep no state between
//! calls.

ghost use Rattle.std.specs.Prelude.{◌≡◌, ◌≤◌, ◌⊎◌, length, IfOk, OnOk, IfErr};
ghost use Rattle.heap_model.specs.Files.{HasNoFault};
ghost use Rattle.canonical_file.specs.Canonical.{IsCanonical, most_bytes};
ghost use Rattle.file_listing.specs.Lines.{IsListing};
ghost use Rattle.palmheap_c.specs.Answers.{IsFileAnswer, IsFileFault, IsFileRefusal, IsMemoryAnswer};
ghost use Rattle.palmheap_c.specs.Blocks.{IsBlocksAnswer};
ghost use Rattle.palmheap_c.specs.Buffers.{IsBytesAnswer, buffer};

use crate::answers::{Answer, NO_FAULT, NO_MEMORY, NO_ROOM, TOO_LARGE, of_file};
use crate::blocks::{Block, put_blocks};
use crate::buffers::{put_bytes, refused_write};
use canonical_file::{MOST_BYTES, canonical_bytes};
use file_listing::{ListFault, TextRows, put_listing};
use palm_text::Counted;
use pdb_format::{OpenFault, PdbFile, check_file};
use std::alloc::Global;

/// Checks whether a database can be read from a file, and returns its first fault. Allocates
/// nothing.
#[unsafe(no_mangle)]
pub extern "C" fn palmheap_pdb_check(file: &[u8]) -> Answer
    ensures { IsFileAnswer file.now result }
{
    match check_file(file) {
        Ok(()) => NO_FAULT,
        Err(fault) => of_file(fault),
    }
}

/// Finds the places of the blocks of a file: the AppInfo block, the SortInfo block, and the data of
/// the entries in order. Sets `count` to their number, also if `blocks` is too short for them.
#[tactic(auto, using(crate::proofs::BlockLaws::are_blocks))]
#[unsafe(no_mangle)]
pub extern "C" fn palmheap_pdb_blocks(
    alloc: Global,
    file: &[u8],
    blocks: &mut [Block],
    count: &mut usize,
) -> Answer
    ensures { IsBlocksAnswer file.now blocks.old blocks.new count.old count.new result }
{
    let opened = match open(alloc, file) {
        Ok(opened) => opened,
        Err(answer) => return answer,
    };
    let found = opened.blocks();
    *count = found.len();
    if blocks.len() < found.len() {
        return NO_ROOM;
    }
    put_blocks(blocks, found);
    NO_FAULT
}

/// Opens a file.
pub(crate) fn open<'a>(alloc: Global, file: &'a [u8]) -> Result<PdbFile<'a>, Answer>
    ensures opened { IfOk result (λ opened. opened ≡ file.now) }
    ensures good { OnOk result (HasNoFault file.now) }
    ensures err { IfErr result (λ answer.
        IsFileFault file.now answer ⊎ (HasNoFault file.now × IsMemoryAnswer answer)) }
{
    match PdbFile::open(&alloc, file) {
        Ok(opened) => Ok(opened),
        Err(OpenFault::BadFile(fault)) => Err(of_file(fault)),
        Err(OpenFault::OutOfMemory) => Err(NO_MEMORY),
    }
}

/// Writes the canonical form of a file into a buffer: the file that is written for the database
/// that is read from the original file. Sets `count` to its size in bytes, also if the buffer is
/// too short for it.
#[unsafe(no_mangle)]
pub extern "C" fn palmheap_canonical(
    alloc: Global,
    file: &[u8],
    canonical: &mut [u8],
    count: &mut usize,
) -> Answer
    ensures { IsBytesAnswer (IsCanonical file.now) file.now
        (buffer canonical.old count.old) (buffer canonical.new count.new) result }
{
    match canonical_of(alloc, file) {
        Ok(bytes) => put_bytes(&bytes, canonical, count),
        Err(answer) => answer,
    }
}

/// Returns the canonical form of a file.
fn canonical_of(alloc: Global, file: &[u8]) -> Result<Vec<u8>, Answer>
    ensures ok { IfOk result (λ bytes. IsCanonical file.now bytes.items) }
    ensures err { IfErr result (IsFileRefusal file.now) }
{
    if file.len() > MOST_BYTES {
        return Err(TOO_LARGE);
    }
    match open(alloc, file) {
        Ok(opened) => rewritten(alloc, &opened),
        Err(answer) => Err(answer),
    }
}

/// Returns the canonical form of a file that is opened.
fn rewritten(alloc: Global, file: &PdbFile<'_>) -> Result<Vec<u8>, Answer>
    requires { length file.now ≤ most_bytes }
    ensures ok { IfOk result (λ bytes. IsCanonical file.now bytes.items) }
    ensures err { IfErr result IsMemoryAnswer }
{
    match canonical_bytes(&alloc, file) {
        Ok(bytes) => Ok(bytes),
        Err(_) => Err(NO_MEMORY),
    }
}

/// Writes the listing of a file into a buffer: the text that the command `list` prints. Sets
/// `count` to its size in bytes, also if the buffer is too short for it.
#[unsafe(no_mangle)]
pub extern "C" fn palmheap_pdb_list(
    alloc: Global,
    file: &[u8],
    text: &mut [u8],
    count: &mut usize,
) -> Answer
    ensures { IsBytesAnswer (IsListing file.now) file.now
        (buffer text.old count.old) (buffer text.new count.new) result }
{
    match listing_of(alloc, file) {
        Ok(bytes) => put_bytes(&bytes, text, count),
        Err(answer) => answer,
    }
}

/// Returns the listing of a file.
fn listing_of(alloc: Global, file: &[u8]) -> Result<Vec<u8>, Answer>
    ensures ok { IfOk result (λ text. IsListing file.now text.items) }
    ensures err { IfErr result (IsFileRefusal file.now) }
{
    if file.len() > MOST_BYTES {
        return Err(TOO_LARGE);
    }
    let mut out = Counted::new(Vec::new(alloc));
    match put_listing(&alloc, &TextRows { path: None }, &file, &mut out) {
        Ok(()) => Ok(out.into_inner()),
        Err(ListFault::BadFile(fault)) => Err(of_file(fault)),
        Err(ListFault::OutOfMemory) => Err(NO_MEMORY),
        Err(ListFault::Write) => Err(refused_write(alloc, &out)),
    }
}
