//! The JSON documents of PDB and PRC files.

ghost use Rattle.std.specs.Prelude.{◌≡◌, ◌≤◌, length, None, IfOk, IfErr, OnOk};
ghost use Rattle.heap_model.specs.Files.{HasNoFault, IsFirstFault};
ghost use Rattle.canonical_file.specs.Canonical.{most_bytes};
ghost use Rattle.file_listing.specs.Listing.{IsListingBy};
ghost use Rattle.json_documents.specs.RowTexts.{listing_json};
ghost use Rattle.palmheap_c.specs.Answers.{IsMemoryAnswer};
ghost use Rattle.palmheap_c.specs.Buffers.{buffer};
ghost use Rattle.palmheap_c.specs.Documents as words;

use crate::answers::{Answer, NO_MEMORY, TOO_LARGE};
use crate::buffers::{put_bytes, refused_write};
use canonical_file::MOST_BYTES;
use file_listing::{ListFault, put_fault, put_listing};
use heap_model::FileFault;
use json_documents::JsonRows;
use palm_text::Counted;
use std::alloc::Global;

/// Writes the document of a file into a buffer: the text that the command `list --json` prints. If
/// the file has a fault, that is the document of its first fault. Sets `count` to its size in bytes,
/// also if the buffer is too short for it.
#[unsafe(no_mangle)]
pub extern "C" fn palmheap_pdb_json(
    alloc: Global,
    file: &[u8],
    text: &mut [u8],
    count: &mut usize,
) -> Answer
    ensures { words.IsDocumentAnswer file.now (buffer text.old count.old) (buffer text.new count.new)
        result }
{
    if file.len() > MOST_BYTES {
        return TOO_LARGE;
    }
    match document_of(alloc, file) {
        Ok(bytes) => put_bytes(&bytes, text, count),
        Err(answer) => answer,
    }
}

/// Returns the document of a file.
fn document_of(alloc: Global, file: &[u8]) -> Result<Vec<u8>, Answer>
    requires { length file.now ≤ most_bytes }
    ensures ok { IfOk result (λ text. words.IsDocument file.now text.items) }
    ensures err { IfErr result IsMemoryAnswer }
{
    match listing_document(alloc, file) {
        Ok(bytes) => Ok(bytes),
        Err(ListFault::BadFile(fault)) => fault_document(alloc, file, fault),
        Err(ListFault::OutOfMemory) => Err(NO_MEMORY),
        Err(ListFault::Write) => Err(NO_MEMORY),
    }
}

/// Returns the document of a file without fault.
fn listing_document(alloc: Global, file: &[u8]) -> Result<Vec<u8>, ListFault>
    requires { length file.now ≤ most_bytes }
    ensures ok { IfOk result (λ text. IsListingBy (listing_json None) file.now text.items) }
    ensures good { OnOk result (HasNoFault file.now) }
    ensures why { IfErr result (words.IsDocumentFault file.now) }
{
    let mut out = Counted::new(Vec::new(alloc));
    match put_listing(&alloc, &JsonRows { path: None }, &file, &mut out) {
        Ok(()) => Ok(out.into_inner()),
        Err(ListFault::BadFile(fault)) => Err(ListFault::BadFile(fault)),
        Err(ListFault::OutOfMemory) => Err(ListFault::OutOfMemory),
        Err(ListFault::Write) => {
            refused_write(alloc, &out);
            Err(ListFault::Write)
        }
    }
}

/// Returns the document of the first fault of a file.
#[tactic(auto, unfolding(crate::specs::Documents::fault_document))]
fn fault_document(alloc: Global, file: &[u8], fault: FileFault) -> Result<Vec<u8>, Answer>
    requires short { length file.now ≤ most_bytes }
    requires first { IsFirstFault file.now fault }
    ensures ok { IfOk result (λ text. text.items ≡ words.fault_document file.now fault) }
    ensures err { IfErr result IsMemoryAnswer }
{
    let mut out = Counted::new(Vec::new(alloc));
    match put_fault(&JsonRows { path: None }, &mut out, &file, fault) {
        Ok(()) => Ok(out.into_inner()),
        Err(_) => Err(refused_write(alloc, &out)),
    }
}
