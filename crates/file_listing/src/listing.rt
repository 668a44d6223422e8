//! The listing of a file, on a writer.

ghost use Rattle.std.specs.Prelude.{◌≡◌, ◌≢◌, ◌≤◌, length, false, true, Err, IfErr, OnOk, is_ok};
ghost use Rattle.pdb_format.specs.Opened.{most_file_bytes};
ghost use Rattle.heap_model.specs.Files.{HasNoFault, IsFirstFault};
ghost use Rattle.palm_text.specs.Counted.{Writes};
ghost use Rattle.file_listing.specs.Listing.{IsListFault, Lists, WritesListing, fault_row};

use crate::damage::fault_place;
use crate::facts::facts_of;
use crate::rows::{Notation, Row};
use crate::walk::put_rows_of;
use allowance::Allowance;
use heap_model::FileFault;
use palm_text::{Counted, WriteFault};
use pdb_format::{FileBytes, OpenFault, PdbFile};
use std::io::Write;
use thiserror::Error;

/// The reason why a file was not listed.
#[derive(Clone, Copy, Debug, PartialEq, Eq, Error)]
pub enum ListFault {
    /// The file has this first fault.
    #[error("{0}")]
    BadFile(FileFault),
    /// An allocation failed.
    #[error("OutOfMemory")]
    OutOfMemory,
    /// A write failed, or took 0 bytes.
    #[error("a write failed")]
    Write,
}

/// Writes the listing of a file.
///
/// It doesn't flush `out`. It makes all allocations before the first write. After a write fails, it
/// writes nothing more.
///
/// # Errors
///
/// - `BadFile`: if the file has a fault. It contains the first one.
/// - `OutOfMemory`: if an allocation failed.
/// - `Write`: if a write failed, or took 0 bytes.
pub fn put_listing<N: Notation, A: Allowance, B: FileBytes, W: Write>(
    memory: &A,
    notation: &N,
    file: &B,
    out: &mut Counted<W>,
) -> Result<(), ListFault>
    requires { length (B.bytes file.now) ≤ most_file_bytes }
    ensures done { OnOk result
        (WritesListing (N.row_text notation.now) (B.bytes file.now) W.contents out.old out.new true) }
    ensures good { OnOk result (HasNoFault (B.bytes file.now)) }
    ensures why { IfErr result (IsListFault (B.bytes file.now)) }
    ensures untouched { IfErr result (λ fault. fault ≢ ListFault.Write → out.new ≡ out.old) }
    ensures write { result ≡ Err ListFault.Write
        → WritesListing (N.row_text notation.now) (B.bytes file.now) W.contents out.old out.new false }
    ensures short { result ≡ Err ListFault.OutOfMemory → A.is_short memory.now }
{
    match PdbFile::open_bytes(memory, file) {
        Ok(file) => put_opened(memory, notation, &file, out),
        Err(OpenFault::BadFile(fault)) => Err(ListFault::BadFile(fault)),
        Err(OpenFault::OutOfMemory) => Err(ListFault::OutOfMemory),
    }
}

/// Writes the listing of a file that is opened.
#[tactic(auto, using(crate::proofs::RowTexts::listed))]
fn put_opened<N: Notation, A: Allowance, B: FileBytes, W: Write>(
    memory: &A,
    notation: &N,
    file: &PdbFile<'_, B>,
    out: &mut Counted<W>,
) -> Result<(), ListFault>
    requires { length file.now ≤ most_file_bytes }
    ensures { Lists file.now
        (WritesListing (N.row_text notation.now) file.now W.contents out.old out.new)
        (out.new ≡ out.old) (A.is_short memory.now) result }
{
    file.know_file();
    let Ok(facts) = facts_of(memory, file) else {
        return Err(ListFault::OutOfMemory);
    };
    match put_rows_of(notation, out, file, &facts) {
        Ok(()) => Ok(()),
        Err(_) => Err(ListFault::Write),
    }
}

/// Writes the row of the first fault of a file, with the offset of its field (`fault_place`).
///
/// # Errors
///
/// - `WriteFault`: if a write failed, or took 0 bytes.
pub fn put_fault<N: Notation, B: FileBytes, W: Write>(
    notation: &N,
    out: &mut Counted<W>,
    file: &B,
    fault: FileFault,
) -> Result<(), WriteFault>
    requires short { length (B.bytes file.now) ≤ most_file_bytes }
    requires first { IsFirstFault (B.bytes file.now) fault }
    ensures { Writes W.contents out.old out.new (N.row_text notation.now (fault_row (B.bytes file.now) fault))
        (is_ok result) }
{
    let at = fault_place(file, fault) as u32;
    notation.put_row(out, &Row::Fault { fault, at })
}
