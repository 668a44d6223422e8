//! The command `list`.

ghost use Rattle.std.specs.Prelude.{◌≡◌, ◌≢◌, ◌≤◌, length, true, false, Err, IfErr, OnOk};
ghost use Rattle.pdb_format.specs.Opened.{most_file_bytes};
ghost use Rattle.file_listing.specs.Listing.{IsListFault};
ghost use Rattle.file_commands.specs.Ends.{EndsList, PutsListing};

use crate::faults::say_fault;
use allowance::Allowance;
use file_listing::{ListFault, Notation, put_listing};
use palm_text::Counted;
use pdb_format::FileBytes;
use program_io::{Status, flushed};
use std::io::Write;

/// Prints the listing of a file in a notation. If the file has a fault, prints only the row of the
/// first fault. Each allocation asks `memory` for a grant.
pub fn cmd_list_from<N: Notation, A: Allowance, B: FileBytes, V: Write>(
    memory: &A,
    notation: &N,
    file: &B,
    out: &mut Counted<V>,
) -> Status
    requires { length (B.bytes file.now) ≤ most_file_bytes }
    ensures ends { EndsList (N.row_text notation.now) (B.bytes file.now) V.contents out.old out.new result }
    ensures short { result ≡ Status.NoMemory → A.is_short memory.now }
{
    match put_flushed(memory, notation, file, out) {
        Ok(()) => Status::Done,
        Err(ListFault::BadFile(fault)) => say_fault(notation, out, file, fault),
        Err(ListFault::OutOfMemory) => Status::NoMemory,
        Err(ListFault::Write) => Status::WriteFault,
    }
}

/// Writes the listing of a file, and flushes `out`.
#[tactic(auto, using(crate::proofs::Printed::puts_listing, crate::proofs::Printed::listing_stops))]
fn put_flushed<N: Notation, A: Allowance, B: FileBytes, V: Write>(
    memory: &A,
    notation: &N,
    file: &B,
    out: &mut Counted<V>,
) -> Result<(), ListFault>
    requires { length (B.bytes file.now) ≤ most_file_bytes }
    ensures done { OnOk result
        (PutsListing (N.row_text notation.now) (B.bytes file.now) V.contents out.old out.new true) }
    ensures why { IfErr result (IsListFault (B.bytes file.now)) }
    ensures untouched { IfErr result (λ fault. fault ≢ ListFault.Write → out.new ≡ out.old) }
    ensures write { result ≡ Err ListFault.Write
        → PutsListing (N.row_text notation.now) (B.bytes file.now) V.contents out.old out.new false }
    ensures short { result ≡ Err ListFault.OutOfMemory → A.is_short memory.now }
{
    put_listing(memory, notation, file, out)?;
    match flushed(out) {
        Ok(()) => Ok(()),
        Err(_) => Err(ListFault::Write),
    }
}
