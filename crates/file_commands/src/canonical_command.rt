//! The command `canonical`.

ghost use Rattle.std.specs.Prelude.{◌≡◌, ◌≢◌, ◌≤◌, length, false, Err, IfErr, IfOk, IsTrue, OnErr};
ghost use Rattle.canonical_file.specs.Canonical.{GetsIds, IsCanonical, IsCanonicalFault, WritesCanonical, WroteCanonical, most_bytes};
ghost use Rattle.canonical_file.specs.Changes.{is_none};
ghost use Rattle.canonical_file.specs.Given.{AreGivenIn};
ghost use Rattle.palm_text.specs.Output.{output};
ghost use Rattle.file_commands.specs.Ends.{EndsCanonical, RewritesWhole};

use crate::faults::{Rewritten, put_rewritten, say_fault};
use allowance::Allowance;
use canonical_file::{CanonicalFault, Changes, changes_by, put_canonical_by};
use file_ids::{GivenIds, give_ids};
use file_listing::TextRows;
use palm_text::{Counted, put_all};
use pdb_format::{OpenFault, PdbFile};
use program_io::{Status, flushed};
use std::alloc::AllocError;
use std::io::Write;

/// Writes the canonical form of a file to `file_out`. Then prints `ok` and its size to `out`, and
/// the line of the changes. If the file has a fault, prints `bad` with the first fault, and the
/// offset of its field. Each allocation asks `memory` for a grant.
#[tactic(auto, using(crate::proofs::Printed::told))]
pub fn cmd_canonical_from<A: Allowance, W: Write, V: Write>(
    memory: &A,
    file: &[u8],
    file_out: &mut Counted<W>,
    out: &mut Counted<V>,
) -> Status
    requires { length file.now ≤ most_bytes }
    ensures ends { EndsCanonical file.now (output W.contents file_out.old file_out.new)
        (output V.contents out.old out.new) result }
    ensures short { result ≡ Status.NoMemory → A.is_short memory.now }
{
    match put_flushed(memory, file, file_out) {
        Ok(rewritten) => match put_rewritten(out, rewritten) {
            Ok(()) => Status::Done,
            Err(_) => Status::WriteFault,
        },
        Err(CanonicalFault::BadFile(fault)) => say_fault(
            &TextRows { path: None },
            out,
            &file,
            fault,
        ),
        Err(CanonicalFault::OutOfMemory) => Status::NoMemory,
        Err(CanonicalFault::Write) => Status::WriteFault,
    }
}

/// Writes the canonical form of a file, flushes `file_out`, and returns its size in bytes and the
/// changes.
fn put_flushed<A: Allowance, W: Write>(
    memory: &A,
    file: &[u8],
    file_out: &mut Counted<W>,
) -> Result<Rewritten, CanonicalFault>
    requires { length file.now ≤ most_bytes }
    ensures { RewritesWhole file.now (output W.contents file_out.old file_out.new)
        (A.is_short memory.now) result }
{
    match PdbFile::open(memory, file) {
        Ok(file) => put_opened(memory, &file, file_out),
        Err(OpenFault::BadFile(fault)) => Err(CanonicalFault::BadFile(fault)),
        Err(OpenFault::OutOfMemory) => Err(CanonicalFault::OutOfMemory),
    }
}

/// The same as `put_flushed`, for a file that is opened.
fn put_opened<A: Allowance, W: Write>(
    memory: &A,
    file: &PdbFile<'_>,
    file_out: &mut Counted<W>,
) -> Result<Rewritten, CanonicalFault>
    requires { length file.now ≤ most_bytes }
    ensures { RewritesWhole file.now (output W.contents file_out.old file_out.new)
        (A.is_short memory.now) result }
{
    file.know_file();
    match ids_of(memory, file) {
        Ok(given) => put_by_ids(memory, file, &given, file_out),
        Err(_) => Err(CanonicalFault::OutOfMemory),
    }
}

/// The same as `put_opened`, with the IDs that the file's records get.
#[tactic(auto, using(crate::proofs::Printed::puts_whole, crate::proofs::Printed::flush_fails, crate::proofs::Printed::canonical_stops))]
fn put_by_ids<A: Allowance, W: Write>(
    memory: &A,
    file: &PdbFile<'_>,
    given: &GivenIds,
    file_out: &mut Counted<W>,
) -> Result<Rewritten, CanonicalFault>
    requires short { length file.now ≤ most_bytes }
    requires ids { GetsIds file.now given.now }
    requires given { AreGivenIn file.now given.now.ids.items given.now.seed }
    ensures { RewritesWhole file.now (output W.contents file_out.old file_out.new)
        (A.is_short memory.now) result }
{
    file.know_file();
    let changes = changes_by(file, given);
    let count = put_form(memory, file, given, changes, file_out)?;
    match flushed(file_out) {
        Ok(()) => Ok(Rewritten { count, changes }),
        Err(_) => Err(CanonicalFault::Write),
    }
}

/// Writes the canonical form of a file with these changes, and returns its size in bytes. Its
/// records get these IDs. Without changes the form is the file, so nothing is allocated.
#[tactic(auto, using(crate::proofs::Printed::wrote_same, crate::proofs::Printed::cut_same))]
fn put_form<A: Allowance, W: Write>(
    memory: &A,
    file: &PdbFile<'_>,
    given: &GivenIds,
    changes: Changes,
    file_out: &mut Counted<W>,
) -> Result<usize, CanonicalFault>
    requires short { length file.now ≤ most_bytes }
    requires ids { GetsIds file.now given.now }
    requires same { IsTrue (is_none changes) → IsCanonical file.now file.now }
    ensures done { IfOk result (WroteCanonical file.now W.contents file_out.old file_out.new) }
    ensures why { IfErr result (IsCanonicalFault file.now) }
    ensures untouched { IfErr result (λ fault.
        fault ≢ CanonicalFault.Write → file_out.new ≡ file_out.old) }
    ensures write { result ≡ Err CanonicalFault.Write
        → WritesCanonical file.now W.contents file_out.old file_out.new false }
    ensures short { result ≡ Err CanonicalFault.OutOfMemory → A.is_short memory.now }
{
    if !changes.is_none() {
        return put_canonical_by(memory, file, given, file_out);
    }
    let bytes = file.bytes();
    match put_all(file_out, bytes) {
        Ok(()) => Ok(bytes.len()),
        Err(_) => Err(CanonicalFault::Write),
    }
}

/// Returns the IDs that the records of a file get when it is rewritten.
pub(crate) fn ids_of<A: Allowance>(memory: &A, file: &PdbFile<'_>) -> Result<GivenIds, AllocError>
    ensures ids { IfOk result (GetsIds file.now) }
    ensures given { IfOk result (λ given. AreGivenIn file.now given.ids.items given.seed) }
    ensures short { OnErr result (A.is_short memory.now) }
{
    match give_ids(memory, file) {
        Ok(given) => Ok(given),
        Err(fault) => Err(fault),
    }
}
