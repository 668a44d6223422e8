//! The command `salvage`.

ghost use Rattle.std.specs.Prelude.{◌≡◌, ◌≢◌, ◌≤◌, ◌⊎◌, length, true, false, is_ok, Err, IfErr, IfOk};
ghost use Rattle.heap_model.specs.DatabaseFields.{header_size};
ghost use Rattle.palm_text.specs.Counted.{Writes};
ghost use Rattle.palm_text.specs.Output.{Puts, output};
ghost use Rattle.canonical_file.specs.Canonical.{most_bytes};
ghost use Rattle.canonical_file.specs.Salvaged.{IsSalvageFault};
ghost use Rattle.file_commands.specs.Salvages.{EndsSalvage, PutsSalvagedPart, PutWhole, salvaged_lines};

use crate::faults::{put_count, said, say_fault};
use allowance::Allowance;
use canonical_file::{CanonicalFault, SalvagedIds, put_salvage_lines, put_salvaged};
use file_listing::TextRows;
use palm_text::{Counted, WriteFault};
use program_io::{Status, flushed};
use std::io::Write;

/// Writes the file that is salvaged from a file to `file_out`. Then prints `ok` and its size to
/// `out`, and a line for each fault of the file. If the file has no header, prints `bad` with the
/// fault, and the size of the file. Each allocation asks `memory` for a grant.
#[tactic(auto, using(crate::proofs::Salvaging::salvage_told))]
pub fn cmd_salvage_from<A: Allowance, W: Write, V: Write>(
    memory: &A,
    file: &[u8],
    rule: SalvagedIds,
    file_out: &mut Counted<W>,
    out: &mut Counted<V>,
) -> Status
    requires { length file.now ≤ most_bytes }
    ensures ends { EndsSalvage rule file.now (output W.contents file_out.old file_out.new)
        (output V.contents out.old out.new) result }
    ensures short { result ≡ Status.NoMemory → A.is_short memory.now }
{
    match put_whole(memory, file, rule, file_out) {
        Ok(count) => say_salvaged(out, file, count),
        Err(CanonicalFault::BadFile(fault)) => say_fault(
            &TextRows { path: None },
            out,
            &file,
            fault,
        ),
        Err(CanonicalFault::OutOfMemory) => Status::NoMemory,
        Err(CanonicalFault::Write) => Status::WriteFault,
    }
}

/// Writes the file that is salvaged from a file, flushes `file_out`, and returns its size in bytes.
#[tactic(auto, using(crate::proofs::Salvaging::puts_salvage, crate::proofs::Salvaging::salvage_flush_fails, crate::proofs::Salvaging::salvage_stops))]
fn put_whole<A: Allowance, W: Write>(
    memory: &A,
    file: &[u8],
    rule: SalvagedIds,
    file_out: &mut Counted<W>,
) -> Result<usize, CanonicalFault>
    requires { length file.now ≤ most_bytes }
    ensures done { IfOk result
        (PutWhole rule file.now (output W.contents file_out.old file_out.new)) }
    ensures why { IfErr result (IsSalvageFault file.now) }
    ensures untouched { IfErr result (λ fault.
        fault ≢ CanonicalFault.Write → file_out.new ≡ file_out.old) }
    ensures write { result ≡ Err CanonicalFault.Write
        → PutsSalvagedPart rule file.now (output W.contents file_out.old file_out.new) }
    ensures short { result ≡ Err CanonicalFault.OutOfMemory → A.is_short memory.now }
{
    let count = put_salvaged(memory, file, rule, file_out)?;
    match flushed(file_out) {
        Ok(()) => Ok(count),
        Err(_) => Err(CanonicalFault::Write),
    }
}

/// Prints the lines for a salvaged file of `count` bytes.
fn say_salvaged<V: Write>(out: &mut Counted<V>, file: &[u8], count: usize) -> Status
    requires { header_size ≤ length file.now }
    ensures statuses { (result ≡ Status.Done) ⊎ (result ≡ Status.WriteFault) }
    ensures done { result ≡ Status.Done
        → Puts V.contents out.old out.new (salvaged_lines file.now count) true }
    ensures write { result ≡ Status.WriteFault
        → Puts V.contents out.old out.new (salvaged_lines file.now count) false }
{
    said(put_lines(out, file, count), Status::Done, out)
}

/// Writes the lines for a salvaged file.
#[tactic(auto, using(palm_text::proofs::Parts::then, palm_text::proofs::Parts::stops), unfolding(crate::specs::Salvages::salvaged_lines))]
fn put_lines<V: Write>(out: &mut Counted<V>, file: &[u8], count: usize) -> Result<(), WriteFault>
    requires { header_size ≤ length file.now }
    ensures { Writes V.contents out.old out.new (salvaged_lines file.now count) (is_ok result) }
{
    put_count(out, count)?;
    put_salvage_lines(out, file)
}
