//! Files with a fault, the lines for a rewritten file, and flushes.

ghost use Rattle.std.specs.Prelude.{◌≡◌, ◌≢◌, ◌≤◌, ◌⊎◌, List, ℕ, length, true, false, is_ok};
ghost use Rattle.heap_model.specs.Files.{IsFirstFault};
ghost use Rattle.palm_text.specs.Output.{Puts};
ghost use Rattle.palm_text.specs.Counted.{Writes};
ghost use Rattle.pdb_format.specs.Opened.{most_file_bytes};
ghost use Rattle.file_commands.specs.Ends.{PutsFaultRow, written_line, rewritten_lines};
ghost use Rattle.file_listing.specs.Listing.{fault_row};

use canonical_file::{Changes, put_changes};
use file_listing::{Notation, put_fault};
use heap_model::FileFault;
use itoa::Buffer;
use palm_text::Piece::Text;
use palm_text::{Counted, WriteFault, put_pieces};
use pdb_format::FileBytes;
use program_io::{Status, flushed};
use std::io::Write;

/// Flushes `out` after a text. Returns `status`, or `WriteFault` if a write of the text or the flush
/// failed.
pub(crate) fn said<V: Write>(
    written: Result<(), WriteFault>,
    status: Status,
    out: &mut Counted<V>,
) -> Status
    requires { status ≢ Status.WriteFault }
    ensures status { (result ≡ status) ⊎ (result ≡ Status.WriteFault) }
    ensures said { result ≡ status → (start : _) (text : List ℕ)
        → Writes V.contents start out.old text (is_ok written) → Puts V.contents start out.new text true }
    ensures fault { result ≡ Status.WriteFault → (start : _) (text : List ℕ)
        → Writes V.contents start out.old text (is_ok written) → Puts V.contents start out.new text false }
{
    match written {
        Ok(()) => match flushed(out) {
            Ok(()) => status,
            Err(_) => Status::WriteFault,
        },
        Err(_) => Status::WriteFault,
    }
}

/// Prints the row of the first fault of a file.
#[tactic(auto, using(crate::proofs::Printed::puts_fault))]
pub(crate) fn say_fault<N: Notation, B: FileBytes, V: Write>(
    notation: &N,
    out: &mut Counted<V>,
    file: &B,
    fault: FileFault,
) -> Status
    requires short { length (B.bytes file.now) ≤ most_file_bytes }
    requires first { IsFirstFault (B.bytes file.now) fault }
    ensures statuses { (result ≡ Status.Refused) ⊎ (result ≡ Status.WriteFault) }
    ensures refused { result ≡ Status.Refused
        → PutsFaultRow (N.row_text notation.now) (B.bytes file.now) V.contents out.old out.new true }
    ensures write { result ≡ Status.WriteFault
        → PutsFaultRow (N.row_text notation.now) (B.bytes file.now) V.contents out.old out.new false }
{
    said(put_fault(notation, out, file, fault), Status::Refused, out)
}

/// The size of a rewritten file in bytes, and its changes.
#[derive(Clone, Copy)]
pub(crate) struct Rewritten {
    pub(crate) count: usize,
    pub(crate) changes: Changes,
}

/// Writes the line with a count.
#[tactic(auto, unfolding(crate::specs::Ends::written_line))]
pub(crate) fn put_count<V: Write>(out: &mut Counted<V>, count: usize) -> Result<(), WriteFault>
    ensures { Writes V.contents out.old out.new (written_line count) (is_ok result) }
{
    let mut digits = Buffer::new();
    put_pieces(
        out,
        &[
            Text(b"ok "),
            Text(digits.format(count).as_bytes()),
            Text(b"\n"),
        ],
    )
}

/// Writes a count, and flushes `out`.
#[tactic(auto, using(palm_text::proofs::Parts::then_flush))]
pub(crate) fn put_only_count<V: Write>(out: &mut Counted<V>, count: usize) -> Result<(), WriteFault>
    ensures { Puts V.contents out.old out.new (written_line count) (is_ok result) }
{
    put_count(out, count)?;
    flushed(out)
}

/// Writes the size, and the changes.
#[tactic(auto, using(palm_text::proofs::Parts::then, palm_text::proofs::Parts::stops), unfolding(crate::specs::Ends::rewritten_lines))]
fn put_lines<V: Write>(out: &mut Counted<V>, rewritten: Rewritten) -> Result<(), WriteFault>
    ensures { Writes V.contents out.old out.new (rewritten_lines rewritten) (is_ok result) }
{
    put_count(out, rewritten.count)?;
    put_changes(out, rewritten.changes)
}

/// Writes the size, and the changes, and flushes `out`.
#[tactic(auto, using(palm_text::proofs::Parts::then_flush))]
pub(crate) fn put_rewritten<V: Write>(
    out: &mut Counted<V>,
    rewritten: Rewritten,
) -> Result<(), WriteFault>
    ensures { Puts V.contents out.old out.new (rewritten_lines rewritten) (is_ok result) }
{
    put_lines(out, rewritten)?;
    flushed(out)
}
