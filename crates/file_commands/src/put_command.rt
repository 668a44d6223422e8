//! The command `put`.

ghost use Rattle.std.specs.Prelude.{◌≡◌, ◌≤◌, ◌⊎◌, length, true, false, is_ok};
ghost use Rattle.palm_text.specs.Output.{Puts, output};
ghost use Rattle.canonical_file.specs.Canonical.{most_bytes};
ghost use Rattle.file_parts.specs.ExactUnpacking.{IsUnpackedExact};
ghost use Rattle.file_parts.specs.Replacing.{IsReplaced, bytes_replaced};
ghost use Rattle.file_commands.specs.Ends.{written_line};
ghost use Rattle.file_commands.specs.Puts.{EndsPut, PutsPutFault};

use crate::block_words::WantedBlock;
use crate::faults::say_fault;
use crate::get_command::say_refusal;
use crate::parts::say_count;
use crate::wanted::find_rank;
use allowance::Allowance;
use file_listing::TextRows;
use file_parts::{ReplaceFault, Replaced, UnpackFault, UnpackedExact, replace_block, unpack_exact};
use palm_text::{Counted, WriteFault};
use program_io::{Status, flushed, say};
use std::io::Write;

/// A block of a file, and the bytes that it gets.
#[derive(Clone, Copy)]
pub struct NewBlock<'a> {
    pub wanted: WantedBlock,
    pub bytes: &'a [u8],
}

/// Writes a file with a block replaced to `file_out`. All else is as it is. Then prints `ok` and
/// the size of the new file to `out`. If the file has a fault, prints `bad` with the first fault,
/// and the offset of its field. If it doesn't have the block, prints `refused` with the number and
/// the name of the refusal. If the new file would be too large, prints `bad TooLarge`, and if the
/// block can't be empty at its place, `bad EmptyPart`. Each allocation asks `memory` for a grant.
pub fn cmd_put_from<A: Allowance, W: Write, V: Write>(
    memory: &A,
    file: &[u8],
    new: NewBlock<'_>,
    file_out: &mut Counted<W>,
    out: &mut Counted<V>,
) -> Status
    requires { length file.now ≤ most_bytes }
    ensures ends { EndsPut file.now new.entry (output W.contents file_out.old file_out.new)
        (output V.contents out.old out.new) result }
    ensures short { result ≡ Status.NoMemory → A.is_short memory.now }
{
    match unpack_exact(memory, file) {
        Ok(unpacked) => put_in(memory, unpacked, new, file_out, out),
        Err(UnpackFault::BadFile(fault)) => say_fault(&TextRows { path: None }, out, &file, fault),
        Err(UnpackFault::OutOfMemory) => Status::NoMemory,
    }
}

/// The same as `cmd_put_from`, for a file without fault.
#[tactic(auto, using(crate::proofs::PutStatuses::no_block, crate::proofs::PutStatuses::not_put, crate::proofs::PutStatuses::put_whole))]
fn put_in<'a, A: Allowance, W: Write, V: Write>(
    memory: &A,
    unpacked: UnpackedExact<'a>,
    new: NewBlock<'a>,
    file_out: &mut Counted<W>,
    out: &mut Counted<V>,
) -> Status
    requires { IsUnpackedExact unpacked }
    ensures ends { EndsPut unpacked.entry.file new.entry (output W.contents file_out.old file_out.new)
        (output V.contents out.old out.new) result }
    ensures short { result ≡ Status.NoMemory → A.is_short memory.now }
{
    match find_rank(unpacked.file(), new.wanted) {
        Ok(rank) => match replace_block(memory, unpacked, rank, new.bytes) {
            Ok(replaced) => put_replaced(&replaced, file_out, out),
            Err(fault) => say_replace_fault(out, fault),
        },
        Err(refusal) => say_refusal(out, refusal),
    }
}

/// Writes a file with a block replaced, flushes `file_out`, and prints `ok` and its size.
fn put_replaced<W: Write, V: Write>(
    replaced: &Replaced<'_>,
    file_out: &mut Counted<W>,
    out: &mut Counted<V>,
) -> Status
    requires { IsReplaced replaced.now }
    ensures statuses { (result ≡ Status.Done) ⊎ (result ≡ Status.WriteFault) }
    ensures written { result ≡ Status.Done
        → Puts W.contents file_out.old file_out.new (bytes_replaced replaced.now) true }
    ensures told { result ≡ Status.Done
        → Puts V.contents out.old out.new (written_line (length (bytes_replaced replaced.now))) true }
    ensures write { result ≡ Status.WriteFault
        → (Puts W.contents file_out.old file_out.new (bytes_replaced replaced.now) false × (out.new ≡ out.old))
        ⊎ (Puts W.contents file_out.old file_out.new (bytes_replaced replaced.now) true
        × Puts V.contents out.old out.new (written_line (length (bytes_replaced replaced.now))) false) }
{
    match put_flushed(replaced, file_out) {
        Ok(()) => say_count(replaced.size(), out),
        Err(_) => Status::WriteFault,
    }
}

/// Writes a file with a block replaced, and flushes `file_out`.
#[tactic(auto, using(palm_text::proofs::Parts::then_flush))]
fn put_flushed<W: Write>(
    replaced: &Replaced<'_>,
    file_out: &mut Counted<W>,
) -> Result<(), WriteFault>
    requires { IsReplaced replaced.now }
    ensures { Puts W.contents file_out.old file_out.new (bytes_replaced replaced.now) (is_ok result) }
{
    replaced.put(file_out)?;
    flushed(file_out)
}

/// Prints the line for a block that isn't replaced. If an allocation failed, it prints nothing.
fn say_replace_fault<V: Write>(out: &mut Counted<V>, fault: ReplaceFault) -> Status
    ensures statuses { (result ≡ Status.Refused) ⊎ (result ≡ Status.WriteFault)
        ⊎ (result ≡ Status.NoMemory) }
    ensures refused { result ≡ Status.Refused → PutsPutFault fault V.contents out.old out.new true }
    ensures write { result ≡ Status.WriteFault → PutsPutFault fault V.contents out.old out.new false }
    ensures no_memory { result ≡ Status.NoMemory → fault ≡ ReplaceFault.OutOfMemory }
    ensures silent { result ≡ Status.NoMemory → out.new ≡ out.old }
{
    match fault {
        ReplaceFault::TooLarge => say(b"bad TooLarge\n", Status::Refused, out),
        ReplaceFault::EmptyPart => say(b"bad EmptyPart\n", Status::Refused, out),
        ReplaceFault::OutOfMemory => Status::NoMemory,
    }
}
