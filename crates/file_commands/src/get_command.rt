//! The command `get`.

ghost use Rattle.std.specs.Prelude.{◌≡◌, ◌≤◌, ◌⊎◌, length, true, false, is_ok};
ghost use Rattle.palm_text.specs.Counted.{Writes};
ghost use Rattle.palm_text.specs.Output.{Puts, output};
ghost use Rattle.pdb_format.specs.Opened.{most_file_bytes};
ghost use Rattle.file_commands.specs.Gets.{EndsGet, no_block_line};

use crate::block_words::WantedBlock;
use crate::faults::{said, say_fault};
use crate::wanted::find_block;
use allowance::Allowance;
use file_listing::TextRows;
use heap_model::Refusal;
use palm_text::Piece::{Number, Text};
use palm_text::{Counted, WriteFault, put, put_pieces};
use pdb_format::{OpenFault, PdbFile};
use program_io::Status;
use std::io::Write;

/// Writes the bytes of a block of a file to `block_out`, and nothing to `out`. If the file has a
/// fault, prints to `out` `bad` with the first fault, and the offset of its field. If it doesn't
/// have the block, prints `refused` with the number and the name of the refusal. Each allocation
/// asks `memory` for a grant.
pub fn cmd_get_from<A: Allowance, W: Write, V: Write>(
    memory: &A,
    file: &[u8],
    wanted: WantedBlock,
    block_out: &mut Counted<W>,
    out: &mut Counted<V>,
) -> Status
    requires { length file.now ≤ most_file_bytes }
    ensures ends { EndsGet file.now wanted (output W.contents block_out.old block_out.new)
        (output V.contents out.old out.new) result }
    ensures short { result ≡ Status.NoMemory → A.is_short memory.now }
{
    match PdbFile::open(memory, file) {
        Ok(file) => put_wanted(&file, wanted, block_out, out),
        Err(OpenFault::BadFile(fault)) => say_fault(&TextRows { path: None }, out, &file, fault),
        Err(OpenFault::OutOfMemory) => Status::NoMemory,
    }
}

/// Writes the bytes of a block of a file that is opened.
#[tactic(auto, using(crate::proofs::Got::puts_block, crate::proofs::Got::puts_no_block))]
fn put_wanted<W: Write, V: Write>(
    file: &PdbFile<'_>,
    wanted: WantedBlock,
    block_out: &mut Counted<W>,
    out: &mut Counted<V>,
) -> Status
    ensures ends { EndsGet file.now wanted (output W.contents block_out.old block_out.new)
        (output V.contents out.old out.new) result }
    ensures statuses { (result ≡ Status.Done) ⊎ (result ≡ Status.Refused)
        ⊎ (result ≡ Status.WriteFault) }
{
    file.know_file();
    match find_block(file, wanted) {
        Ok(bytes) => match put(block_out, bytes) {
            Ok(()) => Status::Done,
            Err(_) => Status::WriteFault,
        },
        Err(refusal) => say_refusal(out, refusal),
    }
}

/// Prints the line for a block that a file doesn't have.
pub(crate) fn say_refusal<V: Write>(out: &mut Counted<V>, refusal: Refusal) -> Status
    ensures statuses { (result ≡ Status.Refused) ⊎ (result ≡ Status.WriteFault) }
    ensures refused { result ≡ Status.Refused
        → Puts V.contents out.old out.new (no_block_line refusal) true }
    ensures write { result ≡ Status.WriteFault
        → Puts V.contents out.old out.new (no_block_line refusal) false }
{
    said(put_refusal(out, refusal), Status::Refused, out)
}

/// Writes the line for a block that a file doesn't have.
#[tactic(auto, unfolding(crate::specs::Gets::no_block_line))]
fn put_refusal<V: Write>(out: &mut Counted<V>, refusal: Refusal) -> Result<(), WriteFault>
    ensures { Writes V.contents out.old out.new (no_block_line refusal) (is_ok result) }
{
    put_pieces(
        out,
        &[
            Text(b"refused "),
            Number(u32::from(refusal.number())),
            Text(b" "),
            Text(refusal.name().as_bytes()),
            Text(b"\n"),
        ],
    )
}
