//! The command `canonical --check`.

ghost use Rattle.std.specs.Prelude.{◌≡◌, ◌≤◌, ◌⊎◌, ◌++◌, is_ok, length, option_map};
ghost use Rattle.palm_text.specs.Counted.{Writes};
ghost use Rattle.palm_text.specs.Output.{Puts};
ghost use Rattle.pdb_format.specs.Opened.{most_file_bytes};
ghost use Rattle.canonical_file.specs.Changes.{changes_line};
ghost use Rattle.file_listing.specs.Lines.{heading};
ghost use Rattle.file_commands.specs.Ends.{EndsChanges};

use crate::faults::say_fault;
use allowance::Allowance;
use canonical_file::{Changes, find_changes, put_changes};
use file_listing::{TextRows, put_heading};
use palm_text::{Counted, WriteFault};
use pdb_format::{FileBytes, OpenFault, PdbFile};
use program_io::{Status, flushed};
use std::io::Write;

/// Prints the line of the changes when a file is rewritten. If the file has a fault, prints `bad`
/// with the first fault, and the offset of its field. The path comes first, if there is one. Each
/// allocation asks `memory` for a grant.
pub fn cmd_changes_from<A: Allowance, B: FileBytes, V: Write>(
    memory: &A,
    path: Option<&str>,
    file: &B,
    out: &mut Counted<V>,
) -> Status
    requires { length (B.bytes file.now) ≤ most_file_bytes }
    ensures ends { EndsChanges (option_map (λ path. path.now) path.entry) (B.bytes file.now)
        V.contents out.old out.new result }
    ensures short { result ≡ Status.NoMemory → A.is_short memory.now }
{
    match PdbFile::open_bytes(memory, file) {
        Ok(file) => say_changes(memory, path, &file, out),
        Err(OpenFault::BadFile(fault)) => say_fault(&TextRows { path }, out, file, fault),
        Err(OpenFault::OutOfMemory) => Status::NoMemory,
    }
}

/// Prints the line of the changes of a file that is opened.
#[tactic(auto, using(crate::proofs::Printed::puts_changes))]
fn say_changes<A: Allowance, B: FileBytes, V: Write>(
    memory: &A,
    path: Option<&str>,
    file: &PdbFile<'_, B>,
    out: &mut Counted<V>,
) -> Status
    requires { length file.now ≤ most_file_bytes }
    ensures ends { EndsChanges (option_map (λ path. path.now) path.entry) file.now
        V.contents out.old out.new result }
    ensures short { result ≡ Status.NoMemory → A.is_short memory.now }
    ensures statuses { (result ≡ Status.Done) ⊎ (result ≡ Status.NoMemory)
        ⊎ (result ≡ Status.WriteFault) }
{
    file.know_file();
    let Ok(changes) = find_changes(memory, file) else {
        return Status::NoMemory;
    };
    match put_flushed(out, path, changes) {
        Ok(()) => Status::Done,
        Err(_) => Status::WriteFault,
    }
}

/// Writes the line of the changes after the heading, and flushes `out`.
#[tactic(auto, using(palm_text::proofs::Parts::then_flush))]
pub(crate) fn put_flushed<V: Write>(
    out: &mut Counted<V>,
    path: Option<&str>,
    changes: Changes,
) -> Result<(), WriteFault>
    ensures { Puts V.contents out.old out.new
        (heading (option_map (λ path. path.now) path.entry) ++ changes_line changes) (is_ok result) }
{
    put_headed(out, path, changes)?;
    flushed(out)
}

/// Writes the line of the changes after the heading.
#[tactic(auto, using(palm_text::proofs::Parts::then, palm_text::proofs::Parts::stops))]
fn put_headed<V: Write>(
    out: &mut Counted<V>,
    path: Option<&str>,
    changes: Changes,
) -> Result<(), WriteFault>
    ensures { Writes V.contents out.old out.new
        (heading (option_map (λ path. path.now) path.entry) ++ changes_line changes) (is_ok result) }
{
    put_heading(out, path)?;
    put_changes(out, changes)
}
