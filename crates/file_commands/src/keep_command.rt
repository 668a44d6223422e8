//! The commands `canonical --keep` and `canonical --check --keep`.

ghost use Rattle.std.specs.Prelude.{◌≡◌, ◌≤◌, ◌⊎◌, length, false, true, is_ok, option_map};
ghost use Rattle.palm_text.specs.Output.{Puts, output};
ghost use Rattle.pdb_format.specs.Opened.{most_file_bytes};
ghost use Rattle.canonical_file.specs.Canonical.{GetsIds, most_bytes};
ghost use Rattle.canonical_file.specs.Given.{AreGivenIn};
ghost use Rattle.file_parts.specs.ExactUnpacking.{IsUnpackedExact};
ghost use Rattle.file_parts.specs.Kept.{IsKeptFile, bytes_kept};
ghost use Rattle.file_commands.specs.Ends.{rewritten_lines};
ghost use Rattle.file_commands.specs.Keeps.{EndsKept, EndsLeft};

use crate::canonical_command::ids_of;
use crate::changes_command::put_flushed as put_changes_flushed;
use crate::faults::{Rewritten, put_rewritten, say_fault};
use allowance::Allowance;
use canonical_file::Changes;
use file_ids::GivenIds;
use file_listing::TextRows;
use file_parts::{Keep, Kept, PlaceFault, UnpackFault, UnpackedExact, keep_parts, unpack_exact};
use palm_text::{Counted, WriteFault};
use pdb_format::{FileBytes, OpenFault, PdbFile};
use program_io::{Status, flushed, say};
use std::io::Write;

/// Writes a file in canonical form, but for the things that are kept, to `file_out`. Then prints
/// `ok` and its size to `out`, and the line of the changes that are left. If the file has a fault,
/// prints `bad` with the first fault, and the offset of its field. If the new file would be too
/// large, prints `bad TooLarge`. Each allocation asks `memory` for a grant.
pub fn cmd_keep_from<A: Allowance, W: Write, V: Write>(
    memory: &A,
    file: &[u8],
    keep: Keep,
    file_out: &mut Counted<W>,
    out: &mut Counted<V>,
) -> Status
    requires { length file.now ≤ most_bytes }
    ensures ends { EndsKept keep file.now (output W.contents file_out.old file_out.new)
        (output V.contents out.old out.new) result }
    ensures short { result ≡ Status.NoMemory → A.is_short memory.now }
{
    match unpack_exact(memory, file) {
        Ok(unpacked) => match ids_of(memory, unpacked.file()) {
            Ok(given) => keep_by(memory, unpacked, &given, keep, file_out, out),
            Err(_) => Status::NoMemory,
        },
        Err(UnpackFault::BadFile(fault)) => say_fault(&TextRows { path: None }, out, &file, fault),
        Err(UnpackFault::OutOfMemory) => Status::NoMemory,
    }
}

/// The same as `cmd_keep_from`, for a file without fault, with the IDs that the records get in the
/// canonical form.
fn keep_by<'a, A: Allowance, W: Write, V: Write>(
    memory: &A,
    unpacked: UnpackedExact<'a>,
    given: &'a GivenIds,
    keep: Keep,
    file_out: &mut Counted<W>,
    out: &mut Counted<V>,
) -> Status
    requires good { IsUnpackedExact unpacked }
    requires ids { GetsIds unpacked.file given.now }
    requires given { AreGivenIn unpacked.file given.now.ids.items given.now.seed }
    ensures ends { EndsKept keep unpacked.entry.file (output W.contents file_out.old file_out.new)
        (output V.contents out.old out.new) result }
    ensures short { result ≡ Status.NoMemory → A.is_short memory.now }
{
    let left = keep.changes_by(unpacked.file(), given);
    match keep_parts(memory, unpacked, given, keep) {
        Ok(kept) => put_kept(&kept, left, file_out, out),
        Err(PlaceFault::TooLarge) => say(b"bad TooLarge\n", Status::Refused, out),
        Err(PlaceFault::OutOfMemory) => Status::NoMemory,
    }
}

/// Writes a file, flushes `file_out`, and prints `ok`, its size and the changes that are left.
fn put_kept<W: Write, V: Write>(
    kept: &Kept<'_>,
    left: Changes,
    file_out: &mut Counted<W>,
    out: &mut Counted<V>,
) -> Status
    requires { IsKeptFile kept.now }
    ensures statuses { (result ≡ Status.Done) ⊎ (result ≡ Status.WriteFault) }
    ensures written { result ≡ Status.Done
        → Puts W.contents file_out.old file_out.new (bytes_kept kept.now) true }
    ensures told { result ≡ Status.Done → Puts V.contents out.old out.new
        (rewritten_lines (record { count = length (bytes_kept kept.now); changes = left })) true }
    ensures write { result ≡ Status.WriteFault
        → (Puts W.contents file_out.old file_out.new (bytes_kept kept.now) false × (out.new ≡ out.old))
        ⊎ (Puts W.contents file_out.old file_out.new (bytes_kept kept.now) true
        × Puts V.contents out.old out.new
        (rewritten_lines (record { count = length (bytes_kept kept.now); changes = left })) false) }
{
    let rewritten = Rewritten {
        count: kept.size(),
        changes: left,
    };
    match put_flushed(kept, file_out) {
        Ok(()) => match put_rewritten(out, rewritten) {
            Ok(()) => Status::Done,
            Err(_) => Status::WriteFault,
        },
        Err(_) => Status::WriteFault,
    }
}

/// Writes a file, and flushes `file_out`.
#[tactic(auto, using(palm_text::proofs::Parts::then_flush))]
fn put_flushed<W: Write>(kept: &Kept<'_>, file_out: &mut Counted<W>) -> Result<(), WriteFault>
    requires { IsKeptFile kept.now }
    ensures { Puts W.contents file_out.old file_out.new (bytes_kept kept.now) (is_ok result) }
{
    kept.put(file_out)?;
    flushed(file_out)
}

/// Prints the line of the changes that are left when a file is rewritten and keeps these things. If
/// the file has a fault, prints `bad` with the first fault, and the offset of its field. The path
/// comes first, if there is one. Each allocation asks `memory` for a grant.
pub fn cmd_left_from<A: Allowance, B: FileBytes, V: Write>(
    memory: &A,
    keep: Keep,
    path: Option<&str>,
    file: &B,
    out: &mut Counted<V>,
) -> Status
    requires { length (B.bytes file.now) ≤ most_file_bytes }
    ensures ends { EndsLeft keep (option_map (λ path. path.now) path.entry) (B.bytes file.now)
        V.contents out.old out.new result }
    ensures short { result ≡ Status.NoMemory → A.is_short memory.now }
{
    match PdbFile::open_bytes(memory, file) {
        Ok(file) => say_left(memory, keep, path, &file, out),
        Err(OpenFault::BadFile(fault)) => say_fault(&TextRows { path }, out, file, fault),
        Err(OpenFault::OutOfMemory) => Status::NoMemory,
    }
}

/// Prints the line of the changes of a file that are left.
#[tactic(auto, using(crate::proofs::Keeping::puts_left))]
fn say_left<A: Allowance, B: FileBytes, V: Write>(
    memory: &A,
    keep: Keep,
    path: Option<&str>,
    file: &PdbFile<'_, B>,
    out: &mut Counted<V>,
) -> Status
    requires { length file.now ≤ most_file_bytes }
    ensures ends { EndsLeft keep (option_map (λ path. path.now) path.entry) file.now
        V.contents out.old out.new result }
    ensures short { result ≡ Status.NoMemory → A.is_short memory.now }
    ensures statuses { (result ≡ Status.Done) ⊎ (result ≡ Status.NoMemory)
        ⊎ (result ≡ Status.WriteFault) }
{
    file.know_file();
    let Ok(left) = keep.find_changes(memory, file) else {
        return Status::NoMemory;
    };
    match put_changes_flushed(out, path, left) {
        Ok(()) => Status::Done,
        Err(_) => Status::WriteFault,
    }
}
