//! The commands `unpack` and `pack`, without the folder of the parts.

ghost use Rattle.std.specs.Prelude.{◌≡◌, ◌≤◌, ◌⊎◌, ℕ, List, length, true, false, is_ok, Err, IfOk, IfErr, OnOk};
ghost use Rattle.palm_text.specs.Output.{Puts};
ghost use Rattle.canonical_file.specs.Canonical.{most_bytes};
ghost use Rattle.file_parts.specs.Either.{HasFolderParts, IsListedFolder, IsPackedOf, IsReadFrom, IsTakenApart, IsTextOf, PacksFolderBack, ReadsFolder, file_taken, folder_size, form_taken};
ghost use Rattle.file_parts.specs.declared.either.ListedFolder.{ListedFolder};
ghost use Rattle.file_commands.specs.Ends.{written_line};
ghost use Rattle.file_commands.specs.Parts.{EndsPack, NotListed, NotUnpacked};

use crate::faults::{put_only_count, say_fault};
use crate::line_faults::say_line_fault;
use allowance::Allowance;
use file_listing::TextRows;
use file_parts::{
    FolderForm, ListedFolder, PackFault, PackedFile, TakenApart, UnpackFault, read_folder,
    take_apart,
};
use heap_model::Bytes;
use palm_text::{Counted, WriteFault};
use program_io::{Status, flushed, say};
use script_lines::ScriptFault;
use std::io::Write;

/// Takes a file apart. If the file has a fault, prints `bad` with the first fault, and the offset
/// of its field.
///
/// # Errors
///
/// - `Refused`: if the file has a fault, and its lines were printed.
/// - `WriteFault`: if the file has a fault, and a write or a flush of its lines failed.
/// - `NoMemory`: if an allocation failed.
#[tactic(auto, using(crate::proofs::PartStatuses::not_unpacked))]
pub fn unpack_file<'a, A: Allowance, V: Write>(
    memory: &A,
    form: FolderForm,
    file: &'a [u8],
    out: &mut Counted<V>,
) -> Result<TakenApart<'a>, Status>
    requires { length file.now ≤ most_bytes }
    ensures same { IfOk result (λ taken. file_taken taken ≡ file.now) }
    ensures form { IfOk result (λ taken. form_taken taken ≡ form) }
    ensures done { IfOk result IsTakenApart }
    ensures reads { IfOk result ReadsFolder }
    ensures packs { IfOk result PacksFolderBack }
    ensures silent { OnOk result (out.new ≡ out.old) }
    ensures not { IfErr result (NotUnpacked file.now V.contents out.old out.new) }
    ensures short { result ≡ Err Status.NoMemory → A.is_short memory.now }
{
    match take_apart(memory, form, file) {
        Ok(unpacked) => Ok(unpacked),
        Err(UnpackFault::BadFile(fault)) => Err(say_fault(
            &TextRows { path: None },
            out,
            &file,
            fault,
        )),
        Err(UnpackFault::OutOfMemory) => Err(Status::NoMemory),
    }
}

/// Writes the text of a file that is taken apart, and flushes `out`.
#[tactic(auto, using(palm_text::proofs::Parts::then_flush))]
pub(crate) fn put_text<W: Write>(
    unpacked: &TakenApart<'_>,
    out: &mut Counted<W>,
) -> Result<(), WriteFault>
    requires { IsTakenApart unpacked.now }
    ensures { (text : List ℕ) → IsTextOf unpacked.now text
        → Puts W.contents out.old out.new text (is_ok result) }
{
    unpacked.put_text(out)?;
    flushed(out)
}

/// Prints `ok` and a count, and flushes `out`.
pub fn say_count<V: Write>(count: usize, out: &mut Counted<V>) -> Status
    ensures statuses { (result ≡ Status.Done) ⊎ (result ≡ Status.WriteFault) }
    ensures done { result ≡ Status.Done → Puts V.contents out.old out.new (written_line count) true }
    ensures write { result ≡ Status.WriteFault
        → Puts V.contents out.old out.new (written_line count) false }
{
    match put_only_count(out, count) {
        Ok(()) => Status::Done,
        Err(_) => Status::WriteFault,
    }
}

/// Reads the text of a folder. If a line is faulty, prints `line`, its number and its fault.
///
/// # Errors
///
/// - `Refused`: if a line is faulty, and its fault was printed.
/// - `WriteFault`: if a line is faulty, and a write or a flush of its fault failed.
/// - `NoMemory`: if an allocation failed.
#[tactic(auto, using(crate::proofs::PartStatuses::not_listed))]
pub fn list_parts<'a, A: Allowance, V: Write>(
    memory: &A,
    text: &'a [u8],
    out: &mut Counted<V>,
) -> Result<ListedFolder<'a>, Status>
    ensures ok { IfOk result (IsReadFrom text.now) }
    ensures good { IfOk result IsListedFolder }
    ensures silent { OnOk result (out.new ≡ out.old) }
    ensures not { IfErr result (NotListed text.now V.contents out.old out.new) }
    ensures short { result ≡ Err Status.NoMemory → A.is_short memory.now }
{
    match read_folder(memory, text) {
        Ok(listed) => Ok(listed),
        Err(fault) if fault.fault == ScriptFault::OutOfMemory => Err(Status::NoMemory),
        Err(fault) => Err(say_line_fault(memory, fault, out)),
    }
}

/// Writes the file of the parts to `file_out`, and then prints `ok` and its size to `out`. If the
/// file would be too large, prints `bad TooLarge` instead. If a line `order` of an exact folder can't
/// be kept, prints `line`, its number and its fault.
#[tactic(auto, using(crate::proofs::PartStatuses::too_large, crate::proofs::PartStatuses::misplaced))]
pub fn cmd_pack_from<A: Allowance, W: Write, V: Write>(
    memory: &A,
    listed: &ListedFolder<'_>,
    parts: &[Bytes],
    file_out: &mut Counted<W>,
    out: &mut Counted<V>,
) -> Status
    requires { HasFolderParts listed.now parts.now }
    ensures ends { EndsPack listed.now parts.now W.contents file_out.old file_out.new
        V.contents out.old out.new result }
    ensures short { result ≡ Status.NoMemory → A.is_short memory.now }
{
    match listed.pack(memory, parts) {
        Ok(packed) => put_packed(&packed, file_out, out),
        Err(PackFault::BadLine(fault)) => say_line_fault(memory, fault, out),
        Err(PackFault::TooLarge) => say(b"bad TooLarge\n", Status::Refused, out),
        Err(PackFault::OutOfMemory) => Status::NoMemory,
    }
}

/// Writes a file that was put together, flushes `file_out`, and prints `ok` and its size.
#[tactic(auto, using(crate::proofs::PartStatuses::packed, crate::proofs::PartStatuses::cut_off))]
fn put_packed<W: Write, V: Write>(
    packed: &PackedFile<'_>,
    file_out: &mut Counted<W>,
    out: &mut Counted<V>,
) -> Status
    ensures ends { (folder : ListedFolder) → (parts : List (List ℕ)) → IsPackedOf folder parts packed.now
        → folder_size folder parts ≤ most_bytes
        → EndsPack folder parts W.contents file_out.old file_out.new V.contents out.old out.new result }
    ensures statuses { (result ≡ Status.Done) ⊎ (result ≡ Status.WriteFault) }
{
    match put_flushed(packed, file_out) {
        Ok(()) => say_count(packed.size(), out),
        Err(_) => Status::WriteFault,
    }
}

/// Writes a file that was put together, and flushes `file_out`.
#[tactic(auto, using(palm_text::proofs::Parts::then_flush))]
fn put_flushed<W: Write>(
    packed: &PackedFile<'_>,
    file_out: &mut Counted<W>,
) -> Result<(), WriteFault>
    ensures { Puts W.contents file_out.old file_out.new packed.now (is_ok result) }
{
    packed.put(file_out)?;
    flushed(file_out)
}
