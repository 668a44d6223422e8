//! The commands `unpack` and `pack`, over files and folders.

ghost use Rattle.std.specs.Prelude.{[], ◌≡◌, ◌≢◌, ◌≤◌, ◌<◌, ◌⊎◌, ◌+◌, ◌++◌, ◌∷◌, Err, IfOk, IfErr, OnOk, codes, length, string_bytes};
ghost use Rattle.file_parts.specs.Unpacking.{name_text};
ghost use Rattle.file_parts.specs.Either.{HasFolderParts, IsListedFolder, IsTakenApart, folder_count, taken_count};
ghost use Rattle.file_commands.specs.Parts.{file_count, parts_below};

use crate::comments::{DROPPED, comment_on_file, comment_on_order, comment_on_text, name_dropped};
use crate::file_rewrites::BUFFER_SIZE;
use crate::parts::{cmd_pack_from, list_parts, put_text, say_count, unpack_file};
use allowance::{Allowance, push};
use canonical_file::MOST_BYTES;
use command_files::{
    OutputKind, STANDARD_OUTPUT, buffered_fault, fail, output_for, read_file_or_input_within,
    read_file_within,
};
use file_parts::{FolderForm, ListedFolder, Part, PartName, TakenApart};
use heap_model::Bytes;
use palm_text::Counted;
use program_io::{
    MOST_INPUT, Noted, Status, report_fault, report_outcome, report_write_fault, say,
};
use std::alloc::{AllocError, Global};
use std::fs::File;
use std::io::{BufWriter, Input, Write};
use std::rt::Files;
use std::{fs, io, str};

/// The name of the text in a folder of parts.
const TEXT_NAME: &str = "database";

/// The name of the text while it is written. No part has it.
const UNFINISHED_TEXT: &str = "database.palmheap-new";

/// Runs `unpack`. The path `-` means standard input.
pub fn unpack<R: Files + Input + Print + Eprint + AllocGlobal>(
    rt: &R,
    path: &str,
    folder: &str,
    form: FolderForm,
) -> Status
    ensures { result ≢ Status.BadWords }
{
    let file = match read_file_or_input_within(rt, path, MOST_BYTES) {
        Ok(file) => file,
        Err(status) => return status,
    };
    let status = unpack_to(rt, file.as_slice(), folder, form);
    comment_on_file(rt, path, status, &file.as_slice());
    if form == FolderForm::Canonical {
        name_dropped(rt, path, status, &file.as_slice(), DROPPED);
    }
    status
}

/// Makes a folder with the parts of a file and the text, and prints `ok` and the number of files.
fn unpack_to<R: Files + Print + Eprint + AllocGlobal>(
    rt: &R,
    file: &[u8],
    folder: &str,
    form: FolderForm,
) -> Status
    requires { length file.now ≤ MOST_BYTES }
    ensures { result ≢ Status.BadWords }
{
    let mut out = Counted::new(Noted::new(io::writer(rt)));
    let unpacked = match unpack_file(&rt.alloc(), form, file, &mut out) {
        Ok(unpacked) => unpacked,
        Err(status) => return reported(rt, status, out),
    };
    match make_folder(rt, folder, &unpacked) {
        Ok(count) => {
            let status = say_count(count, &mut out);
            reported(rt, status, out)
        }
        Err(status) => status,
    }
}

/// Runs `pack`.
pub fn pack<R: Files + Print + Eprint + AllocGlobal>(rt: &R, folder: &str, out_path: &str) -> Status
    ensures { result ≢ Status.BadWords }
{
    let text = match read_text(rt, folder) {
        Ok(text) => text,
        Err(status) => return status,
    };
    let mut out = Counted::new(Noted::new(io::writer(rt)));
    let listed = match list_parts(&rt.alloc(), text.as_slice(), &mut out) {
        Ok(listed) => listed,
        Err(status) => {
            let status = reported(rt, status, out);
            if let Ok(path) = path_in(rt.alloc(), folder, TEXT_NAME) {
                comment_on_text(rt, path.as_str(), status, text.as_slice());
            }
            return status;
        }
    };
    match read_parts(rt, folder, &listed) {
        Ok(parts) => {
            let status = pack_to(rt, &listed, &parts, out_path, out);
            if let Ok(path) = path_in(rt.alloc(), folder, TEXT_NAME) {
                comment_on_order(rt, path.as_str(), status, &listed, &parts);
            }
            status
        }
        Err(Status::Refused) => {
            let status = say(b"bad TooLarge\n", Status::Refused, &mut out);
            reported(rt, status, out)
        }
        Err(status) => status,
    }
}

/// Reports why a command that writes only to standard output failed, if it did, and returns its
/// status.
fn reported<R: Eprint, W: Write + Drop>(rt: &R, status: Status, out: Counted<Noted<W>>) -> Status
    ensures { result ≡ status }
{
    let (_, fault) = out.into_inner().into_parts();
    report_outcome(rt, status, &[(STANDARD_OUTPUT, fault)]);
    status
}

/// Writes the file of the parts, and prints `ok` and its length. A heap image isn't replaced.
fn pack_to<R: Files + Eprint + AllocGlobal, W: Write + Drop>(
    rt: &R,
    listed: &ListedFolder<'_>,
    parts: &[Bytes],
    path: &str,
    mut out: Counted<Noted<W>>,
) -> Status
    requires { HasFolderParts listed.now parts.now }
    ensures { result ≢ Status.BadWords }
{
    let mut file_out = match output_for(rt, path, OutputKind::Database) {
        Ok(file_out) => file_out,
        Err(status) => return status,
    };
    let (status, file_fault) = write_packed(rt.alloc(), listed, parts, &mut file_out, &mut out);
    file_out.close();
    let (_, fault) = out.into_inner().into_parts();
    report_outcome(rt, status, &[(path, file_fault), (STANDARD_OUTPUT, fault)]);
    status
}

/// Writes the file of the parts to `file_out`, and its line to `out`. A buffer collects the parts,
/// which may be small. Returns the status, and the first error of `file_out`.
fn write_packed<W: Write + Drop, V: Write>(
    alloc: Global,
    listed: &ListedFolder<'_>,
    parts: &[Bytes],
    file_out: W,
    out: &mut Counted<V>,
) -> (Status, Option<io::Error>)
    requires { HasFolderParts listed.now parts.now }
    ensures { result.0 ≢ Status.BadWords }
{
    let Ok(file_out) = BufWriter::with_capacity(alloc, BUFFER_SIZE, Noted::new(file_out)) else {
        return (Status::NoMemory, None);
    };
    let mut file_out = Counted::new(file_out);
    let status = cmd_pack_from(&alloc, listed, parts, &mut file_out, out);
    (status, buffered_fault(file_out.into_inner()))
}

/// Returns the path of a file in a folder.
pub fn path_in(alloc: Global, folder: &str, name: &str) -> Result<String, AllocError>
    ensures { IfOk result (λ path. string_bytes path ≡ folder.now ++ (codes "/" ++ name.now)) }
{
    format!(in alloc; "{folder}/{name}")
}

/// Returns the path of a part in a folder.
fn part_path(alloc: Global, folder: &str, name: PartName) -> Result<String, AllocError>
    ensures { IfOk result (λ path.
        string_bytes path ≡ folder.now ++ (codes "/" ++ name_text name)) }
{
    match name {
        PartName::App => format!(in alloc; "{folder}/app"),
        PartName::Sort => format!(in alloc; "{folder}/sort"),
        PartName::Filler => format!(in alloc; "{folder}/filler"),
        PartName::Entry(index) => format!(in alloc;
            "{folder}/{}{}{}{}{}",
            index / 10_000,
            index / 1_000 % 10,
            index / 100 % 10,
            index / 10 % 10,
            index % 10
        ),
    }
}

/// Makes a folder with the parts of a file and the text, and returns how many files it has. If a
/// step fails, it removes the files that it made, and the folder. It writes the text last, and under
/// another name first. So a folder with a text is whole, also if the run is killed.
fn make_folder<R: Files + Eprint + AllocGlobal>(
    rt: &R,
    folder: &str,
    unpacked: &TakenApart<'_>,
) -> Result<usize, Status>
    requires { IsTakenApart unpacked.now }
    ensures count { IfOk result (λ count. count ≡ file_count unpacked.now) }
    ensures faults { IfErr result (λ status. (status ≡ Status.WriteFault) ⊎ (status ≡ Status.NoMemory)) }
{
    if let Err(reason) = fs::create_dir(rt, folder) {
        report_write_fault(rt, folder, reason);
        return Err(Status::WriteFault);
    }
    let mut made = Made { ranks: 0, files: 0 };
    let status = write_all(rt, folder, unpacked, &mut made);
    if status == Status::Done {
        return Ok(made.files + 1);
    }
    remove_parts(rt, folder, unpacked, made.ranks);
    let _ = fs::remove_dir(rt, folder);
    Err(status)
}

/// Writes the parts of a file into a folder, and then the text, up to the first that can't be written.
fn write_all<R: Files + Eprint + AllocGlobal>(
    rt: &R,
    folder: &str,
    unpacked: &TakenApart<'_>,
    made: &mut Made,
) -> Status
    requires taken { IsTakenApart unpacked.now }
    requires none { made.old.ranks ≡ 0 }
    requires no_files { made.old.files ≡ 0 }
    ensures statuses { (result ≡ Status.Done) ⊎ (result ≡ Status.WriteFault)
        ⊎ (result ≡ Status.NoMemory) }
    ensures files { result ≡ Status.Done → made.new.files + 1 ≡ file_count unpacked.now }
    ensures inside { made.new.ranks ≤ taken_count unpacked.now }
    ensures few { made.new.files ≤ 65538 }
{
    match write_parts(rt, folder, unpacked, made) {
        Status::Done => write_text(rt, folder, unpacked),
        status => status,
    }
}

/// The number of ranks of a file that were done, and the number of parts that were written for
/// them.
#[derive(Clone, Copy)]
struct Made {
    ranks: usize,
    files: usize,
}

/// Writes the parts of a file into a folder, up to the first that can't be written.
#[tactic(auto, using(crate::proofs::PartCounts::none_yet, crate::proofs::PartCounts::one_more, crate::proofs::PartCounts::none_more))]
fn write_parts<R: Files + Eprint + AllocGlobal>(
    rt: &R,
    folder: &str,
    unpacked: &TakenApart<'_>,
    made: &mut Made,
) -> Status
    requires none { made.old.ranks ≡ 0 }
    requires no_files { made.old.files ≡ 0 }
    ensures statuses { (result ≡ Status.Done) ⊎ (result ≡ Status.WriteFault)
        ⊎ (result ≡ Status.NoMemory) }
    ensures all { result ≡ Status.Done → made.new.ranks ≡ taken_count unpacked.now }
    ensures inside { made.new.ranks ≤ taken_count unpacked.now }
    ensures files { made.new.files ≡ parts_below unpacked.now made.new.ranks }
    ensures few { made.new.files ≤ made.new.ranks }
    ensures most { made.new.ranks ≤ 65538 }
{
    for rank in 0..unpacked.part_count() {
        if let Some(part) = unpacked.part(rank) {
            let status = write_part(rt, folder, part);
            if status != Status::Done {
                return status;
            }
            made.files += 1;
        }
        made.ranks += 1;
    }
    Status::Done
}

/// Writes a part into a folder. If that fails, reports why.
fn write_part<R: Files + Eprint + AllocGlobal>(rt: &R, folder: &str, part: Part<'_>) -> Status
    ensures { (result ≡ Status.Done) ⊎ (result ≡ Status.WriteFault) ⊎ (result ≡ Status.NoMemory) }
{
    let Ok(path) = part_path(rt.alloc(), folder, part.name) else {
        return fail(rt, Status::NoMemory);
    };
    match write_new(rt, path.as_str(), part.bytes) {
        Ok(()) => Status::Done,
        Err(reason) => {
            report_write_fault(rt, path.as_str(), reason);
            Status::WriteFault
        }
    }
}

/// Writes a file that isn't there yet. Removes it if it can't be written whole.
fn write_new<R: Files>(rt: &R, path: &str, bytes: &[u8]) -> io::Result<()> {
    let mut file = File::create_new(rt, path)?;
    let written = file.write_all(bytes);
    if written.is_err() {
        drop(file);
        let _ = fs::remove_file(rt, path);
    }
    written
}

/// Writes the text of an unpacked file into a folder. If that fails, reports why.
fn write_text<R: Files + Eprint + AllocGlobal>(
    rt: &R,
    folder: &str,
    unpacked: &TakenApart<'_>,
) -> Status
    requires { IsTakenApart unpacked.now }
    ensures { (result ≡ Status.Done) ⊎ (result ≡ Status.WriteFault) ⊎ (result ≡ Status.NoMemory) }
{
    let Ok(path) = path_in(rt.alloc(), folder, TEXT_NAME) else {
        return fail(rt, Status::NoMemory);
    };
    let Ok(unfinished) = path_in(rt.alloc(), folder, UNFINISHED_TEXT) else {
        return fail(rt, Status::NoMemory);
    };
    let (mut status, mut fault) = write_lines_to(rt, unfinished.as_str(), unpacked);
    if status == Status::Done {
        if let Err(reason) = fs::rename(rt, unfinished.as_str(), path.as_str()) {
            status = Status::WriteFault;
            fault = Some(reason);
        }
    }
    if status != Status::Done {
        let _ = fs::remove_file(rt, unfinished.as_str());
    }
    report_outcome(rt, status, &[(path.as_str(), fault)]);
    status
}

/// Writes the text of an unpacked file to a path with no file. Also returns the writer's first
/// error.
fn write_lines_to<R: Files + AllocGlobal>(
    rt: &R,
    path: &str,
    unpacked: &TakenApart<'_>,
) -> (Status, Option<io::Error>)
    requires { IsTakenApart unpacked.now }
    ensures { (result.0 ≡ Status.Done) ⊎ (result.0 ≡ Status.WriteFault)
        ⊎ (result.0 ≡ Status.NoMemory) }
{
    match File::create_new(rt, path) {
        Ok(created) => write_lines(rt, created, unpacked),
        Err(reason) => (Status::WriteFault, Some(reason)),
    }
}

/// Writes the text of an unpacked file, and flushes. Also returns the writer's first error.
fn write_lines<R: AllocGlobal, W: Write + Drop>(
    rt: &R,
    created: W,
    unpacked: &TakenApart<'_>,
) -> (Status, Option<io::Error>)
    requires { IsTakenApart unpacked.now }
    ensures { (result.0 ≡ Status.Done) ⊎ (result.0 ≡ Status.WriteFault)
        ⊎ (result.0 ≡ Status.NoMemory) }
{
    let Ok(text) = BufWriter::new(rt.alloc(), Noted::new(created)) else {
        return (Status::NoMemory, None);
    };
    let mut text = Counted::new(text);
    let status = match put_text(unpacked, &mut text) {
        Ok(()) => Status::Done,
        Err(_) => Status::WriteFault,
    };
    (status, buffered_fault(text.into_inner()))
}

/// Removes the parts of the first ranks from a folder.
fn remove_parts<R: Files + AllocGlobal>(
    rt: &R,
    folder: &str,
    unpacked: &TakenApart<'_>,
    ranks: usize,
)
    requires { ranks ≤ taken_count unpacked.now }
{
    for rank in 0..ranks {
        if let Some(part) = unpacked.part(rank) {
            if let Ok(path) = part_path(rt.alloc(), folder, part.name) {
                let _ = fs::remove_file(rt, path.as_str());
            }
        }
    }
}

/// Reads the text of a folder of parts.
fn read_text<R: Files + Eprint + AllocGlobal>(rt: &R, folder: &str) -> Result<Vec<u8>, Status>
    ensures { IfErr result (λ status. (status ≡ Status.ReadFault) ⊎ (status ≡ Status.NoMemory)) }
{
    read_in(rt, folder, TEXT_NAME, MOST_INPUT)
}

/// Reads a file of a folder, of at most `most` bytes. Refuses a link, a folder or a device.
fn read_in<R: Files + Eprint + AllocGlobal>(
    rt: &R,
    folder: &str,
    name: &str,
    most: usize,
) -> Result<Vec<u8>, Status>
    ensures { IfErr result (λ status. (status ≡ Status.ReadFault) ⊎ (status ≡ Status.NoMemory)) }
{
    let Ok(path) = path_in(rt.alloc(), folder, name) else {
        return Err(fail(rt, Status::NoMemory));
    };
    match fs::symlink_metadata(rt, path.as_str()) {
        Ok(found) if !found.is_file() => {
            report_fault(rt, Status::ReadFault);
            let _ = eprintln!(rt; "{path}: not a file");
            Err(Status::ReadFault)
        }
        _ => read_file_within(rt, path.as_str(), most),
    }
}

/// Reads the parts of a listed folder, by their numbers. The error `Refused` means that they have
/// more bytes than a file may have.
#[tactic(auto, using(crate::proofs::PartStatuses::has_parts))]
fn read_parts<R: Files + Eprint + AllocGlobal>(
    rt: &R,
    folder: &str,
    listed: &ListedFolder<'_>,
) -> Result<Vec<Bytes>, Status>
    requires { IsListedFolder listed.now }
    ensures parts { IfOk result (λ parts. HasFolderParts listed.now parts.items) }
    ensures faults { IfErr result (λ status. (status ≡ Status.ReadFault)
        ⊎ (status ≡ Status.NoMemory) ⊎ (status ≡ Status.Refused)) }
{
    let mut parts = Vec::new(rt.alloc());
    let mut left = MOST_BYTES;
    for rank in 0..listed.part_count() {
        let bytes = read_rank(rt, folder, listed, rank)?;
        match add_part(&rt.alloc(), &mut parts, left, bytes) {
            Ok(rest) => left = rest,
            Err(Status::NoMemory) => return Err(fail(rt, Status::NoMemory)),
            Err(status) => return Err(status),
        }
    }
    Ok(parts)
}

/// Appends the bytes of a part, if they are at most `left`. Returns the number of bytes that are left
/// for the next parts.
///
/// # Errors
/// - `Refused`: the part has more than `left` bytes.
/// - `NoMemory`: an allocation failed.
fn add_part<A: Allowance>(
    memory: &A,
    parts: &mut Vec<Bytes>,
    left: usize,
    bytes: Vec<u8>,
) -> Result<usize, Status>
    ensures added { OnOk result (parts.new.items ≡ parts.old.items ++ (bytes.items ∷ [])) }
    ensures left { IfOk result (λ rest. rest + length bytes.items ≡ left) }
    ensures refused { result ≡ Err Status.Refused → left < length bytes.items }
    ensures no_memory { result ≡ Err Status.NoMemory → A.is_short memory.now }
    ensures faults { IfErr result (λ status. (status ≡ Status.Refused) ⊎ (status ≡ Status.NoMemory)) }
{
    let Some(rest) = left.checked_sub(bytes.len()) else {
        return Err(Status::Refused);
    };
    match push(memory, parts, Bytes::of(bytes)) {
        Ok(()) => Ok(rest),
        Err(_) => Err(Status::NoMemory),
    }
}

/// Reads the part of a rank: no bytes if there is none.
fn read_rank<R: Files + Eprint + AllocGlobal>(
    rt: &R,
    folder: &str,
    listed: &ListedFolder<'_>,
    rank: usize,
) -> Result<Vec<u8>, Status>
    requires good { IsListedFolder listed.now }
    requires inside { rank < folder_count listed.now }
    ensures { IfErr result (λ status. (status ≡ Status.ReadFault) ⊎ (status ≡ Status.NoMemory)) }
{
    let Some(part) = listed.part(rank) else {
        return Ok(Vec::new(rt.alloc()));
    };
    match str::from_utf8(part.name()) {
        Ok(name) => read_in(rt, folder, name, MOST_BYTES),
        Err(_) => Err(fail(rt, Status::ReadFault)),
    }
}
