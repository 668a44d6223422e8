//! The files that a command reads and writes. If a file can't be read or written, the reason is
//! printed on standard error.

ghost use Rattle.std.specs.Prelude.{[], ◌≡◌, ◌≢◌, ◌≤◌, ◌<◌, ◌⊎◌, ◌++◌, Err, IfOk, IfErr, IfSome, OnOk, codes, decimal, length, string_bytes, vec_len};
ghost use Rattle.std.specs.Io.KnownBytes.{IsAtEnd};
ghost use Rattle.program_io.specs.Status.{IsOfReadingWithin};
ghost use Rattle.hints.specs.Lookalikes.{looks_like_database};

use crate::faults::{STANDARD_INPUT, STANDARD_STREAM, fail, fail_to_read};
use crate::outputs::close_output;
use crate::region_input::{SizedFault, read_sized, size_of};
use crate::replacing::{OutputKind, output_for};
use crate::suggestions::suggest_list;
use allowance::Allowance;
use heap_model::Bytes;
use hints::looks_like_database;
use palm_text::{Counted, put};
use program_io::{InputFault, MOST_INPUT, Noted, Status, read_within, report_outcome};
use raw_region::Region;
use std::alloc::{AllocError, Global};
use std::fs;
use std::fs::File;
use std::io::{Input, Read};
use std::rt::Files;

/// Reads a whole file of at most `most` bytes.
///
/// # Errors
/// - `ReadFault`: the file can't be read, or is longer than `most`.
/// - `NoMemory`: an allocation failed.
pub fn read_file_within<R: Files + Eprint + AllocGlobal>(
    rt: &R,
    path: &str,
    most: usize,
) -> Result<Vec<u8>, Status>
    ensures limit { IfOk result (λ bytes. vec_len bytes ≤ most) }
    ensures faults { IfErr result (λ status. (status ≡ Status.ReadFault) ⊎ (status ≡ Status.NoMemory)) }
{
    let read = match File::open(rt, path) {
        Ok(mut file) => {
            let size = size_of(rt, path).unwrap_or(0);
            read_opened(&rt.alloc(), &mut file, size, most)
        }
        Err(error) => Err(InputFault::from(error)),
    };
    match read {
        Ok(bytes) => Ok(bytes),
        Err(fault) => Err(fail_to_read(rt, path, fault)),
    }
}

/// Reads a whole file that is open, of at most `most` bytes. `size` is the size that the system
/// reports, or 0 if it reports none. It takes memory for `size` bytes at once, or reads nothing if
/// `size` is above `most`.
fn read_opened<A: Allowance, F: Read>(
    memory: &A,
    file: &mut F,
    size: u64,
    most: usize,
) -> Result<Vec<u8>, InputFault>
    ensures limit { IfOk result (λ bytes. vec_len bytes ≤ most) }
    ensures bytes { IfOk result (λ bytes. IfSome (F.remaining file.old) (λ all. bytes.items ≡ all)) }
    ensures end { OnOk result (IsAtEnd (F.remaining file.new)) }
    ensures above { most < size → result ≡ Err (InputFault.LongerThan most) }
    ensures unread { most < size → file.new ≡ file.old }
    ensures too_long { result ≡ Err (InputFault.LongerThan most)
        → (most < size) ⊎ IfSome (F.remaining file.old) (λ all. most < length all) }
    ensures no_memory { result ≡ Err InputFault.Memory → A.is_short memory.now }
    ensures of_reading { IfErr result (IsOfReadingWithin most) }
{
    if size > most as u64 {
        return Err(InputFault::LongerThan(most));
    }
    read_within(memory, file, size as usize, most)
}

/// The same as `read_file_within`. The path `-` means standard input.
pub fn read_file_or_input_within<R: Files + Input + Eprint + AllocGlobal>(
    rt: &R,
    path: &str,
    most: usize,
) -> Result<Vec<u8>, Status>
    ensures limit { IfOk result (λ bytes. vec_len bytes ≤ most) }
    ensures faults { IfErr result (λ status. (status ≡ Status.ReadFault) ⊎ (status ≡ Status.NoMemory)) }
{
    if path != STANDARD_STREAM {
        return read_file_within(rt, path, most);
    }
    match read_within(&rt.alloc(), &mut rt.reader(), 0, most) {
        Ok(bytes) => Ok(bytes),
        Err(fault) => Err(fail_to_read(rt, STANDARD_INPUT, fault)),
    }
}

/// Reads a whole file into a region, and returns too whether it looks like a PDB or PRC file. The
/// path `-` means standard input. Of a file it makes no other copy, unless the size of the file
/// changes meanwhile.
///
/// # Errors
/// - `ReadFault`: the file can't be read, or is longer than `MOST_INPUT`.
/// - `NoMemory`: an allocation failed.
pub fn read_image<R: Files + Input + Eprint + AllocGlobal>(
    rt: &R,
    path: &str,
) -> Result<(Region, bool), Status>
    ensures limit { IfOk result (λ read. length read.0.bytes ≤ MOST_INPUT) }
    ensures whole { IfOk result (λ read. read.0.lents ≡ []) }
    ensures is_file { IfOk result (λ read. read.1 ≡ looks_like_database read.0.bytes) }
    ensures faults { IfErr result (λ status. (status ≡ Status.ReadFault) ⊎ (status ≡ Status.NoMemory)) }
{
    if path != STANDARD_STREAM {
        match read_sized(rt, path) {
            Ok(region) => return Ok(looked_at(region)),
            Err(SizedFault::Input(fault)) => return Err(fail_to_read(rt, path, fault)),
            Err(SizedFault::OtherSize) => {}
        }
    }
    let bytes = read_file_or_input_within(rt, path, MOST_INPUT)?;
    match Region::copied_from(&rt.alloc(), bytes.as_slice()) {
        Ok(region) => Ok(looked_at(region)),
        Err(_) => Err(fail(rt, Status::NoMemory)),
    }
}

/// Reads an image as `read_image` does, does a command on it, and returns its status. If the image
/// is refused and looks like a PDB or PRC file, reports that.
pub fn on_image<R: Files + Input + Eprint + AllocGlobal, F: FnOnce(Region) -> Status>(
    rt: &R,
    path: &str,
    command: F,
) -> Status
    requires callable { (image : _) → image.lents ≡ [] → F.pre command image }
    requires good_words { (image : _) (status : _) → F.post command image status
        → status ≢ Status.BadWords }
    ensures { result ≢ Status.BadWords }
{
    match read_image(rt, path) {
        Ok((image, is_file)) => {
            let status = command(image);
            suggest_list(rt, path, status, is_file);
            status
        }
        Err(status) => status,
    }
}

/// Returns an image, and whether it looks like a PDB or PRC file.
fn looked_at(image: Region) -> (Region, bool)
    requires { image.lents ≡ [] }
    ensures image { result.0 ≡ image }
    ensures is_file { result.1 ≡ looks_like_database image.bytes }
{
    let is_file = looks_like_database(image.as_slice());
    (image, is_file)
}

/// Reads some files as wholes, in order. The path `-` means standard input.
///
/// # Errors
/// - `ReadFault`: a file can't be read, or is longer than `MOST_INPUT`.
/// - `NoMemory`: an allocation failed.
pub fn read_files<R: Files + Input + Eprint + AllocGlobal>(
    rt: &R,
    paths: &[&str],
) -> Result<Vec<Bytes>, Status>
    ensures count { IfOk result (λ files. vec_len files ≡ length paths.now) }
    ensures faults { IfErr result (λ status. (status ≡ Status.ReadFault) ⊎ (status ≡ Status.NoMemory)) }
{
    let mut files = Vec::new(rt.alloc());
    for path in paths {
        let file = Bytes::of(read_file_or_input_within(rt, path, MOST_INPUT)?);
        if files.push(file).is_err() {
            return Err(fail(rt, Status::NoMemory));
        }
    }
    Ok(files)
}

/// Writes each exported file next to the image. The path of a file is the path of the image
/// followed by a point and the file's number, from 1 on. The files after one that can't be written
/// aren't written.
pub fn write_files<R: Files + Eprint + AllocGlobal>(rt: &R, path: &str, files: &[Bytes]) -> Status
    ensures { (result ≡ Status.Done) ⊎ (result ≡ Status.WriteFault) ⊎ (result ≡ Status.NoMemory) }
{
    for (index, file) in files.iter().enumerate() {
        let Ok(path) = export_path(rt.alloc(), path, index + 1) else {
            return fail(rt, Status::NoMemory);
        };
        let status = write_file(rt, path.as_str(), file.as_slice());
        if status != Status::Done {
            return status;
        }
    }
    Status::Done
}

/// Reports on standard error which exported files of an earlier run are next to the image. `count`
/// is the number of files that this run wrote. It reports them in order, up to the first number
/// without a file.
pub fn report_left_files<R: Files + Eprint + AllocGlobal>(rt: &R, path: &str, count: usize) {
    for number in count..usize::MAX {
        let Ok(left) = export_path(rt.alloc(), path, number + 1) else {
            return;
        };
        match fs::metadata(rt, left.as_str()) {
            Ok(found) if found.is_file() => {
                let _ = eprintln!(rt; "{left} is from an earlier run");
            }
            _ => return,
        }
    }
}

/// Returns the path of an exported file: the path of the image, a point and the file's number, from
/// 1 on.
fn export_path(alloc: Global, image: &str, number: usize) -> Result<String, AllocError>
    ensures { IfOk result (λ path.
        string_bytes path ≡ image.now ++ (codes "." ++ decimal number)) }
{
    format!(in alloc; "{image}.{number}")
}

/// Writes a PDB or PRC file as a whole, or not at all. A heap image isn't replaced.
pub fn write_file<R: Files + Eprint + AllocGlobal>(rt: &R, path: &str, bytes: &[u8]) -> Status
    ensures { (result ≡ Status.Done) ⊎ (result ≡ Status.WriteFault) ⊎ (result ≡ Status.NoMemory) }
{
    let out = match output_for(rt, path, OutputKind::Database) {
        Ok(out) => out,
        Err(status) => return status,
    };
    let mut out = Counted::new(Noted::new(out));
    let status = match put(&mut out, bytes) {
        Ok(()) => Status::Done,
        Err(_) => Status::WriteFault,
    };
    report_outcome(rt, status, &[(path, close_output(out))]);
    status
}
