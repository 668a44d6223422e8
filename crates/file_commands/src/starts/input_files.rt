//! The files that a command lists.

ghost use Rattle.std.specs.Prelude.{◌≡◌, ◌≢◌, ◌<◌, ◌≤◌, ◌⊎◌, None, Some, Ok, Err, IfOk, IfErr, IfSome, codes, length};
ghost use Rattle.pdb_format.specs.Opened.{most_file_bytes};
ghost use Rattle.file_commands.specs.FilesRead.{bytes_of_read};

use crate::starts::file_read::FileRead;
use crate::starts::file_start::{ReadStart, read_start};
use crate::starts::reads_at::{BySeeking, ReadsAt};
use allowance::Allowance;
use command_files::{STANDARD_STREAM, SizedFault, fail_to_read, read_file_or_input_within};
use heap_model::Bytes;
use pdb_format::MOST_FILE_BYTES;
use program_io::{InputFault, MOST_INPUT, Status};
use std::fs;
use std::fs::File;
use std::io::Input;
use std::rt::Files;

/// Reads what a listing needs of a file of at most `MOST_FILE_BYTES`: the first bytes of a regular
/// file that is longer than `MOST_INPUT`, and all bytes of any other. The path `-` means standard
/// input.
///
/// # Errors
/// - `ReadFault`: the file can't be read, or is longer than `MOST_FILE_BYTES`.
/// - `NoMemory`: an allocation failed.
pub fn read_listed<R: Files + Input + Eprint + AllocGlobal>(
    rt: &R,
    path: &str,
) -> Result<FileRead, Status>
    ensures limit { IfOk result (λ file. length (bytes_of_read file) ≤ most_file_bytes) }
    ensures faults { IfErr result (λ status. (status ≡ Status.ReadFault) ⊎ (status ≡ Status.NoMemory)) }
{
    match read_long(rt, path) {
        Ok(Some(start)) => return Ok(FileRead::Start(start)),
        Ok(None) => {}
        Err(fault) => return Err(fail_to_read(rt, path, fault)),
    }
    let bytes = read_file_or_input_within(rt, path, MOST_FILE_BYTES)?;
    Ok(FileRead::Whole(Bytes::of(bytes)))
}

/// Opens a file if the system reports that it is long, and reads the first bytes of it and of its
/// AppInfo. Returns `None` for any other file.
fn read_long<R: Files + AllocGlobal>(rt: &R, path: &str) -> Result<Option<ReadStart>, InputFault>
    ensures { IfOk result (λ read. IfSome read (λ start. length start ≤ most_file_bytes)) }
{
    let Some(size) = long_size(reported_size(rt, path)) else {
        return Ok(None);
    };
    match File::open(rt, path) {
        Ok(file) => read_sized(&rt.alloc(), &mut BySeeking::new(file), size),
        Err(error) => Err(InputFault::from(error)),
    }
}

/// Reads the first bytes of a file, and of its AppInfo. Returns `None` if the file doesn't have this
/// size.
///
/// # Errors
/// - `Memory`: an allocation failed.
/// - any other fault: a read failed.
fn read_sized<A: Allowance, F: ReadsAt>(
    memory: &A,
    file: &mut F,
    size: usize,
) -> Result<Option<ReadStart>, InputFault>
    requires long { MOST_INPUT < size }
    requires most { size ≤ most_file_bytes }
    ensures bytes { IfOk result (λ read. IfSome read (λ start.
        IfSome (F.bytes file.old) (λ all. start ≡ all))) }
    ensures len { IfOk result (λ read. IfSome read (λ start. length start ≡ size)) }
    ensures other { result ≡ Ok None → IfSome (F.bytes file.old) (λ all. length all ≢ size) }
    ensures no_memory { result ≡ Err InputFault.Memory → A.is_short memory.now }
    ensures fails { IfErr result (λ fault. (fault ≡ InputFault.Memory) ⊎ F.fails fault) }
{
    match read_start(memory, file, size) {
        Ok(start) => Ok(Some(start)),
        Err(SizedFault::OtherSize) => Ok(None),
        Err(SizedFault::Input(fault)) => Err(fault),
    }
}

/// Returns the size that the system reports of a regular file. Standard input has none.
fn reported_size<R: Files>(rt: &R, path: &str) -> Option<u64>
    ensures { path.now ≡ codes "-" → result ≡ None }
{
    if path == STANDARD_STREAM {
        return None;
    }
    match fs::metadata(rt, path) {
        Ok(found) if found.is_file() => Some(found.len()),
        _ => None,
    }
}

/// Returns the size of a file of which only the first bytes are read: if the system reports a size, and
/// it is above `MOST_INPUT` and at most `MOST_FILE_BYTES`.
fn long_size(reported: Option<u64>) -> Option<usize>
    ensures is { IfSome result (λ size. reported ≡ Some size) }
    ensures long { IfSome result (λ size. (MOST_INPUT < size) × (size ≤ most_file_bytes)) }
    ensures none { result ≡ None
        → IfSome reported (λ size. (size ≤ MOST_INPUT) ⊎ (most_file_bytes < size)) }
{
    match reported {
        Some(size) if size > MOST_INPUT as u64 && size <= MOST_FILE_BYTES as u64 => {
            Some(size as usize)
        }
        _ => None,
    }
}
