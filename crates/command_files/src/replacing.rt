//! Output files that don't replace a file of the other kind: an image replaces no PDB or PRC file,
//! such a file replaces no image, and a picture replaces neither.

ghost use Rattle.std.specs.Prelude.{◌||◌, ◌≡◌, ◌⊎◌, Err, IfErr, IsTrue, false, length};
ghost use Rattle.std.specs.Io.KnownBytes.{Consumes};
ghost use Rattle.command_files.specs.Replacing.{head_size, looks_like_other};

use crate::faults::fail;
use hints::{DATABASE_HEADER_SIZE, IMAGE_HEADER_SIZE, looks_like_database, looks_like_image};
use program_io::{OutputFile, Status};
use std::fs;
use std::fs::File;
use std::io::Read;
use std::rt::Files;

/// A kind of file that is written. It replaces no file of the other kind.
#[derive(Clone, Copy)]
pub enum OutputKind {
    /// A heap image.
    Image,
    /// A PDB or PRC file.
    Database,
}

/// Returns a writer for a file of a kind at a path. Nothing is opened for it yet. If there is a file
/// that looks like one of the other kind, reports that and returns an error, so that the file stays.
///
/// # Errors
/// - `WriteFault`: there is such a file.
/// - `NoMemory`: an allocation failed.
pub fn output_for<'a, R: Files + Eprint + AllocGlobal>(
    rt: &'a R,
    path: &str,
    kind: OutputKind,
) -> Result<OutputFile<'a, R>, Status>
    ensures { IfErr result (λ status. (status ≡ Status.WriteFault) ⊎ (status ≡ Status.NoMemory)) }
{
    match kind {
        OutputKind::Image => output_unless(rt, path, kind, &mut [0; DATABASE_HEADER_SIZE]),
        OutputKind::Database => output_unless(rt, path, kind, &mut [0; IMAGE_HEADER_SIZE]),
    }
}

/// Does the same. `head` is for the first bytes of a file that is there, as many as show whether it
/// is one of the other kind.
fn output_unless<'a, R: Files + Eprint + AllocGlobal>(
    rt: &'a R,
    path: &str,
    kind: OutputKind,
    head: &mut [u8],
) -> Result<OutputFile<'a, R>, Status>
    requires { length head.old ≡ head_size kind }
    ensures { IfErr result (λ status. (status ≡ Status.WriteFault) ⊎ (status ≡ Status.NoMemory)) }
{
    if has_head(rt, path, head) {
        return output_over(rt, path, kind, head);
    }
    unopened(rt, path)
}

/// Returns a writer for a file of a kind in place of a file that begins with these bytes. If they
/// look like those of a file of the other kind, reports that.
fn output_over<'a, R: Files + Eprint + AllocGlobal>(
    rt: &'a R,
    path: &str,
    kind: OutputKind,
    head: &[u8],
) -> Result<OutputFile<'a, R>, Status>
    ensures kept { IsTrue (looks_like_other kind head.now) → result ≡ Err Status.WriteFault }
    ensures replaced { looks_like_other kind head.now ≡ false
        → IfErr result (λ status. status ≡ Status.NoMemory) }
{
    let (stays, why) = match kind {
        OutputKind::Image => (
            looks_like_database(head),
            "looks like a PDB or PRC file, and an image doesn't replace it",
        ),
        OutputKind::Database => (
            looks_like_image(head),
            "looks like a heap image, and a PDB or PRC file doesn't replace it",
        ),
    };
    if stays {
        return Err(fail_to_replace(rt, path, why));
    }
    unopened(rt, path)
}

/// Returns a writer for a picture at a path. Nothing is opened for it yet. If there is a file that
/// looks like a heap image, or like a PDB or PRC file, reports that and returns an error, so that
/// the file stays.
///
/// # Errors
/// - `WriteFault`: there is such a file.
/// - `NoMemory`: an allocation failed.
pub fn output_for_picture<'a, R: Files + Eprint + AllocGlobal>(
    rt: &'a R,
    path: &str,
) -> Result<OutputFile<'a, R>, Status>
    ensures { IfErr result (λ status. (status ≡ Status.WriteFault) ⊎ (status ≡ Status.NoMemory)) }
{
    let is_image = is_image(rt, path);
    let is_database = is_database(rt, path);
    picture_unless(rt, path, is_image, is_database)
}

/// Returns a writer for a picture, unless the file at the path looks like a heap image, or like a
/// PDB or PRC file. Reports that.
fn picture_unless<'a, R: Files + Eprint + AllocGlobal>(
    rt: &'a R,
    path: &str,
    is_image: bool,
    is_database: bool,
) -> Result<OutputFile<'a, R>, Status>
    ensures kept { IsTrue (is_image || is_database) → result ≡ Err Status.WriteFault }
    ensures replaced { (is_image || is_database) ≡ false
        → IfErr result (λ status. status ≡ Status.NoMemory) }
{
    if is_image || is_database {
        let kept =
            "looks like a heap image, or a PDB or PRC file, and a picture doesn't replace it";
        return Err(fail_to_replace(rt, path, kept));
    }
    unopened(rt, path)
}

/// Returns whether there is a file at a path that looks like a heap image.
fn is_image<R: Files>(rt: &R, path: &str) -> bool {
    let mut head = [0; IMAGE_HEADER_SIZE];
    has_head(rt, path, &mut head) && looks_like_image(&head)
}

/// Returns whether there is a file at a path that looks like a PDB or PRC file.
fn is_database<R: Files>(rt: &R, path: &str) -> bool {
    let mut head = [0; DATABASE_HEADER_SIZE];
    has_head(rt, path, &mut head) && looks_like_database(&head)
}

/// Returns a writer for a path, with nothing opened yet.
fn unopened<'a, R: Files + Eprint + AllocGlobal>(
    rt: &'a R,
    path: &str,
) -> Result<OutputFile<'a, R>, Status>
    ensures { IfErr result (λ status. status ≡ Status.NoMemory) }
{
    match OutputFile::new(rt, path) {
        Ok(out) => Ok(out),
        Err(_) => Err(fail(rt, Status::NoMemory)),
    }
}

/// Reads the first bytes of the file at a path, as many as `head` has. Returns whether there is a
/// file with that many bytes. It opens no pipe and no device.
fn has_head<R: Files>(rt: &R, path: &str, head: &mut [u8]) -> bool {
    match fs::metadata(rt, path) {
        Ok(found) if found.is_file() => {}
        _ => return false,
    }
    match File::open(rt, path) {
        Ok(mut file) => read_head(&mut file, head),
        Err(_) => false,
    }
}

/// Reads the first bytes of a file, as many as `head` has. Returns whether it succeeded.
fn read_head<F: Read>(file: &mut F, head: &mut [u8]) -> bool
    ensures { IsTrue result → Consumes (F.remaining file.old) (F.remaining file.new) head.new }
{
    file.read_exact(head).is_ok()
}

/// Reports on standard error why a file isn't replaced, and returns `WriteFault`.
fn fail_to_replace<R: Eprint>(rt: &R, path: &str, why: &str) -> Status
    ensures { result ≡ Status.WriteFault }
{
    let status = fail(rt, Status::WriteFault);
    let _ = eprintln!(rt; "{path}: {why}");
    status
}
