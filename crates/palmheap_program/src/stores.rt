//! The commands `databases`, `export`, `import` and `migrate`, over files and folders.

ghost use Rattle.std.specs.Prelude.{◌≡◌, ◌≢◌, ◌≤◌, ◌⊎◌, [], length};

use allowance::copied;
use command_files::{
    fail, image_output, on_image, read_files, read_image, report_buffered, report_image,
    report_output, suggest_checks, suggest_explain, suggest_list, write_file,
};
use file_commands::{comment_on_damage, name_each_dropped, path_in, say_count};
use heap_model::Bytes;
use palm_text::Counted;
use program_io::command_line::Form;
use program_io::{Noted, Status, report_write_fault};
use raw_region::Region;
use std::alloc::AllocError;
use std::io::{BufWriter, ErrorKind, Input};
use std::rt::Files;
use std::{fs, io, str};
use store_commands::{
    Ended, ExportedFile, ImageChoice, cmd_import, databases_region_from, export_files,
    migrate_region_from,
};

/// Runs `databases`, and prints in a form. The path `-` means standard input.
pub(crate) fn databases<R: Files + Input + Print + Eprint + AllocGlobal>(
    rt: &R,
    path: &str,
    form: Form,
) -> Status
    ensures { result ≢ Status.BadWords }
{
    on_image(rt, path, |image| match form {
        Form::Text => print_lines(rt, image),
        Form::Json => print_document(rt, image),
    })
}

/// Prints a line for each database of an image.
fn print_lines<R: Print + Eprint + AllocGlobal>(rt: &R, image: Region) -> Status
    requires { image.lents ≡ [] }
    ensures { result ≢ Status.BadWords }
{
    let mut out = Counted::new(Noted::new(io::writer(rt)));
    let status = databases_region_from(&rt.alloc(), image, Form::Text, &mut out);
    report_output(rt, status, out)
}

/// Prints the document of the databases of an image. A buffer collects its parts.
fn print_document<R: Print + Eprint + AllocGlobal>(rt: &R, image: Region) -> Status
    requires { image.lents ≡ [] }
    ensures { result ≢ Status.BadWords }
{
    let Ok(out) = BufWriter::new(rt.alloc(), Noted::new(io::writer(rt))) else {
        return fail(rt, Status::NoMemory);
    };
    let mut out = Counted::new(out);
    let status = databases_region_from(&rt.alloc(), image, Form::Json, &mut out);
    report_buffered(rt, status, out)
}

/// Runs `export`. The path `-` means standard input.
pub(crate) fn export<R: Files + Input + Print + Eprint + AllocGlobal>(
    rt: &R,
    path: &str,
    folder: &str,
    names: &[&str],
) -> Status {
    let Ok(words) = words_of(rt, names) else {
        return fail(rt, Status::NoMemory);
    };
    let (image, is_file) = match read_image(rt, path) {
        Ok(read) => read,
        Err(status) => return status,
    };
    let mut out = Counted::new(Noted::new(io::writer(rt)));
    let files = match export_files(&rt.alloc(), image, words.as_slice(), &mut out) {
        Ok(files) => files,
        Err(ended) => {
            name_refused(rt, ended, names);
            let status = report_output(rt, ended.status, out);
            suggest_list(rt, path, status, is_file);
            return status;
        }
    };
    match write_folder(rt, folder, files.as_slice()) {
        Status::Done => {
            let status = say_count(files.len(), &mut out);
            report_output(rt, status, out)
        }
        status => status,
    }
}

/// Runs `import`. A PDB or PRC file at the path of the image isn't replaced. The path `-` of a file
/// means standard input.
pub(crate) fn import<R: Files + Input + Print + Eprint + AllocGlobal>(
    rt: &R,
    path: &str,
    choice: ImageChoice,
    paths: &[&str],
) -> Status {
    let files = match read_files(rt, paths) {
        Ok(files) => files,
        Err(status) => return status,
    };
    let mut image_out = match image_output(rt, path) {
        Ok(image_out) => image_out,
        Err(status) => return status,
    };
    let mut out = Counted::new(Noted::new(io::writer(rt)));
    let ended = cmd_import(
        &rt.alloc(),
        choice,
        files.as_slice(),
        &mut image_out,
        &mut out,
    );
    report_image(rt, ended.status, path, image_out, out);
    name_refused(rt, ended, paths);
    suggest_checks(rt, paths, ended.status, files.as_slice());
    comment_on_refused(rt, ended, paths, files.as_slice());
    name_each_dropped(rt, paths, ended.status, files.as_slice());
    suggest_explain(rt, ended.status, choice.size);
    ended.status
}

/// Runs `migrate` on an image, and writes the new image to a path. A PDB or PRC file isn't
/// replaced. The path `-` of the image means standard input.
pub(crate) fn migrate<R: Files + Input + Print + Eprint + AllocGlobal>(
    rt: &R,
    image_path: &str,
    path: &str,
) -> Status
    ensures { result ≢ Status.BadWords }
{
    on_image(rt, image_path, |image| migrate_to(rt, image, path))
}

/// Writes the image with a chain of tables that an image becomes to a path.
fn migrate_to<R: Files + Print + Eprint + AllocGlobal>(rt: &R, image: Region, path: &str) -> Status
    requires { image.lents ≡ [] }
    ensures { result ≢ Status.BadWords }
{
    let mut image_out = match image_output(rt, path) {
        Ok(image_out) => image_out,
        Err(status) => return status,
    };
    let mut out = Counted::new(Noted::new(io::writer(rt)));
    let status = migrate_region_from(&rt.alloc(), image, &mut image_out, &mut out);
    report_image(rt, status, path, image_out, out)
}

/// Says on standard error which of the words a command was refused for, if it was for one.
fn name_refused<R: Eprint>(rt: &R, ended: Ended, words: &[&str]) {
    if ended.status != Status::Refused {
        return;
    }
    if let Some(index) = ended.word {
        if let Some(word) = words.get(index) {
            let _ = eprintln!(rt; "{word}: refused");
        }
    }
}

/// Reports the damage of the file that a command was refused for, if it was for one.
fn comment_on_refused<R: Eprint + AllocGlobal>(
    rt: &R,
    ended: Ended,
    paths: &[&str],
    files: &[Bytes],
) {
    if ended.status != Status::Refused {
        return;
    }
    let Some(index) = ended.word else {
        return;
    };
    if let (Some(path), Some(file)) = (paths.get(index), files.get(index)) {
        comment_on_damage(rt, path, &file.as_slice());
    }
}

/// Words as bytes.
fn words_of<R: AllocGlobal>(rt: &R, words: &[&str]) -> Result<Vec<Bytes>, AllocError> {
    let mut bytes = Vec::new(rt.alloc());
    for word in words {
        bytes.push(Bytes::of(copied(&rt.alloc(), word.as_bytes())?))?;
    }
    Ok(bytes)
}

/// Writes files into a folder, which is made if there is none. If one can't be written, or is
/// there, those that were written are removed again.
fn write_folder<R: Files + Eprint + AllocGlobal>(
    rt: &R,
    folder: &str,
    files: &[ExportedFile],
) -> Status
    ensures { (result ≡ Status.Done) ⊎ (result ≡ Status.WriteFault) ⊎ (result ≡ Status.NoMemory) }
{
    let is_made = match fs::create_dir(rt, folder) {
        Ok(()) => true,
        Err(reason) if reason.kind() == ErrorKind::AlreadyExists => false,
        Err(reason) => {
            report_write_fault(rt, folder, reason);
            return Status::WriteFault;
        }
    };
    let (status, count) = write_each(rt, folder, files);
    if status != Status::Done {
        remove_files(rt, folder, &files[..count]);
        if is_made {
            let _ = fs::remove_dir(rt, folder);
        }
    }
    status
}

/// Writes files into a folder, up to the first that can't be written, and returns how many were.
fn write_each<R: Files + Eprint + AllocGlobal>(
    rt: &R,
    folder: &str,
    files: &[ExportedFile],
) -> (Status, usize)
    ensures statuses { (result.0 ≡ Status.Done) ⊎ (result.0 ≡ Status.WriteFault)
        ⊎ (result.0 ≡ Status.NoMemory) }
    ensures count { result.1 ≤ length files.now }
{
    for index in 0..files.len() {
        let status = write_one(rt, folder, &files[..index], &files[index]);
        if status != Status::Done {
            return (status, index);
        }
    }
    (Status::Done, files.len())
}

/// Writes a file into a folder, as a whole or not at all, unless the folder has something of that
/// name. If that fails, says why. `written` has the files that were written before.
fn write_one<R: Files + Eprint + AllocGlobal>(
    rt: &R,
    folder: &str,
    written: &[ExportedFile],
    file: &ExportedFile,
) -> Status
    ensures { (result ≡ Status.Done) ⊎ (result ≡ Status.WriteFault) ⊎ (result ≡ Status.NoMemory) }
{
    let Ok(path) = path_in(rt.alloc(), folder, name_of(file)) else {
        return fail(rt, Status::NoMemory);
    };
    if fs::symlink_metadata(rt, path.as_str()).is_ok() {
        let status = fail(rt, Status::WriteFault);
        report_kept(rt, path.as_str(), written, file);
        return status;
    }
    write_file(rt, path.as_str(), file.bytes.as_slice())
}

/// Reports why a file isn't written over one that is there at its path: this run wrote it, maybe
/// under a name that differs only in case, or it was there before.
fn report_kept<R: Eprint>(rt: &R, path: &str, written: &[ExportedFile], file: &ExportedFile) {
    let _ = match same_in_any_case(written, file) {
        None => eprintln!(rt; "{path}: there is a file of this name, and 'export' replaces none"),
        Some(earlier) if earlier.name.as_slice() == file.name.as_slice() => {
            eprintln!(rt; "{path}: this NAME was given twice")
        }
        Some(earlier) => {
            eprintln!(rt;
                "{path}: there is a file of this name, or {} if case makes no difference here",
                name_of(earlier)
            )
        }
    };
}

/// Returns the first of some files whose name is that of a file, or differs from it only in case.
fn same_in_any_case<'a>(
    written: &'a [ExportedFile],
    file: &ExportedFile,
) -> Option<&'a ExportedFile> {
    for earlier in written {
        if name_of(earlier).eq_ignore_ascii_case(name_of(file)) {
            return Some(earlier);
        }
    }
    None
}

/// The name of a file, which is ASCII.
fn name_of(file: &ExportedFile) -> &str {
    str::from_utf8(file.name.as_slice()).unwrap_or("")
}

/// Removes files from a folder.
fn remove_files<R: Files + AllocGlobal>(rt: &R, folder: &str, files: &[ExportedFile]) {
    for file in files {
        if let Ok(path) = path_in(rt.alloc(), folder, name_of(file)) {
            let _ = fs::remove_file(rt, path.as_str());
        }
    }
}
