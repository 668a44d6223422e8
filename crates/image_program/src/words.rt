//! The words of the command line.

ghost use Rattle.std.specs.Prelude.{◌≡◌, ◌≢◌, ◌⊎◌, IfErr};
ghost use Rattle.std.specs.IoError.{error_kind};

use command_files::fail;
use program_io::Status;
use std::io::ErrorKind;
use std::rt::Env;
use std::{env, io};

/// Returns the words of the command line, with the program's own name first. If it fails, standard
/// error has the reason.
///
/// # Errors
///
/// - `NoMemory`: if an allocation failed.
/// - `BadWords`: if the words can't be read for another reason.
pub fn read_words<R: Env + Eprint + AllocGlobal>(rt: &R) -> Result<Vec<String>, Status>
    ensures { IfErr result (λ status. (status ≡ Status.BadWords) ⊎ (status ≡ Status.NoMemory)) }
{
    match env::args(rt) {
        Ok(words) => match words.collect(rt.alloc()) {
            Ok(words) => Ok(words),
            Err(_) => Err(fail(rt, Status::NoMemory)),
        },
        Err(error) => Err(fail_to_read_words(rt, error)),
    }
}

/// Prints on standard error why the words of the command line can't be read, and returns the
/// status.
fn fail_to_read_words<R: Eprint>(rt: &R, error: io::Error) -> Status
    ensures statuses { (result ≡ Status.BadWords) ⊎ (result ≡ Status.NoMemory) }
    ensures no_memory { error_kind error ≡ ErrorKind.OutOfMemory → result ≡ Status.NoMemory }
    ensures bad_words { error_kind error ≢ ErrorKind.OutOfMemory → result ≡ Status.BadWords }
{
    if error.kind() == ErrorKind::OutOfMemory {
        return fail(rt, Status::NoMemory);
    }
    let _ = if error.kind() == ErrorKind::InvalidData {
        eprintln!(rt; "error: a word of the command line isn't UTF-8")
    } else {
        eprintln!(rt; "error: the words could not be read: {error}")
    };
    Status::BadWords
}
