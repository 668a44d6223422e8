//! A source of files.

ghost use Rattle.std.specs.Prelude.{◌≡◌, ◌≤◌, ◌⊎◌, ℕ, List, Result, IfOk, IfErr, length};
ghost use Rattle.std.specs.Result.{result_map_both};
ghost use Rattle.file_commands.specs.FilesRead.{bytes_of_read};
ghost use Rattle.program_io.specs.declared.status.Status.{Status};
ghost use Rattle.program_io.specs.declared.status.Status.TheVariants as statuses;

use crate::starts::FileRead;
use pdb_format::MOST_FILE_BYTES;
use program_io::Status;

/// A source of files.
pub trait Inputs {
    /// What a read of the file at a path may give: its bytes, or the status of a failure.
    ghost gives: { Self → List ℕ → Result (List ℕ) Status → Type 0 };

    /// Reads a file: all of its bytes, or those that a report needs.
    ///
    /// # Errors
    /// - `ReadFault`: the file can't be read, or is longer than `MOST_FILE_BYTES`.
    /// - `NoMemory`: an allocation failed.
    fn read(&self, path: &str) -> Result<FileRead, Status>
        ensures limit { IfOk result (λ file. length (bytes_of_read file) ≤ MOST_FILE_BYTES) }
        ensures faults { IfErr result (λ status.
            (status ≡ statuses.ReadFault) ⊎ (status ≡ statuses.NoMemory)) }
        ensures gives { gives self.now path.now
            (result_map_both (λ file. bytes_of_read file) (λ status. status) result) };

    /// Takes note of the status with which the report of a file ended, and of the file.
    fn note(&self, path: &str, status: Status, file: &FileRead);
}
