//! A file that was read: all of its bytes, or the first ones.

ghost use Rattle.pdb_format.specs.FileStarts.{IsFileStart};
ghost use Rattle.file_commands.specs.FilesRead.{bytes_of_read};

use crate::starts::file_start::{ReadStart, know_numbers};
use heap_model::Bytes;
use pdb_format::{FileBytes, app_of};

/// A file that was read: all of its bytes, or the first ones. Contracts see the whole file.
#[derive(Drop)]
pub enum FileRead {
    Whole(Bytes),
    Start(ReadStart),
}

impl FileBytes for FileRead {
    ghost bytes = { λ file. bytes_of_read file };

    fn size(&self) -> usize {
        match self {
            FileRead::Whole(bytes) => bytes.as_slice().size(),
            FileRead::Start(start) => start.size(),
        }
    }

    fn start(&self) -> &[u8] {
        match self {
            FileRead::Whole(bytes) => start_of(bytes.as_slice()),
            FileRead::Start(start) => start.start(),
        }
    }

    fn app(&self) -> &[u8] {
        match self {
            FileRead::Whole(bytes) => app_of(bytes.as_slice()),
            FileRead::Start(start) => start.app(),
        }
    }
}

/// Returns all bytes of a file, as its first ones.
fn start_of(all: &[u8]) -> &[u8]
    ensures { IsFileStart all.now result.now }
{
    know_numbers(all);
    all
}
