//! A file that replaces another as a whole.

use std::alloc::AllocError;
use std::fs::{File, OpenFile};
use std::io::{ErrorKind, Write};
use std::rt::Files;
use std::{fs, io};

/// The end of the name of the temporary file, before its number.
const SUFFIX: &str = ".palmheap-new";

/// The name of the temporary file of a long path, before its number.
const SHORT_NAME: &str = "palmheap-new";

/// The most bytes of a file's name to which `SUFFIX` is added. Some file systems take names of 143
/// bytes, most of 255.
const LONGEST_NAME: usize = 100;

/// A writer whose bytes appear under a path all at once.
///
/// The bytes go to a temporary file next to the path, and `flush` renames it to the path. Until
/// then the file at the path is unchanged. A path that names something other than a file, for
/// example a device, is written to directly.
///
/// The first write creates the temporary file, under a name that no file has. So two writers for
/// one path, of two runs too, never have the same temporary file. After the flush that renames it,
/// it takes no more bytes. The caller must close it.
pub struct OutputFile<'a, R: Files> {
    rt: &'a R,
    path: String,
    /// The temporary file, or none if `path` is written to directly.
    temporary: Option<Temporary>,
    progress: Progress<R::File>,
}

/// The progress of the writing.
#[derive(Drop)]
enum Progress<F: Drop> {
    Unopened,
    Open(F),
    InPlace,
}

/// The path of a temporary file.
#[derive(Drop)]
struct Temporary {
    /// The path without a number.
    stem: String,
    /// The path. It has room for the greatest number.
    path: String,
}

impl Temporary {
    /// Returns the path of a temporary file next to a path, without a number yet.
    ///
    /// # Errors
    ///
    /// - `AllocError`: if an allocation failed.
    fn new<R: Files + AllocGlobal>(rt: &R, path: &str) -> Result<Temporary, AllocError> {
        let stem = match path.rsplit_once('/') {
            Some((folder, name)) if name.len() > LONGEST_NAME => {
                format!(in rt.alloc(); "{folder}/{SHORT_NAME}")?
            }
            None if path.len() > LONGEST_NAME => String::from_str(rt.alloc(), SHORT_NAME)?,
            _ => format!(in rt.alloc(); "{path}{SUFFIX}")?,
        };
        let path = format!(in rt.alloc(); "{stem}-{}", u32::MAX)?;
        Ok(Temporary { stem, path })
    }

    /// Creates the file. A name that a file has is left to it: another run may write that file, or
    /// a killed one left it. The next name has the next number.
    fn create<R: Files>(&mut self, rt: &R) -> io::Result<R::File> {
        for number in 0..u32::MAX {
            self.set_number(number)?;
            match File::create_new(rt, self.path.as_str()) {
                Err(error) if error.kind() == ErrorKind::AlreadyExists => {}
                created => return created,
            }
        }
        Err(io::Error::from(ErrorKind::AlreadyExists))
    }

    /// Sets the number of the path. The path with number 0 ends with no number.
    fn set_number(&mut self, number: u32) -> io::Result<()> {
        self.path.clear();
        self.path.push_str(self.stem.as_str())?;
        if number > 0 {
            write!(self.path, "-{number}")?;
        }
        Ok(())
    }
}

impl<'a, R: Files + AllocGlobal> OutputFile<'a, R> {
    /// Returns a writer for this path, with nothing opened yet.
    ///
    /// # Errors
    ///
    /// - `AllocError`: if an allocation failed.
    pub fn new(rt: &'a R, path: &str) -> Result<OutputFile<'a, R>, AllocError> {
        let path = followed(rt, path)?;
        let temporary = if is_replaceable(rt, path.as_str()) {
            Some(Temporary::new(rt, path.as_str())?)
        } else {
            None
        };
        Ok(OutputFile {
            rt,
            path,
            temporary,
            progress: Progress::Unopened,
        })
    }

    /// Opens the file to write to. A temporary file gets the permissions of the file that it will
    /// replace.
    fn open(&mut self) -> io::Result<R::File> {
        let Some(temporary) = &mut self.temporary else {
            return File::create(self.rt, self.path.as_str());
        };
        let file = temporary.create(self.rt)?;
        if let Ok(replaced) = fs::metadata(self.rt, self.path.as_str()) {
            let _ = file.set_permissions(replaced.permissions());
        }
        Ok(file)
    }

    /// Ends the writing, and drops the bytes that were not flushed.
    pub fn close(self) {
        let OutputFile {
            rt,
            path: _,
            temporary,
            progress,
        } = self;
        if let (Some(temporary), Progress::Open(file)) = (temporary, progress) {
            drop(file);
            let _ = fs::remove_file(rt, temporary.path.as_str());
        }
    }
}

/// Follows the symbolic links of a path. A path that leads nowhere is returned unchanged.
fn followed<R: Files + AllocGlobal>(rt: &R, path: &str) -> Result<String, AllocError> {
    match fs::canonicalize(rt, path) {
        Ok(real) => Ok(real.into_string()),
        Err(error) if error.kind() == ErrorKind::OutOfMemory => Err(AllocError),
        Err(_) => String::from_str(rt.alloc(), path),
    }
}

/// Returns whether there is a file at the path, or nothing.
fn is_replaceable(rt: &impl Files, path: &str) -> bool {
    match fs::metadata(rt, path) {
        Ok(found) => found.is_file(),
        Err(_) => true,
    }
}

impl<R: Files + AllocGlobal> Write for OutputFile<'_, R> {
    fn write(&mut self, bytes: &[u8]) -> io::Result<usize> {
        if let Progress::Unopened = self.progress {
            self.progress = Progress::Open(self.open()?);
        }
        match &mut self.progress {
            Progress::Open(file) => file.write(bytes),
            Progress::Unopened | Progress::InPlace => Ok(0),
        }
    }

    /// Renames the temporary file to the path.
    fn flush(&mut self) -> io::Result<()> {
        let Progress::Open(file) = &mut self.progress else {
            return Ok(());
        };
        file.flush()?;
        if let Some(temporary) = &self.temporary {
            file.sync_all()?;
            fs::rename(self.rt, temporary.path.as_str(), self.path.as_str())?;
        }
        self.progress = Progress::InPlace;
        Ok(())
    }
}
