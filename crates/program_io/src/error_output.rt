//! Standard error, as a writer.

use std::io::{ErrorKind, Write};
use std::{io, str};

/// A writer of text to standard error.
#[derive(Drop)]
pub struct ErrorOutput<'a, R> {
    rt: &'a R,
}

impl<'a, R: Eprint> ErrorOutput<'a, R> {
    /// Returns a writer to standard error.
    pub fn new(rt: &'a R) -> ErrorOutput<'a, R> {
        ErrorOutput { rt }
    }
}

impl<R: Eprint> Write for ErrorOutput<'_, R> {
    /// Writes all of the bytes.
    ///
    /// # Errors
    ///
    /// - `InvalidData`: if they are not UTF-8.
    /// - the error of standard error: if the write failed.
    fn write(&mut self, bytes: &[u8]) -> io::Result<usize> {
        let Ok(text) = str::from_utf8(bytes) else {
            return Err(io::Error::from(ErrorKind::InvalidData));
        };
        self.rt.eprint(text)?;
        Ok(bytes.len())
    }

    fn flush(&mut self) -> io::Result<()> {
        Ok(())
    }
}
