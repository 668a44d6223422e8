//! A writer that keeps its first error.

use std::io;
use std::io::{ErrorKind, Write};

/// A wrapper of a writer that keeps the writer's first error. A write of some bytes that takes none
/// of them is an error of the kind `WriteZero`.
#[derive(Drop)]
pub struct Noted<W: Write> {
    inner: W,
    fault: Option<io::Error>,
}

impl<W: Write> Noted<W> {
    /// Wraps a writer.
    pub fn new(inner: W) -> Noted<W> {
        Noted { inner, fault: None }
    }

    /// Returns the wrapped writer, and its first error.
    pub fn into_parts(self) -> (W, Option<io::Error>) {
        let Noted { inner, fault } = self;
        (inner, fault)
    }

    fn note(&mut self, error: io::Error) {
        if self.fault.is_none() {
            self.fault = Some(error);
        }
    }
}

impl<W: Write> Write for Noted<W> {
    fn write(&mut self, bytes: &[u8]) -> io::Result<usize> {
        let result = self.inner.write(bytes);
        match &result {
            Ok(0) if !bytes.is_empty() => self.note(io::Error::from(ErrorKind::WriteZero)),
            Ok(_) => {}
            Err(error) => self.note(*error),
        }
        result
    }

    fn flush(&mut self) -> io::Result<()> {
        let result = self.inner.flush();
        if let Err(error) = &result {
            self.note(*error);
        }
        result
    }
}
