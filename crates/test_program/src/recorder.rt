//! A runtime that keeps what a program prints.

use crate::cases::Output;
use std::alloc::{Allocator, Global};
use std::cell::Cell;
use std::fmt::Display;
use std::fs::{Metadata, OpenOptions};
use std::io;
use std::io::{BufRead, ErrorKind, Input, Lines};
use std::path::PathBuf;
use std::rt::Files;

/// A runtime with the files of another. Its standard input has these bytes. What is printed on it,
/// and what on standard error, is kept.
#[derive(Drop)]
pub(crate) struct Recorder<'a, R> {
    pub rt: &'a R,
    pub input: &'a [u8],
    pub output: Output,
    pub printed: &'a Kept,
    pub complained: &'a Kept,
}

/// Bytes that come one behind the other.
#[derive(Drop)]
pub(crate) struct Kept {
    alloc: Global,
    bytes: Cell<Vec<u8>>,
}

impl Kept {
    pub(crate) fn new(alloc: Global) -> Kept {
        Kept {
            alloc,
            bytes: Cell::new(Vec::new(alloc)),
        }
    }

    pub(crate) fn into_bytes(self) -> Vec<u8> {
        let Kept { alloc: _, bytes } = self;
        bytes.into_inner()
    }

    fn push(&self, more: &[u8]) -> io::Result<()> {
        let mut bytes = self.bytes.replace(Vec::new(self.alloc));
        let pushed = bytes.extend_from_slice(more);
        drop(self.bytes.replace(bytes));
        Ok(pushed?)
    }

    fn push_text<D: Display + Drop>(&self, value: D, end: &str) -> io::Result<()> {
        let text = format!(in self.alloc; "{value}{end}")?;
        self.push(text.as_bytes())
    }
}

impl<R: AllocGlobal> Alloc for Recorder<'_, R> {
    type A = Global;

    fn alloc(&self) -> Global {
        self.rt.alloc()
    }
}

impl<'a, R> Input for Recorder<'a, R> {
    type Reader = &'a [u8];

    fn read_line<A: Allocator + Clone>(&self, buf: &mut String<A>) -> io::Result<usize> {
        self.reader().read_line(buf)
    }

    fn lines<A: Allocator>(&self, alloc: A) -> Lines<&'a [u8], A> {
        self.reader().lines(alloc)
    }

    fn reader(&self) -> &'a [u8] {
        self.input
    }
}

impl<R> Print for Recorder<'_, R> {
    fn print<D: Display + Drop>(&self, value: D) -> io::Result<()> {
        self.output.check()?;
        self.printed.push_text(value, "")
    }

    fn println<D: Display + Drop>(&self, value: D) -> io::Result<()> {
        self.output.check()?;
        self.printed.push_text(value, "\n")
    }

    fn write_all(&self, bytes: &[u8]) -> io::Result<()> {
        self.output.check()?;
        self.printed.push(bytes)
    }
}

impl Output {
    /// Fails where nothing is taken.
    fn check(self) -> io::Result<()> {
        match self {
            Output::Taken => Ok(()),
            Output::Refused => Err(io::Error::from(ErrorKind::StorageFull)),
        }
    }
}

impl<R> Eprint for Recorder<'_, R> {
    fn eprint<D: Display + Drop>(&self, value: D) -> io::Result<()> {
        self.complained.push_text(value, "")
    }

    fn eprintln<D: Display + Drop>(&self, value: D) -> io::Result<()> {
        self.complained.push_text(value, "\n")
    }
}

impl<R: Files> Files for Recorder<'_, R> {
    type File = R::File;

    type Dir = R::Dir;

    fn open_file(&self, how: &OpenOptions, path: &str) -> io::Result<R::File> {
        self.rt.open_file(how, path)
    }

    fn open_dir(&self, path: &str) -> io::Result<R::Dir> {
        self.rt.open_dir(path)
    }

    fn metadata(&self, path: &str) -> io::Result<Metadata> {
        self.rt.metadata(path)
    }

    fn symlink_metadata(&self, path: &str) -> io::Result<Metadata> {
        self.rt.symlink_metadata(path)
    }

    fn copy(&self, from: &str, to: &str) -> io::Result<u64> {
        self.rt.copy(from, to)
    }

    fn rename(&self, from: &str, to: &str) -> io::Result<()> {
        self.rt.rename(from, to)
    }

    fn remove_file(&self, path: &str) -> io::Result<()> {
        self.rt.remove_file(path)
    }

    fn create_dir(&self, path: &str) -> io::Result<()> {
        self.rt.create_dir(path)
    }

    fn remove_dir(&self, path: &str) -> io::Result<()> {
        self.rt.remove_dir(path)
    }

    fn remove_dir_all<B: Allocator>(&self, alloc: B, path: &str) -> io::Result<()> {
        self.rt.remove_dir_all(alloc, path)
    }

    fn canonicalize<B: Allocator>(&self, alloc: B, path: &str) -> io::Result<PathBuf<B>> {
        self.rt.canonicalize(alloc, path)
    }
}
