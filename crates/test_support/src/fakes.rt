//! Readers and writers that fail, and allocations that fail.

ghost use Rattle.std.specs.Prelude.{⊤};

use allowance::{Allowance, Failure};
use std::alloc::{AllocError, Global};
use std::cell::Cell;
use std::io;
use std::io::{ErrorKind, Read, Write};

/// A reader of `left` bytes, of which a read gives at most `step`. The read number `fails_at`
/// fails, and says so by `kind`.
#[derive(Drop)]
pub struct Source {
    pub left: usize,
    pub step: usize,
    pub reads: usize,
    pub fails_at: Option<usize>,
    pub kind: ErrorKind,
}

impl Source {
    pub fn new(left: usize, step: usize) -> Source {
        Source {
            left,
            step,
            reads: 0,
            fails_at: None,
            kind: ErrorKind::Interrupted,
        }
    }
}

impl Read for Source {
    fn read(&mut self, buf: &mut [u8]) -> io::Result<usize> {
        let number = self.reads;
        self.reads = number.saturating_add(1);
        if self.fails_at == Some(number) {
            return Err(io::Error::from(self.kind));
        }
        let n = self.left.min(self.step).min(buf.len());
        buf[..n].fill(b'x');
        self.left -= n;
        Ok(n)
    }
}

/// The reply of a writer without room to a write.
#[derive(Clone, Copy, Debug)]
pub enum WhenFull {
    TakesNothing,
    Fails(ErrorKind),
}

/// A writer with room for `room` bytes, of which a write takes at most `step`. It counts the calls
/// that it refused, and those after them.
#[derive(Drop)]
pub struct Narrow {
    pub taken: Vec<u8>,
    pub room: usize,
    pub step: usize,
    pub when_full: WhenFull,
    pub refused: usize,
}

impl Narrow {
    pub fn new(alloc: Global, room: usize, step: usize, when_full: WhenFull) -> Narrow {
        Narrow {
            taken: Vec::new(alloc),
            room,
            step,
            when_full,
            refused: 0,
        }
    }

    /// Whether the given number of bytes was taken, and no call came after the first that was
    /// refused.
    pub fn is_cut_at(&self, room: usize) -> bool {
        self.taken.len() == room && self.refused == 1
    }

    /// Counts a call after a refused one.
    fn note_call(&mut self) {
        if self.refused > 0 {
            self.refused = self.refused.saturating_add(1);
        }
    }

    fn refuse(&mut self) -> io::Result<usize> {
        self.refused = self.refused.max(1);
        match self.when_full {
            WhenFull::TakesNothing => Ok(0),
            WhenFull::Fails(kind) => Err(io::Error::from(kind)),
        }
    }
}

impl Write for Narrow {
    fn write(&mut self, bytes: &[u8]) -> io::Result<usize> {
        self.note_call();
        let n = bytes.len().min(self.step).min(self.room);
        if n == 0 && !bytes.is_empty() {
            let refused = self.refuse()?;
            return Ok(refused.min(bytes.len()));
        }
        self.taken.extend_from_slice(&bytes[..n])?;
        self.room -= n;
        Ok(n)
    }

    fn flush(&mut self) -> io::Result<()> {
        self.note_call();
        Ok(())
    }
}

/// A writer that takes all, and fails when it is flushed.
#[derive(Drop)]
pub struct Unflushed(pub Vec<u8>);

impl Write for Unflushed {
    fn write(&mut self, bytes: &[u8]) -> io::Result<usize> {
        self.0.extend_from_slice(bytes)?;
        Ok(bytes.len())
    }

    fn flush(&mut self) -> io::Result<()> {
        Err(io::Error::from(ErrorKind::StorageFull))
    }
}

/// Refuses one allocation, after `before` others, and grants every other.
pub struct RefusesOne {
    alloc: Global,
    before: Cell<u32>,
    refused: Cell<bool>,
}

impl RefusesOne {
    pub fn behind(alloc: Global, before: u32) -> RefusesOne {
        RefusesOne {
            alloc,
            before: Cell::new(before),
            refused: Cell::new(false),
        }
    }

    /// Whether an allocation failed. If there are fewer, none fails.
    pub fn has_refused(&self) -> bool {
        self.refused.get()
    }
}

impl Drop for RefusesOne {
    fn drop(self) {
        let RefusesOne {
            alloc: _,
            before: _,
            refused: _,
        } = self;
    }
}

impl Allowance for RefusesOne {
    ghost is_short = { λ _. ⊤ };

    fn allocator(&self) -> Global {
        self.alloc
    }

    fn grant(&self) -> Result<Global, AllocError> {
        let before = self.before.get();
        self.before.set(before.wrapping_sub(1));
        if before == 0 {
            self.refused.set(true);
            return Err(AllocError);
        }
        Ok(self.alloc)
    }

    fn note(&self, _failure: Failure) {}
}
