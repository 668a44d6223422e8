//! Writers that wrap another flush it as often as they are flushed: a flush that fails is tried once,
//! and a write flushes nothing.

use palm_text::Counted;
use program_io::Noted;
use script_calls::{LiveReplies, Replies};
use std::cell::Cell;
use std::io;
use std::io::{ErrorKind, Write};
use std::test::Fail;
use test_support::{equal, holds};

/// A writer of which the first flush fails, and no other. It counts its flushes.
#[derive(Drop)]
struct FailsOnce {
    flushes: u32,
}

impl FailsOnce {
    fn new() -> FailsOnce {
        FailsOnce { flushes: 0 }
    }
}

impl Write for FailsOnce {
    fn write(&mut self, bytes: &[u8]) -> io::Result<usize> {
        Ok(bytes.len())
    }

    fn flush(&mut self) -> io::Result<()> {
        self.flushes = self.flushes.saturating_add(1);
        if self.flushes == 1 {
            return Err(io::Error::from(ErrorKind::StorageFull));
        }
        Ok(())
    }
}

#[test]
fn a_failed_flush_is_tried_once(_rt: HostRuntime) -> Result<(), Fail> {
    let mut counted = Counted::new(FailsOnce::new());
    holds("Counted", counted.flush().is_err())?;
    equal("Counted", counted.into_inner().flushes, 1)?;
    let mut noted = Noted::new(FailsOnce::new());
    holds("Noted", noted.flush().is_err())?;
    let (inner, fault) = noted.into_parts();
    holds("Noted", fault.is_some())?;
    equal("Noted", inner.flushes, 1)?;
    let mut replies = Replies::new(FailsOnce::new(), &[1]);
    holds("Replies", replies.flush().is_err())?;
    equal("Replies", replies.writer.flushes, 1)?;
    let line = Cell::new(1usize);
    let mut replies = LiveReplies::new(FailsOnce::new(), true, &line);
    holds("LiveReplies", replies.flush().is_err())?;
    equal("LiveReplies", replies.writer.flushes, 1)
}

#[test]
fn a_write_flushes_nothing(_rt: HostRuntime) -> Result<(), Fail> {
    let mut counted = Counted::new(FailsOnce::new());
    equal("Counted", counted.write(b"ok\n").ok(), Some(3))?;
    equal("Counted", counted.into_inner().flushes, 0)?;
    let mut noted = Noted::new(FailsOnce::new());
    equal("Noted", noted.write(b"ok\n").ok(), Some(3))?;
    let (inner, _) = noted.into_parts();
    equal("Noted", inner.flushes, 0)?;
    let mut replies = Replies::new(FailsOnce::new(), &[1]);
    equal("Replies", replies.write(b"ok\n").ok(), Some(3))?;
    equal("Replies", replies.writer.flushes, 0)?;
    let line = Cell::new(1usize);
    let mut replies = LiveReplies::new(FailsOnce::new(), true, &line);
    equal("LiveReplies", replies.write(b"ok\n").ok(), Some(3))?;
    equal("LiveReplies", replies.writer.flushes, 0)
}
