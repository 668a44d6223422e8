//! A writer whose faults are counted.

ghost use Rattle.std.specs.Prelude.{◌≡◌, ◌+◌, None, is_ok};
ghost use Rattle.std.specs.Io.{WritesAtMost};
ghost use Rattle.std.specs.Io.KnownBytes.{WriteAppends};
ghost use Rattle.palm_text.specs.Counted.{Flushes, faults_of, writing};

use heap_model::Tally;
use std::io;
use std::io::Write;
use std::marker::Model;

/// A writer with two counts that only contracts see: its faults and its flushes. A fault is a write
/// of one byte or more that failed or took 0 bytes. If the last call was a flush, contracts also
/// see whether it succeeded. Its bytes are those of the writer inside.
#[derive(Drop)]
pub struct Counted<W: Write> {
    inner: W,
    faults: Tally,
    flushes: Tally,
    /// Whether the last call succeeded, if that was a flush.
    flushed: Option<bool>,
}

impl<W: Write> Model for Counted<W> {
    ghost use Rattle.palm_text.specs.Counted.{Writing, writing, writing_code};

    ghost Value = { Writing W };

    ghost coded = { writing_code W.code };

    ghost view = { λ counted. writing
        counted.inner counted.faults.total counted.flushes.total counted.flushed };
}

impl<W: Write> Counted<W> {
    /// Wraps a writer, with both counts 0.
    pub fn new(inner: W) -> Counted<W>
        ensures { result ≡ writing inner 0 0 None }
    {
        Counted {
            inner,
            faults: Tally::new(),
            flushes: Tally::new(),
            flushed: None,
        }
    }

    /// Returns the writer inside.
    pub fn into_inner(self) -> W
        ensures { result ≡ self.writer }
    {
        let Counted {
            inner,
            faults,
            flushes,
            ..
        } = self;
        drop(faults);
        drop(flushes);
        inner
    }

    /// Writes a prefix of `bytes` by one call of the writer, and returns its length.
    pub fn write(&mut self, bytes: &[u8]) -> io::Result<usize>
        ensures bound { WritesAtMost result bytes.now }
        ensures bytes { WriteAppends (W.contents self.old.writer) (W.contents self.new.writer)
            result bytes.now }
        ensures faults { self.new.faults ≡ self.old.faults + faults_of result bytes.now }
        ensures flushes { self.new.flushes ≡ self.old.flushes }
        ensures flushed { self.new.flushed ≡ None }
    {
        self.flushed = None;
        let result = self.inner.write(bytes);
        let is_fault = match &result {
            Ok(n) => *n == 0 && !bytes.is_empty(),
            Err(_) => !bytes.is_empty(),
        };
        if is_fault {
            self.faults.add(1);
        }
        result
    }

    /// Flushes the writer. A failed flush counts as a flush, but not as a fault.
    pub fn flush(&mut self) -> io::Result<()>
        ensures { Flushes W.contents self.old self.new (is_ok result) }
    {
        self.flushes.add(1);
        let result = self.inner.flush();
        self.flushed = Some(result.is_ok());
        result
    }
}
