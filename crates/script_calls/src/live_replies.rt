//! A writer of replies whose numbers come one at a time.

ghost use Rattle.std.specs.Prelude.{◌≡◌, ◌<◌, ◌++◌, ◌||◌, [], IfOk, false, true, take};
ghost use Rattle.std.specs.Io.{WritesAtMost};
ghost use Rattle.std.specs.Io.KnownBytes.{Appends};
ghost use Rattle.script_calls.specs.Replies.{ends_line, front, says_refused};

use crate::numbered_replies::put_numbered;
use std::cell::Cell;
use std::io;
use std::io::Write;

/// The same as `Replies`, if the number of each reply is set just before it is written.
#[derive(Drop)]
pub struct LiveReplies<'a, W: Write> {
    pub writer: W,
    /// Whether replies get numbers.
    pub has_numbers: bool,
    /// The number of the next reply.
    pub number: &'a Cell<usize>,
    /// Whether the next byte begins a reply.
    pub at_start: bool,
    /// Whether a reply was a refusal.
    pub any_refused: bool,
}

impl<'a, W: Write> LiveReplies<'a, W> {
    /// Returns a writer of replies. No reply has come yet.
    pub fn new(writer: W, has_numbers: bool, number: &'a Cell<usize>) -> LiveReplies<'a, W>
        ensures writer { result.writer ≡ writer }
        ensures numbers { result.has_numbers ≡ has_numbers }
        ensures start { result.at_start ≡ true }
        ensures none { result.any_refused ≡ false }
    {
        LiveReplies {
            writer,
            has_numbers,
            number,
            at_start: true,
            any_refused: false,
        }
    }

    /// Writes bytes of replies as a `Replies` with these numbers does.
    fn put(&mut self, numbers: &[usize], bytes: &[u8]) -> io::Result<usize>
        ensures bound { WritesAtMost result bytes.now }
        ensures bytes { IfOk result (λ n. Appends (W.contents self.old.writer)
            (W.contents self.new.writer)
            (front self.old.at_start numbers.now bytes.now ++ take n bytes.now)) }
        ensures refused { self.new.any_refused
            ≡ (self.old.any_refused || says_refused self.old.at_start bytes.now) }
        ensures start { IfOk result (λ n. 0 < n → self.new.at_start ≡ ends_line (take n bytes.now)) }
        ensures numbered { self.new.has_numbers ≡ self.old.has_numbers }
    {
        put_numbered(
            &mut self.writer,
            &mut self.at_start,
            &mut self.any_refused,
            numbers,
            bytes,
        )
    }
}

impl<W: Write> Write for LiveReplies<'_, W> {
    fn write(&mut self, bytes: &[u8]) -> io::Result<usize> {
        if self.has_numbers {
            let number = self.number.get();
            self.put(&[number], bytes)
        } else {
            self.put(&[], bytes)
        }
    }

    fn flush(&mut self) -> io::Result<()> {
        self.writer.flush()
    }
}
