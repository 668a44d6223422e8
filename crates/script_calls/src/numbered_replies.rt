//! A writer of replies.

ghost use Rattle.std.specs.Prelude.{◌≡◌, ◌≤◌, ◌<◌, ◌++◌, ◌||◌, IfOk, OnOk, true, false, drop, length, take};
ghost use Rattle.std.specs.Io.{WritesAtMost};
ghost use Rattle.std.specs.Io.KnownBytes.{Appends};
ghost use Rattle.script_calls.specs.Replies as words;
ghost use Rattle.script_calls.specs.Replies.{ends_line, front, reply_number_text, numbers_left, says_refused};

use itoa::Buffer;
use std::io;
use std::io::Write;

/// A writer of replies to another writer. Before each reply it writes the number of its line and a
/// space. A reply is a line that begins with `ok` or `refused`. Other lines pass unchanged.
#[derive(Drop)]
pub struct Replies<'a, W: Write> {
    pub writer: W,
    /// The numbers of the replies to come. Replies after the last number get none.
    pub numbers: &'a [usize],
    /// Whether the next byte begins a reply.
    pub at_start: bool,
    /// Whether a reply was a refusal.
    pub any_refused: bool,
}

impl<'a, W: Write> Replies<'a, W> {
    /// Returns a writer for replies with these numbers. No reply has come yet.
    pub fn new(writer: W, numbers: &'a [usize]) -> Replies<'a, W>
        ensures writer { result.writer ≡ writer }
        ensures start { result.at_start ≡ true }
        ensures none { result.any_refused ≡ false }
        ensures numbers { result.numbers.now ≡ numbers.entry.now }
    {
        Replies {
            writer,
            numbers,
            at_start: true,
            any_refused: false,
        }
    }

    /// Writes bytes of replies, up to the end of the first line at most. It returns the number of
    /// bytes written. If the bytes begin a reply, it writes the reply's number before them.
    pub fn put(&mut self, bytes: &[u8]) -> io::Result<usize>
        ensures bound { WritesAtMost result bytes.now }
        ensures bytes { IfOk result (λ n. Appends (W.contents self.old.writer) (W.contents self.new.writer)
            (front self.old.at_start self.old.numbers.now bytes.now ++ take n bytes.now)) }
        ensures numbers { self.new.numbers.now
            ≡ numbers_left self.old.at_start self.old.numbers.now bytes.now }
        ensures refused { self.new.any_refused
            ≡ (self.old.any_refused || says_refused self.old.at_start bytes.now) }
        ensures start { IfOk result (λ n. 0 < n → self.new.at_start ≡ ends_line (take n bytes.now)) }
    {
        let numbers = self.numbers;
        if self.at_start && begins_reply(bytes) {
            self.numbers = after_first(numbers);
        }
        put_numbered(
            &mut self.writer,
            &mut self.at_start,
            &mut self.any_refused,
            numbers,
            bytes,
        )
    }
}

/// Returns the numbers after the first one.
fn after_first(numbers: &[usize]) -> &[usize]
    ensures { result.now ≡ drop 1 numbers.now }
{
    match numbers.split_first() {
        Some((_, left)) => left,
        None => numbers,
    }
}

/// Writes bytes of replies, up to the end of the first line at most. It returns the number of bytes
/// written. If the bytes begin a reply, it writes the first of the numbers before them.
#[tactic(auto, using(crate::proofs::Fronts::both))]
pub(crate) fn put_numbered<W: Write>(
    writer: &mut W,
    at_start: &mut bool,
    any_refused: &mut bool,
    numbers: &[usize],
    bytes: &[u8],
) -> io::Result<usize>
    ensures bound { WritesAtMost result bytes.now }
    ensures bytes { IfOk result (λ n. Appends (W.contents writer.old) (W.contents writer.new)
        (front at_start.old numbers.now bytes.now ++ take n bytes.now)) }
    ensures refused { any_refused.new ≡ (any_refused.old || says_refused at_start.old bytes.now) }
    ensures start { IfOk result (λ n. 0 < n → at_start.new ≡ ends_line (take n bytes.now)) }
{
    let Some(first) = bytes.first() else {
        return Ok(0);
    };
    if *at_start && is_reply(*first) {
        *any_refused = *any_refused || *first == b'r';
        put_first(writer, numbers)?;
    }
    *at_start = false;
    put_line(writer, at_start, bytes)
}

/// Writes bytes, up to the end of the first line at most. It returns the number of bytes written.
/// If there are any, `at_start` gets whether they end a line.
#[tactic(auto, using(crate::proofs::Fronts::part_of))]
fn put_line<W: Write>(writer: &mut W, at_start: &mut bool, bytes: &[u8]) -> io::Result<usize>
    ensures bound { WritesAtMost result bytes.now }
    ensures bytes { IfOk result (λ n. Appends (W.contents writer.old) (W.contents writer.new)
        (take n bytes.now)) }
    ensures start { IfOk result (λ n. 0 < n → at_start.new ≡ ends_line (take n bytes.now)) }
{
    let line = first_line(bytes);
    let n = writer.write(line)?;
    if n > 0 {
        *at_start = line[n - 1] == b'\n';
    }
    Ok(n)
}

/// Writes the first of these numbers, if there is one, and a space.
#[tactic(auto, using(crate::proofs::Fronts::both))]
fn put_first<W: Write>(writer: &mut W, numbers: &[usize]) -> io::Result<()>
    ensures { OnOk result (Appends (W.contents writer.old) (W.contents writer.new)
        (reply_number_text numbers.now)) }
{
    let Some(number) = numbers.first() else {
        return Ok(());
    };
    let mut digits = Buffer::new();
    writer.write_all(digits.format(*number).as_bytes())?;
    writer.write_all(b" ")
}

/// Returns whether a line with this first byte is a reply. Other lines report a fault.
fn is_reply(first: u8) -> bool
    ensures { result ≡ words.is_reply first }
{
    first == b'o' || first == b'r'
}

/// Returns whether a line with these first bytes is a reply.
fn begins_reply(bytes: &[u8]) -> bool
    ensures { result ≡ words.begins_reply true bytes.now }
{
    match bytes.first() {
        Some(first) => is_reply(*first),
        None => false,
    }
}

/// Returns the bytes up to the first line feed, which is included.
fn first_line(bytes: &[u8]) -> &[u8]
    ensures front { result.now ≡ take (length result.now) bytes.now }
    ensures within { length result.now ≤ length bytes.now }
{
    for (at, byte) in bytes.iter().enumerate() {
        if *byte == b'\n' {
            return &bytes[..at + 1];
        }
    }
    bytes
}

impl<W: Write> Write for Replies<'_, W> {
    fn write(&mut self, bytes: &[u8]) -> io::Result<usize> {
        self.put(bytes)
    }

    fn flush(&mut self) -> io::Result<()> {
        self.writer.flush()
    }
}
