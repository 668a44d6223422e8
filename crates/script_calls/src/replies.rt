//! Replies, and the lines that they are printed as.

ghost use Rattle.std.specs.Prelude.{◌≡◌, ◌++◌, codes, decimal, is_ok, length};
ghost use Rattle.std.specs.List.{flat_map};
ghost use Rattle.palm_text.specs.Counted.{Writes};
ghost use Rattle.heap_model.specs.MemorySteps.{reply_of};
ghost use Rattle.heap_model.specs.declared.call.Reply.{Reply};
ghost use Rattle.script_calls.specs.Lines.{details_text, hex_text, info_words};
ghost use Rattle.script_calls.specs.Lines.{refusal_line, reply_line, reply_text};
ghost use Rattle.script_calls.specs.Lines.{values_text};
ghost use Rattle.script_calls.specs.Lines.{words_text};
ghost use Rattle.script_calls.specs.Lines as words;
ghost use Rattle.palm_store.specs.Replies.{made_reply};
ghost use Rattle.palm_text.specs.Pieces.{piece_text};

use heap_model::{Bytes, Db, DbInfo, Name, RecordInfo, Refusal, Reply, ResourceInfo};
use itoa::Buffer;
use palm_store::Locked;
use palm_text::{
    Counted, HasText, Piece, WriteFault, faulty_pieces, put_all, put_each, put_pieces,
};
use script_lines::Line;
use std::io::Write;

// ---- the result of a manager, as a reply

/// Makes the reply of a result without a value.
pub fn done(answer: Result<(), Refusal>) -> Reply
    ensures { result ≡ reply_of (λ done. Reply.Done) answer }
{
    match answer {
        Ok(()) => Reply::Done,
        Err(refusal) => Reply::Refused(refusal),
    }
}

/// Makes the reply of a result that is a number.
pub fn number(answer: Result<u32, Refusal>) -> Reply
    ensures { result ≡ reply_of (λ number. Reply.Number number) answer }
{
    match answer {
        Ok(number) => Reply::Number(number),
        Err(refusal) => Reply::Refused(refusal),
    }
}

/// Makes the reply of a result that is a number below 2^8.
pub fn small_number(answer: Result<u8, Refusal>) -> Reply
    ensures { result ≡ reply_of (λ number. Reply.Number number) answer }
{
    match answer {
        Ok(number) => Reply::Number(u32::from(number)),
        Err(refusal) => Reply::Refused(refusal),
    }
}

/// Makes the reply of a result that is the name of a chunk.
pub fn named(answer: Result<Name, Refusal>) -> Reply
    ensures { result ≡ reply_of (λ name. Reply.Named name) answer }
{
    match answer {
        Ok(name) => Reply::Named(name),
        Err(refusal) => Reply::Refused(refusal),
    }
}

/// Makes the reply of a result that is a locked chunk: its place and its lock count.
pub fn locked(answer: Result<Locked, Refusal>) -> Reply
    ensures { result ≡ reply_of (λ locked. Reply.Locked locked.place locked.count) answer }
{
    match answer {
        Ok(Locked { place, count }) => Reply::Locked { place, count },
        Err(refusal) => Reply::Refused(refusal),
    }
}

/// Makes the reply of a result that is a database.
pub fn database(answer: Result<Db, Refusal>) -> Reply
    ensures { result ≡ reply_of (λ db. Reply.Database db) answer }
{
    match answer {
        Ok(db) => Reply::Database(db),
        Err(refusal) => Reply::Refused(refusal),
    }
}

/// Makes the reply of a result that is the header of a database.
pub fn info(answer: Result<DbInfo, Refusal>) -> Reply
    ensures { result ≡ reply_of (λ info. Reply.Info info) answer }
{
    match answer {
        Ok(info) => Reply::Info(info),
        Err(refusal) => Reply::Refused(refusal),
    }
}

/// Makes the reply of a result that is the index of a new entry and the name of its chunk.
pub fn made(answer: Result<(u32, Name), Refusal>) -> Reply
    ensures { result ≡ reply_of made_reply answer }
{
    match answer {
        Ok((index, name)) => Reply::Made { index, name },
        Err(refusal) => Reply::Refused(refusal),
    }
}

/// Makes the reply of a result that is the entry of a record.
pub fn record(answer: Result<RecordInfo, Refusal>) -> Reply
    ensures { result ≡ reply_of (λ info. Reply.Record info) answer }
{
    match answer {
        Ok(info) => Reply::Record(info),
        Err(refusal) => Reply::Refused(refusal),
    }
}

/// Makes the reply of a result that is the entry of a resource.
pub fn resource(answer: Result<ResourceInfo, Refusal>) -> Reply
    ensures { result ≡ reply_of (λ info. Reply.Resource info) answer }
{
    match answer {
        Ok(info) => Reply::Resource(info),
        Err(refusal) => Reply::Refused(refusal),
    }
}

/// Makes the reply of a result that is bytes.
pub fn data(answer: Result<Bytes, Refusal>) -> Reply
    ensures { result ≡ reply_of (λ bytes. Reply.Data bytes) answer }
{
    match answer {
        Ok(bytes) => Reply::Data(bytes),
        Err(refusal) => Reply::Refused(refusal),
    }
}

// ---- reply lines

/// The part of a reply that a line prints, if it is no refusal.
#[derive(Clone, Copy)]
pub enum Told {
    Nothing,
    Values,
    /// The number of bytes of the reply.
    Length,
}

fn told_of(line: &Line<'_>) -> Told
    ensures { result ≡ words.told_of line.now }
{
    match line {
        Line::Bind { .. } | Line::Silent(_) | Line::Import { .. } => Told::Nothing,
        Line::Print(_) | Line::BindChunk(..) | Line::BindDatabase(..) => Told::Values,
        Line::Export(_) => Told::Length,
    }
}

/// Prints the reply line of a line.
pub fn put_reply<W: Write>(
    out: &mut Counted<W>,
    line: &Line<'_>,
    reply: &Reply,
) -> Result<(), WriteFault>
    ensures { Writes W.contents out.old out.new (reply_line line.now reply.now) (is_ok result) }
{
    match reply {
        Reply::Refused(refusal) => put_refusal(out, *refusal),
        Reply::Data(bytes) => put_told_bytes(out, told_of(line), bytes.as_slice()),
        _ => match told_of(line) {
            Told::Values => put_values(out, reply),
            Told::Nothing | Told::Length => put_pieces(out, &[Piece::Text(b"ok\n")]),
        },
    }
}

/// Prints the reply line of a line whose reply is `bytes`, without copying them.
pub fn put_data<W: Write>(
    out: &mut Counted<W>,
    line: &Line<'_>,
    bytes: &[u8],
) -> Result<(), WriteFault>
    ensures { Writes W.contents out.old out.new (reply_line line.now (Reply.Data bytes.now))
        (is_ok result) }
{
    put_told_bytes(out, told_of(line), bytes)
}

/// Prints `ok` and the part of a reply of bytes that the line prints.
fn put_told_bytes<W: Write>(
    out: &mut Counted<W>,
    told: Told,
    bytes: &[u8],
) -> Result<(), WriteFault>
    ensures { Writes W.contents out.old out.new (reply_text told (Reply.Data bytes.now))
        (is_ok result) }
{
    match told {
        Told::Nothing => put_pieces(out, &[Piece::Text(b"ok\n")]),
        Told::Values => put_bytes(out, bytes),
        Told::Length => put_length(out, bytes.len()),
    }
}

/// Prints `refused` with the number and the name of a refusal, and after them the fault of a bad
/// file.
pub fn put_refusal<W: Write>(out: &mut Counted<W>, refusal: Refusal) -> Result<(), WriteFault>
    ensures { Writes W.contents out.old out.new (refusal_line refusal) (is_ok result) }
{
    let ((space, fault), (gap, part)) = details(refusal);
    put_pieces(
        out,
        &[
            Piece::Text(b"refused "),
            Piece::Number(u32::from(refusal.number())),
            Piece::Text(b" "),
            Piece::Text(refusal.name().as_bytes()),
            Piece::Text(space),
            Piece::Text(fault),
            Piece::Text(gap),
            part,
            Piece::Text(b"\n"),
        ],
    )
}

/// The pieces of a text: two texts, and then a text and a piece.
type Details = (
    (&'static [u8], &'static [u8]),
    (&'static [u8], Piece<'static>),
);

/// Returns the text after the name of a refusal: the fault of a bad file, and the part of the file
/// that has it.
fn details(refusal: Refusal) -> Details
    ensures { result.0.0.now ++ (result.0.1.now ++ (result.1.0.now ++ piece_text result.1.1))
        ≡ details_text refusal }
{
    match refusal {
        Refusal::BadFile(fault) => ((b" ", fault.name().as_bytes()), faulty_pieces(fault.part())),
        _ => ((b"", b""), (b"", Piece::Text(b""))),
    }
}

/// Prints `ok` with the values of a reply that is no refusal.
fn put_values<W: Write>(out: &mut Counted<W>, reply: &Reply) -> Result<(), WriteFault>
    ensures { Writes W.contents out.old out.new
        (codes "ok" ++ values_text reply.now ++ codes "\n") (is_ok result) }
{
    match reply {
        Reply::Number(number) => put_number(out, *number),
        Reply::Locked { count, .. } => put_number(out, u32::from(*count)),
        Reply::Data(bytes) => put_bytes(out, bytes.as_slice()),
        Reply::Info(info) => put_info(out, info),
        Reply::Made { index, .. } => put_number(out, *index),
        Reply::Record(info) => put_words(
            out,
            &[
                Word(Piece::Hex8(info.attributes)),
                Word(Piece::Number(info.id)),
                Word(Piece::Text(data_word(info.data))),
            ],
        ),
        Reply::Resource(info) => put_words(
            out,
            &[
                Word(Piece::FourBytes(info.kind)),
                Word(Piece::Number(u32::from(info.id))),
            ],
        ),
        Reply::Refused(_) | Reply::Done | Reply::Named(_) | Reply::Database(_) => {
            put_pieces(out, &[Piece::Text(b"ok\n")])
        }
    }
}

fn put_number<W: Write>(out: &mut Counted<W>, number: u32) -> Result<(), WriteFault>
    ensures { Writes W.contents out.old out.new
        (codes "ok" ++ (codes " " ++ decimal number) ++ codes "\n") (is_ok result) }
{
    put_pieces(
        out,
        &[
            Piece::Text(b"ok "),
            Piece::Number(number),
            Piece::Text(b"\n"),
        ],
    )
}

/// Prints `ok` and a length. It takes no memory.
pub fn put_length<W: Write>(out: &mut Counted<W>, length: usize) -> Result<(), WriteFault>
    ensures { Writes W.contents out.old out.new
        (codes "ok" ++ (codes " " ++ decimal length) ++ codes "\n") (is_ok result) }
{
    let mut buffer = Buffer::new();
    put_pieces(
        out,
        &[
            Piece::Text(b"ok "),
            Piece::Text(buffer.format(length).as_bytes()),
            Piece::Text(b"\n"),
        ],
    )
}

/// Prints `ok` and bytes in hex. It takes no memory.
fn put_bytes<W: Write>(out: &mut Counted<W>, bytes: &[u8]) -> Result<(), WriteFault>
    ensures { Writes W.contents out.old out.new
        (codes "ok" ++ (codes " " ++ hex_text bytes.now) ++ codes "\n") (is_ok result) }
{
    if bytes.is_empty() {
        return put_pieces(out, &[Piece::Text(b"ok -\n")]);
    }
    put_pieces(
        out,
        &[Piece::Text(b"ok "), Piece::Hex(bytes), Piece::Text(b"\n")],
    )
}

/// Prints `ok` and the header of a database.
fn put_info<W: Write>(out: &mut Counted<W>, info: &DbInfo) -> Result<(), WriteFault>
    ensures { Writes W.contents out.old out.new
        (codes "ok" ++ words_text (info_words info.now) ++ codes "\n") (is_ok result) }
{
    put_words(
        out,
        &[
            Word(Piece::Spelled(info.name.as_slice())),
            Word(Piece::Hex16(info.attributes)),
            Word(Piece::Number(u32::from(info.version))),
            Word(Piece::Number(info.creation_date)),
            Word(Piece::Number(info.modification_date)),
            Word(Piece::Number(info.backup_date)),
            Word(Piece::Number(info.modification_number)),
            Word(Piece::FourBytes(info.kind)),
            Word(Piece::FourBytes(info.creator)),
            Word(Piece::Hex32(info.seed)),
            Word(Piece::Number(u32::from(info.entry_count))),
        ],
    )
}

/// A word after `ok`.
#[derive(Clone, Copy)]
struct Word<'a>(Piece<'a>);

impl HasText for Word<'_> {
    ghost text = { words.text_of_word };

    #[tactic(auto, using(palm_text::proofs::Parts::then, palm_text::proofs::Parts::stops))]
    fn put_to<W: Write>(&self, out: &mut Counted<W>) -> Result<(), WriteFault> {
        put_all(out, b" ")?;
        self.0.put_to(out)
    }
}

/// Prints `ok` and words.
#[tactic(auto, using(palm_text::proofs::Parts::then, palm_text::proofs::Parts::stops))]
fn put_words<W: Write>(out: &mut Counted<W>, shown: &[Word<'_>]) -> Result<(), WriteFault>
    ensures { Writes W.contents out.old out.new
        (codes "ok" ++ flat_map words.text_of_word shown.now ++ codes "\n") (is_ok result) }
{
    put_all(out, b"ok")?;
    put_last_words(out, shown)
}

/// Prints words, and the end of the line.
#[tactic(auto, using(palm_text::proofs::Parts::then, palm_text::proofs::Parts::stops))]
fn put_last_words<W: Write>(out: &mut Counted<W>, shown: &[Word<'_>]) -> Result<(), WriteFault>
    ensures { Writes W.contents out.old out.new
        (flat_map words.text_of_word shown.now ++ codes "\n") (is_ok result) }
{
    put_each(out, shown)?;
    put_all(out, b"\n")
}

/// Returns the word for whether there is data.
fn data_word(name: Option<Name>) -> &'static [u8]
    ensures { result.now ≡ words.data_word name }
{
    match name {
        Some(_) => b"data",
        None => b"none",
    }
}
