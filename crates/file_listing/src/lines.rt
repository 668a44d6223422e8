//! Rows as lines of text.

ghost use Rattle.std.specs.Prelude.{◌≡◌, ◌++◌, codes, decimal, is_ok, option_map};
ghost use Rattle.palm_text.specs.Counted.{Writes};
ghost use Rattle.palm_text.specs.Pieces.{piece_text};
ghost use Rattle.file_listing.specs.Lines as words;
ghost use Rattle.file_listing.specs.Lines.{entry_start, epoch_end, category_end, category_line, category_start, extent_text, heading, line, line_if_named, listed_fault, listed_record, listed_resource, listing_line, moment_line, named_end, needs_line, record_values, seconds_text, size_text, slots_text};

use crate::moments::put_moment;
use crate::rows::{Epoch, Extent, Moment, Notation, RecordRow, Row};
use canonical_file::put_changes;
use db_format::NameField;
use heap_model::FileFault;
use itoa::Buffer;
use palm_text::{Counted, Piece, WriteFault, faulty_pieces, put_all, put_pieces};
use std::io::Write;
use unicode_text::{put_between, put_text};

/// The notation in lines of text.
#[derive(Clone, Copy)]
pub struct TextRows<'a> {
    /// The path of the file, if the lines begin with one that has it.
    pub path: Option<&'a str>,
}

/// Writes the line with the path of a file, if there is one.
///
/// # Errors
///
/// - `WriteFault`: if a write failed, or took 0 bytes.
#[tactic(auto, using(palm_text::proofs::Parts::nothing))]
pub fn put_heading<W: Write>(out: &mut Counted<W>, path: Option<&str>) -> Result<(), WriteFault>
    ensures { Writes W.contents out.old out.new (heading (option_map (λ path. path.now) path.entry))
        (is_ok result) }
{
    match path {
        None => Ok(()),
        Some(path) => put_pieces(
            out,
            &[
                Piece::Text(b"==> "),
                Piece::Text(path.as_bytes()),
                Piece::Text(b" <==\n"),
            ],
        ),
    }
}

/// Writes a word and a value.
fn put_line<'a, W: Write>(
    out: &mut Counted<W>,
    word: &'a [u8],
    value: Piece<'a>,
) -> Result<(), WriteFault>
    ensures { Writes W.contents out.old out.new (line word.now (piece_text value.entry))
        (is_ok result) }
{
    put_pieces(out, &[Piece::Text(word), value, Piece::Text(b"\n")])
}

/// Writes `bad` with a fault, and `at` with the offset of its field.
fn put_bad<W: Write>(out: &mut Counted<W>, fault: FileFault, at: u32) -> Result<(), WriteFault>
    ensures { Writes W.contents out.old out.new (listed_fault fault at) (is_ok result) }
{
    let (space, part) = faulty_pieces(fault.part());
    put_pieces(
        out,
        &[
            Piece::Text(b"bad "),
            Piece::Text(fault.name().as_bytes()),
            Piece::Text(space),
            part,
            Piece::Text(b"\nat "),
            Piece::Number(at),
            Piece::Text(b"\n"),
        ],
    )
}

/// Writes the heading, and the lines of a fault.
#[tactic(auto, using(palm_text::proofs::Parts::then, palm_text::proofs::Parts::stops))]
fn put_headed_fault<W: Write>(
    out: &mut Counted<W>,
    path: Option<&str>,
    fault: FileFault,
    at: u32,
) -> Result<(), WriteFault>
    ensures { Writes W.contents out.old out.new
        (heading (option_map (λ path. path.now) path.entry) ++ listed_fault fault at) (is_ok result) }
{
    put_heading(out, path)?;
    put_bad(out, fault, at)
}

/// Writes the heading, and the line with the size of a file.
#[tactic(auto, using(palm_text::proofs::Parts::then, palm_text::proofs::Parts::stops))]
fn put_headed_size<W: Write>(
    out: &mut Counted<W>,
    path: Option<&str>,
    size: u32,
) -> Result<(), WriteFault>
    ensures { Writes W.contents out.old out.new
        (heading (option_map (λ path. path.now) path.entry) ++ line (codes "ok ") (decimal size))
        (is_ok result) }
{
    put_heading(out, path)?;
    put_line(out, b"ok ", Piece::Number(size))
}

/// Writes a word and a number of seconds.
fn put_seconds<W: Write>(out: &mut Counted<W>, word: &[u8], seconds: u32) -> Result<(), WriteFault>
    ensures { Writes W.contents out.old out.new (seconds_text word.now seconds) (is_ok result) }
{
    put_pieces(
        out,
        &[Piece::Text(word), Piece::Number(seconds), Piece::Text(b" ")],
    )
}

/// Returns the end of a line with a date.
fn end_of(epoch: Epoch) -> &'static [u8]
    ensures { result.now ≡ epoch_end epoch }
{
    match epoch {
        Epoch::Year1904 => b"\n",
        Epoch::Year1970 => b" since 1970\n",
    }
}

/// Writes the seconds of a moment, its date and time, and its epoch if that is 1970. If there is no
/// such moment, it writes `never`.
#[tactic(auto, using(palm_text::proofs::Parts::then, palm_text::proofs::Parts::stops), unfolding(crate::specs::Lines::moment_line))]
fn put_dated<W: Write>(out: &mut Counted<W>, word: &[u8], moment: &Moment) -> Result<(), WriteFault>
    ensures { Writes W.contents out.old out.new (moment_line word.now moment.now) (is_ok result) }
{
    put_seconds(out, word, moment.seconds)?;
    put_moment(out, moment, b"never\n", b"", end_of(moment.epoch))
}

/// Writes the extent of a block.
fn put_extent<'a, W: Write>(
    out: &mut Counted<W>,
    before: Piece<'a>,
    block: Option<Extent>,
    after: &'a [u8],
) -> Result<(), WriteFault>
    ensures { Writes W.contents out.old out.new
        (extent_text (piece_text before.entry) block after.now) (is_ok result) }
{
    match block {
        None => put_pieces(out, &[before, Piece::Text(b" none"), Piece::Text(after)]),
        Some(block) => put_pieces(
            out,
            &[
                before,
                Piece::Text(b" "),
                Piece::Number(block.offset),
                Piece::Text(b" "),
                Piece::Number(block.size),
                Piece::Text(after),
            ],
        ),
    }
}

/// Returns the word for the kind of the entries.
fn count_word(resources: bool) -> &'static [u8]
    ensures { result.now ≡ words.count_word resources }
{
    if resources {
        b"resources "
    } else {
        b"records "
    }
}

/// Writes the index of an entry, and its attributes or its type.
fn put_start<W: Write>(out: &mut Counted<W>, index: u16, value: Piece) -> Result<(), WriteFault>
    ensures { Writes W.contents out.old out.new (entry_start index (piece_text value.entry))
        (is_ok result) }
{
    put_pieces(
        out,
        &[
            Piece::Number(u32::from(index)),
            Piece::Text(b" "),
            value,
            Piece::Text(b" "),
        ],
    )
}

/// Writes the line of a resource.
#[tactic(auto, using(palm_text::proofs::Parts::then, palm_text::proofs::Parts::stops), unfolding(crate::specs::Lines::listed_resource))]
fn put_resource<W: Write>(
    out: &mut Counted<W>,
    index: u16,
    kind: u32,
    id: u32,
    block: Option<Extent>,
) -> Result<(), WriteFault>
    ensures { Writes W.contents out.old out.new (listed_resource index kind id block)
        (is_ok result) }
{
    put_start(out, index, Piece::FourBytes(kind))?;
    put_extent(out, Piece::Number(id), block, b"\n")
}

/// Writes the values of a record, without the end of the line.
#[tactic(auto, using(palm_text::proofs::Parts::then, palm_text::proofs::Parts::stops), unfolding(crate::specs::Lines::record_values))]
fn put_values<W: Write>(out: &mut Counted<W>, row: &RecordRow) -> Result<(), WriteFault>
    ensures { Writes W.contents out.old out.new (record_values row.now) (is_ok result) }
{
    put_start(out, row.index, Piece::Hex8(row.attributes))?;
    put_extent(out, Piece::Number(row.id), row.block, b"")
}

/// Writes the line of a record.
#[tactic(auto, using(palm_text::proofs::Parts::then, palm_text::proofs::Parts::stops), unfolding(crate::specs::Lines::listed_record))]
fn put_record<W: Write>(out: &mut Counted<W>, row: &RecordRow) -> Result<(), WriteFault>
    ensures { Writes W.contents out.old out.new (listed_record row.now) (is_ok result) }
{
    put_values(out, row)?;
    put_category_end(out, &row.category)
}

/// Writes the characters of the name of a category in quotes, and the end of the line.
fn put_named_end<W: Write>(out: &mut Counted<W>, name: &[u8]) -> Result<(), WriteFault>
    ensures { Writes W.contents out.old out.new (named_end name.now) (is_ok result) }
{
    put_between(out, b" \"", name, b"\"\n")
}

/// Writes the name of a category, if it has one, and the end of the line.
fn put_category_end<W: Write>(
    out: &mut Counted<W>,
    name: &Option<NameField>,
) -> Result<(), WriteFault>
    ensures { Writes W.contents out.old out.new (category_end name.now) (is_ok result) }
{
    match name {
        Some(name) => put_named_end(out, name.name()),
        None => put_all(out, b"\n"),
    }
}

/// Writes `category` and its number.
#[tactic(auto, unfolding(crate::specs::Lines::category_start))]
fn put_category_start<W: Write>(out: &mut Counted<W>, number: u8) -> Result<(), WriteFault>
    ensures { Writes W.contents out.old out.new (category_start number) (is_ok result) }
{
    put_pieces(
        out,
        &[Piece::Text(b"category "), Piece::Number(u32::from(number))],
    )
}

/// Writes the line of a category with a name.
#[tactic(auto, using(palm_text::proofs::Parts::then, palm_text::proofs::Parts::stops), unfolding(crate::specs::Lines::category_line))]
fn put_category_line<W: Write>(
    out: &mut Counted<W>,
    number: u8,
    name: &[u8],
) -> Result<(), WriteFault>
    ensures { Writes W.contents out.old out.new (category_line number name.now) (is_ok result) }
{
    put_category_start(out, number)?;
    put_named_end(out, name)
}

/// Writes the line of a category, if it has a name.
#[tactic(auto, using(palm_text::proofs::Parts::nothing))]
fn put_category<W: Write>(
    out: &mut Counted<W>,
    number: u8,
    name: &Option<NameField>,
) -> Result<(), WriteFault>
    ensures { Writes W.contents out.old out.new (line_if_named number name.now)
        (is_ok result) }
{
    match name {
        Some(name) => put_category_line(out, number, name.name()),
        None => Ok(()),
    }
}

/// Writes a size in bytes.
#[tactic(auto, unfolding(crate::specs::Lines::size_text))]
fn put_size<W: Write>(out: &mut Counted<W>, size: u64) -> Result<(), WriteFault>
    ensures { Writes W.contents out.old out.new (size_text size) (is_ok result) }
{
    let mut digits = Buffer::new();
    put_pieces(
        out,
        &[
            Piece::Text(b"needs "),
            Piece::Text(digits.format(size).as_bytes()),
            Piece::Text(b" bytes and "),
        ],
    )
}

/// Writes a number of slots.
fn put_slots<W: Write>(out: &mut Counted<W>, slots: u64) -> Result<(), WriteFault>
    ensures { Writes W.contents out.old out.new (slots_text slots) (is_ok result) }
{
    let mut digits = Buffer::new();
    put_pieces(
        out,
        &[
            Piece::Text(digits.format(slots).as_bytes()),
            Piece::Text(b" slots in a heap\n"),
        ],
    )
}

/// Writes the least size and number of slots of a new image with the database.
#[tactic(auto, using(palm_text::proofs::Parts::then, palm_text::proofs::Parts::stops), unfolding(crate::specs::Lines::needs_line))]
fn put_needs<W: Write>(out: &mut Counted<W>, size: u64, slots: u64) -> Result<(), WriteFault>
    ensures { Writes W.contents out.old out.new (needs_line size slots) (is_ok result) }
{
    put_size(out, size)?;
    put_slots(out, slots)
}

impl Notation for TextRows<'_> {
    ghost row_text = { λ rows row. listing_line (option_map (λ path. path.now) rows.path) row };

    fn put_row<W: Write>(&self, out: &mut Counted<W>, row: &Row) -> Result<(), WriteFault> {
        match row {
            Row::Fault { fault, at } => put_headed_fault(out, self.path, *fault, *at),
            Row::Size(size) => put_headed_size(out, self.path, *size),
            Row::Name(name) => put_line(out, b"name ", Piece::Spelled(name.name())),
            Row::Attributes(bits) => put_line(out, b"attributes ", Piece::Hex16(*bits)),
            Row::Version(number) => put_line(out, b"version ", Piece::Number(u32::from(*number))),
            Row::Created(moment) => put_dated(out, b"created ", moment),
            Row::Modified(moment) => put_dated(out, b"modified ", moment),
            Row::Backup(moment) => put_dated(out, b"backup ", moment),
            Row::Number(number) => put_line(out, b"number ", Piece::Number(*number)),
            Row::Kind(kind) => put_line(out, b"type ", Piece::FourBytes(*kind)),
            Row::Creator(creator) => put_line(out, b"creator ", Piece::FourBytes(*creator)),
            Row::Seed(seed) => put_line(out, b"seed ", Piece::Hex32(*seed)),
            Row::Characters(name) => put_text(out, b"text \"", name.name(), b"\"\n"),
            Row::App(block) => put_extent(out, Piece::Text(b"app"), *block, b"\n"),
            Row::Sort(block) => put_extent(out, Piece::Text(b"sort"), *block, b"\n"),
            Row::Category { number, name } => put_category(out, *number, name),
            Row::Count { resources, count } => put_line(
                out,
                count_word(*resources),
                Piece::Number(u32::from(*count)),
            ),
            Row::Record(row) => put_record(out, row),
            Row::Resource {
                index,
                kind,
                id,
                block,
            } => put_resource(out, *index, *kind, u32::from(*id), *block),
            Row::Needs { size, slots } => put_needs(out, *size, *slots),
            Row::Changed(changes) => put_changes(out, *changes),
        }
    }
}
