//! Rows as parts of a document.

ghost use Rattle.std.specs.Prelude.{◌≡◌, ◌++◌, codes, decimal, is_ok, option_map};
ghost use Rattle.palm_text.specs.Counted.{Writes};
ghost use Rattle.unicode_text.specs.Pieces.{json_text};
ghost use Rattle.json_documents.specs.RowTexts.{document_start, fault_json, faulty_fields, kind_json, listing_json, member};

use crate::categories::put_category;
use crate::changes::put_changes;
use crate::entries::{put_record, put_resource};
use crate::needs::put_needs;
use crate::values::{DateKeys, put_bytes, put_dated, put_extent, put_four_bytes, put_number};
use file_listing::{Notation, Row};
use heap_model::{FaultyPart, FileFault, Which};
use palm_text::{Counted, WriteFault, put_all};
use std::io::Write;
use unicode_text::JsonPiece::{Number, Text, Utf8};
use unicode_text::{JsonPiece, put_json};

/// The notation in parts of a document.
#[derive(Clone, Copy)]
pub struct JsonRows<'a> {
    /// The path of the file, if the document begins with it.
    pub path: Option<&'a str>,
}

const NO_JSON: JsonPiece<'static> = Text(b"");

const CREATED: DateKeys = DateKeys {
    seconds: b"\"created\":",
    utc: b",\"created_utc\":",
    since: b",\"created_since\":",
};

const MODIFIED: DateKeys = DateKeys {
    seconds: b"\"modified\":",
    utc: b",\"modified_utc\":",
    since: b",\"modified_since\":",
};

const BACKUP: DateKeys = DateKeys {
    seconds: b"\"backup\":",
    utc: b",\"backup_utc\":",
    since: b",\"backup_since\":",
};

/// Returns the fields after the name of a fault: the word of an info block, and the index of an
/// entry.
fn part_fields(part: FaultyPart) -> (&'static [u8], JsonPiece<'static>)
    ensures { result.0.now ++ json_text result.1 ≡ faulty_fields part }
{
    match part {
        FaultyPart::Whole => (b"\",\"numbers\":[", NO_JSON),
        FaultyPart::Block(Which::App) => (b"\",\"block\":\"app\",\"numbers\":[", NO_JSON),
        FaultyPart::Block(Which::Sort) => (b"\",\"block\":\"sort\",\"numbers\":[", NO_JSON),
        FaultyPart::Entry(index) => (b"\",\"numbers\":[", Number(index)),
    }
}

/// Writes the start of a document, with the path of the file if there is one.
fn put_document_start<W: Write>(out: &mut Counted<W>, path: Option<&str>) -> Result<(), WriteFault>
    ensures { Writes W.contents out.old out.new
        (document_start (option_map (λ path. path.now) path.entry)) (is_ok result) }
{
    match path {
        None => put_all(out, b"{"),
        Some(path) => put_json(out, &[Text(b"{\"path\":"), Utf8(path), Text(b",")]),
    }
}

/// Writes the start of a document, and the size of the file.
#[tactic(auto, using(palm_text::proofs::Parts::then, palm_text::proofs::Parts::stops))]
fn put_started_size<W: Write>(
    out: &mut Counted<W>,
    path: Option<&str>,
    size: u32,
) -> Result<(), WriteFault>
    ensures { Writes W.contents out.old out.new
        (document_start (option_map (λ path. path.now) path.entry)
        ++ member (codes "\"size\":") (decimal size)) (is_ok result) }
{
    put_document_start(out, path)?;
    put_number(out, b"\"size\":", size)
}

/// Writes the document for a fault.
#[tactic(auto, using(palm_text::proofs::Parts::then, palm_text::proofs::Parts::stops))]
fn put_started_fault<W: Write>(
    out: &mut Counted<W>,
    path: Option<&str>,
    fault: FileFault,
    at: u32,
) -> Result<(), WriteFault>
    ensures { Writes W.contents out.old out.new
        (document_start (option_map (λ path. path.now) path.entry) ++ fault_json fault at)
        (is_ok result) }
{
    put_document_start(out, path)?;
    put_fault(out, fault, at)
}

/// Writes the document for a fault, after its start.
fn put_fault<W: Write>(out: &mut Counted<W>, fault: FileFault, at: u32) -> Result<(), WriteFault>
    ensures { Writes W.contents out.old out.new (fault_json fault at) (is_ok result) }
{
    let (fields, index) = part_fields(fault.part());
    put_json(
        out,
        &[
            Text(b"\"fault\":\""),
            Text(fault.name().as_bytes()),
            Text(fields),
            index,
            Text(b"],\"at\":"),
            Number(at),
            Text(b"}\n"),
        ],
    )
}

/// Writes the kind of the entries.
fn put_kind<W: Write>(out: &mut Counted<W>, resources: bool) -> Result<(), WriteFault>
    ensures { Writes W.contents out.old out.new (kind_json resources) (is_ok result) }
{
    if resources {
        put_all(out, b"\"kind\":\"resources\",\"entries\":[")
    } else {
        put_all(out, b"\"kind\":\"records\",\"entries\":[")
    }
}

impl Notation for JsonRows<'_> {
    ghost row_text = { λ rows row. listing_json (option_map (λ path. path.now) rows.path) row };

    #[tactic(auto, using(palm_text::proofs::Parts::nothing))]
    fn put_row<W: Write>(&self, out: &mut Counted<W>, row: &Row) -> Result<(), WriteFault> {
        match row {
            Row::Fault { fault, at } => put_started_fault(out, self.path, *fault, *at),
            Row::Size(size) => put_started_size(out, self.path, *size),
            Row::Name(name) => put_bytes(out, b"\"name\":", name.name(), b",\"name_hex\":"),
            Row::Attributes(bits) => put_number(out, b"\"attributes\":", u32::from(*bits)),
            Row::Version(number) => put_number(out, b"\"version\":", u32::from(*number)),
            Row::Created(moment) => put_dated(out, CREATED, moment),
            Row::Modified(moment) => put_dated(out, MODIFIED, moment),
            Row::Backup(moment) => put_dated(out, BACKUP, moment),
            Row::Number(number) => put_number(out, b"\"number\":", *number),
            Row::Kind(kind) => put_four_bytes(out, b"\"type\":", *kind, b",\"type_hex\":"),
            Row::Creator(creator) => {
                put_four_bytes(out, b"\"creator\":", *creator, b",\"creator_hex\":")
            }
            Row::Seed(seed) => put_number(out, b"\"seed\":", *seed),
            Row::Characters(_) => Ok(()),
            Row::App(block) => put_extent(out, b"\"app\":", *block),
            Row::Sort(block) => put_extent(out, b"\"sort\":", *block),
            Row::Category { number, name } => put_category(out, *number, name),
            Row::Count { resources, .. } => put_kind(out, *resources),
            Row::Record(row) => put_record(out, row),
            Row::Resource {
                index,
                kind,
                id,
                block,
            } => put_resource(out, *index, *kind, u32::from(*id), *block),
            Row::Needs { size, slots } => put_needs(out, *size, *slots),
            Row::Changed(changes) => put_changes(out, *changes),
        }
    }
}
