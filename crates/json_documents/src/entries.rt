//! The rows of entries.

ghost use Rattle.std.specs.Prelude.{◌≡◌, ◌++◌, Some, is_ok};
ghost use Rattle.palm_text.specs.Counted.{Writes};
ghost use Rattle.unicode_text.specs.Pieces.{json_text};
ghost use Rattle.json_documents.specs.RowTexts as words;
ghost use Rattle.json_documents.specs.RowTexts.{category_member, data_json, index_json, record_json, record_start, resource_json, resource_start};

use crate::values::{put_four_bytes, put_number};
use db_format::NameField;
use file_listing::{Extent, RecordRow};
use palm_text::{Counted, WriteFault};
use std::io::Write;
use unicode_text::JsonPiece::{Number, String, Text};
use unicode_text::{JsonPiece, put_json};

/// Returns the comma before the entry of an index.
fn comma(index: u16) -> JsonPiece<'static>
    ensures { json_text result ≡ words.comma index }
{
    if index == 0 { Text(b"") } else { Text(b",") }
}

/// Writes the index of an entry, after a comma unless it is the first entry.
fn put_index<W: Write>(out: &mut Counted<W>, index: u16) -> Result<(), WriteFault>
    ensures { Writes W.contents out.old out.new (index_json index) (is_ok result) }
{
    put_json(
        out,
        &[comma(index), Text(b"{\"index\":"), Number(u32::from(index))],
    )
}

/// Writes the index of a record, and its attributes.
#[tactic(auto, using(palm_text::proofs::Parts::then, palm_text::proofs::Parts::stops))]
fn put_record_start<W: Write>(
    out: &mut Counted<W>,
    index: u16,
    attributes: u8,
) -> Result<(), WriteFault>
    ensures { Writes W.contents out.old out.new (record_start index attributes) (is_ok result) }
{
    put_index(out, index)?;
    put_number(out, b",\"attributes\":", u32::from(attributes))
}

/// Writes the index of a resource, and its type.
#[tactic(auto, using(palm_text::proofs::Parts::then, palm_text::proofs::Parts::stops))]
fn put_resource_start<W: Write>(
    out: &mut Counted<W>,
    index: u16,
    kind: u32,
) -> Result<(), WriteFault>
    ensures { Writes W.contents out.old out.new (resource_start index kind) (is_ok result) }
{
    put_index(out, index)?;
    put_four_bytes(out, b",\"type\":", kind, b",\"type_hex\":")
}

/// Writes the ID of an entry, and the offset and the length of its data.
fn put_data<W: Write>(
    out: &mut Counted<W>,
    id: u32,
    block: Option<Extent>,
) -> Result<(), WriteFault>
    ensures { Writes W.contents out.old out.new (data_json id block) (is_ok result) }
{
    match block {
        None => put_json(
            out,
            &[
                Text(b"\"id\":"),
                Number(id),
                Text(b",\"offset\":null,\"length\":null}"),
            ],
        ),
        Some(block) => put_json(
            out,
            &[
                Text(b"\"id\":"),
                Number(id),
                Text(b",\"offset\":"),
                Number(block.offset),
                Text(b",\"length\":"),
                Number(block.size),
                Text(b"}"),
            ],
        ),
    }
}

/// Writes the name of the category of a record.
fn put_category_name<W: Write>(out: &mut Counted<W>, name: &[u8]) -> Result<(), WriteFault>
    ensures { Writes W.contents out.old out.new (category_member (Some name.now)) (is_ok result) }
{
    put_json(out, &[Text(b"\"category\":"), String(name), Text(b",")])
}

/// Writes the name of the category of a record, if it has one.
#[tactic(auto, using(palm_text::proofs::Parts::nothing))]
fn put_category_member<W: Write>(
    out: &mut Counted<W>,
    name: &Option<NameField>,
) -> Result<(), WriteFault>
    ensures { Writes W.contents out.old out.new (category_member name.now) (is_ok result) }
{
    match name {
        Some(name) => put_category_name(out, name.name()),
        None => Ok(()),
    }
}

/// Writes the rest of a record after its attributes.
#[tactic(auto, using(palm_text::proofs::Parts::then, palm_text::proofs::Parts::stops))]
fn put_record_end<W: Write>(out: &mut Counted<W>, row: &RecordRow) -> Result<(), WriteFault>
    ensures { Writes W.contents out.old out.new
        (category_member row.now.category ++ data_json row.now.id row.now.block) (is_ok result) }
{
    put_category_member(out, &row.category)?;
    put_data(out, row.id, row.block)
}

/// Writes a record.
#[tactic(auto, using(palm_text::proofs::Parts::then, palm_text::proofs::Parts::stops), unfolding(crate::specs::RowTexts::record_json))]
pub(crate) fn put_record<W: Write>(out: &mut Counted<W>, row: &RecordRow) -> Result<(), WriteFault>
    ensures { Writes W.contents out.old out.new (record_json row.now) (is_ok result) }
{
    put_record_start(out, row.index, row.attributes)?;
    put_record_end(out, row)
}

/// Writes a resource.
#[tactic(auto, using(palm_text::proofs::Parts::then, palm_text::proofs::Parts::stops), unfolding(crate::specs::RowTexts::resource_json))]
pub(crate) fn put_resource<W: Write>(
    out: &mut Counted<W>,
    index: u16,
    kind: u32,
    id: u32,
    block: Option<Extent>,
) -> Result<(), WriteFault>
    ensures { Writes W.contents out.old out.new (resource_json index kind id block)
        (is_ok result) }
{
    put_resource_start(out, index, kind)?;
    put_data(out, id, block)
}
