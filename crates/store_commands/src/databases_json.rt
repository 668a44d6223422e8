//! The document of the databases of an image.

ghost use Rattle.std.specs.Prelude.{◌≡◌, is_ok};
ghost use Rattle.heap_model.specs.Database as databases;
ghost use Rattle.palm_text.specs.Counted.{Writes};
ghost use Rattle.store_commands.specs.DatabasesJson.{closed_json, databases_document, info_json, kind_and_type_json, more_json, next_json, row_json, rows_json, file_size_json};

use crate::databases::Row;
use db_format::DbAttrs;
use heap_model::DbInfo;
use itoa::Buffer;
use palm_text::{Counted, WriteFault, put_all};
use std::io::Write;
use unicode_text::{JsonPiece, put_json};

/// Which entries a database has.
fn kind_of(attributes: u16) -> &'static [u8]
    ensures { result.now ≡ kind_and_type_json (databases.has_resources attributes) }
{
    if DbAttrs(attributes).has_resources() {
        b",\"kind\":\"resources\",\"type\":"
    } else {
        b",\"kind\":\"records\",\"type\":"
    }
}

/// Writes the object of a database, but its last member.
#[tactic(auto, unfolding(crate::specs::DatabasesJson::info_json))]
fn put_info<W: Write>(out: &mut Counted<W>, info: &DbInfo) -> Result<(), WriteFault>
    ensures { Writes W.contents out.old out.new (info_json info.now) (is_ok result) }
{
    put_json(
        out,
        &[
            JsonPiece::Text(b"{\"name\":"),
            JsonPiece::String(info.name.as_slice()),
            JsonPiece::Text(b",\"name_hex\":"),
            JsonPiece::Hex(info.name.as_slice()),
            JsonPiece::Text(kind_of(info.attributes)),
            JsonPiece::FourBytes(info.kind),
            JsonPiece::Text(b",\"type_hex\":"),
            JsonPiece::FourHex(info.kind),
            JsonPiece::Text(b",\"creator\":"),
            JsonPiece::FourBytes(info.creator),
            JsonPiece::Text(b",\"creator_hex\":"),
            JsonPiece::FourHex(info.creator),
            JsonPiece::Text(b",\"attributes\":"),
            JsonPiece::Number(u32::from(info.attributes)),
            JsonPiece::Text(b",\"count\":"),
            JsonPiece::Number(u32::from(info.entry_count)),
            JsonPiece::Text(b","),
        ],
    )
}

/// Writes the last member of a database's object: how many bytes its file has.
#[tactic(auto, unfolding(crate::specs::DatabasesJson::file_size_json))]
fn put_size<W: Write>(out: &mut Counted<W>, size: usize) -> Result<(), WriteFault>
    ensures { Writes W.contents out.old out.new (file_size_json size) (is_ok result) }
{
    let mut digits = Buffer::new();
    put_json(
        out,
        &[
            JsonPiece::Text(b"\"size\":"),
            JsonPiece::Text(digits.format(size).as_bytes()),
            JsonPiece::Text(b"}"),
        ],
    )
}

/// Writes the object of a database.
#[tactic(auto, using(palm_text::proofs::Parts::then, palm_text::proofs::Parts::stops))]
fn put_row<W: Write>(out: &mut Counted<W>, row: &Row) -> Result<(), WriteFault>
    ensures { Writes W.contents out.old out.new (row_json row.now) (is_ok result) }
{
    put_info(out, &row.info)?;
    put_size(out, row.size)
}

/// Writes the object of a database after the first, with the comma before it.
fn put_next<W: Write>(out: &mut Counted<W>, row: &Row) -> Result<(), WriteFault>
    ensures { Writes W.contents out.old out.new (next_json row.now) (is_ok result) }
{
    match put_all(out, b",") {
        Ok(()) => put_row(out, row),
        Err(fault) => Err(fault),
    }
}

/// Writes the objects of the databases after the first.
fn put_more<W: Write>(out: &mut Counted<W>, rows: &[Row]) -> Result<(), WriteFault>
    ensures { Writes W.contents out.old out.new (more_json rows.now) (is_ok result) }
{
    for row in rows {
        match put_next(out, row) {
            Ok(()) => {}
            Err(fault) => return Err(fault),
        }
    }
    Ok(())
}

/// Writes the objects of databases, with commas between.
#[tactic(auto, using(palm_text::proofs::Parts::then, palm_text::proofs::Parts::stops, palm_text::proofs::Parts::nothing))]
fn put_rows<W: Write>(out: &mut Counted<W>, rows: &[Row]) -> Result<(), WriteFault>
    ensures { Writes W.contents out.old out.new (rows_json rows.now) (is_ok result) }
{
    match rows {
        [] => Ok(()),
        [first, more @ ..] => {
            put_row(out, first)?;
            put_more(out, more)
        }
    }
}

/// Writes the objects of databases, and the end of the document.
fn put_closed<W: Write>(out: &mut Counted<W>, rows: &[Row]) -> Result<(), WriteFault>
    ensures { Writes W.contents out.old out.new (closed_json rows.now) (is_ok result) }
{
    match put_rows(out, rows) {
        Ok(()) => put_all(out, b"]}\n"),
        Err(fault) => Err(fault),
    }
}

/// Writes the document of databases.
pub(crate) fn put_document<W: Write>(out: &mut Counted<W>, rows: &[Row]) -> Result<(), WriteFault>
    ensures { Writes W.contents out.old out.new (databases_document rows.now) (is_ok result) }
{
    match put_all(out, b"{\"databases\":[") {
        Ok(()) => put_closed(out, rows),
        Err(fault) => Err(fault),
    }
}
