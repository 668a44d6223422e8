//! The command `databases`: a line for each database of an image, or a document of all.

ghost use Rattle.std.specs.Prelude.{[], ◌≡◌, IfOk, OnErr, decimal, is_ok};
ghost use Rattle.std.specs.List.{flat_map};
ghost use Rattle.heap_model.specs.Store.{database_under, store_of};
ghost use Rattle.palm_store.specs.Databases.{HasNumber};
ghost use Rattle.palm_text.specs.Counted.{Writes};
ghost use Rattle.palm_text.specs.Output.{Puts, output};
ghost use Rattle.store_commands.specs.Databases.{database_count_line, first_words, kind_word, last_words, listed_row_end, listed_row_line, listed_row, listed_rows, rows_text};
ghost use Rattle.store_commands.specs.DatabaseForms.{EndsDatabases, rows_in_form};
ghost use Rattle.heap_model.specs.Database as databases;

use crate::databases_json::put_document;
use crate::images::{count_of, file_of_database, info_of, nth_of, opened};
use allowance::{Allowance, push};
use db_format::DbAttrs;
use heap_model::{Db, DbInfo};
use itoa::Buffer;
use palm_store::Store;
use palm_text::{Counted, Piece, WriteFault, put_all, put_pieces};
use program_io::command_line::Form;
use program_io::{Status, flushed};
use raw_region::Region;
use script_calls::put_length;
use std::alloc::AllocError;
use std::io::Write;
use unicode_text::put_text;

/// Checks an image, and prints in a form what its databases are or its first fault.
pub fn cmd_databases<A: Allowance, V: Write>(
    memory: &A,
    image: &[u8],
    form: Form,
    out: &mut Counted<V>,
) -> Status
    ensures ends { EndsDatabases form image.now (output V.contents out.old out.new) result }
    ensures short { result ≡ Status.NoMemory → A.is_short memory.now }
{
    match Region::copied_from(memory, image) {
        Ok(region) => databases_region_from(memory, region, form, out),
        Err(_) => Status::NoMemory,
    }
}

/// `cmd_databases`, of an image that lies in a region, of which nothing may be lent.
pub fn databases_region_from<A: Allowance, V: Write>(
    memory: &A,
    region: Region,
    form: Form,
    out: &mut Counted<V>,
) -> Status
    requires whole { region.lents ≡ [] }
    ensures ends { EndsDatabases form region.bytes (output V.contents out.old out.new) result }
    ensures short { result ≡ Status.NoMemory → A.is_short memory.now }
{
    let store = match opened(memory, region, form, out) {
        Ok(store) => store,
        Err(status) => return status,
    };
    let Ok(rows) = database_rows(memory, &store) else {
        return Status::NoMemory;
    };
    match put_flushed(out, form, rows.as_slice()) {
        Ok(()) => Status::Done,
        Err(_) => Status::WriteFault,
    }
}

/// What is printed of a database: what its header says, and how many bytes its file has.
#[derive(Drop)]
pub struct Row {
    pub(crate) info: DbInfo,
    pub(crate) size: usize,
}

/// What is printed of a database. The only error is that an allocation failed.
fn row_of_number<A: Allowance>(memory: &A, store: &Store, db: Db) -> Result<Row, AllocError>
    requires whole { store.now.lents ≡ [] }
    requires there { HasNumber store.now.bytes db.0 }
    ensures row { IfOk result (λ row. row
        ≡ listed_row (store_of store.now.bytes) (database_under store.now.bytes db.0)) }
    ensures short { OnErr result (A.is_short memory.now) }
{
    let info = info_of(store, db);
    let file = file_of_database(memory, store, db)?;
    Ok(Row {
        info,
        size: file.as_slice().len(),
    })
}

/// What is printed of all databases, in their order. The only error is that an allocation failed.
pub fn database_rows<A: Allowance>(memory: &A, store: &Store) -> Result<Vec<Row>, AllocError>
    requires { store.now.lents ≡ [] }
    ensures rows { IfOk result (λ rows. rows.items ≡ listed_rows (store_of store.now.bytes)) }
    ensures short { OnErr result (A.is_short memory.now) }
{
    let mut rows = Vec::new(memory.allocator());
    for index in 0..count_of(store) {
        let row = row_of_number(memory, store, nth_of(store, index))?;
        push(memory, &mut rows, row)?;
    }
    Ok(rows)
}

/// Which entries a database has.
fn kind_of(attributes: u16) -> &'static [u8]
    ensures { result.now ≡ kind_word (databases.has_resources attributes) }
{
    if DbAttrs(attributes).has_resources() {
        b"resources"
    } else {
        b"records"
    }
}

/// Writes the first words of a database's line.
#[tactic(auto, unfolding(crate::specs::Databases::first_words))]
fn put_info<W: Write>(out: &mut Counted<W>, info: &DbInfo) -> Result<(), WriteFault>
    ensures { Writes W.contents out.old out.new (first_words info.now) (is_ok result) }
{
    put_pieces(
        out,
        &[
            Piece::Spelled(info.name.as_slice()),
            Piece::Text(b" "),
            Piece::Text(kind_of(info.attributes)),
            Piece::Text(b" "),
            Piece::FourBytes(info.kind),
            Piece::Text(b" "),
            Piece::FourBytes(info.creator),
            Piece::Text(b" "),
            Piece::Hex16(info.attributes),
            Piece::Text(b" "),
            Piece::Number(u32::from(info.entry_count)),
            Piece::Text(b" "),
        ],
    )
}

/// Writes the number of bytes that a database's file has.
fn put_size<W: Write>(out: &mut Counted<W>, size: usize) -> Result<(), WriteFault>
    ensures { Writes W.contents out.old out.new (decimal size) (is_ok result) }
{
    put_all(out, Buffer::new().format(size).as_bytes())
}

/// Writes the end of the line of the database with a name.
#[tactic(auto, using(palm_text::proofs::Parts::then, palm_text::proofs::Parts::stops))]
fn put_end<W: Write>(out: &mut Counted<W>, name: &[u8]) -> Result<(), WriteFault>
    ensures { Writes W.contents out.old out.new (listed_row_end name.now) (is_ok result) }
{
    put_text(out, b" \"", name, b"\"")?;
    put_all(out, b"\n")
}

/// Writes the last words of a database's line.
#[tactic(auto, using(palm_text::proofs::Parts::then, palm_text::proofs::Parts::stops))]
fn put_last<W: Write>(out: &mut Counted<W>, row: &Row) -> Result<(), WriteFault>
    ensures { Writes W.contents out.old out.new (last_words row.now) (is_ok result) }
{
    put_size(out, row.size)?;
    put_end(out, row.info.name.as_slice())
}

/// Writes the line of a database.
#[tactic(auto, using(palm_text::proofs::Parts::then, palm_text::proofs::Parts::stops))]
fn put_row<W: Write>(out: &mut Counted<W>, row: &Row) -> Result<(), WriteFault>
    ensures { Writes W.contents out.old out.new (listed_row_line row.now) (is_ok result) }
{
    put_info(out, &row.info)?;
    put_last(out, row)
}

/// Writes the lines of databases.
fn put_rows<W: Write>(out: &mut Counted<W>, rows: &[Row]) -> Result<(), WriteFault>
    ensures { Writes W.contents out.old out.new (flat_map listed_row_line rows.now) (is_ok result) }
{
    for index in 0..rows.len() {
        match put_row(out, &rows[index]) {
            Ok(()) => {}
            Err(fault) => return Err(fault),
        }
    }
    Ok(())
}

/// Writes how many databases there are.
#[tactic(auto, unfolding(crate::specs::Databases::database_count_line))]
fn put_count<W: Write>(out: &mut Counted<W>, count: usize) -> Result<(), WriteFault>
    ensures { Writes W.contents out.old out.new (database_count_line count) (is_ok result) }
{
    put_length(out, count)
}

/// Writes how many databases there are, and their lines.
#[tactic(auto, using(palm_text::proofs::Parts::then, palm_text::proofs::Parts::stops))]
fn put_lines<W: Write>(out: &mut Counted<W>, rows: &[Row]) -> Result<(), WriteFault>
    ensures { Writes W.contents out.old out.new (rows_text rows.now) (is_ok result) }
{
    put_count(out, rows.len())?;
    put_rows(out, rows)
}

/// Writes what is printed of databases in a form. Flushes nothing.
pub fn put_databases<W: Write>(
    out: &mut Counted<W>,
    form: Form,
    rows: &[Row],
) -> Result<(), WriteFault>
    ensures { Writes W.contents out.old out.new (rows_in_form form rows.now) (is_ok result) }
{
    match form {
        Form::Text => put_lines(out, rows),
        Form::Json => put_document(out, rows),
    }
}

/// The same, and flushes.
#[tactic(auto, using(palm_text::proofs::Parts::then_flush))]
fn put_flushed<W: Write>(out: &mut Counted<W>, form: Form, rows: &[Row]) -> Result<(), WriteFault>
    ensures { Puts W.contents out.old out.new (rows_in_form form rows.now) (is_ok result) }
{
    put_databases(out, form, rows)?;
    flushed(out)
}
