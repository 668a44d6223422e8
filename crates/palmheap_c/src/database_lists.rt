//! Lists of the databases of an image. These functions keep no state between calls.

ghost use Rattle.std.specs.Prelude.{◌≡◌, IfErr, IfOk, OnOk};
ghost use Rattle.heap_model.specs.Store.{Accepted, store_of};
ghost use Rattle.store_commands.specs.Databases.{listed_rows};
ghost use Rattle.palmheap_c.specs.Buffers.{buffer};
ghost use Rattle.palmheap_c.specs.ImageTexts.{AreDatabasesIn, IsTextAnswer, IsTextRefusal};

use crate::answers::{Answer, NO_MEMORY};
use crate::buffers::{put_bytes, refused_write};
use crate::opening::{boxed_store, region_of};
use palm_text::Counted;
use program_io::command_line::Form;
use std::alloc::Global;
use store_commands::{Row, database_rows, put_databases};

/// Writes a line for each database of an image into a buffer: the text that the command `databases`
/// prints. Sets `count` to its size in bytes, also if the buffer is too short for it.
#[unsafe(no_mangle)]
pub extern "C" fn palmheap_databases(
    alloc: Global,
    image: &[u8],
    text: &mut [u8],
    count: &mut usize,
) -> Answer
    ensures { IsTextAnswer (AreDatabasesIn Form.Text) image.now (buffer text.old count.old)
        (buffer text.new count.new) result }
{
    match listing_of(alloc, image, Form::Text) {
        Ok(bytes) => put_bytes(&bytes, text, count),
        Err(answer) => answer,
    }
}

/// Writes the document of the databases of an image into a buffer: the text that the command
/// `databases --json` prints. Sets `count` to its size in bytes, also if the buffer is too short
/// for it.
#[unsafe(no_mangle)]
pub extern "C" fn palmheap_databases_json(
    alloc: Global,
    image: &[u8],
    text: &mut [u8],
    count: &mut usize,
) -> Answer
    ensures { IsTextAnswer (AreDatabasesIn Form.Json) image.now (buffer text.old count.old)
        (buffer text.new count.new) result }
{
    match listing_of(alloc, image, Form::Json) {
        Ok(bytes) => put_bytes(&bytes, text, count),
        Err(answer) => answer,
    }
}

/// Returns the lines of the databases of an image, or their document.
fn listing_of(alloc: Global, image: &[u8], form: Form) -> Result<Vec<u8>, Answer>
    ensures ok { IfOk result (λ text. AreDatabasesIn form image.now text.items) }
    ensures err { IfErr result (IsTextRefusal image.now) }
{
    let rows = match rows_of(alloc, image) {
        Ok(rows) => rows,
        Err(answer) => return Err(answer),
    };
    let mut out = Counted::new(Vec::new(alloc));
    match put_databases(&mut out, form, &rows) {
        Ok(()) => Ok(out.into_inner()),
        Err(_) => Err(refused_write(alloc, &out)),
    }
}

/// Returns what is listed of each database of an image, in the order of the directory.
fn rows_of(alloc: Global, image: &[u8]) -> Result<Vec<Row>, Answer>
    ensures rows { IfOk result (λ rows. rows.items ≡ listed_rows (store_of image.now)) }
    ensures accepted { OnOk result (Accepted image.now) }
    ensures err { IfErr result (IsTextRefusal image.now) }
{
    let boxed = match boxed_store(alloc, image) {
        Ok(boxed) => boxed,
        Err(answer) => return Err(answer),
    };
    let rows = database_rows(&alloc, boxed.held.as_store());
    let _freed = region_of(boxed);
    match rows {
        Ok(rows) => Ok(rows),
        Err(_) => Err(NO_MEMORY),
    }
}
