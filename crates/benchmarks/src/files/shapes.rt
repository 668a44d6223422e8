//! Files that are imported.

use crate::work::Work;
use std::alloc::{AllocError, Global};

/// The shape of a file.
#[derive(Clone, Copy)]
pub(crate) enum Shape {
    /// The records follow one another, and have different IDs.
    Rising,
    /// All records have the same ID.
    EqualIds,
    /// All records begin at one offset, so the last one has all bytes.
    OneStart,
}

/// The shapes, with the names that are printed for the import and the export of such a file.
pub(crate) static SHAPES: [(&str, &str, Shape); 3] = [
    ("import", "export", Shape::Rising),
    ("import_equal_ids", "export_equal_ids", Shape::EqualIds),
    ("import_one_start", "export_one_start", Shape::OneStart),
];

/// The sizes of the header and of a record's entry.
const DATABASE_HEADER_SIZE: u32 = 78;

const ENTRY_SIZE: u32 = 8;

/// The name in the header, `Files`, and the fields between it and the number of records. The type
/// is `DATA`, and the creator `Test`.
const NAME: [u8; 32] = *b"Files\0\0\0\0\0\0\0\0\0\0\0\0\0\0\0\0\0\0\0\0\0\0\0\0\0\0\0";

const HEADER_FIELDS: [u8; 44] =
    *b"\0\0\0\0\0\0\0\0\0\0\0\0\0\0\0\0\0\0\0\0\0\0\0\0\0\0\0\0DATATest\0\0\0\0\0\0\0\0";

/// Makes a file of a shape.
pub(crate) fn file_of(alloc: Global, shape: Shape, work: Work<'_>) -> Result<Vec<u8>, AllocError> {
    let mut file = Vec::from_slice(alloc, &NAME)?;
    put_file(&mut file, shape, work)?;
    Ok(file)
}

/// Adds the part of the file after the name.
fn put_file(file: &mut Vec<u8>, shape: Shape, work: Work<'_>) -> Result<(), AllocError> {
    let records = work.file_records as u32;
    let start = DATABASE_HEADER_SIZE + ENTRY_SIZE * records + 2;
    file.extend_from_slice(&HEADER_FIELDS)?;
    file.extend_from_slice(&work.file_records.to_be_bytes())?;
    for index in 0..records {
        put_entry(
            file,
            shape,
            start.wrapping_add(index.wrapping_mul(work.bytes)),
            start,
            index,
        )?;
    }
    file.extend_from_slice(&[0, 0])?;
    let end = start.saturating_add(records.saturating_mul(work.bytes));
    for at in start..end {
        file.push((at.wrapping_mul(31) % 256) as u8)?;
    }
    Ok(())
}

/// Adds the entry of a record. Its bytes are here, unless all records begin at the start.
fn put_entry(
    file: &mut Vec<u8>,
    shape: Shape,
    here: u32,
    start: u32,
    index: u32,
) -> Result<(), AllocError> {
    let (at, id) = match shape {
        Shape::Rising => (here, index.wrapping_add(1)),
        Shape::EqualIds => (here, 7),
        Shape::OneStart => (start, index.wrapping_add(1)),
    };
    file.extend_from_slice(&at.to_be_bytes())?;
    file.extend_from_slice(&((index % 16) << 24 | id).to_be_bytes())
}
