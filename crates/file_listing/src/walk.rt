//! Writes the rows of a file without fault, one after another.

ghost use Rattle.std.specs.Prelude.{◌≡◌, ◌≤◌, ◌<◌, ◌++◌, Some, is_ok, length};
ghost use Rattle.std.specs.List.{flat_map};
ghost use Rattle.heap_model.specs.Database.{entry_count_in};
ghost use Rattle.db_format.specs.EitherEntry.{entry_of};
ghost use Rattle.palm_text.specs.Counted.{Writes};
ghost use Rattle.pdb_format.specs.Blocks.{IsBlockWithin, bytes_at};
ghost use Rattle.pdb_format.specs.Opened.{most_file_bytes};
ghost use Rattle.file_listing.specs.Listing as words;
ghost use Rattle.file_listing.specs.Categories.{layout_size};
ghost use Rattle.file_listing.specs.Listing.{extent_at, info_extent, first_rows, category_rows, count_rows, entry_rows, last_rows, rows_of};

use crate::categories::{Categories, name_of};
use crate::facts::Facts;
use crate::needs::size_and_slots;
use crate::rows::{Extent, Notation, RecordRow, Row};
use db_format::{CATEGORIES, DbEntry, INFO_BLOCKS};
use palm_text::{Counted, WriteFault};
use pdb_format::{Block, FileBytes, PdbFile};
use std::io::Write;

/// Writes rows, one after another.
fn put_rows<N: Notation, W: Write>(
    notation: &N,
    out: &mut Counted<W>,
    rows: &[Row],
) -> Result<(), WriteFault>
    ensures { Writes W.contents out.old out.new (flat_map (N.row_text notation.now) rows.now)
        (is_ok result) }
{
    for row in rows {
        match notation.put_row(out, row) {
            Ok(()) => {}
            Err(fault) => return Err(fault),
        }
    }
    Ok(())
}

/// Returns the extent of a block that begins at an offset.
fn extent_of<B: FileBytes>(file: &PdbFile<'_, B>, at: u32, block: Option<Block>) -> Option<Extent>
    requires short { length file.now ≤ most_file_bytes }
    requires within { IsBlockWithin (length file.now) block }
    ensures { result ≡ extent_at at (bytes_at file.now block) }
{
    match block {
        None => None,
        Some(block) => Some(Extent {
            offset: at,
            size: (block.end - block.start) as u32,
        }),
    }
}

/// Returns the extent of an info block. AppInfo has the rank 0, and SortInfo the rank 1.
fn info_of<B: FileBytes>(file: &PdbFile<'_, B>, rank: usize) -> Option<Extent>
    requires short { length file.now ≤ most_file_bytes }
    requires inside { rank < 2 }
    ensures { result ≡ info_extent file.now rank }
{
    extent_of(file, file.offset(rank) as u32, file.block(rank))
}

/// Writes the rows before those of the categories.
fn put_head<N: Notation, B: FileBytes, W: Write>(
    notation: &N,
    out: &mut Counted<W>,
    file: &PdbFile<'_, B>,
    facts: &Facts<'_>,
) -> Result<(), WriteFault>
    requires { length file.now ≤ most_file_bytes }
    ensures { Writes W.contents out.old out.new
        (flat_map (N.row_text notation.now) (first_rows file.now facts.now)) (is_ok result) }
{
    let header = file.header();
    put_rows(
        notation,
        out,
        &[
            Row::Size(file.size() as u32),
            Row::Name(header.name),
            Row::Attributes(header.attributes),
            Row::Version(header.version),
            Row::Created(facts.created),
            Row::Modified(facts.modified),
            Row::Backup(facts.backup),
            Row::Number(header.modification_number),
            Row::Kind(header.kind),
            Row::Creator(header.creator),
            Row::Seed(header.seed),
            Row::Characters(header.name),
            Row::App(info_of(file, 0)),
            Row::Sort(info_of(file, 1)),
        ],
    )
}

/// Writes the rows of the categories with names in an AppInfo block.
fn put_names<N: Notation, W: Write>(
    notation: &N,
    out: &mut Counted<W>,
    app: &[u8],
) -> Result<(), WriteFault>
    requires { layout_size ≤ length app.now }
    ensures { Writes W.contents out.old out.new
        (flat_map (N.row_text notation.now) (category_rows (Some app.now))) (is_ok result) }
{
    for number in 0..CATEGORIES {
        let name = name_of(app, number);
        match notation.put_row(out, &Row::Category { number, name }) {
            Ok(()) => {}
            Err(fault) => return Err(fault),
        }
    }
    Ok(())
}

/// Writes the rows of the categories, if AppInfo has their names.
#[tactic(auto, using(palm_text::proofs::Parts::nothing))]
fn put_categories<N: Notation, W: Write>(
    notation: &N,
    out: &mut Counted<W>,
    categories: &Categories<'_>,
) -> Result<(), WriteFault>
    ensures { Writes W.contents out.old out.new
        (flat_map (N.row_text notation.now) (category_rows categories.now)) (is_ok result) }
{
    match categories.app() {
        Some(app) => put_names(notation, out, app),
        None => Ok(()),
    }
}

/// Writes the row of the kind and the number of the entries.
#[tactic(auto, unfolding(crate::specs::Listing::count_rows))]
fn put_count<N: Notation, B: FileBytes, W: Write>(
    notation: &N,
    out: &mut Counted<W>,
    file: &PdbFile<'_, B>,
) -> Result<(), WriteFault>
    ensures { Writes W.contents out.old out.new
        (flat_map (N.row_text notation.now) (count_rows file.now)) (is_ok result) }
{
    put_rows(
        notation,
        out,
        &[Row::Count {
            resources: file.has_resources(),
            count: file.entry_count(),
        }],
    )
}

/// Returns the row of an entry, whose data is a block.
fn entry_row<B: FileBytes>(
    file: &PdbFile<'_, B>,
    categories: &Categories<'_>,
    index: u16,
    entry: DbEntry,
    block: Option<Block>,
) -> Row
    requires short { length file.now ≤ most_file_bytes }
    requires within { IsBlockWithin (length file.now) block }
    ensures { result ≡ words.entry_row categories.now index (entry_of entry) (bytes_at file.now block) }
{
    match entry {
        DbEntry::Record(record) => Row::Record(RecordRow {
            index,
            attributes: record.attributes.0,
            category: categories.of_record(record.attributes),
            id: record.id,
            block: extent_of(file, record.slot, block),
        }),
        DbEntry::Resource(resource) => Row::Resource {
            index,
            kind: resource.kind,
            id: resource.id,
            block: extent_of(file, resource.slot, block),
        },
    }
}

/// Returns the row of the entry at an index.
fn entry_row_at<B: FileBytes>(file: &PdbFile<'_, B>, categories: &Categories<'_>, index: u16) -> Row
    requires short { length file.now ≤ most_file_bytes }
    requires inside { index < entry_count_in file.now }
    ensures { result ≡ words.entry_row_at file.now categories.now index }
{
    let block = file.block(INFO_BLOCKS + index as usize);
    entry_row(file, categories, index, file.entry(index), block)
}

/// Writes the rows of the entries.
fn put_entries<N: Notation, B: FileBytes, W: Write>(
    notation: &N,
    out: &mut Counted<W>,
    file: &PdbFile<'_, B>,
    categories: &Categories<'_>,
) -> Result<(), WriteFault>
    requires { length file.now ≤ most_file_bytes }
    ensures { Writes W.contents out.old out.new
        (flat_map (N.row_text notation.now) (entry_rows file.now categories.now)) (is_ok result) }
{
    for index in 0..file.entry_count() {
        match notation.put_row(out, &entry_row_at(file, categories, index)) {
            Ok(()) => {}
            Err(fault) => return Err(fault),
        }
    }
    Ok(())
}

/// Writes the rows after those of the entries.
fn put_last<N: Notation, B: FileBytes, W: Write>(
    notation: &N,
    out: &mut Counted<W>,
    file: &PdbFile<'_, B>,
    facts: &Facts<'_>,
) -> Result<(), WriteFault>
    ensures { Writes W.contents out.old out.new
        (flat_map (N.row_text notation.now) (last_rows file.now facts.now)) (is_ok result) }
{
    let (size, slots) = size_and_slots(file);
    put_rows(
        notation,
        out,
        &[Row::Needs { size, slots }, Row::Changed(facts.changes)],
    )
}

/// Writes the rows of a file without fault.
#[tactic(auto, using(crate::proofs::RowTexts::then_rows, crate::proofs::RowTexts::stops_rows), unfolding(crate::specs::Listing::rows_of))]
pub(crate) fn put_rows_of<N: Notation, B: FileBytes, W: Write>(
    notation: &N,
    out: &mut Counted<W>,
    file: &PdbFile<'_, B>,
    facts: &Facts<'_>,
) -> Result<(), WriteFault>
    requires { length file.now ≤ most_file_bytes }
    ensures { Writes W.contents out.old out.new
        (flat_map (N.row_text notation.now) (rows_of file.now facts.now)) (is_ok result) }
{
    put_head(notation, out, file, facts)?;
    put_categories(notation, out, &facts.categories)?;
    put_count(notation, out, file)?;
    put_entries(notation, out, file, &facts.categories)?;
    put_last(notation, out, file, facts)
}
