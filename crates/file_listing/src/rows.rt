//! The rows of a listing, and the notations in which they are written.

ghost use Rattle.std.specs.Prelude.{ℕ, List, is_ok};
ghost use Rattle.palm_text.specs.Counted.{Writes};
ghost use Rattle.file_listing.specs.declared.rows.Row.{Row};

use canonical_file::Changes;
use db_format::NameField;
use heap_model::FileFault;
use jiff_core::civil::Date;
use palm_text::{Counted, WriteFault};
use std::io::Write;

/// The year from whose first second, in UTC, a date counts its seconds. Palm OS counts from 1904.
/// Programs that make electronic books count from 1970, as Unix does.
#[derive(Clone, Copy)]
pub enum Epoch {
    Year1904,
    Year1970,
}

/// A moment of a header, `seconds` after the first second of an epoch, and its date in UTC. If the
/// seconds are 0, there is no such moment.
#[derive(Clone, Copy)]
pub struct Moment {
    pub seconds: u32,
    pub epoch: Epoch,
    pub date: Date,
}

/// The offset and the size of a block in bytes.
#[derive(Clone, Copy)]
pub struct Extent {
    pub offset: u32,
    pub size: u32,
}

/// A record: its index, attributes, ID, and data, and the name of its category if AppInfo has one.
#[derive(Clone, Copy)]
pub struct RecordRow {
    pub index: u16,
    pub attributes: u8,
    pub category: Option<NameField>,
    pub id: u32,
    pub block: Option<Extent>,
}

/// A row of the listing of a file. A file with a fault has only the row of its first fault. Others
/// have the rows from `Size` on, in this order, with one for each entry. A name of a category has at
/// most 15 bytes.
#[derive(Clone, Copy)]
pub enum Row {
    /// The first fault, and the offset of the field that has it.
    Fault {
        fault: FileFault,
        at: u32,
    },
    /// The size of the file in bytes.
    Size(u32),
    Name(NameField),
    Attributes(u16),
    Version(u16),
    Created(Moment),
    Modified(Moment),
    Backup(Moment),
    /// The modification number.
    Number(u32),
    Kind(u32),
    Creator(u32),
    Seed(u32),
    /// The characters of the name.
    Characters(NameField),
    App(Option<Extent>),
    Sort(Option<Extent>),
    /// A category, and its name unless that is empty. There are 16 of these rows, or none.
    Category {
        number: u8,
        name: Option<NameField>,
    },
    /// The kind of the entries, and their number.
    Count {
        resources: bool,
        count: u16,
    },
    Record(RecordRow),
    Resource {
        index: u16,
        kind: u32,
        id: u16,
        block: Option<Extent>,
    },
    /// The least size and number of slots of a new image with the database.
    Needs {
        size: u64,
        slots: u64,
    },
    /// The changes when the file is rewritten.
    Changed(Changes),
}

/// A notation in which rows are written. If it has the path of a file, it writes the path before
/// the first row.
pub trait Notation {
    /// The text of a row.
    ghost row_text: { Self → Row → List ℕ };

    /// Writes a row.
    ///
    /// # Errors
    ///
    /// - `WriteFault`: if a write failed, or took 0 bytes.
    fn put_row<W: Write>(&self, out: &mut Counted<W>, row: &Row) -> Result<(), WriteFault>
        ensures { Writes W.contents out.old out.new (row_text self.now row.now) (is_ok result) };
}
