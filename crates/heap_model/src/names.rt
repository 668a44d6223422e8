//! The offsets by which callers give chunks and databases.

use std::fmt;

/// The name of a live chunk, in bytes from the image's start. For a movable chunk it is the offset
/// of its slot, the handle. For a fixed chunk it is the offset of its body. `Name(0)` names
/// nothing.
#[derive(Clone, Copy, Debug, PartialEq, Eq)]
pub struct Name(pub u32);

/// The offset of a chunk's body, in bytes from the image's start: 8 bytes after the start of its
/// header.
#[derive(Clone, Copy, Debug, PartialEq, Eq)]
pub struct Place(pub u32);

/// The number of a database: the offset of the slot of its header, in bytes from the image's start.
/// A database keeps its number as long as it exists. `Db(0)` is no database's number.
#[derive(Clone, Copy, Debug, PartialEq, Eq)]
pub struct Db(pub u32);

/// One of the info blocks of a database: the AppInfo block, or the SortInfo block.
#[derive(Clone, Copy, Debug, PartialEq, Eq)]
pub enum Which {
    App,
    Sort,
}

impl fmt::Display for Which {
    fn fmt<W: fmt::Write>(&self, f: &mut fmt::Formatter<W>) -> fmt::Result {
        f.write_str(match self {
            Which::App => "app",
            Which::Sort => "sort",
        })
    }
}
