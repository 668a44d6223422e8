//! Files of databases, PDB and PRC (Palm OS File Format Specification), as bytes. The crate finds
//! the first fault of a file and the places of its blocks. It states the laws about files that are
//! read and written.
//!
//! ```text
//! header           78 bytes, as db_format has them
//! entries          8 bytes for each record, or 10 for each resource, with offsets of their data
//! blocks           AppInfo, SortInfo and the data, each from its offset up to the next block
//! ```
//!
//! Offsets count bytes from the file's start.
//!
//! Not all bytes of a file need be in memory (`FileBytes`): the header and the entries are the most
//! that a function reads, unless it returns blocks.
#![tactic(auto)]

mod blocks;
mod faults;
mod file_bytes;
mod filler;
mod heads;
mod laws;
mod pdb_file;
mod starts;
mod unread;
mod written;

pub use blocks::Block;
pub use faults::{check_bytes, check_file};
pub use file_bytes::{FileBytes, FileStart, MOST_APP, MOST_START, app_of, part_of};
pub use filler::{FILLER, filler_size, first_place_after, has_filler};
pub use heads::{entries_end, has_resources, name_in};
pub use laws::{
    contents_are_short, contents_are_writable, files_are_read, files_are_read_once,
    written_files_are_read, written_files_have_their_size,
};
pub use pdb_file::{MOST_FILE_BYTES, OpenFault, PdbFile};
pub use unread::{Unread, name_unread};
pub use written::{idle_attributes, idle_entry_at};
