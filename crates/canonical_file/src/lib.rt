//! The canonical form of a PDB or PRC file: the file that is written for the database that is read
//! from the original file.
//!
//! ```text
//! header           the name with zeros after it, and the offsets below
//! entries          no busy bit; each record with the ID that it gets when it is read
//! 00 00
//! blocks           AppInfo, SortInfo and the data in the order of the list, without gaps
//! ```
//!
//! It needs no heap: the blocks are copied from the original file.
//!
//! Its *changes* are the differences to the original file:
//!
//! ```text
//! busy     a record is busy
//! filler   the bytes between the entries and the first block are not exactly two zeros
//! ids      a record gets another ID: its own is 0, or that of an earlier record
//! name     the bytes after the name, in its field, are not all zeros
//! order    the blocks are not in the order of the list
//! ```
//!
//! If no word holds of a file, the file is its own canonical form, byte for byte. If a word holds,
//! it isn't. So the changes of a file are found without its canonical form.
//!
//! Its *needs* are the size and the number of slots of the smallest new image into which it can be
//! imported. A database takes a chunk for its header and one for each block: AppInfo, SortInfo and
//! the data of entries. A chunk takes its bytes rounded up to a multiple of 8, 8 bytes of header,
//! and a slot. The image has one more chunk, the directory, with four bytes for each database.
//!
//! ```text
//! 88      the header of a database without entries: 78 bytes
//! 16      the directory: 4 bytes
//! 24      the frame, and the table of two slots
//! ---
//! 128     needs 128 bytes and 2 slots in a heap
//! ```
//!
//! A damaged file is *salvaged*: its sound parts are written in canonical form, and there is a line
//! about each of the others. An offset is sound if a block can begin there. The *mended file* has no
//! fault, and the same bytes at each sound offset. Only its first bytes are made, as the others are
//! those of the damaged file:
//!
//! ```text
//! damaged     header | entry 0 | entry 1, not sound | entry 2 | blocks
//! mended      header | entry 0 | entry 2 | the bytes from here on | blocks
//! ```
//!
//! | module | does |
//! |---|---|
//! | `canonical` | writes the canonical form (`specs/Canonical.antt`) |
//! | `header`, `entries`, `blocks` | its header, its entries, its blocks |
//! | `record_ids` | the IDs of its records |
//! | `changes` | finds the changes (`specs/Changes.antt`) |
//! | `entry_changes`, `offsets` | finds those of entries, those of the order |
//! | `dropped` | counts the bytes that aren't in the canonical form (`specs/Dropped.antt`) |
//! | `change_lines` | writes the line of the changes |
//! | `needs`, `block_needs` | the needs of a file, of a block (`specs/Needs.antt`) |
//! | `image_needs` | the needs of several files, and the smallest image for them |
//! | `salvage`, `salvage_lines` | writes the salvaged file, and the lines (`specs/Salvage.antt`) |
//! | `sound`, `mended` | finds the sound parts, makes the first bytes of the mended file |
//! | `laws` | states the laws about salvaged files |
#![tactic(auto)]

mod block_needs;
mod blocks;
mod canonical;
mod change_lines;
mod changes;
mod dropped;
mod entries;
mod entry_changes;
mod header;
mod image_needs;
mod laws;
mod mended;
mod needs;
mod offsets;
mod record_ids;
mod salvage;
mod salvage_lines;
mod sound;

pub use canonical::{
    CanonicalFault, MOST_BYTES, canonical_bytes, canonical_head, put_canonical_by,
};
pub use change_lines::put_changes;
pub use changes::{Changes, changes_by, find_changes};
pub use dropped::{dropped_filler, dropped_name};
pub use image_needs::{ENOUGH, image_size, image_slots, needs_of_files};
pub use laws::{
    good_files_are_canonical, good_files_have_no_line, salvaged_entries_are_the_files,
    salvaged_files_are_read, salvaged_files_have_no_fault,
};
pub use needs::{Needs, needs_of};
pub use record_ids::{RecordIds, entry_with_id, seed_for};
pub use salvage::{SalvagedIds, put_salvaged};
pub use salvage_lines::put_salvage_lines;
