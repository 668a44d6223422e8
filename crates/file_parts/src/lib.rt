//! PDB and PRC files that are taken apart into the files of a folder, and put together again.
//!
//! The folder has the text `database` and a file for each block, a *part*:
//!
//! ```text
//! name "MemoDB"
//! attributes 0000
//! version 0
//! created 3878595035
//! modified 0
//! backup 0
//! number 0
//! type "DATA"
//! creator "memo"
//! seed 00000001
//! app none
//! sort none
//! record 01 1 00000
//! ```
//!
//! `replace_block` makes a file with one block replaced, and all else as it is
//! (`specs/Replacing.antt`). `keep_parts` makes a file in canonical form, but for some things that are
//! kept (`specs/Keeping.antt`).
//!
//! Start with `specs/Texts.antt`, which defines the text. This crate knows no folders: a part is a
//! name and bytes.
#![tactic(auto)]

mod either;
mod entries;
mod exact_lines;
mod exact_listed;
mod exact_packing;
mod exact_text;
mod exact_unpacked;
mod exact_writing;
mod header;
mod keep;
mod kept;
mod laws;
mod lines;
mod listed;
mod packed_file;
mod packed_start;
mod packing;
mod part_file;
mod replaced;
mod text;
mod unpacked;
mod values;
mod words;

pub use either::{FolderForm, ListedFolder, TakenApart, read_folder, take_apart};
pub use exact_listed::ListedExact;
pub use exact_packing::pack_exact;
pub use exact_unpacked::{UnpackedExact, unpack_exact};
pub use exact_writing::PlaceFault;
pub use keep::Keep;
pub use kept::{Kept, keep_parts};
pub use laws::{
    exact_files_are_spelled, exact_folders_pack_back, exact_texts_are_read,
    packed_folders_are_exact, texts_are_read,
};
pub use listed::{Listed, read_listed};
pub use packed_file::PackedFile;
pub use packing::PackFault;
pub use part_file::PartFile;
pub use replaced::{ReplaceFault, Replaced, replace_block};
pub use text::put_database;
pub use unpacked::{Part, PartName, UnpackFault, Unpacked, unpack};
pub use values::{ValueFault, list_entry, list_exact, list_header};
