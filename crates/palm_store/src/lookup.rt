//! Look-ups of the databases of a store: by name, by index and by number.
//!
//! The functions take a heap and leave it as it is. The caller must prove that its image is
//! `Accepted`, which is the invariant of the store. Only names and indexes are searched for. A
//! number costs the same however many databases there are.

mod directory;
mod header;
mod name;

pub(crate) use directory::{
    DIRECTORY_WORD_SIZE, count_databases, directory_bytes, index_of, listed_in,
};
pub(crate) use header::{find_header, find_opened, header_in, header_of, info_in, opened_of};
pub(crate) use name::{find_named, has_other_name};
