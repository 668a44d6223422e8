//! The format of a store and of files: the definitions of databases and of files, on images and
//! files; headers and entries; what is wrong with files, and where their blocks stand; fresh IDs,
//! and those that records of files are given; and what the checker of stores finds.
//!
//! A file's header and entries are spelled as a database's in a heap, with offsets for slots.

mod attributes;
mod blocks;
mod canonical;
mod checks;
mod definitions;
mod faults;
mod files;
mod found;
mod given;
mod headers;
mod ids;
mod large;
mod memory;
mod texts;
