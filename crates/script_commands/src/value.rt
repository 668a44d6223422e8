//! The kinds of the words after a command, and what words of these kinds stand for.

use crate::line::{ChunkLabel, DatabaseLabel};
use heap_model::Which;

/// The kind of a word after a command.
#[derive(Clone, Copy)]
pub enum Kind {
    /// A chunk's label: a letter, then letters, digits or `_`, at most 31 characters.
    Chunk,
    /// A database's label, spelled the same way.
    Database,
    /// A number below 2^8.
    Byte,
    /// A number below 2^16.
    Short,
    /// A number below 2^32.
    Number,
    /// `0` or `1`.
    Flag,
    /// `app` or `sort`.
    Which,
    /// A type or a creator: a text of four bytes.
    FourBytes,
    /// An even number of hex digits, at least two, or `-` for no bytes.
    Bytes,
    /// Bytes in quotes, or `x:` and an even number of hex digits.
    Text,
}

/// What a word stands for, other than bytes.
#[derive(Clone, Copy)]
pub enum Value {
    Chunk(ChunkLabel),
    Database(DatabaseLabel),
    Byte(u8),
    Short(u16),
    Number(u32),
    Flag(bool),
    Which(Which),
    /// The four bytes as a number.
    FourBytes(u32),
}
