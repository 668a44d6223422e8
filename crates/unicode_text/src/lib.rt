//! Text in Unicode: names in UTF-8, and JSON documents. Bytes are read as Windows-1252. Start with
//! `specs/Windows1252.antt`, which lists the characters.
//!
//! A document is written piece by piece by `put_json`, without memory of its own. It is one object
//! on one line, in ASCII but for the paths of files. A string has a character for each byte: the
//! character of the byte in Windows-1252 or, if there is none, the character whose code is the
//! byte. After each string from a file comes a string with its bytes in hex, so a reader can get
//! the exact bytes. The path of a file is a text already, and its string is in UTF-8.
//!
//! | module | does |
//! |---|---|
//! | `characters` | the characters of bytes |
//! | `texts` | names in UTF-8 |
//! | `pieces` | pieces of JSON documents |
//! | `strings` | strings of JSON |
#![tactic(auto)]

mod characters;
mod pieces;
mod strings;
mod texts;

pub use characters::character_of;
pub use pieces::{JsonPiece, put_json};
pub use texts::{put_between, put_text};
