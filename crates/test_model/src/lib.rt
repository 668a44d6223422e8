//! A plain model of the store, for tests: what calls of the managers return and do, as a map from
//! names to chunks, a list of databases, and plain code.
//!
//! The managers' own calls are proved against tables of rows, and a row that says something odd
//! would be proved too. So this crate shares nothing with them but the types of calls and replies.
//! It is written from the words of docs/FORMAT.md and docs/USING.md, reads an image by its bytes,
//! and promises nothing but to be safe. Where it and the managers differ, one of them has the words
//! wrong.
//!
//! `Image` takes the bytes of an image apart. `PlainHeap` is the map of all its chunks and does the
//! calls of the memory manager on it, without a word on databases. `PlainStore` is the map of the
//! callers' chunks and the list of databases, refuses an image that isn't accepted with these, and
//! does all calls. `broken_rule` and `broken_store_rule` say which bytes and chunks a call leaves
//! alone.
#![tactic(auto)]

mod accepted;
mod category_calls;
mod database;
mod database_calls;
mod entry_calls;
mod file;
mod file_calls;
mod giving_calls;
mod heap;
mod image;
mod loans;
mod memory_calls;
mod parts;
mod record_calls;
mod resource_calls;
mod rules;
mod store;

pub use accepted::Unaccepted;
pub use database::{Database, Header, Record, Resource};
pub use heap::{Chunk, PlainHeap};
pub use image::{Image, Live, Piece, Unreadable};
pub use rules::{Rule, broken_rule, broken_store_rule};
pub use store::{Difference, PlainStore};
