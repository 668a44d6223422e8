//! A database whose chunk was found.

use heap_model::Db;
use mem_manager::Found;

/// A database that was found in a heap. It is valid until its chunk moves or gets another length,
/// or entries come or go.
#[derive(Clone, Copy)]
pub struct OpenDatabase {
    pub db: Db,
    /// The chunk of the database, in its current state.
    pub chunk: Found,
    pub entry_count: u32,
}
