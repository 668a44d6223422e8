//! The counts of an accepted heap.

/// The counts of an accepted heap: its size in bytes, its slots, its movable chunks, its fixed
/// chunks, and the total size of its free chunks in bytes. The manager's chunks count too.
#[derive(Clone, Copy, Debug, PartialEq, Eq)]
pub struct Summary {
    pub size: u32,
    pub slots: u32,
    pub movable: u32,
    pub fixed: u32,
    pub free: u32,
}
