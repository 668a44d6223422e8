//! A heap: chunks by their names.

use crate::image::{Image, LOCK_OF_FIXED};
use heap_model::{Name, Refusal};
use std::alloc::{AllocError, Global};
use std::collections::BTreeMap;

/// A live chunk.
#[derive(Drop)]
pub struct Chunk {
    /// 0 to 14 is a movable chunk's, and counts its locks; 15 is a fixed chunk's.
    pub lock: u8,
    /// 0 is the manager, 1 to 14 are callers, 15 is a database.
    pub owner: u8,
    pub bytes: Vec<u8>,
}

/// The live chunks of a heap, each under its name.
#[derive(Drop)]
pub struct PlainHeap {
    pub(crate) chunks: BTreeMap<u32, Chunk>,
    /// The names of the chunks whose bytes are lent, the last taken out first. A chunk keeps the
    /// bytes that it had.
    pub(crate) lent: Vec<Name>,
}

impl PlainHeap {
    /// All chunks that an image holds, but tables.
    pub fn of(alloc: Global, image: &Image) -> Result<PlainHeap, AllocError> {
        PlainHeap::owned_from(alloc, image, 0)
    }

    /// The chunks that an image holds whose owner has this number, or a higher one.
    pub(crate) fn owned_from(
        alloc: Global,
        image: &Image,
        least: u8,
    ) -> Result<PlainHeap, AllocError> {
        let mut chunks = BTreeMap::new(alloc);
        for piece in &image.pieces {
            if let Some(live) = piece.live
                && live.owner >= least
                && !live.is_table()
            {
                let chunk = Chunk {
                    lock: live.lock,
                    owner: live.owner,
                    bytes: Vec::from_slice(alloc, live.bytes)?,
                };
                chunks.insert(live.name.0, chunk).map_err(AllocError::from)?;
            }
        }
        Ok(PlainHeap {
            chunks,
            lent: Vec::new(alloc),
        })
    }

    /// Frees chunks. Refused where one of them is locked.
    pub(crate) fn free_all(&mut self, names: &[Name]) -> Result<(), Refusal> {
        for name in names {
            if self.is_locked(*name) {
                return Err(Refusal::ChunkLocked);
            }
        }
        for name in names {
            self.chunks.remove(&name.0);
        }
        Ok(())
    }

    /// A name under which the heap and an image have different chunks, or only one of them has one.
    pub fn difference(&self, image: &Image) -> Option<Name> {
        for (name, chunk) in &self.chunks {
            match image.live(Name(*name)) {
                Some(live) if chunk.is(live.lock, live.owner, live.bytes) => {}
                _ => return Some(Name(*name)),
            }
        }
        for piece in &image.pieces {
            if let Some(live) = piece.live
                && !live.is_table()
                && !self.chunks.contains_key(&live.name.0)
            {
                return Some(live.name);
            }
        }
        None
    }

    /// The name of a chunk that another heap doesn't have just so.
    pub(crate) fn other_chunk(&self, other: &PlainHeap) -> Option<Name> {
        for (name, chunk) in &self.chunks {
            match other.chunks.get(name) {
                Some(other) if chunk.is(other.lock, other.owner, &other.bytes) => {}
                _ => return Some(Name(*name)),
            }
        }
        None
    }

    /// Whether the chunk of a name has a lock count above 0.
    pub(crate) fn is_locked(&self, name: Name) -> bool {
        match self.chunks.get(&name.0) {
            Some(chunk) => chunk.lock > 0 && chunk.lock < LOCK_OF_FIXED,
            None => false,
        }
    }

    /// The chunk that callers have under a name: the manager's own have none for them.
    pub(crate) fn chunk(&self, name: Name) -> Result<&Chunk, Refusal> {
        match self.chunks.get(&name.0) {
            Some(chunk) if chunk.owner > 0 => Ok(chunk),
            _ => Err(Refusal::InvalidHandle),
        }
    }

    /// The same, to change it.
    pub(crate) fn chunk_mut(&mut self, name: Name) -> Result<&mut Chunk, Refusal> {
        match self.chunks.get_mut(&name.0) {
            Some(chunk) if chunk.owner > 0 => Ok(chunk),
            _ => Err(Refusal::InvalidHandle),
        }
    }

    /// The chunk of a name gets another owner.
    pub(crate) fn give(&mut self, name: Name, owner: u8) -> Result<(), Refusal> {
        self.chunk_mut(name)?.owner = owner;
        Ok(())
    }
}

impl Chunk {
    /// Whether it has this lock, this owner and these bytes.
    fn is(&self, lock: u8, owner: u8, bytes: &[u8]) -> bool {
        self.lock == lock && self.owner == owner && self.bytes.as_slice() == bytes
    }
}
