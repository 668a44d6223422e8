//! Bytes of chunks that are lent: taken out, and put back in any order.
//!
//! While they are out, calls that would read, write, unlock, resize or free them are refused.

use crate::heap::PlainHeap;
use crate::image::Image;
use heap_model::{Name, Refusal};
use std::alloc::{AllocError, Global};

impl PlainHeap {
    /// Takes the bytes of a chunk out, which must be locked or fixed, if no other bytes are out.
    pub fn take_out(&mut self, name: Name) -> Result<(), Refusal> {
        self.check_staying(name)?;
        if !self.lent.is_empty() {
            return Err(Refusal::Lent);
        }
        self.take_out_also(name)
    }

    /// Takes the bytes of a chunk out, which must be locked or fixed. Those of other chunks may be
    /// out.
    pub fn take_out_also(&mut self, name: Name) -> Result<(), Refusal> {
        self.check_staying(name)?;
        self.check_there(name)?;
        if self.lent.insert(0, name).is_err() {
            return Err(Refusal::OutOfMemory);
        }
        Ok(())
    }

    /// Puts the bytes of a chunk back, with a text over the first of them, if they are as many.
    /// Does nothing if they aren't out.
    pub fn put_back(&mut self, name: Name, text: &[u8]) {
        match self.lent_index(name) {
            Some(index) if index < self.lent.len() => self.lent.remove(index),
            _ => return,
        };
        if let Ok(chunk) = self.chunk_mut(name)
            && let Some(first) = chunk.bytes.as_mut_slice().get_mut(..text.len())
        {
            first.copy_from_slice(text);
        }
    }

    /// The names of the chunks whose bytes are out, the last taken out first.
    pub fn lent(&self) -> &[Name] {
        &self.lent
    }

    /// The names of the chunks whose bytes are out, in the order of an image's chunks.
    pub fn loans(&self, alloc: Global, image: &Image) -> Result<Vec<Name>, AllocError> {
        let mut names = Vec::new(alloc);
        if self.lent.is_empty() {
            return Ok(names);
        }
        for piece in &image.pieces {
            if let Some(live) = piece.live
                && self.lends(live.name)
            {
                names.push(live.name)?;
            }
        }
        Ok(names)
    }

    /// Where a name stands among those whose bytes are out.
    fn lent_index(&self, name: Name) -> Option<usize> {
        for (index, lent) in self.lent.iter().enumerate() {
            if *lent == name {
                return Some(index);
            }
        }
        None
    }

    /// Whether the bytes of a name are out.
    fn lends(&self, name: Name) -> bool {
        self.lent_index(name).is_some()
    }

    /// Refuses a chunk whose bytes are out.
    pub(crate) fn check_there(&self, name: Name) -> Result<(), Refusal> {
        if self.lends(name) {
            return Err(Refusal::Lent);
        }
        Ok(())
    }

    /// Whether the bytes of a chunk of an owner are out.
    pub(crate) fn lends_of(&self, owner: u8) -> bool {
        for name in &self.lent {
            if self.chunk(*name).is_ok_and(|chunk| chunk.owner == owner) {
                return true;
            }
        }
        false
    }

    /// Refuses a chunk that may move: one with no lock.
    fn check_staying(&self, name: Name) -> Result<(), Refusal> {
        if self.chunk(name)?.lock == 0 {
            return Err(Refusal::ChunkNotLocked);
        }
        Ok(())
    }
}
