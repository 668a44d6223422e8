//! Bytes in a row, reached by a raw pointer.
//!
//! A run doesn't know where its block begins or ends, so a part of a block is a run too. A part of
//! a region is lent as a run. The right to free the block stays with the region, which can't use it
//! before all parts are back.

ghost use Rattle.std.specs.Prelude.{◌≡◌, ◌<◌, ◌^◌, ℕ, List, [], length};
ghost use Rattle.raw_region.specs.Ownership.{owns_bytes, bytes_lent};

use crate::room::Room;
use std::marker::Model;
use std::slice;

/// Owns its bytes. A run can't be dropped, and frees nothing.
pub(crate) struct Run {
    pub(crate) ptr: *mut u8,
    pub(crate) len: usize,
    pub(crate) ghost bytes: { List ℕ },
    ghost ok: { (len ≡ length bytes) × (len < 2 ^ 63) },
}

impl Model for Run {
    ghost also_owns = { λ run. owns_bytes run.ptr run.len run.bytes };

    ghost also_shares = { λ run _ κ. bytes_lent run.ptr run.len run.bytes κ };
}

impl Run {
    ghost use Rattle.std.specs.Borrow.{sem};
    ghost use Rattle.raw_region.specs.Lends.{lends_bytes};

    #[inline]
    pub(crate) fn len(&self) -> usize
        ensures { result ≡ length self.now.bytes }
    {
        self.as_slice().len()
    }

    /// Returns the bytes, to be read.
    #[inline]
    pub(crate) fn as_slice(&self) -> &[u8]
        ensures { result.now ≡ self.now.bytes }
    {
        unsafe { slice::from_raw_parts(self.ptr, self.len) }
    }

    /// Returns the bytes, to be written.
    #[inline]
    pub(crate) fn as_mut_slice(&mut self) -> &mut [u8]
        ensures* writes_back { sem 𝓛 (lends_bytes self.entry result) }
        ensures value { result.now ≡ self.old.bytes }
    {
        unsafe { slice::from_raw_parts_mut(self.ptr, self.len) }
    }

    /// Returns the same part of memory, and forgets the values of its bytes.
    pub(crate) fn into_room(self) -> Room
        ensures { (result.ptr ≡ self.ptr) × (result.size ≡ self.len) }
    {
        let Run { ptr, len } = self;
        Room { ptr, size: len }
    }

    /// Returns a run of no bytes, in no block.
    pub(crate) fn empty() -> Run
        ensures { result.bytes ≡ [] }
    {
        let mut none: [u8; 0] = [];
        Run {
            ptr: &raw mut none as *mut u8,
            len: 0,
        }
    }
}
