//! A block from the allocator that has no values yet: taken, filled with zeros and freed.
//!
//! The proof of each function that uses a pointer is written by hand. The allocator's contract is
//! in std.

ghost use Rattle.std.specs.Prelude.{◌≡◌, ◌<◌, ◌^◌, ℕ, IfSome, replicate};
ghost use Rattle.raw_region.specs.Ownership.{owns_room, bytes_type};
ghost use denote.RawPtr.{Ptr};

use crate::run::Run;
use std::alloc::Allocator;
use std::marker::{Model, PhantomData};

/// A block of `size` bytes that has no values yet. It can't be dropped.
pub(crate) struct Room {
    pub(crate) ptr: *mut u8,
    pub(crate) size: usize,
    ghost fits: { size < 2 ^ 63 },
}

impl Model for Room {
    ghost also_owns = { λ room. owns_room room.ptr room.size };
}

/// The right to free one block, once. It takes no space, and can't be dropped.
pub(crate) struct Lease<A: Allocator> {
    marker: PhantomData<A>,
    pub(crate) ghost alloc: { A },
    pub(crate) ghost ptr: { Ptr },
    pub(crate) ghost size: { ℕ },
}

impl<A: Allocator> Model for Lease<A> {
    ghost also_owns = { λ lease. A.dealloc_token lease.alloc (bytes_type lease.size) lease.ptr };
}

impl Room {
    /// Allocates a block of `size` bytes. Returns `None` if the allocation failed.
    pub(crate) fn new<A: Allocator>(alloc: &A, size: usize) -> Option<(Room, Lease<A>)>
        requires { (0 < size) × (size < 2 ^ 63) }
        ensures { IfSome result (λ made. (made.0.size ≡ size) × (made.1.alloc ≡ alloc.now)
            × (made.1.ptr ≡ made.0.ptr) × (made.1.size ≡ size)) }
    {
        match alloc.allocate(size, 1) {
            Ok(ptr) => {
                let marker = PhantomData;
                Some((Room { ptr, size }, Lease { marker }))
            }
            Err(_) => None,
        }
    }

    /// Frees the block.
    pub(crate) fn free<A: Allocator>(self, lease: Lease<A>, alloc: &A)
        requires { (lease.alloc ≡ alloc.now) × (lease.ptr ≡ self.ptr)
            × (lease.size ≡ self.size) }
    {
        let Room { ptr, size } = self;
        let Lease { marker: _ } = lease;
        unsafe { alloc.deallocate(ptr, size, 1) }
    }

    /// Fills the block with zeros.
    pub(crate) fn zeroed(self) -> Run
        ensures { (result.ptr ≡ self.ptr) × (result.bytes ≡ replicate self.size 0) }
    {
        let Room { ptr, size } = self;
        let mut i = 0;
        while i < size {
            unsafe { ptr.add(i).write(0) };
            i += 1;
        }
        Run { ptr, len: size }
    }
}
