//! A lent part of a region, as a caller in C holds it.

ghost use Rattle.std.specs.Prelude.{◌≡◌, ℕ, List, length, Option, Some, None};
ghost use denote.RawPtr.{null_ptr};
ghost use Rattle.raw_region.specs.LentParts.{IsFull, IsSized, bytes_in, owns_part, part_in};

use crate::part::Part;
use crate::run::Run;
use std::marker::Model;
use std::ptr;

/// A place in C for a part: a pointer to its bytes, and their number. It holds a part, or none. It
/// can't be dropped.
///
/// It owns the bytes of its part, so C may read and write them. Their values are then those that C
/// wrote last.
#[repr(C)]
pub struct LentPart {
    pub bytes: *mut u8,
    pub count: usize,
    pub ghost values: { Option (List ℕ) },
    ghost sized: { IsSized count values },
}

impl Model for LentPart {
    ghost also_owns = { λ place. owns_part place.bytes place.count place.values };
}

impl LentPart {
    /// Makes a place that holds no part.
    pub fn empty() -> LentPart
        ensures { (result.bytes ≡ null_ptr) × (result.count ≡ 0) × (result.values ≡ None) }
    {
        LentPart {
            bytes: ptr::null_mut(),
            count: 0,
        }
    }

    /// Makes a place that holds a part.
    pub fn of(part: Part) -> LentPart
        ensures full { IsFull result.values }
        ensures part { part_in result.bytes result.values ≡ part }
        ensures count { result.count ≡ length part.bytes }
    {
        let Part { run } = part;
        LentPart::of_run(run)
    }

    fn of_run(run: Run) -> LentPart
        ensures { (result.bytes ≡ run.ptr) × (result.count ≡ run.len)
            × (result.values ≡ Some run.bytes) }
    {
        let Run { ptr, len } = run;
        LentPart {
            bytes: ptr,
            count: len,
        }
    }

    /// Takes the part out of the place.
    pub fn into_part(self) -> Part
        requires { IsFull self.values }
        ensures { result ≡ part_in self.bytes self.values }
    {
        Part {
            run: self.into_run(),
        }
    }

    fn into_run(self) -> Run
        requires { IsFull self.values }
        ensures { (result.ptr ≡ self.bytes) × (result.bytes ≡ bytes_in self.values) }
    {
        let LentPart { bytes, count } = self;
        Run {
            ptr: bytes,
            len: count,
        }
    }
}
