//! The type `Region`, and its methods to read, write, slide and lend bytes.

ghost use Rattle.std.specs.Prelude.{◌≡◌, ◌+◌, ◌-◌, ◌<◌, ◌≤◌, ◌%◌, ◌^◌, ◌↔◌, IsTrue, length, slice_range, replicate, IfOk, OnErr, IfSome, IfNone, [], ◌∷◌};
ghost use Rattle.heap_model.specs.Memory.{IsWithin, NoneBegins, without};
ghost use Rattle.raw_region.specs.Holes.{AllLieIn};
ghost use Rattle.raw_region.specs.Parts.{IsOut};
ghost use Rattle.raw_region.specs.Marks.{BeginsAt, IsMarkable, IsNextLent, NoneBeginsAbove};
ghost use Rattle.heap_model.specs.Bytes.{AreBytes, u16_at, u32_at, u16_bytes, u32_bytes, overwritten};
ghost use Rattle.raw_region.specs.ByteChanges.{changed_every};
ghost use Rattle.allowance.specs.Refusals.{GrowthRefused};

use crate::byte_change::ByteChange;
use crate::gapped::Gapped;
use crate::part::Part;
use crate::room::{Lease, Room};
use crate::run::Run;
use crate::{marks, words};
use allowance::{Allowance, failed, room_for};
use byteorder::{BigEndian, ByteOrder};
use heap_model::Tally;
use std::alloc::{AllocError, Global};
use std::marker::Model;
use std::mem::{ManuallyDrop, replace};

/// A run of bytes whose length never changes. The bytes lie in one block of memory, which is freed
/// once, when the region is dropped. A region of no bytes has no block.
///
/// Offsets count bytes from the region's start. Numbers are big-endian and may lie at any offset,
/// odd ones too. The caller of each method must prove that the bytes it names are within the
/// region.
///
/// Any number of parts may be lent. Then the region owns the bytes outside of them, and contracts
/// see zeros in their place. Proofs know which parts are lent, so no access tests it. At run time a
/// bit for each multiple of 8 is set where a lent part begins. Their memory is allocated with the
/// region. Nothing is written there before a part is lent, and then only up to its bit. A region can
/// be dropped only if nothing is lent.
pub struct Region {
    run: Gapped,
    len: usize,
    alloc: Global,
    /// The right to free the block of the bytes, if there is one.
    lease: Option<Lease<Global>>,
    /// The number of bytes that `slide` copied.
    slid: Tally,
    /// A bit for each multiple of 8, set where a lent part begins.
    marks: Vec<u8>,
    /// The number of lent parts.
    count: usize,
}

impl Model for Region {
    ghost use Rattle.heap_model.specs.Memory.{Memory};

    ghost Value = { Memory };

    ghost use Rattle.raw_region.specs.Holes.{KnowsLents};
    ghost use Rattle.raw_region.specs.Marks.{HasRoomForMarks, KnowsMarks};

    ghost view = { λ region. record {
      bytes = region.run.bytes;
      slid = region.slid.total;
      lents = region.run.lents;
    } };

    ghost use Rattle.std.specs.Prelude.{◌≡◌, ◌<◌, ◌^◌, MatchOption, vec_capacity};

    ghost invariant = { λ region. (region.len ≡ region.run.len)
        × (region.len < 2 ^ 63) × KnowsLents region.run.ptr region.run.len region.run.lents
        × KnowsMarks region.marks.items region.run.len region.count region.run.lents
        × HasRoomForMarks region.run.len (vec_capacity region.marks)
        × MatchOption region.lease (region.len ≡ 0) (λ lease.
        (0 < lease.size) × (lease.alloc ≡ region.alloc)
        × (lease.ptr ≡ region.run.ptr) × (lease.size ≡ region.len)) };
}

impl Region {
    /// Returns a region of `size` zeros.
    ///
    /// # Errors
    /// - `AllocError`: if the allocation failed.
    pub fn zeroed(alloc: Global, size: u32) -> Result<Region, AllocError>
        ensures bytes { IfOk result (λ region. region.bytes ≡ replicate size 0) }
        ensures len { IfOk result (λ region. length region.bytes ≡ size) }
        ensures whole { IfOk result (λ region. region.lents ≡ []) }
        ensures short { OnErr result GrowthRefused }
    {
        Region::zeroed_from(&alloc, size)
    }

    /// The same as `zeroed`, with a grant of `memory` for the allocation.
    pub fn zeroed_from<A: Allowance>(memory: &A, size: u32) -> Result<Region, AllocError>
        ensures bytes { IfOk result (λ region. region.bytes ≡ replicate size 0) }
        ensures len { IfOk result (λ region. length region.bytes ≡ size) }
        ensures whole { IfOk result (λ region. region.lents ≡ []) }
        ensures short { OnErr result (A.is_short memory.now) }
    {
        Region::of_zeros(memory, size as usize)
    }

    /// Returns a region that is a copy of `bytes`.
    ///
    /// # Errors
    /// - `AllocError`: if the allocation failed.
    pub fn from_bytes(alloc: Global, bytes: &[u8]) -> Result<Region, AllocError>
        ensures bytes { IfOk result (λ region. region.bytes ≡ bytes.now) }
        ensures whole { IfOk result (λ region. region.lents ≡ []) }
        ensures short { OnErr result GrowthRefused }
    {
        Region::copied_from(&alloc, bytes)
    }

    /// The same as `from_bytes`, with a grant of `memory` for the allocation.
    pub fn copied_from<A: Allowance>(memory: &A, bytes: &[u8]) -> Result<Region, AllocError>
        ensures bytes { IfOk result (λ region. region.bytes ≡ bytes.now) }
        ensures whole { IfOk result (λ region. region.lents ≡ []) }
        ensures short { OnErr result (A.is_short memory.now) }
    {
        let mut region = Region::of_zeros(memory, bytes.len())?;
        region.run.write(0, bytes);
        Ok(region)
    }

    /// Returns a region of `size` zeros. It has a block if `size` is not 0.
    fn of_zeros<A: Allowance>(memory: &A, size: usize) -> Result<Region, AllocError>
        requires { size < 2 ^ 63 }
        ensures bytes { IfOk result (λ region. region.bytes ≡ replicate size 0) }
        ensures whole { IfOk result (λ region. region.lents ≡ []) }
        ensures short { OnErr result (A.is_short memory.now) }
    {
        if size == 0 {
            return Ok(Region {
                run: Gapped::whole(Run::empty()),
                len: 0,
                alloc: memory.allocator(),
                lease: None,
                slid: Tally::new(),
                marks: Vec::new(memory.allocator()),
                count: 0,
            });
        }
        let marks = room_for(memory, size / 64 + 1)?;
        let alloc = memory.grant()?;
        let Some((room, lease)) = Room::new(&alloc, size) else {
            return Err(unsafe { failed(memory) });
        };
        Ok(Region {
            run: Gapped::whole(room.zeroed()),
            len: size,
            alloc,
            lease: Some(lease),
            slid: Tally::new(),
            marks,
            count: 0,
        })
    }

    /// Returns the number of bytes of the region.
    #[inline]
    pub fn len(&self) -> usize
        ensures { result ≡ length self.now.bytes }
    {
        self.len
    }

    /// Returns where the region's bytes begin in the machine's memory. The region still owns them: a
    /// caller can compare the pointer to those of lent parts.
    #[inline]
    pub fn start(&self) -> *mut u8
        ensures { AllLieIn result (length self.now.bytes) self.now.lents }
    {
        self.run.start()
    }

    /// Returns all bytes of the region, in order.
    #[inline]
    pub fn as_slice(&self) -> &[u8]
        requires { self.now.lents ≡ [] }
        ensures is { result.now ≡ self.now.bytes }
        ensures bytes { AreBytes self.now.bytes }
    {
        words::all(self.run.part(0, self.len))
    }

    /// Reads the number in the two bytes at `at`.
    #[inline]
    #[tactic(auto, using(crate::proofs::PartLaws::u16_at_part))]
    pub fn get_u16(&self, at: usize) -> u16
        requires { IsWithin self.now at 2 }
        ensures { result ≡ u16_at self.now.bytes at }
    {
        BigEndian::read_u16(self.run.part(at, 2))
    }

    /// Reads the number in the four bytes at `at`.
    #[inline]
    #[tactic(auto, using(crate::proofs::PartLaws::u32_at_part))]
    pub fn get_u32(&self, at: usize) -> u32
        requires { IsWithin self.now at 4 }
        ensures { result ≡ u32_at self.now.bytes at }
    {
        BigEndian::read_u32(self.run.part(at, 4))
    }

    /// Returns the `n` bytes at `at`.
    #[inline]
    pub fn slice(&self, at: usize, n: usize) -> &[u8]
        requires { IsWithin self.now at n }
        ensures { result.now ≡ slice_range self.now.bytes at (at + n) }
    {
        self.run.part(at, n)
    }

    /// Writes a number into the two bytes at `at`.
    #[inline]
    pub fn put_u16(&mut self, at: usize, n: u16)
        requires { IsWithin self.old at 2 }
        ensures after { self.new
            ≡ record self.old { bytes = overwritten self.old.bytes at (u16_bytes n) } }
        ensures len { length self.new.bytes ≡ length self.old.bytes }
    {
        self.run.put_u16(at, n);
    }

    /// Writes a number into the four bytes at `at`.
    #[inline]
    pub fn put_u32(&mut self, at: usize, n: u32)
        requires { IsWithin self.old at 4 }
        ensures after { self.new
            ≡ record self.old { bytes = overwritten self.old.bytes at (u32_bytes n) } }
        ensures len { length self.new.bytes ≡ length self.old.bytes }
    {
        self.run.put_u32(at, n);
    }

    /// Copies `bytes` into the region, from the offset `at` on.
    #[inline(always)]
    pub fn write(&mut self, at: usize, bytes: &[u8])
        requires { IsWithin self.old at (length bytes.now) }
        ensures after { self.new
            ≡ record self.old { bytes = overwritten self.old.bytes at bytes.now } }
        ensures len { length self.new.bytes ≡ length self.old.bytes }
    {
        self.run.write(at, bytes);
    }

    /// Sets each of the `n` bytes at `at` to `byte`.
    pub fn fill(&mut self, at: usize, n: usize, byte: u8)
        requires { IsWithin self.old at n }
        ensures after { self.new
            ≡ record self.old { bytes = overwritten self.old.bytes at (replicate n byte) } }
        ensures len { length self.new.bytes ≡ length self.old.bytes }
    {
        self.run.fill(at, n, byte);
    }

    /// Changes the bytes at `skip`, `skip + step`, `skip + 2 * step`, .. of the `n` bytes at `at`.
    pub fn change_every<C: ByteChange>(
        &mut self,
        at: usize,
        n: usize,
        skip: usize,
        step: usize,
        change: C,
    )
        requires within { IsWithin self.old at n }
        requires skip { skip < 2 ^ 63 }
        requires step { (0 < step) × (step < 2 ^ 63) }
        ensures after { self.new ≡ record self.old {
          bytes = overwritten self.old.bytes at
              (changed_every (C.made change) step skip (slice_range self.old.bytes at (at + n)));
        } }
        ensures len { length self.new.bytes ≡ length self.old.bytes }
    {
        self.run.change_every(at, n, skip, step, change);
    }

    /// Copies the `n` bytes at `from` to `to`, and counts them. The two parts may overlap.
    pub fn slide(&mut self, from: usize, to: usize, n: usize)
        requires from { IsWithin self.old from n }
        requires to { IsWithin self.old to n }
        ensures bytes { self.new.bytes
            ≡ overwritten self.old.bytes to (slice_range self.old.bytes from (from + n)) }
        ensures slid { self.new.slid ≡ self.old.slid + n }
        ensures lent { self.new.lents ≡ self.old.lents }
        ensures len { length self.new.bytes ≡ length self.old.bytes }
    {
        self.slid.add(n);
        self.run.slide(from, to, n);
    }

    /// Copies the `n` bytes at `from` down to `to`, and counts them. The two parts may overlap. No
    /// byte between them may be lent.
    #[inline]
    pub fn slide_down(&mut self, from: usize, to: usize, n: usize)
        requires down { to ≤ from }
        requires within { IsWithin self.old to (from - to + n) }
        ensures bytes { self.new.bytes
            ≡ overwritten self.old.bytes to (slice_range self.old.bytes from (from + n)) }
        ensures slid { self.new.slid ≡ self.old.slid + n }
        ensures lent { self.new.lents ≡ self.old.lents }
        ensures len { length self.new.bytes ≡ length self.old.bytes }
    {
        self.slid.add(n);
        self.run.slide_down(to, from - to + n, from, to, n);
    }

    /// Lends the `n` bytes at `at`. Until they are taken back, the region doesn't own them. They
    /// must not overlap other lent parts, nor begin where one of these does.
    pub fn lend(&mut self, at: usize, n: usize) -> Part
        requires within { IsWithin self.old at n }
        requires begins { NoneBegins at self.old.lents }
        requires place { IsMarkable at × (at < 2 ^ 32) }
        ensures part { result.bytes ≡ slice_range self.old.bytes at (at + n) }
        ensures after { self.new ≡ record self.old {
          bytes = overwritten self.old.bytes at (replicate n 0);
          lents = record { at = at; count = n; start = result.start } ∷ self.old.lents;
        } }
        ensures len { length self.new.bytes ≡ length self.old.bytes }
    {
        let whole = replace(&mut self.run, Gapped::whole(Run::empty()));
        let (others, run) = whole.cut_out(at, n);
        let none = replace(&mut self.run, others);
        let _no_bytes = unsafe { ManuallyDrop::new_unchecked(none) };
        marks::add(&mut self.marks, (at / 8) as u32);
        self.count += 1;
        Part { run }
    }

    /// Takes back the lent part at `at`. Others may be taken back before it or after it.
    pub fn take_back(&mut self, at: usize, part: Part)
        requires out { IsOut self.old.lents at part }
        requires place { at < 2 ^ 32 }
        ensures after { self.new ≡ record self.old {
          bytes = overwritten self.old.bytes at part.bytes;
          lents = without at self.old.lents;
        } }
        ensures len { length self.new.bytes ≡ length self.old.bytes }
    {
        let Part { run } = part;
        let others = replace(&mut self.run, Gapped::whole(Run::empty()));
        let none = replace(&mut self.run, others.filled_in(at, run));
        let _no_bytes = unsafe { ManuallyDrop::new_unchecked(none) };
        bit_sets::remove(&mut self.marks, (at / 8) as u32);
        self.count -= 1;
    }

    /// Returns whether nothing is lent.
    #[inline]
    pub fn is_whole(&self) -> bool
        ensures { IsTrue result ↔ (self.now.lents ≡ []) }
    {
        self.count == 0
    }

    /// Returns whether a lent part begins at `at`.
    #[inline]
    pub fn lends_at(&self, at: u32) -> bool
        requires { IsMarkable at × (at ≤ length self.now.bytes) }
        ensures { IsTrue result ↔ BeginsAt at self.now.lents }
    {
        self.count != 0 && marks::has(&self.marks, at / 8)
    }

    /// Returns the same as `lends_at` for any offset.
    #[inline]
    pub fn lends_from(&self, at: u32) -> bool
        ensures { IsTrue result ↔ BeginsAt at self.now.lents }
    {
        if at == 0 || at % 8 != 0 || at as usize > self.len {
            return false;
        }
        self.lends_at(at)
    }

    /// Returns the least offset above `after` at which a lent part begins, if there is one.
    pub fn next_lent(&self, after: u32) -> Option<u32>
        requires { length self.now.bytes < 2 ^ 32 }
        ensures next { IfSome result (IsNextLent self.now.lents after) }
        ensures none { IfNone result (NoneBeginsAbove after self.now.lents) }
    {
        if self.count == 0 {
            return None;
        }
        match bit_sets::first_from(&self.marks, after / 8 + 1) {
            Some(unit) => Some(8 * unit),
            None => None,
        }
    }
}

impl Drop for Region {
    fn drop(self)
        requires { self.lents ≡ [] }
    {
        let Region {
            run,
            len,
            alloc,
            lease,
            slid: _,
            marks: _,
            count: _,
        } = self;
        let run = run.into_run(len);
        match lease {
            Some(lease) => run.into_room().free(lease, &alloc),
            None => {
                let _no_block = unsafe { ManuallyDrop::new_unchecked(run) };
            }
        }
    }
}
