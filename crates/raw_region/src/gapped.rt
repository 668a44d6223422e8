//! The bytes of a region: bytes in a row, except for holes, the parts that are lent.
//!
//! Only proofs know the places of the holes. The caller must prove that a read or write misses
//! them. So each access goes through one pointer and tests nothing.

ghost use Rattle.std.specs.Prelude.{◌≡◌, ◌+◌, ◌<◌, ◌≤◌, ◌^◌, ◌⊎◌, ℕ, List, [], ◌∷◌, length, slice_range, replicate};
ghost use Rattle.raw_region.specs.Ownership.{bytes_but, bytes_but_lent};
ghost use Rattle.heap_model.specs.Memory.{Lent};
ghost use Rattle.raw_region.specs.Holes.{is_out};
ghost use denote.RawPtr.{◌+ₚ◌};

use crate::byte_change::ByteChange;
use crate::run::Run;
use crate::words;
use byteorder::{BigEndian, ByteOrder};
use std::marker::Model;
use std::mem::{ManuallyDrop, replace};
use std::slice;

/// Owns the bytes outside of the holes. It can't be dropped, and frees nothing.
pub(crate) struct Gapped {
    pub(crate) ptr: *mut u8,
    /// The number of bytes, including those of the holes.
    pub(crate) len: usize,
    pub(crate) ghost bytes: { List ℕ },
    pub(crate) ghost lents: { List Lent },
    ghost ok: { (len ≡ length bytes) × (len < 2 ^ 63) },
}

impl Model for Gapped {
    ghost also_owns = { λ run. bytes_but (is_out run.lents) run.ptr run.bytes };

    ghost also_shares = { λ run _ κ. bytes_but_lent (is_out run.lents) run.ptr run.bytes κ };
}

impl Gapped {
    ghost use Rattle.std.specs.Prelude.{Some};
    ghost use Rattle.std.specs.Borrow.{sem};
    ghost use Rattle.heap_model.specs.Bytes.{overwritten, u16_bytes, u32_bytes};
    ghost use Rattle.raw_region.specs.Lends.{lends_part};
    ghost use Rattle.heap_model.specs.Memory.{Misses, without};
    ghost use Rattle.raw_region.specs.Holes.{lent_at, count_at};
    ghost use Rattle.raw_region.specs.ByteChanges.{changed_every};

    /// Makes a `Gapped` with no hole from one run.
    pub(crate) fn whole(run: Run) -> Gapped
        ensures { (result.ptr ≡ run.ptr) × (result.len ≡ run.len) × (result.bytes ≡ run.bytes) × (result.lents ≡ []) }
    {
        let Run { ptr, len } = run;
        Gapped { ptr, len }
    }

    /// Makes a hole of the `n` bytes at `at`, and returns them beside the others.
    pub(crate) fn cut_out(self, at: usize, n: usize) -> (Gapped, Run)
        requires { (at + n ≤ self.len) × Misses self.lents at n }
        ensures others { (result.0.ptr ≡ self.ptr) × (result.0.len ≡ self.len)
            × (result.0.bytes ≡ overwritten self.bytes at (replicate n 0)) × (result.0.lents ≡ lent_at self.ptr at n ∷ self.lents) }
        ensures part { (result.1.ptr ≡ self.ptr +ₚ at) × (result.1.len ≡ n)
            × (result.1.bytes ≡ slice_range self.bytes at (at + n)) }
    {
        let Gapped { ptr, len } = self;
        let part = unsafe { ptr.add(at) };
        (Gapped { ptr, len }, Run { ptr: part, len: n })
    }

    /// Fills the hole at `at`.
    pub(crate) fn filled_in(self, at: usize, part: Run) -> Gapped
        requires place { (part.ptr ≡ self.ptr +ₚ at) × (at + part.len ≤ self.len) }
        requires hole { (count_at at self.lents ≡ Some part.len) × Misses (without at self.lents) at part.len }
        ensures { (result.ptr ≡ self.ptr) × (result.len ≡ self.len)
            × (result.bytes ≡ overwritten self.bytes at part.bytes) × (result.lents ≡ without at self.lents) }
    {
        let Gapped { ptr, len } = self;
        let Run { ptr: _, len: _ } = part;
        Gapped { ptr, len }
    }

    /// Returns where the bytes begin.
    #[inline]
    pub(crate) fn start(&self) -> *mut u8
        ensures { result ≡ self.now.ptr }
    {
        self.ptr
    }

    /// Returns the `n` bytes at `at`, to be read.
    #[inline(always)]
    pub(crate) fn part(&self, at: usize, n: usize) -> &[u8]
        requires { (at + n ≤ self.now.len) × Misses self.now.lents at n }
        ensures { result.now ≡ slice_range self.now.bytes at (at + n) }
    {
        unsafe { slice::from_raw_parts(self.ptr.add(at), n) }
    }

    /// Returns the `n` bytes at `at`, to be written.
    #[inline(always)]
    pub(crate) fn part_mut(&mut self, at: usize, n: usize) -> &mut [u8]
        requires { (at + n ≤ self.old.len) × Misses self.old.lents at n }
        ensures* writes_back { sem 𝓛 (lends_part self.entry at result) }
        ensures value { result.now ≡ slice_range self.old.bytes at (at + n) }
    {
        unsafe { slice::from_raw_parts_mut(self.ptr.add(at), n) }
    }

    /// Returns all bytes as one run. There must be no hole.
    pub(crate) fn into_run(self, len: usize) -> Run
        requires { (len ≡ self.len) × (self.lents ≡ []) }
        ensures { (result.ptr ≡ self.ptr) × (result.len ≡ len) × (result.bytes ≡ self.bytes) }
    {
        let (none, run) = self.cut_out(0, len);
        let _no_bytes = unsafe { ManuallyDrop::new_unchecked(none) };
        run
    }

    /// Copies `bytes` over those at `at`.
    #[inline(always)]
    #[tactic(auto, using(crate::proofs::GapWrites::copied))]
    pub(crate) fn write(&mut self, at: usize, bytes: &[u8])
        requires { (at + length bytes.now ≤ self.old.len) × Misses self.old.lents at (length bytes.now) }
        ensures bytes { self.new.bytes ≡ overwritten self.old.bytes at bytes.now }
        ensures places { (self.new.ptr ≡ self.old.ptr) × (self.new.len ≡ self.old.len) × (self.new.lents ≡ self.old.lents) }
    {
        self.part_mut(at, bytes.len()).copy_from_slice(bytes);
    }

    /// Writes a number into the two bytes at `at`.
    #[inline(always)]
    #[tactic(auto, using(crate::proofs::GapWrites::u16_written))]
    pub(crate) fn put_u16(&mut self, at: usize, n: u16)
        requires { (at + 2 ≤ self.old.len) × Misses self.old.lents at 2 }
        ensures bytes { self.new.bytes ≡ overwritten self.old.bytes at (u16_bytes n) }
        ensures places { (self.new.ptr ≡ self.old.ptr) × (self.new.len ≡ self.old.len) × (self.new.lents ≡ self.old.lents) }
    {
        BigEndian::write_u16(self.part_mut(at, 2), n);
    }

    /// Writes a number into the four bytes at `at`.
    #[inline(always)]
    #[tactic(auto, using(crate::proofs::GapWrites::u32_written))]
    pub(crate) fn put_u32(&mut self, at: usize, n: u32)
        requires { (at + 4 ≤ self.old.len) × Misses self.old.lents at 4 }
        ensures bytes { self.new.bytes ≡ overwritten self.old.bytes at (u32_bytes n) }
        ensures places { (self.new.ptr ≡ self.old.ptr) × (self.new.len ≡ self.old.len) × (self.new.lents ≡ self.old.lents) }
    {
        BigEndian::write_u32(self.part_mut(at, 4), n);
    }

    /// Sets each of the `n` bytes at `at` to `byte`.
    #[inline(always)]
    #[tactic(auto, using(crate::proofs::GapWrites::filled))]
    pub(crate) fn fill(&mut self, at: usize, n: usize, byte: u8)
        requires { (at + n ≤ self.old.len) × Misses self.old.lents at n }
        ensures bytes { self.new.bytes ≡ overwritten self.old.bytes at (replicate n byte) }
        ensures places { (self.new.ptr ≡ self.old.ptr) × (self.new.len ≡ self.old.len) × (self.new.lents ≡ self.old.lents) }
    {
        self.part_mut(at, n).fill(byte);
    }

    /// Changes the bytes at `skip`, `skip + step`, `skip + 2 * step`, .. of the `n` bytes at `at`.
    #[inline(always)]
    #[tactic(auto, using(crate::proofs::GapWrites::all_changed))]
    pub(crate) fn change_every<C: ByteChange>(
        &mut self,
        at: usize,
        n: usize,
        skip: usize,
        step: usize,
        change: C,
    )
        requires within { (at + n ≤ self.old.len) × Misses self.old.lents at n }
        requires skip { skip < 2 ^ 63 }
        requires step { (0 < step) × (step < 2 ^ 63) }
        ensures bytes { self.new.bytes ≡ overwritten self.old.bytes at
            (changed_every (C.made change) step skip (slice_range self.old.bytes at (at + n))) }
        ensures places { (self.new.ptr ≡ self.old.ptr) × (self.new.len ≡ self.old.len) × (self.new.lents ≡ self.old.lents) }
    {
        words::change_all::<C>(self.part_mut(at, n), skip, step, change);
    }

    /// Copies the `n` bytes at `from` to `to`. The two parts may overlap.
    pub(crate) fn slide(&mut self, from: usize, to: usize, n: usize)
        requires from { (from + n ≤ self.old.len) × Misses self.old.lents from n }
        requires to { (to + n ≤ self.old.len) × Misses self.old.lents to n }
        ensures bytes { self.new.bytes ≡ overwritten self.old.bytes to
            (slice_range self.old.bytes from (from + n)) }
        ensures places { (self.new.ptr ≡ self.old.ptr) × (self.new.len ≡ self.old.len) × (self.new.lents ≡ self.old.lents) }
    {
        if n <= from.abs_diff(to) {
            self.carry(from, to, n);
        } else if from < to {
            self.slide_within(from, to - from + n, from, to, n);
        } else {
            self.slide_within(to, from - to + n, from, to, n);
        }
    }

    /// Copies the `n` bytes at `from` to `to`. The two parts don't overlap. There may be holes
    /// between them.
    fn carry(&mut self, from: usize, to: usize, n: usize)
        requires from { (from + n ≤ self.old.len) × Misses self.old.lents from n }
        requires to { (to + n ≤ self.old.len) × Misses self.old.lents to n }
        requires apart { (from + n ≤ to) ⊎ (to + n ≤ from) }
        ensures bytes { self.new.bytes ≡ overwritten self.old.bytes to
            (slice_range self.old.bytes from (from + n)) }
        ensures places { (self.new.ptr ≡ self.old.ptr) × (self.new.len ≡ self.old.len) × (self.new.lents ≡ self.old.lents) }
    {
        let whole = replace(self, Gapped::whole(Run::empty()));
        let (mut others, part) = whole.cut_out(from, n);
        others.write(to, part.as_slice());
        let none = replace(self, others.filled_in(from, part));
        let _no_bytes = unsafe { ManuallyDrop::new_unchecked(none) };
    }

    /// Copies the `n` bytes at `from` to `to`. The two parts may overlap. Both lie within the
    /// `count` bytes at `at`, which miss the holes.
    #[tactic(auto, using(crate::proofs::GapWrites::slid_among))]
    fn slide_within(&mut self, at: usize, count: usize, from: usize, to: usize, n: usize)
        requires within { (at + count ≤ self.old.len) × Misses self.old.lents at count }
        requires from { (at ≤ from) × (from + n ≤ at + count) }
        requires to { (at ≤ to) × (to + n ≤ at + count) }
        ensures bytes { self.new.bytes ≡ overwritten self.old.bytes to
            (slice_range self.old.bytes from (from + n)) }
        ensures places { (self.new.ptr ≡ self.old.ptr) × (self.new.len ≡ self.old.len) × (self.new.lents ≡ self.old.lents) }
    {
        words::slide(self.part_mut(at, count), from - at, to - at, n);
    }

    /// The same as `slide_within`, for a copy down.
    #[inline]
    #[tactic(auto, using(crate::proofs::GapWrites::slid_among))]
    pub(crate) fn slide_down(&mut self, at: usize, count: usize, from: usize, to: usize, n: usize)
        requires within { (at + count ≤ self.old.len) × Misses self.old.lents at count }
        requires from { (at ≤ from) × (from + n ≤ at + count) }
        requires to { (at ≤ to) × (to + n ≤ at + count) }
        requires down { to ≤ from }
        ensures bytes { self.new.bytes ≡ overwritten self.old.bytes to
            (slice_range self.old.bytes from (from + n)) }
        ensures places { (self.new.ptr ≡ self.old.ptr) × (self.new.len ≡ self.old.len) × (self.new.lents ≡ self.old.lents) }
    {
        words::slide_down(self.part_mut(at, count), from - at, to - at, n);
    }
}
