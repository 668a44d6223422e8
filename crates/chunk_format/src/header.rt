//! Reading and writing the headers of chunks.
#![tactic(auto, using(laws_heap::proofs::Lending::first_word_within, laws_heap::proofs::Lending::second_word_within, laws_heap::proofs::Lending::part_within))]

ghost use Rattle.std.specs.Prelude.{◌≡◌, ◌%◌, ◌+◌, ◌≤◌, ◌<◌, ◌^◌, ℕ, List, length, option_map, IfSome, IfNone, SomeIff};
ghost use Rattle.heap_model.specs.Memory.{IsWithin, Misses};
ghost use Rattle.heap_model.specs.Bytes.{overwritten};
ghost use Rattle.heap_model.specs.Frame.{most_size};
ghost use Rattle.heap_model.specs.Chunk.{Chunk, need, fixed_lock, data_owner, IsLive, Spelled, HasChunk};
ghost use Rattle.heap_model.specs.Reading.{chunk_at};
ghost use Rattle.chunk_format.specs.Header.{HasLive, chunk_with, size_by, live_header_by, h_offset_to, live_words, with_lock_at, with_owner_at, with_slot_at, Relocks, Reowns, Reslots};

use crate::frame::MOST_SIZE;
use raw_region::Region;

/// The free bit of the first word.
const FREE_BIT: u32 = 0x8000_0000;

/// The bits above the 24 bits of a size or of an hOffset are a multiple of this.
pub const ABOVE_24_BITS: u32 = 0x100_0000;

/// The bits above the 28 bits of owner and hOffset are a multiple of this.
const ABOVE_28_BITS: u32 = 0x1000_0000;

/// The size of a chunk's header in bytes. The body begins after it.
pub const HEADER_SIZE: u32 = 8;

/// The offset of a header's second word, from the header's start.
pub const SECOND_WORD_AT: usize = 4;

/// The owner of the manager's own chunks: the directory, and the headers of databases.
pub const MANAGERS_OWNER: u8 = 0;

/// The owner of the chunks that databases name.
pub const DATA_OWNER: u8 = 15;

/// The lock field of a fixed chunk. The lock field of a movable chunk counts its locks, up to 14.
pub const FIXED_LOCK: u8 = 15;

/// The header of a chunk. The free bit and the lock field determine the kind of the chunk (Palm OS
/// Programmer's Companion, "Memory Architecture").
#[derive(Clone, Copy, Debug, PartialEq, Eq)]
pub enum Header {
    /// A free chunk of `size` bytes, its header included.
    Free {
        size: u32,
    },
    /// A chunk that may move while its lock count is 0. `length` is the length of its body in
    /// bytes. `slot` is the offset that its hOffset names, whether or not a slot is there.
    Movable {
        length: u32,
        lock: u8,
        owner: u8,
        slot: u32,
    },
    /// A chunk that never moves. `length` is the length of its body in bytes.
    Fixed {
        length: u32,
        owner: u8,
    },
}

/// Returns the size in bytes of a chunk with a body of `length` bytes: 8 for its header, and the
/// body rounded up to a multiple of 8. The caller must prove that this size is below 2^24, as it is
/// for every chunk within a region.
#[inline]
pub fn size_of_body(length: u32) -> u32
    requires { need length < 2 ^ 24 }
    ensures { result ≡ need length }
{
    HEADER_SIZE + 8 * ((length + 7) / 8)
}

/// Returns the size in bytes of a chunk with a body of `length` bytes, as `size_of_body` does. None
/// if no region can have a chunk of this size.
pub fn chunk_size(length: u32) -> Option<u32>
    ensures { SomeIff result (need length ≤ most_size) (need length) }
{
    if length > MOST_SIZE - HEADER_SIZE {
        return None;
    }
    Some(size_of_body(length))
}

impl Header {
    ghost use Rattle.chunk_format.specs.Header.{header_of, HasHeader, IsWritableHeader, header_words};

    /// Reads the header of the chunk at `at`, an offset in bytes from the image's start. None if no
    /// well-formed chunk is there, or it would end after the image's end.
    #[inline]
    pub fn read(region: &Region, at: u32) -> Option<Header>
        requires small { length region.now.bytes < 2 ^ 24 }
        requires misses { Misses region.now.lents at HEADER_SIZE }
        ensures is { result ≡ option_map header_of (chunk_at region.now.bytes at) }
        ensures found { IfSome result (HasHeader region.now.bytes at) }
        ensures none { IfNone result ((chunk : Chunk) → Spelled region.now.bytes at chunk → ⊥) }
    {
        match Header::read_with_size(region, at) {
            Some((header, _)) => Some(header),
            None => None,
        }
    }

    /// Reads the header of the chunk at `at`, as `read` does, and the size of that chunk. A walk
    /// needs both: the first word contains the size, but the header gives it only by a sum.
    #[inline]
    pub fn read_with_size(region: &Region, at: u32) -> Option<(Header, u32)>
        requires small { length region.now.bytes < 2 ^ 24 }
        requires misses { Misses region.now.lents at HEADER_SIZE }
        ensures found { IfSome result (λ both. HasHeader region.now.bytes at both.0) }
        ensures size { IfSome result (λ both. both.1 ≡ size_by both.0) }
        ensures none { IfNone result ((chunk : Chunk) → Spelled region.now.bytes at chunk → ⊥) }
    {
        decode(region, at)
    }

    /// Reads the header of the chunk that is known to be at `at`. It tests only of which kind the
    /// chunk is.
    #[inline]
    pub fn at(region: &Region, at: u32) -> Header
        requires chunk { HasChunk region.now.bytes at }
        requires small { length region.now.bytes < 2 ^ 24 }
        requires misses { Misses region.now.lents at HEADER_SIZE }
        ensures { HasHeader region.now.bytes at result }
    {
        let (header, _) = Header::at_with_size(region, at);
        header
    }

    /// Reads the header of the chunk that is known to be at `at`, as `at` does, and the size of the
    /// chunk.
    #[inline]
    pub fn at_with_size(region: &Region, at: u32) -> (Header, u32)
        requires chunk { HasChunk region.now.bytes at }
        requires small { length region.now.bytes < 2 ^ 24 }
        requires misses { Misses region.now.lents at HEADER_SIZE }
        ensures header { HasHeader region.now.bytes at result.0 }
        ensures size { result.1 ≡ size_by result.0 }
    {
        let offset = at as usize;
        let first = region.get_u32(offset);
        let size = first % ABOVE_24_BITS;
        if first >= FREE_BIT {
            return (Header::Free { size }, size);
        }
        let length = size - HEADER_SIZE - first / ABOVE_24_BITS;
        let second = region.get_u32(offset + SECOND_WORD_AT);
        (live_header(at, length, second), size)
    }

    /// Writes the header at `at`. For a live chunk it writes both words. For a free chunk it writes
    /// only the first word, with every bit zero but the free bit and the size. The caller must
    /// prove that the chunk lies within the region, and that its numbers fit their fields.
    #[inline(always)]
    pub fn write(self, region: &mut Region, at: u32)
        requires inside { at + size_by self ≤ length region.old.bytes }
        requires misses { Misses region.old.lents at HEADER_SIZE }
        requires small { length region.old.bytes < 2 ^ 24 }
        requires writable { IsWritableHeader at self }
        ensures after { region.new ≡ record region.old
            { bytes = overwritten region.old.bytes at (header_words at self) } }
        ensures len { length region.new.bytes ≡ length region.old.bytes }
        ensures spelled { HasHeader region.new.bytes at self }
    {
        match self {
            Header::Free { size } => region.put_u32(at as usize, FREE_BIT + size),
            Header::Movable {
                length,
                lock,
                owner,
                slot,
            } => write_live(region, at, length, lock, owner, h_offset(at, slot)),
            Header::Fixed { length, owner } => write_live(region, at, length, FIXED_LOCK, owner, 0),
        }
    }

    /// Returns the size of the chunk in bytes, its header included.
    #[inline]
    pub fn size(self) -> u32
        requires { size_by self < 2 ^ 24 }
        ensures { result ≡ size_by self }
    {
        match self {
            Header::Free { size } => size,
            Header::Movable { length, .. } | Header::Fixed { length, .. } => size_of_body(length),
        }
    }
}

/// Reads the header from the two words at `at`, and the size. Most chunks of a walk are live, so it
/// tests the free bit only if the bits above the size can't be a sizeAdj.
#[inline]
fn decode(region: &Region, at: u32) -> Option<(Header, u32)>
    requires small { length region.now.bytes < 2 ^ 24 }
    requires misses { Misses region.now.lents at HEADER_SIZE }
    ensures found { IfSome result
        (λ both. Spelled region.now.bytes at (chunk_with region.now.bytes at both.0)) }
    ensures inside { IfSome result (λ both. at + size_by both.0 ≤ length region.now.bytes) }
    ensures size { IfSome result (λ both. both.1 ≡ size_by both.0) }
    ensures none { IfNone result ((chunk : Chunk) → Spelled region.now.bytes at chunk → ⊥) }
{
    let offset = at as usize;
    let end = region.len();
    if offset + HEADER_SIZE as usize > end {
        return None;
    }
    let first = region.get_u32(offset);
    let size = first % ABOVE_24_BITS;
    if size % 8 != 0 || size as usize > end - offset {
        return None;
    }
    let adjustment = first / ABOVE_24_BITS;
    if adjustment > 7 {
        let is_free = first >= FREE_BIT && size != 0;
        return is_free.then_some((Header::Free { size }, size));
    }
    let length = size.checked_sub(HEADER_SIZE + adjustment)?;
    let second = region.get_u32(offset + SECOND_WORD_AT);
    let lock = (second / ABOVE_28_BITS) as u8;
    let owner = (second / ABOVE_24_BITS % 16) as u8;
    let h_offset = second % ABOVE_24_BITS;
    if lock == FIXED_LOCK {
        if h_offset != 0 {
            return None;
        }
        return Some((Header::Fixed { length, owner }, size));
    }
    if lock != 0 && owner == 0 {
        return None;
    }
    let slot = (at + 2 * h_offset) % (2 * ABOVE_24_BITS);
    let header = Header::Movable {
        length,
        lock,
        owner,
        slot,
    };
    Some((header, size))
}

/// The header of a live chunk of `length` bytes, by its second word.
#[inline]
fn live_header(at: u32, length: u32, second: u32) -> Header
    requires { at < 2 ^ 24 }
    ensures { result ≡ live_header_by at length second }
{
    let lock = (second / ABOVE_28_BITS) as u8;
    let owner = (second / ABOVE_24_BITS % 16) as u8;
    if lock == FIXED_LOCK {
        return Header::Fixed { length, owner };
    }
    let slot = (at + 2 * (second % ABOVE_24_BITS)) % (2 * ABOVE_24_BITS);
    Header::Movable {
        length,
        lock,
        owner,
        slot,
    }
}

/// The header of a live chunk without its slot: the length of its body in bytes, its lock field,
/// which is 15 if it is fixed, and its owner.
#[derive(Clone, Copy)]
pub struct LiveFields {
    pub length: u32,
    pub lock: u8,
    pub owner: u8,
}

/// Reads the fields of the live chunk that is known to be at `at`. It tests nothing.
#[inline(always)]
pub fn live_fields(region: &Region, at: u32) -> LiveFields
    requires live { HasLive region.now.bytes at }
    requires small { length region.now.bytes < 2 ^ 24 }
    requires misses { Misses region.now.lents at HEADER_SIZE }
    ensures { (bytes : List ℕ) (lock owner h_offset : ℕ)
        → IsLive region.now.bytes at bytes lock owner h_offset
        → (result.length ≡ length bytes) × (result.lock ≡ lock) × (result.owner ≡ owner) }
{
    let offset = at as usize;
    let first = region.get_u32(offset);
    let second = region.get_u32(offset + SECOND_WORD_AT);
    LiveFields {
        length: first % ABOVE_24_BITS - HEADER_SIZE - first / ABOVE_24_BITS,
        lock: (second / ABOVE_28_BITS) as u8,
        owner: (second / ABOVE_24_BITS % 16) as u8,
    }
}

/// Gives the movable chunk at `at` another lock count. It writes only the second word, which keeps
/// its other fields.
#[inline]
pub fn put_lock(region: &mut Region, at: u32, lock: u8)
    requires inside { IsWithin region.old at HEADER_SIZE }
    requires lock { lock < fixed_lock }
    ensures after { region.new ≡ record region.old
        { bytes = with_lock_at region.old.bytes at lock } }
    ensures len { length region.new.bytes ≡ length region.old.bytes }
    ensures relocked { Relocks region.old.bytes region.new.bytes at lock }
{
    let second = at as usize + SECOND_WORD_AT;
    let word = region.get_u32(second);
    region.put_u32(second, lock as u32 * ABOVE_28_BITS + word % ABOVE_28_BITS);
}

/// Gives the live chunk at `at` another owner. It writes only the second word, which keeps its
/// other fields.
#[inline]
pub fn put_owner(region: &mut Region, at: u32, owner: u8)
    requires inside { IsWithin region.old at HEADER_SIZE }
    requires owner { owner ≤ data_owner }
    ensures after { region.new ≡ record region.old
        { bytes = with_owner_at region.old.bytes at owner } }
    ensures len { length region.new.bytes ≡ length region.old.bytes }
    ensures reowned { Reowns region.old.bytes region.new.bytes at owner }
{
    let second = at as usize + SECOND_WORD_AT;
    let word = region.get_u32(second);
    let lock = word / ABOVE_28_BITS * ABOVE_28_BITS;
    let rest = word % ABOVE_24_BITS;
    region.put_u32(second, lock + owner as u32 * ABOVE_24_BITS + rest);
}

/// Gives the movable chunk at `at` another slot. It writes only the second word, which keeps its
/// other fields. The caller must prove that the slot is at an even distance.
#[inline]
pub fn put_slot(region: &mut Region, at: u32, slot: u32)
    requires inside { IsWithin region.old at HEADER_SIZE }
    requires small { length region.old.bytes < 2 ^ 24 }
    requires slot { slot < 2 ^ 24 }
    requires even { slot % 2 ≡ at % 2 }
    ensures after { region.new ≡ record region.old
        { bytes = with_slot_at region.old.bytes at slot } }
    ensures len { length region.new.bytes ≡ length region.old.bytes }
    ensures reslotted { Reslots region.old.bytes region.new.bytes at slot }
{
    let second = at as usize + SECOND_WORD_AT;
    let word = region.get_u32(second);
    let above = word / ABOVE_24_BITS * ABOVE_24_BITS;
    region.put_u32(second, above + h_offset(at, slot));
}

/// Half the distance from the chunk at `at` to a slot, as a two's complement of 24 bits.
fn h_offset(at: u32, slot: u32) -> u32
    requires at { at < 2 ^ 24 }
    requires slot { slot < 2 ^ 24 }
    ensures { result ≡ h_offset_to at slot }
{
    (slot + 2 * ABOVE_24_BITS - at) / 2 % ABOVE_24_BITS
}

/// Writes the two words of a live chunk.
fn write_live(region: &mut Region, at: u32, count: u32, lock: u8, owner: u8, h_offset: u32)
    requires inside { at + need count ≤ length region.old.bytes }
    requires misses { Misses region.old.lents at HEADER_SIZE }
    requires small { length region.old.bytes < 2 ^ 24 }
    requires lock { lock ≤ fixed_lock }
    requires owner { owner ≤ data_owner }
    requires h_offset { h_offset < 2 ^ 24 }
    ensures after { region.new ≡ record region.old
        { bytes = overwritten region.old.bytes at (live_words count lock owner h_offset) } }
    ensures len { length region.new.bytes ≡ length region.old.bytes }
{
    let size = size_of_body(count);
    let offset = at as usize;
    region.put_u32(offset, (size - HEADER_SIZE - count) * ABOVE_24_BITS + size);
    let above = lock as u32 * ABOVE_28_BITS + owner as u32 * ABOVE_24_BITS;
    region.put_u32(offset + SECOND_WORD_AT, above + h_offset);
}
