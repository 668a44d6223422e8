//! The frame of an image: the 16 bytes before the master pointer table, their fields, and the least
//! and the greatest size of an image. The frame determines where the table ends and the chunks
//! begin.
#![tactic(auto, using(laws_heap::proofs::Lending::part_within))]

ghost use Rattle.std.specs.Prelude.{◌≡◌, ◌↔◌, ◌⊎◌, ◌<◌, ◌+◌, ◌^◌, if◌then◌else◌, length, IsTrue};
ghost use Rattle.heap_model.specs.Memory.{IsWithin};
ghost use Rattle.heap_model.specs.Bytes.{u16_at, u32_at, u32_bytes, overwritten};
ghost use Rattle.heap_model.specs.Frame.{magic, chained_magic, magic_at, size_at, reserved_at, directory_at, HasFrame};
ghost use Rattle.heap_model.specs.Slots.{slot_count as model_count, is_chained as model_chained, first_next as model_next, table_end as model_table, head_end as model_end, area_start as model_start, start_behind as model_behind, end_behind as model_behind_end};
ghost use Rattle.heap_model.specs.Chunk.{next_size};
ghost use Rattle.heap_model.specs.Heap.{directory_of};
ghost use Rattle.chunk_format.specs.Blank.{IsRegionSize, framed};

use raw_region::Region;

/// The first four bytes of an image of profile PHI1, as a number.
const MAGIC: u32 = 0x5048_4931;

/// The first four bytes of an image of profile PHI2, whose tables are a chain, as a number.
pub const CHAINED_MAGIC: u32 = 0x5048_4932;

/// The offset of the magic, in bytes from the image's start.
pub const MAGIC_AT: usize = 0;

/// The offset of the size of the image.
pub const SIZE_AT: usize = 4;

/// The offset of the slot count.
const SLOT_COUNT_AT: usize = 8;

/// The offset of the two reserved bytes, which are zero.
const RESERVED_AT: usize = 10;

/// The offset of the directory word.
const DIRECTORY_AT: usize = 12;

/// The size of the frame in bytes. The table begins after it.
pub const FRAME_SIZE: u32 = 16;

/// The size of a slot in bytes.
pub const SLOT_SIZE: u32 = 4;

/// The size of a table's word `next` in bytes.
pub const NEXT_SIZE: u32 = 4;

/// The length of the body of a new further table in bytes: its word `next` and 15 slots.
pub const TABLE_LENGTH: u32 = 64;

/// The least size of an image, in bytes.
const LEAST_SIZE: usize = 64;

/// The greatest size of an image, and so of a chunk, in bytes.
pub(crate) const MOST_SIZE: u32 = 16_777_208;

/// Returns whether an image may have this size, in bytes.
pub fn is_image_size(size: usize) -> bool
    ensures { IsTrue result ↔ IsRegionSize size }
{
    size >= LEAST_SIZE && size <= MOST_SIZE as usize && size % 8 == 0
}

/// Returns whether the first four bytes are a magic.
pub fn has_magic(region: &Region) -> bool
    requires { IsWithin region.now magic_at 4 }
    ensures { IsTrue result ↔ ((u32_at region.now.bytes magic_at ≡ magic)
        ⊎ (u32_at region.now.bytes magic_at ≡ chained_magic)) }
{
    let word = region.get_u32(MAGIC_AT);
    word == MAGIC || word == CHAINED_MAGIC
}

/// Returns whether the image has a chain of tables: a word `next` follows the first table.
#[inline]
pub fn is_chained(region: &Region) -> bool
    requires { HasFrame region.now }
    ensures { result ≡ model_chained region.now.bytes }
{
    region.get_u32(MAGIC_AT) == CHAINED_MAGIC
}

/// Returns the size field of the image, in bytes.
pub fn size_field(region: &Region) -> u32
    requires { IsWithin region.now size_at 4 }
    ensures { result ≡ u32_at region.now.bytes size_at }
{
    region.get_u32(SIZE_AT)
}

/// Returns the number of slots of the first table.
#[inline]
pub fn slot_count(region: &Region) -> u16
    requires { HasFrame region.now }
    ensures { result ≡ model_count region.now.bytes }
{
    region.get_u16(SLOT_COUNT_AT)
}

/// Returns the two reserved bytes, which must be zero.
pub fn reserved(region: &Region) -> u16
    requires { HasFrame region.now }
    ensures { result ≡ u16_at region.now.bytes reserved_at }
{
    region.get_u16(RESERVED_AT)
}

/// Returns the directory word: 0, or the offset of the directory's slot.
pub fn directory(region: &Region) -> u32
    requires { HasFrame region.now }
    ensures { result ≡ directory_of region.now.bytes }
{
    region.get_u32(DIRECTORY_AT)
}

/// Writes the directory word: 0, or the offset of the directory's slot.
pub fn put_directory(region: &mut Region, word: u32)
    requires { HasFrame region.old }
    ensures after { region.new ≡ record region.old
        { bytes = overwritten region.old.bytes directory_at (u32_bytes word) } }
    ensures len { length region.new.bytes ≡ length region.old.bytes }
{
    region.put_u32(DIRECTORY_AT, word);
}

/// Returns the end of the head, in bytes from the image's start. The padding before the chunks
/// begins there.
pub fn head_end(region: &Region) -> u32
    requires { HasFrame region.now }
    ensures { result ≡ model_end region.now.bytes }
{
    end_with(slot_count(region), is_chained(region))
}

/// The end of a head whose first table has `slots` slots. A chain's head has the word `next` after
/// the table.
#[inline]
fn end_with(slots: u16, chained: bool) -> u32
    ensures is { result ≡ model_behind_end slots + (if chained then next_size else 0) }
    ensures small { result < 2 ^ 19 }
{
    let end = FRAME_SIZE + SLOT_SIZE * slots as u32;
    if chained { end + NEXT_SIZE } else { end }
}

/// Returns the word `next` after the first table, or 0 if the image isn't chained.
#[inline]
pub fn first_next(region: &Region) -> u32
    requires frame { HasFrame region.now }
    requires inside { IsWithin region.now 0 (model_end region.now.bytes) }
    ensures { result ≡ model_next region.now.bytes }
{
    if is_chained(region) {
        word_behind(region)
    } else {
        0
    }
}

/// The word after the first table.
#[inline]
fn word_behind(region: &Region) -> u32
    requires frame { HasFrame region.now }
    requires inside { IsWithin region.now (model_table region.now.bytes) NEXT_SIZE }
    ensures { result ≡ u32_at region.now.bytes (model_table region.now.bytes) }
{
    region.get_u32(FRAME_SIZE as usize + SLOT_SIZE as usize * slot_count(region) as usize)
}

/// Returns the offset of the first chunk, in bytes from the image's start.
#[inline]
pub fn area_start(region: &Region) -> u32
    requires { HasFrame region.now }
    ensures { result ≡ model_start region.now.bytes }
{
    8 * ((end_with(slot_count(region), is_chained(region)) + 7) / 8)
}

/// Returns the offset of the first chunk in an image whose only table has `slots` slots.
#[inline]
pub(crate) fn start_behind(slots: u16) -> u32
    ensures { result ≡ model_behind slots }
{
    8 * ((FRAME_SIZE + SLOT_SIZE * slots as u32 + 7) / 8)
}

/// Writes the magic, the size and the slot count.
pub(crate) fn write_frame(region: &mut Region, size: u32, slots: u16)
    requires { HasFrame region.old }
    ensures after { region.new ≡ record region.old { bytes = framed region.old.bytes size slots } }
    ensures len { length region.new.bytes ≡ length region.old.bytes }
{
    region.put_u32(MAGIC_AT, MAGIC);
    region.put_u32(SIZE_AT, size);
    region.put_u16(SLOT_COUNT_AT, slots);
}
