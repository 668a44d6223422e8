//! Bytes as words.

ghost use Rattle.std.specs.Prelude.{◌≡◌, ◌+◌, ◌*◌, ◌/◌, ◌≤◌, length};
ghost use Rattle.heap_model.specs.Bytes.{u32_at};
ghost use Rattle.heap_model.specs.Slots.{slot_size};

use byteorder::{BigEndian, ByteOrder};
use chunk_format::SLOT_SIZE;

/// Returns how many slots the bytes of a directory list: its whole words.
#[inline]
pub(crate) fn listed_count(directory: &[u8]) -> usize
    ensures { result ≡ length directory.now / slot_size }
{
    directory.len() / SLOT_SIZE as usize
}

/// Returns the word with an index in these bytes. In a directory it is a slot.
#[inline]
pub(crate) fn word_at(bytes: &[u8], index: usize) -> u32
    requires { slot_size * index + slot_size ≤ length bytes.now }
    ensures { result ≡ u32_at bytes.now (slot_size * index) }
{
    let at = SLOT_SIZE as usize * index;
    BigEndian::read_u32(&bytes[at..at + SLOT_SIZE as usize])
}
