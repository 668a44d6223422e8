//! Fields of a header that are written alone, by their bytes.

ghost use Rattle.std.specs.Prelude.{◌≡◌};
ghost use Rattle.heap_model.specs.DatabaseFields.{modification_number_at, seed_at, entry_count_at};
ghost use Rattle.db_format.specs.Headers as headers;
ghost use Rattle.db_format.specs.Headers.{WritesField, HasModificationNumber, HasSeed, HasEntryCount, HasInfoBlock};

use crate::fields::{APP_INFO_AT, SORT_INFO_AT};
use crate::words::{put_u16, put_u32};
use heap_model::Which;

/// Returns the bytes of a modification number. Write them at `MODIFICATION_NUMBER_AT`.
#[inline]
pub fn modification_number_bytes(number: u32) -> [u8; 4]
    ensures { WritesField modification_number_at result (HasModificationNumber number) }
{
    let mut bytes = [0; 4];
    put_u32(&mut bytes, 0, number);
    bytes
}

/// Returns the bytes of the field of a seed. Write them at `SEED_AT`.
#[inline]
pub fn seed_bytes(seed: u32) -> [u8; 4]
    ensures { WritesField seed_at result (HasSeed seed) }
{
    let mut bytes = [0; 4];
    put_u32(&mut bytes, 0, seed);
    bytes
}

/// Returns the bytes of a number of entries. Write them at `ENTRY_COUNT_AT`.
#[inline]
pub fn entry_count_bytes(count: u16) -> [u8; 2]
    ensures { WritesField entry_count_at result (HasEntryCount count) }
{
    let mut bytes = [0; 2];
    put_u16(&mut bytes, 0, count);
    bytes
}

/// Returns the bytes of the slot of an info block, or of 0 for none. Write them at `info_block_at`.
#[inline]
pub fn info_block_bytes(slot: u32) -> [u8; 4]
    ensures { (which : Which) → WritesField (headers.info_block_at which) result
        (HasInfoBlock which slot) }
{
    let mut bytes = [0; 4];
    put_u32(&mut bytes, 0, slot);
    bytes
}

/// Returns the offset of the slot of an info block, in bytes from the header's start.
#[inline]
pub fn info_block_at(which: Which) -> usize
    ensures { result ≡ headers.info_block_at which }
{
    match which {
        Which::App => APP_INFO_AT,
        Which::Sort => SORT_INFO_AT,
    }
}
