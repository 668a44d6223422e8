//! Marks: the mark that a chunk has, and how it is written.

ghost use Rattle.std.specs.Prelude.{◌≡◌, ◌≤◌, ◌<◌, ◌^◌, ℕ, List, length};
ghost use Rattle.heap_check.specs.Owners.{IsRoomFor, marked_word};
ghost use Rattle.heap_map.specs.Marks as marks;
ghost use Rattle.heap_map.specs.Numbers.{database_number, HasNumbers};

use chunk_format::{FRAME_SIZE, Header, MANAGERS_OWNER, SLOT_SIZE};

/// The mark of a fixed chunk. A mark is its rank in the list of marks.
pub const FIXED: u32 = 0;

/// The mark of a chunk with a lock.
pub const LOCKED: u32 = 1;

/// The mark of the directory, and of the header of a database. The marks of databases come after
/// it.
pub const MANAGERS: u32 = 2;

/// The mark of any other movable chunk.
pub const OTHER: u32 = 1027;

/// The mark of a free chunk, which is the last one.
pub const FREE: u32 = 1028;

/// The letters of databases, in their order.
const LETTERS: &[u8; 60] = b"abcdefghijklmnopqrstuvwxyzABCDEGHIJKMNOPQRSTUVWXYZ0123456789";

/// Returns the number of the database that names a slot, from a table of these numbers.
fn number_of(slot: u32, table: &[u16]) -> u16
    requires { (word : ℕ) × (slot ≡ marked_word word) × (word < length table.now) }
    ensures { (number : ℕ → ℕ) → HasNumbers number table.now → result ≡ number slot }
{
    table[((slot - FRAME_SIZE) / SLOT_SIZE) as usize]
}

/// Returns the mark of a movable chunk.
fn movable_mark(lock: u8, owner: u8, number: u16) -> u32
    ensures { result ≡ marks.movable_mark lock owner number }
{
    if lock > 0 {
        LOCKED
    } else if owner == MANAGERS_OWNER {
        MANAGERS
    } else if number == 0 {
        OTHER
    } else {
        MANAGERS + u32::from(number)
    }
}

/// Returns the mark of the chunk with this header, from a table of the numbers of databases.
pub fn mark_of(header: Header, table: &[u16]) -> u32
    requires { IsRoomFor header (length table.now) }
    ensures { (image : List ℕ) → HasNumbers (database_number image) table.now
        → result ≡ marks.mark_by image header }
{
    match header {
        Header::Free { .. } => FREE,
        Header::Movable {
            lock,
            owner,
            slot,
            ..
        } => movable_mark(lock, owner, number_of(slot, table)),
        Header::Fixed { .. } => FIXED,
    }
}

/// Returns the letter of the database with a number, from 1 on.
pub fn letter_of(number: u32) -> u8
    requires { 1 ≤ number }
    ensures { result ≡ marks.letter_of number }
{
    if number as usize > LETTERS.len() {
        b'+'
    } else {
        LETTERS[number as usize - 1]
    }
}

/// Returns a mark as a byte, if it isn't that of free space.
fn live_byte(mark: u32) -> u8
    ensures { result ≡ marks.live_byte mark }
{
    match mark {
        FIXED => b'F',
        LOCKED => b'L',
        MANAGERS => b'*',
        OTHER => b'#',
        _ => letter_of(mark - MANAGERS),
    }
}

/// Returns the byte of a cell, from the first mark of its chunks, its free bytes, and its size.
pub(crate) fn cell_byte(mark: u32, free: u32, size: u32) -> u8
    requires { free < 2 ^ 31 }
    ensures { result ≡ marks.cell_byte mark free size }
{
    if mark <= LOCKED {
        live_byte(mark)
    } else if mark == FREE {
        b'.'
    } else if 2 * free >= size {
        b':'
    } else {
        live_byte(mark)
    }
}
