//! The smallest image for the databases of files.

ghost use Rattle.std.specs.Prelude.{◌≡◌, ◌≤◌, ◌+◌, ◌^◌, min};
ghost use Rattle.heap_model.specs.Slots as tables;
ghost use Rattle.canonical_file.specs.Needs.{AreNeedsOf, enough, full_size};

use crate::block_needs::chunk_need;
use crate::needs::{Needs, needs_of};
use chunk_format::{FRAME_SIZE, SLOT_SIZE};
use pdb_format::PdbFile;

/// More bytes and slots than any heap has. Sums stop at this number.
pub const ENOUGH: u64 = 1 << 32;

/// The bytes that a database takes in the directory.
const LISTED_SIZE: u64 = 4;

/// Returns the number of slots that an image needs for databases with `slots` slots: one more, for
/// the directory.
pub fn image_slots(slots: u64) -> u64
    requires { slots ≤ enough }
    ensures { result ≡ 1 + slots }
{
    1 + slots
}

/// Returns the size in bytes of a full image. It has `slots` slots, a directory of `databases`
/// databases, and `bytes` bytes of other chunks.
pub fn image_size(slots: u64, databases: u64, bytes: u64) -> u64
    requires slots { slots ≤ 1 + enough }
    requires databases { databases ≤ enough }
    requires bytes { bytes ≤ 2 ^ 63 + 2 ^ 62 }
    ensures { result ≡ full_size slots databases bytes }
{
    start_behind(slots) + chunk_need(LISTED_SIZE * databases) + bytes
}

/// Returns the offset of the first chunk, after a table of `slots` slots.
fn start_behind(slots: u64) -> u64
    requires { slots ≤ 1 + enough }
    ensures { result ≡ tables.start_behind slots }
{
    8 * ((FRAME_SIZE as u64 + SLOT_SIZE as u64 * slots + 7) / 8)
}

/// Adds to a sum that stops at `ENOUGH`.
fn add_up(sum: u64, more: u64) -> u64
    requires sum { sum ≤ enough }
    requires more { more ≤ 2 ^ 63 + 2 ^ 62 }
    ensures { result ≡ min enough (sum + more) }
{
    (sum + more).min(ENOUGH)
}

/// Returns the needs of the databases of files together. Each sum stops at `ENOUGH`.
pub fn needs_of_files(files: &[PdbFile<'_>]) -> Needs
    ensures { AreNeedsOf files.now result }
{
    let mut bytes = 0;
    let mut slots = 0;
    for index in 0..files.len() {
        let needs = needs_of(&files[index]);
        bytes = add_up(bytes, needs.bytes);
        slots = add_up(slots, needs.slots);
    }
    Needs { bytes, slots }
}
