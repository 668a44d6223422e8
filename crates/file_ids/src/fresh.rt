//! The second pass: fresh IDs for the other records.

ghost use Rattle.std.specs.Prelude.{◌≡◌, ◌<◌, ◌≤◌, ◌*◌, ℕ, List, length};
ghost use Rattle.heap_model.specs.UniqueIds.{greatest_id, IsFresh};
ghost use Rattle.heap_model.specs.UniqueIds as unique;
ghost use Rattle.file_ids.specs.Passes.{HasIds, HasRoomFor, ZerosGetFresh};

use db_format::GREATEST_ID;

/// Returns the ID after a number. 1 follows the greatest.
#[inline]
fn next_id(number: u32) -> u32
    ensures { result ≡ unique.next_id number }
{
    if number < GREATEST_ID { number + 1 } else { 1 }
}

/// Returns the first ID after a seed that isn't in the set.
fn first_free(taken: &[u8], seed: u32) -> u32
    requires bits { greatest_id < 8 * length taken.now }
    requires seed { seed ≤ greatest_id }
    requires room { HasRoomFor taken.now 0 }
    ensures fresh { (ids : List ℕ) → HasIds taken.now ids → IsFresh ids seed result }
    ensures some { 0 < result }
    ensures most { result ≤ greatest_id }
{
    let mut id = next_id(seed);
    while bit_sets::has(taken, id) {
        id = next_id(id);
    }
    id
}

/// Replaces each 0 with a fresh ID, and adds the fresh ID to the set. Returns the ID that was given
/// last, or the seed if none was given. The seed moves with each fresh ID, so all of these walks
/// together pass each ID of the set at most once.
pub(crate) fn give_fresh(taken: &mut [u8], ids: &mut [u32], seed: u32) -> u32
    requires bits { greatest_id < 8 * length taken.old }
    requires seed { seed ≤ greatest_id }
    requires room { HasRoomFor taken.old (length ids.old) }
    ensures given { (known : List ℕ) → HasIds taken.old known
        → ZerosGetFresh known seed ids.old ids.new result }
    ensures most { result ≤ greatest_id }
{
    let mut last = seed;
    for id in ids.iter_mut() {
        if *id == 0 {
            last = first_free(taken, last);
            bit_sets::add(taken, last);
            *id = last;
        }
    }
    last
}
