//! The first unique ID after a seed that no record has.

ghost use Rattle.std.specs.Prelude.{◌≡◌, ◌<◌, ◌≤◌, false, length, IfSome};
ghost use Rattle.heap_model.specs.Database.{IsSpelled, database_in, resources_in, entry_count_in};
ghost use Rattle.heap_model.specs.Store.{unique_ids};
ghost use Rattle.heap_model.specs.EntrySteps.{most_entries};
ghost use Rattle.heap_model.specs.UniqueIds.{IsFresh, greatest_id, seed_in};
ghost use Rattle.heap_model.specs.UniqueIds as ids;
ghost use Rattle.bit_sets.specs.Sets.{HasNone};
ghost use Rattle.db_format.specs.Headers.{AreWholeBytes};
ghost use Rattle.fresh_ids.specs.Steps.{HasTaken, IsFirstFree};
ghost use Rattle.fresh_ids.specs.FreeIds.{AreFree, EndAsFar, IsEndOfFree};

use crate::stretch::FreeIds;
use db_format::{GREATEST_ID, entry_count, record_id};

/// The size in bytes of a set for the IDs near the seed, which are tried first.
const NEAR_SET_SIZE: usize = 128;

/// The size in bytes of a set with a bit for each record, and one more.
const FULL_SET_SIZE: usize = 8192;

/// Returns the number of IDs between a seed and an ID after it. 1 follows the greatest ID.
#[inline]
#[tactic(auto, using(laws_store::proofs::Fresh::id_behind_is))]
fn steps_to(seed: u32, id: u32) -> u32
    requires seed { seed ≤ greatest_id }
    requires some { 0 < id }
    requires most { id ≤ greatest_id }
    ensures is { ids.id_behind seed result ≡ id }
    ensures below { result < greatest_id }
{
    if id > seed {
        id - seed - 1
    } else {
        GREATEST_ID - seed + id - 1
    }
}

/// Returns the ID after a seed, with `steps` other IDs between them.
#[tactic(auto, using(laws_store::proofs::Fresh::id_behind_is))]
fn id_behind(seed: u32, steps: u32) -> u32
    requires seed { seed ≤ greatest_id }
    requires steps { steps < greatest_id }
    ensures { result ≡ ids.id_behind seed steps }
{
    let last = seed + steps;
    if last < GREATEST_ID {
        last + 1
    } else {
        last - GREATEST_ID + 1
    }
}

/// Adds the steps from the seed to the records' IDs to an empty set. Steps beyond its room are left
/// out.
fn put_taken(body: &[u8], seed: u32, taken: &mut [u8])
    requires whole { AreWholeBytes body.now }
    requires records { resources_in body.now ≡ false }
    requires seed { seed ≤ greatest_id }
    requires room { length taken.old ≤ 8192 }
    requires empty { HasNone taken.old }
    ensures { HasTaken body.now seed taken.new (entry_count_in body.now) }
{
    let room = 8 * taken.len() as u32;
    for index in 0..entry_count(body) {
        let id = record_id(body, index);
        if id != 0 {
            let steps = steps_to(seed, id);
            if steps < room {
                bit_sets::add(taken, steps);
            }
        }
    }
}

/// Returns the steps to the first free ID, if it is near the seed.
fn first_near(body: &[u8], seed: u32) -> Option<u32>
    requires whole { AreWholeBytes body.now }
    requires records { resources_in body.now ≡ false }
    requires seed { seed ≤ greatest_id }
    ensures below { IfSome result (λ steps. steps < greatest_id) }
    ensures first { IfSome result (IsFirstFree body.now seed) }
{
    let mut taken = [0; NEAR_SET_SIZE];
    put_taken(body, seed, &mut taken);
    let steps = bit_sets::first_missing(&taken);
    if steps < 8 * NEAR_SET_SIZE as u32 {
        Some(steps)
    } else {
        None
    }
}

/// Returns the steps to the first free ID. It passes over the records once, and has a bit for each
/// step that may be needed.
fn first_free(body: &[u8], seed: u32) -> u32
    requires whole { AreWholeBytes body.now }
    requires records { resources_in body.now ≡ false }
    requires seed { seed ≤ greatest_id }
    requires few { entry_count_in body.now < most_entries }
    ensures below { result < greatest_id }
    ensures first { IsFirstFree body.now seed result }
{
    let mut taken = [0; FULL_SET_SIZE];
    put_taken(body, seed, &mut taken);
    bit_sets::first_missing(&taken)
}

/// Returns the ID for a new record of the database that these bytes spell: the first after its seed
/// that no record has. It passes over the entries once, or twice if the IDs near the seed are all
/// taken.
fn fresh_id(body: &[u8]) -> u32
    requires spelled { IsSpelled (database_in body.now) body.now }
    requires records { resources_in body.now ≡ false }
    requires few { entry_count_in body.now < most_entries }
    ensures fresh { IsFresh (unique_ids (database_in body.now)) (seed_in (database_in body.now).header.seed) result }
    ensures some { 0 < result }
    ensures most { result ≤ greatest_id }
{
    let seed = db_format::seed(body) & GREATEST_ID;
    let steps = match first_near(body, seed) {
        Some(steps) => steps,
        None => first_free(body, seed),
    };
    id_behind(seed, steps)
}

/// Returns the least ID of a record that is not below `first`, or `greatest_id + 1` if there is
/// none. It passes over the entries once.
fn end_of_free(body: &[u8], first: u32) -> u32
    requires whole { AreWholeBytes body.now }
    requires records { resources_in body.now ≡ false }
    requires most { first ≤ greatest_id }
    ensures { IsEndOfFree (unique_ids (database_in body.now)) first result }
{
    let mut end = GREATEST_ID + 1;
    for index in 0..entry_count(body) {
        let id = record_id(body, index);
        if first <= id && id < end {
            end = id;
        }
    }
    end
}

/// Returns free IDs of the database that these bytes spell. The first of them is the one for a new
/// record: the first after the seed that no record has.
///
/// - If the ID next to the seed is among the known ones, no entry is read. The free IDs end where
///   the known ones do.
/// - If it isn't known but free, one pass over the entries finds the end of the free IDs.
/// - If it is taken, two or three more passes find the first free ID and the end of the IDs after
///   it.
pub fn free_ids(body: &[u8], known: FreeIds) -> FreeIds
    requires spelled { IsSpelled (database_in body.now) body.now }
    requires records { resources_in body.now ≡ false }
    requires few { entry_count_in body.now < most_entries }
    requires known { AreFree (unique_ids (database_in body.now)) known }
    ensures fresh { IsFresh (unique_ids (database_in body.now)) (seed_in (database_in body.now).header.seed) result.first }
    ensures free { AreFree (unique_ids (database_in body.now)) result }
    ensures more { result.first < result.end }
    ensures ends { EndAsFar (unique_ids (database_in body.now)) known result }
    ensures some { 0 < result.first }
    ensures most { result.first ≤ greatest_id }
{
    let next = id_behind(db_format::seed(body) & GREATEST_ID, 0);
    if known.has(next) {
        return FreeIds {
            first: next,
            end: known.end,
        };
    }
    let end = end_of_free(body, next);
    if next < end {
        return FreeIds { first: next, end };
    }
    let first = fresh_id(body);
    FreeIds {
        first,
        end: end_of_free(body, first),
    }
}
