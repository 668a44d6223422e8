//! The unique IDs of records, for each database on its own.
#![tactic(auto, using(laws_heap::proofs::Lending::all_within, laws_heap::proofs::Lending::all_misses))]

ghost use Rattle.std.specs.Prelude.{[], ◌≡◌, ◌≤◌, ◌<◌, ◌^◌, ◌↔◌, ℕ, Some, false, length, IsTrue, IfOk, IfSome, IfNone, OnErr, None};
ghost use Rattle.heap_model.specs.Lists.{Least};
ghost use Rattle.heap_model.specs.Database.{resources_in, entry_count_in};
ghost use Rattle.heap_check.specs.Faults.{FirstBrought};
ghost use Rattle.bit_sets.specs.Sets.{HasNone};
ghost use Rattle.db_format.specs.Headers.{AreWholeBytes};
ghost use Rattle.store_check.specs.Listing.{listed_count as model_count, header_at, AreListed, HaveHeaders};
ghost use Rattle.store_check.specs.Faults.{id_at, HasBadId, HasGoodIds, id_faults, NoneBrought};
ghost use Rattle.store_check.specs.Ids.{HasIdsUpTo, HasRoomForIds, HasRoomForAll, HasIdsWithin, HasRisingIds};

use crate::fault::StoreFault;
use crate::lookup::{Body, header_of};
use allowance::{Allowance, zeros};
use db_format::{entry_count, has_resources};
use raw_region::Region;
use std::alloc::AllocError;

/// Allocates a set of `size` bytes with no number in it. The only error is a failed allocation.
pub(crate) fn empty_set<A: Allowance>(memory: &A, size: usize) -> Result<Vec<u8>, AllocError>
    ensures len { IfOk result (λ seen. length seen.items ≡ size) }
    ensures empty { IfOk result (λ seen. HasNone seen.items) }
    ensures short { OnErr result (A.is_short memory.now) }
{
    zeros(memory, size)
}

/// Returns the ID of a record.
#[inline]
fn record_id(header: &[u8], index: u16) -> u32
    requires whole { AreWholeBytes header.now }
    requires records { resources_in header.now ≡ false }
    requires below { index < entry_count_in header.now }
    ensures is { Some result ≡ id_at header.now index }
    ensures small { result < 2 ^ 24 }
{
    db_format::record_id(header, index)
}

/// Returns the greatest of an ID and those of a database's records, if it has records.
fn greatest_id_in(header: &[u8], least: u32) -> u32
    requires whole { AreWholeBytes header.now }
    requires small { least < 2 ^ 24 }
    ensures ids { HasIdsUpTo header.now result }
    ensures least { least ≤ result }
    ensures small { result < 2 ^ 24 }
{
    let mut greatest = least;
    if has_resources(header) {
        return greatest;
    }
    for index in 0..entry_count(header) {
        greatest = greatest.max(record_id(header, index));
    }
    greatest
}

/// Returns the greatest ID of all records, or 0 if there are no records.
pub(crate) fn greatest_id(region: &Region, headers: &[Body]) -> u32
    requires whole { region.now.lents ≡ [] }
    requires listed { AreListed region.now.bytes headers.now }
    requires headers { HaveHeaders region.now.bytes }
    ensures ids { (db : ℕ) → db < model_count region.now.bytes
        → HasIdsUpTo (header_at region.now.bytes db) result }
    ensures small { result < 2 ^ 24 }
{
    let mut greatest = 0;
    for db in 0..headers.len() {
        greatest = greatest_id_in(header_of(region, headers, db), greatest);
    }
    greatest
}

/// Returns whether the ID of each record of a database is above 0 and above those before it. Then
/// no ID is bad.
fn has_rising_ids(header: &[u8]) -> bool
    requires whole { AreWholeBytes header.now }
    requires records { resources_in header.now ≡ false }
    ensures { IsTrue result ↔ HasRisingIds header.now }
{
    let mut last = 0;
    for index in 0..entry_count(header) {
        let id = record_id(header, index);
        if id <= last {
            return false;
        }
        last = id;
    }
    true
}

/// Returns the first record of a database whose ID is 0 or an earlier one's. If there is none, the
/// set has their IDs.
fn find_bad_id_among(header: &[u8], seen: &mut [u8]) -> Option<u16>
    requires whole { AreWholeBytes header.now }
    requires records { resources_in header.now ≡ false }
    requires room { HasRoomForIds header.now (length seen.old) }
    requires empty { HasNone seen.old }
    ensures some { IfSome result (Least (HasBadId header.now)) }
    ensures none { IfNone result (HasGoodIds header.now) }
    ensures within { IfNone result
        (HasIdsWithin header.now seen.new 0 (entry_count_in header.now)) }
{
    for index in 0..entry_count(header) {
        let id = record_id(header, index);
        if id == 0 || bit_sets::has(seen, id) {
            return Some(index);
        }
        bit_sets::add(seen, id);
    }
    None
}

/// Takes the IDs of a database's records out of a set that has no others.
fn forget_each(header: &[u8], seen: &mut [u8])
    requires whole { AreWholeBytes header.now }
    requires records { resources_in header.now ≡ false }
    requires room { HasRoomForIds header.now (length seen.old) }
    requires within { HasIdsWithin header.now seen.old 0 (entry_count_in header.now) }
    ensures { HasNone seen.new }
{
    for index in 0..entry_count(header) {
        bit_sets::remove_byte(seen, record_id(header, index));
    }
}

/// The number of bytes of a set that can be cleared at once in about the time in which one ID is
/// taken out.
const BYTES_FOR_ONE: usize = 32;

/// Empties a set that has the IDs of a database's records. If the records are many, it clears the
/// whole set.
fn forget_ids(header: &[u8], seen: &mut [u8])
    requires whole { AreWholeBytes header.now }
    requires records { resources_in header.now ≡ false }
    requires room { HasRoomForIds header.now (length seen.old) }
    requires within { HasIdsWithin header.now seen.old 0 (entry_count_in header.now) }
    ensures { HasNone seen.new }
{
    if entry_count(header) as usize >= seen.len() / BYTES_FOR_ONE {
        seen.fill(0);
    } else {
        forget_each(header, seen);
    }
}

/// Returns the first record of a database, if it has records, whose ID is 0 or an earlier one's. If
/// there is none, the set is empty again.
fn find_bad_id_in(header: &[u8], seen: &mut [u8]) -> Option<u16>
    requires whole { AreWholeBytes header.now }
    requires room { HasRoomForIds header.now (length seen.old) }
    requires empty { HasNone seen.old }
    ensures some { IfSome result (Least (HasBadId header.now)) }
    ensures none { IfNone result (HasGoodIds header.now) }
    ensures empty { IfNone result (HasNone seen.new) }
{
    if has_resources(header) || has_rising_ids(header) {
        return None;
    }
    let bad = find_bad_id_among(header, seen);
    if bad.is_none() {
        forget_ids(header, seen);
    }
    bad
}

/// Returns the first record of all databases, in their order, whose ID is 0 or that of an earlier
/// record of its database.
pub(crate) fn find_bad_id(region: &Region, headers: &[Body], seen: &mut [u8]) -> Option<StoreFault>
    requires whole { region.now.lents ≡ [] }
    requires listed { AreListed region.now.bytes headers.now }
    requires headers { HaveHeaders region.now.bytes }
    requires room { HasRoomForAll region.now.bytes (length seen.old) }
    requires empty { HasNone seen.old }
    ensures some { IfSome result (FirstBrought (id_faults region.now.bytes)) }
    ensures none { IfNone result (NoneBrought (id_faults region.now.bytes)) }
{
    for db in 0..headers.len() {
        if let Some(index) = find_bad_id_in(header_of(region, headers, db), seen) {
            return Some(StoreFault::BadId(db as u32, index as u32));
        }
    }
    None
}
