//! The names of databases.
#![tactic(auto, using(laws_heap::proofs::Lending::all_within, laws_heap::proofs::Lending::all_misses))]

ghost use Rattle.std.specs.Prelude.{[], ◌≡◌, ◌≤◌, ◌<◌, ◌*◌, ◌/◌, ◌↔◌, length, IsTrue, IfSome, IfNone, None};
ghost use Rattle.heap_model.specs.DatabaseFields.{name_size};
ghost use Rattle.heap_model.specs.Database.{HasName, name_in};
ghost use Rattle.heap_check.specs.Faults.{FirstBrought};
ghost use Rattle.store_check.specs.Listing.{header_at, AreListed, HaveHeaders};
ghost use Rattle.store_check.specs.Faults.{IsSameName, name_faults, same_name_faults, NoneBrought};
ghost use Rattle.store_check.specs.Names.{HaveNames, HasNamesBefore, name_number, name_numbers};

use crate::fault::StoreFault;
use crate::lookup::{Body, header_of};
use crate::words::word_at;
use db_format::{NAME_SIZE, has_name};
use raw_region::Region;

/// Returns the first database whose field for a name has none.
pub(crate) fn find_bad_name(region: &Region, headers: &[Body]) -> Option<StoreFault>
    requires whole { region.now.lents ≡ [] }
    requires listed { AreListed region.now.bytes headers.now }
    requires headers { HaveHeaders region.now.bytes }
    ensures some { IfSome result (FirstBrought (name_faults region.now.bytes)) }
    ensures none { IfNone result (NoneBrought (name_faults region.now.bytes)) }
    ensures names { IfNone result (HaveNames region.now.bytes) }
{
    for db in 0..headers.len() {
        if !has_name(header_of(region, headers, db)) {
            return Some(StoreFault::BadName(db as u32));
        }
    }
    None
}

/// How many numbers there are for names. It is a prime, so that names which differ only in one of
/// their words seldom share a number.
pub(crate) const NAME_NUMBERS: u32 = 262_139;

/// Returns the number of a field for a name. Fields with the same bytes have the same number.
fn number_of_name(header: &[u8]) -> u32
    requires { name_size ≤ length header.now }
    ensures is { result ≡ name_number header.now }
    ensures below { result < name_numbers }
{
    let field = &header[..NAME_SIZE];
    let front = word_at(field, 0) as u64
        + 3 * word_at(field, 1) as u64
        + 5 * word_at(field, 2) as u64
        + 7 * word_at(field, 3) as u64;
    let back = 11 * word_at(field, 4) as u64
        + 13 * word_at(field, 5) as u64
        + 17 * word_at(field, 6) as u64
        + 19 * word_at(field, 7) as u64;
    ((front + back) % NAME_NUMBERS as u64) as u32
}

/// Returns whether two databases have the same name. Each must have one.
fn is_same_name(header: &[u8], other: &[u8]) -> bool
    requires long { name_size ≤ length header.now }
    requires other_long { name_size ≤ length other.now }
    requires name { HasName header.now }
    requires other_name { HasName other.now }
    ensures { IsTrue result ↔ (name_in header.now ≡ name_in other.now) }
{
    header[..NAME_SIZE] == other[..NAME_SIZE]
}

/// Returns whether an earlier database has the name of the one with an index.
fn has_earlier_name(region: &Region, headers: &[Body], db: usize) -> bool
    requires whole { region.now.lents ≡ [] }
    requires listed { AreListed region.now.bytes headers.now }
    requires headers { HaveHeaders region.now.bytes }
    requires names { HaveNames region.now.bytes }
    requires below { db < length headers.now }
    ensures { IsTrue result ↔ IsSameName region.now.bytes db }
{
    let header = header_of(region, headers, db);
    for earlier in 0..db {
        if is_same_name(header_of(region, headers, earlier), header) {
            return true;
        }
    }
    false
}

/// Returns whether an earlier database has the name of the one with an index. It compares names
/// only if the set of the earlier names' numbers has the number.
fn has_same_name(region: &Region, headers: &[Body], db: usize, number: u32, seen: &[u8]) -> bool
    requires whole { region.now.lents ≡ [] }
    requires listed { AreListed region.now.bytes headers.now }
    requires headers { HaveHeaders region.now.bytes }
    requires names { HaveNames region.now.bytes }
    requires below { db < length headers.now }
    requires number { number ≡ name_number (header_at region.now.bytes db) }
    requires room { number / 8 < length seen.now }
    requires seen { HasNamesBefore region.now.bytes seen.now db }
    ensures { IsTrue result ↔ IsSameName region.now.bytes db }
{
    if !bit_sets::has(seen, number) {
        return false;
    }
    has_earlier_name(region, headers, db)
}

/// Returns the first database with the name of an earlier one. The set gets the numbers of all
/// earlier names. Names are compared only if the number is in the set.
pub(crate) fn find_same_name(
    region: &Region,
    headers: &[Body],
    seen: &mut [u8],
) -> Option<StoreFault>
    requires whole { region.now.lents ≡ [] }
    requires listed { AreListed region.now.bytes headers.now }
    requires headers { HaveHeaders region.now.bytes }
    requires names { HaveNames region.now.bytes }
    requires room { name_numbers ≤ 8 * length seen.old }
    ensures some { IfSome result (FirstBrought (same_name_faults region.now.bytes)) }
    ensures none { IfNone result (NoneBrought (same_name_faults region.now.bytes)) }
{
    for db in 0..headers.len() {
        let number = number_of_name(header_of(region, headers, db));
        if has_same_name(region, headers, db, number, seen) {
            return Some(StoreFault::SameName(db as u32));
        }
        bit_sets::add(seen, number);
    }
    None
}
