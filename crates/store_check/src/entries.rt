//! The entries of databases, and the chunks of their data.
#![tactic(auto, using(laws_heap::proofs::Lending::all_within, laws_heap::proofs::Lending::all_misses))]

ghost use Rattle.std.specs.Prelude.{[], ◌≡◌, ◌<◌, ◌↔◌, List, ℕ, length, IsTrue, IfSome, IfNone, None};
ghost use Rattle.heap_model.specs.Heap.{HeapAccepted};
ghost use Rattle.heap_model.specs.Lists.{Least};
ghost use Rattle.heap_model.specs.Database.{data_in, database_in};
ghost use Rattle.heap_model.specs.Store.{HasData, named};
ghost use Rattle.heap_check.specs.Faults.{FirstBrought};
ghost use Rattle.heap_check.specs.Owners.{HasOwners};
ghost use Rattle.db_format.specs.EitherEntry.{entry_of};
ghost use Rattle.store_check.specs.Listing.{header_at, AreListed, HaveHeaders};
ghost use Rattle.store_check.specs.Faults.{HasBadEntry, HasGoodEntries, entry_faults, NoneBrought};
ghost use Rattle.store_check.specs.Naming.{AddsMarks};

use crate::fault::StoreFault;
use crate::lookup::{Body, header_of};
use crate::marks::mark;
use crate::owners::is_for_data;
use db_format::{DbEntry, app_info, entry_count, sort_info};
use raw_region::Region;

/// Returns whether an entry has its data in a chunk for data. A record may have no data if it is
/// deleted.
fn has_data(entry: DbEntry, owners: &[u8]) -> bool
    ensures { (image : List ℕ) → HeapAccepted image → HasOwners image owners.now
        → (IsTrue result ↔ HasData image (entry_of entry)) }
{
    match entry {
        DbEntry::Record(record) => {
            record.slot == 0 && record.attributes.is_deleted() || is_for_data(record.slot, owners)
        }
        DbEntry::Resource(resource) => is_for_data(resource.slot, owners),
    }
}

/// Returns the first bad entry of the database with an index. If there is none, all slots that the
/// database names are marked.
fn find_bad_entry_in(
    region: &Region,
    headers: &[Body],
    db: usize,
    owners: &[u8],
    marks: &mut [u8],
) -> Option<u16>
    requires whole { region.now.lents ≡ [] }
    requires owners { HasOwners region.now.bytes owners.now }
    requires listed { AreListed region.now.bytes headers.now }
    requires headers { HaveHeaders region.now.bytes }
    requires below { db < length headers.now }
    ensures some { IfSome result
        (Least (HasBadEntry region.now.bytes (header_at region.now.bytes db))) }
    ensures none { IfNone result
        (HasGoodEntries region.now.bytes (header_at region.now.bytes db)) }
    ensures marked { IfNone result
        (AddsMarks (data_in (database_in (header_at region.now.bytes db))) marks.old marks.new) }
{
    let header = header_of(region, headers, db);
    mark(app_info(header), marks);
    mark(sort_info(header), marks);
    for index in 0..entry_count(header) {
        let entry = DbEntry::read(header, index);
        if !has_data(entry, owners) {
            return Some(index);
        }
        mark(entry.slot(), marks);
    }
    None
}

/// Returns the first bad entry of all databases, in their order. If there is none, all slots that
/// they name are marked.
pub(crate) fn find_bad_entry(
    region: &Region,
    headers: &[Body],
    owners: &[u8],
    marks: &mut [u8],
) -> Option<StoreFault>
    requires whole { region.now.lents ≡ [] }
    requires owners { HasOwners region.now.bytes owners.now }
    requires listed { AreListed region.now.bytes headers.now }
    requires headers { HaveHeaders region.now.bytes }
    ensures some { IfSome result (FirstBrought (entry_faults region.now.bytes)) }
    ensures none { IfNone result (NoneBrought (entry_faults region.now.bytes)) }
    ensures marked { IfNone result (AddsMarks (named region.now.bytes) marks.old marks.new) }
{
    for db in 0..headers.len() {
        if let Some(index) = find_bad_entry_in(region, headers, db, owners, marks) {
            return Some(StoreFault::BadEntry(db as u32, index as u32));
        }
    }
    None
}
