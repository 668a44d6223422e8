//! The headers that the directory lists.
#![tactic(auto, using(laws_heap::proofs::Lending::all_within, laws_heap::proofs::Lending::all_misses))]

ghost use Rattle.std.specs.Prelude.{[], ◌≡◌, ◌≤◌, ◌↔◌, ℕ, List, length, IsTrue, IfSome, IfNone, None};
ghost use Rattle.heap_model.specs.Heap.{HeapAccepted};
ghost use Rattle.heap_model.specs.Store.{most_databases, IsInfoBlock};
ghost use Rattle.heap_check.specs.Faults.{FirstBrought};
ghost use Rattle.heap_check.specs.Owners.{HasOwners};
ghost use Rattle.store_check.specs.Listing.{IsGoodDirectory, NotesListed, HaveHeaders};
ghost use Rattle.store_check.specs.Faults.{HasDatabaseHeader, header_faults, NoneBrought};

use crate::fault::StoreFault;
use crate::lookup::{Body, bytes_of, find_header};
use crate::owners::is_for_data;
use crate::words::listed_count;
use db_format::{app_info, is_whole, sort_info};
use raw_region::Region;

/// Returns whether an info word names no chunk, or one for data.
fn is_info_block(slot: u32, owners: &[u8]) -> bool
    ensures { (image : List ℕ) → HeapAccepted image → HasOwners image owners.now
        → (IsTrue result ↔ IsInfoBlock image slot) }
{
    slot == 0 || is_for_data(slot, owners)
}

/// Returns whether the bytes are a whole header and its entries, and its info blocks are there.
fn has_header(bytes: &[u8], owners: &[u8]) -> bool
    ensures { (image : List ℕ) → HeapAccepted image → HasOwners image owners.now
        → (IsTrue result ↔ HasDatabaseHeader image bytes.now) }
{
    is_whole(bytes)
        && is_info_block(app_info(bytes), owners)
        && is_info_block(sort_info(bytes), owners)
}

/// Returns the first database with a bad header. If there is none, a prefix of the table has all
/// headers.
pub(crate) fn find_bad_header(
    region: &Region,
    directory: &[u8],
    owners: &[u8],
    table: &mut [Body],
) -> Option<StoreFault>
    requires whole { region.now.lents ≡ [] }
    requires owners { HasOwners region.now.bytes owners.now }
    requires listing { IsGoodDirectory region.now.bytes directory.now }
    requires room { most_databases ≤ length table.old }
    ensures some { IfSome result (FirstBrought (header_faults region.now.bytes)) }
    ensures none { IfNone result (NoneBrought (header_faults region.now.bytes)) }
    ensures headers { IfNone result (HaveHeaders region.now.bytes) }
    ensures noted { IfNone result (NotesListed region.now.bytes table.new) }
{
    for db in 0..listed_count(directory) {
        let header = find_header(region, directory, db);
        table[db] = header;
        if !has_header(bytes_of(region, header), owners) {
            return Some(StoreFault::BadHeader(db as u32));
        }
    }
    None
}
