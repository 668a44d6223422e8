//! Searches of records.

ghost use Rattle.std.specs.Prelude.{◌≡◌, ◌≤◌, false, length, slice_get, take, count_by, IfSome, IfNone};
ghost use Rattle.heap_model.specs.Database.{has_resources};
ghost use Rattle.heap_model.specs.EntrySteps.{OfEntry, HasId};
ghost use Rattle.heap_model.specs.Categories.{is_of, IsOf};
ghost use Rattle.palm_store.specs.Search.{IsFirst, NoneBehind};

use crate::attributes::has_category;
use db_format::DatabaseView;

/// Counts the records of a category among the first `end`.
pub(crate) fn count_of(records: &DatabaseView, category: u8, end: u32) -> u32
    requires records { has_resources records.now.header.attributes ≡ false }
    requires inside { end ≤ length records.now.entries }
    ensures { result ≡ count_by (is_of category) (take end records.now.entries) }
{
    let mut count = 0;
    for index in 0..end {
        if has_category(records.record(index).attributes, category) {
            count += 1;
        }
    }
    count
}

/// Returns the index of the first record, from an index on, that is of a category.
#[inline]
pub(crate) fn first_of(records: &DatabaseView, from: u32, category: u8) -> Option<u32>
    requires { has_resources records.now.header.attributes ≡ false }
    ensures is { IfSome result (IsFirst records.now.entries from (IsOf category)) }
    ensures none { IfNone result (NoneBehind records.now.entries from (IsOf category)) }
{
    for index in from..records.entry_count() {
        if has_category(records.record(index).attributes, category) {
            return Some(index);
        }
    }
    None
}

/// Returns the index of the record that has a unique ID.
pub(crate) fn find_id(records: &DatabaseView, id: u32) -> Option<u32>
    requires { has_resources records.now.header.attributes ≡ false }
    ensures is { IfSome result (λ index. OfEntry (slice_get records.now.entries index) (HasId id)) }
    ensures none { IfNone result (NoneBehind records.now.entries 0 (HasId id)) }
{
    for index in 0..records.entry_count() {
        if records.record_id(index) == id {
            return Some(index);
        }
    }
    None
}
