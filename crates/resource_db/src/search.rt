//! Searches of resources.

ghost use Rattle.std.specs.Prelude.{◌≡◌, ◌≤◌, true, count_by, IfSome, IfNone};
ghost use Rattle.heap_model.specs.Database.{has_resources};
ghost use Rattle.heap_model.specs.ResourceSteps.{has_type, HasTypeAndId};
ghost use Rattle.palm_store.specs.Search.{IsFirst, NoneBehind};
ghost use Rattle.resource_db.specs.Resources.{IsNth};

use db_format::DatabaseView;

/// Returns the index of the first resource of a type and an ID.
pub(crate) fn first_with(resources: &DatabaseView, kind: u32, id: u16) -> Option<u32>
    requires { has_resources resources.now.header.attributes ≡ true }
    ensures is { IfSome result (IsFirst resources.now.entries 0 (HasTypeAndId kind id)) }
    ensures none { IfNone result (NoneBehind resources.now.entries 0 (HasTypeAndId kind id)) }
{
    for index in 0..resources.entry_count() {
        let resource = resources.resource(index);
        if resource.kind == kind && resource.id == id {
            return Some(index);
        }
    }
    None
}

/// Returns the index of the resource of a type with `nth` others of the type before it.
#[tactic(auto, using(palm_store::proofs::SearchLaws::counted_all))]
pub(crate) fn nth_of_type(resources: &DatabaseView, kind: u32, nth: u32) -> Option<u32>
    requires { has_resources resources.now.header.attributes ≡ true }
    ensures is { IfSome result (IsNth resources.now.entries kind nth) }
    ensures none { IfNone result (count_by (has_type kind) resources.now.entries ≤ nth) }
{
    let mut passed = 0;
    for index in 0..resources.entry_count() {
        if resources.resource(index).kind == kind {
            if passed == nth {
                return Some(index);
            }
            passed += 1;
        }
    }
    None
}
