//! Calls on the resources of a database (Palm OS Programmer's API Reference, "Data Manager").
//! Resources are counted from 0. The contract of each function is the step of the abstract store
//! for its call.

ghost use Rattle.std.specs.Prelude.{◌≡◌, ◌≢◌};
ghost use Rattle.heap_model.specs.declared.call.Call as calls;
ghost use Rattle.heap_model.specs.declared.call.ResourceCall.{ResourceCall};
ghost use Rattle.heap_model.specs.declared.call.Reply.{Reply};
ghost use Rattle.palmheap_c.specs.Calls.{DoesInC, as_name, as_db};
ghost use Rattle.palmheap_c.specs.Infos.{resource_from_c};

use crate::calls::refused;
use crate::infos::{ResourceInfo, of_resource};
use crate::kept::Kept;
use heap_model::{Db, Name};
use resource_db::{
    attach_resource, detach_resource, find_resource, find_type, new_resource, num_resources,
    remove_resource, resize_resource, resource_info, set_resource_info,
};

/// Makes a resource of `size` zeros, after all others. Sets `index` to its index, and `name` to the
/// chunk of its data.
///
/// # Errors
/// The refusals 10, 12, 13, 17, 8, in this order.
#[unsafe(no_mangle)]
pub extern "C" fn palmheap_DmNewResource(
    store: &mut Kept,
    db: u32,
    kind: u32,
    id: u16,
    size: u32,
    index: &mut u32,
    name: &mut u32,
) -> u32
    ensures does { DoesInC store.old.store
        (calls.Call.Resource (ResourceCall.New (as_db db) kind id size))
        (Reply.Made index.new (as_name name.new)) result store.new.store }
    ensures left_index { result ≢ 0 → index.new ≡ index.old }
    ensures left_name { result ≢ 0 → name.new ≡ name.old }
{
    match new_resource(store.as_mut(), Db(db), kind, id, size) {
        Ok((made, data)) => {
            *index = made;
            *name = data.0;
            0
        }
        Err(refusal) => refused(refusal),
    }
}

/// Makes a movable chunk the data of a new resource, after all others. Sets `index` to the index of
/// the resource.
///
/// # Errors
/// The refusals 10, 12, 13, 1, 2, 6, 17, 8, in this order.
#[unsafe(no_mangle)]
pub extern "C" fn palmheap_DmAttachResource(
    store: &mut Kept,
    db: u32,
    kind: u32,
    id: u16,
    name: u32,
    index: &mut u32,
) -> u32
    ensures does { DoesInC store.old.store
        (calls.Call.Resource (ResourceCall.Attach (as_db db) kind id (as_name name)))
        (Reply.Number index.new) result store.new.store }
    ensures left { result ≢ 0 → index.new ≡ index.old }
{
    match attach_resource(store.as_mut(), Db(db), kind, id, Name(name)) {
        Ok(answer) => {
            *index = answer;
            0
        }
        Err(refusal) => refused(refusal),
    }
}

/// Removes a resource, and gives its data to an owner. Sets `name` to the name of the data.
///
/// # Errors
/// The refusals 10, 12, 13, 14, 7, in this order.
#[unsafe(no_mangle)]
pub extern "C" fn palmheap_DmDetachResource(
    store: &mut Kept,
    db: u32,
    index: u32,
    owner: u8,
    name: &mut u32,
) -> u32
    ensures does { DoesInC store.old.store
        (calls.Call.Resource (ResourceCall.Detach (as_db db) index owner))
        (Reply.Named (as_name name.new)) result store.new.store }
    ensures left { result ≢ 0 → name.new ≡ name.old }
{
    match detach_resource(store.as_mut(), Db(db), index, owner) {
        Ok(answer) => {
            *name = answer.0;
            0
        }
        Err(refusal) => refused(refusal),
    }
}

/// Removes a resource, and frees its data.
///
/// # Errors
/// The refusals 10, 12, 13, 14, 3, in this order.
#[unsafe(no_mangle)]
pub extern "C" fn palmheap_DmRemoveResource(store: &mut Kept, db: u32, index: u32) -> u32
    ensures does { DoesInC store.old.store
        (calls.Call.Resource (ResourceCall.Remove (as_db db) index))
        Reply.Done result store.new.store }
{
    match remove_resource(store.as_mut(), Db(db), index) {
        Ok(()) => 0,
        Err(refusal) => refused(refusal),
    }
}

/// Resizes the data of a resource to `size` bytes.
///
/// # Errors
/// The refusals 10, 12, 13, 14, 27, 3, 8, in this order.
#[unsafe(no_mangle)]
pub extern "C" fn palmheap_DmResizeResource(store: &mut Kept, db: u32, index: u32, size: u32) -> u32
    ensures does { DoesInC store.old.store
        (calls.Call.Resource (ResourceCall.Resize (as_db db) index size))
        Reply.Done result store.new.store }
{
    match resize_resource(store.as_mut(), Db(db), index, size) {
        Ok(()) => 0,
        Err(refusal) => refused(refusal),
    }
}

/// Reads the entry of a resource: its type, its ID, and the chunk of its data.
///
/// # Errors
/// The refusals 10, 12, 14, in this order.
#[unsafe(no_mangle)]
pub extern "C" fn palmheap_DmResourceInfo(
    store: &mut Kept,
    db: u32,
    index: u32,
    info: &mut ResourceInfo,
) -> u32
    ensures does { DoesInC store.old.store
        (calls.Call.Resource (ResourceCall.Info (as_db db) index))
        (Reply.Resource (resource_from_c info.new)) result store.new.store }
    ensures left { result ≢ 0 → info.new ≡ info.old }
    ensures same { store.new.store ≡ store.old.store }
{
    match resource_info(store.as_mut(), Db(db), index) {
        Ok(answer) => {
            *info = of_resource(answer);
            0
        }
        Err(refusal) => refused(refusal),
    }
}

/// Sets the type and the ID of a resource.
///
/// # Errors
/// The refusals 10, 12, 13, 14, in this order.
#[unsafe(no_mangle)]
pub extern "C" fn palmheap_DmSetResourceInfo(
    store: &mut Kept,
    db: u32,
    index: u32,
    kind: u32,
    id: u16,
) -> u32
    ensures does { DoesInC store.old.store
        (calls.Call.Resource (ResourceCall.SetInfo (as_db db) index kind id))
        Reply.Done result store.new.store }
{
    match set_resource_info(store.as_mut(), Db(db), index, kind, id) {
        Ok(()) => 0,
        Err(refusal) => refused(refusal),
    }
}

/// Sets `index` to the index of the first resource with this type and ID.
///
/// # Errors
/// The refusals 10, 12, 23, in this order.
#[unsafe(no_mangle)]
pub extern "C" fn palmheap_DmFindResource(
    store: &mut Kept,
    db: u32,
    kind: u32,
    id: u16,
    index: &mut u32,
) -> u32
    ensures does { DoesInC store.old.store
        (calls.Call.Resource (ResourceCall.Find (as_db db) kind id))
        (Reply.Number index.new) result store.new.store }
    ensures left { result ≢ 0 → index.new ≡ index.old }
    ensures same { store.new.store ≡ store.old.store }
{
    match find_resource(store.as_mut(), Db(db), kind, id) {
        Ok(answer) => {
            *index = answer;
            0
        }
        Err(refusal) => refused(refusal),
    }
}

/// Sets `index` to the index of the resource of a type that has `nth` others of the type before it.
///
/// # Errors
/// The refusals 10, 12, 23, in this order.
#[unsafe(no_mangle)]
pub extern "C" fn palmheap_DmFindResourceType(
    store: &mut Kept,
    db: u32,
    kind: u32,
    nth: u32,
    index: &mut u32,
) -> u32
    ensures does { DoesInC store.old.store
        (calls.Call.Resource (ResourceCall.FindType (as_db db) kind nth))
        (Reply.Number index.new) result store.new.store }
    ensures left { result ≢ 0 → index.new ≡ index.old }
    ensures same { store.new.store ≡ store.old.store }
{
    match find_type(store.as_mut(), Db(db), kind, nth) {
        Ok(answer) => {
            *index = answer;
            0
        }
        Err(refusal) => refused(refusal),
    }
}

/// Sets `count` to the number of resources.
///
/// # Errors
/// The refusals 10, 12, in this order.
#[unsafe(no_mangle)]
pub extern "C" fn palmheap_DmNumResources(store: &mut Kept, db: u32, count: &mut u32) -> u32
    ensures does { DoesInC store.old.store (calls.Call.Resource (ResourceCall.Count (as_db db)))
        (Reply.Number count.new) result store.new.store }
    ensures left { result ≢ 0 → count.new ≡ count.old }
    ensures same { store.new.store ≡ store.old.store }
{
    match num_resources(store.as_mut(), Db(db)) {
        Ok(answer) => {
            *count = answer;
            0
        }
        Err(refusal) => refused(refusal),
    }
}
