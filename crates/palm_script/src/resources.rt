//! Calls on resources.

ghost use Rattle.std.specs.Prelude.{◌≡◌, ◌≢◌};
ghost use Rattle.heap_model.specs.ResourceSteps.{resource_call};
ghost use Rattle.heap_model.specs.StoreSteps.{DoesInStore};
ghost use Rattle.heap_model.specs.declared.call.Call as calls;
ghost use Rattle.heap_model.specs.declared.call.Reply.{Reply};
ghost use Rattle.heap_model.specs.declared.refusal.Refusal.{Refusal};

use heap_model::{Db, Name, Reply, ResourceCall};
use palm_store::Store;
use resource_db::{
    attach_resource, detach_resource, find_resource, find_type, new_resource, num_resources,
    remove_resource, resize_resource, resource_info, set_resource_info,
};
use script_calls::{Given, done, made, named, number, resource};

/// Does a call on resources and returns its reply.
pub(crate) fn do_resource_call<C: Given<Name>, D: Given<Db>>(
    store: &mut Store,
    names: &[Name],
    databases: &[Db],
    call: &ResourceCall<C, D>,
) -> Reply
    ensures does { DoesInStore store.old (calls.Call.Resource
        (resource_call (λ chunk. C.meant chunk names.now) (λ db. D.meant db databases.now) call.now))
        result store.new }
    ensures takes_no_memory { result ≢ Reply.Refused Refusal.OutOfMemory }
{
    match call {
        ResourceCall::New { db, kind, id, size } => {
            made(new_resource(store, db.among(databases), *kind, *id, *size))
        }
        ResourceCall::Attach { db, kind, id, name } => number(attach_resource(
            store,
            db.among(databases),
            *kind,
            *id,
            name.among(names),
        )),
        ResourceCall::Detach { db, index, owner } => {
            named(detach_resource(store, db.among(databases), *index, *owner))
        }
        ResourceCall::Remove(db, index) => {
            done(remove_resource(store, db.among(databases), *index))
        }
        ResourceCall::Resize { db, index, size } => {
            done(resize_resource(store, db.among(databases), *index, *size))
        }
        ResourceCall::Info(db, index) => {
            resource(resource_info(store, db.among(databases), *index))
        }
        ResourceCall::SetInfo {
            db,
            index,
            kind,
            id,
        } => done(set_resource_info(store, db.among(databases), *index, *kind, *id)),
        ResourceCall::Find { db, kind, id } => {
            number(find_resource(store, db.among(databases), *kind, *id))
        }
        ResourceCall::FindType { db, kind, nth } => {
            number(find_type(store, db.among(databases), *kind, *nth))
        }
        ResourceCall::Count(db) => number(num_resources(store, db.among(databases))),
    }
}
