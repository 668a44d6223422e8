//! Calls on records.

ghost use Rattle.std.specs.Prelude.{◌≡◌, ◌≢◌};
ghost use Rattle.heap_model.specs.RecordSteps.{record_call};
ghost use Rattle.heap_model.specs.StoreSteps.{DoesInStore};
ghost use Rattle.heap_model.specs.declared.call.Call as calls;
ghost use Rattle.heap_model.specs.declared.call.Reply.{Reply};
ghost use Rattle.heap_model.specs.declared.refusal.Refusal.{Refusal};

use heap_model::{Db, Name, RecordCall, Reply};
use palm_store::Store;
use record_db::{
    archive, attach, attach_replacing, delete, delete_category, detach, find_by_id, get,
    move_category, move_record, new_record, next_in_category, num_in_category, num_records,
    position_in_category, query, record_info, release, remove, resize_record, set_record_info,
};
use script_calls::{Given, done, made, named, number, record};

/// Does a call on records and returns its reply.
pub(crate) fn do_record_call<C: Given<Name>, D: Given<Db>>(
    store: &mut Store,
    names: &[Name],
    databases: &[Db],
    call: &RecordCall<C, D>,
) -> Reply
    ensures does { DoesInStore store.old (calls.Call.Record
        (record_call (λ chunk. C.meant chunk names.now) (λ db. D.meant db databases.now) call.now))
        result store.new }
    ensures takes_no_memory { result ≢ Reply.Refused Refusal.OutOfMemory }
{
    match call {
        RecordCall::New { db, at, size } => {
            made(new_record(store, db.among(databases), *at, *size))
        }
        RecordCall::Delete(db, index) => done(delete(store, db.among(databases), *index)),
        RecordCall::Archive(db, index) => done(archive(store, db.among(databases), *index)),
        RecordCall::Remove(db, index) => done(remove(store, db.among(databases), *index)),
        RecordCall::Move { db, from, to } => {
            done(move_record(store, db.among(databases), *from, *to))
        }
        RecordCall::Get(db, index) => named(get(store, db.among(databases), *index)),
        RecordCall::Query(db, index) => named(query(store, db.among(databases), *index)),
        RecordCall::Release { db, index, dirty } => {
            done(release(store, db.among(databases), *index, *dirty))
        }
        RecordCall::Info(db, index) => record(record_info(store, db.among(databases), *index)),
        RecordCall::Resize { db, index, size } => {
            done(resize_record(store, db.among(databases), *index, *size))
        }
        RecordCall::Count(db) => number(num_records(store, db.among(databases))),
        RecordCall::Attach { db, at, name } => {
            number(attach(store, db.among(databases), *at, name.among(names)))
        }
        RecordCall::AttachReplacing {
            db,
            index,
            name,
            owner,
        } => named(attach_replacing(
            store,
            db.among(databases),
            *index,
            name.among(names),
            *owner,
        )),
        RecordCall::Detach { db, index, owner } => {
            named(detach(store, db.among(databases), *index, *owner))
        }
        RecordCall::SetInfo {
            db,
            index,
            attributes,
            id,
        } => done(set_record_info(store, db.among(databases), *index, *attributes, *id)),
        RecordCall::FindById(db, id) => number(find_by_id(store, db.among(databases), *id)),
        RecordCall::CountInCategory(db, category) => {
            number(num_in_category(store, db.among(databases), *category))
        }
        RecordCall::NextInCategory { db, from, category } => {
            number(next_in_category(store, db.among(databases), *from, *category))
        }
        RecordCall::PositionInCategory {
            db,
            index,
            category,
        } => number(position_in_category(store, db.among(databases), *index, *category)),
        RecordCall::MoveCategory {
            db,
            to,
            from,
            dirty,
        } => done(move_category(store, db.among(databases), *to, *from, *dirty)),
        RecordCall::DeleteCategory(db, category) => {
            done(delete_category(store, db.among(databases), *category))
        }
    }
}
