//! Calls on a store as text, each a word and numbers: `new_record 16 0 8`, `find_resource 16 code
//! 1`.

use crate::notation::{as_u8, memory_call_of, words_of};
use heap_model::{Call, DatabaseCall, Db, FileCall, Name, RecordCall, ResourceCall, Which};
use std::alloc::Global;
use std::test::Fail;

/// The call of a text.
pub(crate) fn call_of(alloc: Global, text: &str) -> Result<Call, Fail> {
    let (word, numbers) = words_of(alloc, text)?;
    let call = match numbers.as_slice() {
        [] if word == "count" => Some(Call::Database(DatabaseCall::Count)),
        [first] => call_on(word, *first),
        [db, index] => call_at(word, Db(*db), *index),
        [db, first, second] => call_with(word, Db(*db), *first, *second),
        [db, first, second, third] => call_with_more(word, Db(*db), *first, *second, *third),
        _ => None,
    };
    match call {
        Some(call) => Ok(call),
        None => Ok(Call::Memory(memory_call_of(alloc, text)?)),
    }
}

/// A call with one number.
fn call_on(word: &str, first: u32) -> Option<Call> {
    match word {
        "delete" => Some(Call::Database(DatabaseCall::Delete(Db(first)))),
        "nth" => Some(Call::Database(DatabaseCall::Nth(first))),
        "app_info" => Some(Call::Database(DatabaseCall::InfoBlock(Db(first), Which::App))),
        "export" => Some(Call::File(FileCall::Export(Db(first)))),
        "num_resources" => Some(Call::Resource(ResourceCall::Count(Db(first)))),
        _ => None,
    }
}

/// A call with an index, an ID or a category.
fn call_at(word: &str, db: Db, index: u32) -> Option<Call> {
    match word {
        "record_info" => Some(Call::Record(RecordCall::Info(db, index))),
        "remove" => Some(Call::Record(RecordCall::Remove(db, index))),
        "find_by_id" => Some(Call::Record(RecordCall::FindById(db, index))),
        "num_in_category" => Some(Call::Record(RecordCall::CountInCategory(db, as_u8(index)))),
        "delete_category" => Some(Call::Record(RecordCall::DeleteCategory(db, as_u8(index)))),
        "resource_info" => Some(Call::Resource(ResourceCall::Info(db, index))),
        "remove_resource" => Some(Call::Resource(ResourceCall::Remove(db, index))),
        _ => None,
    }
}

/// A call with two numbers after the database. What a category is moved from and to becomes dirty.
fn call_with(word: &str, db: Db, first: u32, second: u32) -> Option<Call> {
    match word {
        "new_record" => Some(Call::Record(RecordCall::New {
            db,
            at: first,
            size: second,
        })),
        "attach" => Some(Call::Record(RecordCall::Attach {
            db,
            at: first,
            name: Name(second),
        })),
        "move_category" => Some(Call::Record(RecordCall::MoveCategory {
            db,
            to: as_u8(first),
            from: as_u8(second),
            dirty: true,
        })),
        "find_resource" => Some(Call::Resource(ResourceCall::Find {
            db,
            kind: first,
            id: as_u16(second),
        })),
        "find_type" => Some(Call::Resource(ResourceCall::FindType {
            db,
            kind: first,
            nth: second,
        })),
        _ => None,
    }
}

/// A call with three numbers after the database.
fn call_with_more(word: &str, db: Db, first: u32, second: u32, third: u32) -> Option<Call> {
    match word {
        "set_record_info" => Some(Call::Record(RecordCall::SetInfo {
            db,
            index: first,
            attributes: as_u8(second),
            id: third,
        })),
        "new_resource" => Some(Call::Resource(ResourceCall::New {
            db,
            kind: first,
            id: as_u16(second),
            size: third,
        })),
        _ => None,
    }
}

fn as_u16(number: u32) -> u16 {
    u16::try_from(number).unwrap_or(u16::MAX)
}
