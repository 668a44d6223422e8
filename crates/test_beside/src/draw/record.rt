//! Calls on records.

use crate::draw::database::any_db;
use crate::draw::memory::{any_name, any_owner, any_size};
use crate::draw::numbers::{any_byte, any_flag, any_word, below, below_u8};
use heap_model::{Db, RecordCall};
use rand::seq::IndexedRandom;
use rand_pcg::Pcg32;
use test_model::{Database, Image};

/// An index: most often one below a count, else the count, one above it, or a very large one.
pub(crate) fn any_index(random: &mut Pcg32, count: u32) -> u32 {
    match below(random, 16) {
        0 => count,
        1 => count.saturating_add(1),
        2 => u32::MAX,
        _ => below(random, count),
    }
}

/// How many entries a database has, 0 where there is none of this number.
pub(crate) fn entries_of(databases: &[Database], db: Db) -> u32 {
    for database in databases {
        if database.db == db {
            return u32::try_from(database.entry_count()).unwrap_or(u32::MAX);
        }
    }
    0
}

/// The ID of a record of some database, 0 where that has none.
fn known_id(random: &mut Pcg32, databases: &[Database]) -> u32 {
    match databases.choose(random) {
        Some(database) => match database.records.choose(random) {
            Some(record) => record.id,
            None => 0,
        },
        None => 0,
    }
}

/// An ID: most often that of a record, else the same with a bit above the 24 that an ID has, a
/// small one, or any number.
fn any_id(random: &mut Pcg32, databases: &[Database]) -> u32 {
    match below(random, 8) {
        0 => known_id(random, databases) | 0x0100_0000,
        1 => below(random, 16),
        2 => any_word(random),
        _ => known_id(random, databases),
    }
}

/// A category: most often one of the first, else any of them, the number after the last, what
/// stands for all, or any number.
fn any_category(random: &mut Pcg32) -> u8 {
    match below(random, 12) {
        0 => 16,
        1 => 0xFF,
        2 => any_byte(random),
        3..=4 => below_u8(random, 16),
        _ => below_u8(random, 3),
    }
}

/// Attributes: any of the bits, most often with one of the first categories.
fn any_attributes(random: &mut Pcg32) -> u8 {
    below_u8(random, 16).wrapping_mul(16) | any_category(random) % 16
}

/// A call on records.
pub(crate) fn record_call(random: &mut Pcg32, image: &Image, databases: &[Database]) -> RecordCall {
    let db = any_db(random, image, databases);
    let count = entries_of(databases, db);
    let index = any_index(random, count);
    match below(random, 56) {
        0..=16 => changing_call(random, image, db, index),
        17..=19 => RecordCall::Move {
            db,
            from: index,
            to: any_index(random, count),
        },
        20..=31 => using_call(random, image, db, index),
        32..=33 => RecordCall::Detach {
            db,
            index,
            owner: any_owner(random),
        },
        34..=36 => RecordCall::SetInfo {
            db,
            index,
            attributes: any_attributes(random),
            id: any_id(random, databases),
        },
        37..=38 => RecordCall::FindById(db, any_id(random, databases)),
        39..=47 => category_call(random, db, index),
        _ => giving_call(random, image, db, index),
    }
}

/// A call by which any chunk is to become the data of a record.
fn giving_call(random: &mut Pcg32, image: &Image, db: Db, index: u32) -> RecordCall {
    let name = any_name(random, &image.pieces);
    match below(random, 2) {
        0 => RecordCall::Attach {
            db,
            at: index,
            name,
        },
        _ => RecordCall::AttachReplacing {
            db,
            index,
            name,
            owner: any_owner(random),
        },
    }
}

/// A call that makes, deletes or removes a record.
fn changing_call(random: &mut Pcg32, image: &Image, db: Db, index: u32) -> RecordCall {
    match below(random, 16) {
        0..=10 => RecordCall::New {
            db,
            at: index,
            size: any_size(random, image.largest_room()),
        },
        11..=12 => RecordCall::Delete(db, index),
        13 => RecordCall::Archive(db, index),
        _ => RecordCall::Remove(db, index),
    }
}

/// A call that takes a record into use or out of it, asks for it, or gives its data another length.
fn using_call(random: &mut Pcg32, image: &Image, db: Db, index: u32) -> RecordCall {
    match below(random, 14) {
        0..=2 => RecordCall::Get(db, index),
        3 => RecordCall::Query(db, index),
        4..=6 => RecordCall::Release {
            db,
            index,
            dirty: any_flag(random),
        },
        7..=8 => RecordCall::Info(db, index),
        9..=12 => RecordCall::Resize {
            db,
            index,
            size: any_size(random, image.largest_room()),
        },
        _ => RecordCall::Count(db),
    }
}

/// A call on a category.
fn category_call(random: &mut Pcg32, db: Db, index: u32) -> RecordCall {
    let category = any_category(random);
    match below(random, 9) {
        0 => RecordCall::CountInCategory(db, category),
        1..=2 => RecordCall::NextInCategory {
            db,
            from: index,
            category,
        },
        3..=4 => RecordCall::PositionInCategory {
            db,
            index,
            category,
        },
        5..=6 => RecordCall::MoveCategory {
            db,
            to: any_category(random),
            from: category,
            dirty: any_flag(random),
        },
        _ => RecordCall::DeleteCategory(db, category),
    }
}
