//! Calls on databases.

use crate::draw::memory::{any_name, any_owner};
use crate::draw::numbers::{any_flag, any_word, below, below_u16};
use heap_model::{DatabaseCall, Db, DbInfo, DbName, Which};
use rand::seq::IndexedRandom;
use rand_pcg::Pcg32;
use test_model::{Database, Image};

/// Names that databases may have, some alike, and below them names that they may not have.
const NAMES: [&[u8]; 10] = [
    b"a",
    b"ab",
    b"abc",
    b"b",
    b"0123456789012345678901234567890",
    b"0123456789012345678901234567891",
    b"",
    b"a\0",
    b"01234567890123456789012345678901",
    b"0123456789012345678901234567890123456789",
];

pub(crate) fn any_db_name(random: &mut Pcg32) -> DbName {
    match NAMES.choose(random) {
        Some(name) => DbName::of(name),
        None => DbName::of(b""),
    }
}

/// A number: most often that of a database, else the name of a chunk or of none.
pub(crate) fn any_db(random: &mut Pcg32, image: &Image, databases: &[Database]) -> Db {
    match databases.choose(random) {
        Some(database) if below(random, 6) > 0 => database.db,
        _ => Db(any_name(random, &image.pieces).0),
    }
}

fn any_info(random: &mut Pcg32) -> DbInfo {
    DbInfo {
        name: any_db_name(random),
        attributes: below_u16(random, u16::MAX),
        version: below_u16(random, u16::MAX),
        creation_date: any_word(random),
        modification_date: any_word(random),
        backup_date: any_word(random),
        modification_number: any_word(random),
        kind: any_word(random),
        creator: any_word(random),
        seed: any_word(random),
        entry_count: below_u16(random, u16::MAX),
    }
}

fn any_which(random: &mut Pcg32) -> Which {
    if any_flag(random) {
        Which::App
    } else {
        Which::Sort
    }
}

/// A call on an info block, of any chunk.
fn block_call(random: &mut Pcg32, image: &Image, db: Db) -> DatabaseCall {
    let which = any_which(random);
    match below(random, 8) {
        0..=3 => DatabaseCall::SetInfoBlock {
            db,
            which,
            name: any_name(random, &image.pieces),
        },
        4..=5 => DatabaseCall::TakeInfoBlock {
            db,
            which,
            owner: any_owner(random),
        },
        _ => DatabaseCall::InfoBlock(db, which),
    }
}

/// A call on databases, seldom one that deletes one.
pub(crate) fn database_call(
    random: &mut Pcg32,
    image: &Image,
    databases: &[Database],
) -> DatabaseCall {
    match below(random, 32) {
        0..=6 => DatabaseCall::Create {
            name: any_db_name(random),
            kind: any_word(random),
            creator: any_word(random),
            resources: any_flag(random),
            date: any_word(random),
        },
        7..=9 => DatabaseCall::Delete(any_db(random, image, databases)),
        10..=12 => DatabaseCall::Find(any_db_name(random)),
        13..=15 => DatabaseCall::Nth(below(random, 6)),
        16 => DatabaseCall::Count,
        17..=19 => DatabaseCall::Info(any_db(random, image, databases)),
        20..=23 => DatabaseCall::SetInfo(any_db(random, image, databases), any_info(random)),
        _ => {
            let db = any_db(random, image, databases);
            block_call(random, image, db)
        }
    }
}
