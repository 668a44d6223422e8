//! Calls on resources.

use crate::draw::database::any_db;
use crate::draw::memory::{any_name, any_owner, any_size};
use crate::draw::numbers::{below, below_u16};
use crate::draw::record::{any_index, entries_of};
use heap_model::{Db, ResourceCall};
use rand::seq::IndexedRandom;
use rand_pcg::Pcg32;
use test_model::{Database, Image, Resource};

/// Types, few enough that many resources have the same, and alike but for one byte.
const TYPES: [u32; 4] = [0x636F_6465, 0x636F_6466, 0x646F_6465, 0x7453_5452];

/// The resources of a database, none where there is none of this number, or it has records.
fn resources_of(databases: &[Database], db: Db) -> &[Resource] {
    for database in databases {
        if database.db == db {
            return &database.resources;
        }
    }
    &[]
}

/// A number of a database: where it is easily found, that of one with resources.
fn any_resource_db(random: &mut Pcg32, image: &Image, databases: &[Database]) -> Db {
    for _ in 0..2u32 {
        let db = any_db(random, image, databases);
        if !resources_of(databases, db).is_empty() {
            return db;
        }
    }
    any_db(random, image, databases)
}

/// A type and an ID: often those of a resource, or one of both, else any of a few.
fn any_kind_and_id(random: &mut Pcg32, resources: &[Resource]) -> (u32, u16) {
    let kind = *TYPES.choose(random).unwrap_or(&0);
    let id = match below(random, 8) {
        0 => u16::MAX,
        _ => below_u16(random, 4),
    };
    match resources.choose(random) {
        Some(known) => match below(random, 8) {
            0 => (known.kind, id),
            1 => (kind, known.id),
            2..=4 => (kind, id),
            _ => (known.kind, known.id),
        },
        None => (kind, id),
    }
}

/// How many others of a type are to come before it: few, or very many.
fn any_nth(random: &mut Pcg32) -> u32 {
    match below(random, 8) {
        0 => u32::MAX,
        1..=4 => 0,
        _ => below(random, 4),
    }
}

/// A call on resources.
pub(crate) fn resource_call(
    random: &mut Pcg32,
    image: &Image,
    databases: &[Database],
) -> ResourceCall {
    let db = any_resource_db(random, image, databases);
    let index = any_index(random, entries_of(databases, db));
    let (kind, id) = any_kind_and_id(random, resources_of(databases, db));
    match below(random, 24) {
        0..=11 => changing_call(random, image, db, index, (kind, id)),
        12..=14 => ResourceCall::Detach {
            db,
            index,
            owner: any_owner(random),
        },
        15..=16 => ResourceCall::SetInfo {
            db,
            index,
            kind,
            id,
        },
        _ => asking_call(random, db, index, (kind, id)),
    }
}

/// A call that makes, resizes or removes a resource, or by which any chunk is to become the data of
/// one.
fn changing_call(
    random: &mut Pcg32,
    image: &Image,
    db: Db,
    index: u32,
    (kind, id): (u32, u16),
) -> ResourceCall {
    match below(random, 12) {
        0..=4 => ResourceCall::New {
            db,
            kind,
            id,
            size: any_size(random, image.largest_room()),
        },
        5..=7 => ResourceCall::Attach {
            db,
            kind,
            id,
            name: any_name(random, &image.pieces),
        },
        8..=9 => ResourceCall::Resize {
            db,
            index,
            size: any_size(random, image.largest_room()),
        },
        _ => ResourceCall::Remove(db, index),
    }
}

/// A call that only asks.
fn asking_call(random: &mut Pcg32, db: Db, index: u32, (kind, id): (u32, u16)) -> ResourceCall {
    match below(random, 7) {
        0..=1 => ResourceCall::Info(db, index),
        2..=3 => ResourceCall::Find { db, kind, id },
        4..=5 => ResourceCall::FindType {
            db,
            kind,
            nth: any_nth(random),
        },
        _ => ResourceCall::Count(db),
    }
}
