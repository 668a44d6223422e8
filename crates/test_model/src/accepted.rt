//! Which heaps are accepted with their databases, and the databases that these have
//! (docs/FORMAT.md).

use crate::database::{DELETED, Database, Record};
use crate::image::{Image, u32_at};
use heap_model::{Db, Name};
use std::alloc::{AllocError, Global};

/// The most databases of a store.
pub(crate) const MOST_DATABASES: usize = 1024;

/// Why an accepted heap is no accepted store, or that an allocation failed.
#[derive(Clone, Copy, Debug)]
pub enum Unaccepted {
    Memory,
    /// The directory isn't a list of slots of headers, each once.
    Directory,
    /// The header of this database, or the list of its entries, is out of shape.
    Header(Db),
    /// A record that isn't deleted has no data.
    Record(Db),
    /// A database names this, and it is no chunk of a database's.
    Named(Name),
    /// The chunk of this name is a database's, and isn't named just once; or it is the manager's,
    /// and neither the directory nor a header that is listed.
    Chunk(Name),
    /// An ID in this database is 0 or stands there twice.
    Id(Db),
    /// The name of this database isn't spelled as names are, or is that of another one.
    Name(Db),
}

impl From<AllocError> for Unaccepted {
    fn from(_: AllocError) -> Unaccepted {
        Unaccepted::Memory
    }
}

/// The databases of an image, in the order of the directory. Refused where the image isn't accepted
/// with them.
pub(crate) fn databases_of(alloc: Global, image: &Image) -> Result<Vec<Database>, Unaccepted> {
    let headers = headers_of(alloc, image)?;
    let mut databases = Vec::new(alloc);
    for header in &headers {
        add_database(alloc, image, *header, &mut databases)?;
    }
    check_owned(alloc, image, &headers, &databases)?;
    Ok(databases)
}

/// Adds the database of a header to others, none of which has its name.
fn add_database(
    alloc: Global,
    image: &Image,
    header: Name,
    databases: &mut Vec<Database>,
) -> Result<(), Unaccepted> {
    let Some(body) = image.managers_body(header) else {
        return Err(Unaccepted::Directory);
    };
    let database = Database::decode(alloc, Db(header.0), body)?;
    check_database(alloc, &database, databases)?;
    match databases.push(database) {
        Ok(()) => Ok(()),
        Err(_) => Err(Unaccepted::Memory),
    }
}

/// Whether databases and chunks of databases fit together, and the manager's chunks are those of
/// databases.
fn check_owned(
    alloc: Global,
    image: &Image,
    headers: &[Name],
    databases: &[Database],
) -> Result<(), Unaccepted> {
    let named = names_in(alloc, databases)?;
    check_named(image, &named)?;
    check_chunks(image, headers, &named)
}

/// Whether the entries of a database are right, and no other one has its name.
fn check_database(
    alloc: Global,
    database: &Database,
    others: &[Database],
) -> Result<(), Unaccepted> {
    for other in others {
        if other.header.name == database.header.name {
            return Err(Unaccepted::Name(database.db));
        }
    }
    check_entries(alloc, database)
}

/// The slots that the directory lists.
fn headers_of(alloc: Global, image: &Image) -> Result<Vec<Name>, Unaccepted> {
    let Some(directory) = image.directory() else {
        return Ok(Vec::new(alloc));
    };
    let Some(body) = image.managers_body(directory) else {
        return Err(Unaccepted::Directory);
    };
    if body.len() % 4 != 0 || body.len() / 4 > MOST_DATABASES {
        return Err(Unaccepted::Directory);
    }
    let mut headers = Vec::new(alloc);
    for index in 0..body.len() / 4 {
        let header = Name(u32_at(body, 4 * index));
        if header == directory || headers.contains(&header) {
            return Err(Unaccepted::Directory);
        }
        if headers.push(header).is_err() {
            return Err(Unaccepted::Memory);
        }
    }
    Ok(headers)
}

/// Whether each record has data, if it isn't deleted, and an ID that no other one has.
fn check_entries(alloc: Global, database: &Database) -> Result<(), Unaccepted> {
    for record in &database.records {
        if record.data.is_none() && record.attributes & DELETED == 0 {
            return Err(Unaccepted::Record(database.db));
        }
    }
    if has_twins(&ids_of(alloc, &database.records)?) {
        return Err(Unaccepted::Id(database.db));
    }
    Ok(())
}

/// The IDs of records, in order.
fn ids_of(alloc: Global, records: &[Record]) -> Result<Vec<u32>, AllocError> {
    let mut ids = Vec::new(alloc);
    for record in records {
        ids.push(record.id)?;
    }
    ids.sort()?;
    Ok(ids)
}

/// Whether IDs that are in order have 0 among them, or one of them twice.
fn has_twins(ids: &[u32]) -> bool {
    let mut last = 0;
    for id in ids {
        if *id == last {
            return true;
        }
        last = *id;
    }
    false
}

/// The names of all chunks of databases but their headers.
fn names_in(alloc: Global, databases: &[Database]) -> Result<Vec<Name>, AllocError> {
    let mut names = Vec::new(alloc);
    for database in databases {
        database.put_names(&mut names)?;
    }
    Ok(names)
}

/// Whether databases name chunks of databases alone.
fn check_named(image: &Image, named: &[Name]) -> Result<(), Unaccepted> {
    for name in named {
        match image.live(*name) {
            Some(live) if live.owner == 15 => {}
            _ => return Err(Unaccepted::Named(*name)),
        }
    }
    Ok(())
}

/// Whether each chunk of databases is named once, and each chunk of the manager's is the directory
/// or a header.
fn check_chunks(image: &Image, headers: &[Name], named: &[Name]) -> Result<(), Unaccepted> {
    for piece in &image.pieces {
        let Some(live) = piece.live else {
            continue;
        };
        let is_right = match live.owner {
            0 => {
                live.is_table()
                    || headers.contains(&live.name)
                    || image.directory() == Some(live.name)
            }
            15 => count_of(named, live.name) == 1,
            _ => true,
        };
        if !is_right {
            return Err(Unaccepted::Chunk(live.name));
        }
    }
    Ok(())
}

/// How often a name stands among others.
fn count_of(names: &[Name], name: Name) -> usize {
    let mut count = 0usize;
    for other in names {
        if *other == name {
            count = count.saturating_add(1);
        }
    }
    count
}
