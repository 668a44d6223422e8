//! The calls on files, each by the words of docs/FORMAT.md: its refusals in their order, what it
//! does and what it returns.

use crate::database::Database;
use crate::file::{blocks_in, database_in};
use crate::heap::Chunk;
use crate::image::Image;
use crate::memory_calls::DATA_OWNER;
use crate::store::PlainStore;
use heap_model::{Bytes, Db, FileCall, Name, Refusal, Reply};
use std::alloc::{AllocError, Global};

impl PlainStore {
    /// Does a call on files. The names that an import gives stand in the image after it.
    pub(crate) fn file_call(
        &mut self,
        alloc: Global,
        call: &FileCall,
        before: &Image,
        after: &Image,
        reply: &Reply,
    ) -> Result<Reply, Refusal> {
        match call {
            FileCall::Import(file) => self.import(alloc, file.as_slice(), before, after, reply),
            FileCall::Export(db) => self.export(alloc, *db),
        }
    }

    /// The database of a file, after the others. Each of its blocks is a chunk under a free slot.
    fn import(
        &mut self,
        alloc: Global,
        file: &[u8],
        before: &Image,
        after: &Image,
        reply: &Reply,
    ) -> Result<Reply, Refusal> {
        let mut database = database_in(alloc, file)?;
        self.take_blocks(alloc, &mut database, file, before, after, reply)?;
        self.add(database)
    }

    /// The database of a file gets its number, and its blocks become chunks.
    fn take_blocks(
        &mut self,
        alloc: Global,
        database: &mut Database,
        file: &[u8],
        before: &Image,
        after: &Image,
        reply: &Reply,
    ) -> Result<(), Refusal> {
        let Ok(blocks) = blocks_of(alloc, database, file) else {
            return Err(Refusal::OutOfMemory);
        };
        database.db = self.number_for(alloc, database, &blocks, before, reply)?;
        self.name_blocks(alloc, database, &blocks, before, after)
    }

    /// The blocks of a database become chunks, which it names then.
    fn name_blocks(
        &mut self,
        alloc: Global,
        database: &mut Database,
        blocks: &[&[u8]],
        before: &Image,
        after: &Image,
    ) -> Result<(), Refusal> {
        let Ok(names) = names_given(alloc, database.db, before, after) else {
            return Err(Refusal::OutOfMemory);
        };
        database.settle();
        database.rename(&names);
        for (name, block) in names.iter().zip(blocks) {
            self.add_block(alloc, *name, block)?;
        }
        Ok(())
    }

    /// A block becomes a chunk of a database's, without a lock.
    fn add_block(&mut self, alloc: Global, name: Name, block: &[u8]) -> Result<(), Refusal> {
        let Ok(bytes) = Vec::from_slice(alloc, block) else {
            return Err(Refusal::OutOfMemory);
        };
        let chunk = Chunk {
            lock: 0,
            owner: DATA_OWNER,
            bytes,
        };
        self.heap.add(name, chunk)
    }

    /// The file of a database: its blocks, and then its front, which says where they begin.
    fn export(&self, alloc: Global, db: Db) -> Result<Reply, Refusal> {
        let database = self.database(db)?;
        let Ok(names) = database.names(alloc) else {
            return Err(Refusal::OutOfMemory);
        };
        for name in &names {
            self.heap.check_there(*name)?;
        }
        let Ok(mut file) = vec![in alloc; 0; database.front_length()] else {
            return Err(Refusal::OutOfMemory);
        };
        let starts = self.put_blocks(alloc, &names, &mut file)?;
        database.put_front(&mut file, &starts);
        Ok(Reply::Data(Bytes::of(file)))
    }

    /// Adds the bytes of chunks to a file, and returns where they begin.
    fn put_blocks(
        &self,
        alloc: Global,
        names: &[Name],
        file: &mut Vec<u8>,
    ) -> Result<Vec<Name>, Refusal> {
        let mut starts = Vec::new(alloc);
        for name in names {
            let chunk = self.heap.chunk(*name)?;
            let start = Name(u32::try_from(file.len()).unwrap_or(u32::MAX));
            if starts.push(start).is_err() || file.extend_from_slice(&chunk.bytes).is_err() {
                return Err(Refusal::OutOfMemory);
            }
        }
        Ok(starts)
    }
}

/// The blocks of a file, in their order.
fn blocks_of<'a>(
    alloc: Global,
    database: &Database,
    file: &'a [u8],
) -> Result<Vec<&'a [u8]>, AllocError> {
    let starts = database.names(alloc)?;
    blocks_in(alloc, file, &starts)
}

/// The names that the new database of a number has in an image: those of them that were free.
fn names_given(
    alloc: Global,
    db: Db,
    before: &Image,
    after: &Image,
) -> Result<Vec<Name>, AllocError> {
    let mut names = match database_after(alloc, db, after) {
        Some(database) => database.names(alloc)?,
        None => Vec::new(alloc),
    };
    names.retain(|name| before.is_free_slot(*name));
    Ok(names)
}

/// The database of a number that an image spells.
fn database_after(alloc: Global, db: Db, after: &Image) -> Option<Database> {
    let live = after.live(Name(db.0))?;
    Database::decode(alloc, db, live.bytes).ok()
}
