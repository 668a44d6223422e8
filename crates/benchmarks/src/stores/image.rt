//! Images with databases, built chunk by chunk.

ghost use Rattle.std.specs.Prelude.{[], ◌≡◌, IfOk};

use raw_region::Region;
use std::alloc::{AllocError, Global};

/// The magic of an image, `PHI1`.
const MAGIC: u32 = 0x5048_4931;

/// The size of the head. The slots begin after it.
const HEAD_SIZE: u32 = 16;

/// The size of a chunk's header.
const CHUNK_HEADER: usize = 8;

/// The owner of the directory and of the headers of databases.
const MANAGERS_OWNER: u32 = 0;

/// The owner of chunks for data.
const DATA_OWNER: u32 = 15;

/// A fault or a special shape of a store.
#[derive(Clone, Copy)]
pub(crate) enum Flaw {
    Nothing,
    /// The IDs of a database's records go down to 1. Without this flaw they go up from 1.
    FallingIds,
    /// All records of a database have one ID.
    OneId,
    /// All databases refer to the same data.
    SharedData,
}

/// A store: the size of its image, the number of its databases, and the number of records of each.
#[derive(Clone, Copy)]
pub(crate) struct Store {
    pub(crate) size: u32,
    pub(crate) databases: u16,
    pub(crate) records: u16,
    pub(crate) flaw: Flaw,
}

/// Chunks, each under its own slot, and the slots.
#[derive(Drop)]
struct Chunks {
    start: u32,
    table: Vec<u8>,
    area: Vec<u8>,
}

impl Store {
    /// Returns the store with this flaw.
    pub(crate) fn with(self, flaw: Flaw) -> Store {
        Store { flaw, ..self }
    }

    /// Makes the image. Its slots are those of the directory, of the headers and of the data, in
    /// this order, and all are in use. The data chunks are as long as all of them can be. The rest
    /// of the image is a free chunk after them.
    pub(crate) fn image(self, alloc: Global) -> Result<Region, AllocError>
        ensures { IfOk result (λ region. region.lents ≡ []) }
    {
        let slots = self.data_chunks().wrapping_add(self.first_data());
        let mut chunks = Chunks::new(alloc, slots);
        self.add_lists(alloc, &mut chunks)?;
        self.add_data(alloc, &mut chunks)?;
        chunks.into_region(alloc, self.size)
    }

    /// Adds the directory and the headers.
    fn add_lists(self, alloc: Global, chunks: &mut Chunks) -> Result<(), AllocError> {
        chunks.add(MANAGERS_OWNER, &self.directory(alloc)?)?;
        for database in 0..self.databases {
            chunks.add(MANAGERS_OWNER, &self.database(alloc, database)?)?;
        }
        Ok(())
    }

    /// Adds the chunks for data.
    fn add_data(self, alloc: Global, chunks: &mut Chunks) -> Result<(), AllocError> {
        let room = self.size.saturating_sub(chunks.end()) / self.data_chunks().max(1) / 8 * 8;
        let body = vec![in alloc; 0u8; (room as usize).saturating_sub(CHUNK_HEADER)]?;
        for _ in 0..self.data_chunks() {
            chunks.add(DATA_OWNER, &body)?;
        }
        Ok(())
    }

    /// Returns the number of data chunks.
    fn data_chunks(self) -> u32 {
        match self.flaw {
            Flaw::SharedData => self.records as u32,
            _ => (self.databases as u32).wrapping_mul(self.records as u32),
        }
    }

    /// Returns the number of the slot of the first data chunk.
    fn first_data(self) -> u32 {
        self.databases as u32 + 1
    }

    /// Returns the directory's body: the slots after its own.
    fn directory(self, alloc: Global) -> Result<Vec<u8>, AllocError> {
        let mut bytes = Vec::new(alloc);
        for database in 0..self.databases {
            put_words(&mut bytes, &[slot(database as u32 + 1)])?;
        }
        Ok(bytes)
    }

    /// Returns the body of a database's header with its records.
    fn database(self, alloc: Global, number: u16) -> Result<Vec<u8>, AllocError> {
        let mut bytes = Vec::new(alloc);
        put_header(&mut bytes, number, self.records)?;
        self.put_entries(&mut bytes, number)?;
        Ok(bytes)
    }

    /// Adds the entries of a database's records.
    fn put_entries(self, bytes: &mut Vec<u8>, number: u16) -> Result<(), AllocError> {
        let first = match self.flaw {
            Flaw::SharedData => self.first_data(),
            _ => (number as u32)
                .wrapping_mul(self.records as u32)
                .wrapping_add(self.first_data()),
        };
        for index in 0..self.records as u32 {
            let id = match self.flaw {
                Flaw::FallingIds => (self.records as u32).wrapping_sub(index),
                Flaw::OneId => 1,
                _ => index + 1,
            };
            put_words(bytes, &[slot(first.wrapping_add(index)), id])?;
        }
        Ok(())
    }
}

/// Returns the offset of the slot with a number.
fn slot(number: u32) -> u32 {
    number.wrapping_mul(4).wrapping_add(HEAD_SIZE)
}

/// Returns the number of bytes. No image has more bytes than fit a `u32`.
fn length(bytes: &[u8]) -> u32 {
    bytes.len().min(u32::MAX as usize) as u32
}

fn put_words(bytes: &mut Vec<u8>, words: &[u32]) -> Result<(), AllocError> {
    for word in words {
        bytes.extend_from_slice(&word.to_be_bytes())?;
    }
    Ok(())
}

/// Adds the header of a database with `records` records. Names are 31 bytes long and differ only in
/// the last two bytes.
fn put_header(bytes: &mut Vec<u8>, number: u16, records: u16) -> Result<(), AllocError> {
    bytes.resize(29, b'n')?;
    bytes.push((number / 32 % 32) as u8 + b'A')?;
    bytes.push((number % 32) as u8 + b'A')?;
    bytes.resize(76, 0)?;
    bytes.extend_from_slice(&records.to_be_bytes())
}

impl Chunks {
    /// Starts with no chunks, with room for `slots` slots.
    fn new(alloc: Global, slots: u32) -> Chunks {
        Chunks {
            start: slot(slots.wrapping_add(1) / 2 * 2),
            table: Vec::new(alloc),
            area: Vec::new(alloc),
        }
    }

    /// Returns the offset of the next chunk.
    fn end(&self) -> u32 {
        self.start.wrapping_add(length(&self.area))
    }

    /// Adds a chunk with this body under the next slot.
    fn add(&mut self, owner: u32, body: &[u8]) -> Result<(), AllocError> {
        let slack = length(body).wrapping_neg() % 8;
        let size = length(body).wrapping_add(slack).wrapping_add(8);
        let distance = slot(length(&self.table) / 4).wrapping_sub(self.end());
        let body_at = self.end().wrapping_add(8);
        put_words(&mut self.table, &[body_at])?;
        let words = [slack << 24 | size, owner << 24 | distance / 2 & 0xFF_FFFF];
        put_words(&mut self.area, &words)?;
        self.area.extend_from_slice(body)?;
        self.area.extend_from_slice(&[0; 8][..slack as usize])
    }

    /// Makes the image of these chunks, with a free chunk after them if there is room.
    fn into_region(self, alloc: Global, size: u32) -> Result<Region, AllocError>
        ensures { IfOk result (λ region. region.lents ≡ []) }
    {
        let mut bytes = Vec::new(alloc);
        self.put_image(&mut bytes, size)?;
        Region::from_bytes(alloc, bytes.as_slice())
    }

    fn put_image(&self, bytes: &mut Vec<u8>, size: u32) -> Result<(), AllocError> {
        let left = size.saturating_sub(self.end());
        let slots = (self.table.len() / 4).min(u16::MAX as usize) as u32;
        put_words(bytes, &[MAGIC, size, slots << 16, slot(0)])?;
        bytes.extend_from_slice(&self.table)?;
        bytes.resize(self.start as usize, 0)?;
        bytes.extend_from_slice(&self.area)?;
        if left > 0 {
            put_words(bytes, &[left | 0x8000_0000])?;
        }
        bytes.resize(size as usize, 0)
    }
}
