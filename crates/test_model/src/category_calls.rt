//! The calls on categories of records.

use crate::database::{DELETED, Database, Record};
use crate::heap::PlainHeap;
use crate::memory_calls::number;
use crate::record_calls::DIRTY;
use heap_model::{Name, Refusal, Reply};
use std::alloc::{AllocError, Global};

/// The last category.
const LAST_CATEGORY: u8 = 15;

/// What stands for all categories, where records are counted.
const EVERY_CATEGORY: u8 = 0xFF;

impl Database {
    /// How many records are of a category.
    pub(crate) fn count_in_category(&self, category: u8) -> Result<Reply, Refusal> {
        let records = self.records_to_count(category)?;
        Ok(number(count_of(records, category)))
    }

    /// The first record of a category from an index on.
    pub(crate) fn next_in_category(&self, from: u32, category: u8) -> Result<Reply, Refusal> {
        let records = self.records_to_count(category)?;
        for (index, record) in records.iter().enumerate() {
            if index >= from as usize && is_of(record, category) {
                return Ok(number(index));
            }
        }
        Err(Refusal::IndexOutOfRange)
    }

    /// How many records of a category stand before one.
    pub(crate) fn position_in_category(&self, index: u32, category: u8) -> Result<Reply, Refusal> {
        let records = self.records_to_count(category)?;
        match records.get(..index as usize) {
            Some(front) if front.len() < records.len() => Ok(number(count_of(front, category))),
            _ => Err(Refusal::IndexOutOfRange),
        }
    }

    /// The records of a category go to another, dirty where that is asked.
    pub(crate) fn move_category(
        &mut self,
        to: u8,
        from: u8,
        dirty: bool,
    ) -> Result<Reply, Refusal> {
        self.check_writable()?;
        if to > LAST_CATEGORY || from > LAST_CATEGORY {
            return Err(Refusal::InvalidCategory);
        }
        for record in &mut self.records {
            if is_of(record, from) {
                record.attributes = record.attributes & !LAST_CATEGORY | to;
                if dirty {
                    record.attributes |= DIRTY;
                }
            }
        }
        self.count_change();
        Ok(Reply::Done)
    }

    /// The records of a category are deleted, all of them or, where the data of one is locked,
    /// none.
    pub(crate) fn delete_category(
        &mut self,
        alloc: Global,
        heap: &mut PlainHeap,
        category: u8,
    ) -> Result<Reply, Refusal> {
        self.check_writable()?;
        if category > LAST_CATEGORY {
            return Err(Refusal::InvalidCategory);
        }
        let Ok(names) = data_of(alloc, &self.records, category) else {
            return Err(Refusal::OutOfMemory);
        };
        heap.free_all(&names)?;
        for record in &mut self.records {
            if is_of(record, category) {
                record.data = None;
                record.attributes |= DELETED;
            }
        }
        self.count_change();
        Ok(Reply::Done)
    }

    /// The records of a database that are counted for a category, or for all.
    fn records_to_count(&self, category: u8) -> Result<&[Record], Refusal> {
        if category > LAST_CATEGORY && category != EVERY_CATEGORY {
            return Err(Refusal::InvalidCategory);
        }
        Ok(&self.records)
    }
}

/// Whether a record isn't deleted, and is of a category.
fn is_of(record: &Record, category: u8) -> bool {
    record.attributes & DELETED == 0
        && (category == EVERY_CATEGORY || record.attributes & LAST_CATEGORY == category)
}

/// How many records are of a category.
fn count_of(records: &[Record], category: u8) -> usize {
    let mut count = 0usize;
    for record in records {
        if is_of(record, category) {
            count = count.saturating_add(1);
        }
    }
    count
}

/// The data of the records of a category.
fn data_of(alloc: Global, records: &[Record], category: u8) -> Result<Vec<Name>, AllocError> {
    let mut names = Vec::new(alloc);
    for record in records {
        if is_of(record, category)
            && let Some(name) = record.data
        {
            names.push(name)?;
        }
    }
    Ok(names)
}
