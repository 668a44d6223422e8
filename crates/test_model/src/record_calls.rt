//! The calls on records, each by what it is for: its refusals in their order, what it does and what
//! it returns.

use crate::database::{DELETED, Database, GREATEST_ID, RECORD_LENGTH, Record, are_resources};
use crate::heap::PlainHeap;
use crate::image::Image;
use crate::memory_calls::{DATA_OWNER, check_owner, number};
use crate::store::{PlainStore, numbered};
use heap_model::{Db, Name, RecordCall, RecordInfo, Refusal, Reply};
use std::alloc::Global;

/// The bits of a record's attributes that say that it was changed, and that it is in use.
pub(crate) const DIRTY: u8 = 0x40;

pub(crate) const BUSY: u8 = 0x20;

impl PlainStore {
    /// Does a call on records, which is on a database that has records.
    pub(crate) fn record_call(
        &mut self,
        alloc: Global,
        call: &RecordCall,
        before: &Image,
        reply: &Reply,
    ) -> Result<Reply, Refusal> {
        let database = numbered(&mut self.databases, db_of(call))?;
        if are_resources(database.header.attributes) {
            return Err(Refusal::NotRecordDatabase);
        }
        database.record_call(alloc, &mut self.heap, call, before, reply)
    }
}

/// The database that a call is on.
fn db_of(call: &RecordCall) -> Db {
    match call {
        RecordCall::New { db, .. }
        | RecordCall::Delete(db, _)
        | RecordCall::Archive(db, _)
        | RecordCall::Remove(db, _)
        | RecordCall::Move { db, .. }
        | RecordCall::Get(db, _)
        | RecordCall::Query(db, _)
        | RecordCall::Release { db, .. }
        | RecordCall::Info(db, _)
        | RecordCall::Resize { db, .. }
        | RecordCall::Count(db)
        | RecordCall::Attach { db, .. }
        | RecordCall::AttachReplacing { db, .. }
        | RecordCall::Detach { db, .. }
        | RecordCall::SetInfo { db, .. }
        | RecordCall::FindById(db, _)
        | RecordCall::CountInCategory(db, _)
        | RecordCall::NextInCategory { db, .. }
        | RecordCall::PositionInCategory { db, .. }
        | RecordCall::MoveCategory { db, .. }
        | RecordCall::DeleteCategory(db, _) => *db,
    }
}

impl Database {
    fn record_call(
        &mut self,
        alloc: Global,
        heap: &mut PlainHeap,
        call: &RecordCall,
        before: &Image,
        reply: &Reply,
    ) -> Result<Reply, Refusal> {
        match call {
            RecordCall::New { at, size, .. } => {
                self.new_record(alloc, heap, *at, *size, before, reply)
            }
            RecordCall::Delete(_, index) => self.delete_record(heap, *index),
            RecordCall::Archive(_, index) => self.archive_record(*index),
            RecordCall::Remove(_, index) => self.remove_record(heap, *index),
            RecordCall::Move { from, to, .. } => self.move_record(*from, *to),
            RecordCall::Get(_, index) => self.get_record(*index),
            RecordCall::Query(_, index) => self.query_record(*index),
            RecordCall::Release { index, dirty, .. } => self.release_record(*index, *dirty),
            RecordCall::Info(_, index) => self.record_info(*index),
            RecordCall::Resize { index, size, .. } => {
                self.resize_record(heap, *index, *size, before)
            }
            RecordCall::Count(_) => Ok(number(self.records.len())),
            RecordCall::Attach { at, name, .. } => {
                self.attach_record(alloc, heap, *at, *name, before, reply)
            }
            RecordCall::AttachReplacing {
                index,
                name,
                owner,
                ..
            } => self.replace_record(heap, *index, *name, *owner),
            RecordCall::Detach { index, owner, .. } => self.detach_record(heap, *index, *owner),
            RecordCall::SetInfo {
                index,
                attributes,
                id,
                ..
            } => self.set_record(*index, *attributes, *id),
            RecordCall::FindById(_, id) => self.find_record(*id),
            RecordCall::CountInCategory(_, category) => self.count_in_category(*category),
            RecordCall::NextInCategory { from, category, .. } => {
                self.next_in_category(*from, *category)
            }
            RecordCall::PositionInCategory {
                index,
                category,
                ..
            } => self.position_in_category(*index, *category),
            RecordCall::MoveCategory {
                to,
                from,
                dirty,
                ..
            } => self.move_category(*to, *from, *dirty),
            RecordCall::DeleteCategory(_, category) => self.delete_category(alloc, heap, *category),
        }
    }

    /// A record at an index or at the end, whose data is zeros: dirty and busy.
    fn new_record(
        &mut self,
        alloc: Global,
        heap: &mut PlainHeap,
        at: u32,
        size: u32,
        before: &Image,
        reply: &Reply,
    ) -> Result<Reply, Refusal> {
        self.check_writable()?;
        let name = self.name_for_data(alloc, RECORD_LENGTH, size, before, reply)?;
        heap.make(alloc, name, 0, size, DATA_OWNER)?;
        let index = self.list_record(at, name, DIRTY | BUSY)?;
        Ok(Reply::Made { index, name })
    }

    /// The entry of a record with this data, at an index or at the end, which is returned: it has a
    /// fresh ID, which is the seed from then on.
    pub(crate) fn list_record(
        &mut self,
        at: u32,
        name: Name,
        attributes: u8,
    ) -> Result<u32, Refusal> {
        let seed = self.header.seed;
        let id = fresh_id(&self.records, seed & GREATEST_ID);
        let index = self.records.len().min(at as usize);
        let record = Record {
            data: Some(name),
            attributes,
            id,
        };
        if self.records.insert(index, record).is_err() {
            return Err(Refusal::OutOfMemory);
        }
        self.header.seed = seed & !GREATEST_ID | id;
        self.count_change();
        Ok(u32::try_from(index).unwrap_or(u32::MAX))
    }

    /// Its data goes, and its entry stays.
    fn delete_record(&mut self, heap: &mut PlainHeap, index: u32) -> Result<Reply, Refusal> {
        let data = self.written_data(index)?;
        heap.free_all(&[data])?;
        let record = self.record_mut(index)?;
        record.data = None;
        record.attributes |= DELETED;
        self.count_change();
        Ok(Reply::Done)
    }

    /// Its entry says that it is deleted, and its data stays.
    fn archive_record(&mut self, index: u32) -> Result<Reply, Refusal> {
        self.written_data(index)?;
        self.record_mut(index)?.attributes |= DELETED;
        self.count_change();
        Ok(Reply::Done)
    }

    /// Its data goes, if it has any, and its entry.
    fn remove_record(&mut self, heap: &mut PlainHeap, index: u32) -> Result<Reply, Refusal> {
        self.check_writable()?;
        if let Some(data) = self.record(index)?.data {
            heap.free_all(&[data])?;
        }
        self.drop_entry(index);
        Ok(Reply::Done)
    }

    /// Its data goes to a caller, with its locks, and its entry goes.
    fn detach_record(
        &mut self,
        heap: &mut PlainHeap,
        index: u32,
        owner: u8,
    ) -> Result<Reply, Refusal> {
        let data = self.written_data(index)?;
        check_owner(owner)?;
        heap.give(data, owner)?;
        self.drop_entry(index);
        Ok(Reply::Named(data))
    }

    /// It has these attributes, but for the bits of deleted and of busy ones, and this ID, where
    /// that is not 0.
    fn set_record(&mut self, index: u32, attributes: u8, id: u32) -> Result<Reply, Refusal> {
        self.check_writable()?;
        let old = self.record(index)?;
        let id = match id & GREATEST_ID {
            0 => old.id,
            id => id,
        };
        if id != old.id && has_id(&self.records, id) {
            return Err(Refusal::DuplicateId);
        }
        let record = self.record_mut(index)?;
        record.id = id;
        record.attributes = old.attributes & (DELETED | BUSY) | attributes & !(DELETED | BUSY);
        self.count_change();
        Ok(Reply::Done)
    }

    /// The index of the record with an ID, deleted or not.
    fn find_record(&self, id: u32) -> Result<Reply, Refusal> {
        for (index, record) in self.records.iter().enumerate() {
            if record.id == id {
                return Ok(number(index));
            }
        }
        Err(Refusal::UniqueIdNotFound)
    }

    /// It comes before the record that stands at `to`, or after the last.
    fn move_record(&mut self, from: u32, to: u32) -> Result<Reply, Refusal> {
        self.check_writable()?;
        let (from, to) = (from as usize, to as usize);
        if from >= self.records.len() || to > self.records.len() {
            return Err(Refusal::IndexOutOfRange);
        }
        let record = self.records.remove(from);
        let index = if to > from { to - 1 } else { to };
        self.count_change();
        match self.records.insert(index.min(self.records.len()), record) {
            Ok(()) => Ok(Reply::Done),
            Err(_) => Err(Refusal::OutOfMemory),
        }
    }

    /// Its data has another length.
    fn resize_record(
        &mut self,
        heap: &mut PlainHeap,
        index: u32,
        size: u32,
        before: &Image,
    ) -> Result<Reply, Refusal> {
        let data = self.written_data(index)?;
        heap.set_length(data, size, before)?;
        self.count_change();
        Ok(Reply::Done)
    }

    /// It is in use from then on.
    fn get_record(&mut self, index: u32) -> Result<Reply, Refusal> {
        let data = self.kept_data(index)?;
        let record = self.record_mut(index)?;
        if record.attributes & BUSY != 0 {
            return Err(Refusal::RecordBusy);
        }
        record.attributes |= BUSY;
        Ok(Reply::Named(data))
    }

    /// It is in use no longer.
    fn release_record(&mut self, index: u32, dirty: bool) -> Result<Reply, Refusal> {
        let record = self.record_mut(index)?;
        record.attributes &= !BUSY;
        if dirty {
            record.attributes |= DIRTY;
        }
        Ok(Reply::Done)
    }

    fn query_record(&self, index: u32) -> Result<Reply, Refusal> {
        Ok(Reply::Named(self.kept_data(index)?))
    }

    fn record_info(&self, index: u32) -> Result<Reply, Refusal> {
        let record = self.record(index)?;
        Ok(Reply::Record(RecordInfo {
            attributes: record.attributes,
            id: record.id,
            data: record.data,
        }))
    }

    /// The record of an index.
    fn record(&self, index: u32) -> Result<Record, Refusal> {
        match self.records.get(index as usize) {
            Some(record) => Ok(*record),
            None => Err(Refusal::IndexOutOfRange),
        }
    }

    pub(crate) fn record_mut(&mut self, index: u32) -> Result<&mut Record, Refusal> {
        match self.records.get_mut(index as usize) {
            Some(record) => Ok(record),
            None => Err(Refusal::IndexOutOfRange),
        }
    }

    /// The data of a record that isn't deleted, in a database that may be written.
    pub(crate) fn written_data(&self, index: u32) -> Result<Name, Refusal> {
        self.check_writable()?;
        self.kept_data(index)
    }

    /// The data of a record that isn't deleted.
    fn kept_data(&self, index: u32) -> Result<Name, Refusal> {
        let record = self.record(index)?;
        match record.data {
            Some(data) if record.attributes & DELETED == 0 => Ok(data),
            _ => Err(Refusal::RecordDeleted),
        }
    }
}

/// The first ID after a seed that no record has; 1 follows on the greatest.
pub(crate) fn fresh_id(records: &[Record], seed: u32) -> u32 {
    let mut id = seed;
    for _ in 0..=records.len() {
        id = next_id(id);
        if !has_id(records, id) {
            return id;
        }
    }
    id
}

/// Whether a record has an ID.
pub(crate) fn has_id(records: &[Record], id: u32) -> bool {
    for record in records {
        if record.id == id {
            return true;
        }
    }
    false
}

/// The ID after another; 1 follows on the greatest.
fn next_id(id: u32) -> u32 {
    if id < GREATEST_ID { id + 1 } else { 1 }
}
