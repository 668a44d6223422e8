//! The calls on resources, each by what it is for: its refusals in their order, what it does and
//! what it returns.

use crate::database::{Database, RESOURCE_LENGTH, Resource, are_resources};
use crate::heap::PlainHeap;
use crate::image::Image;
use crate::memory_calls::{DATA_OWNER, check_owner, number};
use crate::store::{PlainStore, numbered};
use heap_model::{Db, Name, Refusal, Reply, ResourceCall, ResourceInfo};
use std::alloc::Global;

impl PlainStore {
    /// Does a call on resources, which is on a database that has resources.
    pub(crate) fn resource_call(
        &mut self,
        alloc: Global,
        call: &ResourceCall,
        before: &Image,
        reply: &Reply,
    ) -> Result<Reply, Refusal> {
        let database = numbered(&mut self.databases, db_of(call))?;
        if !are_resources(database.header.attributes) {
            return Err(Refusal::NotResourceDatabase);
        }
        database.resource_call(alloc, &mut self.heap, call, before, reply)
    }
}

/// The database that a call is on.
fn db_of(call: &ResourceCall) -> Db {
    match call {
        ResourceCall::New { db, .. }
        | ResourceCall::Attach { db, .. }
        | ResourceCall::Detach { db, .. }
        | ResourceCall::Remove(db, _)
        | ResourceCall::Resize { db, .. }
        | ResourceCall::Info(db, _)
        | ResourceCall::SetInfo { db, .. }
        | ResourceCall::Find { db, .. }
        | ResourceCall::FindType { db, .. }
        | ResourceCall::Count(db) => *db,
    }
}

impl Database {
    fn resource_call(
        &mut self,
        alloc: Global,
        heap: &mut PlainHeap,
        call: &ResourceCall,
        before: &Image,
        reply: &Reply,
    ) -> Result<Reply, Refusal> {
        match call {
            ResourceCall::New { kind, id, size, .. } => {
                self.new_resource(alloc, heap, (*kind, *id), *size, before, reply)
            }
            ResourceCall::Attach { kind, id, name, .. } => {
                self.attach_resource(alloc, heap, (*kind, *id), *name, before, reply)
            }
            ResourceCall::Detach { index, owner, .. } => self.detach_resource(heap, *index, *owner),
            ResourceCall::Remove(_, index) => self.remove_resource(heap, *index),
            ResourceCall::Resize { index, size, .. } => {
                self.resize_resource(heap, *index, *size, before)
            }
            ResourceCall::Info(_, index) => self.resource_info(*index),
            ResourceCall::SetInfo {
                index,
                kind,
                id,
                ..
            } => self.set_resource(*index, *kind, *id),
            ResourceCall::Find { kind, id, .. } => self.find_resource(*kind, *id),
            ResourceCall::FindType { kind, nth, .. } => self.find_of_type(*kind, *nth),
            ResourceCall::Count(_) => Ok(number(self.resources.len())),
        }
    }

    /// A resource of a type and an ID, whose data is zeros.
    fn new_resource(
        &mut self,
        alloc: Global,
        heap: &mut PlainHeap,
        key: (u32, u16),
        size: u32,
        before: &Image,
        reply: &Reply,
    ) -> Result<Reply, Refusal> {
        self.check_writable()?;
        let name = self.name_for_data(alloc, RESOURCE_LENGTH, size, before, reply)?;
        heap.make(alloc, name, 0, size, DATA_OWNER)?;
        let index = self.list_resource(key, name)?;
        Ok(Reply::Made { index, name })
    }

    /// A chunk becomes the data of a new resource.
    fn attach_resource(
        &mut self,
        alloc: Global,
        heap: &mut PlainHeap,
        key: (u32, u16),
        name: Name,
        before: &Image,
        reply: &Reply,
    ) -> Result<Reply, Refusal> {
        self.check_writable()?;
        self.take_in(alloc, heap, RESOURCE_LENGTH, name, before, reply)?;
        Ok(Reply::Number(self.list_resource(key, name)?))
    }

    /// A resource with this data comes after all others, at the index that is returned.
    fn list_resource(&mut self, (kind, id): (u32, u16), data: Name) -> Result<u32, Refusal> {
        let index = u32::try_from(self.resources.len()).unwrap_or(u32::MAX);
        self.count_change();
        match self.resources.push(Resource { kind, id, data }) {
            Ok(()) => Ok(index),
            Err(_) => Err(Refusal::OutOfMemory),
        }
    }

    /// Its data goes to a caller, with its locks, and its entry goes.
    fn detach_resource(
        &mut self,
        heap: &mut PlainHeap,
        index: u32,
        owner: u8,
    ) -> Result<Reply, Refusal> {
        let name = self.written_resource(index)?.data;
        check_owner(owner)?;
        heap.give(name, owner)?;
        self.drop_entry(index);
        Ok(Reply::Named(name))
    }

    /// Its data goes, and its entry.
    fn remove_resource(&mut self, heap: &mut PlainHeap, index: u32) -> Result<Reply, Refusal> {
        let name = self.written_resource(index)?.data;
        heap.free_all(&[name])?;
        self.drop_entry(index);
        Ok(Reply::Done)
    }

    /// Its data has another length.
    fn resize_resource(
        &mut self,
        heap: &mut PlainHeap,
        index: u32,
        size: u32,
        before: &Image,
    ) -> Result<Reply, Refusal> {
        let data = self.written_resource(index)?.data;
        heap.set_length(data, size, before)?;
        self.count_change();
        Ok(Reply::Done)
    }

    /// It has this type and this ID, and the data that it had.
    fn set_resource(&mut self, index: u32, kind: u32, id: u16) -> Result<Reply, Refusal> {
        self.check_writable()?;
        let Some(resource) = self.resources.get_mut(index as usize) else {
            return Err(Refusal::IndexOutOfRange);
        };
        resource.kind = kind;
        resource.id = id;
        self.count_change();
        Ok(Reply::Done)
    }

    /// The first that has both a type and an ID.
    fn find_resource(&self, kind: u32, id: u16) -> Result<Reply, Refusal> {
        for (index, resource) in self.resources.iter().enumerate() {
            if resource.kind == kind && resource.id == id {
                return Ok(number(index));
            }
        }
        Err(Refusal::ResourceNotFound)
    }

    /// Of those of a type, counted from 0, one.
    fn find_of_type(&self, kind: u32, nth: u32) -> Result<Reply, Refusal> {
        let mut left = nth;
        for (index, resource) in self.resources.iter().enumerate() {
            if resource.kind != kind {
                continue;
            }
            if left == 0 {
                return Ok(number(index));
            }
            left -= 1;
        }
        Err(Refusal::ResourceNotFound)
    }

    fn resource_info(&self, index: u32) -> Result<Reply, Refusal> {
        let resource = self.resource(index)?;
        Ok(Reply::Resource(ResourceInfo {
            kind: resource.kind,
            id: resource.id,
            data: resource.data,
        }))
    }

    /// The resource of an index.
    fn resource(&self, index: u32) -> Result<Resource, Refusal> {
        match self.resources.get(index as usize) {
            Some(resource) => Ok(*resource),
            None => Err(Refusal::IndexOutOfRange),
        }
    }

    /// The same, in a database that may be written.
    fn written_resource(&self, index: u32) -> Result<Resource, Refusal> {
        self.check_writable()?;
        self.resource(index)
    }
}
