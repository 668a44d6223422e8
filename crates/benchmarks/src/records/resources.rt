//! A database of resources under load: they are made, searched for and removed in a fixed order.

ghost use Rattle.std.specs.Prelude.{[], ◌≡◌};

use crate::records::region_of;
use crate::timing::{Sum, Sums};
use heap_model::{Db, ResourceInfo};
use palm_store::Store;
use resource_db::{
    find_resource, find_type, new_resource, num_resources, remove_resource, resource_info,
};
use std::marker::Model;

/// The maximum number of bytes of a resource.
const MOST_RESOURCE: u32 = 64;

/// The two types of resources, `code` and `tSTR`. Even indexes have the first, odd ones the second.
const RESOURCE_TYPES: [u32; 2] = [0x636F_6465, 0x7453_5452];

/// The number of IDs.
const ID_COUNT: u32 = 0x1_0000;

/// A store of which nothing is lent, with a database of resources, and the sum of all replies so
/// far.
#[derive(Drop)]
pub(crate) struct ResourceLoad {
    store: Store,
    db: Db,
    /// The number of resources that calls asked to make.
    made: u32,
    replies: Sum,
}

impl Model for ResourceLoad {
    ghost use Rattle.std.specs.Prelude.{[], ◌≡◌};
    ghost use Rattle.heap_model.specs.Memory.{Memory};

    ghost Value = { Memory };

    ghost view = { λ load. load.store };

    ghost invariant = { λ load. load.store.lents ≡ [] };
}

impl ResourceLoad {
    /// Makes a load on a database that has no resources yet.
    pub(crate) fn new(store: Store, db: Db) -> ResourceLoad
        requires { store.lents ≡ [] }
    {
        ResourceLoad {
            store,
            db,
            made: 0,
            replies: Sum(0),
        }
    }

    /// Makes `count` resources of 0 to 64 bytes after the last one.
    pub(crate) fn make(&mut self, count: u32) {
        for _ in 0..count {
            let number = self.made;
            self.made = self.made.wrapping_add(1);
            let kind = RESOURCE_TYPES[(number % 2) as usize];
            let id = (number % ID_COUNT) as u16;
            let size = number % (MOST_RESOURCE + 1);
            match new_resource(&mut self.store, self.db, kind, id, size) {
                Ok((index, name)) => {
                    self.replies.add(index);
                    self.replies.add(name.0);
                }
                Err(refusal) => self.replies.add_refusal(refusal),
            }
        }
    }

    /// Returns the number of resources.
    fn count(&self) -> u32 {
        num_resources(&self.store, self.db).unwrap_or(0)
    }

    /// Returns the last resource, if there is one.
    fn last(&self) -> Option<ResourceInfo> {
        resource_info(&self.store, self.db, self.count().saturating_sub(1)).ok()
    }

    /// Finds the last resource by its type and its ID.
    pub(crate) fn find_last(&mut self, passes: u32) {
        if let Some(last) = self.last() {
            for _ in 0..passes {
                let found = find_resource(&self.store, self.db, last.kind, last.id);
                self.replies.add_number(found);
            }
        }
    }

    /// Finds the last resource as the last of its type.
    pub(crate) fn find_last_of_type(&mut self, passes: u32) {
        let in_front = self.count().saturating_sub(1) / 2;
        if let Some(last) = self.last() {
            for _ in 0..passes {
                let found = find_type(&self.store, self.db, last.kind, in_front);
                self.replies.add_number(found);
            }
        }
    }

    pub(crate) fn remove_first(&mut self, count: u32) {
        for _ in 0..count {
            let done = remove_resource(&mut self.store, self.db, 0);
            self.replies.add_done(done);
        }
    }

    /// Adds the sum of all replies, and the sum of the words of the image.
    pub(crate) fn add_to(self, sums: &mut Sums) {
        sums.add(self.replies, region_of(self.store).as_slice());
    }
}
