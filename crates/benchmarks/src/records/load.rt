//! Databases under load: their entries are made, moved, removed and asked for in a fixed order.

ghost use Rattle.std.specs.Prelude.{[], ◌≡◌};

use crate::records::region_of;
use crate::records::resources::ResourceLoad;
use crate::timing::{Sum, Sums};
use crate::work::Work;
use heap_model::{Db, Refusal};
use palm_store::Store;
use record_db::{
    attach, delete_category, detach, find_by_id, move_category, move_record, new_record,
    num_in_category, num_records, record_info, remove, set_record_info,
};
use std::marker::Model;

/// An index after all records.
const AT_END: u32 = 0xFFFF;

/// The maximum number of bytes of a record.
const MOST_RECORD: u32 = 64;

/// The owner of data that is taken out of the database.
const CALLER: u8 = 1;

/// The category that is deleted.
const DELETED_CATEGORY: u8 = 2;

/// A kind of call on records, or on resources.
#[derive(Clone, Copy)]
pub(crate) enum Call {
    /// All records are made, once.
    Fill,
    /// The same number of resources is made, once.
    FillResources,
    /// New records are made after the last.
    NewAtTheEnd,
    RemoveTheLast,
    RemoveTheFirst,
    /// The first record is moved after the last.
    MoveToTheEnd,
    /// The last record is moved before the first.
    MoveToTheFront,
    /// All records are asked for.
    Info,
    /// Records are asked for from the first on, until one has the ID of the last.
    SearchById,
    /// The record with the ID of the last is found.
    FindTheLast,
    CountCategory,
    /// All records are moved to another category and back.
    MoveCategory,
    /// The last record is detached, and its data attached as the last record again.
    DetachAndAttach,
    /// The last resource is found by its type and its ID.
    FindResource,
    /// The last resource is found as the last of its type.
    FindType,
    /// The first resource is removed.
    RemoveResource,
    /// Every second record is deleted by its category, once.
    DeleteCategory,
}

impl Call {
    /// Returns the number of rounds of a kind of call.
    pub(crate) fn rounds(self, work: Work<'_>) -> u16 {
        match self {
            Call::Fill | Call::FillResources | Call::DeleteCategory => 1,
            _ => work.rounds,
        }
    }
}

/// A store of which nothing is lent, with a database, and the sum of all replies so far.
#[derive(Drop)]
pub(crate) struct Load {
    store: Store,
    db: Db,
    /// The number of records that calls asked to make.
    made: u32,
    replies: Sum,
    resources: ResourceLoad,
}

impl Model for Load {
    ghost use Rattle.std.specs.Prelude.{[], ◌≡◌};
    ghost use Rattle.heap_model.specs.Memory.{Memory};

    ghost Value = { Memory };

    ghost view = { λ load. load.store };

    ghost invariant = { λ load. load.store.lents ≡ [] };
}

impl Load {
    /// Makes a load on a database that has no records yet, and on one of resources.
    pub(crate) fn new(store: Store, db: Db, resources: ResourceLoad) -> Load
        requires { store.lents ≡ [] }
    {
        Load {
            store,
            db,
            made: 0,
            replies: Sum(0),
            resources,
        }
    }

    /// Returns the number of records.
    fn count(&self) -> u32 {
        num_records(&self.store, self.db).unwrap_or(0)
    }

    /// Makes `count` records of 0 to 64 bytes after the last one.
    fn make(&mut self, count: u32) {
        for _ in 0..count {
            let size = self.made % (MOST_RECORD + 1);
            self.made = self.made.wrapping_add(1);
            match new_record(&mut self.store, self.db, AT_END, size) {
                Ok((index, name)) => {
                    self.replies.add(index);
                    self.replies.add(name.0);
                }
                Err(refusal) => self.replies.add_refusal(refusal),
            }
        }
    }

    /// Returns the number of calls that `repeat` does for a kind.
    pub(crate) fn calls(&self, call: Call, work: Work<'_>) -> u128 {
        match call {
            Call::Fill | Call::FillResources => work.records as u128,
            Call::Info => (self.count() as u128).saturating_mul(work.passes as u128),
            Call::SearchById
            | Call::FindTheLast
            | Call::CountCategory
            | Call::MoveCategory
            | Call::FindResource
            | Call::FindType => work.passes as u128,
            Call::DeleteCategory => 1,
            _ => work.calls as u128,
        }
    }

    /// Gives every second record the category that is deleted, if the call deletes one.
    pub(crate) fn prepare(&mut self, call: Call) {
        if let Call::DeleteCategory = call {
            self.categorize();
        }
    }

    /// Does calls of a kind.
    pub(crate) fn repeat(&mut self, call: Call, work: Work<'_>) {
        match call {
            Call::Fill => self.make(work.records),
            Call::FillResources => self.resources.make(work.records),
            Call::NewAtTheEnd => self.make(work.calls),
            Call::RemoveTheLast => self.remove_last(work.calls),
            Call::RemoveTheFirst => self.remove_first(work.calls),
            Call::MoveToTheEnd => self.move_to_the_end(work.calls),
            Call::MoveToTheFront => self.move_to_the_front(work.calls),
            Call::Info => self.ask(work.passes),
            Call::SearchById => self.search(work.passes),
            Call::FindTheLast => self.find_last(work.passes),
            Call::CountCategory => self.count_category(work.passes),
            Call::MoveCategory => self.move_all(work.passes),
            Call::DetachAndAttach => self.detach_and_attach(work.calls),
            Call::FindResource => self.resources.find_last(work.passes),
            Call::FindType => self.resources.find_last_of_type(work.passes),
            Call::RemoveResource => self.resources.remove_first(work.calls),
            Call::DeleteCategory => self.delete_categorized(),
        }
    }

    /// Brings the databases back to the number of entries that they had before the calls of a kind.
    pub(crate) fn even_out(&mut self, call: Call, work: Work<'_>) {
        match call {
            Call::NewAtTheEnd => self.remove_last(work.calls),
            Call::RemoveTheLast | Call::RemoveTheFirst => self.make(work.calls),
            Call::RemoveResource => self.resources.make(work.calls),
            _ => {}
        }
    }

    fn remove_last(&mut self, count: u32) {
        let records = self.count();
        for removed in 0..count {
            let last = records.saturating_sub(removed).saturating_sub(1);
            let done = remove(&mut self.store, self.db, last);
            self.replies.add_done(done);
        }
    }

    fn remove_first(&mut self, count: u32) {
        for _ in 0..count {
            let done = remove(&mut self.store, self.db, 0);
            self.replies.add_done(done);
        }
    }

    fn move_to_the_end(&mut self, count: u32) {
        let records = self.count();
        for _ in 0..count {
            let done = move_record(&mut self.store, self.db, 0, records);
            self.replies.add_done(done);
        }
    }

    fn move_to_the_front(&mut self, count: u32) {
        let last = self.count().saturating_sub(1);
        for _ in 0..count {
            let done = move_record(&mut self.store, self.db, last, 0);
            self.replies.add_done(done);
        }
    }

    fn ask(&mut self, passes: u32) {
        for _ in 0..passes {
            self.ask_each();
        }
    }

    /// Asks for each record.
    fn ask_each(&mut self) {
        for index in 0..self.count() {
            match record_info(&self.store, self.db, index) {
                Ok(info) => {
                    self.replies.add(info.attributes as u32);
                    self.replies.add(info.id);
                    self.replies.add(info.data.map_or(0, |name| name.0));
                }
                Err(refusal) => self.replies.add_refusal(refusal),
            }
        }
    }

    fn search(&mut self, passes: u32) {
        let records = self.count();
        let last = record_info(&self.store, self.db, records.saturating_sub(1));
        if let Ok(info) = last {
            for _ in 0..passes {
                let index = self.index_of(info.id, records);
                self.replies.add(index);
            }
        }
    }

    /// Returns the index of the record with an ID, or the number of records if none has it.
    fn index_of(&self, id: u32, records: u32) -> u32 {
        for index in 0..records {
            if matches!(record_info(&self.store, self.db, index), Ok(info) if info.id == id) {
                return index;
            }
        }
        records
    }

    fn find_last(&mut self, passes: u32) {
        let last = record_info(&self.store, self.db, self.count().saturating_sub(1));
        if let Ok(info) = last {
            for _ in 0..passes {
                let found = find_by_id(&self.store, self.db, info.id);
                self.replies.add_number(found);
            }
        }
    }

    fn count_category(&mut self, passes: u32) {
        for _ in 0..passes {
            let number = num_in_category(&self.store, self.db, 0);
            self.replies.add_number(number);
        }
    }

    fn move_all(&mut self, passes: u32) {
        for pass in 0..passes {
            let from = if pass % 2 == 0 { 0 } else { 1 };
            let done = move_category(&mut self.store, self.db, 1 - from, from, false);
            self.replies.add_done(done);
        }
    }

    fn detach_and_attach(&mut self, count: u32) {
        for _ in 0..count {
            let last = self.count().saturating_sub(1);
            let index = self.attach_again(last);
            self.replies.add_number(index);
        }
    }

    /// Detaches a record, and attaches its data as the last record.
    fn attach_again(&mut self, index: u32) -> Result<u32, Refusal> {
        let name = detach(&mut self.store, self.db, index, CALLER)?;
        attach(&mut self.store, self.db, AT_END, name)
    }

    fn categorize(&mut self) {
        for half in 0..self.count() / 2 {
            let done = set_record_info(&mut self.store, self.db, 2 * half + 1, DELETED_CATEGORY, 0);
            self.replies.add_done(done);
        }
    }

    /// Deletes every second record by its category.
    fn delete_categorized(&mut self) {
        let done = delete_category(&mut self.store, self.db, DELETED_CATEGORY);
        self.replies.add_done(done);
    }

    /// Adds the sums of all replies, and the sums of the words of the images.
    pub(crate) fn add_to(self, sums: &mut Sums) {
        sums.add(self.replies, region_of(self.store).as_slice());
        self.resources.add_to(sums);
    }
}
