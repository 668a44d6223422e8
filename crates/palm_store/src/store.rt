//! The store. Its calls are in the modules below:
//!
//! - `asking`, `changing`, `making`: the calls of the memory manager. They read, change a chunk at
//!   its place, or make, free and move chunks.
//! - `loans`: the calls that take the bytes of a chunk out and put them back.
//! - `migrating`: the call that gives a store a chain of tables.
//! - `databases`, `blocks`: the calls on databases and on their info blocks.
//! - `entries`, `attributes`: the calls on entries, for the crates of records and resources.
//! - `whole`, `files`: the calls that make a whole database, fill its data and read it, for the
//!   crate of files.

ghost use Rattle.std.specs.Prelude.{[], ◌≡◌, ◌≢◌, ◌⊎◌, ◌↔◌, is_ok, IfOk, IfErr, OnOk, OnErr, Err, None};
ghost use Rattle.heap_model.specs.Store.{Accepted};
ghost use Rattle.palm_text.specs.Counted.{Writes};
ghost use Rattle.store_check.specs.Checks.{IsAnswered, SummarizesStore};
ghost use Rattle.allowance.specs.Refusals.{GrowthRefused};

mod asking;
mod attributes;
mod blocks;
mod changing;
mod databases;
mod entries;
mod files;
mod loans;
mod making;
mod migrating;
mod whole;

use crate::entries::{KnownIds, NOTHING_KNOWN};
use crate::lookup::count_databases;
use allowance::Allowance;
use mem_manager::Heap;
use palm_text::{Counted, put_all};
use raw_region::Region;
use std::alloc::Global;
use std::fmt;
use std::io::Write;
use std::marker::Model;
use store_check::{StoreFault, StoreSummary, check_store};
use thiserror::Error;

/// A region that is an accepted image. Contracts see only the region's value. Only `check`,
/// `of_accepted`, `put_back`, the methods on entries and those for files have a precondition. Every
/// other method refuses a call that it can't do. The store gives neither its region nor its heap
/// away, so only its calls write to them.
#[derive(Drop)]
pub struct Store {
    heap: Heap,
    /// IDs that a pass over the entries of a database has found to be free. A call that gives a
    /// record an ID keeps those after it. A call that changes the directory, or all records,
    /// forgets all of them.
    known: KnownIds,
}

impl Model for Store {
    ghost use Rattle.heap_model.specs.Memory.{Memory};
    ghost use Rattle.palm_store.specs.KnownIds.{IsStore};

    ghost Value = { Memory };

    ghost view = { λ store. store.heap };

    ghost invariant = { λ store. IsStore store.heap.bytes store.known };
}

/// A region that is no accepted image, or for whose check an allocation failed. It contains the
/// unchanged region, and the first fault.
#[derive(Drop, Error)]
#[error("{fault}")]
pub struct NotAStore {
    pub fault: StoreFault,
    pub region: Region,
}

impl fmt::Debug for NotAStore {
    fn fmt<W: fmt::Write>(&self, f: &mut fmt::Formatter<W>) -> fmt::Result {
        f.debug_struct("NotAStore")
            .field("fault", &self.fault)
            .finish()
    }
}

/// Why an image was not written, or not completely.
#[derive(Clone, Copy, Debug, PartialEq, Eq, Error)]
pub enum ImageFault {
    /// A body is lent, so its bytes are not in the image.
    #[error("Lent")]
    Lent,
    /// A write failed, or wrote 0 bytes.
    #[error("Write")]
    Write,
}

impl Store {
    /// Makes a store of a region that is an accepted image, and returns any other region. The check
    /// allocates a mark for each slot, or, with a chain of tables, two for each word of the image.
    /// It then allocates a bit for each number up to the greatest ID, at least 32 KiB and at most 2
    /// MiB. It frees this memory again.
    pub fn check(alloc: Global, region: Region) -> Result<Store, NotAStore>
        requires { region.lents ≡ [] }
        ensures accepted { OnOk result (Accepted region.bytes) }
        ensures same { IfOk result (λ store. store ≡ region) }
        ensures fault { IfErr result (λ error. IsAnswered region.bytes error.fault) }
        ensures refused { IfErr result (λ error.
            (error.fault ≡ StoreFault.OutOfMemory) ⊎ (Accepted region.bytes → ⊥)) }
        ensures handed_back { IfErr result (λ error. error.region ≡ region) }
        ensures no_memory { IfErr result (λ error.
            error.fault ≡ StoreFault.OutOfMemory → GrowthRefused) }
    {
        Store::check_from(&alloc, region)
    }

    /// The same as `check`, but each allocation asks for a grant. It reports `OutOfMemory` only if
    /// an allocation failed.
    pub fn check_from<A: Allowance>(memory: &A, region: Region) -> Result<Store, NotAStore>
        requires { region.lents ≡ [] }
        ensures accepted { OnOk result (Accepted region.bytes) }
        ensures same { IfOk result (λ store. store ≡ region) }
        ensures fault { IfErr result (λ error. IsAnswered region.bytes error.fault) }
        ensures refused { IfErr result (λ error.
            (error.fault ≡ StoreFault.OutOfMemory) ⊎ (Accepted region.bytes → ⊥)) }
        ensures handed_back { IfErr result (λ error. error.region ≡ region) }
        ensures no_memory { IfErr result (λ error.
            error.fault ≡ StoreFault.OutOfMemory → A.is_short memory.now) }
    {
        match check_store(memory, &region) {
            Ok(_) => Ok(Store::of_accepted(region)),
            Err(fault) => Err(NotAStore { fault, region }),
        }
    }

    /// Makes a store of a region that was checked before, as by `check_store_with` of store_check.
    /// It allocates nothing, and reads only the chain of tables.
    pub fn of_accepted(region: Region) -> Store
        requires accepted { Accepted region.bytes }
        requires whole { region.lents ≡ [] }
        ensures same { result ≡ region }
    {
        Store {
            heap: Heap::of_accepted(region),
            known: NOTHING_KNOWN,
        }
    }

    /// Returns the region. If a part of it is lent, returns the store instead.
    pub fn into_region(self) -> Result<Region, Store>
        ensures same { IfOk result (λ region. region ≡ self) }
        ensures accepted { IfOk result (λ region. Accepted region.bytes) }
        ensures whole { OnOk result (self.lents ≡ []) }
        ensures lent { OnErr result (self.lents ≢ []) }
        ensures handed_back { IfErr result (λ store. store ≡ self) }
    {
        let Store { heap, known } = self;
        match heap.into_region() {
            Ok(region) => Ok(region),
            Err(heap) => Err(Store { heap, known }),
        }
    }

    /// Returns the counts of the chunks and of the databases. It walks the chunks.
    pub fn summary(&self) -> StoreSummary
        ensures { SummarizesStore self.now.bytes result }
    {
        StoreSummary {
            heap: self.heap.summary(),
            databases: count_databases(&self.heap),
        }
    }

    /// Writes the image, and flushes nothing. If a write fails or writes 0 bytes, a prefix of the
    /// image was written. While a body is lent, nothing is written.
    pub fn write_image<W: Write>(&self, writer: &mut Counted<W>) -> Result<(), ImageFault>
        ensures lent { (result ≡ Err ImageFault.Lent) ↔ (self.now.lents ≢ []) }
        ensures nothing { self.now.lents ≢ [] → writer.new ≡ writer.old }
        ensures writes { self.now.lents ≡ []
            → Writes W.contents writer.old writer.new self.now.bytes (is_ok result) }
    {
        if !self.heap.is_whole() {
            return Err(ImageFault::Lent);
        }
        put_all(writer, self.heap.image()).map_err(|_| ImageFault::Write)
    }
}
