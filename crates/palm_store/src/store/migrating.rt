//! The call that gives a store a chain of master pointer tables.

ghost use Rattle.std.specs.Prelude.{[], ◌≡◌, ◌≢◌, ◌↔◌, IfOk, IfErr, OnOk, OnErr, false, true};
ghost use Rattle.heap_model.specs.Slots.{is_chained};
ghost use Rattle.heap_model.specs.Store.{Accepted};
ghost use Rattle.heap_migration.specs.Stores.{IsMigrated, IsTooLarge};
ghost use Rattle.allowance.specs.Refusals.{GrowthRefused};

use crate::store::Store;
use allowance::Allowance;
use heap_migration::{MigrateFault, migrate_from};
use raw_region::Region;
use std::alloc::Global;

impl Store {
    /// Gives the store a chain of master pointer tables, so that `more_slots` can add tables. A
    /// store that has a chain is returned as it is, unless a body is lent.
    ///
    /// With an even number of slots the image grows by 8 bytes, and the names of fixed chunks grow
    /// by 8. It allocates the new image, and frees the old one.
    ///
    /// # Errors
    /// The store is returned unchanged with each error.
    /// - `Lent`: if a body is lent.
    /// - `TooLarge`: if the new image would be larger than 16,777,208 bytes.
    /// - `OutOfMemory`: if an allocation failed.
    pub fn migrate(self, alloc: Global) -> Result<Store, (MigrateFault, Store)>
        ensures migrated { IfOk result (λ store. IsMigrated self.bytes store.bytes) }
        ensures chained { is_chained self.bytes ≡ true → IfOk result (λ store. store ≡ self) }
        ensures unchained { self.lents ≡ [] → OnErr result (is_chained self.bytes ≡ false) }
        ensures fits { OnOk result (IsTooLarge self.bytes → ⊥) }
        ensures stays_whole { IfOk result (λ store. store.lents ≡ []) }
        ensures whole { OnOk result (self.lents ≡ []) }
        ensures lent { IfErr result (λ error.
            (error.0 ≡ MigrateFault.Lent) ↔ (self.lents ≢ [])) }
        ensures too_large { self.lents ≡ [] → IfErr result (λ error.
            (error.0 ≡ MigrateFault.TooLarge) ↔ IsTooLarge self.bytes) }
        ensures handed_back { IfErr result (λ error. error.1 ≡ self) }
        ensures no_memory { IfErr result (λ error.
            error.0 ≡ MigrateFault.OutOfMemory → GrowthRefused) }
    {
        self.migrate_from(&alloc)
    }

    /// The same as `migrate`, but the allocation asks for a grant. It reports `OutOfMemory` only if
    /// the allocation failed.
    pub fn migrate_from<A: Allowance>(self, memory: &A) -> Result<Store, (MigrateFault, Store)>
        ensures migrated { IfOk result (λ store. IsMigrated self.bytes store.bytes) }
        ensures chained { is_chained self.bytes ≡ true → IfOk result (λ store. store ≡ self) }
        ensures unchained { self.lents ≡ [] → OnErr result (is_chained self.bytes ≡ false) }
        ensures fits { OnOk result (IsTooLarge self.bytes → ⊥) }
        ensures stays_whole { IfOk result (λ store. store.lents ≡ []) }
        ensures whole { OnOk result (self.lents ≡ []) }
        ensures lent { IfErr result (λ error.
            (error.0 ≡ MigrateFault.Lent) ↔ (self.lents ≢ [])) }
        ensures too_large { self.lents ≡ [] → IfErr result (λ error.
            (error.0 ≡ MigrateFault.TooLarge) ↔ IsTooLarge self.bytes) }
        ensures handed_back { IfErr result (λ error. error.1 ≡ self) }
        ensures no_memory { IfErr result (λ error.
            error.0 ≡ MigrateFault.OutOfMemory → A.is_short memory.now) }
    {
        match self.into_region() {
            Ok(region) => migrate_region(memory, region),
            Err(store) => Err((MigrateFault::Lent, store)),
        }
    }
}

/// Migrates a region that lends nothing.
fn migrate_region<A: Allowance>(memory: &A, region: Region) -> Result<Store, (MigrateFault, Store)>
    requires accepted { Accepted region.bytes }
    requires whole { region.lents ≡ [] }
    ensures migrated { IfOk result (λ store. IsMigrated region.bytes store.bytes) }
    ensures chained { is_chained region.bytes ≡ true → IfOk result (λ store. store ≡ region) }
    ensures unchained { OnErr result (is_chained region.bytes ≡ false) }
    ensures fits { OnOk result (IsTooLarge region.bytes → ⊥) }
    ensures stays_whole { IfOk result (λ store. store.lents ≡ []) }
    ensures not_lent { IfErr result (λ error. error.0 ≢ MigrateFault.Lent) }
    ensures too_large { IfErr result (λ error.
        (error.0 ≡ MigrateFault.TooLarge) ↔ IsTooLarge region.bytes) }
    ensures handed_back { IfErr result (λ error. error.1 ≡ region) }
    ensures no_memory { IfErr result (λ error.
        error.0 ≡ MigrateFault.OutOfMemory → A.is_short memory.now) }
{
    match migrate_from(memory, region) {
        Ok(region) => Ok(Store::of_accepted(region)),
        Err((fault, region)) => Err((fault, Store::of_accepted(region))),
    }
}
