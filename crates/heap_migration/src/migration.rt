//! The image that results from a migration.
#![tactic(auto, using(laws_heap::proofs::Lending::all_within, laws_heap::proofs::Lending::all_misses))]

ghost use Rattle.std.specs.Prelude.{[], ◌≡◌, ◌<◌, ◌+◌, ◌≢◌, ◌↔◌, IfOk, IfErr, OnOk, OnErr, Err, length, true, false};
ghost use Rattle.heap_model.specs.Frame.{most_size};
ghost use Rattle.heap_model.specs.Heap.{HeapAccepted};
ghost use Rattle.heap_model.specs.Slots.{is_chained as model_chained};
ghost use Rattle.heap_model.specs.Migration.{MigratesBytes};
ghost use Rattle.heap_model.specs.Store.{Accepted};
ghost use Rattle.heap_migration.specs.FaultNames.{migrate_fault_name};
ghost use Rattle.heap_migration.specs.Growth.{growth_of};
ghost use Rattle.heap_migration.specs.Stores.{IsMigrated, IsTooLarge};

use crate::chunks::write_chunks;
use crate::head::{growth, write_head};
use allowance::Allowance;
use chunk_format::{is_chained, is_image_size, slot_count};
use raw_region::Region;
use std::error::Error;
use std::fmt::{self, Display};

/// The reason why an image isn't migrated. The reasons are tested in this order.
#[derive(Clone, Copy, Debug, PartialEq, Eq)]
pub enum MigrateFault {
    /// The body of a chunk is lent. `migrate_from` takes no region with a lent part, so it never
    /// returns this fault: its caller does.
    Lent,
    /// The new image would be larger than 16,777,208 bytes.
    TooLarge,
    /// The allocation failed.
    OutOfMemory,
}

impl MigrateFault {
    /// Returns the name of the reason.
    pub fn name(self) -> &'static str
        ensures { result.now ≡ migrate_fault_name self }
    {
        match self {
            MigrateFault::Lent => "Lent",
            MigrateFault::TooLarge => "TooLarge",
            MigrateFault::OutOfMemory => "OutOfMemory",
        }
    }
}

impl Display for MigrateFault {
    ghost use Rattle.std.specs.Prelude.{Some};
    ghost use Rattle.heap_migration.specs.FaultNames.{migrate_fault_name};

    ghost output = { λ fault. Some (migrate_fault_name fault) };

    fn fmt<W: fmt::Write>(&self, f: &mut fmt::Formatter<W>) -> fmt::Result {
        f.write_str(self.name())
    }
}

impl Error for MigrateFault {}

/// Turns an accepted image into one with a chain of tables. Returns an image that has a chain as it
/// is: for such an image there is no error.
///
/// # Errors
/// Each error returns the region, unchanged.
/// - `TooLarge`: the new image would be larger than 16,777,208 bytes.
/// - `OutOfMemory`: an allocation failed.
pub fn migrate_from<A: Allowance>(
    memory: &A,
    region: Region,
) -> Result<Region, (MigrateFault, Region)>
    requires accepted { Accepted region.bytes }
    requires whole { region.lents ≡ [] }
    ensures migrated { IfOk result (λ grown. IsMigrated region.bytes grown.bytes) }
    ensures accepted { IfOk result (λ grown. Accepted grown.bytes) }
    ensures whole { IfOk result (λ grown. grown.lents ≡ []) }
    ensures chained { model_chained region.bytes ≡ true → IfOk result (λ grown. grown ≡ region) }
    ensures unchained { OnErr result (model_chained region.bytes ≡ false) }
    ensures fits { OnOk result (IsTooLarge region.bytes → ⊥) }
    ensures too_large { IfErr result (λ error.
        (error.0 ≡ MigrateFault.TooLarge) ↔ IsTooLarge region.bytes) }
    ensures not_lent { IfErr result (λ error. error.0 ≢ MigrateFault.Lent) }
    ensures handed_back { IfErr result (λ error. error.1 ≡ region) }
    ensures no_memory { IfErr result (λ error.
        error.0 ≡ MigrateFault.OutOfMemory → A.is_short memory.now) }
{
    if is_chained(&region) {
        return Ok(region);
    }
    match grown_from(memory, &region) {
        Ok(grown) => Ok(grown),
        Err(fault) => Err((fault, region)),
    }
}

/// Makes the image with a chain of tables from an image with one table, in a region of its own.
fn grown_from<A: Allowance>(memory: &A, image: &Region) -> Result<Region, MigrateFault>
    requires accepted { HeapAccepted image.now.bytes }
    requires one_table { model_chained image.now.bytes ≡ false }
    requires whole { image.now.lents ≡ [] }
    ensures bytes { IfOk result (λ grown.
        MigratesBytes image.now.bytes grown.bytes (growth_of image.now.bytes)) }
    ensures whole { IfOk result (λ grown. grown.lents ≡ []) }
    ensures too_large { (result ≡ Err MigrateFault.TooLarge)
        ↔ (most_size < length image.now.bytes + growth_of image.now.bytes) }
    ensures no_memory { result ≡ Err MigrateFault.OutOfMemory → A.is_short memory.now }
    ensures not_lent { result ≢ Err MigrateFault.Lent }
{
    let by = growth(slot_count(image));
    let size = image.len() + by as usize;
    if !is_image_size(size) {
        return Err(MigrateFault::TooLarge);
    }
    let Ok(mut grown) = Region::zeroed_from(memory, size as u32) else {
        return Err(MigrateFault::OutOfMemory);
    };
    write_head(image, &mut grown, by);
    write_chunks(image, &mut grown, by);
    Ok(grown)
}
