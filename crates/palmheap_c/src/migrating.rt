//! The function that migrates an image. It needs no open store.

ghost use Rattle.std.specs.Prelude.{[], ◌≡◌, IfOk, IfErr, OnOk};
ghost use Rattle.heap_migration.specs.Stores.{IsMigrated};
ghost use Rattle.heap_model.specs.Store.{Accepted};
ghost use Rattle.palmheap_c.specs.Buffers.{buffer};
ghost use Rattle.palmheap_c.specs.Migrating.{IsMigrateAnswer, IsNotMigrated};

use crate::answers::{Answer, NO_MEMORY, TOO_LARGE_TO_MIGRATE};
use crate::buffers::put_bytes;
use crate::images::checked;
use heap_migration::{MigrateFault, migrate_from};
use raw_region::Region;
use std::alloc::Global;

/// Writes the image with a chain of tables that an image becomes into a buffer. Of an image that has
/// a chain, that is the image itself. Sets `count` to its size in bytes, also if the buffer is too
/// short for it.
#[unsafe(no_mangle)]
pub extern "C" fn palmheap_migrate(
    alloc: Global,
    image: &[u8],
    migrated: &mut [u8],
    count: &mut usize,
) -> Answer
    ensures { IsMigrateAnswer image.now
        (buffer migrated.old count.old) (buffer migrated.new count.new) result }
{
    match migrated_of(alloc, image) {
        Ok(region) => put_bytes(region.as_slice(), migrated, count),
        Err(answer) => answer,
    }
}

/// Returns the image with a chain of tables that an image becomes.
fn migrated_of(alloc: Global, image: &[u8]) -> Result<Region, Answer>
    ensures accepted { OnOk result (Accepted image.now) }
    ensures migrated { IfOk result (λ grown. IsMigrated image.now grown.bytes) }
    ensures whole { IfOk result (λ grown. grown.lents ≡ []) }
    ensures refused { IfErr result (IsNotMigrated image.now) }
{
    match checked(alloc, image) {
        Ok((region, _)) => grown(alloc, region),
        Err(answer) => Err(answer),
    }
}

/// Gives an accepted image a chain of tables, if it has none.
fn grown(alloc: Global, region: Region) -> Result<Region, Answer>
    requires accepted { Accepted region.bytes }
    requires whole { region.lents ≡ [] }
    ensures migrated { IfOk result (λ grown. IsMigrated region.bytes grown.bytes) }
    ensures whole { IfOk result (λ grown. grown.lents ≡ []) }
    ensures refused { IfErr result (IsNotMigrated region.bytes) }
{
    match migrate_from(&alloc, region) {
        Ok(grown) => Ok(grown),
        Err((MigrateFault::OutOfMemory, _)) => Err(NO_MEMORY),
        Err((MigrateFault::TooLarge, _)) => Err(TOO_LARGE_TO_MIGRATE),
        Err((MigrateFault::Lent, _)) => unreachable!(),
    }
}
