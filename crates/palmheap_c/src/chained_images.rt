//! The function that makes an image with a chain of master pointer tables.

ghost use Rattle.std.specs.Prelude.{[], ◌≡◌, ◌≢◌, ◌⊎◌, ◌+◌, ◌≤◌, IfErr, IfOk, length, false};
ghost use Rattle.allowance.specs.Refusals.{GrowthRefused};
ghost use Rattle.heap_migration.specs.Growth as growths;
ghost use Rattle.heap_model.specs.Frame.{most_size};
ghost use Rattle.heap_model.specs.Migration.{MigratesBytes};
ghost use Rattle.heap_model.specs.Slots.{is_chained};
ghost use Rattle.heap_model.specs.Store.{Accepted};
ghost use Rattle.palmheap_c.specs.Answers.{IsMemoryAnswer, bad_size, bad_slot_count, memory_answer, no_fault};
ghost use Rattle.palmheap_c.specs.ChainedImages.{HasChainSize, IsBlankChain, IsNoChain, LeavesChainRoom};

use crate::answers::{Answer, BAD_SIZE, BAD_SLOT_COUNT, NO_FAULT, NO_MEMORY};
use chunk_format::{BlankFault, blank, is_image_size};
use heap_migration::{MigrateFault, migrate_from};
use raw_region::Region;
use std::alloc::Global;

/// Makes an image of all the bytes of a buffer, with a chain of master pointer tables and without
/// chunks. The chain has one table, of this number of slots. The layout is this project's own
/// (docs/FORMAT.md).
#[unsafe(no_mangle)]
pub extern "C" fn palmheap_new_chained(alloc: Global, image: &mut [u8], slots: u16) -> Answer
    ensures made { result ≡ no_fault
        → IsBlankChain (length image.old) slots image.new × Accepted image.new }
    ensures size { result ≡ bad_size → HasChainSize (length image.old) slots → ⊥ }
    ensures slots { result ≡ bad_slot_count → HasChainSize (length image.old) slots
        × (LeavesChainRoom (length image.old) slots → ⊥) }
    ensures short { result ≡ memory_answer → GrowthRefused }
    ensures left { result ≢ no_fault → image.new ≡ image.old }
    ensures which { (result ≡ no_fault) ⊎ (result ≡ bad_size) ⊎ (result ≡ bad_slot_count)
        ⊎ (result ≡ memory_answer) }
{
    match blank_chain(alloc, image.len(), slots) {
        Ok(region) => {
            image.copy_from_slice(region.as_slice());
            NO_FAULT
        }
        Err(answer) => answer,
    }
}

/// Makes an image of `size` bytes with a chain of one table. That is the image which a blank one
/// becomes that lacks the word `next` and its padding.
fn blank_chain(alloc: Global, size: usize, slots: u16) -> Result<Region, Answer>
    ensures made { IfOk result (λ region. IsBlankChain size slots region.bytes) }
    ensures accepted { IfOk result (λ region. Accepted region.bytes) }
    ensures whole { IfOk result (λ region. region.lents ≡ []) }
    ensures refused { IfErr result (IsNoChain size slots) }
{
    if !is_image_size(size) {
        return Err(BAD_SIZE);
    }
    match blank(alloc, (size - growth(slots)) as u32, slots) {
        Ok(region) => chained(alloc, region),
        Err(BlankFault::OutOfMemory) => Err(NO_MEMORY),
        Err(BlankFault::BadSize) => Err(BAD_SIZE),
        Err(BlankFault::BadSlotCount) => Err(BAD_SLOT_COUNT),
    }
}

/// Returns the number of bytes that the word `next` and its padding take after this number of
/// slots.
fn growth(slots: u16) -> usize
    ensures is { result ≡ growths.growth slots }
    ensures few { result ≤ 8 }
{
    if slots % 2 == 0 { 8 } else { 0 }
}

/// Gives an image with one table a chain.
fn chained(alloc: Global, region: Region) -> Result<Region, Answer>
    requires accepted { Accepted region.bytes }
    requires whole { region.lents ≡ [] }
    requires one_table { is_chained region.bytes ≡ false }
    requires fits { length region.bytes + growths.growth_of region.bytes ≤ most_size }
    ensures bytes { IfOk result (λ grown.
        MigratesBytes region.bytes grown.bytes (growths.growth_of region.bytes)) }
    ensures accepted { IfOk result (λ grown. Accepted grown.bytes) }
    ensures whole { IfOk result (λ grown. grown.lents ≡ []) }
    ensures refused { IfErr result IsMemoryAnswer }
{
    match migrate_from(&alloc, region) {
        Ok(grown) => Ok(grown),
        Err((MigrateFault::OutOfMemory, _)) => Err(NO_MEMORY),
        Err((_, _)) => unreachable!(),
    }
}
