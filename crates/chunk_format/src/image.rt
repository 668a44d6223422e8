//! Blank images.
#![tactic(auto, using(laws_heap::proofs::Lending::all_within, laws_heap::proofs::Lending::all_misses))]

ghost use Rattle.std.specs.Prelude.{[], ◌≡◌, ◌↔◌, IfOk, Err, replicate};
ghost use Rattle.heap_model.specs.Store.{Accepted, store_of};
ghost use Rattle.chunk_format.specs.Blank.{IsRegionSize, LeavesRoom, IsPlanned, IsBlank, IsEmpty};
ghost use Rattle.chunk_format.specs.FaultNames.{blank_fault_name};
ghost use Rattle.allowance.specs.Refusals.{GrowthRefused};

use crate::frame::{is_image_size, start_behind, write_frame};
use crate::header::{HEADER_SIZE, Header};
use allowance::Allowance;
use raw_region::Region;
use std::alloc::Global;
use thiserror::Error;

/// The reason why no blank image was made. The reasons are tested in this order.
#[derive(Clone, Copy, Debug, PartialEq, Eq, Error)]
#[error("{}", self.name())]
pub enum BlankFault {
    /// The size is below 64 or above 16,777,208, or isn't a multiple of 8.
    BadSize,
    /// There are no slots, or they leave less than 8 bytes after the table and its padding.
    BadSlotCount,
    /// The allocation failed.
    OutOfMemory,
}

impl BlankFault {
    /// Returns the name of the reason.
    pub fn name(self) -> &'static str
        ensures { result.now ≡ blank_fault_name self }
    {
        match self {
            BlankFault::BadSize => "BadSize",
            BlankFault::BadSlotCount => "BadSlotCount",
            BlankFault::OutOfMemory => "OutOfMemory",
        }
    }
}

/// Makes an image of `size` bytes with `slots` slots and one free chunk. All other bytes are zero.
/// The layout is this project's own (docs/FORMAT.md).
///
/// # Errors
/// - `BadSize`: no image may have this size.
/// - `BadSlotCount`: there are no slots, or they leave no room for a chunk.
/// - `OutOfMemory`: the allocation failed.
pub fn blank(alloc: Global, size: u32, slots: u16) -> Result<Region, BlankFault>
    ensures blank { IfOk result (λ region. IsBlank size slots region.bytes) }
    ensures accepted { IfOk result (λ region. Accepted region.bytes) }
    ensures empty { IfOk result (λ region. IsEmpty (store_of region.bytes)) }
    ensures whole { IfOk result (λ region. region.lents ≡ []) }
    ensures size { (result ≡ Err BlankFault.BadSize) ↔ (IsRegionSize size → ⊥) }
    ensures slots { (result ≡ Err BlankFault.BadSlotCount)
        ↔ (IsRegionSize size × (LeavesRoom size slots → ⊥)) }
    ensures no_memory { result ≡ Err BlankFault.OutOfMemory → GrowthRefused }
{
    blank_from(&alloc, size, slots)
}

/// Makes a blank image as `blank` does, with memory from an allowance.
///
/// # Errors
/// - `BadSize`: no image may have this size.
/// - `BadSlotCount`: there are no slots, or they leave no room for a chunk.
/// - `OutOfMemory`: the allocation failed.
pub fn blank_from<A: Allowance>(memory: &A, size: u32, slots: u16) -> Result<Region, BlankFault>
    ensures blank { IfOk result (λ region. IsBlank size slots region.bytes) }
    ensures accepted { IfOk result (λ region. Accepted region.bytes) }
    ensures empty { IfOk result (λ region. IsEmpty (store_of region.bytes)) }
    ensures whole { IfOk result (λ region. region.lents ≡ []) }
    ensures size { (result ≡ Err BlankFault.BadSize) ↔ (IsRegionSize size → ⊥) }
    ensures slots { (result ≡ Err BlankFault.BadSlotCount)
        ↔ (IsRegionSize size × (LeavesRoom size slots → ⊥)) }
    ensures no_memory { result ≡ Err BlankFault.OutOfMemory → A.is_short memory.now }
{
    if !is_image_size(size as usize) {
        return Err(BlankFault::BadSize);
    }
    let start = start_behind(slots);
    if slots == 0 || size < start + HEADER_SIZE {
        return Err(BlankFault::BadSlotCount);
    }
    let Ok(mut region) = Region::zeroed_from(memory, size) else {
        return Err(BlankFault::OutOfMemory);
    };
    write_blank(&mut region, size, slots, start);
    Ok(region)
}

/// Writes a head and one free chunk into zeros.
fn write_blank(region: &mut Region, size: u32, slots: u16, start: u32)
    requires zeros { region.old.bytes ≡ replicate size 0 }
    requires planned { IsPlanned size slots start }
    requires whole { region.old.lents ≡ [] }
    ensures blank { IsBlank size slots region.new.bytes }
    ensures whole { region.new.lents ≡ [] }
{
    write_frame(region, size, slots);
    Header::Free { size: size - start }.write(region, start);
}
