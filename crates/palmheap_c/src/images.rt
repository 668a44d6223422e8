//! Functions on images. They keep no state between calls.

ghost use Rattle.std.specs.Prelude.{[], ◌≡◌, ◌≢◌, ◌⊎◌, IfErr, IfOk, OnErr, OnOk, length};
ghost use Rattle.allowance.specs.Refusals.{GrowthRefused};
ghost use Rattle.chunk_format.specs.Blank.{IsBlank, IsRegionSize, LeavesRoom};
ghost use Rattle.bit_sets.specs.Sets.{HasNone};
ghost use Rattle.heap_check.specs.Bits.{AreEnoughBits};
ghost use Rattle.heap_model.specs.Store.{Accepted};
ghost use Rattle.store_check.specs.Checks.{SummarizesStore};
ghost use Rattle.palmheap_c.specs.Answers.{IsImageAnswer, IsImageFault, IsMemoryAnswer, bad_size, bad_slot_count, no_fault, memory_answer};

use crate::answers::{Answer, BAD_SIZE, BAD_SLOT_COUNT, NO_FAULT, NO_MEMORY, of_store};
use crate::counts::{Counts, counts_of};
use allowance::zeros;
use chunk_format::{BlankFault, blank};
use heap_check::bits_needed;
use raw_region::Region;
use std::alloc::{AllocError, Global};
use store_check::{StoreSummary, check_store_with};

/// Makes an image of all the bytes of a buffer, with this number of slots and without chunks. The
/// layout is this project's own (docs/FORMAT.md).
#[unsafe(no_mangle)]
pub extern "C" fn palmheap_new(alloc: Global, image: &mut [u8], slots: u16) -> Answer
    ensures made { result ≡ no_fault
        → IsBlank (length image.old) slots image.new × Accepted image.new }
    ensures size { result ≡ bad_size → IsRegionSize (length image.old) → ⊥ }
    ensures slots { result ≡ bad_slot_count
        → IsRegionSize (length image.old) × (LeavesRoom (length image.old) slots → ⊥) }
    ensures short { result ≡ memory_answer → GrowthRefused }
    ensures left { result ≢ no_fault → image.new ≡ image.old }
    ensures which { (result ≡ no_fault) ⊎ (result ≡ bad_size) ⊎ (result ≡ bad_slot_count)
        ⊎ (result ≡ memory_answer) }
{
    let Ok(size) = u32::try_from(image.len()) else {
        return BAD_SIZE;
    };
    match blank(alloc, size, slots) {
        Ok(region) => {
            image.copy_from_slice(region.as_slice());
            NO_FAULT
        }
        Err(BlankFault::OutOfMemory) => NO_MEMORY,
        Err(BlankFault::BadSize) => BAD_SIZE,
        Err(BlankFault::BadSlotCount) => BAD_SLOT_COUNT,
    }
}

/// Checks whether some bytes are an accepted image, and returns their first fault. If the image is
/// accepted, sets `counts`.
#[unsafe(no_mangle)]
pub extern "C" fn palmheap_check(alloc: Global, image: &[u8], counts: &mut Counts) -> Answer
    ensures { IsImageAnswer image.now counts.old counts.new result }
{
    match checked(alloc, image) {
        Ok((_, summary)) => {
            *counts = counts_of(&summary);
            NO_FAULT
        }
        Err(answer) => answer,
    }
}

/// Copies an image and checks the copy. Returns it and its counts.
pub(crate) fn checked(alloc: Global, image: &[u8]) -> Result<(Region, StoreSummary), Answer>
    ensures bytes { IfOk result (λ checked. checked.0.bytes ≡ image.now) }
    ensures whole { IfOk result (λ checked. checked.0.lents ≡ []) }
    ensures accepted { OnOk result (Accepted image.now) }
    ensures summary { IfOk result (λ checked. SummarizesStore image.now checked.1) }
    ensures refused { IfErr result (λ answer. IsMemoryAnswer answer ⊎ IsImageFault image.now answer) }
    ensures faulty { IfErr result (λ answer. answer ≢ no_fault) }
{
    let Ok(region) = Region::from_bytes(alloc, image) else {
        return Err(NO_MEMORY);
    };
    match check_region(alloc, &region) {
        Ok(summary) => Ok((region, summary)),
        Err(answer) => Err(answer),
    }
}

/// Checks a region. With a chain of tables it allocates the bits of the check, and frees them again.
/// It is never inlined: its caller has no stack for the marks of the check.
#[inline(never)]
pub(crate) fn check_region(alloc: Global, region: &Region) -> Result<StoreSummary, Answer>
    requires whole { region.now.lents ≡ [] }
    ensures accepted { OnOk result (Accepted region.now.bytes) }
    ensures summary { IfOk result (SummarizesStore region.now.bytes) }
    ensures refused { IfErr result
        (λ answer. IsMemoryAnswer answer ⊎ IsImageFault region.now.bytes answer) }
    ensures faulty { IfErr result (λ answer. answer ≢ no_fault) }
{
    let Ok(mut bits) = bits_for(alloc, region) else {
        return Err(NO_MEMORY);
    };
    match check_store_with(&alloc, region, &mut bits) {
        Ok(summary) => Ok(summary),
        Err(fault) => Err(of_store(fault)),
    }
}

/// Allocates the bits that the check of a region needs, if it has a chain of tables. None is set.
fn bits_for(alloc: Global, region: &Region) -> Result<Vec<u8>, AllocError>
    requires whole { region.now.lents ≡ [] }
    ensures enough { IfOk result (λ bits. AreEnoughBits region.now.bytes (length bits.items)) }
    ensures none { IfOk result (λ bits. HasNone bits.items) }
    ensures short { OnErr result GrowthRefused }
{
    zeros(&alloc, bits_needed(region))
}
