//! The check of a whole image.
#![tactic(auto, using(laws_heap::proofs::Lending::all_misses, laws_heap::proofs::Lending::all_within, laws_heap::proofs::LentBodies::none_lends))]

ghost use Rattle.std.specs.Prelude.{[], ◌≡◌, ◌≤◌, true, false, length, map, IfOk, IfErr, OnOk, OnErr, None};
ghost use Rattle.heap_model.specs.Slots.{is_chained as model_chained};
ghost use Rattle.heap_model.specs.Heap.{IsHead, HeapAccepted};
ghost use Rattle.bit_sets.specs.Sets.{HasNone};
ghost use Rattle.heap_check.specs.Bits.{bits_size, AreEnoughBits};
ghost use Rattle.heap_check.specs.Faults.{IsFirstHeapFault};
ghost use Rattle.heap_check.specs.Owners.{most_slots, marks_needed, NoneMarked, HasOwners};
ghost use Rattle.heap_check.specs.Summary.{Summarizes};

use crate::bits::{bits_needed, no_bits};
use crate::chained::check_chained;
use crate::directory::has_directory;
use crate::fault::HeapFault;
use crate::head::check_head;
use crate::marks::{MOST_MARKS, Mark};
use crate::owners::note_owners;
use crate::slots::find_unmarked;
use crate::summary::Summary;
use crate::survey::survey_chunks;
use chunk_format::is_chained;
use master_table::OneTable;
use raw_region::Region;

/// Checks whether the bytes of a region are an accepted heap, and returns its counts. It takes no
/// memory and changes nothing. Without a chain of tables it walks once over the chunks and once
/// over the slots. With a chain it keeps its bits on the stack, which takes 512 KiB more.
///
/// # Errors
/// The first fault of the image, in the order of `faults`.
pub fn check_heap(region: &Region) -> Result<Summary, HeapFault>
    requires { region.now.lents ≡ [] }
    ensures accepted { OnOk result (HeapAccepted region.now.bytes) }
    ensures summary { IfOk result (Summarizes region.now.bytes) }
    ensures fault { IfErr result (IsFirstHeapFault region.now.bytes) }
    ensures refused { OnErr result (HeapAccepted region.now.bytes → ⊥) }
{
    if bits_needed(region) == 0 {
        return check_heap_with(region, &mut []);
    }
    check_with_own_bits(region)
}

/// Does the same with bits on the stack. It is never inlined: an image without a chain would pay
/// for the stack space of the bits.
#[inline(never)]
fn check_with_own_bits(region: &Region) -> Result<Summary, HeapFault>
    requires { region.now.lents ≡ [] }
    ensures accepted { OnOk result (HeapAccepted region.now.bytes) }
    ensures summary { IfOk result (Summarizes region.now.bytes) }
    ensures fault { IfErr result (IsFirstHeapFault region.now.bytes) }
    ensures refused { OnErr result (HeapAccepted region.now.bytes → ⊥) }
{
    let mut bits = no_bits();
    check_heap_with(region, &mut bits)
}

/// Checks a heap as `check_heap` does, with bits of the caller's. `bits_needed` returns how many
/// bytes of them are enough. Afterwards some bits may be set.
///
/// # Errors
/// The first fault of the image, in the order of `faults`.
pub fn check_heap_with(region: &Region, bits: &mut [u8]) -> Result<Summary, HeapFault>
    requires whole { region.now.lents ≡ [] }
    requires room { AreEnoughBits region.now.bytes (length bits.old) }
    requires clear { HasNone bits.old }
    ensures accepted { OnOk result (HeapAccepted region.now.bytes) }
    ensures summary { IfOk result (Summarizes region.now.bytes) }
    ensures fault { IfErr result (IsFirstHeapFault region.now.bytes) }
    ensures refused { OnErr result (HeapAccepted region.now.bytes → ⊥) }
{
    match check_head(region) {
        Ok(()) => {
            if is_chained(region) {
                check_chained(region, bits)
            } else {
                check_with_marks(region)
            }
        }
        Err(fault) => Err(fault),
    }
}

/// Checks a heap as `check_heap_with` does, and also marks each slot with the owner of its chunk.
/// The caller supplies the marks too: `marks_needed` returns how many are enough. If the heap is
/// refused, some slots may be marked.
///
/// # Errors
/// The first fault of the image, in the order of `faults`.
pub fn check_heap_noting(
    region: &Region,
    bits: &mut [u8],
    owners: &mut [u8],
) -> Result<Summary, HeapFault>
    requires whole { region.now.lents ≡ [] }
    requires enough { AreEnoughBits region.now.bytes (length bits.old) }
    requires none { HasNone bits.old }
    requires room { marks_needed region.now.bytes ≤ length owners.old }
    requires clear { NoneMarked owners.old }
    ensures accepted { OnOk result (HeapAccepted region.now.bytes) }
    ensures summary { IfOk result (Summarizes region.now.bytes) }
    ensures fault { IfErr result (IsFirstHeapFault region.now.bytes) }
    ensures refused { OnErr result (HeapAccepted region.now.bytes → ⊥) }
    ensures owners { OnOk result (HasOwners region.now.bytes owners.new) }
    ensures len { length owners.new ≡ length owners.old }
{
    match check_head(region) {
        Ok(()) => {
            if is_chained(region) {
                check_chained_noting(region, bits, owners)
            } else {
                check_area(region, owners)
            }
        }
        Err(fault) => Err(fault),
    }
}

/// Checks an image with a chain after its head was found right, and then notes owners.
fn check_chained_noting(
    region: &Region,
    bits: &mut [u8],
    owners: &mut [u8],
) -> Result<Summary, HeapFault>
    requires whole { region.now.lents ≡ [] }
    requires head { IsHead region.now.bytes }
    requires chained { model_chained region.now.bytes ≡ true }
    requires enough { bits_size ≤ length bits.old }
    requires none { HasNone bits.old }
    requires room { marks_needed region.now.bytes ≤ length owners.old }
    requires clear { NoneMarked owners.old }
    ensures accepted { OnOk result (HeapAccepted region.now.bytes) }
    ensures summary { IfOk result (Summarizes region.now.bytes) }
    ensures fault { IfErr result (IsFirstHeapFault region.now.bytes) }
    ensures owners { OnOk result (HasOwners region.now.bytes owners.new) }
    ensures len { length owners.new ≡ length owners.old }
{
    let summary = match check_chained(region, bits) {
        Ok(summary) => summary,
        Err(fault) => return Err(fault),
    };
    note_owners(region, owners);
    Ok(summary)
}

/// Checks the chunks and the slots after a right head, with its own marks. It is never inlined:
/// next to the code for chains the walk has too few registers.
#[inline(never)]
fn check_with_marks(region: &Region) -> Result<Summary, HeapFault>
    requires whole { region.now.lents ≡ [] }
    requires head { IsHead region.now.bytes }
    requires plain { model_chained region.now.bytes ≡ false }
    ensures accepted { OnOk result (HeapAccepted region.now.bytes) }
    ensures summary { IfOk result (Summarizes region.now.bytes) }
    ensures fault { IfErr result (IsFirstHeapFault region.now.bytes) }
{
    let mut marks = [false; MOST_MARKS];
    check_area(region, &mut marks)
}

/// Checks the chunks and the slots after a right head, with a mark for the slot of each number.
fn check_area<M: Mark>(region: &Region, marks: &mut [M]) -> Result<Summary, HeapFault>
    requires whole { region.now.lents ≡ [] }
    requires head { IsHead region.now.bytes }
    requires plain { model_chained region.now.bytes ≡ false }
    requires room { most_slots ≤ length marks.old }
    requires clear { NoneMarked (map M.says marks.old) }
    ensures accepted { OnOk result (HeapAccepted region.now.bytes) }
    ensures summary { IfOk result (Summarizes region.now.bytes) }
    ensures fault { IfErr result (IsFirstHeapFault region.now.bytes) }
    ensures owners { M.notes ≡ true
        → OnOk result (HasOwners region.now.bytes (map M.says marks.new)) }
    ensures len { length marks.new ≡ length marks.old }
{
    let table = OneTable::of(region);
    let survey = match survey_chunks(region, table, marks) {
        Ok(survey) => survey,
        Err(at) => return Err(HeapFault::BadChunk(at)),
    };
    if let Some(slot) = find_unmarked(region, table, marks) {
        return Err(HeapFault::SlotMismatch(slot));
    }
    if let Some(at) = survey.without_slot {
        return Err(HeapFault::ChunkWithoutSlot(at));
    }
    if let Some(at) = survey.bad_owner {
        return Err(HeapFault::BadFixedOwner(at));
    }
    if !has_directory(region, table) {
        return Err(HeapFault::BadDirectory);
    }
    Ok(Summary {
        size: region.len() as u32,
        slots: table.count(),
        movable: survey.movable,
        fixed: survey.fixed,
        free: survey.free,
    })
}
