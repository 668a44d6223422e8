//! Marks for the words that can be slots. A mark counts how often its word was met, up to two.
#![tactic(auto, using(laws_heap::proofs::Lending::all_within, laws_heap::proofs::Lending::all_misses))]

ghost use Rattle.std.specs.Prelude.{◌≡◌, ◌≤◌, ◌<◌, ◌*◌, ◌^◌, ◌↔◌, ℕ, [], ◌∷◌, List, length, IsTrue, IfOk, OnErr, None};
ghost use Rattle.heap_model.specs.Slots.{slot_size};
ghost use Rattle.heap_model.specs.Heap.{HeapAccepted};
ghost use Rattle.heap_model.specs.Lists.{times};
ghost use Rattle.heap_check.specs.Owners.{marked_word};
ghost use Rattle.store_check.specs.Naming.{AreEnoughMarks, HasMark, AreMarks, AddsMarks};

use allowance::{Allowance, zeros};
use chunk_format::{FRAME_SIZE, SLOT_SIZE, is_chained, slot_count};
use heap_check::{mark_number, marks_needed};
use raw_region::Region;
use std::alloc::AllocError;

/// Returns how many marks an image gets: one for each slot of an only table, and with a chain of
/// tables one for each word of the image.
pub(crate) fn mark_count(region: &Region) -> usize
    requires whole { region.now.lents ≡ [] }
    requires accepted { HeapAccepted region.now.bytes }
    ensures room { AreEnoughMarks region.now.bytes result }
    ensures most { slot_size * result ≤ length region.now.bytes }
{
    if is_chained(region) {
        marks_needed(region)
    } else {
        slot_count(region) as usize
    }
}

/// Allocates `count` marks, none of which is set. The only error is a failed allocation.
pub(crate) fn no_marks<A: Allowance>(memory: &A, count: usize) -> Result<Vec<u8>, AllocError>
    ensures len { IfOk result (λ marks. length marks.items ≡ count) }
    ensures clear { IfOk result (λ marks. AreMarks [] marks.items) }
    ensures short { OnErr result (A.is_short memory.now) }
{
    zeros(memory, count)
}

/// Marks a slot once more. A word that can't be a slot has no mark.
#[inline]
pub(crate) fn mark(slot: u32, marks: &mut [u8])
    ensures { AddsMarks (slot ∷ []) marks.old marks.new }
{
    if let Some(number) = mark_number(slot) {
        if (number as usize) < marks.len() {
            if marks[number as usize] < 2 {
                marks[number as usize] += 1;
            }
        }
    }
}

/// Returns the offset of the word that the mark with a number belongs to.
pub(crate) fn word_of_mark(number: usize) -> u32
    requires { marked_word number < 2 ^ 24 }
    ensures { result ≡ marked_word number }
{
    FRAME_SIZE + SLOT_SIZE * number as u32
}

/// Returns whether a slot is marked.
#[inline]
pub(crate) fn is_marked(slot: u32, marks: &[u8]) -> bool
    ensures { (xs : List ℕ) → HasMark slot (length marks.now) → AreMarks xs marks.now
        → (IsTrue result ↔ (0 < times slot xs)) }
{
    match mark_number(slot) {
        Some(number) => (number as usize) < marks.len() && marks[number as usize] != 0,
        None => false,
    }
}
