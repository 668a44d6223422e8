//! Marks for slots: whether the chunk of a slot was met and, if the caller needs it, the owner of
//! the chunk.
#![tactic(auto, using(laws_heap::proofs::Lending::all_misses, laws_heap::proofs::Lending::all_within, laws_heap::proofs::LentBodies::none_lends))]

ghost use Rattle.std.specs.Prelude.{[], ◌≡◌, ◌≢◌, ◌≤◌, ◌↔◌, ℕ, Bool, true, false, List, IsTrue, IfSome, IfNone, None};
ghost use Rattle.heap_model.specs.Frame.{HasFrame};
ghost use Rattle.heap_check.specs.Owners.{no_owner_mark, noted_owner, met_owner, marked_word, marks_needed as model_needed};

use chunk_format::{FRAME_SIZE, SLOT_SIZE, is_chained};
use raw_region::Region;

/// The number of marks that is enough for any image without a chain: the most slots that it can
/// have, and one mark more.
pub const MOST_MARKS: usize = 65_536;

/// The mark of a slot that has no chunk, if marks are owners. No chunk has this owner.
pub const NO_OWNER: u8 = 16;

/// Returns how many marks are enough for the slots of an image. With a chain it is a mark for each
/// word. Without a chain it is `MOST_MARKS - 1`.
pub fn marks_needed(region: &Region) -> usize
    requires whole { region.now.lents ≡ [] }
    ensures enough { model_needed region.now.bytes ≤ result }
    ensures exact { HasFrame region.now → result ≡ model_needed region.now.bytes }
{
    if region.len() >= FRAME_SIZE as usize && is_chained(region) {
        region.len() / SLOT_SIZE as usize
    } else {
        MOST_MARKS - 1
    }
}

/// Returns the number of the mark for the word at an offset, if one of the words after the frame
/// begins there.
#[inline]
pub fn mark_number(slot: u32) -> Option<u32>
    ensures some { IfSome result (λ number. marked_word number ≡ slot) }
    ensures none { IfNone result ((number : ℕ) → marked_word number ≡ slot → ⊥) }
{
    if slot < FRAME_SIZE || slot % SLOT_SIZE != 0 {
        return None;
    }
    Some((slot - FRAME_SIZE) / SLOT_SIZE)
}

/// The mark that a walk over the chunks gives to a slot.
pub(crate) trait Mark: Copy {
    /// Whether a mark notes the owner.
    ghost notes: { Bool };

    /// The meaning of a mark: the owner that was noted, or none.
    ghost says: { Self → ℕ };

    /// Returns the mark of a slot whose chunk has this owner.
    fn of(owner: u8) -> Self
        ensures { says result ≡ noted_owner notes owner };

    /// Returns whether the slot's chunk was met.
    fn is_set(self) -> bool
        ensures { IsTrue result ↔ (says self ≢ no_owner_mark) };
}

/// Notes only whether the slot's chunk was met.
impl Mark for bool {
    ghost notes = { false };

    ghost says = { met_owner };

    #[inline]
    fn of(_owner: u8) -> bool {
        true
    }

    #[inline]
    fn is_set(self) -> bool {
        self
    }
}

/// Notes the owner of the slot's chunk.
impl Mark for u8 {
    ghost notes = { true };

    ghost says = { λ owner. owner };

    #[inline]
    fn of(owner: u8) -> u8 {
        owner
    }

    #[inline]
    fn is_set(self) -> bool {
        self != NO_OWNER
    }
}
