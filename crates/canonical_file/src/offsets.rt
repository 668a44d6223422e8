//! The order of the blocks.

ghost use Rattle.std.specs.Prelude.{◌↔◌, ◌∷◌, ℕ, List, IsTrue, IfSome, IfNone};
ghost use Rattle.canonical_file.specs.Changes as words;
ghost use Rattle.canonical_file.specs.Changes.{IsInOrder};

use pdb_format::{FileBytes, PdbFile};

/// Returns the least value that the offsets after this one may have. Returns `None` if this one is
/// below `low`.
fn raised(low: usize, at: usize) -> Option<usize>
    ensures some { IfSome result (λ next. (rest : List ℕ)
        → (words.AreRising low (at ∷ rest) ↔ words.AreRising next rest)) }
    ensures none { IfNone result ((rest : List ℕ) → words.AreRising low (at ∷ rest) → ⊥) }
{
    if at == 0 {
        return Some(low);
    }
    if at < low {
        return None;
    }
    Some(at)
}

/// Returns whether the blocks are in the order of the list.
pub(crate) fn is_in_order<B: FileBytes>(file: &PdbFile<'_, B>) -> bool
    ensures { IsTrue result ↔ IsInOrder file.now }
{
    let mut low = 0;
    for rank in 0..file.rank_count() {
        match raised(low, file.offset(rank)) {
            Some(next) => low = next,
            None => return false,
        }
    }
    true
}
