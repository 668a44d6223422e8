//! Words that are marked twice, and words of chunks that nothing names.

ghost use Rattle.std.specs.Prelude.{◌↔◌, ℕ, IsTrue, IfSome, IfNone};
ghost use Rattle.heap_model.specs.Lists.{Least};
ghost use Rattle.store_check.specs.Naming.{IsMarkedTwice, IsUnmarked, HasMarkTwo, HasUnmarked};

use crate::owners::is_our_owner;

/// Returns whether one of the marks is 2. It reads all of them, which is faster than to stop at the
/// first.
fn has_mark_two(marks: &[u8]) -> bool
    ensures { IsTrue result ↔ HasMarkTwo marks.now }
{
    let mut found = false;
    for mark in marks {
        found |= *mark > 1;
    }
    found
}

/// Returns whether some number has no mark, and yet the owner of a chunk for data or of one of the
/// manager's. It reads all of them too.
fn has_unmarked(marks: &[u8], owners: &[u8]) -> bool
    ensures { IsTrue result ↔ HasUnmarked marks.now owners.now }
{
    let mut found = false;
    for number in 0..marks.len().min(owners.len()) {
        found |= marks[number] == 0 && is_our_owner(owners[number]);
    }
    found
}

/// Returns the number of the first mark that is 2.
pub(crate) fn first_twice(marks: &[u8]) -> Option<usize>
    ensures some { IfSome result (Least (IsMarkedTwice marks.now)) }
    ensures none { IfNone result ((number : ℕ) → IsMarkedTwice marks.now number → ⊥) }
{
    if !has_mark_two(marks) {
        return None;
    }
    for number in 0..marks.len() {
        if marks[number] > 1 {
            return Some(number);
        }
    }
    None
}

/// Returns the first number that has no mark, and yet the owner of a chunk for data or of one of
/// the manager's.
pub(crate) fn first_unmarked(marks: &[u8], owners: &[u8]) -> Option<usize>
    ensures some { IfSome result (Least (IsUnmarked marks.now owners.now)) }
    ensures none { IfNone result ((number : ℕ) → IsUnmarked marks.now owners.now number → ⊥) }
{
    if !has_unmarked(marks, owners) {
        return None;
    }
    for number in 0..marks.len().min(owners.len()) {
        if marks[number] == 0 && is_our_owner(owners[number]) {
            return Some(number);
        }
    }
    None
}
