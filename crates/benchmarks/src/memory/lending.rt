//! Reads of chunks while the bodies of other chunks are out.

ghost use Rattle.std.specs.Prelude.{◌≡◌, ◌≤◌, ℕ};
ghost use Rattle.heap_model.specs.Space.{place_of};

use crate::memory::load::WIDTH;
use crate::timing::Sum;
use heap_model::Name;
use mem_manager::Heap;

/// The maximum number of bodies that are out at once.
const MOST_OUT: usize = 1_000;

/// Returns the number of bodies, of `count`, that are out while the other chunks are read.
pub(crate) fn out_among(count: usize) -> usize
    ensures { result ≤ count }
{
    MOST_OUT.min(count / 2)
}

/// Takes the bodies of the chunks `out` out, reads `passes` times 16 bytes of each of `others`, and
/// puts the bodies back.
pub(crate) fn read_with_out(
    heap: &mut Heap,
    out: &[Name],
    others: &[Name],
    passes: u32,
    replies: &mut Sum,
)
    ensures lents { heap.new.lents ≡ heap.old.lents }
    ensures places { (name : ℕ) → place_of heap.new.bytes name ≡ place_of heap.old.bytes name }
{
    let Some((first, rest)) = out.split_first() else {
        for _ in 0..passes {
            *replies = read_each(heap, others, *replies);
        }
        return;
    };
    match heap.take_out_also(*first) {
        Ok(loan) => {
            read_with_out(heap, rest, others, passes, replies);
            heap.put_back(loan);
        }
        Err(refusal) => replies.add_refusal(refusal),
    }
}

/// Reads 16 bytes of each chunk, and adds the first and the last to a sum. Returns the new sum, so
/// that it need not be in memory meanwhile.
#[inline(never)]
pub(crate) fn read_each(heap: &Heap, names: &[Name], before: Sum) -> Sum {
    let mut replies = before;
    for name in names {
        match heap.read(*name, 0, WIDTH) {
            Ok(bytes) => replies.add_ends(bytes),
            Err(refusal) => replies.add_refusal(refusal),
        }
    }
    replies
}
