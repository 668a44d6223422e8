//! Calls that walk through a heap with free bytes between its chunks, or that move these chunks.
//! Also orders of calls for which lists of free chunks help least.

ghost use Rattle.std.specs.Prelude.{[], ◌≡◌};

use crate::memory::heaps::{LARGE_BODY, Original, SMALL_BODY};
use crate::memory::load::LOAD_OWNER;
use crate::timing::Sum;
use mem_manager::Heap;

/// The number of stretches of a parted heap.
const STRETCHES: usize = 64;

/// The maximum number of chunks that are freed for one large one.
const MOST_FREED: usize = 2000;

/// Calls on a copy of a heap. The first six use a heap that is full but for every second chunk,
/// the others one whose free chunks are all of one class.
#[derive(Clone, Copy)]
pub(crate) enum Walk {
    /// No call: its time is that of a reading of the clock.
    Nothing,
    LargestStretch,
    Compact,
    /// New chunks. For each of them one stretch of a parted heap is compacted.
    HandleNew,
    /// Each chunk gets 8 bytes more, and its own length again.
    ResizeInPlace,
    /// A chunk in the middle becomes a quarter of the heap.
    ResizeByMoving,
    /// New chunks, each of which needs a large free one. The large ones are far after the first of
    /// their list. So each call walks the chunks and their list.
    FarInAList,
    /// A chunk of no bytes goes to a large free one, far after the first of its list. Then a chunk
    /// is made, in turns.
    ResizeInTurn,
    /// One chunk that takes all the room of many chunks that were freed one by one and not joined.
    OverManyFreed,
}

impl Original {
    /// Prepares a copy of the heap. It is parted if stretches are to be compacted. The chunks
    /// between the first free ones are freed if one chunk is to take them.
    pub(crate) fn prepare(&self, heap: &mut Heap, walk: Walk)
        ensures { heap.new.lents ≡ heap.old.lents }
    {
        match walk {
            Walk::HandleNew => self.part(heap),
            Walk::OverManyFreed => self.free_first(heap),
            _ => {}
        }
    }

    /// Locks chunks of a heap, which part it into stretches of about the same number of chunks
    /// each.
    fn part(&self, heap: &mut Heap)
        ensures { heap.new.lents ≡ heap.old.lents }
    {
        let step = (self.kept.len() / STRETCHES).max(1);
        for kept in self.kept.iter().step_by(step) {
            if heap.lock(kept.name).is_err() {
                return;
            }
        }
    }

    fn free_first(&self, heap: &mut Heap)
        ensures { heap.new.lents ≡ heap.old.lents }
    {
        for kept in self.kept.iter().take(self.freed()) {
            if heap.free(kept.name).is_err() {
                return;
            }
        }
    }

    /// Returns the number of chunks that are freed for one large one.
    fn freed(&self) -> usize {
        MOST_FREED.min(self.kept.len() / 4)
    }

    fn bytes(&self) -> u32 {
        self.region.len().min(u32::MAX as usize) as u32
    }

    /// Returns the number of calls.
    pub(crate) fn calls(&self, walk: Walk) -> u128 {
        match walk {
            Walk::HandleNew => STRETCHES as u128 / 2,
            Walk::ResizeInPlace => 2 * self.kept.len() as u128,
            Walk::FarInAList => self.large as u128,
            Walk::ResizeInTurn => 2 * self.large as u128,
            _ => 1,
        }
    }

    /// Does the calls, and returns the sum of their replies.
    pub(crate) fn walk(&self, heap: &mut Heap, walk: Walk) -> Sum
        ensures { heap.new.lents ≡ heap.old.lents }
    {
        let mut replies = Sum(0);
        match walk {
            Walk::Nothing => {}
            Walk::LargestStretch => replies.add(heap.largest_stretch()),
            Walk::Compact => replies.add(heap.compact()),
            Walk::HandleNew => self.make_large(heap, &mut replies),
            Walk::ResizeInPlace => self.resize_each(heap, &mut replies),
            Walk::ResizeByMoving => self.resize_one(heap, &mut replies),
            Walk::FarInAList => self.make_far(heap, &mut replies),
            Walk::ResizeInTurn => self.resize_in_turn(heap, &mut replies),
            Walk::OverManyFreed => self.make_over(heap, &mut replies),
        }
        replies
    }

    /// Makes chunks that each take three quarters of the room of a stretch.
    fn make_large(&self, heap: &mut Heap, replies: &mut Sum)
        ensures { heap.new.lents ≡ heap.old.lents }
    {
        let size = self.bytes() / (2 * STRETCHES as u32) / 4 * 3;
        for _ in 0..STRETCHES / 2 {
            replies.add_name(heap.handle_new(size, LOAD_OWNER));
        }
    }

    fn resize_each(&self, heap: &mut Heap, replies: &mut Sum)
        ensures { heap.new.lents ≡ heap.old.lents }
    {
        for kept in &self.kept {
            replies.add_done(heap.resize(kept.name, kept.length.saturating_add(8)));
            replies.add_done(heap.resize(kept.name, kept.length));
        }
    }

    fn resize_one(&self, heap: &mut Heap, replies: &mut Sum)
        ensures { heap.new.lents ≡ heap.old.lents }
    {
        if let Some(kept) = self.kept.get(self.kept.len() / 2) {
            replies.add_done(heap.resize(kept.name, self.bytes() / 4));
        }
    }

    fn make_far(&self, heap: &mut Heap, replies: &mut Sum)
        ensures { heap.new.lents ≡ heap.old.lents }
    {
        for _ in 0..self.large {
            replies.add_name(heap.handle_new(LARGE_BODY, LOAD_OWNER));
        }
    }

    fn resize_in_turn(&self, heap: &mut Heap, replies: &mut Sum)
        ensures { heap.new.lents ≡ heap.old.lents }
    {
        for kept in self.kept.iter().take(self.large) {
            replies.add_done(heap.resize(kept.name, LARGE_BODY));
            replies.add_name(heap.handle_new(SMALL_BODY - 16, LOAD_OWNER));
        }
    }

    /// Makes a chunk that takes the room of the freed chunks and of the free ones next to them.
    fn make_over(&self, heap: &mut Heap, replies: &mut Sum)
        ensures { heap.new.lents ≡ heap.old.lents }
    {
        let freed = self.freed().min(u32::MAX as usize) as u32;
        let size = freed.saturating_mul(SMALL_BODY + 16);
        replies.add_name(heap.handle_new(size.saturating_add(SMALL_BODY), LOAD_OWNER));
    }
}
