//! The calls of the memory manager. `memory SIZE SLOTS PASSES ROUNDS` makes a heap of SIZE bytes
//! with SLOTS slots, and a chunk under each slot. It frees and makes chunks. Then it does the calls
//! whose time doesn't depend on the heap, PASSES times at each handle. `tables`, with the same
//! words, does the same on a heap whose slots are in further tables of 15. In the row
//! `read_with_1000_out` the bodies of 1,000 chunks are out, or of half of them if they are fewer,
//! and the others are read.
//!
//! Calls that walk through all chunks or move them use another heap: chunks fill it, and every
//! second chunk is free. A third heap is used with orders of calls for which lists of free chunks
//! help least. For each kind of call it prints the calls of a round, and the best and the median
//! processor time of a round in nanoseconds.
//!
//! The last line has the sum of all replies, and the sum of the words of the heaps at the end.
//! Without words the run prints only this line, for a small heap. bench/memory_calls.c does the
//! same calls in plain C.

ghost use Rattle.std.specs.Prelude.{[], ◌≡◌, IfOk};

mod heaps;
mod lending;
mod load;
mod numbers;
mod walks;

use crate::timing::{Sum, Sums, Times};
use crate::work::{Field, NONE, Work};
use anyhow::Result;
use chunk_format::blank;
use heaps::{Original, TABLE_SLOTS, adopted, chained_heap, full, one_class};
pub(crate) use heaps::{TABLES_APART, TABLES_IN_A_ROW};
use load::{Call, Load, region_of};
use mem_manager::Heap;
use std::alloc::Global;
use std::io;
use std::rt::CpuClock;
use walks::Walk;

/// The meaning of the words of a run.
pub(crate) const FIELDS: [Field; 4] = [Field::Size, Field::Slots, Field::Passes, Field::Rounds];

/// The work of a run without words.
pub(crate) const LEAST: Work<'static> = Work {
    size: 4096,
    slots: 64,
    passes: 2,
    rounds: 2,
    ..NONE
};

/// The maximum number of chunks that are freed and made again in a round.
const MOST_MOVED: u16 = 2000;

/// The maximum number of bytes of a chunk, if the heap isn't to be full.
const MOST_BODY: u16 = 64;

/// The calls whose time doesn't depend on the heap, with the names that are printed.
static CALLS: [(&str, Call); 8] = [
    ("lock_and_unlock", Call::LockAndUnlock),
    ("size", Call::Size),
    ("owner", Call::Owner),
    ("locks", Call::Locks),
    ("read", Call::Read),
    ("write", Call::Write),
    ("take_out_and_put_back", Call::TakeOutAndPutBack),
    ("read_with_1000_out", Call::ReadWithOut),
];

/// The calls that walk through all chunks or move them, with the names that are printed.
static WALKS: [(&str, Walk); 6] = [
    ("nothing", Walk::Nothing),
    ("largest_stretch", Walk::LargestStretch),
    ("compact", Walk::Compact),
    ("handle_new_by_packing", Walk::HandleNew),
    ("resize_in_place", Walk::ResizeInPlace),
    ("resize_by_moving", Walk::ResizeByMoving),
];

/// The orders for which lists help least, with the names that are printed.
static ORDERS: [(&str, Walk); 3] = [
    ("handle_new_far_in_a_list", Walk::FarInAList),
    ("resize_in_turn", Walk::ResizeInTurn),
    ("handle_new_over_freed", Walk::OverManyFreed),
];

/// The names that are printed for the calls that free and make chunks.
const AT_THE_END: (&str, &str) = ("free_at_the_end", "handle_new_at_the_end");

const ANYWHERE: (&str, &str) = ("free_anywhere", "handle_new_anywhere");

/// Times each kind of call.
#[inline(never)]
pub(crate) fn run(rt: &(impl CpuClock + Print + AllocGlobal), work: Work<'_>) -> Result<()> {
    let mut sums = Sums::new();
    time_load(rt, work, blank_heap(rt.alloc(), work)?, &mut sums)?;
    time_full(rt, work, &mut sums)?;
    time_one_class(rt, work, &mut sums)?;
    sums.print(rt)?;
    Ok(())
}

/// Times the calls on a heap under load whose slots are in further tables. Between two tables there
/// are fewer than `most_between` free bytes, and the header of a chunk.
#[inline(never)]
pub(crate) fn run_chained(
    rt: &(impl CpuClock + Print + AllocGlobal),
    work: Work<'_>,
    most_between: u32,
) -> Result<()> {
    let mut sums = Sums::new();
    let heap = chained_heap(
        rt.alloc(),
        work.size,
        work.slots / TABLE_SLOTS,
        most_between,
    )?;
    time_load(rt, work, heap, &mut sums)?;
    sums.print(rt)?;
    Ok(())
}

/// Times the calls on a heap under load.
fn time_load(
    rt: &(impl CpuClock + Print + AllocGlobal),
    work: Work<'_>,
    heap: Heap,
    sums: &mut Sums,
) -> Result<()>
    requires { heap.lents ≡ [] }
{
    let mut load = Load::new(rt.alloc(), heap, MOST_BODY);
    time_kinds(rt, &mut load, work)?;
    load.add_to(sums);
    Ok(())
}

/// Times the calls that free and make chunks, and those whose time doesn't depend on the heap.
fn time_kinds(
    rt: &(impl CpuClock + Print + AllocGlobal),
    load: &mut Load,
    work: Work<'_>,
) -> io::Result<()> {
    fill(rt, load, work)?;
    move_chunks(rt, load, work, AT_THE_END, moved(work))?;
    move_chunks(rt, load, work, ANYWHERE, work.slots)?;
    time_calls(rt, load, work)
}

/// Times the calls whose time doesn't depend on the heap.
fn time_calls(
    rt: &(impl CpuClock + Print + AllocGlobal),
    load: &mut Load,
    work: Work<'_>,
) -> io::Result<()> {
    load.shuffle(work.slots);
    load.find_wide()?;
    for (name, call) in &CALLS {
        load.prepare(*call);
        repeat(rt, load, work, name, *call)?;
    }
    Ok(())
}

/// Times the calls that walk through all chunks or move them.
fn time_full(
    rt: &(impl CpuClock + Print + AllocGlobal),
    work: Work<'_>,
    sums: &mut Sums,
) -> Result<()> {
    let full = full(rt.alloc(), blank_heap(rt.alloc(), work)?, work)?;
    time_walks(rt, work, &full, &WALKS, sums)
}

/// Times the orders for which lists help least.
fn time_one_class(
    rt: &(impl CpuClock + Print + AllocGlobal),
    work: Work<'_>,
    sums: &mut Sums,
) -> Result<()> {
    let one_class = one_class(rt.alloc(), blank_heap(rt.alloc(), work)?, work.slots)?;
    time_walks(rt, work, &one_class, &ORDERS, sums)
}

/// Times calls on copies of a heap.
fn time_walks(
    rt: &(impl CpuClock + Print + AllocGlobal),
    work: Work<'_>,
    original: &Original,
    walks: &[(&str, Walk)],
    sums: &mut Sums,
) -> Result<()>
    requires { original.now.region.lents ≡ [] }
{
    for (name, walk) in walks {
        walk_through(rt, work, original, name, *walk, sums)?;
    }
    Ok(())
}

fn blank_heap(alloc: Global, work: Work<'_>) -> Result<Heap>
    ensures { IfOk result (λ heap. heap.lents ≡ []) }
{
    let region = blank(alloc, work.size, work.slots)?;
    adopted(region)
}

/// Returns the number of chunks that are freed and made again in a round.
fn moved(work: Work<'_>) -> u16 {
    MOST_MOVED.min(work.slots / 4)
}

/// Makes a chunk under each slot.
fn fill(
    rt: &(impl CpuClock + Print + AllocGlobal),
    load: &mut Load,
    work: Work<'_>,
) -> io::Result<()> {
    let mut times = Times::new(rt.alloc());
    time_to_make(rt, load, work.slots, &mut times)?;
    times.print(rt, work, "handle_new_filling", work.slots as u128)
}

/// Frees chunks and makes as many new ones, in each round. The freed chunks are drawn from the last
/// `among` handles.
fn move_chunks(
    rt: &(impl CpuClock + Print + AllocGlobal),
    load: &mut Load,
    work: Work<'_>,
    (free, make): (&str, &str),
    among: u16,
) -> io::Result<()> {
    let (mut freed, mut made) = (Times::new(rt.alloc()), Times::new(rt.alloc()));
    for _ in 0..work.rounds {
        load.shuffle(among);
        time_to_move(rt, load, moved(work), &mut freed, &mut made)?;
    }
    freed.print(rt, work, free, moved(work) as u128)?;
    made.print(rt, work, make, moved(work) as u128)
}

/// Adds the time to free the chunks of the last `count` handles, and the time to make as many.
fn time_to_move(
    rt: &impl CpuClock,
    load: &mut Load,
    count: u16,
    freed: &mut Times,
    made: &mut Times,
) -> io::Result<()> {
    let start = rt.thread_cpu_time()?;
    load.free(count);
    freed.add_since(rt, start)?;
    time_to_make(rt, load, count, made)
}

/// Adds the time to make `count` chunks.
fn time_to_make(
    rt: &impl CpuClock,
    load: &mut Load,
    count: u16,
    times: &mut Times,
) -> io::Result<()> {
    let start = rt.thread_cpu_time()?;
    load.make(count)?;
    times.add_since(rt, start)
}

/// Does calls of one kind in each round.
fn repeat(
    rt: &(impl CpuClock + Print + AllocGlobal),
    load: &mut Load,
    work: Work<'_>,
    name: &str,
    call: Call,
) -> io::Result<()> {
    let mut times = Times::new(rt.alloc());
    for _ in 0..work.rounds {
        time_to_repeat(rt, load, call, work.passes, &mut times)?;
    }
    let calls = load.calls(call).saturating_mul(work.passes as u128);
    times.print(rt, work, name, calls)
}

/// Adds the time that calls of one kind take.
fn time_to_repeat(
    rt: &impl CpuClock,
    load: &mut Load,
    call: Call,
    passes: u32,
    times: &mut Times,
) -> io::Result<()> {
    let start = rt.thread_cpu_time()?;
    load.repeat(call, passes);
    times.add_since(rt, start)
}

/// Does calls of one kind in each round, on a new copy of a heap.
fn walk_through(
    rt: &(impl CpuClock + Print + AllocGlobal),
    work: Work<'_>,
    original: &Original,
    name: &str,
    walk: Walk,
    sums: &mut Sums,
) -> Result<()>
    requires { original.now.region.lents ≡ [] }
{
    let mut times = Times::new(rt.alloc());
    for _ in 0..work.rounds {
        walk_copy(rt, original, walk, sums, &mut times)?;
    }
    times.print(rt, work, name, original.calls(walk))?;
    Ok(())
}

/// Does calls of one kind on a copy of a heap, and adds the heap they leave to the sums.
fn walk_copy(
    rt: &(impl CpuClock + AllocGlobal),
    original: &Original,
    walk: Walk,
    sums: &mut Sums,
    times: &mut Times,
) -> Result<()>
    requires { original.now.region.lents ≡ [] }
{
    let mut heap = original.copy(rt.alloc())?;
    original.prepare(&mut heap, walk);
    let replies = time_walk(rt, original, walk, &mut heap, times)?;
    sums.add(replies, region_of(heap).as_slice());
    Ok(())
}

/// Adds the time that calls of one kind take on a heap, and returns the sum of their replies.
fn time_walk(
    rt: &impl CpuClock,
    original: &Original,
    walk: Walk,
    heap: &mut Heap,
    times: &mut Times,
) -> io::Result<Sum>
    ensures { heap.new.lents ≡ heap.old.lents }
{
    let start = rt.thread_cpu_time()?;
    let replies = original.walk(heap, walk);
    times.add_since(rt, start)?;
    Ok(replies)
}
