//! Lifts chunks over the free chunk after them.
#![tactic(auto, using(laws_heap::proofs::Lending::part_within))]

ghost use Rattle.std.specs.Prelude.{◌≡◌, ◌+◌, ◌-◌, ◌<◌, ◌^◌, length};
ghost use Rattle.heap_model.specs.Memory.{Misses};
ghost use Rattle.heap_model.specs.Slots.{HasTable};
ghost use Rattle.heap_model.specs.Lending.{HoldsHeap};
ghost use Rattle.heap_compact.specs.Lifting.{IsCarried, MendsOne, AreCarried, MendsAll, HasFreeBehind, Lifts};

use chunk_format::{HEADER_SIZE, Header, put_slot};
use heap_model::{Name, Place};
use raw_region::Region;

/// Moves the live chunks from `start` up to `end` over the free chunk that follows them, whose size
/// is `gap`. Their bytes move in one slide. Then each chunk's header and slot are mended in turn.
pub(crate) fn lift(region: &mut Region, start: u32, end: u32, gap: u32)
    requires heap { HoldsHeap region.old }
    requires behind { HasFreeBehind region.old.bytes start end gap }
    ensures lifted { Lifts region.old.bytes region.new.bytes start end gap }
    ensures out { region.new.lents ≡ region.old.lents }
    ensures slid { region.new.slid ≡ region.old.slid + (end - start) }
    ensures heap { HoldsHeap region.new }
{
    let from = start as usize;
    region.slide(from, from + gap as usize, (end - start) as usize);
    Header::Free { size: gap }.write(region, start);
    mend(region, start + gap, end + gap, gap);
}

/// Mends the chunks from `start` up to `end`, whose bytes were moved up by `gap`.
fn mend(region: &mut Region, start: u32, end: u32, gap: u32)
    requires carried { AreCarried region.old.bytes gap start end }
    requires table { HasTable region.old }
    requires misses { Misses region.old.lents start (end - start) }
    ensures mended { MendsAll region.old.bytes region.new.bytes gap start end }
    ensures out { region.new.lents ≡ region.old.lents }
    ensures slid { region.new.slid ≡ region.old.slid }
{
    let mut at = start;
    while at < end {
        at += mend_one(region, at, gap);
    }
}

/// Mends the chunk at `at`, whose bytes were moved up by `gap`, and returns its size. If it is
/// movable, it names its slot again, and the slot contains its place.
fn mend_one(region: &mut Region, at: u32, gap: u32) -> u32
    requires carried { IsCarried region.old.bytes gap at }
    requires table { HasTable region.old }
    requires misses { Misses region.old.lents at HEADER_SIZE }
    ensures mended { MendsOne region.old.bytes region.new.bytes gap at (at + result) }
    ensures out { region.new.lents ≡ region.old.lents }
    ensures slid { region.new.slid ≡ region.old.slid }
{
    let (header, size) = Header::at_with_size(region, at);
    if let Header::Movable { slot, .. } = header {
        let slot = slot - gap;
        put_slot(region, at, slot);
        master_table::set(region, Name(slot), Place(at + HEADER_SIZE));
    }
    size
}
