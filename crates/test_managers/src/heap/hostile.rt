//! Heaps whose free chunks are as bad as can be: of one class that has room in its last one alone,
//! of 8 bytes each, unjoined, with second words that lead anywhere.

ghost use Rattle.std.specs.Prelude.{[], ◌≡◌, IfOk};

use crate::heap::beside::{Beside, adopt};
use crate::heap::by_hand::check_on;
use crate::heap::calls::do_call;
use crate::heap::classes::{blank, check, check_freed, make_all, name};
use crate::notation::{check_reply, memory_call_of, sides_of};
use heap_model::{MemoryCall, Place, Reply};
use mem_manager::Heap;
use raw_region::Region;
use std::alloc::Global;
use std::test::*;
use test_support::changed_words;

/// Does the call of a line on a heap, with no model next to it.
fn check_line(alloc: Global, heap: &mut Heap, line: &str) -> Result<(), Fail>
    ensures { heap.new.lents ≡ heap.old.lents }
{
    let (call, right) = sides_of(line)?;
    let reply = do_call(alloc, heap, &memory_call_of(alloc, call)?);
    check_reply(alloc, line, &reply, right)
}

/// Does the calls of some lines on one heap, and sees that its image is a heap still.
fn check_alone(alloc: Global, region: Region, lines: &str) -> Result<(), Fail>
    requires { region.lents ≡ [] }
{
    let mut heap = adopt(region)?;
    for line in lines.lines() {
        check_line(alloc, &mut heap, line.trim())?;
    }
    match heap.into_region() {
        Ok(region) => adopt(region)?,
        Err(_) => Err("a body is lent")?,
    };
    Ok(())
}

/// A heap of the given number of free chunks of 16 bytes, each with a fixed one of 8 bytes after
/// it, and a last one of 24.
fn scattered(alloc: Global, count: u32) -> Result<Region, Fail>
    ensures { IfOk result (λ region. region.lents ≡ []) }
{
    let mut words = Vec::new(alloc);
    let mut at = 32usize;
    for _ in 0..count {
        words.push((at, 0x8000_0010))?;
        words.push((at.saturating_add(16), 0x0000_0008))?;
        words.push((at.saturating_add(20), 0xF100_0000))?;
        at = at.saturating_add(24);
    }
    words.push((at, 0x8000_0018))?;
    let size = count.saturating_mul(24).saturating_add(56);
    changed_words(alloc, size, 4, &words)
}

const LAST_HAS_ROOM: &str = "handle_new 16 1 = named 16
    handle_new 16 1 = refused NotEnoughSpace
    handle_new 8 1 = named 20
    free 16 = done
    handle_new 16 1 = named 16
    free 20 = done
    free 16 = done
    handle_new 16 1 = named 16
    resize 16 17 = refused NotEnoughSpace
    resize 16 8 = done
    resize 16 16 = done
    free_bytes = 480000";

/// Of 30,001 chunks of one class the last one has the room.
#[test]
fn the_last_of_a_list_has_the_room(rt: HostRuntime) -> Result<(), Fail> {
    check_alone(rt.alloc(), scattered(rt.alloc(), 30_000)?, LAST_HAS_ROOM)
}

/// An image of 28 free chunks of 8 bytes, each with this second word.
fn unjoined(alloc: Global, second: u32) -> Result<Region, Fail>
    ensures { IfOk result (λ made. made.lents ≡ []) }
{
    let mut words = Vec::new(alloc);
    for number in 0..28usize {
        let at = number.saturating_mul(8).saturating_add(32);
        words.push((at, 0x8000_0008))?;
        words.push((at.saturating_add(4), second))?;
    }
    changed_words(alloc, 256, 4, &words)
}

/// What a second word may be: after the end, a header, the offset of a chunk or within one, and
/// none.
static SECONDS: [u32; 7] = [0xFFFF_FFFF, 0x8000_0020, 32, 40, 248, 36, 0];

const HOSTILE_MADE_AND_FREED: &str = "free_bytes = 224
    handle_new 100 1 = named 16
    handle_new 8 1 = named 20
    free 16 = done
    resize 20 60 = done
    handle_new 100 1 = named 16
    free_bytes = 40
    free 20 = done
    free 16 = done
    free_bytes = 224
    handle_new 216 1 = named 16
    free_bytes = 0";

fn check_unjoined(alloc: Global, second: u32) -> Result<(), Fail> {
    let mut beside = Beside::new(alloc, unjoined(alloc, second)?)?;
    check_on(
        alloc,
        &mut beside,
        ("unjoined", HOSTILE_MADE_AND_FREED),
        false,
    )
}

#[test]
fn second_words_of_an_adopted_image_lead_nowhere(rt: HostRuntime) -> Result<(), Fail> {
    for second in &SECONDS {
        check_unjoined(rt.alloc(), *second)?;
    }
    Ok(())
}

/// Locks each of 16 chunks of 8 bytes.
fn lock_all(alloc: Global, beside: &mut Beside) -> Result<(), Fail> {
    for number in 0..16u32 {
        let locked = Reply::Locked {
            place: Place(number.saturating_mul(8).saturating_add(88)),
            count: 1,
        };
        check(alloc, beside, MemoryCall::Lock(name(number)), locked)?;
    }
    Ok(())
}

/// Unlocks and frees every second one of 16 chunks.
fn free_even(alloc: Global, beside: &mut Beside) -> Result<(), Fail> {
    for number in 0..8u32 {
        let unlock = MemoryCall::Unlock(name(number * 2));
        check(alloc, beside, unlock, Reply::Number(0))?;
        check_freed(alloc, beside, number * 2)?;
    }
    Ok(())
}

const ONE_MORE_FREED: &str = "free_bytes = 64
    handle_new 1 1 = refused NotEnoughSpace
    handle_new 0 1 = named 16
    free 16 = done
    unlock 20 = 0
    free 20 = done
    handle_new 16 1 = named 16
    free_bytes = 48";

/// Chunks of 8 bytes, every second one of which is freed: there is room for those of no bytes
/// alone, until one between two is freed too.
#[test]
fn free_chunks_of_8_bytes(rt: HostRuntime) -> Result<(), Fail> {
    let mut beside = blank(rt.alloc(), 80 + 16 * 8, 16)?;
    check_even(rt.alloc(), &mut beside)
}

fn check_even(alloc: Global, beside: &mut Beside) -> Result<(), Fail> {
    make_all(alloc, beside, 0, 16)?;
    lock_all(alloc, beside)?;
    free_even(alloc, beside)?;
    check_on(alloc, beside, ("one more freed", ONE_MORE_FREED), false)
}
