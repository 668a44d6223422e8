//! Free chunks of many sizes, on one heap from end to end, whose image is checked after each call.

use crate::heap::beside::Beside;
use crate::heap::by_hand::{Example, check_all, check_on};
use crate::heap::images::{EIGHT_SLOTS, SIXTEEN_SLOTS};
use heap_model::{MemoryCall, Name, Reply};
use std::alloc::Global;
use std::test::*;
use test_support::{changed_words, equal};

/// A heap of the given numbers of bytes and slots with one free chunk.
pub(crate) fn blank(alloc: Global, size: u32, slots: u16) -> Result<Beside, Fail> {
    Beside::new(alloc, changed_words(alloc, size, slots, &[])?)
}

/// Does a call, which must return this reply.
pub(crate) fn check(
    alloc: Global,
    beside: &mut Beside,
    call: MemoryCall,
    reply: Reply,
) -> Result<(), Fail> {
    let said = beside.call(alloc, "by hand", &call)?;
    equal(format_args!("{call:?}"), said, reply)
}

/// The name of the chunk that is made as the first of this number, 0 the first.
pub(crate) fn name(number: u32) -> Name {
    Name(16u32.saturating_add(number.saturating_mul(4)))
}

/// Makes a chunk, which must get the name of this number.
pub(crate) fn check_made(
    alloc: Global,
    beside: &mut Beside,
    size: u32,
    number: u32,
) -> Result<(), Fail> {
    let new = MemoryCall::HandleNew { size, owner: 1 };
    check(alloc, beside, new, Reply::Named(name(number)))
}

/// Makes the given number of chunks of one size, which must get the names of the numbers from 0 on.
pub(crate) fn make_all(
    alloc: Global,
    beside: &mut Beside,
    size: u32,
    count: u32,
) -> Result<(), Fail> {
    for number in 0..count {
        check_made(alloc, beside, size, number)?;
    }
    Ok(())
}

/// Frees the chunk of a number.
pub(crate) fn check_freed(alloc: Global, beside: &mut Beside, number: u32) -> Result<(), Fail> {
    check(alloc, beside, MemoryCall::Free(name(number)), Reply::Done)
}

/// Frees the given number of chunks, every second one, from the second on.
fn free_odd(alloc: Global, beside: &mut Beside, count: u32) -> Result<(), Fail> {
    for number in 0..count {
        check_freed(alloc, beside, number.saturating_mul(2).saturating_add(1))?;
    }
    Ok(())
}

/// What a chunk of two to the power of `class` units of 8 bytes has in its body.
fn body_of_class(class: u32) -> u32 {
    8u32.saturating_mul(2u32.saturating_pow(class))
        .saturating_sub(8)
}

/// Makes a chunk of each class, and one of 8 bytes after each.
fn make_classes(alloc: Global, beside: &mut Beside) -> Result<(), Fail> {
    for class in 1..17u32 {
        check_made(alloc, beside, body_of_class(class), class * 2 - 2)?;
        check_made(alloc, beside, 0, class * 2 - 1)?;
    }
    Ok(())
}

/// Frees the chunk of each class.
fn free_classes(alloc: Global, beside: &mut Beside) -> Result<(), Fail> {
    for class in 1..17u32 {
        check_freed(alloc, beside, class * 2 - 2)?;
    }
    Ok(())
}

/// Makes the chunk of each class again.
fn remake_classes(alloc: Global, beside: &mut Beside) -> Result<(), Fail> {
    for class in 1..17u32 {
        check_made(alloc, beside, body_of_class(class), class * 2 - 2)?;
    }
    Ok(())
}

/// Makes the chunks of all classes, frees them and makes them again, which leaves nothing free.
fn check_classes(alloc: Global, beside: &mut Beside) -> Result<(), Fail> {
    make_classes(alloc, beside)?;
    free_classes(alloc, beside)?;
    remake_classes(alloc, beside)?;
    check(alloc, beside, MemoryCall::FreeBytes, Reply::Number(0))
}

/// Chunks of 2, 4, 8 and so on up to 65,536 units of 8 bytes are made, each with one of 8 bytes
/// after it. They are freed and made again, where they were: each is the only one of its class.
/// Between them lies no free byte, so none could go elsewhere.
#[test]
fn the_only_chunk_of_a_class_is_found_again(rt: HostRuntime) -> Result<(), Fail> {
    // 2^17 - 2 units of 8 bytes, 16 chunks of 8 bytes, and 16 bytes and 32 slots before them.
    let mut beside = blank(rt.alloc(), 144 + 128 + 1_048_560, 32)?;
    check_classes(rt.alloc(), &mut beside)
}

/// A chunk gets another size, which leaves the given number of free bytes.
fn check_resized(
    alloc: Global,
    beside: &mut Beside,
    number: u32,
    (size, free): (u32, u32),
) -> Result<(), Fail> {
    let resize = MemoryCall::Resize {
        name: name(number),
        size,
    };
    check(alloc, beside, resize, Reply::Done)?;
    check(alloc, beside, MemoryCall::FreeBytes, Reply::Number(free))
}

/// Of 16 chunks every second one is freed. The one of this number grows over the next one and gives
/// it back; then all but the last are made again.
fn check_grown(alloc: Global, beside: &mut Beside, number: u32) -> Result<(), Fail> {
    make_all(alloc, beside, 24, 16)?;
    free_odd(alloc, beside, 8)?;
    check_resized(alloc, beside, number, (40, 240))?;
    check_resized(alloc, beside, number, (0, 280))?;
    for number in 0..7u32 {
        check_made(alloc, beside, 24, number * 2 + 1)?;
    }
    Ok(())
}

/// Chunks of one class are freed and made again; of two of them the one that is freed last is taken
/// first. The chunk after each one grows over it, wherever it stands in its list.
#[test]
fn chunks_grow_over_any_of_a_list(rt: HostRuntime) -> Result<(), Fail> {
    for taken in 0..8u32 {
        let mut beside = blank(rt.alloc(), 80 + 16 * 32, 16)?;
        check_grown(rt.alloc(), &mut beside, taken * 2)?;
    }
    Ok(())
}

/// A chunk grows over two that were freed, which are not joined. The next one that is freed finds
/// the others in their lists.
const GROWN_OVER_TWO: &str = "handle_new 24 1 = named 16
    handle_new 24 1 = named 20
    handle_new 24 1 = named 24
    handle_new 24 1 = named 28
    handle_new 24 1 = named 32
    handle_new 24 1 = named 36
    free 20 = done
    free 24 = done
    free 32 = done
    resize 16 88 = done
    free 36 = done
    free_bytes = 80
    handle_new 24 1 = named 20
    free_bytes = 48";

/// The room of one stretch is opened after a chunk; the free chunk of another is in its list after
/// the next call.
const OPENED: &str = "handle_new 24 1 = named 16
    handle_new 24 1 = named 20
    handle_new 24 1 = named 24
    handle_new 24 1 = named 28
    handle_new 24 1 = named 32
    handle_new 24 1 = named 36
    lock 28 = at 152 locks 1
    free 32 = done
    free 20 = done
    resize 24 56 = done
    free 36 = done
    free_bytes = 80
    handle_new 24 1 = named 20
    free_bytes = 48";

/// One of two stretches is packed for a new chunk. The next chunk is made in the other stretch.
/// Then the rest of the free chunk that it was cut from and the last 16 bytes, which are of one
/// class, are in one list.
const PACKED_FOR_A_NEW_CHUNK: &str = "handle_new 24 1 = named 16
    handle_new 24 1 = named 20
    handle_new 24 1 = named 24
    handle_new 24 1 = named 28
    handle_new 24 1 = named 32
    handle_new 24 1 = named 36
    lock 28 = at 152 locks 1
    free 16 = done
    free 24 = done
    free 32 = done
    handle_new 56 1 = named 16
    handle_new 0 1 = named 24
    free_bytes = 40
    free 36 = done
    free_bytes = 72";

/// The second of three stretches is packed for the chunk of the first one, which grows and goes
/// there. Then the free chunk of the third stretch is in its list after the next chunk is made, and
/// it is the next of one that is freed.
const PACKED_FOR_A_CHUNK_THAT_GROWS: &str = "handle_new 24 1 = named 16
    handle_new 24 1 = named 20
    handle_new 24 1 = named 24
    handle_new 24 1 = named 28
    handle_new 24 1 = named 32
    handle_new 24 1 = named 36
    handle_new 24 1 = named 40
    handle_new 24 1 = named 44
    lock 20 = at 120 locks 1
    lock 36 = at 248 locks 1
    free 24 = done
    free 32 = done
    free 40 = done
    resize 16 56 = done
    handle_new 24 1 = named 24
    free_bytes = 32
    free 44 = done
    free_bytes = 64";

/// A chunk grows and goes to two neighbours that were freed and aren't joined. The third chunk that
/// was freed is in its list after the next one is freed.
const MOVED_TO_TWO: &str = "handle_new 24 1 = named 16
    handle_new 24 1 = named 20
    handle_new 24 1 = named 24
    handle_new 24 1 = named 28
    handle_new 24 1 = named 32
    handle_new 24 1 = named 36
    free 20 = done
    free 24 = done
    free 32 = done
    resize 36 56 = done
    free 28 = done
    free_bytes = 112";

const GROWN_OVER_THE_LAST: &str = "resize 16 8 = done
    free 24 = done
    free_bytes = 576
    handle_new 8 1 = named 20
    free_bytes = 560";

/// A chunk grows over the last of 72 in a list, which is after those that are looked at: the lists
/// are dropped, and the next chunk that is freed finds all others in theirs.
#[test]
fn a_chunk_grows_over_one_far_in_a_list(rt: HostRuntime) -> Result<(), Fail> {
    let mut beside = blank(rt.alloc(), 16 + 4 * 144 + 144 * 8, 144)?;
    check_far(rt.alloc(), &mut beside)
}

fn check_far(alloc: Global, beside: &mut Beside) -> Result<(), Fail> {
    make_all(alloc, beside, 0, 144)?;
    free_odd(alloc, beside, 72)?;
    check_on(
        alloc,
        beside,
        ("grown over the last", GROWN_OVER_THE_LAST),
        false,
    )
}

static EXAMPLES: [Example; 5] = [
    ("a chunk grows over two", EIGHT_SLOTS, GROWN_OVER_TWO),
    ("a chunk goes to two", EIGHT_SLOTS, MOVED_TO_TWO),
    ("room is opened behind a chunk", EIGHT_SLOTS, OPENED),
    (
        "a stretch is packed for a new chunk",
        EIGHT_SLOTS,
        PACKED_FOR_A_NEW_CHUNK,
    ),
    (
        "a stretch is packed for a chunk that grows",
        SIXTEEN_SLOTS,
        PACKED_FOR_A_CHUNK_THAT_GROWS,
    ),
];

#[test]
fn chunks_of_classes(rt: HostRuntime) -> Result<(), Fail> {
    check_all(&rt, &EXAMPLES, false)
}
