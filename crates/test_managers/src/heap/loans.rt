//! Bodies that are lent: the calls that are refused meanwhile, and all others, which go on as if
//! nothing were lent.

ghost use Rattle.std.specs.Prelude.{[], ◌≡◌, None};
ghost use Rattle.heap_model.specs.Lending.{KeepsLoan};

use crate::heap::beside::{Beside, adopt};
use crate::heap::by_hand::check_on;
use crate::heap::calls::do_call;
use crate::heap::images::{CHAINED, FIVE, LARGE, ODD_IMAGE};
use heap_model::{Bytes, MemoryCall, Name, Refusal};
use mem_manager::Heap;
use rand::RngExt;
use rand_pcg::Pcg32;
use raw_region::Region;
use std::alloc::Global;
use std::test::*;
use test_beside::memory_call;
use test_model::Image;
use test_support::{BLANK, equal, image};

/// What an example is about, the listing of its image, lines, the names whose bytes are lent then,
/// and the lines of the calls that are done meanwhile.
type Example = (
    &'static str,
    &'static str,
    &'static str,
    &'static [Name],
    &'static str,
);

/// A chunk of 10 bytes with a lock, a free one of 16, one of owner 2 with 16 bytes, and 24 bytes
/// that are free.
const TO_BE_LENT: &str = "handle_new 10 1 = named 16
    lock 16 = at 40 locks 1
    handle_new 8 1 = named 20
    handle_new 16 2 = named 24
    free 20 = done";

/// Each refusal comes in its order: 27 comes after 1, 2, 4 and 6, and before 3 and 9 but in `free`.
const OF_MOVABLE: &str = "read 16 0 1 = refused Lent
    read 16 11 0 = refused Lent
    read 20 0 1 = refused InvalidHandle
    write 16 0: 41 = refused Lent
    write 16 10: 41 = refused Lent
    write 24 0: 41 = refused ChunkNotLocked
    set 16 0 1 1 = refused Lent
    set 16 0 99 1 = refused Lent
    str_copy 16 0: 78 = refused Lent
    str_copy 16 9: 7878 = refused Lent
    unlock 16 = refused Lent
    unlock 24 = refused ChunkNotLocked
    free 16 = refused ChunkLocked
    resize 16 10 = refused Lent
    resize 16 0 = refused Lent
    resize 16 99 = refused Lent
    resize 24 99 = refused NotEnoughSpace
    free_by_owner 0 = refused InvalidOwner
    free_by_owner 1 = refused Lent
    more_slots = refused NotEnoughSpace";

/// The chunk after the free one slides to the lent one, and grows and goes.
const GOES_ON: &str = "lock 16 = at 40 locks 2
    size 16 = 10
    owner 16 = 1
    locks 16 = 2
    recover 40 = named 16
    set_owner 16 3 = done
    free_by_owner 1 = 0
    free_by_owner 3 = refused Lent
    free_bytes = 48
    largest_stretch = 48
    compact = 24
    recover 64 = named 24
    lock 24 = at 64 locks 1
    write 24 0: 4142 = done
    read 24 0 2 = x4142
    unlock 24 = 0
    resize 24 64 = done
    free_bytes = 0
    read 24 0 2 = x4142
    handle_new 0 1 = refused NotEnoughSpace
    free_by_owner 2 = 1
    ptr_new 8 4 = named 64
    handle_new 48 4 = named 20
    free 64 = done
    free_by_owner 4 = 1
    free_bytes = 72";

/// A fixed chunk is refused as one by its lock and its length, and is freed by nothing.
const OF_FIXED: &str = "read 72 0 1 = refused Lent
    write 72 0: 41 = refused Lent
    set 72 0 9 1 = refused Lent
    str_copy 72 0: 78 = refused Lent
    lock 72 = refused ChunkFixed
    unlock 72 = refused ChunkFixed
    resize 72 0 = refused ChunkFixed
    free 72 = refused Lent
    free_by_owner 3 = refused Lent
    unlock 20 = 1
    unlock 20 = 0
    set_owner 72 4 = done
    recover 72 = named 72
    free_by_owner 3 = 1
    compact = 0
    free 72 = refused Lent";

/// A body of no bytes between two others, which may go and come.
const TO_BE_LENT_EMPTY: &str = "handle_new 8 1 = named 16
    handle_new 0 2 = named 20
    handle_new 8 1 = named 24
    lock 20 = at 56 locks 1";

const OF_EMPTY: &str = "read 20 0 0 = refused Lent
    write 20 0 = refused Lent
    set 20 0 0 7 = refused Lent
    str_copy 20 0 = refused Lent
    unlock 20 = refused Lent
    resize 20 0 = refused Lent
    free 20 = refused ChunkLocked
    free_by_owner 2 = refused Lent
    free 16 = done
    free 24 = done
    handle_new 72 1 = refused NotEnoughSpace
    ptr_new 64 1 = named 64
    ptr_new 8 1 = named 40
    free_bytes = 0
    free 64 = done
    compact = 0
    handle_new 56 1 = named 16
    recover 56 = named 20
    free_by_owner 1 = 2";

/// The chunk of a database. Its owner comes before 27.
const OF_DATA: &str = "read 16 0 1 = refused Lent
    write 16 0: 41 = refused Lent
    unlock 16 = refused Lent
    free 16 = refused OwnedByDatabase
    resize 16 0 = refused OwnedByDatabase
    set_owner 16 1 = refused OwnedByDatabase
    lock 16 = at 40 locks 2
    free_by_owner 3 = 2
    compact = 16";

/// A table is made, and its slots are used, while the only slot before is that of the lent chunk.
const OF_CHAINED: &str = "handle_new 0 1 = refused NotEnoughSpace
    more_slots = done
    handle_new 0 1 = named 52
    handle_new 0 1 = named 56
    free 52 = done
    compact = 8
    more_slots = refused NotEnoughSpace
    read 16 0 0 = refused Lent";

/// Two bodies next to each other, and a third chunk after them, which isn't lent. 32 bytes are free
/// after it.
const TWO_TO_BE_LENT: &str = "handle_new 10 1 = named 16
    handle_new 8 2 = named 20
    handle_new 16 1 = named 24
    lock 16 = at 40 locks 1
    lock 20 = at 64 locks 1";

/// Each of the two is refused as it would be alone, and the third chunk is changed, grows over the
/// free bytes and goes. No name has a body at the places of the headers.
const TWO_OUT: &str = "read 16 0 1 = refused Lent
    read 20 0 1 = refused Lent
    write 16 0: 41 = refused Lent
    write 20 0: 41 = refused Lent
    unlock 16 = refused Lent
    unlock 20 = refused Lent
    resize 16 17 = refused Lent
    resize 20 0 = refused Lent
    free 16 = refused ChunkLocked
    free 20 = refused ChunkLocked
    lock 24 = at 80 locks 1
    write 24 0: 4142 = done
    read 24 0 2 = x4142
    unlock 24 = 0
    resize 24 40 = done
    free_bytes = 8
    free_by_owner 1 = refused Lent
    free_by_owner 2 = refused Lent
    free_by_owner 3 = 0
    recover 40 = named 16
    recover 64 = named 20
    recover 80 = named 24
    recover 48 = refused InvalidHandle
    recover 56 = refused InvalidHandle
    set_owner 20 3 = done
    free_by_owner 2 = 0
    free_by_owner 3 = refused Lent
    compact = 0
    free 24 = done
    free_bytes = 56
    free_by_owner 1 = refused Lent";

/// A body of no bytes and the one after it. The first begins where the header of the other does.
/// Chunks before and after the two aren't lent.
const NO_BYTES_TO_BE_LENT: &str = "handle_new 8 1 = named 16
    handle_new 0 2 = named 20
    handle_new 8 4 = named 24
    handle_new 8 3 = named 28
    lock 16 = at 40 locks 1
    lock 20 = at 56 locks 1
    lock 24 = at 64 locks 1";

const OF_NO_BYTES: &str = "read 20 0 0 = refused Lent
    read 24 0 1 = refused Lent
    read 16 0 2 = x0000
    write 16 0: 4142 = done
    read 16 0 2 = x4142
    lock 24 = at 64 locks 2
    lock 20 = at 56 locks 2
    locks 24 = 2
    size 24 = 8
    size 20 = 0
    recover 56 = named 20
    recover 64 = named 24
    unlock 20 = refused Lent
    unlock 24 = refused Lent
    free_by_owner 2 = refused Lent
    free_by_owner 4 = refused Lent
    free_by_owner 3 = 1
    set_owner 20 3 = done
    free_by_owner 2 = 0
    unlock 16 = 0
    free 16 = done
    ptr_new 8 1 = named 40
    free 40 = done
    compact = 0
    free_bytes = 72";

/// The same while the body of no bytes alone is out: the one after it is read, written, unlocked,
/// moved and freed.
const OF_NEIGHBOUR: &str = "read 20 0 0 = refused Lent
    write 24 0: 4142 = done
    read 24 0 2 = x4142
    unlock 24 = 0
    recover 64 = named 24
    resize 24 40 = done
    read 24 0 2 = x4142
    free 24 = done
    free_by_owner 2 = refused Lent
    recover 56 = named 20
    free 16 = refused ChunkLocked
    read 16 0 2 = x0000";

/// Two of owner 3 are lent: one with two locks, and a fixed one. Then each has another owner. The
/// only free slot is used meanwhile.
const OF_OWNED: &str = "free_by_owner 3 = refused Lent
    free 72 = refused Lent
    free 20 = refused ChunkLocked
    set_owner 72 4 = done
    free_by_owner 3 = refused Lent
    free_by_owner 4 = refused Lent
    set_owner 20 5 = done
    free_by_owner 3 = 0
    free_by_owner 5 = refused Lent
    read 72 0 1 = refused Lent
    read 20 0 1 = refused Lent
    recover 72 = named 72
    recover 56 = named 20
    handle_new 8 3 = named 28
    resize 28 24 = done
    free_bytes = 0
    handle_new 0 1 = refused NotEnoughSpace
    free_by_owner 3 = 1
    compact = 0
    free_bytes = 32";

/// Two chunks that stay, with one between them that moves, and free bytes before it.
const STRETCH_TO_BE_LENT: &str = "handle_new 0 1 = named 16
    handle_new 8 1 = named 20
    handle_new 8 2 = named 24
    handle_new 8 3 = named 28
    lock 16 = at 40 locks 1
    lock 28 = at 80 locks 1
    free 20 = done";

/// The chunk between the two slides to the first of them.
const OF_STRETCH: &str = "recover 64 = named 24
    compact = 16
    recover 48 = named 24
    recover 64 = refused InvalidHandle
    lock 24 = at 48 locks 1
    resize 24 16 = done
    resize 24 32 = refused ChunkLocked
    unlock 24 = 0
    free_bytes = 48
    largest_stretch = 40
    handle_new 8 1 = named 20
    free_by_owner 1 = refused Lent
    free_by_owner 2 = 1
    read 28 0 1 = refused Lent
    read 16 0 0 = refused Lent";

/// A table is made of all free bytes. Its place is no name's.
const OF_CHAINED_TWO: &str = "handle_new 0 1 = refused NotEnoughSpace
    more_slots = done
    free_bytes = 0
    more_slots = refused NotEnoughSpace
    recover 32 = named 16
    recover 48 = named 48
    recover 64 = refused InvalidHandle
    free 48 = refused Lent
    read 16 0 0 = refused Lent
    compact = 0";

/// Each is about what it is called.
static EXAMPLES: [Example; 14] = [
    (
        "calls are refused",
        BLANK,
        TO_BE_LENT,
        &[Name(16)],
        OF_MOVABLE,
    ),
    ("other calls go on", BLANK, TO_BE_LENT, &[Name(16)], GOES_ON),
    (
        "a fixed chunk",
        FIVE,
        "locks 72 = 15",
        &[Name(72)],
        OF_FIXED,
    ),
    ("no bytes", BLANK, TO_BE_LENT_EMPTY, &[Name(20)], OF_EMPTY),
    (
        "a database's chunk",
        FIVE,
        "lock 16 = at 40 locks 1",
        &[Name(16)],
        OF_DATA,
    ),
    (
        "a table is made",
        CHAINED,
        "handle_new 8 1 = named 16
        lock 16 = at 32 locks 1",
        &[Name(16)],
        OF_CHAINED,
    ),
    (
        "two bodies",
        BLANK,
        TWO_TO_BE_LENT,
        &[Name(16), Name(20)],
        TWO_OUT,
    ),
    (
        "two bodies, the second first",
        BLANK,
        TWO_TO_BE_LENT,
        &[Name(20), Name(16)],
        TWO_OUT,
    ),
    (
        "no bytes and a neighbour",
        BLANK,
        NO_BYTES_TO_BE_LENT,
        &[Name(20), Name(24)],
        OF_NO_BYTES,
    ),
    (
        "no bytes next to others",
        BLANK,
        NO_BYTES_TO_BE_LENT,
        &[Name(20)],
        OF_NEIGHBOUR,
    ),
    (
        "two of an owner",
        FIVE,
        "locks 72 = 15",
        &[Name(20), Name(72)],
        OF_OWNED,
    ),
    (
        "two around a stretch",
        BLANK,
        STRETCH_TO_BE_LENT,
        &[Name(16), Name(28)],
        OF_STRETCH,
    ),
    (
        "a table is made while two are out",
        CHAINED,
        "handle_new 8 1 = named 16
        lock 16 = at 32 locks 1
        ptr_new 8 2 = named 48",
        &[Name(48), Name(16)],
        OF_CHAINED_TWO,
    ),
    (
        "nothing else is there",
        BLANK,
        "ptr_new 88 1 = named 40",
        &[Name(40)],
        "free_bytes = 0
        compact = 0
        handle_new 0 1 = refused NotEnoughSpace
        free 40 = refused Lent",
    ),
];

fn check_example(
    alloc: Global,
    (about, listing, before, names, lines): Example,
) -> Result<(), Fail> {
    let mut beside = Beside::new(alloc, image(alloc, listing, "")?)?;
    check_on(alloc, &mut beside, (about, before), false)?;
    beside.take_out(names)?;
    check_on(alloc, &mut beside, (about, lines), false)
}

#[test]
fn calls_are_done_while_a_body_is_lent(rt: HostRuntime) -> Result<(), Fail> {
    for example in &EXAMPLES {
        check_example(rt.alloc(), *example)?;
    }
    Ok(())
}

/// Why the bytes of a name can't be taken out. If they can, they are put back.
fn refused(heap: &mut Heap, name: Name) -> Option<Refusal>
    requires { heap.old.lents ≡ [] }
    ensures { heap.new.lents ≡ [] }
{
    match heap.take_out(name) {
        Ok(loan) => {
            heap.put_back(loan);
            None
        }
        Err(refusal) => Some(refusal),
    }
}

/// What a heap says while the bytes of a name are out: their name, and why those of another name
/// can't be taken out.
fn said_meanwhile(
    heap: &mut Heap,
    name: Name,
    other: Name,
) -> Result<(Option<Name>, Option<Refusal>), Refusal>
    requires { heap.old.lents ≡ [] }
    ensures { heap.new.lents ≡ [] }
{
    let loan = heap.take_out(name)?;
    let lent = heap.lent();
    let refusal = match heap.take_out(other) {
        Ok(_) => unreachable!(),
        Err(refusal) => refusal,
    };
    heap.put_back(loan);
    Ok((lent, Some(refusal)))
}

/// Names of the image with five chunks, and why their bytes can't be taken out: while nothing is
/// lent, and while those of the name 72 are out.
static OUT: [(u32, Option<Refusal>, Refusal); 5] = [
    (16, Some(Refusal::ChunkNotLocked), Refusal::ChunkNotLocked),
    (20, None, Refusal::Lent),
    (24, Some(Refusal::InvalidHandle), Refusal::InvalidHandle),
    (28, Some(Refusal::InvalidHandle), Refusal::InvalidHandle),
    (72, None, Refusal::Lent),
];

/// A chunk that isn't a caller's comes before one without a lock, and that before a second loan.
#[test]
fn one_body_is_lent_at_a_time(rt: HostRuntime) -> Result<(), Fail> {
    let mut heap = adopt(image(rt.alloc(), FIVE, "")?)?;
    for (name, alone, second) in &OUT {
        equal(*name, refused(&mut heap, Name(*name)), *alone)?;
        let said = said_meanwhile(&mut heap, Name(72), Name(*name))?;
        equal(*name, said, (Some(Name(72)), Some(*second)))?;
        equal(*name, heap.lent(), None)?;
    }
    Ok(())
}

/// Why the bytes of a name can't be taken out also, while those of another one are. If they can, both
/// are put back, the first taken out first.
fn refused_also(heap: &mut Heap, first: Name, name: Name) -> Result<Option<Refusal>, Refusal>
    requires { heap.old.lents ≡ [] }
    ensures { heap.new.lents ≡ [] }
{
    let loan = heap.take_out(first)?;
    match heap.take_out_also(name) {
        Ok(other) => {
            heap.put_back(loan);
            heap.put_back(other);
            Ok(None)
        }
        Err(refusal) => {
            heap.put_back(loan);
            Ok(Some(refusal))
        }
    }
}

/// Names of the same image, and why their bytes can't be taken out also while those of the name 72
/// are. Only a second loan of one body is refused as lent.
static ALSO: [(u32, Option<Refusal>); 5] = [
    (16, Some(Refusal::ChunkNotLocked)),
    (20, None),
    (24, Some(Refusal::InvalidHandle)),
    (28, Some(Refusal::InvalidHandle)),
    (72, Some(Refusal::Lent)),
];

#[test]
fn a_second_body_is_lent_also(rt: HostRuntime) -> Result<(), Fail> {
    let mut heap = adopt(image(rt.alloc(), FIVE, "")?)?;
    for (name, why) in &ALSO {
        let found = refused_also(&mut heap, Name(72), Name(*name))?;
        equal(*name, found, *why)?;
        equal(*name, (heap.lent(), heap.is_whole()), (None, true))?;
    }
    Ok(())
}

/// How many calls are done while a body is lent.
const HEAP_CALLS: u32 = 12;

/// The name of a caller's chunk that stays where it is, drawn from an image.
fn staying(image: &Image, random: &mut Pcg32) -> Option<Name> {
    let count = u32::try_from(image.pieces.len()).ok()?;
    let first = random.random_range(0..count.max(1)) as usize;
    for piece in image.pieces.iter().skip(first) {
        if let Some(live) = piece.live
            && live.lock > 0
            && live.owner > 0
        {
            return Some(live.name);
        }
    }
    None
}

/// Does the next call of a list on two heaps. What is lent is out of the first during the call
/// alone, and of the other one from the start of the list. The replies must be the same.
fn step(
    alloc: Global,
    beside: &mut Beside,
    apart: &mut Heap,
    random: &mut Pcg32,
) -> Result<(), Fail>
    ensures lent { apart.new.lents ≡ apart.old.lents }
    ensures loan { KeepsLoan apart.old apart.new }
{
    let call = memory_call(random, alloc, &Image::decode(alloc, beside.image())?)?;
    let spot = format!(in alloc; "{call:?}")?;
    let reply = beside.call(alloc, spot.as_str(), &call)?;
    equal(spot.as_str(), do_call(alloc, apart, &call), reply)
}

/// Does some calls on two heaps.
fn go_on(
    alloc: Global,
    beside: &mut Beside,
    apart: &mut Heap,
    random: &mut Pcg32,
) -> Result<(), Fail>
    ensures lent { apart.new.lents ≡ apart.old.lents }
    ensures loan { KeepsLoan apart.old apart.new }
{
    for _ in 0..HEAP_CALLS {
        step(alloc, beside, apart, random)?;
    }
    Ok(())
}

/// Lends the bytes of a name for some calls, writes the first of them, and puts them back.
fn go_on_lent(
    alloc: Global,
    beside: &mut Beside,
    apart: &mut Heap,
    name: Name,
    random: &mut Pcg32,
) -> Result<(), Fail>
    ensures { apart.new.lents ≡ apart.old.lents }
{
    let mut loan = apart.take_out(name)?;
    let done = go_on(alloc, beside, apart, random);
    let first: &[u8] = if loan.len() > 0 { b"L" } else { b"" };
    loan.write(0, first);
    apart.put_back(loan);
    done
}

/// Lends the bytes of a name on both heaps for some calls that write the first of them. Both must
/// have the same image then.
fn lend(
    alloc: Global,
    beside: &mut Beside,
    apart: &mut Heap,
    name: Name,
    random: &mut Pcg32,
) -> Result<(), Fail>
    requires { apart.old.lents ≡ [] }
    ensures { apart.new.lents ≡ [] }
{
    beside.take_out(&[name])?;
    go_on_lent(alloc, beside, apart, name, random)?;
    beside.put_back(name);
    let first: &[u8] = if apart.size(name)? > 0 { b"L" } else { b"" };
    let write = MemoryCall::Write {
        name,
        at: 0,
        bytes: Bytes::of(Vec::from_slice(alloc, first)?),
    };
    beside.call(alloc, "written", &write)?;
    equal("both heaps", apart.image(), beside.image())
}

/// Does a list of calls that a seed gives: most of them while a body is lent that stays where it
/// is. Returns how many bodies were lent.
fn run_list(alloc: Global, region: Region, seed: u64) -> Result<u32, Fail>
    requires { region.lents ≡ [] }
{
    let mut random = Pcg32::new(seed, 1);
    let mut apart = adopt(Region::from_bytes(alloc, region.as_slice())?)?;
    let mut beside = Beside::new(alloc, region)?;
    let mut lent = 0u32;
    for _ in 0..25u32 {
        let name = staying(&Image::decode(alloc, beside.image())?, &mut random);
        match name {
            Some(name) => {
                lend(alloc, &mut beside, &mut apart, name, &mut random)?;
                lent = lent.saturating_add(1);
            }
            None => step(alloc, &mut beside, &mut apart, &mut random)?,
        }
    }
    Ok(lent)
}

#[test]
fn lists_of_calls_while_bodies_are_lent(rt: HostRuntime) -> Result<(), Fail> {
    let mut lent = 0u32;
    for seed in 61..66u64 {
        for listing in &[BLANK, FIVE, LARGE, ODD_IMAGE, CHAINED] {
            let more = run_list(rt.alloc(), image(rt.alloc(), listing, "")?, seed)?;
            lent = lent.saturating_add(more);
        }
    }
    equal("1,000 calls", lent.saturating_mul(HEAP_CALLS) >= 1000, true)
}
