//! Lists that look random: bodies of a store are taken out and put back in any order, up to 300 at
//! once, and other calls go on meanwhile.

ghost use Rattle.std.specs.Prelude.{[], ◌≡◌, IfOk};

use crate::store::lender::Lender;
use crate::store::loans::{export, resize};
use heap_model::{Bytes, Call, MemoryCall, Name, Place, Refusal, ResourceCall};
use palm_store::Store;
use rand::RngExt;
use rand_pcg::Pcg32;
use std::alloc::{AllocError, Global};
use std::ops::Range;
use std::test::*;
use test_beside::{Beside, Counts, MIXED, blank_image, chained_image, image_of, store_of};
use test_model::{Database, Image};
use test_support::{bytes_of as listed, equal, holds};

/// A store with the plain model next to it. What is out of the model is out of the store during each
/// call alone. What calls answer meanwhile is counted, and the most bodies that were out at once.
#[derive(Drop)]
struct Known {
    store: Store,
    beside: Beside,
    counts: Counts,
    most: usize,
    ghost whole: { store.lents ≡ [] },
}

/// Does a call on both stores. The replies must be the same.
fn do_both(alloc: Global, known: &mut Known, lender: &mut Lender, call: &Call) -> Result<(), Fail> {
    let reply = known.beside.call_on(alloc, &mut known.store, "lent", call)?;
    let count = known.beside.plain.lent().len();
    if count > 0 {
        known.counts.add(call, &reply)?;
    }
    equal(
        format_args!("{call:?} while {count} bodies are lent"),
        lender.call(alloc, call),
        reply,
    )
}

/// Takes the bytes of a name out, if the model says so. It must say what the store says.
fn lend(known: &mut Known, lender: &mut Lender, name: Name, also: bool) -> Result<(), Fail> {
    let plain = &mut known.beside.plain;
    let taken = if also {
        plain.take_out_also(name)
    } else {
        plain.take_out(name)
    };
    let count = plain.lent().len();
    let spot = format_args!("{name:?} is lent with {count} others");
    equal(spot, lender.take_out(name, also), taken.err())?;
    known.most = known.most.max(count);
    Ok(())
}

/// The name of a chunk of a caller's or a database's with this many locks at least, drawn from an
/// image.
fn any_chunk(
    alloc: Global,
    beside: &Beside,
    random: &mut Pcg32,
    locks: u8,
) -> Result<Option<Name>, Fail> {
    let image = Image::decode(alloc, &beside.image)?;
    Ok(chunk_of(&image, random, locks))
}

/// The first such chunk of an image from a piece on that is drawn.
fn chunk_of(image: &Image, random: &mut Pcg32, locks: u8) -> Option<Name> {
    let count = u32::try_from(image.pieces.len()).ok()?;
    let first = random.random_range(0..count.max(1)) as usize;
    for piece in image.pieces.iter().skip(first) {
        if let Some(live) = piece.live
            && live.lock >= locks
            && live.owner > 0
        {
            return Some(live.name);
        }
    }
    None
}

/// Adds the calls of the memory manager that are refused while the bytes of a name are lent.
fn add_memory_calls(alloc: Global, calls: &mut Vec<Call>, name: Name) -> Result<(), AllocError> {
    let bytes = Bytes::of(Vec::from_slice(alloc, b"ab")?);
    let text = Bytes::of(Vec::from_slice(alloc, b"a")?);
    calls.push(Call::Memory(MemoryCall::Read {
        name,
        at: 0,
        count: 1,
    }))?;
    calls.push(Call::Memory(MemoryCall::Write { name, at: 0, bytes }))?;
    calls.push(Call::Memory(MemoryCall::Set {
        name,
        at: 0,
        count: 1,
        byte: 7,
    }))?;
    calls.push(Call::Memory(MemoryCall::StrCopy { name, at: 0, text }))?;
    calls.push(Call::Memory(MemoryCall::Unlock(name)))?;
    calls.push(Call::Memory(MemoryCall::Free(name)))?;
    calls.push(Call::Memory(MemoryCall::Resize { name, size: 9 }))?;
    Ok(())
}

/// Adds a call that resizes the record whose data a name is.
fn add_record_calls(
    calls: &mut Vec<Call>,
    database: &Database,
    name: Name,
) -> Result<(), AllocError> {
    for (index, record) in database.records.iter().enumerate() {
        if record.data == Some(name)
            && let Ok(index) = u32::try_from(index)
        {
            calls.push(resize(database.db, index, 9))?;
        }
    }
    Ok(())
}

/// Adds a call that resizes the resource whose data a name is.
fn add_resource_calls(
    calls: &mut Vec<Call>,
    database: &Database,
    name: Name,
) -> Result<(), AllocError> {
    for (index, resource) in database.resources.iter().enumerate() {
        if resource.data == name
            && let Ok(index) = u32::try_from(index)
        {
            calls.push(Call::Resource(ResourceCall::Resize {
                db: database.db,
                index,
                size: 9,
            }))?;
        }
    }
    Ok(())
}

/// All calls that may be refused because the bytes of a name are lent, and exports of all
/// databases.
fn calls_on(alloc: Global, beside: &Beside, name: Name) -> Result<Vec<Call>, AllocError> {
    let mut calls = Vec::new(alloc);
    add_memory_calls(alloc, &mut calls, name)?;
    for database in beside.plain.databases() {
        add_record_calls(&mut calls, database, name)?;
        add_resource_calls(&mut calls, database, name)?;
        calls.push(export(database.db))?;
    }
    Ok(calls)
}

/// Takes out the bytes of a chunk that is drawn: most often one that stays, else any.
fn lend_any(
    alloc: Global,
    known: &mut Known,
    lender: &mut Lender,
    random: &mut Pcg32,
) -> Result<(), Fail> {
    let locks = if random.random_range(0..6u32) == 0 {
        0
    } else {
        1
    };
    let also = random.random_range(0..6u32) > 0;
    match any_chunk(alloc, &known.beside, random, locks)? {
        Some(name) => lend(known, lender, name, also),
        None => Ok(()),
    }
}

/// The names of chunks that stay, up to a number.
fn staying(alloc: Global, image: &[u8], most: u32) -> Result<Vec<Name>, Fail> {
    let image = Image::decode(alloc, image)?;
    let mut names = Vec::new(alloc);
    for piece in &image.pieces {
        if let Some(live) = piece.live
            && live.lock > 0
            && live.owner > 0
            && names.len() < most as usize
        {
            names.push(live.name)?;
        }
    }
    Ok(names)
}

/// Takes out the bytes of chunks that stay, up to a number.
fn lend_first(
    alloc: Global,
    known: &mut Known,
    lender: &mut Lender,
    most: u32,
) -> Result<(), Fail> {
    for name in &staying(alloc, &known.beside.image, most)? {
        lend(known, lender, *name, true)?;
    }
    Ok(())
}

/// Puts a loan back that is drawn, if there is one, after a text was written over its first bytes.
/// Returns its name.
fn put_back_any(
    known: &mut Known,
    lender: &mut Lender,
    text: &[u8],
    random: &mut Pcg32,
) -> Result<Option<Name>, Fail> {
    let lent = known.beside.plain.lent();
    let index = random.random_range(0..lent.len().max(1));
    let Some(name) = lent.get(index).copied() else {
        return Ok(None);
    };
    equal("put back", lender.put_back(index, text), Some(name))?;
    known.beside.plain.put_back(name, b"");
    Ok(Some(name))
}

/// Writes a byte over the first of a loan that is drawn, and puts it back. A call writes the same
/// byte to the other store.
fn write_any(
    alloc: Global,
    known: &mut Known,
    lender: &mut Lender,
    random: &mut Pcg32,
) -> Result<(), Fail> {
    let Some(name) = put_back_any(known, lender, b"L", random)? else {
        return Ok(());
    };
    let write = Call::Memory(MemoryCall::Write {
        name,
        at: 0,
        bytes: Bytes::of(Vec::from_slice(alloc, b"L")?),
    });
    known
        .beside
        .call_on(alloc, &mut known.store, "written", &write)?;
    let read = Call::Memory(MemoryCall::Read {
        name,
        at: 0,
        count: 1,
    });
    do_both(alloc, known, lender, &read)
}

/// A call that is refused if a name is lent, which is drawn from those that may be, or any call.
fn next_call(alloc: Global, known: &Known, random: &mut Pcg32) -> Result<Call, Fail> {
    if random.random_range(0..2u32) == 0
        && let Some(name) = any_chunk(alloc, &known.beside, random, 1)?
    {
        let mut calls = calls_on(alloc, &known.beside, name)?;
        let index = random.random_range(0..calls.len().max(1));
        if index < calls.len() {
            return Ok(calls.remove(index));
        }
    }
    known.beside.any_call(random, alloc)
}

/// The first chunk above a place whose bytes are out.
fn next_loan(beside: &Beside, image: &Image, after: Place) -> Option<(Name, Place)> {
    for piece in &image.pieces {
        if piece.place.0 > after.0
            && let Some(live) = piece.live
            && beside.plain.lent().contains(&live.name)
        {
            return Some((live.name, piece.place));
        }
    }
    None
}

/// The store must say of its loans what the model says: which there are, and which is the next above
/// a place that is drawn.
fn check_told(
    alloc: Global,
    beside: &Beside,
    store: &Store,
    random: &mut Pcg32,
) -> Result<(), Fail> {
    let image = Image::decode(alloc, &beside.image)?;
    let names = beside.plain.loans(alloc, &image)?;
    let after = Place(random.random_range(0..u32::try_from(beside.image.len())?.max(1)));
    let told = (store.loans(alloc)?, store.is_whole(), store.lent());
    equal(
        "loans",
        &told,
        &(names, beside.plain.lent().is_empty(), told.2),
    )?;
    equal(
        format_args!("the loan above {after:?}"),
        store.loan_above(after),
        next_loan(beside, &image, after),
    )?;
    match told.2 {
        Some(name) => holds("another name is lent", beside.plain.lent().contains(&name)),
        None => holds("no name is lent", beside.plain.lent().is_empty()),
    }
}

/// Locks a chunk that is drawn, if there is one.
fn lock_any(
    alloc: Global,
    known: &mut Known,
    lender: &mut Lender,
    random: &mut Pcg32,
) -> Result<(), Fail> {
    match any_chunk(alloc, &known.beside, random, 0)? {
        Some(name) => do_both(alloc, known, lender, &Call::Memory(MemoryCall::Lock(name))),
        None => Ok(()),
    }
}

/// Takes a body out, puts one back, or does a call.
fn step(
    alloc: Global,
    known: &mut Known,
    lender: &mut Lender,
    random: &mut Pcg32,
) -> Result<(), Fail> {
    match random.random_range(0..9u32) {
        0..=2 => lend_any(alloc, known, lender, random)?,
        3 => write_any(alloc, known, lender, random)?,
        4 => lock_any(alloc, known, lender, random)?,
        _ => {
            let call = next_call(alloc, known, random)?;
            do_both(alloc, known, lender, &call)?;
        }
    }
    check_told(alloc, &known.beside, lender.store(), random)
}

/// Takes some bodies out, does some steps, and puts all bodies back. Both stores must have the same
/// image then.
fn go_on(
    alloc: Global,
    known: &mut Known,
    lender: &mut Lender,
    lists: &Lists,
    random: &mut Pcg32,
) -> Result<(), Fail> {
    lend_first(alloc, known, lender, lists.first)?;
    for _ in 0..lists.steps {
        step(alloc, known, lender, random)?;
    }
    for _ in 0..known.beside.plain.lent().len() {
        put_back_any(known, lender, b"", random)?;
    }
    check_told(alloc, &known.beside, lender.store(), random)?;
    let apart = image_of(alloc, lender.store())?;
    equal("both stores", &apart, &known.beside.image)
}

/// Does lists one after the other.
fn go_on_all(
    alloc: Global,
    known: &mut Known,
    lender: &mut Lender,
    lists: &Lists,
    random: &mut Pcg32,
) -> Result<(), Fail> {
    for _ in 0..lists.count {
        go_on(alloc, known, lender, lists, random)?;
    }
    Ok(())
}

/// Lists of steps on one image: their seed, whether the image has a chain of tables, how many chunks
/// are made before the first list, how many lists there are, how many bodies each takes out first,
/// and how many steps it has.
#[derive(Clone, Copy)]
struct Lists {
    seed: u32,
    is_chained: bool,
    chunks: u32,
    count: u32,
    first: u32,
    steps: u32,
}

/// Makes chunks that are drawn: most are movable and have a lock, and some are fixed. Tables are
/// made for more slots where they can be.
fn make_chunks(store: &mut Store, count: u32, random: &mut Pcg32)
    ensures { store.new.lents ≡ store.old.lents }
{
    for _ in 0..count {
        make_chunk(store, random);
    }
}

fn make_chunk(store: &mut Store, random: &mut Pcg32)
    ensures { store.new.lents ≡ store.old.lents }
{
    let size = random.random_range(0..20u32);
    let owner = random.random_range(1..5u8);
    if random.random_range(0..4u32) == 0 {
        let _name = store.ptr_new(size, owner);
        return;
    }
    if let Ok(name) = movable(store, size, owner)
        && random.random_range(0..5u32) > 0
    {
        let _locked = store.lock(name);
    }
}

/// Makes a movable chunk, with a table for more slots if there is no room.
fn movable(store: &mut Store, size: u32, owner: u8) -> Result<Name, Refusal>
    ensures { store.new.lents ≡ store.old.lents }
{
    if let Ok(name) = store.handle_new(size, owner) {
        return Ok(name);
    }
    let _table = store.more_slots();
    store.handle_new(size, owner)
}

/// A store with databases, in one layout or the other.
fn mixed_store(alloc: Global, is_chained: bool) -> Result<Store, Fail>
    ensures { IfOk result (λ made. made.lents ≡ []) }
{
    let store = store_of(alloc, &listed(alloc, MIXED)?)?;
    if !is_chained {
        return Ok(store);
    }
    match store.migrate(alloc) {
        Ok(store) => Ok(store),
        Err(_) => Err("not migrated")?,
    }
}

/// A blank store with room for chunks.
fn blank_store(alloc: Global, lists: &Lists) -> Result<Store, Fail>
    ensures { IfOk result (λ made. made.lents ≡ []) }
{
    let count = lists.chunks.min(1000);
    let size = 512 + 48 * count;
    let image = if lists.is_chained {
        chained_image(alloc, size, u16::try_from(1 + count % 3)?)?
    } else {
        blank_image(alloc, size, u16::try_from(8 + count)?)?
    };
    store_of(alloc, &image)
}

/// A store with databases for each second seed, else a blank one.
fn first_store(alloc: Global, lists: &Lists) -> Result<Store, Fail>
    ensures { IfOk result (λ made. made.lents ≡ []) }
{
    if lists.seed % 2 == 0 {
        mixed_store(alloc, lists.is_chained)
    } else {
        blank_store(alloc, lists)
    }
}

/// The image that lists start from.
fn image_for(alloc: Global, lists: &Lists, random: &mut Pcg32) -> Result<Vec<u8>, Fail> {
    let mut store = first_store(alloc, lists)?;
    make_chunks(&mut store, lists.chunks, random);
    image_of(alloc, &store)
}

/// Does lists, and counts what their calls answer. Returns the most bodies that were out at once,
/// too.
fn run_lists(alloc: Global, counts: Counts, lists: &Lists) -> Result<(Counts, usize), Fail> {
    let mut random = Pcg32::new(u64::from(lists.seed), 7);
    let image = image_for(alloc, lists, &mut random)?;
    let store = store_of(alloc, &image)?;
    let mut known = Known {
        store: store_of(alloc, &image)?,
        beside: Beside::new(alloc, image)?,
        counts,
        most: 0,
    };
    let mut lender = Lender::new(alloc, store);
    let done = go_on_all(alloc, &mut known, &mut lender, lists, &mut random);
    let _store = lender.into_store();
    done?;
    let Known { counts, most, .. } = known;
    Ok((counts, most))
}

/// The calls that must have been refused because a body is lent.
static REFUSED: [(&str, &[Refusal]); 7] = [
    ("read", &[Refusal::Lent]),
    ("write", &[Refusal::Lent]),
    ("set", &[Refusal::Lent]),
    ("str_copy", &[Refusal::Lent]),
    ("unlock", &[Refusal::Lent]),
    ("resize", &[Refusal::Lent]),
    ("export", &[Refusal::Lent]),
];

/// 25 lists on the image of a seed. Each third image has up to 40 chunks more, the others up to 12.
fn lists_of(seed: u32, is_chained: bool) -> Lists {
    let (chunks, first, steps) = if seed % 3 == 0 {
        (40, 20, 8)
    } else {
        (4 + seed % 9, seed % 6, 6)
    };
    Lists {
        seed,
        is_chained,
        chunks,
        count: 25,
        first,
        steps,
    }
}

/// Does the lists of some seeds. Each call of the table must have been refused.
fn run_seeds(alloc: Global, seeds: Range<u32>, is_chained: bool) -> Result<(), Fail> {
    let mut counts = Counts::new(alloc);
    for seed in seeds {
        let (more, _) = run_lists(alloc, counts, &lists_of(seed, is_chained))?;
        counts = more;
    }
    equal("not met", counts.not_refused(&REFUSED), None)
}

/// Does a list in which the bodies of 300 chunks are out at once.
fn run_long(alloc: Global, is_chained: bool) -> Result<(), Fail> {
    let lists = Lists {
        seed: 1,
        is_chained,
        chunks: 400,
        count: 1,
        first: 300,
        steps: 8,
    };
    let (_, most) = run_lists(alloc, Counts::new(alloc), &lists)?;
    holds("300 loans", most >= 300)
}

#[test]
fn three_hundred_bodies_are_lent(rt: HostRuntime) -> Result<(), Fail> {
    run_long(rt.alloc(), false)
}

#[test]
fn three_hundred_bodies_are_lent_in_chains(rt: HostRuntime) -> Result<(), Fail> {
    run_long(rt.alloc(), true)
}

#[test]
fn lists_of_seeds_0_to_3(rt: HostRuntime) -> Result<(), Fail> {
    run_seeds(rt.alloc(), 0..4, false)
}

#[test]
fn lists_of_seeds_4_to_7(rt: HostRuntime) -> Result<(), Fail> {
    run_seeds(rt.alloc(), 4..8, false)
}

#[test]
fn lists_of_seeds_8_to_11(rt: HostRuntime) -> Result<(), Fail> {
    run_seeds(rt.alloc(), 8..12, false)
}

#[test]
fn lists_of_seeds_12_to_15(rt: HostRuntime) -> Result<(), Fail> {
    run_seeds(rt.alloc(), 12..16, false)
}

#[test]
fn lists_of_seeds_16_to_19(rt: HostRuntime) -> Result<(), Fail> {
    run_seeds(rt.alloc(), 16..20, false)
}

#[test]
fn chained_lists_of_seeds_0_to_3(rt: HostRuntime) -> Result<(), Fail> {
    run_seeds(rt.alloc(), 0..4, true)
}

#[test]
fn chained_lists_of_seeds_4_to_7(rt: HostRuntime) -> Result<(), Fail> {
    run_seeds(rt.alloc(), 4..8, true)
}

#[test]
fn chained_lists_of_seeds_8_to_11(rt: HostRuntime) -> Result<(), Fail> {
    run_seeds(rt.alloc(), 8..12, true)
}

#[test]
fn chained_lists_of_seeds_12_to_15(rt: HostRuntime) -> Result<(), Fail> {
    run_seeds(rt.alloc(), 12..16, true)
}

#[test]
fn chained_lists_of_seeds_16_to_19(rt: HostRuntime) -> Result<(), Fail> {
    run_seeds(rt.alloc(), 16..20, true)
}
