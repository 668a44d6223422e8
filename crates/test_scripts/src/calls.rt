//! Memory that is refused, calls that are done one by one, and a reply line that breaks off.

ghost use Rattle.std.specs.Prelude.{[], ◌≡◌, IfOk, None};

use crate::call_lists::PLACES_ASKED;
use chunk_format::blank;
use heap_model::{Bytes, Call, DatabaseCall, DbName, MemoryCall, Name, Reply};
use palm_script::{RunFault, Script, do_call, do_call_from, parse, run, run_from};
use palm_store::Store;
use palm_text::Counted;
use raw_region::Region;
use std::alloc::{AllocError, Global};
use std::io::Write;
use std::test::Fail;
use test_support::{BLANK, RefusesOne, equal, image};

/// The store of a region.
fn accepted(alloc: Global, region: Region) -> Result<Store, Fail>
    requires { region.lents ≡ [] }
    ensures { IfOk result (λ made. made.lents ≡ []) }
{
    match Store::check(alloc, region) {
        Ok(store) => Ok(store),
        Err(_) => Err("no store")?,
    }
}

/// The store of a listed image.
pub(crate) fn listed_store(alloc: Global, listing: &str) -> Result<Store, Fail>
    ensures { IfOk result (λ made. made.lents ≡ []) }
{
    accepted(alloc, image(alloc, listing, "")?)
}

/// A store of 128 bytes with 4 slots, and one free chunk of 96.
pub(crate) fn small_store(alloc: Global) -> Result<Store, Fail>
    ensures { IfOk result (λ made. made.lents ≡ []) }
{
    listed_store(alloc, BLANK)
}

/// Returns an empty store of `size` bytes with 4 slots.
pub(crate) fn blank_store(alloc: Global, size: u32) -> Result<Store, Fail>
    ensures { IfOk result (λ made. made.lents ≡ []) }
{
    accepted(alloc, blank(alloc, size, 4)?)
}

const SCRIPT_OF_CALLS: &str = "new a 10 1\nlock a\nread a 0 2\n";

/// How many files come of a run, or why it ended early.
type Ended = Result<usize, RunFault>;

/// Runs a script: how that ends, and what is printed.
fn run_with<W: Write>(
    memory: &RefusesOne,
    store: &mut Store,
    script: &Script<'_>,
    out: W,
) -> (Ended, W)
    ensures { store.new.lents ≡ store.old.lents }
{
    let mut out = Counted::new(out);
    let ended = match run_from(memory, store, script, &[], &mut out) {
        Ok(files) => Ok(files.len()),
        Err(fault) => Err(fault),
    };
    (ended, out.into_inner())
}

/// Checks the script, if the growth after the first `before` is refused: how it ends, the free
/// bytes, and the printed text.
fn check_without(
    alloc: Global,
    before: u32,
    (ended, free, said): (Ended, u32, &str),
) -> Result<(), Fail> {
    let script = parse(alloc, SCRIPT_OF_CALLS.as_bytes())?;
    let mut store = small_store(alloc)?;
    let memory = RefusesOne::behind(alloc, before);
    let (came, out) = run_with(&memory, &mut store, &script, Vec::new(alloc));
    equal(
        format_args!("after {before}"),
        (came, store.free_bytes(), out.as_slice()),
        (ended, free, said.as_bytes()),
    )
}

/// How many growths are granted, and what comes of the script: nothing but the tables of labels,
/// the buffer for bytes and the list of files grows.
static RUNS: [(u32, (Ended, u32, &str)); 5] = [
    (0, (Err(RunFault::OutOfMemory), 96, "")),
    (1, (Err(RunFault::OutOfMemory), 96, "")),
    (2, (Err(RunFault::OutOfMemory), 96, "")),
    (3, (Err(RunFault::OutOfMemory), 96, "")),
    (4, (Ok(0), 72, "ok\nok 1\nok 0000\n")),
];

#[test]
fn refused_memory_leaves_all_as_it_was(rt: HostRuntime) -> Result<(), Fail> {
    for (before, wanted) in &RUNS {
        check_without(rt.alloc(), *before, *wanted)?;
    }
    Ok(())
}

/// Makes a chunk of `length` bytes.
fn chunk_of(store: &mut Store, length: u32) -> Result<Name, Fail>
    ensures { store.new.lents ≡ store.old.lents }
{
    Ok(store.handle_new(length, 1)?)
}

/// The number of a refusal, and 0 where there is none.
fn refused(reply: &Reply) -> u8 {
    match reply {
        Reply::Refused(refusal) => refusal.number(),
        _ => 0,
    }
}

/// How many growths are granted, whether a read from a chunk of 2 bytes names the chunk, how many
/// bytes it asks for, and the number of its refusal.
static READS: [(u32, bool, u32, u8); 6] = [
    (0, true, 2, 26),
    (0, true, 0, 26),
    (0, true, 3, 9),
    (0, false, 2, 1),
    (1, true, 2, 0),
    (1, true, 0, 0),
];

fn check_read(
    alloc: Global,
    before: u32,
    is_named: bool,
    count: u32,
    number: u8,
) -> Result<(), Fail> {
    let mut store = small_store(alloc)?;
    let chunk = chunk_of(&mut store, 2)?;
    let name = if is_named { chunk } else { Name(0) };
    let call = Call::Memory(MemoryCall::Read { name, at: 0, count });
    let memory = RefusesOne::behind(alloc, before);
    let reply = do_call_from(&memory, &mut store, &call);
    equal(
        format_args!("{count} bytes after {before}"),
        refused(&reply),
        number,
    )
}

#[test]
fn a_read_is_refused_for_want_of_memory_alone(rt: HostRuntime) -> Result<(), Fail> {
    for (before, is_named, count, number) in &READS {
        check_read(rt.alloc(), *before, *is_named, *count, *number)?;
    }
    Ok(())
}

/// How many bytes a reply has, if it has some.
fn length_of(reply: &Reply) -> Option<usize> {
    match reply {
        Reply::Data(bytes) => Some(bytes.as_slice().len()),
        _ => None,
    }
}

/// Checks that a read of `count` bytes from a chunk returns `count` bytes.
fn check_count(alloc: Global, store: &mut Store, name: Name, count: u32) -> Result<(), Fail>
    ensures { store.new.lents ≡ store.old.lents }
{
    let call = Call::Memory(MemoryCall::Read { name, at: 0, count });
    let length = length_of(&do_call(alloc, store, &call));
    equal("bytes", length, Some(count as usize))
}

static COUNTS: [u32; 6] = [0, 1, 4096, 65_536, 100_001, 16_777_168];

/// Where memory isn't refused, a read of any size from the greatest chunk is answered.
#[test]
fn reads_of_every_size_are_answered(rt: HostRuntime) -> Result<(), Fail> {
    let mut store = blank_store(rt.alloc(), 16_777_208)?;
    let name = chunk_of(&mut store, 16_777_168)?;
    for count in &COUNTS {
        check_count(rt.alloc(), &mut store, name, *count)?;
    }
    Ok(())
}

/// The chunk that the first call makes.
const CALLED_CHUNK: Name = Name(16);

/// Calls one behind another: those in front of two that carry bytes.
const FIRST_CALLS: [Call; 3] = [
    Call::Memory(MemoryCall::HandleNew { size: 10, owner: 1 }),
    Call::Memory(MemoryCall::PtrNew { size: 4, owner: 15 }),
    Call::Memory(MemoryCall::Lock(CALLED_CHUNK)),
];

/// Those behind the two.
const LAST_CALLS: [Call; 14] = [
    Call::Memory(MemoryCall::Set {
        name: CALLED_CHUNK,
        at: 4,
        count: 2,
        byte: 7,
    }),
    Call::Memory(MemoryCall::Read {
        name: CALLED_CHUNK,
        at: 0,
        count: 6,
    }),
    Call::Memory(MemoryCall::Locks(CALLED_CHUNK)),
    Call::Memory(MemoryCall::Unlock(CALLED_CHUNK)),
    Call::Memory(MemoryCall::SetOwner {
        name: CALLED_CHUNK,
        owner: 3,
    }),
    Call::Memory(MemoryCall::Owner(CALLED_CHUNK)),
    Call::Memory(MemoryCall::Size(CALLED_CHUNK)),
    Call::Memory(MemoryCall::Resize {
        name: CALLED_CHUNK,
        size: 24,
    }),
    Call::Memory(MemoryCall::FreeBytes),
    Call::Memory(MemoryCall::LargestStretch),
    Call::Memory(MemoryCall::Compact),
    Call::Memory(MemoryCall::MoreSlots),
    Call::Memory(MemoryCall::FreeByOwner(3)),
    Call::Memory(MemoryCall::Free(CALLED_CHUNK)),
];

fn bytes_of(alloc: Global, text: &str) -> Result<Bytes, AllocError> {
    Ok(Bytes::of(Vec::from_slice(alloc, text.as_bytes())?))
}

/// The two that carry bytes.
fn with_bytes(bytes: Bytes, text: Bytes) -> [Call; 2] {
    let name = CALLED_CHUNK;
    [
        Call::Memory(MemoryCall::Write { name, at: 0, bytes }),
        Call::Memory(MemoryCall::StrCopy { name, at: 2, text }),
    ]
}

/// Does calls one by one, and adds the replies to a text.
fn put_replies(
    alloc: Global,
    text: &mut String,
    store: &mut Store,
    calls: &[Call],
) -> Result<(), AllocError>
    ensures { store.new.lents ≡ store.old.lents }
{
    for call in calls {
        let reply = do_call(alloc, store, call);
        write!(text, "{reply:?}; ")?;
    }
    Ok(())
}

/// Does the calls of some lists one by one, and compares the replies as text.
pub(crate) fn check_calls(
    alloc: Global,
    store: &mut Store,
    lists: &[&[Call]],
    wanted: &str,
) -> Result<(), Fail>
    ensures { store.new.lents ≡ store.old.lents }
{
    let mut text = String::new(alloc);
    for calls in lists {
        put_replies(alloc, &mut text, store, calls)?;
    }
    equal("replies", text.as_str(), wanted)
}

#[test]
fn calls_are_done_one_by_one(rt: HostRuntime) -> Result<(), Fail> {
    let alloc = rt.alloc();
    let with_bytes = with_bytes(bytes_of(alloc, "ab")?, bytes_of(alloc, "x")?);
    let said =
        "Named(Name(16)); Refused(InvalidOwner); Locked { place: Place(40), count: 1 }; Done; Done; Done; \
        Data(Bytes { bytes: [97, 98, 120, 0, 7, 7] }); Number(1); Number(0); Done; Number(3); Number(10); Done; \
        Number(64); Number(64); Number(0); Refused(NotEnoughSpace); Number(1); Refused(InvalidHandle); ";
    let mut store = small_store(alloc)?;
    check_calls(
        alloc,
        &mut store,
        &[&FIRST_CALLS, &with_bytes, &LAST_CALLS],
        said,
    )
}

/// A call that makes a database.
pub(crate) fn creation(name: &str, resources: bool) -> Call {
    Call::Database(DatabaseCall::Create {
        name: DbName::of(name.as_bytes()),
        kind: 1,
        creator: 2,
        resources,
        date: 3,
    })
}

/// A place has a name, and that behind it has none.
#[test]
fn a_place_has_its_name(rt: HostRuntime) -> Result<(), Fail> {
    let mut store = small_store(rt.alloc())?;
    let said =
        "Named(Name(16)); Locked { place: Place(40), count: 1 }; Named(Name(16)); Refused(InvalidHandle); ";
    check_calls(rt.alloc(), &mut store, &[&PLACES_ASKED], said)
}

/// Runs a script on a writer with room for 4 bytes.
fn run_cut(
    alloc: Global,
    store: &mut Store,
    script: &Script<'_>,
    room: &mut [u8; 4],
) -> Option<RunFault>
    ensures { store.new.lents ≡ store.old.lents }
{
    let mut out = Counted::new(room.as_mut_slice());
    let ran = run(alloc, store, script, &[], &mut out);
    drop(out.into_inner());
    ran.err()
}

#[test]
fn the_line_that_breaks_off_was_done(rt: HostRuntime) -> Result<(), Fail> {
    let script = parse(rt.alloc(), SCRIPT_OF_CALLS.as_bytes())?;
    let mut store = small_store(rt.alloc())?;
    let mut room = [0; 4];
    let fault = run_cut(rt.alloc(), &mut store, &script, &mut room);
    equal(
        "the run",
        (fault, store.locks(CALLED_CHUNK), room),
        (Some(RunFault::Write), Ok(1), *b"ok\no"),
    )
}
