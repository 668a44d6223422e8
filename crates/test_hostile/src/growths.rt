//! Each allocation fails in turn. Out of memory is reported if one failed, and only then, and
//! nothing was done.

ghost use Rattle.std.specs.Prelude.{[], ◌≡◌, IfOk, IfErr, None};
ghost use Rattle.palm_script.specs.Headline.{HandsBack};

use crate::stores::{
    CARRIED, WRITTEN, has_image, input_files, listed_store, store_behind, with_database,
};
use heap_model::{
    Bytes, Call, DatabaseCall, Db, FileCall, MemoryCall, Name, Place, Refusal, Reply,
};
use palm_script::{
    LineFault, NotRun, OutOfMemory, RunFault, ScriptFault, check_and_run_from, do_call_from, parse,
    run_calls_from, run_from,
};
use palm_store::{Store, StoreFault};
use palm_text::Counted;
use raw_region::Region;
use script_lines::parse_from;
use std::alloc::Global;
use std::test::*;
use test_beside::{image_of, store_of};
use test_support::{
    BLANK, EMPTY_FILE, ONE_CHUNK, ONE_DATABASE, ORDER_FILE, RefusesOne, TINY_FILE, TWO_DATABASES,
    WIDE, bytes_of, holds,
};

/// Lines on the image with one chunk.
const BOUND: &str = "bind a 16\nsize a\nowner a\n";

/// A call for which an allocation fails.
enum Trial {
    /// A region of zeros.
    Zeros,
    /// A region of some bytes.
    Copy,
    /// The check of an image that a script leaves on a listed one.
    Check(&'static str, &'static str),
    /// The reading of a script.
    Parse(&'static str),
    /// A run of a script on a listed image.
    Run(&'static str, &'static str),
    /// A list of calls on the blank image.
    List,
    /// The check of the blank image, and that list.
    CheckedList,
    /// A read, as a call of its own.
    DoRead,
    /// The import of a file into a store without databases.
    Import(&'static str),
    /// The export of what was imported from a file.
    Export(&'static str),
}

/// What came of a call.
#[derive(Drop)]
enum Came {
    /// Out of memory. An allocation failed, and all is as it was.
    NoMemory,
    /// Not out of memory, and no allocation failed.
    Done,
    /// Something else.
    Odd,
}

fn outcome(memory: &RefusesOne, is_want: bool, is_kept: bool) -> Came {
    match (is_want, memory.has_refused()) {
        (true, true) if is_kept => Came::NoMemory,
        (false, false) => Came::Done,
        _ => Came::Odd,
    }
}

fn zeros_with(memory: &RefusesOne) -> Came {
    outcome(memory, Region::zeroed_from(memory, 64).is_err(), true)
}

fn copy_with(memory: &RefusesOne) -> Came {
    outcome(memory, Region::copied_from(memory, b"PHI1").is_err(), true)
}

/// The check of what a script leaves on a listed image.
fn check_with(memory: &RefusesOne, alloc: Global, listing: &str, text: &str) -> Result<Came, Fail> {
    let (store, _) = store_behind(alloc, listing, text)?;
    check_image_with(memory, alloc, &image_of(alloc, &store)?)
}

/// The region is returned as it was.
fn check_image_with(memory: &RefusesOne, alloc: Global, image: &[u8]) -> Result<Came, Fail> {
    match Store::check_from(memory, Region::from_bytes(alloc, image)?) {
        Ok(_) => Ok(outcome(memory, false, true)),
        Err(refused) => {
            let is_want = refused.fault == StoreFault::OutOfMemory;
            Ok(outcome(memory, is_want, refused.region.as_slice() == image))
        }
    }
}

/// What came of a call on a store that had this image.
fn came_of(
    memory: &RefusesOne,
    alloc: Global,
    store: &Store,
    image: &[u8],
    is_want: bool,
) -> Result<Came, Fail> {
    Ok(outcome(memory, is_want, has_image(alloc, store, image)?))
}

const NO_MEMORY_LINE: LineFault = LineFault {
    line: 0,
    fault: ScriptFault::OutOfMemory,
};

fn parse_with(memory: &RefusesOne, text: &str) -> Came {
    let fault = parse_from(memory, text.as_bytes()).err();
    outcome(memory, fault == Some(NO_MEMORY_LINE), true)
}

/// Nothing was printed, and nothing done.
fn run_with(memory: &RefusesOne, alloc: Global, listing: &str, text: &str) -> Result<Came, Fail> {
    let image = bytes_of(alloc, listing)?;
    let mut store = store_of(alloc, &image)?;
    let (fault, out) = ran_with(memory, alloc, &mut store, text)?;
    let is_kept = out.is_empty() && has_image(alloc, &store, &image)?;
    Ok(outcome(memory, fault == Some(RunFault::OutOfMemory), is_kept))
}

/// Why the run of a script ends early, if it does, and what it prints.
fn ran_with(
    memory: &RefusesOne,
    alloc: Global,
    store: &mut Store,
    text: &str,
) -> Result<(Option<RunFault>, Vec<u8>), Fail>
    ensures { store.new.lents ≡ store.old.lents }
{
    let script = parse(alloc, text.as_bytes())?;
    let inputs = input_files(alloc)?;
    let mut out = Counted::new(Vec::new(alloc));
    let fault = run_from(memory, store, &script, &inputs, &mut out).err();
    Ok((fault, out.into_inner()))
}

/// The first chunk that is made.
const FIRST_CHUNK: Name = Name(16);

/// A list of calls on the blank image.
fn calls_in_list() -> [Call; 5] {
    [
        Call::Memory(MemoryCall::HandleNew { size: 10, owner: 1 }),
        Call::Memory(MemoryCall::FreeBytes),
        Call::Memory(MemoryCall::Lock(FIRST_CHUNK)),
        Call::Memory(MemoryCall::Recover(Place(40))),
        Call::Memory(MemoryCall::Recover(Place(48))),
    ]
}

fn list_with(memory: &RefusesOne, alloc: Global) -> Result<Came, Fail> {
    let image = bytes_of(alloc, BLANK)?;
    let mut store = store_of(alloc, &image)?;
    let is_want = wants_list(memory, &mut store);
    came_of(memory, alloc, &store, &image, is_want)
}

/// Whether the list wants memory.
fn wants_list(memory: &RefusesOne, store: &mut Store) -> bool
    ensures { store.new.lents ≡ store.old.lents }
{
    matches!(
        run_calls_from(memory, store, &calls_in_list()),
        Err(OutOfMemory)
    )
}

fn run_list(memory: &RefusesOne, region: Region) -> Result<(Store, Vec<Reply>), NotRun>
    requires { region.lents ≡ [] }
    ensures run { IfOk result (λ made. made.0.lents ≡ []) }
    ensures not_run { IfErr result (HandsBack region) }
{
    check_and_run_from(memory, region, &calls_in_list())
}

/// The region is returned as it was, and so is the store.
fn checked_list_with(memory: &RefusesOne, alloc: Global) -> Result<Came, Fail> {
    let image = bytes_of(alloc, BLANK)?;
    match run_list(memory, Region::from_bytes(alloc, &image)?) {
        Ok(_) => Ok(outcome(memory, false, true)),
        Err(NotRun::NotAStore(refused)) => {
            let is_want = refused.fault == StoreFault::OutOfMemory;
            Ok(outcome(
                memory,
                is_want,
                refused.region.as_slice() == image.as_slice(),
            ))
        }
        Err(NotRun::OutOfMemory(store)) => came_of(memory, alloc, &store, &image, true),
    }
}

/// Does a call on a store; where an allocation fails it must be as it was.
fn call_with(
    memory: &RefusesOne,
    alloc: Global,
    mut store: Store,
    call: &Call,
) -> Result<Came, Fail>
    requires { store.lents ≡ [] }
{
    let image = image_of(alloc, &store)?;
    let is_want = wants_call(memory, &mut store, call);
    came_of(memory, alloc, &store, &image, is_want)
}

/// Whether a call wants memory.
fn wants_call(memory: &RefusesOne, store: &mut Store, call: &Call) -> bool
    ensures { store.new.lents ≡ store.old.lents }
{
    do_call_from(memory, store, call) == Reply::Refused(Refusal::OutOfMemory)
}

fn read_with(memory: &RefusesOne, alloc: Global) -> Result<Came, Fail> {
    let call = Call::Memory(MemoryCall::Read {
        name: FIRST_CHUNK,
        at: 0,
        count: 10,
    });
    let (store, _) = store_behind(alloc, BLANK, WRITTEN)?;
    call_with(memory, alloc, store, &call)
}

fn import_with(memory: &RefusesOne, alloc: Global, listing: &str) -> Result<Came, Fail> {
    let call = import_of(alloc, listing)?;
    call_with(memory, alloc, listed_store(alloc, WIDE)?, &call)
}

fn import_of(alloc: Global, listing: &str) -> Result<Call, Fail> {
    Ok(Call::File(FileCall::Import(Bytes::of(bytes_of(alloc, listing)?))))
}

fn export_with(memory: &RefusesOne, alloc: Global, listing: &str) -> Result<Came, Fail> {
    let (store, db) = with_database(alloc, listing)?;
    call_with(memory, alloc, store, &Call::File(FileCall::Export(db)))
}

/// The outcome of a call if the allocation after the given number fails.
fn tried_behind(alloc: Global, trial: &Trial, before: u32) -> Result<Came, Fail> {
    let memory = RefusesOne::behind(alloc, before);
    tried(&memory, alloc, trial)
}

fn tried(memory: &RefusesOne, alloc: Global, trial: &Trial) -> Result<Came, Fail> {
    match trial {
        Trial::Zeros => Ok(zeros_with(memory)),
        Trial::Copy => Ok(copy_with(memory)),
        Trial::Check(listing, script) => check_with(memory, alloc, listing, script),
        Trial::Parse(text) => Ok(parse_with(memory, text)),
        Trial::Run(listing, text) => run_with(memory, alloc, listing, text),
        Trial::List => list_with(memory, alloc),
        Trial::CheckedList => checked_list_with(memory, alloc),
        Trial::DoRead => read_with(memory, alloc),
        Trial::Import(listing) => import_with(memory, alloc, listing),
        Trial::Export(listing) => export_with(memory, alloc, listing),
    }
}

/// Calls, and the number of allocations of each.
static TRIALS: [(Trial, u32); 23] = [
    (Trial::Zeros, 2),
    (Trial::Copy, 2),
    (Trial::Check(BLANK, ""), 2),
    (Trial::Check(ONE_CHUNK, ""), 2),
    (Trial::Check(BLANK, WRITTEN), 2),
    (Trial::Check(WIDE, CARRIED), 2),
    (Trial::Check(ONE_DATABASE, ""), 2),
    (Trial::Check(TWO_DATABASES, ""), 2),
    (Trial::Parse(BOUND), 9),
    (Trial::Parse(WRITTEN), 28),
    (Trial::Parse(CARRIED), 13),
    (Trial::Run(BLANK, ""), 4),
    (Trial::Run(ONE_CHUNK, BOUND), 4),
    (Trial::Run(BLANK, WRITTEN), 4),
    (Trial::List, 1),
    (Trial::CheckedList, 3),
    (Trial::DoRead, 1),
    (Trial::Import(EMPTY_FILE), 4),
    (Trial::Import(ORDER_FILE), 10),
    (Trial::Import(TINY_FILE), 6),
    (Trial::Export(EMPTY_FILE), 1),
    (Trial::Export(ORDER_FILE), 1),
    (Trial::Export(TINY_FILE), 1),
];

/// Whether no allocation fails after the given number of them; else there must be "out of memory".
fn is_done(alloc: Global, number: usize, trial: &Trial, before: u32) -> Result<bool, Fail> {
    match tried_behind(alloc, trial, before)? {
        Came::Done => Ok(true),
        Came::NoMemory => Ok(false),
        Came::Odd => Err(Fail::new(format_args!("trial {number}, after {before}"))),
    }
}

/// A call has the given number of allocations: after these none fails.
fn check_growths(alloc: Global, number: usize, trial: &Trial, growths: u32) -> Result<(), Fail> {
    for before in 0..=growths {
        let is_right = is_done(alloc, number, trial, before)? == (before == growths);
        holds(format_args!("trial {number}, after {before}"), is_right)?;
    }
    Ok(())
}

#[test]
fn each_growth_is_refused_in_turn(rt: HostRuntime) -> Result<(), Fail> {
    for (number, (trial, growths)) in TRIALS.iter().enumerate() {
        check_growths(rt.alloc(), number, trial, *growths)?;
    }
    Ok(())
}

/// The allocations of the run of the lines that import and export a file fail in turn: after how
/// many, and what is printed then. Out of memory before the first line is none of these.
static CARRIED_SAID: [(u32, &str); 6] = [
    (4, WITHOUT_IMPORT),
    (5, WITHOUT_IMPORT),
    (6, WITHOUT_IMPORT),
    (7, WITHOUT_IMPORT),
    // the export
    (
        8,
        "ok\nrefused 26 OutOfMemory\nrefused 21 AlreadyExists\nrefused 25 BadFile Truncated\n",
    ),
    // none
    (
        9,
        "ok\nok 80\nrefused 21 AlreadyExists\nrefused 25 BadFile Truncated\n",
    ),
];

/// The import is refused, and so the label names no database; the second import is then the first.
const WITHOUT_IMPORT: &str =
    "refused 26 OutOfMemory\nrefused 10 NoSuchDatabase\nok\nrefused 25 BadFile Truncated\n";

/// What those lines print if the allocation after the given number fails.
fn carried(alloc: Global, before: u32) -> Result<Vec<u8>, Fail> {
    let mut store = listed_store(alloc, WIDE)?;
    let memory = RefusesOne::behind(alloc, before);
    let (fault, out) = ran_with(&memory, alloc, &mut store, CARRIED)?;
    match fault {
        None => Ok(out),
        Some(fault) => Err(fault)?,
    }
}

fn check_carried(alloc: Global, before: u32, text: &str) -> Result<(), Fail> {
    let said = carried(alloc, before)?;
    holds(
        format_args!("after {before}"),
        said.as_slice() == text.as_bytes(),
    )
}

/// Before the first of those lines "out of memory" ends the run, and nothing was done.
fn check_not_begun(alloc: Global, before: u32) -> Result<(), Fail> {
    let memory = RefusesOne::behind(alloc, before);
    let came = run_with(&memory, alloc, WIDE, CARRIED)?;
    holds(
        format_args!("after {before}"),
        matches!(came, Came::NoMemory),
    )
}

/// In a run, an import or an export for which an allocation fails is refused, and the lines after
/// it follow.
#[test]
fn a_run_goes_on_behind_a_file_that_has_no_memory(rt: HostRuntime) -> Result<(), Fail> {
    for before in 0..4 {
        check_not_begun(rt.alloc(), before)?;
    }
    for (before, text) in &CARRIED_SAID {
        check_carried(rt.alloc(), *before, text)?;
    }
    Ok(())
}

/// The number of a refusal, and 0 if there is none.
fn number_of(reply: &Reply) -> u8 {
    match reply {
        Reply::Refused(refusal) => refusal.number(),
        _ => 0,
    }
}

/// A list that imports a file of records, exports it, reads a record and counts the databases.
fn files_in_list(alloc: Global) -> Result<[Call; 4], Fail> {
    Ok([
        import_of(alloc, ORDER_FILE)?,
        Call::File(FileCall::Export(Db(16))),
        Call::Memory(MemoryCall::Read {
            name: Name(28),
            at: 0,
            count: 4,
        }),
        Call::Database(DatabaseCall::Count),
    ])
}

/// The replies to that list if the allocation after the given number fails.
fn listed(alloc: Global, before: u32) -> Result<Vec<Reply>, Fail> {
    let calls = files_in_list(alloc)?;
    let mut store = listed_store(alloc, WIDE)?;
    let memory = RefusesOne::behind(alloc, before);
    match run_calls_from(&memory, &mut store, &calls) {
        Ok(replies) => Ok(replies),
        Err(OutOfMemory) => Err("not run")?,
    }
}

/// How many allocations of that list are granted before one is refused, and the numbers of the
/// refusals then.
static LISTED: [(u32, [u8; 4]); 13] = [
    (1, [26, 10, 1, 0]),
    (2, [26, 10, 1, 0]),
    (3, [26, 10, 1, 0]),
    (4, [26, 10, 1, 0]),
    (5, [26, 10, 1, 0]),
    (6, [26, 10, 1, 0]),
    (7, [26, 10, 1, 0]),
    (8, [26, 10, 1, 0]),
    (9, [26, 10, 1, 0]),
    (10, [26, 10, 1, 0]),
    (11, [0, 26, 0, 0]),
    (12, [0, 0, 26, 0]),
    (13, [0, 0, 0, 0]),
];

/// Whether replies have these numbers of refusals.
fn have_numbers(replies: &[Reply], numbers: &[u8]) -> bool {
    for (reply, number) in replies.iter().zip(numbers) {
        if number_of(reply) != *number {
            return false;
        }
    }
    replies.len() == numbers.len()
}

fn check_listed(alloc: Global, before: u32, numbers: &[u8]) -> Result<(), Fail> {
    let is_right = have_numbers(&listed(alloc, before)?, numbers);
    holds(format_args!("after {before}"), is_right)
}

/// In a list of calls the same, and of a read.
#[test]
fn a_list_goes_on_behind_a_call_that_has_no_memory(rt: HostRuntime) -> Result<(), Fail> {
    for (before, numbers) in &LISTED {
        check_listed(rt.alloc(), *before, numbers)?;
    }
    Ok(())
}
