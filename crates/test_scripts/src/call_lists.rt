//! Lists of calls, done one behind another; and images that are checked for them.

use crate::calls::small_store;
use heap_model::{Call, DatabaseCall, MemoryCall, Name, Place, Reply};
use palm_script::{NotRun, check_and_run, run_calls, run_calls_from};
use std::alloc::Global;
use std::test::Fail;
use test_support::{BLANK, RefusesOne, equal, image};

/// The name of the first chunk that is made.
const LISTED_CHUNK: Name = Name(16);

/// A chunk is made, and what is free is asked for.
const IN_ORDER: [Call; 2] = [
    Call::Memory(MemoryCall::HandleNew { size: 10, owner: 1 }),
    Call::Memory(MemoryCall::FreeBytes),
];

/// The place that `lock` answers is 40: this place and one behind it are asked for.
pub(crate) const PLACES_ASKED: [Call; 4] = [
    Call::Memory(MemoryCall::HandleNew { size: 8, owner: 1 }),
    Call::Memory(MemoryCall::Lock(LISTED_CHUNK)),
    Call::Memory(MemoryCall::Recover(Place(40))),
    Call::Memory(MemoryCall::Recover(Place(48))),
];

/// A call that is refused doesn't end the list, and changes nothing for those behind it.
const WITH_REFUSALS: [Call; 6] = [
    Call::Memory(MemoryCall::Free(LISTED_CHUNK)),
    Call::Memory(MemoryCall::HandleNew { size: 90, owner: 1 }),
    Call::Memory(MemoryCall::HandleNew { size: 2, owner: 1 }),
    Call::Memory(MemoryCall::Lock(LISTED_CHUNK)),
    Call::Memory(MemoryCall::Free(LISTED_CHUNK)),
    Call::Memory(MemoryCall::Size(LISTED_CHUNK)),
];

/// A chunk is made, read and asked for.
const WITH_READ: [Call; 3] = [
    Call::Memory(MemoryCall::HandleNew { size: 2, owner: 1 }),
    Call::Memory(MemoryCall::Read {
        name: LISTED_CHUNK,
        at: 0,
        count: 2,
    }),
    Call::Memory(MemoryCall::Size(LISTED_CHUNK)),
];

/// What a list is answered on the small store.
fn check_list(alloc: Global, calls: &[Call], wanted: &str) -> Result<(), Fail> {
    let mut store = small_store(alloc)?;
    let replies = run_calls(alloc, &mut store, calls)?;
    let said = format!(in alloc; "{replies:?}")?;
    equal("replies", said.as_str(), wanted)
}

#[test]
fn a_list_is_answered_in_order(rt: HostRuntime) -> Result<(), Fail> {
    check_list(rt.alloc(), &IN_ORDER, "[Named(Name(16)), Number(72)]")?;
    check_list(rt.alloc(), &[], "[]")
}

#[test]
fn a_place_in_a_list_has_its_name(rt: HostRuntime) -> Result<(), Fail> {
    let said =
        "[Named(Name(16)), Locked { place: Place(40), count: 1 }, Named(Name(16)), Refused(InvalidHandle)]";
    check_list(rt.alloc(), &PLACES_ASKED, said)
}

#[test]
fn a_list_goes_on_behind_a_refusal(rt: HostRuntime) -> Result<(), Fail> {
    let said = "[Refused(InvalidHandle), Refused(NotEnoughSpace), Named(Name(16)), \
        Locked { place: Place(40), count: 1 }, Refused(ChunkLocked), Number(2)]";
    check_list(rt.alloc(), &WITH_REFUSALS, said)
}

/// Checks the list with a read, if the growth after the first `before` is refused: the replies, and
/// the free bytes then.
fn check_without(alloc: Global, before: u32, wanted: (&str, u32)) -> Result<(), Fail> {
    let mut store = small_store(alloc)?;
    let memory = RefusesOne::behind(alloc, before);
    let ran = run_calls_from(&memory, &mut store, &WITH_READ);
    let said = format!(in alloc; "{ran:?}")?;
    equal(
        format_args!("after {before}"),
        (said.as_str(), store.free_bytes()),
        wanted,
    )
}

static WITHOUT: [(u32, (&str, u32)); 3] = [
    (0, ("Err(OutOfMemory)", 96)),
    (
        1,
        ("Ok([Named(Name(16)), Refused(OutOfMemory), Number(2)])", 80),
    ),
    (
        2,
        (
            "Ok([Named(Name(16)), Data(Bytes { bytes: [0, 0] }), Number(2)])",
            80,
        ),
    ),
];

/// Room for the replies comes first: without it nothing is done.
#[test]
fn every_growth_of_a_list_may_be_refused(rt: HostRuntime) -> Result<(), Fail> {
    for (before, wanted) in &WITHOUT {
        check_without(rt.alloc(), *before, *wanted)?;
    }
    Ok(())
}

#[test]
fn an_image_is_checked_for_a_list(rt: HostRuntime) -> Result<(), Fail> {
    let region = image(rt.alloc(), BLANK, "")?;
    let calls = [Call::Database(DatabaseCall::Count)];
    match check_and_run(rt.alloc(), region, &calls) {
        Ok((store, replies)) => {
            let came = (replies.as_slice(), store.free_bytes());
            equal("replies", came, (&[Reply::Number(0)], 96))
        }
        Err(NotRun::NotAStore(_)) => Err("no store")?,
        Err(NotRun::OutOfMemory(_)) => Err("no memory")?,
    }
}

/// What is wrong with a region that is no accepted image is said.
#[test]
fn a_list_is_not_run_on_a_broken_image(rt: HostRuntime) -> Result<(), Fail> {
    let region = image(rt.alloc(), BLANK, "3: 33")?;
    let Err(NotRun::NotAStore(error)) = check_and_run(rt.alloc(), region, &[]) else {
        return Err("run")?;
    };
    let said = format!(in rt.alloc(); "{error}")?;
    equal("the fault", said.as_str(), "BadMagic")
}
