//! Several bodies that are lent at once: they are taken out and put back in any order, and other
//! calls go on meanwhile.

ghost use Rattle.std.specs.Prelude.{[], ◌≡◌, IfOk};

use crate::store::calls::call_of;
use crate::store::lender::Lender;
use heap_model::{Call, MemoryCall, Name, Refusal, Reply};
use palm_store::Store;
use std::alloc::Global;
use std::test::*;
use test_beside::{Beside, blank_image, do_call, store_of};
use test_support::{TWO_DATABASES, bytes_of as listed, equal};

/// Three names, and the orders in which their bytes are put back. The bytes are taken out in the
/// order of the names: the last stands first among the loans.
const THREE_NAMES: [Name; 3] = [Name(16), Name(20), Name(40)];

/// For each order, where each loan stands among those that are out when it is put back, and the
/// names in that order.
const ORDERS: [([usize; 3], [Name; 3]); 6] = [
    ([0, 0, 0], [Name(40), Name(20), Name(16)]),
    ([0, 1, 0], [Name(40), Name(16), Name(20)]),
    ([1, 0, 0], [Name(20), Name(40), Name(16)]),
    ([1, 1, 0], [Name(20), Name(16), Name(40)]),
    ([2, 0, 0], [Name(16), Name(40), Name(20)]),
    ([2, 1, 0], [Name(16), Name(20), Name(40)]),
];

/// A fixed chunk of 8 bytes, a movable one of none, and one of 8 directly after it, with a lock
/// each.
const MAKES_THREE: [&str; 5] = [
    "ptr_new 8 1",
    "handle_new 0 2",
    "handle_new 8 3",
    "lock 16",
    "lock 20",
];

/// A blank store with the three chunks.
fn three_chunks(alloc: Global) -> Result<Store, Fail>
    ensures { IfOk result (λ made. made.lents ≡ []) }
{
    let mut store = store_of(alloc, &blank_image(alloc, 128, 4)?)?;
    for line in MAKES_THREE {
        let reply = do_call(alloc, &mut store, &call_of(alloc, line)?);
        if let Reply::Refused(_) = reply {
            return Err(line)?;
        }
    }
    Ok(store)
}

/// Whether a name is lent, by a read of none of its bytes.
fn is_lent(alloc: Global, lender: &mut Lender, name: Name) -> bool {
    let read = Call::Memory(MemoryCall::Read {
        name,
        at: 0,
        count: 0,
    });
    lender.call(alloc, &read) == Reply::Refused(Refusal::Lent)
}

/// Of the three names just these must be lent.
fn check_which(alloc: Global, lender: &mut Lender, names: &[Name]) -> Result<(), Fail> {
    for name in THREE_NAMES {
        let wanted = names.contains(&name);
        equal(name.0, is_lent(alloc, lender, name), wanted)?;
        let again = lender.call(alloc, &Call::Memory(MemoryCall::Lock(name)));
        let is_fixed = again == Reply::Refused(Refusal::ChunkFixed);
        equal(name.0, is_fixed, name == Name(40))?;
    }
    equal("lent", lender.store().lent().is_some(), !names.is_empty())
}

/// Takes the three bodies out and puts them back in an order.
fn go_in_order(
    alloc: Global,
    lender: &mut Lender,
    (places, names): &([usize; 3], [Name; 3]),
) -> Result<(), Fail> {
    for name in THREE_NAMES {
        equal(name.0, lender.take_out(name, true), None)?;
        equal(name.0, lender.take_out(name, true), Some(Refusal::Lent))?;
        equal(name.0, lender.take_out(name, false), Some(Refusal::Lent))?;
    }
    for count in 0..3usize {
        check_which(alloc, lender, &names[count..])?;
        equal(
            "it",
            lender.put_back(places[count], b"text"),
            Some(names[count]),
        )?;
    }
    check_which(alloc, lender, &[])
}

fn check_order(alloc: Global, order: &([usize; 3], [Name; 3])) -> Result<(), Fail> {
    let mut lender = Lender::new(alloc, three_chunks(alloc)?);
    let done = go_in_order(alloc, &mut lender, order);
    let store = lender.into_store();
    done?;
    equal("40", store.read(Name(40), 0, 5), Ok(b"text\0".as_slice()))?;
    equal("20", store.read(Name(20), 0, 5), Ok(b"text\0".as_slice()))?;
    equal("16", store.read(Name(16), 0, 0), Ok(b"".as_slice()))
}

#[test]
fn three_bodies_are_put_back_in_any_order(rt: HostRuntime) -> Result<(), Fail> {
    let orders = ORDERS;
    for order in &orders {
        check_order(rt.alloc(), order)?;
    }
    Ok(())
}

/// Two databases, 20 and 24, whose records are 28 and 32, and a caller's chunk, all locked.
const LOCKS: [&str; 4] = ["lock 28", "lock 32", "handle_new 8 1", "lock 36"];

const OF_ONE: &[Name] = &[Name(28)];

const OF_OTHER: &[Name] = &[Name(32)];

const OF_NONE: &[Name] = &[Name(36)];

const OF_OTHER_AND_NONE: &[Name] = &[Name(36), Name(32)];

const OF_BOTH: &[Name] = &[Name(28), Name(32)];

const OF_ALL: &[Name] = &[Name(32), Name(28), Name(36)];

/// Names whose bytes are out, a call, and why it is refused. An export touches the blocks of its
/// own database alone.
static EXPORTS: [(&[Name], &str, Option<Refusal>); 20] = [
    (OF_ONE, "export 20", Some(Refusal::Lent)),
    (OF_ONE, "export 24", None),
    (OF_OTHER, "export 20", None),
    (OF_OTHER, "export 24", Some(Refusal::Lent)),
    (OF_NONE, "export 20", None),
    (OF_NONE, "export 24", None),
    (OF_OTHER_AND_NONE, "export 20", None),
    (OF_OTHER_AND_NONE, "export 24", Some(Refusal::Lent)),
    (OF_BOTH, "export 20", Some(Refusal::Lent)),
    (OF_BOTH, "export 24", Some(Refusal::Lent)),
    (OF_ALL, "export 20", Some(Refusal::Lent)),
    (OF_ALL, "export 24", Some(Refusal::Lent)),
    (OF_ALL, "export 16", Some(Refusal::NoSuchDatabase)),
    (OF_ALL, "delete 20", Some(Refusal::ChunkLocked)),
    (OF_ALL, "free 28", Some(Refusal::OwnedByDatabase)),
    (OF_ALL, "free 36", Some(Refusal::ChunkLocked)),
    (OF_ALL, "free_by_owner 1", Some(Refusal::Lent)),
    (OF_BOTH, "compact", None),
    (OF_BOTH, "handle_new 8 1", None),
    (OF_BOTH, "free_by_owner 1", None),
];

/// Does a call of a text while some names are lent.
fn check_row(
    alloc: Global,
    store: &mut Store,
    beside: &mut Beside,
    row: &(&[Name], &str, Option<Refusal>),
) -> Result<(), Fail>
    requires { store.old.lents ≡ [] }
    ensures { store.new.lents ≡ [] }
{
    let (names, line, refusal) = row;
    let reply = beside.call_lent(alloc, store, names, line, &call_of(alloc, line)?)?;
    let why = match reply {
        Reply::Refused(refusal) => Some(refusal),
        _ => None,
    };
    equal(
        format_args!("{line} while {names:?} are lent"),
        why,
        *refusal,
    )
}

#[test]
fn exports_are_refused_by_their_own_blocks(rt: HostRuntime) -> Result<(), Fail> {
    let alloc = rt.alloc();
    let image = listed(alloc, TWO_DATABASES)?;
    let mut store = store_of(alloc, &image)?;
    let mut beside = Beside::new(alloc, image)?;
    for line in LOCKS {
        beside.call_on(alloc, &mut store, line, &call_of(alloc, line)?)?;
    }
    for row in &EXPORTS {
        check_row(alloc, &mut store, &mut beside, row)?;
    }
    Ok(())
}
