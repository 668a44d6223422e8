//! Each byte of an image with a database, set to each other value.

ghost use Rattle.std.specs.Prelude.{[], ◌≡◌, None};

use crate::stores::listed_store;
use palm_script::{Script, parse, run};
use palm_store::Store;
use palm_text::Counted;
use std::alloc::Global;
use std::test::*;
use test_beside::{Verdict, agreed_verdict, image_of, store_of};
use test_support::{ONE_DATABASE, bytes_of, equal};

/// Calls on chunks, databases, records and resources, each with its reply on the image as it is.
/// They ask of the database, its records and their data, change them and delete it, and then make
/// another, of resources, with chunks of callers next to it.
static CALLS: [(&str, &str); 82] = [
    ("find d \"R\"", "ok"),
    ("nth d 0", "ok"),
    ("dbcount", "ok 1"),
    ("dbset d \"S\" 8 1 2 3 4 \"data\" \"Memo\"", "ok"),
    (
        "dbinfo d",
        "ok \"S\" 0008 1 2 3 4 1 \"data\" \"Memo\" 00000002 2",
    ),
    ("bind r 24", "ok"),
    ("size r", "ok 8"),
    ("owner r", "ok 15"),
    ("lock r", "ok 1"),
    ("set r 6 2 7", "ok"),
    ("read r 0 8", "ok 4141414141410707"),
    ("unlock r", "ok 0"),
    // what is left is room for a header of a chunk
    ("new a 0 1", "ok"),
    (
        "create e \"T\" \"DATA\" \"Test\" 0 5",
        "refused 8 NotEnoughSpace",
    ),
    ("recnew d 0 0 n", "refused 8 NotEnoughSpace"),
    ("free a", "ok"),
    ("recinfo d 0", "ok 00 1 data"),
    ("catcount d 0", "ok 2"),
    ("catmove d 3 0 0", "ok"),
    ("catnext d 1 3", "ok 1"),
    ("recset d 1 3 7", "ok"),
    ("recfind d 7", "ok 1"),
    ("recget d 1 s", "ok"),
    ("recrelease d 1 1", "ok"),
    ("recmove d 1 0", "ok"),
    ("recdelete d 0", "ok"),
    ("recinfo d 0", "ok c3 7 none"),
    ("reccount d", "ok 2"),
    ("recdetach d 1 5 y", "ok"),
    ("owner y", "ok 5"),
    ("infoset d app y", "ok"),
    ("info d app z", "ok"),
    ("infotake d app 5 y", "ok"),
    ("recattach d 9 y", "ok 1"),
    ("recinfo d 1", "ok 40 3 data"),
    ("new w 0 1", "ok"),
    ("recreplace d 1 w 5 y", "ok"),
    ("free y", "ok"),
    ("recremove d 1", "ok"),
    ("catdelete d 3", "ok"),
    ("dbdelete d", "ok"),
    ("largest", "ok 152"),
    ("new a 3 1", "ok"),
    ("create e \"T\" \"DATA\" \"Test\" 1 5", "ok"),
    ("freebytes", "ok 40"),
    ("resnew e \"code\" 7 2 c", "ok 0"),
    ("resinfo e 0 u", "ok \"code\" 7"),
    ("resfind e \"code\" 7", "ok 0"),
    ("resset e 0 \"data\" 8", "ok"),
    ("restype e \"data\" 0", "ok 0"),
    ("resresize e 0 9", "ok"),
    ("resdetach e 0 4 v", "ok"),
    ("owner v", "ok 4"),
    ("resattach e \"code\" 9 v", "ok 0"),
    ("rescount e", "ok 1"),
    ("resremove e 0", "ok"),
    ("freebytes", "ok 40"),
    ("new b 10 2", "ok"),
    ("free a", "ok"),
    ("compact", "ok"),
    ("largest", "ok 32"),
    ("resize b 20", "ok"),
    ("ptrnew p 8 14", "ok"),
    ("freebytes", "ok 8"),
    ("lock b", "ok 1"),
    ("write b 0 61626364", "ok"),
    ("strcopy b 4 \"xy\"", "ok"),
    ("set b 8 2 255", "ok"),
    ("read b 0 10", "ok 6162636478790000ffff"),
    ("unlock b", "ok 0"),
    ("setowner b 3", "ok"),
    ("owner b", "ok 3"),
    ("size b", "ok 20"),
    ("locks p", "ok 15"),
    ("free p", "ok"),
    ("freeowner 3", "ok 1"),
    ("find x \"T\"", "ok"),
    (
        "dbinfo x",
        "ok \"T\" 0001 0 5 5 0 6 \"DATA\" \"Test\" 00000000 0",
    ),
    ("dbcount", "ok 1"),
    ("freebytes", "ok 56"),
    ("compact", "ok"),
    ("dbdelete x", "ok"),
];

/// Calls as the text of a script.
fn text_of(alloc: Global, calls: &[(&str, &str)]) -> Result<String, Fail> {
    let mut text = String::new(alloc);
    for (line, _) in calls {
        writeln!(text, "{line}")?;
    }
    Ok(text)
}

/// The lines of their replies.
fn replies(alloc: Global, calls: &[(&str, &str)]) -> Result<String, Fail> {
    let mut text = String::new(alloc);
    for (_, reply) in calls {
        writeln!(text, "{reply}")?;
    }
    Ok(text)
}

/// Runs calls on a store, and returns what they print. What they leave is a store.
fn run_on(alloc: Global, mut store: Store, calls: &Script<'_>) -> Result<Vec<u8>, Fail>
    requires { store.lents ≡ [] }
{
    let said = printed(alloc, &mut store, calls)?;
    store_of(alloc, &image_of(alloc, &store)?)?;
    Ok(said)
}

/// What calls print on a store.
fn printed(alloc: Global, store: &mut Store, calls: &Script<'_>) -> Result<Vec<u8>, Fail>
    ensures { store.new.lents ≡ store.old.lents }
{
    let mut out = Counted::new(Vec::new(alloc));
    run(alloc, store, calls, &[], &mut out)?;
    Ok(out.into_inner())
}

/// Runs calls on an image as it is.
pub(crate) fn check_replies(
    alloc: Global,
    listing: &str,
    calls: &[(&str, &str)],
) -> Result<(), Fail> {
    let store = listed_store(alloc, listing)?;
    let text = text_of(alloc, calls)?;
    let said = run_on(alloc, store, &parse(alloc, text.as_bytes())?)?;
    check_said(alloc, said, calls)
}

/// What calls print are their replies.
fn check_said(alloc: Global, said: Vec<u8>, calls: &[(&str, &str)]) -> Result<(), Fail> {
    let said = String::from_utf8(said)?;
    equal("replies", said.as_str(), replies(alloc, calls)?.as_str())
}

#[test]
fn calls_are_answered_on_the_image_as_it_is(rt: HostRuntime) -> Result<(), Fail> {
    check_replies(rt.alloc(), ONE_DATABASE, &CALLS)
}

/// Ranges of bytes, and with how many values of each byte of a range the image is accepted, by what
/// docs/FORMAT.md says of these bytes. Every other byte has one.
static VALUES: [(usize, usize, usize); 22] = [
    // 8 slots or 7, where the place of the eighth has the zeros after them
    (9, 10, 2),
    // what is after the number in the directory
    (60, 64, 256),
    // the name, of one character or two
    (72, 73, 255),
    (73, 74, 256),
    // attributes, but the bit of resources
    (104, 105, 256),
    (105, 106, 128),
    // version, dates, modification number; type, creator, seed
    (106, 124, 256),
    (132, 144, 256),
    // of each record the attributes and the ID, which is not 0 nor that of the other
    (154, 157, 256),
    (157, 158, 254),
    (162, 165, 256),
    (165, 166, 254),
    // what is after the last one
    (166, 168, 256),
    // of the chunks with their data the length, the locks and the bytes
    (168, 169, 8),
    (172, 173, 15),
    (176, 184, 256),
    (184, 185, 8),
    // the second chunk goes up to the free one, or has it too
    (187, 188, 2),
    (188, 189, 15),
    (192, 200, 256),
    // of the free chunk all but that it is free, and its size
    (200, 201, 128),
    (204, 208, 256),
];

/// With how many values of this byte an image is to be accepted.
fn wanted_at(values: &[(usize, usize, usize)], at: usize) -> usize {
    for (from, to, count) in values {
        if *from <= at && at < *to {
            return *count;
        }
    }
    1
}

/// An image, or a file, in which this byte has a value.
pub(crate) fn with_byte(
    alloc: Global,
    image: &[u8],
    at: usize,
    value: u8,
) -> Result<Vec<u8>, Fail> {
    let mut changed = Vec::from_slice(alloc, image)?;
    match changed.get_mut(at) {
        Some(byte) => *byte = value,
        None => return Err("a byte beyond the end")?,
    }
    Ok(changed)
}

/// Whether an image with a byte changed is accepted; calls are run on it then.
fn takes_value(
    alloc: Global,
    image: &[u8],
    at: usize,
    value: u8,
    calls: &Script<'_>,
) -> Result<bool, Fail> {
    let changed = with_byte(alloc, image, at, value)?;
    let verdict = agreed_verdict(alloc, format_args!("byte {at}: {value}"), &changed)?;
    let is_taken = verdict == Verdict::Accepted;
    if is_taken {
        run_on(alloc, store_of(alloc, &changed)?, calls)?;
    }
    Ok(is_taken)
}

/// Sets a byte of an image to each value. It is accepted with the given number of them.
fn check_byte(
    alloc: Global,
    image: &[u8],
    at: usize,
    calls: &Script<'_>,
    wanted: usize,
) -> Result<(), Fail> {
    let mut taken = 0usize;
    for value in 0..=255 {
        if takes_value(alloc, image, at, value, calls)? {
            taken = taken.saturating_add(1);
        }
    }
    equal(format_args!("byte {at}"), taken, wanted)
}

/// Sets each byte of an image to each value, and runs calls where it is accepted.
pub(crate) fn check_bytes(
    alloc: Global,
    listing: &str,
    calls: &[(&str, &str)],
    values: &[(usize, usize, usize)],
) -> Result<(), Fail> {
    let image = bytes_of(alloc, listing)?;
    let text = text_of(alloc, calls)?;
    let script = parse(alloc, text.as_bytes())?;
    for at in 0..image.len() {
        check_byte(alloc, &image, at, &script, wanted_at(values, at))?;
    }
    Ok(())
}

#[test]
fn every_byte_has_every_value(rt: HostRuntime) -> Result<(), Fail> {
    check_bytes(rt.alloc(), ONE_DATABASE, &CALLS, &VALUES)
}
