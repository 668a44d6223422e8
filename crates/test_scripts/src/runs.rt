//! Scripts that are run on images: what they print, and what they leave.

use crate::grammar::halves;
use heap_model::Bytes;
use palm_text::Counted;
use palmheap_program::cmd_run;
use program_io::Status;
use std::alloc::{AllocError, Global};
use std::io::{BufWriter, ErrorKind, Write};
use std::str;
use std::test::Fail;
use test_support::{BLANK, Narrow, ONE_CHUNK, Unflushed, WIDE, WhenFull, bytes_of, equal, holds};

/// A blank image of 128 bytes with one slot.
const ONE_SLOT_BLANK: &str = "50484931 00000080 0001 0000 00000000 00*8 80000068 00*100";

/// The image of one slot with a chain of tables, which has the first table alone.
pub(crate) const CHAINED_ONE_SLOT: &str =
    "50484932 00000080 0001 0000 00000000 00*8 80000068 00*100";

/// The same with a second table, behind one chunk.
pub(crate) const TWO_TABLES: &str = "50484932 00000080 0001 0000 00000000 00000020 00000028 \
    00000008 01FFFFFC 00000048 F0000000 00*64 80000018 00*20";

/// The image with a chain after `moreslots`: that of docs/FORMAT.md.
pub(crate) const ONE_FURTHER: &str = "50484932 00000080 0001 0000 00000000 00000000 00000020 \
    00000048 F0000000 00000000 00*60 80000020 00*28";

/// The same with two tables and a chunk of each.
pub(crate) const BOTH_USED: &str = "50484932 00000080 0001 0000 00000000 00000020 00000028 \
    00000008 01FFFFFC 00000048 F0000000 00000000 00000070 00*56 00000008 01FFFFE2 80000010 00*12";

/// A blank image with a chunk that reaches beyond its end.
const LONG_CHUNK: &str = "50484931 00000080 0004 0000 00000000 00*16 80000068 00*92";

/// What a run answered, what its writers hold, and the files that it exports.
#[derive(Drop)]
pub(crate) struct Ran<W, V> {
    pub status: Status,
    pub image: W,
    pub files: Vec<Bytes>,
    pub out: V,
}

fn run_to<W: Write, V: Write>(
    alloc: Global,
    image: &[u8],
    script: &str,
    inputs: &[Bytes],
    image_out: W,
    out: V,
) -> Ran<W, V> {
    let (mut image_out, mut out) = (Counted::new(image_out), Counted::new(out));
    let mut files = Vec::new(alloc);
    let script = script.as_bytes();
    let status = cmd_run(
        alloc,
        image,
        script,
        inputs,
        &mut image_out,
        &mut files,
        &mut out,
    );
    Ran {
        status,
        image: image_out.into_inner(),
        files,
        out: out.into_inner(),
    }
}

/// Runs a script with writers that take all.
pub(crate) fn run_on(
    alloc: Global,
    image: &[u8],
    script: &str,
    inputs: &[Bytes],
) -> Ran<Vec<u8>, Vec<u8>> {
    run_to(
        alloc,
        image,
        script,
        inputs,
        Vec::new(alloc),
        Vec::new(alloc),
    )
}

/// What a command came to and printed is this.
pub(crate) fn check_told(
    spot: &str,
    (status, out): (Status, &[u8]),
    wanted: (Status, &str),
) -> Result<(), Fail> {
    equal(spot, (status, str::from_utf8(out)?), wanted)
}

/// Adds a line and its reply, with ` = ` between, to a script and to what it prints.
fn put_row(script: &mut String, said: &mut String, row: &str) -> Result<(), AllocError> {
    let (line, reply) = halves(row, " = ");
    writeln!(script, "{line}")?;
    writeln!(said, "{reply}")
}

/// Adds the lines of a text in which each has its reply.
fn part(script: &mut String, said: &mut String, text: &str) -> Result<(), AllocError> {
    for row in text.lines() {
        put_row(script, said, row)?;
    }
    Ok(())
}

/// Runs the lines of such a text on an image, and checks their replies and the files that they
/// export.
pub(crate) fn check_lines(
    alloc: Global,
    image: &[u8],
    text: &str,
    inputs: &[Bytes],
    files: &[Bytes],
) -> Result<(), Fail> {
    let (mut script, mut said) = (String::new(alloc), String::new(alloc));
    part(&mut script, &mut said, text)?;
    let ran = run_on(alloc, image, script.as_str(), inputs);
    check_told(
        text,
        (ran.status, ran.out.as_slice()),
        (Status::Done, said.as_str()),
    )?;
    equal(text, ran.files.as_slice(), files)
}

fn check_run(alloc: Global, listing: &str, text: &str) -> Result<(), Fail> {
    let image = bytes_of(alloc, listing)?;
    check_lines(alloc, &image, text, &[], &[])
}

/// Runs lines on images, and checks their replies.
pub(crate) fn check_runs(alloc: Global, runs: &[(&str, &str)]) -> Result<(), Fail> {
    for (listing, text) in runs {
        check_run(alloc, listing, text)?;
    }
    Ok(())
}

#[test]
fn lines_print_their_replies(rt: HostRuntime) -> Result<(), Fail> {
    check_runs(rt.alloc(), &RUNS)
}

/// A script on an image comes to this, and leaves this image.
fn check_outcome(
    alloc: Global,
    listing: &str,
    script: &str,
    wanted: (Status, &str),
    after: &str,
) -> Result<(), Fail> {
    let image = bytes_of(alloc, listing)?;
    let ran = run_on(alloc, &image, script, &[]);
    check_told(script, (ran.status, ran.out.as_slice()), wanted)?;
    let after = bytes_of(alloc, after)?;
    equal(script, ran.image.as_slice(), after.as_slice())
}

/// Images, and the lines that are run on them, each with its reply.
static RUNS: [(&str, &str); 11] = [
    // labels are bound
    (
        ONE_CHUNK,
        "bind a 16 = ok
        size a = ok 10
        owner a = ok 1
        bind a 20 = refused 1 InvalidHandle
        size a = ok 10
        size b = refused 1 InvalidHandle
        new a 65 1 = refused 8 NotEnoughSpace
        owner a = ok 1
        free a = ok
        owner a = refused 1 InvalidHandle",
    ),
    // locks are counted
    (
        BLANK,
        "new a 8 1 = ok
        lock a = ok 1
        lock a = ok 2
        lock a = ok 3
        lock a = ok 4
        lock a = ok 5
        lock a = ok 6
        lock a = ok 7
        lock a = ok 8
        lock a = ok 9
        lock a = ok 10
        lock a = ok 11
        lock a = ok 12
        lock a = ok 13
        lock a = ok 14
        lock a = refused 5 LockOverflow
        free a = refused 3 ChunkLocked",
    ),
    // chunks of no bytes are chunks
    (
        BLANK,
        "new z 0 1 = ok
        size z = ok 0
        read z 0 0 = ok -
        write z 0 41 = refused 4 ChunkNotLocked
        lock z = ok 1
        write z 0 41 = refused 9 OutOfBounds
        freebytes = ok 88",
    ),
    // bytes are written within bounds
    (
        BLANK,
        "new a 10 1 = ok
        lock a = ok 1
        write a 9 41 = ok
        write a 9 4142 = refused 9 OutOfBounds
        read a 0 10 = ok 00000000000000000041
        strcopy a 8 \"x\" = ok
        strcopy a 9 \"x\" = refused 9 OutOfBounds
        read a 8 2 = ok 7800",
    ),
    // fixed chunks need no slot
    (
        ONE_SLOT_BLANK,
        "new a 0 1 = ok
        new b 0 1 = refused 8 NotEnoughSpace
        ptrnew p 0 1 = ok
        lock p = refused 6 ChunkFixed
        resize p 1 = refused 6 ChunkFixed
        locks p = ok 15
        freebytes = ok 88",
    ),
    // chunks are freed by their owner
    (
        BLANK,
        "new a 8 3 = ok
        lock a = ok 1
        ptrnew p 8 3 = ok
        new b 8 4 = ok
        freeowner 3 = ok 2
        freebytes = ok 80
        setowner b 15 = refused 7 InvalidOwner
        lock b = ok 1
        set b 2 3 0x41 = ok
        read b 0 8 = ok 0000414141000000
        unlock b = ok 0
        unlock b = refused 4 ChunkNotLocked
        setowner b 3 = ok
        freeowner 3 = ok 1
        freebytes = ok 96",
    ),
    // a locked chunk parts two stretches; the chunk between the rooms of the first moves
    (
        BLANK,
        "new a 8 1 = ok
        new b 8 1 = ok
        new c 8 1 = ok
        lock c = ok 1
        lock b = ok 1
        set b 0 8 0x42 = ok
        unlock b = ok 0
        free a = ok
        freebytes = ok 64
        largest = ok 48
        compact = ok
        largest = ok 48
        lock b = ok 1
        read b 0 8 = ok 4242424242424242
        unlock b = ok 0
        unlock c = ok 0
        largest = ok 64
        compact = ok
        freebytes = ok 64
        largest = ok 64
        new d 56 1 = ok",
    ),
    // a table has 15 slots, and its chunk takes 72 bytes
    (
        CHAINED_ONE_SLOT,
        "new a 0 1 = ok
        new b 0 1 = refused 8 NotEnoughSpace
        moreslots = ok
        new b 0 1 = ok
        freebytes = ok 16
        moreslots = refused 8 NotEnoughSpace
        bind t 40 = refused 1 InvalidHandle
        freeowner 1 = ok 2
        freebytes = ok 32
        largest = ok 24",
    ),
    // a table has no room
    (
        CHAINED_ONE_SLOT,
        "new a 28 1 = ok
        moreslots = refused 8 NotEnoughSpace
        freebytes = ok 64",
    ),
    // an image of one table gets no other
    (
        ONE_SLOT_BLANK,
        "moreslots = refused 8 NotEnoughSpace
        freebytes = ok 104",
    ),
    (
        BLANK,
        "moreslots = refused 8 NotEnoughSpace
        freebytes = ok 96",
    ),
];

/// Images and scripts, what the run answers and prints, and the image that it writes, none where
/// one of them is refused.
static OUTCOMES: [(&str, &str, (Status, &str), &str); 13] = [
    (BLANK, "new a 10 1\n", (Status::Done, "ok\n"), ONE_CHUNK),
    (ONE_CHUNK, "", (Status::Done, ""), ONE_CHUNK),
    (
        CHAINED_ONE_SLOT,
        "new a 0 1\nmoreslots\n",
        (Status::Done, "ok\nok\n"),
        TWO_TABLES,
    ),
    (
        CHAINED_ONE_SLOT,
        "moreslots\n",
        (Status::Done, "ok\n"),
        ONE_FURTHER,
    ),
    (
        CHAINED_ONE_SLOT,
        "new a 0 1\nnew b 0 1\nmoreslots\nnew b 0 1\nfreebytes\n",
        (
            Status::Done,
            "ok\nrefused 8 NotEnoughSpace\nok\nok\nok 16\n",
        ),
        BOTH_USED,
    ),
    (ONE_CHUNK, "\n", (Status::Done, ""), ONE_CHUNK),
    (
        ONE_CHUNK,
        "# a line that is passed over\n",
        (Status::Done, ""),
        ONE_CHUNK,
    ),
    (
        BLANK,
        "new a 8",
        (Status::Refused, "line 1 WrongCount\n"),
        "",
    ),
    (
        BLANK,
        "frob",
        (Status::Refused, "line 1 UnknownCommand\n"),
        "",
    ),
    (
        BLANK,
        "read a 0 x",
        (Status::Refused, "line 1 BadWord 4\n"),
        "",
    ),
    (
        BLANK,
        "new a 8 1\n\nnew b 8 256\nfrob\n",
        (Status::Refused, "line 3 BadWord 4\n"),
        "",
    ),
    (
        LONG_CHUNK,
        "new a 8 1\n",
        (Status::Refused, "bad BadChunk 32\n"),
        "",
    ),
    (
        LONG_CHUNK,
        "frob",
        (Status::Refused, "bad BadChunk 32\n"),
        "",
    ),
];

#[test]
fn a_run_writes_its_image_or_says_why_not(rt: HostRuntime) -> Result<(), Fail> {
    for (listing, script, wanted, after) in &OUTCOMES {
        check_outcome(rt.alloc(), listing, script, *wanted, after)?;
    }
    Ok(())
}

/// A line may end by a carriage return and a line feed.
#[test]
fn lines_end_by_two_characters_too(rt: HostRuntime) -> Result<(), Fail> {
    let image = bytes_of(rt.alloc(), WIDE)?;
    let script = "create d x:0a \"DATA\" \"Test\" 0 0\r\ndbinfo d\r\n";
    let ran = run_on(rt.alloc(), &image, script, &[]);
    let said = "ok\nok x:0a 0000 0 0 0 0 0 \"DATA\" \"Test\" 00000000 0\n";
    check_told(
        script,
        (ran.status, ran.out.as_slice()),
        (Status::Done, said),
    )
}

/// A script, and what it prints on a blank image.
const SCRIPT: &str = "new a 10 1\nlock a\nwrite a 9 41\nwrite a 9 4142\nread a 0 10\n";

const REPLIES: &str = "ok\nok 1\nok\nrefused 9 OutOfBounds\nok 00000000000000000041\n";

/// Returns whether a run ended with a write fault after this text and `written` bytes of the image,
/// and wrote nothing after that.
fn stops(ran: &Ran<Narrow, Narrow>, (written, text): (usize, &[u8])) -> bool {
    let (image, out) = (&ran.image, &ran.out);
    let is_cut = image.taken.len() == written && out.taken.as_slice() == text;
    let is_last = image.refused.max(out.refused) == 1 && image.refused.min(out.refused) == 0;
    ran.status == Status::WriteFault && is_cut && is_last
}

/// Checks where a run stops if its outputs have room for `image_room` and `room` bytes.
fn check_stop(
    alloc: Global,
    script: &str,
    (image_room, room): (usize, usize),
    way: WhenFull,
    wanted: (usize, &[u8]),
) -> Result<(), Fail> {
    let image = bytes_of(alloc, BLANK)?;
    let image_out = Narrow::new(alloc, image_room, 50, way);
    let out = Narrow::new(alloc, room, 3, way);
    let ran = run_to(alloc, &image, script, &[], image_out, out);
    holds(
        format_args!("{script} {image_room} {room}"),
        stops(&ran, wanted),
    )
}

fn check_replies_cut(alloc: Global, way: WhenFull) -> Result<(), Fail> {
    for room in 0..REPLIES.len() {
        let replies = &REPLIES.as_bytes()[..room];
        check_stop(alloc, SCRIPT, (1000, room), way, (0, replies))?;
    }
    Ok(())
}

#[test]
fn nothing_follows_a_reply_that_is_not_taken(rt: HostRuntime) -> Result<(), Fail> {
    check_replies_cut(rt.alloc(), WhenFull::TakesNothing)?;
    check_replies_cut(rt.alloc(), WhenFull::Fails(ErrorKind::Interrupted))
}

#[test]
fn an_output_that_takes_0_bytes_is_a_write_fault(rt: HostRuntime) -> Result<(), Fail> {
    let (alloc, way) = (rt.alloc(), WhenFull::TakesNothing);
    for room in &[0, 1, 127] {
        check_stop(
            alloc,
            SCRIPT,
            (*room, 1000),
            way,
            (*room, REPLIES.as_bytes()),
        )?;
    }
    check_stop(alloc, "", (0, 0), way, (0, &[]))?;
    check_stop(alloc, "frob", (1000, 0), way, (0, &[]))
}

/// Checks that nothing follows replies that go through a buffer to a writer with room for `room`
/// bytes.
fn check_behind_buffer(alloc: Global, capacity: usize, room: usize) -> Result<(), Fail> {
    let image = bytes_of(alloc, BLANK)?;
    let narrow = Narrow::new(alloc, room, 3, WhenFull::TakesNothing);
    let out = BufWriter::with_capacity(alloc, capacity, narrow)?;
    let ran = run_to(alloc, &image, SCRIPT, &[], Vec::new(alloc), out);
    let is_fault = ran.status == Status::WriteFault && ran.image.is_empty();
    let (narrow, _) = ran.out.into_parts();
    let is_cut = narrow.is_cut_at(room) && REPLIES.as_bytes().starts_with(&narrow.taken);
    holds(format_args!("{capacity} {room}"), is_fault && is_cut)
}

/// How many bytes the buffer has, and for how many there is room behind it.
static BUFFERS: [(usize, usize); 5] = [(8, 0), (8, 1), (8, 20), (1000, 0), (1000, 20)];

#[test]
fn nothing_follows_a_buffer_that_is_not_taken(rt: HostRuntime) -> Result<(), Fail> {
    for (capacity, room) in &BUFFERS {
        check_behind_buffer(rt.alloc(), *capacity, *room)?;
    }
    Ok(())
}

/// No image follows what a script prints where that isn't flushed.
fn check_unflushed(alloc: Global, script: &str) -> Result<(), Fail> {
    let image = bytes_of(alloc, BLANK)?;
    let out = Unflushed(Vec::new(alloc));
    let ran = run_to(alloc, &image, script, &[], Vec::new(alloc), out);
    let is_fault = ran.status == Status::WriteFault && ran.image.is_empty();
    holds(script, is_fault)
}

#[test]
fn no_image_follows_replies_that_are_not_flushed(rt: HostRuntime) -> Result<(), Fail> {
    check_unflushed(rt.alloc(), SCRIPT)?;
    check_unflushed(rt.alloc(), "frob")
}

#[test]
fn an_image_that_is_not_flushed_is_a_fault(rt: HostRuntime) -> Result<(), Fail> {
    let alloc = rt.alloc();
    let image = bytes_of(alloc, BLANK)?;
    let image_out = Unflushed(Vec::new(alloc));
    let ran = run_to(alloc, &image, SCRIPT, &[], image_out, Vec::new(alloc));
    let is_fault = ran.status == Status::WriteFault && ran.image.0.len() == 128;
    holds(
        "the script",
        is_fault && ran.out.as_slice() == REPLIES.as_bytes(),
    )
}
