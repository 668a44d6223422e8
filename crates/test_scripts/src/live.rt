//! Scripts that are run while they are read: they may come in any parts, and the replies before a
//! fault stay. `tests/program.sh` tests that each reply comes before the next read.

use live_scripts::LiveInputs;
use palm_text::Counted;
use palmheap_program::{LiveEnd, run_live_region_from};
use program_io::Status;
use raw_region::Region;
use std::alloc::Global;
use std::cell::Cell;
use std::io::{ErrorKind, Read, Write};
use std::test::Fail;
use std::{io, str};
use test_support::{BLANK, Narrow, RefusesOne, WhenFull, bytes_of, equal, holds};

/// A reader of a script in parts: each read gives one. The end, or a failed read, comes after them.
#[derive(Drop)]
struct Parts {
    parts: &'static [&'static str],
    /// The index of the part that the next read gives.
    next: usize,
    fails: bool,
}

impl Read for Parts {
    fn read(&mut self, buf: &mut [u8]) -> io::Result<usize> {
        let Some(text) = self.parts.get(self.next) else {
            if self.fails {
                return Err(io::Error::from(ErrorKind::Interrupted));
            }
            return Ok(0);
        };
        self.next = self.next.saturating_add(1);
        let n = text.len().min(buf.len());
        buf[..n].copy_from_slice(&text.as_bytes()[..n]);
        Ok(n)
    }
}

/// A writer that counts the bytes that were flushed.
#[derive(Drop)]
struct Flushed<W: Write> {
    writer: W,
    taken: usize,
    flushed: usize,
}

impl<W: Write> Write for Flushed<W> {
    fn write(&mut self, bytes: &[u8]) -> io::Result<usize> {
        let n = self.writer.write(bytes)?;
        self.taken = self.taken.saturating_add(n);
        Ok(n)
    }

    fn flush(&mut self) -> io::Result<()> {
        self.writer.flush()?;
        self.flushed = self.taken;
        Ok(())
    }
}

/// What a run came to, and what its writers have.
#[derive(Drop)]
struct Ran {
    status: Status,
    image: Narrow,
    out: Narrow,
    /// The number of bytes of `out` that were flushed.
    flushed: usize,
}

/// The room of the writers of a run.
#[derive(Clone, Copy)]
struct Room {
    image: usize,
    out: usize,
}

const ENOUGH_ROOM: Room = Room {
    image: 4096,
    out: 4096,
};

/// A script in parts, whether a read fails after them, and what its lines are run with.
#[derive(Clone, Copy)]
struct Given<'a> {
    parts: &'static [&'static str],
    fails: bool,
    inputs: LiveInputs<'a>,
}

fn run_parts(
    memory: &RefusesOne,
    alloc: Global,
    image: &[u8],
    given: Given<'_>,
    room: Room,
) -> Result<Ran, Fail> {
    let mut reader = Parts {
        parts: given.parts,
        next: 0,
        fails: given.fails,
    };
    let mut image_out = Counted::new(Narrow::new(alloc, room.image, 4096, WhenFull::TakesNothing));
    let mut out = Counted::new(Flushed {
        writer: Narrow::new(alloc, room.out, 4096, WhenFull::TakesNothing),
        taken: 0,
        flushed: 0,
    });
    let mut script = Vec::new(alloc);
    let region = Region::copied_from(&alloc, image)?;
    let result = run_live_region_from(
        memory,
        region,
        &mut reader,
        given.inputs,
        &mut script,
        &mut image_out,
        &mut out,
    );
    let status = match result {
        Ok(_) => Status::Done,
        Err(LiveEnd::Ended(status)) => status,
        Err(LiveEnd::Unread(fault)) => Status::from(fault),
    };
    let Flushed {
        writer,
        flushed,
        ..
    } = out.into_inner();
    Ok(Ran {
        status,
        image: image_out.into_inner(),
        out: writer,
        flushed,
    })
}

/// A script in parts, whether a read fails after them, and what its run comes to and prints.
struct Case {
    parts: &'static [&'static str],
    fails: bool,
    status: Status,
    out: &'static str,
}

/// Runs on a blank image of 128 bytes and four slots.
static CASES: [Case; 12] = [
    Case {
        parts: &["freebytes\n", "# no call\nnew a 8 1\nsize a\n", ""],
        fails: false,
        status: Status::Done,
        out: "ok 96\nok\nok 8\n",
    },
    // a line that comes in several reads, and a part with an end and a beginning
    Case {
        parts: &["free", "byt", "es\nnew a", " 8 1\n", ""],
        fails: false,
        status: Status::Done,
        out: "ok 96\nok\n",
    },
    // the last line has no line feed
    Case {
        parts: &["new a 8 1\nsize a", ""],
        fails: false,
        status: Status::Done,
        out: "ok\nok 8\n",
    },
    Case {
        parts: &["new a 8 1\r\nsize a\r\n", ""],
        fails: false,
        status: Status::Done,
        out: "ok\nok 8\n",
    },
    Case {
        parts: &["freebytes\n", "freebytes\r"],
        fails: false,
        status: Status::Refused,
        out: "ok 96\nline 2 UnknownCommand\n",
    },
    Case {
        parts: &[],
        fails: false,
        status: Status::Done,
        out: "",
    },
    Case {
        parts: &["\n\n# no call\n"],
        fails: false,
        status: Status::Done,
        out: "",
    },
    // a faulty line among others
    Case {
        parts: &["freebytes\n\nfreebytes\nfrob\nfreebytes\n", "freebytes\n"],
        fails: false,
        status: Status::Refused,
        out: "ok 96\nok 96\nline 4 UnknownCommand\n",
    },
    Case {
        parts: &["freebytes\n", "size a\nsize\n"],
        fails: false,
        status: Status::Refused,
        out: "ok 96\nrefused 1 InvalidHandle\nline 3 WrongCount\n",
    },
    // labels are bound over reads, and a refused line binds none
    Case {
        parts: &["bind a 32\n", "new a 8 1\n", "new a 88 1\nsize a\n", ""],
        fails: false,
        status: Status::Done,
        out: "refused 1 InvalidHandle\nok\nrefused 8 NotEnoughSpace\nok 8\n",
    },
    Case {
        parts: &["freebytes\n", "freebytes"],
        fails: true,
        status: Status::ReadFault,
        out: "ok 96\n",
    },
    Case {
        parts: &[],
        fails: true,
        status: Status::ReadFault,
        out: "",
    },
];

/// The run of a case: its status, its replies, and whether it wrote an image.
fn check_case(alloc: Global, number: usize, case: &Case) -> Result<(), Fail> {
    let image = bytes_of(alloc, BLANK)?;
    let memory = RefusesOne::behind(alloc, 4096);
    let line = Cell::new(0usize);
    let given = Given {
        parts: case.parts,
        fails: case.fails,
        inputs: LiveInputs {
            files: &[],
            number: &line,
        },
    };
    let ran = run_parts(&memory, alloc, &image, given, ENOUGH_ROOM)?;
    equal(
        number,
        (ran.status, str::from_utf8(&ran.out.taken)?),
        (case.status, case.out),
    )?;
    holds(
        format_args!("case {number}"),
        ran.image.taken.is_empty() == (case.status != Status::Done),
    )
}

#[test]
fn parts_are_run_as_they_come(rt: HostRuntime) -> Result<(), Fail> {
    for (number, case) in CASES.iter().enumerate() {
        check_case(rt.alloc(), number, case)?;
    }
    Ok(())
}

/// A script of three lines in two parts, and its replies.
const DRIVEN: &[&str] = &["freebytes\n", "new a 8 1\nsize a\n", ""];

const LIVE_REPLIES: &str = "ok 96\nok\nok 8\n";

/// The number of bytes of a blank image.
const BLANK_BYTES: usize = 128;

/// Runs `DRIVEN` with room for these bytes. What has no room is cut, and no call comes after it.
fn check_room(alloc: Global, room: Room) -> Result<(), Fail> {
    let image = bytes_of(alloc, BLANK)?;
    let memory = RefusesOne::behind(alloc, 4096);
    let line = Cell::new(0usize);
    let given = Given {
        parts: DRIVEN,
        fails: false,
        inputs: LiveInputs {
            files: &[],
            number: &line,
        },
    };
    let ran = run_parts(&memory, alloc, &image, given, room)?;
    equal(room.out, ran.status, Status::WriteFault)?;
    let is_cut = if room.out < LIVE_REPLIES.len() {
        ran.out.is_cut_at(room.out) && ran.image.taken.is_empty()
    } else {
        ran.out.taken.len() == LIVE_REPLIES.len() && ran.image.is_cut_at(room.image)
    };
    holds(
        room.out,
        is_cut && LIVE_REPLIES.as_bytes().starts_with(&ran.out.taken),
    )
}

#[test]
fn nothing_is_written_after_a_failed_write(rt: HostRuntime) -> Result<(), Fail> {
    for out in 0..LIVE_REPLIES.len() {
        check_room(
            rt.alloc(),
            Room {
                image: BLANK_BYTES,
                out,
            },
        )?;
    }
    for image in 0..BLANK_BYTES {
        let out = LIVE_REPLIES.len();
        check_room(rt.alloc(), Room { image, out })?;
    }
    Ok(())
}

/// Runs `DRIVEN` with a refused allocation, after `before` others. The replies so far are whole
/// lines and were flushed, and no image was written. Returns whether an allocation was refused.
fn is_refused(alloc: Global, before: u32) -> Result<bool, Fail> {
    let image = bytes_of(alloc, BLANK)?;
    let memory = RefusesOne::behind(alloc, before);
    let line = Cell::new(0usize);
    let given = Given {
        parts: DRIVEN,
        fails: false,
        inputs: LiveInputs {
            files: &[],
            number: &line,
        },
    };
    let ran = run_parts(&memory, alloc, &image, given, ENOUGH_ROOM)?;
    let is_refused = memory.has_refused();
    let wanted = if is_refused {
        Status::NoMemory
    } else {
        Status::Done
    };
    equal(before, ran.status, wanted)?;
    let replies = &ran.out.taken;
    let is_whole = replies.is_empty() || replies.ends_with(b"\n");
    holds(
        before,
        is_whole
            && LIVE_REPLIES.as_bytes().starts_with(replies)
            && ran.flushed == replies.len()
            && ran.image.taken.is_empty() == is_refused,
    )?;
    Ok(is_refused)
}

#[test]
fn replies_stay_if_an_allocation_fails(rt: HostRuntime) -> Result<(), Fail> {
    for before in 0..64 {
        if !is_refused(rt.alloc(), before)? {
            return holds("allocations", before > 2);
        }
    }
    Err(Fail::new("more allocations"))
}
