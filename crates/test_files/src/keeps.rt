//! Files rewritten by `canonical --keep`.

use crate::samples::{MEMO_FILE, MIXED_FILE, MOST_SAMPLE, changed};
use file_commands::{Report, cmd_keep_from, cmd_report_from};
use file_parts::Keep;
use palm_text::Counted;
use program_io::Status;
use std::alloc::Global;
use std::str;
use std::test::*;
use test_support::{Narrow, ORDER_FILE, RefusesOne, WhenFull, bytes_of, equal, holds};

const KEEPS_IDS: Keep = Keep {
    ids: true,
    filler: false,
    order: false,
};

const KEEPS_FILLER: Keep = Keep {
    ids: false,
    filler: true,
    order: false,
};

const KEEPS_ORDER: Keep = Keep {
    ids: false,
    filler: false,
    order: true,
};

const KEEPS_ALL: Keep = Keep {
    ids: true,
    filler: true,
    order: true,
};

/// A file with four bytes between its entry and its data.
const FILLED_FILE: &str = "4d656d6f4442 00*26 0000 0000 e72ea9db 00*20 44415441 6d656d6f \
    00000000 00000000 0001 0000005a 01 000001 00000102 68656c6c6f20776f 72";

/// What is kept, a file, the new file, and the lines with its size and its changes.
static KEPT: [(Keep, &str, &str, &str); 10] = [
    (
        KEEPS_IDS,
        ORDER_FILE,
        "4f72646572 00*27 0000 0000 00*24 44415441 54657374 00000000 00000000 0003 \
            00000068 00 000000 00000068 03 000005 0000006c 00 000005 0000 42424242 43434343",
        "ok 112\nchanges busy order\n",
    ),
    (
        KEEPS_FILLER,
        ORDER_FILE,
        "4f72646572 00*27 0000 0000 00*24 44415441 54657374 00000002 00000000 0003 \
            00000068 00 000001 00000068 03 000005 0000006c 00 000002 0000 42424242 43434343",
        "ok 112\nchanges busy ids order\n",
    ),
    (
        KEEPS_ORDER,
        ORDER_FILE,
        "4f72646572 00*27 0000 0000 00*24 44415441 54657374 00000002 00000000 0003 \
            0000006c 00 000001 00000068 03 000005 0000006c 00 000002 0000 42424242 43434343",
        "ok 112\nchanges busy ids\n",
    ),
    (
        KEEPS_ALL,
        ORDER_FILE,
        "4f72646572 00*27 0000 0000 00*24 44415441 54657374 00000000 00000000 0003 \
            0000006c 00 000000 00000068 03 000005 0000006c 00 000005 0000 42424242 43434343",
        "ok 112\nchanges busy\n",
    ),
    // AppInfo is empty, and last in the file
    (
        KEEPS_ORDER,
        MIXED_FILE,
        "2251220a 00*28 8042 0102 ffffffff 00015180 7c25b080 00000007 \
            00000065 00000063 61001f62 7e7e7e7e 01020305 00000000 0002 \
            00000000 8f ffffff 00000060 00 020305 0000 4142 43 4449",
        "ok 101\nchanges busy ids\n",
    ),
    (
        KEEPS_IDS,
        MIXED_FILE,
        "2251220a 00*28 8042 0102 ffffffff 00015180 7c25b080 00000007 \
            00000060 00000060 61001f62 7e7e7e7e 01020304 00000000 0002 \
            00000000 8f ffffff 00000062 00 000000 0000 4449 4142 43",
        "ok 101\nchanges busy order\n",
    ),
    (KEEPS_FILLER, FILLED_FILE, FILLED_FILE, "ok 99\ncanonical\n"),
    (KEEPS_ALL, FILLED_FILE, FILLED_FILE, "ok 99\ncanonical\n"),
    (KEEPS_IDS, FILLED_FILE, MEMO_FILE, "ok 97\nchanges filler\n"),
    (KEEPS_ORDER, MEMO_FILE, MEMO_FILE, "ok 97\ncanonical\n"),
];

#[test]
fn named_things_are_kept(rt: HostRuntime) -> Result<(), Fail> {
    for (keep, listing, wanted, lines) in &KEPT {
        check_kept(
            rt.alloc(),
            *keep,
            &bytes_of(rt.alloc(), listing)?,
            wanted,
            lines,
        )?;
    }
    Ok(())
}

fn check_kept(
    alloc: Global,
    keep: Keep,
    file: &[u8],
    wanted: &str,
    lines: &str,
) -> Result<(), Fail> {
    if file.len() > MOST_SAMPLE {
        return Err("a file that is too long")?;
    }
    let mut new = Counted::new(Vec::new(alloc));
    let mut out = Counted::new(Vec::new(alloc));
    let status = cmd_keep_from(&alloc, file, keep, &mut new, &mut out);
    equal(lines, status, Status::Done)?;
    equal(lines, new.into_inner(), bytes_of(alloc, wanted)?)?;
    equal(lines, str::from_utf8(&out.into_inner())?, lines)?;
    check_line(alloc, keep, file, lines)
}

/// With `--check` only the line of the changes is printed.
fn check_line(alloc: Global, keep: Keep, file: &[u8], lines: &str) -> Result<(), Fail> {
    if file.len() > MOST_SAMPLE {
        return Err("a file that is too long")?;
    }
    let mut out = Counted::new(Vec::new(alloc));
    let status = cmd_report_from(&alloc, Report::Left(keep), None, &file, &mut out);
    equal(lines, status, Status::Done)?;
    let (_, line) = lines.split_once('\n').unwrap_or(("", ""));
    equal(lines, str::from_utf8(&out.into_inner())?, line)
}

/// A file with a fault is refused as by `list`.
#[test]
fn a_fault_comes_first(rt: HostRuntime) -> Result<(), Fail> {
    let file = changed(rt.alloc(), ORDER_FILE, 86, &[0, 0, 0, 0x65])?;
    if file.len() > MOST_SAMPLE {
        return Ok(());
    }
    let mut new = Counted::new(Vec::new(rt.alloc()));
    let mut out = Counted::new(Vec::new(rt.alloc()));
    let status = cmd_keep_from(&rt.alloc(), &file, KEEPS_ALL, &mut new, &mut out);
    equal("fault", status, Status::Refused)?;
    equal("fault", new.into_inner().len(), 0)?;
    equal(
        "fault",
        str::from_utf8(&out.into_inner())?,
        "bad BadOffset 1\nat 86\n",
    )
}

#[test]
fn refused_memory_keeps_nothing(rt: HostRuntime) -> Result<(), Fail> {
    let file = bytes_of(rt.alloc(), MIXED_FILE)?;
    if file.len() > MOST_SAMPLE {
        return Ok(());
    }
    for granted in 0..100 {
        let memory = RefusesOne::behind(rt.alloc(), granted);
        let mut new = Counted::new(Vec::new(rt.alloc()));
        let mut out = Counted::new(Vec::new(rt.alloc()));
        let status = cmd_keep_from(&memory, &file, KEEPS_ORDER, &mut new, &mut out);
        if !memory.has_refused() {
            holds(granted, granted > 3)?;
            return equal(granted, status, Status::Done);
        }
        equal(granted, status, Status::NoMemory)?;
        equal(granted, new.into_inner().len(), 0)?;
        equal(granted, out.into_inner().len(), 0)?;
    }
    Err("too many growths")?
}

/// A new file is cut after each byte, and nothing is printed then.
#[test]
fn a_full_writer_gets_a_prefix_of_a_kept_file(rt: HostRuntime) -> Result<(), Fail> {
    let file = bytes_of(rt.alloc(), MIXED_FILE)?;
    if file.len() > MOST_SAMPLE {
        return Ok(());
    }
    for room in 0..101 {
        let mut new = Counted::new(Narrow::new(rt.alloc(), room, 7, WhenFull::TakesNothing));
        let mut out = Counted::new(Vec::new(rt.alloc()));
        let status = cmd_keep_from(&rt.alloc(), &file, KEEPS_ORDER, &mut new, &mut out);
        equal(room, status, Status::WriteFault)?;
        holds(room, new.into_inner().is_cut_at(room))?;
        equal(room, out.into_inner().len(), 0)?;
    }
    Ok(())
}
