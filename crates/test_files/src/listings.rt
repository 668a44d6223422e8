//! The listings of files, and the lines for damaged ones.

use crate::samples::{CAFE_FILE, MEMO_FILE, MIXED_FILE, NAMED_FILE, changed, damaged, listed};
use program_io::Status;
use std::alloc::Global;
use std::str;
use std::test::*;
use test_support::{EMPTY_FILE, EMPTY_WRITTEN, ORDER_FILE, TINY_FILE, bytes_of, equal};

const EMPTY_LINES: &str = "\
name \"Empty\"
attributes 0000
version 0
created 0 never
modified 0 never
backup 0 never
number 0
type \"DATA\"
creator \"Test\"
seed 00000000
app none
sort none
records 0
needs 128 bytes and 2 slots in a heap
";

const ORDER_LINES: &str = "\
ok 112
name \"Order\"
attributes 0000
version 0
created 0 never
modified 0 never
backup 0 never
number 0
type \"DATA\"
creator \"Test\"
seed 00000000
app none
sort none
records 3
0 00 0 108 0
1 03 5 104 4
2 20 5 108 4
needs 208 bytes and 5 slots in a heap
changes busy ids order
";

const TINY_LINES: &str = "\
ok 106
name \"Tiny\"
attributes 0001
version 1
created 0 never
modified 0 never
backup 0 never
number 0
type \"appl\"
creator \"Test\"
seed 00000000
app none
sort none
resources 2
0 \"tSTR\" 1000 100 3
1 \"tSTR\" 1001 103 3
needs 192 bytes and 4 slots in a heap
canonical
";

const MEMO_LINES: &str = "\
ok 97
name \"MemoDB\"
attributes 0000
version 0
created 3878595035 2026-11-27 03:30:35
modified 0 never
backup 0 never
number 0
type \"DATA\"
creator \"memo\"
seed 00000000
app none
sort none
records 1
0 01 1 88 9
needs 168 bytes and 3 slots in a heap
canonical
";

const MIXED_LINES: &str = "\
ok 101
name x:2251220a
attributes 8042
version 258
created 4294967295 2040-02-06 06:28:15
modified 86400 1970-01-02 00:00:00 since 1970
backup 2082844800 2036-01-02 00:00:00 since 1970
number 7
type x:61001f62
creator \"~~~~\"
seed 01020304
text \"\"Q\"\u{FFFD}\"
app 101 0
sort 99 2
records 2
0 8f 16777215 none
1 20 0 96 3
needs 200 bytes and 5 slots in a heap
changes busy ids order
";

const CAFE_LINES: &str = "\
ok 80
name x:436166e9
attributes 0000
version 0
created 0 never
modified 0 never
backup 0 never
number 0
type \"DATA\"
creator \"Test\"
seed 00000000
text \"Café\"
app none
sort none
records 0
needs 128 bytes and 2 slots in a heap
canonical
";

const NAMED_LINES: &str = "\
ok 392
name \"Named\"
attributes 0000
version 0
created 0 never
modified 0 never
backup 0 never
number 0
type \"DATA\"
creator \"Test\"
seed 00000000
app 112 276
sort none
category 0 \"Unfiled\"
category 1 \"Business\"
category 2 \"Grün\"
category 4 \"A \"b\"\"
category 5 \"0123456789abcde\"
category 15 \"Last\"
records 4
0 41 1 388 1 \"Business\"
1 81 2 389 1
2 03 3 390 1
3 0f 4 391 1 \"Last\"
needs 536 bytes and 7 slots in a heap
canonical
";

/// Files, and their listings: the first line and the last, and those between them.
static LISTINGS: [(&str, &str, &str, &str); 8] = [
    (EMPTY_FILE, "ok 78\n", EMPTY_LINES, "changes filler\n"),
    (EMPTY_WRITTEN, "ok 80\n", EMPTY_LINES, "canonical\n"),
    (ORDER_FILE, "", ORDER_LINES, ""),
    (TINY_FILE, "", TINY_LINES, ""),
    (MEMO_FILE, "", MEMO_LINES, ""),
    (MIXED_FILE, "", MIXED_LINES, ""),
    (CAFE_FILE, "", CAFE_LINES, ""),
    (NAMED_FILE, "", NAMED_LINES, ""),
];

/// Whether a file is listed as these lines, with this status.
fn check_text(alloc: Global, file: &[u8], status: Status, lines: &str) -> Result<(), Fail> {
    let (found, text) = listed(alloc, file)?;
    equal(format_args!("{file:?}"), found, status)?;
    equal(format_args!("{file:?}"), str::from_utf8(&text)?, lines)
}

#[test]
fn files_have_their_listings(rt: HostRuntime) -> Result<(), Fail> {
    for (file, first, lines, last) in &LISTINGS {
        let file = bytes_of(rt.alloc(), file)?;
        let lines = format!(in rt.alloc(); "{first}{lines}{last}")?;
        check_text(rt.alloc(), &file, Status::Done, &lines)?;
    }
    Ok(())
}

/// Changes of the file with the names of categories: an offset and a byte. Then the line after
/// `sort`: that of category 0 if AppInfo still has names.
static NAMES: [(usize, u8, &str); 9] = [
    (112, 0xFF, "category 0 \"Unfiled\""),
    (387, 0xFF, "category 0 \"Unfiled\""),
    (129, 0x20, "category 0 \"Unfiled\""),
    (114, 0x00, "records 4"),
    (115, 0x1F, "records 4"),
    (115, 0x20, "category 0 \"U filed\""),
    (115, 0x7F, "records 4"),
    (115, 0x80, "category 0 \"U€filed\""),
    (209, 0x66, "records 4"),
];

#[test]
fn names_of_categories_are_recognized(rt: HostRuntime) -> Result<(), Fail> {
    for (at, byte, wanted) in &NAMES {
        let file = changed(rt.alloc(), NAMED_FILE, *at, &[*byte])?;
        let (_, text) = listed(rt.alloc(), &file)?;
        let text = str::from_utf8(&text)?;
        let line = text.lines().nth(13);
        equal(format_args!("{at} {byte}"), line, Some(*wanted))?;
    }
    Ok(())
}

/// Numbers of seconds, and the lines for them: around the ends of months and years, leap years and
/// not, and the last second since 1970 and the first since 1904.
static MOMENTS: [([u8; 4], &str); 15] = [
    (
        [0x00, 0x00, 0x00, 0x01],
        "created 1 1970-01-01 00:00:01 since 1970",
    ),
    (
        [0x00, 0x28, 0xDE, 0x7F],
        "created 2678399 1970-01-31 23:59:59 since 1970",
    ),
    (
        [0x00, 0x4D, 0xC8, 0x7F],
        "created 5097599 1970-02-28 23:59:59 since 1970",
    ),
    (
        [0x00, 0x4D, 0xC8, 0x80],
        "created 5097600 1970-03-01 00:00:00 since 1970",
    ),
    (
        [0x04, 0x11, 0x80, 0xFF],
        "created 68255999 1972-02-29 23:59:59 since 1970",
    ),
    (
        [0x38, 0xBB, 0x0C, 0x00],
        "created 951782400 2000-02-29 00:00:00 since 1970",
    ),
    (
        [0x6B, 0x0B, 0xF1, 0xB1],
        "created 1795944881 2026-11-29 09:34:41 since 1970",
    ),
    (
        [0x7F, 0xFF, 0xFF, 0xFF],
        "created 2147483647 2038-01-19 03:14:07 since 1970",
    ),
    (
        [0x80, 0x00, 0x00, 0x00],
        "created 2147483648 1972-01-19 03:14:08",
    ),
    (
        [0xB4, 0x92, 0xF3, 0xFF],
        "created 3029529599 1999-12-31 23:59:59",
    ),
    (
        [0xB4, 0xE0, 0xBC, 0x80],
        "created 3034627200 2000-02-29 00:00:00",
    ),
    (
        [0xB4, 0xE2, 0x8E, 0x77],
        "created 3034746487 2000-03-01 09:08:07",
    ),
    (
        [0xB6, 0xC3, 0x41, 0x7F],
        "created 3066249599 2001-02-28 23:59:59",
    ),
    (
        [0xB6, 0xC3, 0x41, 0x80],
        "created 3066249600 2001-03-01 00:00:00",
    ),
    (
        [0xFF, 0xFF, 0xFF, 0xFF],
        "created 4294967295 2040-02-06 06:28:15",
    ),
];

#[test]
fn moments_are_printed_in_utc(rt: HostRuntime) -> Result<(), Fail> {
    for (seconds, moment) in &MOMENTS {
        let file = changed(rt.alloc(), EMPTY_WRITTEN, 36, seconds)?;
        let (_, text) = listed(rt.alloc(), &file)?;
        let text = str::from_utf8(&text)?;
        let line = text.lines().nth(4);
        equal(format_args!("{seconds:?}"), line, Some(*moment))?;
    }
    Ok(())
}

/// Files, with other bytes from an offset on. Then what is printed of each, and what standard error
/// has of its first fault.
static DAMAGED: [(&str, usize, &[u8], &str, &str); 12] = [
    (
        EMPTY_FILE,
        76,
        &[0, 1],
        "bad Truncated\nat 78\n",
        "78 bytes, and at least 86 are needed",
    ),
    (
        EMPTY_FILE,
        72,
        &[0, 0, 1, 0],
        "bad ChainedList\nat 72\n",
        "found 256, and only 0 is allowed",
    ),
    (
        EMPTY_FILE,
        0,
        &[0],
        "bad EmptyName\nat 0\n",
        "found 0, and 1 to 255 is allowed",
    ),
    (
        EMPTY_FILE,
        52,
        &[0, 0, 0, 77],
        "bad BadInfo app\nat 52\n",
        "found 77, and 0 or 78 to 78 is allowed",
    ),
    (
        EMPTY_WRITTEN,
        56,
        &[0, 0, 0, 81],
        "bad BadInfo sort\nat 56\n",
        "found 81, and 0 or 78 to 80 is allowed",
    ),
    (
        ORDER_FILE,
        78,
        &[0, 0, 0, 0],
        "bad BadOffset 0\nat 78\n",
        "found 0, and 102 to 112 is allowed, or 0 if the record is deleted",
    ),
    (
        ORDER_FILE,
        86,
        &[0, 0, 0, 0x65],
        "bad BadOffset 1\nat 86\n",
        "found 101, and 102 to 112 is allowed, or 0 if the record is deleted",
    ),
    (
        ORDER_FILE,
        94,
        &[0, 0, 0, 0x71],
        "bad BadOffset 2\nat 94\n",
        "found 113, and 102 to 112 is allowed, or 0 if the record is deleted",
    ),
    (
        ORDER_FILE,
        76,
        &[0xFF, 0xFF],
        "bad Truncated\nat 112\n",
        "112 bytes, and at least 524358 are needed",
    ),
    (
        TINY_FILE,
        84,
        &[0, 0, 0, 0],
        "bad BadOffset 0\nat 84\n",
        "found 0, and 98 to 106 is allowed",
    ),
    (
        TINY_FILE,
        94,
        &[0, 0, 0, 0x6B],
        "bad BadOffset 1\nat 94\n",
        "found 107, and 98 to 106 is allowed",
    ),
    (
        TINY_FILE,
        94,
        &[0xFF, 0xFF, 0xFF, 0xFF],
        "bad BadOffset 1\nat 94\n",
        "found 4294967295, and 98 to 106 is allowed",
    ),
];

#[test]
fn damaged_files_are_told_with_the_place(rt: HostRuntime) -> Result<(), Fail> {
    for (file, at, bytes, lines, allowed) in &DAMAGED {
        let file = changed(rt.alloc(), file, *at, bytes)?;
        check_text(rt.alloc(), &file, Status::Refused, lines)?;
        equal(lines, damaged(rt.alloc(), &file)?.as_str(), *allowed)?;
    }
    check_text(rt.alloc(), b"", Status::Refused, "bad Truncated\nat 0\n")?;
    check_text(rt.alloc(), b"abc", Status::Refused, "bad Truncated\nat 3\n")?;
    let text = damaged(rt.alloc(), b"abc")?;
    equal("abc", text.as_str(), "3 bytes, and at least 78 are needed")
}
