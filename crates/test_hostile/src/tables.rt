//! The same of an image with a chain of tables, whose slots are in use in each of them.

use crate::bytes::{check_bytes, check_replies};
use std::test::*;

/// 216 bytes with four slots, in the order of the chain: 16 of the directory, 52 of an info block,
/// 56 of the database, and 36 of a record's data. The second table is at 48 and the third at 32,
/// before it by its offset.
const TABLES_IMAGE: &str = "50484932 000000D8 0001 0000 00000010 00000048 00000030 \
    00000010 F0000000 00000000 000000C0 04000018 F0000000 00000020 000000D0 00000058 00*4 \
    04000010 00FFFFE8 00000038 00*4 02000068 00FFFFF4 \
    52 00*31 0000 0000 00*16 00000034 00000000 44415441 54657374 00000002 00000000 0002 \
    00000024 00 000001 00000000 80 000002 00*2 \
    00000010 0FFFFFB6 4141414141414141 00000008 0FFFFFB6 80000008 00*4";

/// Calls on what it holds, each with its reply on the image as it is. All slots are in use at
/// first.
static CALLS: [(&str, &str); 31] = [
    ("find d \"R\"", "ok"),
    ("recinfo d 0", "ok 00 1 data"),
    ("recinfo d 1", "ok 80 2 none"),
    // places of tables, words next, the middle of a slot, and a slot
    ("bind t 32", "refused 1 InvalidHandle"),
    ("bind t 48", "refused 1 InvalidHandle"),
    ("bind t 20", "refused 1 InvalidHandle"),
    ("bind t 38", "refused 1 InvalidHandle"),
    ("bind r 36", "ok"),
    ("read r 0 8", "ok 4141414141414141"),
    ("info d app i", "ok"),
    ("size i", "ok 0"),
    ("moreslots", "refused 8 NotEnoughSpace"),
    ("recremove d 1", "ok"),
    ("freebytes", "ok 16"),
    ("recnew d 1 0 n", "refused 8 NotEnoughSpace"),
    ("infotake d app 3 j", "ok"),
    ("freeowner 3", "ok 1"),
    ("recnew d 1 0 n", "ok 1"),
    ("bind m 52", "ok"),
    ("owner m", "ok 15"),
    ("dbdelete d", "ok"),
    ("freebytes", "ok 144"),
    ("moreslots", "ok"),
    ("freebytes", "ok 72"),
    ("new a 0 1", "ok"),
    ("new b 0 1", "ok"),
    ("new c 0 1", "ok"),
    // the first slot of the new table
    ("new e 0 1", "ok"),
    ("freeowner 1", "ok 4"),
    ("compact", "ok"),
    ("freebytes", "ok 72"),
];

/// Ranges of bytes, and with how many values of each byte of a range the image is accepted. Every
/// other byte has one.
static VALUES: [(usize, usize, usize); 22] = [
    // the second table has two slots, or a third with the zeros after them
    (40, 41, 2),
    (60, 64, 256),
    // what is after the number in the directory
    (76, 80, 256),
    // the name, of one character or two
    (88, 89, 255),
    (89, 90, 256),
    // attributes, but the bit of resources
    (120, 121, 256),
    (121, 122, 128),
    // version, dates, modification number; type, creator, seed
    (122, 140, 256),
    (148, 160, 256),
    // of the first record the attributes and the ID, of the second all attributes but that it is
    // deleted
    (170, 173, 256),
    (173, 174, 254),
    (178, 179, 128),
    (179, 181, 256),
    (181, 182, 254),
    // what is after the last one
    (182, 184, 256),
    // of the chunk with the record's data the length, the locks and the bytes
    (184, 185, 8),
    (188, 189, 15),
    (192, 200, 256),
    // the info block goes up to the free chunk, or has it too; its locks
    (203, 204, 2),
    (204, 205, 15),
    // of the free chunk all but that it is free, and its size
    (208, 209, 128),
    (212, 216, 256),
];

#[test]
fn calls_with_tables_are_answered_on_the_image_as_it_is(rt: HostRuntime) -> Result<(), Fail> {
    check_replies(rt.alloc(), TABLES_IMAGE, &CALLS)
}

#[test]
fn every_byte_of_an_image_with_tables_has_every_value(rt: HostRuntime) -> Result<(), Fail> {
    check_bytes(rt.alloc(), TABLES_IMAGE, &CALLS, &VALUES)
}
