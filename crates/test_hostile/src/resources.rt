//! The same of an image whose database holds resources.

use crate::bytes::{check_bytes, check_replies};
use std::test::*;

/// 216 bytes with 8 slots, and a database of two resources of 8 bytes, a code and a text.
const PROGRAM_IMAGE: &str = "50484931 000000D8 0008 0000 00000010 \
    00000038 00000048 000000B8 000000C8 00*16 \
    04000010 00FFFFF0 00000014 00*4 06000070 00FFFFEA \
    50 00*31 0001 0000 00*24 6170706C 54657374 00*8 0002 \
    636F6465 0000 00000018 74535452 03E8 0000001C 00*6 \
    00000010 0FFFFFB4 4141414141414141 00000010 0FFFFFAE 4242424242424242 80000008 00*4";

/// Calls on the resources, each with its reply on the image as it is.
static CALLS: [(&str, &str); 27] = [
    ("find p \"P\"", "ok"),
    ("rescount p", "ok 2"),
    ("resinfo p 1 x", "ok \"tSTR\" 1000"),
    ("size x", "ok 8"),
    ("resfind p \"tSTR\" 1000", "ok 1"),
    ("restype p \"code\" 0", "ok 0"),
    ("restype p \"code\" 1", "refused 23 ResourceNotFound"),
    ("resset p 0 \"tSTR\" 1000", "ok"),
    ("resfind p \"tSTR\" 1000", "ok 0"),
    ("restype p \"tSTR\" 1", "ok 1"),
    // all that is free goes to the text, and comes back
    ("resresize p 1 9", "ok"),
    ("freebytes", "ok 0"),
    ("lock x", "ok 1"),
    ("resremove p 1", "refused 3 ChunkLocked"),
    ("unlock x", "ok 0"),
    ("resresize p 1 0", "ok"),
    ("resnew p \"code\" 7 0 y", "ok 2"),
    ("resdetach p 0 3 z", "ok"),
    ("owner z", "ok 3"),
    ("read z 0 2", "ok 4141"),
    ("resattach p \"data\" 1 z", "ok 2"),
    ("resremove p 0", "ok"),
    ("rescount p", "ok 2"),
    ("recinfo p 0", "refused 11 NotRecordDatabase"),
    (
        "dbinfo p",
        "ok \"P\" 0001 0 0 0 0 7 \"appl\" \"Test\" 00000000 2",
    ),
    ("dbdelete p", "ok"),
    ("freebytes", "ok 160"),
];

/// Ranges of bytes, and with how many values of each byte of a range the image is accepted. Every
/// other byte has one.
static VALUES: [(usize, usize, usize); 20] = [
    // 8 slots or 7, where the place of the eighth has the zeros after them
    (9, 10, 2),
    // what is after the number in the directory
    (60, 64, 256),
    // the name, of one character or two
    (72, 73, 255),
    (73, 74, 256),
    // attributes, but the bit of resources
    (104, 105, 256),
    (105, 106, 128),
    // version, dates, modification number; type, creator, seed
    (106, 124, 256),
    (132, 144, 256),
    // of each resource the type and the ID
    (150, 156, 256),
    (160, 166, 256),
    // what is after the last one
    (170, 176, 256),
    // of the chunks with their data the length, the locks and the bytes
    (176, 177, 8),
    (180, 181, 15),
    (184, 192, 256),
    (192, 193, 8),
    // the second chunk goes up to the free one, or has it too
    (195, 196, 2),
    (196, 197, 15),
    (200, 208, 256),
    // of the free chunk all but that it is free, and its size
    (208, 209, 128),
    (212, 216, 256),
];

#[test]
fn calls_on_resources_are_answered_on_the_image_as_it_is(rt: HostRuntime) -> Result<(), Fail> {
    check_replies(rt.alloc(), PROGRAM_IMAGE, &CALLS)
}

#[test]
fn every_byte_of_a_program_has_every_value(rt: HostRuntime) -> Result<(), Fail> {
    check_bytes(rt.alloc(), PROGRAM_IMAGE, &CALLS, &VALUES)
}
