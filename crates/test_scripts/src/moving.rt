//! Scripts whose lines move chunks, or may not.

use crate::runs::check_runs;
use std::test::Fail;
use test_support::{THREE_CHUNKS, TWO_CHUNKS};

#[test]
fn lines_print_their_replies(rt: HostRuntime) -> Result<(), Fail> {
    check_runs(rt.alloc(), &RUNS)
}

/// Images, and the lines that are run on them, each with its reply.
static RUNS: [(&str, &str); 6] = [
    // a locked chunk parts two rooms
    (
        THREE_CHUNKS,
        "bind a 16 = ok
        bind b 20 = ok
        bind c 24 = ok
        free a = ok
        free c = ok
        lock b = ok 1
        largest = ok 32
        new d 48 1 = refused 8 NotEnoughSpace
        unlock b = ok 0
        new d 48 1 = ok
        freebytes = ok 8",
    ),
    // a locked chunk grows as far as the free chunk behind it reaches
    (
        TWO_CHUNKS,
        "bind a 16 = ok
        lock a = ok 1
        resize a 57 = refused 3 ChunkLocked
        resize a 56 = ok
        freebytes = ok 0",
    ),
    // a chunk between two free ones grows
    (
        THREE_CHUNKS,
        "bind b 20 = ok
        bind a 16 = ok
        bind c 24 = ok
        free a = ok
        free c = ok
        resize b 56 = ok
        freebytes = ok 32",
    ),
    // the room lies in front of the chunk
    (
        THREE_CHUNKS,
        "bind a 16 = ok
        bind b 20 = ok
        free a = ok
        resize b 57 = refused 8 NotEnoughSpace
        resize b 56 = ok
        freebytes = ok 0",
    ),
    // the room lies behind the chunk's neighbour
    (
        THREE_CHUNKS,
        "bind a 16 = ok
        bind b 20 = ok
        bind c 24 = ok
        free c = ok
        resize a 56 = ok
        size b = ok 24
        freebytes = ok 0",
    ),
    // a byte that went comes back as zero
    (
        THREE_CHUNKS,
        "bind b 20 = ok
        lock b = ok 1
        write b 23 41 = ok
        resize b 23 = ok
        resize b 24 = ok
        read b 23 1 = ok 00",
    ),
];
