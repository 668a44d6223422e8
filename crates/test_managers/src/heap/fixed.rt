//! Fixed chunks that are named again and again on one heap, which remembers their names.

use crate::heap::by_hand::{Example, check_all};
use crate::heap::images::{FIVE, SPACIOUS};
use std::test::*;
use test_support::BLANK;

/// The names are 512 bytes apart, so that each takes the other's place among those that are
/// remembered.
const TURNS: &str = "ptr_new 8 1 = named 40
    ptr_new 488 1 = named 56
    ptr_new 8 1 = named 552
    write 40 0: 41 = done
    write 552 0: 42 = done
    read 40 0 1 = x41
    read 552 0 1 = x42
    write 40 0: 43 = done
    free 552 = done
    read 40 0 1 = x43
    size 552 = refused InvalidHandle
    write 552 0: 44 = refused InvalidHandle
    recover 552 = refused InvalidHandle
    recover 40 = named 40
    recover 56 = named 56";

/// A movable chunk stands where the fixed one was that was freed.
const FORGOTTEN: &str = "ptr_new 88 1 = named 40
    write 40 0: 4142 = done
    lock 40 = refused ChunkFixed
    free 40 = done
    handle_new 88 1 = named 16
    lock 16 = at 40 locks 1
    read 40 0 2 = refused InvalidHandle
    write 40 0: 43 = refused InvalidHandle
    recover 40 = named 16
    free 40 = refused InvalidHandle";

const OWNER_FORGOTTEN: &str = "ptr_new 8 1 = named 40
    ptr_new 8 2 = named 56
    write 40 0: 41 = done
    write 56 0: 42 = done
    free_by_owner 1 = 1
    write 40 0: 43 = refused InvalidHandle
    read 56 0 1 = x42
    ptr_new 8 3 = named 40
    owner 40 = 3";

/// A fixed chunk of an image that is adopted: another owner and other chunks that move leave it
/// known.
const FOUND: &str = "write 72 0: 4142 = done
    set_owner 72 5 = done
    owner 72 = 5
    compact = 0
    read 72 0 2 = x4142
    free_by_owner 5 = 1
    read 72 0 2 = refused InvalidHandle";

static EXAMPLES: [Example; 4] = [
    ("names take turns", SPACIOUS, TURNS),
    ("a freed chunk is forgotten", BLANK, FORGOTTEN),
    ("chunks of an owner are forgotten", BLANK, OWNER_FORGOTTEN),
    ("a chunk that was found stays known", FIVE, FOUND),
];

#[test]
fn fixed_chunks_are_named(rt: HostRuntime) -> Result<(), Fail> {
    check_all(&rt, &EXAMPLES, false)
}
