//! The size and the slot count of images that files need: the imports are done in such an image,
//! and in a smaller one the last is refused.

use crate::runs::check_lines;
use chunk_format::blank;
use heap_model::Bytes;
use std::alloc::Global;
use std::test::Fail;
use test_support::{EMPTY_FILE, ORDER_FILE, TINY_FILE, bytes_of};

/// A file of a record, whose database has an AppInfo block of 5 bytes and an empty SortInfo block.
/// The data has 9 bytes.
const NEEDS_FILE: &str = "2f426c2e 00*28 0000 0000 00*16 00000058 0000005d 44415441 54657374 \
    00000000 00000000 0001 0000005d 00 000001 0000 0102030405 111213141516171819";

/// Files with the size and the slot count that they need: 16 bytes and 4 for each slot, rounded up
/// to a multiple of 8; 16 for a directory of one or two databases, and 24 for three or four; and
/// for each chunk 8 bytes and its own, rounded up. Then the script lines with their replies: all
/// imports are done, or all but the last.
static NEEDS: [(&[&str], u32, u16, &str, &str); 6] = [
    (
        &[EMPTY_FILE],
        128,
        2,
        "import d 1 = ok",
        "import d 1 = refused 8 NotEnoughSpace",
    ),
    (
        &[ORDER_FILE],
        208,
        5,
        "import d 1 = ok",
        "import d 1 = refused 8 NotEnoughSpace",
    ),
    (
        &[TINY_FILE],
        192,
        4,
        "import d 1 = ok",
        "import d 1 = refused 8 NotEnoughSpace",
    ),
    (
        &[NEEDS_FILE],
        200,
        5,
        "import d 1 = ok",
        "import d 1 = refused 8 NotEnoughSpace",
    ),
    (
        &[TINY_FILE, ORDER_FILE],
        360,
        8,
        "import d 1 = ok
            import e 2 = ok",
        "import d 1 = ok
            import e 2 = refused 8 NotEnoughSpace",
    ),
    (
        &[TINY_FILE, ORDER_FILE, EMPTY_FILE, NEEDS_FILE],
        624,
        13,
        "import d 1 = ok
            import e 2 = ok
            import f 3 = ok
            import g 4 = ok
            freebytes = ok 0",
        "import d 1 = ok
            import e 2 = ok
            import f 3 = ok
            import g 4 = refused 8 NotEnoughSpace",
    ),
];

/// Whether lines on a blank image have these replies.
fn check_on(
    alloc: Global,
    (size, slots): (u32, u16),
    files: &[Bytes],
    lines: &str,
) -> Result<(), Fail> {
    let image = match blank(alloc, size, slots) {
        Ok(image) => image,
        Err(_) => return Err(Fail::new(format_args!("no image of {size}"))),
    };
    check_lines(alloc, image.as_slice(), lines, files, &[])
}

#[test]
fn files_need_so_much_of_a_heap(rt: HostRuntime) -> Result<(), Fail> {
    for (listings, size, slots, done, refused) in &NEEDS {
        let mut files = Vec::new(rt.alloc());
        for listing in *listings {
            files.push(Bytes::of(bytes_of(rt.alloc(), listing)?))?;
        }
        check_on(rt.alloc(), (*size, *slots), &files, done)?;
        check_on(
            rt.alloc(),
            (size.saturating_sub(8), *slots),
            &files,
            refused,
        )?;
        check_on(
            rt.alloc(),
            (*size, slots.saturating_sub(1)),
            &files,
            refused,
        )?;
    }
    Ok(())
}
