//! Images that lists of calls start from.

use std::alloc::Global;
use std::test::Fail;
use test_support::changed_words;

/// 1,024 bytes with 17 slots and three databases, as another writer could leave them: slots and
/// chunks in other orders, free neighbours that aren't joined, slack that isn't zero, locked data.
///
/// The numbers of the databases are 36, 24 and 48. The first has an AppInfo block and records of
/// several attributes: with two locks, deleted without data, deleted with data that has 14 locks,
/// busy, secret without a byte; its modification number is the greatest, and the ID that is next to
/// its seed is taken, as is the one after that. The second has a SortInfo block and two resources
/// of one type and ID. The third has the longest name and no entries, and is read-only.
pub const MIXED: &str = "50484931 00000400 0011 0000 00000010 \
    00000128 00000150 000000A0 00000088 000002C0 00000178 00000288 00000160 00000230 \
    000002A8 00000228 000002B0 00000218 00*20 \
    CF000010 55555555 55555555 55555555 80000018 00*20 \
    04000018 2FFFFFCE 66697273 74207265 636F7264 EEEEEEEE \
    06000070 00FFFFC0 61 00*31 0041 0000 00000001 00000001 00000000 00000009 \
    00000000 00000038 6170706C 54657374 00000000 00000000 0002 \
    74535452 03E8 0000003C 74535452 03E8 00000020 777777777777 \
    80000018 00*20 \
    04000018 00FFFF78 00000024 00000018 00000030 99999999 \
    03000010 F3000000 6669786564 000000 \
    04000010 0FFFFF66 696E666F 00000000 \
    04000018 0FFFFF6A 62757379 20626974 20736574 00000000 \
    02000080 00FFFF5A 6162 00*30 0008 0002 00000005 00000006 00000007 FFFFFFFF \
    00000014 00000000 44415441 54657374 ABFFFFFE 00000000 0005 \
    0000001C 43 00000C 00000000 80 000003 00000040 C5 FFFFFF 0000002C 20 000007 \
    00000034 10 000001 0000 \
    80000020 00*28 \
    00000010 EFFFFF18 6172636869766564 \
    00000008 0FFFFF0C \
    02000058 00FFFF04 30313233343536373839303132333435363738393031323334353637383930 00 \
    0002 0000 00*24 44415441 4E6F6E65 00FFFFFF 00000000 0000 0000 \
    00000020 04FFFED4 61206361 6C6C6572 73206368 756E6B2C 20323420 62797465 \
    00000008 0FFFFECA \
    04000010 0FFFFECA 74657874 00000000 \
    04000020 0FFFFEB4 74686520 73616D65 20747970 6520616E 64204944 00000000 \
    80000128 00*292";

/// A blank image.
pub fn blank_image(alloc: Global, size: u32, slots: u16) -> Result<Vec<u8>, Fail> {
    let region = changed_words(alloc, size, slots, &[])?;
    Ok(Vec::from_slice(alloc, region.as_slice())?)
}

/// A blank image with a chain of tables: after the slots the word `next` is 0.
pub fn chained_image(alloc: Global, size: u32, slots: u16) -> Result<Vec<u8>, Fail> {
    let area = (20 + 4 * u32::from(slots)).next_multiple_of(8);
    let Some(room) = size.checked_sub(area) else {
        return Err("no room for the slots")?;
    };
    let mut image = Vec::from_slice(alloc, b"PHI2")?;
    image.extend_from_slice(&size.to_be_bytes())?;
    image.extend_from_slice(&slots.to_be_bytes())?;
    image.resize(area as usize, 0)?;
    image.extend_from_slice(&(0x8000_0000 | room).to_be_bytes())?;
    image.resize(size as usize, 0)?;
    Ok(image)
}
