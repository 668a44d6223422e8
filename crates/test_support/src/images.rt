//! Heap images and files of databases: listings in hex, and small blank images in which words are
//! changed.
//!
//! One of the listings is the worked image of docs/FORMAT.md.
#![tactic(auto, using(laws_heap::proofs::Lending::all_within))]

ghost use Rattle.std.specs.Prelude.{[], ◌≡◌, IfOk, None};

use chunk_format::blank;
use raw_region::Region;
use std::alloc::Global;
use std::test::Fail;

/// 128 bytes with 4 slots and one free chunk.
pub const BLANK: &str = "50484931 00000080 0004 0000 00000000 00*16 80000060 00*92";

/// The same with one movable chunk of 10 bytes.
pub const ONE_CHUNK: &str =
    "50484931 00000080 0004 0000 00000000 00000028 00*12 06000018 01FFFFF8 00*16 80000048 00*68";

/// The same with three movable chunks of 24 bytes, which leave nothing free.
pub const THREE_CHUNKS: &str =
    "50484931 00000080 0004 0000 00000000 00000028 00000048 00000068 00000000 \
    00000020 01FFFFF8 00*24 00000020 01FFFFEA 00*24 00000020 01FFFFDC 00*24";

/// The same with the chunk in the middle free, and the one after it under the second slot.
pub const TWO_CHUNKS: &str = "50484931 00000080 0004 0000 00000000 00000028 00000068 00*8 \
    00000020 01FFFFF8 00*24 80000020 00*28 00000020 01FFFFDA 00*24";

/// One database with two records: directory, header, records and a free chunk.
pub const ONE_DATABASE: &str =
    "50484931 000000D0 0008 0000 00000010 00000038 00000048 000000B0 000000C0 00*16 \
    04000010 00FFFFF0 00000014 00*4 02000068 00FFFFEA \
    52 00*31 0000 0000 00*24 44415441 54657374 00000002 00000000 0002 \
    00000018 00 000001 0000001C 00 000002 00*2 \
    00000010 0FFFFFB8 4141414141414141 00000010 0FFFFFB2 4242424242424242 80000008 00*4";

/// Two databases with a record each, and 88 free bytes: a third header has room there, and then the
/// directory, which would take 8 bytes more, has none.
pub const TWO_DATABASES: &str =
    "50484931 00000178 0008 0000 00000010 00000038 00000048 000000A8 00000108 00000118 00*12 \
    00000010 00FFFFF0 00000014 00000018 02000060 00FFFFEA \
    41 00*31 0000 0000 00*24 44415441 54657374 00000001 00000000 0001 \
    0000001C 00 000001 00*2 02000060 00FFFFBC \
    42 00*31 0000 0000 00*24 44415441 54657374 00000001 00000000 0001 \
    00000020 00 000001 00*2 \
    00000010 0FFFFF8E 4141414141414141 00000010 0FFFFF88 4242424242424242 80000058 00*84";

/// 1,024 bytes with 16 slots and one free chunk.
pub const WIDE: &str = "50484931 00000400 0010 0000 00000000 00*64 800003B0 00*940";

/// A file of a database without entries.
pub const EMPTY_FILE: &str =
    "456d707479 00*27 0000 0000 00*24 44415441 54657374 00000000 00000000 0000";

/// The same, as it is written: two bytes of filler are after it.
pub const EMPTY_WRITTEN: &str =
    "456d707479 00*27 0000 0000 00*24 44415441 54657374 00000000 00000000 0000 0000";

/// A file of three records, whose blocks stand against the order of the list. Two have the same ID
/// and the first has none; two share an offset, so the first of these is empty; and the last is
/// busy.
pub const ORDER_FILE: &str =
    "4f72646572 00*27 0000 0000 00*24 44415441 54657374 00000000 00000000 0003 \
    0000006c 00 000000 00000068 03 000005 0000006c 20 000005 0000 42424242 43434343";

/// The same, as it is written.
pub const ORDER_WRITTEN: &str =
    "4f72646572 00*27 0000 0000 00*24 44415441 54657374 00000002 00000000 0003 \
    00000068 00 000001 00000068 03 000005 0000006c 00 000002 0000 42424242 43434343";

/// A file of two resources. It is written as it is.
pub const TINY_FILE: &str =
    "54696e79 00*28 0001 0001 00*24 6170706c 54657374 00000000 00000000 0002 \
    74535452 03e8 00000064 74535452 03e9 00000067 0000 486900 596f00";

/// The bytes of a listing: hex between spaces, and `00*n` for n zeros.
pub fn bytes_of(alloc: Global, listing: &str) -> Result<Vec<u8>, Fail> {
    let mut bytes = Vec::new(alloc);
    for part in listing.split_whitespace() {
        match part.split_once("00*") {
            Some((_, count)) => {
                for _ in 0..count.parse::<u16>()? {
                    bytes.push(0)?;
                }
            }
            None => bytes.extend_from_slice(hex::decode(alloc, part)?.as_slice())?,
        }
    }
    Ok(bytes)
}

/// The image of a listing with bytes changed: each change is an offset and the hex that stands
/// there instead, as `27: 00, 172: FF000000`.
pub fn image(alloc: Global, listing: &str, changes: &str) -> Result<Region, Fail>
    ensures whole { IfOk result (λ region. region.lents ≡ []) }
{
    let mut region = Region::from_bytes(alloc, bytes_of(alloc, listing)?.as_slice())?;
    for change in changes.split(", ") {
        if let Some((at, hex)) = change.split_once(": ") {
            let at = at.parse::<u16>()? as usize;
            let bytes = hex::decode(alloc, hex)?;
            if at > region.len() || bytes.len() > region.len() - at {
                return Err("a change beyond the end")?;
            }
            region.write(at, bytes.as_slice());
        }
    }
    Ok(region)
}

/// A blank image in which words are changed: each by its offset.
pub fn changed_words(
    alloc: Global,
    size: u32,
    slots: u16,
    words: &[(usize, u32)],
) -> Result<Region, Fail>
    ensures whole { IfOk result (λ region. region.lents ≡ []) }
{
    let mut region = blank(alloc, size, slots)?;
    for (at, word) in words {
        if *at > region.len() || region.len() - *at < 4 {
            return Err("a word beyond the end")?;
        }
        region.put_u32(*at, *word);
    }
    Ok(region)
}
