//! The text of pieces, and writers that take few bytes at a time, or fail.

use palm_text::{Counted, Piece, put_pieces};
use std::alloc::Global;
use std::io::ErrorKind;
use std::test::Fail;
use test_support::{Narrow, WhenFull, holds};

/// 33 bytes, which is a turn of hex and one byte more.
const BYTES: [u8; 33] = [
    0, 1, 9, 10, 15, 16, 31, 32, 127, 128, 144, 159, 160, 171, 205, 239, 240, 254, 255, 0, 0, 0, 0,
    0, 0, 0, 0, 0, 0, 0, 0, 0, 90,
];

/// Every kind of piece, and the text of them.
static PIECES: [Piece<'static>; 18] = [
    Piece::Text(b"ok "),
    Piece::Number(0),
    Piece::Text(b" "),
    Piece::Number(4_294_967_295),
    Piece::Hex(b""),
    Piece::Hex(&BYTES),
    Piece::Spelled(b" a~"),
    Piece::Spelled(b""),
    Piece::Spelled(b"a\"b"),
    Piece::Spelled(b"a\x7f"),
    Piece::Spelled(b"\x1fa"),
    Piece::FourBytes(0x4441_5441),
    Piece::FourBytes(0x22),
    Piece::Hex8(0xa),
    Piece::Hex8(0xfe),
    Piece::Hex16(0xa),
    Piece::Hex32(0xbeef),
    Piece::Text(b"\n"),
];

const TEXT_IN_PIECES: &str =
    "ok 0 42949672950001090a0f101f207f80909fa0abcdeff0feff000000000000000000000000005a\
    \" a~\"\"\"x:612262x:617fx:1f61\"DATA\"x:000000220afe000a0000beef\n";

/// What `put_pieces` answers, and what its writer came to.
fn put_to(alloc: Global, room: usize, step: usize, way: WhenFull) -> (bool, Narrow) {
    let mut out = Counted::new(Narrow::new(alloc, room, step, way));
    let is_put = put_pieces(&mut out, &PIECES).is_ok();
    (is_put, out.into_inner())
}

/// Checks that pieces are written one after another, `step` bytes at a time.
fn check_put(alloc: Global, step: usize) -> Result<(), Fail> {
    let (is_put, out) = put_to(alloc, 1000, step, WhenFull::TakesNothing);
    let is_text = out.taken.as_slice() == TEXT_IN_PIECES.as_bytes();
    holds(
        format_args!("{step} bytes at a time"),
        is_put && out.refused == 0 && is_text,
    )
}

#[test]
fn pieces_are_written_one_behind_another(rt: HostRuntime) -> Result<(), Fail> {
    for step in &[1, 2, 7, 1000] {
        check_put(rt.alloc(), *step)?;
    }
    Ok(())
}

/// Checks that `put_pieces` fails if there is room for `room` bytes, and writes those.
fn check_cut(alloc: Global, room: usize, way: WhenFull) -> Result<(), Fail> {
    let (is_put, out) = put_to(alloc, room, 5, way);
    let is_front = TEXT_IN_PIECES.as_bytes().starts_with(&out.taken);
    holds(
        format_args!("room for {room}"),
        !is_put && out.is_cut_at(room) && is_front,
    )
}

#[test]
fn nothing_follows_a_write_that_fails(rt: HostRuntime) -> Result<(), Fail> {
    for room in 0..TEXT_IN_PIECES.len() {
        check_cut(rt.alloc(), room, WhenFull::TakesNothing)?;
        check_cut(rt.alloc(), room, WhenFull::Fails(ErrorKind::Interrupted))?;
    }
    Ok(())
}
