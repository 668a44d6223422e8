//! Images that tests start from, as listings in hex.

/// 128 bytes with one slot and one free chunk.
pub(crate) const ONE_SLOT: &str = "50484931 00000080 0001 0000 00*12 80000068 00*100";

/// The same with a chain of tables, which has the first table alone.
pub(crate) const CHAINED: &str = "50484932 00000080 0001 0000 00*12 80000068 00*100";

/// 256 bytes with 8 slots and one free chunk.
pub(crate) const EIGHT_SLOTS: &str = "50484931 00000100 0008 0000 00*36 800000D0 00*204";

/// 336 bytes with 16 slots and one free chunk of 256 bytes.
pub(crate) const SIXTEEN_SLOTS: &str = "50484931 00000150 0010 0000 00*68 80000100 00*252";

/// 2,048 bytes with 4 slots and one free chunk.
pub(crate) const SPACIOUS: &str = "50484931 00000800 0004 0000 00*20 800007E0 00*2012";

/// A free chunk of 8 bytes, and a movable one of the bytes 0 to 79 up to the end, under the slot at
/// 16.
pub(crate) const OVERLAPPING: &str =
    "50484931 00000080 0004 0000 00000000 00000030 00*12 80000008 00*4 00000058 01FFFFF4 \
    00010203 04050607 08090A0B 0C0D0E0F 10111213 14151617 18191A1B 1C1D1E1F 20212223 24252627 \
    28292A2B 2C2D2E2F 30313233 34353637 38393A3B 3C3D3E3F 40414243 44454647 48494A4B 4C4D4E4F";

/// Five chunks, one after another: one of a database's under the slot at 16, one with two locks
/// under the slot at 20, a fixed one at 72, the directory under the slot at 24, and 32 free bytes.
pub(crate) const FIVE: &str =
    "50484931 00000080 0004 0000 00000018 00000028 00000038 00000058 00000000 \
    00000010 0FFFFFF8 00*8 00000010 23FFFFF2 00*8 00000010 F3000000 00*8 \
    00000010 00FFFFE4 00000018 00*4 80000020 00*28";

/// 1,024 bytes with 12 slots: from 64 on a chunk of a database's with slack, a free one, a fixed
/// one with slack, the directory, one with 14 locks, and the rest free.
pub(crate) const LARGE: &str =
    "50484931 00000400 000C 0000 00000018 00000048 00000000 00000090 00*28 000000A8 00*4 \
    03000018 0FFFFFE8 00*16 80000010 00*12 07000020 FE000000 00*24 00000018 00FFFFC8 00*16 \
    00000010 E1FFFFCC 00*8 80000350 00*844";

/// 256 bytes with 5 slots and a padding, as another writer could leave them: free neighbours that
/// aren't joined, bits and bytes in free chunks that mean nothing, slack that isn't zero, slots in
/// another order than their chunks. From 40 on: two free chunks, a locked one of a database's, a
/// header of the manager's, a free one, the directory, one of no bytes, and the rest free.
pub(crate) const ODD_IMAGE: &str =
    "50484931 00000100 0005 0000 00000020 000000B0 00000000 00000070 00000058 00000098 00*4 \
    FF000010 12345678 00*4 00000010 F1000018 F5000000 00000010 01FFFFD8 00*8 \
    05000018 3FFFFFE6 414243FF FFFFFFFF 00*8 02000018 00FFFFD8 00*4 55555555 00*8 80000010 00*12 \
    04000018 00FFFFC8 00000018 00*12 00000008 02FFFFB4 A0000050 FFFFFFFF 00*72";
