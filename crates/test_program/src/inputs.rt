//! The files that each run finds.

use Content::{Listing, Text};
use std::alloc::Global;
use std::test::Fail;
use test_support::{BLANK, EMPTY_WRITTEN, ONE_DATABASE, ORDER_FILE, TINY_FILE, WIDE, image};

/// What a file holds.
pub(crate) enum Content {
    /// The bytes of a listing, some of them changed.
    Listing(&'static str, &'static str),
    Text(&'static str),
}

impl Content {
    pub(crate) fn bytes(&self, alloc: Global) -> Result<Vec<u8>, Fail> {
        match self {
            Content::Listing(listing, changes) => {
                let region = image(alloc, listing, changes)?;
                Ok(Vec::from_slice(alloc, region.slice(0, region.len()))?)
            }
            Content::Text(text) => Ok(Vec::from_slice(alloc, text.as_bytes())?),
        }
    }
}

/// 512 bytes with 12 slots and one free chunk.
const ROOM: &str = "50484931 00000200 000C 0000 00000000 00*48 800001C0 00*444";

/// The files, each behind its name.
pub(crate) static INPUTS: [(&str, Content); 36] = [
    ("blank.img", Listing(BLANK, "")),
    ("room.img", Listing(ROOM, "")),
    ("records.img", Listing(ONE_DATABASE, "")),
    // the free chunk reaches beyond the end
    ("long.img", Listing(BLANK, "32: 80000068")),
    // the second record has the ID of the first
    ("twins.img", Listing(ONE_DATABASE, "165: 01")),
    // the first record has the data of the second
    ("shared.img", Listing(ONE_DATABASE, "150: 0000001C")),
    // an image that is read as a database without entries
    ("wide.img", Listing(WIDE, "")),
    ("order.pdb", Listing(ORDER_FILE, "")),
    ("tiny.prc", Listing(TINY_FILE, "")),
    // the data of the second record begins before the entries end
    ("damaged.pdb", Listing(ORDER_FILE, "86: 00000065")),
    // the header has five entries, and there are three
    ("cut.pdb", Listing(ORDER_FILE, "76: 0005")),
    // no name, a further list, info blocks within the entries and beyond the end
    (
        "faults.pdb",
        Listing(ORDER_FILE, "0: 00, 52: 0000000C00000071, 72: 00000001"),
    ),
    // the first record is deleted, and has no data
    ("deleted.pdb", Listing(ORDER_FILE, "78: 0000000080")),
    // names with a byte outside ASCII
    ("cafe.pdb", Listing(EMPTY_WRITTEN, "0: 436166E900")),
    ("cafe.img", Listing(ONE_DATABASE, "72: 436166E9")),
    // a path that JSON escapes in part
    ("Caf\u{e9}\\\".pdb", Listing(EMPTY_WRITTEN, "")),
    (
        "files.txt",
        Text("import d 2\nimport e 1\nexport d\nexport e\nexport e\ndbcount\n"),
    ),
    ("calls.txt", Text("freebytes\n")),
    (
        "missing.txt",
        Text("# without a FILE\nimport d 2\nfreebytes\n"),
    ),
    // the place of a file that a run to left.img would export
    ("left.img.1", Text("from an earlier run")),
    // a database of two records, one of them deleted, and an AppInfo block
    (
        "parts/database",
        Text(
            "# from a list\nname \"Parts\"\nattributes 0008\nversion 1\ncreated 1\nmodified 2\n\
            backup 3\nnumber 4\ntype \"DATA\"\ncreator \"test\"\nseed 5\napp info\nsort none\n\
            record 40 0 a.txt\nrecord 80 7 none\n",
        ),
    ),
    ("parts/info", Text("app info")),
    ("parts/a.txt", Text("data of a record")),
    // an exact folder, one that names a block twice, and one with an empty block before another
    (
        "exact/database",
        Text(
            "exact\nnamefield 004100000000000000000000000000000000000000000000000000\n\
            filler gap\norder 1\norder app\norder 0\nname \"Exact\"\nattributes 0008\n\
            version 1\ncreated 1\nmodified 2\nbackup 3\nnumber 4\ntype \"DATA\"\n\
            creator \"test\"\nseed 00000005\napp info\nsort none\nrecord 60 0 a\nrecord 20 0 b\n",
        ),
    ),
    ("exact/gap", Text("odd")),
    ("exact/info", Text("app info")),
    ("exact/a", Text("first")),
    ("exact/b", Text("second")),
    (
        "twice/database",
        Text(
            "exact\nnamefield 004100000000000000000000000000000000000000000000000000\n\
            filler gap\norder 1\norder 1\norder 0\nname \"Exact\"\nattributes 0008\nversion 1\n\
            created 1\nmodified 2\nbackup 3\nnumber 4\ntype \"DATA\"\ncreator \"test\"\n\
            seed 00000005\napp info\nsort none\nrecord 60 0 a\nrecord 20 0 b\n",
        ),
    ),
    (
        "hollow/database",
        Text(
            "exact\nfiller none\norder 1\norder 0\nname \"Exact\"\nattributes 0008\nversion 1\n\
            created 1\nmodified 2\nbackup 3\nnumber 4\ntype \"DATA\"\ncreator \"test\"\n\
            seed 00000005\napp none\nsort none\nrecord 60 0 a\nrecord 20 0 b\n",
        ),
    ),
    ("hollow/a", Text("first")),
    ("hollow/b", Text("")),
    // a part that would be outside the folder
    (
        "climbs/database",
        Text(
            "name \"Climbs\"\nattributes 0\nversion 0\ncreated 0\nmodified 0\nbackup 0\nnumber 0\n\
            type \"DATA\"\ncreator \"test\"\nseed 0\napp none\nsort ../order.pdb\n",
        ),
    ),
    // a part that is a folder
    (
        "nested/database",
        Text(
            "name \"Nested\"\nattributes 1\nversion 0\ncreated 0\nmodified 0\nbackup 0\nnumber 0\n\
            type \"DATA\"\ncreator \"test\"\nseed 0\napp none\nsort none\nresource \"tSTR\" 1 data\n",
        ),
    ),
    // a file with the name that the database of records.img gets
    ("files/R.pdb", Text("here already")),
    ("faulty.txt", Text("dbcount\nfrob\n")),
];

/// The folders that each run finds. The first is in the place of the second file that a script
/// exports, and the last in the place of a part.
pub(crate) static FOLDERS: [&str; 9] = [
    "full.img.2",
    "parts",
    "exact",
    "twice",
    "hollow",
    "climbs",
    "nested",
    "files",
    "nested/data",
];
