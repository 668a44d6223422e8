//! The commands `import`, `databases` and `export`: images that are just large enough, what is
//! printed of them, and the files that come out of them.

use heap_model::Bytes;
use palm_text::Counted;
use program_io::Status;
use program_io::command_line::Form;
use raw_region::Region;
use std::alloc::Global;
use std::str;
use std::test::Fail;
use store_commands::{Ended, ExportedFile, ImageChoice, cmd_databases, cmd_import, export_files};
use test_support::{
    EMPTY_FILE, EMPTY_WRITTEN, Narrow, ORDER_FILE, ORDER_WRITTEN, RefusesOne, TINY_FILE, WhenFull,
    bytes_of, equal, holds,
};

/// A file of a record, whose database has an AppInfo block of 5 bytes and an empty SortInfo block.
/// The data has 9 bytes.
const BLOCKS_FILE: &str = "2f426c2e 00*28 0000 0000 00*16 00000058 0000005d 44415441 54657374 \
    00000000 00000000 0001 0000005d 00 000001 0000 0102030405 111213141516171819";

/// A file without entries, whose name is `Café` in Windows-1252.
const CAFE_DATABASE: &str =
    "436166e9 00*28 0000 0000 00*24 44415441 54657374 00000000 00000000 0000 0000";

/// How `import` ended, and what its writers hold.
#[derive(Drop)]
struct Told {
    ended: Ended,
    image: Vec<u8>,
    out: Vec<u8>,
}

fn files_of(alloc: Global, listings: &[&str]) -> Result<Vec<Bytes>, Fail> {
    let mut files = Vec::new(alloc);
    for listing in listings {
        files.push(Bytes::of(bytes_of(alloc, listing)?))?;
    }
    Ok(files)
}

fn import_on(alloc: Global, choice: ImageChoice, files: &[Bytes]) -> Told {
    let mut image = Counted::new(Vec::new(alloc));
    let mut out = Counted::new(Vec::new(alloc));
    let ended = cmd_import(&alloc, choice, files, &mut image, &mut out);
    Told {
        ended,
        image: image.into_inner(),
        out: out.into_inner(),
    }
}

const NOTHING_CHOSEN: ImageChoice = ImageChoice {
    size: None,
    slots: None,
};

/// Files, and the size and the slot count of the smallest image for them: 16 bytes and 4 for each
/// slot, rounded up to a multiple of 8; 16 for a directory of one or two databases, and 24 for
/// three or four; and for each chunk 8 bytes and its own, rounded up.
static NEEDS: [(&[&str], u32, u16); 7] = [
    (&[EMPTY_FILE], 128, 2),
    (&[ORDER_FILE], 208, 5),
    (&[TINY_FILE], 192, 4),
    (&[BLOCKS_FILE], 200, 5),
    (&[EMPTY_FILE, TINY_FILE], 288, 5),
    (&[TINY_FILE, ORDER_FILE], 360, 8),
    (&[TINY_FILE, ORDER_FILE, EMPTY_FILE, BLOCKS_FILE], 624, 13),
];

/// Checks that an import is refused as `NotEnoughSpace`, and writes nothing.
fn check_too_small(alloc: Global, choice: ImageChoice, files: &[Bytes]) -> Result<(), Fail> {
    let told = import_on(alloc, choice, files);
    equal("status", told.ended.status, Status::Refused)?;
    equal(
        "reply",
        str::from_utf8(&told.out)?,
        "refused 8 NotEnoughSpace\n",
    )?;
    holds("no image", told.image.is_empty())
}

/// An image of the least size takes the files, and one with 8 bytes or one slot less doesn't.
fn check_needs(alloc: Global, listings: &[&str], size: u32, slots: u16) -> Result<(), Fail> {
    let files = files_of(alloc, listings)?;
    let told = import_on(alloc, NOTHING_CHOSEN, &files);
    equal("status", told.ended.status, Status::Done)?;
    let oks = "ok\n".repeat(alloc, files.len())?;
    let lines = format!(in alloc; "ok {size} {slots}\n{oks}")?;
    equal("lines", str::from_utf8(&told.out)?, lines.as_str())?;
    equal("size", told.image.len(), size as usize)?;
    let smaller = ImageChoice {
        size: Some(size.saturating_sub(8)),
        slots: Some(slots),
    };
    check_too_small(alloc, smaller, &files)?;
    let fewer = ImageChoice {
        size: Some(size),
        slots: Some(slots.saturating_sub(1)),
    };
    check_too_small(alloc, fewer, &files)
}

#[test]
fn images_are_just_large_enough(rt: HostRuntime) -> Result<(), Fail> {
    for (listings, size, slots) in &NEEDS {
        check_needs(rt.alloc(), listings, *size, *slots)?;
    }
    Ok(())
}

/// What is imported, in order, and what is printed of a file that is refused.
static REFUSED: [(&[&str], ImageChoice, usize, &str); 3] = [
    (
        &[EMPTY_FILE, TINY_FILE, EMPTY_FILE],
        NOTHING_CHOSEN,
        2,
        "refused 21 AlreadyExists\n",
    ),
    // a file with a fault comes first
    (
        &[EMPTY_FILE, EMPTY_FILE, "00*77"],
        NOTHING_CHOSEN,
        2,
        "refused 25 BadFile Truncated\n",
    ),
    (
        &[EMPTY_FILE, TINY_FILE],
        ImageChoice {
            size: Some(256),
            slots: Some(9),
        },
        1,
        "refused 8 NotEnoughSpace\n",
    ),
];

#[test]
fn a_refused_file_leaves_no_image(rt: HostRuntime) -> Result<(), Fail> {
    for (listings, choice, index, line) in &REFUSED {
        let told = import_on(rt.alloc(), *choice, &files_of(rt.alloc(), listings)?);
        equal("status", told.ended.status, Status::Refused)?;
        equal("file", told.ended.word, Some(*index))?;
        equal("reply", str::from_utf8(&told.out)?, *line)?;
        holds("no image", told.image.is_empty())?;
    }
    Ok(())
}

/// Sizes and slot counts that no image has.
static NO_IMAGES: [(Option<u32>, Option<u16>, &str); 3] = [
    (Some(130), None, "bad BadSize\n"),
    (Some(128), Some(40), "bad BadSlotCount\n"),
    (None, Some(0), "bad BadSlotCount\n"),
];

#[test]
fn no_image_has_a_wrong_size(rt: HostRuntime) -> Result<(), Fail> {
    let files = files_of(rt.alloc(), &[EMPTY_FILE])?;
    for (size, slots, line) in &NO_IMAGES {
        let choice = ImageChoice {
            size: *size,
            slots: *slots,
        };
        let told = import_on(rt.alloc(), choice, &files);
        equal("status", told.ended.status, Status::BadWords)?;
        equal("line", str::from_utf8(&told.out)?, *line)?;
        holds("no image", told.image.is_empty())?;
    }
    Ok(())
}

/// An image with these files.
pub(crate) fn image_of(alloc: Global, listings: &[&str]) -> Result<Vec<u8>, Fail> {
    let told = import_on(alloc, NOTHING_CHOSEN, &files_of(alloc, listings)?);
    equal("status", told.ended.status, Status::Done)?;
    Ok(told.image)
}

#[test]
fn databases_are_listed(rt: HostRuntime) -> Result<(), Fail> {
    let image = image_of(
        rt.alloc(),
        &[TINY_FILE, ORDER_FILE, CAFE_DATABASE, EMPTY_FILE],
    )?;
    let mut out = Counted::new(Vec::new(rt.alloc()));
    let status = cmd_databases(&rt.alloc(), &image, Form::Text, &mut out);
    equal("status", status, Status::Done)?;
    equal(
        "lines",
        str::from_utf8(&out.into_inner())?,
        "ok 4\n\"Tiny\" resources \"appl\" \"Test\" 0001 2 106\n\
            \"Order\" records \"DATA\" \"Test\" 0000 3 112\n\
            x:436166e9 records \"DATA\" \"Test\" 0000 0 80 \"Café\"\n\
            \"Empty\" records \"DATA\" \"Test\" 0000 0 80\n",
    )
}

/// Whether a file has this name and these bytes.
fn check_file(alloc: Global, file: &ExportedFile, name: &str, listing: &str) -> Result<(), Fail> {
    equal("name", str::from_utf8(file.name.as_slice())?, name)?;
    holds(
        name,
        file.bytes.as_slice() == bytes_of(alloc, listing)?.as_slice(),
    )
}

/// What `export` returns for an image: all files or those that words name, or how it ended.
fn export_of(
    alloc: Global,
    image: &[u8],
    words: &[&str],
) -> Result<Result<Vec<ExportedFile>, Ended>, Fail> {
    let mut names = Vec::new(alloc);
    for word in words {
        names.push(Bytes::of(word.as_bytes().to_vec(alloc)?))?;
    }
    let region = match Region::from_bytes(alloc, image) {
        Ok(region) => region,
        Err(_) => return Err(Fail::new("memory")),
    };
    let mut out = Counted::new(Vec::new(alloc));
    Ok(export_files(&alloc, region, &names, &mut out))
}

/// The files that come out of an image, all of them or those that words name.
fn exported_of(alloc: Global, image: &[u8], words: &[&str]) -> Result<Vec<ExportedFile>, Fail> {
    match export_of(alloc, image, words)? {
        Ok(files) => Ok(files),
        Err(ended) => Err(Fail::new(format_args!("{ended:?}"))),
    }
}

#[test]
fn databases_come_out_as_files(rt: HostRuntime) -> Result<(), Fail> {
    let image = image_of(
        rt.alloc(),
        &[TINY_FILE, ORDER_FILE, BLOCKS_FILE, EMPTY_FILE],
    )?;
    let files = exported_of(rt.alloc(), &image, &[])?;
    equal("count", files.len(), 4)?;
    for (file, (name, listing)) in files.iter().zip([
        ("Tiny.prc", TINY_FILE),
        ("Order.pdb", ORDER_WRITTEN),
        ("%2fBl..pdb", BLOCKS_FILE),
        ("Empty.pdb", EMPTY_WRITTEN),
    ]) {
        check_file(rt.alloc(), file, name, listing)?;
    }
    let files = exported_of(rt.alloc(), &image, &["Empty", "/Bl."])?;
    equal("count", files.len(), 2)?;
    for (file, (name, listing)) in files.iter().zip([
        ("Empty.pdb", EMPTY_WRITTEN),
        ("%2fBl..pdb", BLOCKS_FILE),
    ]) {
        check_file(rt.alloc(), file, name, listing)?;
    }
    Ok(())
}

/// A file without entries, whose name is `Café` in UTF-8.
const CAFE_IN_UTF8: &str =
    "436166c3a9 00*27 0000 0000 00*24 44415441 54657374 00000000 00000000 0000 0000";

#[test]
fn databases_are_named_in_utf_8(rt: HostRuntime) -> Result<(), Fail> {
    let image = image_of(rt.alloc(), &[TINY_FILE, CAFE_DATABASE])?;
    check_name(rt.alloc(), &image, "Café", "Caf%e9.pdb")?;
    for word in ["Caf", "Cafe", "Café ", "CAFÉ"] {
        let missing = Ended {
            status: Status::Refused,
            word: Some(0),
        };
        equal(
            word,
            export_of(rt.alloc(), &image, &[word])?.err(),
            Some(missing),
        )?;
    }
    // the name with these bytes comes first
    let image = image_of(rt.alloc(), &[CAFE_DATABASE, CAFE_IN_UTF8])?;
    check_name(rt.alloc(), &image, "Café", "Caf%c3%a9.pdb")
}

/// Checks that one file comes out under a word, and the name of this file.
fn check_name(alloc: Global, image: &[u8], word: &str, wanted: &str) -> Result<(), Fail> {
    let files = exported_of(alloc, image, &[word])?;
    equal(word, files.len(), 1)?;
    match files.first() {
        Some(file) => equal(word, str::from_utf8(file.name.as_slice())?, wanted),
        None => Err(Fail::new("no file")),
    }
}

/// Checks what `import` wrote of the image and of its lines, if there is room for `image_room` and
/// `room` bytes.
fn check_room(alloc: Global, image_room: usize, room: usize, wanted: Status) -> Result<(), Fail> {
    let files = files_of(alloc, &[TINY_FILE, ORDER_FILE])?;
    let mut image = Counted::new(Narrow::new(alloc, image_room, 100, WhenFull::TakesNothing));
    let mut out = Counted::new(Narrow::new(alloc, room, 4, WhenFull::TakesNothing));
    let ended = cmd_import(&alloc, NOTHING_CHOSEN, &files, &mut image, &mut out);
    let (image, out) = (image.into_inner(), out.into_inner());
    equal("status", ended.status, wanted)?;
    equal("image", image.taken.len(), image_room)?;
    equal(
        "lines",
        out.taken.len(),
        if image_room < 360 { 0 } else { room },
    )
}

#[test]
fn nothing_is_written_after_a_failed_write(rt: HostRuntime) -> Result<(), Fail> {
    for image_room in [0, 1, 359] {
        check_room(rt.alloc(), image_room, 15, Status::WriteFault)?;
    }
    for room in 0..15 {
        check_room(rt.alloc(), 360, room, Status::WriteFault)?;
    }
    check_room(rt.alloc(), 360, 15, Status::Done)
}

/// Whether a command ended as it has to if an allocation was refused, or none was. Returns the
/// first.
fn check_memory(
    memory: &RefusesOne,
    name: &str,
    status: Status,
    is_empty: bool,
) -> Result<bool, Fail> {
    let is_refused = memory.has_refused();
    let wanted = if is_refused {
        Status::NoMemory
    } else {
        Status::Done
    };
    equal(name, status, wanted)?;
    holds(name, is_empty == is_refused)?;
    Ok(is_refused)
}

fn import_refused(alloc: Global, before: u32) -> Result<bool, Fail> {
    let files = files_of(alloc, &[TINY_FILE, ORDER_FILE])?;
    let memory = RefusesOne::behind(alloc, before);
    let mut image = Counted::new(Vec::new(alloc));
    let mut out = Counted::new(Vec::new(alloc));
    let ended = cmd_import(&memory, NOTHING_CHOSEN, &files, &mut image, &mut out);
    let is_empty = image.into_inner().is_empty() && out.into_inner().is_empty();
    check_memory(&memory, "import", ended.status, is_empty)
}

fn databases_refused(alloc: Global, image: &[u8], before: u32) -> Result<bool, Fail> {
    let memory = RefusesOne::behind(alloc, before);
    let mut out = Counted::new(Vec::new(alloc));
    let status = cmd_databases(&memory, image, Form::Text, &mut out);
    check_memory(&memory, "databases", status, out.into_inner().is_empty())
}

fn export_refused(alloc: Global, image: &[u8], before: u32) -> Result<bool, Fail> {
    let memory = RefusesOne::behind(alloc, before);
    let region = match Region::from_bytes(alloc, image) {
        Ok(region) => region,
        Err(_) => return Err(Fail::new("memory")),
    };
    let mut out = Counted::new(Vec::new(alloc));
    match export_files(&memory, region, &[], &mut out) {
        Ok(_) => check_memory(&memory, "export", Status::Done, false),
        Err(ended) => check_memory(&memory, "export", ended.status, out.into_inner().is_empty()),
    }
}

/// More allocations than a command makes.
const ALLOCATIONS_TRIED: u32 = 200;

/// A command that takes memory.
#[derive(Clone, Copy)]
enum Trial {
    Import,
    Databases,
    Export,
}

/// Each allocation of a command fails in turn, until none does.
fn check_growths(alloc: Global, image: &[u8], trial: Trial) -> Result<(), Fail> {
    for before in 0..ALLOCATIONS_TRIED {
        let is_refused = match trial {
            Trial::Import => import_refused(alloc, before)?,
            Trial::Databases => databases_refused(alloc, image, before)?,
            Trial::Export => export_refused(alloc, image, before)?,
        };
        if !is_refused {
            return Ok(());
        }
    }
    Err(Fail::new("more allocations"))
}

#[test]
fn each_growth_may_be_refused(rt: HostRuntime) -> Result<(), Fail> {
    let image = image_of(rt.alloc(), &[TINY_FILE, ORDER_FILE])?;
    for trial in [Trial::Import, Trial::Databases, Trial::Export] {
        check_growths(rt.alloc(), &image, trial)?;
    }
    Ok(())
}
