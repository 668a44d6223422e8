//! Files that look like PDB or PRC files, like heap images, or like what a transfer makes of them.

use hints::{looks_like_database, looks_like_image, looks_like_mac, looks_like_page};
use std::alloc::Global;
use std::test::*;
use test_support::{BLANK, EMPTY_FILE, ONE_DATABASE, ORDER_FILE, TINY_FILE, bytes_of, holds};

/// A file whose name begins with the magic of an image.
const MAGIC_FILE: &str = "50484931 00*56 44415441 54657374 00*12";

fn check(alloc: Global, listing: &str, at: usize, byte: u8, wanted: bool) -> Result<(), Fail> {
    let mut file = bytes_of(alloc, listing)?;
    if at < file.len() {
        file[at] = byte;
    }
    let looks = looks_like_database(&file);
    holds(format_args!("{listing} {at} {byte}"), looks == wanted)
}

/// A file with an empty name.
const NAMELESS_FILE: &str = "00*60 44415441 54657374 00*12";

/// A file with a type and a creator that can't be printed.
const UNPRINTABLE_FILE: &str = "41 00*59 E4 00*7 01 00*11";

/// A file whose name begins with the magic of an image, and goes on.
const LONG_MAGIC_FILE: &str = "5048493141 00*55 44415441 54657374 00*12";

/// A file with neither a type nor a creator, as an archive begins.
const KINDLESS_FILE: &str = "41 00*79";

/// Files, where one byte is another, and whether they look like PDB or PRC files: whole ones, two
/// with a wrong offset or number of entries, one that goes on elsewhere, one without a name, one
/// with a type that can't be printed, images, and files that begin with the magic. Then files that
/// lack two of the parts of a header.
static FILES: [(&str, usize, u8, bool); 25] = [
    (EMPTY_FILE, 40, 1, true),
    (ORDER_FILE, 40, 1, true),
    (TINY_FILE, 40, 1, true),
    (ORDER_FILE, 86, 0xFF, true),
    (ORDER_FILE, 76, 0xFF, true),
    (ORDER_FILE, 75, 1, true),
    (ORDER_FILE, 0, 0, true),
    (ORDER_FILE, 60, 0x1F, true),
    (ORDER_FILE, 67, 0x80, true),
    (NAMELESS_FILE, 75, 1, true),
    (NAMELESS_FILE, 60, 0, true),
    (UNPRINTABLE_FILE, 40, 0, true),
    (UNPRINTABLE_FILE, 60, 0, false),
    (BLANK, 0, 0x51, false),
    (ONE_DATABASE, 0, 0x51, false),
    (MAGIC_FILE, 3, 0x31, true),
    (MAGIC_FILE, 3, 0x32, true),
    (LONG_MAGIC_FILE, 3, 0x31, true),
    (LONG_MAGIC_FILE, 4, 0, true),
    (MAGIC_FILE, 5, 1, false),
    (UNPRINTABLE_FILE, 72, 1, false),
    (UNPRINTABLE_FILE, 31, 0x41, false),
    (UNPRINTABLE_FILE, 30, 0x1F, false),
    (KINDLESS_FILE, 68, 1, false),
    (KINDLESS_FILE, 67, 1, true),
];

#[test]
fn databases_are_told_from_others(rt: HostRuntime) -> Result<(), Fail> {
    for (listing, at, byte, wanted) in &FILES {
        check(rt.alloc(), listing, *at, *byte, *wanted)?;
    }
    holds("no bytes", !looks_like_database(b""))
}

/// Files, where one byte is another, and whether they look like heap images: images of each
/// profile, one whose size is too great by a byte, databases, and one that is named PHI1.
static IMAGES: [(&str, usize, u8, bool); 8] = [
    (BLANK, 3, 0x31, true),
    (BLANK, 3, 0x32, true),
    (ONE_DATABASE, 3, 0x31, true),
    (BLANK, 3, 0x33, false),
    (BLANK, 4, 1, false),
    (BLANK, 7, 0, false),
    (ORDER_FILE, 3, 0x31, false),
    (MAGIC_FILE, 3, 0x31, false),
];

fn check_image(
    alloc: Global,
    listing: &str,
    at: usize,
    byte: u8,
    wanted: bool,
) -> Result<(), Fail> {
    let mut file = bytes_of(alloc, listing)?;
    if at < file.len() {
        file[at] = byte;
    }
    let looks = looks_like_image(&file);
    holds(format_args!("{listing} {at} {byte}"), looks == wanted)
}

#[test]
fn images_are_told_from_others(rt: HostRuntime) -> Result<(), Fail> {
    for (listing, at, byte, wanted) in &IMAGES {
        check_image(rt.alloc(), listing, *at, *byte, *wanted)?;
    }
    holds(
        "15 bytes",
        !looks_like_image(b"PHI1\0\0\0\x80\0\x04\0\0\0\0\0"),
    )
}

/// The first bytes of files, and whether they look like pages of the web.
static PAGES: [(&[u8], bool); 8] = [
    (b"<!DOCTYPE html>", true),
    (b"<!doctype", true),
    (b"<html", true),
    (b"<HTML>\n", true),
    (b"<htm", false),
    (b"<!DOCTYP", false),
    (b"html", false),
    (b"", false),
];

#[test]
fn pages_are_told_from_others(_rt: HostRuntime) -> Result<(), Fail> {
    for (file, wanted) in &PAGES {
        holds(file.len(), looks_like_page(file) == *wanted)?;
    }
    Ok(())
}

/// A database with a header of MacBinary: the name `B.pdb`.
const MAC_FILE: &str = "00 05 422E706462 00*121 42 00*59 44415441 54657374 00*12";

/// Where one byte of that file is another, and whether it still looks like such a file.
static MAC_FILES: [(usize, u8, bool); 9] = [
    (2, 0x41, true),
    (0, 1, false),
    (1, 0, false),
    (1, 1, true),
    (1, 63, true),
    (1, 64, false),
    (74, 1, false),
    (82, 1, false),
    (128, 0x1F, true),
];

fn check_mac(alloc: Global, (at, byte, wanted): (usize, u8, bool)) -> Result<(), Fail> {
    let mut file = bytes_of(alloc, MAC_FILE)?;
    if at < file.len() {
        file[at] = byte;
    }
    let looks = looks_like_mac(&file);
    holds(format_args!("{at} {byte}"), looks == wanted)
}

#[test]
fn mac_files_are_told_from_others(rt: HostRuntime) -> Result<(), Fail> {
    for row in &MAC_FILES {
        check_mac(rt.alloc(), *row)?;
    }
    let file = bytes_of(rt.alloc(), MAC_FILE)?;
    let (header, _) = file.split_at(file.len().min(127));
    holds("127 bytes", !looks_like_mac(header))?;
    let (_, database) = file.split_at(file.len().min(128));
    holds("its database", !looks_like_mac(database))
}
