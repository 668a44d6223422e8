//! Files that look like PDB or PRC files, like heap images, or like what a transfer makes of them.

ghost use Rattle.std.specs.Prelude.{◌≡◌, ◌≤◌, length, take};
ghost use Rattle.std.specs.Str.{bytes_eq};
ghost use Rattle.std.specs.List.{list_all};
ghost use Rattle.hints.specs.Lookalikes as words;

use palm_text::are_printable;

/// The size of a database file's header. By these bytes a file looks like a database file.
pub const DATABASE_HEADER_SIZE: usize = 78;

/// The size of the field of its name, which comes first.
const NAME_SIZE: usize = 32;

// The offsets of its fields (File Format Specification).
const TYPE_AT: usize = 60;

const SEED_AT: usize = 68;

const NEXT_LIST_AT: usize = 72;

const ENTRY_COUNT_AT: usize = 76;

// What heap images begin with, of one table and of a chain of tables.
const MAGIC: [u8; 4] = *b"PHI1";

const CHAINED_MAGIC: [u8; 4] = *b"PHI2";

/// The size of an image's header. By these bytes a file looks like an image.
pub const IMAGE_HEADER_SIZE: usize = 16;

/// The offset of the size of an image.
const IMAGE_SIZE_AT: usize = 4;

const IMAGE_SLOT_COUNT_AT: usize = 8;

/// The field of the next list of a file that has one list. An image has another size.
const ZERO: [u8; 4] = [0; 4];

/// The fields of type and creator of a file that has neither.
const NO_KINDS: [u8; 8] = [0; 8];

/// Returns whether a file looks like a PDB or PRC file. Two of these hold of its header: it has a
/// name, a type and a creator that can be printed, one list of entries. The entries aren't checked.
/// A file that looks like a heap image doesn't look like one.
pub fn looks_like_database(file: &[u8]) -> bool
    ensures { result ≡ words.looks_like_database file.now }
{
    file.len() >= DATABASE_HEADER_SIZE && !looks_like_image(file) && has_header(file)
}

/// Returns whether two parts of a header are those of a PDB or PRC file.
fn has_header(file: &[u8]) -> bool
    requires { DATABASE_HEADER_SIZE ≤ length file.now }
    ensures { result ≡ words.has_header file.now }
{
    let is_one_list = file[NEXT_LIST_AT..ENTRY_COUNT_AT] == ZERO[..];
    if are_printable(&file[TYPE_AT..SEED_AT]) {
        is_one_list || has_name_field(file)
    } else {
        is_one_list && has_name_field(file) && file[TYPE_AT..SEED_AT] != NO_KINDS[..]
    }
}

/// Returns whether a header has a name, which may be empty: the last byte of its field is zero, and
/// the others are no control characters below space, but zero.
fn has_name_field(file: &[u8]) -> bool
    requires { NAME_SIZE ≤ length file.now }
    ensures { result ≡ words.has_name_field file.now }
{
    file[NAME_SIZE - 1] == 0 && are_in_name(&file[..NAME_SIZE])
}

/// Returns whether the field of a name may have all of these bytes.
fn are_in_name(bytes: &[u8]) -> bool
    ensures { result ≡ list_all words.is_in_name bytes.now }
{
    for byte in bytes {
        if *byte != 0 && *byte < b' ' {
            return false;
        }
    }
    true
}

/// Returns whether a file looks like a heap image: it begins as one does, with a size below 2^24
/// that isn't 0. A database file with the name PHI1 has zeros there.
pub fn looks_like_image(file: &[u8]) -> bool
    ensures { result ≡ words.looks_like_image file.now }
{
    file.len() >= IMAGE_HEADER_SIZE
        && begins_as_image(file)
        && file[IMAGE_SIZE_AT] == 0
        && file[IMAGE_SIZE_AT..IMAGE_SLOT_COUNT_AT] != ZERO[..]
}

/// Returns whether a file begins as a heap image does.
fn begins_as_image(file: &[u8]) -> bool
    requires { 4 ≤ length file.now }
    ensures { result ≡ words.begins_as_image file.now }
{
    file[..4] == MAGIC[..] || file[..4] == CHAINED_MAGIC[..]
}

/// Returns whether a file begins with a word.
fn begins_with(file: &[u8], word: &[u8]) -> bool
    ensures { result ≡ bytes_eq (take (length word.now) file.now) word.now }
{
    file.len() >= word.len() && &file[..word.len()] == word
}

/// Returns whether a file looks like a page of the web. A server sends one in place of a file that
/// it doesn't have.
pub fn looks_like_page(file: &[u8]) -> bool
    ensures { result ≡ words.looks_like_page file.now }
{
    begins_with(file, b"<html")
        || begins_with(file, b"<HTML")
        || begins_with(file, b"<!doctype")
        || begins_with(file, b"<!DOCTYPE")
}

/// The number of bytes that MacBinary puts before a file.
pub const MAC_HEADER_SIZE: usize = 128;

/// The greatest length of the name in a header of MacBinary.
const MOST_MAC_NAME: u8 = 63;

/// Returns whether a file is a PDB or PRC file with a header of MacBinary before it.
pub fn looks_like_mac(file: &[u8]) -> bool
    ensures { result ≡ words.looks_like_mac file.now }
{
    file.len() >= MAC_HEADER_SIZE
        && file[0] == 0
        && file[1] >= 1
        && file[1] <= MOST_MAC_NAME
        && file[74] == 0
        && file[82] == 0
        && looks_like_database(&file[MAC_HEADER_SIZE..])
}
