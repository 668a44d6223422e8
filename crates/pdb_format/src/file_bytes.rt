//! The bytes of a file, of which not all need be in memory.

ghost use Rattle.std.specs.Prelude.{◌≡◌, ◌<◌, ◌≤◌, ◌^◌, ◌⊎◌, ◌++◌, ℕ, List, [], length, take, drop};
ghost use Rattle.heap_model.specs.Bytes.{AreBytes};
ghost use Rattle.heap_model.specs.DatabaseFields.{header_size};
ghost use Rattle.pdb_format.specs.FileStarts.{IsFileStart, app_start, most_app, most_start};

use crate::unread::{Unread, name_unread};
use db_format::app_info;
use std::marker::Model;

/// The most bytes that a header, its entries and the two bytes after them have.
pub const MOST_START: usize = 655_430;

/// The most bytes of AppInfo that a listing looks at.
pub const MOST_APP: usize = 276;

/// The bytes of a file: all of them, or what a listing looks at.
pub trait FileBytes: Drop {
    /// The bytes of the whole file.
    ghost bytes: { Self → List ℕ };

    /// Returns the size of the file in bytes.
    fn size(&self) -> usize
        ensures is { result ≡ length (bytes self.now) }
        ensures short { result < 2 ^ 63 };

    /// Returns the first bytes of the file: all of them, or at least the header, the entries and two
    /// bytes after these.
    fn start(&self) -> &[u8]
        ensures { IsFileStart (bytes self.now) result.now };

    /// Returns the first bytes of AppInfo, at most `MOST_APP`.
    fn app(&self) -> &[u8]
        requires { header_size ≤ length (bytes self.now) }
        ensures { result.now ≡ app_start (bytes self.now) };
}

impl FileBytes for &[u8] {
    ghost bytes = { λ all. all.now };

    fn size(&self) -> usize {
        self.len()
    }

    fn start(&self) -> &[u8] {
        let all = *self;
        know_numbers(all);
        all
    }

    fn app(&self) -> &[u8] {
        let all = *self;
        app_of(all)
    }
}

impl<B: FileBytes> FileBytes for &B {
    ghost bytes = { λ file. B.bytes file.now };

    fn size(&self) -> usize {
        (*self).size()
    }

    fn start(&self) -> &[u8] {
        (*self).start()
    }

    fn app(&self) -> &[u8] {
        (*self).app()
    }
}

/// The first bytes of a file, its size, and the first bytes of its AppInfo block. Contracts see the
/// whole file.
#[derive(Drop)]
pub struct FileStart<'a> {
    size: usize,
    start: &'a [u8],
    app: &'a [u8],
    rest: Unread,
}

impl<'a> Model for FileStart<'a> {
    ghost use Rattle.std.specs.Prelude.{◌≡◌, ◌<◌, ◌≤◌, ◌^◌, ◌⊎◌, ◌++◌, ℕ, List, [], length};
    ghost use Rattle.heap_model.specs.Bytes.{AreBytes};
    ghost use Rattle.heap_model.specs.DatabaseFields.{header_size};
    ghost use Rattle.pdb_format.specs.FileStarts.{most_start, app_start};

    ghost Value = { List ℕ };

    ghost view = { λ file. file.start.now ++ file.rest.bytes };

    ghost invariant = { λ file. (file.size ≡ length (file.start.now ++ file.rest.bytes))
        × (file.size < 2 ^ 63)
        × ((file.rest.bytes ≡ []) ⊎ (most_start ≤ length file.start.now))
        × (header_size ≤ file.size → file.app.now ≡ app_start (file.start.now ++ file.rest.bytes))
        × AreBytes (file.start.now ++ file.rest.bytes) };
}

impl<'a> FileStart<'a> {
    /// Returns a file of this size that begins with these bytes, with the first bytes of its AppInfo.
    /// The caller knows the other bytes from its contracts alone.
    pub fn of(start: &'a [u8], app: &'a [u8], size: usize) -> FileStart<'a>
        ghost rest: { List ℕ }
        requires size { size ≡ length (start.now ++ rest) }
        requires short { size < 2 ^ 63 }
        requires long { (rest ≡ []) ⊎ (most_start ≤ length start.now) }
        requires app { header_size ≤ size → app.now ≡ app_start (start.now ++ rest) }
        requires numbers { AreBytes (start.now ++ rest) }
        ensures { result ≡ start.now ++ rest }
    {
        let rest = name_unread();
        FileStart {
            size,
            start,
            app,
            rest,
        }
    }
}

impl FileBytes for FileStart<'_> {
    ghost bytes = { λ file. file };

    fn size(&self) -> usize {
        self.size
    }

    fn start(&self) -> &[u8] {
        self.start
    }

    fn app(&self) -> &[u8] {
        self.app
    }
}

/// Proves that the numbers in a slice are bytes.
fn know_numbers(bytes: &[u8])
    ensures { AreBytes bytes.now }
{
    let _bytes = bytes;
}

/// Returns the first bytes of the AppInfo of a file, at most `MOST_APP`.
pub fn app_of(all: &[u8]) -> &[u8]
    requires { header_size ≤ length all.now }
    ensures { result.now ≡ app_start all.now }
{
    part_of(all, app_info(all) as usize)
}

/// Returns at most `MOST_APP` bytes from an offset on.
#[tactic(auto, using(crate::proofs::StartLaws::no_part))]
pub fn part_of(all: &[u8], at: usize) -> &[u8]
    ensures { result.now ≡ take most_app (drop at all.now) }
{
    if all.len() <= at {
        return &[];
    }
    let rest = &all[at..];
    &rest[..rest.len().min(MOST_APP)]
}
