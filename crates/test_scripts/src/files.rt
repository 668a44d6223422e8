//! A file that takes the place of another.

use palm_text::{Counted, put};
use program_io::{Noted, OutputFile, Status, say};
use std::alloc::AllocError;
use std::io::Write;
use std::os::unix::fs::symlink;
use std::rt::Files;
use std::test::Fail;
use std::{fs, io};
use test_support::{equal, holds};

/// A path for a file of this test run.
fn path_of(rt: &HostRuntime, name: &str) -> Result<String, Fail> {
    let folder = std::env::temp_dir(rt)?.into_string();
    let number = std::process::id(rt.process());
    Ok(format!(in rt.alloc(); "{folder}/palmheap-test-{name}-{number}")?)
}

/// Writes a text through an output file, and answers whether that got through.
fn replace<R: Files + AllocGlobal>(rt: &R, path: &str, text: &str) -> Result<bool, Fail> {
    let mut file = Counted::new(OutputFile::new(rt, path)?);
    let written = put(&mut file, text.as_bytes());
    file.into_inner().close();
    Ok(written.is_ok())
}

/// A file has just this text.
fn check_text<R: Files + AllocGlobal>(rt: &R, path: &str, text: &str) -> Result<(), Fail> {
    let bytes = fs::read(rt, path)?;
    holds(text, bytes.as_slice() == text.as_bytes())
}

/// A text takes the place of a file.
fn check_taken<R: Files + AllocGlobal>(rt: &R, path: &str, text: &str) -> Result<(), Fail> {
    let is_written = replace(rt, path, text)?;
    holds(text, is_written)?;
    check_text(rt, path, text)
}

/// The path of what is written beside a file.
fn beside<R: Files + AllocGlobal>(rt: &R, path: &str) -> Result<String, AllocError> {
    format!(in rt.alloc(); "{path}.palmheap-new")
}

/// Whether something is there, and something beside it.
fn found<R: Files + AllocGlobal>(rt: &R, path: &str) -> Option<(bool, bool)> {
    let beside = beside(rt, path).ok()?;
    let is_there = fs::exists(rt, path).ok()?;
    Some((is_there, fs::exists(rt, beside.as_str()).ok()?))
}

fn check_found<R: Files + AllocGlobal>(
    rt: &R,
    path: &str,
    wanted: (bool, bool),
) -> Result<(), Fail> {
    equal("what is there", found(rt, path), Some(wanted))
}

/// The text of a temporary file that a killed run left.
const LEFT: &str = "what another run left";

/// Makes a file like one that a killed run leaves.
fn leave_beside<R: Files + AllocGlobal>(rt: &R, path: &str) -> Result<(), Fail> {
    let beside = beside(rt, path)?;
    Ok(fs::write(rt, beside.as_str(), LEFT)?)
}

/// Checks that a file gets one text and then another, if a killed run left a temporary file, and
/// that this file stays as it was.
fn check_replaced<R: Files + AllocGlobal>(rt: &R, path: &str) -> Result<(), Fail> {
    check_taken(rt, path, "the first")?;
    check_found(rt, path, (true, false))?;
    leave_beside(rt, path)?;
    check_taken(rt, path, "new")?;
    let left = beside(rt, path)?;
    check_text(rt, left.as_str(), LEFT)?;
    fs::remove_file(rt, left.as_str())?;
    check_found(rt, path, (true, false))?;
    Ok(fs::remove_file(rt, path)?)
}

#[test]
fn a_file_is_replaced_as_a_whole(rt: HostRuntime) -> Result<(), Fail> {
    let path = path_of(&rt, "whole")?;
    check_replaced(&rt, path.as_str())
}

/// Writes two texts to two writers by turns, and flushes both. Returns the result of each flush.
fn write_by_turns<R: Files + AllocGlobal>(
    one: &mut OutputFile<R>,
    other: &mut OutputFile<R>,
) -> io::Result<(io::Result<()>, io::Result<()>)> {
    one.write_all(b"one, ")?;
    other.write_all(b"the other, ")?;
    one.write_all(b"whole")?;
    other.write_all(b"whole")?;
    Ok((one.flush(), other.flush()))
}

/// Writes to two writers of one path, and closes both.
fn write_both<R: Files + AllocGlobal>(rt: &R, path: &str) -> Result<(bool, bool), Fail> {
    let mut one = OutputFile::new(rt, path)?;
    let Ok(mut other) = OutputFile::new(rt, path) else {
        one.close();
        return Err(Fail::from(AllocError));
    };
    let flushed = write_by_turns(&mut one, &mut other);
    one.close();
    other.close();
    let (first, second) = flushed?;
    Ok((first.is_ok(), second.is_ok()))
}

/// Checks that two writers of one path do not meet: the path has the whole text of the second that
/// is flushed.
fn check_two<R: Files + AllocGlobal>(rt: &R, path: &str) -> Result<(), Fail> {
    let written = write_both(rt, path)?;
    equal("what is flushed", written, (true, true))?;
    check_text(rt, path, "the other, whole")?;
    check_found(rt, path, (true, false))?;
    Ok(fs::remove_file(rt, path)?)
}

#[test]
fn two_writers_of_a_file_do_not_meet(rt: HostRuntime) -> Result<(), Fail> {
    let path = path_of(&rt, "two")?;
    check_two(&rt, path.as_str())
}

/// Adds letters to a path, so that its last name has `length` bytes.
fn lengthened(mut path: String, folder: &str, length: usize) -> Result<String, AllocError> {
    for _ in path.len()..folder.len().saturating_add(1).saturating_add(length) {
        path.push('x')?;
    }
    Ok(path)
}

/// Checks that a file is made and replaced.
fn check_long<R: Files + AllocGlobal>(rt: &R, path: &str) -> Result<(), Fail> {
    check_taken(rt, path, "old")?;
    check_taken(rt, path, "new")?;
    Ok(fs::remove_file(rt, path)?)
}

#[test]
fn a_file_with_a_long_name_is_replaced(rt: HostRuntime) -> Result<(), Fail> {
    let folder = std::env::temp_dir(&rt)?.into_string();
    for length in [100, 101, 243, 255] {
        let path = lengthened(path_of(&rt, "long")?, folder.as_str(), length)?;
        check_long(&rt, path.as_str())?;
    }
    Ok(())
}

/// What was there before a file was closed, and why a text wasn't taken, if it wasn't.
type BrokenOff = (Option<(bool, bool)>, Option<io::ErrorKind>);

/// Of which kind an error is, if there is one.
fn kind_of(error: Option<io::Error>) -> Option<io::ErrorKind> {
    match error {
        Some(error) => Some(error.kind()),
        None => None,
    }
}

/// Writes a text and doesn't flush.
fn break_off<R: Files + AllocGlobal>(rt: &R, path: &str) -> Result<BrokenOff, AllocError> {
    let mut file = OutputFile::new(rt, path)?;
    let written = file.write_all(b"new");
    let meanwhile = found(rt, path);
    file.close();
    Ok((meanwhile, kind_of(written.err())))
}

fn check_broken_off<R: Files + AllocGlobal>(
    rt: &R,
    path: &str,
    wanted: BrokenOff,
) -> Result<(), Fail> {
    let broken_off = break_off(rt, path)?;
    equal("a text that isn't flushed", broken_off, wanted)
}

/// A file stays as it was, and none beside it, where the writing breaks off.
fn check_stays<R: Files + AllocGlobal>(rt: &R, path: &str) -> Result<(), Fail> {
    fs::write(rt, path, "old")?;
    check_broken_off(rt, path, (Some((true, true)), None))?;
    check_found(rt, path, (true, false))?;
    check_text(rt, path, "old")?;
    Ok(fs::remove_file(rt, path)?)
}

#[test]
fn a_file_stays_where_the_writing_breaks_off(rt: HostRuntime) -> Result<(), Fail> {
    let path = path_of(&rt, "kept")?;
    check_stays(&rt, path.as_str())
}

fn check_none<R: Files + AllocGlobal>(rt: &R, path: &str) -> Result<(), Fail> {
    check_broken_off(rt, path, (Some((false, true)), None))?;
    check_found(rt, path, (false, false))
}

#[test]
fn where_no_file_was_a_writing_that_breaks_off_leaves_none(rt: HostRuntime) -> Result<(), Fail> {
    let path = path_of(&rt, "none")?;
    check_none(&rt, path.as_str())
}

/// A link stays one, and the file that it leads to is replaced.
fn check_followed<R: Files + AllocGlobal>(rt: &R, path: &str, link: &str) -> Result<(), Fail> {
    fs::write(rt, path, "old")?;
    symlink(rt, path, link)?;
    check_taken(rt, link, "new")?;
    check_text(rt, path, "new")?;
    let metadata = fs::symlink_metadata(rt, link)?;
    holds("the link", metadata.is_symlink())?;
    fs::remove_file(rt, link)?;
    Ok(fs::remove_file(rt, path)?)
}

#[test]
fn a_link_is_followed(rt: HostRuntime) -> Result<(), Fail> {
    let (path, link) = (path_of(&rt, "target")?, path_of(&rt, "link")?);
    check_followed(&rt, path.as_str(), link.as_str())
}

/// Makes a file that is read-only, or writable.
fn make<R: Files + AllocGlobal>(rt: &R, path: &str, is_read_only: bool) -> Result<(), Fail> {
    fs::write(rt, path, "old")?;
    let mut permissions = fs::metadata(rt, path)?.permissions();
    permissions.set_readonly(is_read_only);
    Ok(fs::set_permissions(rt, path, permissions)?)
}

/// A file that is replaced stays read-only, or writable.
fn check_kept<R: Files + AllocGlobal>(rt: &R, path: &str, is_read_only: bool) -> Result<(), Fail> {
    make(rt, path, is_read_only)?;
    check_taken(rt, path, "new")?;
    let kept = fs::metadata(rt, path)?.permissions();
    equal("read-only", kept.readonly(), is_read_only)?;
    Ok(fs::remove_file(rt, path)?)
}

#[test]
fn permissions_are_kept(rt: HostRuntime) -> Result<(), Fail> {
    let path = path_of(&rt, "permissions")?;
    check_kept(&rt, path.as_str(), true)?;
    check_kept(&rt, path.as_str(), false)
}

/// A path takes no bytes for this reason, and nothing is made beside it. They aren't flushed, so
/// that they take no place.
fn check_refused<R: Files + AllocGlobal>(
    rt: &R,
    path: &str,
    kind: io::ErrorKind,
) -> Result<(), Fail> {
    check_broken_off(rt, path, (Some((true, false)), Some(kind)))
}

/// A device and a folder are written to directly, and these take no byte.
#[test]
fn what_is_no_file_is_not_replaced(rt: HostRuntime) -> Result<(), Fail> {
    let folder = std::env::temp_dir(&rt)?.into_string();
    check_refused(&rt, "/dev/full", io::ErrorKind::StorageFull)?;
    check_refused(&rt, folder.as_str(), io::ErrorKind::IsADirectory)
}

/// What a text comes to on a file, and the reason.
fn say_to<R: Files + AllocGlobal>(file: OutputFile<R>) -> (Status, Option<io::Error>) {
    let mut file = Counted::new(Noted::new(file));
    let status = say(b"new", Status::Done, &mut file);
    let (file, reason) = file.into_inner().into_parts();
    file.close();
    (status, reason)
}

/// A text whose file is to take the place of a folder is a write fault.
fn check_over_folder<R: Files + AllocGlobal>(rt: &R, path: &str) -> Result<(), Fail> {
    let file = OutputFile::new(rt, path)?;
    let made = fs::create_dir(rt, path);
    let (status, reason) = say_to(file);
    made?;
    let wanted = (Status::WriteFault, Some(io::ErrorKind::IsADirectory));
    equal("the folder", (status, kind_of(reason)), wanted)
}

/// It leaves the folder and nothing beside it.
fn check_folder<R: Files + AllocGlobal>(rt: &R, path: &str) -> Result<(), Fail> {
    check_over_folder(rt, path)?;
    check_found(rt, path, (true, false))?;
    Ok(fs::remove_dir(rt, path)?)
}

#[test]
fn a_rename_that_fails_is_a_write_fault(rt: HostRuntime) -> Result<(), Fail> {
    let path = path_of(&rt, "folder")?;
    check_folder(&rt, path.as_str())
}

/// Writes a text and flushes, which puts a file in its place: how many bytes it takes behind that,
/// and what is there then; and it is flushed again.
fn write_behind<R: Files + AllocGlobal>(
    rt: &R,
    path: &str,
    file: &mut OutputFile<R>,
) -> io::Result<(usize, Option<(bool, bool)>)> {
    file.write_all(b"new")?;
    file.flush()?;
    let behind = file.write(b"more")?;
    let there = found(rt, path);
    file.flush()?;
    Ok((behind, there))
}

/// A file takes none, and has what was written before.
fn check_closed<R: Files + AllocGlobal>(rt: &R, path: &str) -> Result<(), Fail> {
    let mut file = OutputFile::new(rt, path)?;
    let written = write_behind(rt, path, &mut file);
    file.close();
    equal("behind it", written?, (0, Some((true, false))))?;
    check_text(rt, path, "new")?;
    Ok(fs::remove_file(rt, path)?)
}

#[test]
fn nothing_is_written_behind_a_closed_file(rt: HostRuntime) -> Result<(), Fail> {
    let path = path_of(&rt, "closed")?;
    check_closed(&rt, path.as_str())
}
