//! Scripts and images that are large: none is refused as out of memory, and there are no limits but
//! those that are stated.

use crate::calls::blank_store;
use crate::commands::check_image;
use crate::grammar::{What, count_of};
use crate::runs::{Ran, run_on};
use image_commands::cmd_new;
use palm_script::{parse, run};
use palm_text::Counted;
use program_io::{MOST_INPUT, Status};
use std::alloc::{AllocError, Global};
use std::test::Fail;
use test_support::{equal, holds};

/// Returns `count` lines of 4,096 bytes, each a comment.
fn passed_over(alloc: Global, count: usize) -> Result<String, AllocError> {
    let filling = "x".repeat(alloc, 4_094)?;
    let line = format!(in alloc; "#{filling}\n")?;
    line.repeat(alloc, count)
}

/// Returns a line for each of `count` labels, with `before` and `behind` around the label.
fn lines(alloc: Global, count: u32, before: &str, behind: &str) -> Result<String, AllocError> {
    let mut text = String::new(alloc);
    for number in 0..count {
        writeln!(text, "{before}{number}{behind}")?;
    }
    Ok(text)
}

#[test]
fn a_script_of_100000_lines_is_read(rt: HostRuntime) -> Result<(), Fail> {
    let text = lines(rt.alloc(), 100_000, "new h", " 8 1")?;
    let labels = count_of(rt.alloc(), text.as_bytes(), What::ChunkLabels);
    equal("labels", labels, Some(100_000))
}

#[test]
fn a_script_as_long_as_the_limit_is_read(rt: HostRuntime) -> Result<(), Fail> {
    let text = passed_over(rt.alloc(), 4_096)?;
    let labels = count_of(rt.alloc(), text.as_bytes(), What::ChunkLabels);
    equal("bytes, labels", (text.len(), labels), (MOST_INPUT, Some(0)))
}

/// What `run` itself prints on a blank image of this size: the commands call the forms with an
/// allowance.
fn run_plain(alloc: Global, size: u32, script: &str) -> Result<Vec<u8>, Fail> {
    let script = parse(alloc, script.as_bytes())?;
    let mut store = blank_store(alloc, size)?;
    let mut out = Counted::new(Vec::new(alloc));
    run(alloc, &mut store, &script, &[], &mut out)?;
    Ok(out.into_inner())
}

/// Whether a run got through and printed this.
fn says(ran: &Ran<Vec<u8>, Vec<u8>>, said: &str) -> bool {
    ran.status == Status::Done && ran.out.as_slice() == said.as_bytes()
}

/// A run on the blank image of 128 bytes prints this, by the command and by `run`, and leaves the
/// image as it is.
fn check_kept(alloc: Global, script: &str, said: &str) -> Result<(), Fail> {
    let plain = run_plain(alloc, 128, script)?;
    holds("what `run` prints", plain.as_slice() == said.as_bytes())?;
    let image = new_image(alloc, 128)?;
    let ran = run_on(alloc, &image, script, &[]);
    holds(
        "the replies and the image",
        says(&ran, said) && ran.image.as_slice() == image.as_slice(),
    )
}

/// 1,025 lines with a label each, every one of which is refused.
fn check_labels(alloc: Global, front: &str, behind: &str, reply: &str) -> Result<(), Fail> {
    let script = lines(alloc, 1025, front, behind)?;
    let said = reply.repeat(alloc, 1025)?;
    check_kept(alloc, script.as_str(), said.as_str())
}

#[test]
fn a_script_has_as_many_labels_as_it_likes(rt: HostRuntime) -> Result<(), Fail> {
    let alloc = rt.alloc();
    check_labels(alloc, "bind h", " 0", "refused 1 InvalidHandle\n")?;
    check_labels(alloc, "find h", " \"None\"", "refused 10 NoSuchDatabase\n")
}

#[test]
fn a_script_is_as_long_as_it_likes(rt: HostRuntime) -> Result<(), Fail> {
    let alloc = rt.alloc();
    let script = "freebytes\n".repeat(alloc, 200_000)?;
    let said = "ok 96\n".repeat(alloc, 200_000)?;
    check_kept(alloc, script.as_str(), said.as_str())
}

#[test]
fn a_line_has_as_many_bytes_as_it_likes(rt: HostRuntime) -> Result<(), Fail> {
    let alloc = rt.alloc();
    let image = new_image(alloc, 8192)?;
    let hex = "4b".repeat(alloc, 5000)?;
    let script = format!(in alloc;
        "new a 5000 1\nlock a\nwrite a 0 {hex}\nread a 0 5000\nread a 5000 0\n"
    )?;
    let said = format!(in alloc; "ok\nok 1\nok\nok {hex}\nok -\n")?;
    let ran = run_on(alloc, &image, script.as_str(), &[]);
    holds("the replies", says(&ran, said.as_str()))
}

/// An image of the greatest size, a script of 8 MB with one line of nearly all of that, and a reply
/// line of as many bytes.
#[test]
fn a_run_is_as_large_as_it_likes(rt: HostRuntime) -> Result<(), Fail> {
    let alloc = rt.alloc();
    let image = new_image(alloc, 16_777_208)?;
    let hex = "4b".repeat(alloc, 4_000_000)?;
    let script = format!(in alloc; "new a 4000000 1\nlock a\nwrite a 0 {hex}\nread a 0 4000000\n")?;
    let ran = run_on(alloc, &image, script.as_str(), &[]);
    let printed = 3 + 5 + 3 + 3 + 8_000_000 + 1;
    equal(
        "the run",
        (ran.status, ran.image.len(), ran.out.len()),
        (Status::Done, 16_777_208, printed),
    )?;
    let plain = run_plain(alloc, 16_777_208, script.as_str())?;
    equal("what `run` prints", plain.len(), printed)
}

/// What `new` writes for an image of this size with 4 slots.
fn new_image(alloc: Global, size: u32) -> Result<Vec<u8>, Fail> {
    let mut image = Counted::new(Vec::new(alloc));
    let mut out = Counted::new(Vec::new(alloc));
    if cmd_new(alloc, size, 4, &mut image, &mut out) != Status::Done {
        return Err("no image")?;
    }
    Ok(image.into_inner())
}

#[test]
fn the_largest_image_is_checked(rt: HostRuntime) -> Result<(), Fail> {
    let image = new_image(rt.alloc(), 16_777_208)?;
    equal("bytes", image.len(), 16_777_208)?;
    let said = "ok size 16777208 slots 4 movable 0 fixed 0 free 16777176\ndatabases 0\n";
    check_image(rt.alloc(), "the image", &image, (Status::Done, said))
}

/// An image of 16,777,216 bytes, as many as an input file may have, that says so.
fn larger(alloc: Global) -> Result<Vec<u8>, Fail> {
    let image = new_image(alloc, 16_777_208)?;
    let mut larger = Vec::from_slice(alloc, b"PHI1\x01\0\0\0")?;
    larger.extend_from_slice(image.get(8..).ok_or("no image")?)?;
    larger.extend_from_slice(&[0; 8])?;
    Ok(larger)
}

/// It is checked too, and is no heap.
#[test]
fn a_larger_image_is_bad(rt: HostRuntime) -> Result<(), Fail> {
    let image = larger(rt.alloc())?;
    equal("bytes", image.len(), 16_777_216)?;
    let wanted = (Status::Refused, "bad BadSize\n");
    check_image(rt.alloc(), "the image", &image, wanted)
}
