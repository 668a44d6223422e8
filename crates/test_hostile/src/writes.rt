//! Each write fails in turn: what was written is a prefix of what was to be, nothing is written
//! after it, and what a run did is what the lines did whose reply was begun.

ghost use Rattle.std.specs.Prelude.{[], ◌≡◌};

use crate::stores::{
    CARRIED, WRITTEN, has_image, input_files, listed_store, ran, store_behind, with_database,
};
use heap_model::{Bytes, Db};
use image_commands::{cmd_check, cmd_new};
use palm_script::RunFault;
use palm_store::Store;
use palm_text::Counted;
use palmheap_program::cmd_run;
use pdb_files::export;
use program_io::Status;
use std::alloc::Global;
use std::io::ErrorKind;
use std::test::*;
use test_beside::image_of;
use test_support::{
    BLANK, EMPTY_FILE, EMPTY_WRITTEN, Narrow, ONE_CHUNK, ONE_DATABASE, ORDER_FILE, ORDER_WRITTEN,
    TINY_FILE, WIDE, WhenFull, bytes_of, holds,
};

/// How a writer takes bytes, and what it does when it has no room left.
type Way = (usize, WhenFull);

static WAYS: [Way; 3] = [
    (1, WhenFull::TakesNothing),
    (1, WhenFull::Fails(ErrorKind::StorageFull)),
    (50, WhenFull::Fails(ErrorKind::Interrupted)),
];

/// A room, and a way.
type Cut = (usize, Way);

fn narrow(alloc: Global, (room, (step, when_full)): Cut) -> Counted<Narrow> {
    Counted::new(Narrow::new(alloc, room, step, when_full))
}

/// Whether a writer with room for the given number of bytes took a prefix of these, nothing came
/// after the fault, and the fault was reported exactly if there was one.
fn is_cut(out: &Narrow, whole: &[u8], room: usize, is_written: bool) -> bool {
    let taken = out.taken.as_slice();
    if room < whole.len() {
        !is_written && out.is_cut_at(room) && whole.starts_with(taken)
    } else {
        is_written && out.refused == 0 && taken == whole
    }
}

/// What writes, of which a writer takes a prefix.
#[derive(Clone, Copy)]
enum Trial<'a> {
    /// A store writes its image.
    Image(&'a Store),
    /// A database is exported.
    File(&'a Store, Db),
    /// `check` prints what it says of an image.
    Check(&'a [u8]),
    /// A script on a listed image prints its replies; the images are those after its first lines.
    Run(&'a str, &'a str, &'a [Vec<u8>]),
    /// `new` writes the image.
    NewImage,
    /// `new` prints its line after this image.
    NewLine(&'a [u8]),
    /// The command `run` prints the replies to the lines on files.
    CommandText,
    /// The command `run` writes the image that these lines leave, after these replies.
    CommandImage(&'a [u8]),
}

/// Whether a trial is cut, by the bytes that it would write.
fn trial_is_cut(alloc: Global, trial: Trial<'_>, whole: &[u8], cut: Cut) -> Result<bool, Fail> {
    let (room, way) = cut;
    match trial {
        Trial::Image(store) => Ok(image_is_cut(alloc, store, whole, cut)),
        Trial::File(store, db) => Ok(file_is_cut(alloc, store, db, whole, cut)),
        Trial::Check(image) => Ok(check_is_cut(alloc, image, whole, cut)),
        Trial::Run(listing, text, images) => {
            run_is_cut(alloc, (listing, text), images, whole, cut)
        }
        Trial::NewImage => Ok(new_is_cut(alloc, whole, room, 3, way)),
        Trial::NewLine(image) => Ok(new_is_cut(alloc, image, 128, room, way)),
        Trial::CommandText => command_text_is_cut(alloc, whole, cut),
        Trial::CommandImage(said) => command_image_is_cut(alloc, whole, said, cut),
    }
}

fn check_cut(
    alloc: Global,
    spot: &str,
    trial: Trial<'_>,
    whole: &[u8],
    cut: Cut,
) -> Result<(), Fail> {
    let is_right = trial_is_cut(alloc, trial, whole, cut)?;
    holds(format_args!("{spot}: {cut:?}"), is_right)
}

/// Cuts a trial after each byte up to `most`, each way.
fn check_cuts(
    alloc: Global,
    spot: &str,
    trial: Trial<'_>,
    whole: &[u8],
    most: usize,
) -> Result<(), Fail> {
    for way in &WAYS {
        for room in 0..=most {
            check_cut(alloc, spot, trial, whole, (room, *way))?;
        }
    }
    Ok(())
}

fn image_is_cut(alloc: Global, store: &Store, whole: &[u8], cut: Cut) -> bool {
    let mut out = narrow(alloc, cut);
    let is_written = store.write_image(&mut out).is_ok();
    is_cut(&out.into_inner(), whole, cut.0, is_written)
}

fn check_image(alloc: Global, listing: &str) -> Result<(), Fail> {
    let image = bytes_of(alloc, listing)?;
    let store = listed_store(alloc, listing)?;
    check_cuts(alloc, listing, Trial::Image(&store), &image, image.len())
}

#[test]
fn an_image_is_cut_behind_each_byte(rt: HostRuntime) -> Result<(), Fail> {
    for listing in &[BLANK, ONE_CHUNK, ONE_DATABASE] {
        check_image(rt.alloc(), listing)?;
    }
    Ok(())
}

/// Files of databases, and what is written of these.
static FILES: [(&str, &str); 3] = [
    (EMPTY_FILE, EMPTY_WRITTEN),
    (ORDER_FILE, ORDER_WRITTEN),
    (TINY_FILE, TINY_FILE),
];

fn file_is_cut(alloc: Global, store: &Store, db: Db, whole: &[u8], cut: Cut) -> bool {
    let mut out = narrow(alloc, cut);
    let is_written = export(store, db, &mut out).is_ok();
    is_cut(&out.into_inner(), whole, cut.0, is_written)
}

fn check_file(alloc: Global, file: &str, written: &str) -> Result<(), Fail> {
    let written = bytes_of(alloc, written)?;
    let (store, db) = with_database(alloc, file)?;
    check_cuts(
        alloc,
        file,
        Trial::File(&store, db),
        &written,
        written.len(),
    )
}

#[test]
fn a_file_is_cut_behind_each_byte(rt: HostRuntime) -> Result<(), Fail> {
    for (file, written) in &FILES {
        check_file(rt.alloc(), file, written)?;
    }
    Ok(())
}

/// Whether the output of a script on a listed image is cut, and the store has the image after the
/// line whose reply breaks off.
fn run_is_cut(
    alloc: Global,
    (listing, text): (&str, &str),
    images: &[Vec<u8>],
    said: &[u8],
    cut: Cut,
) -> Result<bool, Fail> {
    let mut store = listed_store(alloc, listing)?;
    let (fault, out) = cut_run(alloc, &mut store, text, cut)?;
    let is_right = is_cut(&out, said, cut.0, fault.is_none());
    let has_memory = fault != Some(RunFault::OutOfMemory);
    Ok(has_memory && is_right && is_behind(alloc, &store, images, &out.taken)?)
}

/// Why a run ended early, if it did, and what was written.
fn cut_run(
    alloc: Global,
    store: &mut Store,
    text: &str,
    cut: Cut,
) -> Result<(Option<RunFault>, Narrow), Fail>
    ensures { store.new.lents ≡ store.old.lents }
{
    let mut out = narrow(alloc, cut);
    let fault = ran(alloc, store, text, &mut out)?;
    Ok((fault, out.into_inner()))
}

/// Whether a store has the image after the line in which this output breaks off.
fn is_behind(alloc: Global, store: &Store, images: &[Vec<u8>], taken: &[u8]) -> Result<bool, Fail> {
    match images.get(line_count(taken).saturating_add(1)) {
        Some(image) => has_image(alloc, store, image),
        None => Ok(false),
    }
}

/// How many lines end in these bytes.
fn line_count(text: &[u8]) -> usize {
    text.iter().filter(|byte| **byte == b'\n').count()
}

/// The images after the first lines of a script, none of them first.
fn images_behind(alloc: Global, listing: &str, text: &str) -> Result<Vec<Vec<u8>>, Fail> {
    let mut front = String::new(alloc);
    let mut images = Vec::new(alloc);
    images.push(bytes_of(alloc, listing)?)?;
    for line in text.lines() {
        writeln!(front, "{line}")?;
        images.push(image_behind(alloc, listing, front.as_str())?)?;
    }
    Ok(images)
}

/// The image that a script leaves.
fn image_behind(alloc: Global, listing: &str, text: &str) -> Result<Vec<u8>, Fail> {
    let (store, _) = store_behind(alloc, listing, text)?;
    image_of(alloc, &store)
}

/// Lines on files: the first database has records and the second resources.
const BOTH_WAYS: &str = "import d 2\nrecinfo d 0\nexport d\nimport e 3\nresremove e 0\nexport e\n\
    dbcount\nexport d\n";

static RUNS: [(&str, &str); 3] = [(BLANK, WRITTEN), (WIDE, CARRIED), (WIDE, BOTH_WAYS)];

/// Cuts the output of a script after each byte. The line whose reply breaks off was done, and none
/// after it.
fn check_run(alloc: Global, listing: &str, text: &str) -> Result<(), Fail> {
    let images = images_behind(alloc, listing, text)?;
    let (_, said) = store_behind(alloc, listing, text)?;
    let trial = Trial::Run(listing, text, &images);
    check_cuts(alloc, text, trial, &said, said.len().saturating_sub(1))
}

#[test]
fn a_run_is_cut_behind_each_byte(rt: HostRuntime) -> Result<(), Fail> {
    for (listing, text) in &RUNS {
        check_run(rt.alloc(), listing, text)?;
    }
    Ok(())
}

fn check_is_cut(alloc: Global, image: &[u8], text: &[u8], cut: Cut) -> bool {
    let mut out = narrow(alloc, cut);
    let status = cmd_check(alloc, image, &mut out);
    is_cut(&out.into_inner(), text, cut.0, status != Status::WriteFault)
}

/// What `check` prints.
fn check_said(alloc: Global, image: &[u8]) -> Vec<u8> {
    let mut out = Counted::new(Vec::new(alloc));
    let _ = cmd_check(alloc, image, &mut out);
    out.into_inner()
}

fn check_check(alloc: Global, listing: &str) -> Result<(), Fail> {
    let image = bytes_of(alloc, listing)?;
    let text = check_said(alloc, &image);
    check_cuts(alloc, listing, Trial::Check(&image), &text, text.len())
}

#[test]
fn what_check_prints_is_cut_behind_each_byte(rt: HostRuntime) -> Result<(), Fail> {
    for listing in &[BLANK, ONE_DATABASE, ""] {
        check_check(rt.alloc(), listing)?;
    }
    Ok(())
}

/// Whether `new` is cut where its outputs have room for the given number of bytes: the line follows
/// the image.
fn new_is_cut(alloc: Global, image: &[u8], image_room: usize, room: usize, way: Way) -> bool {
    let (mut image_out, mut out) = (narrow(alloc, (image_room, way)), narrow(alloc, (room, way)));
    let status = cmd_new(alloc, 128, 4, &mut image_out, &mut out);
    let (image_out, out) = (image_out.into_inner(), out.into_inner());
    let is_image = image_room >= image.len();
    let is_said = if is_image {
        is_cut(&out, b"ok\n", room, status == Status::Done)
    } else {
        out.taken.is_empty() && status == Status::WriteFault
    };
    is_said && is_cut(&image_out, image, image_room, is_image)
}

#[test]
fn what_new_writes_is_cut_behind_each_byte(rt: HostRuntime) -> Result<(), Fail> {
    let image = bytes_of(rt.alloc(), BLANK)?;
    check_cuts(rt.alloc(), "image", Trial::NewImage, &image, 128)?;
    check_cuts(rt.alloc(), "line", Trial::NewLine(&image), b"ok\n", 3)
}

/// What the command `run` writes with the lines on files, where its outputs have room for the given
/// number of bytes, and how many files there are.
#[derive(Drop)]
struct Ended {
    image: Narrow,
    out: Narrow,
    files: usize,
    is_done: bool,
}

fn command_cut(alloc: Global, image_cut: Cut, cut: Cut) -> Result<Ended, Fail> {
    let image = bytes_of(alloc, WIDE)?;
    let inputs = input_files(alloc)?;
    Ok(command_written(alloc, &image, &inputs, image_cut, cut))
}

fn command_written(
    alloc: Global,
    image: &[u8],
    inputs: &[Bytes],
    image_cut: Cut,
    cut: Cut,
) -> Ended {
    let (mut image_out, mut out) = (narrow(alloc, image_cut), narrow(alloc, cut));
    let mut files = Vec::new(alloc);
    let script = BOTH_WAYS.as_bytes();
    let status = cmd_run(
        alloc,
        image,
        script,
        inputs,
        &mut image_out,
        &mut files,
        &mut out,
    );
    Ended {
        image: image_out.into_inner(),
        out: out.into_inner(),
        files: files.len(),
        is_done: status == Status::Done,
    }
}

/// No image follows a text that is cut, and no file.
fn command_text_is_cut(alloc: Global, said: &[u8], cut: Cut) -> Result<bool, Fail> {
    let ended = command_cut(alloc, (1024, cut.1), cut)?;
    let is_cut = is_cut(&ended.out, said, cut.0, ended.is_done);
    Ok(is_cut && ended.image.taken.is_empty() && ended.files == 0)
}

#[test]
fn the_text_of_a_command_is_cut_behind_each_byte(rt: HostRuntime) -> Result<(), Fail> {
    let (_, said) = store_behind(rt.alloc(), WIDE, BOTH_WAYS)?;
    let most = said.len().saturating_sub(1);
    check_cuts(rt.alloc(), "text", Trial::CommandText, &said, most)
}

/// There are no files where an image is cut.
fn command_image_is_cut(alloc: Global, image: &[u8], said: &[u8], cut: Cut) -> Result<bool, Fail> {
    let ended = command_cut(alloc, cut, (1000, cut.1))?;
    let is_cut = is_cut(&ended.image, image, cut.0, ended.is_done);
    let has_files = ended.files == if ended.is_done { 3 } else { 0 };
    Ok(is_cut && has_files && ended.out.taken.as_slice() == said)
}

fn check_command_image(alloc: Global, image: &[u8], said: &[u8]) -> Result<(), Fail> {
    for way in &WAYS {
        for room in &[0, 1, 17, 1023, 1024] {
            check_cut(
                alloc,
                "image",
                Trial::CommandImage(said),
                image,
                (*room, *way),
            )?;
        }
    }
    Ok(())
}

#[test]
fn the_image_of_a_command_is_cut(rt: HostRuntime) -> Result<(), Fail> {
    let (store, said) = store_behind(rt.alloc(), WIDE, BOTH_WAYS)?;
    check_command_image(rt.alloc(), &image_of(rt.alloc(), &store)?, &said)
}
