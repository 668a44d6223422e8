//! The command `import`: an image that is just large enough for some files, with their databases in
//! it.

ghost use Rattle.std.specs.Prelude.{[], ◌≡◌, ◌≢◌, ◌<◌, ◌≤◌, ℕ, List, Err, IfOk, IfErr, OnOk, None, IfSome, IfNone, All, is_ok, length, min, replicate, slice_index_or, take, codes};
ghost use Rattle.std.specs.List.{concat};
ghost use Rattle.heap_model.specs.Files.{HasNoFault};
ghost use Rattle.heap_model.specs.Store.{Accepted};
ghost use Rattle.chunk_format.specs.Blank.{IsRegionSize};
ghost use Rattle.canonical_file.specs.Needs.{enough, full_size};
ghost use Rattle.palm_text.specs.Counted.{Writes};
ghost use Rattle.palm_text.specs.Output.{Puts, output};
ghost use Rattle.store_commands.specs.Imports.{EndsImport, EndsRefused, ImportsAll, IsChosen, IsFilled, IsNew, IsNoImage, IsNotImported, IsStopped, IsWhy, PutsFilled, StayWithinLimits, image_line, import_text};

use crate::exports::Ended;
use crate::images::{put_store, say_refused};
use allowance::{Allowance, push};
use canonical_file::{ENOUGH, image_size, image_slots, needs_of_files};
use chunk_format::{BlankFault, blank_from, is_image_size};
use heap_model::{Bytes, Refusal};
use image_commands::say_no_image;
use palm_store::Store;
use palm_text::{Counted, Piece, WriteFault, put_all, put_pieces};
use pdb_files::import_opened;
use pdb_format::{OpenFault, PdbFile};
use program_io::{Status, flushed, say};
use std::io::Write;

/// The size in bytes and the slot count that are chosen for a new image. What isn't chosen is the
/// least that the files need.
#[derive(Clone, Copy, Debug, PartialEq, Eq)]
pub struct ImageChoice {
    pub size: Option<u32>,
    pub slots: Option<u16>,
}

/// The size in bytes and the slot count of a new image.
#[derive(Clone, Copy)]
pub(crate) struct NewImage {
    pub(crate) size: u32,
    pub(crate) slots: u16,
}

/// Why there is no image with the databases of some files.
#[derive(Clone, Copy)]
pub(crate) enum NotImported {
    /// The file of this index is refused.
    RefusedFile(usize, Refusal),
    /// The files need more bytes or slots than an image may have.
    TooLarge,
    /// No image may have the size.
    BadSize,
    /// No image of the size may have this slot count.
    BadSlotCount,
    /// An allocation failed.
    OutOfMemory,
}

/// Makes an image, imports files into it in their order, and writes it. Then prints `ok` with its
/// size and its slot count, and `ok` for each file.
///
/// If a file is refused, prints its reply line, and writes no image. A file with a fault is refused
/// before the others are imported. If the files need more than an image may have, prints `bad
/// TooLarge`. If no image has the size or the slots that are chosen, prints `bad BadSize` or `bad
/// BadSlotCount`.
pub fn cmd_import<A: Allowance, W: Write, V: Write>(
    memory: &A,
    choice: ImageChoice,
    files: &[Bytes],
    image_out: &mut Counted<W>,
    out: &mut Counted<V>,
) -> Ended
    ensures ends { EndsImport choice files.now (output W.contents image_out.old image_out.new)
        (output V.contents out.old out.new) result }
    ensures short { result.status ≡ Status.NoMemory → A.is_short memory.now }
{
    match filled_store(memory, choice, files) {
        Ok((image, store)) => put_filled(image, files.len(), &store, image_out, out),
        Err(why) => say_why(why, out),
    }
}

/// A new image with the databases of some files.
fn filled_store<A: Allowance>(
    memory: &A,
    choice: ImageChoice,
    files: &[Bytes],
) -> Result<(NewImage, Store), NotImported>
    ensures filled { IfOk result (λ made. IsFilled choice files.now made.0 made.1) }
    ensures whole { IfOk result (λ made. made.1.lents ≡ []) }
    ensures why { IfErr result (IsWhy choice files.now) }
    ensures short { result ≡ Err NotImported.OutOfMemory → A.is_short memory.now }
{
    match open_files(memory, files) {
        Ok(opened) => filled_with(memory, choice, &opened),
        Err(why) => Err(why),
    }
}

/// A new image with the databases of files that are opened.
fn filled_with<A: Allowance>(
    memory: &A,
    choice: ImageChoice,
    files: &[PdbFile<'_>],
) -> Result<(NewImage, Store), NotImported>
    requires { All HasNoFault files.now }
    ensures filled { IfOk result (λ made. IsFilled choice files.now made.0 made.1) }
    ensures whole { IfOk result (λ made. made.1.lents ≡ []) }
    ensures why { IfErr result (IsWhy choice files.now) }
    ensures short { result ≡ Err NotImported.OutOfMemory → A.is_short memory.now }
{
    let image = chosen(choice, files)?;
    let mut store = new_store(memory, image)?;
    match import_all(memory, &mut store, files) {
        Ok(()) => Ok((image, store)),
        Err(why) => Err(why),
    }
}

/// Opens files, in their order, up to the first with a fault.
fn open_files<'a, A: Allowance>(
    memory: &A,
    files: &'a [Bytes],
) -> Result<Vec<PdbFile<'a>>, NotImported>
    ensures same { IfOk result (λ opened. opened.items ≡ files.now) }
    ensures good { OnOk result (All HasNoFault files.now) }
    ensures why { (choice : ImageChoice) → IfErr result (IsWhy choice files.now) }
    ensures short { result ≡ Err NotImported.OutOfMemory → A.is_short memory.now }
{
    let mut opened = Vec::new(memory.allocator());
    for index in 0..files.len() {
        let file = match open_at(memory, files, index) {
            Ok(file) => file,
            Err(why) => return Err(why),
        };
        let Ok(()) = push(memory, &mut opened, file) else {
            return Err(NotImported::OutOfMemory);
        };
    }
    Ok(opened)
}

/// Opens the file of an index. The files before it have no fault.
fn open_at<'a, A: Allowance>(
    memory: &A,
    files: &'a [Bytes],
    index: usize,
) -> Result<PdbFile<'a>, NotImported>
    requires inside { index < length files.now }
    requires before { All HasNoFault (take index files.now) }
    ensures opened { IfOk result (λ file. file ≡ slice_index_or files.now index []) }
    ensures good { OnOk result (HasNoFault (slice_index_or files.now index [])) }
    ensures why { (choice : ImageChoice) → IfErr result (IsWhy choice files.now) }
    ensures short { result ≡ Err NotImported.OutOfMemory → A.is_short memory.now }
{
    match PdbFile::open(memory, files[index].as_slice()) {
        Ok(file) => Ok(file),
        Err(OpenFault::BadFile(fault)) => {
            Err(NotImported::RefusedFile(index, Refusal::BadFile(fault)))
        }
        Err(OpenFault::OutOfMemory) => Err(NotImported::OutOfMemory),
    }
}

/// The size and the slot count of the image for some files.
fn chosen(choice: ImageChoice, files: &[PdbFile<'_>]) -> Result<NewImage, NotImported>
    requires { All HasNoFault files.now }
    ensures image { IfOk result (IsChosen choice files.now) }
    ensures within { OnOk result (StayWithinLimits choice files.now) }
    ensures why { IfErr result (IsWhy choice files.now) }
    ensures takes_no_memory { result ≢ Err NotImported.OutOfMemory }
{
    let needs = needs_of_files(files);
    let slots = match choice.slots {
        Some(slots) => u64::from(slots),
        None => image_slots(needs.slots),
    };
    if slots > u64::from(u16::MAX) {
        return Err(NotImported::TooLarge);
    }
    let size = match choice.size {
        Some(size) => Some(size),
        None => fitting_size(slots as u16, files.len(), needs.bytes),
    };
    match size {
        Some(size) => Ok(NewImage {
            size,
            slots: slots as u16,
        }),
        None => Err(NotImported::TooLarge),
    }
}

/// Returns the size of an image that is full with `databases` databases, whose chunks take `bytes`
/// bytes, if an image may have it.
fn fitting_size(slots: u16, databases: usize, bytes: u64) -> Option<u32>
    requires { bytes ≤ enough }
    ensures right { IfSome result IsRegionSize }
    ensures fits { (all : ℕ) → bytes ≡ min enough all
        → IfSome result (λ size. size ≡ full_size slots databases all) }
    ensures none { (all : ℕ) → bytes ≡ min enough all
        → IfNone result (IsRegionSize (full_size slots databases all) → ⊥) }
{
    let size = image_size(u64::from(slots), (databases as u64).min(ENOUGH), bytes);
    if is_image_size(size as usize) {
        Some(size as u32)
    } else {
        None
    }
}

/// The store of a new image.
fn new_store<A: Allowance>(memory: &A, image: NewImage) -> Result<Store, NotImported>
    ensures made { IfOk result (IsNew image) }
    ensures whole { IfOk result (λ store. store.lents ≡ []) }
    ensures accepted { IfOk result (λ store. Accepted store.bytes) }
    ensures why { IfErr result (IsNoImage image) }
    ensures short { result ≡ Err NotImported.OutOfMemory → A.is_short memory.now }
{
    let region = match blank_from(memory, image.size, image.slots) {
        Ok(region) => region,
        Err(BlankFault::BadSize) => return Err(NotImported::BadSize),
        Err(BlankFault::BadSlotCount) => return Err(NotImported::BadSlotCount),
        Err(BlankFault::OutOfMemory) => return Err(NotImported::OutOfMemory),
    };
    match Store::check_from(memory, region) {
        Ok(store) => Ok(store),
        Err(_) => Err(NotImported::OutOfMemory),
    }
}

/// Imports files into a store, in their order, up to the first that is refused.
fn import_all<A: Allowance>(
    memory: &A,
    store: &mut Store,
    files: &[PdbFile<'_>],
) -> Result<(), NotImported>
    requires { Accepted store.old.bytes }
    ensures done { OnOk result (ImportsAll store.old files.now store.new) }
    ensures accepted { OnOk result (Accepted store.new.bytes) }
    ensures why { IfErr result (IsStopped store.old files.now) }
    ensures lent { store.new.lents ≡ store.old.lents }
    ensures short { result ≡ Err NotImported.OutOfMemory → A.is_short memory.now }
{
    for index in 0..files.len() {
        match import_opened(memory, store, &files[index]) {
            Ok(_) => {}
            Err(refusal) => return Err(not_imported(index, refusal)),
        }
    }
    Ok(())
}

/// Why the file of an index isn't imported, if its import is refused.
fn not_imported(index: usize, refusal: Refusal) -> NotImported
    ensures { IsNotImported index refusal result }
{
    match refusal {
        Refusal::OutOfMemory => NotImported::OutOfMemory,
        _ => NotImported::RefusedFile(index, refusal),
    }
}

/// Prints why there is no image.
fn say_why<V: Write>(why: NotImported, out: &mut Counted<V>) -> Ended
    ensures ends { (choice : ImageChoice) (files : List (List ℕ)) → IsWhy choice files why
        → EndsRefused choice files (output V.contents out.old out.new) result }
    ensures short { result.status ≡ Status.NoMemory → why ≡ NotImported.OutOfMemory }
{
    let (status, word) = match why {
        NotImported::RefusedFile(index, refusal) => (say_refused(refusal, out), Some(index)),
        NotImported::TooLarge => (say(b"bad TooLarge\n", Status::Refused, out), None),
        NotImported::BadSize => (say_no_image(BlankFault::BadSize, out), None),
        NotImported::BadSlotCount => (say_no_image(BlankFault::BadSlotCount, out), None),
        NotImported::OutOfMemory => (Status::NoMemory, None),
    };
    Ended { status, word }
}

/// Writes an image into which `count` files were imported, and then prints its lines.
fn put_filled<W: Write, V: Write>(
    image: NewImage,
    count: usize,
    store: &Store,
    image_out: &mut Counted<W>,
    out: &mut Counted<V>,
) -> Ended
    requires { store.now.lents ≡ [] }
    ensures ends { PutsFilled image count store.now.bytes
        (output W.contents image_out.old image_out.new)
        (output V.contents out.old out.new) result.status }
    ensures word { result.word ≡ None }
{
    let status = match put_store(image_out, store) {
        Ok(()) => match put_flushed(out, image, count) {
            Ok(()) => Status::Done,
            Err(_) => Status::WriteFault,
        },
        Err(_) => Status::WriteFault,
    };
    Ended { status, word: None }
}

/// Writes the size and the slot count of an image.
#[tactic(auto, unfolding(crate::specs::Imports::image_line))]
fn put_image_line<V: Write>(out: &mut Counted<V>, image: NewImage) -> Result<(), WriteFault>
    ensures { Writes V.contents out.old out.new (image_line image) (is_ok result) }
{
    put_pieces(
        out,
        &[
            Piece::Text(b"ok "),
            Piece::Number(image.size),
            Piece::Text(b" "),
            Piece::Number(u32::from(image.slots)),
            Piece::Text(b"\n"),
        ],
    )
}

/// Writes `ok` for each of `count` files.
fn put_replies<V: Write>(out: &mut Counted<V>, count: usize) -> Result<(), WriteFault>
    ensures { Writes V.contents out.old out.new (concat (replicate count (codes "ok\n")))
        (is_ok result) }
{
    for done in 0..count {
        match put_all(out, b"ok\n") {
            Ok(()) => {}
            Err(fault) => return Err(fault),
        }
    }
    Ok(())
}

/// Writes the lines of an image into which `count` files were imported.
#[tactic(auto, using(palm_text::proofs::Parts::then, palm_text::proofs::Parts::stops))]
fn put_lines<V: Write>(
    out: &mut Counted<V>,
    image: NewImage,
    count: usize,
) -> Result<(), WriteFault>
    ensures { Writes V.contents out.old out.new (import_text image count) (is_ok result) }
{
    put_image_line(out, image)?;
    put_replies(out, count)
}

/// The same, and flushes.
#[tactic(auto, using(palm_text::proofs::Parts::then_flush))]
fn put_flushed<V: Write>(
    out: &mut Counted<V>,
    image: NewImage,
    count: usize,
) -> Result<(), WriteFault>
    ensures { Puts V.contents out.old out.new (import_text image count) (is_ok result) }
{
    put_lines(out, image, count)?;
    flushed(out)
}
