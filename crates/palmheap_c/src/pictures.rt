//! Pictures of images. These functions keep no state between calls.

ghost use Rattle.std.specs.Prelude.{◌≡◌, IfErr, IfOk};
ghost use Rattle.palmheap_c.specs.Buffers.{buffer};
ghost use Rattle.palmheap_c.specs.ImageTexts.{IsPictureIn, IsTextAnswer, IsTextRefusal};

use crate::answers::{Answer, NO_MEMORY, of_store};
use crate::buffers::{put_bytes, refused_write};
use heap_map::{MapFault, put_map};
use heap_svg::put_svg;
use palm_text::Counted;
use raw_region::Region;
use std::alloc::Global;

/// The form of a picture.
#[derive(Clone, Copy)]
pub(crate) enum PictureForm {
    /// Lines of text.
    Text,
    /// SVG.
    Svg,
}

/// Writes the picture of an image into a buffer: the text that the command `map` prints. Sets
/// `count` to its size in bytes, also if the buffer is too short for it.
#[unsafe(no_mangle)]
pub extern "C" fn palmheap_map(
    alloc: Global,
    image: &[u8],
    text: &mut [u8],
    count: &mut usize,
) -> Answer
    ensures { IsTextAnswer (IsPictureIn PictureForm.Text) image.now (buffer text.old count.old)
        (buffer text.new count.new) result }
{
    match picture_of(alloc, image, PictureForm::Text) {
        Ok(bytes) => put_bytes(&bytes, text, count),
        Err(answer) => answer,
    }
}

/// Writes the picture of an image as SVG into a buffer: the file that the command `map` writes.
/// Sets `count` to its size in bytes, also if the buffer is too short for it.
#[unsafe(no_mangle)]
pub extern "C" fn palmheap_map_svg(
    alloc: Global,
    image: &[u8],
    text: &mut [u8],
    count: &mut usize,
) -> Answer
    ensures { IsTextAnswer (IsPictureIn PictureForm.Svg) image.now (buffer text.old count.old)
        (buffer text.new count.new) result }
{
    match picture_of(alloc, image, PictureForm::Svg) {
        Ok(bytes) => put_bytes(&bytes, text, count),
        Err(answer) => answer,
    }
}

/// Returns the picture of an image, as text or as SVG.
#[tactic(auto, using(crate::proofs::PictureLaws::mapped, crate::proofs::PictureLaws::drawn, crate::proofs::PictureLaws::not_drawn))]
fn picture_of(alloc: Global, image: &[u8], form: PictureForm) -> Result<Vec<u8>, Answer>
    ensures ok { IfOk result (λ text. IsPictureIn form image.now text.items) }
    ensures err { IfErr result (IsTextRefusal image.now) }
{
    let Ok(region) = Region::from_bytes(alloc, image) else {
        return Err(NO_MEMORY);
    };
    let mut out = Counted::new(Vec::new(alloc));
    let put = match form {
        PictureForm::Text => put_map(&alloc, &region, &mut out),
        PictureForm::Svg => put_svg(&alloc, &region, &mut out),
    };
    match put {
        Ok(()) => Ok(out.into_inner()),
        Err(MapFault::BadImage(fault)) => Err(of_store(fault)),
        Err(MapFault::OutOfMemory) => Err(NO_MEMORY),
        Err(MapFault::Write) => Err(refused_write(alloc, &out)),
    }
}
