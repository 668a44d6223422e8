//! What else an input looks like, and which command explains a fault.

ghost use Rattle.std.specs.Prelude.{◌≡◌, ◌⊎◌, ◌↔◌, MatchOption};
ghost use Rattle.chunk_format.specs.Blank.{IsRegionSize};

use crate::faults::input_name;
use chunk_format::{BlankFault, is_image_size};
use heap_model::Bytes;
use hints::{looks_like_database, looks_like_image};
use program_io::Status;
use raw_region::Region;

/// Reports on standard error that the image at a path looks like a PDB or PRC file, and the command
/// that lists it. It reports nothing if `is_file` is false, or if the image wasn't refused.
pub fn suggest_list<R: Eprint>(rt: &R, path: &str, status: Status, is_file: bool) {
    if status == Status::Refused && is_file {
        let _ = eprintln!(rt;
            "{} looks like a PDB or PRC file: 'palmheap list {path}' lists it",
            input_name(path)
        );
    }
}

/// Reports on standard error that the file at a path looks like a heap image, and the command that
/// checks it. Some images are read as a database with the name PHI1. So it also reports this if the
/// file wasn't refused.
pub fn suggest_check<R: Eprint>(rt: &R, path: &str, status: Status, file: &[u8]) {
    let is_read = status == Status::Done || status == Status::Refused;
    if is_read && looks_like_image(file) {
        let _ = eprintln!(rt;
            "{} looks like a heap image: 'palmheap check {path}' checks it",
            input_name(path)
        );
    }
}

/// Reports on standard error which of some files look like heap images, as `suggest_check`.
pub fn suggest_checks<R: Eprint>(rt: &R, paths: &[&str], status: Status, files: &[Bytes]) {
    for (path, file) in paths.iter().zip(files) {
        suggest_check(rt, path, status, file.as_slice());
    }
}

/// Reports on standard error which command explains why no image has a size and a slot count. It
/// reports nothing with another status than `BadWords`. `size` is the chosen size, if any.
pub fn suggest_explain<R: Eprint>(rt: &R, status: Status, size: Option<u32>) {
    if status == Status::BadWords {
        let name = blank_fault(size).name();
        let _ = eprintln!(rt; "'palmheap explain {name}' says what {name} means");
    }
}

/// Returns the fault of a size and a slot count of which there is no image: that of the size, if no
/// image has the size.
fn blank_fault(size: Option<u32>) -> BlankFault
    ensures faults { (result ≡ BlankFault.BadSize) ⊎ (result ≡ BlankFault.BadSlotCount) }
    ensures bad_size { result ≡ BlankFault.BadSize ↔ MatchOption size ⊥ (λ size. IsRegionSize size → ⊥) }
{
    match size {
        Some(size) if !is_image_size(size as usize) => BlankFault::BadSize,
        _ => BlankFault::BadSlotCount,
    }
}
