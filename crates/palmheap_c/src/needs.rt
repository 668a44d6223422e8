//! The smallest image for the database of a PDB or PRC file.

ghost use Rattle.std.specs.Prelude.{◌≡◌};
ghost use Rattle.palmheap_c.specs.Needs as words;

use crate::answers::{Answer, NO_FAULT};
use crate::files::open;
use canonical_file::{image_size, image_slots, needs_of};
use pdb_format::PdbFile;
use std::alloc::Global;

/// The least size in bytes and the least number of slots of an image.
#[repr(C)]
#[derive(Clone, Copy, Debug, PartialEq, Eq)]
pub struct Needs {
    pub size: usize,
    pub slots: usize,
}

/// Finds the needs of a file: the least size and number of slots of a new image into which its
/// database can be imported, as the command `list` prints them.
#[unsafe(no_mangle)]
pub extern "C" fn palmheap_pdb_needs(alloc: Global, file: &[u8], needs: &mut Needs) -> Answer
    ensures { words.IsNeedsAnswer file.now needs.old needs.new result }
{
    let opened = match open(alloc, file) {
        Ok(opened) => opened,
        Err(answer) => return answer,
    };
    *needs = needs_in(&opened);
    NO_FAULT
}

/// Returns the needs of a file that is opened.
fn needs_in(file: &PdbFile<'_>) -> Needs
    ensures { result ≡ words.needs_in file.now }
{
    let needs = needs_of(file);
    let slots = image_slots(needs.slots);
    Needs {
        size: image_size(slots, 1, needs.bytes) as usize,
        slots: slots as usize,
    }
}
