//! The part of a heap that the database of a file takes.

ghost use Rattle.std.specs.Prelude.{◌≡◌};
ghost use Rattle.file_listing.specs.Listing.{needed_size, needed_slots};

use canonical_file::{image_size, image_slots, needs_of};
use pdb_format::{FileBytes, PdbFile};

/// Returns the least size and number of slots of a new image with the database of a file.
pub(crate) fn size_and_slots<B: FileBytes>(file: &PdbFile<'_, B>) -> (u64, u64)
    ensures size { result.0 ≡ needed_size file.now }
    ensures slots { result.1 ≡ needed_slots file.now }
{
    let needs = needs_of(file);
    let slots = image_slots(needs.slots);
    (image_size(slots, 1, needs.bytes), slots)
}
