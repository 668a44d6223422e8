//! The law of blank images, as the postcondition of a function.

ghost use Rattle.chunk_format.specs.Laws.{BlankImagesAreEmpty};

/// Proves that a blank image is accepted with its databases, and means the empty store.
pub fn blank_images_are_empty()
    ensures { BlankImagesAreEmpty }
{}
