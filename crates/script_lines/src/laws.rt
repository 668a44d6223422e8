//! The laws that printed texts are read back, each as the postcondition of a function.

ghost use Rattle.script_lines.specs.Laws.{FourBytesAreReadBack, TextsAreReadBack, TextsAreWords};

/// A text is printed as one word, which reads as that text.
pub fn texts_are_read_back()
    ensures words { TextsAreWords }
    ensures texts { TextsAreReadBack }
{}

/// A type or a creator is printed as a word, which reads as that type or creator.
pub fn four_bytes_are_read_back()
    ensures { FourBytesAreReadBack }
{}
