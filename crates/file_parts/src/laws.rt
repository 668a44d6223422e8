//! The laws of texts that are written and read, each as the postcondition of a function.

ghost use Rattle.file_parts.specs.Laws.{TextsAreRead};
ghost use Rattle.file_parts.specs.ExactLaws.{ExactFilesAreSpelled, ExactFoldersPackBack, ExactTextsAreRead, PackedFoldersAreExact};

/// States that the text of a database is read as that database.
#[tactic(auto, using(crate::proofs::TextLaws::texts_are_read))]
pub fn texts_are_read()
    ensures { TextsAreRead }
{}

/// States that a file without fault is the bytes of what it is exactly. So an exact folder, which
/// has all of that, loses nothing of the file.
pub fn exact_files_are_spelled()
    ensures { ExactFilesAreSpelled }
{}

/// States that the text of an exact folder is read as what it says.
pub fn exact_texts_are_read()
    ensures { ExactTextsAreRead }
{}

/// States that `pack` after `unpack --exact` is the identity, for each file without fault.
pub fn exact_folders_pack_back()
    ensures { ExactFoldersPackBack }
{}

/// States that the file that `pack` makes of an exact folder is read as exactly that of the folder,
/// also if the folder was edited.
pub fn packed_folders_are_exact()
    ensures { PackedFoldersAreExact }
{}
