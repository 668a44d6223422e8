//! The laws, each as the postcondition of a function.

ghost use Rattle.pdb_format.specs.Laws.{FilesAreRead, FilesAreReadOnce};
ghost use Rattle.pdb_format.specs.Laws.{WrittenFilesAreRead, WrittenFilesHaveTheirSize};
ghost use Rattle.pdb_format.specs.Laws.{ContentsAreWritable, ContentsAreShort};

/// States that each file of bytes without fault is read as a database.
pub fn files_are_read()
    ensures { FilesAreRead }
{}

/// States that no file is read as two databases.
pub fn files_are_read_once()
    ensures { FilesAreReadOnce }
{}

/// States that the file written for a database is read as that database, with no record busy.
pub fn written_files_are_read()
    ensures { WrittenFilesAreRead }
{}

/// States that the file written for a database has the size of its header, its entries and its
/// blocks.
pub fn written_files_have_their_size()
    ensures { WrittenFilesHaveTheirSize }
{}

/// States that the content of each database in an accepted image can be written to a file.
pub fn contents_are_writable()
    ensures { ContentsAreWritable }
{}

/// States that this file is at most as long as the image and the longest part before the first
/// block together.
pub fn contents_are_short()
    ensures { ContentsAreShort }
{}
