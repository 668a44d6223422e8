//! The laws about salvaged files, each as the postcondition of a function.

ghost use Rattle.canonical_file.specs.SalvageLaws.{GoodFilesAreCanonical, GoodFilesHaveNoLine, SalvagedEntriesAreTheFiles, SalvagedFilesAreRead, SalvagedFilesHaveNoFault};

/// States that a file without fault is salvaged as its canonical form, if the IDs are distinct.
pub fn good_files_are_canonical()
    ensures { GoodFilesAreCanonical }
{}

/// States that a file has no fault exactly if there is no line about it.
pub fn good_files_have_no_line()
    ensures { GoodFilesHaveNoLine }
{}

/// States that a salvaged file has no fault.
pub fn salvaged_files_have_no_fault()
    ensures { SalvagedFilesHaveNoFault }
{}

/// States that a salvaged file is read as the database that is salvaged, if the IDs are distinct.
pub fn salvaged_files_are_read()
    ensures { SalvagedFilesAreRead }
{}

/// States that each salvaged entry is one of the file.
pub fn salvaged_entries_are_the_files()
    ensures { SalvagedEntriesAreTheFiles }
{}
