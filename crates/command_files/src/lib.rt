//! The files that all commands read and write, and what they report of them on standard error.
//!
//! No contract can state the content of a file or a terminal. So most clauses here state only the
//! statuses with which a function ends. The stored runs of `test_program` show which files are read
//! and written. Only `read_region_from`, which works over any reader, states what is read.
//!
//! | module | does |
//! |---|---|
//! | `files` | reads and writes files |
//! | `region_input` | reads an image into a region |
//! | `replacing` | output files that don't replace a file of the other kind |
//! | `faults` | reports why a command did not start |
//! | `line_hints` | reports what is wrong with a faulty line |
//! | `buffered` | returns and reports the first error of a buffered writer |
//! | `outputs` | opens an image for output, closes and reports the outputs of a command |
//! | `suggestions` | reports what an input looks like, which command explains a fault |
#![tactic(auto)]

mod buffered;
mod faults;
mod files;
mod line_hints;
mod outputs;
mod region_input;
mod replacing;
mod suggestions;

pub use buffered::{buffered_fault, report_buffered};
pub use faults::{
    STANDARD_ERROR, STANDARD_INPUT, STANDARD_OUTPUT, STANDARD_STREAM, fail, fail_to_read,
    input_name,
};
pub use files::{
    on_image, read_file_or_input_within, read_file_within, read_files, read_image,
    report_left_files, write_file, write_files,
};
pub use line_hints::report_line_hint;
pub use outputs::{close_output, image_output, report_image, report_output, report_outputs};
pub use region_input::{SizedFault, read_region_from};
pub use replacing::{OutputKind, output_for, output_for_picture};
pub use suggestions::{suggest_check, suggest_checks, suggest_explain, suggest_list};
