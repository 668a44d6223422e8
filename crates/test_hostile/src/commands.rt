//! Each allocation of a command, and of a line for what is refused, fails in turn: that is what it
//! says, and nothing was written.

use crate::stores::{WRITTEN, input_files};
use file_commands::say_line_fault;
use heap_model::Bytes;
use image_commands::{check_region_from, cmd_new_from};
use map_commands::draw_region_from;
use palm_script::{LineFault, ScriptFault};
use palm_text::Counted;
use palmheap_program::run_region_from;
use program_io::Status;
use program_io::command_line::Form;
use raw_region::Region;
use std::alloc::Global;
use std::test::*;
use store_commands::cmd_migrate_from;
use test_support::{BLANK, ONE_DATABASE, RefusesOne, bytes_of, holds};

/// What takes memory and prints.
enum Trial {
    /// An image of this size.
    New(u32),
    /// The check of a listed image.
    Check(&'static str),
    /// The run of a script on a listed image.
    Run(&'static str, &'static str),
    /// The migration of a listed image.
    Migrate(&'static str),
    /// The picture of a listed image as SVG.
    Draw(&'static str),
    /// The line for a refused script.
    BadLine,
}

const FAULT: LineFault = LineFault {
    line: 12,
    fault: ScriptFault::UnknownCommand,
};

/// What a command writes to.
#[derive(Drop)]
struct Outputs {
    image: Counted<Vec<u8>>,
    files: Vec<Bytes>,
    text: Counted<Vec<u8>>,
}

impl Outputs {
    fn new(alloc: Global) -> Outputs {
        Outputs {
            image: Counted::new(Vec::new(alloc)),
            files: Vec::new(alloc),
            text: Counted::new(Vec::new(alloc)),
        }
    }

    /// Whether nothing was written.
    fn are_empty(self) -> bool {
        let Outputs { image, files, text } = self;
        image.into_inner().is_empty() && text.into_inner().is_empty() && files.is_empty()
    }
}

/// The status, and whether nothing was written.
fn tried(memory: &RefusesOne, alloc: Global, trial: &Trial) -> Result<(Status, bool), Fail> {
    let mut outputs = Outputs::new(alloc);
    let status = status_of(memory, alloc, trial, &mut outputs)?;
    Ok((status, outputs.are_empty()))
}

fn status_of(
    memory: &RefusesOne,
    alloc: Global,
    trial: &Trial,
    outputs: &mut Outputs,
) -> Result<Status, Fail> {
    match trial {
        Trial::New(size) => Ok(new_with(memory, *size, outputs)),
        Trial::Check(listing) => check_with(memory, alloc, listing, outputs),
        Trial::Run(listing, text) => run_with(memory, alloc, listing, text, outputs),
        Trial::Migrate(listing) => migrate_with(memory, alloc, listing, outputs),
        Trial::Draw(listing) => draw_with(memory, alloc, listing, outputs),
        Trial::BadLine => Ok(say_line_fault(memory, FAULT, &mut outputs.text)),
    }
}

fn new_with(memory: &RefusesOne, size: u32, outputs: &mut Outputs) -> Status {
    cmd_new_from(memory, size, 4, &mut outputs.image, &mut outputs.text)
}

fn check_with(
    memory: &RefusesOne,
    alloc: Global,
    listing: &str,
    outputs: &mut Outputs,
) -> Result<Status, Fail> {
    let image = bytes_of(alloc, listing)?;
    let Ok(region) = Region::copied_from(memory, &image) else {
        return Ok(Status::NoMemory);
    };
    Ok(check_region_from(memory, &region, Form::Text, &mut outputs.text))
}

fn run_with(
    memory: &RefusesOne,
    alloc: Global,
    listing: &str,
    text: &str,
    outputs: &mut Outputs,
) -> Result<Status, Fail> {
    let image = bytes_of(alloc, listing)?;
    let inputs = input_files(alloc)?;
    let Ok(region) = Region::copied_from(memory, &image) else {
        return Ok(Status::NoMemory);
    };
    Ok(run_region_from(
        memory,
        region,
        text.as_bytes(),
        &inputs,
        &mut outputs.image,
        &mut outputs.files,
        &mut outputs.text,
    ))
}

fn migrate_with(
    memory: &RefusesOne,
    alloc: Global,
    listing: &str,
    outputs: &mut Outputs,
) -> Result<Status, Fail> {
    let image = bytes_of(alloc, listing)?;
    Ok(cmd_migrate_from(memory, &image, &mut outputs.image, &mut outputs.text))
}

fn draw_with(
    memory: &RefusesOne,
    alloc: Global,
    listing: &str,
    outputs: &mut Outputs,
) -> Result<Status, Fail> {
    let image = bytes_of(alloc, listing)?;
    let Ok(region) = Region::copied_from(memory, &image) else {
        return Ok(Status::NoMemory);
    };
    Ok(draw_region_from(memory, &region, &mut outputs.image, &mut outputs.text))
}

/// An image with a chain of tables: its migration takes no memory.
const ONE_CHAIN: &str = "50484932 00000088 0004 0000 00000000 00*24 80000060 00*92";

/// The number of allocations of each, and its status if none fails.
static TRIALS: [(Trial, u32, Status); 14] = [
    (Trial::New(128), 2, Status::Done),
    (Trial::New(100), 0, Status::BadWords),
    (Trial::Check(ONE_DATABASE), 6, Status::Done),
    (Trial::Check(""), 0, Status::Refused),
    (Trial::Run(BLANK, WRITTEN), 36, Status::Done),
    (
        Trial::Run(BLANK, "bind a 16\nbound a\n"),
        10,
        Status::Refused,
    ),
    (Trial::Run("00", WRITTEN), 2, Status::Refused),
    (Trial::Migrate(ONE_DATABASE), 6, Status::Done),
    (Trial::Migrate(BLANK), 6, Status::Done),
    (Trial::Migrate(ONE_CHAIN), 4, Status::Done),
    (Trial::Migrate("00"), 2, Status::Refused),
    (Trial::Draw(ONE_DATABASE), 16, Status::Done),
    (Trial::Draw("00"), 2, Status::Refused),
    (Trial::BadLine, 1, Status::Refused),
];

/// The outcome of a command if the allocation after the given number fails, or none does.
fn check_behind(
    alloc: Global,
    number: usize,
    trial: &Trial,
    before: u32,
    wanted: Status,
    is_refused: bool,
) -> Result<(), Fail> {
    let memory = RefusesOne::behind(alloc, before);
    let (status, is_empty) = tried(&memory, alloc, trial)?;
    holds(
        format_args!("trial {number}, after {before}: {status:?}"),
        status == wanted && is_empty == is_refused && memory.has_refused() == is_refused,
    )
}

fn check_growths(
    alloc: Global,
    number: usize,
    trial: &Trial,
    growths: u32,
    status: Status,
) -> Result<(), Fail> {
    for before in 0..growths {
        check_behind(alloc, number, trial, before, Status::NoMemory, true)?;
    }
    check_behind(alloc, number, trial, growths, status, false)
}

#[test]
fn each_growth_of_a_command_is_refused_in_turn(rt: HostRuntime) -> Result<(), Fail> {
    for (number, (trial, growths, status)) in TRIALS.iter().enumerate() {
        check_growths(rt.alloc(), number, trial, *growths, *status)?;
    }
    Ok(())
}
