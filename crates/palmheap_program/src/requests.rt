//! The requests of the words of the command line.

use crate::ending::Ending;
use crate::scripts::{RunPaths, run_script};
use crate::stores::{databases, export, import, migrate};
use image_program::answer;
use map_commands::{draw, map};
use program_io::command_line::{self, Request};
use std::io::Input;
use std::rt::Files;
use store_commands::ImageChoice;

/// Fulfils the request of the words of the command line. The first word is the program's own name.
/// If the run fails, standard error has the reason.
///
/// No contract can relate the status to the files. The stored runs of `test_program` test it.
pub fn run<R: Files + Input + Print + Eprint + AllocGlobal>(rt: &R, words: &[String]) -> Ending {
    match command_line::parse(rt.alloc(), words) {
        Ok(request) => fulfil(rt, request),
        Err(error) => Ending::Ended(answer(rt, &error)),
    }
}

/// Runs the command of a request.
fn fulfil<R: Files + Input + Print + Eprint + AllocGlobal>(rt: &R, request: Request) -> Ending {
    let status = match request {
        Request::Base(request) => image_program::fulfil(rt, request),
        Request::Run {
            image,
            script,
            out,
            files,
            shown,
        } => {
            let paths = RunPaths {
                image,
                script,
                files: files.as_slice(),
                out,
            };
            return run_script(rt, paths, shown);
        }
        Request::Migrate { image, out } => migrate(rt, image, out),
        Request::Map { image, out: None } => map(rt, image),
        Request::Map {
            image,
            out: Some(out),
        } => draw(rt, image, out),
        Request::Databases { image, form } => databases(rt, image, form),
        Request::Export {
            image,
            folder,
            names,
        } => export(rt, image, folder, names.as_slice()),
        Request::Import {
            out,
            size,
            slots,
            files,
        } => import(rt, out, ImageChoice { size, slots }, files.as_slice()),
    };
    Ending::Ended(status)
}
