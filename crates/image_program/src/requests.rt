//! The requests of the words of the command line.

ghost use Rattle.std.specs.Prelude.{◌≡◌, ◌≢◌, ◌⊎◌, ◌↔◌, None};
ghost use Rattle.clap.specs.Values.{kind_of};

use crate::meanings::explain;
use canonical_file::SalvagedIds;
use clap::error::ErrorKind;
use command_files::{STANDARD_OUTPUT, fail};
use file_commands::{
    Asked, Report, canonical, canonical_kept, get, pack, put, report_files, salvage, unpack,
};
use file_parts::{FolderForm, Keep};
use image_commands::{check, new};
use program_io::command_line::{self, BaseRequest, Form, NamedFiles, Request};
use program_io::{KeptWords, Status, report_outcome};
use std::io::Input;
use std::rt::Files;

/// Fulfils the request of the words of the command line, if its command is one of this crate. The
/// first word is the program's own name. If the run fails, standard error has the reason.
///
/// No contract can relate the status to the files. The stored runs of `test_program` test `fulfil`
/// and `answer`, which `palmheap_program` calls too.
pub fn run<R: Files + Input + Print + Eprint + AllocGlobal>(rt: &R, words: &[String]) -> Status {
    match command_line::parse(rt.alloc(), words) {
        Ok(Request::Base(request)) => fulfil(rt, request),
        Ok(_) => fail_to_find(rt),
        Err(error) => answer(rt, &error),
    }
}

/// Runs the command of a request.
pub fn fulfil<R: Files + Input + Print + Eprint + AllocGlobal>(
    rt: &R,
    request: BaseRequest,
) -> Status {
    match request {
        BaseRequest::New { size, slots, out } => new(rt, size, slots, out),
        BaseRequest::Check { image, form } => check(rt, image, form),
        BaseRequest::Explain { word } => explain(rt, word),
        BaseRequest::List { form, files } => print_reports(rt, listing_as(form), &files),
        BaseRequest::Canonical { file, out, keep } => canonical_as(rt, file, out, keep),
        BaseRequest::Changes { files, keep } => print_reports(rt, changes_as(keep), &files),
        BaseRequest::Salvage {
            file,
            out,
            exact_ids,
        } => salvage(rt, file, ids_of(exact_ids), out),
        BaseRequest::Get { file, block, id } => get(rt, file, block, id),
        BaseRequest::Put {
            file,
            block,
            part,
            out,
        } => put(rt, file, block, part, out),
        BaseRequest::Unpack {
            file,
            folder,
            exact,
        } => unpack(rt, file, folder, form_of(exact)),
        BaseRequest::Pack { folder, out } => pack(rt, folder, out),
    }
}

/// Returns the form of a folder.
fn form_of(exact: bool) -> FolderForm {
    if exact {
        FolderForm::Exact
    } else {
        FolderForm::Canonical
    }
}

/// Returns which IDs the records of a salvaged file get.
fn ids_of(exact: bool) -> SalvagedIds {
    if exact {
        SalvagedIds::Exact
    } else {
        SalvagedIds::Distinct
    }
}

/// Returns the things that a rewritten file keeps.
fn keep_of(words: KeptWords) -> Keep
    ensures ids { result.ids ≡ words.ids }
    ensures filler { result.filler ≡ words.filler }
    ensures order { result.order ≡ words.order }
{
    Keep {
        ids: words.ids,
        filler: words.filler,
        order: words.order,
    }
}

/// Runs `canonical`, and keeps what the words of `--keep` name, if there are any.
fn canonical_as<R: Files + Input + Print + Eprint + AllocGlobal>(
    rt: &R,
    file: &str,
    out: &str,
    keep: Option<KeptWords>,
) -> Status
    ensures { result ≢ Status.BadWords }
{
    match keep {
        Some(words) => canonical_kept(rt, keep_of(words), file, out),
        None => canonical(rt, file, out),
    }
}

/// Returns what `canonical --check` prints with these words of `--keep`.
fn changes_as(keep: Option<KeptWords>) -> Report
    ensures { (result ≡ Report.Changes) ↔ (keep ≡ None) }
{
    match keep {
        Some(words) => Report::Left(keep_of(words)),
        None => Report::Changes,
    }
}

/// Returns what `list` prints in this form.
fn listing_as(form: Form) -> Report
    ensures text { (result ≡ Report.Listing) ↔ (form ≡ Form.Text) }
    ensures json { (result ≡ Report.Document) ↔ (form ≡ Form.Json) }
{
    match form {
        Form::Text => Report::Listing,
        Form::Json => Report::Document,
    }
}

/// Prints the reports of some files.
fn print_reports<R: Files + Input + Print + Eprint + AllocGlobal>(
    rt: &R,
    report: Report,
    files: &NamedFiles<'_>,
) -> Status
    ensures { result ≢ Status.BadWords }
{
    report_files(
        rt,
        Asked {
            report,
            paths: files.paths.as_slice(),
            named: files.named,
        },
    )
}

/// Reports on standard error that the command is one of the whole program.
fn fail_to_find<R: Eprint>(rt: &R) -> Status
    ensures { result ≡ Status.BadWords }
{
    let _ = eprintln!(rt;
        "error: this program lacks the command; 'palmheap --build' builds the one that has it"
    );
    Status::BadWords
}

/// Prints the text for words without a command: their error, or the help or the version.
pub fn answer<R: Print + Eprint>(rt: &R, error: &clap::Error) -> Status
    ensures statuses { (result ≡ Status.Done) ⊎ (result ≡ Status.BadWords)
        ⊎ (result ≡ Status.WriteFault) ⊎ (result ≡ Status.NoMemory) }
    ensures no_memory { kind_of error.now ≡ ErrorKind.OutOfMemory → result ≡ Status.NoMemory }
    ensures shown { (kind_of error.now ≡ ErrorKind.DisplayHelp)
        ⊎ (kind_of error.now ≡ ErrorKind.DisplayVersion)
        → (result ≡ Status.Done) ⊎ (result ≡ Status.WriteFault) }
    ensures bad_words { (kind_of error.now ≢ ErrorKind.OutOfMemory)
        → (kind_of error.now ≢ ErrorKind.DisplayHelp)
        → (kind_of error.now ≢ ErrorKind.DisplayVersion) → result ≡ Status.BadWords }
{
    if error.kind() == ErrorKind::OutOfMemory {
        return fail(rt, Status::NoMemory);
    }
    match error.print(rt) {
        _ if error.use_stderr() => Status::BadWords,
        Ok(()) => Status::Done,
        Err(reason) => {
            report_outcome(rt, Status::WriteFault, &[(STANDARD_OUTPUT, Some(reason))]);
            Status::WriteFault
        }
    }
}
