//! Returns the request of the words that `clap` has matched.
//!
//! Start with `requested`.

use crate::command_line::{BaseRequest, Form, NamedFiles, Request, Shown};
use crate::kept_words::{KeptWords, kept_words};
use clap::ArgMatches;
use std::alloc::{AllocError, Global};

/// Returns the request of the matches of `palmheap`. Each argument of a command is required, except
/// FILE of `run`, NAME, OUT with `--check` and the options, so nothing is missing.
pub(crate) fn requested<'a>(
    alloc: Global,
    matches: &ArgMatches<'a>,
) -> Result<Option<Request<'a>>, AllocError> {
    match matches.subcommand() {
        Some(("run", given)) => Ok(run_requested(given, words_of(alloc, given, "FILE")?)),
        Some(("export", given)) => Ok(export_requested(given, words_of(alloc, given, "NAME")?)),
        Some(("import", given)) => Ok(import_requested(given, words_of(alloc, given, "FILE")?)),
        Some(("list", given)) => Ok(Some(list_requested(given, words_of(alloc, given, "FILE")?))),
        Some(("canonical", given)) => canonical_requested(alloc, given),
        Some((name, given)) => Ok(image_requested(name, given)),
        None => Ok(None),
    }
}

/// Returns the request of a command that takes no list of words.
fn image_requested<'a>(name: &str, given: &ArgMatches<'a>) -> Option<Request<'a>> {
    match name {
        "migrate" => migrate_requested(given),
        "map" => map_requested(given),
        "databases" => databases_requested(given),
        _ => Some(Request::Base(base_requested(name, given)?)),
    }
}

/// Returns the request of a command of the program `palmheap_images`.
fn base_requested<'a>(name: &str, given: &ArgMatches<'a>) -> Option<BaseRequest<'a>> {
    match name {
        "new" => new_requested(given),
        "check" => check_requested(given),
        "salvage" => salvage_requested(given),
        "get" => get_requested(given),
        "put" => put_requested(given),
        "unpack" => unpack_requested(given),
        "pack" => pack_requested(given),
        "explain" => explain_requested(given),
        _ => None,
    }
}

fn new_requested<'a>(given: &ArgMatches<'a>) -> Option<BaseRequest<'a>> {
    Some(BaseRequest::New {
        size: given.get_one::<u32>("SIZE")?,
        slots: given.get_one::<u16>("SLOTS")?,
        out: given.get_str("OUT")?,
    })
}

fn check_requested<'a>(given: &ArgMatches<'a>) -> Option<BaseRequest<'a>> {
    Some(BaseRequest::Check {
        image: given.get_str("IMAGE")?,
        form: form_of(given),
    })
}

/// Returns the words of an argument that takes several.
fn words_of<'a>(
    alloc: Global,
    given: &ArgMatches<'a>,
    name: &str,
) -> Result<Vec<&'a str>, AllocError> {
    Vec::from_slice(alloc, given.get_strs(name).unwrap_or(&[]))
}

fn run_requested<'a>(given: &ArgMatches<'a>, files: Vec<&'a str>) -> Option<Request<'a>> {
    Some(Request::Run {
        image: given.get_str("IMAGE")?,
        script: given.get_str("SCRIPT")?,
        out: given.get_str("OUT")?,
        files,
        shown: Shown {
            numbers: given.get_flag("NUMBERS"),
            strict: given.get_flag("STRICT"),
        },
    })
}

fn migrate_requested<'a>(given: &ArgMatches<'a>) -> Option<Request<'a>> {
    Some(Request::Migrate {
        image: given.get_str("IMAGE")?,
        out: given.get_str("OUT")?,
    })
}

fn map_requested<'a>(given: &ArgMatches<'a>) -> Option<Request<'a>> {
    Some(Request::Map {
        image: given.get_str("IMAGE")?,
        out: given.get_str("OUT"),
    })
}

fn list_requested<'a>(given: &ArgMatches<'a>, paths: Vec<&'a str>) -> Request<'a> {
    Request::Base(BaseRequest::List {
        form: form_of(given),
        files: named_files(given, paths),
    })
}

/// Returns the files whose paths are printed if that is asked for, or if there are several.
fn named_files<'a>(given: &ArgMatches<'a>, paths: Vec<&'a str>) -> NamedFiles<'a> {
    let named = given.get_flag("PATH") || paths.len() > 1;
    NamedFiles { paths, named }
}

/// Returns the request of `canonical`. With `--check` the words for OUT are more files.
fn canonical_requested<'a>(
    alloc: Global,
    given: &ArgMatches<'a>,
) -> Result<Option<Request<'a>>, AllocError> {
    let Some(file) = given.get_str("FILE") else {
        return Ok(None);
    };
    let others = given.get_strs("OUT").unwrap_or(&[]);
    if !given.get_flag("CHECK") {
        return Ok(rewrite_of(given, file, others));
    }
    let mut paths = Vec::from_slice(alloc, &[file])?;
    paths.extend_from_slice(others)?;
    Ok(Some(Request::Base(BaseRequest::Changes {
        files: named_files(given, paths),
        keep: kept_of(given),
    })))
}

/// Returns the request to rewrite a file. `parse` refuses more words than one for OUT.
fn rewrite_of<'a>(given: &ArgMatches<'a>, file: &'a str, outs: &[&'a str]) -> Option<Request<'a>> {
    let out = *outs.first()?;
    let keep = kept_of(given);
    Some(Request::Base(BaseRequest::Canonical { file, out, keep }))
}

/// Returns the things that the list of `--keep` names, if it is there. `parse` refuses other lists.
fn kept_of(given: &ArgMatches<'_>) -> Option<KeptWords> {
    kept_words(given.get_str("KEEP")?)
}

fn salvage_requested<'a>(given: &ArgMatches<'a>) -> Option<BaseRequest<'a>> {
    Some(BaseRequest::Salvage {
        file: given.get_str("FILE")?,
        out: given.get_str("OUT")?,
        exact_ids: given.get_flag("EXACT_IDS"),
    })
}

fn get_requested<'a>(given: &ArgMatches<'a>) -> Option<BaseRequest<'a>> {
    Some(BaseRequest::Get {
        file: given.get_str("FILE")?,
        block: given.get_str("BLOCK")?,
        id: given.get_str("ID"),
    })
}

fn put_requested<'a>(given: &ArgMatches<'a>) -> Option<BaseRequest<'a>> {
    Some(BaseRequest::Put {
        file: given.get_str("FILE")?,
        block: given.get_str("BLOCK")?,
        part: given.get_str("PART")?,
        out: given.get_str("OUT")?,
    })
}

fn unpack_requested<'a>(given: &ArgMatches<'a>) -> Option<BaseRequest<'a>> {
    Some(BaseRequest::Unpack {
        file: given.get_str("FILE")?,
        folder: given.get_str("DIR")?,
        exact: given.get_flag("EXACT"),
    })
}

fn pack_requested<'a>(given: &ArgMatches<'a>) -> Option<BaseRequest<'a>> {
    Some(BaseRequest::Pack {
        folder: given.get_str("DIR")?,
        out: given.get_str("FILE")?,
    })
}

fn databases_requested<'a>(given: &ArgMatches<'a>) -> Option<Request<'a>> {
    Some(Request::Databases {
        image: given.get_str("IMAGE")?,
        form: form_of(given),
    })
}

/// Returns the form that is asked for.
fn form_of(given: &ArgMatches) -> Form {
    if given.get_flag("JSON") {
        Form::Json
    } else {
        Form::Text
    }
}

fn export_requested<'a>(given: &ArgMatches<'a>, names: Vec<&'a str>) -> Option<Request<'a>> {
    Some(Request::Export {
        image: given.get_str("IMAGE")?,
        folder: given.get_str("DIR")?,
        names,
    })
}

fn import_requested<'a>(given: &ArgMatches<'a>, files: Vec<&'a str>) -> Option<Request<'a>> {
    Some(Request::Import {
        out: given.get_str("OUT")?,
        size: given.get_one::<u32>("SIZE"),
        slots: given.get_one::<u16>("SLOTS"),
        files,
    })
}

fn explain_requested<'a>(given: &ArgMatches<'a>) -> Option<BaseRequest<'a>> {
    Some(BaseRequest::Explain {
        word: asked_for(given.get_strs("WORD")?)?,
    })
}

/// Returns the name that is to be explained. That is the first word, but in a printed line the word
/// after those of `words_before`. A line may be one word, with spaces in it.
fn asked_for<'a>(words: &[&'a str]) -> Option<&'a str> {
    let first = *words.first()?;
    match first.split_once(' ') {
        Some((start, rest)) => Some(name_in(first, start, rest)),
        None => Some(name_among(first, words)),
    }
}

/// Returns the name among the words of a line, of which `first` is the first. If the line ends
/// before the name, it is the first word.
fn name_among<'a>(first: &'a str, words: &[&'a str]) -> &'a str {
    let second = words.get(1).copied().unwrap_or("");
    words
        .get(words_before(first, second))
        .copied()
        .unwrap_or(first)
}

/// Returns the end of a line that begins with the name. The line begins with the word `start`, and
/// the rest follows a space.
fn name_in<'a>(line: &'a str, start: &str, rest: &'a str) -> &'a str {
    let (second, after) = rest.split_once(' ').unwrap_or((rest, line));
    match words_before(start, second) {
        0 => line,
        1 => rest,
        _ => after,
    }
}

/// Returns how many words come before the name in a printed line with these first two words. One
/// comes before it after `bad`, `refused` and `changes`. Two come before it in a line with a
/// number: after `line` and its number, or after a number and `refused`.
fn words_before(first: &str, second: &str) -> usize {
    match (first, second) {
        ("bad" | "refused" | "changes", _) => 1,
        ("line", _) | (_, "refused") => 2,
        _ => 0,
    }
}
