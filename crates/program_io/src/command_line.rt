//! Reads the words of the command line. The commands are in `command_rows`.
//!
//! Start with `parse`, which returns the request of the words.

use crate::command_rows::{Argument, COMMANDS, CommandRow, Count};
use crate::help_texts::{ABOUT, IMAGES};
use crate::kept_words::{KeptWords, kept_words};
use crate::requested::requested;
use clap::error::{Error, ErrorKind};
use clap::{Arg, ArgAction, ArgMatches, Command};
use std::alloc::{AllocError, Global};

/// The form in which facts are printed.
#[derive(Clone, Copy, Debug, PartialEq, Eq)]
pub enum Form {
    /// Lines of text.
    Text,
    /// One JSON document.
    Json,
}

/// The request of the words.
#[derive(Drop)]
pub enum Request<'a> {
    /// A command that the program `palmheap_images` has too.
    Base(BaseRequest<'a>),
    Run {
        image: &'a str,
        script: &'a str,
        out: &'a str,
        /// The files that lines of the script import, in order.
        files: Vec<&'a str>,
        shown: Shown,
    },
    Migrate {
        image: &'a str,
        out: &'a str,
    },
    Map {
        image: &'a str,
        /// The file for the picture as SVG. Without one it is printed as text.
        out: Option<&'a str>,
    },
    Databases {
        image: &'a str,
        form: Form,
    },
    Export {
        image: &'a str,
        folder: &'a str,
        /// The names of the databases, or none for all of them.
        names: Vec<&'a str>,
    },
    Import {
        out: &'a str,
        size: Option<u32>,
        slots: Option<u16>,
        files: Vec<&'a str>,
    },
}

/// The request of a command of the smaller program `palmheap_images`.
#[derive(Drop)]
pub enum BaseRequest<'a> {
    New {
        size: u32,
        slots: u16,
        out: &'a str,
    },
    Check {
        image: &'a str,
        form: Form,
    },
    List {
        form: Form,
        files: NamedFiles<'a>,
    },
    Canonical {
        file: &'a str,
        out: &'a str,
        /// The words of `--keep`, if it is there.
        keep: Option<KeptWords>,
    },
    /// `canonical --check`.
    Changes {
        files: NamedFiles<'a>,
        keep: Option<KeptWords>,
    },
    Salvage {
        file: &'a str,
        out: &'a str,
        /// Records keep the IDs of the damaged file.
        exact_ids: bool,
    },
    Get {
        file: &'a str,
        /// The index of an entry, `app`, `sort`, or the type of a resource.
        block: &'a str,
        /// The id of the resource.
        id: Option<&'a str>,
    },
    Put {
        file: &'a str,
        /// The index of an entry, `app` or `sort`.
        block: &'a str,
        /// The file with the block's new bytes.
        part: &'a str,
        out: &'a str,
    },
    Unpack {
        file: &'a str,
        folder: &'a str,
        /// The folder keeps all of the file.
        exact: bool,
    },
    Pack {
        folder: &'a str,
        out: &'a str,
    },
    Explain {
        word: &'a str,
    },
}

/// The files of a command that prints something for each of them.
#[derive(Drop)]
pub struct NamedFiles<'a> {
    pub paths: Vec<&'a str>,
    /// Whether the path of each file is printed. It is if there are several files.
    pub named: bool,
}

/// How the replies of a script are printed, and what a refused line means for the exit status.
#[derive(Clone, Copy, Debug, PartialEq, Eq)]
pub struct Shown {
    /// Each reply follows the number of its line.
    pub numbers: bool,
    /// The exit status is 5 if a line is refused.
    pub strict: bool,
}

/// Why the output can't be `-`.
const NO_STREAM: &str = "\
the output can't be '-': standard output has what is printed. A file of that name is './-'";

/// Why `-` may be there once.
const ONE_INPUT: &str = "only one of IMAGE, SCRIPT and FILE can be '-', standard input";

/// Why `-` may be there once in `put`.
const ONE_FILE: &str = "only one of FILE and PART can be '-', standard input";

/// Returns the request of the words of a command line. The first word is the program's own name.
///
/// # Errors
///
/// - the error of `clap`: if the words are no valid request, or ask for the help or the version.
pub fn parse<'a>(alloc: Global, words: &'a [String]) -> Result<Request<'a>, Error> {
    // No other function names the rows: they are long, and it would take as long to prove as this
    // one.
    let rows: &[CommandRow] = &COMMANDS;
    let mut command = palmheap(alloc, rows)?;
    parse_by(alloc, rows, &mut command, words)
}

fn parse_by<'a>(
    alloc: Global,
    rows: &[CommandRow],
    command: &mut Command<'a>,
    words: &'a [String],
) -> Result<Request<'a>, Error> {
    let matches = command.try_get_matches_from_mut(words)?;
    if let Some(text) = number_fault(alloc, &matches)? {
        return Err(usage_error(
            alloc,
            rows,
            &matches,
            ErrorKind::ValueValidation,
            text.as_str(),
        )?);
    }
    if let Some(text) = keep_fault(alloc, &matches)? {
        return Err(usage_error(
            alloc,
            rows,
            &matches,
            ErrorKind::ValueValidation,
            text.as_str(),
        )?);
    }
    if let Some(text) = extra_word(alloc, &matches)? {
        return Err(usage_error(
            alloc,
            rows,
            &matches,
            ErrorKind::UnknownArgument,
            text.as_str(),
        )?);
    }
    let Some(request) = requested(alloc, &matches)? else {
        return Err(command.error(ErrorKind::MissingSubcommand, "no command was given")?);
    };
    match stream_fault(&request) {
        Some(text) => Err(usage_error(alloc, rows, &matches, ErrorKind::ArgumentConflict, text)?),
        None => Ok(request),
    }
}

/// Returns an error with the usage of the command that the words name.
fn usage_error(
    alloc: Global,
    rows: &[CommandRow],
    matches: &ArgMatches<'_>,
    kind: ErrorKind,
    text: &str,
) -> Result<Error, AllocError> {
    let mut named = described(alloc);
    if let Some((name, _)) = matches.subcommand() {
        for row in rows {
            if row.name == name {
                named = titled(alloc, row)?;
            }
        }
    }
    named.error(kind, text)
}

/// Returns the command of a row, with the program's name before its own.
fn titled<'a>(alloc: Global, row: &CommandRow) -> Result<Command<'a>, AllocError> {
    let name = row.name;
    let title = format!(in alloc; "palmheap {name}")?;
    command(alloc, row)?.bin_name(title.as_str())
}

/// A number among the words: its argument, the greatest number that is read, and the range of those
/// that an image can have.
#[derive(Clone, Copy)]
struct NumberRow {
    argument: &'static str,
    most: u32,
    range: &'static str,
}

const NUMBERS: [NumberRow; 2] = [
    NumberRow {
        argument: "SIZE",
        most: u32::MAX,
        range: "64..=16777208",
    },
    NumberRow {
        argument: "SLOTS",
        most: u16::MAX as u32,
        range: "1..=65535",
    },
];

/// Returns why SIZE or SLOTS can't be read, if one can't. Whether there is an image of the numbers
/// that are read, `new` and `import` find out.
fn number_fault(alloc: Global, matches: &ArgMatches<'_>) -> Result<Option<String>, AllocError> {
    let Some((_, given)) = matches.subcommand() else {
        return Ok(None);
    };
    for row in &NUMBERS {
        if let Some(word) = given.get_str(row.argument) {
            if !is_number(word, row.most) {
                return Ok(Some(number_text(alloc, row, word)?));
            }
        }
    }
    Ok(None)
}

/// Returns why a word isn't a number of a row.
fn number_text(alloc: Global, row: &NumberRow, word: &str) -> Result<String, AllocError> {
    let argument = row.argument;
    if word.bytes().all(|byte| byte.is_ascii_digit()) {
        format!(in alloc;
            "invalid value '{word}' for '<{argument}>': {word} is not in {}",
            row.range
        )
    } else {
        format!(in alloc;
            "invalid value '{word}' for '<{argument}>': {word} is not a decimal number"
        )
    }
}

/// Returns whether a word is a number, and at most `most`.
fn is_number(word: &str, most: u32) -> bool {
    match word.parse::<u32>() {
        Ok(number) => number <= most,
        Err(_) => false,
    }
}

/// Returns why the list of `--keep` can't be read, if it can't.
fn keep_fault(alloc: Global, matches: &ArgMatches<'_>) -> Result<Option<String>, AllocError> {
    let Some((_, given)) = matches.subcommand() else {
        return Ok(None);
    };
    match given.get_str("KEEP") {
        Some(list) if kept_words(list).is_none() => Ok(Some(format!(in alloc;
            "invalid value '{list}' for '--keep <KEEP>': it must be a list of the words ids, filler \
                and order, each at most once, with commas between them and no spaces"
        )?)),
        _ => Ok(None),
    }
}

/// Returns that a word is one too many, if `canonical` has one after OUT without `--check`.
fn extra_word(alloc: Global, matches: &ArgMatches<'_>) -> Result<Option<String>, AllocError> {
    let Some(("canonical", given)) = matches.subcommand() else {
        return Ok(None);
    };
    match given.get_strs("OUT").unwrap_or(&[]) {
        [_, word, ..] if !given.get_flag("CHECK") => {
            Ok(Some(format!(in alloc; "unexpected argument '{word}' found")?))
        }
        _ => Ok(None),
    }
}

/// Returns why the words `-` of a request can't be, if they can't. Standard input can be read once,
/// and standard output has what is printed.
fn stream_fault(request: &Request<'_>) -> Option<&'static str> {
    match request {
        Request::Base(BaseRequest::New { out, .. } | BaseRequest::Pack { out, .. })
        | Request::Migrate { out, .. }
        | Request::Run { out, .. }
        | Request::Import { out, .. }
            if is_stream(out) => Some(NO_STREAM),
        Request::Run {
            image,
            script,
            files,
            ..
        } => {
            let taken = usize::from(is_stream(image)) + usize::from(is_stream(script));
            input_fault(taken, files.as_slice())
        }
        Request::Import { files, .. } => input_fault(0, files.as_slice()),
        Request::Base(BaseRequest::Put { file, part, .. }) if is_stream(file) && is_stream(part) =>
            { Some(ONE_FILE) }
        Request::Base(BaseRequest::List { files, .. } | BaseRequest::Changes { files, .. }) => {
            input_fault(0, files.paths.as_slice())
        }
        _ => None,
    }
}

/// Returns why standard input is asked for more than once, if it is: by `taken` words and by files.
fn input_fault(taken: usize, files: &[&str]) -> Option<&'static str> {
    let mut count = taken;
    for file in files {
        if is_stream(file) && count < 2 {
            count += 1;
        }
    }
    if count > 1 { Some(ONE_INPUT) } else { None }
}

/// Returns whether a word means standard input or standard output.
fn is_stream(word: &str) -> bool {
    word == "-"
}

/// Returns the whole command line.
fn palmheap<'a>(alloc: Global, rows: &[CommandRow]) -> Result<Command<'a>, AllocError> {
    let mut palmheap = described(alloc);
    for row in rows {
        palmheap = with_command(alloc, palmheap, row)?;
    }
    Ok(palmheap)
}

/// Returns the command line without its commands.
fn described<'a>(alloc: Global) -> Command<'a> {
    Command::new(alloc, "palmheap")
        .version("0.1.0")
        .about(ABOUT)
        .after_help(IMAGES)
        .subcommand_required(true)
}

fn with_command<'a>(
    alloc: Global,
    palmheap: Command<'a>,
    row: &CommandRow,
) -> Result<Command<'a>, AllocError> {
    palmheap.subcommand(command(alloc, row)?)
}

/// Returns the command of a row.
fn command<'a>(alloc: Global, row: &CommandRow) -> Result<Command<'a>, AllocError> {
    let mut command = Command::new(alloc, row.name).about(row.about);
    if let Some(text) = row.after_help {
        command = command.after_help(text);
    }
    if let Some(text) = row.usage {
        command = command.override_usage(text);
    }
    for argument in row.arguments {
        command = command.arg(described_argument(alloc, argument)?)?;
    }
    Ok(command)
}

fn described_argument<'a>(alloc: Global, argument: &Argument) -> Result<Arg<'a>, AllocError> {
    let described = Arg::new(alloc, argument.name).help(argument.help);
    match argument.count {
        Count::One => Ok(described.required(true)),
        Count::AtMostOne => Ok(described),
        Count::Any => Ok(several(described)),
        Count::Several => Ok(several(described).required(true)),
        Count::SeveralUnless(flag) => several(described).required_unless_present(flag),
        Count::Option(name) => Ok(described.long(name)),
        Count::Flag(name) => Ok(described.long(name).action(ArgAction::SetTrue)),
        Count::FlagWith { name, flag } => described
            .long(name)
            .action(ArgAction::SetTrue)
            .requires_arg(flag),
    }
}

/// Lets an argument have any number of words.
fn several<'a>(argument: Arg<'a>) -> Arg<'a> {
    argument.num_args(1..).action(ArgAction::Append)
}
