//! The words of the command line.

use program_io::KeptWords;
use program_io::command_line::{BaseRequest, NamedFiles, Request, parse};
use std::alloc::{AllocError, Global};
use std::test::Fail;
use test_support::{equal, holds};

/// The words of a command line that has no spaces in a word.
fn words_of(alloc: Global, line: &str) -> Result<Vec<String>, AllocError> {
    let mut words = Vec::new(alloc);
    for word in line.split_ascii_whitespace() {
        words.push(String::from_str(alloc, word)?)?;
    }
    Ok(words)
}

/// What a command line asks for; where that is no command, the status and what is said.
fn asked(alloc: Global, line: &str) -> Result<String, AllocError> {
    let words = words_of(alloc, line)?;
    match parse(alloc, &words) {
        Ok(request) => shown(alloc, &request),
        Err(error) => format!(in alloc; "{} {error}", error.exit_code()),
    }
}

fn shown(alloc: Global, request: &Request) -> Result<String, AllocError> {
    match request {
        Request::Base(request) => base_shown(alloc, request),
        Request::Run {
            image,
            script,
            out,
            files,
            shown,
        } => {
            let numbers = if shown.numbers { " numbers" } else { "" };
            let strict = if shown.strict { " strict" } else { "" };
            format!(in alloc; "run {image} {script} {out} {files:?}{numbers}{strict}\n")
        }
        Request::Migrate { image, out } => format!(in alloc; "migrate {image} {out}\n"),
        Request::Map { image, out: None } => format!(in alloc; "map {image}\n"),
        Request::Map {
            image,
            out: Some(out),
        } => format!(in alloc; "map {image} {out}\n"),
        Request::Databases { image, form } => { format!(in alloc; "databases {image} {form:?}\n") },
        Request::Export {
            image,
            folder,
            names,
        } => format!(in alloc; "export {image} {folder} {names:?}\n"),
        Request::Import {
            out,
            size,
            slots,
            files,
        } => format!(in alloc; "import {out} {size:?} {slots:?} {files:?}\n"),
    }
}

/// The words of `--keep`, if they are there.
fn kept_shown(keep: Option<KeptWords>) -> &'static str {
    let Some(kept) = keep else {
        return "";
    };
    match (kept.ids, kept.filler, kept.order) {
        (true, false, false) => " ids",
        (false, true, false) => " filler",
        (false, false, true) => " order",
        (true, true, false) => " ids filler",
        (true, false, true) => " ids order",
        (false, true, true) => " filler order",
        (true, true, true) => " ids filler order",
        (false, false, false) => " nothing",
    }
}

fn base_shown(alloc: Global, request: &BaseRequest) -> Result<String, AllocError> {
    match request {
        BaseRequest::New { size, slots, out } => format!(in alloc; "new {size} {slots} {out}\n"),
        BaseRequest::Check { image, form } => format!(in alloc; "check {image} {form:?}\n"),
        BaseRequest::List { form, files } => {
            format!(in alloc; "list {form:?}{}\n", named_shown(alloc, files)?)
        }
        BaseRequest::Changes { files, keep } => {
            let named = named_shown(alloc, files)?;
            format!(in alloc; "changes{named}{}\n", kept_shown(*keep))
        }
        BaseRequest::Canonical { file, out, keep } => {
            format!(in alloc; "canonical {file} {out}{}\n", kept_shown(*keep))
        }
        BaseRequest::Salvage {
            file,
            out,
            exact_ids,
        } => {
            let exact = if *exact_ids { " exact" } else { "" };
            format!(in alloc; "salvage {file} {out}{exact}\n")
        }
        BaseRequest::Get { file, block, id } => get_shown(alloc, file, block, *id),
        BaseRequest::Put {
            file,
            block,
            part,
            out,
        } => format!(in alloc; "put {file} {block} {part} {out}\n"),
        BaseRequest::Unpack {
            file,
            folder,
            exact,
        } => {
            let exact = if *exact { " exact" } else { "" };
            format!(in alloc; "unpack {file} {folder}{exact}\n")
        }
        BaseRequest::Pack { folder, out } => format!(in alloc; "pack {folder} {out}\n"),
        BaseRequest::Explain { word } => format!(in alloc; "explain {word}\n"),
    }
}

fn get_shown(
    alloc: Global,
    file: &str,
    block: &str,
    id: Option<&str>,
) -> Result<String, AllocError> {
    match id {
        None => format!(in alloc; "get {file} {block}\n"),
        Some(id) => format!(in alloc; "get {file} {block} {id}\n"),
    }
}

/// The paths of files, and whether they are printed.
fn named_shown(alloc: Global, files: &NamedFiles) -> Result<String, AllocError> {
    let named = if files.named { " named" } else { "" };
    format!(in alloc; "{named} {:?}", files.paths)
}

/// Words, and how what comes of them begins, and what stands in it: commands, words that are
/// refused, and help.
static CASES: [(&str, &str, &str); 69] = [
    ("palmheap new 128 4 a.img", "new 128 4 a.img\n", ""),
    (
        "palmheap new 4294967295 65535 --  -a",
        "new 4294967295 65535 -a\n",
        "",
    ),
    ("palmheap check a.img", "check a.img Text\n", ""),
    (
        "palmheap run a.img calls.txt b.img",
        "run a.img calls.txt b.img []\n",
        "",
    ),
    (
        "palmheap run a.img calls.txt b.img memo.pdb tool.prc memo.pdb",
        "run a.img calls.txt b.img [\"memo.pdb\", \"tool.prc\", \"memo.pdb\"]\n",
        "",
    ),
    ("palmheap migrate a.img b.img", "migrate a.img b.img\n", ""),
    ("palmheap map a.img", "map a.img\n", ""),
    ("palmheap map a.img a.svg", "map a.img a.svg\n", ""),
    ("palmheap databases a.img", "databases a.img Text\n", ""),
    ("palmheap check --json a.img", "check a.img Json\n", ""),
    (
        "palmheap databases --json a.img",
        "databases a.img Json\n",
        "",
    ),
    ("palmheap map --json a.img", "2 error: ", "--json"),
    ("palmheap check --json", "2 error: ", "<IMAGE>"),
    ("palmheap export a.img out", "export a.img out []\n", ""),
    (
        "palmheap export a.img out Memo Tool",
        "export a.img out [\"Memo\", \"Tool\"]\n",
        "",
    ),
    (
        "palmheap import a.img memo.pdb tool.prc",
        "import a.img None None [\"memo.pdb\", \"tool.prc\"]\n",
        "",
    ),
    (
        "palmheap import --slots 9 --size 1024 a.img memo.pdb",
        "import a.img Some(1024) Some(9) [\"memo.pdb\"]\n",
        "",
    ),
    ("palmheap import a.img", "2 error: ", "<FILE>"),
    (
        "palmheap run --numbers a.img calls.txt b.img memo.pdb",
        "run a.img calls.txt b.img [\"memo.pdb\"] numbers\n",
        "",
    ),
    (
        "palmheap run a.img calls.txt b.img memo.pdb --strict --numbers",
        "run a.img calls.txt b.img [\"memo.pdb\"] numbers strict\n",
        "",
    ),
    (
        "palmheap check --strict a.img",
        "2 error: unexpected argument '--strict' found\n",
        "",
    ),
    (
        "palmheap run - calls.txt b.img",
        "run - calls.txt b.img []\n",
        "",
    ),
    (
        "palmheap run a.img - b.img memo.pdb",
        "run a.img - b.img [\"memo.pdb\"]\n",
        "",
    ),
    (
        "palmheap run a.img calls.txt b.img -",
        "run a.img calls.txt b.img [\"-\"]\n",
        "",
    ),
    (
        "palmheap run - - b.img",
        "2 error: only one of IMAGE, SCRIPT and FILE can be '-', standard input\n",
        "\nUsage: palmheap run [OPTIONS] <IMAGE> <SCRIPT> <OUT> [FILE]...\n",
    ),
    (
        "palmheap run a.img calls.txt b.img - memo.pdb -",
        "2 error: only one of IMAGE, SCRIPT and FILE can be '-', standard input\n",
        "",
    ),
    (
        "palmheap import a.img - memo.pdb -",
        "2 error: only one of IMAGE, SCRIPT and FILE can be '-', standard input\n",
        "",
    ),
    (
        "palmheap run a.img calls.txt -",
        "2 error: the output can't be '-': standard output has what is printed. A file of that name is './-'\n",
        "",
    ),
    (
        "palmheap run a.img calls.txt ./-",
        "run a.img calls.txt ./- []\n",
        "",
    ),
    (
        "palmheap new 128 4 -",
        "2 error: the output can't be '-'",
        "",
    ),
    (
        "palmheap migrate a.img -",
        "2 error: the output can't be '-'",
        "\nUsage: palmheap migrate <IMAGE> <OUT>\n",
    ),
    (
        "palmheap import - memo.pdb",
        "2 error: the output can't be '-'",
        "",
    ),
    ("palmheap explain BadOffset", "explain BadOffset\n", ""),
    ("palmheap explain BadOffset 1", "explain BadOffset\n", ""),
    (
        "palmheap explain bad BadOffset 1",
        "explain BadOffset\n",
        "",
    ),
    (
        "palmheap explain refused 25 BadFile Truncated",
        "explain 25\n",
        "",
    ),
    ("palmheap explain changes busy ids", "explain busy\n", ""),
    ("palmheap explain line 3 BadWord 2", "explain BadWord\n", ""),
    ("palmheap explain line 3", "explain line\n", ""),
    (
        "palmheap explain 5 refused 8 NotEnoughSpace",
        "explain 8\n",
        "",
    ),
    ("palmheap explain 25", "explain 25\n", ""),
    (
        "palmheap explain",
        "2 error: the following required arguments were not provided:\n  <WORD>...\n",
        "",
    ),
    (
        "palmheap explain --help",
        "0 ",
        "Usage: palmheap explain <WORD>...",
    ),
    (
        "palmheap migrate a.img",
        "2 error: the following required arguments were not provided:\n  <OUT>\n",
        "",
    ),
    (
        "palmheap run a.img calls.txt b.img memo.pdb --fast",
        "2 error: unexpected argument '--fast' found\n",
        "",
    ),
    (
        "palmheap",
        "2 error: 'palmheap' requires a subcommand but one was not provided\n",
        "",
    ),
    (
        "palmheap frob",
        "2 error: unrecognized subcommand 'frob'\n",
        "",
    ),
    (
        "palmheap new 128 4",
        "2 error: the following required arguments were not provided:\n  <OUT>\n",
        "",
    ),
    (
        "palmheap new 128 4 a b",
        "2 error: unexpected argument 'b' found\n",
        "",
    ),
    (
        "palmheap new 12x 4 a",
        "2 error: invalid value '12x' for '<SIZE>': 12x is not a decimal number\n",
        "\nUsage: palmheap new <SIZE> <SLOTS> <OUT>\n",
    ),
    (
        "palmheap new 4294967296 4 a",
        "2 error: invalid value '4294967296' for '<SIZE>': 4294967296 is not in 64..=16777208\n",
        "",
    ),
    (
        "palmheap new 128 65536 a",
        "2 error: invalid value '65536' for '<SLOTS>': 65536 is not in 1..=65535\n",
        "",
    ),
    (
        "palmheap new 512 70000 a",
        "2 error: invalid value '70000' for '<SLOTS>': 70000 is not in 1..=65535\n",
        "",
    ),
    (
        "palmheap new 99999999999999999999 4 a",
        "2 error: invalid value '99999999999999999999' for '<SIZE>': ",
        "is not in 64..=16777208\n",
    ),
    // numbers that are read, of no image
    ("palmheap new 66 0 a", "new 66 0 a\n", ""),
    (
        "palmheap import --slots 65536 a.img memo.pdb",
        "2 error: invalid value '65536' for '<SLOTS>': 65536 is not in 1..=65535\n",
        "",
    ),
    (
        "palmheap import --size 63 --slots 0 a.img memo.pdb",
        "import a.img Some(63) Some(0) [\"memo.pdb\"]\n",
        "",
    ),
    (
        "palmheap run a.img calls.txt",
        "2 error: the following required arguments were not provided:\n  <OUT>\n",
        "",
    ),
    (
        "palmheap check",
        "2 error: the following required arguments were not provided:\n  <IMAGE>\n",
        "",
    ),
    ("palmheap --version", "0 palmheap 0.1.0\n", ""),
    (
        "palmheap --help",
        "0 ",
        "A heap image is a file of 64 to 16777208 bytes",
    ),
    ("palmheap help", "0 ", "Exit status:"),
    (
        "palmheap new --help",
        "0 ",
        "Usage: palmheap new <SIZE> <SLOTS> <OUT>",
    ),
    (
        "palmheap check -h",
        "0 ",
        "Usage: palmheap check [OPTIONS] <IMAGE>",
    ),
    (
        "palmheap run --help",
        "0 ",
        "Usage: palmheap run [OPTIONS] <IMAGE> <SCRIPT> <OUT> [FILE]...",
    ),
    ("palmheap run --help", "0 ", "strcopy A AT \"TEXT\""),
    (
        "palmheap run --help",
        "0 ",
        "With '-' as SCRIPT the lines of standard input run as they come",
    ),
    (
        "palmheap migrate --help",
        "0 ",
        "Usage: palmheap migrate <IMAGE> <OUT>",
    ),
    (
        "palmheap map --help",
        "0 ",
        "Usage: palmheap map <IMAGE> [OUT]",
    ),
];

fn check_words(alloc: Global, line: &str, front: &str, part: &str) -> Result<(), Fail> {
    let said = asked(alloc, line)?;
    let is_right = said.as_str().starts_with(front) && said.as_str().contains(part);
    holds(format_args!("{line}: {said}"), is_right)
}

#[test]
fn words_are_read(rt: HostRuntime) -> Result<(), Fail> {
    for (line, front, part) in &CASES {
        check_words(rt.alloc(), line, front, part)?;
    }
    Ok(())
}

/// The same for the commands on files, of which some take several.
static FILE_CASES: [(&str, &str, &str); 45] = [
    ("palmheap list memo.pdb", "list Text [\"memo.pdb\"]\n", ""),
    (
        "palmheap canonical memo.pdb new.pdb",
        "canonical memo.pdb new.pdb\n",
        "",
    ),
    (
        "palmheap salvage memo.pdb new.pdb",
        "salvage memo.pdb new.pdb\n",
        "",
    ),
    (
        "palmheap salvage --exact-ids - -",
        "salvage - - exact\n",
        "",
    ),
    (
        "palmheap salvage memo.pdb",
        "2 error: the following required arguments were not provided:\n  <OUT>\n",
        "",
    ),
    (
        "palmheap salvage --help",
        "0 ",
        "Usage: palmheap salvage [OPTIONS] <FILE> <OUT>",
    ),
    ("palmheap get memo.pdb 0", "get memo.pdb 0\n", ""),
    ("palmheap get - app", "get - app\n", ""),
    (
        "palmheap put memo.pdb 0 part new.pdb",
        "put memo.pdb 0 part new.pdb\n",
        "",
    ),
    ("palmheap put - app part -", "put - app part -\n", ""),
    (
        "palmheap put - app - new.pdb",
        "2 error: only one of FILE and PART can be '-', standard input\n",
        "",
    ),
    (
        "palmheap put memo.pdb 0 part",
        "2 error: the following required arguments were not provided:\n  <OUT>\n",
        "",
    ),
    (
        "palmheap put --help",
        "0 ",
        "Usage: palmheap put <FILE> <BLOCK> <PART> <OUT>",
    ),
    (
        "palmheap get tool.prc tSTR 1000",
        "get tool.prc tSTR 1000\n",
        "",
    ),
    (
        "palmheap get memo.pdb",
        "2 error: the following required arguments were not provided:\n  <BLOCK>\n",
        "",
    ),
    (
        "palmheap get --help",
        "0 ",
        "Usage: palmheap get <FILE> <BLOCK> [ID]",
    ),
    (
        "palmheap unpack memo.pdb memos",
        "unpack memo.pdb memos\n",
        "",
    ),
    (
        "palmheap unpack --exact memo.pdb memos",
        "unpack memo.pdb memos exact\n",
        "",
    ),
    ("palmheap pack memos memo.pdb", "pack memos memo.pdb\n", ""),
    (
        "palmheap list memo.pdb --json",
        "list Json [\"memo.pdb\"]\n",
        "",
    ),
    (
        "palmheap pack memos -",
        "2 error: the output can't be '-'",
        "",
    ),
    (
        "palmheap list memo.pdb tool.prc memo.pdb",
        "list Text named [\"memo.pdb\", \"tool.prc\", \"memo.pdb\"]\n",
        "",
    ),
    (
        "palmheap list --path memo.pdb",
        "list Text named [\"memo.pdb\"]\n",
        "",
    ),
    (
        "palmheap list --json --path memo.pdb",
        "list Json named [\"memo.pdb\"]\n",
        "",
    ),
    (
        "palmheap list - memo.pdb -",
        "2 error: only one of IMAGE, SCRIPT and FILE can be '-', standard input\n",
        "\nUsage: palmheap list [OPTIONS] <FILE>...\n",
    ),
    ("palmheap list", "2 error: ", "<FILE>..."),
    (
        "palmheap canonical --check memo.pdb",
        "changes [\"memo.pdb\"]\n",
        "",
    ),
    (
        "palmheap canonical --check --path memo.pdb",
        "changes named [\"memo.pdb\"]\n",
        "",
    ),
    (
        "palmheap canonical memo.pdb tool.prc memo.pdb --check",
        "changes named [\"memo.pdb\", \"tool.prc\", \"memo.pdb\"]\n",
        "",
    ),
    (
        "palmheap canonical --check memo.pdb - tool.prc -",
        "2 error: only one of IMAGE, SCRIPT and FILE can be '-', standard input\n",
        "",
    ),
    (
        "palmheap canonical --path memo.pdb new.pdb",
        "2 error: the following required arguments were not provided:\n  --check\n",
        "",
    ),
    ("palmheap canonical --check", "2 error: ", "<FILE>"),
    (
        "palmheap canonical memo.pdb",
        "2 error: the following required arguments were not provided:\n  <OUT>",
        "\nUsage: palmheap canonical [--keep <KEEP>] <FILE> <OUT>\n       palmheap canonical --check [--keep <KEEP>] [--path] <FILE>...\n",
    ),
    (
        "palmheap canonical memo.pdb new.pdb tool.prc",
        "2 error: unexpected argument 'tool.prc' found\n",
        "\nUsage: palmheap canonical [--keep <KEEP>] <FILE> <OUT>\n",
    ),
    (
        "palmheap list --help",
        "0 ",
        "Usage: palmheap list [OPTIONS] <FILE>...",
    ),
    (
        "palmheap canonical --help",
        "0 ",
        "Usage: palmheap canonical [--keep <KEEP>] <FILE> <OUT>",
    ),
    (
        "palmheap canonical --keep ids memo.pdb new.pdb",
        "canonical memo.pdb new.pdb ids\n",
        "",
    ),
    (
        "palmheap canonical memo.pdb new.pdb --keep order,filler,ids",
        "canonical memo.pdb new.pdb ids filler order\n",
        "",
    ),
    (
        "palmheap canonical --check --keep filler,order memo.pdb tool.prc",
        "changes named [\"memo.pdb\", \"tool.prc\"] filler order\n",
        "",
    ),
    (
        "palmheap canonical --keep ids,ids memo.pdb new.pdb",
        "2 error: invalid value 'ids,ids' for '--keep <KEEP>': ",
        "\nUsage: palmheap canonical [--keep <KEEP>] <FILE> <OUT>\n",
    ),
    (
        "palmheap canonical --keep name memo.pdb new.pdb",
        "2 error: invalid value 'name' for '--keep <KEEP>': ",
        "",
    ),
    (
        "palmheap canonical --keep ids, memo.pdb new.pdb",
        "2 error: invalid value 'ids,' for '--keep <KEEP>': ",
        "",
    ),
    (
        "palmheap canonical --keep IDS memo.pdb new.pdb",
        "2 error: invalid value 'IDS' for '--keep <KEEP>': ",
        "",
    ),
    (
        "palmheap canonical --check --keep= memo.pdb",
        "2 error: invalid value '' for '--keep <KEEP>': it must be a list of the words ids, filler and order, \
            each at most once, with commas between them and no spaces\n",
        "\nUsage: palmheap canonical [--keep <KEEP>] <FILE> <OUT>\n",
    ),
    (
        "palmheap canonical memo.pdb new.pdb --keep",
        "2 error: a value is required for '--keep <KEEP>' but none was supplied\n",
        "",
    ),
];

#[test]
fn words_on_files_are_read(rt: HostRuntime) -> Result<(), Fail> {
    for (line, front, part) in &FILE_CASES {
        check_words(rt.alloc(), line, front, part)?;
    }
    Ok(())
}

/// Printed lines, each in one word, and the name in each that is explained.
static LINES: [(&str, &str); 8] = [
    ("bad BadOffset 1", "BadOffset 1"),
    ("refused 25 BadFile Truncated", "25 BadFile Truncated"),
    ("changes busy ids", "busy ids"),
    ("line 3 BadWord 2", "BadWord 2"),
    ("line 3", "line 3"),
    ("5 refused 8 NotEnoughSpace", "8 NotEnoughSpace"),
    ("5 refused", "5 refused"),
    ("BadOffset 1", "BadOffset 1"),
];

fn check_line(alloc: Global, line: &str, wanted: &str) -> Result<(), Fail> {
    let mut words = words_of(alloc, "palmheap explain")?;
    words.push(String::from_str(alloc, line)?)?;
    match parse(alloc, &words) {
        Ok(Request::Base(BaseRequest::Explain { word })) => equal(line, word, wanted),
        _ => holds(line, false),
    }
}

#[test]
fn lines_in_one_word_are_read(rt: HostRuntime) -> Result<(), Fail> {
    for (line, wanted) in &LINES {
        check_line(rt.alloc(), line, wanted)?;
    }
    Ok(())
}

/// The commands that have help.
static COMMANDS: [&str; 16] = [
    "new",
    "check",
    "run",
    "migrate",
    "map",
    "list",
    "canonical",
    "salvage",
    "get",
    "put",
    "unpack",
    "pack",
    "databases",
    "export",
    "import",
    "explain",
];

/// Help of a command: no line is longer than 80 characters, and it has an example.
fn check_help(alloc: Global, command: &str) -> Result<(), Fail> {
    let line = format!(in alloc; "palmheap {command} --help")?;
    let help = asked(alloc, line.as_str())?;
    for line in help.lines() {
        holds(format_args!("{command}: {line}"), line.len() <= 80)?;
    }
    let example = format!(in alloc; "'palmheap {command}")?;
    holds(command, help.as_str().contains(example.as_str()))
}

#[test]
fn help_is_narrow_and_has_examples(rt: HostRuntime) -> Result<(), Fail> {
    for command in &COMMANDS {
        check_help(rt.alloc(), command)?;
    }
    Ok(())
}

/// The commands that the help of the program lists.
fn listed<'a>(alloc: Global, help: &'a str) -> Result<Vec<&'a str>, AllocError> {
    let mut names = Vec::new(alloc);
    for line in help.lines() {
        if is_command_line(line) {
            names.push(line.split_ascii_whitespace().next().unwrap_or(""))?;
        }
    }
    Ok(names)
}

/// Whether a line of the program's help is that of a command: two spaces, and a lower-case letter.
fn is_command_line(line: &str) -> bool {
    match line.as_bytes() {
        [b' ', b' ', first, ..] => first.is_ascii_lowercase(),
        _ => false,
    }
}

/// The help of the program lists `COMMANDS` in this order, and then `help`.
#[test]
fn help_lists_the_commands(rt: HostRuntime) -> Result<(), Fail> {
    let help = asked(rt.alloc(), "palmheap --help")?;
    let mut names = listed(rt.alloc(), help.as_str())?;
    equal("help", names.pop(), Some("help"))?;
    equal("commands", names.as_slice(), COMMANDS.as_slice())
}
