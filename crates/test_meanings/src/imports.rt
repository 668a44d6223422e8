//! Lines that import a FILE that there is not.

use hints::{MissingFile, line_numbers, missing_files};
use script_lines::parse;
use std::alloc::Global;
use std::test::*;
use test_support::{RefusesOne, equal, holds};

/// Returns the lines of a script that import a FILE with a number above `count`.
fn found(alloc: Global, script: &str, count: usize) -> Result<Vec<MissingFile>, Fail> {
    let Ok(lines) = parse(alloc, script.as_bytes()) else {
        return Err("a faulty script")?;
    };
    let numbers = line_numbers(&alloc, script.as_bytes())?;
    Ok(missing_files(&alloc, count, lines.lines(), &numbers)?)
}

/// Scripts, how many FILEs there are, and the lines that import others.
static SCRIPTS: [(&str, usize, &[MissingFile]); 6] = [
    ("", 0, &[]),
    ("import a 1\nimport b 2\n", 2, &[]),
    (
        "import a 1\nimport b 2\n",
        1,
        &[MissingFile { line: 2, file: 2 }],
    ),
    (
        "# two\n\n  \nimport a 0\r\nfreebytes\n\t# no\nimport b 4294967295",
        3,
        &[
            MissingFile { line: 4, file: 0 },
            MissingFile {
                line: 7,
                file: 4_294_967_295,
            },
        ],
    ),
    (
        "free import\nimport import 0x2\n",
        1,
        &[MissingFile { line: 2, file: 2 }],
    ),
    ("export a\nsize b\nlock c\n", 0, &[]),
];

#[test]
fn missing_files_are_found(rt: HostRuntime) -> Result<(), Fail> {
    for (script, count, wanted) in &SCRIPTS {
        let missing = found(rt.alloc(), script, *count)?;
        equal(script, missing.as_slice(), *wanted)?;
    }
    Ok(())
}

const TWO_MISSING: &str = "import a 0\nfreebytes\nimport b 9\n";

#[test]
fn refused_memory_is_reported(rt: HostRuntime) -> Result<(), Fail> {
    let Ok(lines) = parse(rt.alloc(), TWO_MISSING.as_bytes()) else {
        return Err("a faulty script")?;
    };
    for granted in 0..10 {
        let memory = RefusesOne::behind(rt.alloc(), granted);
        let numbers = line_numbers(&memory, TWO_MISSING.as_bytes());
        holds(granted, numbers.is_err() == memory.has_refused())?;
        let memory = RefusesOne::behind(rt.alloc(), granted);
        let missing = missing_files(&memory, 1, lines.lines(), &[1, 2, 3]);
        holds(granted, missing.is_err() == memory.has_refused())?;
        holds(granted, granted > 0 || missing.is_err())?;
    }
    Ok(())
}
