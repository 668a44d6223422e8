//! What is wrong with a faulty line, of a script and of the text that `pack` reads.

use hints::{LineHint, parts_hint, script_hint};
use script_lines::{LineFault, ScriptFault, parse};
use std::alloc::Global;
use std::test::Fail;
use test_support::equal;

/// Scripts, and the hints for their first faulty lines.
static SCRIPTS: [(&str, LineHint<'static>); 8] = [
    (
        "# one\n\nnew a 8 1\nhandles\n",
        LineHint::Unknown(b"handles"),
    ),
    (
        "new a 8",
        LineHint::Count {
            found: 2,
            wanted: 3,
        },
    ),
    (
        "new a 8 1 \"2\"\n",
        LineHint::Count {
            found: 4,
            wanted: 3,
        },
    ),
    (
        "new a 0x1g 1\r\n",
        LineHint::Wrong {
            word: b"0x1g",
            wanted: "a number below 4294967296",
        },
    ),
    (
        "free a\nnew a 8 256\n",
        LineHint::Wrong {
            word: b"256",
            wanted: "a number below 256",
        },
    ),
    (
        "new 1a 8 1\n",
        LineHint::Wrong {
            word: b"1a",
            wanted: "a label (a letter, then up to 30 letters, digits or _)",
        },
    ),
    (
        "write a 0 012\n",
        LineHint::Wrong {
            word: b"012",
            wanted: "bytes in hex, two digits a byte, or -",
        },
    ),
    ("strcopy a 0 \"one\" \"two", LineHint::Broken(5)),
];

/// Checks the hint for the first faulty line of a script.
fn check_script(alloc: Global, script: &str, wanted: LineHint<'_>) -> Result<(), Fail> {
    match parse(alloc, script.as_bytes()) {
        Ok(_) => Err("no faulty line")?,
        Err(fault) => equal(script, script_hint(script.as_bytes(), fault), Some(wanted)),
    }
}

#[test]
fn faulty_lines_of_scripts_have_hints(rt: HostRuntime) -> Result<(), Fail> {
    for (script, wanted) in &SCRIPTS {
        check_script(rt.alloc(), script, *wanted)?;
    }
    Ok(())
}

/// A text, its faulty line, the fault, and the hint.
type PartsRow = (&'static str, usize, ScriptFault, Option<LineHint<'static>>);

static TEXTS: [PartsRow; 17] = [
    (
        "# no\nname \"\"\n",
        2,
        ScriptFault::BadWord(2),
        Some(LineHint::Wrong {
            word: b"\"\"",
            wanted: "a text of 1 to 31 bytes, as \"MemoDB\"",
        }),
    ),
    (
        "name \"A\"\nattributes 0x41\n",
        2,
        ScriptFault::BadWord(2),
        Some(LineHint::Wrong {
            word: b"0x41",
            wanted: "a hex number below 10000",
        }),
    ),
    (
        "record 00 16777216 r0\n",
        1,
        ScriptFault::BadWord(3),
        Some(LineHint::Wrong {
            word: b"16777216",
            wanted: "a number below 16777216",
        }),
    ),
    (
        "resource \"TBMP\" 65536 r0\n",
        1,
        ScriptFault::BadWord(3),
        Some(LineHint::Wrong {
            word: b"65536",
            wanted: "a number below 65536",
        }),
    ),
    (
        "record 00 1\n",
        1,
        ScriptFault::WrongCount,
        Some(LineHint::Count {
            found: 2,
            wanted: 3,
        }),
    ),
    (
        "versoin 0\n",
        1,
        ScriptFault::UnknownCommand,
        Some(LineHint::Unknown(b"versoin")),
    ),
    (
        "name \"A\n",
        1,
        ScriptFault::BadWord(2),
        Some(LineHint::Broken(2)),
    ),
    ("record 00 1 \"r0\n", 1, ScriptFault::BadWord(1), None),
    (
        "app .a\n",
        1,
        ScriptFault::BadWord(2),
        Some(LineHint::Wrong {
            word: b".a",
            wanted: "the name of a part (letters, digits, _, - and .), or none",
        }),
    ),
    (
        "record 00 1 none\n",
        1,
        ScriptFault::BadWord(4),
        Some(LineHint::Wrong {
            word: b"none",
            wanted: "the name of a part (letters, digits, _, - and .); only a deleted record may have none",
        }),
    ),
    (
        "resource \"TBMP\" 1 none\n",
        1,
        ScriptFault::BadWord(4),
        Some(LineHint::Wrong {
            word: b"none",
            wanted: "the name of a part (letters, digits, _, - and .), which each resource has",
        }),
    ),
    (
        "exact 1\n",
        1,
        ScriptFault::WrongCount,
        Some(LineHint::Count {
            found: 1,
            wanted: 0,
        }),
    ),
    (
        "exact\nnamefield 0\n",
        2,
        ScriptFault::BadWord(2),
        Some(LineHint::Wrong {
            word: b"0",
            wanted: "all bytes after the name, up to the 32nd, in hex; the first of two or more is 00",
        }),
    ),
    (
        "exact\nfiller -\n",
        2,
        ScriptFault::BadWord(2),
        Some(LineHint::Wrong {
            word: b"-",
            wanted: "the name of a part (letters, digits, _, - and .), or none",
        }),
    ),
    (
        "exact\nfiller none\norder sort\n",
        3,
        ScriptFault::BadWord(2),
        Some(LineHint::Wrong {
            word: b"sort",
            wanted: "a block with a part that no earlier line names: app, sort or the index of an entry",
        }),
    ),
    ("name \"A\"\n", 2, ScriptFault::WrongCount, None),
    ("name \"A\"\n", 1, ScriptFault::OutOfMemory, None),
];

#[test]
fn faulty_lines_of_texts_have_hints(_rt: HostRuntime) -> Result<(), Fail> {
    for (text, line, fault, wanted) in &TEXTS {
        let fault = LineFault {
            line: *line,
            fault: *fault,
        };
        equal(text, parts_hint(text.as_bytes(), fault), *wanted)?;
    }
    Ok(())
}
