//! The commands, with a line of help for each of them and for each argument. Longer texts are in
//! `help_texts`.
//!
//! Start with `COMMANDS`, which has a row for each command.

use crate::help_texts::{
    BLOCKS, CANONICAL_FORMS, CANONICAL_USAGE, CHECKS, LISTINGS, MAPS, MEANINGS, MIGRATION,
    NEW_BLOCKS, NEW_IMAGES, PACKING, SALVAGES, SCRIPTS, STORES, UNPACKING,
};

/// A command: its word, its help, and its arguments in order.
#[derive(Clone, Copy)]
pub(crate) struct CommandRow {
    pub(crate) name: &'static str,
    pub(crate) about: &'static str,
    pub(crate) after_help: Option<&'static str>,
    /// The usage, if the arguments don't say it.
    pub(crate) usage: Option<&'static str>,
    pub(crate) arguments: &'static [Argument],
}

/// An argument.
#[derive(Clone, Copy)]
pub(crate) struct Argument {
    pub(crate) name: &'static str,
    pub(crate) count: Count,
    pub(crate) help: &'static str,
}

/// The number of words that an argument may have.
#[derive(Clone, Copy)]
pub(crate) enum Count {
    One,
    /// One word, or none.
    AtMostOne,
    /// Any number of words, or none.
    Any,
    /// One word or several.
    Several,
    /// One word or several, or none if the flag of this name is there.
    SeveralUnless(&'static str),
    /// A word after the option of this name, or none.
    Option(&'static str),
    /// None: an option of this name is there or not.
    Flag(&'static str),
    /// The same, for an option that needs the flag of another argument.
    FlagWith {
        name: &'static str,
        flag: &'static str,
    },
}

/// Every command.
pub(crate) const COMMANDS: [CommandRow; 16] = [
    CommandRow {
        name: "new",
        about: "Writes an image with nothing in it, and prints 'ok'",
        after_help: Some(NEW_IMAGES),
        usage: None,
        arguments: &[
            Argument {
                name: "SIZE",
                count: Count::One,
                help: "Size of the image in bytes: a multiple of 8, from 64 to 16777208",
            },
            Argument {
                name: "SLOTS",
                count: Count::One,
                help: "How many slots its table has, 1 to 65535: the most chunks that can\n\
                    be movable at a time. A slot takes 4 bytes",
            },
            Argument {
                name: "OUT",
                count: Count::One,
                help: "File for the image. One that is there is replaced, once the image\n\
                    is whole",
            },
        ],
    },
    CommandRow {
        name: "check",
        about: "Checks an image, and prints what is in it or the first fault",
        after_help: Some(CHECKS),
        usage: None,
        arguments: &[IMAGE, JSON],
    },
    CommandRow {
        name: "run",
        about: "Runs a script on an image, and prints what each line answers",
        after_help: Some(SCRIPTS),
        usage: None,
        arguments: &[
            IMAGE,
            Argument {
                name: "SCRIPT",
                count: Count::One,
                help: "File with the script; '-' is standard input",
            },
            Argument {
                name: "OUT",
                count: Count::One,
                help: "File for the changed image. One that is there is replaced, once the\n\
                    image is whole. The files that the script exports go to OUT.1,\n\
                    OUT.2 and so on",
            },
            Argument {
                name: "FILE",
                count: Count::Any,
                help: "Files of databases, PDB or PRC, that lines of the script import by\n\
                    their number: the first is 1; '-' is standard input",
            },
            Argument {
                name: "NUMBERS",
                count: Count::Flag("numbers"),
                help: "Prints the number of its line before each reply",
            },
            Argument {
                name: "STRICT",
                count: Count::Flag("strict"),
                help: "Ends with status 5 if a line is refused. All lines are run",
            },
        ],
    },
    CommandRow {
        name: "migrate",
        about: "Gives an image a chain of tables, and prints 'ok'",
        after_help: Some(MIGRATION),
        usage: None,
        arguments: &[
            IMAGE,
            Argument {
                name: "OUT",
                count: Count::One,
                help: "File for the new image. One that is there is replaced, once the\n\
                    image is whole",
            },
        ],
    },
    CommandRow {
        name: "map",
        about: "Draws an image, as text or as SVG: where chunks and free space are",
        after_help: Some(MAPS),
        usage: None,
        arguments: &[
            IMAGE,
            Argument {
                name: "OUT",
                count: Count::AtMostOne,
                help: "File for the picture as SVG. One that is there is replaced, once the\n\
                    new one is whole; '-' is standard output. Without OUT the\n\
                    picture is printed as text",
            },
        ],
    },
    CommandRow {
        name: "list",
        about: "Lists PDB and PRC files: the header, the entries and their places",
        after_help: Some(LISTINGS),
        usage: None,
        arguments: &[
            Argument {
                name: "FILE",
                count: Count::Several,
                help: "PDB or PRC files, of at most 4294967295 bytes each; '-' is\n\
                    standard input, and './-' a file of that name",
            },
            Argument {
                name: "JSON",
                count: Count::Flag("json"),
                help: "Prints the same facts as JSON, on one line for each file",
            },
            Argument {
                name: "PATH",
                count: Count::Flag("path"),
                help: "Prints the path of the file also if there is only one",
            },
        ],
    },
    CommandRow {
        name: "canonical",
        about: "Rewrites a PDB or PRC file, or checks what that would change",
        after_help: Some(CANONICAL_FORMS),
        usage: Some(CANONICAL_USAGE),
        arguments: &[
            DATABASE_FILE,
            Argument {
                name: "OUT",
                count: Count::SeveralUnless("CHECK"),
                help: "File for the rewritten database. One that is there is replaced,\n\
                    once the new one is whole; '-' is standard output. With --check\n\
                    these are more files to check",
            },
            Argument {
                name: "CHECK",
                count: Count::Flag("check"),
                help: "Writes nothing, and prints for each file what would change",
            },
            Argument {
                name: "KEEP",
                count: Count::Option("keep"),
                help: "Keeps what the list names: ids, filler or order, with\n\
                    commas between the words, as in 'ids,order'",
            },
            Argument {
                name: "PATH",
                count: Count::FlagWith {
                    name: "path",
                    flag: "CHECK",
                },
                help: "Prints the path of the file also if there is only one",
            },
        ],
    },
    CommandRow {
        name: "salvage",
        about: "Writes the sound parts of a damaged PDB or PRC file",
        after_help: Some(SALVAGES),
        usage: None,
        arguments: &[
            DATABASE_FILE,
            Argument {
                name: "OUT",
                count: Count::One,
                help: "File for the salvaged database. One that is there is replaced,\n\
                    once the new one is whole; '-' is standard output",
            },
            Argument {
                name: "EXACT_IDS",
                count: Count::Flag("exact-ids"),
                help: "Keeps each record's ID, even 0 or that of another record",
            },
        ],
    },
    CommandRow {
        name: "get",
        about: "Writes the bytes of one block of a PDB or PRC file to standard output",
        after_help: Some(BLOCKS),
        usage: None,
        arguments: &[
            READ_FILE,
            Argument {
                name: "BLOCK",
                count: Count::One,
                help: "Index of a record or resource, from 0; 'app' or 'sort'; or the type\n\
                    of a resource: four bytes, or 'x:' and eight hex digits",
            },
            Argument {
                name: "ID",
                count: Count::AtMostOne,
                help: "The id of the resource, below 65536, after its type",
            },
        ],
    },
    CommandRow {
        name: "put",
        about: "Writes a PDB or PRC file anew, with the bytes of one block replaced",
        after_help: Some(NEW_BLOCKS),
        usage: None,
        arguments: &[
            DATABASE_FILE,
            Argument {
                name: "BLOCK",
                count: Count::One,
                help: "Index of a record or resource, from 0; or 'app' or 'sort'",
            },
            Argument {
                name: "PART",
                count: Count::One,
                help: "File with the new bytes of the block; '-' is standard input",
            },
            Argument {
                name: "OUT",
                count: Count::One,
                help: "File for the new database. One that is there is replaced, once\n\
                    the new one is whole; '-' is standard output",
            },
        ],
    },
    CommandRow {
        name: "unpack",
        about: "Takes a PDB or PRC file apart into a text and a file per block",
        after_help: Some(UNPACKING),
        usage: None,
        arguments: &[
            DATABASE_FILE,
            Argument {
                name: "DIR",
                count: Count::One,
                help: "Folder to make. There must be none of that name",
            },
            Argument {
                name: "EXACT",
                count: Count::Flag("exact"),
                help: "Keeps all of the file: 'pack' gives it back, byte for byte",
            },
        ],
    },
    CommandRow {
        name: "pack",
        about: "Puts a PDB or PRC file together from a folder of 'unpack'",
        after_help: Some(PACKING),
        usage: None,
        arguments: &[
            Argument {
                name: "DIR",
                count: Count::One,
                help: "Folder with the text 'database' and the parts that it names",
            },
            Argument {
                name: "FILE",
                count: Count::One,
                help: "File for the database. One that is there is replaced, once the new\n\
                    one is whole",
            },
        ],
    },
    CommandRow {
        name: "databases",
        about: "Prints a line for each database of an image",
        after_help: Some(STORES),
        usage: None,
        arguments: &[IMAGE, JSON],
    },
    CommandRow {
        name: "export",
        about: "Writes the databases of an image into a folder, as files",
        after_help: Some(STORES),
        usage: None,
        arguments: &[
            IMAGE,
            Argument {
                name: "DIR",
                count: Count::One,
                help: "Folder for the files. It is made if there is none. No file that is\n\
                    there is replaced",
            },
            Argument {
                name: "NAME",
                count: Count::Any,
                help: "Names of databases. Without any, all databases are written",
            },
        ],
    },
    CommandRow {
        name: "import",
        about: "Makes an image with the databases of PDB and PRC files in it",
        after_help: Some(STORES),
        usage: None,
        arguments: &[
            Argument {
                name: "OUT",
                count: Count::One,
                help: "File for the image. One that is there is replaced, once the image\n\
                    is whole",
            },
            Argument {
                name: "FILE",
                count: Count::Several,
                help: "PDB and PRC files, in the order in which they are imported; '-' is\n\
                    standard input",
            },
            Argument {
                name: "SIZE",
                count: Count::Option("size"),
                help: "Size of the image in bytes. Without it, the least that\n\
                    the files need",
            },
            Argument {
                name: "SLOTS",
                count: Count::Option("slots"),
                help: "How many slots its table has. Without it, the least\n\
                    that the files need",
            },
        ],
    },
    CommandRow {
        name: "explain",
        about: "Prints what a fault or a refusal means",
        after_help: Some(MEANINGS),
        usage: None,
        arguments: &[Argument {
            name: "WORD",
            count: Count::Several,
            help: "Name of a fault, a refusal or a change, or the number of a refusal.\n\
                What follows it is ignored. Or a line that was printed",
        }],
    },
];

const DATABASE_FILE: Argument = Argument {
    name: "FILE",
    count: Count::One,
    help: "PDB or PRC file, of at most 4294967293 bytes; '-' is standard input,\n\
        and './-' a file of that name",
};

/// A file of which no new one is written.
const READ_FILE: Argument = Argument {
    name: "FILE",
    count: Count::One,
    help: "PDB or PRC file, of at most 4294967295 bytes; '-' is standard input,\n\
        and './-' a file of that name",
};

const IMAGE: Argument = Argument {
    name: "IMAGE",
    count: Count::One,
    help: "File with the image; '-' is standard input, and './-' a file of\n\
        that name",
};

const JSON: Argument = Argument {
    name: "JSON",
    count: Count::Flag("json"),
    help: "Prints one JSON document with the same facts, on one line",
};
