//! The runs.

use Output::{Refused, Taken};

/// Whether standard output takes what is printed.
#[derive(Clone, Copy)]
pub(crate) enum Output {
    Taken,
    Refused,
}

/// The words of each run behind the program's own name, and what becomes of what it prints.
pub(crate) static CASES: [(&str, Output); 235] = [
    // images that are made, or that there are not
    ("new 64 1 out.img", Taken),
    ("new 128 3 out.img", Taken),
    ("new 127 4 out.img", Taken),
    ("new 64 1 none/out.img", Taken),
    ("new 64 1 none/out.img", Refused),
    ("new 64 1 out.img", Refused),
    // images that are checked: accepted, with a fault of the heap, and with two of the databases
    ("check records.img", Taken),
    ("check long.img", Taken),
    ("check twins.img", Taken),
    ("check shared.img", Taken),
    ("check none.img", Taken),
    ("check records.img", Refused),
    // a script with files in and out, whose second database comes from the first FILE
    ("run room.img files.txt out.img order.pdb tiny.prc", Taken),
    // OUT is replaced, and nothing is read of it
    ("run blank.img calls.txt faulty.txt", Taken),
    // an image, a script or a FILE that is refused, or can't be read
    ("run shared.img files.txt out.img order.pdb tiny.prc", Taken),
    ("run room.img faulty.txt out.img", Taken),
    ("run none.img faulty.txt out.img", Taken),
    ("run shared.img none.txt out.img", Taken),
    (
        "run shared.img faulty.txt out.img order.pdb none.pdb",
        Taken,
    ),
    // outputs that are not taken: the image, the second exported file, and standard output
    ("run blank.img calls.txt none/out.img", Taken),
    ("run room.img files.txt full.img order.pdb tiny.prc", Taken),
    ("run blank.img calls.txt out.img", Refused),
    // images that get a chain of tables, or don't
    ("migrate blank.img out.img", Taken),
    ("migrate shared.img out.img", Taken),
    ("migrate none.img out.img", Taken),
    ("migrate blank.img none/out.img", Taken),
    ("migrate blank.img out.img", Refused),
    // images that are drawn, or not
    ("map records.img", Taken),
    ("map shared.img", Taken),
    ("map none.img", Taken),
    ("map records.img", Refused),
    ("map blank.img out.svg", Taken),
    ("map shared.img out.svg", Taken),
    ("map records.img none/out.svg", Taken),
    ("map records.img -", Taken),
    ("map shared.img -", Taken),
    ("map records.img -", Refused),
    // files that are listed and rewritten, and one that is damaged
    ("list order.pdb", Taken),
    ("list damaged.pdb", Taken),
    ("list none.pdb", Taken),
    ("list order.pdb", Refused),
    ("canonical order.pdb out.pdb", Taken),
    ("canonical damaged.pdb out.pdb", Taken),
    ("canonical order.pdb none/out.pdb", Taken),
    ("canonical order.pdb out.pdb", Refused),
    // standard input, which has the bytes of order.pdb, and standard output in place of a file
    ("list -", Taken),
    ("list ./-", Taken),
    ("canonical - -", Taken),
    ("canonical - -", Refused),
    ("canonical damaged.pdb -", Taken),
    // several files: whole ones, a damaged one, one that isn't there, a folder, and standard input
    ("list order.pdb tiny.prc", Taken),
    ("list order.pdb damaged.pdb tiny.prc", Taken),
    ("list damaged.pdb none.pdb files - cafe.pdb", Taken),
    ("list none.pdb tiny.prc missing.pdb", Taken),
    ("list blank.img cafe.pdb", Taken),
    ("list order.pdb tiny.prc", Refused),
    ("list none.pdb tiny.prc", Refused),
    ("list - order.pdb -", Taken),
    // one file with its path
    ("list --path tiny.prc", Taken),
    ("list --path damaged.pdb", Taken),
    ("list --path -", Taken),
    // what would change in one file and in several, and words that are too many
    ("canonical --check order.pdb", Taken),
    ("canonical --check tiny.prc", Taken),
    ("canonical --check damaged.pdb", Taken),
    ("canonical --check none.pdb", Taken),
    ("canonical --check -", Taken),
    ("canonical --check --path order.pdb", Taken),
    (
        "canonical --check order.pdb tiny.prc damaged.pdb none.pdb blank.img",
        Taken,
    ),
    ("canonical --check order.pdb tiny.prc", Refused),
    ("canonical order.pdb tiny.prc out.pdb", Taken),
    ("canonical --path order.pdb out.pdb", Taken),
    // what is kept of a file, and a list with a word that isn't known
    ("canonical --keep ids,order order.pdb out.pdb", Taken),
    ("canonical --keep filler - -", Taken),
    ("canonical --keep order damaged.pdb out.pdb", Taken),
    ("canonical --keep ids order.pdb out.pdb", Refused),
    (
        "canonical --check --keep order,ids,filler order.pdb tiny.prc",
        Taken,
    ),
    ("canonical --keep ids,name order.pdb out.pdb", Taken),
    // files that are salvaged: one without a fault, with a bad offset, cut within the entries, with
    // no name and bad info blocks, and with the IDs of the file
    ("salvage order.pdb out.pdb", Taken),
    ("salvage damaged.pdb out.pdb", Taken),
    ("salvage cut.pdb out.pdb", Taken),
    ("salvage faults.pdb out.pdb", Taken),
    ("salvage --exact-ids order.pdb out.pdb", Taken),
    ("salvage - -", Taken),
    ("salvage damaged.pdb -", Taken),
    // a file without a header, one that looks like an image, no file, and outputs that take nothing
    ("salvage calls.txt out.pdb", Taken),
    ("salvage blank.img out.pdb", Taken),
    ("salvage none.pdb out.pdb", Taken),
    ("salvage damaged.pdb blank.img", Taken),
    ("salvage damaged.pdb none/out.pdb", Taken),
    ("salvage damaged.pdb out.pdb", Refused),
    ("salvage - -", Refused),
    // one block of a file: data, none, and of standard input; resources by type and id
    ("get order.pdb 1", Taken),
    ("get order.pdb 0", Taken),
    ("get - 2", Taken),
    ("get tiny.prc tSTR 1001", Taken),
    // blocks that a file doesn't have
    ("get order.pdb 3", Taken),
    ("get order.pdb app", Taken),
    ("get order.pdb DATA 1", Taken),
    ("get tiny.prc tSTR 1002", Taken),
    ("get deleted.pdb 0", Taken),
    // a damaged file, no file, words that ask for no block, and standard output that takes nothing
    ("get damaged.pdb 0", Taken),
    ("get none.pdb 0", Taken),
    ("get order.pdb first", Taken),
    ("get order.pdb first 1", Taken),
    ("get order.pdb 1", Refused),
    ("get blank.img 0", Taken),
    // files with a block replaced: in a file, on standard output, and with its bytes on standard
    // input
    ("put order.pdb 1 calls.txt out.pdb", Taken),
    ("put tiny.prc 0 calls.txt -", Taken),
    ("put tiny.prc 1 - out.pdb", Taken),
    // a block that a file doesn't have, a damaged file, and no files
    ("put order.pdb app calls.txt out.pdb", Taken),
    ("put damaged.pdb 0 calls.txt out.pdb", Taken),
    ("put none.pdb 0 calls.txt out.pdb", Taken),
    ("put order.pdb 0 none.txt out.pdb", Taken),
    // words that ask for no block, an image that would be replaced, and outputs that take nothing
    ("put order.pdb first calls.txt out.pdb", Taken),
    ("put order.pdb 0 calls.txt blank.img", Taken),
    ("put order.pdb 0 calls.txt none/out.pdb", Taken),
    ("put order.pdb 0 calls.txt out.pdb", Refused),
    // files that are taken apart, or not: a damaged one, and folders that are there or can't be
    // made
    ("unpack order.pdb out", Taken),
    ("unpack --exact order.pdb out", Taken),
    ("unpack tiny.prc out", Taken),
    ("unpack - out", Taken),
    ("unpack damaged.pdb out", Taken),
    ("unpack order.pdb parts", Taken),
    ("unpack order.pdb none/out", Taken),
    ("unpack order.pdb out", Refused),
    // files that are put together, or not: a name that climbs, a part that is no file, and no
    // folder
    ("pack parts out.pdb", Taken),
    ("pack exact out.pdb", Taken),
    ("pack twice out.pdb", Taken),
    ("pack hollow out.pdb", Taken),
    ("pack climbs out.pdb", Taken),
    ("pack nested out.pdb", Taken),
    ("pack none out.pdb", Taken),
    ("pack parts none/out.pdb", Taken),
    ("pack parts out.pdb", Refused),
    // images whose databases are listed, or not
    ("databases records.img", Taken),
    ("databases blank.img", Taken),
    ("databases shared.img", Taken),
    ("databases none.img", Taken),
    ("databases records.img", Refused),
    // databases that are written into a folder: all, one by its name, and none of that name
    ("export records.img out", Taken),
    ("export records.img out R", Taken),
    ("export records.img out R S", Taken),
    ("export shared.img out", Taken),
    // a folder that has a file of that name
    ("export records.img files", Taken),
    // folders that can't be made or written into, and standard output that takes nothing
    ("export records.img none/out", Taken),
    ("export records.img order.pdb", Taken),
    ("export records.img out", Refused),
    // files that come to a new image: of the least size, of one that is chosen, and twice
    ("import out.img order.pdb tiny.prc", Taken),
    ("import --size 256 --slots 6 out.img tiny.prc", Taken),
    ("import out.img order.pdb tiny.prc order.pdb", Taken),
    // standard input in place of a file
    ("import out.img tiny.prc -", Taken),
    // a damaged file, one that isn't there, a size that no image has, and standard output that
    // takes nothing
    ("import out.img order.pdb damaged.pdb", Taken),
    ("import out.img none.pdb", Taken),
    ("import --size 127 out.img tiny.prc", Taken),
    ("import out.img tiny.prc", Refused),
    // the same facts as JSON: files, one that is damaged, standard input, and standard output that
    // takes nothing
    ("list --json order.pdb", Taken),
    ("list --json tiny.prc", Taken),
    ("list --json damaged.pdb", Taken),
    ("list --json none.pdb", Taken),
    ("list --json -", Taken),
    ("list --json order.pdb", Refused),
    (
        "list --json order.pdb damaged.pdb none.pdb - cafe.pdb",
        Taken,
    ),
    ("list --json --path tiny.prc", Taken),
    ("list --json --path damaged.pdb", Taken),
    ("list --json tiny.prc damaged.pdb", Refused),
    // a path outside ASCII with a backslash and a quote
    ("list --path Caf\u{e9}\\\".pdb", Taken),
    ("list --json --path Caf\u{e9}\\\".pdb", Taken),
    // images: accepted, with a fault of the heap, and with two of the databases
    ("check --json records.img", Taken),
    ("check --json long.img", Taken),
    ("check --json twins.img", Taken),
    ("check --json none.img", Taken),
    ("check --json records.img", Refused),
    // their databases
    ("databases --json records.img", Taken),
    ("databases --json blank.img", Taken),
    ("databases --json shared.img", Taken),
    ("databases --json none.img", Taken),
    ("databases --json records.img", Refused),
    // numbers of no image, and words that are no number of 32 or of 16 bits
    ("new 66 4 out.img", Taken),
    ("new 64 13 out.img", Taken),
    ("new 64 0 out.img", Taken),
    ("import --slots 0 out.img tiny.prc", Taken),
    ("new 512 70000 out.img", Taken),
    ("import --size 4294967296 out.img tiny.prc", Taken),
    // a file that looks like a database in place of an image, and images from standard input
    ("check order.pdb", Taken),
    ("check --json order.pdb", Taken),
    ("databases order.pdb", Taken),
    ("databases --json -", Taken),
    ("export order.pdb folder", Taken),
    ("run order.pdb calls.txt out.img", Taken),
    ("run order.pdb none.txt out.img", Taken),
    ("check faulty.txt", Taken),
    ("check long.img", Taken),
    ("check -", Taken),
    ("check ./-", Taken),
    ("migrate - out.img", Taken),
    ("map -", Taken),
    // a FILE that was not given, one from standard input, and a file of an earlier run
    ("run blank.img missing.txt out.img", Taken),
    ("run room.img files.txt out.img - tiny.prc", Taken),
    ("run blank.img calls.txt left.img", Taken),
    ("run blank.img - out.img", Taken),
    ("run blank.img calls.txt -", Taken),
    ("run - calls.txt out.img -", Taken),
    // replies with the numbers of their lines, and a refused line that the status reports
    (
        "run --numbers room.img files.txt out.img order.pdb tiny.prc",
        Taken,
    ),
    (
        "run --numbers --strict blank.img missing.txt out.img",
        Taken,
    ),
    ("run blank.img calls.txt out.img --strict", Taken),
    ("run --numbers --strict room.img faulty.txt out.img", Taken),
    ("run --strict blank.img missing.txt out.img", Refused),
    // the meanings of faults and refusals, by name and by number; one name of two, and none
    ("explain BadOffset", Taken),
    ("explain 25", Taken),
    ("explain BadSize", Taken),
    ("explain Frob", Taken),
    ("explain BADOFFSET 1", Taken),
    ("explain BadOffset", Refused),
    // outputs that are a database file in place of an image, or an image in place of a database
    // file
    ("new 128 4 order.pdb", Taken),
    ("migrate blank.img order.pdb", Taken),
    ("run blank.img calls.txt tiny.prc", Taken),
    ("import order.pdb tiny.prc", Taken),
    ("canonical order.pdb tiny.prc", Taken),
    ("canonical order.pdb blank.img", Taken),
    ("pack parts blank.img", Taken),
    // a picture in place of either
    ("map blank.img blank.img", Taken),
    ("map blank.img order.pdb", Taken),
    // images in place of database files: refused, and read as a database
    ("list blank.img", Taken),
    ("unpack blank.img out", Taken),
    ("canonical blank.img -", Taken),
    ("list --json wide.img", Taken),
    ("import out.img blank.img", Taken),
    // names with a byte outside ASCII
    ("list cafe.pdb", Taken),
    ("list --json cafe.pdb", Taken),
    ("databases cafe.img", Taken),
    ("databases --json cafe.img", Taken),
    // a database that is named twice
    ("export records.img out R R", Taken),
    // words that ask for no command
    ("check", Taken),
    ("--version", Taken),
    ("--version", Refused),
];
