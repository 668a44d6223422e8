//! Scripts by their text: the spellings of each kind at their limits, each command's line, line and
//! word numbers, and the order of faults; and memory that is refused. What a line reads as is its
//! `Debug` text, in which a call has the names and the order of its fields.

use heap_model::{Call, MemoryCall};
use script_lines::{LentBytes, Line, LineCall, LineFault, Script, ScriptFault, parse, parse_from};
use std::alloc::{AllocError, Global};
use std::fmt::Debug;
use std::test::*;
use test_support::{RefusesOne, equal};

fn put<T: Debug>(text: &mut String, word: &str, line: &T) -> Result<(), AllocError> {
    write!(text, "{word}{line:?};")
}

/// A call that gives bytes, behind its command: its chunk, where they go to, and the bytes, 16 at
/// most.
fn put_given<C: Debug>(
    text: &mut String,
    word: &str,
    name: &C,
    at: u32,
    bytes: &LentBytes<'_>,
) -> Result<(), AllocError> {
    let mut buffer = [0; 16];
    if bytes.len() > buffer.len() {
        return put(text, "long ", bytes);
    }
    put(text, word, &(name, at, bytes.decoded(&mut buffer)))
}

fn put_call(text: &mut String, call: &LineCall<'_>) -> Result<(), AllocError> {
    match call {
        Call::Memory(MemoryCall::Write { name, at, bytes }) => {
            put_given(text, "write ", name, *at, bytes)
        }
        Call::Memory(
            MemoryCall::StrCopy {
                name,
                at,
                text: copied,
            },
        ) => { put_given(text, "strcopy ", name, *at, copied) }
        call => put(text, "", call),
    }
}

/// A line as its call, in a pair behind the label that it binds. A call whose answer isn't printed
/// stands behind `silent`.
fn put_line(text: &mut String, line: &Line<'_>) -> Result<(), AllocError> {
    match line {
        Line::Bind { label, name } => put(text, "", &(label, name)),
        Line::Print(call) => put_call(text, call),
        Line::Silent(call) => put(text, "silent ", call),
        Line::BindChunk(label, call) => put(text, "", &(label, call)),
        Line::BindDatabase(label, call) => put(text, "", &(label, call)),
        Line::Import { label, file } => put(text, "import ", &(label, file)),
        Line::Export(db) => put(text, "export ", db),
    }
}

fn put_lines(text: &mut String, script: &Script<'_>) -> Result<(), AllocError> {
    for line in script.lines() {
        put_line(text, line)?;
    }
    Ok(())
}

/// What a script reads as: its lines, `;` behind each, or its fault.
fn shown(alloc: Global, script: &[u8]) -> Result<String, AllocError> {
    let mut text = String::new(alloc);
    match parse(alloc, script) {
        Ok(script) => put_lines(&mut text, &script)?,
        Err(fault) => write!(text, "{fault}")?,
    }
    Ok(text)
}

/// A script reads as this.
fn check_case(alloc: Global, script: &[u8], wanted: &str) -> Result<(), Fail> {
    let said = shown(alloc, script)?;
    equal(format_args!("{script:?}"), said.as_str(), wanted)
}

/// The line in a row, and what stands behind the mark: nothing where there is none.
pub(crate) fn halves<'a>(row: &'a str, mark: &str) -> (&'a str, &'a str) {
    row.trim().split_once(mark).unwrap_or((row, ""))
}

/// Each line of a text reads as what stands behind it.
fn check_lines(alloc: Global, text: &str) -> Result<(), Fail> {
    for row in text.lines() {
        let (line, wanted) = halves(row, " => ");
        check_case(alloc, line.as_bytes(), wanted)?;
    }
    Ok(())
}

#[test]
fn lines_are_read(rt: HostRuntime) -> Result<(), Fail> {
    check_lines(rt.alloc(), LINES)
}

fn check_scripts(alloc: Global, cases: &[(&str, &str)]) -> Result<(), Fail> {
    for (script, wanted) in cases {
        check_case(alloc, script.as_bytes(), wanted)?;
    }
    Ok(())
}

#[test]
fn scripts_are_read(rt: HostRuntime) -> Result<(), Fail> {
    check_scripts(rt.alloc(), &SCRIPTS)
}

#[test]
fn scripts_that_are_no_text_are_read(rt: HostRuntime) -> Result<(), Fail> {
    for (script, wanted) in &NO_TEXTS {
        check_case(rt.alloc(), script, wanted)?;
    }
    Ok(())
}

/// Lines, and behind ` => ` what each reads as, as a script of its own. A line without that reads
/// as nothing.
const LINES: &str = "# commands
    bind a 16 => (ChunkLabel(0), 16);
    new a 8 1 => (ChunkLabel(0), Memory(HandleNew { size: 8, owner: 1 }));
    ptrnew a 8 1 => (ChunkLabel(0), Memory(PtrNew { size: 8, owner: 1 }));
    free a => Memory(Free(ChunkLabel(0)));
    resize a 4294967295 => Memory(Resize { name: ChunkLabel(0), size: 4294967295 });
    setowner a 14 => Memory(SetOwner { name: ChunkLabel(0), owner: 14 });
    lock a => Memory(Lock(ChunkLabel(0)));
    unlock a => Memory(Unlock(ChunkLabel(0)));
    size a => Memory(Size(ChunkLabel(0)));
    owner a => Memory(Owner(ChunkLabel(0)));
    locks a => Memory(Locks(ChunkLabel(0)));
    read a 1 2 => Memory(Read { name: ChunkLabel(0), at: 1, count: 2 });
    write a 9 4142 => write (ChunkLabel(0), 9, [65, 66]);
    set a 1 2 3 => Memory(Set { name: ChunkLabel(0), at: 1, count: 2, byte: 3 });
    strcopy a 8 \"x\" => strcopy (ChunkLabel(0), 8, [120]);
    freeowner 3 => Memory(FreeByOwner(3));
    freebytes => Memory(FreeBytes);
    largest => Memory(LargestStretch);
    compact => silent Memory(Compact);
    moreslots => Memory(MoreSlots);
    moreslots 1 => line 1 WrongCount
    more_slots => line 1 UnknownCommand
    # no commands: others of the managers, other cases, parts, quoted words
    recover 40 => line 1 UnknownCommand
    New a 8 1 => line 1 UnknownCommand
    ne a 8 1 => line 1 UnknownCommand
    newa 8 1 => line 1 UnknownCommand
    \"new\" a 8 1 => line 1 UnknownCommand
    \"\" => line 1 UnknownCommand
    frob \"a\" => line 1 UnknownCommand
    \"#\" => line 1 UnknownCommand
    # numbers
    freeowner 0 => Memory(FreeByOwner(0));
    freeowner 255 => Memory(FreeByOwner(255));
    freeowner 256 => line 1 BadWord 2
    freeowner 0xff => Memory(FreeByOwner(255));
    freeowner 0x000000Ff => Memory(FreeByOwner(255));
    freeowner 0x100 => line 1 BadWord 2
    freeowner 0000000255 => Memory(FreeByOwner(255));
    freeowner 00000000255 => line 1 BadWord 2
    bind a 4294967295 => (ChunkLabel(0), 4294967295);
    bind a 4294967296 => line 1 BadWord 3
    bind a 9999999999 => line 1 BadWord 3
    bind a 04294967295 => line 1 BadWord 3
    bind a 0xFFFFFFFF => (ChunkLabel(0), 4294967295);
    bind a 0xfffffff0 => (ChunkLabel(0), 4294967280);
    bind a 0x0 => (ChunkLabel(0), 0);
    bind a 0x => line 1 BadWord 3
    bind a 0x000000001 => line 1 BadWord 3
    bind a 0X1 => line 1 BadWord 3
    bind a 0x1g => line 1 BadWord 3
    bind a a => line 1 BadWord 3
    bind a 1a => line 1 BadWord 3
    bind a -1 => line 1 BadWord 3
    bind a +1 => line 1 BadWord 3
    bind a - => line 1 BadWord 3
    bind a 1. => line 1 BadWord 3
    bind a \"1\" => line 1 BadWord 3
    bind a 1/ => line 1 BadWord 3
    bind a 1: => line 1 BadWord 3
    bind a 0000000001 => (ChunkLabel(0), 1);
    bind a 00000000001 => line 1 BadWord 3
    bind a 0xfFfFfFfF => (ChunkLabel(0), 4294967295);
    read a 0 0x1G => line 1 BadWord 4
    # labels
    free Z => Memory(Free(ChunkLabel(0)));
    free z_9A => Memory(Free(ChunkLabel(0)));
    free a_1 => Memory(Free(ChunkLabel(0)));
    free abcdefghijabcdefghijabcdefghijk => Memory(Free(ChunkLabel(0)));
    free abcdefghijabcdefghijabcdefghijkl => line 1 BadWord 2
    free 1a => line 1 BadWord 2
    free _a => line 1 BadWord 2
    free a-b => line 1 BadWord 2
    free a@ => line 1 BadWord 2
    free [ => line 1 BadWord 2
    free ` => line 1 BadWord 2
    free { => line 1 BadWord 2
    free \"a\" => line 1 BadWord 2
    free new => Memory(Free(ChunkLabel(0)));
    # bytes, and texts
    write a 0 - => write (ChunkLabel(0), 0, []);
    write a 0 00fFa9 => write (ChunkLabel(0), 0, [0, 255, 169]);
    write a 0 4 => line 1 BadWord 4
    write a 0 414 => line 1 BadWord 4
    write a 0 4g => line 1 BadWord 4
    write a 0 g4 => line 1 BadWord 4
    write a 0 -- => line 1 BadWord 4
    write a 0 -41 => line 1 BadWord 4
    write a 0 0x41 => line 1 BadWord 4
    write a 0 x:41 => line 1 BadWord 4
    write a 0 \"41\" => line 1 BadWord 4
    strcopy a 0 \"\" => strcopy (ChunkLabel(0), 0, []);
    strcopy a 0 \" ~\" => strcopy (ChunkLabel(0), 0, [32, 126]);
    strcopy a 0 \"#\" => strcopy (ChunkLabel(0), 0, [35]);
    strcopy a 0 x: => strcopy (ChunkLabel(0), 0, []);
    strcopy a 0 x:7E22 => strcopy (ChunkLabel(0), 0, [126, 34]);
    strcopy a 0 x:7 => line 1 BadWord 4
    strcopy a 0 x:7e2 => line 1 BadWord 4
    strcopy a 0 x:7g => line 1 BadWord 4
    strcopy a 0 X:7e => line 1 BadWord 4
    strcopy a 0 x => line 1 BadWord 4
    strcopy a 0 - => line 1 BadWord 4
    strcopy a 0 7e => line 1 BadWord 4
    strcopy a 0 a\"b\" => line 1 BadWord 4
    # records
    recnew d 1 2 h => (ChunkLabel(0), Record(New { db: DatabaseLabel(0), at: 1, size: 2 }));
    recdelete d 4294967295 => Record(Delete(DatabaseLabel(0), 4294967295));
    recarchive d 0 => Record(Archive(DatabaseLabel(0), 0));
    recremove d 0xff => Record(Remove(DatabaseLabel(0), 255));
    recmove d 1 2 => Record(Move { db: DatabaseLabel(0), from: 1, to: 2 });
    recget d 3 h => (ChunkLabel(0), Record(Get(DatabaseLabel(0), 3)));
    recquery d 3 h => (ChunkLabel(0), Record(Query(DatabaseLabel(0), 3)));
    recrelease d 3 0 => Record(Release { db: DatabaseLabel(0), index: 3, dirty: false });
    recrelease d 3 1 => Record(Release { db: DatabaseLabel(0), index: 3, dirty: true });
    recinfo d 3 => Record(Info(DatabaseLabel(0), 3));
    recresize d 1 2 => Record(Resize { db: DatabaseLabel(0), index: 1, size: 2 });
    reccount d => Record(Count(DatabaseLabel(0)));
    # too few words, and too many
    recnew d 1 2 => line 1 WrongCount
    recnew d 1 2 h 0 => line 1 WrongCount
    recdelete d => line 1 WrongCount
    recarchive d 0 0 => line 1 WrongCount
    recremove => line 1 WrongCount
    recmove d 0 => line 1 WrongCount
    recget d 0 => line 1 WrongCount
    recquery d h => line 1 WrongCount
    recrelease d 0 => line 1 WrongCount
    recinfo d 0 h => line 1 WrongCount
    recresize d 0 => line 1 WrongCount
    reccount => line 1 WrongCount
    # words that aren't of their kinds
    recnew 0 1 2 h => line 1 BadWord 2
    recnew d -1 2 h => line 1 BadWord 3
    recnew d 1 4294967296 h => line 1 BadWord 4
    recnew d 1 2 3 => line 1 BadWord 5
    recget d h 0 => line 1 BadWord 3
    recquery d 0 _h => line 1 BadWord 4
    recmove d 0 x => line 1 BadWord 4
    recrelease d 0 2 => line 1 BadWord 4
    recresize d \"0\" 0 => line 1 BadWord 3
    reccount 1d => line 1 BadWord 2
    recfree d 0 => line 1 UnknownCommand
    # categories
    recdetach d 1 2 h => (ChunkLabel(0), Record(Detach { db: DatabaseLabel(0), index: 1, owner: 2 }));
    recset d 1 0xF3 4294967295 => Record(SetInfo { db: DatabaseLabel(0), index: 1, attributes: 243, id: 4294967295 });
    recfind d 9 => Record(FindById(DatabaseLabel(0), 9));
    catcount d 255 => Record(CountInCategory(DatabaseLabel(0), 255));
    catnext d 4294967295 3 => Record(NextInCategory { db: DatabaseLabel(0), from: 4294967295, category: 3 });
    catpos d 4 16 => Record(PositionInCategory { db: DatabaseLabel(0), index: 4, category: 16 });
    catmove d 5 3 0 => Record(MoveCategory { db: DatabaseLabel(0), to: 5, from: 3, dirty: false });
    catmove d 5 3 1 => Record(MoveCategory { db: DatabaseLabel(0), to: 5, from: 3, dirty: true });
    catdelete d 0x0f => Record(DeleteCategory(DatabaseLabel(0), 15));
    # too few words, and too many
    recdetach d 1 2 => line 1 WrongCount
    recdetach d 1 2 h 0 => line 1 WrongCount
    recset d 1 2 => line 1 WrongCount
    recset d 1 2 3 4 => line 1 WrongCount
    recfind d => line 1 WrongCount
    catcount d => line 1 WrongCount
    catnext d 0 => line 1 WrongCount
    catpos d 0 1 2 => line 1 WrongCount
    catmove d 5 3 => line 1 WrongCount
    catdelete d 5 3 => line 1 WrongCount
    # words that aren't of their kinds
    recdetach 0 1 2 h => line 1 BadWord 2
    recdetach d h 2 h => line 1 BadWord 3
    recdetach d 1 256 h => line 1 BadWord 4
    recdetach d 1 2 3 => line 1 BadWord 5
    recset d x 2 3 => line 1 BadWord 3
    recset d 1 256 3 => line 1 BadWord 4
    recset d 1 2 4294967296 => line 1 BadWord 5
    recfind d \"9\" => line 1 BadWord 3
    catcount d 256 => line 1 BadWord 3
    catnext d -1 3 => line 1 BadWord 3
    catnext d 0 256 => line 1 BadWord 4
    catpos d 0 all => line 1 BadWord 4
    catmove d 256 3 1 => line 1 BadWord 3
    catmove d 5 256 1 => line 1 BadWord 4
    catmove d 5 3 2 => line 1 BadWord 5
    catdelete 5 d => line 1 BadWord 2
    catdelete d - => line 1 BadWord 3
    catset d 0 0 => line 1 UnknownCommand
    # resources
    resnew d \"code\" 65535 4294967295 h => (ChunkLabel(0), Resource(New { db: DatabaseLabel(0), kind: 1668244581, \
        id: 65535, size: 4294967295 }));
    resattach d x:00fF1022 0xffff h => Resource(Attach { db: DatabaseLabel(0), kind: 16715810, id: 65535, \
        name: ChunkLabel(0) });
    resdetach d 1 14 h => (ChunkLabel(0), Resource(Detach { db: DatabaseLabel(0), index: 1, owner: 14 }));
    resremove d 4294967295 => Resource(Remove(DatabaseLabel(0), 4294967295));
    resresize d 1 2 => Resource(Resize { db: DatabaseLabel(0), index: 1, size: 2 });
    resinfo d 1 h => (ChunkLabel(0), Resource(Info(DatabaseLabel(0), 1)));
    resset d 1 \"a ~b\" 0 => Resource(SetInfo { db: DatabaseLabel(0), index: 1, kind: 1629519458, id: 0 });
    resfind d \"code\" 2 => Resource(Find { db: DatabaseLabel(0), kind: 1668244581, id: 2 });
    restype d \"code\" 4294967295 => Resource(FindType { db: DatabaseLabel(0), kind: 1668244581, nth: 4294967295 });
    rescount d => Resource(Count(DatabaseLabel(0)));
    # too few words, and too many
    resnew d \"code\" 0 1 => line 1 WrongCount
    resnew d \"code\" 0 1 h i => line 1 WrongCount
    resattach d \"code\" 0 => line 1 WrongCount
    resattach d \"code\" 0 h i => line 1 WrongCount
    resdetach d 0 1 => line 1 WrongCount
    resdetach d 0 1 h i => line 1 WrongCount
    resremove d => line 1 WrongCount
    resremove d 0 0 => line 1 WrongCount
    resresize d 0 => line 1 WrongCount
    resresize d 0 0 0 => line 1 WrongCount
    resinfo d 0 => line 1 WrongCount
    resinfo d 0 h i => line 1 WrongCount
    resset d 0 \"code\" => line 1 WrongCount
    resset d 0 \"code\" 0 0 => line 1 WrongCount
    resfind d \"code\" => line 1 WrongCount
    resfind d \"code\" 0 0 => line 1 WrongCount
    restype d \"code\" => line 1 WrongCount
    restype d \"code\" 0 0 => line 1 WrongCount
    rescount => line 1 WrongCount
    rescount d d => line 1 WrongCount
    # words that aren't of their kinds
    resnew 0 \"code\" 0 1 h => line 1 BadWord 2
    resnew d code 0 1 h => line 1 BadWord 3
    resnew d \"cod\" 0 1 h => line 1 BadWord 3
    resnew d \"code\" 65536 1 h => line 1 BadWord 4
    resnew d \"code\" 0 4294967296 h => line 1 BadWord 5
    resnew d \"code\" 0 1 2 => line 1 BadWord 6
    resattach d \"codes\" 0 h => line 1 BadWord 3
    resattach d \"code\" 0x10000 h => line 1 BadWord 4
    resattach d \"code\" 0 1 => line 1 BadWord 5
    resdetach d h 1 h => line 1 BadWord 3
    resdetach d 0 256 h => line 1 BadWord 4
    resdetach d 0 1 2 => line 1 BadWord 5
    resremove d \"code\" => line 1 BadWord 3
    resresize d 0 -1 => line 1 BadWord 4
    resinfo d 0 \"h\" => line 1 BadWord 4
    resset d \"code\" 0 0 => line 1 BadWord 3
    resset d 0 636f6465 0 => line 1 BadWord 4
    resset d 0 \"code\" 65536 => line 1 BadWord 5
    resfind d 0 \"code\" => line 1 BadWord 3
    restype d \"code\" x => line 1 BadWord 4
    resmove d 0 1 => line 1 UnknownCommand
    # chunks that are given
    recattach d 4294967295 h => Record(Attach { db: DatabaseLabel(0), at: 4294967295, name: ChunkLabel(0) });
    recreplace d 1 h 14 o => (ChunkLabel(1), Record(AttachReplacing { db: DatabaseLabel(0), index: 1, \
        name: ChunkLabel(0), owner: 14 }));
    recreplace d 1 h 0 h => (ChunkLabel(0), Record(AttachReplacing { db: DatabaseLabel(0), index: 1, \
        name: ChunkLabel(0), owner: 0 }));
    infoset d app h => Database(SetInfoBlock { db: DatabaseLabel(0), which: App, name: ChunkLabel(0) });
    infoset d sort h => Database(SetInfoBlock { db: DatabaseLabel(0), which: Sort, name: ChunkLabel(0) });
    infotake d app 255 h => (ChunkLabel(0), Database(TakeInfoBlock { db: DatabaseLabel(0), which: App, owner: 255 }));
    infotake d sort 1 h => (ChunkLabel(0), Database(TakeInfoBlock { db: DatabaseLabel(0), which: Sort, owner: 1 }));
    info d app h => (ChunkLabel(0), Database(InfoBlock(DatabaseLabel(0), App)));
    info d sort h => (ChunkLabel(0), Database(InfoBlock(DatabaseLabel(0), Sort)));
    # too few words, and too many
    recattach d 0 => line 1 WrongCount
    recattach d 0 h o => line 1 WrongCount
    recreplace d 0 h 1 => line 1 WrongCount
    recreplace d 0 h 1 o o => line 1 WrongCount
    infoset d app => line 1 WrongCount
    infoset d app h h => line 1 WrongCount
    infotake d app 1 => line 1 WrongCount
    infotake d app 1 h h => line 1 WrongCount
    info d app => line 1 WrongCount
    info d app h h => line 1 WrongCount
    # words that aren't of their kinds
    recattach d h 0 => line 1 BadWord 3
    recattach d 0 1 => line 1 BadWord 4
    recreplace 0 0 h 1 o => line 1 BadWord 2
    recreplace d 0 1 h o => line 1 BadWord 4
    recreplace d 0 h 256 o => line 1 BadWord 5
    recreplace d 0 h 1 2 => line 1 BadWord 6
    infoset 1 app h => line 1 BadWord 2
    infoset d App h => line 1 BadWord 3
    infoset d SORT h => line 1 BadWord 3
    infoset d \"app\" h => line 1 BadWord 3
    infoset d ap h => line 1 BadWord 3
    infoset d apps h => line 1 BadWord 3
    infoset d 0 h => line 1 BadWord 3
    infotake d sorts 1 h => line 1 BadWord 3
    infotake d sort x h => line 1 BadWord 4
    info d h app => line 1 BadWord 3
    info d app 0 => line 1 BadWord 4
    infofree d app => line 1 UnknownCommand
    # databases
    create d \"No\" \"DATA\" \"Test\" 0 7 => (DatabaseLabel(0), Database(Create { name: DbName { bytes: [78, 111, \
        0, 0, 0, 0, 0, 0, 0, 0, 0, 0, 0, 0, 0, 0, 0, 0, 0, 0, 0, 0, 0, 0, 0, 0, 0, 0, 0, 0, 0, 0], length: 2 }, \
        kind: 1145132097, creator: 1415934836, resources: false, date: 7 }));
    create d x: x:00fF1022 \"a ~b\" 1 0xffffffff => (DatabaseLabel(0), Database(Create { name: DbName { bytes: [0, \
        0, 0, 0, 0, 0, 0, 0, 0, 0, 0, 0, 0, 0, 0, 0, 0, 0, 0, 0, 0, 0, 0, 0, 0, 0, 0, 0, 0, 0, 0, 0], length: 0 }, \
        kind: 16715810, creator: 1629519458, resources: true, date: 4294967295 }));
    find d \"Order\" => (DatabaseLabel(0), Database(Find(DbName { bytes: [79, 114, 100, 101, 114, 0, 0, 0, 0, 0, 0, \
        0, 0, 0, 0, 0, 0, 0, 0, 0, 0, 0, 0, 0, 0, 0, 0, 0, 0, 0, 0, 0], length: 5 })));
    # of a name the first 32 bytes are kept, one more than a name may have
    find d \"abcdefghijabcdefghijabcdefghijabcdefghij\" => (DatabaseLabel(0), Database(Find(DbName { bytes: [97, \
        98, 99, 100, 101, 102, 103, 104, 105, 106, 97, 98, 99, 100, 101, 102, 103, 104, 105, 106, 97, 98, 99, 100, \
        101, 102, 103, 104, 105, 106, 97, 98], length: 32 })));
    nth d 4294967295 => (DatabaseLabel(0), Database(Nth(4294967295)));
    dbcount => Database(Count);
    dbdelete d => Database(Delete(DatabaseLabel(0)));
    dbinfo d => Database(Info(DatabaseLabel(0)));
    dbset d \"N\" 0xFFFF 65535 1 2 3 \"DATA\" x:54657374 => Database(SetInfo(DatabaseLabel(0), DbInfo { \
        name: DbName { bytes: [78, 0, 0, 0, 0, 0, 0, 0, 0, 0, 0, 0, 0, 0, 0, 0, 0, 0, 0, 0, 0, 0, 0, 0, 0, 0, 0, 0, \
        0, 0, 0, 0], length: 1 }, attributes: 65535, version: 65535, creation_date: 1, modification_date: 2, \
        backup_date: 3, modification_number: 0, kind: 1145132097, creator: 1415934836, seed: 0, entry_count: 0 }));
    # texts
    create d \"No => line 1 BadWord 3
    create d \"No\"x \"DATA\" \"Test\" 0 0 => line 1 BadWord 3
    create d No \"DATA\" \"Test\" 0 0 => line 1 BadWord 3
    find d - => line 1 BadWord 3
    # types and creators have four bytes
    create d \"N\" \"DAT\" \"Test\" 0 0 => line 1 BadWord 4
    create d \"N\" \"DATAS\" \"Test\" 0 0 => line 1 BadWord 4
    create d \"N\" \"\" \"Test\" 0 0 => line 1 BadWord 4
    create d \"N\" x:444154 \"Test\" 0 0 => line 1 BadWord 4
    create d \"N\" x:4441544 \"Test\" 0 0 => line 1 BadWord 4
    create d \"N\" x:4441544g \"Test\" 0 0 => line 1 BadWord 4
    create d \"N\" x:4441544142 \"Test\" 0 0 => line 1 BadWord 4
    create d \"N\" DATA \"Test\" 0 0 => line 1 BadWord 4
    create d \"N\" 44415441 \"Test\" 0 0 => line 1 BadWord 4
    create d \"N\" \"DATA\" x: 0 0 => line 1 BadWord 5
    # flags
    create d \"N\" \"DATA\" \"Test\" 2 0 => line 1 BadWord 6
    create d \"N\" \"DATA\" \"Test\" 01 0 => line 1 BadWord 6
    create d \"N\" \"DATA\" \"Test\" 0x1 0 => line 1 BadWord 6
    create d \"N\" \"DATA\" \"Test\" \"1\" 0 => line 1 BadWord 6
    # numbers below 2^16
    dbset d \"N\" 65536 0 0 0 0 \"DATA\" \"Test\" => line 1 BadWord 4
    dbset d \"N\" 0 0x10000 0 0 0 \"DATA\" \"Test\" => line 1 BadWord 5
    dbset d \"N\" 0 0 0 0 4294967296 \"DATA\" \"Test\" => line 1 BadWord 8
    dbset d \"N\" 0 0 0 0 0 \"DATA\" \"Tes\" => line 1 BadWord 10
    # labels
    nth 1 0 => line 1 BadWord 2
    dbinfo \"d\" => line 1 BadWord 2
    # counts, and commands of other cases
    dbinfo => line 1 WrongCount
    dbcount d => line 1 WrongCount
    nth d => line 1 WrongCount
    find d \"a\" \"b\" => line 1 WrongCount
    create d \"N\" \"DAT\" \"Test\" 0 => line 1 WrongCount
    dbDelete d => line 1 UnknownCommand
    # files
    import d 1 => import (DatabaseLabel(0), 1);
    import d 0 => import (DatabaseLabel(0), 0);
    import d 0xFFFFFFFF => import (DatabaseLabel(0), 4294967295);
    export d => export DatabaseLabel(0);
    # too few words, and too many; words that aren't of their kinds, and commands of other cases
    import d => line 1 WrongCount
    import d 1 2 => line 1 WrongCount
    export => line 1 WrongCount
    export d 1 => line 1 WrongCount
    import 1 1 => line 1 BadWord 2
    import \"d\" 1 => line 1 BadWord 2
    import d x => line 1 BadWord 3
    import d \"1\" => line 1 BadWord 3
    import d 4294967296 => line 1 BadWord 3
    export 1 => line 1 BadWord 2
    export \"d => line 1 BadWord 2
    Import d 1 => line 1 UnknownCommand
    exports d => line 1 UnknownCommand
    # a `#` behind the first word is a word
    free a # => line 1 WrongCount
    free # => line 1 BadWord 2
    # quoted words: with blanks, closed, not closed, followed
    strcopy a 0 \"a b\" => strcopy (ChunkLabel(0), 0, [97, 32, 98]);
    strcopy a 0 \"a => line 1 BadWord 4
    strcopy a 0 \" => line 1 BadWord 4
    strcopy a 0 \"a\"b => line 1 BadWord 4
    strcopy a 0 \"a\"\"b\" => line 1 BadWord 4
    # a quote inside a word is a character like others
    strcopy a 0 a\"b c\" => line 1 WrongCount
    strcopy a 0 a\"b\"c => line 1 BadWord 4
    free\" a => line 1 UnknownCommand
    # one fault each
    frob => line 1 UnknownCommand
    new a 8 => line 1 WrongCount
    read a 0 x => line 1 BadWord 4
    # a broken word comes before all else, wherever it stands
    \"frob => line 1 BadWord 1
    \"frob\"x a => line 1 BadWord 1
    \"# => line 1 BadWord 1
    frob \" => line 1 BadWord 2
    frob \"a => line 1 BadWord 2
    free a b c \"d => line 1 BadWord 5
    free 1 \"d\"e \"f => line 1 BadWord 3
    # then a word that is no command
    frob 1 2 3 => line 1 UnknownCommand
    # then the count
    free => line 1 WrongCount
    free 1 2 => line 1 WrongCount
    freebytes 1 => line 1 WrongCount
    new 1 x => line 1 WrongCount
    # then the first word that isn't of its kind
    new 1 x 256 => line 1 BadWord 2
    new a x 256 => line 1 BadWord 3
    new a 1 256 => line 1 BadWord 4
    new a 8 256 => line 1 BadWord 4
    # texts have characters that can be printed
    strcopy a 0 \"a b\t\" => line 1 BadWord 4
    strcopy a 0 \"\x1f\" => line 1 BadWord 4
    strcopy a 0 \"\x7f\" => line 1 BadWord 4
    create d \"N\" \"DAT\x7f\" \"Test\" 0 0 => line 1 BadWord 4
    # a carriage return that no line feed follows is no blank
    free a\r => line 1 BadWord 2
    freebytes\r => line 1 UnknownCommand
    \"a\"\r => line 1 BadWord 1
    fr\ree a => line 1 UnknownCommand
    strcopy a 0 \"a\"\r => line 1 BadWord 4
    # a vertical tab or a zero byte is no blank; a tab is one
    free\x0ba => line 1 UnknownCommand
    free a\x00 => line 1 BadWord 2
    strcopy a 0 \"a\"\t => strcopy (ChunkLabel(0), 0, [97]);";

/// Scripts of several lines or none, or with blanks and other characters at their ends, and what
/// they read as.
static SCRIPTS: [(&str, &str); 33] = [
    // labels are numbered in the order in which they first appear, each case apart
    (
        "free b\nfree a\nfree b\nfree B\nfree a",
        "Memory(Free(ChunkLabel(0)));Memory(Free(ChunkLabel(1)));Memory(Free(ChunkLabel(0)));\
            Memory(Free(ChunkLabel(2)));Memory(Free(ChunkLabel(1)));",
    ),
    (
        "free ab\nfree a\nfree abc\nfree ab",
        "Memory(Free(ChunkLabel(0)));Memory(Free(ChunkLabel(1)));Memory(Free(ChunkLabel(2)));\
            Memory(Free(ChunkLabel(0)));",
    ),
    (
        "# a\nfree b\n\nfree a",
        "Memory(Free(ChunkLabel(0)));Memory(Free(ChunkLabel(1)));",
    ),
    (
        "freebytes\nfreeowner 1\nfree x",
        "Memory(FreeBytes);Memory(FreeByOwner(1));Memory(Free(ChunkLabel(0)));",
    ),
    // the two tables of labels are apart
    (
        "new h 0 1\nrecget d 0 r\nrecquery e 0 d\nsize r\nreccount e",
        "(ChunkLabel(0), Memory(HandleNew { size: 0, owner: 1 }));(ChunkLabel(1), Record(Get(DatabaseLabel(0), 0)));\
            (ChunkLabel(2), Record(Query(DatabaseLabel(1), 0)));Memory(Size(ChunkLabel(1)));\
            Record(Count(DatabaseLabel(1)));",
    ),
    // a label is bound to the data that is detached
    (
        "free a\nrecdetach d 0 1 h\nsize h\ncatcount e 0",
        "Memory(Free(ChunkLabel(0)));(ChunkLabel(1), Record(Detach { db: DatabaseLabel(0), index: 0, owner: 1 }));\
            Memory(Size(ChunkLabel(1)));Record(CountInCategory(DatabaseLabel(1), 0));",
    ),
    // labels are bound to the data of what is made, asked for and detached
    (
        "free a\nresnew d \"code\" 0 1 h\nresinfo e 0 i\nresdetach d 0 1 j\nresattach d \"code\" 0 h",
        "Memory(Free(ChunkLabel(0)));(ChunkLabel(1), Resource(New { db: DatabaseLabel(0), kind: 1668244581, id: 0, \
            size: 1 }));(ChunkLabel(2), Resource(Info(DatabaseLabel(1), 0)));\
            (ChunkLabel(3), Resource(Detach { db: DatabaseLabel(0), index: 0, owner: 1 }));\
            Resource(Attach { db: DatabaseLabel(0), kind: 1668244581, id: 0, name: ChunkLabel(1) });",
    ),
    // chunks and databases have labels of their own, and a label may be a word for an info block
    (
        "new a 0 1\ninfo app app app\nrecreplace a 0 a 1 b\nsize app\nsize b",
        "(ChunkLabel(0), Memory(HandleNew { size: 0, owner: 1 }));\
            (ChunkLabel(1), Database(InfoBlock(DatabaseLabel(0), App)));\
            (ChunkLabel(2), Record(AttachReplacing { db: DatabaseLabel(1), index: 0, name: ChunkLabel(0), \
            owner: 1 }));Memory(Size(ChunkLabel(1)));Memory(Size(ChunkLabel(2)));",
    ),
    // labels of chunks and of databases are apart
    (
        "free a\nnth d 0\nnth a 1\nfree d\nnth d 2\nfree a",
        "Memory(Free(ChunkLabel(0)));(DatabaseLabel(0), Database(Nth(0)));(DatabaseLabel(1), Database(Nth(1)));\
            Memory(Free(ChunkLabel(1)));(DatabaseLabel(0), Database(Nth(2)));Memory(Free(ChunkLabel(0)));",
    ),
    // labels of lines with files are those of databases
    (
        "nth a 0\nimport b 1\nexport a\nfree b",
        "(DatabaseLabel(0), Database(Nth(0)));import (DatabaseLabel(1), 1);export DatabaseLabel(0);\
            Memory(Free(ChunkLabel(0)));",
    ),
    // no lines, and lines that are passed over
    ("", ""),
    ("\n", ""),
    ("\n \t\n\t#\n#x\n  # \"\n#\"a\"b", ""),
    // a carriage return in front of a line feed is dropped, one of them, and no other
    (
        "free a\r\nsize a\r\n",
        "Memory(Free(ChunkLabel(0)));Memory(Size(ChunkLabel(0)));",
    ),
    ("\r\nfree a\r\n", "Memory(Free(ChunkLabel(0)));"),
    ("free a\r\r\n", "line 1 BadWord 2"),
    ("\r", "line 1 UnknownCommand"),
    ("free a\nfree a \r", "line 2 WrongCount"),
    ("\r\r\n", "line 1 UnknownCommand"),
    ("#\r", ""),
    (" \r\n#\r\n", ""),
    (" \r", "line 1 UnknownCommand"),
    ("freebytes\n\r", "line 2 UnknownCommand"),
    // lines are counted over all of them
    ("# x\n\nfrob", "line 3 UnknownCommand"),
    ("\n# x\r\n\nfrob\nnew", "line 4 UnknownCommand"),
    ("free a\nnew a 8\nfrob", "line 2 WrongCount"),
    ("frob\n\"", "line 1 UnknownCommand"),
    ("free a\n\n\n\n\n\n\n\n\nread a 0 x", "line 10 BadWord 4"),
    // blanks in front, between and behind
    (" \tfree\t \ta \t", "Memory(Free(ChunkLabel(0)));"),
    ("free a\n", "Memory(Free(ChunkLabel(0)));"),
    ("free a\n\n", "Memory(Free(ChunkLabel(0)));"),
    // quoted words: with blanks, closed, not closed, followed
    ("strcopy a 0 \"a\"\r\n", "strcopy (ChunkLabel(0), 0, [97]);"),
    ("strcopy a 0 \"a\nb\"", "line 1 BadWord 4"),
];

/// Scripts that are no text, and what they read as.
static NO_TEXTS: [(&[u8], &str); 2] = [
    (b"free \xe4", "line 1 BadWord 2"),
    (b"strcopy a 0 \"\xe4\"", "line 1 BadWord 4"),
];

/// What is counted in a script.
#[derive(Clone, Copy, Debug)]
pub(crate) enum What {
    /// The labels of chunks, up to the last that it binds.
    ChunkLabels,
    /// Those of databases, likewise.
    DatabaseLabels,
    /// The most bytes that a line's call gives.
    Bytes,
    /// The lines that export a file.
    Exports,
}

fn count_in(script: &Script<'_>, what: What) -> usize {
    match what {
        What::ChunkLabels => script.chunk_label_count(),
        What::DatabaseLabels => script.database_label_count(),
        What::Bytes => script.most_bytes(),
        What::Exports => script.export_count(),
    }
}

/// How many there are in a script, if it is one.
pub(crate) fn count_of(alloc: Global, script: &[u8], what: What) -> Option<usize> {
    match parse(alloc, script) {
        Ok(script) => Some(count_in(&script, what)),
        Err(_) => None,
    }
}

fn check_count(alloc: Global, what: What, script: &str, wanted: Option<usize>) -> Result<(), Fail> {
    equal(
        format_args!("{what:?} of {script:?}"),
        count_of(alloc, script.as_bytes(), what),
        wanted,
    )
}

/// What is counted, scripts, and how many there are.
static COUNT_CASES: [(What, &str, Option<usize>); 22] = [
    (What::ChunkLabels, "", Some(0)),
    (What::ChunkLabels, "freebytes", Some(0)),
    (
        What::ChunkLabels,
        "free a\nfree b\nbind c 0\nfree d",
        Some(3),
    ),
    (
        What::ChunkLabels,
        "new a 1 1\nnth b 0\nrecget b 0 b",
        Some(2),
    ),
    (What::ChunkLabels, "free a\ninfo d app b", Some(2)),
    (
        What::ChunkLabels,
        "free a\ninfotake d app 1 b\nrecreplace d 0 a 1 c",
        Some(3),
    ),
    (
        What::ChunkLabels,
        "new a 1 1\ninfoset d app b\nrecattach d 0 c",
        Some(1),
    ),
    (What::ChunkLabels, "free a\nfree", None),
    (What::DatabaseLabels, "free a\nfree b\ndbcount", Some(0)),
    (
        What::DatabaseLabels,
        "free a\nfree b\ndbinfo a\nfind a \"\"",
        Some(1),
    ),
    (What::DatabaseLabels, "nth a 0\nnth b 0\nnth a 1", Some(2)),
    (What::DatabaseLabels, "import a 1\nexport b", Some(1)),
    (What::DatabaseLabels, "export b\nimport a 1", Some(2)),
    (What::DatabaseLabels, "nth a 0\nnth b", None),
    (What::Bytes, "new a 8 1\nread a 0 8\nset a 0 8 1", Some(0)),
    (
        What::Bytes,
        "create d \"long name\" \"DATA\" \"Test\" 0 0",
        Some(0),
    ),
    (
        What::Bytes,
        "write a 0 414243\nwrite a 0 41\nwrite a 0 -",
        Some(3),
    ),
    (
        What::Bytes,
        "strcopy a 0 x:4142\nstrcopy a 0 \"abcd\"\nwrite a 0 41",
        Some(4),
    ),
    (What::Exports, "", Some(0)),
    (What::Exports, "import d 1\nfreebytes", Some(0)),
    (
        What::Exports,
        "export d\nimport d 1\nexport d\n# export d",
        Some(2),
    ),
    (What::Exports, "export d\nexport", None),
];

#[test]
fn labels_bytes_and_exports_are_counted(rt: HostRuntime) -> Result<(), Fail> {
    for (what, script, wanted) in &COUNT_CASES {
        check_count(rt.alloc(), *what, script, *wanted)?;
    }
    Ok(())
}

/// A script that takes each kind of memory, with how many growths: 6 lines, 3 labels, which take
/// two each, and 14 values. Bytes, text and a type take none.
const EACH_GROWTH: &str =
    "new a 8 1\nwrite a 0 4142\nstrcopy a 0 \"x\"\nstrcopy b 0 x:79\nfreebytes\n\
    create a \"N\" \"DATA\" x:54657374 0 0";

const GROWTHS: u32 = 26;

const REFUSED: LineFault = LineFault {
    line: 0,
    fault: ScriptFault::OutOfMemory,
};

/// Checks the number of lines of that script, or its fault, if the growth after the first `before`
/// is refused.
fn check_without(alloc: Global, before: u32, wanted: Result<usize, LineFault>) -> Result<(), Fail> {
    let lines = match parse_from(&RefusesOne::behind(alloc, before), EACH_GROWTH.as_bytes()) {
        Ok(script) => Ok(script.lines().len()),
        Err(fault) => Err(fault),
    };
    equal(format_args!("after {before}"), lines, wanted)
}

#[test]
fn every_growth_may_be_refused(rt: HostRuntime) -> Result<(), Fail> {
    for before in 0..GROWTHS {
        check_without(rt.alloc(), before, Err(REFUSED))?;
    }
    check_without(rt.alloc(), GROWTHS, Ok(6))
}
