//! The rows of the table.

ghost use Rattle.std.specs.Prelude.{◌≡◌};
ghost use Rattle.explanations.specs.Explained as words;
ghost use Rattle.explanations.specs.Subjects.{change_name, subject_name, subject_number};

use chunk_format::BlankFault;
use heap_check::HeapFault;
use heap_migration::MigrateFault;
use heap_model::{FileFault, Refusal, Which};
use script_lines::ScriptFault;
use store_check::StoreFault;

/// A change in a rewritten file. `list` and `canonical` print its name after `changes`.
#[derive(Clone, Copy)]
pub enum FileChange {
    Busy,
    Filler,
    Ids,
    Name,
    Order,
}

impl FileChange {
    /// Returns the name of the change.
    fn name(self) -> &'static str
        ensures { result.now ≡ change_name self }
    {
        match self {
            FileChange::Busy => "busy",
            FileChange::Filler => "filler",
            FileChange::Ids => "ids",
            FileChange::Name => "name",
            FileChange::Order => "order",
        }
    }
}

/// What a row explains. A row is for a fault with any numbers: those in the table have no meaning.
#[derive(Clone, Copy)]
pub enum Subject {
    /// A fault of a heap image. `check` prints it after `bad`.
    Heap(HeapFault),
    /// A fault of the databases of an image. `check` prints it after `bad` if the heap has none.
    Databases(StoreFault),
    /// A fault of a PDB or PRC file. `list` prints it after `bad`, a script line after `BadFile`.
    File(FileFault),
    /// A fault of a line of a script, or of the text of a folder. `run` and `pack` print it after
    /// `line` and the number of the line.
    Line(ScriptFault),
    /// A size or a slot count that no image has. `new` and `import` print it after `bad`.
    Blank(BlankFault),
    /// A file or an image that would be too large. `migrate`, `pack` and `import` print it after
    /// `bad`.
    Output(MigrateFault),
    /// A part that can't be empty at its place. `put` prints it after `bad`.
    EmptyPart,
    /// A change in a rewritten file.
    Change(FileChange),
    /// A refusal of a call. A script line prints it after `refused`.
    Call(Refusal),
}

impl Subject {
    /// Returns the name that is printed.
    pub(crate) fn name(self) -> &'static str
        ensures { result.now ≡ subject_name self }
    {
        match self {
            Subject::Heap(fault) => fault.name(),
            Subject::Databases(fault) => fault.name(),
            Subject::File(fault) => fault.name(),
            Subject::Line(fault) => fault.name(),
            Subject::Blank(fault) => fault.name(),
            Subject::Output(fault) => fault.name(),
            Subject::EmptyPart => "EmptyPart",
            Subject::Change(change) => change.name(),
            Subject::Call(refusal) => refusal.name(),
        }
    }

    /// Returns the number of a refusal. Faults and changes have none.
    pub(crate) fn number(self) -> Option<u8>
        ensures { result ≡ subject_number self }
    {
        match self {
            Subject::Call(refusal) => Some(refusal.number()),
            _ => None,
        }
    }
}

/// A row of the table: what it explains, its values and its text. The values are a space and a
/// letter for each number or word that is printed after the name. The text says by these letters
/// when the fault or the refusal comes, or what changes, without a period at its end. A row is a
/// tuple: definitions name the table, and they can't name one whose rows are structs with texts.
pub type Explanation = (Subject, (&'static str, &'static str));

/// The faults of an image.
static IMAGE_ROWS: [Explanation; 12] = [
    (
        Subject::Heap(HeapFault::TooShort),
        (
            "",
            "the image has under 16 bytes, or the magic is there and the size field is \
                above the length",
        ),
    ),
    (
        Subject::Heap(HeapFault::BadMagic),
        ("", "the first four bytes are neither PHI1 nor PHI2"),
    ),
    (
        Subject::Heap(HeapFault::BadSize),
        (
            "",
            "the size field isn't the length, or isn't a multiple of 8 from 64 to 16777208",
        ),
    ),
    (
        Subject::Heap(HeapFault::BadSlotCount),
        (
            "",
            "there are no slots, or less than 8 bytes are left after the first table, its \
                next in PHI2, and the padding",
        ),
    ),
    (
        Subject::Heap(HeapFault::BadReserved),
        ("", "bytes 10 and 11 aren't zero"),
    ),
    (
        Subject::Heap(HeapFault::BadPadding),
        ("", "a padding byte isn't zero"),
    ),
    (
        Subject::Heap(HeapFault::BadChunk(0)),
        (" o", "the first chunk out of shape is at the offset o"),
    ),
    (
        Subject::Heap(HeapFault::BadTable(0)),
        (
            " i",
            "only in PHI2: the next of index i in the chain, from 0, is the first that is \
                neither 0 nor the body offset of a table. A table is a fixed chunk of owner 0, \
                its length is a multiple of 4 and at least 8, and it isn't earlier in the \
                chain",
        ),
    ),
    (
        Subject::Heap(HeapFault::SlotMismatch(0)),
        (
            " s",
            "the slot at the offset s is the first in use, in the order of the chain, that \
                doesn't hold the place of a movable chunk that names it",
        ),
    ),
    (
        Subject::Heap(HeapFault::ChunkWithoutSlot(0)),
        (
            " o",
            "the chunk at the offset o is the first movable one that names no slot with its \
                place",
        ),
    ),
    (
        Subject::Heap(HeapFault::BadFixedOwner(0)),
        (
            " o",
            "the chunk at the offset o is the first fixed one with owner 15, or with owner \
                0 and no table of the chain",
        ),
    ),
    (
        Subject::Heap(HeapFault::BadDirectory),
        (
            "",
            "the directory word isn't 0, nor the offset of a slot in use whose chunk has \
                owner 0",
        ),
    ),
];

/// The faults of the databases of an image.
static DATABASE_ROWS: [Explanation; 8] = [
    (
        Subject::Databases(StoreFault::BadDirectorySlot(0)),
        (
            " i",
            "the word of index i in the directory, from 0, is incomplete, or comes after \
                the 1024th. Or it isn't the slot of a chunk of owner 0, is the directory's own \
                slot, or came earlier",
        ),
    ),
    (
        Subject::Databases(StoreFault::BadHeader(0)),
        (
            " d",
            "the chunk of the database d, from 0, is below 78 bytes, isn't zero at 72, or \
                isn't as long as its number of entries asks for. Or an info word is neither 0 \
                nor the slot of a chunk of owner 15",
        ),
    ),
    (
        Subject::Databases(StoreFault::BadEntry(0, 0)),
        (
            " d e",
            "the slot of the entry e of the database d, both from 0, is 0, and the entry \
                isn't a record with the delete bit. Or it is neither 0 nor that of a chunk of \
                owner 15",
        ),
    ),
    (
        Subject::Databases(StoreFault::SharedChunk(0)),
        (
            " s",
            "the slot at s is the least slot, by its offset, that two entries or info words \
                name",
        ),
    ),
    (
        Subject::Databases(StoreFault::StrayChunk(0)),
        (
            " s",
            "the slot at s is the least slot, by its offset, whose chunk has owner 15, and \
                no entry or info word names it. Or the chunk has owner 0, and is neither the \
                directory nor listed there",
        ),
    ),
    (
        Subject::Databases(StoreFault::BadId(0, 0)),
        (
            " d e",
            "the unique ID of the record e of the database d, both from 0, is 0, or that of \
                an earlier record of its database",
        ),
    ),
    (
        Subject::Databases(StoreFault::BadName(0)),
        (
            " d",
            "the name field of the database d, from 0, has no name: 1 to 31 bytes other \
                than zero, then zeros",
        ),
    ),
    (
        Subject::Databases(StoreFault::SameName(0)),
        (
            " d",
            "the database d, from 0, has the name of an earlier database",
        ),
    ),
];

/// The faults of a PDB or PRC file.
static FILE_ROWS: [Explanation; 5] = [
    (
        Subject::File(FileFault::Truncated),
        (
            "",
            "the file is under 78 bytes, or ends before its list of entries does",
        ),
    ),
    (
        Subject::File(FileFault::ChainedList),
        (
            "",
            "the bytes at 72 aren't zero: the list of entries would go on elsewhere",
        ),
    ),
    (
        Subject::File(FileFault::EmptyName),
        ("", "the first byte is zero"),
    ),
    (
        Subject::File(FileFault::BadInfo(Which::App)),
        (
            " b",
            "the offset of the info block b, app or sort, isn't 0, and is below the end of \
                the entries or above the length of the file",
        ),
    ),
    (
        Subject::File(FileFault::BadOffset(0)),
        (
            " e",
            "the data offset of the entry e, from 0, is the first that is below the end of \
                the entries or above the length of the file. A record with the delete bit may \
                have 0",
        ),
    ),
];

/// The faults of a line.
static LINE_ROWS: [Explanation; 3] = [
    (
        Subject::Line(ScriptFault::UnknownCommand),
        (
            "",
            "no command has this name. A quoted word names none. In the text of a folder: \
                the first word is not the one that the line needs",
        ),
    ),
    (
        Subject::Line(ScriptFault::WrongCount),
        (
            "",
            "there are too few or too many words. In the text of a folder: a line that is \
                missing has no words",
        ),
    ),
    (
        Subject::Line(ScriptFault::BadWord(0)),
        (
            " K",
            "word K, from 1, is a quoted word that isn't closed, or something follows its \
                closing quote. Or it is the first word that isn't of its kind: a text or a \
                type needs quotes. In the text of a folder, K is 1 for entry 65536",
        ),
    ),
];

/// The faults of a size or a slot count, of a file or an image that would be too large, and of a
/// part that can't be empty.
static SIZE_ROWS: [Explanation; 4] = [
    (
        Subject::Blank(BlankFault::BadSize),
        ("", "SIZE isn't a multiple of 8 from 64 to 16777208"),
    ),
    (
        Subject::Blank(BlankFault::BadSlotCount),
        (
            "",
            "SLOTS is 0, or less than 8 bytes are left after the header of 16 bytes and 4 \
                bytes for each slot, padded to a multiple of 8",
        ),
    ),
    (
        Subject::Output(MigrateFault::TooLarge),
        (
            "",
            "the image that migrate or import would write has more than 16777208 bytes, \
                import needs more than 65535 slots, or the file that pack, put or canonical --keep \
                would write has more than 4294967293 bytes",
        ),
    ),
    (
        Subject::EmptyPart,
        (
            "",
            "PART has no bytes, and the next block of the file has a lower index. With one \
                offset for both, the bytes of that block would be read as those of this one",
        ),
    ),
];

/// The changes in a rewritten file.
static CHANGE_ROWS: [Explanation; 5] = [
    (
        Subject::Change(FileChange::Busy),
        ("", "a record has the busy bit, 0x20. It is cleared"),
    ),
    (
        Subject::Change(FileChange::Filler),
        (
            "",
            "other bytes than two zeros come after the entries, up to the first block or the \
                end of a file without blocks. They become two zeros",
        ),
    ),
    (
        Subject::Change(FileChange::Ids),
        (
            "",
            "a record has the ID 0, or an earlier record's. It gets a fresh ID, and the seed \
                moves with it",
        ),
    ),
    (
        Subject::Change(FileChange::Name),
        (
            "",
            "a byte other than zero comes after the name, in its field of 32 bytes. It \
                becomes zero",
        ),
    ),
    (
        Subject::Change(FileChange::Order),
        (
            "",
            "two blocks aren't in list order: AppInfo, SortInfo, data. All are put in it",
        ),
    ),
];

/// The refusals 1 to 9.
static FIRST_CALL_ROWS: [Explanation; 9] = [
    (
        Subject::Call(Refusal::InvalidHandle),
        ("", "the name is neither a caller's chunk nor a database's"),
    ),
    (
        Subject::Call(Refusal::OwnedByDatabase),
        (
            "",
            "the chunk is a database's, even the very one that is to be replaced",
        ),
    ),
    (
        Subject::Call(Refusal::ChunkLocked),
        (
            "",
            "the lock count of the chunk, or of the entry's data, is 1 to 14. For dbdelete: \
                of some chunk of the database. For catdelete: of some record's data. For \
                resize, recresize and resresize: only if the chunk and the free chunks \
                directly after it are too small",
        ),
    ),
    (
        Subject::Call(Refusal::ChunkNotLocked),
        ("", "the lock count is 0"),
    ),
    (
        Subject::Call(Refusal::LockOverflow),
        ("", "the lock count is 14"),
    ),
    (
        Subject::Call(Refusal::ChunkFixed),
        ("", "the chunk is fixed"),
    ),
    (
        Subject::Call(Refusal::InvalidOwner),
        ("", "the owner isn't 1 to 14"),
    ),
    (
        Subject::Call(Refusal::NotEnoughSpace),
        (
            "",
            "a slot or room is missing. A chunk takes 8 bytes and its size rounded up to a \
                multiple of 8, in one stretch: all chunks from one locked or fixed chunk to \
                the next. The line largest has the most room, 'palmheap map' shows what is \
                locked, and unlock joins stretches; compact makes no room. 'palmheap check' \
                counts slots; after 'palmheap migrate', moreslots adds some",
        ),
    ),
    (
        Subject::Call(Refusal::OutOfBounds),
        (
            "",
            "the range ends after the chunk's last byte. For strcopy the zero byte counts",
        ),
    ),
];

/// The refusals 10 to 18.
static NEXT_CALL_ROWS: [Explanation; 9] = [
    (
        Subject::Call(Refusal::NoSuchDatabase),
        (
            "",
            "the label stands for no database, or no database has the name (find) or index \
                (nth)",
        ),
    ),
    (
        Subject::Call(Refusal::NotRecordDatabase),
        ("", "the database has resources"),
    ),
    (
        Subject::Call(Refusal::NotResourceDatabase),
        ("", "the database has records"),
    ),
    (
        Subject::Call(Refusal::ReadOnly),
        ("", "the attributes of the database have 0002"),
    ),
    (
        Subject::Call(Refusal::IndexOutOfRange),
        (
            "",
            "there are not that many entries. For recmove: the second number may be the \
                number of records. For catnext: no record of the category is there or later",
        ),
    ),
    (
        Subject::Call(Refusal::RecordDeleted),
        ("", "the record is deleted"),
    ),
    (
        Subject::Call(Refusal::RecordBusy),
        ("", "the record is busy"),
    ),
    (
        Subject::Call(Refusal::TooManyEntries),
        (
            "",
            "there are 1024 databases, or 65535 records or resources. Only an image with a \
                chain of tables has slots for that many resources",
        ),
    ),
    (
        Subject::Call(Refusal::InvalidCategory),
        (
            "",
            "the category isn't 0 to 15, nor 255 in catcount, catnext and catpos",
        ),
    ),
];

/// The refusals from 19 on.
static LAST_CALL_ROWS: [Explanation; 9] = [
    (
        Subject::Call(Refusal::DuplicateId),
        (
            "",
            "another record of the database has the ID, deleted or not",
        ),
    ),
    (
        Subject::Call(Refusal::UniqueIdNotFound),
        ("", "no record of the database has the ID"),
    ),
    (
        Subject::Call(Refusal::AlreadyExists),
        (
            "",
            "another database has the name. For infoset: the database has the info block",
        ),
    ),
    (
        Subject::Call(Refusal::InvalidName),
        ("", "the name isn't 1 to 31 bytes without a zero byte"),
    ),
    (
        Subject::Call(Refusal::ResourceNotFound),
        (
            "",
            "no resource has the type and the ID. For restype: not that many have the type",
        ),
    ),
    (
        Subject::Call(Refusal::NoInfoBlock),
        ("", "the database doesn't have the info block"),
    ),
    (
        Subject::Call(Refusal::BadFile(FileFault::Truncated)),
        (
            "",
            "no database is read from the file. Its first fault follows the name",
        ),
    ),
    (Subject::Call(Refusal::OutOfMemory), ("", "out of memory")),
    (
        Subject::Call(Refusal::Lent),
        (
            "",
            "never in a script: a program that uses the libraries has taken the bytes of \
                the chunk out",
        ),
    ),
];

/// A section of the table. No function names all rows: the prover spells out each constant that a
/// function names.
#[derive(Clone, Copy, Debug, PartialEq, Eq)]
pub enum Section {
    Images,
    Databases,
    Files,
    Lines,
    Sizes,
    Changes,
    FirstCalls,
    NextCalls,
    LastCalls,
}

/// All sections: the faults in the order of `Subject`, then the changes, then the refusals by their
/// numbers.
pub(crate) const SECTIONS: [Section; 9] = [
    Section::Images,
    Section::Databases,
    Section::Files,
    Section::Lines,
    Section::Sizes,
    Section::Changes,
    Section::FirstCalls,
    Section::NextCalls,
    Section::LastCalls,
];

/// Returns the rows of a section.
pub(crate) fn rows_of(section: Section) -> &'static [Explanation]
    ensures { words.rows_read result.now ≡ words.section_rows section }
{
    match section {
        Section::Images => image_rows(),
        Section::Databases => database_rows(),
        Section::Files => file_rows(),
        Section::Lines => line_rows(),
        Section::Sizes => size_rows(),
        Section::Changes => change_rows(),
        Section::FirstCalls => first_call_rows(),
        Section::NextCalls => next_call_rows(),
        Section::LastCalls => last_call_rows(),
    }
}

fn image_rows() -> &'static [Explanation]
    ensures { words.rows_read result.now ≡ words.section_rows Section.Images }
{
    &IMAGE_ROWS
}

fn database_rows() -> &'static [Explanation]
    ensures { words.rows_read result.now ≡ words.section_rows Section.Databases }
{
    &DATABASE_ROWS
}

fn file_rows() -> &'static [Explanation]
    ensures { words.rows_read result.now ≡ words.section_rows Section.Files }
{
    &FILE_ROWS
}

fn line_rows() -> &'static [Explanation]
    ensures { words.rows_read result.now ≡ words.section_rows Section.Lines }
{
    &LINE_ROWS
}

fn size_rows() -> &'static [Explanation]
    ensures { words.rows_read result.now ≡ words.section_rows Section.Sizes }
{
    &SIZE_ROWS
}

fn change_rows() -> &'static [Explanation]
    ensures { words.rows_read result.now ≡ words.section_rows Section.Changes }
{
    &CHANGE_ROWS
}

fn first_call_rows() -> &'static [Explanation]
    ensures { words.rows_read result.now ≡ words.section_rows Section.FirstCalls }
{
    &FIRST_CALL_ROWS
}

fn next_call_rows() -> &'static [Explanation]
    ensures { words.rows_read result.now ≡ words.section_rows Section.NextCalls }
{
    &NEXT_CALL_ROWS
}

fn last_call_rows() -> &'static [Explanation]
    ensures { words.rows_read result.now ≡ words.section_rows Section.LastCalls }
{
    &LAST_CALL_ROWS
}
