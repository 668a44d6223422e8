//! The commands of records.

ghost use Rattle.std.specs.Prelude.{◌≡◌, ℕ, List};
ghost use Rattle.script_commands.specs.Commands.{line_of};
ghost use Rattle.script_commands.specs.declared.command.Command.TheVariants.{Record as OfRecords};

use crate::command::line;
use crate::line::Line;
use crate::value::Value;
use heap_model::{Call, RecordCall};

/// A command of records.
#[derive(Clone, Copy)]
pub enum RecordCommand {
    New,
    Delete,
    Archive,
    Remove,
    Move,
    Get,
    Query,
    Release,
    Info,
    Resize,
    Count,
    Attach,
    AttachReplacing,
    Detach,
    SetInfo,
    Find,
    CountInCategory,
    NextInCategory,
    PositionInCategory,
    MoveCategory,
    DeleteCategory,
}

/// The row of each command, for a macro of the module `command`.
macro_rules! record_commands {
    ($macro:ident $with:tt) => {
        $macro! { Record RecordCommand $with
            New: b"recnew" (db: Database, at: Number, size: Number, label: Chunk)
                => Line::BindChunk(label, Call::Record(RecordCall::New { db, at, size }));
            Delete: b"recdelete" (db: Database, index: Number)
                => Line::Print(Call::Record(RecordCall::Delete(db, index)));
            Archive: b"recarchive" (db: Database, index: Number)
                => Line::Print(Call::Record(RecordCall::Archive(db, index)));
            Remove: b"recremove" (db: Database, index: Number)
                => Line::Print(Call::Record(RecordCall::Remove(db, index)));
            Move: b"recmove" (db: Database, from: Number, to: Number)
                => Line::Print(Call::Record(RecordCall::Move { db, from, to }));
            Get: b"recget" (db: Database, index: Number, label: Chunk)
                => Line::BindChunk(label, Call::Record(RecordCall::Get(db, index)));
            Query: b"recquery" (db: Database, index: Number, label: Chunk)
                => Line::BindChunk(label, Call::Record(RecordCall::Query(db, index)));
            Release: b"recrelease" (db: Database, index: Number, dirty: Flag)
                => Line::Print(Call::Record(RecordCall::Release { db, index, dirty }));
            Info: b"recinfo" (db: Database, index: Number) => Line::Print(Call::Record(RecordCall::Info(db, index)));
            Resize: b"recresize" (db: Database, index: Number, size: Number)
                => Line::Print(Call::Record(RecordCall::Resize { db, index, size }));
            Count: b"reccount" (db: Database) => Line::Print(Call::Record(RecordCall::Count(db)));
            Attach: b"recattach" (db: Database, at: Number, name: Chunk)
                => Line::Print(Call::Record(RecordCall::Attach { db, at, name }));
            AttachReplacing: b"recreplace" (db: Database, index: Number, name: Chunk, owner: Byte, label: Chunk)
                => Line::BindChunk(label, Call::Record(RecordCall::AttachReplacing { db, index, name, owner }));
            Detach: b"recdetach" (db: Database, index: Number, owner: Byte, label: Chunk)
                => Line::BindChunk(label, Call::Record(RecordCall::Detach { db, index, owner }));
            SetInfo: b"recset" (db: Database, index: Number, attributes: Byte, id: Number)
                => Line::Print(Call::Record(RecordCall::SetInfo { db, index, attributes, id }));
            Find: b"recfind" (db: Database, id: Number) => Line::Print(Call::Record(RecordCall::FindById(db, id)));
            CountInCategory: b"catcount" (db: Database, category: Byte)
                => Line::Print(Call::Record(RecordCall::CountInCategory(db, category)));
            NextInCategory: b"catnext" (db: Database, from: Number, category: Byte)
                => Line::Print(Call::Record(RecordCall::NextInCategory { db, from, category }));
            PositionInCategory: b"catpos" (db: Database, index: Number, category: Byte)
                => Line::Print(Call::Record(RecordCall::PositionInCategory { db, index, category }));
            MoveCategory: b"catmove" (db: Database, to: Byte, from: Byte, dirty: Flag)
                => Line::Print(Call::Record(RecordCall::MoveCategory { db, to, from, dirty }));
            DeleteCategory: b"catdelete" (db: Database, category: Byte)
                => Line::Print(Call::Record(RecordCall::DeleteCategory(db, category)));
        }
    };
}

pub(crate) use record_commands;

/// Returns the line of a command, or `None` if a value isn't of its word's kind.
pub(crate) fn record_line<'a>(command: RecordCommand, values: &[Value]) -> Option<Line<'a>>
    ensures { (bytes : List ℕ) → line_of (OfRecords command) values.now bytes ≡ result }
{
    record_commands!(line(command values no_bytes))
}
