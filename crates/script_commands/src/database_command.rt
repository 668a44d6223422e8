//! The commands of databases, and of their files.

ghost use Rattle.std.specs.Prelude.{◌≡◌};
ghost use Rattle.script_commands.specs.Commands.{line_of};
ghost use Rattle.script_commands.specs.declared.command.Command.TheVariants.{Database as OfDatabases};

use crate::command::line;
use crate::lent_bytes::LentBytes;
use crate::line::Line;
use crate::value::Value;
use heap_model::{Call, DatabaseCall, DbInfo};

/// A command of databases or of their files.
#[derive(Clone, Copy)]
pub enum DatabaseCommand {
    Create,
    Find,
    Nth,
    Count,
    Delete,
    Info,
    SetInfo,
    SetInfoBlock,
    TakeInfoBlock,
    InfoBlock,
    Import,
    Export,
}

/// The row of each command, for a macro of the module `command`.
macro_rules! database_commands {
    ($macro:ident $with:tt) => {
        $macro! { Database DatabaseCommand $with
            Create: b"create"
                (label: Database; text: Text, kind: FourBytes, creator: FourBytes, resources: Flag, date: Number)
                => Line::BindDatabase(label, Call::Database(DatabaseCall::Create {
                    name: text.name(),
                    kind,
                    creator,
                    resources,
                    date,
                }));
            Find: b"find" (label: Database; text: Text)
                => Line::BindDatabase(label, Call::Database(DatabaseCall::Find(text.name())));
            Nth: b"nth" (label: Database, index: Number)
                => Line::BindDatabase(label, Call::Database(DatabaseCall::Nth(index)));
            Count: b"dbcount" () => Line::Print(Call::Database(DatabaseCall::Count));
            Delete: b"dbdelete" (db: Database) => Line::Print(Call::Database(DatabaseCall::Delete(db)));
            Info: b"dbinfo" (db: Database) => Line::Print(Call::Database(DatabaseCall::Info(db)));
            SetInfo: b"dbset"
                (db: Database; text: Text, attributes: Short, version: Short, creation_date: Number,
                modification_date: Number, backup_date: Number, kind: FourBytes, creator: FourBytes)
                => Line::Print(Call::Database(DatabaseCall::SetInfo(db, DbInfo {
                    name: text.name(),
                    attributes,
                    version,
                    creation_date,
                    modification_date,
                    backup_date,
                    modification_number: 0,
                    kind,
                    creator,
                    seed: 0,
                    entry_count: 0,
                })));
            SetInfoBlock: b"infoset" (db: Database, which: Which, name: Chunk)
                => Line::Print(Call::Database(DatabaseCall::SetInfoBlock { db, which, name }));
            TakeInfoBlock: b"infotake" (db: Database, which: Which, owner: Byte, label: Chunk)
                => Line::BindChunk(label, Call::Database(DatabaseCall::TakeInfoBlock { db, which, owner }));
            InfoBlock: b"info" (db: Database, which: Which, label: Chunk)
                => Line::BindChunk(label, Call::Database(DatabaseCall::InfoBlock(db, which)));
            Import: b"import" (label: Database, file: Number) => Line::Import { label, file };
            Export: b"export" (db: Database) => Line::Export(db);
        }
    };
}

pub(crate) use database_commands;

/// Returns the line of a command, or `None` if a value isn't of its word's kind.
pub(crate) fn database_line<'a>(
    command: DatabaseCommand,
    values: &[Value],
    text: &LentBytes<'_>,
) -> Option<Line<'a>>
    ensures { line_of (OfDatabases command) values.now text.now ≡ result }
{
    database_commands!(line(command values text))
}
