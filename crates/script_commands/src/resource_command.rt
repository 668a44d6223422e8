//! The commands of resources.

ghost use Rattle.std.specs.Prelude.{◌≡◌, ℕ, List};
ghost use Rattle.script_commands.specs.Commands.{line_of};
ghost use Rattle.script_commands.specs.declared.command.Command.TheVariants.{Resource as OfResources};

use crate::command::line;
use crate::line::Line;
use crate::value::Value;
use heap_model::{Call, ResourceCall};

/// A command of resources.
#[derive(Clone, Copy)]
pub enum ResourceCommand {
    New,
    Attach,
    Detach,
    Remove,
    Resize,
    Info,
    SetInfo,
    Find,
    FindType,
    Count,
}

/// The row of each command, for a macro of the module `command`.
macro_rules! resource_commands {
    ($macro:ident $with:tt) => {
        $macro! { Resource ResourceCommand $with
            New: b"resnew" (db: Database, kind: FourBytes, id: Short, size: Number, label: Chunk)
                => Line::BindChunk(label, Call::Resource(ResourceCall::New { db, kind, id, size }));
            Attach: b"resattach" (db: Database, kind: FourBytes, id: Short, name: Chunk)
                => Line::Print(Call::Resource(ResourceCall::Attach { db, kind, id, name }));
            Detach: b"resdetach" (db: Database, index: Number, owner: Byte, label: Chunk)
                => Line::BindChunk(label, Call::Resource(ResourceCall::Detach { db, index, owner }));
            Remove: b"resremove" (db: Database, index: Number)
                => Line::Print(Call::Resource(ResourceCall::Remove(db, index)));
            Resize: b"resresize" (db: Database, index: Number, size: Number)
                => Line::Print(Call::Resource(ResourceCall::Resize { db, index, size }));
            Info: b"resinfo" (db: Database, index: Number, label: Chunk)
                => Line::BindChunk(label, Call::Resource(ResourceCall::Info(db, index)));
            SetInfo: b"resset" (db: Database, index: Number, kind: FourBytes, id: Short)
                => Line::Print(Call::Resource(ResourceCall::SetInfo { db, index, kind, id }));
            Find: b"resfind" (db: Database, kind: FourBytes, id: Short)
                => Line::Print(Call::Resource(ResourceCall::Find { db, kind, id }));
            FindType: b"restype" (db: Database, kind: FourBytes, nth: Number)
                => Line::Print(Call::Resource(ResourceCall::FindType { db, kind, nth }));
            Count: b"rescount" (db: Database) => Line::Print(Call::Resource(ResourceCall::Count(db)));
        }
    };
}

pub(crate) use resource_commands;

/// Returns the line of a command, or `None` if a value isn't of its word's kind.
pub(crate) fn resource_line<'a>(command: ResourceCommand, values: &[Value]) -> Option<Line<'a>>
    ensures { (bytes : List ℕ) → line_of (OfResources command) values.now bytes ≡ result }
{
    resource_commands!(line(command values no_bytes))
}
