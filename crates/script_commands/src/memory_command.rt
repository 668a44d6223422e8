//! The commands of the memory manager.

ghost use Rattle.std.specs.Prelude.{◌≡◌};
ghost use Rattle.script_commands.specs.Commands.{line_of};
ghost use Rattle.script_commands.specs.declared.command.Command.TheVariants.{Memory};

use crate::command::line;
use crate::lent_bytes::LentBytes;
use crate::line::Line;
use crate::value::Value;
use heap_model::{Call, MemoryCall};

/// A command of the memory manager.
#[derive(Clone, Copy)]
pub enum MemoryCommand {
    Bind,
    New,
    PtrNew,
    Free,
    Resize,
    SetOwner,
    Lock,
    Unlock,
    Size,
    Owner,
    Locks,
    Read,
    Write,
    Set,
    StrCopy,
    FreeByOwner,
    FreeBytes,
    Largest,
    Compact,
    MoreSlots,
}

/// The row of each command, for a macro of the module `command`.
macro_rules! memory_commands {
    ($macro:ident $with:tt) => {
        $macro! { Memory MemoryCommand $with
            Bind: b"bind" (label: Chunk, name: Number) => Line::Bind { label, name };
            New: b"new" (label: Chunk, size: Number, owner: Byte)
                => Line::BindChunk(label, Call::Memory(MemoryCall::HandleNew { size, owner }));
            PtrNew: b"ptrnew" (label: Chunk, size: Number, owner: Byte)
                => Line::BindChunk(label, Call::Memory(MemoryCall::PtrNew { size, owner }));
            Free: b"free" (name: Chunk) => Line::Print(Call::Memory(MemoryCall::Free(name)));
            Resize: b"resize" (name: Chunk, size: Number)
                => Line::Print(Call::Memory(MemoryCall::Resize { name, size }));
            SetOwner: b"setowner" (name: Chunk, owner: Byte)
                => Line::Print(Call::Memory(MemoryCall::SetOwner { name, owner }));
            Lock: b"lock" (name: Chunk) => Line::Print(Call::Memory(MemoryCall::Lock(name)));
            Unlock: b"unlock" (name: Chunk) => Line::Print(Call::Memory(MemoryCall::Unlock(name)));
            Size: b"size" (name: Chunk) => Line::Print(Call::Memory(MemoryCall::Size(name)));
            Owner: b"owner" (name: Chunk) => Line::Print(Call::Memory(MemoryCall::Owner(name)));
            Locks: b"locks" (name: Chunk) => Line::Print(Call::Memory(MemoryCall::Locks(name)));
            Read: b"read" (name: Chunk, at: Number, count: Number)
                => Line::Print(Call::Memory(MemoryCall::Read { name, at, count }));
            Write: b"write" (name: Chunk, at: Number; bytes: Bytes)
                => Line::Print(Call::Memory(MemoryCall::Write { name, at, bytes }));
            Set: b"set" (name: Chunk, at: Number, count: Number, byte: Byte)
                => Line::Print(Call::Memory(MemoryCall::Set { name, at, count, byte }));
            StrCopy: b"strcopy" (name: Chunk, at: Number; text: Text)
                => Line::Print(Call::Memory(MemoryCall::StrCopy { name, at, text }));
            FreeByOwner: b"freeowner" (owner: Byte) => Line::Print(Call::Memory(MemoryCall::FreeByOwner(owner)));
            FreeBytes: b"freebytes" () => Line::Print(Call::Memory(MemoryCall::FreeBytes));
            Largest: b"largest" () => Line::Print(Call::Memory(MemoryCall::LargestStretch));
            Compact: b"compact" () => Line::Silent(Call::Memory(MemoryCall::Compact));
            MoreSlots: b"moreslots" () => Line::Print(Call::Memory(MemoryCall::MoreSlots));
        }
    };
}

pub(crate) use memory_commands;

/// Returns the line of a command, or `None` if a value isn't of its word's kind.
pub(crate) fn memory_line<'a>(
    command: MemoryCommand,
    values: &[Value],
    bytes: LentBytes<'a>,
) -> Option<Line<'a>>
    ensures { line_of (Memory command) values.now bytes.entry ≡ result }
{
    memory_commands!(line(command values bytes))
}
