//! The commands of scripts: the word of each with the kinds of the words after it, and the line
//! that they make. To add a command, add a variant and a row in the module of its manager.
//!
//! A row is `VARIANT: WORD (WORDS) => LINE;`. Each of `WORDS` has a name, by which `LINE` uses what
//! it stands for, and its kind. A word of the kind bytes or text follows a `;`.

ghost use Rattle.std.specs.Prelude.{◌≡◌, ◌<◌, length};
ghost use Rattle.std.specs.List.{find};
ghost use Rattle.std.specs.Str.{bytes_eq};
ghost use Rattle.script_commands.specs.Commands as tables;
ghost use Rattle.script_commands.specs.Commands.{line_of, command_of};

use crate::database_command::{DatabaseCommand, database_commands, database_line};
use crate::lent_bytes::LentBytes;
use crate::line::Line;
use crate::memory_command::{MemoryCommand, memory_commands, memory_line};
use crate::record_command::{RecordCommand, record_commands, record_line};
use crate::resource_command::{ResourceCommand, resource_commands, resource_line};
use crate::value::{Kind, Value};

/// A command of the memory manager, of databases, of records or of resources.
#[derive(Clone, Copy)]
pub enum Command {
    Memory(MemoryCommand),
    Database(DatabaseCommand),
    Record(RecordCommand),
    Resource(ResourceCommand),
}

/// A command's row: its word, which no other command has, and the kinds of the words after it.
#[derive(Clone, Copy)]
pub struct CommandRow {
    pub word: &'static [u8],
    pub kinds: &'static [Kind],
}

/// The list of the commands that have these rows.
macro_rules! list {
    ($manager:ident $commands:ident () $($variant:ident: $word:literal $words:tt => $line:expr;)*) => {
        &[$(Command::$manager($commands::$variant)),*]
    };
}

/// The `CommandRow` of a command.
macro_rules! row {
    ($manager:ident $commands:ident ($command:ident)
        $($variant:ident: $word:literal
            ($($name:ident: $kind:ident),* $(; $lent:ident: $lent_kind:ident $(, $later:ident: $later_kind:ident)*)?)
            => $line:expr;)*) => {
        match $command {
            $($commands::$variant => CommandRow {
                word: $word,
                kinds: &[$(Kind::$kind,)* $(Kind::$lent_kind, $(Kind::$later_kind),*)?],
            },)*
        }
    };
}

/// The line of a command, or `None` if a value isn't of its word's kind.
macro_rules! line {
    ($manager:ident $commands:ident ($command:ident $values:ident $bytes:ident)
        $($variant:ident: $word:literal
            ($($name:ident: $kind:ident),* $(; $lent:ident: $lent_kind:ident $(, $later:ident: $later_kind:ident)*)?)
            => $line:expr;)*) => {
        match $command {
            $($commands::$variant => match *$values {
                [$(Value::$kind($name),)* $($(Value::$later_kind($later)),*)?] => {
                    $(let $lent = $bytes;)?
                    Some($line)
                }
                _ => None,
            },)*
        }
    };
}

pub(crate) use line;

/// Returns the row of a command.
pub fn row_of(command: Command) -> CommandRow
    ensures word { result.word.now ≡ tables.word_of command }
    ensures found { command_of result.word.now ≡ Some command }
    ensures kinds { result.kinds.now ≡ tables.kinds_of command }
    ensures few { length result.kinds.now < 16 }
{
    match command {
        Command::Memory(command) => memory_commands!(row(command)),
        Command::Database(command) => database_commands!(row(command)),
        Command::Record(command) => record_commands!(row(command)),
        Command::Resource(command) => resource_commands!(row(command)),
    }
}

/// Returns the first of some commands that has a word.
fn find_in(commands: &[Command], word: &[u8]) -> Option<Command>
    ensures { result ≡ find (λ command. bytes_eq (tables.word_of command) word.now) commands.now }
{
    for command in commands {
        if row_of(*command).word == word {
            return Some(*command);
        }
    }
    None
}

/// Returns the command of a word, if there is one.
pub fn find_command(word: &[u8]) -> Option<Command>
    ensures { result ≡ command_of word.now }
{
    if let Some(command) = find_in(memory_commands!(list()), word) {
        return Some(command);
    }
    if let Some(command) = find_in(database_commands!(list()), word) {
        return Some(command);
    }
    if let Some(command) = find_in(record_commands!(list()), word) {
        return Some(command);
    }
    find_in(resource_commands!(list()), word)
}

/// Returns the line of a command, or `None` if a value isn't of its word's kind. `values` and
/// `bytes` are what the words after the command's word stand for.
pub fn make_line<'a>(command: Command, values: &[Value], bytes: LentBytes<'a>) -> Option<Line<'a>>
    ensures { line_of command values.now bytes.entry ≡ result }
{
    match command {
        Command::Memory(command) => memory_line(command, values, bytes),
        Command::Database(command) => database_line(command, values, &bytes),
        Command::Record(command) => record_line(command, values),
        Command::Resource(command) => resource_line(command, values),
    }
}
