//! What the words of a line stand for, by kind.

ghost use Rattle.std.specs.Prelude.{◌≡◌, ◌++◌, ◌∷◌, [], false, true, IfOk, OnErr, OnOk, MatchOption};
ghost use Rattle.script_lines.specs.Kinds.{read_word};
ghost use Rattle.script_lines.specs.Views.{Adds, words_read};

use crate::label::LabelTables;
use crate::spelling::{
    byte_of, bytes_of, flag_of, four_bytes_of, number_of, short_of, text_of, which_of,
};
use allowance::Allowance;
use script_commands::{ChunkLabel, DatabaseLabel, Kind, LentBytes, Value};
use std::alloc::{AllocError, Global};

/// What the words after a command stand for: their values in order. The bytes of a word of bytes or
/// text are kept separately, since no line has two words of these kinds.
#[derive(Drop)]
pub(crate) struct Values<'a> {
    pub values: Vec<Value>,
    pub bytes: LentBytes<'a>,
}

impl<'a> Values<'a> {
    /// Returns the values of no words.
    pub fn new(alloc: Global) -> Values<'a>
        ensures values { result.values.items ≡ [] }
        ensures bytes { result.bytes ≡ [] }
    {
        Values {
            values: Vec::new(alloc),
            bytes: LentBytes::plain(&[]),
        }
    }

    /// Appends a value.
    fn push<A: Allowance>(&mut self, memory: &A, value: Value) -> Result<(), AllocError>
        ensures values { OnOk result
            (self.new.values.items ≡ self.old.values.items ++ (value ∷ [])) }
        ensures bytes { self.new.bytes ≡ self.old.bytes }
        ensures short { OnErr result (A.is_short memory.now) }
    {
        allowance::push(memory, &mut self.values, value)
    }

    /// Appends a value, if there is one, and reports whether there is.
    fn add_value<A: Allowance>(
        &mut self,
        memory: &A,
        value: Option<Value>,
    ) -> Result<bool, AllocError>
        ensures values { IfOk result (λ is_there. MatchOption value (is_there ≡ false)
            (λ value. (is_there ≡ true)
            × (self.new.values.items ≡ self.old.values.items ++ (value ∷ [])))) }
        ensures bytes { self.new.bytes ≡ self.old.bytes }
        ensures short { OnErr result (A.is_short memory.now) }
    {
        match value {
            Some(value) => {
                self.push(memory, value)?;
                Ok(true)
            }
            None => Ok(false),
        }
    }

    /// Sets the bytes of the line, if there are any, and reports whether there are.
    fn add_bytes(&mut self, bytes: Option<LentBytes<'a>>) -> bool
        ensures bytes { MatchOption bytes.entry (result ≡ false)
            (λ bytes. (result ≡ true) × (self.new.bytes ≡ bytes)) }
        ensures values { self.new.values ≡ self.old.values }
    {
        match bytes {
            Some(bytes) => {
                self.bytes = bytes;
                true
            }
            None => false,
        }
    }

    /// Adds what a word of a kind stands for, and reports whether the word is of that kind.
    pub fn add<A: Allowance>(
        &mut self,
        memory: &A,
        kind: Kind,
        word: &'a [u8],
        labels: &mut LabelTables,
    ) -> Result<bool, AllocError>
        ensures adds { IfOk result (λ is_of_kind.
            Adds (read_word (words_read self.old labels.old) kind word.now)
            is_of_kind (words_read self.new labels.new)) }
        ensures short { OnErr result (A.is_short memory.now) }
    {
        match kind {
            Kind::Chunk => {
                let number = labels.chunks.number_if_label(memory, word)?;
                self.add_value(
                    memory,
                    number.map(|number| Value::Chunk(ChunkLabel(number))),
                )
            }
            Kind::Database => {
                let number = labels.databases.number_if_label(memory, word)?;
                self.add_value(
                    memory,
                    number.map(|number| Value::Database(DatabaseLabel(number))),
                )
            }
            Kind::Byte => self.add_value(memory, byte_of(word).map(Value::Byte)),
            Kind::Short => self.add_value(memory, short_of(word).map(Value::Short)),
            Kind::Number => self.add_value(memory, number_of(word).map(Value::Number)),
            Kind::Flag => self.add_value(memory, flag_of(word).map(Value::Flag)),
            Kind::Which => self.add_value(memory, which_of(word).map(Value::Which)),
            Kind::FourBytes => self.add_value(memory, four_bytes_of(word).map(Value::FourBytes)),
            Kind::Bytes => Ok(self.add_bytes(bytes_of(word))),
            Kind::Text => Ok(self.add_bytes(text_of(word))),
        }
    }
}
