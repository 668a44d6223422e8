//! The labels of a script, numbered in the order in which they first appear. A table keeps the
//! spelling of each label, so it outlives the text of the lines.

ghost use Rattle.std.specs.Prelude.{◌≡◌, if◌then◌else◌, IfOk, OnErr, OnOk};
ghost use Rattle.script_lines.specs.Numbering.{no_labels, label_number, with_label};
ghost use Rattle.script_lines.specs.Numbering.{none_numbered};
ghost use Rattle.script_lines.specs.Spellings as spellings;
ghost use Rattle.script_lines.specs.Views.{numbering, numberings};

use crate::spelling::is_label;
use allowance::{Allowance, copied, insert};
use std::alloc::{AllocError, Global};
use std::collections::BTreeMap;

/// The labels of one table that have appeared, each with its number.
#[derive(Drop)]
pub struct Labels {
    numbers: BTreeMap<Vec<u8>, usize>,
}

impl Labels {
    /// Returns a table of no labels.
    fn new(alloc: Global) -> Labels
        ensures { numbering result ≡ no_labels }
    {
        Labels {
            numbers: BTreeMap::new(alloc),
        }
    }

    /// Returns the number of the label that a word spells. A new label takes the next number.
    fn number<A: Allowance>(&mut self, memory: &A, word: &[u8]) -> Result<usize, AllocError>
        ensures number { IfOk result (λ number.
            number ≡ label_number (numbering self.old) word.now) }
        ensures labels { OnOk result
            (numbering self.new ≡ with_label (numbering self.old) word.now) }
        ensures short { OnErr result (A.is_short memory.now) }
    {
        if let Some(number) = self.numbers.get(word) {
            return Ok(*number);
        }
        let number = self.numbers.len();
        let label = copied(memory, word)?;
        match insert(memory, &mut self.numbers, label, number) {
            Ok(_) => Ok(number),
            Err(error) => Err(error),
        }
    }

    /// The same as `number` if the word is a label, and otherwise `None`.
    pub(crate) fn number_if_label<A: Allowance>(
        &mut self,
        memory: &A,
        word: &[u8],
    ) -> Result<Option<usize>, AllocError>
        ensures number { IfOk result (λ number. number ≡ if spellings.is_label word.now
            then Some (label_number (numbering self.old) word.now) else None) }
        ensures labels { OnOk result (numbering self.new ≡ if spellings.is_label word.now
            then with_label (numbering self.old) word.now else numbering self.old) }
        ensures short { OnErr result (A.is_short memory.now) }
    {
        if !is_label(word) {
            return Ok(None);
        }
        Ok(Some(self.number(memory, word)?))
    }
}

/// The two tables of labels: of chunks and of databases. If both have a label of the same spelling,
/// it is two labels.
#[derive(Drop)]
pub struct LabelTables {
    pub chunks: Labels,
    pub databases: Labels,
}

impl LabelTables {
    /// Returns two tables of no labels.
    pub fn new(alloc: Global) -> LabelTables
        ensures { numberings result ≡ none_numbered }
    {
        LabelTables {
            chunks: Labels::new(alloc),
            databases: Labels::new(alloc),
        }
    }
}
