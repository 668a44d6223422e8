//! The amount of work of a benchmark, from the words after its name.

/// The meaning of a word: the image that is checked, or a number.
#[derive(Clone, Copy)]
pub(crate) enum Field {
    Image,
    Size,
    Slots,
    Records,
    FileRecords,
    Bytes,
    Calls,
    Passes,
    Rounds,
}

/// The amount of work. Each benchmark reads the fields that its words give.
#[derive(Clone, Copy)]
pub(crate) struct Work<'a> {
    /// The file with the image that is checked, or none for a blank image.
    pub(crate) image: Option<&'a str>,
    /// The bytes and the slots of an image.
    pub(crate) size: u32,
    pub(crate) slots: u16,
    /// The number of records of a database that is made by calls.
    pub(crate) records: u32,
    /// The number of records of a file, and the bytes of each.
    pub(crate) file_records: u16,
    pub(crate) bytes: u32,
    /// The number of entries that are made, moved or removed in a round.
    pub(crate) calls: u32,
    /// The number of times that all handles are used, or all entries asked for, in a round.
    pub(crate) passes: u32,
    /// The number of rounds of each kind, or of checks of each image.
    pub(crate) rounds: u16,
    pub(crate) prints_times: bool,
}

/// No work.
pub(crate) const NONE: Work<'static> = Work {
    image: None,
    size: 0,
    slots: 0,
    records: 0,
    file_records: 0,
    bytes: 0,
    calls: 0,
    passes: 0,
    rounds: 0,
    prints_times: false,
};

impl<'a> Work<'a> {
    /// Returns the work that the words give, or `None` if they are wrong. There is one word for
    /// each field, or none.
    pub(crate) fn with_words(self, fields: &[Field], words: &'a [String]) -> Option<Work<'a>> {
        if words.is_empty() {
            return Some(self);
        }
        if words.len() != fields.len() {
            return None;
        }
        let mut work = self;
        work.prints_times = true;
        for (field, word) in fields.iter().zip(words) {
            work.set(*field, word.as_str())?;
        }
        Some(work)
    }

    /// Sets a field by its word, or returns `None` if the word is wrong.
    fn set(&mut self, field: Field, word: &'a str) -> Option<()> {
        if let Field::Image = field {
            self.image = Some(word);
            return Some(());
        }
        self.set_number(field, word.parse().ok()?)
    }

    fn set_number(&mut self, field: Field, number: u32) -> Option<()> {
        match field {
            Field::Image => return None,
            Field::Size => self.size = number,
            Field::Slots => self.slots = u16::try_from(number).ok()?,
            Field::Records => self.records = number,
            Field::FileRecords => self.file_records = u16::try_from(number).ok()?,
            Field::Bytes => self.bytes = number,
            Field::Calls => self.calls = number,
            Field::Passes => self.passes = number,
            Field::Rounds => self.rounds = u16::try_from(number).ok()?,
        }
        Some(())
    }
}
