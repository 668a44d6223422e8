//! The attributes of a record.

ghost use Rattle.std.specs.Prelude.{⊤, ◌≡◌, ◌<◌};
ghost use Rattle.heap_model.specs.Database as databases;
ghost use Rattle.heap_model.specs.Categories.{categories};
ghost use Rattle.heap_model.specs.Categories as words;
ghost use Rattle.db_format.specs.Attributes.{record_bits};

use bitflags::{Flag, Flags, bitflag_items};

/// The number of categories. They are numbered from 0.
pub const CATEGORIES: u8 = 16;

/// The attributes of a record (Palm OS File Format Specification, "PDB Format"): four bits, and the
/// category in the low four bits. They are a set with the methods of `bitflags::Flags`.
#[derive(Clone, Copy, PartialEq, Eq, Debug)]
pub struct RecordAttrs(pub u8);

bitflag_items! {
    impl RecordAttrs: u8 {
        /// The record is deleted. It may still have data, if it was archived.
        const DELETE = 0x80;
        /// The record was changed after the last synchronization.
        const DIRTY = 0x40;
        /// A caller has the record in use.
        const BUSY = 0x20;
        /// The record is shown only to users who know the password.
        const SECRET = 0x10;
        /// The bits of the category.
        const CATEGORY = 0x0F;
    }
}

impl Flags for RecordAttrs {
    type Bits = u8;

    ghost exact = { ⊤ };

    ghost table = { record_bits };

    ghost set_of = { λ attributes. attributes.0 };

    fn flags<'a>() -> &'a [Flag<RecordAttrs>] {
        RecordAttrs::FLAGS
    }

    fn bits(&self) -> u8 {
        self.0
    }

    fn from_bits_retain(bits: u8) -> RecordAttrs {
        RecordAttrs(bits)
    }
}

impl RecordAttrs {
    /// Returns whether the record is deleted.
    #[inline]
    #[tactic(auto, using(crate::proofs::AttributeLaws::deleted_by_mask))]
    pub fn is_deleted(self) -> bool
        ensures { result ≡ databases.is_deleted self.0 }
    {
        self.contains(RecordAttrs::DELETE)
    }

    /// Returns the record's category, 0 to 15.
    #[inline]
    pub fn category(self) -> u8
        ensures { result ≡ words.category_of self.0 }
    {
        self.intersection(RecordAttrs::CATEGORY).bits()
    }

    /// Returns the same attributes with another category.
    #[inline]
    pub fn with_category(self, category: u8) -> RecordAttrs
        requires { category < categories }
        ensures { result.0 ≡ words.with_category category self.0 }
    {
        let flags = self.0 / CATEGORIES;
        RecordAttrs(flags * CATEGORIES + category)
    }
}
