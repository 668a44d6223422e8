//! The attributes of a database.

ghost use Rattle.std.specs.Prelude.{⊤, ◌≡◌, [], ◌∷◌, codes};
ghost use Rattle.heap_model.specs.Database as databases;
ghost use Rattle.db_format.specs.Attributes.{database_bits};

use bitflags::{Flag, Flags, bitflag_items};

/// The attributes of a database (Palm OS File Format Specification, "PDB Format"). They are a set
/// with the methods of `bitflags::Flags`. Bits without a name here are kept.
#[derive(Clone, Copy)]
pub struct DbAttrs(pub u16);

bitflag_items! {
    impl DbAttrs: u16 {
        /// The entries are resources. Without this bit they are records.
        const RESOURCE = 0x0001;
        /// The database may be read, but not written.
        const READ_ONLY = 0x0002;
    }
}

impl Flags for DbAttrs {
    type Bits = u16;

    ghost exact = { ⊤ };

    ghost table = { database_bits };

    ghost set_of = { λ attributes. attributes.0 };

    fn flags<'a>() -> &'a [Flag<DbAttrs>] {
        DbAttrs::FLAGS
    }

    fn bits(&self) -> u16 {
        self.0
    }

    fn from_bits_retain(bits: u16) -> DbAttrs {
        DbAttrs(bits)
    }
}

impl DbAttrs {
    /// Returns whether the entries are resources. Otherwise they are records.
    #[inline]
    #[tactic(auto, using(crate::proofs::AttributeLaws::resources_by_mask))]
    pub fn has_resources(self) -> bool
        ensures { result ≡ databases.has_resources self.0 }
    {
        self.contains(DbAttrs::RESOURCE)
    }

    /// Returns whether the database may be read, but not written.
    #[inline]
    #[tactic(auto, using(crate::proofs::AttributeLaws::read_only_by_mask))]
    pub fn is_read_only(self) -> bool
        ensures { result ≡ databases.is_read_only self.0 }
    {
        self.contains(DbAttrs::READ_ONLY)
    }

    /// Returns these attributes with the `RESOURCE` bit of `other`.
    #[tactic(auto, using(crate::proofs::AttributeLaws::kind_by_mask))]
    pub fn with_kind_of(self, other: DbAttrs) -> DbAttrs
        ensures { result.0 ≡ databases.with_resources_of other.0 self.0 }
    {
        let kind = other.intersection(DbAttrs::RESOURCE);
        self.difference(DbAttrs::RESOURCE).union(kind)
    }
}
