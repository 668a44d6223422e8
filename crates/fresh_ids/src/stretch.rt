//! Unique IDs that no record of a database has.

ghost use Rattle.std.specs.Prelude.{◌↔◌, IsTrue};
ghost use Rattle.fresh_ids.specs.FreeIds.{IsInRange, IsWithout};

/// A range of unique IDs: from `first` on, below `end`.
#[derive(Clone, Copy, Debug, PartialEq, Eq)]
pub struct FreeIds {
    /// The first ID of the range.
    pub first: u32,
    /// The number after the last ID of the range.
    pub end: u32,
}

/// The empty range.
pub const NO_IDS: FreeIds = FreeIds { first: 0, end: 0 };

impl FreeIds {
    /// Returns whether an ID is in the range.
    pub(crate) fn has(self, id: u32) -> bool
        ensures { IsTrue result ↔ IsInRange self id }
    {
        self.first <= id && id < self.end
    }

    /// Returns the IDs of the range that are still free after a record gets this ID: all of them,
    /// or the ones after it.
    pub fn without(self, id: u32) -> FreeIds
        ensures { IsWithout self id result }
    {
        if !self.has(id) {
            return self;
        }
        FreeIds {
            first: id + 1,
            end: self.end,
        }
    }
}
