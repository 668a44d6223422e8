//! The attributes of records: tests of them, and the values that calls set.

ghost use Rattle.std.specs.Prelude.{◌≡◌, ◌<◌, bit_or};
ghost use Rattle.heap_model.specs.Database as databases;
ghost use Rattle.heap_model.specs.RecordSteps.{new_attributes};
ghost use Rattle.heap_model.specs.Categories as categories;
ghost use Rattle.heap_model.specs.RecordSteps as steps;
ghost use Rattle.record_db.specs.Categories.{moved_attributes};

use bitflags::Flags;
use db_format::RecordAttrs;
use raw_region::ByteChange;

/// The category number that means all categories, in the calls that count.
pub(crate) const ALL_CATEGORIES: u8 = 0xFF;

/// The change to a record's attributes when the records of one category move to another.
#[derive(Clone, Copy)]
pub(crate) struct Moving {
    pub(crate) to: u8,
    pub(crate) from: u8,
    /// Whether the moved records become dirty.
    pub(crate) dirty: bool,
    ghost fits: { to < categories.categories },
}

impl ByteChange for Moving {
    ghost made = { λ moving attributes.
        moved_attributes moving.to moving.from moving.dirty attributes };

    #[inline]
    fn of(self, attributes: u8) -> u8 {
        let record = RecordAttrs::from_bits_retain(attributes);
        if has_category(record, self.from) {
            recategorized(record, self.to, self.dirty)
        } else {
            attributes
        }
    }
}

/// Whether a record is deleted.
pub(crate) fn is_deleted(attributes: u8) -> bool
    ensures { result ≡ databases.is_deleted attributes }
{
    RecordAttrs::from_bits_retain(attributes).is_deleted()
}

/// Whether a caller has a record in use.
#[tactic(auto, using(crate::proofs::Bits::busy_by_mask))]
pub(crate) fn is_busy(attributes: u8) -> bool
    ensures { result ≡ steps.is_busy attributes }
{
    RecordAttrs::from_bits_retain(attributes).contains(RecordAttrs::BUSY)
}

/// The attributes of a record, with some bits set.
pub(crate) fn marked(attributes: u8, bits: RecordAttrs) -> u8
    ensures { result ≡ bit_or attributes bits.0 }
{
    RecordAttrs::from_bits_retain(attributes).union(bits).bits()
}

/// The attributes of a record that is no longer busy. It is dirty if `dirty` is true.
pub(crate) fn released(attributes: u8, dirty: bool) -> u8
    ensures { result ≡ steps.released dirty attributes }
{
    let mut attributes = RecordAttrs::from_bits_retain(attributes);
    attributes.remove(RecordAttrs::BUSY);
    if dirty {
        attributes.insert(RecordAttrs::DIRTY);
    }
    attributes.bits()
}

/// The attributes of a new record.
pub(crate) fn of_new_record() -> u8
    ensures { result ≡ new_attributes }
{
    RecordAttrs::DIRTY.union(RecordAttrs::BUSY).bits()
}

/// The attributes of a new record whose data was a caller's chunk.
pub(crate) fn of_attached_record() -> u8
    ensures { result ≡ categories.dirty_bit }
{
    RecordAttrs::DIRTY.bits()
}

/// Whether a record is not deleted and is of a category. The number 0xFF means any category.
pub(crate) fn has_category(attributes: RecordAttrs, category: u8) -> bool
    ensures { result ≡ categories.has_category category attributes.0 }
{
    if attributes.is_deleted() {
        return false;
    }
    category == ALL_CATEGORIES || attributes.category() == category
}

/// The attributes of a record that is given others. It stays deleted and busy as it was.
pub(crate) fn with_given(attributes: u8, given: u8) -> u8
    ensures { result ≡ steps.attributes_set given attributes }
{
    let kept = RecordAttrs::DELETE.union(RecordAttrs::BUSY);
    let old = RecordAttrs::from_bits_retain(attributes).intersection(kept);
    let new = RecordAttrs::from_bits_retain(given).difference(kept);
    old.union(new).bits()
}

/// The attributes of a record in another category. It is dirty if `dirty` is true.
pub(crate) fn recategorized(attributes: RecordAttrs, category: u8, dirty: bool) -> u8
    requires { category < categories.categories }
    ensures { result ≡ categories.recategorized category dirty attributes.0 }
{
    let mut attributes = attributes.with_category(category);
    if dirty {
        attributes.insert(RecordAttrs::DIRTY);
    }
    attributes.bits()
}
