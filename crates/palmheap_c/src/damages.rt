//! The place of the first fault of a file, the number there, and the numbers that are allowed there.

ghost use Rattle.std.specs.Prelude.{◌≡◌};
ghost use Rattle.palmheap_c.specs.Damages as damages;

use crate::answers::{Answer, NO_FAULT, TOO_LARGE, of_file};
use canonical_file::MOST_BYTES;
use file_listing::{Damage as FileDamage, damage_of, fault_place};
use pdb_format::check_file;

/// The offset of the field that has the first fault of a file, the number that it has, and the
/// numbers that are allowed there: those from `least` to `most`. If `or_zero` is true, 0 is allowed
/// too, but in the entry of a record only if the record is deleted. If the file is truncated, the
/// offset and the number are its size.
#[repr(C)]
#[derive(Clone, Copy, Debug, PartialEq, Eq)]
pub struct Damage {
    pub at: usize,
    pub found: usize,
    pub least: usize,
    pub most: usize,
    pub or_zero: bool,
}

/// Checks whether a database can be read from a file, and returns its first fault. If it has one,
/// sets `damage` to where it is and what is allowed there. Allocates nothing.
#[unsafe(no_mangle)]
pub extern "C" fn palmheap_pdb_damage(file: &[u8], damage: &mut Damage) -> Answer
    ensures { damages.IsDamageAnswer file.now damage.old damage.new result }
{
    if file.len() > MOST_BYTES {
        return TOO_LARGE;
    }
    match check_file(file) {
        Ok(()) => NO_FAULT,
        Err(fault) => {
            *damage = of_damage(fault_place(&file, fault), damage_of(&file, fault));
            of_file(fault)
        }
    }
}

/// Returns the damage at an offset, for C.
fn of_damage(at: usize, damage: FileDamage) -> Damage
    ensures { result ≡ damages.of_damage at damage }
{
    let (found, least, most, or_zero) = match damage {
        FileDamage::Short { found, least } => (found, least, usize::MAX, false),
        FileDamage::NotZero { found } => (found as usize, 0, 0, true),
        FileDamage::Zero => (0, 1, 255, false),
        FileDamage::InfoOutside { found, least, most } => (found as usize, least, most, true),
        FileDamage::RecordOutside { found, least, most } => (found as usize, least, most, true),
        FileDamage::ResourceOutside { found, least, most } => (found as usize, least, most, false),
    };
    Damage {
        at,
        found,
        least,
        most,
        or_zero,
    }
}
