//! The law of the numbers that are allowed at the place of a fault, as the postcondition of a
//! function.

ghost use Rattle.file_listing.specs.Damage.{DamagesAreExact};

/// States that a file has a fault exactly if the number at its place isn't one of the allowed
/// numbers that `Damage` gives.
#[tactic(auto, using(crate::proofs::Allowed::damages_are_exact))]
pub fn damages_are_exact()
    ensures { DamagesAreExact }
{}
