//! The laws of the faults, each as the postcondition of a function.

ghost use Rattle.store_check.specs.Laws.{AcceptedWithoutFaults};

/// Proves that an accepted heap is accepted with its databases exactly if it has none of the
/// faults.
pub fn accepted_without_faults()
    ensures { AcceptedWithoutFaults }
{}
