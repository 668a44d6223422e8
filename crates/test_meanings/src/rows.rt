//! The table of `explanations` has one row for each fault, each change and each refusal.

ghost use Rattle.test_meanings.specs.Rows.{AllHaveRows};

/// Proves that each fault, each change and each refusal has one row.
pub fn all_have_rows()
    ensures { AllHaveRows }
{}
