//! A law about the migration of an image.

ghost use Rattle.test_chains.specs.Laws.{MigratesToOne};

/// The old image determines the new one, byte for byte.
fn migration_has_one_image()
    ensures { MigratesToOne }
{}

/// What the function above promises is proved, and it runs to its end.
#[test]
fn law_holds() {
    migration_has_one_image();
}
