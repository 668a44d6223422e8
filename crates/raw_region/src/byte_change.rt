//! A change that is made to each of several bytes.

ghost use Rattle.std.specs.Prelude.{◌≡◌, ℕ};

/// A function from the old value of a byte to its new value.
pub trait ByteChange: Copy {
    ghost made: { Self → ℕ → ℕ };

    /// Returns the new value of a byte.
    fn of(self, byte: u8) -> u8
        ensures { result ≡ made self byte };
}
