//! Values that have a text, written one after another.

ghost use Rattle.std.specs.Prelude.{ℕ, List, is_ok};
ghost use Rattle.std.specs.List.{flat_map};
ghost use Rattle.palm_text.specs.Counted.{Writes};

use crate::counted::Counted;
use crate::output::WriteFault;
use std::io::Write;

/// A value that has a text.
pub trait HasText {
    /// The text of the value.
    ghost text: { Self → List ℕ };

    /// Writes the text.
    ///
    /// # Errors
    ///
    /// - `WriteFault`: if a write failed, or took 0 bytes.
    fn put_to<W: Write>(&self, out: &mut Counted<W>) -> Result<(), WriteFault>
        ensures { Writes W.contents out.old out.new (text self.now) (is_ok result) };
}

/// Writes values, one after another.
///
/// # Errors
///
/// - `WriteFault`: if a write failed, or took 0 bytes.
pub fn put_each<T: HasText, W: Write>(out: &mut Counted<W>, values: &[T]) -> Result<(), WriteFault>
    ensures { Writes W.contents out.old out.new (flat_map T.text values.now) (is_ok result) }
{
    for value in values {
        match value.put_to(out) {
            Ok(()) => {}
            Err(fault) => return Err(fault),
        }
    }
    Ok(())
}
