//! The results of a run, and the memory of the caller that they are written to.

ghost use Rattle.std.specs.Prelude.{◌≡◌, ◌≤◌, length, true, false};
ghost use Rattle.palmheap_c.specs.Buffers.{FillsBuffer};
ghost use Rattle.palmheap_c.specs.Runs.{AreShortBuffers};

use crate::buffers::{put_front, put_numbers};

/// The sizes of the results of a run: the bytes of the reply lines, the bytes of the exported files
/// together, and the number of these files.
#[repr(C)]
#[derive(Clone, Copy, Debug, PartialEq, Eq)]
pub struct Sizes {
    pub printed: usize,
    pub exported: usize,
    pub files: usize,
}

/// The results of a run, except the image.
#[derive(Drop)]
pub(crate) struct Results {
    /// The reply lines.
    pub(crate) text: Vec<u8>,
    /// The exported files, one after the other.
    pub(crate) files: Vec<u8>,
    /// Where each of them ends.
    pub(crate) ends: Vec<usize>,
}

impl Results {
    pub(crate) fn sizes(&self) -> Sizes
        ensures printed { result.printed ≡ length self.now.text.items }
        ensures exported { result.exported ≡ length self.now.files.items }
        ensures files { result.files ≡ length self.now.ends.items }
    {
        Sizes {
            printed: self.text.len(),
            exported: self.files.len(),
            files: self.ends.len(),
        }
    }

    /// Copies the results to the start of buffers that have room for them.
    pub(crate) fn put(&self, printed: &mut [u8], exported: &mut [u8], ends: &mut [usize])
        requires printed { length self.now.text.items ≤ length printed.old }
        requires exported { length self.now.files.items ≤ length exported.old }
        requires ends { length self.now.ends.items ≤ length ends.old }
        ensures printed { FillsBuffer self.now.text.items printed.old printed.new }
        ensures exported { FillsBuffer self.now.files.items exported.old exported.new }
        ensures ends { FillsBuffer self.now.ends.items ends.old ends.new }
    {
        put_front(&self.text, printed);
        put_front(&self.files, exported);
        put_numbers(&self.ends, ends);
    }
}

/// Whether buffers have room for results of these sizes.
pub(crate) fn have_room(sizes: Sizes, printed: &[u8], exported: &[u8], ends: &[usize]) -> bool
    ensures printed { result ≡ true → sizes.printed ≤ length printed.now }
    ensures exported { result ≡ true → sizes.exported ≤ length exported.now }
    ensures ends { result ≡ true → sizes.files ≤ length ends.now }
    ensures short { result ≡ false → AreShortBuffers sizes printed.now exported.now ends.now }
{
    sizes.printed <= printed.len() && sizes.exported <= exported.len() && sizes.files <= ends.len()
}
