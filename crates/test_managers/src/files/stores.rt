//! Stores that tests start from.

ghost use Rattle.std.specs.Prelude.{[], ◌≡◌, IfOk};

use palm_store::Store;
use std::alloc::Global;
use std::test::Fail;
use test_beside::{blank_image, store_of};

/// An empty store of this size and with the given number of slots.
pub(crate) fn blank_store(alloc: Global, size: u32, slots: u16) -> Result<Store, Fail>
    ensures { IfOk result (λ made. made.lents ≡ []) }
{
    store_of(alloc, &blank_image(alloc, size, slots)?)
}
