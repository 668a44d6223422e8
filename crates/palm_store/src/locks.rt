//! Whether the data of an entry is locked.

ghost use Rattle.std.specs.Prelude.{◌↔◌, IsTrue};
ghost use Rattle.palm_store.specs.Checks.{IsNamed, IsLockedChunk};

use crate::store::Store;
use heap_model::Name;
use mem_manager::FIXED_LOCK;

/// Returns whether a chunk is locked. A fixed chunk is not.
#[inline(always)]
pub fn is_locked(store: &Store, name: Name) -> bool
    requires { IsNamed store.now.bytes name.0 }
    ensures { IsTrue result ↔ IsLockedChunk store.now.bytes name.0 }
{
    let count = store.locks(name).unwrap();
    0 < count && count < FIXED_LOCK
}
