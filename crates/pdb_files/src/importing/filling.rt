//! Writes the blocks of a file into the chunks of the database that was made for it.

ghost use Rattle.std.specs.Prelude.{◌≡◌, ◌<◌, ◌≤◌, ℕ, length, map, All};
ghost use Rattle.palm_store.specs.EntryCalls.{OnlyWrites};
ghost use Rattle.heap_model.specs.Store.{Accepted, store_of};
ghost use Rattle.pdb_format.specs.Blocks.{bytes_at, IsBlockWithin};
ghost use Rattle.palm_store.specs.WholeDatabases.{numbers_in};
ghost use Rattle.pdb_files.specs.Filling.{AreFilled, AreOnce, Refills};

use heap_model::Name;
use palm_store::Store;
use pdb_format::{Block, PdbFile};

/// Fills the chunks of a file's blocks. They are zeros before, and each is under the name at the
/// index of its block. The name of an absent block is `Name(0)`.
pub(super) fn fill_blocks(
    store: &mut Store,
    file: &PdbFile<'_>,
    blocks: &[Option<Block>],
    names: &[Name],
)
    requires accepted { Accepted store.old.bytes }
    requires long { length names.now ≡ length blocks.now }
    requires inside { All (IsBlockWithin (length file.now)) blocks.now }
    requires once { AreOnce (numbers_in names.now) }
    requires zeros { AreFilled (store_of store.old.bytes).map
        (map (bytes_at file.now) blocks.now) (numbers_in names.now) 0 }
    ensures filled { AreFilled (store_of store.new.bytes).map
        (map (bytes_at file.now) blocks.now) (numbers_in names.now) (length names.now) }
    ensures refills { Refills store.old.bytes store.new.bytes (numbers_in names.now) }
    ensures kept { OnlyWrites store.old store.new }
{
    for index in 0..names.len() {
        if let Some(block) = blocks[index] {
            store.fill_data(names[index], file.bytes_of(block));
        }
    }
}
