//! Databases of memos. Each record is a text that ends with a zero byte.

ghost use Rattle.std.specs.Prelude.{[], ◌≡◌, IfOk, OnErr};
ghost use Rattle.heap_model.specs.Runs.{Run};
ghost use Rattle.example_memos.specs.Memos.{writing};

use heap_model::{Bytes, Call, Db, MemoryCall, Name, RecordCall, Reply};
use palm_script::{OutOfMemory, run_calls};
use palm_store::Store;
use std::alloc::{AllocError, Global};

/// A record of a database: the index of its entry, and the chunk of its data.
#[derive(Clone, Copy)]
pub(crate) struct Memo {
    pub(crate) db: Db,
    pub(crate) index: u32,
    pub(crate) name: Name,
}

/// Writes the text of a memo into its record, and releases the record. Returns the reply to each
/// call. The record's data must have room for the text; else the call that writes it is refused.
///
/// # Errors
///
/// - `OutOfMemory`: an allocation failed. No call was done.
pub(crate) fn write_memo(
    alloc: Global,
    store: &mut Store,
    memo: Memo,
    text: &[u8],
) -> Result<Vec<Reply>, OutOfMemory>
    ensures run { IfOk result (λ replies.
        Run store.old (writing memo text.now) replies.items store.new) }
    ensures none_done { OnErr result (store.new ≡ store.old) }
    ensures lent { store.new.lents ≡ store.old.lents }
{
    let Ok(text) = copied(alloc, text) else {
        return Err(OutOfMemory);
    };
    let Memo { db, index, name } = memo;
    run_calls(
        alloc,
        store,
        &[
            Call::Memory(MemoryCall::Lock(name)),
            Call::Memory(MemoryCall::StrCopy { name, at: 0, text }),
            Call::Memory(MemoryCall::Unlock(name)),
            Call::Record(RecordCall::Release {
                db,
                index,
                dirty: true,
            }),
        ],
    )
}

fn copied(alloc: Global, text: &[u8]) -> Result<Bytes, AllocError>
    ensures { IfOk result (λ copy. copy ≡ text.now) }
{
    Ok(Bytes::of(Vec::from_slice(alloc, text)?))
}
