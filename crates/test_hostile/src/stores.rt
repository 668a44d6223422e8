//! Stores after scripts and files, and the scripts and files.

ghost use Rattle.std.specs.Prelude.{[], ◌≡◌, IfOk, None};

use heap_model::{Bytes, Db};
use palm_script::{RunFault, parse, run};
use palm_store::Store;
use palm_text::Counted;
use pdb_files::import;
use std::alloc::Global;
use std::io::Write;
use std::test::*;
use test_beside::{image_of, store_of};
use test_support::{EMPTY_FILE, ORDER_FILE, TINY_FILE, WIDE, bytes_of};

/// Lines on the blank image.
pub(crate) const WRITTEN: &str = "new a 10 1\nlock a\nwrite a 9 41\nwrite a 9 4142\nread a 0 10\n\
    strcopy a 8 \"x\"\nstrcopy a 9 \"x\"\nread a 8 2\n";

/// Lines that import the file without entries and export it.
pub(crate) const CARRIED: &str = "import d 1\nexport d\nimport d 1\nimport d 9\n";

/// The files that scripts import: the first has no entries, the second three records, the third two
/// resources.
pub(crate) fn input_files(alloc: Global) -> Result<Vec<Bytes>, Fail> {
    let mut files = Vec::new(alloc);
    for listing in [EMPTY_FILE, ORDER_FILE, TINY_FILE] {
        files.push(Bytes::of(bytes_of(alloc, listing)?))?;
    }
    Ok(files)
}

/// The store of a listed image.
pub(crate) fn listed_store(alloc: Global, listing: &str) -> Result<Store, Fail>
    ensures { IfOk result (λ made. made.lents ≡ []) }
{
    store_of(alloc, &bytes_of(alloc, listing)?)
}

/// The store of a listed image after a script, and what that printed.
pub(crate) fn store_behind(
    alloc: Global,
    listing: &str,
    script: &str,
) -> Result<(Store, Vec<u8>), Fail>
    ensures { IfOk result (λ made. made.0.lents ≡ []) }
{
    let mut store = listed_store(alloc, listing)?;
    let said = printed(alloc, &mut store, script)?;
    Ok((store, said))
}

/// What a script prints that is run on a store.
fn printed(alloc: Global, store: &mut Store, text: &str) -> Result<Vec<u8>, Fail>
    ensures { store.new.lents ≡ store.old.lents }
{
    let mut out = Counted::new(Vec::new(alloc));
    match ran(alloc, store, text, &mut out)? {
        None => Ok(out.into_inner()),
        Some(fault) => Err(fault)?,
    }
}

/// Runs a script on a store, and returns why the run ended early, if it did.
pub(crate) fn ran<W: Write>(
    alloc: Global,
    store: &mut Store,
    text: &str,
    out: &mut Counted<W>,
) -> Result<Option<RunFault>, Fail>
    ensures { store.new.lents ≡ store.old.lents }
{
    let script = parse(alloc, text.as_bytes())?;
    let inputs = input_files(alloc)?;
    Ok(run(alloc, store, &script, &inputs, out).err())
}

/// A store with the database of a file, and the number of that.
pub(crate) fn with_database(alloc: Global, listing: &str) -> Result<(Store, Db), Fail>
    ensures { IfOk result (λ made. made.0.lents ≡ []) }
{
    let mut store = listed_store(alloc, WIDE)?;
    let db = import(alloc, &mut store, &bytes_of(alloc, listing)?)?;
    Ok((store, db))
}

/// Whether a store has this image.
pub(crate) fn has_image(alloc: Global, store: &Store, image: &[u8]) -> Result<bool, Fail> {
    Ok(image_of(alloc, store)?.as_slice() == image)
}
