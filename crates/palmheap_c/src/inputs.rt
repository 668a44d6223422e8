//! The files that a script imports, and the files that it exports.

ghost use Rattle.std.specs.Prelude.{◌≡◌, IfOk, OnErr, map};
ghost use Rattle.allowance.specs.Refusals.{GrowthRefused};
ghost use Rattle.palmheap_c.specs.Runs as runs;

use allowance::{copied, extend, push};
use heap_model::Bytes;
use std::alloc::{AllocError, Global};

/// Returns copies of some files.
pub(crate) fn copied_all(alloc: Global, files: &[&[u8]]) -> Result<Vec<Bytes>, AllocError>
    ensures copies { IfOk result (λ copies. copies.items ≡ map (λ file. file.now) files.now) }
    ensures short { OnErr result GrowthRefused }
{
    let mut copies = Vec::new(alloc);
    for file in files {
        push(&alloc, &mut copies, Bytes::of(copied(&alloc, file)?))?;
    }
    Ok(copies)
}

/// Returns some files, one after the other, and where each of them ends.
pub(crate) fn joined(alloc: Global, files: &[Bytes]) -> Result<(Vec<u8>, Vec<usize>), AllocError>
    ensures bytes { IfOk result (λ all. all.0.items ≡ runs.joined files.now) }
    ensures ends { IfOk result (λ all. all.1.items ≡ runs.ends_from 0 files.now) }
    ensures short { OnErr result GrowthRefused }
{
    let mut all = Vec::new(alloc);
    let mut ends = Vec::new(alloc);
    for file in files {
        extend(&alloc, &mut all, file.as_slice())?;
        push(&alloc, &mut ends, all.len())?;
    }
    Ok((all, ends))
}
