//! The blocks of a file, as they are in its canonical form.

ghost use Rattle.std.specs.Prelude.{◌≡◌, ◌≤◌, ◌<◌, ◌+◌, ◌++◌, ◌^◌, ℕ, List, length, is_ok, vec_len, vec_capacity, All, Some, IfOk, OnErr, false};
ghost use Rattle.std.specs.List.{sum_by};
ghost use Rattle.heap_model.specs.Files as files;
ghost use Rattle.pdb_format.specs.Blocks.{bytes_at, IsBlockWithin, length_within};
ghost use Rattle.palm_text.specs.Counted.{Writes};
ghost use Rattle.canonical_file.specs.Canonical.{Continues, blocks_at, run_bytes};

use palm_text::{Counted, WriteFault, put_all};
use pdb_format::Block;
use std::io::Write;

/// Returns the size of a block in bytes, and 0 if there is none.
pub(crate) fn block_length(block: Option<Block>) -> usize
    requires { IsBlockWithin usize.MAX block }
    ensures { result ≡ length_within block }
{
    match block {
        Some(block) => block.end - block.start,
        None => 0,
    }
}

/// Returns the size of all blocks together in bytes.
pub(crate) fn total_length(blocks: &[Option<Block>]) -> usize
    requires within { All (IsBlockWithin usize.MAX) blocks.now }
    requires few { sum_by length_within blocks.now < 2 ^ 64 }
    ensures { result ≡ sum_by length_within blocks.now }
{
    let mut total = 0;
    for index in 0..blocks.len() {
        total += block_length(blocks[index]);
    }
    total
}

/// Returns the offset `at` of a block, and 0 if there is no block.
pub(crate) fn block_offset(at: u32, block: Option<Block>) -> u32
    ensures { (file : List ℕ) → result ≡ files.block_offset at (bytes_at file block) }
{
    match block {
        Some(_) => at,
        None => 0,
    }
}

/// Returns the bytes at the place of a block.
fn bytes_of(source: &[u8], block: Block) -> &[u8]
    requires { IsBlockWithin (length source.now) (Some block) }
    ensures { result.now ≡ run_bytes source.now block }
{
    &source[block.start..block.end]
}

/// Returns the bytes of a block, and none if there is no block.
fn block_bytes(source: &[u8], block: Option<Block>) -> &[u8]
    requires { IsBlockWithin (length source.now) block }
    ensures { result.now ≡ files.block_bytes (bytes_at source.now block) }
{
    match block {
        Some(block) => bytes_of(source, block),
        None => &[],
    }
}

/// Appends bytes to a vector that has room for them.
pub(crate) fn append(bytes: &mut Vec<u8>, more: &[u8])
    requires { vec_len bytes.old + length more.now ≤ vec_capacity bytes.old }
    ensures items { bytes.new.items ≡ bytes.old.items ++ more.now }
    ensures len { vec_len bytes.new ≡ vec_len bytes.old + length more.now }
    ensures capacity { vec_capacity bytes.old ≤ vec_capacity bytes.new }
{
    let Ok(()) = bytes.extend_from_slice(more) else {
        unreachable!()
    };
}

/// Appends the blocks to a vector that has room for them. The source has their bytes at their places.
pub(crate) fn append_blocks(source: &[u8], blocks: &[Option<Block>], bytes: &mut Vec<u8>)
    requires within { All (IsBlockWithin (length source.now)) blocks.now }
    requires room { vec_len bytes.old + length (blocks_at source.now blocks.now)
        ≤ vec_capacity bytes.old }
    ensures { bytes.new.items ≡ bytes.old.items ++ blocks_at source.now blocks.now }
{
    for index in 0..blocks.len() {
        append(bytes, block_bytes(source, blocks[index]));
    }
}

/// Adds a block to a run: neighbouring blocks, which are not written yet. If the block doesn't begin
/// where the run ends, writes the run, and returns a run of this block alone.
fn put_unless_next<W: Write>(
    source: &[u8],
    run: Block,
    block: Option<Block>,
    out: &mut Counted<W>,
) -> Result<Block, WriteFault>
    requires run { IsBlockWithin (length source.now) (Some run) }
    requires block { IsBlockWithin (length source.now) block }
    ensures next { IfOk result (Continues source.now W.contents out.old out.new run block) }
    ensures within { IfOk result (λ next. IsBlockWithin (length source.now) (Some next)) }
    ensures stops { OnErr result (Writes W.contents out.old out.new (run_bytes source.now run) false) }
{
    let Some(block) = block else {
        return Ok(run);
    };
    if block.start == run.end {
        return Ok(Block {
            start: run.start,
            end: block.end,
        });
    }
    put_all(out, bytes_of(source, run))?;
    Ok(block)
}

/// Writes the blocks, one after the other. The source has their bytes at their places. Neighbouring
/// blocks are one write.
pub(crate) fn put_blocks<W: Write>(
    source: &[u8],
    blocks: &[Option<Block>],
    out: &mut Counted<W>,
) -> Result<(), WriteFault>
    requires { All (IsBlockWithin (length source.now)) blocks.now }
    ensures { Writes W.contents out.old out.new (blocks_at source.now blocks.now) (is_ok result) }
{
    let mut run = Block { start: 0, end: 0 };
    for index in 0..blocks.len() {
        match put_unless_next(source, run, blocks[index], out) {
            Ok(next) => run = next,
            Err(fault) => return Err(fault),
        }
    }
    put_all(out, bytes_of(source, run))
}
