//! Tables that grow.

ghost use Rattle.std.specs.Prelude.{◌≡◌, ◌≤◌, OnErr, OnOk, length};
ghost use Rattle.script_calls.specs.Lines.{table};

use allowance::{Allowance, push, zeros};
use std::alloc::AllocError;

/// Gives a table `count` items at least. A new item is `unbound`, which also stands for each label
/// after the end of the table.
pub(crate) fn grow<A: Allowance, T: Copy + Drop>(
    memory: &A,
    items: &mut Vec<T>,
    unbound: T,
    count: usize,
) -> Result<(), AllocError>
    ensures table { table unbound items.new.items ≡ table unbound items.old.items }
    ensures room { OnOk result (count ≤ length items.new.items) }
    ensures short { OnErr result (A.is_short memory.now) }
{
    while items.len() < count {
        push(memory, items, unbound)?;
    }
    Ok(())
}

/// Gives a buffer `count` bytes at least.
pub(crate) fn widen<A: Allowance>(
    memory: &A,
    buffer: &mut Vec<u8>,
    count: usize,
) -> Result<(), AllocError>
    ensures room { OnOk result (count ≤ length buffer.new.items) }
    ensures short { OnErr result (A.is_short memory.now) }
{
    if buffer.len() < count {
        *buffer = zeros(memory, count)?;
    }
    Ok(())
}
