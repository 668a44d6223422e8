//! The name of a database's file in a folder.

ghost use Rattle.std.specs.Prelude.{◌≡◌, ◌++◌, IfOk, OnOk, OnErr};
ghost use Rattle.store_commands.specs.FileNames as names;
ghost use Rattle.store_commands.specs.FileNames.{byte_text, bytes_text};

use allowance::{Allowance, extend, push};
use heap_model::Bytes;
use std::alloc::AllocError;

/// Whether a byte of a name stands in the name of a file as it is.
fn is_plain(first: bool, byte: u8) -> bool
    ensures { result ≡ names.is_plain first byte }
{
    byte >= b' ' && byte <= b'~' && byte != b'/' && byte != b'%' && !(first && byte == b'.')
}

/// Puts a byte of a name after a text.
fn push_byte<A: Allowance>(
    memory: &A,
    text: &mut Vec<u8>,
    first: bool,
    byte: u8,
) -> Result<(), AllocError>
    ensures text { OnOk result (text.new.items ≡ text.old.items ++ byte_text first byte) }
    ensures short { OnErr result (A.is_short memory.now) }
{
    if is_plain(first, byte) {
        return push(memory, text, byte);
    }
    let mut digits = [0; 2];
    hex::encode_to_slice(&[byte], &mut digits).unwrap();
    extend(memory, text, &[b'%', digits[0], digits[1]])
}

/// Puts bytes of a name after a text.
fn push_bytes<A: Allowance>(
    memory: &A,
    text: &mut Vec<u8>,
    first: bool,
    bytes: &[u8],
) -> Result<(), AllocError>
    ensures text { OnOk result (text.new.items ≡ text.old.items ++ bytes_text first bytes.now) }
    ensures short { OnErr result (A.is_short memory.now) }
{
    for index in 0..bytes.len() {
        push_byte(memory, text, first, bytes[index])?;
    }
    Ok(())
}

/// The end of the name of a file.
fn extension(resources: bool) -> &'static [u8]
    ensures { result.now ≡ names.extension resources }
{
    if resources { b".prc" } else { b".pdb" }
}

/// Returns the name of the file of a database: its own name, with `.prc` for resources and `.pdb`
/// for records. Bytes that file systems don't take are spelled `%` and two hex digits. The only
/// error is that an allocation failed.
pub fn file_name<A: Allowance>(
    memory: &A,
    name: &[u8],
    resources: bool,
) -> Result<Bytes, AllocError>
    ensures name { IfOk result (λ file. file ≡ names.file_name name.now resources) }
    ensures short { OnErr result (A.is_short memory.now) }
{
    let (first, rest) = name.split_at(name.len().min(1));
    let mut text = Vec::new(memory.allocator());
    push_bytes(memory, &mut text, true, first)?;
    push_bytes(memory, &mut text, false, rest)?;
    extend(memory, &mut text, extension(resources))?;
    Ok(Bytes::of(text))
}
