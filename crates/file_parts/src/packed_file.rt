//! Files that are put together, and ready to be written.

ghost use Rattle.std.specs.Prelude.{◌≡◌, ◌≤◌, ◌++◌, Err, IfOk, IfErr, OnOk, is_ok, length};
ghost use Rattle.palm_text.specs.Counted.{Writes};
ghost use Rattle.canonical_file.specs.Canonical.{most_bytes};
ghost use Rattle.file_parts.specs.Either.{HasFolderParts, IsFolderPackFault, IsPackedOf, folder_size, folder_tail};

use crate::either::ListedFolder;
use crate::exact_packing::{exact_head, put_tail};
use crate::packing::{FileHead, PackFault, pack_head, put_blocks};
use allowance::Allowance;
use heap_model::Bytes;
use palm_text::{Counted, WriteFault, put_all};
use std::io::Write;
use std::marker::Model;

/// A file that is put together from the parts of a folder, and ready to be written. It has the bytes
/// before the blocks, and borrows the parts. Contracts see all bytes of the file.
#[derive(Drop)]
pub struct PackedFile<'a> {
    folder: &'a ListedFolder<'a>,
    parts: &'a [Bytes],
    head: FileHead,
}

impl<'a> Model for PackedFile<'a> {
    ghost use Rattle.std.specs.Prelude.{◌≡◌, ◌++◌, ℕ, List, length};
    ghost use Rattle.file_parts.specs.Either.{HasFolderParts, folder_tail};

    ghost Value = { List ℕ };

    ghost view = { λ packed. packed.head.bytes.items
        ++ folder_tail packed.folder.now packed.parts.now };

    ghost invariant = { λ packed. HasFolderParts packed.folder.now packed.parts.now
        × (packed.head.size ≡ length (packed.head.bytes.items
        ++ folder_tail packed.folder.now packed.parts.now)) };
}

impl<'a> ListedFolder<'a> {
    /// Puts the parts together. It allocates the bytes before the blocks, and what it takes to find
    /// these. It copies no part, but for the first ones of a canonical folder: up to the first bytes
    /// of the file by which it is opened.
    ///
    /// # Errors
    ///
    /// - `TooLarge`: if the file would have more than `MOST_BYTES` bytes.
    /// - `BadLine`: if no file has the blocks of an exact folder in the order of its lines.
    /// - `OutOfMemory`: if an allocation failed.
    pub fn pack<A: Allowance>(
        &'a self,
        memory: &A,
        parts: &'a [Bytes],
    ) -> Result<PackedFile<'a>, PackFault>
        requires { HasFolderParts self.now parts.now }
        ensures packed { IfOk result (IsPackedOf self.now parts.now) }
        ensures fits { OnOk result (folder_size self.now parts.now ≤ most_bytes) }
        ensures why { IfErr result (IsFolderPackFault self.now parts.now) }
        ensures short { result ≡ Err PackFault.OutOfMemory → A.is_short memory.now }
    {
        match self.head(memory, parts) {
            Ok(head) => Ok(PackedFile {
                folder: self,
                parts,
                head,
            }),
            Err(fault) => Err(fault),
        }
    }

    /// Returns the head of the file of the parts.
    fn head<A: Allowance>(&self, memory: &A, parts: &[Bytes]) -> Result<FileHead, PackFault>
        requires { HasFolderParts self.now parts.now }
        ensures packed { IfOk result (λ head. IsPackedOf self.now parts.now
            (head.bytes.items ++ folder_tail self.now parts.now)) }
        ensures size { IfOk result (λ head.
            head.size ≡ length (head.bytes.items ++ folder_tail self.now parts.now)) }
        ensures fits { OnOk result (folder_size self.now parts.now ≤ most_bytes) }
        ensures why { IfErr result (IsFolderPackFault self.now parts.now) }
        ensures short { result ≡ Err PackFault.OutOfMemory → A.is_short memory.now }
    {
        match self {
            ListedFolder::Canonical(listed) => pack_head(memory, listed, parts),
            ListedFolder::Exact(listed) => exact_head(memory, listed, parts),
        }
    }

    /// Writes what comes after the head in the file of the parts.
    fn put_tail<W: Write>(&self, parts: &[Bytes], out: &mut Counted<W>) -> Result<(), WriteFault>
        requires { HasFolderParts self.now parts.now }
        ensures { Writes W.contents out.old out.new
            (folder_tail self.now parts.now) (is_ok result) }
    {
        match self {
            ListedFolder::Canonical(listed) => put_blocks(listed, parts, out),
            ListedFolder::Exact(exact) => put_tail(exact, parts, out),
        }
    }
}

impl<'a> PackedFile<'a> {
    /// Returns the size of the file in bytes.
    pub fn size(&self) -> usize
        ensures { result ≡ length self.now }
    {
        self.head.size
    }

    /// Writes the file. It doesn't flush `out`, and allocates nothing. After a write fails, it
    /// writes nothing more.
    ///
    /// # Errors
    ///
    /// - `WriteFault`: if a write failed, or took 0 bytes.
    #[tactic(auto, using(palm_text::proofs::Parts::then, palm_text::proofs::Parts::stops))]
    pub fn put<W: Write>(&self, out: &mut Counted<W>) -> Result<(), WriteFault>
        ensures { Writes W.contents out.old out.new self.now (is_ok result) }
    {
        put_all(out, self.head.bytes.as_slice())?;
        self.folder.put_tail(self.parts, out)
    }
}
