//! Folders of either form: of the canonical form of a file, or of a file as it stands.

ghost use Rattle.std.specs.Prelude.{◌≡◌, ◌≢◌, ◌≤◌, ◌<◌, ℕ, List, Err, None, IfOk, IfErr, MatchOption, length, is_ok};
ghost use Rattle.palm_text.specs.Counted.{Writes};
ghost use Rattle.canonical_file.specs.Canonical.{most_bytes};
ghost use Rattle.file_parts.specs.Unpacking.{IsUnpackFault};
ghost use Rattle.file_parts.specs.Either.{IsFaultyText, IsListedFolder, IsReadFrom, IsTakenApart, IsTakenPart, IsTextOf, PacksFolderBack, ReadsFolder, file_taken, folder_count, folder_part, form_taken, taken_count, taken_part};

use crate::exact_lines::read_exact_line;
use crate::exact_listed::{ListedExact, read_listed_exact};
use crate::exact_text::put_exact;
use crate::exact_unpacked::{UnpackedExact, unpack_exact};
use crate::lines::Lines;
use crate::listed::{Listed, read_listed};
use crate::part_file::PartFile;
use crate::text::put_database;
use crate::unpacked::{Part, UnpackFault, Unpacked, unpack};
use allowance::Allowance;
use palm_text::{Counted, WriteFault};
use script_lines::{LineFault, ScriptFault};
use std::io::Write;

/// The form of a folder.
#[derive(Clone, Copy, Debug, PartialEq, Eq)]
pub enum FolderForm {
    /// `pack` gives the canonical form of the file.
    Canonical,
    /// `pack` gives the file, byte for byte.
    Exact,
}

/// A file that is taken apart.
#[derive(Drop)]
pub enum TakenApart<'a> {
    Canonical(Unpacked<'a>),
    Exact(UnpackedExact<'a>),
}

/// Takes a file apart.
///
/// # Errors
///
/// - `BadFile`: if the file has a fault. It contains the first one.
/// - `OutOfMemory`: if an allocation failed.
pub fn take_apart<'a, A: Allowance>(
    memory: &A,
    form: FolderForm,
    file: &'a [u8],
) -> Result<TakenApart<'a>, UnpackFault>
    requires { length file.now ≤ most_bytes }
    ensures same { IfOk result (λ taken. file_taken taken ≡ file.now) }
    ensures form { IfOk result (λ taken. form_taken taken ≡ form) }
    ensures done { IfOk result IsTakenApart }
    ensures reads { IfOk result ReadsFolder }
    ensures packs { IfOk result PacksFolderBack }
    ensures why { IfErr result (IsUnpackFault file.now) }
    ensures short { result ≡ Err UnpackFault.OutOfMemory → A.is_short memory.now }
{
    match form {
        FolderForm::Canonical => match unpack(memory, file) {
            Ok(unpacked) => Ok(TakenApart::Canonical(unpacked)),
            Err(fault) => Err(fault),
        },
        FolderForm::Exact => match unpack_exact(memory, file) {
            Ok(unpacked) => Ok(TakenApart::Exact(unpacked)),
            Err(fault) => Err(fault),
        },
    }
}

impl<'a> TakenApart<'a> {
    /// Returns the number of parts that may be there.
    pub fn part_count(&self) -> usize
        ensures is { result ≡ taken_count self.now }
        ensures most { result ≤ 65538 }
    {
        match self {
            TakenApart::Canonical(unpacked) => unpacked.rank_count(),
            TakenApart::Exact(unpacked) => unpacked.part_count(),
        }
    }

    /// Returns a part, if it is there.
    pub fn part(&self, number: usize) -> Option<Part<'a>>
        requires { number < taken_count self.now }
        ensures { MatchOption result (taken_part self.now number ≡ None) (IsTakenPart self.now number) }
    {
        match self {
            TakenApart::Canonical(unpacked) => unpacked.part(number),
            TakenApart::Exact(unpacked) => unpacked.part(number),
        }
    }

    /// Writes the text `database`. It doesn't flush `out`, and allocates nothing.
    ///
    /// # Errors
    ///
    /// - `WriteFault`: if a write failed, or took 0 bytes.
    pub fn put_text<W: Write>(&self, out: &mut Counted<W>) -> Result<(), WriteFault>
        requires { IsTakenApart self.now }
        ensures { (text : List ℕ) → IsTextOf self.now text
            → Writes W.contents out.old out.new text (is_ok result) }
    {
        match self {
            TakenApart::Canonical(unpacked) => put_database(out, unpacked),
            TakenApart::Exact(unpacked) => put_exact(out, unpacked),
        }
    }
}

/// The text of a folder, once it is read.
#[derive(Drop)]
pub enum ListedFolder<'a> {
    Canonical(Listed<'a>),
    Exact(ListedExact<'a>),
}

/// Reads the text of a folder. Its first line says whether it is exact.
///
/// # Errors
///
/// - `OutOfMemory`, with the line 0: if an allocation failed.
/// - any other fault, with the line counted from 1.
pub fn read_folder<'a, A: Allowance>(
    memory: &A,
    text: &'a [u8],
) -> Result<ListedFolder<'a>, LineFault>
    ensures ok { IfOk result (IsReadFrom text.now) }
    ensures good { IfOk result IsListedFolder }
    ensures err { IfErr result (λ fault. fault.fault ≢ ScriptFault.OutOfMemory
        → IsFaultyText text.now fault) }
    ensures no_memory { IfErr result (λ fault. fault.fault ≡ ScriptFault.OutOfMemory
        → A.is_short memory.now) }
{
    let mut lines = Lines::of(text);
    match read_exact_line(&mut lines) {
        Ok(true) => match read_listed_exact(memory, &mut lines) {
            Ok(exact) => Ok(ListedFolder::Exact(exact)),
            Err(fault) => Err(fault),
        },
        Ok(false) => match read_listed(memory, text) {
            Ok(listed) => Ok(ListedFolder::Canonical(listed)),
            Err(fault) => Err(fault),
        },
        Err(fault) => Err(fault),
    }
}

impl<'a> ListedFolder<'a> {
    /// Returns the number of parts that may be there.
    pub fn part_count(&self) -> usize
        requires { IsListedFolder self.now }
        ensures { result ≡ folder_count self.now }
    {
        match self {
            ListedFolder::Canonical(listed) => listed.rank_count(),
            ListedFolder::Exact(listed) => listed.part_count(),
        }
    }

    /// Returns the name of a part, if it is there.
    pub fn part(&self, number: usize) -> &Option<PartFile<'a>>
        requires good { IsListedFolder self.now }
        requires inside { number < folder_count self.now }
        ensures { result.now ≡ folder_part self.now number }
    {
        match self {
            ListedFolder::Canonical(listed) => listed.part(number),
            ListedFolder::Exact(listed) => listed.part(number),
        }
    }
}
