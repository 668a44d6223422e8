//! The file that is salvaged from a damaged one.

ghost use Rattle.std.specs.Prelude.{◌≡◌, ◌≢◌, ◌≤◌, length, false, Err, IfOk, IfErr};
ghost use Rattle.heap_model.specs.DatabaseFields.{header_size};
ghost use Rattle.heap_model.specs.Files.{HasNoFault};
ghost use Rattle.canonical_file.specs.Canonical.{HasBlocksOf, IsCanonicalFault, WritesOne, WroteOne, most_bytes};
ghost use Rattle.canonical_file.specs.Salvage.{Salvages};
ghost use Rattle.canonical_file.specs.Salvaged.{IsRewrittenBy, IsSalvageFault};

use crate::canonical::{CanonicalFault, put_canonical_from, put_written};
use crate::mended::{know_bytes, mended_by, mended_start};
use crate::record_ids::RecordIds;
use allowance::Allowance;
use db_format::DATABASE_HEADER_SIZE;
use file_ids::give_ids;
use heap_model::FileFault;
use palm_text::Counted;
use pdb_format::{FileBytes, FileStart, PdbFile};
use std::io::Write;

/// The IDs of the records of a salvaged file.
#[derive(Clone, Copy, Debug, PartialEq, Eq)]
pub enum SalvagedIds {
    /// Each record has an ID of its own, as in a canonical form.
    Distinct,
    /// Each record has the ID that it has in the damaged file.
    Exact,
}

/// Writes the file that is salvaged from a file, and returns its size in bytes.
///
/// It allocates the first bytes of the mended file, at most `MOST_START`, and the same as
/// `put_canonical_by`. It doesn't flush `out`. After a write fails, it writes nothing more.
///
/// # Errors
///
/// - `BadFile`: if the file is shorter than a header. The fault is `Truncated`.
/// - `OutOfMemory`: if an allocation failed.
/// - `Write`: if a write failed, or took 0 bytes.
pub fn put_salvaged<A: Allowance, W: Write>(
    memory: &A,
    file: &[u8],
    rule: SalvagedIds,
    out: &mut Counted<W>,
) -> Result<usize, CanonicalFault>
    requires { length file.now ≤ most_bytes }
    ensures done { IfOk result
        (WroteOne (Salvages rule file.now) W.contents out.old out.new) }
    ensures header { IfOk result (λ _. header_size ≤ length file.now) }
    ensures why { IfErr result (IsSalvageFault file.now) }
    ensures untouched { IfErr result (λ fault. fault ≢ CanonicalFault.Write → out.new ≡ out.old) }
    ensures write { result ≡ Err CanonicalFault.Write
        → WritesOne (Salvages rule file.now) W.contents out.old out.new false }
    ensures short { result ≡ Err CanonicalFault.OutOfMemory → A.is_short memory.now }
{
    if file.len() < DATABASE_HEADER_SIZE {
        return Err(CanonicalFault::BadFile(FileFault::Truncated));
    }
    know_bytes(file);
    let Ok(start) = mended_start(memory, file) else {
        return Err(CanonicalFault::OutOfMemory);
    };
    put_mended(memory, mended_by(file, &start), file, rule, out)
}

/// Writes the canonical form of a file without fault. Its records get IDs by the rule. The source has
/// the bytes of its blocks.
fn put_mended<A: Allowance, W: Write>(
    memory: &A,
    file: FileStart<'_>,
    source: &[u8],
    rule: SalvagedIds,
    out: &mut Counted<W>,
) -> Result<usize, CanonicalFault>
    requires size { length file ≤ most_bytes }
    requires good { HasNoFault file }
    requires source { HasBlocksOf file source.now }
    ensures done { IfOk result
        (WroteOne (IsRewrittenBy rule file.entry) W.contents out.old out.new) }
    ensures why { IfErr result (IsCanonicalFault file.entry) }
    ensures untouched { IfErr result (λ fault. fault ≢ CanonicalFault.Write → out.new ≡ out.old) }
    ensures write { result ≡ Err CanonicalFault.Write
        → WritesOne (IsRewrittenBy rule file.entry) W.contents out.old out.new false }
    ensures short { result ≡ Err CanonicalFault.OutOfMemory → A.is_short memory.now }
{
    let Ok(file) = PdbFile::of_bytes(memory, file) else {
        return Err(CanonicalFault::OutOfMemory);
    };
    match rule {
        SalvagedIds::Distinct => put_distinct(memory, &file, source, out),
        SalvagedIds::Exact => put_written(memory, &file, source, RecordIds::Own, out),
    }
}

/// Writes the canonical form of a file. The source has the bytes of its blocks.
fn put_distinct<A: Allowance, B: FileBytes, W: Write>(
    memory: &A,
    file: &PdbFile<'_, B>,
    source: &[u8],
    out: &mut Counted<W>,
) -> Result<usize, CanonicalFault>
    requires size { length file.now ≤ most_bytes }
    requires source { HasBlocksOf file.now source.now }
    ensures done { IfOk result
        (WroteOne (IsRewrittenBy SalvagedIds.Distinct file.now) W.contents out.old out.new) }
    ensures why { IfErr result (IsCanonicalFault file.now) }
    ensures untouched { IfErr result (λ fault. fault ≢ CanonicalFault.Write → out.new ≡ out.old) }
    ensures write { result ≡ Err CanonicalFault.Write
        → WritesOne (IsRewrittenBy SalvagedIds.Distinct file.now)
        W.contents out.old out.new false }
    ensures short { result ≡ Err CanonicalFault.OutOfMemory → A.is_short memory.now }
{
    file.know_file();
    let Ok(given) = give_ids(memory, file) else {
        return Err(CanonicalFault::OutOfMemory);
    };
    put_canonical_from(memory, file, source, &given, out)
}
