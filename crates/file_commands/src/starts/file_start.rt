//! The first bytes of a file, and of its AppInfo.

ghost use Rattle.std.specs.Prelude.{◌≡◌, ◌≢◌, ◌+◌, ◌-◌, ◌<◌, ◌≤◌, ◌^◌, ◌++◌, ℕ, Err, List, IfOk, IfErr, IfSome, length, min};
ghost use Rattle.heap_model.specs.Bytes.{AreBytes, u32_at};
ghost use Rattle.heap_model.specs.DatabaseFields.{app_info_at};
ghost use Rattle.pdb_format.specs.FileStarts.{most_app, most_start};
ghost use Rattle.file_commands.specs.Starts.{BeginsWith, FailsBy, IsPartOfFile, IsSplit};

use crate::starts::parts::{check_size, read_part};
use crate::starts::reads_at::ReadsAt;
use allowance::{Allowance, copied};
use command_files::SizedFault;
use db_format::app_info;
use pdb_format::{FileBytes, MOST_APP, MOST_START, Unread, app_of, name_unread};
use program_io::InputFault;
use std::marker::Model;

/// The number of bytes that are read first: those of AppInfo are among them if it begins within
/// `MOST_START`.
pub const READ_FIRST: usize = MOST_START + MOST_APP;

/// The first bytes of a file, its size, and the first bytes of its AppInfo. Contracts see the whole
/// file.
#[derive(Drop)]
pub struct ReadStart {
    size: usize,
    start: Vec<u8>,
    app: Vec<u8>,
    rest: Unread,
}

impl Model for ReadStart {
    ghost use Rattle.std.specs.Prelude.{◌++◌, ℕ, List};
    ghost use Rattle.file_commands.specs.Starts.{IsSplit};

    ghost Value = { List ℕ };

    ghost view = { λ file. file.start.items ++ file.rest.bytes };

    ghost invariant = { λ file. IsSplit file.start.items file.app.items file.size file.rest.bytes };
}

impl ReadStart {
    /// Returns the file that begins with these bytes. Its other bytes are known to contracts alone.
    fn of<F: ReadsAt>(_file: &F, start: Vec<u8>, app: Vec<u8>, size: usize) -> ReadStart
        ghost rest: { List ℕ }
        requires { IsSplit start.items app.items size rest }
        ensures { result ≡ start.items ++ rest }
    {
        let rest = name_unread();
        ReadStart {
            size,
            start,
            app,
            rest,
        }
    }
}

impl FileBytes for ReadStart {
    ghost bytes = { λ file. file };

    fn size(&self) -> usize {
        self.size
    }

    fn start(&self) -> &[u8] {
        &self.start
    }

    fn app(&self) -> &[u8] {
        &self.app
    }
}

/// Reads the first bytes of a file that has exactly `size` bytes, and the first bytes of its AppInfo.
///
/// # Errors
/// - `Input`: a read failed, or an allocation did.
/// - `OtherSize`: the file has another size.
#[tactic(auto, using(crate::proofs::Splits::begins, crate::proofs::Splits::too_few))]
pub fn read_start<A: Allowance, F: ReadsAt>(
    memory: &A,
    file: &mut F,
    size: usize,
) -> Result<ReadStart, SizedFault>
    requires long { most_start + most_app ≤ size }
    requires short { size < 2 ^ 63 }
    ensures bytes { IfOk result (λ read. IfSome (F.bytes file.old) (λ all. read ≡ all)) }
    ensures len { IfOk result (λ read. length read ≡ size) }
    ensures size { result ≡ Err SizedFault.OtherSize
        → IfSome (F.bytes file.old) (λ all. length all ≢ size) }
    ensures no_memory { result ≡ Err (SizedFault.Input InputFault.Memory) → A.is_short memory.now }
    ensures fails { IfErr result (FailsBy F.fails) }
{
    check_size(file, size)?;
    let start = read_part(memory, file, 0, READ_FIRST)?;
    file.know_bytes();
    if (app_info(&start) as usize) < MOST_START {
        with_app_inside(memory, file, start, size)
    } else {
        with_app_after(memory, file, start, size)
    }
}

/// Returns a file whose AppInfo begins among these first bytes, and as much as a listing looks at is
/// among them.
#[tactic(auto, using(crate::proofs::Splits::split_inside, crate::proofs::Splits::is_known))]
fn with_app_inside<A: Allowance, F: ReadsAt>(
    memory: &A,
    file: &F,
    start: Vec<u8>,
    size: usize,
) -> Result<ReadStart, SizedFault>
    requires len { length start.items ≡ most_start + most_app }
    requires long { length start.items ≤ size }
    requires short { size < 2 ^ 63 }
    requires inside { u32_at start.items app_info_at < most_start }
    requires begins { BeginsWith (F.bytes file.now) start.items size }
    ensures bytes { IfOk result (λ read. IfSome (F.bytes file.now) (λ all. read ≡ all)) }
    ensures len { IfOk result (λ read. length read ≡ size) }
    ensures size { result ≢ Err SizedFault.OtherSize }
    ensures no_memory { result ≡ Err (SizedFault.Input InputFault.Memory) → A.is_short memory.now }
    ensures fails { IfErr result (FailsBy F.fails) }
{
    know_numbers(&start);
    match copied(memory, app_of(&start)) {
        Ok(app) => Ok(ReadStart::of(file, start, app, size)),
        Err(_) => Err(SizedFault::Input(InputFault::Memory)),
    }
}

/// Returns a file whose AppInfo doesn't begin within `MOST_START`. Reads the first bytes of AppInfo.
#[tactic(auto, using(crate::proofs::Splits::split_after, crate::proofs::Splits::after_known, crate::proofs::Splits::no_app))]
fn with_app_after<A: Allowance, F: ReadsAt>(
    memory: &A,
    file: &mut F,
    start: Vec<u8>,
    size: usize,
) -> Result<ReadStart, SizedFault>
    requires len { length start.items ≡ most_start + most_app }
    requires long { length start.items ≤ size }
    requires short { size < 2 ^ 63 }
    requires after { most_start ≤ u32_at start.items app_info_at }
    requires begins { BeginsWith (F.bytes file.old) start.items size }
    ensures bytes { IfOk result (λ read. IfSome (F.bytes file.old) (λ all. read ≡ all)) }
    ensures len { IfOk result (λ read. length read ≡ size) }
    ensures size { result ≡ Err SizedFault.OtherSize
        → IfSome (F.bytes file.old) (λ all. length all ≢ size) }
    ensures no_memory { result ≡ Err (SizedFault.Input InputFault.Memory) → A.is_short memory.now }
    ensures fails { IfErr result (FailsBy F.fails) }
{
    let mut start = start;
    let at = app_info(&start) as usize;
    let app = read_app(memory, file, at, size)?;
    start.truncate(MOST_START);
    know_numbers(&start);
    know_numbers(&app);
    Ok(ReadStart::of(file, start, app, size))
}

/// Reads the first bytes of AppInfo, at most `MOST_APP`, from its offset on.
fn read_app<A: Allowance, F: ReadsAt>(
    memory: &A,
    file: &mut F,
    at: usize,
    size: usize,
) -> Result<Vec<u8>, SizedFault>
    requires { at < 2 ^ 32 }
    ensures same { F.bytes file.new ≡ F.bytes file.old }
    ensures len { IfOk result (λ app. length app.items ≡ min (size - at) most_app) }
    ensures part { IfOk result (λ app.
        IsPartOfFile (F.bytes file.old) at (min (size - at) most_app) app.items) }
    ensures size { result ≡ Err SizedFault.OtherSize
        → IfSome (F.bytes file.old) (λ all. length all - at < min (size - at) most_app) }
    ensures no_memory { result ≡ Err (SizedFault.Input InputFault.Memory) → A.is_short memory.now }
    ensures fails { IfErr result (FailsBy F.fails) }
{
    read_part(
        memory,
        file,
        at as u64,
        size.saturating_sub(at).min(MOST_APP),
    )
}

/// Proves that the numbers in a slice are bytes.
pub(crate) fn know_numbers(bytes: &[u8])
    ensures { AreBytes bytes.now }
{
    let _bytes = bytes;
}
