//! A file that is read at offsets.

ghost use Rattle.std.specs.Prelude.{◌≡◌, ◌≢◌, ◌<◌, ◌≤◌, List, Option, ℕ, Ok, Err, None, IfOk, IfErr, IfSome, length, take, drop};
ghost use Rattle.std.specs.Io.{ReadsAtMost};
ghost use Rattle.heap_model.specs.Bytes.{AreBytes};
ghost use Rattle.program_io.specs.declared.input.InputFault.{InputFault};
ghost use Rattle.program_io.specs.declared.input.InputFault.TheVariants as faults;
ghost use Rattle.file_commands.specs.Starts.{IsOfSeeking};

use program_io::{InputFault, read_once};
use std::io::{Read, Seek, SeekFrom};

/// A file that is read at offsets.
pub trait ReadsAt: Drop {
    /// The bytes of the file, if contracts know them.
    ghost bytes: { Self → Option (List ℕ) };

    /// The faults with which a read may fail.
    ghost fails: { InputFault → Type 0 };

    /// Reads once, from an offset on. Returns the number of bytes, which is 0 only at the end or if
    /// `turn` is empty.
    ///
    /// # Errors
    /// - any fault but `Memory`: the read failed.
    fn read_at(&mut self, turn: &mut [u8], offset: u64) -> Result<usize, InputFault>
        ensures same { bytes self.new ≡ bytes self.old }
        ensures bound { ReadsAtMost result turn.new }
        ensures read { IfOk result (λ n. IfSome (bytes self.old)
            (λ all. take n turn.new ≡ take n (drop offset all))) }
        ensures end { result ≡ Ok 0 → 0 < length turn.new
            → IfSome (bytes self.old) (λ all. length all ≤ offset) }
        ensures fails { IfErr result (λ fault. fails fault) }
        ensures memory { result ≢ Err faults.Memory };

    /// Proves that the known bytes are bytes.
    fn know_bytes(&self)
        ensures { IfSome (bytes self.now) (λ all. AreBytes all) };
}

/// A file that is read by `seek` and `read`. Contracts know nothing of its bytes.
#[derive(Drop)]
pub struct BySeeking<F> {
    file: F,
}

impl<F: Read + Seek + Drop> BySeeking<F> {
    /// Wraps a file.
    pub fn new(file: F) -> BySeeking<F> {
        BySeeking { file }
    }
}

impl<F: Read + Seek + Drop> ReadsAt for BySeeking<F> {
    ghost bytes = { λ _. None };

    ghost fails = { IsOfSeeking };

    fn read_at(&mut self, turn: &mut [u8], offset: u64) -> Result<usize, InputFault> {
        if let Err(error) = self.file.seek(SeekFrom::Start(offset)) {
            return Err(InputFault::Open(error));
        }
        match read_once(&mut self.file, turn) {
            Ok(n) => Ok(n),
            Err(failure) => Err(InputFault::Read(failure)),
        }
    }

    fn know_bytes(&self) {}
}
