//! The line for a refused script, or for a refused text of a folder.

ghost use Rattle.std.specs.Prelude.{◌≡◌, ◌⊎◌, IfOk, OnErr, string_bytes, true, false};
ghost use Rattle.file_commands.specs.LineFaults.{IsFaultLine, PutsScriptRefused};

use allowance::{Allowance, text_of};
use palm_text::Counted;
use program_io::{Status, say_text};
use script_lines::{LineFault, ScriptFault};
use std::alloc::AllocError;
use std::io::Write;

/// Prints the line for a refused script. Returns `Refused`, or the fault if an allocation, a write
/// or the flush failed.
pub fn say_line_fault<A: Allowance, V: Write>(
    memory: &A,
    fault: LineFault,
    out: &mut Counted<V>,
) -> Status
    ensures status { (result ≡ Status.Refused) ⊎ (result ≡ Status.WriteFault)
        ⊎ (result ≡ Status.NoMemory) }
    ensures said { result ≡ Status.Refused → PutsScriptRefused fault V.contents out.old out.new true }
    ensures fault { result ≡ Status.WriteFault → PutsScriptRefused fault V.contents out.old out.new false }
    ensures no_memory { result ≡ Status.NoMemory → out.new ≡ out.old }
    ensures short { result ≡ Status.NoMemory → A.is_short memory.now }
{
    say_text(line_fault_text(memory, fault), Status::Refused, out)
}

/// Returns the line for a refused script.
fn line_fault_text<A: Allowance>(memory: &A, fault: LineFault) -> Result<String, AllocError>
    ensures line { IfOk result (λ line. IsFaultLine fault (string_bytes line)) }
    ensures short { OnErr result (A.is_short memory.now) }
{
    let line = fault.line;
    let name = fault.fault.name();
    match fault.fault {
        ScriptFault::BadWord(word) => text_of(memory, format_args!("line {line} {name} {word}\n")),
        _ => text_of(memory, format_args!("line {line} {name}\n")),
    }
}
