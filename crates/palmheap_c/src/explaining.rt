//! The sentences on faults and refusals.

ghost use Rattle.std.specs.Prelude.{◌≡◌, ◌≢◌};
ghost use Rattle.allowance.specs.Refusals.{GrowthRefused};
ghost use Rattle.heap_model.specs.Numbers.{number_of};
ghost use Rattle.heap_model.specs.declared.refusal.Refusal as refusals;
ghost use Rattle.palmheap_c.specs.Explaining.{Explains, HasFailed};

use crate::buffers::put_coded;
use crate::calls::refused;
use allowance::failed;
use explanations::explain_word;
use heap_model::Refusal;
use palm_text::Counted;
use program_io::Status;
use std::alloc::Global;

/// The result of `palmheap_explain` if no fault, refusal or change has the name or number.
const CALL_NO_WORD: u32 = 105;

/// Writes the text that the command `explain` prints into a buffer: a line for each fault, refusal
/// and change that has `word` as its name, or for the refusal that has it as its number, in
/// decimal. The case of letters doesn't matter. Sets `count` to the size of the text in bytes, also
/// if the buffer is too short for it.
///
/// # Errors
/// The refusal 26. `CALL_NO_WORD` if there is no line.
#[unsafe(no_mangle)]
pub extern "C" fn palmheap_explain(
    alloc: Global,
    word: &[u8],
    text: &mut [u8],
    count: &mut usize,
) -> u32
    ensures { Explains word.now text.old text.new count.old count.new result }
{
    let mut out = Counted::new(Vec::new(alloc));
    match explain_word(word, &mut out) {
        Status::Done => put_coded(&out.into_inner(), text, count),
        Status::BadWords => CALL_NO_WORD,
        Status::WriteFault => refused_text(alloc, &out),
        Status::Refused | Status::ReadFault | Status::NoMemory => unreachable!(),
    }
}

/// Records that a text was not written and flushed. A write into a vector fails only if an
/// allocation failed, and a flush of a vector never fails.
fn refused_text(alloc: Global, _out: &Counted<Vec<u8>>) -> u32
    requires { HasFailed _out.now }
    ensures is { result ≡ number_of refusals.Refusal.OutOfMemory }
    ensures short { GrowthRefused }
{
    let _ = unsafe { failed(&alloc) };
    refused(Refusal::OutOfMemory)
}
