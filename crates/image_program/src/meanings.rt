//! The command `explain`.

ghost use Rattle.std.specs.Prelude.{◌≡◌, ◌⊎◌, ◌==◌};
ghost use Rattle.std.specs.List.{before_first};

use command_files::STANDARD_OUTPUT;
use explanations::explain_word;
use palm_text::Counted;
use program_io::{Noted, Status, report_outcome};
use std::io;

/// Runs `explain`. It ignores what follows the first space. If no fault, refusal or change has the
/// word as its name or number, it reports that on standard error.
pub(crate) fn explain<R: Print + Eprint>(rt: &R, word: &str) -> Status
    ensures { (result ≡ Status.Done) ⊎ (result ≡ Status.BadWords) ⊎ (result ≡ Status.WriteFault) }
{
    let mut out = Counted::new(Noted::new(io::writer(rt)));
    let name = first_word(word);
    let status = explain_word(name.as_bytes(), &mut out);
    let (_, fault) = out.into_inner().into_parts();
    if status == Status::BadWords {
        let _ = eprintln!(rt; "error: no fault, no refusal and no change is called '{name}'");
    }
    report_outcome(rt, status, &[(STANDARD_OUTPUT, fault)]);
    status
}

/// Returns the text before the first space.
fn first_word(words: &str) -> &str
    ensures { result.now ≡ before_first (λ b. b == 32) words.now }
{
    match words.split_once(' ') {
        Some((word, _)) => word,
        None => words,
    }
}
