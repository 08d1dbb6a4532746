// The whole program, over an outside that is handed in.
ghost use Rattle.std.specs.Prelude.{◌≡◌, ◌⊎◌, ◌-◌, ◌^◌, ◌<◌, ◌≤◌, List, ℕ, length, IfSome, IsTrue, ◌↔◌, map};
ghost use Rattle.std.specs.Io.KnownBytes.{Consumes, IsAtEnd};
ghost use Rattle.chyp_load.specs.Imports.{ImportsSome};
ghost use Rattle.chyp_app.specs.Words.{Accepts, texts_of};
ghost use Rattle.chyp_app.specs.Output.{IsCheck, IsTrueOutput};
ghost use Rattle.chyp_app.specs.Headline.{Begins, BeginsToCheck, ComesBy, EndsSo, EndsWell, IsEnded};

use crate::check::{check_text, each_run_has_one_output};
use crate::read::{ReadStop, read_text};
use chyp_base::{Failed, Library, MAX_TEXT_LEN, Sink, Source, Status, Steps};
use chyp_load::LoadError;
use chyp_write::write_text;
use std::alloc::Global;
use std::sync::ledger::Ledger;

// Whether the words are the one list that is obeyed.
fn is_check(words: &[&str]) -> bool
    ensures { IsTrue result ↔ Accepts (texts_of words.now) }
{
    match words {
        [word] => *word == "check",
        _ => false,
    }
}

// Reads a text and its modules, checks it, and writes the report.
fn check<S: Source, K: Sink, L: Library, G: Ledger>(
    alloc: Global,
    source: &mut S,
    sink: &mut K,
    library: &mut L,
    steps: &mut Steps<G>,
) -> Status
    requires source { S.faults source.old < 2 ^ 64 - 1 }
    requires sink { K.faults sink.old < 2 ^ 64 - 1 }
    requires library { L.faults library.old < 2 ^ 64 - 1 }
    ensures output { IfSome (S.left source.old) (λ text. IfSome (K.held sink.old) (λ held. IfSome (L.texts library.old) (λ texts.
        S.faults source.new ≡ S.faults source.old → K.faults sink.new ≡ K.faults sink.old → L.faults library.new ≡ L.faults library.old →
        EndsWell (IsCheck texts text) held (K.held sink.new) steps.old steps.new result))) }
    ensures begun { IfSome (S.left source.old) (λ text. IfSome (K.held sink.old) (λ held. IfSome (L.texts library.old) (λ texts.
        Begins (IsCheck texts text) held (K.held sink.new) steps.old steps.new))) }
    ensures judged { IfSome (S.left source.old) (λ text. IfSome (L.texts library.old) (λ texts.
        S.faults source.new ≡ S.faults source.old → K.faults sink.new ≡ K.faults sink.old → L.faults library.new ≡ L.faults library.old →
        EndsSo (IsCheck texts text) steps.old steps.new result)) }
    ensures counted { IfSome (S.left source.old) (λ text. IfSome (L.texts library.old) (λ texts.
        BeginsToCheck (IsCheck texts text) steps.old steps.new)) }
    ensures causes { ComesBy (record { reads = S.faults source.old; writes = K.faults sink.old; finds = L.faults library.old })
        (record { reads = S.faults source.new; writes = K.faults sink.new; finds = L.faults library.new }) result }
    ensures texts { L.texts library.new ≡ L.texts library.old }
    ensures wanted { result ≡ Status.LibraryFault → IfSome (S.left source.old) ImportsSome }
    ensures given { result ≡ Status.ReadFault → (given : List ℕ) × Consumes (S.left source.old) (S.left source.new) given
        × (length given ≤ MAX_TEXT_LEN) }
    ensures untouched { ((result ≡ Status.ReadFault) ⊎ (result ≡ Status.LibraryFault)) → (sink.new ≡ sink.old) × (steps.new ≡ steps.old) }
    ensures unwritten { ((result ≡ Status.TooLong) ⊎ (result ≡ Status.NoMemory)) → sink.new ≡ sink.old }
    ensures whole { IsEnded result → IsAtEnd (S.left source.new) }
    ensures words { result ≡ Status.BadWords → ⊥ }
{
    each_run_has_one_output();
    let text = match read_text(alloc, source) {
        Ok(text) => text,
        Err(ReadStop::Failed) => return Status::ReadFault,
        Err(ReadStop::NoMemory) => return Status::NoMemory,
    };
    if text.len() > MAX_TEXT_LEN {
        return Status::TooLong;
    }
    let checked = match check_text(alloc, &text, library, steps) {
        Ok(checked) => checked,
        Err(LoadError::Failed) => return Status::LibraryFault,
        Err(LoadError::TooLong) => return Status::TooLong,
        Err(LoadError::NoMemory) => return Status::NoMemory,
    };
    match write_text(sink, &checked.report) {
        Ok(()) => checked.status,
        Err(Failed) => Status::WriteFault,
    }
}

/// Obeys the words of the command line, over the outside that is handed in.
///
/// `check` reads a text from the source and from the library the modules that it reaches, checks each
/// statement of the text and of those modules, at one step each, and writes the report to the sink, once
/// all verdicts are known. The status says how the run ended; `NoMemory` may come at any point before the
/// report is written.
pub fn run<S: Source, K: Sink, L: Library, G: Ledger>(
    alloc: Global,
    words: &[&str],
    source: &mut S,
    sink: &mut K,
    library: &mut L,
    steps: &mut Steps<G>,
) -> Status
    requires source { S.faults source.old < 2 ^ 64 - 1 }
    requires sink { K.faults sink.old < 2 ^ 64 - 1 }
    requires library { L.faults library.old < 2 ^ 64 - 1 }

    // Over an outside that tells what it holds and does not fail, the run gives the output for its words, its bytes and the texts
    // of its library. What it says of the rewrites of the text is so: each that is proved has a derivation from `rule` statements
    // that stand before it, in the text or in modules that it reaches.
    ensures output { IfSome (S.left source.old) (λ bytes. IfSome (K.held sink.old) (λ held. IfSome (L.texts library.old) (λ texts.
        S.faults source.new ≡ S.faults source.old → K.faults sink.new ≡ K.faults sink.old → L.faults library.new ≡ L.faults library.old →
        EndsWell (IsTrueOutput (texts_of words.now) bytes texts) held (K.held sink.new) steps.old steps.new result))) }

    // However it ends, what was written is the front of that output, and no more steps were counted.
    ensures begun { IfSome (S.left source.old) (λ bytes. IfSome (K.held sink.old) (λ held. IfSome (L.texts library.old) (λ texts.
        Begins (IsTrueOutput (texts_of words.now) bytes texts) held (K.held sink.new) steps.old steps.new))) }

    // Whether the sink tells what it holds or not: the status and the steps are those of the output.
    ensures judged { IfSome (S.left source.old) (λ bytes. IfSome (L.texts library.old) (λ texts.
        S.faults source.new ≡ S.faults source.old → K.faults sink.new ≡ K.faults sink.old → L.faults library.new ≡ L.faults library.old →
        EndsSo (IsTrueOutput (texts_of words.now) bytes texts) steps.old steps.new result)) }
    ensures counted { IfSome (S.left source.old) (λ bytes. IfSome (L.texts library.old) (λ texts.
        BeginsToCheck (IsTrueOutput (texts_of words.now) bytes texts) steps.old steps.new)) }

    // Words are refused exactly where they are none of the accepted lists, and then nothing is touched.
    ensures bad_words { result ≡ Status.BadWords → ¬ Accepts (texts_of words.now) }
    ensures refused { ¬ Accepts (texts_of words.now) → ((result ≡ Status.BadWords) ⊎ (result ≡ Status.NoMemory))
        × (source.new ≡ source.old) × (sink.new ≡ sink.old) × (library.new ≡ library.old) × (steps.new ≡ steps.old) }

    // Each fault has its cause, and at most one count of faults rises.
    ensures causes { ComesBy (record { reads = S.faults source.old; writes = K.faults sink.old; finds = L.faults library.old })
        (record { reads = S.faults source.new; writes = K.faults sink.new; finds = L.faults library.new }) result }

    // The texts of the library stay, and it fails only where the text imports a module.
    ensures texts { L.texts library.new ≡ L.texts library.old }
    ensures wanted { result ≡ Status.LibraryFault → IfSome (S.left source.old) ImportsSome }

    // A read that failed came before any write, and before the limit was passed; and nothing was written or counted where the
    // source or the library failed.
    ensures given { result ≡ Status.ReadFault → (given : List ℕ) × Consumes (S.left source.old) (S.left source.new) given
        × (length given ≤ MAX_TEXT_LEN) }
    ensures untouched { ((result ≡ Status.ReadFault) ⊎ (result ≡ Status.LibraryFault)) → (sink.new ≡ sink.old) × (steps.new ≡ steps.old) }

    // Nothing was written where something is too long, or where memory was wanting.
    ensures unwritten { ((result ≡ Status.TooLong) ⊎ (result ≡ Status.NoMemory)) → sink.new ≡ sink.old }

    // A run that ended well read its source to the end.
    ensures whole { IsEnded result → IsAtEnd (S.left source.new) }
{
    each_run_has_one_output();
    if is_check(words) {
        check(alloc, source, sink, library, steps)
    } else {
        Status::BadWords
    }
}
