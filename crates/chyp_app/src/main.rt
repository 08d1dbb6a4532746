//! The program `chyp`, which checks theory files of string diagrams.
//!
//! `run` is the whole program over an outside that is handed in: a source of bytes, a sink for bytes, a
//! library of modules and a counter of steps. Its contract says which bytes it writes and which status
//! it ends with, for every text, where the outside tells what it holds: `proved` stands in what it
//! writes only where the laws of symmetric monoidal categories derive the equation, and `differs` only
//! where they can't. It also says what may come where the outside fails. `main` makes the real outside,
//! calls `run`, and says a failure on standard error.
#![tactic(auto)]

mod check;
mod page;
mod read;
mod report;
mod run;
#[cfg(test)]
mod tests;

ghost use Rattle.std.specs.Prelude.{◌≡◌, ◌<◌};

use crate::run::run;
use chyp_base::{DirLibrary, Status, StdSink, StdSource, Steps};
use std::alloc::Global;
use std::io::ErrorKind;
use std::marker::Brand;
use std::process::ExitCode;
use std::sync::ledger::{Blank, Ledger};

// What is said on standard error.
fn complaint(status: Status) -> Option<&'static str> {
    match status {
        Status::Done | Status::SomeNotGood => None,
        Status::BadWords => Some("chyp: bad words; use check, live or generate N"),
        Status::ReadFault => Some("chyp: read fault"),
        Status::WriteFault => Some("chyp: write fault"),
        Status::LibraryFault => Some("chyp: library fault"),
        Status::TooLong => Some("chyp: input too long"),
        Status::BadCommand => Some("chyp: bad command"),
        Status::NoMemory => Some("chyp: no memory"),
    }
}

// Makes the outside and runs over it.
fn run_outside<G: Ledger>(rt: &HostRuntime, alloc: Global, words: &[&str], blank: Blank) -> Status
    requires name { blank.name ≡ G.name }
    requires parts { blank.parts ≡ G.parts }
    requires some { 0 < G.parts }
{
    let mut source = StdSource::new(rt.stdin());
    let mut sink = StdSink::new(rt.stdout());
    let mut library = DirLibrary::new(alloc, *rt);
    let mut steps = Steps::<G>::new(blank);
    run(
        alloc,
        words,
        &mut source,
        &mut sink,
        &mut library,
        &mut steps,
    )
}

// The words after the program's name.
fn arguments(rt: &HostRuntime, alloc: Global) -> Result<Vec<String>, Status> {
    let all = std::env::args(rt).map_err(|error| match error.kind() {
        ErrorKind::OutOfMemory => Status::NoMemory,
        _ => Status::BadWords,
    })?;
    all.skip(1).collect(alloc).map_err(|_| Status::NoMemory)
}

// Runs with the words that the program is given.
fn run_with_arguments(rt: &HostRuntime, alloc: Global) -> Result<Status, Status> {
    let arguments = arguments(rt, alloc)?;
    let words: Vec<&str> = arguments
        .iter()
        .map(|word| word.as_str())
        .collect(alloc)
        .map_err(|_| Status::NoMemory)?;
    Ok(run_outside::<Brand>(rt, alloc, &words, Blank::new(1)))
}

fn main(rt: HostRuntime) -> ExitCode {
    let status = match run_with_arguments(&rt, rt.alloc()) {
        Ok(status) | Err(status) => status,
    };
    if let Some(line) = complaint(status) {
        let _ = eprintln!(rt; "{line}");
    }
    ExitCode::from(status.number())
}
