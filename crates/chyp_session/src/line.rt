// Lines of a report.
ghost use Rattle.std.specs.Prelude.{◌≡◌, ◌-◌, ◌^◌, ◌<◌, ◌++◌, codes, decimal, option_copied};
ghost use Rattle.chyp_session.specs.Line.{heading_text, line_text, name_or_dash, place_text, verdict_or_pending, verdict_text};
ghost use Rattle.chyp_write.specs.Writing.{Writes};

use crate::Place;
use chyp_base::{Failed, Name, Sink, Verdict};
use chyp_write::{write_all, write_text};
use itoa::Buffer;

/// What the line of a statement shows.
#[derive(Clone, Copy, Debug)]
pub struct Line<'a> {
    /// The place of the statement's first token.
    pub start: Place,
    /// The statement's keyword, or `stray`.
    pub kind: &'a str,
    /// The name behind the keyword; None is shown as `-`.
    pub name: Option<&'a Name>,
    /// The verdict; None is shown as `pending`.
    pub verdict: Option<&'a Verdict>,
    /// The place of the token that the verdict names.
    pub at: Place,
}

/// Appends the line of a statement, `LINE:COLUMN KIND NAME VERDICT` with LF. It takes no memory.
///
/// # Errors
///
/// `Failed` where the sink failed; a prefix of the line was appended then.
pub fn write_line<K: Sink>(line: &Line<'_>, sink: &mut K) -> Result<(), Failed>
    requires { K.faults sink.old < 2 ^ 64 - 1 }
    ensures { Writes (K.held sink.old) (K.held sink.new) (K.faults sink.old) (K.faults sink.new) result (line_text line.now) }
{
    write_heading(line, sink)?;
    write_outcome(line.verdict, line.at, sink)?;
    write_all(sink, &["\n"])
}

// `LINE:COLUMN KIND NAME `
fn write_heading<K: Sink>(line: &Line<'_>, sink: &mut K) -> Result<(), Failed>
    requires { K.faults sink.old < 2 ^ 64 - 1 }
    ensures { Writes (K.held sink.old) (K.held sink.new) (K.faults sink.old) (K.faults sink.new) result
        (heading_text line.now.start line.now.kind.now (option_copied line.now.name)) }
{
    write_place(line.start, sink)?;
    let name = name_or_dash(line.name);
    write_all(sink, &[" ", line.kind, " ", name, " "])
}

// `LINE:COLUMN`
fn write_place<K: Sink>(at: Place, sink: &mut K) -> Result<(), Failed>
    requires { K.faults sink.old < 2 ^ 64 - 1 }
    ensures { Writes (K.held sink.old) (K.held sink.new) (K.faults sink.old) (K.faults sink.new) result (place_text at) }
{
    let mut lines = Buffer::new();
    let mut cols = Buffer::new();
    let line_number = lines.format(at.line);
    let col_number = cols.format(at.col);
    write_all(sink, &[line_number, ":", col_number])
}

fn name_or_dash(name: Option<&Name>) -> &str
    ensures { result.now ≡ name_or_dash (option_copied name.entry) }
{
    match name {
        Some(name) => name.as_str(),
        None => "-",
    }
}

// The words of a verdict, or `pending`.
fn write_outcome<K: Sink>(verdict: Option<&Verdict>, at: Place, sink: &mut K) -> Result<(), Failed>
    requires { K.faults sink.old < 2 ^ 64 - 1 }
    ensures { Writes (K.held sink.old) (K.held sink.new) (K.faults sink.old) (K.faults sink.new) result
        (verdict_or_pending (option_copied verdict.entry) at) }
{
    match verdict {
        Some(verdict) => write_verdict(verdict, at, sink),
        None => write_all(sink, &["pending"]),
    }
}

// The words of a verdict, with the place of the token that it names.
fn write_verdict<K: Sink>(verdict: &Verdict, at: Place, sink: &mut K) -> Result<(), Failed>
    requires { K.faults sink.old < 2 ^ 64 - 1 }
    ensures { Writes (K.held sink.old) (K.held sink.new) (K.faults sink.old) (K.faults sink.new) result (verdict_text verdict.now at) }
{
    match verdict {
        Verdict::Accepted => write_all(sink, &["ok"]),
        Verdict::Proved => write_all(sink, &["proved"]),
        Verdict::Unfinished => write_all(sink, &["open"]),
        Verdict::Syntax { .. } => write_at("syntax at ", at, sink),
        Verdict::Declared { .. } => write_at("declared at ", at, sink),
        Verdict::NoModule { .. } => write_at("no-module at ", at, sink),
        Verdict::Cycle { .. } => write_at("cycle at ", at, sink),
        Verdict::Clash { name } => write_all(sink, &["clash ", name.as_str()]),
        Verdict::Unknown { .. } => write_at("unknown at ", at, sink),
        Verdict::Broken { .. } => write_at("broken at ", at, sink),
        Verdict::Kind { .. } => write_at("kind at ", at, sink),
        Verdict::TooBig => write_all(sink, &["too-big"]),
        Verdict::Mistyped { .. } => write_at("type at ", at, sink),
        Verdict::Unproved { .. } => write_at("unproved at ", at, sink),
        Verdict::Differs { step } => write_step(*step, " differs", sink),
        Verdict::NoRewrite { step, occurrences } => {
            write_step_and(*step, " no-rewrite ", *occurrences, sink)
        }
        Verdict::TooWide { step, placements } => {
            write_step_and(*step, " too-wide ", *placements, sink)
        }
        Verdict::SimpDiffers { step } => write_step(*step, " simp-differs", sink),
        Verdict::SimpLimit { step } => write_step(*step, " simp-limit", sink),
    }
}

// Some words and a place.
fn write_at<K: Sink>(words: &str, at: Place, sink: &mut K) -> Result<(), Failed>
    requires { K.faults sink.old < 2 ^ 64 - 1 }
    ensures { Writes (K.held sink.old) (K.held sink.new) (K.faults sink.old) (K.faults sink.new) result (words.now ++ place_text at) }
{
    write_text(sink, words.as_bytes())?;
    write_place(at, sink)
}

// `step K` and some words
fn write_step<K: Sink>(step: u32, words: &str, sink: &mut K) -> Result<(), Failed>
    requires { K.faults sink.old < 2 ^ 64 - 1 }
    ensures { Writes (K.held sink.old) (K.held sink.new) (K.faults sink.old) (K.faults sink.new) result
        (codes "step " ++ decimal step ++ words.now) }
{
    let mut steps = Buffer::new();
    write_all(sink, &["step ", steps.format(step), words])
}

// `step K`, some words and a number
fn write_step_and<K: Sink>(step: u32, words: &str, number: u64, sink: &mut K) -> Result<(), Failed>
    requires { K.faults sink.old < 2 ^ 64 - 1 }
    ensures { Writes (K.held sink.old) (K.held sink.new) (K.faults sink.old) (K.faults sink.new) result
        (codes "step " ++ decimal step ++ words.now ++ decimal number) }
{
    let mut steps = Buffer::new();
    let mut numbers = Buffer::new();
    write_all(
        sink,
        &["step ", steps.format(step), words, numbers.format(number)],
    )
}
