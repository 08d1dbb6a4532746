// The report of a text and its verdicts.
ghost use Rattle.std.specs.Prelude.{◌≡◌, ◌≤◌, ◌<◌, ◌+◌, ◌++◌, ◌^◌, ℕ, List, length, count_by, option_map, option_copied, IfOk, OnOk, Some};
ghost use Rattle.std.specs.Str.{IsUtf8};
ghost use Rattle.chyp_base.specs.Verdict.{is_good};
ghost use Rattle.chyp_lex.specs.Names.{NamesAreText};
ghost use Rattle.chyp_lex.specs.Tokens.{AreSpans};
ghost use Rattle.chyp_syntax.specs.Chunk.{AreChunks};
ghost use Rattle.chyp_syntax.specs.Heading.{chunk_tokens, shown_name, token_start};
ghost use Rattle.chyp_session.specs.Line.{report_line};
ghost use Rattle.chyp_session.specs.Place.{place_of};
ghost use Rattle.chyp_session.specs.Reply.{reply_text};
ghost use Rattle.chyp_app.specs.Report.{line_of, lines_of, report_of};

use crate::page::Page;
use chyp_base::{Failed, Name, NoMemory, Verdict};
use chyp_lex::Token;
use chyp_load::Statements;
use chyp_session::{Line, Place, Reply, START, moved_on, write_line, write_reply};
use chyp_syntax::{Chunk, chunk_tokens, kind_text, shown_name, token_start};
use std::alloc::Global;

// The name that a statement shows.
fn name_of(alloc: Global, text: &[u8], statement: &[Token]) -> Result<Option<Name>, NoMemory>
    requires order { AreSpans (length text.now) statement.now }
    requires names { NamesAreText text.now statement.now }
    ensures { IfOk result (λ name. name ≡ shown_name text.now statement.now) }
{
    let Some(bytes) = shown_name(text, statement) else {
        return Ok(None);
    };
    match std::str::from_utf8(bytes) {
        Ok(name) => Ok(Some(Name::new(alloc, name)?)),
        Err(_) => unreachable!(),
    }
}

// Writes a line.
fn push_shown(
    page: &mut Page,
    start: Place,
    kind: &str,
    name: Option<&Name>,
    verdict: Option<&Verdict>,
    at: Place,
) -> Result<(), NoMemory>
    requires page { page.old.faults ≡ 0 }
    ensures line { OnOk result (page.new.bytes ≡ page.old.bytes
        ++ report_line start kind.now (option_copied name.entry) (option_copied verdict.entry) at) }
    ensures page { OnOk result (page.new.faults ≡ 0) }
{
    let line = Line {
        start,
        kind,
        name,
        verdict,
        at,
    };
    match write_line(&line, page) {
        Ok(()) => Ok(()),
        Err(Failed) => Err(NoMemory),
    }
}

// Writes the line of a statement that begins at `start`.
fn push_line(
    alloc: Global,
    page: &mut Page,
    text: &[u8],
    statement: &[Token],
    start: Place,
    verdict: &Verdict,
) -> Result<(), NoMemory>
    requires page { page.old.faults ≡ 0 }
    requires order { AreSpans (length text.now) statement.now }
    requires names { NamesAreText text.now statement.now }
    requires start { start ≡ place_of text.now (token_start statement.now 0) }
    ensures line { OnOk result (page.new.bytes ≡ page.old.bytes ++ line_of text.now statement.now verdict.now) }
    ensures page { OnOk result (page.new.faults ≡ 0) }
{
    let name = name_of(alloc, text, statement)?;
    let first = token_start(statement, 0);
    let named = token_start(statement, verdict.token().unwrap_or(0));
    let at = moved_on(text, &[], start, first, named);
    push_shown(
        page,
        start,
        kind_text(statement),
        name.as_ref(),
        Some(verdict),
        at,
    )
}

/// How many of the verdicts are good.
pub fn good_count(verdicts: &[Verdict]) -> usize
    ensures { result ≡ count_by is_good verdicts.now }
{
    verdicts.iter().filter(|verdict| verdict.is_good()).count()
}

// Writes the total.
fn push_total(page: &mut Page, verdicts: &[Verdict]) -> Result<(), NoMemory>
    requires page { page.old.faults ≡ 0 }
    ensures { OnOk result (page.new.bytes ≡ page.old.bytes
        ++ reply_text (Reply.Total (length verdicts.now) (count_by is_good verdicts.now))) }
{
    let total = verdicts.len() as u64;
    let good = good_count(verdicts) as u64;
    match write_reply(&Reply::Total { total, good }, page) {
        Ok(()) => Ok(()),
        Err(Failed) => Err(NoMemory),
    }
}

// Writes the lines of all statements.
fn push_lines(
    alloc: Global,
    page: &mut Page,
    text: &[u8],
    tokens: &[Token],
    chunks: &[Chunk],
    verdicts: &[Verdict],
) -> Result<(), NoMemory>
    requires page { page.old.faults ≡ 0 }
    requires spans { AreSpans (length text.now) tokens.now }
    requires names { NamesAreText text.now tokens.now }
    requires chunks { AreChunks tokens.now chunks.now }
    requires count { length verdicts.now ≡ length chunks.now }
    ensures lines { OnOk result (page.new.bytes ≡ page.old.bytes ++ lines_of text.now tokens.now chunks.now verdicts.now) }
    ensures page { OnOk result (page.new.faults ≡ 0) }
{
    let mut place = START;
    let mut at = 0;
    for (index, chunk) in chunks.iter().enumerate() {
        let statement = chunk_tokens(tokens, *chunk);
        let start = token_start(statement, 0);
        place = moved_on(text, &[], place, at, start);
        at = start;
        push_line(alloc, page, text, statement, place, &verdicts[index])?;
    }
    Ok(())
}

/// The report: a line for each statement, and the total.
///
/// # Errors
///
/// `NoMemory` where the report can't be kept.
pub fn report(
    alloc: Global,
    statements: &Statements<'_>,
    verdicts: &[Verdict],
) -> Result<Vec<u8>, NoMemory>
    requires { length verdicts.now ≡ length statements.now.chunks }
    ensures { IfOk result (λ report.
        report.items ≡ report_of statements.now.text statements.now.tokens statements.now.chunks verdicts.now) }
{
    statements.cut();
    let text = statements.text();
    let tokens = statements.tokens();
    let chunks = statements.chunks();
    let mut page = Page::new(alloc);
    push_lines(alloc, &mut page, text, tokens, chunks, verdicts)?;
    push_total(&mut page, verdicts)?;
    Ok(page.into_bytes())
}
