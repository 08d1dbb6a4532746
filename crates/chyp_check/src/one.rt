// The verdict of one statement.
ghost use Rattle.std.specs.Prelude.{◌≡◌, ◌≤◌, ◌<◌, ◌+◌, ◌^◌, Err, IfOk, IfSome, OnOk, OnErr, length, true};
ghost use Rattle.chyp_base.specs.declared.verdict.Verdict.{Verdict};
ghost use Rattle.chyp_syntax.specs.Sentence.{IsSentence};
ghost use Rattle.chyp_syntax.specs.Statement.{statement_of};
ghost use Rattle.chyp_names.specs.Binding.{IsOutcome};
ghost use Rattle.chyp_names.specs.Elaboration.{IsBody, IsRefused, Passes};
ghost use Rattle.chyp_names.specs.Typing.{AreTypedAlike};
ghost use Rattle.chyp_term.specs.Step.{reasons_of};
ghost use Rattle.chyp_verdicts.specs.Judged.{IsJudged, is_rewrite};
ghost use Rattle.chyp_verdicts.specs.Bodies.{IsVerdictOf};
ghost use Rattle.chyp_verdicts.specs.Steps.{AreUsable};
ghost use Rattle.chyp_check.specs.Inputs.{site_at};

use crate::Inputs;
use crate::steps::verdict_on_steps;
use chyp_base::{NoMemory, Steps, Verdict};
use chyp_names::{Body, ElabError, Scope, elaborate};
use chyp_syntax::{Ast, ParseError};
use std::alloc::Global;
use std::sync::ledger::Ledger;

/// A verdict, with what the statement means where nothing refuses it.
#[derive(Drop)]
pub struct Outcome {
    /// The verdict.
    pub verdict: Verdict,
    /// What the statement means, None where it is no sentence or something refuses it.
    pub body: Option<Body>,
}

// The verdict of a statement that nothing refuses.
fn verdict_of(alloc: Global, ast: &Ast, body: &Body) -> Result<Verdict, NoMemory>
    requires few { length body.now.terms < 2 ^ 32 }
    requires alike { AreTypedAlike body.now.terms }
    requires enough { is_rewrite (statement_of ast.now) ≡ true → length body.now.terms ≤ length body.now.steps + 1 }
    requires usable { AreUsable (reasons_of body.now.steps) }
    ensures { IfOk result (λ verdict. IsVerdictOf body.now.terms (reasons_of body.now.steps) body.now.hole (statement_of ast.now) verdict) }
{
    match ast {
        Ast::RewriteDecl { .. } => verdict_on_steps(alloc, body),
        _ => Ok(Verdict::Accepted),
    }
}

// What a sentence means where it stands.
fn elaborated(alloc: Global, inputs: &Inputs<'_>, ast: &Ast) -> Result<Body, ElabError>
    requires sentence { IsSentence inputs.now.chunk.now (statement_of ast.now) }
    ensures passes { OnOk result (Passes (site_at inputs.now) (statement_of ast.now)) }
    ensures body { IfOk result (IsBody (site_at inputs.now) (statement_of ast.now)) }
    ensures typed { IfOk result (λ body. AreTypedAlike body.terms) }
    ensures refused { (verdict : Verdict) → result ≡ Err (ElabError.Refused verdict) →
        IsRefused (site_at inputs.now) (statement_of ast.now) verdict }
{
    let scope = Scope::new(inputs.chunk, inputs.env);
    elaborate(alloc, inputs.module, ast, &scope, inputs.import)
}

// The verdict of a sentence, with its body.
fn judge_sentence(alloc: Global, inputs: &Inputs<'_>, ast: &Ast) -> Result<Outcome, NoMemory>
    requires sentence { IsSentence inputs.now.chunk.now (statement_of ast.now) }
    ensures judged { IfOk result (λ outcome. IsJudged (site_at inputs.now) outcome.verdict) }
    ensures outcome { IfOk result (λ outcome. IsOutcome (site_at inputs.now) outcome.body outcome.verdict) }
    ensures typed { IfOk result (λ outcome. IfSome outcome.body (λ body. AreTypedAlike body.terms)) }
{
    let body = match elaborated(alloc, inputs, ast) {
        Ok(body) => body,
        Err(ElabError::Refused(verdict)) => {
            let body = None;
            return Ok(Outcome { verdict, body });
        }
        Err(ElabError::NoMemory) => return Err(NoMemory),
    };
    inputs.env.sound();
    let verdict = verdict_of(alloc, ast, &body)?;
    let body = Some(body);
    Ok(Outcome { verdict, body })
}

/// The verdict of a statement, with its body.
pub(crate) fn judge_statement(alloc: Global, inputs: &Inputs<'_>) -> Result<Outcome, NoMemory>
    ensures judged { IfOk result (λ outcome. IsJudged (site_at inputs.now) outcome.verdict) }
    ensures outcome { IfOk result (λ outcome. IsOutcome (site_at inputs.now) outcome.body outcome.verdict) }
    ensures typed { IfOk result (λ outcome. IfSome outcome.body (λ body. AreTypedAlike body.terms)) }
{
    match inputs.chunk.parse(alloc) {
        Ok(ast) => judge_sentence(alloc, inputs, &ast),
        Err(ParseError::Syntax { token }) => Ok(Outcome {
            verdict: Verdict::Syntax { token },
            body: None,
        }),
        Err(ParseError::NoMemory) => Err(NoMemory),
    }
}

/// The verdict of a statement where it stands with its body, at one step: what a caller needs who binds
/// its name, and wants it elaborated once.
///
/// # Errors
///
/// `NoMemory` may come at any point; then at most one step was counted.
pub fn check_statement<G: Ledger>(
    alloc: Global,
    inputs: &Inputs<'_>,
    steps: &mut Steps<G>,
) -> Result<Outcome, NoMemory>
    ensures judged { IfOk result (λ outcome. IsJudged (site_at inputs.now) outcome.verdict) }
    ensures outcome { IfOk result (λ outcome. IsOutcome (site_at inputs.now) outcome.body outcome.verdict) }
    ensures typed { IfOk result (λ outcome. IfSome outcome.body (λ body. AreTypedAlike body.terms)) }
    ensures one { OnOk result (steps.new ≡ steps.old + 1) }
    ensures rises { steps.old ≤ steps.new }
    ensures no_more { OnErr result (steps.new ≤ steps.old + 1) }
{
    steps.tick();
    judge_statement(alloc, inputs)
}

/// The verdict of a statement where it stands, at one step.
///
/// # Errors
///
/// `NoMemory` may come at any point; then at most one step was counted.
pub fn check_one<G: Ledger>(
    alloc: Global,
    inputs: &Inputs<'_>,
    steps: &mut Steps<G>,
) -> Result<Verdict, NoMemory>
    ensures verdict { IfOk result (λ verdict. IsJudged (site_at inputs.now) verdict) }
    ensures one { OnOk result (steps.new ≡ steps.old + 1) }
    ensures rises { steps.old ≤ steps.new }
    ensures no_more { OnErr result (steps.new ≤ steps.old + 1) }
{
    let outcome = check_statement(alloc, inputs, steps)?;
    Ok(outcome.verdict)
}
