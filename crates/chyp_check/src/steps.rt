// The verdict on a rewrite that nothing refuses, by its steps.
ghost use Rattle.std.specs.Prelude.{◌≡◌, ◌≤◌, ◌<◌, ◌+◌, ◌-◌, ◌^◌, IfOk, IfNone, IfSome, length};
ghost use Rattle.chyp_term.specs.Derivation.{IsEquation};
ghost use Rattle.chyp_term.specs.Step.{reason_of, reasons_of};
ghost use Rattle.chyp_judge.specs.Judged.{CanBeJudged, IsJudgement};
ghost use Rattle.chyp_names.specs.Typing.{AreTypedAlike};
ghost use Rattle.chyp_verdicts.specs.Steps.{AreGood, AreUsable, IsVerdictOnSteps, StopsWith, is_open, moves_of, refusal_at};

use chyp_base::{NoMemory, Verdict};
use chyp_judge::{Judged, judge};
use chyp_names::{Body, KnownTerm};
use chyp_term::Step;
use std::alloc::Global;

// The verdict of a rewrite whose step of this number is judged so.
fn refusal_at(step: u32, judged: Judged) -> Option<Verdict>
    ensures { result ≡ refusal_at step judged }
{
    match judged {
        Judged::Good => None,
        Judged::Differs => Some(Verdict::Differs { step }),
        Judged::NoRewrite { occurrences } => Some(Verdict::NoRewrite { step, occurrences }),
        Judged::TooWide { placements } => Some(Verdict::TooWide { step, placements }),
        Judged::SimpDiffers => Some(Verdict::SimpDiffers { step }),
        Judged::SimpLimit => Some(Verdict::SimpLimit { step }),
    }
}

// How the step from one term to another of its type is judged.
fn judged(alloc: Global, from: &KnownTerm, to: &KnownTerm, step: &Step) -> Result<Judged, NoMemory>
    requires equation { IsEquation from.now to.now }
    requires step { CanBeJudged (reason_of step.now) }
    ensures { IfOk result (λ judged. IsJudgement (reason_of step.now) from.now to.now judged) }
{
    from.small();
    to.small();
    judge(alloc, from.term(), to.term(), step)
}

// The verdict of the first step that isn't good.
fn first_refused(
    alloc: Global,
    terms: &[KnownTerm],
    steps: &[Step],
) -> Result<Option<Verdict>, NoMemory>
    requires alike { AreTypedAlike terms.now }
    requires few { length terms.now < 2 ^ 32 }
    requires enough { length terms.now ≤ length steps.now + 1 }
    requires usable { AreUsable (reasons_of steps.now) }
    ensures some { IfOk result (λ found. IfSome found (λ verdict. StopsWith (moves_of terms.now (reasons_of steps.now)) verdict)) }
    ensures none { IfOk result (λ found. IfNone found (AreGood (moves_of terms.now (reasons_of steps.now)) (length terms.now - 1))) }
{
    for at in 1..terms.len() {
        let judged = judged(alloc, &terms[at - 1], &terms[at], &steps[at - 1])?;
        if let Some(verdict) = refusal_at(at as u32, judged) {
            return Ok(Some(verdict));
        }
    }
    Ok(None)
}

// Whether a rewrite has no step, or a hole.
fn is_open(body: &Body) -> bool
    ensures { result ≡ is_open (reasons_of body.now.steps) body.now.hole }
{
    body.steps.as_slice().is_empty() || body.hole
}

/// The verdict on a rewrite that means this.
pub(crate) fn verdict_on_steps(alloc: Global, body: &Body) -> Result<Verdict, NoMemory>
    requires alike { AreTypedAlike body.now.terms }
    requires few { length body.now.terms < 2 ^ 32 }
    requires enough { length body.now.terms ≤ length body.now.steps + 1 }
    requires usable { AreUsable (reasons_of body.now.steps) }
    ensures { IfOk result (λ verdict. IsVerdictOnSteps body.now.terms (reasons_of body.now.steps) body.now.hole verdict) }
{
    let terms = body.terms.as_slice();
    let steps = body.steps.as_slice();
    match first_refused(alloc, terms, steps)? {
        Some(verdict) => Ok(verdict),
        None if is_open(body) => Ok(Verdict::Unfinished),
        None => Ok(Verdict::Proved),
    }
}
