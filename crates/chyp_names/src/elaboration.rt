// What a statement means, or why it is refused.
ghost use Rattle.std.specs.Prelude.{◌≡◌, ℕ, List, [], false, IfOk, OnOk, Err, None, is_none};
ghost use Rattle.std.specs.List.{list_any};
ghost use Rattle.chyp_base.specs.declared.verdict.Verdict.{Verdict};
ghost use Rattle.chyp_syntax.specs.Sentence.{IsSentence};
ghost use Rattle.chyp_syntax.specs.Statement.{statement_of};
ghost use Rattle.chyp_env.specs.ImportState.{site_of};
ghost use Rattle.chyp_env.specs.Scope.{is_declared};
ghost use Rattle.chyp_names.specs.Elaboration.{IsBody, IsRefused, Passes, has_hole, import_fault, steps_at, terms_in, tests_at};
ghost use Rattle.chyp_names.specs.Limits.{AreWithinLimits};
ghost use Rattle.chyp_names.specs.Naming.{first_fault, first_unproved};
ghost use Rattle.chyp_names.specs.Refusal.{IsRefusedByTerms};
ghost use Rattle.chyp_term.specs.Step.{reasons_of};
ghost use Rattle.chyp_env.specs.Typing.{AllHold, FailsFirst};
ghost use Rattle.chyp_names.specs.Typing.{AreTypedAlike};

use crate::imports::import_fault;
use crate::limits::is_small;
use crate::naming::{first_fault, first_unproved};
use crate::steps::steps;
use crate::terms::terms;
use crate::{Body, ElabError};
use chyp_base::{Name, Verdict};
use chyp_env::{ImportState, KnownTerms, Scope, TypeFault};
use chyp_syntax::{Ast, StepAst};
use std::alloc::Global;

// Refuses a statement by its names: the one that it would bind, those that it would import, or one that it
// uses.
fn check_names(ast: &Ast, scope: &Scope<'_>, import: &ImportState<'_>) -> Result<(), ElabError>
    requires sentence { IsSentence scope.now.words (statement_of ast.now) }
    ensures fresh { OnOk result (is_declared scope.now ≡ false) }
    ensures fits { OnOk result ((home : List ℕ) → import_fault (site_of scope.now home import.now) (statement_of ast.now) ≡ None) }
    ensures known { OnOk result (first_fault scope.now (statement_of ast.now) ≡ None) }
    ensures refused { (verdict : Verdict) (home : List ℕ) → result ≡ Err (ElabError.Refused verdict) →
        IsRefused (site_of scope.now home import.now) (statement_of ast.now) verdict }
{
    if scope.is_declared() {
        return Err(ElabError::Refused(Verdict::Declared { token: 1 }));
    }
    if let Some(verdict) = import_fault(ast, scope, import)? {
        return Err(ElabError::Refused(verdict));
    }
    match first_fault(ast, scope) {
        Some(verdict) => Err(ElabError::Refused(verdict)),
        None => Ok(()),
    }
}

// Whether one of the steps is a hole.
fn any_hole(steps: &[StepAst]) -> bool
    ensures { result ≡ list_any (λ step. is_none step.goal) steps.now }
{
    steps.iter().any(|step| step.goal.is_none())
}

// Whether a step of a rewrite is a hole.
fn has_hole(ast: &Ast) -> bool
    ensures { result ≡ has_hole (statement_of ast.now) }
{
    match ast {
        Ast::RewriteDecl { steps, .. } => any_hole(steps.as_slice()),
        _ => false,
    }
}

// The terms of a statement within the limits, with the plain wires that its environment shares.
fn typed_terms(
    alloc: Global,
    module: &Name,
    ast: &Ast,
    scope: &Scope<'_>,
) -> Result<KnownTerms, TypeFault>
    requires sentence { IsSentence scope.now.words (statement_of ast.now) }
    requires small { AreWithinLimits (statement_of ast.now) (terms_in [] scope.now (statement_of ast.now)) }
    ensures terms { IfOk result (λ terms. terms ≡ terms_in «module».now scope.now (statement_of ast.now)) }
    ensures hold { OnOk result (AllHold (tests_at scope.now (statement_of ast.now))) }
    ensures alike { OnOk result ((home : List ℕ) → AreTypedAlike (terms_in home scope.now (statement_of ast.now))) }
    ensures fails { (token : ℕ) → result ≡ Err (TypeFault.Fails token) →
        FailsFirst (tests_at scope.now (statement_of ast.now)) token }
{
    let plain = scope.env().plain_wires()?;
    let result = terms(alloc, plain.as_ref(), module, ast, scope);
    // As a call, it takes one step of the proof.
    drop(plain);
    result
}

// What a statement means that names don't refuse and that is within the limits.
fn made(alloc: Global, module: &Name, ast: &Ast, scope: &Scope<'_>) -> Result<Body, ElabError>
    requires sentence { IsSentence scope.now.words (statement_of ast.now) }
    requires known { first_fault scope.now (statement_of ast.now) ≡ None }
    requires small { AreWithinLimits (statement_of ast.now) (terms_in [] scope.now (statement_of ast.now)) }
    ensures terms { IfOk result (λ body. body.terms ≡ terms_in «module».now scope.now (statement_of ast.now)) }
    ensures steps { IfOk result (λ body. reasons_of body.steps ≡ steps_at scope.now (statement_of ast.now)) }
    ensures hole { IfOk result (λ body. body.hole ≡ has_hole (statement_of ast.now)) }
    ensures typed { IfOk result (λ body. AreTypedAlike body.terms) }
    ensures hold { OnOk result (AllHold (tests_at scope.now (statement_of ast.now))) }
    ensures proved { OnOk result (first_unproved scope.now (statement_of ast.now) ≡ None) }
    ensures refused { (verdict : Verdict) → result ≡ Err (ElabError.Refused verdict) →
        IsRefusedByTerms scope.now (statement_of ast.now) verdict }
{
    let terms = match typed_terms(alloc, module, ast, scope) {
        Ok(terms) => terms,
        Err(TypeFault::Fails { token }) => {
            return Err(ElabError::Refused(Verdict::Mistyped { token }));
        }
        Err(TypeFault::NoMemory) => return Err(ElabError::NoMemory),
    };
    if let Some(token) = first_unproved(ast, scope) {
        return Err(ElabError::Refused(Verdict::Unproved { token }));
    }
    Ok(Body {
        terms,
        steps: steps(alloc, ast, scope)?,
        hole: has_hole(ast),
    })
}

/// What a statement means where names stand for what they do in its scope, in the module of this name,
/// which is empty for the main text. `ast` is the tree of the statement, and `import` the state of its
/// import.
///
/// The terms of the body are typed, and all have one type. Their types and their measures are found
/// here, and go with them from then on. A statement that is too big is refused before any of its terms
/// is made.
///
/// # Errors
///
/// `Refused` exactly where something refuses the statement, with the verdict of the first of these
/// points that holds: its name is bound already; it is an import of a module that is absent, that reaches
/// itself, or that would bind a name to a second statement; a name that it uses is at fault; it passes a
/// limit; its terms have no types that agree; it rests on a rewrite that is not proved. `NoMemory` where
/// there is no memory for the body, or for a name that an import would bind.
pub fn elaborate(
    alloc: Global,
    module: &Name,
    ast: &Ast,
    scope: &Scope<'_>,
    import: &ImportState<'_>,
) -> Result<Body, ElabError>
    requires sentence { IsSentence scope.now.words (statement_of ast.now) }
    ensures passes { OnOk result (Passes (site_of scope.now «module».now import.now) (statement_of ast.now)) }
    ensures body { IfOk result (IsBody (site_of scope.now «module».now import.now) (statement_of ast.now)) }
    ensures typed { IfOk result (λ body. AreTypedAlike body.terms) }
    ensures refused { (verdict : Verdict) → result ≡ Err (ElabError.Refused verdict) →
        IsRefused (site_of scope.now «module».now import.now) (statement_of ast.now) verdict }
{
    check_names(ast, scope, import)?;
    if !is_small(ast, scope) {
        return Err(ElabError::Refused(Verdict::TooBig));
    }
    made(alloc, module, ast, scope)
}
