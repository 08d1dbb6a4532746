// What the steps of a rewrite rest on.
ghost use Rattle.std.specs.Prelude.{◌≡◌, [], map, All, IfOk, None};
ghost use Rattle.chyp_syntax.specs.Statement.{statement_of};
ghost use Rattle.chyp_syntax.specs.Step.{step_of};
ghost use Rattle.chyp_term.specs.Equation.{equation_of, equations_of};
ghost use Rattle.chyp_term.specs.Step.{reason_of, reasons_of};
ghost use Rattle.chyp_names.specs.Elaboration.{equation_at, reason_at, steps_at};
ghost use Rattle.chyp_names.specs.Equations.{IsEquationAt, RestsOnEquations};
ghost use Rattle.chyp_names.specs.Naming.{first_fault, first_unproved};

use chyp_base::NoMemory;
use chyp_env::{Meaning, Scope};
use chyp_syntax::{Ast, ReasonAst, SignedAst, StepAst};
use chyp_term::{Equation, Equations, Step, StepList, copy};
use std::alloc::Global;

// The equation of a rule, with its sides exchanged behind a `-`.
fn equation(rule: SignedAst, scope: &Scope<'_>) -> Result<Equation, NoMemory>
    requires { IsEquationAt scope.now rule.name }
    ensures { IfOk result (λ equation. equation_of equation ≡ equation_at scope.now rule) }
{
    let Some(entry) = scope.entry_at(rule.name) else {
        unreachable!()
    };
    let Meaning::Law(sides) = &entry.meaning else {
        unreachable!()
    };
    let left = copy(&sides.left)?;
    let right = copy(&sides.right)?;
    if rule.minus {
        Ok(Equation {
            left: right,
            right: left,
        })
    } else {
        Ok(Equation { left, right })
    }
}

// The equations of some rules.
fn equations(alloc: Global, rules: &[SignedAst], scope: &Scope<'_>) -> Result<Equations, NoMemory>
    requires { All (λ rule. IsEquationAt scope.now rule.name) rules.now }
    ensures { IfOk result (λ equations. equations_of equations ≡ map (equation_at scope.now) rules.now) }
{
    let mut equations = Vec::with_capacity(alloc, rules.len())?;
    for rule in rules {
        equations.push(equation(*rule, scope)?)?;
    }
    Ok(Equations::from_vec(equations))
}

// What a step rests on.
fn step(alloc: Global, reason: &ReasonAst, scope: &Scope<'_>) -> Result<Step, NoMemory>
    requires { RestsOnEquations scope.now reason.now }
    ensures { IfOk result (λ step. reason_of step ≡ reason_at scope.now reason.now) }
{
    match reason {
        ReasonAst::Plain => Ok(Step::Refl),
        ReasonAst::Rule(rule) => Ok(Step::ByRule(equation(*rule, scope)?)),
        ReasonAst::Simp(rules) => { Ok(Step::Simp(equations(alloc, rules.as_slice(), scope)?)) }
    }
}

// What some steps rest on.
fn step_list(alloc: Global, steps: &[StepAst], scope: &Scope<'_>) -> Result<StepList, NoMemory>
    requires { All (λ step. RestsOnEquations scope.now step.reason) steps.now }
    ensures { IfOk result (λ list. reasons_of list
        ≡ map (λ step. reason_at scope.now step.reason) (map step_of steps.now)) }
{
    let mut list = Vec::with_capacity(alloc, steps.len())?;
    for ast in steps {
        list.push(step(alloc, &ast.reason, scope)?)?;
    }
    Ok(StepList::from_vec(list))
}

/// What the steps of a statement rest on, that of a hole last. Its names are in order, and all that are
/// behind a `by` are proved.
pub(crate) fn steps(alloc: Global, ast: &Ast, scope: &Scope<'_>) -> Result<StepList, NoMemory>
    requires known { first_fault scope.now (statement_of ast.now) ≡ None }
    requires proved { first_unproved scope.now (statement_of ast.now) ≡ None }
    ensures { IfOk result (λ list. reasons_of list ≡ steps_at scope.now (statement_of ast.now)) }
{
    match ast {
        Ast::RewriteDecl { steps, .. } => step_list(alloc, steps.as_slice(), scope),
        _ => Ok(StepList::from_vec(Vec::new(alloc))),
    }
}
