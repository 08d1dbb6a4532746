// How a statement uses names, and the first use that is at fault.
ghost use Rattle.std.specs.Prelude.{◌≡◌, ◌++◌, [], map, flat_map, option_copied, option_map};
ghost use Rattle.chyp_syntax.specs.Statement.{statement_of};
ghost use Rattle.chyp_syntax.specs.Step.{step_of};
ghost use Rattle.chyp_syntax.specs.Term.{tree_of};
ghost use Rattle.chyp_names.specs.Faults.{first_fault_among, first_unproved_among};
ghost use Rattle.chyp_names.specs.Naming.{in_term, in_reason, in_show, names_of_reason, uses_in, uses_in_goal, uses_in_step, fault_of, unproved_use, first_fault, first_unproved};

use chyp_base::Verdict;
use chyp_env::{Meaning, Scope};
use chyp_syntax::{Ast, ReasonAst, SignedAst, StepAst, TermAst};

// What is wrong with a name in a term.
fn fault_in_term(token: u32, scope: &Scope<'_>) -> Option<Verdict>
    ensures { result ≡ fault_of scope.now (in_term token) }
{
    match scope.entry_at(token) {
        None => Some(Verdict::Unknown { token }),
        Some(entry) => match entry.meaning {
            Meaning::Generator(..) | Meaning::Abbrev(_) => None,
            Meaning::Law(_) | Meaning::Unproved => Some(Verdict::Kind { token }),
            Meaning::Broken => Some(Verdict::Broken { token }),
        },
    }
}

// What is wrong with a name behind a `by`.
fn fault_in_reason(token: u32, scope: &Scope<'_>) -> Option<Verdict>
    ensures { result ≡ fault_of scope.now (in_reason token) }
{
    match scope.entry_at(token) {
        None => Some(Verdict::Unknown { token }),
        Some(entry) => match entry.meaning {
            Meaning::Law(_) | Meaning::Unproved => None,
            Meaning::Generator(..) | Meaning::Abbrev(_) => Some(Verdict::Kind { token }),
            Meaning::Broken => Some(Verdict::Broken { token }),
        },
    }
}

// What is wrong with a name that is shown: it may be unknown.
fn fault_in_show(token: u32, scope: &Scope<'_>) -> Option<Verdict>
    ensures { result ≡ fault_of scope.now (in_show token) }
{
    match scope.entry_at(token) {
        None => Some(Verdict::Unknown { token }),
        Some(_) => None,
    }
}

// The token of a name behind a `by`, where it is a rewrite that is not proved.
fn unproved_name(token: u32, scope: &Scope<'_>) -> Option<u32>
    ensures { result ≡ unproved_use scope.now (in_reason token) }
{
    let entry = scope.entry_at(token)?;
    match entry.meaning {
        Meaning::Unproved => Some(token),
        _ => None,
    }
}

// What is wrong with the first name of a term that is at fault.
fn fault_in_tree(tree: &TermAst, scope: &Scope<'_>) -> Option<Verdict>
    ensures { result ≡ first_fault_among scope.now (uses_in (tree_of tree.now)) }
{
    let parts = match tree {
        TermAst::Named(token) => return fault_in_term(*token, scope),
        TermAst::Wire | TermAst::Empty | TermAst::Swap { .. } => return None,
        TermAst::Chain { parts, .. } => parts,
        TermAst::Beside(parts) => parts,
    };
    for part in parts.as_slice() {
        let fault = fault_in_tree(part, scope);
        if fault.is_some() {
            return fault;
        }
    }
    None
}

// What is wrong with the first of some rules that is at fault.
fn fault_in_rules(rules: &[SignedAst], scope: &Scope<'_>) -> Option<Verdict>
    ensures { result ≡ first_fault_among scope.now (map in_reason (map (λ rule. rule.name) rules.now)) }
{
    for rule in rules {
        let fault = fault_in_reason(rule.name, scope);
        if fault.is_some() {
            return fault;
        }
    }
    None
}

// The first of some rules that is a rewrite which is not proved.
fn unproved_rule(rules: &[SignedAst], scope: &Scope<'_>) -> Option<u32>
    ensures { result ≡ first_unproved_among scope.now (map in_reason (map (λ rule. rule.name) rules.now)) }
{
    for rule in rules {
        let unproved = unproved_name(rule.name, scope);
        if unproved.is_some() {
            return unproved;
        }
    }
    None
}

// What is wrong with the first name of a goal that is at fault.
fn fault_in_goal(goal: Option<&TermAst>, scope: &Scope<'_>) -> Option<Verdict>
    ensures { result ≡ first_fault_among scope.now (uses_in_goal (option_map tree_of (option_copied goal.entry))) }
{
    match goal {
        Some(tree) => fault_in_tree(tree, scope),
        None => None,
    }
}

// What is wrong with the first name behind a `by` that is at fault.
fn fault_in_by(reason: &ReasonAst, scope: &Scope<'_>) -> Option<Verdict>
    ensures { result ≡ first_fault_among scope.now (map in_reason (names_of_reason reason.now)) }
{
    match reason {
        ReasonAst::Plain => None,
        ReasonAst::Rule(rule) => fault_in_reason(rule.name, scope),
        ReasonAst::Simp(rules) => fault_in_rules(rules.as_slice(), scope),
    }
}

// The first name behind a `by` that is a rewrite which is not proved.
fn unproved_in_by(reason: &ReasonAst, scope: &Scope<'_>) -> Option<u32>
    ensures { result ≡ first_unproved_among scope.now (map in_reason (names_of_reason reason.now)) }
{
    match reason {
        ReasonAst::Plain => None,
        ReasonAst::Rule(rule) => unproved_name(rule.name, scope),
        ReasonAst::Simp(rules) => unproved_rule(rules.as_slice(), scope),
    }
}

// What is wrong with the first name of a step that is at fault.
fn fault_in_step(step: &StepAst, scope: &Scope<'_>) -> Option<Verdict>
    ensures { result ≡ first_fault_among scope.now (uses_in_step (step_of step.now)) }
{
    let fault = fault_in_goal(step.goal.as_ref(), scope);
    if fault.is_some() {
        return fault;
    }
    fault_in_by(&step.reason, scope)
}

// What is wrong with the first name of some steps that is at fault.
fn fault_in_steps(steps: &[StepAst], scope: &Scope<'_>) -> Option<Verdict>
    ensures { result ≡ first_fault_among scope.now (flat_map uses_in_step (map step_of steps.now)) }
{
    for step in steps {
        let fault = fault_in_step(step, scope);
        if fault.is_some() {
            return fault;
        }
    }
    None
}

// The first name behind a `by` of some steps that is a rewrite which is not proved.
fn unproved_in_steps(steps: &[StepAst], scope: &Scope<'_>) -> Option<u32>
    ensures { result ≡ first_unproved_among scope.now (flat_map uses_in_step (map step_of steps.now)) }
{
    for step in steps {
        let unproved = unproved_in_by(&step.reason, scope);
        if unproved.is_some() {
            return unproved;
        }
    }
    None
}

// What is wrong with the first name of two terms that is at fault.
fn fault_in_two(left: &TermAst, right: &TermAst, scope: &Scope<'_>) -> Option<Verdict>
    ensures { result ≡ first_fault_among scope.now (uses_in (tree_of left.now) ++ uses_in (tree_of right.now)) }
{
    let fault = fault_in_tree(left, scope);
    if fault.is_some() {
        return fault;
    }
    fault_in_tree(right, scope)
}

// What is wrong with the first name of a rewrite that is at fault.
fn fault_in_rewrite(first: &TermAst, steps: &[StepAst], scope: &Scope<'_>) -> Option<Verdict>
    ensures { result ≡ first_fault_among scope.now
        (uses_in (tree_of first.now) ++ flat_map uses_in_step (map step_of steps.now)) }
{
    let fault = fault_in_tree(first, scope);
    if fault.is_some() {
        return fault;
    }
    fault_in_steps(steps, scope)
}

/// What is wrong with the first name of a statement that is at fault, None where all are in order.
pub(crate) fn first_fault(ast: &Ast, scope: &Scope<'_>) -> Option<Verdict>
    ensures { result ≡ first_fault scope.now (statement_of ast.now) }
{
    match ast {
        Ast::GenDecl { .. } | Ast::ImportDecl { .. } => None,
        Ast::ShowDecl { name } => fault_in_show(*name, scope),
        Ast::LetDecl { term, .. } => fault_in_tree(term, scope),
        Ast::RuleDecl { left, right, .. } => fault_in_two(left, right, scope),
        Ast::RewriteDecl { first, steps, .. } => {
            fault_in_rewrite(first, steps.as_slice(), scope)
        }
    }
}

/// The first name behind a `by` whose rewrite is not proved.
pub(crate) fn first_unproved(ast: &Ast, scope: &Scope<'_>) -> Option<u32>
    ensures { result ≡ first_unproved scope.now (statement_of ast.now) }
{
    match ast {
        Ast::RewriteDecl { steps, .. } => unproved_in_steps(steps.as_slice(), scope),
        _ => None,
    }
}
