// Whether the terms of a statement are small enough.
ghost use Rattle.std.specs.Prelude.{◌≡◌, ◌↔◌, ◌≤◌, ℕ, List, [], ◌∷◌, IsTrue};
ghost use Rattle.chyp_syntax.specs.Statement.{statement_of};
ghost use Rattle.chyp_syntax.specs.Term.{tree_of};
ghost use Rattle.chyp_names.specs.Elaboration.{expansion_at, terms_in};
ghost use Rattle.chyp_names.specs.Goals.{IsSum, goal_terms};
ghost use Rattle.chyp_term.specs.Measure.{size_of};
ghost use Rattle.chyp_term.specs.Morphism.{Morphism};
ghost use Rattle.chyp_env.specs.Sizes.{AreSizes};
ghost use Rattle.chyp_term.specs.Limits.{IsWithinLimits};
ghost use Rattle.chyp_names.specs.Limits.{AreWithinLimits, most_together};

use chyp_env::{Scope, Sizes, sizes_of};
use chyp_syntax::{Ast, StepAst, TermAst};
use chyp_term::{MOST_DEPTH, MOST_GENERATORS, MOST_PORTS, MOST_SIZE};

// The greatest size of all terms of a statement together.
const MOST_TOGETHER: u64 = 4_000_000;

// Whether a term with these measures is small enough.
fn is_within_limits(sizes: Sizes) -> bool
    ensures within { (t : Morphism) → AreSizes sizes t → IsTrue result ↔ IsWithinLimits t }
    ensures size { (t : Morphism) → AreSizes sizes t → IsTrue result → sizes.size ≡ size_of t }
{
    sizes.generators <= MOST_GENERATORS && sizes.size <= MOST_SIZE && sizes.depth <= MOST_DEPTH
}

// The size of a term with that of those before it, None where it doesn't fit behind them.
fn sum_with(before: u64, tree: &TermAst, scope: &Scope<'_>) -> Option<u64>
    requires { before ≤ most_together }
    ensures { IsSum before (expansion_at scope.now (tree_of tree.now) ∷ []) result }
{
    let sizes = sizes_of(tree, scope);
    if !is_within_limits(sizes) {
        return None;
    }
    let sum = before + sizes.size;
    if sum > MOST_TOGETHER {
        return None;
    }
    Some(sum)
}

// The size of the goal of a step, if it has one, with that of the terms before it.
fn sum_with_goal(before: u64, step: &StepAst, scope: &Scope<'_>) -> Option<u64>
    requires { before ≤ most_together }
    ensures { IsSum before (goal_terms scope.now (step.now ∷ [])) result }
{
    match &step.goal {
        Some(goal) => sum_with(before, goal, scope),
        None => Some(before),
    }
}

// The size of the goals of some steps with that of the terms before them, None where they don't fit.
fn sum_with_goals(before: u64, steps: &[StepAst], scope: &Scope<'_>) -> Option<u64>
    requires { before ≤ most_together }
    ensures { IsSum before (goal_terms scope.now steps.now) result }
{
    let mut sum = before;
    for step in steps {
        sum = sum_with_goal(sum, step, scope)?;
    }
    Some(sum)
}

// The size of two terms together, None where they don't fit.
fn sum_of_two(left: &TermAst, right: &TermAst, scope: &Scope<'_>) -> Option<u64>
    ensures { IsSum 0
        (expansion_at scope.now (tree_of left.now) ∷ expansion_at scope.now (tree_of right.now)
        ∷ []) result }
{
    let sum = sum_with(0, left, scope)?;
    sum_with(sum, right, scope)
}

// The size of the terms of a rewrite together, None where they don't fit.
fn sum_of_rewrite(first: &TermAst, steps: &[StepAst], scope: &Scope<'_>) -> Option<u64>
    ensures { IsSum 0
        (expansion_at scope.now (tree_of first.now) ∷ goal_terms scope.now steps.now) result }
{
    let sum = sum_with(0, first, scope)?;
    sum_with_goals(sum, steps, scope)
}

/// Whether a statement is within the limits. None of its terms is made.
pub(crate) fn is_small(ast: &Ast, scope: &Scope<'_>) -> bool
    ensures { (home : List ℕ) → IsTrue result
        ↔ AreWithinLimits (statement_of ast.now) (terms_in home scope.now (statement_of ast.now)) }
{
    match ast {
        Ast::GenDecl { dom, cod, .. } => *dom <= MOST_PORTS && *cod <= MOST_PORTS,
        Ast::LetDecl { term, .. } => sum_with(0, term, scope).is_some(),
        Ast::RuleDecl { left, right, .. } => sum_of_two(left, right, scope).is_some(),
        Ast::RewriteDecl { first, steps, .. } => {
            sum_of_rewrite(first, steps.as_slice(), scope).is_some()
        }
        Ast::ImportDecl { .. } | Ast::ShowDecl { .. } => true,
    }
}
