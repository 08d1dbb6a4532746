// The terms of statements, typed and made.
ghost use Rattle.std.specs.Prelude.{◌≡◌, ◌≤◌, ◌↔◌, ◌++◌, ℕ, List, [], ◌∷◌, All, IfOk, IsTrue, IsUtf8, OnOk, Err};
ghost use Rattle.chyp_syntax.specs.Sentence.{IsSentence};
ghost use Rattle.chyp_syntax.specs.Statement.{statement_of};
ghost use Rattle.chyp_syntax.specs.Term.{tree_of};
ghost use Rattle.chyp_term.specs.Limits.{IsWithinLimits, most_ports};
ghost use Rattle.chyp_term.specs.Morphism.{generator as a_generator};
ghost use Rattle.chyp_env.specs.Expansion.{plain_wires};
ghost use Rattle.chyp_env.specs.Typing.{AllHold, FailsFirst};
ghost use Rattle.chyp_names.specs.Agreement.{Agrees, Disagrees, StepsAgree, StepsDisagree};
ghost use Rattle.chyp_names.specs.Elaboration.{expansion_at, generator_name, terms_in, tests_at};
ghost use Rattle.chyp_names.specs.Goals.{goal_terms};
ghost use Rattle.chyp_names.specs.Limits.{AreWithinLimits};
ghost use Rattle.chyp_names.specs.Typing.{AreTypedAlike};

use chyp_base::{Name, NoMemory};
use chyp_env::{KnownTerm, KnownTerms, PlainWires, Scope, TypeFault, sizes_of_generator};
use chyp_syntax::{Ast, StepAst, TermAst};
use chyp_term::{Shape, Term};
use std::alloc::Global;

// The name of a generator in terms: its identifier, in a module behind the module's name.
fn generator_name(alloc: Global, module: &Name, identifier: &[u8]) -> Result<Name, NoMemory>
    requires { IsUtf8 identifier.now }
    ensures { IfOk result (λ name. name ≡ generator_name «module».now identifier.now) }
{
    let Ok(identifier) = str::from_utf8(identifier) else {
        unreachable!()
    };
    let module = module.as_str();
    if module.is_empty() {
        return Name::new(alloc, identifier);
    }
    let name = format!(in alloc; "{module}/{identifier}")?;
    Name::new(alloc, &name)
}

// The generator of this name, between so many plain wires.
fn generator(
    alloc: Global,
    plain: &PlainWires,
    name: Name,
    dom: u64,
    cod: u64,
) -> Result<KnownTerm, NoMemory>
    requires dom { dom ≤ most_ports }
    requires cod { cod ≤ most_ports }
    ensures { IfOk result (λ term. term ≡ a_generator name (plain_wires dom) (plain_wires cod)) }
{
    let dom = plain.wires(alloc, dom as usize)?;
    let cod = plain.wires(alloc, cod as usize)?;
    let shape = Shape {
        dom: dom.share()?,
        cod: cod.share()?,
    };
    let sizes = sizes_of_generator(&shape);
    KnownTerm::new(Term::Gen { name, dom, cod }, shape, sizes)
}

// Whether two types are the same.
fn is_same(left: &Shape, right: &Shape) -> bool
    ensures { IsTrue result ↔ (left.now.dom ≡ right.now.dom) × (left.now.cod ≡ right.now.cod) }
{
    left.dom == right.dom && left.cod == right.cod
}

// The term of a tree behind this `=`, where it has the type of the first term.
fn other(
    alloc: Global,
    plain: &PlainWires,
    first: &KnownTerm,
    equals: u32,
    tree: &TermAst,
    scope: &Scope<'_>,
) -> Result<KnownTerm, TypeFault>
    requires { IsWithinLimits (expansion_at scope.now (tree_of tree.now)) }
    ensures term { IfOk result (λ term. term ≡ expansion_at scope.now (tree_of tree.now)) }
    ensures ok { OnOk result (Agrees scope.now first.now equals (tree_of tree.now)) }
    ensures fails { (token : ℕ) → result ≡ Err (TypeFault.Fails token) →
        Disagrees scope.now first.now equals (tree_of tree.now) token }
{
    let term = KnownTerm::of_tree(alloc, plain, tree, scope)?;
    if is_same(term.shape(), first.shape()) {
        Ok(term)
    } else {
        Err(TypeFault::Fails { token: equals })
    }
}

// Terms, and one more behind them.
fn pushed(mut terms: Vec<KnownTerm>, term: KnownTerm) -> Result<Vec<KnownTerm>, NoMemory>
    ensures { IfOk result (λ all. all.items ≡ terms.items ++ term ∷ []) }
{
    terms.push(term)?;
    Ok(terms)
}

// Terms, and behind them the goal of a step, if it has one, where it has the type of the first term.
fn with_goal(
    alloc: Global,
    plain: &PlainWires,
    first: &KnownTerm,
    terms: Vec<KnownTerm>,
    step: &StepAst,
    scope: &Scope<'_>,
) -> Result<Vec<KnownTerm>, TypeFault>
    requires { All IsWithinLimits (goal_terms scope.now (step.now ∷ [])) }
    ensures terms { IfOk result (λ all. all.items ≡ terms.items ++ goal_terms scope.now (step.now ∷ [])) }
    ensures ok { OnOk result (StepsAgree scope.now first.now (step.now ∷ [])) }
    ensures fails { (token : ℕ) → result ≡ Err (TypeFault.Fails token) →
        StepsDisagree scope.now first.now (step.now ∷ []) token }
{
    match &step.goal {
        Some(goal) => {
            let term = other(alloc, plain, first, step.equals, goal, scope)?;
            Ok(pushed(terms, term)?)
        }
        None => Ok(terms),
    }
}

// A first term, and behind it the goals of steps, where they have its type.
fn with_goals(
    alloc: Global,
    plain: &PlainWires,
    first: &KnownTerm,
    steps: &[StepAst],
    scope: &Scope<'_>,
) -> Result<KnownTerms, TypeFault>
    requires { All IsWithinLimits (goal_terms scope.now steps.now) }
    ensures terms { IfOk result (λ terms. terms ≡ first.now ∷ goal_terms scope.now steps.now) }
    ensures ok { OnOk result (StepsAgree scope.now first.now steps.now) }
    ensures fails { (token : ℕ) → result ≡ Err (TypeFault.Fails token) →
        StepsDisagree scope.now first.now steps.now token }
{
    let mut terms = pushed(Vec::new(alloc), first.share()?)?;
    for step in steps {
        terms = with_goal(alloc, plain, first, terms, step, scope)?;
    }
    Ok(KnownTerms::from_vec(terms))
}

// One term.
fn one(alloc: Global, term: KnownTerm) -> Result<KnownTerms, NoMemory>
    ensures { IfOk result (λ terms. terms ≡ term ∷ []) }
{
    Ok(KnownTerms::from_vec(pushed(Vec::new(alloc), term)?))
}

// Two terms.
fn two(alloc: Global, left: KnownTerm, right: KnownTerm) -> Result<KnownTerms, NoMemory>
    ensures { IfOk result (λ terms. terms ≡ left ∷ right ∷ []) }
{
    let mut terms = Vec::with_capacity(alloc, 2)?;
    terms.push(left)?;
    terms.push(right)?;
    Ok(KnownTerms::from_vec(terms))
}

/// The terms of a statement within the limits, in the order of the text, which all have one type.
///
/// # Errors
///
/// `Fails` exactly where a test of the statement fails, with the token of the first such test.
/// `NoMemory` where the terms can't be kept.
pub(crate) fn terms(
    alloc: Global,
    plain: &PlainWires,
    module: &Name,
    ast: &Ast,
    scope: &Scope<'_>,
) -> Result<KnownTerms, TypeFault>
    requires sentence { IsSentence scope.now.words (statement_of ast.now) }
    requires small { AreWithinLimits (statement_of ast.now) (terms_in [] scope.now (statement_of ast.now)) }
    ensures terms { IfOk result (λ terms. terms ≡ terms_in «module».now scope.now (statement_of ast.now)) }
    ensures hold { OnOk result (AllHold (tests_at scope.now (statement_of ast.now))) }
    ensures alike { OnOk result ((home : List ℕ) → AreTypedAlike (terms_in home scope.now (statement_of ast.now))) }
    ensures fails { (token : ℕ) → result ≡ Err (TypeFault.Fails token) →
        FailsFirst (tests_at scope.now (statement_of ast.now)) token }
{
    match ast {
        Ast::GenDecl { name, dom, cod } => {
            let chunk = scope.chunk();
            chunk.spelled();
            let identifier = chunk.bytes_at(*name);
            let name = generator_name(alloc, module, identifier)?;
            Ok(one(alloc, generator(alloc, plain, name, *dom, *cod)?)?)
        }
        Ast::LetDecl { term, .. } => {
            let term = KnownTerm::of_tree(alloc, plain, term, scope)?;
            Ok(one(alloc, term)?)
        }
        Ast::RuleDecl {
            left,
            equals,
            right,
            ..
        } => {
            let first = KnownTerm::of_tree(alloc, plain, left, scope)?;
            let last = other(alloc, plain, &first, *equals, right, scope)?;
            Ok(two(alloc, first, last)?)
        }
        Ast::RewriteDecl { first, steps, .. } => {
            let first = KnownTerm::of_tree(alloc, plain, first, scope)?;
            with_goals(alloc, plain, &first, steps.as_slice(), scope)
        }
        Ast::ImportDecl { .. } | Ast::ShowDecl { .. } => Ok(KnownTerms::from_vec(Vec::new(alloc))),
    }
}
