// Terms that are read from texts.
ghost use Rattle.std.specs.Prelude.{◌≡◌, ◌≤◌, List, IfOk, IsTrue, length};
ghost use Rattle.chyp_lex.specs.Names.{IsNameText};
ghost use Rattle.chyp_lex.specs.Tokens.{AreSpans, AreTokens};
ghost use Rattle.chyp_syntax.specs.Term.{tree_of};
ghost use Rattle.chyp_term.specs.Limits.{IsWithinLimits};
ghost use Rattle.chyp_env.specs.Closed.{FitsBehind};
ghost use Rattle.chyp_env.specs.Entry.{entry_of, sense_of};
ghost use Rattle.chyp_env.specs.Environment.{Binding};
ghost use Rattle.chyp_env.specs.Expansion.{expansion_in};
ghost use Rattle.chyp_env.specs.Scope.{term_at};
ghost use Rattle.chyp_env.specs.Sound.{IsSoundSense};

use crate::names::check_name;
use crate::words::{told, wires};
use chyp_base::{MAX_TEXT_LEN, Name};
use chyp_env::{ChunkView, Entry, Env, KnownTerm, Meaning, Origin, Scope, sizes_of};
use chyp_lex::{Token, lex};
use chyp_syntax::{Ast, TermAst};
use chyp_term::{MOST_DEPTH, MOST_GENERATORS, MOST_SIZE, Shape};
use std::alloc::Global;
use std::test::Fail;

/// A type of so many plain wires, at most 64 on each side.
fn shape(alloc: Global, from: usize, to: usize) -> Result<Shape, Fail>
    ensures dom { IfOk result (λ shape. length shape.dom ≤ 64) }
    ensures cod { IfOk result (λ shape. length shape.cod ≤ 64) }
{
    let dom = wires(alloc, from)?;
    let cod = wires(alloc, to)?;
    if dom.as_slice().len() > 64 || cod.as_slice().len() > 64 {
        return Err(Fail::new("a wide generator"));
    }
    Ok(Shape { dom, cod })
}

/// The entry of a generator by its own name.
fn entry(alloc: Global, name: &str, shape: Shape) -> Result<Entry, Fail>
    requires dom { length shape.dom ≤ 64 }
    requires cod { length shape.cod ≤ 64 }
    requires name { IsNameText name.now }
    ensures name { IfOk result (λ entry. entry.name ≡ name.now) }
    ensures sound { IfOk result (λ entry. IsSoundSense (sense_of entry.meaning)) }
    ensures fits { IfOk result (λ entry. (env : List Binding) → FitsBehind env (entry_of entry)) }
{
    let module = Name::new(alloc, "")?;
    Ok(Entry {
        name: Name::new(alloc, name)?,
        origin: Origin { module, index: 0 },
        meaning: Meaning::Generator(Name::new(alloc, name)?, shape),
    })
}

/// Binds a generator by its own name.
fn add(alloc: Global, env: &mut Env, name: &str, shape: Shape) -> Result<(), Fail>
    requires dom { length shape.dom ≤ 64 }
    requires cod { length shape.cod ≤ 64 }
{
    check_name(alloc, name)?;
    let entry = entry(alloc, name, shape)?;
    if env.lookup(name.as_bytes()).is_some() {
        return Err(Fail::new("a name that is there"));
    }
    Ok(env.insert(entry)?)
}

/// Binds each of these generators by its own name.
fn add_all(alloc: Global, env: &mut Env, generators: &[(&str, usize, usize)]) -> Result<(), Fail> {
    for generator in generators {
        let shape = shape(alloc, generator.1, generator.2)?;
        add(alloc, env, generator.0, shape)?;
    }
    Ok(())
}

/// The environment in which each of these generators is bound by its own name.
pub(crate) fn bound(alloc: Global, generators: &[(&str, usize, usize)]) -> Result<Env, Fail> {
    let mut env = Env::new(alloc);
    match add_all(alloc, &mut env, generators) {
        Ok(()) => Ok(env),
        Err(fail) => {
            // As a call, it takes one step of the proof.
            drop(env);
            Err(fail)
        }
    }
}

/// The tokens of a text.
pub(crate) fn tokens_of(alloc: Global, text: &[u8]) -> Result<Vec<Token>, Fail>
    requires { length text.now ≤ MAX_TEXT_LEN }
    ensures tokens { IfOk result (λ tokens. AreTokens text.now tokens.items) }
    ensures spans { IfOk result (λ tokens. AreSpans (length text.now) tokens.items) }
{
    Ok(lex(alloc, text, &[])?)
}

/// A statement by its tokens.
pub(crate) fn lent<'a>(text: &'a [u8], tokens: &'a [Token]) -> ChunkView<'a>
    requires short { length text.now ≤ MAX_TEXT_LEN }
    requires tokens { AreTokens text.now tokens.now }
    requires spans { AreSpans (length text.now) tokens.now }
{
    ChunkView::new(tokens, text, &[])
}

/// Whether the term of a tree is within the limits.
fn is_small(tree: &TermAst, scope: &Scope<'_>) -> bool
    ensures { IsTrue result → IsWithinLimits (expansion_in (term_at scope.now) (tree_of tree.now)) }
{
    let sizes = sizes_of(tree, scope);
    sizes.size <= MOST_SIZE && sizes.depth <= MOST_DEPTH && sizes.generators <= MOST_GENERATORS
}

/// A known term in words.
fn told_known(alloc: Global, known: KnownTerm) -> Result<String, Fail> {
    let words = told(alloc, known.term());
    drop(known);
    words
}

/// The term of a tree in words.
fn meant(alloc: Global, tree: &TermAst, scope: &Scope<'_>) -> Result<String, Fail> {
    if !is_small(tree, scope) {
        return Err(Fail::new("too big"));
    }
    let plain = scope.env().plain_wires()?;
    let known = KnownTerm::of_tree(alloc, plain.as_ref(), tree, scope);
    drop(plain);
    match known {
        Ok(known) => told_known(alloc, known),
        Err(_) => Err(Fail::new("no type")),
    }
}

/// The term of a definition in words.
fn defined(alloc: Global, ast: Ast, scope: &Scope<'_>) -> Result<String, Fail> {
    let words = match &ast {
        Ast::LetDecl { term, .. } => meant(alloc, term, scope),
        _ => Err(Fail::new("no definition")),
    };
    drop(ast);
    words
}

/// The term of this text in words, where names stand for what they do in the environment.
pub(crate) fn read(alloc: Global, env: &Env, term: &str) -> Result<String, Fail> {
    let text = format!(in alloc; "let x = {term}")?;
    let text = text.as_bytes();
    if text.len() > MAX_TEXT_LEN {
        return Err(Fail::new("a long text"));
    }
    let tokens = tokens_of(alloc, text)?;
    let chunk = lent(text, &tokens);
    match chunk.parse(alloc) {
        Ok(ast) => defined(alloc, ast, &Scope::new(&chunk, env)),
        Err(_) => Err(Fail::new("no sentence")),
    }
}
