// What imports bind, and the names at which they clash.
ghost use Rattle.std.specs.Prelude.{◌≡◌, [], All, IfOk, OnOk};
ghost use Rattle.chyp_syntax.specs.Sentence.{IsSentence};
ghost use Rattle.chyp_syntax.specs.Statement.{statement_of};
ghost use Rattle.chyp_env.specs.Environment.{Binding, broken};
ghost use Rattle.chyp_env.specs.ImportState.{site_of};
ghost use Rattle.chyp_env.specs.Site.{IsImportState};
ghost use Rattle.chyp_names.specs.Binding.{Elaborates, IsRewrite};
ghost use Rattle.chyp_names.specs.Elaboration.{is_import};
ghost use Rattle.chyp_names.specs.Typing.{AreTypedAlike};

use crate::names::{check_name, check_prefix};
use crate::statements::{is_rewrite, lent, tokens_of, tree_of};
use chyp_base::{Name, Verdict};
use chyp_env::{ChunkView, Entry, Env, ImportState, Meaning, Origin, Scope, first_clash};
use chyp_names::{Body, ElabError, bind, elaborate};
use chyp_syntax::Ast;
use std::alloc::Global;
use std::test::Fail;

// A name, and the statement that bound it, by its module and its number there.
type Bound = (&'static str, &'static str, u32);

struct Case {
    here: &'static [Bound],
    imported: &'static [Bound],
    prefix: Option<&'static str>,
    wanted: &'static str,
}

const CASES: [Case; 9] = [
    Case {
        here: &[],
        imported: &[("m", "m", 0), ("a", "m", 1)],
        prefix: None,
        wanted: "m m/0, a m/1, ",
    },
    Case {
        here: &[],
        imported: &[("m", "m", 0), ("a", "m", 1)],
        prefix: Some("p"),
        wanted: "p.m m/0, p.a m/1, ",
    },
    // A module passes on what it has under a prefix.
    Case {
        here: &[("x", "", 0)],
        imported: &[("q.m", "m", 0), ("m", "m", 0)],
        prefix: Some("p"),
        wanted: "x /0, p.q.m m/0, p.m m/0, ",
    },
    // What came by another way is passed over.
    Case {
        here: &[("m", "m", 0), ("x", "", 1)],
        imported: &[("m", "m", 0), ("a", "b", 1)],
        prefix: None,
        wanted: "m m/0, x /1, a b/1, ",
    },
    // The first of the module's names that clashes, and not the first in front of the import.
    Case {
        here: &[("b", "", 0), ("a", "", 1)],
        imported: &[("x", "m", 0), ("a", "m", 1), ("b", "m", 2)],
        prefix: None,
        wanted: "clash a",
    },
    Case {
        here: &[("p.m", "k", 0)],
        imported: &[("a", "m", 0), ("m", "m", 1)],
        prefix: Some("p"),
        wanted: "clash p.m",
    },
    Case {
        here: &[("m", "", 0)],
        imported: &[("m", "m", 0)],
        prefix: Some("p"),
        wanted: "m /0, p.m m/0, ",
    },
    // Another module, and another statement of the same one.
    Case {
        here: &[("m", "k", 0)],
        imported: &[("m", "m", 0)],
        prefix: None,
        wanted: "clash m",
    },
    Case {
        here: &[("m", "m", 1)],
        imported: &[("m", "m", 0)],
        prefix: None,
        wanted: "clash m",
    },
];

/// Binds a name to a broken statement, unless it is bound already.
fn bind_one(alloc: Global, env: &mut Env, bound: &Bound) -> Result<(), Fail>
    ensures { All (λ (b : Binding). b.sense ≡ broken) env.old → All (λ (b : Binding). b.sense ≡ broken) env.new }
{
    let (name, module, index) = *bound;
    check_name(alloc, name)?;
    if env.lookup(name.as_bytes()).is_some() {
        return Ok(());
    }
    let name = Name::new(alloc, name)?;
    let module = Name::new(alloc, module)?;
    let origin = Origin { module, index };
    let meaning = Meaning::Broken;
    env.insert(Entry {
        name,
        origin,
        meaning,
    })?;
    Ok(())
}

fn bind_each(alloc: Global, env: &mut Env, names: &[Bound]) -> Result<(), Fail>
    ensures { All (λ (b : Binding). b.sense ≡ broken) env.old → All (λ (b : Binding). b.sense ≡ broken) env.new }
{
    for bound in names {
        bind_one(alloc, env, bound)?;
    }
    Ok(())
}

/// The names with their statements, a comma behind each.
fn in_words(alloc: Global, env: &Env) -> Result<String, Fail> {
    let mut words = String::new(alloc);
    for number in 0..env.count() {
        let entry = env.entry(number);
        let name = entry.name.as_str();
        let module = entry.origin.module.as_str();
        let index = entry.origin.index;
        words = format!(in alloc; "{words}{name} {module}/{index}, ")?;
    }
    Ok(words)
}

/// What is bound behind the import, or the name at which it clashes.
fn told(alloc: Global, env: &mut Env, imported: &mut Env, case: &Case) -> Result<String, Fail>
    requires env { env.old ≡ [] }
    requires imported { imported.old ≡ [] }
{
    check_prefix(alloc, case.prefix)?;
    bind_each(alloc, env, case.here)?;
    bind_each(alloc, imported, case.imported)?;
    if let Some(name) = first_clash(env, imported, case.prefix)? {
        return Ok(format!(in alloc; "clash {}", name.as_str())?);
    }
    env.import(imported, case.prefix)?;
    in_words(alloc, env)
}

fn outcome(alloc: Global, case: &Case) -> Result<String, Fail> {
    let mut env = Env::new(alloc);
    let mut imported = Env::new(alloc);
    let words = told(alloc, &mut env, &mut imported, case);
    // As calls, they take one step of the proof each.
    drop(env);
    drop(imported);
    words
}

#[test]
fn imports_bind_or_clash(rt: HostRuntime) -> Result<(), Fail> {
    for case in &CASES {
        let words = outcome(rt.alloc(), case)?;
        assert_eq!(rt; words.as_str(), case.wanted);
    }
    Ok(())
}

fn is_import(ast: &Ast) -> bool
    ensures { result ≡ is_import (statement_of ast.now) }
{
    matches!(ast, Ast::ImportDecl { .. })
}

fn refused(_: ElabError) -> Fail {
    Fail::new("refused")
}

/// What an import with this tree means that is in order.
fn meant_by(
    alloc: Global,
    env: &Env,
    chunk: &ChunkView<'_>,
    import: &ImportState<'_>,
    ast: &Ast,
) -> Result<Body, Fail>
    requires { IsSentence chunk.now (statement_of ast.now) }
    ensures body { IfOk result (Elaborates (site_of (record { words = chunk.now; env = env.now }) [] import.now)) }
    ensures typed { IfOk result (λ body. AreTypedAlike body.terms) }
    ensures state { OnOk result (IsImportState (site_of (record { words = chunk.now; env = env.now }) [] import.now)) }
{
    let main = Name::new(alloc, "")?;
    if !is_import(ast) {
        return Err(Fail::new("no import"));
    }
    let scope = Scope::new(chunk, env);
    match elaborate(alloc, &main, ast, &scope, import) {
        Ok(body) => Ok(body),
        Err(error) => Err(refused(error)),
    }
}

/// What an import means that is in order.
fn meant(
    alloc: Global,
    env: &Env,
    chunk: &ChunkView<'_>,
    import: &ImportState<'_>,
) -> Result<Body, Fail>
    ensures body { IfOk result (Elaborates (site_of (record { words = chunk.now; env = env.now }) [] import.now)) }
    ensures typed { IfOk result (λ body. AreTypedAlike body.terms) }
    ensures state { OnOk result (IsImportState (site_of (record { words = chunk.now; env = env.now }) [] import.now)) }
{
    let ast = tree_of(alloc, chunk)?;
    let body = meant_by(alloc, env, chunk, import, &ast);
    // As a call, it takes one step of the proof.
    drop(ast);
    body
}

/// Binds what an import takes in, from no names.
fn take_in(
    alloc: Global,
    env: &mut Env,
    chunk: &ChunkView<'_>,
    import: &ImportState<'_>,
    body: &Body,
) -> Result<(), Fail>
    requires empty { env.old ≡ [] }
    requires plain { ¬ IsRewrite chunk.now }
    requires body { Elaborates (site_of (record { words = chunk.now; env = env.old }) [] import.now) body.now }
    requires typed { AreTypedAlike body.now.terms }
    requires state { IsImportState (site_of (record { words = chunk.now; env = env.old }) [] import.now) }
{
    let main = Name::new(alloc, "")?;
    bind(env, &main, 0, chunk, import, Some(body), &Verdict::Accepted)?;
    Ok(())
}

/// Binds what the import of this text takes in, from no names.
fn import_by(alloc: Global, env: &mut Env, imported: &Env, text: &str) -> Result<(), Fail>
    requires { env.old ≡ [] }
{
    let text = text.as_bytes();
    if text.len() > 1000 {
        return Err(Fail::new("a long text"));
    }
    let tokens = tokens_of(alloc, text)?;
    let chunk = lent(text, &tokens);
    if is_rewrite(&chunk) {
        return Err(Fail::new("a rewrite"));
    }
    let import = ImportState::Module(imported);
    let body = meant(alloc, env, &chunk, &import)?;
    take_in(alloc, env, &chunk, &import, &body)
}

/// What an import of this text binds of a module.
fn told_by(alloc: Global, env: &mut Env, imported: &mut Env, text: &str) -> Result<String, Fail>
    requires { env.old ≡ [] }
{
    bind_each(alloc, imported, &[("m", "m", 0), ("a", "m", 1)])?;
    import_by(alloc, env, imported, text)?;
    in_words(alloc, env)
}

fn outcome_by(alloc: Global, text: &str) -> Result<String, Fail> {
    let mut env = Env::new(alloc);
    let mut imported = Env::new(alloc);
    let words = told_by(alloc, &mut env, &mut imported, text);
    drop(env);
    drop(imported);
    words
}

#[test]
fn import_statements_bind(rt: HostRuntime) -> Result<(), Fail> {
    let alloc = rt.alloc();
    assert_eq!(rt; outcome_by(alloc, "import m")?.as_str(), "m m/0, a m/1, ");
    assert_eq!(rt;
        outcome_by(alloc, "import m as p")?.as_str(),
        "p.m m/0, p.a m/1, "
    );
    Ok(())
}
