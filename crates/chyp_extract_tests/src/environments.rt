// Terms that are printed with the names of environments which statements made.
ghost use Rattle.std.specs.Prelude.{◌≡◌, ◌↔◌, ◌++◌, ◌∷◌, [], List, IfOk, IsTrue, OnOk, length};
ghost use Rattle.chyp_syntax.specs.Sentence.{IsSentence};
ghost use Rattle.chyp_syntax.specs.Statement.{statement_of};
ghost use Rattle.chyp_term.specs.Term.{morphism_of};
ghost use Rattle.chyp_env.specs.Closed.{FitsBehind, HasBoundGenerators};
ghost use Rattle.chyp_env.specs.Entry.{entry_of, sense_of};
ghost use Rattle.chyp_env.specs.Expansion.{plain_wires};
ghost use Rattle.chyp_env.specs.ImportState.{site_of};
ghost use Rattle.chyp_env.specs.Site.{IsImportState};
ghost use Rattle.chyp_env.specs.Sound.{IsSoundSense};
ghost use Rattle.chyp_names.specs.Binding.{Elaborates, IsRewrite};
ghost use Rattle.chyp_names.specs.Elaboration.{is_import};
ghost use Rattle.chyp_names.specs.Typing.{AreTypedAlike};
ghost use Rattle.chyp_print.specs.Environments.{HasPlainPermutations};

use crate::names::check_name;
use crate::printing::string;
use crate::reading::{lent, read, tokens_of};
use crate::words::told;
use chyp_base::{MAX_TEXT_LEN, Name, Sorts, Verdict};
use chyp_env::{ChunkView, Entry, Env, ImportState, KnownTerm, Meaning, PlainWires, Scope};
use chyp_lex::TokenKind;
use chyp_names::{Body, ElabError, bind, bind_owned, elaborate};
use chyp_print::print_term;
use chyp_syntax::Ast;
use chyp_term::Term;
use std::alloc::Global;
use std::test::Fail;

fn tree_of(alloc: Global, chunk: &ChunkView<'_>) -> Result<Ast, Fail>
    ensures { IfOk result (λ ast. IsSentence chunk.now (statement_of ast)) }
{
    match chunk.parse(alloc) {
        Ok(ast) => Ok(ast),
        Err(_) => Err(Fail::new("no sentence")),
    }
}

fn is_rewrite(chunk: &ChunkView<'_>) -> bool
    ensures { IsTrue result ↔ IsRewrite chunk.now }
{
    match chunk.keyword() {
        Some(kind) => kind == TokenKind::WordRewrite,
        None => false,
    }
}

fn is_import(ast: &Ast) -> bool
    ensures { result ≡ is_import (statement_of ast.now) }
{
    matches!(ast, Ast::ImportDecl { .. })
}

fn refused(_: ElabError) -> Fail {
    Fail::new("refused")
}

/// What a statement of a module means that is no import.
fn elaborated(alloc: Global, env: &Env, home: &Name, chunk: &ChunkView<'_>) -> Result<Body, Fail>
    ensures body { IfOk result (Elaborates
        (site_of (record { words = chunk.now; env = env.now }) home.now ImportState.NotImport)) }
    ensures typed { IfOk result (λ body. AreTypedAlike body.terms) }
{
    let ast = tree_of(alloc, chunk)?;
    let scope = Scope::new(chunk, env);
    match elaborate(alloc, home, &ast, &scope, &ImportState::NotImport) {
        Ok(body) => Ok(body),
        Err(error) => Err(refused(error)),
    }
}

/// Binds the name of a statement of a module, which is accepted.
fn hand_over(
    env: &mut Env,
    home: &Name,
    chunk: &ChunkView<'_>,
    index: u32,
    body: Body,
) -> Result<(), Fail>
    requires plain { ¬ IsRewrite chunk.now }
    requires body { Elaborates (site_of (record { words = chunk.now; env = env.old }) home.now ImportState.NotImport) body }
    requires typed { AreTypedAlike body.terms }
{
    let import = ImportState::NotImport;
    bind_owned(
        env,
        home,
        index,
        chunk,
        &import,
        Some(body),
        &Verdict::Accepted,
    )?;
    Ok(())
}

/// Binds the name of the statement of this text, which is accepted in the module of this name.
fn add(alloc: Global, env: &mut Env, home: &str, index: u32, text: &str) -> Result<(), Fail> {
    let home = Name::new(alloc, home)?;
    let text = text.as_bytes();
    if text.len() > MAX_TEXT_LEN {
        return Err(Fail::new("a long text"));
    }
    let tokens = tokens_of(alloc, text)?;
    let chunk = lent(text, &tokens);
    if is_rewrite(&chunk) {
        return Err(Fail::new("a rewrite"));
    }
    let body = elaborated(alloc, env, &home, &chunk)?;
    hand_over(env, &home, &chunk, index, body)
}

/// What an import with this tree means that is in order.
fn meant_by(
    alloc: Global,
    env: &Env,
    chunk: &ChunkView<'_>,
    import: &ImportState<'_>,
    ast: &Ast,
) -> Result<Body, Fail>
    requires { IsSentence chunk.now (statement_of ast.now) }
    ensures body { IfOk result (Elaborates (site_of (record { words = chunk.now; env = env.now }) [] import.now)) }
    ensures typed { IfOk result (λ body. AreTypedAlike body.terms) }
    ensures state { OnOk result (IsImportState (site_of (record { words = chunk.now; env = env.now }) [] import.now)) }
{
    let main = Name::new(alloc, "")?;
    if !is_import(ast) {
        return Err(Fail::new("no import"));
    }
    let scope = Scope::new(chunk, env);
    match elaborate(alloc, &main, ast, &scope, import) {
        Ok(body) => Ok(body),
        Err(error) => Err(refused(error)),
    }
}

/// What an import means that is in order.
fn meant(
    alloc: Global,
    env: &Env,
    chunk: &ChunkView<'_>,
    import: &ImportState<'_>,
) -> Result<Body, Fail>
    ensures body { IfOk result (Elaborates (site_of (record { words = chunk.now; env = env.now }) [] import.now)) }
    ensures typed { IfOk result (λ body. AreTypedAlike body.terms) }
    ensures state { OnOk result (IsImportState (site_of (record { words = chunk.now; env = env.now }) [] import.now)) }
{
    let ast = tree_of(alloc, chunk)?;
    let body = meant_by(alloc, env, chunk, import, &ast);
    // As a call, it takes one step of the proof.
    drop(ast);
    body
}

/// Binds what an import takes in, from no names.
fn take_in(
    alloc: Global,
    env: &mut Env,
    chunk: &ChunkView<'_>,
    import: &ImportState<'_>,
    body: &Body,
) -> Result<(), Fail>
    requires empty { env.old ≡ [] }
    requires plain { ¬ IsRewrite chunk.now }
    requires body { Elaborates (site_of (record { words = chunk.now; env = env.old }) [] import.now) body.now }
    requires typed { AreTypedAlike body.now.terms }
    requires state { IsImportState (site_of (record { words = chunk.now; env = env.old }) [] import.now) }
{
    let main = Name::new(alloc, "")?;
    bind(env, &main, 0, chunk, import, Some(body), &Verdict::Accepted)?;
    Ok(())
}

/// Binds what the import of this text takes in, from no names.
fn import_by(alloc: Global, env: &mut Env, imported: &Env, text: &str) -> Result<(), Fail>
    requires { env.old ≡ [] }
{
    let text = text.as_bytes();
    if text.len() > MAX_TEXT_LEN {
        return Err(Fail::new("a long text"));
    }
    let tokens = tokens_of(alloc, text)?;
    let chunk = lent(text, &tokens);
    if is_rewrite(&chunk) {
        return Err(Fail::new("a rewrite"));
    }
    let import = ImportState::Module(imported);
    let body = meant(alloc, env, &chunk, &import)?;
    take_in(alloc, env, &chunk, &import, &body)
}

/// An entry under another name, which fits behind the others.
fn renamed(alloc: Global, env: &Env, from: &str, to: &str) -> Result<Entry, Fail>
    ensures name { IfOk result (λ entry. entry.name ≡ to.now) }
    ensures sound { IfOk result (λ entry. IsSoundSense (sense_of entry.meaning)) }
    ensures fits { IfOk result (λ entry. FitsBehind env.now (entry_of entry)) }
{
    env.sound();
    env.closed();
    check_name(alloc, to)?;
    match env.lookup(from.as_bytes()) {
        Some(entry) => Ok(entry.renamed(Name::new(alloc, to)?)?),
        None => Err(Fail::new("no entry to rename")),
    }
}

/// Binds another name to what a name stands for.
fn add_name(alloc: Global, env: &mut Env, from: &str, to: &str) -> Result<(), Fail> {
    let entry = renamed(alloc, env, from, to)?;
    if env.lookup(to.as_bytes()).is_some() {
        return Err(Fail::new("a name that is there"));
    }
    Ok(env.insert(entry)?)
}

/// Fails unless the sorts are plain.
fn check_sorts(alloc: Global, plain: &PlainWires, sorts: &Sorts) -> Result<(), Fail>
    ensures { OnOk result (sorts.now ≡ plain_wires (length sorts.now)) }
{
    let wires = plain.wires(alloc, sorts.as_slice().len())?;
    let same = *sorts == wires;
    drop(wires);
    if same {
        Ok(())
    } else {
        Err(Fail::new("sorts that aren't plain"))
    }
}

/// Fails unless the permutations of a term are of plain wires.
fn check_plain(alloc: Global, plain: &PlainWires, term: &Term) -> Result<(), Fail>
    ensures { OnOk result (HasPlainPermutations (morphism_of term.now)) }
{
    match term {
        Term::Gen { .. } => Ok(()),
        Term::Perm { sorts, .. } => check_sorts(alloc, plain, sorts),
        Term::Seq(first, second) | Term::Par(first, second) => {
            check_plain(alloc, plain, first)?;
            check_plain(alloc, plain, second)
        }
    }
}

/// Fails unless the permutations of a term are of plain wires.
fn check_known(alloc: Global, env: &Env, term: &Term) -> Result<(), Fail>
    ensures { OnOk result (HasPlainPermutations (morphism_of term.now)) }
{
    let plain = env.plain_wires()?;
    let checked = check_plain(alloc, plain.as_ref(), term);
    drop(plain);
    checked
}

/// The text of a term whose generators have entries.
fn printed_known(alloc: Global, env: &Env, known: &KnownTerm) -> Result<String, Fail>
    requires { HasBoundGenerators env.now known.now }
{
    known.small();
    let _ = known.shape();
    check_known(alloc, env, known.term())?;
    string(print_term(alloc, known.term(), env)?)
}

/// The term that a name stands for.
fn term_of<'a>(env: &'a Env, name: &str) -> Result<&'a KnownTerm, Fail>
    ensures { IfOk result (λ known. HasBoundGenerators env.now known.now) }
{
    env.closed();
    let Some(entry) = env.lookup(name.as_bytes()) else {
        return Err(Fail::new("no entry"));
    };
    match &entry.meaning {
        Meaning::Abbrev(known) => Ok(known),
        _ => Err(Fail::new("no term")),
    }
}

/// Fails unless the term that a name stands for has this text and is read back as itself, which is what
/// these words tell.
fn check(alloc: Global, env: &Env, name: &str, wanted: (&str, &str)) -> Result<(), Fail> {
    let known = term_of(env, name)?;
    let text = printed_known(alloc, env, known)?;
    if text.as_str() != wanted.0 {
        return Err(Fail::new("another text"));
    }
    if told(alloc, known.term())?.as_str() != wanted.1 {
        return Err(Fail::new("another term"));
    }
    if read(alloc, env, &text)?.as_str() != wanted.1 {
        return Err(Fail::new("another term is read"));
    }
    Ok(())
}

// The statements of the module `m`, those of `k` behind its import of `m`, and those of the main text behind
// its import of `k`.
const GENERATORS: [&str; 3] = ["gen f : 1 -> 1", "gen g : 1 -> 1", "gen m : 2 -> 1"];

const BETWEEN: [&str; 2] = ["gen f : 1 -> 1", "let two = p.f ; p.f"];

const MAIN: [&str; 3] = ["gen f : 1 -> 1", "gen u : 0 -> 1", "gen m : 2 -> 1"];

// Terms, how they are printed, and how they are told.
const TERMS: [(&str, &str, &str); 9] = [
    // Generators of one name in three modules have names of their own.
    (
        "let a = f ; q.f ; q.p.f",
        "f ; q.f ; q.p.f",
        "(f ; (k/f ; m/f))",
    ),
    (
        "let b = q.p.f * id ; q.p.m",
        "q.p.f * id ; q.p.m",
        "((m/f * [0]) ; m/m)",
    ),
    // What abbreviations stand for is printed.
    (
        "let c = q.two * q.p.g",
        "(q.p.f ; q.p.f) * q.p.g",
        "((m/f ; m/f) * m/g)",
    ),
    (
        "let d = a * a",
        "(f ; q.f ; q.p.f) * (f ; q.f ; q.p.f)",
        "((f ; (k/f ; m/f)) * (f ; (k/f ; m/f)))",
    ),
    // A generator of two names is printed by the first one.
    ("let e = other ; q.p.g", "q.p.g ; q.p.g", "(m/g ; m/g)"),
    ("let h = other * f", "q.p.g * f", "(m/g * f)"),
    (
        "let i = sw ; other * f",
        "sw ; q.p.g * f",
        "([1, 0] ; (m/g * f))",
    ),
    // The first and the second rewrite of `f` by `id = u * id ; m`.
    (
        "let j = u * id ; m ; f",
        "u * id ; m ; f",
        "((u * [0]) ; (m ; f))",
    ),
    (
        "let k = f * u ; sw ; m",
        "f * u ; sw ; m",
        "((f * u) ; ([1, 0] ; m))",
    ),
];

// The names of these terms.
const NAMES: [&str; 9] = ["a", "b", "c", "d", "e", "h", "i", "j", "k"];

/// Binds the names of these statements of a module.
fn add_all(alloc: Global, env: &mut Env, home: &str, texts: &[&str]) -> Result<(), Fail> {
    for (index, text) in texts.iter().enumerate() {
        let Ok(index) = u32::try_from(index) else {
            return Err(Fail::new("many statements"));
        };
        add(alloc, env, home, index, text)?;
    }
    Ok(())
}

/// Fails unless each term is printed and read back.
fn check_all(alloc: Global, env: &mut Env) -> Result<(), Fail> {
    add_all(alloc, env, "", &MAIN)?;
    add_name(alloc, env, "q.p.g", "other")?;
    for i in 0..TERMS.len() {
        let (statement, text, words) = TERMS[i];
        add(alloc, env, "", 2, statement)?;
        check(alloc, env, NAMES[i], (text, words))?;
    }
    Ok(())
}

/// Makes the environments of the three modules.
fn check_modules(alloc: Global, low: &mut Env, middle: &mut Env, env: &mut Env) -> Result<(), Fail>
    requires middle { middle.old ≡ [] }
    requires env { env.old ≡ [] }
{
    add_all(alloc, low, "m", &GENERATORS)?;
    import_by(alloc, middle, low, "import m as p")?;
    add_all(alloc, middle, "k", &BETWEEN)?;
    import_by(alloc, env, middle, "import k as q")?;
    check_all(alloc, env)
}

#[test]
fn terms_are_printed_by_first_names(rt: HostRuntime) -> Result<(), Fail> {
    let alloc = rt.alloc();
    let mut low = Env::new(alloc);
    let mut middle = Env::new(alloc);
    let mut env = Env::new(alloc);
    let checked = check_modules(alloc, &mut low, &mut middle, &mut env);
    // As calls, they take one step of the proof each.
    drop(env);
    drop(middle);
    drop(low);
    checked
}
