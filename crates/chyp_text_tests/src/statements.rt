// What statements mean, each in front of the names that those before it bind, and what the names stand for.
ghost use Rattle.std.specs.Prelude.{◌≡◌, ◌≤◌, ◌↔◌, [], length, IfOk, IfSome, IsTrue, Some, None};
ghost use Rattle.chyp_lex.specs.Tokens.{AreSpans, AreTokens};
ghost use Rattle.chyp_syntax.specs.Sentence.{IsSentence};
ghost use Rattle.chyp_syntax.specs.Statement.{statement_of};
ghost use Rattle.chyp_env.specs.ImportState.{site_of};
ghost use Rattle.chyp_names.specs.Binding.{Elaborates, IsRewrite};
ghost use Rattle.chyp_names.specs.Typing.{AreTypedAlike};

use chyp_base::{Name, Verdict};
use chyp_lex::{Token, TokenKind, lex};
use chyp_names::{
    Body, ChunkView, ElabError, Env, ImportState, Meaning, Scope, bind, bind_owned, elaborate,
};
use chyp_syntax::Ast;
use chyp_term::{Equation, Step, Term};
use std::alloc::Global;
use std::test::Fail;

pub(crate) fn tokens_of(alloc: Global, text: &[u8]) -> Result<Vec<Token>, Fail>
    requires { length text.now ≤ 1000 }
    ensures tokens { IfOk result (λ tokens. AreTokens text.now tokens.items) }
    ensures spans { IfOk result (λ tokens. AreSpans (length text.now) tokens.items) }
{
    match lex(alloc, text, &[]) {
        Ok(tokens) => Ok(tokens),
        Err(_) => Err(Fail::new("no memory for the tokens")),
    }
}

pub(crate) fn lent<'a>(text: &'a [u8], tokens: &'a [Token]) -> ChunkView<'a>
    requires short { length text.now ≤ 1000 }
    requires tokens { AreTokens text.now tokens.now }
    requires spans { AreSpans (length text.now) tokens.now }
{
    ChunkView::new(tokens, text, &[])
}

pub(crate) fn tree_of(alloc: Global, chunk: &ChunkView<'_>) -> Result<Ast, Fail>
    ensures { IfOk result (λ ast. IsSentence chunk.now (statement_of ast)) }
{
    match chunk.parse(alloc) {
        Ok(ast) => Ok(ast),
        Err(_) => Err(Fail::new("no sentence")),
    }
}

/// What a statement means, in words, and its body where nothing refuses it.
#[derive(Drop)]
struct Meant {
    words: String,
    body: Option<Body>,
}

fn with_words(alloc: Global, body: Body) -> Result<Meant, Fail>
    ensures { IfOk result (λ meant. meant.body ≡ Some body) }
{
    let words = body_in_words(alloc, &body)?;
    let body = Some(body);
    Ok(Meant { words, body })
}

fn refused(alloc: Global, error: ElabError) -> Result<Meant, Fail>
    ensures { IfOk result (λ meant. meant.body ≡ None) }
{
    let words = format!(in alloc; "{error:?}")?;
    Ok(Meant { words, body: None })
}

/// The body of a statement that is read, or what refuses it.
fn meaning(alloc: Global, env: &Env, chunk: &ChunkView<'_>, ast: &Ast) -> Result<Body, ElabError>
    requires { IsSentence chunk.now (statement_of ast.now) }
    ensures body { IfOk result
        (Elaborates (site_of (record { words = chunk.now; env = env.now }) [] ImportState.NotImport)) }
    ensures typed { IfOk result (λ body. AreTypedAlike body.terms) }
{
    let main = Name::new(alloc, "")?;
    let scope = Scope::new(chunk, env);
    match elaborate(alloc, &main, ast, &scope, &ImportState::NotImport) {
        Ok(body) => Ok(body),
        Err(error) => Err(error),
    }
}

fn elaborated(alloc: Global, env: &Env, chunk: &ChunkView<'_>) -> Result<Meant, Fail>
    ensures body { IfOk result (λ meant. IfSome meant.body
        (Elaborates (site_of (record { words = chunk.now; env = env.now }) [] ImportState.NotImport))) }
    ensures typed { IfOk result (λ meant. IfSome meant.body (λ body. AreTypedAlike body.terms)) }
{
    let ast = tree_of(alloc, chunk)?;
    match meaning(alloc, env, chunk, &ast) {
        Ok(body) => with_words(alloc, body),
        Err(error) => refused(alloc, error),
    }
}

pub(crate) fn is_rewrite(chunk: &ChunkView<'_>) -> bool
    ensures { IsTrue result ↔ IsRewrite chunk.now }
{
    match chunk.keyword() {
        Some(kind) => kind == TokenKind::WordRewrite,
        None => false,
    }
}

/// Binds the name of a statement that is accepted, and keeps its body.
fn share(alloc: Global, env: &mut Env, chunk: &ChunkView<'_>, body: &Body) -> Result<(), Fail>
    requires plain { ¬ IsRewrite chunk.now }
    requires body { Elaborates (site_of (record { words = chunk.now; env = env.old }) [] ImportState.NotImport) body.now }
    requires typed { AreTypedAlike body.now.terms }
{
    let main = Name::new(alloc, "")?;
    let import = ImportState::NotImport;
    bind(
        env,
        &main,
        0,
        chunk,
        &import,
        Some(body),
        &Verdict::Accepted,
    )?;
    Ok(())
}

/// Binds the name of a statement that is accepted where it has a body, and refused where it has none.
fn hand_over(
    alloc: Global,
    env: &mut Env,
    chunk: &ChunkView<'_>,
    body: Option<Body>,
) -> Result<(), Fail>
    requires plain { ¬ IsRewrite chunk.now }
    requires body { IfSome body (Elaborates (site_of (record { words = chunk.now; env = env.old }) [] ImportState.NotImport)) }
    requires typed { IfSome body (λ body. AreTypedAlike body.terms) }
{
    let main = Name::new(alloc, "")?;
    let import = ImportState::NotImport;
    let verdict = match body {
        Some(_) => Verdict::Accepted,
        None => Verdict::TooBig,
    };
    bind_owned(env, &main, 0, chunk, &import, body, &verdict)?;
    Ok(())
}

/// Binds the name of a statement that is no rewrite: the first one, which is accepted, keeps its body.
fn bind_name(
    alloc: Global,
    env: &mut Env,
    chunk: &ChunkView<'_>,
    body: Option<Body>,
) -> Result<(), Fail>
    requires plain { ¬ IsRewrite chunk.now }
    requires body { IfSome body (Elaborates (site_of (record { words = chunk.now; env = env.old }) [] ImportState.NotImport)) }
    requires typed { IfSome body (λ body. AreTypedAlike body.terms) }
{
    if env.count() > 0 {
        return hand_over(alloc, env, chunk, body);
    }
    match body {
        Some(body) => share(alloc, env, chunk, &body),
        None => Err(Fail::new("the first statement is refused")),
    }
}

/// What the statement of this text means in words. Its name is bound then, unless it is a rewrite.
fn told(alloc: Global, env: &mut Env, text: &str) -> Result<String, Fail> {
    let text = text.as_bytes();
    if text.len() > 1000 {
        return Err(Fail::new("a long text"));
    }
    let tokens = tokens_of(alloc, text)?;
    let chunk = lent(text, &tokens);
    let Meant { words, body } = elaborated(alloc, env, &chunk)?;
    if !is_rewrite(&chunk) {
        bind_name(alloc, env, &chunk, body)?;
    }
    Ok(words)
}

/// The term in words, with each composition and tensor in parentheses, and permutations by their places.
fn in_words(alloc: Global, term: &Term) -> Result<String, Fail> {
    match term {
        Term::Gen { name, .. } => Ok(format!(in alloc; "{}", name.as_str())?),
        Term::Perm { perm, .. } => Ok(format!(in alloc; "{:?}", perm.places())?),
        Term::Seq(first, second) => {
            let first = in_words(alloc, first)?;
            let second = in_words(alloc, second)?;
            Ok(format!(in alloc; "({first} ; {second})")?)
        }
        Term::Par(left, right) => {
            let left = in_words(alloc, left)?;
            let right = in_words(alloc, right)?;
            Ok(format!(in alloc; "({left} * {right})")?)
        }
    }
}

fn law_in_words(alloc: Global, law: &Equation) -> Result<String, Fail> {
    let left = in_words(alloc, &law.left)?;
    let right = in_words(alloc, &law.right)?;
    Ok(format!(in alloc; "{left} to {right}")?)
}

/// What a step rests on, in words.
fn step_in_words(alloc: Global, step: &Step) -> Result<String, Fail> {
    match step {
        Step::Refl => Ok(format!(in alloc; "laws")?),
        Step::ByRule(rule) => law_in_words(alloc, rule),
        Step::Simp(_) => Ok(format!(in alloc; "simp")?),
    }
}

/// The terms of a body, a bar behind each.
fn terms_in_words(alloc: Global, body: &Body) -> Result<String, Fail> {
    let mut words = String::new(alloc);
    for term in body.terms.as_slice() {
        let term = in_words(alloc, term.term())?;
        words = format!(in alloc; "{words}{term} | ")?;
    }
    Ok(words)
}

/// The terms of a body, its steps, a bar behind each, and whether one is a hole.
fn body_in_words(alloc: Global, body: &Body) -> Result<String, Fail> {
    let mut words = terms_in_words(alloc, body)?;
    for step in body.steps.as_slice() {
        let step = step_in_words(alloc, step)?;
        words = format!(in alloc; "{words}{step} | ")?;
    }
    if body.hole {
        words = format!(in alloc; "{words}?")?;
    }
    Ok(words)
}

/// What a name stands for, in words.
fn sense_in_words(alloc: Global, env: &Env, name: &[u8]) -> Result<String, Fail> {
    let Some(entry) = env.lookup(name) else {
        return Ok(format!(in alloc; "free")?);
    };
    match &entry.meaning {
        Meaning::Generator(name, _) => Ok(format!(in alloc; "{}", name.as_str())?),
        Meaning::Abbrev(known) => in_words(alloc, known.term()),
        Meaning::Law(law) => law_in_words(alloc, law),
        Meaning::Unproved => Ok(format!(in alloc; "unproved")?),
        Meaning::Broken => Ok(format!(in alloc; "broken")?),
    }
}

// Each statement with its terms and its steps in words, or with what refuses it.
const STATEMENTS: [(&str, &str); 6] = [
    ("gen m : 2 -> 1", "m | "),
    ("let left = m * id ; m", "((m * [0]) ; m) | "),
    (
        "rule assoc : left = id * m ; m",
        "((m * [0]) ; m) | (([0] * m) ; m) | ",
    ),
    (
        "rewrite w : left = m * id ; m = id * m ; m by assoc = ? by -assoc",
        "((m * [0]) ; m) | ((m * [0]) ; m) | (([0] * m) ; m) | \
            laws | ((m * [0]) ; m) to (([0] * m) ; m) | (([0] * m) ; m) to ((m * [0]) ; m) | ?",
    ),
    ("let x = zz", "Refused(Unknown { token: 3 })"),
    ("gen left : 1 -> 1", "Refused(Declared { token: 1 })"),
];

// Each name with what it stands for then.
const SENSES: &str =
    "m: m | left: ((m * [0]) ; m) | assoc: ((m * [0]) ; m) to (([0] * m) ; m) | x: broken | w: free | ";

/// Binds the names of the statements, each of which means what its words say.
fn bind_all(alloc: Global, env: &mut Env) -> Result<(), Fail> {
    for (text, words) in STATEMENTS {
        if told(alloc, env, text)?.as_str() != words {
            return Err(Fail::new(text));
        }
    }
    Ok(())
}

/// What the names of the statements stand for, a bar behind each.
fn senses_in_words(alloc: Global, env: &Env) -> Result<String, Fail> {
    let mut words = String::new(alloc);
    for name in ["m", "left", "assoc", "x", "w"] {
        let sense = sense_in_words(alloc, env, name.as_bytes())?;
        words = format!(in alloc; "{words}{name}: {sense} | ")?;
    }
    Ok(words)
}

/// What the names stand for when the statements are bound.
fn bind_and_tell(alloc: Global, env: &mut Env) -> Result<String, Fail> {
    bind_all(alloc, env)?;
    env.sound();
    senses_in_words(alloc, env)
}

/// The same, from no names.
fn bound(alloc: Global) -> Result<String, Fail> {
    let mut env = Env::new(alloc);
    let words = bind_and_tell(alloc, &mut env);
    // As a call, it takes one step of the proof.
    drop(env);
    words
}

#[test]
fn statements_mean_terms_and_bind_names(rt: HostRuntime) -> Result<(), Fail> {
    let words = bound(rt.alloc())?;
    assert_eq!(rt; words.as_str(), SENSES);
    Ok(())
}
