// What statements bind.
ghost use Rattle.std.specs.Prelude.{◌≡◌, ◌<◌, ◌++◌, ◌∷◌, [], ℕ, List, Option, false, length, IfOk, IfSome, IfNone, IsUtf8, Some, OnOk, OnErr, option_copied};
ghost use Rattle.chyp_base.specs.declared.verdict.Verdict.{Verdict};
ghost use Rattle.chyp_base.specs.declared.verdict.Verdict.TheVariants.{Accepted};
ghost use Rattle.chyp_lex.specs.declared.token.TokenKind.{TokenKind};
ghost use Rattle.chyp_lex.specs.declared.token.TokenKind.TheVariants.{WordGen};
ghost use Rattle.chyp_syntax.specs.Heading.{declared_name};
ghost use Rattle.chyp_term.specs.Equation.{equation_of};
ghost use Rattle.chyp_term.specs.Term.{morphism_of};
ghost use Rattle.chyp_env.specs.Closed.{FitsBehind};
ghost use Rattle.chyp_env.specs.Entry.{sense_of};
ghost use Rattle.chyp_env.specs.Environment.{is_bound};
ghost use Rattle.chyp_env.specs.Import.{AgreeOnOrigins};
ghost use Rattle.chyp_env.specs.ImportState.{imported_of, site_of};
ghost use Rattle.chyp_env.specs.Site.{Imported, IsImportState, there};
ghost use Rattle.chyp_env.specs.Sound.{IsSoundSense};
ghost use Rattle.chyp_names.specs.Binding.{Binds, IsOutcome, TakesIn};
ghost use Rattle.chyp_names.specs.Outcome.{HasTermsFor, IsGenerator, accepted_sense, first_of, generator_sense, last_of, refused_sense, sense_for, terms_in};
ghost use Rattle.chyp_names.specs.Typing.{AreTypedAlike};

use crate::Body;
use crate::imports::bind_import;
use chyp_base::{Name, NoMemory, Verdict};
use chyp_env::{ChunkView, Entry, Env, ImportState, KnownTerm, Meaning, Origin};
use chyp_lex::TokenKind;
use chyp_term::{Equation, Shape, Term};
use std::alloc::Global;

// The terms of a body, none where there is no body.
fn terms<'a>(body: Option<&'a Body>) -> &'a [KnownTerm]
    ensures { result.now ≡ terms_in (option_copied body.entry) }
{
    match body {
        Some(body) => body.terms.as_slice(),
        None => &[],
    }
}

// The terms of a body that is handed over.
fn into_terms(alloc: Global, body: Option<Body>) -> Vec<KnownTerm>
    ensures { result.items ≡ terms_in body }
{
    match body {
        Some(body) => body.terms.into_vec(),
        None => Vec::new(alloc),
    }
}

// The first and the last of some terms, shared; one where there is one.
fn ends(alloc: Global, terms: &[KnownTerm]) -> Result<Vec<KnownTerm>, NoMemory>
    ensures some { IfOk result (λ ends. 0 < length terms.now → 0 < length ends.items) }
    ensures first { IfOk result (λ ends. first_of ends.items ≡ first_of terms.now) }
    ensures last { IfOk result (λ ends. last_of ends.items ≡ last_of terms.now) }
{
    match terms {
        [] => Ok(Vec::new(alloc)),
        [only] => Ok(vec![in alloc; only.share()?]?),
        [first, .., last] => Ok(vec![in alloc; first.share()?, last.share()?]?),
    }
}

// The terms, shared, that say what a statement stands for, none where it is refused.
fn needed(alloc: Global, terms: &[KnownTerm], verdict: &Verdict) -> Result<Vec<KnownTerm>, NoMemory>
    ensures has { IfOk result (λ needed. (keyword : Option TokenKind) → HasTermsFor keyword terms.now verdict.now
        → HasTermsFor keyword needed.items verdict.now) }
    ensures same { IfOk result (λ needed. (keyword : Option TokenKind)
        → sense_for keyword needed.items verdict.now ≡ sense_for keyword terms.now verdict.now) }
{
    match verdict {
        Verdict::Accepted | Verdict::Proved => ends(alloc, terms),
        _ => Ok(Vec::new(alloc)),
    }
}

// The first of some terms.
fn first(terms: Vec<KnownTerm>) -> KnownTerm
    requires { 0 < length terms.items }
    ensures { result ≡ first_of terms.items }
{
    match terms.into_iter().next() {
        Some(first) => first,
        None => unreachable!(),
    }
}

// What a generator stands for.
fn generator(term: Term) -> Meaning
    requires { IsGenerator (morphism_of term) }
    ensures { sense_of result ≡ generator_sense (morphism_of term) }
{
    match term {
        Term::Gen { name, dom, cod } => Meaning::Generator(name, Shape { dom, cod }),
        Term::Perm { .. } | Term::Seq(..) | Term::Par(..) => unreachable!(),
    }
}

// The equation of the first and the last of some terms. A single term is shared, since it is both.
fn equation(mut terms: Vec<KnownTerm>) -> Result<Equation, NoMemory>
    requires { 0 < length terms.items }
    ensures { IfOk result (λ equation. equation_of equation ≡ (first_of terms.items, last_of terms.items)) }
{
    let Some(right) = terms.pop() else {
        unreachable!()
    };
    let left = match terms.into_iter().next() {
        Some(left) => left,
        None => right.share()?,
    };
    let (left, right) = (left.into_term(), right.into_term());
    Ok(Equation { left, right })
}

// What an accepted statement with these terms stands for.
fn accepted(keyword: Option<TokenKind>, terms: Vec<KnownTerm>) -> Result<Meaning, NoMemory>
    requires some { 0 < length terms.items }
    requires generator { keyword ≡ Some WordGen → IsGenerator (first_of terms.items) }
    ensures { IfOk result (λ meaning. sense_of meaning ≡ accepted_sense keyword terms.items) }
{
    match keyword {
        Some(TokenKind::WordGen) => Ok(generator(first(terms).into_term())),
        Some(TokenKind::WordLet) => Ok(Meaning::Abbrev(first(terms))),
        _ => Ok(Meaning::Law(equation(terms)?)),
    }
}

// What a statement stands for that is neither accepted nor proved.
fn refused(keyword: Option<TokenKind>) -> Meaning
    ensures { sense_of result ≡ refused_sense keyword }
{
    match keyword {
        Some(TokenKind::WordRewrite) => Meaning::Unproved,
        _ => Meaning::Broken,
    }
}

// What a statement with these terms stands for.
fn meaning(
    keyword: Option<TokenKind>,
    terms: Vec<KnownTerm>,
    verdict: &Verdict,
) -> Result<Meaning, NoMemory>
    requires { HasTermsFor keyword terms.items verdict.now }
    ensures { IfOk result (λ meaning. sense_of meaning ≡ sense_for keyword terms.items verdict.now) }
{
    match verdict {
        Verdict::Accepted => accepted(keyword, terms),
        Verdict::Proved => Ok(Meaning::Law(equation(terms)?)),
        _ => Ok(refused(keyword)),
    }
}

// The name with these bytes.
fn spelled(alloc: Global, bytes: &[u8]) -> Result<Name, NoMemory>
    requires { IsUtf8 bytes.now }
    ensures { IfOk result (λ name. name ≡ bytes.now) }
{
    match str::from_utf8(bytes) {
        Ok(text) => Name::new(alloc, text),
        Err(_) => unreachable!(),
    }
}

// The environment that an accepted import takes in, None for any other statement.
#[tactic(auto, using(crate::proofs::Stands::takes_accepted), unfolding(chyp_env::specs::ImportState::imported_of))]
fn taken_in<'a>(import: &ImportState<'a>, verdict: &Verdict) -> Option<&'a Env>
    ensures there { IfSome result (λ imported. imported_of import.now ≡ there imported.now) }
    ensures accepted { IfSome result (λ imported. verdict.now ≡ Accepted) }
    ensures none { IfNone result (¬ TakesIn (imported_of import.now) verdict.now) }
{
    match import {
        ImportState::Module(imported) if matches!(verdict, Verdict::Accepted) => Some(imported),
        _ => None,
    }
}

// The name that a statement binds, None where it binds nothing.
fn unbound<'a>(chunk: &ChunkView<'a>, env: &Env) -> Option<&'a [u8]>
    ensures name { IfSome result (λ name. declared_name chunk.now ≡ Some name.now) }
    ensures free { IfSome result (λ name. is_bound env.now name.now ≡ false) }
    ensures none { IfNone result ((home : List ℕ) (imported : Imported) (number : ℕ) (verdict : Verdict) → ¬ TakesIn imported verdict
        → Binds (record { scope = record { words = chunk.now; env = env.now }; home = home; imported = imported }) number verdict env.now) }
{
    let name = chunk.declared_name()?;
    match env.lookup(name) {
        Some(_) => None,
        None => Some(name),
    }
}

// Binds a name that is not bound yet.
fn bind_name(
    env: &mut Env,
    module: &Name,
    index: u32,
    name: &[u8],
    meaning: Meaning,
) -> Result<(), NoMemory>
    requires free { is_bound env.old name.now ≡ false }
    requires spelled { IsUtf8 name.now }
    requires sound { IsSoundSense (sense_of meaning) }
    requires closed { FitsBehind env.old
        (record { name = name.now; origin = record { home = «module».now; number = index }; sense = sense_of meaning }) }
    ensures ok { OnOk result (env.new ≡ env.old
        ++ record { name = name.now; origin = record { home = «module».now; number = index }; sense = sense_of meaning } ∷ []) }
    ensures err { OnErr result (env.new ≡ env.old) }
{
    let name = spelled(env.allocator(), name)?;
    let origin = Origin {
        module: module.share()?,
        index,
    };
    env.insert(Entry {
        name,
        origin,
        meaning,
    })
}

/// Binds the names of a statement that has this number in the module of this name, once it has its
/// verdict. `import` is the state of its import, and `body` what it means where nothing refuses it, with
/// terms that are typed and have one type. Where the module is there, what it has from a statement means
/// what the environment has from it.
///
/// An accepted `gen` is bound as a generator, an accepted `let` as its term, an accepted `rule` and a
/// proved `rewrite` as equations from the first term to the last, any other `rewrite` as one that is not
/// proved, and any other statement as broken. An accepted `import` binds each name of its module, behind
/// its prefix, that is not bound yet. Nothing else is bound: no name that is bound already.
///
/// # Errors
///
/// `NoMemory` where what is bound can't be kept; nothing is bound then.
pub fn bind(
    env: &mut Env,
    module: &Name,
    index: u32,
    chunk: &ChunkView<'_>,
    import: &ImportState<'_>,
    body: Option<&Body>,
    verdict: &Verdict,
) -> Result<(), NoMemory>
    requires state { IsImportState (site_of (record { words = chunk.now; env = env.old }) «module».now import.now) }
    requires origins { AgreeOnOrigins env.old (imported_of import.now) }
    requires outcome { IsOutcome
        (site_of (record { words = chunk.now; env = env.old }) «module».now import.now) (option_copied body) verdict.now }
    requires typed { IfSome (option_copied body) (λ body. AreTypedAlike body.terms) }
    ensures ok { OnOk result
        (Binds (site_of (record { words = chunk.now; env = env.old }) «module».now import.now) index verdict.now env.new) }
    ensures err { OnErr result (env.new ≡ env.old) }
{
    if let Some(imported) = taken_in(import, verdict) {
        return bind_import(env, chunk, imported);
    }
    let Some(name) = unbound(chunk, env) else {
        return Ok(());
    };
    chunk.spelled();
    chunk.named();
    env.closed();
    let alloc = env.allocator();
    let terms = needed(alloc, terms(body), verdict)?;
    let meaning = meaning(chunk.keyword(), terms, verdict)?;
    bind_name(env, module, index, name, meaning)
}

/// Binds the names of a statement as [`bind`] does, and moves the terms of its body into the environment
/// in place of sharing them.
///
/// # Errors
///
/// `NoMemory` where what is bound can't be kept; nothing is bound then, and the body is dropped.
pub fn bind_owned(
    env: &mut Env,
    module: &Name,
    index: u32,
    chunk: &ChunkView<'_>,
    import: &ImportState<'_>,
    body: Option<Body>,
    verdict: &Verdict,
) -> Result<(), NoMemory>
    requires state { IsImportState (site_of (record { words = chunk.now; env = env.old }) «module».now import.now) }
    requires origins { AgreeOnOrigins env.old (imported_of import.now) }
    requires outcome { IsOutcome (site_of (record { words = chunk.now; env = env.old }) «module».now import.now) body verdict.now }
    requires typed { IfSome body (λ body. AreTypedAlike body.terms) }
    ensures ok { OnOk result
        (Binds (site_of (record { words = chunk.now; env = env.old }) «module».now import.now) index verdict.now env.new) }
    ensures err { OnErr result (env.new ≡ env.old) }
{
    if let Some(imported) = taken_in(import, verdict) {
        return bind_import(env, chunk, imported);
    }
    let Some(name) = unbound(chunk, env) else {
        return Ok(());
    };
    chunk.spelled();
    chunk.named();
    env.closed();
    let alloc = env.allocator();
    let terms = into_terms(alloc, body);
    let meaning = meaning(chunk.keyword(), terms, verdict)?;
    bind_name(env, module, index, name, meaning)
}
