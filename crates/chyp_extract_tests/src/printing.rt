// Terms that are printed, and the texts read back.
ghost use Rattle.std.specs.Prelude.{◌≡◌, [], ◌∷◌, IfOk};
ghost use Rattle.chyp_base.specs.Sort.{plain};
ghost use Rattle.chyp_term.specs.Morphism.{permutation};
ghost use Rattle.chyp_term.specs.Term.{morphism_of};

use crate::reading::{bound, read};
use crate::words::{graph, is_good, permutation, term, told};
use chyp_base::{Sort, Sorts, Text};
use chyp_env::Env;
use chyp_extractor::extract;
use chyp_print::{OwnNames, print, print_term};
use chyp_term::{Perm, Places, Term};
use std::alloc::Global;
use std::rc::Rc;
use std::test::Fail;

/// A text as a string.
pub(crate) fn string(text: Text) -> Result<String, Fail> {
    match String::from_utf8(text.into_vec()) {
        Ok(text) => Ok(text),
        Err(_) => Err(Fail::new("no text")),
    }
}

/// The text of a term.
fn printed(alloc: Global, term: &Term) -> Result<String, Fail> {
    string(print(alloc, term, &OwnNames)?)
}

/// Fails unless the term has this text, and the text is read as what these words tell.
fn check(alloc: Global, env: &Env, term: &Term, wanted: (&str, &str)) -> Result<(), Fail> {
    let text = printed(alloc, term)?;
    if text.as_str() != wanted.0 {
        return Err(Fail::new("another text"));
    }
    let back = read(alloc, env, &text)?;
    if back.as_str() != wanted.1 {
        return Err(Fail::new("another term"));
    }
    Ok(())
}

/// Fails unless the term has this text, and the text is read as the term.
fn check_itself(alloc: Global, env: &Env, term: &Term, text: &str) -> Result<(), Fail> {
    let back = told(alloc, term)?;
    check(alloc, env, term, (text, back.as_str()))
}

/// The generators of the words.
const GENERATORS: [(&str, usize, usize); 7] = [
    ("f", 1, 1),
    ("g", 1, 1),
    ("m", 2, 1),
    ("u", 0, 1),
    ("s", 0, 0),
    ("t", 0, 0),
    ("p.f", 1, 1),
];

// Terms with their texts, and how the texts are read.
const TERMS: [(&str, &str, &str); 18] = [
    ("f", "f", "f"),
    ("p.f f ;", "p.f ; f", "(p.f ; f)"),
    // Chains of any bracketing are flat, and are halved where they are read.
    ("f f ; f ;", "f ; f ; f", "(f ; (f ; f))"),
    ("f f f ; ;", "f ; f ; f", "(f ; (f ; f))"),
    ("f f * f *", "f * f * f", "(f * (f * f))"),
    ("f f f * *", "f * f * f", "(f * (f * f))"),
    ("f f ; f f ; ;", "f ; f ; f ; f", "((f ; f) ; (f ; f))"),
    ("f g * f g * ;", "f * g ; f * g", "((f * g) ; (f * g))"),
    ("f f ; g *", "(f ; f) * g", "((f ; f) * g)"),
    ("g f f ; *", "g * (f ; f)", "(g * (f ; f))"),
    (
        "g f f g * sw ; m ; * *",
        "g * f * (f * g ; sw ; m)",
        "(g * (f * ((f * g) ; ([1, 0] ; m))))",
    ),
    ("id0", "id0", "[]"),
    ("id", "id", "[0]"),
    ("sw", "sw", "[1, 0]"),
    ("id2", "sw[0,1]", "[0, 1]"),
    ("turn", "sw[1,2,0]", "[1, 2, 0]"),
    ("f id *", "f * id", "(f * [0])"),
    ("s id0 ; t *", "(s ; id0) * t", "((s ; []) * t)"),
];

/// Fails unless these terms have their texts, which are read so.
fn check_terms(alloc: Global, env: &Env) -> Result<(), Fail> {
    for (words, text, back) in TERMS {
        check(alloc, env, &term(alloc, words)?, (text, back))?;
    }
    Ok(())
}

#[test]
fn printed_terms_are_read_back(rt: HostRuntime) -> Result<(), Fail> {
    let env = bound(rt.alloc(), &GENERATORS)?;
    let checked = check_terms(rt.alloc(), &env);
    drop(env);
    checked
}

// Terms whose graphs are read back as terms with these texts.
const EXTRACTED: [(&str, &str); 8] = [
    ("f g * sw ;", "f * g ; sw"),
    ("sw g f * ;", "sw ; g * f"),
    ("id0", "id0"),
    ("f id *", "f * id"),
    ("f s *", "f * s"),
    ("sw sw ;", "id * id"),
    ("id f *", "sw ; f * id ; sw"),
    ("turn f g * f * ; m g * ;", "sw[1,2,0] ; f * g * f ; m * g"),
];

/// Fails unless these are the texts, and each is read as the very term.
fn check_extracted(alloc: Global, env: &Env) -> Result<(), Fail> {
    for (words, text) in EXTRACTED {
        let term = extract(alloc, &graph(alloc, words)?)?;
        check_itself(alloc, env, &term, text)?;
    }
    Ok(())
}

#[test]
fn extracted_terms_are_read_back_themselves(rt: HostRuntime) -> Result<(), Fail> {
    let env = bound(rt.alloc(), &GENERATORS)?;
    let checked = check_extracted(rt.alloc(), &env);
    drop(env);
    checked
}

/// A text so many times.
fn repeated(alloc: Global, text: &str, times: u32) -> Result<String, Fail> {
    let mut all = String::new(alloc);
    for _ in 0..times {
        all.push_str(text)?;
    }
    Ok(all)
}

/// Fails unless 255 joins in one another are read back, each other one in parentheses.
fn check_deep(alloc: Global, env: &Env) -> Result<(), Fail> {
    let tail = repeated(alloc, " s ; t *", 127)?;
    let open = repeated(alloc, "(", 127)?;
    let rest = repeated(alloc, " ; s) * t", 127)?;
    let words = format!(in alloc; "s{tail} s ;")?;
    let text = format!(in alloc; "{open}s{rest} ; s")?;
    check_itself(alloc, env, &term(alloc, &words)?, &text)
}

#[test]
fn deep_terms_are_read_back(rt: HostRuntime) -> Result<(), Fail> {
    let env = bound(rt.alloc(), &GENERATORS)?;
    let checked = check_deep(rt.alloc(), &env);
    drop(env);
    checked
}

/// Fails unless a term of this name twice is read back.
fn check_name(alloc: Global, env: &Env, name: &str) -> Result<(), Fail> {
    let words = format!(in alloc; "{name} {name} ;")?;
    let text = format!(in alloc; "{name} ; {name}")?;
    check_itself(alloc, env, &term(alloc, &words)?, &text)
}

#[test]
fn long_names_are_read_back(rt: HostRuntime) -> Result<(), Fail> {
    let alloc = rt.alloc();
    // 100,000 bytes.
    let name = repeated(alloc, "long", 25_000)?;
    let env = bound(alloc, &[(name.as_str(), 1, 1)])?;
    let checked = check_name(alloc, &env, &name);
    drop(env);
    checked
}

#[test]
fn many_places_are_printed(rt: HostRuntime) -> Result<(), Fail> {
    let alloc = rt.alloc();
    let mut places = Vec::new(alloc);
    for place in 0..10 {
        places.push(9 - place)?;
    }
    let text = printed(alloc, &permutation(alloc, places)?)?;
    assert_eq!(rt; text.as_str(), "sw[9,8,7,6,5,4,3,2,1,0]");
    Ok(())
}

/// Two plain wires.
fn two(alloc: Global) -> Result<Sorts, Fail>
    ensures { IfOk result (λ sorts. sorts ≡ plain ∷ plain ∷ []) }
{
    let mut sorts = Vec::new(alloc);
    sorts.push(Sort::plain(alloc)?)?;
    sorts.push(Sort::plain(alloc)?)?;
    Ok(Sorts::from_vec(sorts))
}

/// The permutation that crosses two wires.
fn crossing(alloc: Global) -> Result<Perm, Fail>
    ensures { IfOk result (λ perm. perm ≡ 1 ∷ 0 ∷ []) }
{
    match Perm::new(Places::from_vec(Vec::from_array(alloc, [1, 0])?)) {
        Some(perm) => Ok(perm),
        None => Err(Fail::new("no permutation")),
    }
}

/// Two wires that cross.
fn crossed(alloc: Global) -> Result<Term, Fail>
    ensures { IfOk result (λ term. morphism_of term ≡ permutation (plain ∷ plain ∷ []) (1 ∷ 0 ∷ [])) }
{
    let sorts = two(alloc)?;
    let perm = Rc::new(alloc, crossing(alloc)?)?;
    Ok(Term::Perm { sorts, perm })
}

/// The text of two wires that cross, with the names of an environment.
fn printed_in(alloc: Global, env: &Env) -> Result<String, Fail> {
    let term = crossed(alloc)?;
    if !is_good(alloc, &term) {
        return Err(Fail::new("no type"));
    }
    string(print_term(alloc, &term, env)?)
}

#[test]
fn a_term_is_printed_with_the_names_of_an_environment(rt: HostRuntime) -> Result<(), Fail> {
    let env = bound(rt.alloc(), &GENERATORS)?;
    let text = printed_in(rt.alloc(), &env);
    drop(env);
    assert_eq!(rt; text?.as_str(), "sw");
    Ok(())
}
