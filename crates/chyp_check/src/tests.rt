// What statements get over modules.
ghost use Rattle.std.specs.Prelude.{◌≡◌, ◌≤◌, ◌<◌, IfOk, length};
ghost use Rattle.chyp_lex.specs.Names.{NamesAreText};
ghost use Rattle.chyp_lex.specs.Tokens.{AreSpans};

use crate::*;
use chyp_base::{MemLibrary, Name, Steps, Text, Verdict};
use chyp_lex::{Token, each_name_is_text, lex};
use chyp_load::{MainText, ModuleText, ReadModules, load};
use chyp_names::{ChunkView, Env, ImportState};
use std::alloc::Global;
use std::marker::Brand;
use std::sync::ledger::{Blank, Ledger};
use std::test::Fail;

struct Case {
    text: &'static [u8],
    /// The modules that are there.
    modules: &'static [(&'static str, &'static [u8])],
    /// The letters of the verdicts.
    verdicts: &'static str,
}

const CASES: [Case; 12] = [
    // No module at all.
    Case {
        text: b"gen f : 1 -> 1 gen g : 1 -> 1 rewrite x : f * g = g * f",
        modules: &[],
        verdicts: "aad",
    },
    // A diamond: what both sides pass on is one.
    Case {
        text: b"import l import r rewrite x : f = f",
        modules: &[
            ("l", b"import a"),
            ("r", b"import a"),
            ("a", b"gen f : 1 -> 1"),
        ],
        verdicts: "aap",
    },
    // A chain, whose last module is absent.
    Case {
        text: b"import a let k = f",
        modules: &[("a", b"import b gen f : 1 -> 1"), ("b", b"import c")],
        verdicts: "aa",
    },
    Case {
        text: b"import c",
        modules: &[],
        verdicts: "n",
    },
    // Cycles of one, of two and of three modules.
    Case {
        text: b"import a import b import d",
        modules: &[
            ("a", b"import a"),
            ("b", b"import c"),
            ("c", b"import b"),
            ("d", b"import e"),
            ("e", b"import f"),
            ("f", b"import d"),
        ],
        verdicts: "ccc",
    },
    // A module that only reaches a cycle.
    Case {
        text: b"import r let k = f",
        modules: &[("r", b"gen f : 1 -> 1 import a"), ("a", b"import a")],
        verdicts: "aa",
    },
    // One module under two prefixes.
    Case {
        text: b"import a as p import a as q rewrite x : p.f = q.f",
        modules: &[("a", b"gen f : 1 -> 1")],
        verdicts: "aap",
    },
    // A module that passes on another under two prefixes.
    Case {
        text: b"import r rewrite x : p.f = q.f",
        modules: &[
            ("r", b"import a as p import a as q"),
            ("a", b"gen f : 1 -> 1"),
        ],
        verdicts: "ap",
    },
    // Names of two modules that are one behind no prefix.
    Case {
        text: b"import a as p import b rewrite x : p.f = f",
        modules: &[("a", b"gen f : 1 -> 1"), ("b", b"gen f : 1 -> 1")],
        verdicts: "aad",
    },
    // Names of two modules that are one.
    Case {
        text: b"import a import b",
        modules: &[("a", b"gen f : 1 -> 1"), ("b", b"gen f : 1 -> 1")],
        verdicts: "ax",
    },
    // Names of two modules that are one behind a prefix alone.
    Case {
        text: b"import a as p import b as p",
        modules: &[("a", b"gen f : 1 -> 1"), ("b", b"gen f : 1 -> 1")],
        verdicts: "ax",
    },
    // A module that is not UTF-8: what it says behind the bad bytes counts.
    Case {
        text: b"import a rewrite x : f = f",
        modules: &[("a", b"\xFF\xC3 gen f : 1 -> 1")],
        verdicts: "ap",
    },
];

// A letter for each verdict of the table.
fn letter(verdict: &Verdict) -> char {
    match verdict {
        Verdict::Accepted => 'a',
        Verdict::Proved => 'p',
        Verdict::Differs { .. } => 'd',
        Verdict::NoModule { .. } => 'n',
        Verdict::Cycle { .. } => 'c',
        Verdict::Clash { .. } => 'x',
        _ => '?',
    }
}

fn letters(alloc: Global, verdicts: &[Verdict]) -> Result<String, Fail> {
    let mut letters = String::new(alloc);
    for verdict in verdicts {
        letters.push(letter(verdict))?;
    }
    Ok(letters)
}

fn library(alloc: Global, modules: &[(&str, &[u8])]) -> Result<MemLibrary, Fail>
    ensures { IfOk result (λ library. library.faults ≡ 0) }
{
    let mut list = Vec::new(alloc);
    for (name, text) in modules {
        let bytes = Vec::from_slice(alloc, text)?;
        list.push((Name::new(alloc, name)?, Text::from_vec(bytes)))?;
    }
    Ok(MemLibrary::new(list, Vec::new(alloc)))
}

fn text_of(alloc: Global, module: &Option<ModuleText>) -> Result<Option<Text>, Fail>
    ensures { IfOk result (λ text. text ≡ module.now) }
{
    match module {
        Some(module) => {
            let bytes = Vec::from_slice(alloc, module.as_slice())?;
            Ok(Some(Text::from_vec(bytes)))
        }
        None => Ok(None),
    }
}

// The same modules by their texts.
fn texts_of(alloc: Global, modules: &ReadModules) -> Result<Vec<(Name, Option<Text>)>, Fail>
    ensures { IfOk result (λ texts. texts.items ≡ modules.now) }
{
    let entries = modules.as_slice();
    let mut texts = Vec::with_capacity(alloc, entries.len())?;
    for (name, module) in entries {
        let text = text_of(alloc, module)?;
        texts.push((name.share()?, text))?;
    }
    Ok(texts)
}

fn checked<G: Ledger>(
    alloc: Global,
    text: &[u8],
    modules: &[(&str, &[u8])],
    blank: Blank,
) -> Result<Verdicts, Fail>
    requires short { length text.now ≤ 1000 }
    requires name { blank.name ≡ G.name }
    requires parts { blank.parts ≡ G.parts }
    requires some { 0 < G.parts }
{
    let mut steps = Steps::<G>::new(blank);
    let mut library = library(alloc, modules)?;
    let main = MainText::new(alloc, text)?;
    let read = ReadModules::new(load(alloc, &mut library, &main)?);
    read.distinct();
    let modules = Modules::new(texts_of(alloc, &read)?);
    Ok(check_all(alloc, text, &modules, &mut steps)?)
}

#[test]
fn the_statements_of_a_text_have_verdicts_over_its_modules(rt: HostRuntime) -> Result<(), Fail> {
    for case in &CASES {
        let alloc = rt.alloc();
        let verdicts = checked::<Brand>(alloc, case.text, case.modules, Blank::new(1))?;
        let letters = letters(alloc, verdicts.as_slice())?;
        assert_eq!(rt; letters.as_str(), case.verdicts);
    }
    Ok(())
}

// The statement that a text is.
fn lent<'a>(text: &'a [u8], tokens: &'a [Token]) -> ChunkView<'a>
    requires short { length text.now ≤ 1000 }
    requires spans { AreSpans (length text.now) tokens.now }
    requires names { NamesAreText text.now tokens.now }
{
    ChunkView::new(tokens, text, &[])
}

fn verdict_of<G: Ledger>(alloc: Global, text: &[u8], blank: Blank) -> Result<Verdict, Fail>
    requires short { length text.now ≤ 1000 }
    requires name { blank.name ≡ G.name }
    requires parts { blank.parts ≡ G.parts }
    requires some { 0 < G.parts }
{
    each_name_is_text();
    let mut steps = Steps::<G>::new(blank);
    let tokens = lex(alloc, text, b"")?;
    let module = Name::new(alloc, "")?;
    let chunk = lent(text, &tokens);
    let inputs = Inputs {
        module: &module,
        chunk: &chunk,
        env: &Env::new(alloc),
        import: &ImportState::NotImport,
    };
    Ok(check_one(alloc, &inputs, &mut steps)?)
}

#[test]
fn one_statement_has_its_verdict(rt: HostRuntime) -> Result<(), Fail> {
    let verdict = verdict_of::<Brand>(rt.alloc(), b"rewrite x : sw = id * id", Blank::new(1))?;
    assert_eq!(rt; verdict, Verdict::Differs { step: 1 });
    Ok(())
}
