// Each public call once, with ample memory.
use chyp_lex::{Token, lex};
use chyp_syntax::{
    Chunk, ParseError, chunks, each_beginning_of_a_prefix_is_one,
    each_chunk_is_a_sentence_or_fails, each_sentence_has_one_tree,
    each_text_has_one_list_of_chunks, parse,
};
use std::alloc::Global;
use std::test::Fail;

/// The tokens of a short text.
fn tokens(alloc: Global, text: &str) -> Result<Vec<Token>, Fail> {
    if text.len() > 1000 {
        return Err(Fail::new("too long"));
    }
    Ok(lex(alloc, text.as_bytes(), b"")?)
}

/// The tree of a sentence, or the place where it fails to be one.
fn told(alloc: Global, text: &str) -> Result<String, Fail> {
    let tokens = tokens(alloc, text)?;
    if tokens.len() > 1000 {
        return Err(Fail::new("too many tokens"));
    }
    match parse(alloc, &tokens) {
        Ok(ast) => Ok(format!(in alloc; "{ast:?}")?),
        Err(ParseError::Syntax { token }) => Ok(format!(in alloc; "fails at {token}")?),
        Err(ParseError::NoMemory) => Err(Fail::new("no memory")),
    }
}

#[test]
fn a_text_is_cut_at_its_keywords(rt: HostRuntime) -> Result<(), Fail> {
    let tokens = tokens(rt.alloc(), "x gen f : 1 -> 1")?;
    if tokens.len() > 1000 {
        return Err(Fail::new("too many tokens"));
    }
    let cut = chunks(rt.alloc(), &tokens)?;
    let stray = Chunk { first: 0, count: 1 };
    let statement = Chunk { first: 1, count: 6 };
    assert_eq!(rt; cut.as_slice(), [stray, statement].as_slice());
    Ok(())
}

#[test]
fn statements_have_their_trees(rt: HostRuntime) -> Result<(), Fail> {
    for (text, tree) in [
        (
            "rewrite n : sw ; sw = id * id",
            "RewriteDecl { name: 1, first: Chain { parts: Items { items: \
                [Swap { token: 3, places: None }, Swap { token: 5, places: None }] }, \
                semis: Items { items: [4] } }, steps: Items { items: [StepAst { equals: 6, \
                goal: Some(Beside(Items { items: [Wire, Wire] })), reason: Plain }] } }",
        ),
        (
            "rewrite a : f = ? by simp(r, -r)",
            "RewriteDecl { name: 1, first: Named(3), steps: Items { items: [StepAst { \
                equals: 4, goal: None, reason: Simp(Items { items: \
                [SignedAst { minus: false, name: 9 }, SignedAst { minus: true, name: 12 }] }) }] } }",
        ),
        (
            "let x = f * g ; sw[0]",
            "LetDecl { name: 1, term: Chain { parts: Items { items: [Beside(Items { items: \
                [Named(3), Named(5)] }), Swap { token: 7, places: Some(Items { items: [0] }) }] }, \
                semis: Items { items: [6] } } }",
        ),
        ("import m as p", "ImportDecl { module: 1, prefix: Some(3) }"),
    ] {
        assert_eq!(rt; told(rt.alloc(), text)?.as_str(), tree);
    }
    Ok(())
}

#[test]
fn a_chunk_fails_at_its_place(rt: HostRuntime) -> Result<(), Fail> {
    for (text, place) in [
        ("gen f :", "fails at 3"),
        ("rewrite a : f =", "fails at 5"),
        ("rewrite a : f = ? = f", "fails at 6"),
    ] {
        assert_eq!(rt; told(rt.alloc(), text)?.as_str(), place);
    }
    Ok(())
}

#[test]
fn laws_over_all_tokens_are_called(_: HostRuntime) {
    each_text_has_one_list_of_chunks();
    each_chunk_is_a_sentence_or_fails();
    each_beginning_of_a_prefix_is_one();
    each_sentence_has_one_tree();
}

/// `let x =` and a name in parentheses.
fn nested(alloc: Global, depth: usize) -> Result<String, Fail> {
    let open = "(".repeat(alloc, depth)?;
    let close = ")".repeat(alloc, depth)?;
    Ok(format!(in alloc; "let x = {open}f{close}")?)
}

#[test]
fn parentheses_nest_256_deep(rt: HostRuntime) -> Result<(), Fail> {
    let alloc = rt.alloc();
    let deep = nested(alloc, 256)?;
    let tree = "LetDecl { name: 1, term: Named(259) }";
    assert_eq!(rt; told(alloc, &deep)?.as_str(), tree);
    let deeper = nested(alloc, 257)?;
    assert_eq!(rt; told(alloc, &deeper)?.as_str(), "fails at 259");
    Ok(())
}
