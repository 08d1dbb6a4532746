// The import statements of a text.
ghost use Rattle.std.specs.Prelude.{◌≡◌, ◌↔◌, ◌≤◌, length, IsTrue, Some, IfOk, IfSome, IfNone};
ghost use Rattle.std.specs.Str.{IsUtf8};
ghost use Rattle.chyp_lex.specs.Tokens.{text_limit};
ghost use Rattle.chyp_lex.specs.declared.token.TokenKind.{TokenKind};
ghost use Rattle.chyp_syntax.specs.Statement.{statement_of as tree_of_ast};
ghost use Rattle.chyp_syntax.specs.Words.{keyword_in};
ghost use Rattle.chyp_modules.specs.Import.{Imports, ImportsNothing};
ghost use Rattle.chyp_load.specs.Imports.{AreImports};
ghost use Rattle.chyp_load.specs.Imported.{imported_word};

use crate::Statements;
use chyp_base::{Name, NoMemory};
use chyp_env::ChunkView;
use chyp_lex::{TokenKind, every_text_has_one_token_list};
use chyp_syntax::{Ast, ParseError, each_sentence_has_one_tree, each_text_has_one_list_of_chunks};
use std::alloc::Global;

// The number of the word that names the module of an import.
fn imported_word(ast: &Ast) -> Option<u32>
    ensures { result ≡ imported_word (tree_of_ast ast.now) }
{
    match ast {
        Ast::ImportDecl { module, .. } => Some(*module),
        _ => None,
    }
}

// The name with these bytes.
fn name_of(alloc: Global, bytes: &[u8]) -> Result<Name, NoMemory>
    requires { IsUtf8 bytes.now }
    ensures { IfOk result (λ name. name ≡ bytes.now) }
{
    match std::str::from_utf8(bytes) {
        Ok(name) => Name::new(alloc, name),
        Err(_) => unreachable!(),
    }
}

// Whether the first word of a statement is `import`.
fn begins_with_import(chunk: &ChunkView<'_>) -> bool
    ensures { IsTrue result ↔ (keyword_in chunk.now ≡ Some TokenKind.WordImport) }
{
    matches!(chunk.keyword(), Some(TokenKind::WordImport))
}

/// The name of the module that a statement imports, None where it is no import.
///
/// # Errors
///
/// `NoMemory` where its tree or the name can't be kept.
pub fn imported_name(alloc: Global, chunk: &ChunkView<'_>) -> Result<Option<Name>, NoMemory>
    ensures some { IfOk result (λ name. IfSome name (Imports chunk.now)) }
    ensures none { IfOk result (λ name. IfNone name (ImportsNothing chunk.now)) }
{
    each_sentence_has_one_tree();
    chunk.spelled();
    if !begins_with_import(chunk) {
        return Ok(None);
    }
    let ast = match chunk.parse(alloc) {
        Ok(ast) => ast,
        Err(ParseError::Syntax { .. }) => return Ok(None),
        Err(ParseError::NoMemory) => return Err(NoMemory),
    };
    let Some(word) = imported_word(&ast) else {
        return Ok(None);
    };
    Ok(Some(name_of(alloc, chunk.bytes_at(word))?))
}

/// The names of the modules that the statements of a text import, in the order of the statements.
///
/// # Errors
///
/// `NoMemory` where a tree or a name can't be kept.
pub fn imports_of(alloc: Global, statements: &Statements<'_>) -> Result<Vec<Name>, NoMemory>
    ensures imports { IfOk result (λ names. AreImports statements.now.text names.items) }
    ensures few { IfOk result (λ names. length names.items ≤ text_limit) }
{
    every_text_has_one_token_list();
    each_text_has_one_list_of_chunks();
    each_sentence_has_one_tree();
    statements.cut();
    let mut names = Vec::new(alloc);
    for number in 0..statements.count() {
        let statement = statements.statement(number);
        if let Some(name) = imported_name(alloc, &statement)? {
            names.push(name)?;
        }
    }
    Ok(names)
}
