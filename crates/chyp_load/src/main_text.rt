// The text that a run begins with.
ghost use Rattle.std.specs.Prelude.{◌≡◌, ◌≤◌, IfOk, length};
ghost use Rattle.chyp_lex.specs.Tokens.{text_limit};
ghost use Rattle.chyp_load.specs.Imports.{AreImports};

use crate::{Statements, imports_of};
use chyp_base::{Name, NoMemory};
use std::alloc::Global;
use std::marker::Model;

/// A text with its statements, and the names of the modules that these import. Contracts see its
/// statements.
#[derive(Drop)]
pub struct MainText<'a> {
    statements: Statements<'a>,
    imports: Vec<Name>,
}

impl<'a> Model for MainText<'a> {
    ghost use Rattle.std.specs.Prelude.{◌≤◌, length};
    ghost use Rattle.chyp_lex.specs.Tokens.{text_limit};
    ghost use Rattle.chyp_load.specs.Imports.{AreImports};
    ghost use Rattle.chyp_load.specs.Statements.{CutText};

    ghost Value = { CutText };

    ghost view = { λ m. m.statements };

    ghost invariant = { λ m. AreImports m.statements.text m.imports.items × (length m.imports.items ≤ text_limit) };
}

impl<'a> MainText<'a> {
    /// The text with its statements.
    ///
    /// # Errors
    ///
    /// `NoMemory` where its statements or what they import can't be kept.
    pub fn new(alloc: Global, text: &'a [u8]) -> Result<MainText<'a>, NoMemory>
        requires { length text.now ≤ text_limit }
        ensures { IfOk result (λ main. main.text ≡ text.now) }
    {
        let statements = Statements::new(alloc, text)?;
        let imports = imports_of(alloc, &statements)?;
        Ok(MainText {
            statements,
            imports,
        })
    }

    /// Its statements.
    pub fn statements(&self) -> &Statements<'a>
        ensures { result.now ≡ self.now }
    {
        &self.statements
    }

    /// The names of the modules that its statements import, in the order of the statements.
    pub fn imports(&self) -> &[Name]
        ensures imports { AreImports self.now.text result.now }
        ensures few { length result.now ≤ text_limit }
    {
        &self.imports
    }
}
