// The text of a module.
ghost use Rattle.std.specs.Prelude.{◌≡◌, ◌≤◌, IfOk, length};
ghost use Rattle.chyp_lex.specs.Tokens.{text_limit};
ghost use Rattle.chyp_load.specs.Imports.{AreImports};

use crate::{Statements, imports_of};
use chyp_base::{Name, NoMemory, Text};
use std::alloc::Global;
use std::marker::Model;

/// The text of a module with the names of the modules that it imports. Contracts see the text. Its
/// statements are not kept: those of all modules at once would take some gigabytes.
#[derive(Drop)]
pub struct ModuleText {
    text: Text,
    imports: Vec<Name>,
}

impl Model for ModuleText {
    ghost use Rattle.std.specs.Prelude.{List, ℕ, ◌≤◌, length};
    ghost use Rattle.chyp_lex.specs.Tokens.{text_limit};
    ghost use Rattle.chyp_load.specs.Imports.{AreImports};

    ghost Value = { List ℕ };

    ghost view = { λ m. m.text };

    ghost invariant = { λ m. AreImports m.text m.imports.items × (length m.imports.items ≤ text_limit) };
}

impl ModuleText {
    /// The text with what it imports.
    ///
    /// # Errors
    ///
    /// `NoMemory` where its statements or what they import can't be kept.
    pub fn new(alloc: Global, text: Text) -> Result<ModuleText, NoMemory>
        requires { length text ≤ text_limit }
        ensures { IfOk result (λ kept. kept ≡ text) }
    {
        let statements = Statements::new(alloc, text.as_slice())?;
        let imports = imports_of(alloc, &statements)?;
        drop(statements);
        Ok(ModuleText { text, imports })
    }

    /// Its bytes.
    pub fn as_slice(&self) -> &[u8]
        ensures { result.now ≡ self.now }
    {
        self.text.as_slice()
    }

    /// The names of the modules that its statements import, in the order of the statements.
    pub fn imports(&self) -> &[Name]
        ensures imports { AreImports self.now result.now }
        ensures few { length result.now ≤ text_limit }
    {
        &self.imports
    }
}
