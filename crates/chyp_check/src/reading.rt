// What the modules import, read off their texts.
ghost use Rattle.std.specs.Prelude.{◌≡◌, ◌≤◌, IfOk, IfSome, length};
ghost use Rattle.chyp_lex.specs.Tokens.{text_limit};
ghost use Rattle.chyp_load.specs.Loading.{AreShort};

use crate::Modules;
use chyp_base::{NoMemory, Text};
use chyp_load::{ModuleText, ReadModules};
use std::alloc::Global;

// The text with what it imports.
fn read_text(alloc: Global, text: &Option<Text>) -> Result<Option<ModuleText>, NoMemory>
    requires { IfSome text.now (λ bytes. length bytes ≤ text_limit) }
    ensures { IfOk result (λ read. read ≡ text.now) }
{
    match text {
        Some(text) => {
            let bytes = Vec::from_slice(alloc, text.as_slice())?;
            Ok(Some(ModuleText::new(alloc, Text::from_vec(bytes))?))
        }
        None => Ok(None),
    }
}

/// The same modules, each with what it imports. Their texts are copied.
pub(crate) fn read_all(alloc: Global, modules: &Modules) -> Result<ReadModules, NoMemory>
    requires { AreShort modules.now }
    ensures { IfOk result (λ read. read ≡ modules.now) }
{
    modules.distinct();
    let texts = modules.as_slice();
    let mut list = Vec::with_capacity(alloc, texts.len())?;
    for (name, text) in texts {
        let read = read_text(alloc, text)?;
        list.push((name.share()?, read))?;
    }
    Ok(ReadModules::new(list))
}
