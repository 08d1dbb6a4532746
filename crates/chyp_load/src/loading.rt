// Reads all modules that a text reaches.
ghost use Rattle.std.specs.Prelude.{◌≡◌, ◌≤◌, ◌<◌, ◌-◌, ◌^◌, ◌++◌, List, ℕ, Contains, length, Some, IfOk, IfSome, OnOk, IsErrOf};
ghost use Rattle.chyp_lex.specs.Tokens.{text_limit};
ghost use Rattle.chyp_modules.specs.Checking.{AreDistinct, Gives, too_long};
ghost use Rattle.chyp_load.specs.Imports.{ImportsSome};
ghost use Rattle.chyp_load.specs.Loading.{AreRead, AreShort, IsLongModule, IsOneMore, LoadHasCause, ListsAll, WantsMore, names_of};

use crate::module_list::ModuleList;
use crate::{LoadError, MainText, ModuleText};
use chyp_base::{Found, Library, LibraryError, MAX_TEXT_LEN, Name, NoMemory, Text};
use std::alloc::Global;

// What the library has of a name.
fn read_module<L: Library>(
    alloc: Global,
    library: &mut L,
    name: &Name,
) -> Result<Option<Text>, LoadError>
    requires { L.faults library.old < 2 ^ 64 - 1 }
    ensures same { L.texts library.new ≡ L.texts library.old }
    ensures told { IfOk result (λ text. IfSome (L.texts library.old) (λ texts. text ≡ texts name.now)) }
    ensures short { IfOk result (λ text. IfSome text (λ bytes. length bytes ≤ text_limit)) }
    ensures long { IsErrOf result LoadError.TooLong → IfSome (L.texts library.old) (λ texts.
        (whole : List ℕ) × (texts name.now ≡ Some whole) × (text_limit < length whole)) }
    ensures cause { LoadHasCause (L.faults library.old) (L.faults library.new) result }
{
    let mut bytes = Vec::new(alloc);
    match library.read(name.as_str(), &mut bytes) {
        Ok(Found::Absent) => Ok(None),
        Ok(Found::There) if bytes.len() > MAX_TEXT_LEN => Err(LoadError::TooLong),
        Ok(Found::There) => Ok(Some(Text::from_vec(bytes))),
        Err(LibraryError::Failed) => Err(LoadError::Failed),
        Err(LibraryError::NoMemory) => Err(LoadError::NoMemory),
    }
}

// The text with what it imports.
fn with_imports(alloc: Global, text: Option<Text>) -> Result<Option<ModuleText>, NoMemory>
    requires { IfSome text (λ bytes. length bytes ≤ text_limit) }
    ensures { IfOk result (λ kept. kept ≡ text) }
{
    match text {
        Some(text) => Ok(Some(ModuleText::new(alloc, text)?)),
        None => Ok(None),
    }
}

// Puts these names behind the others that are wanted.
fn want(names: &[Name], wanted: &mut Vec<Name>) -> Result<(), NoMemory>
    ensures { OnOk result (wanted.new.items ≡ wanted.old.items ++ names.now) }
{
    for name in names {
        wanted.push(name.share()?)?;
    }
    Ok(())
}

// These names once more.
fn shared(alloc: Global, names: &[Name]) -> Result<Vec<Name>, NoMemory>
    ensures { IfOk result (λ shares. shares.items ≡ names.now) }
{
    let mut shares = Vec::new(alloc);
    want(names, &mut shares)?;
    Ok(shares)
}

// Puts the names of what a text imports behind the others that are wanted.
fn want_imports(text: &Option<ModuleText>, wanted: &mut Vec<Name>) -> Result<(), NoMemory>
    ensures { OnOk result (WantsMore text.now wanted.old.items wanted.new.items) }
{
    match text {
        Some(text) => want(text.imports(), wanted),
        None => Ok(()),
    }
}

// Reads a module that wasn't read yet. The names that it imports go behind the others that are wanted.
fn load_module<L: Library>(
    alloc: Global,
    library: &mut L,
    name: Name,
    modules: &mut ModuleList,
    wanted: &mut Vec<Name>,
) -> Result<(), LoadError>
    requires faults { L.faults library.old < 2 ^ 64 - 1 }
    requires fresh { ¬ Contains (names_of modules.old) name }
    ensures same { L.texts library.new ≡ L.texts library.old }
    ensures more { OnOk result (IsOneMore (L.texts library.old) name modules.old modules.new wanted.old.items wanted.new.items) }
    ensures long { IsErrOf result LoadError.TooLong → IfSome (L.texts library.old) (λ texts. IsLongModule texts name modules.old) }
    ensures cause { LoadHasCause (L.faults library.old) (L.faults library.new) result }
{
    let found = read_module(alloc, library, &name)?;
    let text = with_imports(alloc, found)?;
    want_imports(&text, wanted)?;
    modules.sound();
    modules.push(name, text)
}

/// Reads each module that a text reaches by import statements: its name, with its text or with none
/// where the library has no such module. Each is asked for once, and those that the text itself imports
/// come first.
///
/// # Errors
///
/// `Failed` only where the library's count of faults rose, and where the text imports something.
/// `TooLong` where a module that is reached passes the limit of a text, or more than 64 are there.
/// `NoMemory` may come at any point.
pub fn load<L: Library>(
    alloc: Global,
    library: &mut L,
    main: &MainText<'_>,
) -> Result<Vec<(Name, Option<ModuleText>)>, LoadError>
    requires faults { L.faults library.old < 2 ^ 64 - 1 }
    ensures same { L.texts library.new ≡ L.texts library.old }
    ensures distinct { IfOk result (λ modules. AreDistinct (names_of modules.items)) }
    ensures within { IfOk result (λ modules. AreShort modules.items) }
    ensures whole { IfOk result (λ modules. ListsAll main.now.text modules.items) }
    ensures read { IfOk result (λ modules. AreRead (L.texts library.old) main.now.text modules.items) }
    ensures long { IsErrOf result LoadError.TooLong → IfSome (L.texts library.old) (λ texts. Gives texts main.now.text too_long) }
    ensures fits { IfOk result (λ _. IfSome (L.texts library.old) (λ texts. ¬ Gives texts main.now.text too_long)) }
    ensures wanted { IsErrOf result LoadError.Failed → ImportsSome main.now.text }
    ensures cause { LoadHasCause (L.faults library.old) (L.faults library.new) result }
{
    main.statements().cut();
    let mut modules = ModuleList::new(alloc);
    let mut wanted = shared(alloc, main.imports())?;
    let mut next = 0;
    while next < wanted.len() {
        let name = wanted[next].share()?;
        next += 1;
        if !modules.contains(&name) {
            load_module(alloc, library, name, &mut modules, &mut wanted)?;
        }
    }
    modules.sound();
    Ok(modules.into_vec()?)
}
