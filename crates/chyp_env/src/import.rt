// What an import does with the names of a module.
ghost use Rattle.std.specs.Prelude.{◌≡◌, ◌++◌, ◌∷◌, [], false, IfOk, OnOk, option_copied};
ghost use Rattle.chyp_env.specs.Entry.{entry_of, sense_of};
ghost use Rattle.chyp_env.specs.Environment.{Sense, is_bound};
ghost use Rattle.chyp_env.specs.Import.{all_passed_on, clashes, first_clash, new_in, passed_on, prefixed};
ghost use Rattle.chyp_env.specs.Sound.{IsSoundSense};

use crate::entries::Entries;
use crate::{Entry, Env, Origin};
use chyp_base::{Name, NoMemory};
use std::alloc::Global;
use std::rc::Rc;

/// The first name that an import of the module with this prefix would bind, and that is bound already to
/// another statement. None where there is none, as where nothing is bound.
///
/// # Errors
///
/// `NoMemory` where a name with its prefix can't be kept.
pub fn first_clash(
    env: &Env,
    imported: &Env,
    prefix: Option<&str>,
) -> Result<Option<Name>, NoMemory>
    ensures { IfOk result (λ clash. clash ≡ first_clash env.now (all_passed_on (option_copied prefix.entry) imported.now)) }
{
    if env.count() == 0 {
        return Ok(None);
    }
    let alloc = env.allocator();
    for number in 0..imported.count() {
        let entry = imported.entry(number);
        let name = entry.prefixed(alloc, prefix)?;
        if clashes(env, &name, &entry.origin) {
            return Ok(Some(name));
        }
    }
    Ok(None)
}

// Whether the name is bound already, and to another statement than this.
fn clashes(env: &Env, name: &Name, origin: &Origin) -> bool
    ensures { (sense : Sense) → result ≡ clashes env.now
        (record { name = name.now; origin = record { home = origin.now.module; number = origin.now.index }; sense = sense }) }
{
    match env.lookup(name.as_str().as_bytes()) {
        Some(entry) => entry.origin != *origin,
        None => false,
    }
}

/// The entries of a module as an import with this prefix passes them on, but for those whose names are
/// bound already.
///
/// # Errors
///
/// `NoMemory` where they can't be kept.
pub(crate) fn new_entries(
    env: &Env,
    imported: &Env,
    prefix: Option<&str>,
) -> Result<Entries, NoMemory>
    ensures { IfOk result (λ entries. entries ≡ new_in env.now (all_passed_on (option_copied prefix.entry) imported.now)) }
{
    imported.sound();
    let mut entries = Entries::with_room(env.allocator(), imported.count())?;
    for number in 0..imported.count() {
        add(&mut entries, env, imported.shared_entry(number), prefix)?;
    }
    Ok(entries)
}

// An entry as an import passes it on. Without a prefix it is shared.
fn passed_on(alloc: Global, entry: &Rc<Entry>, prefix: Option<&str>) -> Result<Rc<Entry>, NoMemory>
    ensures { IfOk result (λ passed. entry_of passed.value ≡ passed_on (option_copied prefix.entry) (entry_of entry.now.value)) }
{
    if prefix.is_none() {
        return Ok(entry.clone()?);
    }
    let name = entry.prefixed(alloc, prefix)?;
    Ok(Rc::new(alloc, entry.renamed(name)?)?)
}

// Adds an entry of a module as an import passes it on, unless its name is bound already.
fn add(
    entries: &mut Entries,
    env: &Env,
    entry: &Rc<Entry>,
    prefix: Option<&str>,
) -> Result<(), NoMemory>
    requires fresh { is_bound entries.old (prefixed (option_copied prefix) entry.now.value.name) ≡ false }
    requires sound { IsSoundSense (sense_of entry.now.value.meaning) }
    ensures { OnOk result (entries.new
        ≡ entries.old ++ new_in env.now (passed_on (option_copied prefix.entry) (entry_of entry.now.value) ∷ [])) }
{
    let passed = passed_on(env.allocator(), entry, prefix)?;
    if env.lookup(passed.name.as_str().as_bytes()).is_some() {
        return Ok(());
    }
    entries.insert(passed)
}
