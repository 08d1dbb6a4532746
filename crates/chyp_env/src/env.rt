// What names stand for.
ghost use Rattle.std.specs.Prelude.{◌≡◌, ◌<◌, [], ◌∷◌, ◌++◌, false, length, slice_get, option_copied, IfSome, IfNone, OnOk, OnErr, Some, None};
ghost use Rattle.chyp_lex.specs.Names.{IsNameText};
ghost use Rattle.chyp_env.specs.Closed.{FitsBehind, IsClosed};
ghost use Rattle.chyp_env.specs.Entry.{entry_of, sense_of};
ghost use Rattle.chyp_env.specs.Environment.{binding_of, is_bound};
ghost use Rattle.chyp_env.specs.Import.{AgreeOnOrigins, all_passed_on, first_clash, new_in};
ghost use Rattle.chyp_env.specs.Site.{there};
ghost use Rattle.chyp_env.specs.Sound.{IsSound, IsSoundSense};

use crate::entries::Entries;
use crate::import::new_entries;
use crate::{Entry, PlainWires};
use chyp_base::NoMemory;
use std::alloc::Global;
use std::marker::Model;
use std::rc::Rc;

/// What names stand for, in the order of binding, each name once. Contracts see it as the list of its
/// bindings, of `specs/Environment.antt`, and it is always sound and closed: terms are typed and within
/// the limits on one term, the two of an equation have one type, and generators have few ports; each
/// generator of a term has an entry of its own, and each name is one that a text may use.
#[derive(Drop)]
pub struct Env {
    entries: Entries,
    plain: Option<Rc<PlainWires>>,
}

impl Model for Env {
    ghost use Rattle.std.specs.Prelude.{List};
    ghost use Rattle.std.specs.Coded.{coded_list};
    ghost use Rattle.chyp_env.specs.Coded.{binding_code};
    ghost use Rattle.chyp_env.specs.Environment.{Binding};

    ghost Value = { List Binding };

    ghost coded = { coded_list binding_code };

    ghost use Rattle.chyp_env.specs.Closed.{IsClosed};

    ghost view = { λ e. e.entries };

    ghost invariant = { λ e. IsClosed e.entries };
}

impl Env {
    /// No name. It takes no memory.
    pub fn new(alloc: Global) -> Env
        ensures { result ≡ [] }
    {
        Env {
            entries: Entries::new(alloc),
            plain: None,
        }
    }

    /// What the name stands for, None where it is not bound. It takes constant time on average,
    /// and no memory.
    pub fn lookup(&self, name: &[u8]) -> Option<&Entry>
        ensures some { IfSome result (λ entry. binding_of self.now name.now ≡ Some (entry_of entry.now)) }
        ensures none { IfNone result (binding_of self.now name.now ≡ None) }
    {
        self.entries.get(name)
    }

    /// How many names are bound.
    pub fn count(&self) -> usize
        ensures { result ≡ length self.now }
    {
        self.entries.len()
    }

    /// The entry of this number, in the order of binding. It takes constant time, and no memory.
    pub fn entry(&self, number: usize) -> &Entry
        requires { number < length self.now }
        ensures { slice_get self.now number ≡ Some (entry_of result.now) }
    {
        self.entries.at(number).as_ref()
    }

    /// The same, for another environment to share it.
    pub(crate) fn shared_entry(&self, number: usize) -> &Rc<Entry>
        requires { number < length self.now }
        ensures { slice_get self.now number ≡ Some (entry_of result.now.value) }
    {
        self.entries.at(number)
    }

    /// Every environment is sound.
    pub fn sound(&self)
        ensures { IsSound self.now }
    {
        self.entries.sound();
    }

    /// Every environment is closed.
    pub fn closed(&self)
        ensures { IsClosed self.now }
    {
        let _ = &self.entries;
    }

    /// The plain wires that its terms share, or new ones where no name is bound.
    ///
    /// # Errors
    ///
    /// `NoMemory` where they can't be kept, or can't be shared once more.
    pub fn plain_wires(&self) -> Result<Rc<PlainWires>, NoMemory> {
        match &self.plain {
            Some(plain) => Ok(plain.clone()?),
            None => new_plain(self.allocator()),
        }
    }

    /// Makes the plain wires, where they aren't there.
    fn keep_plain(&mut self) -> Result<(), NoMemory>
        ensures { self.new ≡ self.old }
    {
        if self.plain.is_none() {
            self.plain = Some(new_plain(self.allocator())?);
        }
        Ok(())
    }

    /// The allocator that it was made with.
    pub fn allocator(&self) -> Global {
        self.entries.allocator()
    }

    /// Binds the name of an entry, which is not bound yet. Each generator of the terms that it stands for has
    /// an entry, or the entry is its own. It takes constant time on average.
    ///
    /// # Errors
    ///
    /// `NoMemory` where the entry can't be kept; nothing is bound then.
    pub fn insert(&mut self, entry: Entry) -> Result<(), NoMemory>
        requires fresh { is_bound self.old entry.name ≡ false }
        requires sound { IsSoundSense (sense_of entry.meaning) }
        requires closed { FitsBehind self.old (entry_of entry) }
        ensures ok { OnOk result (self.new ≡ self.old ++ entry_of entry ∷ []) }
        ensures err { OnErr result (self.new ≡ self.old) }
    {
        self.keep_plain()?;
        let entry = Rc::new(self.allocator(), entry)?;
        self.entries.insert(entry)
    }

    /// Binds the names of a module, each behind the prefix if there is one, that aren't bound yet, in their
    /// order. None of them is bound to another statement, and entries of one statement mean the same. Terms
    /// are shared.
    ///
    /// # Errors
    ///
    /// `NoMemory` where they can't be kept; nothing is bound then.
    pub fn import(&mut self, imported: &Env, prefix: Option<&str>) -> Result<(), NoMemory>
        requires origins { AgreeOnOrigins self.old (there imported.now) }
        requires fits { first_clash self.old (all_passed_on (option_copied prefix) imported.now) ≡ None }
        requires prefix { IfSome (option_copied prefix) IsNameText }
        ensures ok { OnOk result (self.new ≡ self.old ++ new_in self.old (all_passed_on (option_copied prefix.entry) imported.now)) }
        ensures err { OnErr result (self.new ≡ self.old) }
    {
        imported.closed();
        let entries = new_entries(self, imported, prefix)?;
        self.keep_plain()?;
        self.entries.append(entries)
    }
}

// The plain wires, for several owners.
fn new_plain(alloc: Global) -> Result<Rc<PlainWires>, NoMemory> {
    Ok(Rc::new(alloc, PlainWires::new(alloc)?)?)
}
