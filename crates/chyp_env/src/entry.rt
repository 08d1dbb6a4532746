// Names with what they stand for.
ghost use Rattle.std.specs.Prelude.{◌≡◌, IfOk, Some, option_copied};
ghost use Rattle.chyp_env.specs.Entry.{entry_of, sense_of};
ghost use Rattle.chyp_env.specs.Import.{prefixed};

use crate::{Meaning, Origin};
use chyp_base::{Name, NoMemory};
use std::alloc::Global;

/// A name with the statement that bound it and with what it stands for. Contracts see it through
/// `entry_of` of `specs/Entry.antt`.
#[derive(Debug, Drop)]
pub struct Entry {
    /// The name, as a text uses it.
    pub name: Name,
    /// The statement that bound it.
    pub origin: Origin,
    /// What it stands for.
    pub meaning: Meaning,
}

impl Entry {
    /// The name as an import with this prefix binds it.
    ///
    /// # Errors
    ///
    /// `NoMemory` where it can't be kept.
    pub fn prefixed(&self, alloc: Global, prefix: Option<&str>) -> Result<Name, NoMemory>
        ensures { IfOk result (λ name. name ≡ prefixed (option_copied prefix.entry) self.now.name) }
    {
        match prefix {
            Some(prefix) => joined(alloc, prefix, &self.name),
            None => self.name.share(),
        }
    }

    /// The entry under another name. It takes constant time.
    ///
    /// # Errors
    ///
    /// `NoMemory` where a part can't be shared once more.
    pub fn renamed(&self, name: Name) -> Result<Entry, NoMemory>
        ensures { IfOk result (λ entry. entry_of entry
            ≡ record { name = name; origin = (entry_of self.now).origin; sense = sense_of self.now.meaning }) }
    {
        Ok(Entry {
            name,
            origin: self.origin.share()?,
            meaning: self.meaning.share()?,
        })
    }
}

// The name behind the prefix and a dot.
fn joined(alloc: Global, prefix: &str, name: &Name) -> Result<Name, NoMemory>
    ensures { IfOk result (λ joined. joined ≡ prefixed (Some prefix.now) name.now) }
{
    let name = name.as_str();
    let text = format!(in alloc; "{prefix}.{name}")?;
    Name::new(alloc, &text)
}
