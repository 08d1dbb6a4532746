// A library in memory, which fails at the calls that it is told.
ghost use Rattle.std.specs.Prelude.{◌≤◌, Err, ◌≡◌, ◌↔◌, ℕ, ◌+◌, ◌-◌, ◌^◌, ◌<◌, min, length, IsErrOf, IsErr, Contains, Some, [], option_copied, OnOk, OnErr, take, ◌++◌};
ghost use Rattle.chyp_base.specs.Causes.{LibraryHasCause};
ghost use Rattle.chyp_base.specs.Library.{FindsModule, most_read};
ghost use Rattle.chyp_base.specs.MemLibrary.{text_of};

use crate::limits::MOST_READ;
use crate::{Found, Library, LibraryError, Name, Text};
use std::alloc::AllocError;
use std::marker::Model;

/// Finds modules in a list of names with their texts.
///
/// It tells its texts. It fails at exactly the calls that it is told, and each failure adds one to its
/// count of faults.
#[derive(Drop)]
pub struct MemLibrary {
    modules: Vec<(Name, Text)>,
    failing: Vec<u64>,
    calls: u64,
    faults: u64,
}

impl Model for MemLibrary {
    ghost use Rattle.chyp_base.specs.MemLibrary.{LibraryState};

    ghost Value = { LibraryState };

    ghost view = { λ s. record { modules = s.modules.items; failing = s.failing.items; calls = s.calls; faults = s.faults } };
}

impl MemLibrary {
    /// A library of these modules, with no fault yet. Of modules with one name the first counts.
    ///
    /// The calls whose numbers, from 0, are in `failing` fail. It takes no memory.
    pub fn new(modules: Vec<(Name, Text)>, failing: Vec<u64>) -> MemLibrary
        ensures { result ≡ record { modules = modules.items; failing = failing.items; calls = 0; faults = 0 } }
    {
        MemLibrary {
            modules,
            failing,
            calls: 0,
            faults: 0,
        }
    }
}

// The text of the first module that has this name.
fn find_text<'a>(modules: &'a [(Name, Text)], name: &str) -> Option<&'a Text>
    ensures { option_copied result ≡ text_of modules.now name.now }
{
    modules
        .iter()
        .find(|module| module.0.as_str() == name)
        .map(|module| &module.1)
}

// Appends the first bytes, no more than `most`.
#[tactic(auto, using(std::proofs::lemmas::List::take_min))]
fn append_front(bytes: &[u8], most: usize, into: &mut Vec<u8>) -> Result<(), AllocError>
    ensures ok { OnOk result (into.new.items ≡ into.old.items ++ take most bytes.now) }
    ensures most { length into.new.items ≤ length into.old.items + most }
    ensures err { OnErr result (into.new.items ≡ into.old.items) }
{
    let count = most.min(bytes.len());
    into.extend_from_slice(&bytes[..count])
}

impl Library for MemLibrary {
    ghost texts = { λ s. Some (text_of s.modules) };

    ghost faults = { λ s. s.faults };

    fn read(&mut self, name: &str, into: &mut Vec<u8>) -> Result<Found, LibraryError>
        requires { self.old.faults < 2 ^ 64 - 1 }
        ensures same { Some (text_of self.new.modules) ≡ Some (text_of self.old.modules) }
        ensures bound { length into.new.items ≤ most_read }
        ensures found { FindsModule (Some (text_of self.old.modules)) name.now result into.new.items }
        ensures cause { LibraryHasCause self.old.faults self.new.faults result }
        ensures fails { IsErrOf result LibraryError.Failed ↔ Contains self.old.failing self.old.calls }
        ensures by_one { result ≡ Err LibraryError.Failed → self.new.faults ≡ self.old.faults + 1 }
        ensures calls { self.new.calls ≡ min (self.old.calls + 1) (2 ^ 64 - 1) }
        ensures settings { (self.new.modules ≡ self.old.modules) × (self.new.failing ≡ self.old.failing) }
    {
        into.clear();
        let call = self.calls;
        self.calls = call.saturating_add(1);
        if self.failing.contains(&call) {
            self.faults += 1;
            return Err(LibraryError::Failed);
        }
        let Some(text) = find_text(&self.modules, name) else {
            return Ok(Found::Absent);
        };
        append_front(text.as_slice(), MOST_READ, into).map_err(|_| LibraryError::NoMemory)?;
        Ok(Found::There)
    }
}
