// The first names of generators in an environment.
ghost use Rattle.std.specs.Prelude.{◌≡◌, option_map, IfOk};
ghost use Rattle.chyp_env.specs.Entry.{entry_of, sense_of};
ghost use Rattle.chyp_print.specs.Environments.{first_binding, first_names, is_generator};
ghost use Rattle.chyp_print.specs.FirstNames.{IsIndex, IsNoted};

use crate::Names;
use chyp_base::{Name, NoMemory, Sorts};
use chyp_env::{Entry, Env, Meaning};
use indexmap::IndexMap;
use std::alloc::Global;
use std::marker::Model;

/// An environment, with the numbers of the first entries of its generators. Contracts see it as the
/// environment.
#[derive(Drop)]
pub(crate) struct FirstNames<'a> {
    env: &'a Env,
    numbers: IndexMap<Vec<u8>, usize>,
}

impl<'a> Model for FirstNames<'a> {
    ghost use Rattle.std.specs.Prelude.{List};
    ghost use Rattle.std.specs.Coded.{coded_list};
    ghost use Rattle.chyp_env.specs.Coded.{binding_code};
    ghost use Rattle.chyp_env.specs.Environment.{Binding};
    ghost use Rattle.chyp_print.specs.FirstNames.{IsIndex};

    ghost Value = { List Binding };

    ghost coded = { coded_list binding_code };

    ghost view = { λ names. names.env.now };

    ghost invariant = { λ names. IsIndex names.env.now names.numbers.entries };
}

impl<'a> FirstNames<'a> {
    /// The first names of an environment, which is gone through once.
    pub(crate) fn of(alloc: Global, env: &'a Env) -> Result<FirstNames<'a>, NoMemory>
        ensures { IfOk result (λ names. names ≡ env.now) }
    {
        let numbers = numbers_of(alloc, env)?;
        Ok(FirstNames { env, numbers })
    }

    /// The first entry whose name stands for a generator. An entry of a generator of that name and of
    /// another type is passed over.
    fn first(&self, name: &Name, dom: &Sorts, cod: &Sorts) -> Option<&'a Entry>
        ensures { option_map (λ entry. entry_of entry.now) result ≡ first_binding self.now name.now dom.now cod.now }
    {
        let Some(first) = self.numbers.get(name.as_str().as_bytes()) else {
            return None;
        };
        for number in *first..self.env.count() {
            let entry = self.env.entry(number);
            if stands_for(entry, name, dom, cod) {
                return Some(entry);
            }
        }
        None
    }
}

impl<'e> Names for FirstNames<'e> {
    ghost naming = { first_names };

    fn name_of<'a>(&'a self, name: &'a Name, dom: &Sorts, cod: &Sorts) -> &'a str {
        match self.first(name, dom, cod) {
            Some(entry) => entry.name.as_str(),
            None => "",
        }
    }
}

/// Whether the name of an entry stands for a generator.
fn stands_for(entry: &Entry, name: &Name, dom: &Sorts, cod: &Sorts) -> bool
    ensures { result ≡ is_generator name.now dom.now cod.now (sense_of entry.now.meaning) }
{
    match &entry.meaning {
        Meaning::Generator(other, shape) => {
            *name == *other && *dom == shape.dom && *cod == shape.cod
        }
        _ => false,
    }
}

/// The numbers of the first entries of the generators of an environment, by their names in terms.
fn numbers_of(alloc: Global, env: &Env) -> Result<IndexMap<Vec<u8>, usize>, NoMemory>
    ensures { IfOk result (λ numbers. IsIndex env.now numbers.entries) }
{
    let mut numbers = IndexMap::new(alloc);
    for number in 0..env.count() {
        note(&mut numbers, &env.entry(number).meaning, number)?;
    }
    Ok(numbers)
}

/// Notes the number of an entry of a generator, unless an entry before it is of one of the same name.
fn note(
    numbers: &mut IndexMap<Vec<u8>, usize>,
    meaning: &Meaning,
    number: usize,
) -> Result<(), NoMemory>
    ensures { IfOk result (λ _. IsNoted (sense_of meaning.now) number numbers.old.entries numbers.new.entries) }
{
    let Meaning::Generator(name, _) = meaning else {
        return Ok(());
    };
    let name = name.as_str().as_bytes();
    if numbers.get(name).is_some() {
        return Ok(());
    }
    let key = Vec::from_slice(*numbers.allocator(), name)?;
    numbers.insert(key, number)?;
    Ok(())
}
