// What generators are called.
ghost use Rattle.std.specs.Prelude.{◌≡◌};
ghost use Rattle.chyp_print.specs.Printing.{Naming};

use chyp_base::{Name, Sorts};

/// The names of generators in a text.
pub trait Names {
    /// The text of each generator.
    ghost naming: { Self → Naming };

    /// The text of a generator, by its name in terms and its type.
    fn name_of<'a>(&'a self, name: &'a Name, dom: &Sorts, cod: &Sorts) -> &'a str
        ensures { result.now ≡ naming self.now name.now dom.now cod.now };
}
