// Generators that are called as in terms.
ghost use Rattle.std.specs.Prelude.{◌≡◌};

use crate::Names;
use chyp_base::{Name, Sorts};

/// Each generator is called by its own name, as it is in a text that imports nothing.
#[derive(Clone, Copy, Debug)]
pub struct OwnNames;

impl Names for OwnNames {
    ghost naming = { λ _ name dom cod. name };

    fn name_of<'a>(&'a self, name: &'a Name, _dom: &Sorts, _cod: &Sorts) -> &'a str {
        name.as_str()
    }
}
