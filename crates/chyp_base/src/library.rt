// Where modules come from.
ghost use Rattle.std.specs.Prelude.{◌≡◌, List, ℕ, ◌<◌, ◌≤◌, ◌-◌, ◌^◌, Option, length};
ghost use Rattle.chyp_base.specs.Causes.{LibraryHasCause};
ghost use Rattle.chyp_base.specs.Library.{FindsModule, most_read};

use crate::{Found, LibraryError};

/// Finds the texts of modules by their names.
///
/// A library counts its faults, and the count never falls. No call changes the texts.
pub trait Library {
    /// The text of each name that it has, where it tells them.
    ghost texts: { Self → Option (List ℕ → Option (List ℕ)) };

    /// How often it has failed.
    ghost faults: { Self → ℕ };

    /// Reads the module of this name: puts the first 1,048,577 bytes of its text, or all of a
    /// shorter text, in the place of what `into` holds.
    ///
    /// The answer is `Absent` exactly where there is no such module, where the library tells its
    /// texts. After `Absent` and after an error `into` is empty.
    ///
    /// # Errors
    ///
    /// `Failed` only where the count of faults rose in this call. `NoMemory` where `into` can't grow;
    /// the count of faults stays then.
    fn read(&mut self, name: &str, into: &mut Vec<u8>) -> Result<Found, LibraryError>
        requires { faults self.old < 2 ^ 64 - 1 }
        ensures same { texts self.new ≡ texts self.old }
        ensures bound { length into.new.items ≤ most_read }
        ensures found { FindsModule (texts self.old) name.now result into.new.items }
        ensures cause { LibraryHasCause (faults self.old) (faults self.new) result };
}
