// Where bytes come from.
ghost use Rattle.std.specs.Prelude.{List, ℕ, ◌<◌, ◌-◌, ◌^◌, Option};
ghost use Rattle.std.specs.Io.{ReadsAtMost};
ghost use Rattle.std.specs.Io.KnownBytes.{ReadConsumes};
ghost use Rattle.chyp_base.specs.Causes.{HasCause};

use crate::Failed;

/// Gives bytes, from the first to the last.
///
/// A source counts its faults, and the count never falls.
pub trait Source {
    /// The bytes that are left, where it tells them.
    ghost left: { Self → Option (List ℕ) };

    /// How often it has failed.
    ghost faults: { Self → ℕ };

    /// Moves the next bytes to the front of `into`, and answers how many.
    ///
    /// `Ok(0)` for a slice that is not empty comes exactly at the end, where the bytes are told.
    ///
    /// # Errors
    ///
    /// `Failed` only where the count of faults rose in this call; the bytes left are the same then.
    fn read(&mut self, into: &mut [u8]) -> Result<usize, Failed>
        requires { faults self.old < 2 ^ 64 - 1 }
        ensures bound { ReadsAtMost result into.new }
        ensures bytes { ReadConsumes (left self.old) (left self.new) result into.new }
        ensures cause { HasCause (faults self.old) (faults self.new) result };
}
