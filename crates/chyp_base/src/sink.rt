// Where bytes go.
ghost use Rattle.std.specs.Prelude.{List, ℕ, ◌<◌, ◌-◌, ◌^◌, Option, IfOk, length};
ghost use Rattle.std.specs.Io.{WritesAtMost};
ghost use Rattle.std.specs.Io.KnownBytes.{WriteAppends};
ghost use Rattle.chyp_base.specs.Causes.{HasCause};

use crate::Failed;

/// Takes bytes, one after another.
///
/// A sink counts its faults, and the count never falls.
pub trait Sink {
    /// The bytes that it holds, where it tells them.
    ghost held: { Self → Option (List ℕ) };

    /// How often it has failed.
    ghost faults: { Self → ℕ };

    /// Appends the first bytes of the piece, at least one of a piece that is not empty, and answers
    /// how many.
    ///
    /// # Errors
    ///
    /// `Failed` only where the count of faults rose in this call; nothing is appended then. To take
    /// nothing of a piece that is not empty is such a failure.
    fn write(&mut self, piece: &[u8]) -> Result<usize, Failed>
        requires { faults self.old < 2 ^ 64 - 1 }
        ensures bound { WritesAtMost result piece.now }
        ensures some { IfOk result (λ n. 0 < length piece.now → 0 < n) }
        ensures bytes { WriteAppends (held self.old) (held self.new) result piece.now }
        ensures cause { HasCause (faults self.old) (faults self.new) result };
}
