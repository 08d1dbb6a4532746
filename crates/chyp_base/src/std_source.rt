// Any reader of std as a source.
ghost use Rattle.std.specs.Prelude.{◌≡◌, ◌+◌, ◌<◌, ◌-◌, ◌^◌, OnErr};
ghost use Rattle.std.specs.Io.{ReadsAtMost};
ghost use Rattle.std.specs.Io.KnownBytes.{ReadConsumes};
ghost use Rattle.chyp_base.specs.Causes.{HasCause};

use crate::{Failed, Source};
use std::io::{ErrorKind, Read};

/// Gives the bytes that a reader of std gives.
///
/// It tells the bytes left where the reader does, which a file or the standard input doesn't.
#[derive(Drop)]
pub struct StdSource<R> {
    inner: R,
    faults: u64,
}

impl<R: Read> StdSource<R> {
    /// A source over this reader, with no fault yet.
    pub fn new(inner: R) -> StdSource<R>
        ensures faults { ⟦<StdSource<R> as Source>⟧.faults result ≡ 0 }
        ensures left { ⟦<StdSource<R> as Source>⟧.left result ≡ R.remaining inner }
    {
        StdSource { inner, faults: 0 }
    }
}

// One read, tried again where a signal came in between.
fn read_once<R: Read>(inner: &mut R, into: &mut [u8]) -> Result<usize, Failed>
    ensures bound { ReadsAtMost result into.new }
    ensures bytes { ReadConsumes (R.remaining inner.old) (R.remaining inner.new) result into.new }
{
    for _ in 0..u64::MAX {
        match inner.read(into) {
            Ok(count) => return Ok(count),
            Err(error) => {
                if error.kind() != ErrorKind::Interrupted {
                    return Err(Failed);
                }
            }
        }
    }
    Err(Failed)
}

impl<R: Read> Source for StdSource<R> {
    ghost left = { λ s. R.remaining s.inner };

    ghost faults = { λ s. s.faults };

    fn read(&mut self, into: &mut [u8]) -> Result<usize, Failed>
        requires { ⟦<StdSource<R> as Source>⟧.faults self.old < 2 ^ 64 - 1 }
        ensures bound { ReadsAtMost result into.new }
        ensures bytes { ReadConsumes (R.remaining self.old.inner) (R.remaining self.new.inner) result into.new }
        ensures cause { HasCause (⟦<StdSource<R> as Source>⟧.faults self.old) (⟦<StdSource<R> as Source>⟧.faults self.new) result }
        // A failure is one fault.
        ensures counts { OnErr result (⟦<StdSource<R> as Source>⟧.faults self.new ≡ ⟦<StdSource<R> as Source>⟧.faults self.old + 1) }
    {
        match read_once(&mut self.inner, into) {
            Ok(count) => Ok(count),
            Err(Failed) => {
                self.faults += 1;
                Err(Failed)
            }
        }
    }
}
