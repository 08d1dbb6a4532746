// Any writer of std as a sink.
ghost use Rattle.std.specs.Prelude.{◌≡◌, None, ◌+◌, ◌<◌, ◌-◌, ◌^◌, length, take, IfOk, OnErr};
ghost use Rattle.std.specs.Io.{WritesAtMost};
ghost use Rattle.std.specs.Io.KnownBytes.{Appends, WriteAppends};
ghost use Rattle.chyp_base.specs.Causes.{HasCause};

use crate::{Failed, Sink};
use std::io::{ErrorKind, Write};

/// Hands bytes to a writer of std, and flushes it after each write. A flush that fails is a failure.
///
/// It doesn't tell what it holds, since bytes may have gone out before a flush fails.
#[derive(Drop)]
pub struct StdSink<W> {
    inner: W,
    faults: u64,
}

impl<W: Write> StdSink<W> {
    ghost use Rattle.chyp_base.specs.StdSink.{writer};

    /// A sink over this writer, with no fault yet.
    pub fn new(inner: W) -> StdSink<W>
        ensures faults { ⟦<StdSink<W> as Sink>⟧.faults result ≡ 0 }
        ensures writer { writer result ≡ inner }
    {
        StdSink { inner, faults: 0 }
    }
}

// One write, tried again where a signal came in between. To take nothing is a failure.
fn write_once<W: Write>(inner: &mut W, piece: &[u8]) -> Result<usize, Failed>
    ensures bound { WritesAtMost result piece.now }
    ensures some { IfOk result (λ n. 0 < length piece.now → 0 < n) }
    ensures bytes { IfOk result (λ n. Appends (W.contents inner.old) (W.contents inner.new) (take n piece.now)) }
{
    for _ in 0..u64::MAX {
        match inner.write(piece) {
            Ok(0) if !piece.is_empty() => return Err(Failed),
            Ok(count) => return Ok(count),
            Err(error) => {
                if error.kind() != ErrorKind::Interrupted {
                    return Err(Failed);
                }
            }
        }
    }
    Err(Failed)
}

fn write_and_flush<W: Write>(inner: &mut W, piece: &[u8]) -> Result<usize, Failed>
    ensures bound { WritesAtMost result piece.now }
    ensures some { IfOk result (λ n. 0 < length piece.now → 0 < n) }
    ensures bytes { IfOk result (λ n. Appends (W.contents inner.old) (W.contents inner.new) (take n piece.now)) }
{
    let count = write_once(inner, piece)?;
    if inner.flush().is_err() {
        return Err(Failed);
    }
    Ok(count)
}

impl<W: Write> Sink for StdSink<W> {
    ghost use Rattle.chyp_base.specs.StdSink.{writer};

    ghost held = { λ _. None };

    ghost faults = { λ s. s.faults };

    fn write(&mut self, piece: &[u8]) -> Result<usize, Failed>
        requires { ⟦<StdSink<W> as Sink>⟧.faults self.old < 2 ^ 64 - 1 }
        ensures bound { WritesAtMost result piece.now }
        ensures some { IfOk result (λ n. 0 < length piece.now → 0 < n) }
        ensures bytes { WriteAppends None None result piece.now }
        ensures cause { HasCause (⟦<StdSink<W> as Sink>⟧.faults self.old) (⟦<StdSink<W> as Sink>⟧.faults self.new) result }
        // A failure is one fault.
        ensures counts { OnErr result (⟦<StdSink<W> as Sink>⟧.faults self.new ≡ ⟦<StdSink<W> as Sink>⟧.faults self.old + 1) }
        // What was taken has gone to the writer.
        ensures passed_on { IfOk result (λ n. Appends (W.contents (writer self.old)) (W.contents (writer self.new)) (take n piece.now)) }
    {
        let result = write_and_flush(&mut self.inner, piece);
        if result.is_err() {
            self.faults += 1;
        }
        result
    }
}
