// Writes texts whole.
ghost use Rattle.std.specs.Prelude.{◌≡◌, ◌-◌, ◌^◌, ◌<◌, ◌≤◌, List, ℕ, take, flat_map};
ghost use Rattle.std.specs.Io.KnownBytes.{Appends};
ghost use Rattle.chyp_write.specs.Writing.{Writes};

use chyp_base::{Failed, Sink};

/// Writes the text at the end of what the sink holds.
///
/// # Errors
///
/// `Failed` where the sink failed; a prefix of the text was written then.
pub fn write_text<K: Sink>(sink: &mut K, text: &[u8]) -> Result<(), Failed>
    requires { K.faults sink.old < 2 ^ 64 - 1 }
    ensures { Writes (K.held sink.old) (K.held sink.new) (K.faults sink.old) (K.faults sink.new) result text.now }
{
    let mut at = 0;
    while at < text.len() {
        at += sink.write(&text[at..])?;
    }
    Ok(())
}

/// Writes the pieces one behind the other.
///
/// # Errors
///
/// `Failed` where the sink failed; a prefix of them was written then.
pub fn write_all<K: Sink>(sink: &mut K, pieces: &[&str]) -> Result<(), Failed>
    requires { K.faults sink.old < 2 ^ 64 - 1 }
    ensures { Writes (K.held sink.old) (K.held sink.new) (K.faults sink.old) (K.faults sink.new) result
        (flat_map (λ piece. piece.now) pieces.now) }
{
    for piece in pieces {
        write_text(sink, piece.as_bytes())?;
    }
    Ok(())
}
