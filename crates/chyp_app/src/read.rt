// Reads a text as far as the limit, and one byte more to tell that it is passed.
ghost use Rattle.std.specs.Prelude.{List, ℕ, ◌≡◌, ◌+◌, ◌-◌, ◌^◌, ◌<◌, ◌≤◌, length, OnOk, IsErrOf, IfOk, IfErr};
ghost use Rattle.std.specs.Io.KnownBytes.{Consumes, IsAtEnd};
ghost use Rattle.chyp_app.specs.Faults.{StopsReading};

use chyp_base::{Failed, MAX_TEXT_LEN, Source};
use std::alloc::Global;

/// Why a read ended early.
#[derive(Clone, Copy, Debug, PartialEq, Eq)]
pub enum ReadStop {
    /// The source failed.
    Failed,
    /// There was no memory for the text.
    NoMemory,
}

/// The text that a source has left; where it is longer than the limit, its front with one byte more.
///
/// # Errors
///
/// `Failed` where a read failed, `NoMemory` where the text can't be kept.
pub fn read_text<S: Source>(alloc: Global, source: &mut S) -> Result<Vec<u8>, ReadStop>
    requires { S.faults source.old < 2 ^ 64 - 1 }
    ensures bytes { IfOk result (λ text. Consumes (S.left source.old) (S.left source.new) text.items) }
    ensures within { IfOk result (λ text. length text.items ≤ MAX_TEXT_LEN + 1) }
    ensures end { IfOk result (λ text. length text.items ≤ MAX_TEXT_LEN → IsAtEnd (S.left source.new)) }
    ensures kept { OnOk result (S.faults source.new ≡ S.faults source.old) }

    // No byte behind the limit was given where the source failed.
    ensures given { IsErrOf result ReadStop.Failed → (given : List ℕ) × Consumes (S.left source.old) (S.left source.new) given
        × (length given ≤ MAX_TEXT_LEN) }
    ensures stops { IfErr result (StopsReading (S.faults source.old) (S.faults source.new)) }
{
    let mut text = Vec::new(alloc);
    let mut buffer = [0u8; 4096];
    while text.len() <= MAX_TEXT_LEN {
        let room = (MAX_TEXT_LEN + 1 - text.len()).min(buffer.len());
        let count = match source.read(&mut buffer[..room]) {
            Ok(count) => count,
            Err(Failed) => return Err(ReadStop::Failed),
        };
        if count == 0 {
            break;
        }
        if text.extend_from_slice(&buffer[..count]).is_err() {
            return Err(ReadStop::NoMemory);
        }
    }
    Ok(text)
}
