// Labels of boxes.
ghost use Rattle.std.specs.Prelude.{◌≡◌, ◌≢◌, ◌≤◌, ◌<◌, ◌*◌, ◌-◌, ◌^◌, ◌==◌, false, flat_map, length, not, take};
ghost use Rattle.std.specs.List.{prefix_len, suffix_len};
ghost use Rattle.chyp_svg.specs.Drawing.{escaped, is_plain, label_of};
ghost use Rattle.chyp_write.specs.Writing.{Writes};

use chyp_base::{Failed, Sink};
use chyp_write::write_text;

// The name of a generator without its module.
pub(crate) fn label(name: &[u8]) -> &[u8]
    ensures { result.now ≡ label_of name.now }
{
    &name[name.len() - label_len(name)..]
}

// How many bytes stand behind the last `/` of a name.
fn label_len(name: &[u8]) -> usize
    ensures same { result ≡ suffix_len (λ byte. not (byte == 47)) name.now }
    ensures within { result ≤ length name.now }
{
    name.iter().rev().take_while(|byte| **byte != b'/').count()
}

// Appends the bytes of a label, where some are written by their names.
pub(crate) fn write_escaped<K: Sink>(text: &[u8], sink: &mut K) -> Result<(), Failed>
    requires { K.faults sink.old < 2 ^ 64 - 1 }
    ensures { Writes (K.held sink.old) (K.held sink.new) (K.faults sink.old) (K.faults sink.new) result (flat_map escaped text.now) }
{
    let mut at = 0;
    while at < text.len() {
        let (piece, count) = front(&text[at..]);
        write_text(sink, piece)?;
        at += count;
    }
    Ok(())
}

// What is written of the bytes in front, and how many these are: those as far as the next that is
// written by its name, or this one.
fn front(text: &[u8]) -> (&[u8], usize)
    requires { 0 < length text.now }
    ensures some { 0 < result.1 }
    ensures within { result.1 ≤ length text.now }
    ensures same { result.0.now ≡ flat_map escaped (take result.1 text.now) }
{
    let count = plain_len(text);
    if count == 0 {
        (escape(text[0]).as_bytes(), 1)
    } else {
        (&text[..count], count)
    }
}

// How many bytes in front stand for themselves.
fn plain_len(text: &[u8]) -> usize
    ensures same { result ≡ prefix_len is_plain text.now }
    ensures within { result ≤ length text.now }
{
    text.iter()
        .take_while(|byte| stands_for_itself(**byte))
        .count()
}

// Whether a byte is written as it is.
fn stands_for_itself(byte: u8) -> bool
    ensures { result ≡ is_plain byte }
{
    !matches!(byte, b'&' | b'<' | b'>' | b'"')
}

// The name of a byte.
fn escape(byte: u8) -> &'static str
    requires { is_plain byte ≡ false }
    ensures { result.now ≡ escaped byte }
{
    match byte {
        b'&' => "&amp;",
        b'<' => "&lt;",
        b'>' => "&gt;",
        _ => "&quot;",
    }
}

// How long a label is, where some bytes are written by their names.
pub(crate) fn escaped_len(text: &[u8]) -> u64
    requires { length text.now ≤ 2 ^ 32 }
    ensures same { result ≡ length (flat_map escaped text.now) }
    ensures few { result ≤ 6 * length text.now }
{
    let mut length = 0;
    for byte in text {
        length += byte_len(*byte);
    }
    length
}

// How long a byte of a label is.
fn byte_len(byte: u8) -> u64
    ensures same { result ≡ length (escaped byte) }
    ensures few { result ≤ 6 }
{
    if stands_for_itself(byte) {
        1
    } else {
        escape(byte).len() as u64
    }
}
