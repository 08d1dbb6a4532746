// Boxes.
ghost use Rattle.std.specs.Prelude.{◌≡◌, ◌≤◌, ◌<◌, ◌+◌, ◌-◌, ◌/◌, ◌^◌, length};
ghost use Rattle.chyp_picture.specs.Picture.{IsLowBox};
ghost use Rattle.chyp_svg.specs.Drawing.{box_text, caption_text, frame_text};
ghost use Rattle.chyp_write.specs.Writing.{Writes};

use crate::curve::digits;
use crate::label::{escaped_len, label, write_escaped};
use crate::place::middle;
use chyp_base::{Failed, Sink};
use chyp_picture::BoxAt;
use chyp_write::write_all;
use itoa::Buffer;

const FRAME: &str = "<rect x=\"";

const HEIGHT: &str = "\" width=\"40\" height=\"";

const FILL: &str = "\" fill=\"white\" stroke=\"black\"/>\n";

const CAPTION: &str = "<text x=\"";

const ANCHOR: &str = "\" text-anchor=\"middle\" font-size=\"12\">";

const AND_Y: &str = "\" y=\"";

const CAPTION_END: &str = "</text>\n";

// Appends the two lines of a box.
pub(crate) fn write_box<K: Sink>(part: &BoxAt, sink: &mut K) -> Result<(), Failed>
    requires low { IsLowBox part.now }
    requires room { K.faults sink.old < 2 ^ 64 - 1 }
    ensures { Writes (K.held sink.old) (K.held sink.new) (K.faults sink.old) (K.faults sink.new) result (box_text part.now) }
{
    write_frame(part, sink)?;
    write_caption(part, sink)?;
    write_escaped(label(part.name.as_str().as_bytes()), sink)?;
    write_all(sink, &[CAPTION_END])
}

// Appends the frame of a box.
fn write_frame<K: Sink>(part: &BoxAt, sink: &mut K) -> Result<(), Failed>
    requires { K.faults sink.old < 2 ^ 64 - 1 }
    ensures { Writes (K.held sink.old) (K.held sink.new) (K.faults sink.old) (K.faults sink.new) result (frame_text part.now) }
{
    let mut sides = Buffer::new();
    let mut tops = Buffer::new();
    let mut heights = Buffer::new();
    let side = sides.format(middle(part.column as u64) - 20);
    let top = tops.format(part.top);
    let height = heights.format(part.height);
    write_all(sink, &[FRAME, side, AND_Y, top, HEIGHT, height, FILL])
}

// How far the base of a label is below the top of the picture.
fn base(part: &BoxAt) -> u64
    requires { IsLowBox part.now }
    ensures { result ≡ part.now.top + part.now.height / 2 + 4 }
{
    part.top + part.height / 2 + 4
}

// Appends what stands before the label of a box.
fn write_caption<K: Sink>(part: &BoxAt, sink: &mut K) -> Result<(), Failed>
    requires low { IsLowBox part.now }
    requires room { K.faults sink.old < 2 ^ 64 - 1 }
    ensures { Writes (K.held sink.old) (K.held sink.new) (K.faults sink.old) (K.faults sink.new) result (caption_text part.now) }
{
    let mut middles = Buffer::new();
    let mut bases = Buffer::new();
    let middle = middles.format(middle(part.column as u64));
    let base = bases.format(base(part));
    write_all(sink, &[CAPTION, middle, AND_Y, base, ANCHOR])
}

// How long the two lines of a box are.
pub(crate) fn box_len(part: &BoxAt) -> u64
    requires { IsLowBox part.now }
    ensures same { result ≡ length (box_text part.now) }
    ensures few { result ≤ 2 ^ 36 }
{
    let label = escaped_len(label(part.name.as_str().as_bytes()));
    frame_len(part) + caption_len(part) + label + CAPTION_END.len() as u64
}

// How long the frame of a box is.
fn frame_len(part: &BoxAt) -> u64
    ensures same { result ≡ length (frame_text part.now) }
    ensures few { result ≤ 200 }
{
    let numbers = digits(middle(part.column as u64) - 20) + digits(part.top) + digits(part.height);
    numbers + (FRAME.len() + AND_Y.len() + HEIGHT.len() + FILL.len()) as u64
}

// How long the text before a label is.
fn caption_len(part: &BoxAt) -> u64
    requires { IsLowBox part.now }
    ensures same { result ≡ length (caption_text part.now) }
    ensures few { result ≤ 200 }
{
    let numbers = digits(middle(part.column as u64)) + digits(base(part));
    numbers + (CAPTION.len() + AND_Y.len() + ANCHOR.len()) as u64
}
