// The text of a picture.
ghost use Rattle.std.specs.Prelude.{◌≡◌, ◌≤◌, ◌<◌, ◌*◌, ◌-◌, ◌^◌, All, flat_map, length};
ghost use Rattle.chyp_picture.specs.Limits.{most_points};
ghost use Rattle.chyp_picture.specs.Picture.{IsDrawn, IsLowBox, IsWhole};
ghost use Rattle.chyp_svg.specs.Drawing.{box_text, drawing_of, head_text, path_text};
ghost use Rattle.chyp_write.specs.Writing.{Writes};

use crate::boxes::{box_len, write_box};
use crate::curve::digits;
use crate::path::{path_len, write_path};
use chyp_base::{Failed, Sink};
use chyp_picture::{BoxAt, Line, Picture};
use chyp_write::write_all;
use itoa::Buffer;

const HEAD: &str = "<svg xmlns=\"http://www.w3.org/2000/svg\" viewBox=\"0 0 ";

const HEAD_END: &str = "\">\n";

const TAIL: &str = "</svg>\n";

/// Appends the SVG text of the picture, a line for each wire and two for each box. It takes no memory,
/// and writes nothing more after a failure.
///
/// # Errors
///
/// `Failed` where the sink failed; a prefix of the text was appended then.
pub fn write_svg<K: Sink>(picture: &Picture, sink: &mut K) -> Result<(), Failed>
    requires whole { IsWhole picture.now }
    requires room { K.faults sink.old < 2 ^ 64 - 1 }
    ensures { Writes (K.held sink.old) (K.held sink.new) (K.faults sink.old) (K.faults sink.new) result (drawing_of picture.now) }
{
    write_head(picture, sink)?;
    write_lines(picture, sink)?;
    write_boxes(picture.boxes.as_slice(), sink)?;
    write_all(sink, &[TAIL])
}

// Appends the first line.
fn write_head<K: Sink>(picture: &Picture, sink: &mut K) -> Result<(), Failed>
    requires { K.faults sink.old < 2 ^ 64 - 1 }
    ensures { Writes (K.held sink.old) (K.held sink.new) (K.faults sink.old) (K.faults sink.new) result (head_text picture.now) }
{
    let mut widths = Buffer::new();
    let mut heights = Buffer::new();
    let width = widths.format(picture.width);
    let height = heights.format(picture.height);
    write_all(sink, &[HEAD, width, " ", height, HEAD_END])
}

// Appends the paths of the wires.
fn write_lines<K: Sink>(picture: &Picture, sink: &mut K) -> Result<(), Failed>
    requires drawn { All (IsDrawn picture.now) picture.now.lines }
    requires room { K.faults sink.old < 2 ^ 64 - 1 }
    ensures { Writes (K.held sink.old) (K.held sink.new) (K.faults sink.old) (K.faults sink.new) result
        (flat_map (path_text picture.now) picture.now.lines) }
{
    let lines = picture.lines.as_slice();
    for line in lines {
        write_path(picture, line, sink)?;
    }
    Ok(())
}

// Appends the boxes.
fn write_boxes<K: Sink>(boxes: &[BoxAt], sink: &mut K) -> Result<(), Failed>
    requires low { All IsLowBox boxes.now }
    requires room { K.faults sink.old < 2 ^ 64 - 1 }
    ensures { Writes (K.held sink.old) (K.held sink.new) (K.faults sink.old) (K.faults sink.new) result (flat_map box_text boxes.now) }
{
    for part in boxes {
        write_box(part, sink)?;
    }
    Ok(())
}

/// How many bytes the SVG text of the picture has. It takes no memory.
pub fn svg_len(picture: &Picture) -> u64
    requires { IsWhole picture.now }
    ensures { result ≡ length (drawing_of picture.now) }
{
    let lines = lines_len(picture, picture.lines.as_slice());
    let boxes = boxes_len(picture.boxes.as_slice());
    head_len(picture) + lines + boxes + TAIL.len() as u64
}

// How long the first line is.
fn head_len(picture: &Picture) -> u64
    ensures same { result ≡ length (head_text picture.now) }
    ensures few { result ≤ 200 }
{
    let numbers = digits(picture.width) + digits(picture.height);
    numbers + (HEAD.len() + " ".len() + HEAD_END.len()) as u64
}

// How long the paths of the wires are together.
fn lines_len(picture: &Picture, lines: &[Line]) -> u64
    requires drawn { All (IsDrawn picture.now) lines.now }
    requires few_bends { All (λ line. length line.bends ≤ most_points) lines.now }
    requires few_lines { length lines.now ≤ 2 ^ 32 }
    ensures same { result ≡ length (flat_map (path_text picture.now) lines.now) }
    ensures few { result ≤ 2 ^ 24 * length lines.now }
{
    let mut length = 0;
    for line in lines {
        length += path_len(picture, line);
    }
    length
}

// How long the boxes are together.
fn boxes_len(boxes: &[BoxAt]) -> u64
    requires low { All IsLowBox boxes.now }
    requires few { length boxes.now ≤ most_points }
    ensures same { result ≡ length (flat_map box_text boxes.now) }
    ensures few { result ≤ 2 ^ 36 * length boxes.now }
{
    let mut length = 0;
    for part in boxes {
        length += box_len(part);
    }
    length
}
