// Paths of wires.
ghost use Rattle.std.specs.Prelude.{◌≡◌, ◌<◌, ◌≤◌, ◌*◌, ◌^◌, ◌-◌, IfOk, length, map};
ghost use Rattle.chyp_picture.specs.Limits.{most_points};
ghost use Rattle.chyp_picture.specs.Picture.{IsDrawn};
ghost use Rattle.chyp_svg.specs.Drawing.{bend_place, curves_text, move_text, path_text};
ghost use Rattle.chyp_svg.specs.Drawing.{last_place};
ghost use Rattle.chyp_write.specs.Writing.{Writes};

use crate::curve::{curve_len, digits, write_curve};
use crate::place::{Place, bend, end, start};
use chyp_base::{Failed, Sink};
use chyp_picture::{Line, Picture, Point};
use chyp_write::write_all;
use itoa::Buffer;

const MOVE: &str = "<path d=\"M ";

const STROKE: &str = "\" fill=\"none\" stroke=\"black\"/>\n";

// Appends the path of a line.
pub(crate) fn write_path<K: Sink>(
    picture: &Picture,
    line: &Line,
    sink: &mut K,
) -> Result<(), Failed>
    requires drawn { IsDrawn picture.now line.now }
    requires room { K.faults sink.old < 2 ^ 64 - 1 }
    ensures { Writes (K.held sink.old) (K.held sink.new) (K.faults sink.old) (K.faults sink.new) result (path_text picture.now line.now) }
{
    let from = start(picture, line);
    write_move(from, sink)?;
    let last = write_bends(from, line.bends.as_slice(), sink)?;
    write_curve(last, end(picture, line), sink)?;
    write_all(sink, &[STROKE])
}

// Appends where a path begins.
fn write_move<K: Sink>(from: Place, sink: &mut K) -> Result<(), Failed>
    requires { K.faults sink.old < 2 ^ 64 - 1 }
    ensures { Writes (K.held sink.old) (K.held sink.new) (K.faults sink.old) (K.faults sink.new) result (move_text from) }
{
    let mut columns = Buffer::new();
    let mut heights = Buffer::new();
    write_all(
        sink,
        &[MOVE, columns.format(from.x), " ", heights.format(from.y)],
    )
}

// Appends the pieces of a path as far as its last bend, and says where that is.
fn write_bends<K: Sink>(from: Place, bends: &[Point], sink: &mut K) -> Result<Place, Failed>
    requires low { from.x < 2 ^ 60 }
    requires room { K.faults sink.old < 2 ^ 64 - 1 }
    ensures text { Writes (K.held sink.old) (K.held sink.new) (K.faults sink.old) (K.faults sink.new) result
        (curves_text from (map bend_place bends.now)) }
    ensures last { IfOk result (λ place. place ≡ last_place from (map bend_place bends.now)) }
    ensures low { IfOk result (λ place. place.x < 2 ^ 60) }
{
    let mut last = from;
    for point in bends {
        let next = bend(*point);
        write_curve(last, next, sink)?;
        last = next;
    }
    Ok(last)
}

// How long the path of a line is.
pub(crate) fn path_len(picture: &Picture, line: &Line) -> u64
    requires drawn { IsDrawn picture.now line.now }
    requires few { length line.now.bends ≤ most_points }
    ensures same { result ≡ length (path_text picture.now line.now) }
    ensures few { result ≤ 2 ^ 24 }
{
    let from = start(picture, line);
    let (bends, last) = bends_len(from, line.bends.as_slice());
    move_len(from) + bends + curve_len(last, end(picture, line)) + STROKE.len() as u64
}

// How long the text is with which a path begins.
fn move_len(from: Place) -> u64
    ensures same { result ≡ length (move_text from) }
    ensures few { result ≤ 60 }
{
    MOVE.len() as u64 + digits(from.x) + " ".len() as u64 + digits(from.y)
}

// How long the pieces as far as the last bend are, and where that is.
fn bends_len(from: Place, bends: &[Point]) -> (u64, Place)
    requires low { from.x < 2 ^ 60 }
    requires few { length bends.now ≤ most_points }
    ensures same { result.0 ≡ length (curves_text from (map bend_place bends.now)) }
    ensures few { result.0 ≤ 128 * length bends.now }
    ensures last { result.1 ≡ last_place from (map bend_place bends.now) }
    ensures low { result.1.x < 2 ^ 60 }
{
    let mut length = 0;
    let mut last = from;
    for point in bends {
        let next = bend(*point);
        length += curve_len(last, next);
        last = next;
    }
    (length, last)
}
