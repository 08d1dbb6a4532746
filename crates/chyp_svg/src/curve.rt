// Pieces of paths.
ghost use Rattle.std.specs.Prelude.{◌≡◌, ◌<◌, ◌≤◌, ◌^◌, ◌-◌, decimal, length};
ghost use Rattle.chyp_svg.specs.Drawing.{curve_text};
ghost use Rattle.chyp_write.specs.Writing.{Writes};

use crate::place::Place;
use chyp_base::{Failed, Sink};
use chyp_write::write_all;
use itoa::Buffer;

// How many digits a number has.
pub(crate) fn digits(number: u64) -> u64
    ensures same { result ≡ length (decimal number) }
    ensures few { result ≤ 20 }
{
    let mut buffer = Buffer::new();
    buffer.format(number).len() as u64
}

// Appends a piece of a path.
pub(crate) fn write_curve<K: Sink>(from: Place, to: Place, sink: &mut K) -> Result<(), Failed>
    requires low { (from.x < 2 ^ 60) × (to.x < 2 ^ 60) }
    requires room { K.faults sink.old < 2 ^ 64 - 1 }
    ensures { Writes (K.held sink.old) (K.held sink.new) (K.faults sink.old) (K.faults sink.new) result (curve_text from to) }
{
    let mut middles = Buffer::new();
    let mut heights = Buffer::new();
    let mut ends = Buffer::new();
    let mut depths = Buffer::new();
    let middle = middles.format((from.x + to.x) / 2);
    let height = heights.format(from.y);
    let end = ends.format(to.x);
    let depth = depths.format(to.y);
    write_all(
        sink,
        &[
            " C ", middle, " ", height, " ", middle, " ", depth, " ", end, " ", depth,
        ],
    )
}

// How long a piece of a path is: eight bytes and the digits of its six numbers.
pub(crate) fn curve_len(from: Place, to: Place) -> u64
    requires { (from.x < 2 ^ 60) × (to.x < 2 ^ 60) }
    ensures same { result ≡ length (curve_text from to) }
    ensures few { result ≤ 128 }
{
    let middle = digits((from.x + to.x) / 2);
    8 + 2 * middle + digits(from.y) + 2 * digits(to.y) + digits(to.x)
}
