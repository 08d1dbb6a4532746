// Points of a drawing.
ghost use Rattle.std.specs.Prelude.{◌≡◌, ◌<◌, ◌^◌};
ghost use Rattle.chyp_picture.specs.Crossings.{HasBox};
ghost use Rattle.chyp_svg.specs.Drawing.{bend_place, end_place, middle_of, reach_of, start_place};

use chyp_picture::{End, Line, Picture, Point, column};

/// A point of a drawing.
#[derive(Clone, Copy, Debug, PartialEq, Eq)]
pub(crate) struct Place {
    /// How far it is from the left side.
    pub(crate) x: u64,
    /// How far it is below the top.
    pub(crate) y: u64,
}

// How far the middle of a column is from the left side of the drawing.
pub(crate) fn middle(column: u64) -> u64
    requires { column < 2 ^ 40 }
    ensures { result ≡ middle_of column }
{
    40 + 100 * column
}

// How far a port is from the middle of its column, where inputs and outputs stand.
fn reach(end: End) -> u64
    ensures { result ≡ reach_of end }
{
    match end {
        End::Input(_) | End::Output(_) => 0,
        End::Port { .. } => 20,
    }
}

// Where a line begins.
pub(crate) fn start(picture: &Picture, line: &Line) -> Place
    requires { HasBox picture.now line.now.from }
    ensures same { result ≡ start_place picture.now line.now }
    ensures low { result.x < 2 ^ 60 }
{
    Place {
        x: middle(column(picture, line.from)) + reach(line.from),
        y: line.y_from,
    }
}

// Where a line ends.
pub(crate) fn end(picture: &Picture, line: &Line) -> Place
    requires { HasBox picture.now line.now.to }
    ensures same { result ≡ end_place picture.now line.now }
    ensures low { result.x < 2 ^ 60 }
{
    Place {
        x: middle(column(picture, line.to)) - reach(line.to),
        y: line.y_to,
    }
}

// Where a bend is.
pub(crate) fn bend(bend: Point) -> Place
    ensures same { result ≡ bend_place bend }
    ensures low { result.x < 2 ^ 60 }
{
    Place {
        x: middle(bend.column as u64),
        y: bend.y,
    }
}
