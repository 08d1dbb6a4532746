// Whether a picture that was made by hand is whole.
ghost use Rattle.std.specs.Prelude.{◌≡◌, ◌+◌, ◌^◌, ◌<◌, ◌≤◌, ℕ, All, IsTrue, length, map, slice_index};
ghost use Rattle.chyp_picture.specs.Crossings.{HasBox};
ghost use Rattle.chyp_picture.specs.Picture.{IsDrawn, IsGoal, IsLowBox, IsLowLine, IsStart, IsWhole, bend_count, column_of};

use chyp_picture::{
    BoxAt, End, HEIGHT_BOUND, LONGEST_NAME, Line, MOST_LINES, MOST_POINTS, Picture, Point, column,
};

/// Whether the picture is whole; the calls on pictures may be made then.
pub(crate) fn is_whole(picture: &Picture) -> bool
    ensures { IsTrue result → IsWhole picture.now }
{
    let lines = picture.lines.as_slice();
    let boxes = picture.boxes.as_slice();
    boxes.len() <= MOST_POINTS as usize
        && are_few(lines, MOST_POINTS as usize - boxes.len())
        && lines.len() <= MOST_LINES as usize
        && are_drawn(picture, lines)
        && are_low(lines)
        && are_low_boxes(boxes)
        && picture.width < HEIGHT_BOUND
        && picture.height < HEIGHT_BOUND
}

// Whether the lines have at most so many bends together.
fn are_few(lines: &[Line], most: usize) -> bool
    ensures { IsTrue result → bend_count lines.now ≤ most }
{
    let mut left = most;
    for line in lines {
        let bends = line.bends.as_slice().len();
        if left < bends {
            return false;
        }
        left -= bends;
    }
    true
}

// Whether each line leads from column to column.
fn are_drawn(picture: &Picture, lines: &[Line]) -> bool
    ensures { IsTrue result → All (IsDrawn picture.now) lines.now }
{
    for line in lines {
        if !is_drawn(picture, line) {
            return false;
        }
    }
    true
}

fn is_drawn(picture: &Picture, line: &Line) -> bool
    ensures { IsTrue result → IsDrawn picture.now line.now }
{
    if !is_start(picture, line.from) || !is_goal(picture, line.to) {
        return false;
    }
    let start = column(picture, line.from);
    let bends = line.bends.as_slice();
    follow(start, bends) && column(picture, line.to) == start + 1 + bends.len() as u64
}

fn is_start(picture: &Picture, end: End) -> bool
    ensures start { IsTrue result → IsStart picture.now end }
    ensures there { IsTrue result → HasBox picture.now end }
{
    match end {
        End::Input(_) => true,
        End::Output(_) => false,
        End::Port { box_index, .. } => (box_index as usize) < picture.boxes.as_slice().len(),
    }
}

fn is_goal(picture: &Picture, end: End) -> bool
    ensures goal { IsTrue result → IsGoal picture.now end }
    ensures there { IsTrue result → HasBox picture.now end }
{
    match end {
        End::Input(_) => false,
        End::Output(_) => true,
        End::Port { box_index, .. } => (box_index as usize) < picture.boxes.as_slice().len(),
    }
}

// Whether the bends stand in the columns behind one, from the next on.
fn follow(start: u64, bends: &[Point]) -> bool
    requires { start ≤ 2 ^ 32 }
    ensures { IsTrue result → (k : ℕ) → k < length bends.now → slice_index (map (λ b. b.column) bends.now) k ≡ start + 1 + k }
{
    for (index, bend) in bends.iter().enumerate() {
        if bend.column as u64 != start + 1 + index as u64 {
            return false;
        }
    }
    true
}

// Whether the heights of the lines are low.
fn are_low(lines: &[Line]) -> bool
    ensures { IsTrue result → All IsLowLine lines.now }
{
    for line in lines {
        if HEIGHT_BOUND <= line.y_from
            || HEIGHT_BOUND <= line.y_to
            || !are_low_bends(line.bends.as_slice())
        {
            return false;
        }
    }
    true
}

fn are_low_bends(bends: &[Point]) -> bool
    ensures { IsTrue result → All (λ b. b.y < 2 ^ 40) bends.now }
{
    for bend in bends {
        if HEIGHT_BOUND <= bend.y {
            return false;
        }
    }
    true
}

// Whether the boxes are low and their names short.
fn are_low_boxes(boxes: &[BoxAt]) -> bool
    ensures { IsTrue result → All IsLowBox boxes.now }
{
    for part in boxes {
        if HEIGHT_BOUND <= part.top
            || HEIGHT_BOUND <= part.height
            || (LONGEST_NAME as usize) < part.name.as_str().len()
        {
            return false;
        }
    }
    true
}
