// How many wire pieces cross.
ghost use Rattle.std.specs.Prelude.{◌≡◌, ◌+◌, ◌-◌, ◌^◌, ◌<◌, ◌≤◌, All, IfOk, length, map, sum_by};
ghost use Rattle.chyp_picture.specs.Crossings.{crosses, crossing_number, crossings_of, end_after, end_of, HasBox, HasBoxes, line_crossings};
ghost use Rattle.chyp_picture.specs.Picture.{IsDrawn, IsWhole, column_of};

use crate::inversions::sort_and_count;
use crate::{End, Line, Picture, Piece, PieceEnd};
use chyp_base::NoMemory;
use std::alloc::Global;

/// How many crossings the picture has: the sum, over each two adjacent columns, of the unordered pairs
/// of wire pieces between them that cross.
///
/// It takes no memory. It compares each two lines at the columns that both pass, so that the number of
/// steps is that of the pairs of lines and of the pairs of pieces; [`crossing_count`] takes memory and
/// is faster.
pub fn crossings(picture: &Picture) -> u64
    requires { IsWhole picture.now }
    ensures { result ≡ crossings_of picture.now }
{
    let lines = picture.lines.as_slice();
    let mut count = 0;
    for (index, line) in lines.iter().enumerate() {
        count += crossings_with(picture, line, &lines[index + 1..]);
    }
    count
}

// How often a line crosses the others.
fn crossings_with(picture: &Picture, line: &Line, others: &[Line]) -> u64
    requires drawn { IsDrawn picture.now line.now }
    requires others_drawn { All (IsDrawn picture.now) others.now }
    requires fits { sum_by (line_crossings picture.now line.now) others.now < 2 ^ 64 }
    ensures { result ≡ sum_by (line_crossings picture.now line.now) others.now }
{
    let mut count = 0;
    for other in others {
        count += crossings_of_two(picture, line, other);
    }
    count
}

// At how many columns of the picture two lines cross.
fn crossings_of_two(picture: &Picture, first: &Line, second: &Line) -> u64
    requires first_drawn { IsDrawn picture.now first.now }
    requires second_drawn { IsDrawn picture.now second.now }
    ensures { result ≡ line_crossings picture.now first.now second.now }
{
    let start = column(picture, first.from).max(column(picture, second.from));
    let both_end = column(picture, first.to).min(column(picture, second.to));
    let end = both_end.min(picture.columns as u64 + 1);
    let mut count = 0;
    for at in start..end {
        let piece = piece_from(picture, first, at);
        count += piece.crosses(&piece_from(picture, second, at)) as u64;
    }
    count
}

// The piece of a line between a column that it leaves and the next.
fn piece_from(picture: &Picture, line: &Line, at: u64) -> Piece
    requires drawn { IsDrawn picture.now line.now }
    requires left { column_of picture.now line.now.from ≤ at }
    requires right { at < column_of picture.now line.now.to }
    requires low { at < 2 ^ 40 }
    ensures left { result.left ≡ end_after picture.now line.now (at - column_of picture.now line.now.from) }
    ensures right { result.right ≡ end_after picture.now line.now (at - column_of picture.now line.now.from + 1) }
{
    piece_after(picture, line, (at - column(picture, line.from)) as usize)
}

/// The piece of a line between the column that stands so many columns after its start and the next.
pub fn piece_after(picture: &Picture, line: &Line, steps: usize) -> Piece
    requires boxes { HasBoxes picture.now line.now }
    requires few { steps < 2 ^ 63 }
    ensures { result ≡ record { left = end_after picture.now line.now steps; right = end_after picture.now line.now (steps + 1) } }
{
    Piece {
        left: end_behind(picture, line, steps),
        right: end_behind(picture, line, steps + 1),
    }
}

// Where a line meets the column that stands so many columns after its start.
fn end_behind(picture: &Picture, line: &Line, steps: usize) -> PieceEnd
    requires { HasBoxes picture.now line.now }
    ensures { result ≡ end_after picture.now line.now steps }
{
    if steps == 0 {
        return meeting(picture, line.from);
    }
    match line.bends.as_slice().get(steps - 1) {
        Some(bend) => PieceEnd {
            position: bend.place,
            port: 0,
        },
        None => meeting(picture, line.to),
    }
}

// Where an end of a line meets its column.
fn meeting(picture: &Picture, end: End) -> PieceEnd
    requires { HasBox picture.now end }
    ensures { result ≡ end_of picture.now end }
{
    match end {
        End::Input(position) | End::Output(position) => PieceEnd { position, port: 0 },
        End::Port { box_index, port } => PieceEnd {
            position: picture.boxes.as_slice()[box_index as usize].place,
            port,
        },
    }
}

/// The column in which an end of a line stands: inputs in column 0, outputs behind the last column of
/// boxes, and a port in the column of its box.
pub fn column(picture: &Picture, end: End) -> u64
    requires { HasBox picture.now end }
    ensures same { result ≡ column_of picture.now end }
    ensures low { result ≤ 2 ^ 32 }
{
    match end {
        End::Input(_) => 0,
        End::Output(_) => picture.columns as u64 + 1,
        End::Port { box_index, .. } => picture.boxes.as_slice()[box_index as usize].column as u64,
    }
}

/// How many unordered pairs of the pieces cross. All pieces lie between the same two columns.
///
/// It puts the pieces in order and counts inversions of their right ends, as Barth, Mutzel and Jünger
/// do (Simple and Efficient Bilayer Cross Counting), with n log n steps for n pieces.
///
/// # Errors
///
/// `NoMemory` where the lists for it can't be kept; the pieces are dropped then, too.
pub fn crossing_count(alloc: Global, pieces: Vec<Piece>) -> Result<u64, NoMemory>
    requires { length pieces.items ≤ 2 ^ 32 }
    ensures { IfOk result (λ count. count ≡ crossing_number pieces.items) }
{
    let mut pieces = pieces;
    pieces.sort()?;
    let mut ends = right_ends(alloc, &pieces)?;
    sort_and_count(alloc, &mut ends)
}

// The right ends of the pieces, in order.
fn right_ends(alloc: Global, pieces: &[Piece]) -> Result<Vec<PieceEnd>, NoMemory>
    ensures { IfOk result (λ ends. ends.items ≡ map (λ piece. piece.right) pieces.now) }
{
    Ok(pieces.iter().map(|piece| piece.right).collect(alloc)?)
}
