// Crossings of the wires of a picture.
ghost use Rattle.std.specs.Prelude.{◌≡◌, ◌+◌, ◌<◌, ◌≤◌, ◌^◌, [], All, IfOk, length, map, sum_by};
ghost use Rattle.std.proofs.Common.{replicate};
ghost use Rattle.std.specs.List.{range_with_len};
ghost use Rattle.chyp_picture.specs.Crossings.{HasBoxes, crossing_number, crossings_of, pieces_between};
ghost use Rattle.chyp_layout.specs.Crossings.{ArePassed};

use crate::gap::Gap;
use chyp_base::NoMemory;
use chyp_picture::{Line, Picture, column, crossing_count, piece_after};
use std::alloc::Global;

/// How many crossings the picture has. It takes n log n steps for the n pieces of its wires.
pub(crate) fn crossings(alloc: Global, picture: &Picture) -> Result<u128, NoMemory>
    requires ends { All (HasBoxes picture.now) picture.now.lines }
    requires few_lines { length picture.now.lines < 2 ^ 31 }
    requires few_columns { picture.now.columns < 2 ^ 31 }
    ensures { IfOk result (λ count. count ≡ crossings_of picture.now) }
{
    let gaps = gaps_of(alloc, picture)?;
    sum_of(alloc, gaps)
}

/// How many pairs of pieces cross in these gaps.
fn sum_of(alloc: Global, mut gaps: Vec<Gap>) -> Result<u128, NoMemory>
    requires few { length gaps.items ≤ 2 ^ 32 }
    requires short { All (λ pieces. length pieces ≤ 2 ^ 32) gaps.items }
    ensures { IfOk result (λ count. count ≡ sum_by crossing_number gaps.items) }
{
    let mut count: u128 = 0;
    while let Some(gap) = gaps.pop() {
        count += u128::from(crossing_count(alloc, gap.into_vec())?);
    }
    Ok(count)
}

/// The pieces between each two adjacent columns.
fn gaps_of(alloc: Global, picture: &Picture) -> Result<Vec<Gap>, NoMemory>
    requires { All (HasBoxes picture.now) picture.now.lines }
    ensures { IfOk result (λ gaps. gaps.items ≡ map (pieces_between picture.now) (range_with_len 0 (picture.now.columns + 1))) }
{
    let mut gaps = empty_gaps(alloc, u64::from(picture.columns) + 1)?;
    for line in picture.lines.as_slice() {
        push_pieces(&mut gaps, picture, line)?;
    }
    Ok(gaps)
}

/// So many gaps with no piece.
fn empty_gaps(alloc: Global, count: u64) -> Result<Vec<Gap>, NoMemory>
    requires { count ≤ 2 ^ 32 }
    ensures { IfOk result (λ gaps. gaps.items ≡ replicate count []) }
{
    let mut gaps = Vec::with_capacity(alloc, count as usize)?;
    while (gaps.len() as u64) < count {
        gaps.push(Gap::new(alloc))?;
    }
    Ok(gaps)
}

/// Adds the pieces of a line to the gaps that it passes.
fn push_pieces(gaps: &mut Vec<Gap>, picture: &Picture, line: &Line) -> Result<(), NoMemory>
    requires { HasBoxes picture.now line.now }
    ensures { IfOk result (λ _. ArePassed picture.now line.now gaps.old.items gaps.new.items) }
{
    let start = column(picture, line.from) as usize;
    let end = (column(picture, line.to) as usize).min(gaps.len());
    for at in start..end {
        let gap = &mut gaps[at];
        gap.push(piece_after(picture, line, at - start))?;
    }
    Ok(())
}
