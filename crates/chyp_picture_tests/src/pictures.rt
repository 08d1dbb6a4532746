// Pictures that are made by hand.
use chyp_base::{Name, Sort};
use chyp_picture::{Bends, BoxAt, Boxes, End, Line, Lines, Picture, Point};
use std::alloc::Global;
use std::test::Fail;

/// The input or output of this number, or the port of a box.
pub(crate) fn port(box_index: u32, port: u32) -> End {
    End::Port { box_index, port }
}

/// A line over some bends between two ends at their heights.
pub(crate) fn line(
    alloc: Global,
    ends: (End, End),
    heights: (u64, u64),
    bends: &[Point],
) -> Result<Line, Fail> {
    Ok(Line {
        sort: Sort::plain(alloc)?,
        from: ends.0,
        to: ends.1,
        bends: Bends::from_vec(Vec::from_slice(alloc, bends)?),
        y_from: heights.0,
        y_to: heights.1,
    })
}

/// The first box of a column, with one port on each side.
pub(crate) fn small_box(alloc: Global, name: &str, column: u32) -> Result<BoxAt, Fail> {
    Ok(BoxAt {
        name: Name::new(alloc, name)?,
        column,
        place: 0,
        top: 20,
        height: 20,
    })
}

/// `f ; g`
pub(crate) fn two_in_a_row(alloc: Global) -> Result<Picture, Fail> {
    let mut boxes = Vec::new(alloc);
    boxes.push(small_box(alloc, "f", 1)?)?;
    boxes.push(small_box(alloc, "g", 2)?)?;
    let mut lines = Vec::new(alloc);
    lines.push(line(alloc, (End::Input(0), port(0, 0)), (30, 30), &[])?)?;
    lines.push(line(alloc, (port(0, 0), port(1, 0)), (30, 30), &[])?)?;
    lines.push(line(alloc, (port(1, 0), End::Output(0)), (30, 30), &[])?)?;
    Ok(Picture {
        width: 380,
        height: 60,
        columns: 2,
        boxes: Boxes::from_vec(boxes),
        lines: Lines::from_vec(lines),
        inputs: 1,
        outputs: 1,
    })
}

/// `sw`
pub(crate) fn swap(alloc: Global) -> Result<Picture, Fail> {
    let mut lines = Vec::new(alloc);
    lines.push(line(alloc, (End::Input(0), End::Output(1)), (30, 70), &[])?)?;
    lines.push(line(alloc, (End::Input(1), End::Output(0)), (70, 30), &[])?)?;
    Ok(Picture {
        width: 180,
        height: 100,
        columns: 0,
        boxes: Boxes::from_vec(Vec::new(alloc)),
        lines: Lines::from_vec(lines),
        inputs: 2,
        outputs: 2,
    })
}

/// `id0`
pub(crate) fn nothing(alloc: Global) -> Picture {
    Picture {
        width: 180,
        height: 20,
        columns: 0,
        boxes: Boxes::from_vec(Vec::new(alloc)),
        lines: Lines::from_vec(Vec::new(alloc)),
        inputs: 0,
        outputs: 0,
    }
}

/// One box without wires.
pub(crate) fn one_box(alloc: Global, name: &str) -> Result<Picture, Fail> {
    let mut boxes = Vec::new(alloc);
    boxes.push(small_box(alloc, name, 1)?)?;
    Ok(Picture {
        width: 280,
        height: 60,
        columns: 1,
        boxes: Boxes::from_vec(boxes),
        lines: Lines::from_vec(Vec::new(alloc)),
        inputs: 0,
        outputs: 0,
    })
}

// A box with two ports on its left side.
fn binary_box(alloc: Global, column: u32) -> Result<BoxAt, Fail> {
    Ok(BoxAt {
        name: Name::new(alloc, "m")?,
        column,
        place: 0,
        top: 20,
        height: 40,
    })
}

/// `(m * id) ; m`, for a generator `m` from two wires to one
pub(crate) fn associativity(alloc: Global) -> Result<Picture, Fail> {
    let mut boxes = Vec::new(alloc);
    boxes.push(binary_box(alloc, 1)?)?;
    boxes.push(binary_box(alloc, 2)?)?;
    let bend = Point {
        column: 1,
        place: 1,
        y: 90,
    };
    let mut lines = Vec::new(alloc);
    lines.push(line(alloc, (End::Input(0), port(0, 0)), (30, 30), &[])?)?;
    lines.push(line(alloc, (End::Input(1), port(0, 1)), (70, 50), &[])?)?;
    lines.push(line(alloc, (port(0, 0), port(1, 0)), (40, 30), &[])?)?;
    lines.push(line(alloc, (End::Input(2), port(1, 1)), (110, 50), &[bend])?)?;
    lines.push(line(alloc, (port(1, 0), End::Output(0)), (40, 30), &[])?)?;
    Ok(Picture {
        width: 380,
        height: 140,
        columns: 2,
        boxes: Boxes::from_vec(boxes),
        lines: Lines::from_vec(lines),
        inputs: 3,
        outputs: 1,
    })
}

/// `(f * id) ; sw`, where the second wire goes past the box above it, and so crosses the first.
pub(crate) fn bent(alloc: Global) -> Result<Picture, Fail> {
    let mut boxes = Vec::new(alloc);
    boxes.push(BoxAt {
        name: Name::new(alloc, "arith/plus")?,
        column: 1,
        place: 1,
        top: 60,
        height: 20,
    })?;
    let bend = Point {
        column: 1,
        place: 0,
        y: 30,
    };
    let mut lines = Vec::new(alloc);
    lines.push(line(alloc, (End::Input(0), port(0, 0)), (30, 70), &[])?)?;
    lines.push(line(alloc, (port(0, 0), End::Output(1)), (70, 70), &[])?)?;
    lines.push(line(alloc, (End::Input(1), End::Output(0)), (70, 30), &[bend])?)?;
    Ok(Picture {
        width: 280,
        height: 100,
        columns: 1,
        boxes: Boxes::from_vec(boxes),
        lines: Lines::from_vec(lines),
        inputs: 2,
        outputs: 2,
    })
}
