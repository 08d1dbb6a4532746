// Pictures of small graphs, and of one that is too big.
use crate::diagrams::{are, beside, doubled, graph};
use chyp_layout::layout;
use chyp_picture::{BoxAt, Line, Picture};
use std::alloc::Global;
use std::test::Fail;

/// A box in words: its name, its column, its top and its height.
fn box_in_words(alloc: Global, at: &BoxAt) -> Result<String, Fail> {
    let name = at.name.as_str();
    Ok(format!(in alloc; "{name}@{}:{}+{}", at.column, at.top, at.height)?)
}

/// A line in words: how far down it is at its start, its bends and its end.
fn line_in_words(alloc: Global, line: &Line) -> Result<String, Fail> {
    let mut words = format!(in alloc; "{}", line.y_from)?;
    for bend in line.bends.as_slice() {
        words = format!(in alloc; "{words}-{}", bend.y)?;
    }
    Ok(format!(in alloc; "{words}-{}", line.y_to)?)
}

/// A picture in words: its size, its boxes and its lines.
fn in_words(alloc: Global, picture: &Picture) -> Result<String, Fail> {
    let mut words = format!(in alloc; "{}x{}", picture.width, picture.height)?;
    for at in picture.boxes.as_slice() {
        let at = box_in_words(alloc, at)?;
        words = format!(in alloc; "{words} {at}")?;
    }
    with_lines(alloc, words, picture)
}

/// Words with the lines of a picture behind them.
fn with_lines(alloc: Global, words: String, picture: &Picture) -> Result<String, Fail> {
    let mut words = words;
    for line in picture.lines.as_slice() {
        let line = line_in_words(alloc, line)?;
        words = format!(in alloc; "{words} {line}")?;
    }
    Ok(words)
}

/// The picture of the graph of the term of these words, in words, or why there is none.
fn drawn(alloc: Global, words: &str) -> Result<String, Fail> {
    match layout(alloc, &graph(alloc, words)?) {
        Ok(picture) => in_words(alloc, &picture),
        Err(error) => Ok(format!(in alloc; "{error:?}")?),
    }
}

#[test]
fn small_graphs_have_their_pictures(rt: HostRuntime) -> Result<(), Fail> {
    let alloc = rt.alloc();
    for (words, picture) in [
        ("f g ;", "380x60 f@1:20+20 g@2:20+20 30-30 30-30 30-30"),
        ("sw", "180x100 30-70 70-30"),
        ("id0", "180x20"),
        // A wire goes past the first box.
        (
            "m id * m ;",
            "380x140 m@1:20+40 m@2:20+40 30-30 70-50 40-30 110-90-50 40-30",
        ),
        // Sweeps put each box beside the wire that it takes.
        (
            "f g * sw ;",
            "280x100 f@1:20+20 g@1:60+20 30-30 30-70 70-70 70-30",
        ),
    ] {
        assert!(rt; are(drawn(alloc, words)?, picture), "{words}");
    }
    Ok(())
}

#[test]
fn a_picture_that_is_too_big_is_refused(rt: HostRuntime) -> Result<(), Fail> {
    let alloc = rt.alloc();
    // 1,024 wires beside a chain of 256 boxes.
    let wires = doubled(alloc, "id", 10, "*")?;
    let words = beside(alloc, wires, doubled(alloc, "f", 8, ";")?)?;
    let error = drawn(alloc, &words);
    drop(words);
    assert!(rt; are(error?, "TooBig { points: 262400 }"));
    Ok(())
}
