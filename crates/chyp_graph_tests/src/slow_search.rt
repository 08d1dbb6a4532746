// A search over all lists of images, which asks of each what an occurrence is, beside the matcher.
ghost use Rattle.std.specs.Prelude.{◌<◌, length};

use crate::diagrams::{are, graph};
use crate::occurrences::images;
use crate::patterns::pattern_of;
use chyp_graph::{EdgeId, Graph, WireId};
use chyp_match::{Listed, Occurrences};
use chyp_pattern::Pattern;
use std::alloc::Global;
use std::test::Fail;

/// The images of the edges of a pattern and of its wires, by their numbers.
#[derive(Drop)]
struct Images {
    edges: Vec<u32>,
    wires: Vec<u32>,
}

/// Puts the next list of numbers below the bound in the place of this one, in lexicographic order, and the
/// first one in that of the last; whether there was a next one.
fn turn(numbers: &mut [u32], bound: u32) -> bool {
    for number in numbers.iter_mut().rev() {
        let next = number.saturating_add(1);
        if next < bound {
            *number = next;
            return true;
        }
        *number = 0;
    }
    false
}

/// Whether the number stands once in the list.
fn is_once(numbers: &[u32], number: u32) -> bool {
    numbers.iter().filter(|other| **other == number).count() == 1
}

/// Whether no number stands twice in the list.
fn are_apart(numbers: &[u32]) -> bool {
    numbers.iter().all(|number| is_once(numbers, *number))
}

/// Whether the images of wires are these.
fn keeps_ports(ports: &[WireId], images: &[WireId], wires: &[u32]) -> bool {
    ports.len() == images.len()
        && ports.iter().zip(images).all(|(port, image)| wires.get(port.0 as usize)
            == Some(&image.0))
}

/// Whether the edge and its image have one name, and ports by position.
fn keeps_edge(pattern: &Graph, target: &Graph, k: EdgeId, images: &Images) -> bool
    requires { k < length pattern.now.edges }
{
    let Some(image) = images.edges.get(k.0 as usize) else {
        return false;
    };
    if *image >= target.edge_count() {
        return false;
    }
    let edge = pattern.edge(k);
    let other = target.edge(EdgeId(*image));
    edge.name == other.name
        && keeps_ports(edge.sources, other.sources, &images.wires)
        && keeps_ports(edge.targets, other.targets, &images.wires)
}

/// Whether all edges are kept.
fn keeps_edges(pattern: &Graph, target: &Graph, images: &Images) -> bool {
    for k in 0..pattern.edge_count() {
        if !keeps_edge(pattern, target, EdgeId(k), images) {
            return false;
        }
    }
    true
}

/// Whether all wires go to wires. Their sorts are all plain.
fn keeps_wires(target: &Graph, images: &Images) -> bool {
    images.wires.iter().all(|wire| *wire < target.wire_count())
}

/// Whether a marked edge makes the wire.
fn is_made_by_marked(target: &Graph, wire: WireId, marks: &[bool]) -> bool {
    if wire.0 >= target.wire_count() {
        return false;
    }
    match target.producer(wire) {
        Some((maker, _)) => marks.get(maker.0 as usize) == Some(&true),
        None => false,
    }
}

/// Whether the edge takes an image wire, or a target of a marked edge.
fn is_led_to(target: &Graph, k: EdgeId, images: &Images, marks: &[bool]) -> bool
    requires { k < length target.now.edges }
{
    target.edge(k).sources.iter().any(|wire| images.wires.contains(&wire.0)
        || is_made_by_marked(target, *wire, marks))
}

/// Marks the edges outside the image that image wires or marked edges lead to.
fn mark(target: &Graph, images: &Images, marks: &mut [bool]) {
    for k in 0..target.edge_count() {
        if !images.edges.contains(&k) && is_led_to(target, EdgeId(k), images, marks) {
            if let Some(mark) = marks.get_mut(k as usize) {
                *mark = true;
            }
        }
    }
}

/// Whether a marked edge makes an image wire.
fn leads_back(target: &Graph, images: &Images, marks: &[bool]) -> bool {
    for k in 0..target.edge_count() {
        let makes = target
            .edge(EdgeId(k))
            .targets
            .iter()
            .any(|wire| images.wires.contains(&wire.0));
        if makes && marks.get(k as usize) == Some(&true) {
            return true;
        }
    }
    false
}

/// Whether no chain of edges outside the image leads from an image wire to an image wire.
fn is_convex(alloc: Global, target: &Graph, images: &Images) -> Result<bool, Fail> {
    let mut marks = vec![in alloc; false; target.edge_count() as usize]?;
    for _ in 0..target.edge_count() {
        mark(target, images, &mut marks);
    }
    Ok(!leads_back(target, images, &marks))
}

/// Whether the images are those of an occurrence.
fn occurs(alloc: Global, pattern: &Graph, target: &Graph, images: &Images) -> Result<bool, Fail> {
    if are_apart(&images.edges)
        && are_apart(&images.wires)
        && keeps_wires(target, images)
        && keeps_edges(pattern, target, images)
    {
        is_convex(alloc, target, images)
    } else {
        Ok(false)
    }
}

/// Numbers, each with a blank in front of it.
fn told(alloc: Global, numbers: &[u32]) -> Result<String, Fail> {
    let mut words = String::new(alloc);
    for number in numbers {
        words = format!(in alloc; "{words} {number}")?;
    }
    Ok(words)
}

/// The words, and behind them the images where they are those of an occurrence.
fn with_images(
    alloc: Global,
    (pattern, target): (&Graph, &Graph),
    images: &Images,
    words: String,
) -> Result<String, Fail> {
    if !occurs(alloc, pattern, target, images)? {
        return Ok(words);
    }
    let edges = told(alloc, &images.edges)?;
    let wires = told(alloc, &images.wires)?;
    Ok(format!(in alloc; "{words}{edges}:{wires};")?)
}

/// All occurrences of the one graph in the other, among at most 2,000,000 lists of images.
fn searched(alloc: Global, pattern: &Graph, target: &Graph) -> Result<String, Fail> {
    let mut images = Images {
        edges: vec![in alloc; 0; pattern.edge_count() as usize]?,
        wires: vec![in alloc; 0; pattern.wire_count() as usize]?,
    };
    let mut words = String::new(alloc);
    for _ in 0..2_000_000u32 {
        words = with_images(alloc, (pattern, target), &images, words)?;
        if !turn(&mut images.wires, target.wire_count())
            && !turn(&mut images.edges, target.edge_count())
        {
            return Ok(words);
        }
    }
    Err(Fail::new("too many lists of images"))
}

/// All that the matcher gives of its next 10,000 occurrences, in words.
fn given(alloc: Global, occurrences: &mut Occurrences) -> Result<String, Fail> {
    let mut words = String::new(alloc);
    for _ in 0..10_000u32 {
        let Some(at) = occurrences.next() else {
            return Ok(words);
        };
        let at = images(alloc, at)?;
        words = format!(in alloc; "{words}{at};")?;
    }
    Err(Fail::new("too many occurrences"))
}

/// All occurrences of the pattern that the matcher gives, in words.
fn matched(alloc: Global, pattern: &Pattern, target: &Graph) -> Result<String, Fail> {
    let listed = Listed::of(alloc, target)?;
    let mut occurrences = Occurrences::new(alloc, pattern, &listed)?;
    let words = given(alloc, &mut occurrences);
    // As a call, it takes one step of the proof.
    drop(occurrences);
    words
}

/// Whether both find the same, in the same order.
fn agree(alloc: Global, pattern: &Pattern, target: &Graph) -> Result<bool, Fail> {
    let found = matched(alloc, pattern, target)?;
    let wanted = searched(alloc, pattern.graph(), target)?;
    Ok(are(found, wanted.as_str()))
}

/// Whether both find the same in the graph of these words.
fn agree_in(alloc: Global, pattern: &Pattern, target: &str) -> Result<bool, Fail> {
    let target = graph(alloc, target)?;
    let agreed = agree(alloc, pattern, &target);
    drop(target);
    agreed
}

/// Whether both find the same of the pattern in each of the graphs of these words.
fn agree_in_all(alloc: Global, pattern: &Pattern, targets: &[&str]) -> Result<bool, Fail> {
    for target in targets {
        if !agree_in(alloc, pattern, target)? {
            return Ok(false);
        }
    }
    Ok(true)
}

/// Whether both find the same of the graph of these words in each of the others.
fn agree_on(alloc: Global, pattern: &str, targets: &[&str]) -> Result<bool, Fail> {
    let pattern = pattern_of(alloc, pattern)?;
    let agreed = agree_in_all(alloc, &pattern, targets);
    drop(pattern);
    agreed
}

#[test]
fn the_matcher_finds_what_a_slow_search_finds(rt: HostRuntime) -> Result<(), Fail> {
    let alloc = rt.alloc();
    for pattern in [
        "id0",
        "id",
        "id2",
        "sw",
        "f",
        "f f *",
        "f f ;",
        "f g * sw ;",
        "f id *",
        "s",
        "s s *",
        "s f *",
        "u v *",
        "u id * m ;",
        "id m * m ;",
        "m f ;",
        "f h *",
    ] {
        assert!(rt;
            agree_on(
                alloc,
                pattern,
                &[
                    "id0",
                    "id",
                    "f f ;",
                    "f f *",
                    "f g ; h ;",
                    "g f * sw ; f h * ;",
                    "u u * m ;",
                    "id m * m ; f ;",
                    "s f * s *",
                    "u f ; v ; s * t *"
                ],
            )?,
            "{pattern}"
        );
    }
    Ok(())
}
