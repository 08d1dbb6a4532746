// Pictures and their texts.
ghost use Rattle.std.specs.Prelude.{◌≡◌, ◌<◌, IfOk};

use crate::pictures::{associativity, bent, nothing, one_box, swap, two_in_a_row};
use crate::whole::is_whole;
use chyp_base::MemSink;
use chyp_picture::Picture;
use chyp_svg::{svg_len, write_svg};
use std::alloc::Global;
use std::process::Abort;
use std::test::Fail;

// Two boxes in a row.
fn two_in_a_row_text() -> &'static str {
    "<svg xmlns=\"http://www.w3.org/2000/svg\" viewBox=\"0 0 380 60\">
<path d=\"M 40 30 C 80 30 80 30 120 30\" fill=\"none\" stroke=\"black\"/>
<path d=\"M 160 30 C 190 30 190 30 220 30\" fill=\"none\" stroke=\"black\"/>
<path d=\"M 260 30 C 300 30 300 30 340 30\" fill=\"none\" stroke=\"black\"/>
<rect x=\"120\" y=\"20\" width=\"40\" height=\"20\" fill=\"white\" stroke=\"black\"/>
<text x=\"140\" y=\"34\" text-anchor=\"middle\" font-size=\"12\">f</text>
<rect x=\"220\" y=\"20\" width=\"40\" height=\"20\" fill=\"white\" stroke=\"black\"/>
<text x=\"240\" y=\"34\" text-anchor=\"middle\" font-size=\"12\">g</text>
</svg>
"
}

fn swap_text() -> &'static str {
    "<svg xmlns=\"http://www.w3.org/2000/svg\" viewBox=\"0 0 180 100\">
<path d=\"M 40 30 C 90 30 90 70 140 70\" fill=\"none\" stroke=\"black\"/>
<path d=\"M 40 70 C 90 70 90 30 140 30\" fill=\"none\" stroke=\"black\"/>
</svg>
"
}

fn nothing_text() -> &'static str {
    "<svg xmlns=\"http://www.w3.org/2000/svg\" viewBox=\"0 0 180 20\">
</svg>
"
}

// Two boxes, and a wire that goes past the first.
fn associativity_text() -> &'static str {
    "<svg xmlns=\"http://www.w3.org/2000/svg\" viewBox=\"0 0 380 140\">
<path d=\"M 40 30 C 80 30 80 30 120 30\" fill=\"none\" stroke=\"black\"/>
<path d=\"M 40 70 C 80 70 80 50 120 50\" fill=\"none\" stroke=\"black\"/>
<path d=\"M 160 40 C 190 40 190 30 220 30\" fill=\"none\" stroke=\"black\"/>
<path d=\"M 40 110 C 90 110 90 90 140 90 C 180 90 180 50 220 50\" fill=\"none\" stroke=\"black\"/>
<path d=\"M 260 40 C 300 40 300 30 340 30\" fill=\"none\" stroke=\"black\"/>
<rect x=\"120\" y=\"20\" width=\"40\" height=\"40\" fill=\"white\" stroke=\"black\"/>
<text x=\"140\" y=\"44\" text-anchor=\"middle\" font-size=\"12\">m</text>
<rect x=\"220\" y=\"20\" width=\"40\" height=\"40\" fill=\"white\" stroke=\"black\"/>
<text x=\"240\" y=\"44\" text-anchor=\"middle\" font-size=\"12\">m</text>
</svg>
"
}

// One box that a wire crosses, and then goes past.
fn bent_text() -> &'static str {
    "<svg xmlns=\"http://www.w3.org/2000/svg\" viewBox=\"0 0 280 100\">
<path d=\"M 40 30 C 80 30 80 70 120 70\" fill=\"none\" stroke=\"black\"/>
<path d=\"M 160 70 C 200 70 200 70 240 70\" fill=\"none\" stroke=\"black\"/>
<path d=\"M 40 70 C 90 70 90 30 140 30 C 190 30 190 30 240 30\" fill=\"none\" stroke=\"black\"/>
<rect x=\"120\" y=\"60\" width=\"40\" height=\"20\" fill=\"white\" stroke=\"black\"/>
<text x=\"140\" y=\"74\" text-anchor=\"middle\" font-size=\"12\">plus</text>
</svg>
"
}

// A sink with room for a drawing, which fails at one of its calls.
fn sink(alloc: Global, failing: Option<u64>) -> Result<MemSink, Fail>
    ensures { IfOk result (λ sink. sink.faults ≡ 0) }
{
    let mut calls = Vec::new(alloc);
    if let Some(call) = failing {
        calls.push(call)?;
    }
    Ok(MemSink::new(alloc, 2000, 7, calls)?)
}

// The picture has this text.
fn is_drawn_as(rt: &impl Abort, alloc: Global, picture: &Picture, text: &str) -> Result<(), Fail> {
    assert!(rt; is_whole(picture));
    assert_eq!(rt; svg_len(picture), text.len() as u64);
    let mut sink = sink(alloc, None)?;
    assert!(rt; write_svg(picture, &mut sink).is_ok());
    assert_eq!(rt; sink.written(), text.as_bytes());
    Ok(())
}

#[test]
fn drawings_are_exact(rt: HostRuntime) -> Result<(), Fail> {
    let alloc = rt.alloc();
    is_drawn_as(&rt, alloc, &two_in_a_row(alloc)?, two_in_a_row_text())?;
    is_drawn_as(&rt, alloc, &swap(alloc)?, swap_text())?;
    is_drawn_as(&rt, alloc, &nothing(alloc), nothing_text())?;
    is_drawn_as(&rt, alloc, &associativity(alloc)?, associativity_text())?;
    is_drawn_as(&rt, alloc, &bent(alloc)?, bent_text())
}

// The text of a box without wires, as far as its label.
fn before_label() -> &'static str {
    "<svg xmlns=\"http://www.w3.org/2000/svg\" viewBox=\"0 0 280 60\">
<rect x=\"120\" y=\"20\" width=\"40\" height=\"20\" fill=\"white\" stroke=\"black\"/>
<text x=\"140\" y=\"34\" text-anchor=\"middle\" font-size=\"12\">"
}

fn behind_label() -> &'static str {
    "</text>
</svg>
"
}

// The label of a box with this name.
fn label_is(rt: &impl Abort, alloc: Global, name: &str, label: &str) -> Result<(), Fail> {
    let mut text = String::new(alloc);
    text.push_str(before_label())?;
    text.push_str(label)?;
    text.push_str(behind_label())?;
    is_drawn_as(rt, alloc, &one_box(alloc, name)?, text.as_str())
}

#[test]
fn labels_are_names_without_modules_and_escaped(rt: HostRuntime) -> Result<(), Fail> {
    let cases = [
        ("a&b", "a&amp;b"),
        ("\"<>\"", "&quot;&lt;&gt;&quot;"),
        ("&&x", "&amp;&amp;x"),
        ("x<", "x&lt;"),
        ("arith/plus", "plus"),
        ("a<b/c/d>e", "d&gt;e"),
        ("a/", ""),
        ("", ""),
    ];
    for (name, label) in cases {
        label_is(&rt, rt.alloc(), name, label)?;
    }
    Ok(())
}

// A sink that fails at this call has taken a beginning of the text, and less than all of it.
fn is_cut(
    rt: &impl Abort,
    alloc: Global,
    picture: &Picture,
    call: u64,
    text: &[u8],
) -> Result<(), Fail> {
    assert!(rt; is_whole(picture));
    let mut sink = sink(alloc, Some(call))?;
    assert!(rt; write_svg(picture, &mut sink).is_err(), "at {call}");
    let written = sink.written();
    assert!(rt;
        written.len() < text.len() && text.starts_with(written),
        "at {call}"
    );
    Ok(())
}

#[test]
fn a_failure_ends_the_text_there(rt: HostRuntime) -> Result<(), Fail> {
    let alloc = rt.alloc();
    let picture = two_in_a_row(alloc)?;
    let text = two_in_a_row_text().as_bytes();
    for call in 0..100 {
        is_cut(&rt, alloc, &picture, call, text)?;
    }
    Ok(())
}
