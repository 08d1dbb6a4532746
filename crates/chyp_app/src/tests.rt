// Whole runs over memory.
ghost use Rattle.std.specs.Prelude.{◌≡◌, ◌<◌, IfOk};

use crate::complaint;
use crate::run::run;
use chyp_base::{MemLibrary, MemSink, MemSource, Name, Status, Steps, Text};
use std::alloc::Global;
use std::marker::Brand;
use std::sync::ledger::{Blank, Ledger};
use std::test::Fail;

struct Case {
    text: &'static [u8],
    status: Status,
    written: &'static str,
}

const CASES: [Case; 35] = [
    Case {
        text: b"",
        status: Status::Done,
        written: "total 0 good 0\n",
    },
    Case {
        text: b"rewrite n : sw ; sw = id * id",
        status: Status::Done,
        written: "1:1 rewrite n proved\ntotal 1 good 1\n",
    },
    Case {
        text: b"rewrite n : sw = id * id",
        status: Status::SomeNotGood,
        written: "1:1 rewrite n step 1 differs\ntotal 1 good 0\n",
    },
    Case {
        text: b"gen f : 1 -> 1",
        status: Status::Done,
        written: "1:1 gen f ok\ntotal 1 good 1\n",
    },
    // Swaps of neighbours: the two ways to turn three wires round are one.
    Case {
        text: b"# Yang and Baxter\r\nrewrite yb : sw * id ; id * sw ; sw * id\r\n  = id * sw ; sw * id ; id * sw\r\n",
        status: Status::Done,
        written: "2:1 rewrite yb proved\ntotal 1 good 1\n",
    },
    // Generators slide through a swap.
    Case {
        text: b"gen f : 1 -> 1\ngen g : 1 -> 1\nrewrite n : f * g ; sw = sw ; g * f\n",
        status: Status::Done,
        written: "1:1 gen f ok\n2:1 gen g ok\n3:1 rewrite n proved\ntotal 3 good 3\n",
    },
    // But side by side they don't commute.
    Case {
        text: b"gen f : 1 -> 1\ngen g : 1 -> 1\nrewrite x : f * g = g * f\n",
        status: Status::SomeNotGood,
        written: "1:1 gen f ok\n2:1 gen g ok\n3:1 rewrite x step 1 differs\ntotal 3 good 2\n",
    },
    // The interchange law, in two steps.
    Case {
        text: b"gen f : 1 -> 1\ngen g : 1 -> 1\nrewrite a : f * id ; id * g = id * g ; f * id = f * g\n",
        status: Status::Done,
        written: "1:1 gen f ok\n2:1 gen g ok\n3:1 rewrite a proved\ntotal 3 good 3\n",
    },
    // A scalar doesn't vanish.
    Case {
        text: b"gen s : 0 -> 0\ngen f : 1 -> 1\nrewrite a : f * s = f\n",
        status: Status::SomeNotGood,
        written: "1:1 gen s ok\n2:1 gen f ok\n3:1 rewrite a step 1 differs\ntotal 3 good 2\n",
    },
    // Scalars commute.
    Case {
        text: b"gen c : 0 -> 1\ngen k : 0 -> 1\ngen d : 1 -> 0\nrewrite e : (c ; d) * (k ; d) = (k ; d) * (c ; d)\n",
        status: Status::Done,
        written: "1:1 gen c ok\n2:1 gen k ok\n3:1 gen d ok\n4:1 rewrite e proved\ntotal 4 good 4\n",
    },
    // The first of two statements with one name binds it.
    Case {
        text: b"gen f : 1 -> 1\ngen f : 0 -> 1\nrewrite a : f ; f = f ; f",
        status: Status::SomeNotGood,
        written: "1:1 gen f ok\n2:1 gen f declared at 2:5\n3:1 rewrite a proved\ntotal 3 good 2\n",
    },
    // Faults of names.
    Case {
        text: b"gen f : 1 -> 1\nrule r : f = f\nlet x = r\nlet y = x\nlet z = zz\n",
        status: Status::SomeNotGood,
        written: "1:1 gen f ok\n2:1 rule r ok\n3:1 let x kind at 3:9\n4:1 let y broken at 4:9\n5:1 let z unknown at 5:9\ntotal 5 good 2\n",
    },
    // Types, places and ports.
    Case {
        text: b"gen m : 2 -> 1\nlet x = m ; m\nlet y = sw[0,0]\ngen a : 64 -> 0\ngen b : 65 -> 0\n",
        status: Status::SomeNotGood,
        written: "1:1 gen m ok\n2:1 let x type at 2:11\n3:1 let y type at 3:9\n4:1 gen a ok\n5:1 gen b too-big\ntotal 5 good 2\n",
    },
    // A statement that is cut off.
    Case {
        text: b"gen f : 1 -> 1\nrewrite a : f =",
        status: Status::SomeNotGood,
        written: "1:1 gen f ok\n2:1 rewrite a syntax at 2:16\ntotal 2 good 1\n",
    },
    Case {
        text: b"gen f : 1 -> 1\nrewrite a : f",
        status: Status::SomeNotGood,
        written: "1:1 gen f ok\n2:1 rewrite a open\ntotal 2 good 1\n",
    },
    // One wire doesn't fit two.
    Case {
        text: b"rewrite a : id ; sw = sw",
        status: Status::SomeNotGood,
        written: "1:1 rewrite a type at 1:16\ntotal 1 good 0\n",
    },
    Case {
        text: b"rewrite a : id\nrewrite a : id = id",
        status: Status::SomeNotGood,
        written: "1:1 rewrite a open\n2:1 rewrite a declared at 2:9\ntotal 2 good 0\n",
    },
    // A run of rules that comes to no end.
    Case {
        text: b"gen f : 1 -> 1\nrule r : f = f\nrewrite a : f = f by simp(r)\nrewrite b : f = f by a",
        status: Status::SomeNotGood,
        written: "1:1 gen f ok\n2:1 rule r ok\n3:1 rewrite a step 1 simp-limit\n4:1 rewrite b unproved at 4:22\ntotal 4 good 2\n",
    },
    // Normal forms are compared by the laws.
    Case {
        text: b"gen f : 1 -> 1\ngen g : 1 -> 1\nrule r : f = g\nrewrite a : f ; f = g ; g by simp(r)\nrewrite b : f ; f = g by simp(r)",
        status: Status::SomeNotGood,
        written: "1:1 gen f ok\n2:1 gen g ok\n3:1 rule r ok\n4:1 rewrite a proved\n5:1 rewrite b step 1 simp-differs\ntotal 5 good 4\n",
    },
    // A proved rewrite is a rule.
    Case {
        text: b"gen f : 1 -> 1\nrewrite a : f = f\nrewrite b : id = id by a\nrewrite c : f ; f = f ; f by a\nrewrite d : f = ? by a",
        status: Status::SomeNotGood,
        written: "1:1 gen f ok\n2:1 rewrite a proved\n3:1 rewrite b step 1 no-rewrite 0\n4:1 rewrite c proved\n5:1 rewrite d open\ntotal 5 good 3\n",
    },
    // Both boxes of the left side are there, and no context has them side by side.
    Case {
        text: b"gen f : 1 -> 1\ngen g : 1 -> 1\ngen h : 1 -> 1\nrule p : f * h = h * f\nrewrite c : f ; g ; h = h ; g ; f by p\n",
        status: Status::SomeNotGood,
        written: "1:1 gen f ok\n2:1 gen g ok\n3:1 gen h ok\n4:1 rule p ok\n5:1 rewrite c step 1 no-rewrite 0\ntotal 5 good 4\n",
    },
    // The left side of the second step is a bare wire, at two places, of which the second leads to
    // the goal.
    Case {
        text: b"gen f : 1 -> 1\ngen m : 2 -> 1\ngen u : 0 -> 1\nrule unitL : u * id ; m = id\nrewrite a : u * u ; m = u by unitL\nrewrite b : f = u * f ; m by -unitL\n",
        status: Status::Done,
        written: "1:1 gen f ok\n2:1 gen m ok\n3:1 gen u ok\n4:1 rule unitL ok\n5:1 rewrite a proved\n6:1 rewrite b proved\ntotal 6 good 6\n",
    },
    // The left side is empty.
    Case {
        text: b"gen f : 1 -> 1\ngen s : 0 -> 0\nrule q : id0 = s\nrewrite d : f = f * s by q\n",
        status: Status::Done,
        written: "1:1 gen f ok\n2:1 gen s ok\n3:1 rule q ok\n4:1 rewrite d proved\ntotal 4 good 4\n",
    },
    // 16 times 15 times 14 times 13 occurrences, of which none leads to the goal.
    Case {
        text: b"gen s : 0 -> 0\nrule z : s * s * s * s = s\nrewrite w : s * s * s * s * s * s * s * s * s * s * s * s * s * s * s * s = s * s * s * s * s * s * s * s * s * s * s * s * s * s * s * s by z\n",
        status: Status::SomeNotGood,
        written: "1:1 gen s ok\n2:1 rule z ok\n3:1 rewrite w step 1 no-rewrite 43680\ntotal 3 good 2\n",
    },
    // 17 times 17 times 17 times 17 placements, which are too many.
    Case {
        text: b"gen s : 0 -> 0\nrule z : s * s * s * s = s\nrewrite w : s * s * s * s * s * s * s * s * s * s * s * s * s * s * s * s * s = s * s * s * s * s * s * s * s * s * s * s * s * s * s * s * s * s by z\n",
        status: Status::SomeNotGood,
        written: "1:1 gen s ok\n2:1 rule z ok\n3:1 rewrite w step 1 too-wide 83521\ntotal 3 good 2\n",
    },
    // Steps are judged up to the first that isn't good, and a rewrite that isn't proved is no rule.
    Case {
        text: b"gen f : 1 -> 1\ngen g : 1 -> 1\nrule r : f = g\nrewrite a : f = g by r = f ; f\nrewrite b : f = f ; f by a\n",
        status: Status::SomeNotGood,
        written: "1:1 gen f ok\n2:1 gen g ok\n3:1 rule r ok\n4:1 rewrite a step 2 differs\n5:1 rewrite b unproved at 5:26\ntotal 5 good 3\n",
    },
    // A rule is read from left to right, and behind a minus from right to left.
    Case {
        text: b"gen f : 1 -> 1\ngen g : 1 -> 1\nrule r : f = g\nrewrite a : f ; f = f ; g by r\nrewrite b : f ; f = f ; g by -r\nrewrite c : f ; g = f ; f by -r\n",
        status: Status::SomeNotGood,
        written: "1:1 gen f ok\n2:1 gen g ok\n3:1 rule r ok\n4:1 rewrite a proved\n5:1 rewrite b step 1 no-rewrite 0\n6:1 rewrite c proved\ntotal 6 good 5\n",
    },
    // A dotted name binds nothing.
    Case {
        text: b"rewrite a.b : id = id",
        status: Status::SomeNotGood,
        written: "1:1 rewrite a.b syntax at 1:9\ntotal 1 good 0\n",
    },
    // What stands before the first keyword is one statement.
    Case {
        text: b"x y z show q type type",
        status: Status::SomeNotGood,
        written: "1:1 stray - syntax at 1:1\n1:7 show q unknown at 1:12\n1:14 type - syntax at 1:14\n1:19 type - syntax at 1:19\ntotal 4 good 0\n",
    },
    Case {
        text: b"\n\n  import m as n",
        status: Status::SomeNotGood,
        written: "3:3 import m no-module at 3:10\ntotal 1 good 0\n",
    },
    // Bytes in a comment are skipped, whatever they are.
    Case {
        text: b"# \xFF\ngen f : 1 -> 1\n",
        status: Status::Done,
        written: "2:1 gen f ok\ntotal 1 good 1\n",
    },
    Case {
        text: b"\xFF",
        status: Status::SomeNotGood,
        written: "1:1 stray - syntax at 1:1\ntotal 1 good 0\n",
    },
    // A byte order mark is a bad token.
    Case {
        text: b"\xEF\xBB\xBFrewrite n : id = id",
        status: Status::SomeNotGood,
        written: "1:1 stray - syntax at 1:1\n1:4 rewrite n proved\ntotal 2 good 1\n",
    },
    // The first fault in the order of refusals decides.
    Case {
        text: b"gen f : 1 -> 1\nlet g = h\nlet f = zz\nshow g\nlet k = g ; r ; zz\nrule r : f = g * f\n",
        status: Status::SomeNotGood,
        written: "1:1 gen f ok\n2:1 let g unknown at 2:9\n3:1 let f declared at 3:5\n4:1 show g ok\n5:1 let k broken at 5:9\n6:1 rule r broken at 6:14\ntotal 6 good 2\n",
    },
    // Terms that double: the tenth has 1,024 generators.
    Case {
        text: b"gen f : 1 -> 1\nlet a1 = f ; f\nlet a2 = a1 ; a1\nlet a3 = a2 ; a2\nlet a4 = a3 ; a3\nlet a5 = a4 ; a4\nlet a6 = a5 ; a5\nlet a7 = a6 ; a6\nlet a8 = a7 ; a7\nlet a9 = a8 ; a8\nlet a10 = a9 ; a9\nlet a11 = a10 ; a10\n",
        status: Status::SomeNotGood,
        written: "1:1 gen f ok\n2:1 let a1 ok\n3:1 let a2 ok\n4:1 let a3 ok\n5:1 let a4 ok\n6:1 let a5 ok\n7:1 let a6 ok\n8:1 let a7 ok\n9:1 let a8 ok\n10:1 let a9 ok\n11:1 let a10 ok\n12:1 let a11 too-big\ntotal 12 good 11\n",
    },
];

fn run_counted<G: Ledger>(
    alloc: Global,
    words: &[&str],
    outside: (MemSource, MemLibrary),
    sink: &mut MemSink,
    blank: Blank,
) -> Status
    requires name { blank.name ≡ G.name }
    requires parts { blank.parts ≡ G.parts }
    requires some { 0 < G.parts }
    requires source { outside.0.faults ≡ 0 }
    requires library { outside.1.faults ≡ 0 }
    requires sink { sink.old.faults ≡ 0 }
{
    let (mut source, mut library) = outside;
    let mut steps = Steps::<G>::new(blank);
    run(alloc, words, &mut source, sink, &mut library, &mut steps)
}

fn run_over(
    alloc: Global,
    words: &[&str],
    source: MemSource,
    library: MemLibrary,
    sink: &mut MemSink,
) -> Status
    requires source { source.faults ≡ 0 }
    requires library { library.faults ≡ 0 }
    requires sink { sink.old.faults ≡ 0 }
{
    run_counted::<Brand>(alloc, words, (source, library), sink, Blank::new(1))
}

// A run without modules.
fn run_alone(alloc: Global, words: &[&str], source: MemSource, sink: &mut MemSink) -> Status
    requires source { source.faults ≡ 0 }
    requires sink { sink.old.faults ≡ 0 }
{
    let library = MemLibrary::new(Vec::new(alloc), Vec::new(alloc));
    run_over(alloc, words, source, library, sink)
}

// A run of `check` with no fault.
fn check(alloc: Global, text: &[u8], piece: usize, sink: &mut MemSink) -> Result<Status, Fail>
    requires piece { 0 < piece }
    requires sink { sink.old.faults ≡ 0 }
{
    let source = MemSource::new(text.to_vec(alloc)?, piece, Vec::new(alloc));
    Ok(run_alone(alloc, &["check"], source, sink))
}

// Fails unless the text has its report, whatever the pieces that it comes in.
fn check_case(alloc: Global, case: &Case) -> Result<(), Fail> {
    for piece in [1, 3, 4096] {
        let mut sink = MemSink::new(alloc, 1000, piece, Vec::new(alloc))?;
        let status = check(alloc, case.text, piece, &mut sink)?;
        if status != case.status || sink.written() != case.written.as_bytes() {
            return Err(Fail::new(case.written));
        }
    }
    Ok(())
}

#[test]
fn each_text_has_its_report(rt: HostRuntime) -> Result<(), Fail> {
    for case in &CASES {
        check_case(rt.alloc(), case)?;
    }
    Ok(())
}

// The status for these words, over a sink that must stay empty.
fn refused(rt: &HostRuntime, words: &[&str]) -> Result<Status, Fail> {
    let alloc = rt.alloc();
    let source = MemSource::new(b"x".to_vec(alloc)?, 1, Vec::new(alloc));
    let mut sink = MemSink::new(alloc, 100, 100, Vec::new(alloc))?;
    let status = run_alone(alloc, words, source, &mut sink);
    if !sink.written().is_empty() {
        return Err(Fail::new("something was written"));
    }
    Ok(status)
}

#[test]
fn words_that_are_not_accepted_are_refused(rt: HostRuntime) -> Result<(), Fail> {
    for word in ["checks", "", "--help", "Check", "live", "generate"] {
        assert_eq!(rt; refused(&rt, &[word])?, Status::BadWords, "{word}");
    }
    assert_eq!(rt; refused(&rt, &["check", "x"])?, Status::BadWords);
    assert_eq!(rt; refused(&rt, &[])?, Status::BadWords);
    Ok(())
}

const MODULES: [(&str, &str); 6] = [
    ("monoid", "gen m : 2 -> 1\n"),
    ("a", "import monoid\n"),
    ("b", "import monoid\n"),
    ("c", "import d\n"),
    ("d", "import c\n"),
    ("e", "gen m : 2 -> 1\n"),
];

const IMPORTS: [Case; 6] = [
    // A name that comes by two ways is one.
    Case {
        text: b"import a\nimport b\nrewrite x : m = m\n",
        status: Status::Done,
        written: "1:1 import a ok\n2:1 import b ok\n3:1 rewrite x proved\ntotal 3 good 3\n",
    },
    // Generators of two modules are two, behind their prefixes.
    Case {
        text: b"import monoid as p\nimport e as q\nrewrite x : p.m = q.m\n",
        status: Status::SomeNotGood,
        written: "1:1 import monoid ok\n2:1 import e ok\n3:1 rewrite x step 1 differs\ntotal 3 good 2\n",
    },
    Case {
        text: b"import monoid\nimport e\n",
        status: Status::SomeNotGood,
        written: "1:1 import monoid ok\n2:1 import e clash m\ntotal 2 good 1\n",
    },
    Case {
        text: b"import c\n",
        status: Status::SomeNotGood,
        written: "1:1 import c cycle at 1:8\ntotal 1 good 0\n",
    },
    Case {
        text: b"import zz\n",
        status: Status::SomeNotGood,
        written: "1:1 import zz no-module at 1:8\ntotal 1 good 0\n",
    },
    Case {
        text: b"import a import a import a",
        status: Status::Done,
        written: "1:1 import a ok\n1:10 import a ok\n1:19 import a ok\ntotal 3 good 3\n",
    },
];

fn module(alloc: Global, name: &str, text: &str) -> Result<(Name, Text), Fail> {
    let text = Text::from_vec(Vec::from_slice(alloc, text.as_bytes())?);
    Ok((Name::new(alloc, name)?, text))
}

// A library of modules, which fails at these calls.
fn library_of(alloc: Global, failing: &[u64]) -> Result<MemLibrary, Fail>
    ensures { IfOk result (λ library. library.faults ≡ 0) }
{
    let mut modules = Vec::new(alloc);
    for (name, text) in &MODULES {
        modules.push(module(alloc, name, text)?)?;
    }
    Ok(MemLibrary::new(modules, failing.to_vec(alloc)?))
}

// A run of `check` over a library.
fn check_over(
    alloc: Global,
    text: &[u8],
    library: MemLibrary,
    sink: &mut MemSink,
) -> Result<Status, Fail>
    requires library { library.faults ≡ 0 }
    requires sink { sink.old.faults ≡ 0 }
{
    let source = MemSource::new(text.to_vec(alloc)?, 4096, Vec::new(alloc));
    Ok(run_over(alloc, &["check"], source, library, sink))
}

#[test]
fn modules_are_read(rt: HostRuntime) -> Result<(), Fail> {
    let alloc = rt.alloc();
    for case in &IMPORTS {
        let mut sink = MemSink::new(alloc, 1000, 1000, Vec::new(alloc))?;
        let status = check_over(alloc, case.text, library_of(alloc, &[])?, &mut sink)?;
        assert_eq!(rt; status, case.status, "{}", case.written);
        assert_eq!(rt; sink.written(), case.written.as_bytes());
    }
    Ok(())
}

#[test]
fn a_library_fault_ends_the_run(rt: HostRuntime) -> Result<(), Fail> {
    let alloc = rt.alloc();
    for failing in 0..3 {
        let mut sink = MemSink::new(alloc, 100, 100, Vec::new(alloc))?;
        let library = library_of(alloc, &[failing])?;
        let status = check_over(alloc, b"import a import b", library, &mut sink)?;
        assert_eq!(rt; status, Status::LibraryFault, "{failing}");
        assert_eq!(rt; sink.written().len(), 0);
    }
    Ok(())
}

// A library of this many modules with one text, and a text that imports each.
fn many_modules(alloc: Global, count: usize, text: &str) -> Result<(MemLibrary, String), Fail>
    ensures { IfOk result (λ made. made.0.faults ≡ 0) }
{
    let mut modules = Vec::new(alloc);
    let mut imports = String::new(alloc);
    for number in 0..count {
        let name = format!(in alloc; "m{number}")?;
        modules.push(module(alloc, name.as_str(), text)?)?;
        imports.push_str("import ")?;
        imports.push_str(name.as_str())?;
        imports.push_str("\n")?;
    }
    Ok((MemLibrary::new(modules, Vec::new(alloc)), imports))
}

#[test]
fn modules_past_the_limits_are_refused(rt: HostRuntime) -> Result<(), Fail> {
    let alloc = rt.alloc();
    for (count, len, status, total) in [
        (64, 0, Status::Done, "total 64 good 64\n"),
        (65, 0, Status::TooLong, ""),
        (1, 1_048_576, Status::Done, "total 1 good 1\n"),
        (1, 1_048_577, Status::TooLong, ""),
    ] {
        let text = " ".repeat(alloc, len)?;
        let (library, imports) = many_modules(alloc, count, text.as_str())?;
        let mut sink = MemSink::new(alloc, 10_000, 10_000, Vec::new(alloc))?;
        assert_eq!(rt;
            check_over(alloc, imports.as_bytes(), library, &mut sink)?,
            status
        );
        assert!(rt; sink.written().ends_with(total.as_bytes()), "{total}");
        assert_eq!(rt; sink.written().is_empty(), total.is_empty());
    }
    Ok(())
}

// A library of this many modules, of which each imports the one before, and a text that imports the last.
fn modules_in_a_row(alloc: Global, count: usize) -> Result<(MemLibrary, String), Fail>
    ensures { IfOk result (λ made. made.0.faults ≡ 0) }
{
    let mut modules = Vec::new(alloc);
    let mut text = String::new(alloc);
    for number in 0..count {
        let name = format!(in alloc; "m{number}")?;
        modules.push(module(alloc, name.as_str(), text.as_str())?)?;
        text = format!(in alloc; "import m{number}")?;
    }
    Ok((MemLibrary::new(modules, Vec::new(alloc)), text))
}

#[test]
fn modules_in_a_row_are_read(rt: HostRuntime) -> Result<(), Fail> {
    let alloc = rt.alloc();
    for (count, status, written) in [
        (64, Status::Done, "1:1 import m63 ok\ntotal 1 good 1\n"),
        (65, Status::TooLong, ""),
    ] {
        let (library, text) = modules_in_a_row(alloc, count)?;
        let mut sink = MemSink::new(alloc, 100, 100, Vec::new(alloc))?;
        assert_eq!(rt;
            check_over(alloc, text.as_bytes(), library, &mut sink)?,
            status
        );
        assert_eq!(rt; sink.written(), written.as_bytes());
    }
    Ok(())
}

const TEXT: &[u8] = b"gen f : 1 -> 1\ngen g : 1 -> 1\nrewrite n : f * g ; sw = sw ; g * f\n";

const REPORT: &[u8] = b"1:1 gen f ok\n2:1 gen g ok\n3:1 rewrite n proved\ntotal 3 good 3\n";

#[test]
fn a_read_fault_ends_the_run(rt: HostRuntime) -> Result<(), Fail> {
    let alloc = rt.alloc();
    // In pieces of 4 bytes the text takes 17 reads, and one that finds the end.
    for failing in 0..18 {
        let source = MemSource::new(TEXT.to_vec(alloc)?, 4, [failing].to_vec(alloc)?);
        let mut sink = MemSink::new(alloc, 100, 100, Vec::new(alloc))?;
        let status = run_alone(alloc, &["check"], source, &mut sink);
        assert_eq!(rt; status, Status::ReadFault, "{failing}");
        assert_eq!(rt; sink.written().len(), 0);
    }
    Ok(())
}

#[test]
fn a_write_fault_ends_the_run(rt: HostRuntime) -> Result<(), Fail> {
    let alloc = rt.alloc();
    for (failing, count) in [(0, 0), (1, 10), (3, 30)] {
        let source = MemSource::new(TEXT.to_vec(alloc)?, 4, Vec::new(alloc));
        let mut sink = MemSink::new(alloc, 100, 10, [failing].to_vec(alloc)?)?;
        let status = run_alone(alloc, &["check"], source, &mut sink);
        assert_eq!(rt; status, Status::WriteFault, "{failing}");
        assert_eq!(rt; sink.written(), &REPORT[..count], "{failing}");
    }
    let mut sink = MemSink::new(alloc, 20, 7, Vec::new(alloc))?;
    assert_eq!(rt; check(alloc, TEXT, 4, &mut sink)?, Status::WriteFault);
    assert_eq!(rt; sink.written(), &REPORT[..20]);
    Ok(())
}

#[test]
fn a_text_past_the_limit_is_refused(rt: HostRuntime) -> Result<(), Fail> {
    let alloc = rt.alloc();
    for (len, status, written) in [
        (1_048_576, Status::Done, "total 0 good 0\n"),
        (1_048_577, Status::TooLong, ""),
    ] {
        let mut sink = MemSink::new(alloc, 100, 100, Vec::new(alloc))?;
        let text = vec![in alloc; b' '; len]?;
        assert_eq!(rt; check(alloc, &text, 5000, &mut sink)?, status);
        assert_eq!(rt; sink.written(), written.as_bytes());
    }
    Ok(())
}

#[test]
fn parentheses_past_the_limit_are_refused(rt: HostRuntime) -> Result<(), Fail> {
    let alloc = rt.alloc();
    let open = "(".repeat(alloc, 100_000)?;
    let text = format!(in alloc; "let x = {open}")?;
    let mut sink = MemSink::new(alloc, 100, 100, Vec::new(alloc))?;
    assert_eq!(rt;
        check(alloc, text.as_bytes(), 4096, &mut sink)?,
        Status::SomeNotGood
    );
    assert_eq!(rt;
        sink.written(),
        b"1:1 let x syntax at 1:265\ntotal 1 good 0\n".as_slice()
    );
    Ok(())
}

#[test]
fn hostile_texts_are_reported(rt: HostRuntime) -> Result<(), Fail> {
    let alloc = rt.alloc();
    for (part, count, total) in [
        (b"\xFF".as_slice(), 1_048_576, "total 1 good 0\n"),
        (b"rewrite ".as_slice(), 131_072, "total 131072 good 0\n"),
        (b"sw ; ".as_slice(), 209_715, "total 1 good 0\n"),
        (b"(".as_slice(), 1_048_576, "total 1 good 0\n"),
        (b"a".as_slice(), 1_048_576, "total 1 good 0\n"),
        (
            b"rewrite n : sw = sw\n".as_slice(),
            52_428,
            "total 52428 good 1\n",
        ),
    ] {
        let text = part.repeat(alloc, count)?;
        let mut sink = MemSink::new(alloc, 8_000_000, 1_000_000, Vec::new(alloc))?;
        assert_eq!(rt;
            check(alloc, &text, 65_536, &mut sink)?,
            Status::SomeNotGood
        );
        assert!(rt; sink.written().ends_with(total.as_bytes()), "{total}");
    }
    Ok(())
}

#[test]
fn a_failure_is_said_in_one_line(rt: HostRuntime) {
    for (status, line) in [
        (Status::Done, None),
        (Status::SomeNotGood, None),
        (
            Status::BadWords,
            Some("chyp: bad words; use check, live or generate N"),
        ),
        (Status::ReadFault, Some("chyp: read fault")),
        (Status::WriteFault, Some("chyp: write fault")),
        (Status::LibraryFault, Some("chyp: library fault")),
        (Status::TooLong, Some("chyp: input too long")),
        (Status::BadCommand, Some("chyp: bad command")),
        (Status::NoMemory, Some("chyp: no memory")),
    ] {
        assert_eq!(rt; complaint(status), line);
    }
}
