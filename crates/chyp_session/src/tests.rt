// Each public call once.
ghost use Rattle.std.specs.Prelude.{◌≡◌, IfOk};

use crate::*;
use chyp_base::{Failed, MemSink, Name, Verdict};
use std::alloc::Global;
use std::test::Fail;

// A sink with this much room.
fn sink(alloc: Global, room: usize) -> Result<MemSink, Fail>
    ensures { IfOk result (λ sink. sink.faults ≡ 0) }
{
    Ok(MemSink::new(alloc, room, 3, Vec::new(alloc))?)
}

// The line of a statement at 2:3 whose verdict names a token at 2:7.
fn shown(sink: &mut MemSink, name: Option<&Name>, verdict: Option<&Verdict>) -> Result<(), Failed>
    requires { sink.old.faults ≡ 0 }
{
    let start = Place { line: 2, col: 3 };
    let at = Place { line: 2, col: 7 };
    let kind = "rewrite";
    let line = Line {
        start,
        kind,
        name,
        verdict,
        at,
    };
    write_line(&line, sink)
}

// The line with this verdict.
fn written(alloc: Global, verdict: &Verdict) -> Result<MemSink, Fail> {
    let mut sink = sink(alloc, 100)?;
    let name = Name::new(alloc, "a")?;
    match shown(&mut sink, Some(&name), Some(verdict)) {
        Ok(()) => Ok(sink),
        Err(Failed) => Err(Fail::new("a fault")),
    }
}

#[test]
fn a_line_shows_its_verdict(rt: HostRuntime) -> Result<(), Fail> {
    let alloc = rt.alloc();
    let name = Name::new(alloc, "m")?;
    let cases = [
        (Verdict::Accepted, "2:3 rewrite a ok\n"),
        (
            Verdict::Unknown { token: 4 },
            "2:3 rewrite a unknown at 2:7\n",
        ),
        (Verdict::Clash { name }, "2:3 rewrite a clash m\n"),
        (
            Verdict::Differs { step: 1 },
            "2:3 rewrite a step 1 differs\n",
        ),
        (
            Verdict::NoRewrite {
                step: 2,
                occurrences: 43680,
            },
            "2:3 rewrite a step 2 no-rewrite 43680\n",
        ),
    ];
    for (verdict, text) in &cases {
        let sink = written(alloc, verdict)?;
        assert_eq!(rt; sink.written(), text.as_bytes(), "{text}");
    }
    Ok(())
}

#[test]
fn a_line_without_name_and_verdict_is_cut_where_the_sink_is_full(
    rt: HostRuntime,
) -> Result<(), Fail> {
    let mut sink = sink(rt.alloc(), 16)?;
    assert!(rt; shown(&mut sink, None, None).is_err());
    assert_eq!(rt; sink.written(), b"2:3 rewrite - pe".as_slice());
    Ok(())
}

#[test]
fn the_total_is_a_line(rt: HostRuntime) -> Result<(), Fail> {
    let mut sink = sink(rt.alloc(), 100)?;
    let reply = Reply::Total { total: 6, good: 4 };
    assert!(rt; write_reply(&reply, &mut sink).is_ok());
    assert_eq!(rt; sink.written(), b"total 6 good 4\n".as_slice());
    Ok(())
}

#[test]
fn bytes_have_lines_and_columns(rt: HostRuntime) -> Result<(), Fail> {
    for (at, line, col) in [(0, 1, 1), (2, 1, 3), (3, 2, 1), (5, 3, 1), (6, 3, 2)] {
        assert_eq!(rt; line_col(b"ab\nc", b"\nd", at), Place { line, col });
    }
    Ok(())
}
