// The outside in memory, over failing calls.
ghost use Rattle.std.specs.Prelude.{◌≡◌, ◌<◌, IfOk};

use chyp_base::{
    Failed, Found, Library, LibraryError, MemLibrary, MemSink, MemSource, Name, Sink, Source, Text,
};
use std::alloc::Global;
use std::test::Fail;

// Three reads of "abcdef" into four bytes.
struct Reads {
    piece: usize,
    failing: u64,
    answers: [Result<usize, Failed>; 3],
    buffer: [u8; 4],
}

const READS: [Reads; 4] = [
    Reads {
        piece: 1,
        failing: 1,
        answers: [Ok(1), Err(Failed), Ok(1)],
        buffer: *b"b---",
    },
    Reads {
        piece: 3,
        failing: 3,
        answers: [Ok(3), Ok(3), Ok(0)],
        buffer: *b"def-",
    },
    Reads {
        piece: 4096,
        failing: 3,
        answers: [Ok(4), Ok(2), Ok(0)],
        buffer: *b"efcd",
    },
    Reads {
        piece: 4096,
        failing: 0,
        answers: [Err(Failed), Ok(4), Ok(2)],
        buffer: *b"efcd",
    },
];

/// Whether three reads answer so.
fn answers_reads(source: &mut MemSource, case: &Reads) -> bool
    requires { source.old.faults ≡ 0 }
{
    let mut buffer = *b"----";
    let first = source.read(&mut buffer);
    let second = source.read(&mut buffer);
    let third = source.read(&mut buffer);
    [first, second, third] == case.answers && buffer == case.buffer
}

/// A source of "abcdef".
fn source(alloc: Global, case: &Reads) -> Result<MemSource, Fail>
    requires { 0 < case.now.piece }
    ensures { IfOk result (λ source. source.faults ≡ 0) }
{
    let bytes = Vec::from_slice(alloc, b"abcdef")?;
    let failing = Vec::from_slice(alloc, &[case.failing])?;
    Ok(MemSource::new(bytes, case.piece, failing))
}

#[test]
fn reads_fail_where_they_are_told(rt: HostRuntime) -> Result<(), Fail> {
    for case in &READS {
        let mut source = source(rt.alloc(), case)?;
        let good = answers_reads(&mut source, case);
        // As a call, it takes one step of the proof.
        drop(source);
        assert!(rt; good);
    }
    Ok(())
}

// Three writes of "abc".
struct Writes {
    room: usize,
    piece: usize,
    failing: u64,
    answers: [Result<usize, Failed>; 3],
    written: &'static str,
}

const WRITES: [Writes; 4] = [
    Writes {
        room: 9,
        piece: 1,
        failing: 1,
        answers: [Ok(1), Err(Failed), Ok(1)],
        written: "aa",
    },
    Writes {
        room: 5,
        piece: 3,
        failing: 3,
        answers: [Ok(3), Ok(2), Err(Failed)],
        written: "abcab",
    },
    Writes {
        room: 9,
        piece: 4096,
        failing: 3,
        answers: [Ok(3), Ok(3), Ok(3)],
        written: "abcabcabc",
    },
    Writes {
        room: 0,
        piece: 4096,
        failing: 0,
        answers: [Err(Failed), Err(Failed), Err(Failed)],
        written: "",
    },
];

/// Whether three writes answer so.
fn answers_writes(sink: &mut MemSink, case: &Writes) -> bool
    requires { sink.old.faults ≡ 0 }
{
    let first = sink.write(b"abc");
    let second = sink.write(b"abc");
    let third = sink.write(b"abc");
    [first, second, third] == case.answers && sink.written() == case.written.as_bytes()
}

/// A sink.
fn sink(alloc: Global, case: &Writes) -> Result<MemSink, Fail>
    requires { 0 < case.now.piece }
    ensures { IfOk result (λ sink. sink.faults ≡ 0) }
{
    let failing = Vec::from_slice(alloc, &[case.failing])?;
    Ok(MemSink::new(alloc, case.room, case.piece, failing)?)
}

#[test]
fn writes_fail_where_they_are_told(rt: HostRuntime) -> Result<(), Fail> {
    for case in &WRITES {
        let mut sink = sink(rt.alloc(), case)?;
        let good = answers_writes(&mut sink, case);
        drop(sink);
        assert!(rt; good);
    }
    Ok(())
}

/// A module of a library.
fn module(alloc: Global, name: &str, text: &str) -> Result<(Name, Text), Fail> {
    let text = Text::from_vec(Vec::from_slice(alloc, text.as_bytes())?);
    Ok((Name::new(alloc, name)?, text))
}

/// A library in which two modules have one name.
fn library(alloc: Global) -> Result<MemLibrary, Fail>
    ensures { IfOk result (λ library. library.faults ≡ 0) }
{
    let mut modules = Vec::new(alloc);
    for (name, text) in [("a", "first"), ("a", "second"), ("b", "")] {
        modules.push(module(alloc, name, text)?)?;
    }
    Ok(MemLibrary::new(modules, Vec::from_slice(alloc, &[3])?))
}

/// Whether the first module of a name is found, until a call fails.
fn finds_first(library: &mut MemLibrary, text: &mut Vec<u8>) -> bool
    requires { library.old.faults ≡ 0 }
{
    let there = library.read("a", text) == Ok(Found::There);
    let first = there && text.as_slice() == b"first".as_slice();
    let absent = library.read("c", text) == Ok(Found::Absent);
    let other = library.read("b", text) == Ok(Found::There);
    let failed = library.read("a", text) == Err(LibraryError::Failed);
    first && absent && other && failed && text.is_empty()
}

/// Whether the library finds the first module of a name, over a text that is put away.
fn finds_first_over(alloc: Global, library: &mut MemLibrary) -> Result<bool, Fail>
    requires { library.old.faults ≡ 0 }
{
    let mut text = Vec::from_slice(alloc, b"old")?;
    Ok(finds_first(library, &mut text))
}

#[test]
fn the_first_module_of_a_name_is_found(rt: HostRuntime) -> Result<(), Fail> {
    let alloc = rt.alloc();
    let mut library = library(alloc)?;
    let good = finds_first_over(alloc, &mut library);
    drop(library);
    assert!(rt; good?);
    Ok(())
}
