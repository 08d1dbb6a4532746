// The outside over std.
ghost use Rattle.std.specs.Prelude.{◌≡◌, ◌≤◌, IfOk};

use chyp_base::{
    DirLibrary, Failed, Found, Library, LibraryError, Sink, Source, StdSink, StdSource,
};
use std::alloc::Global;
use std::fs;
use std::io::{ErrorKind, Read, Write};
use std::test::Fail;

const MODULE: &[u8] = b"gen f : 1 -> 1\n";

/// Whether a folder has the module `a` and no other one: `b` is absent, and `m` can't be read.
fn has_a_alone<L: Library>(library: &mut L, text: &mut Vec<u8>) -> bool
    requires { L.faults library.old ≡ 0 }
{
    if library.read("a", text) != Ok(Found::There) || text.as_slice() != MODULE {
        return false;
    }
    if library.read("b", text) != Ok(Found::Absent) {
        return false;
    }
    library.read("m", text) == Err(LibraryError::Failed) && text.is_empty()
}

#[test]
fn modules_are_files_of_the_folder(rt: HostRuntime) -> Result<(), Fail> {
    let alloc = rt.alloc();
    fs::write(&rt, "a.chyp", MODULE)?;
    fs::create_dir(&rt, "m.chyp")?;
    let mut text = Vec::from_slice(alloc, b"old")?;
    let mut library = DirLibrary::new(alloc, rt);
    assert!(rt; has_a_alone(&mut library, &mut text));
    Ok(())
}

// Is interrupted, then moves one byte, then gives up, and flushes or not.
#[derive(Drop)]
struct Flaky {
    calls: u8,
    flushes: bool,
}

impl Flaky {
    fn new(flushes: bool) -> Flaky {
        Flaky { calls: 0, flushes }
    }

    fn answer(&mut self, room: usize) -> std::io::Result<usize>
        ensures { IfOk result (λ n. n ≤ room) }
    {
        self.calls = self.calls.saturating_add(1);
        match self.calls {
            1 => Err(ErrorKind::Interrupted.into()),
            2 => Ok(room.min(1)),
            3 => Ok(0),
            _ => Err(ErrorKind::Other.into()),
        }
    }
}

impl Read for Flaky {
    fn read(&mut self, into: &mut [u8]) -> std::io::Result<usize> {
        self.answer(into.len())
    }
}

impl Write for Flaky {
    fn write(&mut self, piece: &[u8]) -> std::io::Result<usize> {
        self.answer(piece.len())
    }

    fn flush(&mut self) -> std::io::Result<()> {
        if self.flushes {
            Ok(())
        } else {
            Err(ErrorKind::Other.into())
        }
    }
}

#[test]
fn std_is_read(rt: HostRuntime) -> Result<(), Fail> {
    let mut source = StdSource::new(b"abc".as_slice());
    let mut buffer = [0u8; 2];
    assert_eq!(rt; source.read(&mut buffer)?, 2);
    assert_eq!(rt; buffer, *b"ab");
    assert_eq!(rt; source.read(&mut buffer)?, 1);
    assert_eq!(rt; source.read(&mut buffer)?, 0);
    Ok(())
}

/// Whether a list takes what is written to it.
fn is_taken(held: &mut Vec<u8>) -> bool {
    let mut sink = StdSink::new(&mut *held);
    let taken = sink.write(b"xy") == Ok(2);
    let _ = sink;
    taken && held.as_slice() == b"xy".as_slice()
}

#[test]
fn std_is_written(rt: HostRuntime) {
    let mut held = Vec::new(rt.alloc());
    assert!(rt; is_taken(&mut held));
}

#[test]
fn failures_of_reading_are_faults(rt: HostRuntime) {
    let mut buffer = [0u8; 2];
    let mut source = StdSource::new(Flaky::new(true));
    assert_eq!(rt; source.read(&mut buffer), Ok(1));
    assert_eq!(rt; source.read(&mut buffer), Ok(0));
    assert_eq!(rt; source.read(&mut buffer), Err(Failed));
}

#[test]
fn failures_of_writing_are_faults(rt: HostRuntime) {
    let mut sink = StdSink::new(Flaky::new(true));
    assert_eq!(rt; sink.write(b"xy"), Ok(1));
    assert_eq!(rt; sink.write(b"xy"), Err(Failed));

    let mut sink = StdSink::new(Flaky::new(false));
    assert_eq!(rt; sink.write(b"xy"), Err(Failed));
}
