// The files of the current folder as a library.
ghost use Rattle.std.specs.Prelude.{◌≡◌, ◌<◌, ◌≤◌, ◌+◌, ◌-◌, ◌^◌, length, None, IfOk, Err};
ghost use Rattle.chyp_base.specs.Causes.{LibraryHasCause};
ghost use Rattle.chyp_base.specs.Library.{FindsModule, most_read};
ghost use Rattle.chyp_base.specs.declared.library_error.LibraryError.TheVariants.{Failed};

use crate::limits::MOST_READ;
use crate::{Found, Library, LibraryError};
use std::alloc::Global;
use std::io::{ErrorKind, Read};
use std::rt::Files;
use std::{fs, io};

/// Finds the module NAME in the file NAME.chyp of the current folder.
///
/// It hands each name on as it stands. The names that the checker asks for are identifiers, which have
/// neither dots nor slashes, so they lead out of no folder. It tells no texts.
#[derive(Drop)]
pub struct DirLibrary<F> {
    files: F,
    alloc: Global,
    faults: u64,
}

impl<F: Files> DirLibrary<F> {
    /// A library over these files, with no fault yet.
    pub fn new(alloc: Global, files: F) -> DirLibrary<F>
        ensures { ⟦<DirLibrary<F> as Library>⟧.faults result ≡ 0 }
    {
        DirLibrary {
            files,
            alloc,
            faults: 0,
        }
    }
}

// The front of the file, behind what `into` holds.
fn read_file<F: Files>(files: &F, path: &str, into: &mut Vec<u8>) -> io::Result<usize> {
    let file = fs::open(files, path)?;
    file.take(MOST_READ as u64).read_to_end(into)
}

impl<F: Files> Library for DirLibrary<F> {
    ghost texts = { λ _. None };

    ghost faults = { λ s. s.faults };

    fn read(&mut self, name: &str, into: &mut Vec<u8>) -> Result<Found, LibraryError>
        requires { ⟦<DirLibrary<F> as Library>⟧.faults self.old < 2 ^ 64 - 1 }
        ensures same { ⟦<DirLibrary<F> as Library>⟧.texts self.new ≡ ⟦<DirLibrary<F> as Library>⟧.texts self.old }
        ensures bound { length into.new.items ≤ most_read }
        ensures found { FindsModule (⟦<DirLibrary<F> as Library>⟧.texts self.old) name.now result into.new.items }
        ensures cause { LibraryHasCause (⟦<DirLibrary<F> as Library>⟧.faults self.old) (⟦<DirLibrary<F> as Library>⟧.faults self.new)
            result }
        // A failure is one fault.
        ensures counts { result ≡ Err Failed
            → ⟦<DirLibrary<F> as Library>⟧.faults self.new ≡ ⟦<DirLibrary<F> as Library>⟧.faults self.old + 1 }
    {
        into.clear();
        let Ok(path) = format!(in self.alloc; "{name}.chyp") else {
            return Err(LibraryError::NoMemory);
        };
        let error = match read_file(&self.files, path.as_str(), into) {
            Ok(_) => {
                into.truncate(MOST_READ);
                return Ok(Found::There);
            }
            Err(error) => error,
        };
        into.clear();
        match error.kind() {
            ErrorKind::NotFound => Ok(Found::Absent),
            ErrorKind::OutOfMemory => Err(LibraryError::NoMemory),
            _ => {
                self.faults += 1;
                Err(LibraryError::Failed)
            }
        }
    }
}
