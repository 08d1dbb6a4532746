// Texts that are kept until all of them is known.
ghost use Rattle.std.specs.Prelude.{◌≡◌, ◌+◌, ◌-◌, ◌^◌, ◌<◌, ◌≤◌, [], ℕ, length, min, IfOk, OnErr, Some};
ghost use Rattle.std.specs.Io.{WritesAtMost};
ghost use Rattle.std.specs.Io.KnownBytes.{WriteAppends};
ghost use Rattle.chyp_base.specs.Causes.{HasCause};

use chyp_base::{Failed, Sink};
use std::alloc::Global;
use std::marker::Model;

/// A sink that grows in memory. It fails only for want of memory.
#[derive(Drop)]
pub struct Page {
    bytes: Vec<u8>,
    faults: u64,
}

impl Model for Page {
    ghost use Rattle.std.specs.Prelude.{List, ℕ};
    ghost use Rattle.chyp_app.specs.Page.{PageState};

    ghost Value = { PageState };

    ghost view = { λ p. record { bytes = p.bytes.items; faults = p.faults } };
}

impl Page {
    /// An empty page. It takes no memory.
    pub fn new(alloc: Global) -> Page
        ensures { result ≡ record { bytes = []; faults = 0 } }
    {
        Page {
            bytes: Vec::new(alloc),
            faults: 0,
        }
    }

    /// What was written.
    pub fn into_bytes(self) -> Vec<u8>
        ensures { result.items ≡ self.bytes }
    {
        self.bytes
    }
}

impl Sink for Page {
    ghost held = { λ p. Some p.bytes };

    ghost faults = { λ p. p.faults };

    fn write(&mut self, piece: &[u8]) -> Result<usize, Failed> {
        match self.bytes.extend_from_slice(piece) {
            Ok(()) => Ok(piece.len()),
            Err(_) => {
                self.faults += 1;
                Err(Failed)
            }
        }
    }
}
