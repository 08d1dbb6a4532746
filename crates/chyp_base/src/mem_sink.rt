// A sink in memory, with limited room, which fails at the calls that it is told.
ghost use Rattle.std.specs.Prelude.{◌≡◌, ◌↔◌, ◌⊎◌, ℕ, ◌+◌, ◌-◌, ◌^◌, ◌<◌, min, length, IsErr, IfOk, OnOk, OnErr, Contains, Some, []};
ghost use Rattle.std.specs.Io.{WritesAtMost};
ghost use Rattle.std.specs.Io.KnownBytes.{WriteAppends};
ghost use Rattle.chyp_base.specs.Causes.{HasCause};

use crate::{Failed, NoMemory, Sink};
use std::alloc::Global;
use std::marker::Model;

/// Keeps the bytes that it takes, in pieces, as long as there is room.
///
/// It tells the bytes that it holds. It fails at exactly the calls that it is told and where a piece
/// that is not empty meets no room, and each failure adds one to its count of faults.
#[derive(Drop)]
pub struct MemSink {
    bytes: Vec<u8>,
    room: usize,
    piece: usize,
    failing: Vec<u64>,
    calls: u64,
    faults: u64,
}

impl Model for MemSink {
    ghost use Rattle.std.specs.Prelude.{◌≤◌, ◌<◌, ◌+◌, ◌-◌, length, vec_capacity};
    ghost use Rattle.chyp_base.specs.MemSink.{SinkState};

    ghost Value = { SinkState };

    ghost view = { λ s. record {
      held = s.bytes.items;
      room = s.room;
      piece = s.piece;
      failing = s.failing.items;
      calls = s.calls;
      faults = s.faults;
    } };

    ghost invariant = { λ s. (length s.bytes.items + s.room ≤ vec_capacity s.bytes) × (0 < s.piece) };
}

impl MemSink {
    /// A sink that holds nothing and has no fault yet.
    ///
    /// A call takes `piece` bytes, or fewer where it is handed fewer or has less room left of the
    /// `room` bytes. The calls whose numbers, from 0, are in `failing` fail. No call takes memory
    /// after this one.
    ///
    /// # Errors
    ///
    /// `NoMemory` where the room can't be reserved; `failing` is dropped then.
    pub fn new(
        alloc: Global,
        room: usize,
        piece: usize,
        failing: Vec<u64>,
    ) -> Result<MemSink, NoMemory>
        requires { 0 < piece }
        ensures { IfOk result (λ sink. sink
            ≡ record { held = []; room = room; piece = piece; failing = failing.items; calls = 0; faults = 0 }) }
    {
        Ok(MemSink {
            bytes: Vec::with_capacity(alloc, room)?,
            room,
            piece,
            failing,
            calls: 0,
            faults: 0,
        })
    }

    /// The bytes that it holds.
    pub fn written(&self) -> &[u8]
        ensures { result.now ≡ self.now.held }
    {
        &self.bytes
    }
}

impl Sink for MemSink {
    ghost held = { λ s. Some s.held };

    ghost faults = { λ s. s.faults };

    fn write(&mut self, piece: &[u8]) -> Result<usize, Failed>
        requires { self.old.faults < 2 ^ 64 - 1 }
        ensures bound { WritesAtMost result piece.now }
        ensures some { IfOk result (λ n. 0 < length piece.now → 0 < n) }
        ensures bytes { WriteAppends (Some self.old.held) (Some self.new.held) result piece.now }
        ensures cause { HasCause self.old.faults self.new.faults result }
        ensures fails { IsErr result ↔ (Contains self.old.failing self.old.calls ⊎ ((self.old.room ≡ 0) × (0 < length piece.now))) }
        ensures amount { IfOk result (λ n. n ≡ min (min self.old.piece (length piece.now)) self.old.room) }
        ensures by_one { OnErr result (self.new.faults ≡ self.old.faults + 1) }
        ensures room { IfOk result (λ n. self.new.room + n ≡ self.old.room) }
        ensures room_at_err { OnErr result (self.new.room ≡ self.old.room) }
        ensures calls { self.new.calls ≡ min (self.old.calls + 1) (2 ^ 64 - 1) }
        ensures settings { (self.new.piece ≡ self.old.piece) × (self.new.failing ≡ self.old.failing) }
    {
        let call = self.calls;
        self.calls = call.saturating_add(1);
        if self.failing.contains(&call) || (self.room == 0 && !piece.is_empty()) {
            self.faults += 1;
            return Err(Failed);
        }
        let count = self.piece.min(piece.len()).min(self.room);
        self.bytes.extend_from_slice(&piece[..count]).unwrap();
        self.room -= count;
        Ok(count)
    }
}
