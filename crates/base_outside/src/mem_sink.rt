// A sink in memory, for tests.
ghost use Rattle.std.specs.Prelude.{◌≡◌, ◌↔◌, ◌++◌, [], IfOk, OnOk, OnErr, IsErr, IsTrue, Contains};
ghost use Rattle.base_outside.specs.Counts.{Counts};
ghost use Rattle.base_outside.specs.Memory.{next, Refuses};

use crate::{Failed, Sink};
use std::alloc::{AllocError, Global};
use std::marker::Model;

/// A sink in memory of fixed room, whose calls fail by their numbers.
pub struct MemSink {
    bytes: Vec<u8>,
    room: usize,
    fails: Vec<u64>,
    calls: u64,
    faults: u64,
}

impl Drop for MemSink {
    fn drop(self) {
        let MemSink {
            bytes: _,
            room: _,
            fails: _,
            calls: _,
            faults: _,
        } = self;
    }
}

impl Model for MemSink {
    ghost use Rattle.std.specs.Prelude.{◌≤◌, length, vec_capacity};
    ghost use Rattle.base_outside.specs.Memory.{SinkState};

    ghost Value = { SinkState };

    ghost view = { λ s. record {
      bytes = s.bytes.items;
      room = s.room;
      fails = s.fails.items;
      calls = s.calls;
      faults = s.faults;
    } };

    ghost invariant = { λ s. (length s.bytes.items ≤ s.room) × (s.room ≤ vec_capacity s.bytes) };
}

impl MemSink {
    /// An empty sink that takes at most `room` bytes. It takes all the memory that it will ever need.
    /// The calls of `put` are numbered from 0, and those whose numbers are in `fails` fail.
    ///
    /// # Errors
    /// `AllocError` where there is no memory for the room.
    pub fn new(alloc: Global, room: u32, fails: Vec<u64>) -> Result<Self, AllocError>
        ensures { IfOk result (λ sink.
            sink ≡ record { bytes = []; room = room; fails = fails.items; calls = 0; faults = 0 }) }
    {
        let room = room as usize;
        let bytes = Vec::with_capacity(alloc, room)?;
        Ok(MemSink {
            bytes,
            room,
            fails,
            calls: 0,
            faults: 0,
        })
    }

    /// The bytes written so far.
    pub fn bytes(&self) -> &[u8]
        ensures { result.now ≡ self.now.bytes }
    {
        &self.bytes
    }

    /// How many calls have failed.
    pub fn faults(&self) -> u64
        ensures { result ≡ self.now.faults }
    {
        self.faults
    }

    // Counts a call, and says whether it is one of those that fail.
    fn count_call(&mut self) -> bool
        ensures failing { IsTrue result ↔ Contains self.old.fails self.old.calls }
        ensures counted { self.new ≡ record self.old { calls = next self.old.calls } }
    {
        let fails = self.fails.contains(&self.calls);
        self.calls = self.calls.saturating_add(1);
        fails
    }
}

impl Sink for MemSink {
    ghost use Rattle.std.specs.Prelude.{true};

    ghost told = { true };

    ghost written = { λ s. s.bytes };

    ghost faults = { λ s. s.faults };

    /// Writes the whole piece or nothing. It takes no memory.
    ///
    /// # Errors
    /// `Failed` exactly where the piece isn't empty and the number of this call is one of those that fail
    /// or the piece would pass the room.
    fn put(&mut self, piece: &[u8]) -> Result<(), Failed>
        ensures refused { IsErr result ↔ Refuses self.old piece.now }
        ensures ok { OnOk result (self.new ≡ record self.old {
          bytes = self.old.bytes ++ piece.now;
          calls = next self.old.calls;
        }) }
        ensures err { OnErr result (self.new ≡ record self.old {
          calls = next self.old.calls;
          faults = next self.old.faults;
        }) }
        ensures counts { Counts self.old.faults self.new.faults result }
    {
        let fails = self.count_call();
        if piece.is_empty() {
            return Ok(());
        }
        if fails || self.room - self.bytes.len() < piece.len() {
            self.faults = self.faults.saturating_add(1);
            return Err(Failed);
        }
        self.bytes.extend_from_slice(piece).unwrap();
        Ok(())
    }
}
