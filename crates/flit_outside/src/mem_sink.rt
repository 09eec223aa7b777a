ghost use Rattle.std.specs.Prelude.{◌≡◌, ◌↔◌, [], ◌≤◌, Some, IsErr, IfOk, OnErr};
ghost use Rattle.flit_outside.specs.Outside.{Rose};
ghost use Rattle.flit_outside.specs.MemSink.{taken_count, after_write, after_failed_write, Refuses};

use crate::outside::{Failed, Sink};
use flit_words::NoMemory;
use std::alloc::Global;
use std::marker::Model;

/// A sink in memory, which takes bytes in pieces, up to its room, and fails at the calls that it is
/// told.
#[derive(Drop)]
pub struct MemSink {
    bytes: Vec<u8>,
    piece: usize,
    fails: Vec<u64>,
    room: usize,
    calls: u64,
    faults: u64,
}

impl Model for MemSink {
    ghost use Rattle.std.specs.Prelude.{◌≤◌, vec_len, vec_capacity};
    ghost use Rattle.flit_outside.specs.MemSink.{MemoryOutput};

    ghost Value = { MemoryOutput };

    ghost view = { λ s. record {
      taken = s.bytes.items;
      piece = s.piece;
      fails = s.fails.items;
      room = s.room;
      calls = s.calls;
      faults = s.faults;
    } };

    ghost invariant = { λ s. (vec_len s.bytes ≤ s.room) × (s.room ≤ vec_capacity s.bytes) };
}

impl MemSink {
    /// Takes at most `piece` bytes in a call, and `room` bytes in all, whose memory it has from the
    /// start. It fails at the calls whose numbers, counted from 1 and up to 2^64 - 1, are in
    /// `fails`, and where it is given bytes and can take none. A call that fails is counted too.
    ///
    /// # Errors
    /// `NoMemory` where there is no memory for `room` bytes.
    pub fn new(
        alloc: Global,
        piece: usize,
        fails: Vec<u64>,
        room: usize,
    ) -> Result<MemSink, NoMemory>
        ensures { IfOk result (λ sink. sink ≡ record {
          taken = [];
          piece = piece;
          fails = fails.items;
          room = room;
          calls = 0;
          faults = 0;
        }) }
    {
        let bytes = Vec::with_capacity(alloc, room)?;
        Ok(MemSink {
            bytes,
            piece,
            fails,
            room,
            calls: 0,
            faults: 0,
        })
    }

    /// The bytes taken so far.
    pub fn bytes(&self) -> &[u8]
        ensures { result.now ≡ self.now.taken }
    {
        &self.bytes
    }
}

impl Sink for MemSink {
    ghost taken = { λ s. Some s.taken };

    ghost faults = { λ s. s.faults };

    fn write(&mut self, piece: &[u8]) -> Result<usize, Failed>
        ensures fails { IsErr result ↔ Refuses self.old piece.now }
        ensures count { IfOk result (λ n. n ≡ taken_count self.old piece.now) }
        ensures ok { IfOk result (λ n. self.new ≡ after_write self.old piece.now n) }
        ensures err { OnErr result (self.new ≡ after_failed_write self.old) }
        ensures rose { OnErr result (Rose self.old.faults self.new.faults) }
        ensures never_falls { self.old.faults ≤ self.new.faults }
    {
        self.calls = self.calls.saturating_add(1);
        let left = self.room - self.bytes.len();
        let count = piece.len().min(self.piece).min(left);
        if self.fails.contains(&self.calls) || (count == 0 && !piece.is_empty()) {
            self.faults = self.faults.saturating_add(1);
            return Err(Failed);
        }
        self.bytes.extend_from_slice(&piece[..count]).unwrap();
        Ok(count)
    }
}
