// A sink in memory, which fails at the calls that it is told and where its room is full.
ghost use Rattle.std.specs.Prelude.{◌≡◌, ◌+◌, ◌<◌, ◌≤◌, ◌↔◌, ◌⊎◌, Some, [], length, IfOk, IsErr, min, List, ℕ, vec_capacity};
ghost use Rattle.std.specs.Io.{WritesAtMost};
ghost use Rattle.std.specs.Io.KnownBytes.{WriteAppends};
ghost use Rattle.request_lines.specs.Causes.{HasCause, FailsAt, is_listed, next_call};

use crate::outside::{Failed, Sink};
use std::alloc::{AllocError, Global};

/// A room of bytes that is taken when the sink is made.
#[derive(Drop)]
pub struct MemorySink {
    taken: Vec<u8>,
    room: usize,
    failing: Vec<u64>,
    calls: u64,
    faults: u64,
    ghost roomy: { room ≤ vec_capacity taken },
}

impl MemorySink {
    /// An empty sink with room for that many bytes. The writes of the numbers in `failing`, counted from 1, fail and take nothing.
    pub fn new(alloc: Global, room: usize, failing: Vec<u64>) -> Result<Self, AllocError>
        ensures taken { IfOk result (λ sink. sink.taken.items ≡ []) }
        ensures room { IfOk result (λ sink. sink.room ≡ room) }
        ensures failing { IfOk result (λ sink. sink.failing.items ≡ failing.items) }
        ensures calls { IfOk result (λ sink. sink.calls ≡ 0) }
        ensures faults { IfOk result (λ sink. sink.faults ≡ 0) }
    {
        let taken = Vec::with_capacity(alloc, room)?;
        Ok(MemorySink {
            taken,
            room,
            failing,
            calls: 0,
            faults: 0,
        })
    }

    /// The bytes that were written, lent.
    pub fn taken(&self) -> &[u8]
        ensures { result.now ≡ self.now.taken.items }
    {
        self.taken.as_slice()
    }
}

impl Sink for MemorySink {
    ghost taken = { λ s. Some s.taken.items };

    ghost faults = { λ s. s.faults };

    fn write(&mut self, piece: &[u8]) -> Result<usize, Failed>
        // What each sink does.
        requires { 0 < length piece.now }
        ensures some { IfOk result (λ n. 0 < n) }
        ensures bound { WritesAtMost result piece.now }
        ensures bytes { WriteAppends (Some self.old.taken.items)
            (Some self.new.taken.items) result piece.now }
        ensures cause { HasCause self.old.faults self.new.faults result }

        // It fails exactly at the calls that it was told, and where its room is full.
        ensures fails { IsErr result
            ↔ (FailsAt self.old.failing.items (next_call self.old.calls)
            ⊎ (self.old.room ≤ length self.old.taken.items)) }
        ensures counted { self.new.calls ≡ next_call self.old.calls }
        ensures failing { self.new.failing.items ≡ self.old.failing.items }
        ensures room { self.new.room ≡ self.old.room }
    {
        self.calls = self.calls.saturating_add(1);
        if self.failing.contains(&self.calls) {
            self.faults = self.faults.saturating_add(1);
            return Err(Failed);
        }
        let count = self.room.saturating_sub(self.taken.len()).min(piece.len());
        if count == 0 {
            self.faults = self.faults.saturating_add(1);
            return Err(Failed);
        }
        let Ok(()) = self.taken.extend_from_slice(&piece[..count]) else {
            unreachable!()
        };
        Ok(count)
    }
}
