// A source in memory, which fails at the calls that it is told.
ghost use Rattle.std.specs.Prelude.{◌≡◌, ◌+◌, ◌-◌, ◌<◌, ◌≤◌, ◌↔◌, Some, length, drop, min, slice_get, IfOk, IsErr, List, ℕ};
ghost use Rattle.std.specs.Io.{ReadsAtMost};
ghost use Rattle.std.specs.Io.KnownBytes.{ReadConsumes};
ghost use Rattle.request_lines.specs.Causes.{HasCause, FailsAt, is_listed, next_call};
ghost use Rattle.request_lines.specs.Piece.{piece_len, some_bytes};

use crate::outside::{Failed, Source};

/// Bytes that come in pieces of these lengths, each at least 1, and after the last piece as many as there is room for.
#[derive(Drop)]
pub struct MemorySource {
    bytes: Vec<u8>,
    at: usize,
    pieces: Vec<usize>,
    failing: Vec<u64>,
    calls: u64,
    faults: u64,
    ghost within: { at ≤ length bytes.items },
}

impl MemorySource {
    /// A source of these bytes. The reads of the numbers in `failing`, counted from 1, fail and take nothing.
    pub fn new(bytes: Vec<u8>, pieces: Vec<usize>, failing: Vec<u64>) -> Self
        ensures bytes { drop result.at result.bytes.items ≡ bytes.items }
        ensures pieces { result.pieces.items ≡ pieces.items }
        ensures failing { result.failing.items ≡ failing.items }
        ensures calls { result.calls ≡ 0 }
        ensures faults { result.faults ≡ 0 }
    {
        MemorySource {
            bytes,
            at: 0,
            pieces,
            failing,
            calls: 0,
            faults: 0,
        }
    }

    // The piece of the next read, where there is one.
    fn piece(&self) -> Option<usize>
        ensures { result ≡ slice_get self.now.pieces.items self.now.calls }
    {
        self.pieces.get(self.calls as usize).copied()
    }

    // How many bytes the next read gives, in a room of that length.
    fn piece_len(&self, room: usize) -> usize
        requires { 0 < room }
        ensures told { result
            ≡ piece_len (slice_get self.now.pieces.items self.now.calls) room
            (length self.now.bytes.items - self.now.at) }
        ensures room { result ≤ room }
        ensures left { self.now.at + result ≤ length self.now.bytes.items }
        ensures some { self.now.at < length self.now.bytes.items → 0 < result }
    {
        let left = self.bytes.len() - self.at;
        match self.piece() {
            Some(piece) => some_bytes(piece).min(room).min(left),
            None => room.min(left),
        }
    }
}

impl Source for MemorySource {
    ghost left = { λ s. Some (drop s.at s.bytes.items) };

    ghost faults = { λ s. s.faults };

    fn read(&mut self, room: &mut [u8]) -> Result<usize, Failed>
        // What each source does.
        requires { 0 < length room.old }
        ensures bound { ReadsAtMost result room.new }
        ensures bytes { ReadConsumes (Some (drop self.old.at self.old.bytes.items))
            (Some (drop self.new.at self.new.bytes.items)) result room.new }
        ensures cause { HasCause self.old.faults self.new.faults result }

        // It fails exactly at the calls that it was told.
        ensures fails { IsErr result ↔ FailsAt self.old.failing.items (next_call self.old.calls) }
        ensures counted { self.new.calls ≡ next_call self.old.calls }
        ensures failing { self.new.failing.items ≡ self.old.failing.items }

        // It gives its pieces as it was told.
        ensures told { IfOk result (λ n. n
            ≡ piece_len (slice_get self.old.pieces.items self.old.calls) (length room.old)
            (length self.old.bytes.items - self.old.at)) }
        ensures pieces { self.new.pieces.items ≡ self.old.pieces.items }
    {
        let count = self.piece_len(room.len());
        self.calls = self.calls.saturating_add(1);
        if self.failing.contains(&self.calls) {
            self.faults = self.faults.saturating_add(1);
            return Err(Failed);
        }
        let end = self.at + count;
        room[..count].copy_from_slice(&self.bytes[self.at..end]);
        self.at = end;
        Ok(count)
    }
}

// A piece has at least one byte.
fn some_bytes(piece: usize) -> usize
    ensures bytes { result ≡ some_bytes piece }
    ensures some { 0 < result }
{
    if piece < 1 {
        return 1;
    }
    piece
}
