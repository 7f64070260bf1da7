// The lines of a source, found in the bytes at hand.
ghost use Rattle.std.specs.Prelude.{◌≡◌, ◌<◌, ◌≤◌, [], ◌∷◌, length, drop, IfOk, OnErr};
ghost use Rattle.std.specs.Io.KnownBytes.{prepend_known, Consumes, IsAtEnd};
ghost use Rattle.std.specs.Bool.{MatchBool};
ghost use Rattle.request_lines.specs.Causes.{HasCause, Rose};
ghost use Rattle.request_lines.specs.Bytes.{IsLineEnd, TakesLine, TakesPiece};
ghost use Rattle.request_lines.specs.Lines.{IsOneLine};

use crate::limits::LINE_LIMIT;
use crate::outside::{Failed, Source};
use memchr::memchr;
use std::alloc::{AllocError, Global};
use std::marker::Model;

/// The bytes that a read is offered room for.
const ROOM: usize = 16_384;

/// What stood next in the input.
#[derive(Clone, Copy, PartialEq, Eq)]
pub enum Next {
    /// A line with its line feed.
    Line,

    /// A line that the input ends.
    Last,

    /// The input's end.
    End,

    /// A line past the limit.
    TooLong,

    /// The source failed.
    Failed,

    /// There was not enough memory.
    Memory,
}

/// What the bytes at hand gave for a line.
#[derive(Clone, Copy, PartialEq, Eq)]
pub enum Piece {
    /// The rest of the line, and its line feed.
    Ended,

    /// A part of the line, which goes on.
    Open,

    /// More than a line may have.
    TooLong,

    /// There was not enough memory.
    Memory,
}

/// What was read and not taken yet. Contracts see it as these bytes.
#[derive(Drop)]
pub struct LineReader {
    room: Vec<u8>,
    from: usize,
    to: usize,
}

impl Model for LineReader {
    ghost use Rattle.std.specs.Prelude.{List, ℕ, ◌-◌, ◌<◌, ◌≤◌, take, drop, length};

    ghost Value = { List ℕ };

    ghost view = { λ r. take (r.to - r.from) (drop r.from r.room.items) };

    ghost invariant = { λ r. (r.from ≤ r.to) × (r.to ≤ length r.room.items)
        × (4096 ≤ length r.room.items) };
}

impl LineReader {
    pub fn new(alloc: Global) -> Result<Self, AllocError>
        ensures { IfOk result (λ reader. reader ≡ []) }
    {
        let room = vec![in alloc; 0; ROOM]?;
        Ok(LineReader {
            room,
            from: 0,
            to: 0,
        })
    }

    /// Takes the bytes up to the next line feed, and puts them in place of what `line` held.
    pub fn next_line<S: Source>(&mut self, source: &mut S, line: &mut Vec<u8>) -> Next
        ensures bytes { TakesLine (prepend_known self.old (S.left source.old))
            (prepend_known self.new (S.left source.new)) result line.new.items }
        ensures held { result ≡ Next.Failed → self.new ≡ [] }
        ensures failed { result ≡ Next.Failed → Rose (S.faults source.old) (S.faults source.new) }
        ensures later { S.faults source.old ≤ S.faults source.new }
    {
        line.clear();
        for _count in 0..LINE_LIMIT + 1 {
            match self.fill(source) {
                Err(Failed) => return Next::Failed,
                Ok(false) => {
                    return if line.is_empty() {
                        Next::End
                    } else {
                        Next::Last
                    };
                }
                Ok(true) => {}
            }
            match self.take_piece(line) {
                Piece::Ended => return Next::Line,
                Piece::Open => {}
                Piece::TooLong => return Next::TooLong,
                Piece::Memory => return Next::Memory,
            }
        }
        unreachable!()
    }

    /// Reads where nothing is held, and says whether something is: nothing at the end of the input alone.
    pub fn fill<S: Source>(&mut self, source: &mut S) -> Result<bool, Failed>
        ensures same { Consumes (prepend_known self.old (S.left source.old))
            (prepend_known self.new (S.left source.new)) [] }
        ensures some { IfOk result (λ b. MatchBool b (0 < length self.new)
            (IsAtEnd (prepend_known self.new (S.left source.new)))) }
        ensures failed { OnErr result (self.new ≡ []) }
        ensures cause { HasCause (S.faults source.old) (S.faults source.new) result }
    {
        if self.from < self.to {
            return Ok(true);
        }
        self.from = 0;
        self.to = 0;
        let count = source.read(&mut self.room)?;
        self.to = count;
        Ok(count > 0)
    }

    // Moves what is held up to the first line feed to the end of the line.
    fn take_piece(&mut self, line: &mut Vec<u8>) -> Piece
        requires held { 0 < length self.old }
        requires short { length line.old.items ≤ 65536 }
        ensures { TakesPiece self.old self.new line.old.items line.new.items result }
    {
        let held = self.held();
        match line_end(held) {
            Some(count) => {
                if line.len() + count > LINE_LIMIT {
                    self.skip(count);
                    return Piece::TooLong;
                }
                let Ok(()) = line.extend_from_slice(&held[..count]) else {
                    return Piece::Memory;
                };
                self.skip(count + 1);
                Piece::Ended
            }
            None => {
                let count = held.len();
                if line.len() + count > LINE_LIMIT {
                    self.skip(count);
                    return Piece::TooLong;
                }
                let Ok(()) = line.extend_from_slice(held) else {
                    return Piece::Memory;
                };
                self.skip(count);
                Piece::Open
            }
        }
    }

    /// Whether a whole line is at hand, so that the next one takes no read.
    pub fn has_line(&self) -> bool
        ensures { MatchBool result (¬ (IsOneLine self.now)) (IsOneLine self.now) }
    {
        match line_end(self.held()) {
            Some(_) => true,
            None => false,
        }
    }

    // The bytes at hand, lent.
    fn held(&self) -> &[u8]
        ensures { result.now ≡ self.now }
    {
        &self.room[self.from..self.to]
    }

    // Lets the first bytes go.
    fn skip(&mut self, count: usize)
        requires { count ≤ length self.old }
        ensures { self.new ≡ drop count self.old }
    {
        self.from += count;
    }
}

// The place of the first line feed.
fn line_end(held: &[u8]) -> Option<usize>
    ensures { IsLineEnd held.now result }
{
    memchr(b'\n', held)
}
