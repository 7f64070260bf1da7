// A source whose bytes are kept.
ghost use Rattle.std.specs.Prelude.{◌≡◌, ◌⊎◌, ◌<◌, ◌≤◌, ◌^◌, ◌++◌, [], length, take, IfOk, IsErr, IsTrue, IsFalse};
ghost use Rattle.std.specs.Io.{ReadsAtMost};
ghost use Rattle.std.specs.Io.KnownBytes.{ReadConsumes};
ghost use Rattle.request_lines.specs.Causes.{HasCause};
ghost use Rattle.setup_places.specs.Kept.{AreKept, AreAdded};

use request_lines::{Failed, Source};
use std::alloc::Global;
use std::snapshot::Snapshot;

/// A source that keeps a copy of all that is read from it, where that is no more than so many bytes.
#[derive(Drop)]
pub struct Keeping<S: Source + Drop> {
    source: S,
    first: Snapshot<S>,
    kept: Vec<u8>,
    most: u32,
    ghost short: { most < 2 ^ 32 },
    ghost within: { length kept.items ≤ most },
    ghost are: { AreKept (S.left first.value) (S.left source) kept.items most },
}

impl<S: Source + Drop> Keeping<S> {
    /// A source that gives what this one does, and keeps at most so many bytes.
    pub fn new(alloc: Global, source: S, most: u32) -> Self
        ensures source { result.source ≡ source }
        ensures first { result.first.value ≡ source }
        ensures kept { result.kept.items ≡ [] }
        ensures most { result.most ≡ most }
    {
        let first = Snapshot::of(&source);
        Keeping {
            source,
            first,
            kept: Vec::new(alloc),
            most,
        }
    }

    /// All that was read; nothing where that is more than may be kept, or memory lacked.
    pub fn kept(&self) -> &[u8]
        ensures kept { result.now ≡ self.now.kept.items }
        ensures short { length result.now < 2 ^ 32 }
        ensures all { AreKept (S.left self.now.first.value) (S.left self.now.source)
            result.now self.now.most }
    {
        &self.kept
    }
}

impl<S: Source + Drop> Source for Keeping<S> {
    ghost left = { λ k. S.left k.source };

    ghost faults = { λ k. S.faults k.source };

    #[tactic(auto, using(crate::proofs::Kept::kept_more, crate::proofs::Kept::kept_still))]
    fn read(&mut self, room: &mut [u8]) -> Result<usize, Failed>
        // What each source does.
        requires room { 4096 ≤ length room.old }
        ensures bound { ReadsAtMost result room.new }
        ensures bytes { ReadConsumes (S.left self.old.source) (S.left self.new.source)
            result room.new }
        ensures cause { HasCause (S.faults self.old.source) (S.faults self.new.source) result }
        // What is given is kept behind what was kept; or nothing is kept any more.
        ensures kept { IfOk result (λ n. AreAdded self.old.most self.old.kept.items
            (take n room.new) self.new.most self.new.kept.items) }
        ensures failed { IsErr result → self.new.kept.items ≡ self.old.kept.items }
        ensures first { self.new.first.value ≡ self.old.first.value }
    {
        match self.source.read(room) {
            Ok(count) => {
                if !keep(&mut self.kept, self.most, &room[..count]) {
                    self.most = 0;
                }
                Ok(count)
            }
            Err(Failed) => Err(Failed),
        }
    }
}

// Puts the bytes behind those that are kept, where there are at most so many then; else lets all go.
fn keep(kept: &mut Vec<u8>, most: u32, bytes: &[u8]) -> bool
    requires { length kept.old.items ≤ most }
    ensures kept { IsTrue result → (kept.new.items ≡ kept.old.items ++ bytes.now)
        × (length kept.new.items ≤ most) }
    ensures gone { IsFalse result → kept.new.items ≡ [] }
{
    let room = most as usize - kept.len();
    if bytes.len() <= room && kept.extend_from_slice(bytes).is_ok() {
        return true;
    }
    kept.clear();
    false
}
