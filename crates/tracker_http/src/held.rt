// What is held of a source's bytes.
ghost use Rattle.std.specs.Prelude.{◌≡◌, ◌≤◌, [], length, take, drop, Some};
ghost use Rattle.std.specs.Io.KnownBytes.{prepend_known, Consumes};
ghost use Rattle.request_lines.specs.Causes.{Rose};
ghost use Rattle.tracker_http.specs.Held.{HoldsMore, HoldsAll, HoldsHead, Grew};

use crate::head_end::head_len;
use request_lines::{Failed, Source};

/// The bytes that a read is offered room for.
const ROOM: usize = 4_096;

/// The bytes that a head has at most.
pub const HEAD_LIMIT: usize = 8_192;

/// How reading on went.
#[derive(Clone, Copy, PartialEq, Eq)]
pub enum More {
    /// Bytes came.
    Read,

    /// The input is at its end.
    Ended,

    /// The source failed.
    Failed,

    /// There was not enough memory.
    Memory,
}

/// What is held of a head.
#[derive(Clone, Copy, PartialEq, Eq)]
pub enum HeldHead {
    /// A whole head of so many bytes.
    Whole(usize),

    /// As many bytes as a head may have, and no whole one.
    Most,

    /// The input is at its end.
    Ended,

    /// The source failed.
    Failed,

    /// There was not enough memory.
    Memory,
}

// Reads some bytes more.
fn hold_more<S: Source>(source: &mut S, held: &mut Vec<u8>) -> More
    ensures same { Consumes (prepend_known held.old.items (S.left source.old))
        (prepend_known held.new.items (S.left source.new)) [] }
    ensures more { HoldsMore held.old.items held.new.items (S.left source.new) result }
    ensures failed { result ≡ More.Failed → Rose (S.faults source.old) (S.faults source.new) }
    ensures later { S.faults source.old ≤ S.faults source.new }
{
    let Ok(()) = held.reserve(ROOM) else {
        return More::Memory;
    };
    let mut room = [0; ROOM];
    match source.read(&mut room) {
        Err(Failed) => More::Failed,
        Ok(count) => {
            if count == 0 {
                return More::Ended;
            }
            let Ok(()) = held.extend_from_slice(&room[..count]) else {
                unreachable!()
            };
            More::Read
        }
    }
}

/// Reads until so many bytes are held.
pub fn hold_all<S: Source>(source: &mut S, held: &mut Vec<u8>, wanted: usize) -> More
    ensures same { Consumes (prepend_known held.old.items (S.left source.old))
        (prepend_known held.new.items (S.left source.new)) [] }
    ensures grew { Grew held.old.items held.new.items }
    ensures all { HoldsAll wanted held.new.items (S.left source.new) result }
    ensures failed { result ≡ More.Failed → Rose (S.faults source.old) (S.faults source.new) }
    ensures later { S.faults source.old ≤ S.faults source.new }
{
    'more: while held.len() < wanted {
        match hold_more(source, held) {
            More::Read => {}
            More::Ended => return More::Ended,
            More::Failed => return More::Failed,
            More::Memory => return More::Memory,
        }
    }
    More::Read
}

/// Reads until a whole head is held.
pub fn hold_head<S: Source>(source: &mut S, held: &mut Vec<u8>) -> HeldHead
    ensures same { Consumes (prepend_known held.old.items (S.left source.old))
        (prepend_known held.new.items (S.left source.new)) [] }
    ensures head { HoldsHead held.new.items (S.left source.new) result }
    ensures failed { result ≡ HeldHead.Failed → Rose (S.faults source.old) (S.faults source.new) }
    ensures later { S.faults source.old ≤ S.faults source.new }
{
    'more: loop {
        if let Some(len) = head_len(front(held)) {
            return HeldHead::Whole(len);
        }
        if held.len() >= HEAD_LIMIT {
            return HeldHead::Most;
        }
        match hold_more(source, held) {
            More::Read => {}
            More::Ended => return HeldHead::Ended,
            More::Failed => return HeldHead::Failed,
            More::Memory => return HeldHead::Memory,
        }
    }
}

// The bytes that may hold a head.
fn front(held: &[u8]) -> &[u8]
    ensures { result.now ≡ take 8192 held.now }
{
    if held.len() < HEAD_LIMIT {
        return held;
    }
    let (front, _) = held.split_at(HEAD_LIMIT);
    front
}

/// Lets the first bytes go.
pub fn drop_front(held: &mut Vec<u8>, count: usize)
    requires { count ≤ length held.old.items }
    ensures { held.new.items ≡ drop count held.old.items }
{
    let left = held.len() - count;
    held.rotate_left(count);
    held.truncate(left);
}
