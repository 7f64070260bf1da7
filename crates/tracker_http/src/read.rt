// The requests of a source, one after another.
ghost use Rattle.std.specs.Prelude.{◌≡◌, ◌≤◌, [], length, take};
ghost use Rattle.std.specs.Io.KnownBytes.{prepend_known};
ghost use Rattle.request_lines.specs.Causes.{Rose};
ghost use Rattle.tracker_http.specs.HeadEnd.{IsWholeHead};
ghost use Rattle.tracker_http.specs.Requests.{TakesNext};

use crate::finish::finish;
use crate::held::{HEAD_LIMIT, HeldHead, drop_front, hold_head};
use crate::look::SPANS;
use crate::request::Next;
use crate::see::{HeadSeen, see};
use httparse::spans::EMPTY_HEADER_SPAN;
use request_lines::Source;
use std::alloc::Global;

/// Reads one request, however its bytes come in. `held` keeps the bytes that were read past it, for the next call.
pub fn read_request<S: Source>(alloc: Global, source: &mut S, held: &mut Vec<u8>) -> Next
    ensures bytes { TakesNext (prepend_known held.old.items (S.left source.old))
        (prepend_known held.new.items (S.left source.new)) result }
    ensures end { result ≡ Next.End → held.new.items ≡ [] }
    ensures failed { result ≡ Next.ReadFault → Rose (S.faults source.old) (S.faults source.new) }
    ensures later { S.faults source.old ≤ S.faults source.new }
{
    match hold_head(source, held) {
        HeldHead::Whole(len) => take_request(alloc, source, held, len),
        HeldHead::Most => {
            drop_front(held, HEAD_LIMIT);
            Next::Refused {
                status: 431,
                allow: None,
                head: false,
            }
        }
        HeldHead::Ended => {
            if held.is_empty() {
                return Next::End;
            }
            held.clear();
            Next::Cut
        }
        HeldHead::Failed => Next::ReadFault,
        HeldHead::Memory => Next::Memory,
    }
}

// Takes the request whose whole head is held.
fn take_request<S: Source>(alloc: Global, source: &mut S, held: &mut Vec<u8>, len: usize) -> Next
    // A whole head is held.
    requires within { len ≤ length held.old.items }
    requires whole { IsWholeHead (take len held.old.items) }
    // Just what stands next among the bytes, held or still to be read, is taken, and that isn't
    // their end.
    ensures bytes { TakesNext (prepend_known held.old.items (S.left source.old))
        (prepend_known held.new.items (S.left source.new)) result }
    ensures end { ¬ (result ≡ Next.End) }
    // A source that is blamed has failed, and its count of that never falls.
    ensures failed { result ≡ Next.ReadFault → Rose (S.faults source.old) (S.faults source.new) }
    ensures later { S.faults source.old ≤ S.faults source.new }
{
    let Ok(mut room) = vec![in alloc; EMPTY_HEADER_SPAN; SPANS] else {
        return Next::Memory;
    };
    let (text, _) = held.split_at(len);
    match see(text, &mut room) {
        HeadSeen::Refused { refusal, head } => {
            drop_front(held, len);
            Next::Refused {
                status: refusal.status,
                allow: refusal.allow,
                head,
            }
        }
        HeadSeen::Taken { spans, body_len } => {
            finish(alloc, source, held, len, &room, spans, body_len)
        }
    }
}
