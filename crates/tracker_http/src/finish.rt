// A request that isn't refused, with its body.
ghost use Rattle.std.specs.Prelude.{◌≡◌, ◌≤◌, [], length, take, None, All, IfOk, option_map};
ghost use Rattle.std.specs.Io.KnownBytes.{prepend_known};
ghost use Rattle.httparse.specs.Spans.{IsHeaderWithin};
ghost use Rattle.request_lines.specs.Causes.{Rose};
ghost use Rattle.tracker_http.specs.Fields.{x_user, value_named};
ghost use Rattle.tracker_http.specs.HeadFaults.{fault_of};
ghost use Rattle.tracker_http.specs.Requests.{Says, TakesNext};
ghost use Rattle.tracker_http.specs.Spans.{fields_at, head_at, SpansAreWithin};
ghost use Rattle.tracker_http.specs.Taken.{IsTaken};

use crate::bytes::Bytes;
use crate::fields::{bytes_of, closes, value_named};
use crate::held::{More, drop_front, hold_all};
use crate::request::{Next, Request};
use crate::route::{path_of, path_verb};
use field_values::Memory;
use httparse::spans::{HeaderSpan, RequestSpans};
use request_lines::Source;
use std::alloc::Global;

// The value of the field that names the user, where there is one.
fn copy_user(alloc: Global, bytes: &[u8], spans: &[HeaderSpan]) -> Result<Option<Bytes>, Memory>
    requires { All (IsHeaderWithin (length bytes.now)) spans.now }
    ensures { IfOk result (λ user. user ≡ value_named x_user (fields_at bytes.now spans.now)) }
{
    let Some(value) = value_named(bytes, spans, b"X-User") else {
        return Ok(None);
    };
    let user = Bytes::copy_of(alloc, value)?;
    Ok(Some(user))
}

// What a head that isn't refused says of its request, and the body.
fn request_of(
    alloc: Global,
    bytes: &[u8],
    room: &[HeaderSpan],
    spans: RequestSpans,
    body: &[u8],
) -> Result<Request, Memory>
    requires within { SpansAreWithin bytes.now room.now spans }
    requires taken { fault_of (head_at bytes.now room.now spans) ≡ None }
    ensures says { IfOk result (λ r. Says (head_at bytes.now room.now spans) r) }
    ensures body { IfOk result (λ r. r.body ≡ body.now) }
{
    let (fields, _) = room.split_at(spans.headers);
    let path = bytes_of(bytes, spans.path);
    let Some(verb) = path_verb(path_of(path)) else {
        unreachable!()
    };
    let close = closes(bytes, spans.version, fields);
    let body = Bytes::copy_of(alloc, body)?;
    let target = Bytes::copy_of(alloc, path)?;
    let user = copy_user(alloc, bytes, fields)?;
    Ok(Request {
        verb,
        target,
        user,
        body,
        close,
    })
}

/// Reads the body of a head that isn't refused, and takes the request.
pub fn finish<S: Source>(
    alloc: Global,
    source: &mut S,
    held: &mut Vec<u8>,
    len: usize,
    room: &[HeaderSpan],
    spans: RequestSpans,
    body_len: usize,
) -> Next
    // A whole head that isn't refused is held, within the limits of head and body.
    requires within { len ≤ length held.old.items }
    requires taken { IsTaken (take len held.old.items) room.now spans body_len }
    requires len { len ≤ 8192 }
    requires size { body_len ≤ 65536 }
    // Just what stands next among the bytes, held or still to be read, is taken, and that isn't
    // their end.
    ensures bytes { TakesNext (prepend_known held.old.items (S.left source.old))
        (prepend_known held.new.items (S.left source.new)) result }
    ensures end { ¬ (result ≡ Next.End) }
    // A source that is blamed has failed, and its count of that never falls.
    ensures failed { result ≡ Next.ReadFault → Rose (S.faults source.old) (S.faults source.new) }
    ensures later { S.faults source.old ≤ S.faults source.new }
{
    match hold_all(source, held, len + body_len) {
        More::Read => {}
        More::Ended => {
            held.clear();
            return Next::Cut;
        }
        More::Failed => return Next::ReadFault,
        More::Memory => return Next::Memory,
    }
    let (text, rest) = held.split_at(len);
    let (body, _) = rest.split_at(body_len);
    let Ok(request) = request_of(alloc, text, room, spans, body) else {
        return Next::Memory;
    };
    drop_front(held, len + body_len);
    Next::Request(request)
}
