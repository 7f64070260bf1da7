// What a whole head says, and why it is refused.
ghost use Rattle.std.specs.Prelude.{◌≡◌, ◌≤◌, length, All, min, false};
ghost use Rattle.httparse.specs.Spans.{IsHeaderWithin};
ghost use Rattle.tracker_http.specs.Fields.{host, x_user, content_length, body_len, value_named};
ghost use Rattle.tracker_http.specs.HeadFaults.{lacks_host, is_unreadable, has_bad_fields, field_fault, verb_fault, fault_of, is_head_method};
ghost use Rattle.tracker_http.specs.Spans.{fields_at, head_at, SpansAreWithin, Looks};

use crate::fields::{bytes_of, count_named, value_named};
use crate::head_fault::HeadFault;
use crate::numbers::{is_number, written};
use crate::response::verb_name;
use crate::route::{path_of, path_verb};
use crate::verb::Verb;
use httparse::Status;
use httparse::spans::{HeaderSpan, RequestSpans, parse_request};

// The greatest length of a body, and one more.
const TOO_LONG: u64 = 65_537;

/// The spans that a head of 8,192 bytes has at most, and one more: its fields have three bytes at least.
pub const SPANS: usize = 2_731;

/// Reads a whole head, or says that it is none of the grammar.
pub fn look(bytes: &[u8], room: &mut [HeaderSpan]) -> Option<RequestSpans>
    requires short { length bytes.now ≤ 8192 }
    requires room { 2731 ≤ length room.old }
    ensures { Looks bytes.now room.new result }
{
    match parse_request(bytes, room) {
        Ok(Status::Complete(spans)) => {
            if spans.len < bytes.len() {
                return None;
            }
            Some(spans)
        }
        Ok(Status::Partial) => None,
        Err(_) => None,
    }
}

// Whether a request of HTTP/1.1 hasn't exactly one Host.
fn lacks_host(bytes: &[u8], minor: u8, spans: &[HeaderSpan]) -> bool
    requires { All (IsHeaderWithin (length bytes.now)) spans.now }
    ensures { result ≡ lacks_host minor (fields_at bytes.now spans.now) }
{
    minor == 1 && count_named(bytes, spans, b"Host") != 1
}

// Whether the length is told and can't be read.
fn is_unreadable(bytes: &[u8], spans: &[HeaderSpan]) -> bool
    requires { All (IsHeaderWithin (length bytes.now)) spans.now }
    ensures { result ≡ is_unreadable (value_named content_length (fields_at bytes.now spans.now)) }
{
    match value_named(bytes, spans, b"Content-Length") {
        Some(value) => !is_number(value),
        None => false,
    }
}

// Whether a field stands too often or can't be read.
fn has_bad_fields(bytes: &[u8], minor: u8, spans: &[HeaderSpan]) -> bool
    requires { All (IsHeaderWithin (length bytes.now)) spans.now }
    ensures { result ≡ has_bad_fields minor (fields_at bytes.now spans.now) }
{
    if lacks_host(bytes, minor, spans) {
        return true;
    }
    if count_named(bytes, spans, b"X-User") > 1 {
        return true;
    }
    if count_named(bytes, spans, b"Content-Length") > 1 {
        return true;
    }
    is_unreadable(bytes, spans)
}

/// The length of the body, or 65,537 where it is too long.
pub fn body_len(bytes: &[u8], spans: &[HeaderSpan]) -> usize
    requires within { All (IsHeaderWithin (length bytes.now)) spans.now }
    requires readable { is_unreadable (value_named content_length (fields_at bytes.now spans.now))
        ≡ false }
    ensures { result ≡ min (body_len (fields_at bytes.now spans.now)) 65537 }
{
    match value_named(bytes, spans, b"Content-Length") {
        Some(value) => written(value, TOO_LONG) as usize,
        None => 0,
    }
}

// The status by which the fields are refused.
#[tactic(auto, unfolding(crate::specs::HeadFaults::field_fault))]
fn field_fault(bytes: &[u8], minor: u8, spans: &[HeaderSpan]) -> Option<u16>
    requires { All (IsHeaderWithin (length bytes.now)) spans.now }
    ensures { result ≡ field_fault minor (fields_at bytes.now spans.now) }
{
    if spans.len() > 64 {
        return Some(431);
    }
    if has_bad_fields(bytes, minor, spans) {
        return Some(400);
    }
    if count_named(bytes, spans, b"Transfer-Encoding") > 0 {
        return Some(501);
    }
    if body_len(bytes, spans) > 65_536 {
        return Some(413);
    }
    None
}

// Why the method is refused for a path.
fn verb_fault(method: &[u8], verb: Option<Verb>) -> Option<HeadFault>
    ensures { result ≡ verb_fault method.now verb }
{
    let Some(verb) = verb else {
        return Some(HeadFault {
            status: 404,
            allow: None,
        });
    };
    if method == verb_name(verb) {
        return None;
    }
    Some(HeadFault {
        status: 405,
        allow: Some(verb),
    })
}

/// Why the head is refused.
#[tactic(auto, unfolding(crate::specs::HeadFaults::fault_of))]
pub fn fault_of(bytes: &[u8], room: &[HeaderSpan], spans: RequestSpans) -> Option<HeadFault>
    requires { SpansAreWithin bytes.now room.now spans }
    ensures { result ≡ fault_of (head_at bytes.now room.now spans) }
{
    let (fields, _) = room.split_at(spans.headers);
    match field_fault(bytes, spans.version, fields) {
        Some(status) => Some(HeadFault {
            status,
            allow: None,
        }),
        None => verb_fault(
            bytes_of(bytes, spans.method),
            path_verb(path_of(bytes_of(bytes, spans.path))),
        ),
    }
}

/// Whether the method is HEAD.
pub fn is_head_method(method: &[u8]) -> bool
    ensures { result ≡ is_head_method method.now }
{
    method == b"HEAD".as_slice()
}
