// Who asks, and what the target of a request names.
ghost use Rattle.std.specs.Prelude.{◌≡◌, option_map, drop};
ghost use Rattle.tracker_http.specs.Calls.{utf8_text, user_of, query_of, name_in, issue_in, number_in};

use crate::numbers::number_within;
use crate::request::Request;
use crate::route::{before, path_of};
use std::str;

// The text, where the bytes are UTF-8.
fn utf8_text(bytes: &[u8]) -> Option<&str>
    ensures { option_map (λ text. text.now) result ≡ utf8_text bytes.now }
{
    match str::from_utf8(bytes) {
        Ok(text) => Some(text),
        Err(_) => None,
    }
}

/// Who asks.
pub fn user_of(request: &Request) -> Option<&str>
    ensures { option_map (λ user. user.now) result ≡ user_of request.now }
{
    match &request.user {
        Some(user) => utf8_text(user.as_slice()),
        None => None,
    }
}

// The bytes behind so many.
fn behind(bytes: &[u8], count: usize) -> &[u8]
    ensures { result.now ≡ drop count bytes.now }
{
    if count < bytes.len() {
        let (_, rest) = bytes.split_at(count);
        return rest;
    }
    &bytes[bytes.len()..]
}

/// The query text of a target.
pub fn query_of(target: &[u8]) -> &[u8]
    ensures { result.now ≡ query_of target.now }
{
    behind(target, path_of(target).len() + 1)
}

// What a path names behind its front.
fn name_in<'p>(path: &'p [u8], front: &[u8]) -> &'p [u8]
    ensures { result.now ≡ name_in front.now path.now }
{
    let rest = behind(path, front.len());
    let (name, _) = rest.split_at(before(rest, b'/'));
    name
}

/// The issue that a path names.
pub fn issue_in(path: &[u8]) -> Option<&str>
    ensures { option_map (λ issue. issue.now) result ≡ issue_in path.now }
{
    utf8_text(name_in(path, b"/issues/"))
}

/// The number of a saved filter, a board or a sprint that a path names behind its front.
pub fn number_in(path: &[u8], front: &[u8]) -> Option<u32>
    ensures { result ≡ number_in front.now path.now }
{
    number_within(name_in(path, front), 0, u32::MAX)
}
