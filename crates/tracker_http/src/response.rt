// The bytes of a response.
ghost use Rattle.std.specs.Prelude.{◌≡◌, ◌++◌, Some, IfOk, OnOk, option_map, codes, decimal, length};
ghost use Rattle.http.specs.StatusCode.{reason_phrase};
ghost use Rattle.tracker_http.specs.Response.{IsStatus, reason, status_line, type_line, length_line, verb_name, allow_line, close_line, after_head, start, fields, response, refused_body};

use crate::verb::Verb;
use field_values::Memory;
use http::StatusCode;
use itoa::Buffer;
use std::alloc::Global;

/// The bytes of a response. Without a body, the field that tells its length is left out too. `allow` is the
/// one method that the path has, where another one was asked for.
#[tactic(auto, unfolding(crate::specs::Response::response))]
pub fn response_bytes(
    alloc: Global,
    status: u16,
    body: Option<&[u8]>,
    close: bool,
    allow: Option<Verb>,
) -> Result<Vec<u8>, Memory>
    requires { IsStatus status }
    ensures { IfOk result (λ v. v.items
        ≡ response status (option_map (λ b. b.now) body.entry) close allow) }
{
    let mut out = Vec::new(alloc);
    put_start(&mut out, status)?;
    put_fields(&mut out, body, close, allow)?;
    put_body(&mut out, body)?;
    Ok(out)
}

/// The body of the response to a request that is refused.
pub fn refused_body(alloc: Global, status: u16) -> Result<Vec<u8>, Memory>
    ensures { IfOk result (λ v. v.items ≡ refused_body status) }
{
    let mut buffer = Buffer::new();
    let mut out = Vec::from_slice(alloc, b"{\"http\":")?;
    out.extend_from_slice(buffer.format(status).as_bytes())?;
    out.extend_from_slice(b"}")?;
    Ok(out)
}

// The reason that stands behind a status.
fn reason_of(status: u16) -> &'static str
    requires { IsStatus status }
    ensures { result.now ≡ reason status }
{
    match StatusCode::from_u16(status) {
        Ok(code) => match code.canonical_reason() {
            Some(phrase) => phrase,
            None => unreachable!(),
        },
        Err(_) => unreachable!(),
    }
}

// Puts the lines that each response has at the end.
#[tactic(auto, unfolding(crate::specs::Response::start))]
fn put_start(out: &mut Vec<u8>, status: u16) -> Result<(), Memory>
    requires { IsStatus status }
    ensures { OnOk result (out.new.items ≡ out.old.items ++ start status) }
{
    put_status(out, status)?;
    put_type(out)?;
    Ok(())
}

// Puts the other lines of the head at the end.
#[tactic(auto, unfolding(crate::specs::Response::fields))]
fn put_fields(
    out: &mut Vec<u8>,
    body: Option<&[u8]>,
    close: bool,
    allow: Option<Verb>,
) -> Result<(), Memory>
    ensures { OnOk result (out.new.items ≡ out.old.items
        ++ fields (option_map (λ b. b.now) body.entry) close allow) }
{
    put_length(out, body)?;
    put_allow(out, allow)?;
    put_close(out, close)?;
    Ok(())
}

// Puts the first line at the end.
#[tactic(auto, unfolding(crate::specs::Response::status_line))]
fn put_status(out: &mut Vec<u8>, status: u16) -> Result<(), Memory>
    requires { IsStatus status }
    ensures { OnOk result (out.new.items ≡ out.old.items ++ status_line status) }
{
    let mut buffer = Buffer::new();
    out.extend_from_slice(b"HTTP/1.1 ")?;
    out.extend_from_slice(buffer.format(status).as_bytes())?;
    out.extend_from_slice(b" ")?;
    out.extend_from_slice(reason_of(status).as_bytes())?;
    out.extend_from_slice(b"\r\n")?;
    Ok(())
}

// Puts the line that tells what the body is at the end.
#[tactic(auto, unfolding(crate::specs::Response::type_line))]
fn put_type(out: &mut Vec<u8>) -> Result<(), Memory>
    ensures { OnOk result (out.new.items ≡ out.old.items ++ type_line) }
{
    out.extend_from_slice(b"Content-Type: application/json\r\n")?;
    Ok(())
}

// Puts the line that tells the body's length at the end, where there is a body.
fn put_length(out: &mut Vec<u8>, body: Option<&[u8]>) -> Result<(), Memory>
    ensures { OnOk result (out.new.items ≡ out.old.items
        ++ length_line (option_map (λ b. b.now) body.entry)) }
{
    let Some(bytes) = body else {
        return Ok(());
    };
    let mut buffer = Buffer::new();
    out.extend_from_slice(b"Content-Length: ")?;
    out.extend_from_slice(buffer.format(bytes.len()).as_bytes())?;
    out.extend_from_slice(b"\r\n")?;
    Ok(())
}

/// The name of a method.
pub fn verb_name(verb: Verb) -> &'static [u8]
    ensures { result.now ≡ verb_name verb }
{
    match verb {
        Verb::Get => b"GET",
        Verb::Post => b"POST",
    }
}

// Puts the line of the method that the path has at the end.
fn put_allow(out: &mut Vec<u8>, allow: Option<Verb>) -> Result<(), Memory>
    ensures { OnOk result (out.new.items ≡ out.old.items ++ allow_line allow) }
{
    let Some(verb) = allow else {
        return Ok(());
    };
    out.extend_from_slice(b"Allow: ")?;
    out.extend_from_slice(verb_name(verb))?;
    out.extend_from_slice(b"\r\n")?;
    Ok(())
}

// Puts the line that tells of the end of the connection at the end.
fn put_close(out: &mut Vec<u8>, close: bool) -> Result<(), Memory>
    ensures { OnOk result (out.new.items ≡ out.old.items ++ close_line close) }
{
    if close {
        out.extend_from_slice(b"Connection: close\r\n")?;
    }
    Ok(())
}

// Puts the empty line after the fields at the end, and the body, where there is one.
#[tactic(auto, unfolding(crate::specs::Response::after_head))]
fn put_body(out: &mut Vec<u8>, body: Option<&[u8]>) -> Result<(), Memory>
    ensures { OnOk result (out.new.items ≡ out.old.items
        ++ after_head (option_map (λ b. b.now) body.entry)) }
{
    out.extend_from_slice(b"\r\n")?;
    if let Some(bytes) = body {
        out.extend_from_slice(bytes)?;
    }
    Ok(())
}
