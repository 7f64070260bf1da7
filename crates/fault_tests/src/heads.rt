use crate::connections::served;
use crate::fakes::NOTHING;
use std::alloc::{AllocError, Global};
use std::test::Fail;
use tracker_server::ConnEnd;

const POST: &[u8] = b"POST /calls HTTP/1.1\r\nHost: t\r\nX-User: anna\r\n";

// A head of so many bytes without its end.
fn endless(alloc: Global, bytes: usize) -> Result<Vec<u8>, AllocError> {
    let mut head = b"GET /search?jql= HTTP/1.1\r\nHost: t\r\nX-Long: ".to_vec(alloc)?;
    for _ in 0..bytes.saturating_sub(head.len()) {
        head.push(b'a')?;
    }
    Ok(head)
}

// A request with so many fields.
fn with_fields(alloc: Global, fields: usize) -> Result<Vec<u8>, AllocError> {
    let mut head = b"GET /search?jql= HTTP/1.1\r\nHost: t\r\n".to_vec(alloc)?;
    for _ in 1..fields {
        head.extend_from_slice(b"a: b\r\n")?;
    }
    head.extend_from_slice(b"\r\n")?;
    Ok(head)
}

// A post with these further fields, and this body.
fn post(alloc: Global, fields: &[u8], body: &[u8]) -> Result<Vec<u8>, AllocError> {
    let mut head = POST.to_vec(alloc)?;
    head.extend_from_slice(fields)?;
    head.extend_from_slice(b"\r\n")?;
    head.extend_from_slice(body)?;
    Ok(head)
}

// Whether the bytes are refused with this status, in a response that begins with this line.
fn is_refused(alloc: Global, bytes: &[u8], status: u16, line: &[u8]) -> Result<bool, AllocError> {
    let served = served(alloc, bytes, NOTHING)?;
    Ok(served.end == ConnEnd::Refused(status) && served.out.starts_with(line))
}

#[test]
fn requests_that_are_refused(rt: HostRuntime) -> Result<(), Fail> {
    let alloc = rt.alloc();
    let long = b"HTTP/1.1 431 ";
    let right = is_refused(alloc, &endless(alloc, 8_193)?, 431, long)?
        && is_refused(alloc, &with_fields(alloc, 65)?, 431, long)?;
    assert!(rt; right);
    let two = post(alloc, b"Content-Length: 1\r\nContent-Length: 1\r\n", b"{")?;
    let large = post(alloc, b"Content-Length: 65537\r\n", b"")?;
    let chunked = post(
        alloc,
        b"Transfer-Encoding: chunked\r\n",
        b"2\r\n{}\r\n0\r\n\r\n",
    )?;
    let right = is_refused(alloc, &two, 400, b"HTTP/1.1 400 ")?
        && is_refused(alloc, &large, 413, b"HTTP/1.1 413 ")?
        && is_refused(alloc, &chunked, 501, b"HTTP/1.1 501 ")?;
    assert!(rt; right);
    // 8,191 bytes may still be the front of a head, and 64 fields are no fault of it.
    let shorter = served(alloc, &endless(alloc, 8_191)?, NOTHING)?;
    let fewer = served(alloc, &with_fields(alloc, 64)?, NOTHING)?;
    assert!(rt; shorter.end == ConnEnd::Cut && shorter.out.is_empty());
    assert!(rt; fewer.end == ConnEnd::Closed && fewer.out.starts_with(b"HTTP/1.1 400 "));
    Ok(())
}
