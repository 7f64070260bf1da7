// Streams of requests, and the bytes of responses.
use crate::read::read_request;
use crate::request::{Next, Request};
use crate::response::{refused_body, response_bytes, verb_name};
use crate::verb::Verb;
use field_values::Memory;
use request_lines::MemorySource;
use std::alloc::{AllocError, Global};
use std::test::Fail;

fn put_request(out: &mut Vec<u8>, request: &Request) -> Result<(), AllocError> {
    out.extend_from_slice(verb_name(request.verb))?;
    out.push(b' ')?;
    out.extend_from_slice(request.target.as_slice())?;
    out.push(b' ')?;
    if let Some(user) = &request.user {
        out.extend_from_slice(user.as_slice())?;
    }
    out.push(b' ')?;
    out.extend_from_slice(request.body.as_slice())?;
    if request.close {
        out.extend_from_slice(b" close")?;
    }
    Ok(())
}

fn put_refusal(
    out: &mut Vec<u8>,
    status: u16,
    allow: Option<Verb>,
    head: bool,
) -> Result<(), AllocError> {
    let mut buffer = itoa::Buffer::new();
    out.extend_from_slice(buffer.format(status).as_bytes())?;
    if let Some(verb) = allow {
        out.push(b' ')?;
        out.extend_from_slice(verb_name(verb))?;
    }
    if head {
        out.extend_from_slice(b" head")?;
    }
    Ok(())
}

// What stands next, as a line, and whether more may follow.
fn put_next(out: &mut Vec<u8>, next: &Next) -> Result<bool, AllocError> {
    match next {
        Next::Request(request) => put_request(out, request)?,
        Next::End => out.extend_from_slice(b"end")?,
        Next::Cut => out.extend_from_slice(b"cut")?,
        Next::Refused {
            status,
            allow,
            head,
        } => put_refusal(out, *status, *allow, *head)?,
        Next::ReadFault => out.extend_from_slice(b"fault")?,
        Next::Memory => out.extend_from_slice(b"memory")?,
    }
    out.push(b'\n')?;
    Ok(matches!(next, Next::Request(_)))
}

// All that stands in these bytes, a line each, where they come in pieces of that length.
fn all(alloc: Global, bytes: &[u8], piece: usize) -> Result<Vec<u8>, AllocError> {
    let mut pieces = Vec::new(alloc);
    for _ in 0..bytes.len() {
        pieces.push(piece)?;
    }
    let mut source = MemorySource::new(bytes.to_vec(alloc)?, pieces, Vec::new(alloc));
    let mut held = Vec::new(alloc);
    let mut out = Vec::new(alloc);
    for _ in 0..9 {
        let next = read_request(alloc, &mut source, &mut held);
        if !put_next(&mut out, &next)? {
            break;
        }
    }
    Ok(out)
}

const STREAM: &[u8] =
    b"GET /search?jql=assignee+IS+EMPTY&count=1 HTTP/1.1\r\nHost: tracker.example\r\nUser-Agent: curl/8.5.0\r\nAccept: */*\r\nX-User: cy\r\n\r\nPOST /calls HTTP/1.1\r\nHost: t\r\nX-User: anna\r\nContent-Length: 31\r\n\r\n{\"call\":\"show\",\"issue\":\"OPS-9\"}POST /calls HTTP/1.1\r\nHost: t\r\nX-User: anna\r\nContent-Length: 31\r\n\r\n{\"call\":\"s";

#[test]
fn a_stream_is_read_in_any_pieces(rt: HostRuntime) -> Result<(), Fail> {
    for piece in [1, 7, 300] {
        let read = all(rt.alloc(), STREAM, piece)?;
        assert_eq!(rt;
            read.as_slice(),
            b"GET /search?jql=assignee+IS+EMPTY&count=1 cy \nPOST /calls anna {\"call\":\"show\",\"issue\":\"OPS-9\"}\ncut\n".as_slice()
        );
    }
    Ok(())
}

const ROWS: [(&[u8], &[u8]); 28] = [
    (b"", b"end\n"),
    (b"\r\n\n", b"cut\n"),
    (b"DELETE /calls HTTP/1.1\r\nHost: t\r\n\r\n", b"405 POST\n"),
    (
        b"HEAD /search?x HTTP/1.1\r\nHost: t\r\n\r\n",
        b"405 GET head\n",
    ),
    (b"GET / HTTP/1.1\r\nHost: t\r\n\r\n", b"404\n"),
    (b"HEAD /boards/ HTTP/1.1\r\nHost: t\r\n\r\n", b"404 head\n"),
    (b"GET /issues/OPS-1/ HTTP/1.1\r\nHost: t\r\n\r\n", b"404\n"),
    (
        b"GET /issues/OPS-1/history HTTP/1.1\r\nHost: t\r\n\r\n",
        b"GET /issues/OPS-1/history  \nend\n",
    ),
    (
        b"GET /sprints/1/burndown HTTP/1.1\r\nHost: t\r\n\r\n",
        b"GET /sprints/1/burndown  \nend\n",
    ),
    (
        b"\r\n\nGET /search HTTP/1.0\n\n",
        b"GET /search   close\nend\n",
    ),
    (
        b"GET /search HTTP/1.1\nHOST: t\nConnection: keep-alive , Close\n\n",
        b"GET /search   close\nend\n",
    ),
    (
        b"GET /search HTTP/1.1\nHOST: t\nConnection: closed, disclose\n\n",
        b"GET /search  \nend\n",
    ),
    (b"GET /search HTTP/1.1\r\n\r\n", b"400\n"),
    (
        b"GET /search HTTP/1.1\r\nHost: t\r\nhost: t\r\n\r\n",
        b"400\n",
    ),
    (
        b"GET /search HTTP/1.1\r\nHost: t\r\nX-User: a\r\nx-user: a\r\n\r\n",
        b"400\n",
    ),
    (b"GET  /search HTTP/1.1\r\nHost: t\r\n\r\n", b"400\n"),
    (b"GET /search HTTP/2.0\r\nHost: t\r\n\r\n", b"400\n"),
    (
        b"GET /search HTTP/1.1\r\nHost: t\r\nContent-Length: 1,1\r\n\r\n",
        b"400\n",
    ),
    (
        b"GET /search HTTP/1.1\r\nHost: t\r\nContent-Length: +1\r\n\r\n",
        b"400\n",
    ),
    (
        b"GET /search HTTP/1.1\r\nHost: t\r\nContent-Length:\r\n\r\n",
        b"400\n",
    ),
    (
        b"GET /search HTTP/1.1\r\nHost: t\r\nContent-Length: 1\r\nContent-Length: 1\r\n\r\n",
        b"400\n",
    ),
    (
        b"GET /search HTTP/1.1\r\nHost: t\r\nTransfer-Encoding: chunked\r\nContent-Length: x\r\n\r\n",
        b"400\n",
    ),
    (
        b"GET /search HTTP/1.1\r\nHost: t\r\nTransfer-Encoding: chunked\r\nContent-Length: 65537\r\n\r\n",
        b"501\n",
    ),
    (
        b"GET / HTTP/1.1\r\nHost: t\r\nContent-Length: 65537\r\n\r\n",
        b"413\n",
    ),
    (
        b"GET /search HTTP/1.1\r\nHost: t\r\nContent-Length: 99999999999999999999999\r\n\r\n",
        b"413\n",
    ),
    (
        b"GET /search HTTP/1.1\r\nHost: t\r\nContent-Length: 65536\r\n\r\n",
        b"cut\n",
    ),
    (
        b"GET /search HTTP/1.1\r\nHost: t\r\nContent-Length: 000000000000000000000002\r\n\r\nabGET",
        b"GET /search  ab\ncut\n",
    ),
    (b"GET /search HTTP/1.1\r\nHost: t\r\n", b"cut\n"),
];

#[test]
fn each_request_is_taken_or_refused(rt: HostRuntime) -> Result<(), Fail> {
    let mut right = true;
    for &(bytes, wanted) in &ROWS {
        let read = all(rt.alloc(), bytes, 3)?;
        right = right && read.as_slice() == wanted;
    }
    assert!(rt; right);
    Ok(())
}

// A head with so many fields, and another line behind them.
fn many_fields(alloc: Global, count: usize, last: &[u8]) -> Result<Vec<u8>, AllocError> {
    let mut bytes = Vec::from_slice(alloc, b"GET /search HTTP/1.1\r\nHost: t\r\n")?;
    for _ in 1..count {
        bytes.extend_from_slice(b"A: b\r\n")?;
    }
    bytes.extend_from_slice(last)?;
    Ok(bytes)
}

#[test]
fn a_head_has_its_limits(rt: HostRuntime) -> Result<(), Fail> {
    let alloc = rt.alloc();
    let most = all(alloc, &many_fields(alloc, 64, b"\r\n")?, 5_000)?;
    assert_eq!(rt; most.as_slice(), b"GET /search  \nend\n".as_slice());
    let more = all(alloc, &many_fields(alloc, 65, b"\r\n")?, 5_000)?;
    assert_eq!(rt; more.as_slice(), b"431\n".as_slice());
    // The grammar is looked at before the number of fields.
    let bad = all(alloc, &many_fields(alloc, 65, b" :\r\n\r\n")?, 5_000)?;
    assert_eq!(rt; bad.as_slice(), b"400\n".as_slice());
    let long = all(alloc, &many_fields(alloc, 1_361, b"\r\n\r\n")?, 5_000)?;
    assert_eq!(rt; long.as_slice(), b"431\n".as_slice());
    Ok(())
}

fn made(made: Result<Vec<u8>, Memory>) -> Result<Vec<u8>, AllocError> {
    match made {
        Ok(bytes) => Ok(bytes),
        Err(_) => Err(AllocError),
    }
}

#[test]
fn responses_have_their_bytes(rt: HostRuntime) -> Result<(), Fail> {
    let alloc = rt.alloc();
    let body = made(refused_body(alloc, 405))?;
    let refused = made(response_bytes(alloc, 405, Some(&body), true, Some(Verb::Post)))?;
    assert_eq!(rt;
        refused.as_slice(),
        b"HTTP/1.1 405 Method Not Allowed\r\nContent-Type: application/json\r\nContent-Length: 12\r\nAllow: POST\r\nConnection: close\r\n\r\n{\"http\":405}".as_slice()
    );
    let found = made(response_bytes(alloc, 200, Some(ISSUES), false, None))?;
    assert_eq!(rt;
        found.as_slice(),
        b"HTTP/1.1 200 OK\r\nContent-Type: application/json\r\nContent-Length: 37\r\n\r\n{\"ok\":{\"issues\":[\"OPS-1\"],\"total\":2}}".as_slice()
    );
    let head = made(response_bytes(alloc, 404, None, true, None))?;
    assert_eq!(rt;
        head.as_slice(),
        b"HTTP/1.1 404 Not Found\r\nContent-Type: application/json\r\nConnection: close\r\n\r\n".as_slice()
    );
    Ok(())
}

const ISSUES: &[u8] = b"{\"ok\":{\"issues\":[\"OPS-1\"],\"total\":2}}";
