// Requests and the calls that they ask for.
use crate::bytes::Bytes;
use crate::calls::call_of;
use crate::request::Request;
use crate::route::{path_of, path_verb};
use field_values::{Memory, Text};
use std::alloc::{AllocError, Global};
use std::test::Fail;
use tracker_calls::{Call, Cause, Part, Refusal, UserName};

fn put_number(out: &mut Vec<u8>, number: u32) -> Result<(), AllocError> {
    let mut buffer = itoa::Buffer::new();
    out.push(b' ')?;
    out.extend_from_slice(buffer.format(number).as_bytes())
}

fn put_text(out: &mut Vec<u8>, text: &str) -> Result<(), AllocError> {
    out.push(b' ')?;
    out.extend_from_slice(text.as_bytes())
}

fn put_part(out: &mut Vec<u8>, part: Part) -> Result<(), AllocError> {
    put_number(out, part.from)?;
    put_number(out, part.count)
}

fn put_call(out: &mut Vec<u8>, call: &Call) -> Result<(), AllocError> {
    match call {
        Call::Show { issue } => {
            out.extend_from_slice(b" show")?;
            put_text(out, issue.as_str())
        }
        Call::History { issue, part } => {
            out.extend_from_slice(b" history")?;
            put_text(out, issue.as_str())?;
            put_part(out, *part)
        }
        Call::Search { jql, part } => {
            out.extend_from_slice(b" search")?;
            put_text(out, jql.as_str())?;
            put_part(out, *part)
        }
        Call::Filter { filter, part } => {
            out.extend_from_slice(b" filter")?;
            put_number(out, filter.0)?;
            put_part(out, *part)
        }
        Call::Board { board, part } => {
            out.extend_from_slice(b" board")?;
            put_number(out, board.0)?;
            put_part(out, *part)
        }
        Call::Burndown { sprint, part } => {
            out.extend_from_slice(b" burndown")?;
            put_number(out, sprint.0)?;
            put_part(out, *part)
        }
        _ => out.extend_from_slice(b" another"),
    }
}

// What was asked for, as a line.
fn put_asked(
    out: &mut Vec<u8>,
    asked: &Result<(UserName, Call), Refusal>,
) -> Result<(), AllocError> {
    match asked {
        Ok((user, call)) => {
            out.extend_from_slice(user.as_str().as_bytes())?;
            put_call(out, call)
        }
        Err(Refusal::Cause(Cause::Form { member })) => put_text(out, member.as_str()),
        Err(_) => out.extend_from_slice(b"?"),
    }
}

fn made<T>(made: Result<T, Memory>) -> Result<T, AllocError> {
    match made {
        Ok(it) => Ok(it),
        Err(_) => Err(AllocError),
    }
}

// What is asked for by a request with that target, by the method of its path.
fn asked(alloc: Global, target: &[u8], user: &[u8], body: &[u8]) -> Result<Vec<u8>, AllocError> {
    let target = made(Bytes::copy_of(alloc, target))?;
    let Some(verb) = path_verb(path_of(target.as_slice())) else {
        return Ok(Vec::new(alloc));
    };
    let body = made(Bytes::copy_of(alloc, body))?;
    let user = if user.is_empty() {
        None
    } else {
        Some(made(Bytes::copy_of(alloc, user))?)
    };
    let request = Request {
        verb,
        target,
        user,
        body,
        close: false,
    };
    let asked = call_of(alloc, &request);
    let mut out = Vec::new(alloc);
    put_asked(&mut out, &asked)?;
    Ok(out)
}

const GOT: [(&[u8], &[u8], &[u8]); 35] = [
    (b"/issues/OPS-9", b"anna", b"anna show OPS-9"),
    (b"/issues/OPS%2D9?", b"anna", b"anna show OPS%2D9"),
    (b"/issues/OPS-9?&", b"anna", b"anna show OPS-9"),
    (b"/issues/OPS-9?count=1", b"anna", b" count"),
    (b"/issues/OPS-9?to&issue=OPS-9", b"anna", b" issue"),
    (b"/issues/\xFF", b"anna", b" issue"),
    (b"/issues/OPS-9", b"", b" user"),
    (b"/issues/OPS-9", b"\xC3", b" user"),
    (b"/issues/OPS-9?x=1", b"", b" user"),
    (b"/issues/OPS-9/history", b"bo", b"bo history OPS-9 0 50"),
    (
        b"/issues/OPS-9/history?count=050&from=0002000000",
        b"bo",
        b"bo history OPS-9 2000000 50",
    ),
    (b"/issues/OPS-9/history?count=51", b"bo", b" count"),
    (b"/issues/OPS-9/history?count=0&from=+1", b"bo", b" from"),
    (b"/issues/OPS-9/history?count=0&jql=", b"bo", b" count"),
    (b"/issues/OPS-9/history?jql=x&issue=1", b"bo", b" issue"),
    (
        b"/search?jql=status+%3d+Open&count=1000",
        b"cy",
        b"cy search status = Open 0 1000",
    ),
    (
        b"/search?jql=a?b=c%zz+%ff&%66rom=7",
        b"cy",
        b"cy search a?b=c%zz \xEF\xBF\xBD 7 1000",
    ),
    (b"/search?jql", b"cy", b"cy search  0 1000"),
    (b"/search", b"cy", b" jql"),
    (b"/search?JQL=x", b"cy", b" jql"),
    (b"/search?from=a&jql=&jql=", b"cy", b" jql"),
    (b"/search?from=1&jql=x&from=1", b"cy", b" from"),
    (b"/search?jql=x&from=", b"cy", b" from"),
    (b"/search?jql=x&from=2000001", b"cy", b" from"),
    (b"/search?jql=x&from=18446744073709551617", b"cy", b" from"),
    (b"/search?jql=x&count=-1", b"cy", b" count"),
    (b"/search?jql=x&count=1001", b"cy", b" count"),
    (b"/search?jql=x&user=cy&call=search", b"cy", b" call"),
    (b"/search?jql=x&=&z", b"cy", b" "),
    (
        b"/filters/0000000000004294967295?from=1",
        b"cy",
        b"cy filter 4294967295 1 1000",
    ),
    (b"/filters/4294967296?from=a", b"cy", b" filter"),
    (b"/filters/1a", b"cy", b" filter"),
    (b"/boards/0?count=20", b"cy", b"cy board 0 0 20"),
    (b"/boards/0x1", b"cy", b" board"),
    (b"/sprints/12/burndown?zz&a", b"cy", b" a"),
];

#[test]
fn what_is_got_is_a_call(rt: HostRuntime) -> Result<(), Fail> {
    let mut right = true;
    for &(target, user, wanted) in &GOT {
        let told = asked(rt.alloc(), target, user, b"{")?;
        right = right && told.as_slice() == wanted;
    }
    assert!(rt; right);
    let burndown = asked(rt.alloc(), b"/sprints/12/burndown", b"cy", b"")?;
    assert_eq!(rt; burndown.as_slice(), b"cy burndown 12 0 1000".as_slice());
    Ok(())
}

const POSTED: [(&[u8], &[u8], &[u8]); 6] = [
    (
        b"{\"call\":\"show\",\"issue\":\"OPS-9\"}",
        b"anna",
        b"anna show OPS-9",
    ),
    (
        b"{\"call\":\"make_sprint\",\"name\":\"Week 9\"}",
        b"anna",
        b"anna another",
    ),
    (b"{\"call\":\"tick\",\"to\":5}", b"anna", b" call"),
    (
        b"{\"call\":\"show\",\"issue\":\"OPS-9\",\"user\":\"anna\"}",
        b"anna",
        b" user",
    ),
    (b"[]", b"", b" line"),
    (b"{}", b"", b" user"),
];

#[test]
fn what_is_posted_is_a_call(rt: HostRuntime) -> Result<(), Fail> {
    let mut right = true;
    for &(body, user, wanted) in &POSTED {
        let told = asked(rt.alloc(), b"/calls?x", user, body)?;
        right = right && told.as_slice() == wanted;
    }
    assert!(rt; right);
    Ok(())
}
