// Connections over a maker of set replies.
use crate::direct::Direct;
use crate::maker::Maker;
use crate::serve::{ConnEnd, serve_connection};
use field_values::{Memory, Names, Text};
use request_lines::{ListClock, MemorySink, MemorySource};
use std::alloc::{AllocError, Global};
use std::test::Fail;
use tracker_calls::{Answer, Call, Cause, Refusal, Reply, Thing, UserName};

// Finds one of two issues, and knows no issue by its key.
#[derive(Drop)]
struct SetReplies {
    alloc: Global,
}

impl Maker for SetReplies {
    ghost State = { Unit {0} };

    ghost tells = { λ r state. Unit {0} };

    ghost makes = { λ old caller call reply new. Unit {0} };

    fn call(&mut self, _caller: &UserName, call: &Call) -> Reply {
        match call {
            Call::Tick { to } => Reply::Ok(Answer::Tick { moment: *to }),
            Call::Search { .. } => found(self.alloc),
            Call::Show { issue } => unknown(self.alloc, issue.as_str()),
            _ => Reply::Refused(Refusal::Memory),
        }
    }
}

fn found(alloc: Global) -> Reply {
    match first_issue(alloc) {
        Ok(issues) => Reply::Ok(Answer::Search { issues, total: 2 }),
        Err(_) => Reply::Refused(Refusal::Memory),
    }
}

fn first_issue(alloc: Global) -> Result<Names, Memory> {
    let mut issues = Names::new(alloc);
    issues.push(Text::copy_of(alloc, "OPS-1")?)?;
    Ok(issues)
}

fn unknown(alloc: Global, issue: &str) -> Reply {
    match Text::copy_of(alloc, issue) {
        Ok(name) => Reply::Refused(Refusal::Cause(Cause::Unknown {
            kind: Thing::Issue,
            name,
        })),
        Err(_) => Reply::Refused(Refusal::Memory),
    }
}

// Serves these bytes, one a read: what is written, and how many events there are; `None` where it doesn't end so.
fn served(
    alloc: Global,
    bytes: &[u8],
    end: ConnEnd,
) -> Result<Option<(Vec<u8>, usize)>, AllocError> {
    let mut pieces = Vec::new(alloc);
    for _ in 0..bytes.len() {
        pieces.push(1)?;
    }
    let mut source = MemorySource::new(bytes.to_vec(alloc)?, pieces, Vec::new(alloc));
    let mut sink = MemorySink::new(alloc, 4_096, Vec::new(alloc))?;
    let mut clock = ListClock::new(Vec::new(alloc));
    let mut teller = Direct::over(alloc, SetReplies { alloc });
    let ended = serve_connection(alloc, &mut source, &mut sink, &mut clock, &mut teller);
    if ended != end {
        return Ok(None);
    }
    let taken = sink.taken().to_vec(alloc)?;
    Ok(Some((taken, teller.events().len())))
}

// What is sent, what comes back, how many events it makes, and how it ends.
const ROWS: [(&[u8], &[u8], usize, ConnEnd); 4] = [
    (
        b"GET /search?jql=assignee+IS+EMPTY&count=1 HTTP/1.1\r\nHost: tracker.example\r\nUser-Agent: curl/8.5.0\r\nAccept: */*\r\nX-User: cy\r\n\r\nPOST /calls HTTP/1.1\r\nHost: t\r\nX-User: anna\r\nContent-Length: 31\r\n\r\n{\"call\":\"show\",\"issue\":\"OPS-9\"}POST /calls HTTP/1.1\r\nHost: t\r\nX-User: anna\r\nContent-Length: 31\r\n\r\n{\"call\":\"s",
        b"HTTP/1.1 200 OK\r\nContent-Type: application/json\r\nContent-Length: 37\r\n\r\n{\"ok\":{\"issues\":[\"OPS-1\"],\"total\":2}}HTTP/1.1 404 Not Found\r\nContent-Type: application/json\r\nContent-Length: 50\r\n\r\n{\"refused\":{\"kind\":\"issue\",\"name\":\"OPS-9\",\"no\":2}}",
        4,
        ConnEnd::Cut,
    ),
    (
        b"DELETE /calls HTTP/1.1\r\nHost: t\r\n\r\n",
        b"HTTP/1.1 405 Method Not Allowed\r\nContent-Type: application/json\r\nContent-Length: 12\r\nAllow: POST\r\nConnection: close\r\n\r\n{\"http\":405}",
        0,
        ConnEnd::Refused(405),
    ),
    (
        b"GET /search?jql= HTTP/1.1\r\nHost: t\r\n\r\n",
        b"HTTP/1.1 400 Bad Request\r\nContent-Type: application/json\r\nContent-Length: 36\r\n\r\n{\"refused\":{\"member\":\"user\",\"no\":1}}",
        0,
        ConnEnd::Closed,
    ),
    (
        b"GET /search?jql= HTTP/1.0\r\nX-User: cy\r\n\r\nGET /",
        b"HTTP/1.1 200 OK\r\nContent-Type: application/json\r\nContent-Length: 37\r\nConnection: close\r\n\r\n{\"ok\":{\"issues\":[\"OPS-1\"],\"total\":2}}",
        2,
        ConnEnd::Closed,
    ),
];

#[test]
fn connections_are_served(rt: HostRuntime) -> Result<(), Fail> {
    let mut right = true;
    for &(bytes, wanted, events, end) in &ROWS {
        right = match served(rt.alloc(), bytes, end)? {
            Some((written, made)) => right && written.as_slice() == wanted && made == events,
            None => false,
        };
    }
    assert!(rt; right);
    Ok(())
}
