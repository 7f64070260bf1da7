ghost use Rattle.std.specs.Prelude.{◌≡◌, ◌<◌};

use crate::fakes::{Ended, Fails, NOTHING, are_same, in_memory, rows_of, source_of, tried};
use fields::Steps;
use request_lines::{ListClock, MemorySink};
use std::alloc::{AllocError, Global};
use std::marker::Brand;
use std::sync::ledger::{Blank, Ledger};
use std::test::Fail;
use tracker_cli::RequestLines;
use tracker_core::Desk;
use tracker_server::{ConnEnd, Direct, serve_connection};

/// No connection has more calls.
const MOST: u64 = 2_000;

const CREATE: &[u8] =
    b"POST /calls HTTP/1.1\r\nHost: t\r\nX-User: anna\r\nContent-Length: 69\r\n\r\n{\"call\":\"create\",\"project\":\"OPS\",\"type\":\"Task\",\"summary\":\"Fix login\"}";

const SEARCH: &[u8] =
    b"GET /search?jql=assignee+IS+EMPTY&count=1 HTTP/1.1\r\nHost: tracker.example\r\nUser-Agent: curl/8.5.0\r\nAccept: */*\r\nX-User: cy\r\n\r\n";

const SHOW: &[u8] =
    b"POST /calls HTTP/1.1\r\nHost: t\r\nX-User: anna\r\nContent-Length: 31\r\n\r\n{\"call\":\"show\",\"issue\":\"OPS-9\"}";

/// One that makes an issue, one that searches, and one for an issue that isn't there.
const REQUESTS: [&[u8]; 3] = [CREATE, SEARCH, SHOW];

const NOT_FOUND: &[u8] =
    b"HTTP/1.1 404 Not Found\r\nContent-Type: application/json\r\nContent-Length: 50\r\n\r\n{\"refused\":{\"kind\":\"issue\",\"name\":\"OPS-9\",\"no\":2}}";

const RESPONSES: [&[u8]; 3] = [
    b"HTTP/1.1 200 OK\r\nContent-Type: application/json\r\nContent-Length: 51\r\n\r\n{\"ok\":{\"already\":false,\"change\":1,\"issue\":\"OPS-1\"}}",
    b"HTTP/1.1 200 OK\r\nContent-Type: application/json\r\nContent-Length: 37\r\n\r\n{\"ok\":{\"issues\":[\"OPS-1\"],\"total\":1}}",
    NOT_FOUND,
];

/// The same where the keeper failed at the first request.
const UNKEPT: [&[u8]; 3] = [
    b"HTTP/1.1 503 Service Unavailable\r\nContent-Type: application/json\r\nContent-Length: 21\r\n\r\n{\"refused\":{\"no\":14}}",
    b"HTTP/1.1 200 OK\r\nContent-Type: application/json\r\nContent-Length: 30\r\n\r\n{\"ok\":{\"issues\":[],\"total\":0}}",
    NOT_FOUND,
];

/// A line that does what the first request does, behind the tick to its clock's reading.
const LINES: &[u8] =
    b"{\"user\":\"anna\",\"call\":\"tick\",\"to\":5}\n{\"user\":\"anna\",\"call\":\"create\",\"project\":\"OPS\",\"type\":\"Task\",\"summary\":\"Fix login\"}\n";

/// How a connection ended, what was written, and the rows that are kept then.
#[derive(Drop)]
pub(crate) struct Outcome {
    pub(crate) end: ConnEnd,
    pub(crate) out: Vec<u8>,
    rows: Ended,
}

// Serves these bytes over a new tracker, where one call fails.
fn served_by<L: Ledger>(
    alloc: Global,
    blank: Blank,
    bytes: &[u8],
    fails: Fails,
) -> Result<Outcome, AllocError>
    requires name { blank.name ≡ L.name }
    requires parts { blank.parts ≡ L.parts }
    requires some { 0 < L.parts }
{
    let mut source = source_of(alloc, bytes, fails.piece, fails.read)?;
    let mut sink = MemorySink::new(alloc, fails.room, [fails.write].to_vec(alloc)?)?;
    let mut clock = ListClock::new([5u64].to_vec(alloc)?);
    let Ok(desk) = Desk::open(alloc, in_memory(alloc, &[], fails.keep)?) else {
        return Err(AllocError);
    };
    let maker = RequestLines::new(alloc, desk, Steps::<L>::new(blank));
    let mut teller = Direct::over(alloc, maker);
    let end = serve_connection(alloc, &mut source, &mut sink, &mut clock, &mut teller);
    let mut keeper = teller.into_maker().close();
    let out = sink.taken().to_vec(alloc)?;
    let rows = Ended {
        status: 0,
        out: Vec::new(alloc),
        rows: rows_of(&mut keeper)?,
    };
    Ok(Outcome { end, out, rows })
}

pub(crate) fn served(alloc: Global, bytes: &[u8], fails: Fails) -> Result<Outcome, AllocError> {
    served_by::<Brand>(alloc, Blank::new(1), bytes, fails)
}

// The first of these, one behind another.
fn joined(alloc: Global, parts: &[&[u8]], most: usize) -> Result<Vec<u8>, AllocError> {
    let mut all = Vec::new(alloc);
    for (place, part) in parts.iter().enumerate() {
        if place < most {
            all.extend_from_slice(part)?;
        }
    }
    Ok(all)
}

// How many requests are whole in so many bytes, and whether nothing is behind them.
fn whole_in(count: usize) -> (usize, bool) {
    let mut whole: usize = 0;
    let mut end: usize = 0;
    let mut ends = count == 0;
    for request in &REQUESTS {
        end = end.saturating_add(request.len());
        if end <= count {
            whole = whole.saturating_add(1);
            ends = end == count;
        }
    }
    (whole, ends)
}

// The bytes that stand in front of a place.
fn front(alloc: Global, bytes: &[u8], count: usize) -> Result<Vec<u8>, AllocError> {
    let mut front = Vec::new(alloc);
    for (place, byte) in bytes.iter().enumerate() {
        if place < count {
            front.push(*byte)?;
        }
    }
    Ok(front)
}

// One byte a read.
const BYTE_BY_BYTE: Fails = Fails {
    read: 0,
    write: 0,
    keep: 0,
    piece: 1,
    room: 10_000,
};

/// What a new tracker keeps, and what it keeps behind the first request.
#[derive(Drop)]
struct RowsDue {
    none: Ended,
    one: Ended,
}

fn kept(alloc: Global) -> Result<RowsDue, AllocError> {
    Ok(RowsDue {
        none: tried(alloc, &["exec"], b"", &[], NOTHING)?,
        one: tried(alloc, &["exec"], LINES, &[], NOTHING)?,
    })
}

// Whether the whole requests in the first bytes have their responses, and the rows are theirs.
fn has_whole(
    alloc: Global,
    served: &Outcome,
    count: usize,
    kept: &RowsDue,
) -> Result<bool, AllocError> {
    let (whole, _) = whole_in(count);
    let rows = if whole > 0 {
        &kept.one.rows
    } else {
        &kept.none.rows
    };
    Ok(
        served.out.as_slice() == joined(alloc, &RESPONSES, whole)?.as_slice()
            && are_same(&served.rows.rows, rows),
    )
}

// Whether each read that fails leaves the responses to the requests before, up to the connection in which none fails.
fn reads(alloc: Global) -> Result<bool, AllocError> {
    let bytes = joined(alloc, &REQUESTS, REQUESTS.len())?;
    let due_rows = kept(alloc)?;
    let mut before: usize = 0;
    for read in 1..MOST {
        let fails = Fails {
            read,
            ..BYTE_BY_BYTE
        };
        let served = served(alloc, &bytes, fails)?;
        if served.end == ConnEnd::Closed {
            return Ok(before > bytes.len() && has_whole(alloc, &served, bytes.len(), &due_rows)?);
        }
        if served.end != ConnEnd::ReadFault || !has_whole(alloc, &served, before, &due_rows)? {
            return Ok(false);
        }
        before = before.saturating_add(1);
    }
    Ok(false)
}

#[test]
fn a_connection_whose_reads_fail(rt: HostRuntime) -> Result<(), Fail> {
    let right = reads(rt.alloc())?;
    assert!(rt; right);
    Ok(())
}

#[test]
fn a_connection_whose_second_read_fails(rt: HostRuntime) -> Result<(), Fail> {
    let alloc = rt.alloc();
    let bytes = joined(alloc, &[SEARCH, SHOW], 2)?;
    let fails = Fails {
        read: 2,
        ..BYTE_BY_BYTE
    };
    let served = served(alloc, &bytes, fails)?;
    assert!(rt; served.end == ConnEnd::ReadFault && served.out.is_empty());
    Ok(())
}

// Whether an input that ends at any byte has the responses to its whole requests.
fn cuts(alloc: Global) -> Result<bool, AllocError> {
    let bytes = joined(alloc, &REQUESTS, REQUESTS.len())?;
    let due_rows = kept(alloc)?;
    for count in 0..bytes.len() {
        let served = served(alloc, &front(alloc, &bytes, count)?, NOTHING)?;
        let (_, ends) = whole_in(count);
        let due = if ends { ConnEnd::Closed } else { ConnEnd::Cut };
        if served.end != due || !has_whole(alloc, &served, count, &due_rows)? {
            return Ok(false);
        }
    }
    Ok(true)
}

#[test]
fn a_connection_that_is_cut_at_each_byte(rt: HostRuntime) -> Result<(), Fail> {
    let right = cuts(rt.alloc())?;
    assert!(rt; right);
    Ok(())
}

// Whether each write that fails, and each size of the sink, leaves a front of the responses, and the rows behind the first request.
fn writes(alloc: Global) -> Result<bool, AllocError> {
    let bytes = joined(alloc, &REQUESTS, REQUESTS.len())?;
    let due_rows = kept(alloc)?;
    let responses = joined(alloc, &RESPONSES, RESPONSES.len())?;
    let mut right = false;
    for write in 1..MOST {
        let served = served(alloc, &bytes, Fails { write, ..NOTHING })?;
        if served.end == ConnEnd::Closed {
            right = write > 3 && has_whole(alloc, &served, bytes.len(), &due_rows)?;
            break;
        }
        if served.end != ConnEnd::WriteFault
            || !responses.starts_with(&served.out)
            || !are_same(&served.rows.rows, &due_rows.one.rows)
        {
            return Ok(false);
        }
    }
    for room in 0..responses.len() {
        let served = served(alloc, &bytes, Fails { room, ..NOTHING })?;
        if served.end != ConnEnd::WriteFault
            || served.out.len() != room
            || !responses.starts_with(&served.out)
            || !are_same(&served.rows.rows, &due_rows.one.rows)
        {
            return Ok(false);
        }
    }
    Ok(right)
}

#[test]
fn a_connection_whose_writes_fail(rt: HostRuntime) -> Result<(), Fail> {
    let right = writes(rt.alloc())?;
    assert!(rt; right);
    Ok(())
}

// Whether each call of the keeper behind the opening that fails has its request refused, and no other, up to the connection in which none
// fails.
fn keeps(alloc: Global) -> Result<bool, AllocError> {
    let bytes = joined(alloc, &REQUESTS, REQUESTS.len())?;
    let due_rows = kept(alloc)?;
    let unkept = joined(alloc, &UNKEPT, UNKEPT.len())?;
    let ticked = tried(
        alloc,
        &["exec"],
        b"{\"user\":\"anna\",\"call\":\"tick\",\"to\":5}",
        &[],
        NOTHING,
    )?;
    for keep in 3..MOST {
        let served = served(alloc, &bytes, Fails { keep, ..NOTHING })?;
        if has_whole(alloc, &served, bytes.len(), &due_rows)? {
            return Ok(keep == 5 && served.end == ConnEnd::Closed);
        }
        if served.end != ConnEnd::Closed
            || served.out.as_slice() != unkept.as_slice()
            || !are_same(&served.rows.rows, &ticked.rows)
        {
            return Ok(false);
        }
    }
    Ok(false)
}

#[test]
fn a_connection_whose_keeper_fails(rt: HostRuntime) -> Result<(), Fail> {
    let right = keeps(rt.alloc())?;
    assert!(rt; right);
    Ok(())
}
