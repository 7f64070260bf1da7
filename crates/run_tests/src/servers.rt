use request_lines::{ListClock, MemorySink, MemorySource};
use std::alloc::{AllocError, Global};
use std::sync::Wait;
use std::test::Fail;
use tracker_cli::serve;
use tracker_keeper::{Keeper, MemoryKeeper};
use tracker_server::ListLinks;

/// A connection that makes an issue, and closes.
const CREATE: &[u8] =
    b"POST /calls HTTP/1.1\r\nHost: t\r\nX-User: anna\r\nContent-Length: 69\r\nConnection: close\r\n\r\n{\"call\":\"create\",\"project\":\"OPS\",\"type\":\"Task\",\"summary\":\"Fix login\"}";

// Two such connections, at a clock that stands; the links fail at these calls, counted from 1.
fn two_links(
    alloc: Global,
    failing: &[u64],
) -> Result<ListLinks<MemorySource, MemorySink, ListClock>, AllocError> {
    let mut links = Vec::new(alloc);
    for _ in 0..2 {
        let source = MemorySource::new(CREATE.to_vec(alloc)?, Vec::new(alloc), Vec::new(alloc));
        let sink = MemorySink::new(alloc, 1_000, Vec::new(alloc))?;
        let clock = ListClock::new([5u64].to_vec(alloc)?);
        links.push((source, sink, clock))?;
    }
    Ok(ListLinks::new(links, failing.to_vec(alloc)?))
}

// The status of a server over these links with a keeper that fails at these calls, and the kinds of the rows that are kept then.
fn served<R: Wait>(
    rt: &R,
    alloc: Global,
    words: &[&str],
    bad_links: &[u64],
    bad_calls: &[u64],
) -> Result<(u8, Vec<u8>), AllocError> {
    let mut all = Vec::new(alloc);
    for word in words {
        all.push(String::from_str(alloc, word)?)?;
    }
    let Ok(keeper) = MemoryKeeper::new(alloc, &[], bad_calls.to_vec(alloc)?) else {
        return Err(AllocError);
    };
    let links = two_links(alloc, bad_links)?;
    let (status, _links, mut keeper) = serve(alloc, rt, &all, links, keeper);
    let mut kinds = Vec::new(alloc);
    if let Ok(rows) = keeper.rows() {
        for row in &rows {
            kinds.push(row.kind)?;
        }
    }
    Ok((status, kinds))
}

// At which calls the links fail and at which the keeper does, the status, and the kinds of the rows: setup and moment, then the
// issues, the rank of each, and the members of three groups.
const ROWS: [(&[u64], &[u64], u8, &[u8]); 4] = [
    (&[], &[], 0, b"\x01\x02\x03\x03\x05\x05\x0a\x0a\x0a"),
    (&[2], &[], 2, b"\x01\x02\x03\x05\x0a\x0a\x0a"),
    (&[], &[1], 4, b""),
    (&[], &[2], 4, b""),
];

#[test]
fn a_server_ends_by_its_cause(rt: HostRuntime) -> Result<(), Fail> {
    let mut right = true;
    for &(bad_links, bad_calls, status, kinds) in &ROWS {
        let (ended, kept) = served(&rt, rt.alloc(), &["serve", "8765"], bad_links, bad_calls)?;
        right = right && ended == status && kept.as_slice() == kinds;
    }
    assert!(rt; right);
    Ok(())
}

// Words that aren't `serve PORT`.
const OTHERS: [&[&str]; 9] = [
    &[],
    &["serve"],
    &["exec"],
    &["Serve", "8765"],
    &["serve", "0"],
    &["serve", "08765"],
    &["serve", "65536"],
    &["serve", "+8765"],
    &["serve", "8765", "1"],
];

#[test]
fn other_words_are_no_server(rt: HostRuntime) -> Result<(), Fail> {
    let mut right = true;
    for &words in &OTHERS {
        let (status, kept) = served(&rt, rt.alloc(), words, &[], &[])?;
        right = right && status == 1 && kept.is_empty();
    }
    assert!(rt; right);
    Ok(())
}
