// How a server of several workers ends.
use crate::served::{CREATE, Sent, links};
use std::alloc::{AllocError, Global};
use std::sync::Wait;
use std::test::Fail;
use std::thread::Threads;
use tracker_keeper::{Keeper, MemoryKeeper};
use tracker_serve::serve;
use turn_workers::OpenGate;

/// A server over some connections that each create an issue: its words, the connections, the calls of the links and of the keeper that
/// fail, counted from 1; its status, and how many issues are kept then.
#[derive(Clone, Copy)]
struct Server {
    words: &'static [&'static str],
    count: u32,
    bad_links: &'static [u64],
    bad_calls: &'static [u64],
    status: u8,
    issues: usize,
}

const SERVERS: [Server; 7] = [
    Server {
        words: &["serve", "8765", "1"],
        count: 3,
        bad_links: &[],
        bad_calls: &[],
        status: 0,
        issues: 3,
    },
    // More than a round takes.
    Server {
        words: &["serve", "8765", "2"],
        count: 70,
        bad_links: &[],
        bad_calls: &[],
        status: 0,
        issues: 70,
    },
    Server {
        words: &["serve", "65535", "16"],
        count: 20,
        bad_links: &[],
        bad_calls: &[],
        status: 0,
        issues: 20,
    },
    Server {
        words: &["serve", "8765", "2"],
        count: 3,
        bad_links: &[3],
        bad_calls: &[],
        status: 2,
        issues: 2,
    },
    Server {
        words: &["serve", "8765", "2"],
        count: 3,
        bad_links: &[],
        bad_calls: &[1],
        status: 4,
        issues: 0,
    },
    Server {
        words: &["serve", "8765", "2"],
        count: 3,
        bad_links: &[],
        bad_calls: &[2],
        status: 4,
        issues: 0,
    },
    // A call that the keeper refuses is answered so, and the server goes on.
    Server {
        words: &["serve", "8765", "2"],
        count: 3,
        bad_links: &[],
        bad_calls: &[4],
        status: 0,
        issues: 2,
    },
];

// Its status and the number of issues.
fn served<R: Threads + Wait + Sync>(
    rt: &R,
    alloc: Global,
    words: &[&str],
    sent: Sent<'_>,
    bad_calls: &[u64],
) -> Result<(u8, usize), AllocError> {
    let mut all = Vec::new(alloc);
    for word in words {
        all.push(String::from_str(alloc, word)?)?;
    }
    let Ok(keeper) = MemoryKeeper::new(alloc, &[], bad_calls.to_vec(alloc)?) else {
        return Err(AllocError);
    };
    let (status, _links, mut keeper) = serve(
        alloc,
        rt,
        &all,
        links(alloc, sent)?,
        keeper,
        &OpenGate,
    );
    let mut issues = 0usize;
    if let Ok(rows) = keeper.rows() {
        for row in &rows {
            if row.kind == 3 {
                issues = issues.wrapping_add(1);
            }
        }
    }
    Ok((status, issues))
}

#[test]
fn servers_end_by_their_causes(rt: HostRuntime) -> Result<(), Fail> {
    let mut right = true;
    for &server in &SERVERS {
        let sent = Sent {
            bytes: CREATE,
            count: server.count,
            failing: server.bad_links,
        };
        let came = served(&rt, rt.alloc(), server.words, sent, server.bad_calls)?;
        right = right && came == (server.status, server.issues);
    }
    assert!(rt; right);
    Ok(())
}

/// Words that aren't `serve PORT WORKERS`.
const OTHERS: [&[&str]; 12] = [
    &[],
    &["serve"],
    &["serve", "8765"],
    &["Serve", "8765", "1"],
    &["serve", "0", "1"],
    &["serve", "65536", "1"],
    &["serve", "08765", "1"],
    &["serve", "+8765", "1"],
    &["serve", "8765", "0"],
    &["serve", "8765", "17"],
    &["serve", "8765", "02"],
    &["serve", "8765", "1", "1"],
];

#[test]
fn other_words_are_no_server(rt: HostRuntime) -> Result<(), Fail> {
    let mut right = true;
    for &words in &OTHERS {
        let sent = Sent {
            bytes: CREATE,
            count: 1,
            failing: &[],
        };
        let came = served(&rt, rt.alloc(), words, sent, &[])?;
        right = right && came == (1, 0);
    }
    assert!(rt; right);
    Ok(())
}
