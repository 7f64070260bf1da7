// Rounds over connections in memory that send the same.
ghost use Rattle.std.specs.Prelude.{◌≤◌};

use request_lines::{ListClock, MemorySink, MemorySource};
use std::alloc::{AllocError, Global};
use std::sync::Wait;
use std::thread::Threads;
use tracker_rounds::{RoundEnd, Served, Watched, serve_round};
use tracker_server::ListLinks;
use turn_workers::Gate;

/// A connection that drops a filter, and closes.
pub const DROP: &[u8] =
    b"POST /calls HTTP/1.1\r\nHost: t\r\nX-User: anna\r\nContent-Length: 33\r\nConnection: close\r\n\r\n{\"call\":\"drop_filter\",\"filter\":1}";

/// A connection that creates an issue, and closes.
pub const CREATE: &[u8] =
    b"POST /calls HTTP/1.1\r\nHost: t\r\nX-User: anna\r\nContent-Length: 61\r\nConnection: close\r\n\r\n{\"call\":\"create\",\"project\":\"OPS\",\"type\":\"Task\",\"summary\":\"a\"}";

/// Connections in memory.
pub type Memories = ListLinks<MemorySource, MemorySink, ListClock>;

/// So many connections, each of which sends this.
#[derive(Clone, Copy)]
pub struct Sent<'a> {
    pub bytes: &'a [u8],
    pub count: u32,
    /// The calls that fail to give one, counted from 1.
    pub failing: &'a [u64],
}

/// They.
pub fn links(alloc: Global, sent: Sent<'_>) -> Result<Memories, AllocError> {
    let mut links = Vec::new(alloc);
    for _ in 0..sent.count {
        let source = MemorySource::new(sent.bytes.to_vec(alloc)?, Vec::new(alloc), Vec::new(alloc));
        let sink = MemorySink::new(alloc, 1_000, Vec::new(alloc))?;
        let clock = ListClock::new([5u64].to_vec(alloc)?);
        links.push((source, sink, clock))?;
    }
    Ok(ListLinks::new(links, sent.failing.to_vec(alloc)?))
}

/// A round over these connections.
pub fn round_over<R: Threads + Wait + Sync, G: Gate + Sync, M: Watched + Send + Drop>(
    rt: &R,
    alloc: Global,
    gate: &G,
    maker: M,
    workers: u32,
    sent: Sent<'_>,
) -> Result<RoundEnd<Memories, M, Served<M>>, AllocError>
    requires { (1 ≤ workers) × (workers ≤ 16) }
{
    let links = links(alloc, sent)?;
    Ok(serve_round(rt, alloc, links, maker, gate, workers))
}
