// Rounds of 1, 2, 4 and 16 workers.
ghost use Rattle.std.specs.Prelude.{◌≤◌};

use crate::numbers::Numbers;
use crate::served::{DROP, Memories, Sent, round_over};
use std::alloc::{AllocError, Global};
use std::sync::Wait;
use std::test::Fail;
use std::thread::Threads;
use tracker_rounds::{RoundCause, RoundEnd, Served};
use turn_workers::OpenGate;

/// What a round left, in numbers.
#[derive(Clone, Copy, PartialEq, Eq)]
struct Left {
    dropped: u64,
    owed: u64,
    entered: usize,
    workers: usize,
    told: u64,
    taken: u32,
    end: RoundCause,
}

fn left_in(end: &RoundEnd<Memories, Numbers, Served<Numbers>>) -> Left {
    let mut told = 0u64;
    let mut workers = 0;
    if let Some(receipts) = &end.receipts {
        workers = receipts.workers.len();
        for worker in &receipts.workers {
            told = told.wrapping_add(u64::from(worker.receipt.calls()));
        }
    }
    Left {
        dropped: end.maker.dropped,
        owed: end.maker.owed,
        entered: end.trail.len(),
        workers,
        told,
        taken: end.taken,
        end: end.end,
    }
}

/// A round over so many connections that each drop a filter.
fn left_by<R: Threads + Wait + Sync>(
    rt: &R,
    alloc: Global,
    workers: u32,
    count: u32,
    failing: &[u64],
) -> Result<Left, AllocError>
    requires { (1 ≤ workers) × (workers ≤ 16) }
{
    let maker = Numbers {
        alloc,
        dropped: 0,
        owed: 0,
    };
    let sent = Sent {
        bytes: DROP,
        count,
        failing,
    };
    let end = round_over(rt, alloc, &OpenGate, maker, workers, sent)?;
    Ok(left_in(&end))
}

/// So many connections were served: for each a tick and a call, and a look behind that.
fn wanted(workers: usize, served: u32, end: RoundCause) -> Left {
    Left {
        dropped: u64::from(served),
        owed: 0,
        entered: (served as usize).wrapping_mul(3),
        workers,
        told: u64::from(served).wrapping_mul(2),
        taken: served,
        end,
    }
}

#[test]
fn one_serves_until_the_links_end(rt: HostRuntime) -> Result<(), Fail> {
    let left = left_by(&rt, rt.alloc(), 1, 5, &[])?;
    assert!(rt; left == wanted(1, 5, RoundCause::LinksEnd));
    Ok(())
}

#[test]
fn sixteen_serve_until_the_links_end(rt: HostRuntime) -> Result<(), Fail> {
    let left = left_by(&rt, rt.alloc(), 16, 40, &[])?;
    assert!(rt; left == wanted(16, 40, RoundCause::LinksEnd));
    Ok(())
}

#[test]
fn two_serve_until_the_links_fail(rt: HostRuntime) -> Result<(), Fail> {
    let left = left_by(&rt, rt.alloc(), 2, 10, &[7])?;
    assert!(rt; left == wanted(2, 6, RoundCause::LinkFault));
    Ok(())
}

#[test]
fn a_round_takes_64(rt: HostRuntime) -> Result<(), Fail> {
    let left = left_by(&rt, rt.alloc(), 4, 70, &[])?;
    assert!(rt; left == wanted(4, 64, RoundCause::Full));
    Ok(())
}
