// That two workers run beside each other, and worker 0 beside them.
use crate::gates::{HoldsForLooks, HoldsTheFirst};
use crate::issues::{Issues, Made, Ranks};
use crate::served::{CREATE, Memories, Sent, round_over};
use std::alloc::{AllocError, Global};
use std::sync::Wait;
use std::test::Fail;
use std::thread::Threads;
use tracker_rounds::{RoundCause, RoundEnd, Served};
use turn_workers::Gate;

/// What a round of two workers over two connections left, each of which creates an issue.
type Left = RoundEnd<Memories, Issues, Served<Issues>>;

fn left_by<R: Threads + Wait + Sync, G: Gate + Sync>(
    rt: &R,
    alloc: Global,
    gate: &G,
    ranks: Ranks,
) -> Result<Left, AllocError> {
    let sent = Sent {
        bytes: CREATE,
        count: 2,
        failing: &[],
    };
    round_over(rt, alloc, gate, Issues::new(alloc, ranks), 2, sent)
}

/// What was made under that number.
fn made_by(alloc: Global, left: &Left, by: u32) -> Result<Vec<Made>, AllocError> {
    let mut all = Vec::new(alloc);
    for (entry, made) in left.trail.iter().zip(left.maker.made.iter()) {
        if entry.by == by {
            all.push(*made)?;
        }
    }
    Ok(all)
}

/// A tick and the create of that issue.
fn creates(made: &[Made], number: u64) -> bool {
    made == [Made::Tick, Made::Create(number)].as_slice()
}

/// Each of the two workers created an issue, with its tick before, and worker 0 made these.
fn created_two(alloc: Global, left: &Left, looks: &[Made]) -> Result<bool, AllocError> {
    let one = made_by(alloc, left, 2)?;
    let other = made_by(alloc, left, 3)?;
    let two = (creates(&one, 1) && creates(&other, 2)) || (creates(&one, 2) && creates(&other, 1));
    let looked = made_by(alloc, left, 1)?;
    let all = left.trail.len() == left.maker.made.len() && left.trail.len() == looks.len() + 4;
    Ok(two && all && looked.as_slice() == looks && left.end == RoundCause::LinksEnd)
}

/// So many calls are on worker 0's receipt, and two on that of each other worker.
fn received(left: &Left, looks: u32) -> bool {
    let Some(receipts) = &left.receipts else {
        return false;
    };
    let mut two = receipts.workers.len() == 2;
    for worker in &receipts.workers {
        two = two && worker.receipt.calls() == 2;
    }
    two && receipts.looks.calls() == looks
}

#[test]
fn two_workers_serve_beside_each_other(rt: HostRuntime) -> Result<(), Fail> {
    let gate = HoldsTheFirst::new(&rt);
    let left = left_by(&rt, rt.alloc(), &gate, Ranks::Short)?;
    assert!(rt; created_two(rt.alloc(), &left, &[])?);
    assert!(rt; received(&left, 0));
    assert!(rt; !gate.gave_up());
    Ok(())
}

#[test]
fn worker_0_looks_while_the_others_still_serve(rt: HostRuntime) -> Result<(), Fail> {
    let gate = HoldsForLooks::new(&rt);
    let left = left_by(&rt, rt.alloc(), &gate, Ranks::Long)?;
    assert!(rt; created_two(rt.alloc(), &left, &[Made::Start, Made::Step(16)])?);
    assert!(rt; !gate.gave_up());
    Ok(())
}
