// Rounds of two workers over a desk, as tracker_serve has them.
use crate::gates::{HoldsForLooks, HoldsTheFirst};
use crate::served::{CREATE, Sent, links};
use field_values::Text;
use std::alloc::{AllocError, Global};
use std::sync::Wait;
use std::test::Fail;
use std::thread::Threads;
use tracker_core::Desk;
use tracker_keeper::{Keeper, MemoryKeeper, RowOp};
use tracker_rounds::RoundCause;
use tracker_serve::{ServedDesk, serve_desk_round};
use turn_workers::{Gate, OpenGate};

/// The rank of 254 bytes for which a rebalancing is due.
const LONG: &str =
    "0|i00000:00000000000000000000000000000000000000000000000000000000000000000000000000000000000000000000000000000000000000000000000000000000000000000000000000000000000000000000000000000000000000000000000000000000000000000000000000000000000000000000000000001";

/// What a round over a desk left, in numbers: the calls of worker 0 and of all, those on the receipts of the others, the issues, whether their
/// ranks are those of the second bucket, and how it ended.
#[derive(Clone, Copy, PartialEq, Eq)]
struct Left {
    looks: usize,
    entered: usize,
    told: [u32; 2],
    issues: usize,
    moved: bool,
    end: RoundCause,
}

// What a keeper has, counted.
struct Counted {
    issues: usize,
    moved: bool,
}

fn count_kept(keeper: &mut MemoryKeeper) -> Counted {
    let mut all = Counted {
        issues: 0,
        moved: true,
    };
    if let Ok(rows) = keeper.rows() {
        for row in &rows {
            if row.kind == 3 {
                all.issues = all.issues.wrapping_add(1);
            }
            if row.kind == 5 {
                all.moved = all.moved
                    && row.body.as_str().len() == 9
                    && row.body.as_str().starts_with("1|");
            }
        }
    }
    all
}

// A round of two workers over two connections that each create an issue, and what it left.
fn left_by<R: Threads + Wait + Sync, G: Gate + Sync>(
    rt: &R,
    alloc: Global,
    gate: &G,
    keeper: MemoryKeeper,
) -> Result<Option<(Left, MemoryKeeper)>, AllocError> {
    let Ok(desk) = Desk::open(alloc, keeper) else {
        return Ok(None);
    };
    let sent = Sent {
        bytes: CREATE,
        count: 2,
        failing: &[],
    };
    let end = serve_desk_round(
        rt,
        alloc,
        links(alloc, sent)?,
        ServedDesk::over(alloc, desk),
        gate,
        2,
    );
    let mut looks = 0usize;
    for entry in &end.trail {
        if entry.by == 1 {
            looks = looks.wrapping_add(1);
        }
    }
    let mut told = [0, 0];
    if let Some(receipts) = &end.receipts {
        for (place, worker) in receipts.workers.iter().enumerate() {
            if place < 2 {
                told[place] = worker.receipt.calls();
            }
        }
    }
    let entered = end.trail.len();
    let cause = end.end;
    let mut keeper = end.maker.close();
    let Counted { issues, moved } = count_kept(&mut keeper);
    Ok(Some((
        Left {
            looks,
            entered,
            told,
            issues,
            moved,
            end: cause,
        },
        keeper,
    )))
}

// A keeper of the rows of one, but that the ranks are so long that a rebalancing is due.
fn with_long_ranks(
    alloc: Global,
    keeper: &mut MemoryKeeper,
) -> Result<Option<MemoryKeeper>, AllocError> {
    let mut ops = Vec::new(alloc);
    let Ok(rows) = keeper.rows() else {
        return Ok(None);
    };
    for mut row in rows {
        if row.kind == 5 && row.no == 2 {
            let Ok(rank) = Text::copy_of(alloc, LONG) else {
                return Err(AllocError);
            };
            row.body = rank;
        }
        ops.push(RowOp::Put(row))?;
    }
    match MemoryKeeper::new(alloc, &ops, Vec::new(alloc)) {
        Ok(keeper) => Ok(Some(keeper)),
        Err(_) => Err(AllocError),
    }
}

fn empty(alloc: Global) -> Result<MemoryKeeper, AllocError> {
    match MemoryKeeper::new(alloc, &[], Vec::new(alloc)) {
        Ok(keeper) => Ok(keeper),
        Err(_) => Err(AllocError),
    }
}

// Whether a round of two workers at that gate over that keeper left this.
fn leaves<R: Threads + Wait + Sync, G: Gate + Sync>(
    rt: &R,
    alloc: Global,
    gate: &G,
    keeper: MemoryKeeper,
    wanted: Left,
) -> Result<bool, AllocError> {
    match left_by(rt, alloc, gate, keeper)? {
        Some((left, _)) => Ok(left == wanted),
        None => Ok(false),
    }
}

#[test]
fn two_workers_of_a_desk_serve_beside_each_other(rt: HostRuntime) -> Result<(), Fail> {
    let gate = HoldsTheFirst::new(&rt);
    let wanted = Left {
        looks: 0,
        entered: 4,
        told: [2, 2],
        issues: 2,
        moved: false,
        end: RoundCause::LinksEnd,
    };
    assert!(rt; leaves(&rt, rt.alloc(), &gate, empty(rt.alloc())?, wanted)?);
    assert!(rt; !gate.gave_up());
    Ok(())
}

// A keeper of two issues, for whose ranks a rebalancing is due.
fn to_rebalance<R: Threads + Wait + Sync>(
    rt: &R,
    alloc: Global,
) -> Result<Option<MemoryKeeper>, AllocError> {
    match left_by(rt, alloc, &OpenGate, empty(alloc)?)? {
        Some((_, mut keeper)) => with_long_ranks(alloc, &mut keeper),
        None => Ok(None),
    }
}

#[test]
fn worker_0_rebalances_while_the_others_still_serve(rt: HostRuntime) -> Result<(), Fail> {
    let gate = HoldsForLooks::new(&rt);
    let wanted = Left {
        looks: 2,
        entered: 6,
        told: [2, 2],
        issues: 4,
        moved: true,
        end: RoundCause::LinksEnd,
    };
    let right = match to_rebalance(&rt, rt.alloc())? {
        Some(keeper) => leaves(&rt, rt.alloc(), &gate, keeper, wanted)?,
        None => false,
    };
    assert!(rt; right);
    assert!(rt; !gate.gave_up());
    Ok(())
}
