// Workers over a turn, with threads.
ghost use Rattle.std.specs.Prelude.{◌≡◌, ◌<◌, ◌≤◌};
ghost use Rattle.desk_turn.specs.Passes.{IsPassOf, caller_of};

use crate::sums::Sums;
use std::alloc::Global;
use std::sync::Wait;
use std::test::Fail;
use std::thread::Threads;
use turn_workers::{Gate, Job, OpenGate, Round, Seat, Span, run_workers};

/// Asks 1, 2 and so on, up to a number.
#[derive(Drop)]
struct CountUp(u64);

impl<R: Wait, G: Gate> Job<Sums, R, G> for CountUp {
    ghost makes = { λ job by calls. Unit {0} };

    fn work(&self, seat: &mut Seat<'_, Sums, R, G>) {
        for ask in 0..self.0 {
            let _ = seat.tell(&ask.wrapping_add(1));
        }
    }
}

/// What a round left, in numbers.
#[derive(Clone, Copy, PartialEq, Eq, Debug)]
struct Left {
    sum: u64,
    owed: u64,
    entries: usize,
    workers: usize,
    told: u64,
    looked: u64,
}

fn left_in(round: &Round<Sums>) -> Left {
    let mut told = 0u64;
    for worker in &round.ended {
        told = told.wrapping_add(u64::from(worker.receipt.calls()));
    }
    Left {
        sum: round.value.sum,
        owed: round.value.owed,
        entries: round.value.entries.len(),
        workers: round.ended.len(),
        told,
        looked: u64::from(round.looks.calls()),
    }
}

/// A round in which each worker counts up; none where there was no memory for it.
fn left_by<R: Threads + Wait + Sync>(
    rt: &R,
    alloc: Global,
    workers: usize,
    calls: u32,
) -> Option<Left>
    requires { (workers ≤ 16) × (1 ≤ calls) × (calls ≤ 1000) }
{
    let job = CountUp(u64::from(calls));
    let span = Span {
        workers,
        calls,
        looks: 16_000,
    };
    match run_workers(rt, alloc, Sums::new(alloc), &job, &OpenGate, &0, span) {
        Ok(round) => Some(left_in(&round)),
        Err(_) => None,
    }
}

/// So many calls of so many workers, and a look for each.
fn wanted(workers: usize, told: u64, sum: u64) -> Option<Left> {
    Some(Left {
        sum,
        owed: 0,
        entries: (told as usize).wrapping_mul(2),
        workers,
        told,
        looked: told,
    })
}

#[test]
fn nobody_works(rt: HostRuntime) -> Result<(), Fail> {
    assert_eq!(rt; left_by(&rt, rt.alloc(), 0, 3), wanted(0, 0, 0));
    Ok(())
}

#[test]
fn one_works(rt: HostRuntime) -> Result<(), Fail> {
    assert_eq!(rt; left_by(&rt, rt.alloc(), 1, 100), wanted(1, 100, 5_050));
    Ok(())
}

#[test]
fn sixteen_work(rt: HostRuntime) -> Result<(), Fail> {
    assert_eq!(rt;
        left_by(&rt, rt.alloc(), 16, 100),
        wanted(16, 1_600, 80_800)
    );
    Ok(())
}
