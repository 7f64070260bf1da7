ghost use Rattle.std.specs.Prelude.{◌≡◌, ◌<◌, ◌⊎◌, IsTrue, All, length};
ghost use Rattle.rank_balancer.specs.Border.{bucket_at};
ghost use Rattle.rank_balancer.specs.Balance.{Agrees, IsMoving, IsInCircle};

use super::placing::{MOST_ZEROS, behind_zeros, is, is_written, put, put_text, rank_for};
use board::{Order, Place};
use field_values::IssueNo;
use rank_balancer::{Balance, BalanceIs, apply, pick, plan_step};
use std::alloc::Global;

/// Whether the rank at a place is in one of these buckets.
fn is_in(order: &Order, place: usize, one: u8, other: u8) -> bool
    requires { place < length order.now.pairs }
    ensures { IsTrue result → (bucket_at order.now.pairs place ≡ one)
        ⊎ (bucket_at order.now.pairs place ≡ other) }
{
    match order.rank_below(place) {
        Some(rank) => is_one_of(rank.bucket(), one, other),
        None => false,
    }
}

fn is_one_of(bucket: u8, one: u8, other: u8) -> bool
    ensures { IsTrue result → (bucket ≡ one) ⊎ (bucket ≡ other) }
{
    bucket == one || bucket == other
}

/// Whether all ranks are in one of these buckets.
fn are_in(order: &Order, one: u8, other: u8) -> bool
    ensures { IsTrue result → All (λ p. (p.0.bucket ≡ one) ⊎ (p.0.bucket ≡ other)) order.now.pairs }
{
    for place in 0..order.len() {
        if !is_in(order, place, one, other) {
            return false;
        }
    }
    true
}

/// Whether the balance is moving, and the order agrees with it.
fn may_step(order: &Order, balance: &Balance) -> bool
    ensures agrees { IsTrue result → Agrees order.now.pairs balance.now }
    ensures moving { IsTrue result → IsMoving balance.now }
{
    match *balance {
        Balance::Idle(_) => false,
        Balance::Moving { from, to } => {
            let next = if from == 2 { 0 } else { from.wrapping_add(1) };
            from < 3 && to == next && are_in(order, from, to)
        }
    }
}

/// One step of at most so many moves, and how many it made. `None` where it may not be made.
fn step(alloc: Global, order: &mut Order, balance: &mut Balance, count: u32) -> Option<usize> {
    if count == 0 || 1000 < count {
        return None;
    }
    if !may_step(order, balance) {
        return None;
    }
    let Ok(plan) = plan_step(alloc, order, balance, count) else {
        return None;
    };
    let moved = plan.moves().len();
    apply(plan, order, balance);
    Some(moved)
}

/// Whether an idle balance is in one of the three buckets.
fn is_in_circle(balance: &Balance) -> bool
    ensures { IsTrue result → IsInCircle balance.now }
{
    match *balance {
        Balance::Idle(bucket) => bucket < 3,
        Balance::Moving { .. } => true,
    }
}

/// Starts the balance, and tells its answer. `None` where it may not be started.
fn start(balance: &mut Balance) -> Option<Result<(), BalanceIs>> {
    if !is_in_circle(balance) {
        return None;
    }
    Some(balance.start())
}

/// Whether these are the issues in their order, with these ranks.
fn is_list(alloc: Global, order: &Order, want: &[(u32, &str)]) -> bool {
    if order.len() != want.len() {
        return false;
    }
    for (place, &(number, text)) in want.iter().enumerate() {
        let has_rank = match order.rank_below(place) {
            Some(rank) => is_written(alloc, rank, text),
            None => false,
        };
        if order.place_of(IssueNo(number)) != Some(place) || !has_rank {
            return false;
        }
    }
    true
}

/// Puts three new issues into the order.
fn put_three(alloc: Global, order: &mut Order) -> Option<()> {
    put_text(alloc, order, 1, "0|i00000:")?;
    put_text(alloc, order, 2, "0|i006bk:")?;
    put_text(alloc, order, 3, "0|i00cn4:")
}

/// Moves an issue behind another one.
fn move_behind(order: &mut Order, issue: u32, other: u32) -> Option<()> {
    let issue = IssueNo(issue);
    let rank = rank_for(order, Some(issue), Place::After(IssueNo(other)), 0)?;
    put(order, issue, rank)
}

/// Puts a new issue to the end.
fn put_last(order: &mut Order, issue: u32) -> Option<()> {
    let rank = rank_for(order, None, Place::Last, 0)?;
    put(order, IssueNo(issue), rank)
}

/// A whole rebalancing of three issues, in one step.
fn rebalance(alloc: Global, order: &mut Order, balance: &mut Balance) -> Option<()> {
    is(start(balance)?.is_ok())?;
    is(step(alloc, order, balance, 16)? == 3)
}

/// What has the first issue move, and from where to where.
const FIRST: Balance = Balance::Moving { from: 0, to: 1 };

fn begins(order: &Order, balance: &mut Balance) -> Option<()> {
    is(pick(order, balance) == None)?;
    is(start(balance)?.is_ok())?;
    is(start(balance)? == Err(BalanceIs(FIRST)))?;
    is(pick(order, balance) == Some(IssueNo(3)))
}

/// A rebalancing with a move between its two steps.
fn moves_between_steps(alloc: Global, order: &mut Order) -> Option<bool> {
    let mut balance = Balance::Idle(0);
    put_three(alloc, order)?;
    begins(order, &mut balance)?;
    is(step(alloc, order, &mut balance, 1)? == 1)?;
    is(balance == FIRST)?;
    move_behind(order, 1, 2)?;
    is(step(alloc, order, &mut balance, 16)? == 1)?;
    is(balance == Balance::Idle(1))?;
    let want = [(2, "1|qzzncw:"), (1, "1|qzztog:"), (3, "1|r00000:")];
    Some(is_list(alloc, order, &want))
}

#[test]
fn moves_in_the_middle_of_rebalancing(rt: HostRuntime) {
    let mut order = Order::empty(rt.alloc());
    let passes = moves_between_steps(rt.alloc(), &mut order) == Some(true);
    assert!(rt; passes);
}

/// Two rebalancings of three issues.
fn goes_on_twice(alloc: Global, order: &mut Order, balance: &mut Balance) -> Option<()> {
    put_three(alloc, order)?;
    rebalance(alloc, order, balance)?;
    let once = [(1, "1|qzzncw:"), (2, "1|qzztog:"), (3, "1|r00000:")];
    is(is_list(alloc, order, &once))?;
    rebalance(alloc, order, balance)?;
    let twice = [(1, "2|qzzncw:"), (2, "2|qzztog:"), (3, "2|r00000:")];
    is(is_list(alloc, order, &twice))
}

/// The third one, from bucket 2 to bucket 0, with a new issue in its middle.
fn comes_round(alloc: Global, order: &mut Order, balance: &mut Balance) -> Option<()> {
    is(start(balance)?.is_ok())?;
    is(pick(order, balance) == Some(IssueNo(1)))?;
    is(step(alloc, order, balance, 1)? == 1)?;
    put_last(order, 4)?;
    is(step(alloc, order, balance, 16)? == 3)?;
    let last = [
        (1, "0|900000:"),
        (2, "0|9006bk:"),
        (3, "0|900cn4:"),
        (4, "0|900iyo:"),
    ];
    is(is_list(alloc, order, &last))?;
    is(*balance == Balance::Idle(0))
}

#[test]
fn goes_round_the_circle(rt: HostRuntime) {
    let alloc = rt.alloc();
    let mut order = Order::empty(alloc);
    let mut balance = Balance::Idle(0);
    let passes = goes_on_twice(alloc, &mut order, &mut balance).is_some()
        && comes_round(alloc, &mut order, &mut balance).is_some();
    assert!(rt; passes);
}

/// A rebalancing of an order with the longest rank, and a move to the place that had no room.
fn makes_room(alloc: Global, order: &mut Order) -> Option<bool> {
    let mut balance = Balance::Idle(0);
    put_three(alloc, order)?;
    let longest = behind_zeros(alloc, MOST_ZEROS).ok()?;
    put_text(alloc, order, 2, longest.as_str())?;
    is(order.longest() == 254)?;
    rebalance(alloc, order, &mut balance)?;
    is(order.longest() == 9)?;
    move_behind(order, 3, 1)?;
    let want = [(1, "1|qzzncw:"), (3, "1|qzzqio:"), (2, "1|qzztog:")];
    Some(is_list(alloc, order, &want))
}

#[test]
fn makes_room_beside_the_longest_rank(rt: HostRuntime) {
    let mut order = Order::empty(rt.alloc());
    let passes = makes_room(rt.alloc(), &mut order) == Some(true);
    assert!(rt; passes);
}
