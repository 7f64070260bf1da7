//! Where an order changes from one bucket to another, and the issue that is picked.
ghost use Rattle.std.specs.Prelude.{◌≡◌, ◌<◌, ◌↔◌, IsTrue, length, None, MatchOption};
ghost use Rattle.board.specs.Order.{rank_in};
ghost use Rattle.rank_balancer.specs.Border.{bucket_at, is_up_to, IsBorder, StandsAt};
ghost use Rattle.rank_balancer.specs.Pick.{first_in, last_in, pick_of};
ghost use Rattle.rank_balancer.specs.Step.{left_in, ranks_left};

use crate::balance::Balance;
use board::Order;
use field_values::IssueNo;

/// Whether the issue's rank is in a bucket up to this one.
fn is_up_to(order: &Order, issue: IssueNo, bucket: u8) -> bool
    ensures { result ≡ is_up_to bucket (rank_in order.now.pairs issue.0) }
{
    match order.rank_of(issue) {
        Some(rank) => rank.bucket() <= bucket,
        None => false,
    }
}

/// How many ranks are in buckets up to this one. It is found by halving.
pub(crate) fn count_up_to(order: &Order, bucket: u8) -> usize
    ensures { IsBorder order.now.pairs bucket result }
{
    order
        .issues()
        .partition_point(|issue| is_up_to(order, *issue, bucket))
}

/// Whether the rank at a place is in the bucket.
fn is_in(order: &Order, place: usize, bucket: u8) -> bool
    requires { place < length order.now.pairs }
    ensures { IsTrue result ↔ (bucket_at order.now.pairs place ≡ bucket) }
{
    match order.rank_below(place) {
        Some(rank) => rank.bucket() == bucket,
        None => false,
    }
}

/// The place of the last rank in the bucket.
fn last_place(order: &Order, bucket: u8) -> Option<usize>
    ensures { MatchOption result (last_in bucket order.now.pairs ≡ None)
        (λ place. StandsAt order.now.pairs place (last_in bucket order.now.pairs)) }
{
    // The proof needs that it is an order.
    let _ = order.issues();
    let above = count_up_to(order, bucket);
    if above == 0 {
        return None;
    }
    let place = above - 1;
    if is_in(order, place, bucket) {
        Some(place)
    } else {
        None
    }
}

/// The place of the first rank in bucket 2.
fn first_place(order: &Order) -> Option<usize>
    ensures { MatchOption result (first_in 2 order.now.pairs ≡ None)
        (λ place. StandsAt order.now.pairs place (first_in 2 order.now.pairs)) }
{
    // The proof needs that it is an order.
    let _ = order.issues();
    let place = count_up_to(order, 1);
    if place < order.len() {
        Some(place)
    } else {
        None
    }
}

/// The issue that is picked next: on the way from bucket 2 the first one there, and else the last one of the bucket. `None` comes
/// exactly where the balance is idle or no rank is left.
pub fn pick(order: &Order, balance: &Balance) -> Option<IssueNo>
    ensures { result ≡ pick_of order.now.pairs balance.now }
{
    let Balance::Moving { from, .. } = *balance else {
        return None;
    };
    let place = if from == 2 {
        first_place(order)
    } else {
        last_place(order, from)
    };
    match place {
        Some(place) => Some(order.issue_at(place)),
        None => None,
    }
}

/// How many ranks are in the bucket.
fn count_in(order: &Order, bucket: u8) -> usize
    ensures { result ≡ left_in bucket order.now.pairs }
{
    let up_to = count_up_to(order, bucket);
    match bucket.checked_sub(1) {
        Some(below) => up_to - count_up_to(order, below),
        None => up_to,
    }
}

/// How many ranks are still in the bucket that the balance leaves; 0 where it is idle. It is found by halving.
pub fn left(order: &Order, balance: &Balance) -> usize
    ensures { result ≡ ranks_left order.now.pairs balance.now }
{
    match *balance {
        Balance::Moving { from, .. } => count_in(order, from),
        Balance::Idle(_) => 0,
    }
}
