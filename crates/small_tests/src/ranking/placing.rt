// Orders that are asked for a rank or changed only where they may be.
ghost use Rattle.std.specs.Prelude.{◌≡◌, ◌≢◌, ◌<◌, IsTrue, IfSome, length};
ghost use Rattle.board.specs.Order.{IsIn, IsFreeFor};
ghost use Rattle.board.specs.Place.{AreNamed, named_by};
ghost use Rattle.board.specs.Search.{rank_at};

use board::{Order, Place};
use field_values::IssueNo;
use rank_strings::{Rank, RankFault};
use std::alloc::{AllocError, Global};

/// Whether the rank stands at a place.
fn is_at(order: &Order, place: usize, rank: &Rank) -> bool
    requires { place < length order.now.pairs }
    ensures { rank_at order.now.pairs place ≡ rank.now → IsTrue result }
{
    match order.rank_below(place) {
        Some(own) => *own == *rank,
        None => false,
    }
}

/// Whether no other issue has the rank.
fn is_free(order: &Order, issue: IssueNo, rank: &Rank) -> bool
    ensures { IsTrue result → IsFreeFor order.now.pairs issue.0 rank.now }
{
    for place in 0..order.len() {
        if order.issue_at(place).0 != issue.0 && is_at(order, place, rank) {
            return false;
        }
    }
    true
}

fn is_there(order: &Order, issue: Option<IssueNo>) -> bool
    ensures { IsTrue result → IfSome issue (λ i. IsIn order.now.pairs i.0) }
{
    match issue {
        Some(issue) => order.place_of(issue).is_some(),
        None => true,
    }
}

pub(crate) fn other_of(place: Place) -> Option<IssueNo>
    ensures { result ≡ named_by place }
{
    match place {
        Place::Before(other) | Place::After(other) => Some(other),
        Place::Last => None,
    }
}

pub(crate) fn differ(one: Option<IssueNo>, other: Option<IssueNo>) -> bool
    ensures { IsTrue result → IfSome one (λ i. IfSome other (λ o. i.0 ≢ o.0)) }
{
    match (one, other) {
        (Some(one), Some(other)) => one.0 != other.0,
        _ => true,
    }
}

/// Whether the named issues stand in the order, and differ.
fn are_named(order: &Order, issue: Option<IssueNo>, place: Place) -> bool
    ensures { IsTrue result → AreNamed order.now.pairs issue place }
{
    let other = other_of(place);
    is_there(order, issue) && is_there(order, other) && differ(issue, other)
}

/// What the order answers that is asked for the rank for a place. `None` where it may not be asked.
pub(crate) fn answer_for(
    order: &Order,
    issue: Option<IssueNo>,
    place: Place,
    empty_bucket: u8,
) -> Option<Result<Rank, RankFault>> {
    if 3 <= empty_bucket {
        return None;
    }
    if !are_named(order, issue, place) {
        return None;
    }
    Some(order.rank_for(issue, place, empty_bucket))
}

/// The rank for a place.
pub(crate) fn rank_for(
    order: &Order,
    issue: Option<IssueNo>,
    place: Place,
    empty_bucket: u8,
) -> Option<Rank> {
    answer_for(order, issue, place, empty_bucket)?.ok()
}

/// Puts the issue to its rank, which no other issue has.
pub(crate) fn put(order: &mut Order, issue: IssueNo, rank: Rank) -> Option<()> {
    let Ok(()) = order.reserve(issue.0 as usize + 1) else {
        return None;
    };
    if !is_free(order, issue, &rank) {
        return None;
    }
    order.put(issue, rank);
    Some(())
}

/// The same for the rank that a text writes.
pub(crate) fn put_text(alloc: Global, order: &mut Order, number: u32, text: &str) -> Option<()> {
    let rank = rank_of(alloc, text)?;
    put(order, IssueNo(number), rank)
}

/// The rank that a text writes.
pub(crate) fn rank_of(alloc: Global, text: &str) -> Option<Rank> {
    match Rank::read(alloc, text.as_bytes()) {
        Ok(rank) => rank,
        Err(_) => None,
    }
}

/// Whether the text writes the rank.
pub(crate) fn is_written(alloc: Global, rank: &Rank, text: &str) -> bool {
    match rank.text(alloc) {
        Ok(written) => written.as_str() == text,
        Err(_) => false,
    }
}

/// Whether no rank was given, and the neighbours that are told are these.
pub(crate) fn is_exhausted(
    alloc: Global,
    answer: &Result<Rank, RankFault>,
    low: &str,
    high: &str,
) -> bool {
    match answer {
        Err(
            RankFault::Exhausted {
                low: Some(kept_low),
                high: Some(kept_high),
            },
        ) => is_written(alloc, kept_low, low) && is_written(alloc, kept_high, high),
        _ => false,
    }
}

/// `0|i00000:` with this many zeros and then a `1` behind it.
pub(crate) fn behind_zeros(alloc: Global, zeros: usize) -> Result<String, AllocError> {
    let mut text = String::from_str(alloc, "0|i00000:")?;
    for _ in 0..zeros {
        text.push('0')?;
    }
    text.push('1')?;
    Ok(text)
}

/// How many zeros the longest such rank has, which has 254 bytes.
pub(crate) const MOST_ZEROS: usize = 244;

/// Goes on where this is so.
pub(crate) fn is(so: bool) -> Option<()> {
    if so { Some(()) } else { None }
}
