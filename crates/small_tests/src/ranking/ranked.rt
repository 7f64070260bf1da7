ghost use Rattle.std.specs.Prelude.{IsTrue, IfSome, length};
ghost use Rattle.rank_balancer.specs.Balance.{IsMoving};
ghost use Rattle.tracker_ranks.specs.Ranked.{AreNumbered, IsOneOf};

use super::placing::{
    MOST_ZEROS, behind_zeros, differ, is, is_exhausted, is_written, other_of, rank_of,
};
use board::Place;
use field_values::IssueNo;
use rank_balancer::{Balance, BalanceIs};
use rank_strings::{Rank, RankFault};
use std::alloc::Global;
use tracker_ranks::Ranks;

/// Whether there is no such issue, or it is numbered.
fn is_numbered(ranks: &Ranks, issue: Option<IssueNo>) -> bool
    ensures { IsTrue result → IfSome issue (λ i. IsOneOf (length ranks.now.order) i.0) }
{
    match issue {
        Some(issue) => 1 <= issue.0 && issue.0 as usize <= ranks.len(),
        None => true,
    }
}

/// Whether the named issues are numbered, and differ.
fn are_numbered(ranks: &Ranks, issue: Option<IssueNo>, place: Place) -> bool
    ensures { IsTrue result → AreNumbered (length ranks.now.order) issue place }
{
    let other = other_of(place);
    is_numbered(ranks, issue) && is_numbered(ranks, other) && differ(issue, other)
}

/// A new issue.
fn create(ranks: &mut Ranks) -> Option<()> {
    let number = u32::try_from(ranks.len()).ok()?.checked_add(1)?;
    ranks.reserve().ok()?;
    let rank = ranks.rank_for(None, Place::Last).ok()?;
    ranks.add(IssueNo(number), rank);
    Some(())
}

/// What is answered to an issue that asks for a place.
fn offer(ranks: &Ranks, issue: IssueNo, place: Place) -> Option<Result<Rank, RankFault>> {
    if !are_numbered(ranks, Some(issue), place) {
        return None;
    }
    Some(ranks.rank_for(Some(issue), place))
}

/// Moves an issue to a place.
fn move_to(ranks: &mut Ranks, issue: IssueNo, place: Place) -> Option<()> {
    if !are_numbered(ranks, Some(issue), place) {
        return None;
    }
    let rank = ranks.rank_for(Some(issue), place).ok()?;
    ranks.set(issue, rank);
    Some(())
}

/// Whether a rebalancing is under way.
fn is_moving(ranks: &Ranks) -> bool
    ensures { IsTrue result → IsMoving ranks.now.balance }
{
    match ranks.balance() {
        Balance::Idle(_) => false,
        Balance::Moving { .. } => true,
    }
}

/// One step of at most so many picks, and how many it made.
fn step(ranks: &mut Ranks, count: u32) -> Option<usize> {
    if count == 0 || 1000 < count || !is_moving(ranks) {
        return None;
    }
    let plan = ranks.plan_step(count).ok()?;
    let moved = plan.moves().len();
    ranks.apply(plan);
    Some(moved)
}

/// Whether the issue has the rank that a text writes.
fn has_rank(alloc: Global, ranks: &Ranks, issue: u32, text: &str) -> bool {
    match ranks.rank_of(IssueNo(issue)) {
        Some(rank) => is_written(alloc, rank, text),
        None => false,
    }
}

/// Whether these are the issues in their order, with these ranks.
fn are_ranked(alloc: Global, ranks: &Ranks, want: &[(u32, &str)]) -> bool {
    if ranks.len() != want.len() || ranks.order().issues().len() != want.len() {
        return false;
    }
    for (place, &(issue, text)) in want.iter().enumerate() {
        if ranks.place_of(IssueNo(issue)) != Some(place) || !has_rank(alloc, ranks, issue, text) {
            return false;
        }
    }
    true
}

/// What has the first issue move, and from where to where.
const FIRST: Balance = Balance::Moving { from: 0, to: 1 };

fn create_three(alloc: Global, ranks: &mut Ranks) -> Option<bool> {
    create(ranks)?;
    create(ranks)?;
    create(ranks)?;
    let want = [(1, "0|i00000:"), (2, "0|i006bk:"), (3, "0|i00cn4:")];
    Some(are_ranked(alloc, ranks, &want))
}

/// Starts a rebalancing, which can't be started twice.
fn begins(ranks: &mut Ranks) -> Option<()> {
    is(ranks.balance() == Balance::Idle(0))?;
    is(ranks.start().is_ok())?;
    is(ranks.start() == Err(BalanceIs(FIRST)))
}

/// A step of one pick, and a move behind it.
fn moves_after_a_step(alloc: Global, ranks: &mut Ranks) -> Option<bool> {
    is(step(ranks, 1)? == 1 && ranks.left() == 2)?;
    move_to(ranks, IssueNo(1), Place::After(IssueNo(2)))?;
    Some(has_rank(alloc, ranks, 1, "1|qzztog:"))
}

/// The step that picks the only issue that is left.
fn comes_to_rest(alloc: Global, ranks: &mut Ranks) -> Option<bool> {
    is(step(ranks, 16)? == 1 && ranks.left() == 0)?;
    is(ranks.balance() == Balance::Idle(1))?;
    let want = [(2, "1|qzzncw:"), (1, "1|qzztog:"), (3, "1|r00000:")];
    Some(are_ranked(alloc, ranks, &want))
}

/// A move in the middle of a rebalancing.
fn moves_between_steps(alloc: Global, ranks: &mut Ranks) -> Option<bool> {
    is(create_three(alloc, ranks)?)?;
    begins(ranks)?;
    is(moves_after_a_step(alloc, ranks)?)?;
    comes_to_rest(alloc, ranks)
}

#[test]
fn moves_in_the_middle_of_a_rebalancing(rt: HostRuntime) {
    let mut ranks = Ranks::new(rt.alloc());
    let passes = moves_between_steps(rt.alloc(), &mut ranks) == Some(true);
    assert!(rt; passes);
}

/// The ranks that these texts write.
fn ranks_of(alloc: Global, texts: &[&str]) -> Option<Vec<Rank>> {
    let mut ranks = Vec::new(alloc);
    for text in texts {
        ranks.push(rank_of(alloc, text)?).ok()?;
    }
    Some(ranks)
}

/// Ranks that are loaded beside a balance; `None` where they aren't.
fn loaded(alloc: Global, texts: &[&str], balance: Balance) -> Option<Ranks> {
    let ranks = ranks_of(alloc, texts)?;
    if u32::try_from(ranks.len()).is_err() {
        return None;
    }
    Ranks::load(alloc, ranks, balance).ok()?
}

/// Whether issue 3 finds no place right behind issue 1.
fn has_no_room(alloc: Global, ranks: &Ranks, longest: &str) -> Option<bool> {
    is(ranks.longest() == 254)?;
    let answer = offer(ranks, IssueNo(3), Place::After(IssueNo(1)))?;
    Some(is_exhausted(alloc, &answer, "0|i00000:", longest))
}

/// The same where the longest rank stands there.
fn finds_no_room(alloc: Global, longest: &str) -> bool {
    match loaded(
        alloc,
        &["0|i00000:", longest, "0|i006bk:"],
        Balance::Idle(0),
    ) {
        Some(ranks) => has_no_room(alloc, &ranks, longest) == Some(true),
        None => false,
    }
}

#[test]
fn finds_no_room_beside_the_longest_rank(rt: HostRuntime) {
    let alloc = rt.alloc();
    let passes = match behind_zeros(alloc, MOST_ZEROS) {
        Ok(longest) => finds_no_room(alloc, longest.as_str()),
        Err(_) => false,
    };
    assert!(rt; passes);
}

/// Ranks by number, of which issue 2 has the least.
fn loads_in_order(alloc: Global) -> Option<bool> {
    let texts = ["1|r00000:", "0|i00000:", "0|i006bk:"];
    let ranks = loaded(alloc, &texts, FIRST)?;
    let want = [(2, "0|i00000:"), (3, "0|i006bk:"), (1, "1|r00000:")];
    Some(are_ranked(alloc, &ranks, &want))
}

fn loads_one_rank_twice(alloc: Global) -> bool {
    loaded(
        alloc,
        &["0|i00000:", "0|i006bk:", "0|i00000:"],
        Balance::Idle(0),
    )
    .is_some()
}

fn loads_another_bucket(alloc: Global) -> bool {
    loaded(alloc, &["0|i00000:", "1|i006bk:"], Balance::Idle(0)).is_some()
}

#[test]
fn loads_ranks_by_number(rt: HostRuntime) {
    let passes = loads_in_order(rt.alloc()) == Some(true);
    assert!(rt; passes);
}

#[test]
fn loads_no_rank_twice_and_none_of_another_bucket(rt: HostRuntime) {
    let passes = !loads_one_rank_twice(rt.alloc()) && !loads_another_bucket(rt.alloc());
    assert!(rt; passes);
}
