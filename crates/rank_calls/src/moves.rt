// The calls `move_before` and `move_after`: an issue goes to the place beside another one.
ghost use Rattle.std.specs.Prelude.{◌≡◌, ◌≢◌, ◌+◌, ◌∷◌, [], false, Ok, Some, IfOk, length, slice_get, option_map};
ghost use Rattle.std.specs.Str.{bytes_eq};
ghost use Rattle.board.specs.declared.place.Place.TheVariants.{Before, After};
ghost use Rattle.tracker_ranks.specs.Ranked.{AreNumbered, IsOneOf};
ghost use Rattle.tracker_machine.specs.Known.{place_of_issue, history_named};
ghost use Rattle.tracker_machine.specs.Rank.{moved_rank, with_given, has_rank};
ghost use Rattle.tracker_machine.specs.Move.{move_refusal, move_before_meaning, move_after_meaning, newly_ranked, move_answer};
ghost use Rattle.tracker_state.specs.Check.{Checks, room_refusal};
ghost use Rattle.tracker_state.specs.Plan.{IsPrepared};
ghost use Rattle.tracker_state.specs.Rows.{rank_op};

use crate::rows::rank_rows;
use board::Place;
use fields::{IssueNo, Memory, Permission, Text, UserNo};
use rank_strings::Rank;
use std::alloc::Global;
use tracker_calls::{Answer, Refusal, ToldText};
use tracker_keeper::RowOp;
use tracker_state::no_room::refusal_of;
use tracker_state::{Found, Plan, Prepared, RankPlan, State, check_access, known_issue};

/// Prepares that the issue goes to the place before the other one, or says why not.
pub fn move_before(
    alloc: Global,
    state: &State,
    caller: UserNo,
    issue: &str,
    other: &str,
) -> Result<Prepared, Refusal>
    requires apart { bytes_eq other.now issue.now ≡ false }
    ensures { IsPrepared (move_before_meaning state.now.machine caller.0 issue.now other.now)
        state.now result }
{
    let (no, beside) = check_move(alloc, state, caller, issue, other)?;
    put(alloc, state, issue, no, Place::Before(beside))
}

/// Prepares that the issue goes to the place behind the other one, or says why not.
pub fn move_after(
    alloc: Global,
    state: &State,
    caller: UserNo,
    issue: &str,
    other: &str,
) -> Result<Prepared, Refusal>
    requires apart { bytes_eq other.now issue.now ≡ false }
    ensures { IsPrepared (move_after_meaning state.now.machine caller.0 issue.now other.now)
        state.now result }
{
    let (no, beside) = check_move(alloc, state, caller, issue, other)?;
    put(alloc, state, issue, no, Place::After(beside))
}

// The numbers of both issues.
fn check_move(
    alloc: Global,
    state: &State,
    caller: UserNo,
    issue: &str,
    other: &str,
) -> Result<(IssueNo, IssueNo), Refusal>
    // No issue is named to go beside itself.
    requires apart { bytes_eq other.now issue.now ≡ false }
    // It passes only where nothing refuses the move, and else names that cause, or want of memory.
    ensures check { Checks (move_refusal state.now.machine caller.0 issue.now other.now) result }
    // The numbers are those of both issues, as named.
    ensures issue { IfOk result (λ r.
        option_map (λ h. h.no) (history_named state.now.machine issue.now) ≡ Some r.0) }
    ensures other { IfOk result (λ r.
        option_map (λ h. h.no) (history_named state.now.machine other.now) ≡ Some r.1) }
    // Both have a rank, and they are two, so that the one may go beside the other.
    ensures moved { IfOk result (λ r. IsOneOf (length state.now.machine.order) r.0.0) }
    ensures beside { IfOk result (λ r. IsOneOf (length state.now.machine.order) r.1.0) }
    ensures apart { IfOk result (λ r. r.0.0 ≢ r.1.0) }
{
    let moved = known_issue(alloc, state, issue)?;
    let beside = known_issue(alloc, state, other)?;
    check_access(alloc, state, caller, Permission::Browse, moved)?;
    check_access(alloc, state, caller, Permission::Rank, moved)?;
    check_access(alloc, state, caller, Permission::Browse, beside)?;
    Ok((number_of(state, moved), number_of(state, beside)))
}

// The number of the issue, which is one more than its place.
fn number_of(state: &State, found: Found<'_>) -> IssueNo
    requires { slice_get state.now.machine.histories found.place ≡ Some found.issue.now.history }
    ensures number { result ≡ found.entry.issue.now.history.no }
    ensures next { result.0 ≡ found.entry.place + 1 }
    ensures one { IsOneOf (length state.now.machine.order) result.0 }
{
    state.is_tracker();
    found.issue.no()
}

// The issue of that name and number goes to a place.
fn put(
    alloc: Global,
    state: &State,
    name: &str,
    issue: IssueNo,
    place: Place,
) -> Result<Prepared, Refusal>
    requires { AreNumbered (length state.now.machine.order) (Some issue) place }
    ensures { IsPrepared (with_given (moved_rank state.now.machine issue place)
        (newly_ranked state.now.machine name.now issue)) state.now result }
{
    let rank = moved_rank(alloc, state, issue, place)?;
    let (answer, rows) = told(alloc, name, issue, &rank)?;
    if has_rank(state, issue, &rank) {
        return Ok(Prepared::Tell(answer));
    }
    Ok(Prepared::Make {
        plan: Plan::Rank(RankPlan { issue, rank }),
        answer,
        rows,
    })
}

// The rank that puts the issue to the place.
fn moved_rank(alloc: Global, state: &State, issue: IssueNo, place: Place) -> Result<Rank, Refusal>
    requires { AreNumbered (length state.now.machine.order) (Some issue) place }
    ensures rank { IfOk result (λ rank. moved_rank state.now.machine issue place ≡ Ok rank) }
    ensures check { Checks (room_refusal (moved_rank state.now.machine issue place)) result }
{
    match state.ranks().rank_for(Some(issue), place) {
        Ok(rank) => Ok(rank),
        Err(fault) => Err(refusal_of(alloc, fault)),
    }
}

fn has_rank(state: &State, issue: IssueNo, rank: &Rank) -> bool
    ensures { result ≡ has_rank state.now.machine.order issue rank.now }
{
    match state.ranks().rank_of(issue) {
        Some(own) => own == rank,
        None => false,
    }
}

// The answer, and the operation that keeps the rank.
fn told(
    alloc: Global,
    name: &str,
    issue: IssueNo,
    rank: &Rank,
) -> Result<(Answer, Vec<RowOp>), Memory>
    ensures answer { IfOk result (λ r. r.0 ≡ move_answer name.now rank.now) }
    ensures rows { IfOk result (λ r. r.1.items ≡ rank_op issue rank.now ∷ []) }
{
    let text = rank.text(alloc)?;
    let told = ToldText::copy_of(alloc, text.as_str())?;
    let rows = rank_rows(alloc, issue, Text::of(text.into_string()))?;
    let issue = ToldText::copy_of(alloc, name)?;
    Ok((Answer::Move { issue, rank: told }, rows))
}
