// The call `ranks`: a part of the issues in the order of their ranks.
ghost use Rattle.std.specs.Prelude.{◌≡◌, map, All, IfOk};
ghost use Rattle.board.specs.Order.{IsIn};
ghost use Rattle.tracker_machine.specs.Ranks.{ranked_key, ranks_answer, ranks_meaning};
ghost use Rattle.rank_calls.specs.Beside.{key_beside_rank};
ghost use Rattle.tracker_state.specs.Plan.{IsPrepared};

use fields::{IssueNo, Memory, Permission, UserNo};
use rank_strings::Rank;
use std::alloc::Global;
use tracker_calls::{Answer, Part, RankedKey, RankedKeys, Refusal, ToldText};
use tracker_state::{Prepared, State, check_permission, key_numbered, part_of};

/// Tells a part of the issues by rank.
pub fn ranks(alloc: Global, state: &State, caller: UserNo, part: Part) -> Result<Prepared, Refusal>
    ensures { IsPrepared (ranks_meaning state.now.machine caller.0 part) state.now result }
{
    check_permission(alloc, state, caller, Permission::Administer, None)?;
    let answer = told(alloc, state, part)?;
    Ok(Prepared::Tell(answer))
}

fn told(alloc: Global, state: &State, part: Part) -> Result<Answer, Memory>
    ensures { IfOk result (λ answer. answer ≡ ranks_answer state.now.machine part) }
{
    let issues = state.ranks().order().issues();
    Ok(Answer::Ranks {
        ranks: ranked_keys(alloc, state, part_of(issues, part))?,
        total: issues.len() as u64,
    })
}

fn ranked_keys(alloc: Global, state: &State, issues: &[IssueNo]) -> Result<RankedKeys, Memory>
    requires { All (λ issue. IsIn state.now.machine.order issue.0) issues.now }
    ensures { IfOk result (λ ranks. ranks ≡ map (key_beside_rank state.now.machine) issues.now) }
{
    let mut ranks = RankedKeys::new(alloc);
    for issue in issues {
        ranks.push(key_beside_rank(alloc, state, *issue)?)?;
    }
    Ok(ranks)
}

fn key_beside_rank(alloc: Global, state: &State, issue: IssueNo) -> Result<RankedKey, Memory>
    requires { IsIn state.now.machine.order issue.0 }
    ensures { IfOk result (λ told. told ≡ key_beside_rank state.now.machine issue) }
{
    match state.ranks().rank_of(issue) {
        Some(rank) => ranked_key(alloc, state, rank, issue),
        None => unreachable!(),
    }
}

fn ranked_key(
    alloc: Global,
    state: &State,
    rank: &Rank,
    issue: IssueNo,
) -> Result<RankedKey, Memory>
    ensures { IfOk result (λ told. told
        ≡ ranked_key state.now.machine.histories (rank.now, issue)) }
{
    let key = ToldText::copy_of(alloc, key_numbered(state, issue))?;
    let text = rank.text(alloc)?;
    let rank = ToldText::copy_of(alloc, text.as_str())?;
    Ok(RankedKey { issue: key, rank })
}
