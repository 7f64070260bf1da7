//! The rank of an issue that is read.
ghost use Rattle.std.specs.Prelude.{◌≡◌, ◌≤◌, ◌+◌, ◌∷◌, ◌++◌, ◌↔◌, [], true, false, not, length, IfOk, OnErr, IsTrue, if◌then◌else◌};
ghost use Rattle.std.specs.BTreeSet.{keys};
ghost use Rattle.rank_strings.specs.Rank.{IsRank};
ghost use Rattle.tracker_machine.specs.Effect.{with_new_rank};
ghost use Rattle.tracker_ranks.specs.Loaded.{AllowsBucket};
ghost use Rattle.tracker_rows.specs.Rules.{MayBeRank};
ghost use Rattle.tracker_loading.specs.Taken.{is_taken, AreTaken};

use crate::making::Making;
use field_values::{IssueNo, Memory};
use rank_balancer::Balance;
use rank_strings::Rank;
use std::alloc::Global;
use std::collections::BTreeSet;

impl Making {
    /// Puts the rank of the next issue in its place, or answers false exactly where it breaks a rule.
    pub(crate) fn join_rank(
        &mut self,
        alloc: Global,
        issue: IssueNo,
        rank: Rank,
    ) -> Result<bool, Memory>
        requires rank { IsRank rank }
        requires next { issue.0 ≤ length self.old.histories → issue.0 ≡ length self.old.order + 1 }
        ensures good { IfOk result (λ good. good ≡ true → MayBeRank self.old issue rank
            × (self.new ≡ with_new_rank self.old issue rank)) }
        ensures bad { IfOk result (λ good. good ≡ false → ¬ (MayBeRank self.old issue rank)) }
    {
        if self.issues.len() < issue.0 as usize {
            return Ok(false);
        }
        if !allows(self.balance, rank.bucket()) {
            return Ok(false);
        }
        let new = add_rank(alloc, &mut self.ranks, &mut self.taken, rank)?;
        if !new {
            return Ok(false);
        }
        Ok(true)
    }
}

// Whether a rank of this bucket agrees with the balance.
fn allows(balance: Balance, bucket: u8) -> bool
    ensures { IsTrue result ↔ AllowsBucket balance bucket }
{
    match balance {
        Balance::Idle(own) => bucket == own,
        Balance::Moving { from, to } => bucket == from || bucket == to,
    }
}

// Puts the rank of the next issue behind those before it, unless it is one of them. Whether it is new.
fn add_rank(
    alloc: Global,
    ranks: &mut Vec<Rank>,
    taken: &mut BTreeSet<Rank>,
    rank: Rank,
) -> Result<bool, Memory>
    requires { AreTaken ranks.old.items (keys taken.old) }
    ensures new { IfOk result (λ new. new ≡ not (is_taken ranks.old.items rank)) }
    ensures ranks { IfOk result (λ new.
        ranks.new.items ≡ (if new then ranks.old.items ++ rank ∷ [] else ranks.old.items)) }
    ensures taken { AreTaken ranks.new.items (keys taken.new) }
    ensures err { OnErr result (ranks.new.items ≡ ranks.old.items) }
{
    ranks.reserve(1)?;
    let copy = rank.copy(alloc)?;
    let new = taken.insert(copy)?;
    if new {
        ranks.push_reserved(rank);
    }
    Ok(new)
}
