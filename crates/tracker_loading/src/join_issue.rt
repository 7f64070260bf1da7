//! An issue that is read.
ghost use Rattle.std.specs.Prelude.{◌≡◌, ◌≤◌, ◌<◌, ◌-◌, ◌^◌, ◌++◌, ◌∷◌, ◌↔◌, [], true, false, min, length, IfOk, IsTrue};
ghost use Rattle.std.specs.List.{All};
ghost use Rattle.change_history.specs.History.{opening_value, histories_of};
ghost use Rattle.tracker_machine.specs.Checks.{entries_kept, bytes_kept, history_bytes};
ghost use Rattle.tracker_machine.specs.Tracker.{AreNamed};
ghost use Rattle.tracker_rows.specs.Rules.{MayBeIssue};
ghost use Rattle.tracker_loading.specs.Rules.{MayStand};
ghost use Rattle.tracker_loading.specs.Turns.{AreCreatedInTurn};

use crate::entries::is_empty;
use crate::keys::project_of_next;
use crate::making::Making;
use change_history::Issue;
use field_values::{FieldNo, Memory};
use std::alloc::Global;
use tracker_issues::Issues;
use tracker_limits::{MOST_ISSUES, MOST_TEXT_BYTES};

impl Making {
    /// Puts an issue that has no entry, and whose text bytes are given too, behind the others, or answers false exactly where it breaks
    /// a rule.
    pub(crate) fn join_issue(
        &mut self,
        alloc: Global,
        issue: Issue,
        bytes: u64,
    ) -> Result<bool, Memory>
        requires new { issue.history.entries ≡ [] }
        requires bytes { bytes ≡ min (history_bytes issue.history) (2 ^ 64 - 1) }
        requires next { entries_kept self.old.histories ≡ 0 }
        ensures good { IfOk result (λ good. good ≡ true → MayBeIssue self.old issue.history
            × (self.new ≡ record self.old {
              histories = self.old.histories ++ issue.history ∷ [];
            })) }
        ensures bad { IfOk result (λ good. good ≡ false → ¬ (MayBeIssue self.old issue.history)) }
    {
        if !self.may_stand(&issue, bytes) {
            return Ok(false);
        }
        let key = issue.key().as_str();
        let Some(project) = project_of_next(alloc, &self.setup, &self.issues, key)? else {
            return Ok(false);
        };
        let text = String::from_str(alloc, key)?;
        self.issues.reserve()?;
        self.issues.push(project, text, issue, bytes);
        Ok(true)
    }

    // Whether the issue keeps all rules but the one of its key.
    fn may_stand(&self, issue: &Issue, bytes: u64) -> bool
        requires bytes { bytes ≡ min (history_bytes issue.now.history) (2 ^ 64 - 1) }
        requires next { entries_kept self.now.histories ≡ 0 }
        ensures { IsTrue result ↔ MayStand self.now issue.now.history }
    {
        let count = self.issues.len();
        if count >= MOST_ISSUES || issue.no().0 as usize != count + 1 {
            return false;
        }
        if !is_last(&self.issues, issue.change()) {
            return false;
        }
        if !self.is_in_turn(issue.change(), issue.created()) {
            return false;
        }
        if !is_named(issue) {
            return false;
        }
        self.issues.bytes().saturating_add(bytes) <= MOST_TEXT_BYTES
    }
}

// Whether all issues have smaller change numbers.
fn is_last(issues: &Issues, change: u64) -> bool
    requires { AreCreatedInTurn (histories_of issues.now.kept) }
    ensures { IsTrue result ↔ All (λ g. g.change < change) (histories_of issues.now.kept) }
{
    match issues.as_slice().last() {
        Some(last) => last.change() < change,
        None => true,
    }
}

// Whether type, summary and status aren't empty.
fn is_named(issue: &Issue) -> bool
    ensures { IsTrue result ↔ AreNamed (opening_value issue.now.history.opening) }
{
    if is_empty(issue.opening(FieldNo::TYPE)) || is_empty(issue.opening(FieldNo::SUMMARY)) {
        return false;
    }
    !is_empty(issue.opening(FieldNo::STATUS))
}
