//! The external id of an issue that is read.
ghost use Rattle.std.specs.Prelude.{◌≡◌, ◌≤◌, ◌<◌, true, false, None, Some, is_some, IfOk, OnErr};
ghost use Rattle.std.specs.List.{All};
ghost use Rattle.rising_numbers.specs.ByNumber.{put_by_number};
ghost use Rattle.external_ids.specs.Ids.{external_number, external_named};
ghost use Rattle.tracker_machine.specs.Effect.{with_external};
ghost use Rattle.tracker_rows.specs.Rules.{MayBeExternal};

use crate::making::Making;
use external_ids::{ExternalId, ExternalIds};
use field_values::{IssueNo, Memory, Text};
use std::alloc::Global;

impl Making {
    /// Puts the external id of an issue behind all that have one, or answers false exactly where it breaks a rule.
    pub(crate) fn join_external(
        &mut self,
        alloc: Global,
        issue: IssueNo,
        external: &str,
    ) -> Result<bool, Memory>
        requires positive { 1 ≤ issue.0 }
        requires next { All (λ e. e.no.0 < issue.0) self.old.externals }
        ensures good { IfOk result (λ good. good ≡ true → MayBeExternal self.old issue external.now
            × (self.new ≡ record self.old {
              externals = with_external self.old.externals issue (Some external.now);
            })) }
        ensures bad { IfOk result (λ good. good ≡ false →
            ¬ (MayBeExternal self.old issue external.now)) }
    {
        if self.issues.len() < issue.0 as usize {
            return Ok(false);
        }
        if is_given(&self.externals, external) {
            return Ok(false);
        }
        add_external(alloc, &mut self.externals, issue, external)?;
        Ok(true)
    }
}

// Whether an issue has that id.
fn is_given(externals: &ExternalIds, id: &str) -> bool
    ensures { result ≡ is_some (external_named id.now externals.now.ids) }
{
    externals.find(id).is_some()
}

// Puts in the external id of an issue behind all that have one.
fn add_external(
    alloc: Global,
    externals: &mut ExternalIds,
    issue: IssueNo,
    external: &str,
) -> Result<(), Memory>
    requires positive { 1 ≤ issue.0 }
    requires free { external_named external.now externals.old.ids ≡ None }
    requires last { All (λ e. e.no.0 < issue.0) externals.old.ids }
    ensures ids { IfOk result (λ done. externals.new.ids
        ≡ put_by_number external_number (record { no = issue; id = external.now })
        externals.old.ids) }
    ensures err { OnErr result (externals.new.ids ≡ externals.old.ids) }
{
    externals.reserve()?;
    let id = Text::copy_of(alloc, external)?;
    let text = String::from_str(alloc, external)?;
    externals.add(ExternalId { no: issue, id }, text);
    Ok(())
}
