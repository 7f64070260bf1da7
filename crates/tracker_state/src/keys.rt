// The key by which answers name an issue.
ghost use Rattle.std.specs.Prelude.{◌≡◌};
ghost use Rattle.tracker_machine.specs.Known.{key_numbered};

use crate::state::State;
use fields::IssueNo;

/// The key of the issue of a number, or nothing where there is none.
pub fn key_numbered(state: &State, issue: IssueNo) -> &str
    ensures { result.now ≡ key_numbered state.now.machine.histories issue.0 }
{
    match state.issue_at((issue.0 as usize).saturating_sub(1)) {
        Some(issue) => issue.key().as_str(),
        None => "",
    }
}
