ghost use Rattle.fields.specs.SetupParts.{parts};
ghost use Rattle.std.specs.Prelude.{◌≡◌, option_map};
ghost use Rattle.workflow.specs.Conditions.{project_number};

use change_history::Issue;
use fields::{ProjectNo, Setup};

/// The issue's project: that of the key that stands in the issue's key before the hyphen. `None` exactly where the setup has
/// none of that key.
#[tactic(auto, unfolding(crate::specs::Conditions::project_number))]
pub fn project_number(setup: &Setup, issue: &Issue) -> Option<ProjectNo>
    ensures { option_map (λ no. no.0) result ≡ project_number (parts setup.now) issue.now.history }
{
    match issue.key().as_str().split_once('-') {
        Some((project, _)) => setup.project_named(project),
        None => None,
    }
}
