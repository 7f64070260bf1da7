// What a transition changes after its status.
ghost use Rattle.fields.specs.SetupParts.{parts};
ghost use Rattle.std.specs.Prelude.{◌≡◌, ◌∷◌, ◌++◌, [], IfOk, OnOk};
ghost use Rattle.change_history.specs.History.{present};
ghost use Rattle.workflow.specs.Net.{with_changes};
ghost use Rattle.workflow.specs.PostFunctions.{lead_of, post_change, with_post};

use crate::net::value_after;
use crate::project::project_number;
use change_history::{Change, Issue};
use fields::{FieldNo, Memory, PostFunction, Setup, UserNo, Value};
use std::alloc::Global;

/// The lead of the issue's project.
#[tactic(auto, unfolding(crate::specs::PostFunctions::lead_of))]
fn lead_of(setup: &Setup, issue: &Issue) -> Value
    ensures { result ≡ lead_of (parts setup.now) issue.now.history }
{
    let Some(no) = project_number(setup, issue) else {
        return Value::Empty;
    };
    match setup.project.as_slice().get(usize::from(no.0)) {
        Some(project) => Value::User(project.lead),
        None => Value::Empty,
    }
}

/// The change that a post function makes to the issue as the changes before it have left it.
fn post_change(
    alloc: Global,
    setup: &Setup,
    issue: &Issue,
    caller: UserNo,
    so_far: &[Change],
    post: &PostFunction,
) -> Result<Change, Memory>
    ensures { IfOk result (λ change. change ≡ post_change (parts setup.now) issue.now.history caller
        (with_changes (present issue.now.history) so_far.now) post.now) }
{
    let (field, to) = match post {
        PostFunction::Set(field, value) => (*field, value.copy(alloc)?),
        PostFunction::Clear(field) => (*field, Value::Empty),
        PostFunction::AssignCaller => (FieldNo::ASSIGNEE, Value::User(caller)),
        PostFunction::AssignReporter => {
            (
                FieldNo::ASSIGNEE,
                value_after(issue, so_far, FieldNo::REPORTER).copy(alloc)?,
            )
        }
        PostFunction::AssignLead => (FieldNo::ASSIGNEE, lead_of(setup, issue)),
        PostFunction::Resolution(no) => (FieldNo::RESOLUTION, Value::Choice(*no)),
    };
    Ok(Change { field, to })
}

/// Puts what the post functions change behind the changes so far.
pub(crate) fn put_post(
    alloc: Global,
    setup: &Setup,
    issue: &Issue,
    caller: UserNo,
    changes: &mut Vec<Change>,
    posts: &[PostFunction],
) -> Result<(), Memory>
    ensures { OnOk result (changes.new.items
        ≡ with_post (parts setup.now) issue.now.history caller changes.old.items posts.now) }
{
    for post in posts {
        let change = post_change(alloc, setup, issue, caller, changes.as_slice(), post)?;
        changes.push(change)?;
    }
    Ok(())
}
