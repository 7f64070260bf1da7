//! What a call may have changed of the lists of filters: what it was, what it named before and how many issues there are say it, and no
//! list is walked for that.
ghost use Rattle.std.specs.Prelude.{◌≡◌, length};
ghost use Rattle.tracker_machine.specs.Known.{place_of_issue};
ghost use Rattle.filter_lists.specs.Events.{CallsChangeLists, changed_at, changed_by, changed_by_answer, changed_by_create, changed_with, place_in};

use list_changes::Changed;
use tracker_calls::{Answer, Call, Reply};
use tracker_state::State;

/// How many issues there were before a call, and where the one stands that it names.
#[derive(Clone, Copy)]
pub struct Before {
    issues: usize,
    place: Option<usize>,
}

impl Before {
    /// That of a state.
    pub fn of(state: &State, call: &Call) -> Before
        ensures issues { result.issues ≡ length state.now.machine.histories }
        ensures place { result.place ≡ place_in state.now.machine call.now }
    {
        Before {
            issues: state.issue_count(),
            place: place_in(state, call),
        }
    }

    /// What the call may have changed, which has this reply and led to this state.
    pub fn changed(self, call: &Call, reply: &Reply, state: &State) -> Changed
        ensures { result ≡ changed_with call.now self.place self.issues
            (length state.now.machine.histories) reply.now }
    {
        match reply {
            Reply::Ok(answer) => {
                changed_by(call, self.place, self.issues, state.issue_count(), answer)
            }
            Reply::Refused(_) => Changed::Nothing,
        }
    }
}

// Where the issue stands that an edit or a transition names.
fn place_in(state: &State, call: &Call) -> Option<usize>
    ensures { result ≡ place_in state.now.machine call.now }
{
    match call {
        Call::Edit { issue, .. } => place_named(state, issue.as_str()),
        Call::Transition { issue, .. } => place_named(state, issue.as_str()),
        _ => None,
    }
}

fn place_named(state: &State, name: &str) -> Option<usize>
    ensures { result ≡ place_of_issue name.now state.now.machine.histories }
{
    match state.issue_named(name) {
        Some(found) => Some(found.place),
        None => None,
    }
}

// What an answered call may have changed.
fn changed_by(
    call: &Call,
    place: Option<usize>,
    before: usize,
    now: usize,
    answer: &Answer,
) -> Changed
    ensures { result ≡ changed_by call.now place before now answer.now }
{
    match call {
        Call::Create { .. } => changed_by_create(before, now),
        Call::Edit { .. } | Call::Transition { .. } => changed_at(place),
        Call::SaveFilter { .. } | Call::DropFilter { .. } => changed_by_answer(answer),
        Call::Tick { .. }
        | Call::MakeSprint { .. }
        | Call::StartSprint { .. }
        | Call::CloseSprint { .. }
        | Call::SetGroup { .. } => Changed::Anything,
        _ => Changed::Nothing,
    }
}

fn changed_by_create(before: usize, now: usize) -> Changed
    ensures { result ≡ changed_by_create before now }
{
    if now == before {
        Changed::Nothing
    } else {
        Changed::Issue(before)
    }
}

fn changed_at(place: Option<usize>) -> Changed
    ensures { result ≡ changed_at place }
{
    match place {
        Some(place) => Changed::Issue(place),
        None => Changed::Nothing,
    }
}

fn changed_by_answer(answer: &Answer) -> Changed
    ensures { result ≡ changed_by_answer answer.now }
{
    match answer {
        Answer::SaveFilter { filter, .. } => Changed::Filter(*filter),
        Answer::DropFilter { filter } => Changed::Filter(*filter),
        _ => Changed::Anything,
    }
}

/// By what each call may change a list. This function does nothing: its clause is a law.
pub fn calls_change_lists()
    ensures { CallsChangeLists }
{}
