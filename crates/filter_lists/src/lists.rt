//! Which issues a filter lists for a user, as its cells and the permissions say.
ghost use Rattle.std.specs.Prelude.{◌≡◌, ◌&&◌, Some, length, option_map, slice_get, IfSome, OnOk};
ghost use Rattle.std.specs.Option.{is_some, option_copied};
ghost use Rattle.rising_numbers.specs.ByNumber.{by_number};
ghost use Rattle.field_values.specs.declared.rules.Permission.TheVariants.{Browse};
ghost use Rattle.fields.specs.SetupParts.{may};
ghost use Rattle.workflow.specs.Conditions.{project_number};
ghost use Rattle.jql_meaning.specs.Truth.{query_holds};
ghost use Rattle.tracker_filters.specs.Saved.{condition_of, number};
ghost use Rattle.tracker_machine.specs.Filters.{filter_numbered, is_shown};
ghost use Rattle.tracker_machine.specs.Saved.{filter_number};
ghost use Rattle.tracker_machine.specs.Search.{surroundings_in};
ghost use Rattle.tracker_state.specs.State.{saved_as};
ghost use Rattle.filter_lists.specs.Listed.{listed, lists};

use fields::{FilterNo, IssueNo, Memory, Permission, UserNo};
use tracker_filters::Filter;
use tracker_state::State;

/// Whether a filter has this number. It takes no memory.
pub fn has_filter(state: &State, filter: FilterNo) -> bool
    ensures { result ≡ is_some (filter_numbered state.now.machine filter) }
{
    filter_of(state, filter).is_some()
}

// The filter of that number; `None` exactly where there is none.
fn filter_of(state: &State, no: FilterNo) -> Option<&Filter>
    ensures filter { option_copied result ≡ by_number number no.0 state.now.watched.filters }
    ensures own { IfSome result (λ filter. filter.now.no ≡ no) }
    ensures named { option_map saved_as (option_copied result)
        ≡ by_number filter_number no.0 state.now.machine.filters }
{
    state.have_seen();
    state.filters().get(no)
}

/// Puts of each issue whether the filter lists it in place of what `room` contained, of which nothing is known where memory lacks.
#[tactic(auto, unfolding(crate::specs::Listed::listed), using(crate::proofs::Walk::own_entry, crate::proofs::Walk::walked_more))]
pub fn list(
    state: &State,
    user: UserNo,
    filter: FilterNo,
    room: &mut Vec<bool>,
) -> Result<(), Memory>
    ensures { OnOk result (room.new.items ≡ listed state.now.machine user.0 filter.0) }
{
    let found = filter_of(state, filter);
    room.clear();
    room.reserve(state.issue_count())?;
    for place in 0..state.issue_count() {
        room.push(lists(state, found, user, place))?;
    }
    Ok(())
}

/// Whether the filter of that number lists the issue at a place.
#[tactic(auto, unfolding(crate::specs::Listed::listed), using(crate::proofs::Walk::own_entry, crate::proofs::Walk::told_at))]
pub fn lists_at(state: &State, user: UserNo, filter: FilterNo, place: usize) -> bool
    ensures { IfSome (slice_get (listed state.now.machine user.0 filter.0) place)
        (λ is. result ≡ is) }
{
    lists(state, filter_of(state, filter), user, place)
}

// Whether this filter, if it is one, lists the issue at a place.
fn lists(state: &State, filter: Option<&Filter>, user: UserNo, place: usize) -> bool
    requires { IfSome filter (λ f. by_number number f.now.no.0 state.now.watched.filters
        ≡ Some f.now) }
    ensures { IfSome (slice_get state.now.machine.histories place) (λ h. result
        ≡ lists state.now.machine user.0 (option_map saved_as (option_copied filter.entry)) h) }
{
    match filter {
        Some(filter) => shows(state, filter, user, place),
        None => false,
    }
}

// Whether the user and the owner may browse the issue at a place, and the filter holds of it.
fn shows(state: &State, filter: &Filter, user: UserNo, place: usize) -> bool
    requires { by_number number filter.now.no.0 state.now.watched.filters ≡ Some filter.now }
    ensures { IfSome (slice_get state.now.machine.histories place) (λ h. result
        ≡ is_shown state.now.machine user.0 (saved_as filter.now) h) }
{
    state.have_seen();
    if !holds(state, filter, place) {
        return false;
    }
    may_both(state, filter.owner, user, place)
}

// Whether both users may browse the issue at a place.
fn may_both(state: &State, owner: UserNo, user: UserNo, place: usize) -> bool
    ensures { IfSome (slice_get state.now.machine.histories place) (λ h. result
        ≡ (may state.now.machine.setup owner.0 Browse
        (project_number state.now.machine.setup h)
        && may state.now.machine.setup user.0 Browse
        (project_number state.now.machine.setup h))) }
{
    may_browse(state, owner, place) && may_browse(state, user, place)
}

// Whether the filter holds of the issue at a place, as its cell says.
fn holds(state: &State, filter: &Filter, place: usize) -> bool
    requires { by_number number filter.now.no.0 state.now.watched.filters ≡ Some filter.now }
    ensures { IfSome (slice_get state.now.machine.histories place) (λ h. result
        ≡ query_holds (surroundings_in state.now.machine.setup state.now.machine.sprints) h
        state.now.machine.moment (condition_of filter.now)) }
{
    state.have_seen();
    if place >= state.issue_count() {
        return false;
    }
    state.filters().holds(filter.no, IssueNo(place as u32 + 1))
}

// Whether the user may browse the issue at a place.
fn may_browse(state: &State, user: UserNo, place: usize) -> bool
    ensures { IfSome (slice_get state.now.machine.histories place) (λ h.
        result ≡ may state.now.machine.setup user.0 Browse
        (project_number state.now.machine.setup h)) }
{
    state.may(user, Permission::Browse, state.project_at(place))
}
