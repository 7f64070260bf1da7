//! Whether a creation or a change group comes in turn.
ghost use Rattle.std.specs.Prelude.{◌≡◌, ◌≤◌, ◌↔◌, IsTrue, map, length};
ghost use Rattle.tracker_loading.specs.Turns.{AreCreatedInTurn, IsBehindGroups, IsGroupMoment, IsPlaceOf, IsNotBefore, IsNotBehind, HasItsTurn};

use change_history::Issue;
use field_values::Moment;

/// Whether a change of that number and moment comes in turn among those that were read: the creations, and the groups, whose numbers
/// are all smaller, and the last of which was at that moment.
pub(crate) fn has_its_turn(issues: &[Issue], group_at: Moment, change: u64, at: Moment) -> bool
    requires created { AreCreatedInTurn (map (λ i. i.history) issues.now) }
    requires groups { IsGroupMoment (map (λ i. i.history) issues.now) group_at }
    requires behind { IsBehindGroups (map (λ i. i.history) issues.now) change }
    ensures { IsTrue result ↔ HasItsTurn (map (λ i. i.history) issues.now) change at }
{
    if at < group_at {
        return false;
    }
    let place = count_before(issues, change);
    if !is_not_before(issues, place, at) {
        return false;
    }
    is_not_behind(issues, place, change, at)
}

// How many issues have a smaller change number.
fn count_before(issues: &[Issue], change: u64) -> usize
    requires { AreCreatedInTurn (map (λ i. i.history) issues.now) }
    ensures { IsPlaceOf (map (λ i. i.history) issues.now) change result }
{
    issues.partition_point(|issue| issue.change() < change)
}

// Whether none of the issues before the place is later.
fn is_not_before(issues: &[Issue], place: usize, at: Moment) -> bool
    requires created { AreCreatedInTurn (map (λ i. i.history) issues.now) }
    requires within { place ≤ length issues.now }
    ensures { IsTrue result ↔ IsNotBefore (map (λ i. i.history) issues.now) place at }
{
    if place == 0 {
        return true;
    }
    let last = &issues[place - 1];
    last.created() <= at
}

// Whether those from the place on have other change numbers and aren't earlier.
fn is_not_behind(issues: &[Issue], place: usize, change: u64, at: Moment) -> bool
    requires created { AreCreatedInTurn (map (λ i. i.history) issues.now) }
    requires place { IsPlaceOf (map (λ i. i.history) issues.now) change place }
    ensures { IsTrue result ↔ IsNotBehind (map (λ i. i.history) issues.now) place change at }
{
    if place == issues.len() {
        return true;
    }
    let first = &issues[place];
    if first.change() == change {
        return false;
    }
    at <= first.created()
}
