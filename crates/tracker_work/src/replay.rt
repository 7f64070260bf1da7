//! A burndown that is told of kept histories again. `steps_of_histories` does nothing: it tells the proof the laws of burndowns.
ghost use Rattle.std.specs.Prelude.{◌≡◌, ◌≤◌, ◌<◌, ◌+◌, ◌-◌, ℕ, nat_lt, OnOk, IfSome, MatchOption};
ghost use Rattle.sprints.specs.Sprint.{IsThere};
ghost use Rattle.burndown.specs.Group.{sprint_before};
ghost use Rattle.burndown.specs.Burndown.{HasRoom, GrowsInRoom};
ghost use Rattle.burndown.specs.Told.{HaveNoneBetween};
ghost use Rattle.tracker_work.specs.Seen.{state_in};
ghost use Rattle.tracker_work.specs.Load.{MayBeLoaded, IsTold};
ghost use Rattle.tracker_work.specs.States.{state_before, state_begun, starts_after, closes_after, IsUpTo, StaysUntil};
ghost use Rattle.tracker_work.specs.Replay.{seen_in, AreReserved, HasSameSlots, IsChartedBy, IsChartedWithin, IsReached, IsReplayed};

use crate::told::Told;
use burndown::laws::steps_of_histories;
use burndown::{Burndown, Share};
use change_history::Issue;
use field_values::{Memory, SprintNo};
use sprints::{SprintState, Sprints};
use std::snapshot::Snapshot;

/// What a burndown is made from: which statuses are done, the sprints, the issues, of which nothing is kept here, and the number of
/// their last change group.
#[derive(Drop)]
pub struct Origin {
    pub done: Vec<bool>,
    pub sprints: Sprints,
    pub issues: Snapshot<Vec<Issue>>,
    pub change: u64,
}

/// A burndown that has come to a change group.
#[derive(Drop)]
pub struct Replay {
    pub burndown: Burndown,
    /// The number of the last change group that was told.
    pub reached: u64,
    /// The number after which the next sprint starts or closes.
    pub next: Option<u64>,
}

impl Replay {
    /// Goes on to this number, up to which there is no further group.
    pub fn pass(&mut self, origin: &Origin, to: u64)
        // All up to the number that was reached has been told.
        requires origin { MayBeLoaded (seen_in origin.now) }
        requires replayed { IsReplayed (seen_in origin.now) self.old }
        // From there up to this number there is no group.
        requires later { self.old.reached ≤ to }
        requires none { HaveNoneBetween (seen_in origin.now).histories self.old.reached to }
        // All up to this number has been told then, with the starts and closes on the way.
        ensures replayed { IsReplayed (seen_in origin.now) self.new }
        ensures reached { self.new.reached ≡ to }
    {
        steps_of_histories();
        while let Some(next) = self.due(to) {
            self.reached = next;
            self.turn(origin);
        }
        self.reached = to;
    }

    /// Where a sprint starts or closes next, if that is up to this number.
    fn due(&self, to: u64) -> Option<u64>
        ensures { MatchOption result (IfSome self.now.next (λ next. to < next))
            (λ due. (due ≤ to) × (self.now.next ≡ Some due)) }
    {
        let next = self.next?;
        if next <= to { Some(next) } else { None }
    }

    /// Takes in the next group.
    pub fn tell(&mut self, origin: &Origin, told: &Told) -> Result<(), Memory>
        // All up to the number that was reached has been told.
        requires origin { MayBeLoaded (seen_in origin.now) }
        requires replayed { IsReplayed (seen_in origin.now) self.old }
        // The group is the next one of the histories.
        requires later { self.old.reached < told.now.change }
        requires none { HaveNoneBetween (seen_in origin.now).histories
            self.old.reached (told.now.change - 1) }
        requires told { IsTold (seen_in origin.now) told.now }
        // All up to this group has been told then, with the starts and closes before and after it.
        ensures replayed { OnOk result (IsReplayed (seen_in origin.now) self.new) }
        ensures reached { OnOk result (self.new.reached ≡ told.now.change) }
    {
        steps_of_histories();
        self.pass(origin, told.change - 1);
        reserve_rows(&mut self.burndown, told)?;
        self.burndown
            .row_after(told.change, told.at, told.issue, told.before, told.after);
        self.reached = told.change;
        self.turn(origin);
        Ok(())
    }

    /// Takes in what happened after the group that was reached.
    fn turn(&mut self, origin: &Origin)
        requires origin { MayBeLoaded (seen_in origin.now) }
        requires reached { IsReached (seen_in origin.now) self.old }
        ensures replayed { IsReplayed (seen_in origin.now) self.new }
        ensures reached { self.new.reached ≡ self.old.reached }
    {
        if self.next == Some(self.reached) {
            turn_all(&mut self.burndown, origin, self.reached);
            self.next = next_turn(&origin.sprints, self.reached);
        }
    }
}

/// Makes room for a row of each sprint that the group names.
fn reserve_rows(burndown: &mut Burndown, told: &Told) -> Result<(), Memory>
    ensures before { OnOk result
        (IfSome (sprint_before told.now.before) (λ s. HasRoom burndown.new s.0)) }
    ensures after { OnOk result (IfSome told.now.after.sprint (λ s. HasRoom burndown.new s.0)) }
    ensures stands { OnOk result (GrowsInRoom burndown.old burndown.new) }
{
    reserve_row(burndown, sprint_before(&told.before))?;
    reserve_row(burndown, told.after.sprint)
}

fn reserve_row(burndown: &mut Burndown, sprint: Option<SprintNo>) -> Result<(), Memory>
    ensures room { OnOk result (IfSome sprint (λ s. HasRoom burndown.new s.0)) }
    ensures stands { OnOk result (GrowsInRoom burndown.old burndown.new) }
{
    match sprint {
        Some(sprint) => burndown.reserve(sprint),
        None => Ok(()),
    }
}

fn sprint_before(before: &Option<Share>) -> Option<SprintNo>
    ensures { result ≡ sprint_before before.now }
{
    match before {
        Some(share) => share.sprint,
        None => None,
    }
}

/// Takes in what happened after this group: first the starts, and then the closes.
pub(crate) fn turn_all(burndown: &mut Burndown, origin: &Origin, number: u64)
    requires origin { MayBeLoaded (seen_in origin.now) }
    requires reserved { AreReserved (seen_in origin.now) burndown.old }
    requires charts { IsChartedBy (seen_in origin.now) number burndown.old (state_before number) }
    ensures charts { IsChartedBy (seen_in origin.now) number burndown.new
        (state_before (number + 1)) }
    ensures room { HasSameSlots burndown.old burndown.new }
{
    begin_all(burndown, origin, number);
    end_all(burndown, origin, number);
}

/// Begins each sprint that started after this group.
fn begin_all(burndown: &mut Burndown, origin: &Origin, number: u64)
    requires origin { MayBeLoaded (seen_in origin.now) }
    requires reserved { AreReserved (seen_in origin.now) burndown.old }
    requires charts { IsChartedBy (seen_in origin.now) number burndown.old (state_before number) }
    ensures charts { IsChartedBy (seen_in origin.now) number burndown.new (state_begun number) }
    ensures room { HasSameSlots burndown.old burndown.new }
{
    for place in 0..origin.sprints.count() {
        begin_one(burndown, origin, SprintNo(place + 1), number);
    }
}

/// Begins the sprint, where it started after this group.
fn begin_one(burndown: &mut Burndown, origin: &Origin, sprint: SprintNo, number: u64)
    // The sprint is there, and each one has room.
    requires origin { MayBeLoaded (seen_in origin.now) }
    requires there { IsThere (seen_in origin.now).sprints sprint.0 }
    requires reserved { AreReserved (seen_in origin.now) burndown.old }
    // Of the sprints that started after this group, those of smaller numbers have begun already.
    requires charts { IsChartedWithin (seen_in origin.now) number burndown.old
        (state_before number) (state_begun number) sprint.0 }
    // Now this one has too, and there is as much room as before.
    ensures charts { IsChartedWithin (seen_in origin.now) number burndown.new
        (state_before number) (state_begun number) (sprint.0 + 1) }
    ensures room { HasSameSlots burndown.old burndown.new }
{
    steps_of_histories();
    if starts_after(&state_of(&origin.sprints, sprint), number) {
        burndown.begin(sprint);
    }
}

/// Ends each sprint that closed after this group.
fn end_all(burndown: &mut Burndown, origin: &Origin, number: u64)
    requires origin { MayBeLoaded (seen_in origin.now) }
    requires charts { IsChartedBy (seen_in origin.now) number burndown.old (state_begun number) }
    ensures charts { IsChartedBy (seen_in origin.now) number burndown.new
        (state_before (number + 1)) }
    ensures room { HasSameSlots burndown.old burndown.new }
{
    for place in 0..origin.sprints.count() {
        end_one(burndown, origin, SprintNo(place + 1), number);
    }
}

/// Ends the sprint, where it closed after this group.
fn end_one(burndown: &mut Burndown, origin: &Origin, sprint: SprintNo, number: u64)
    requires origin { MayBeLoaded (seen_in origin.now) }
    requires there { IsThere (seen_in origin.now).sprints sprint.0 }
    requires charts { IsChartedWithin (seen_in origin.now) number burndown.old
        (state_begun number) (state_before (number + 1)) sprint.0 }
    ensures charts { IsChartedWithin (seen_in origin.now) number burndown.new
        (state_begun number) (state_before (number + 1)) (sprint.0 + 1) }
    ensures room { HasSameSlots burndown.old burndown.new }
{
    steps_of_histories();
    if closes_after(&state_of(&origin.sprints, sprint), number) {
        burndown.end(sprint);
    }
}

/// The sprint's state; that of one that isn't there is future.
fn state_of(sprints: &Sprints, sprint: SprintNo) -> SprintState
    ensures { result ≡ state_in sprints.now.sprints sprint.0 }
{
    match sprints.state(sprint) {
        Some(state) => state,
        None => SprintState::Future,
    }
}

/// Whether a sprint of this state started after that group.
fn starts_after(state: &SprintState, number: u64) -> bool
    ensures { result ≡ starts_after number state.now }
{
    match *state {
        SprintState::Future => false,
        SprintState::Active { change, .. } => change == number,
        SprintState::Closed { start_change, .. } => start_change == number,
    }
}

/// Whether a sprint of this state closed after that group.
fn closes_after(state: &SprintState, number: u64) -> bool
    ensures { result ≡ closes_after number state.now }
{
    match *state {
        SprintState::Future | SprintState::Active { .. } => false,
        SprintState::Closed { change, .. } => change == number,
    }
}

/// After which group above that one a sprint starts or closes next.
pub(crate) fn next_turn(sprints: &Sprints, after: u64) -> Option<u64>
    ensures next { (s : ℕ) → StaysUntil after result (state_in sprints.now.sprints s) }
    ensures ahead { IfSome result (λ next. after < next) }
{
    let mut next = None;
    for place in 0..sprints.count() {
        let state = state_of(sprints, SprintNo(place + 1));
        next = earlier(next, turn_of(&state, after));
    }
    next
}

/// After which group above that one a sprint of this state starts or closes next.
fn turn_of(state: &SprintState, after: u64) -> Option<u64>
    ensures next { StaysUntil after result state.now }
    ensures ahead { IfSome result (λ next. after < next) }
{
    match *state {
        SprintState::Future => None,
        SprintState::Active { change, .. } => later(change, after),
        SprintState::Closed {
            start_change,
            change,
            ..
        } => earlier(later(start_change, after), later(change, after)),
    }
}

/// The number, where it is above that one.
fn later(number: u64, after: u64) -> Option<u64>
    ensures next { (n : ℕ) → after < n → IsUpTo result n →
        nat_lt number n ≡ nat_lt number (after + 1) }
    ensures ahead { IfSome result (λ next. after < next) }
{
    if after < number { Some(number) } else { None }
}

/// The lower one, where there are two.
fn earlier(one: Option<u64>, other: Option<u64>) -> Option<u64>
    ensures up_to { (n : ℕ) → IsUpTo result n → IsUpTo one n × IsUpTo other n }
    ensures ahead { (n : ℕ) → IfSome one (λ next. n < next) →
        IfSome other (λ next. n < next) → IfSome result (λ next. n < next) }
{
    match (one, other) {
        (Some(first), Some(second)) if second < first => Some(second),
        (Some(first), _) => Some(first),
        (None, second) => second,
    }
}
