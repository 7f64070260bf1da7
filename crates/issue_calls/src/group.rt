// A change group of an issue, as edits and transitions make it.
ghost use Rattle.std.specs.Prelude.{◌≡◌, ◌≢◌, ◌<◌, ◌≤◌, ◌+◌, ◌∷◌, ℕ, [], length, slice_get, IfOk, IfSome, OnOk, Ok, Some};
ghost use Rattle.std.specs.List.{All};
ghost use Rattle.change_history.specs.History.{present, updated, last_change, MayAdd};
ghost use Rattle.field_forms.specs.Known.{Names};
ghost use Rattle.field_values.specs.declared.numbers.FieldNo.{FieldNo};
ghost use Rattle.fields.specs.SetupParts.{names_in, names};
ghost use Rattle.tracker_keeper.specs.Forms.{IsGroupEntry};
ghost use Rattle.tracker_limits.specs.Limits.{entries_reserve};
ghost use Rattle.tracker_machine.specs.Effect.Effect.{NewGroup};
ghost use Rattle.tracker_machine.specs.Group.{next_group};
ghost use Rattle.tracker_machine.specs.Kept.{ops_of};
ghost use Rattle.tracker_machine.specs.Meaning.{Meaning};
ghost use Rattle.tracker_machine.specs.SprintRules.{BringsSprints};
ghost use Rattle.tracker_machine.specs.Tracker.{AllEntriesFit, Holds, MayGroup};
ghost use Rattle.workflow.specs.Difference.{AreNews, entries_of};
ghost use Rattle.workflow.specs.Laws.{AllFit};
ghost use Rattle.wanted_values.specs.InSprints.{AreOfSprints};
ghost use Rattle.wanted_values.specs.Weight.{AllLight, GroupsAreLight};
ghost use Rattle.tracker_state.specs.Plan.{GroupFits, IsPrepared};
ghost use Rattle.tracker_state.specs.Rows.{present_op};
ghost use Rattle.issue_calls.specs.Group.{ComesToGroup, IsDueGroup, IsDueThere, IsGroupOf, MayChange, group_answer};
ghost use Rattle.issue_calls.specs.Rows.{group_row};

use crate::rows::row_ops;
use change_history::{Change, Entries, Entry, Group, Issue};
use fields::{Memory, Moment, Setup, SprintNo, UserNo};
use std::alloc::Global;
use tracker_calls::{Answer, Refusal, ToldText};
use tracker_keeper::{Row, RowOp, group_text};
use tracker_state::{Found, GroupPlan, Plan, Prepared, State};
use wanted_values::{bytes_of_entries, fitting_is_light, sprint_after};

/// A call that changes an issue.
#[derive(Clone, Copy)]
pub enum GroupCall {
    Edit,
    Transition,
}

/// A group that is decided, and what it needs: its row, and a row more of each sprint that its issue is in before and after it.
#[derive(Drop)]
pub struct DueGroup {
    pub plan: GroupPlan,
    pub row: Row,
    pub before: Option<SprintNo>,
    pub after: Option<SprintNo>,
}

/// The group of these changes of the issue; no change makes no group.
pub fn due_group(
    alloc: Global,
    state: &State,
    caller: UserNo,
    found: Found<'_>,
    net: Vec<Change>,
) -> Result<Option<DueGroup>, Memory>
    requires { MayChange state.now.machine caller.0 found.place found.issue.now.history net.items }
    ensures { IfOk result (IsGroupOf state.now.machine caller.0 found.entry.place
        found.entry.issue.now.history net.items) }
{
    if net.is_empty() {
        return Ok(None);
    }
    let new = due_of_some(alloc, state, caller, found, net)?;
    Ok(Some(new))
}

// The group of some changes.
fn due_of_some(
    alloc: Global,
    state: &State,
    caller: UserNo,
    found: Found<'_>,
    net: Vec<Change>,
) -> Result<DueGroup, Memory>
    requires may { MayChange state.now.machine caller.0 found.place found.issue.now.history
        net.items }
    requires some { net.items ≢ [] }
    ensures place { IfOk result (λ new. new.plan.place ≡ found.entry.place) }
    ensures group { IfOk result (λ new. new.plan.group
        ≡ next_group state.now.machine caller.0 found.entry.issue.now.history net.items) }
    ensures due { IfOk result (IsDueGroup state.now.machine found.entry.issue.now.history) }
{
    let group = group_of(alloc, state, caller, found, net)?;
    let bytes = bytes_of_entries(group.entries.as_slice());
    let row = row_of(alloc, state, found, &group)?;
    let before = state.work().share(found.issue).sprint;
    let after = sprint_after(before, group.entries.as_slice());
    let plan = GroupPlan {
        place: found.place,
        group,
        bytes,
    };
    Ok(DueGroup {
        plan,
        row,
        before,
        after,
    })
}

/// The group of a call that names the issue so is ready to come, where there is one: there is room for it, and the operations that
/// keep it are there.
pub fn ready(
    alloc: Global,
    state: &mut State,
    call: GroupCall,
    name: &str,
    due: Option<DueGroup>,
) -> Result<Prepared, Refusal>
    requires { IfSome due (IsDueThere state.old.machine) }
    // Nothing changes yet: not the tracker, nor the filters and their verdicts.
    ensures same { state.new.machine ≡ state.old.machine }
    ensures table { state.new.watched.views.table ≡ state.old.watched.views.table }
    ensures filters { state.new.watched.filters ≡ state.old.watched.filters }
    // What is prepared is whatever meaning came to this group, or to none.
    ensures prepared { (meaning : Meaning)
        → ComesToGroup state.old.machine (group_answer call name.now) meaning (Ok due)
        → IsPrepared meaning state.new result }
{
    let told = ToldText::copy_of(alloc, name)?;
    let Some(new) = due else {
        return Ok(Prepared::Tell(answer_of(call, told, None)));
    };
    reserve(state, &new)?;
    let (plan, rows) = kept(alloc, state, new)?;
    let answer = told_group(call, told, &plan);
    Ok(Prepared::Make {
        plan: Plan::Group(plan),
        answer,
        rows,
    })
}

fn answer_of(call: GroupCall, issue: ToldText, change: Option<u64>) -> Answer
    ensures { result ≡ group_answer call issue change }
{
    match call {
        GroupCall::Edit => Answer::Edit { change, issue },
        GroupCall::Transition => Answer::Transition { change, issue },
    }
}

// The answer of a call that made this group.
fn told_group(call: GroupCall, issue: ToldText, new: &GroupPlan) -> Answer
    ensures { result ≡ group_answer call issue (Some new.now.group.change) }
{
    answer_of(call, issue, Some(new.group.change))
}

// The group, and the operations that keep it.
fn kept(alloc: Global, state: &mut State, new: DueGroup) -> Result<(GroupPlan, Vec<RowOp>), Memory>
    requires { IsDueThere state.old.machine new }
    // Nothing changes, and the plan stays as it was decided.
    ensures same { state.new ≡ state.old }
    ensures plan { IfOk result (λ r. r.0 ≡ new.plan) }
    // The operations are those that keep such a group.
    ensures rows { IfOk result (λ r. r.1.items
        ≡ ops_of (NewGroup new.plan.place new.plan.group) state.old.machine) }
{
    let DueGroup {
        plan,
        row,
        before: _,
        after: _,
    } = new;
    let room = state.take_row_room(alloc);
    let rows = group_ops(alloc, room, state, row, &plan)?;
    Ok((plan, rows))
}

// The operations that keep a group with this row, in the room of these.
fn group_ops(
    alloc: Global,
    room: Vec<RowOp>,
    state: &State,
    row: Row,
    new: &GroupPlan,
) -> Result<Vec<RowOp>, Memory>
    ensures { IfOk result (λ ops. ops.items ≡ present_op state.now.machine.balance
        new.now.group.change new.now.group.at ∷ RowOp.Put row ∷ []) }
{
    let group = &new.group;
    row_ops(alloc, room, state.balance(), group.change, group.at, row)
}

// Makes room for the group's entries, and for a row of each sprint that its issue is in before and after them.
fn reserve(state: &mut State, new: &DueGroup) -> Result<(), Memory>
    requires { IsDueThere state.old.machine new.now }
    // The tracker stays as it is.
    ensures machine { state.new.machine ≡ state.old.machine }
    // Where memory sufficed, the group finds room.
    ensures fits { OnOk result (GroupFits state.new new.now.plan) }
    // The filters and their verdicts stay.
    ensures table { state.new.watched.views.table ≡ state.old.watched.views.table }
    ensures filters { state.new.watched.filters ≡ state.old.watched.filters }
{
    state.reserve_rows(new.before, new.after)?;
    state.reserve_entries(new.plan.place, new.plan.group.entries.as_slice().len())
}

// The row of a group of the issue.
fn row_of(alloc: Global, state: &State, found: Found<'_>, group: &Group) -> Result<Row, Memory>
    requires there { slice_get state.now.machine.histories found.place
        ≡ Some found.issue.now.history }
    requires may { MayGroup state.now.machine found.place group.now }
    ensures { IfOk result (λ row. row ≡ group_row (names_in state.now.machine.setup)
        found.entry.issue.now.history group.now) }
{
    state.is_tracker();
    issue_row_of(alloc, state.setup(), found.issue, group)
}

#[tactic(auto, unfolding(tracker_keeper::specs::Bodies::body_text))]
fn issue_row_of(alloc: Global, setup: &Setup, issue: &Issue, group: &Group) -> Result<Row, Memory>
    requires { All (IsGroupEntry (names setup.now) group.now.change group.now.at group.now.author)
        group.now.entries }
    ensures { IfOk result (λ row. row ≡ group_row (names setup.now) issue.now.history group.now) }
{
    let body = group_text(alloc, setup, issue.no(), group)?;
    Ok(Row {
        kind: 4,
        no: group.change,
        body,
    })
}

// The change group of some changes.
fn group_of(
    alloc: Global,
    state: &State,
    caller: UserNo,
    found: Found<'_>,
    net: Vec<Change>,
) -> Result<Group, Memory>
    requires may { MayChange state.now.machine caller.0 found.place found.issue.now.history
        net.items }
    requires some { net.items ≢ [] }
    // The group is the tracker's next change, by the caller at the present moment, with the entries
    // that these changes make.
    ensures change { IfOk result (λ group. group.change ≡ state.now.machine.change + 1) }
    ensures at { IfOk result (λ group. group.at ≡ state.now.machine.moment) }
    ensures author { IfOk result (λ group. group.author ≡ caller) }
    ensures entries { IfOk result (λ group. group.entries
        ≡ entries_of (present found.entry.issue.now.history) (state.now.machine.change + 1)
        state.now.machine.moment caller net.items) }
    // It brings no more entries and no more text than a call may.
    ensures few { IfOk result (λ group. length group.entries ≤ entries_reserve) }
    ensures light { IfOk result (λ group. AllLight group.entries) }
    // Its values fit and name no missing sprint, and the issue may add it.
    ensures fitting { IfOk result (λ group.
        AllEntriesFit (names_in state.now.machine.setup) group.entries) }
    ensures sprints { IfOk result (λ group.
        BringsSprints (length state.now.machine.sprints) group.entries) }
    ensures may { IfOk result (λ group. MayAdd found.entry.issue.now.history
        group.change group.at group.author group.entries) }
{
    state.is_tracker();
    let change = state.next_change();
    let at = state.moment();
    let entries = net_entries(alloc, found.issue, change, at, caller, net)?;
    fitting_is_light(state.setup());
    Ok(Group {
        change,
        at,
        author: caller,
        entries,
    })
}

// The entries of a group that makes these changes, which the issue may add.
fn net_entries(
    alloc: Global,
    issue: &Issue,
    change: u64,
    at: Moment,
    author: UserNo,
    net: Vec<Change>,
) -> Result<Entries, Memory>
    // The group comes after all that the issue has, and there are changes, each to another value
    // than the present one.
    requires timely { updated issue.now.history ≤ at }
    requires earlier { last_change issue.now.history.change issue.now.history.entries < change }
    requires news { AreNews (present issue.now.history) 0 net.items }
    requires some { net.items ≢ [] }
    // The entries are those of these changes.
    ensures entries { IfOk result (λ entries. entries
        ≡ entries_of (present issue.now.history) change at author net.items) }
    // Whichever setup the changes fit, the entries fit it too, bring no missing sprint, and are as
    // few and as light as a call's may be.
    ensures few { IfOk result (λ entries. (names : Names) → AllFit names net.items →
        length names.fields ≤ 30 → length entries ≤ entries_reserve) }
    ensures fitting { IfOk result (λ entries. (names : Names) → AllFit names net.items →
        AllEntriesFit names entries) }
    ensures sprints { IfOk result (λ entries. (count : ℕ) →
        AreOfSprints count net.items → BringsSprints count entries) }
    ensures light { IfOk result (λ entries. (names : Names) → GroupsAreLight names →
        ((f : FieldNo) → Holds names f (present issue.now.history f)) → AllFit names net.items →
        AllLight entries) }
    // The issue may add them.
    ensures may { IfOk result (λ entries. MayAdd issue.now.history change at author entries) }
{
    entries_of(alloc, issue, change, at, author, net)
}

// The entries of a group that makes these changes.
fn entries_of(
    alloc: Global,
    issue: &Issue,
    change: u64,
    at: Moment,
    author: UserNo,
    changes: Vec<Change>,
) -> Result<Entries, Memory>
    ensures { IfOk result (λ entries. entries
        ≡ entries_of (present issue.now.history) change at author changes.items) }
{
    let mut entries = Entries::with_capacity(alloc, changes.len())?;
    for next in changes {
        let Change { field, to } = next;
        let from = issue.value(field).copy(alloc)?;
        entries.push(Entry {
            change,
            at,
            author,
            field,
            from,
            to,
        })?;
    }
    Ok(entries)
}
