// The new issue that a create makes, with all that is kept of it.
ghost use Rattle.std.specs.Prelude.{◌≡◌, ◌<◌, ◌≤◌, ◌+◌, ◌∷◌, ◌++◌, Ok, length, string_bytes, IfOk, IfSome, OnOk, Some, true, false};
ghost use Rattle.std.specs.Option.{option_copied};
ghost use Rattle.tracker_limits.specs.Limits.{most_issues, text_reserve};
ghost use Rattle.fields.specs.SetupParts.{names_in};
ghost use Rattle.tracker_machine.specs.Checks.{history_bytes};
ghost use Rattle.tracker_machine.specs.Create.{created, opened, opening_history, filled};
ghost use Rattle.tracker_machine.specs.Effect.{MayName};
ghost use Rattle.tracker_machine.specs.Rank.{last_rank};
ghost use Rattle.tracker_machine.specs.Known.{next_key};
ghost use Rattle.tracker_state.specs.Check.{Checks, room_refusal};
ghost use Rattle.tracker_state.specs.Plan.{IsPrepared, id_of};
ghost use Rattle.issue_calls.specs.Create.{MayBegin, created_last, key_of_project};
ghost use Rattle.issue_calls.specs.Rows.{issue_row, external_ops};
ghost use Rattle.tracker_state.specs.Rows.{present_op, rank_op};
ghost use Rattle.tracker_filters.specs.Watched.{HasIssueRoom};
ghost use Rattle.tracker_work.specs.Seen.{share_now};
ghost use Rattle.tracker_work.specs.Work.{HasRoomFor};
ghost use Rattle.tracker_keeper.specs.Forms.{are_opening};

use crate::due::NewValues;
use crate::rows::row_ops;
use board::Place;
use change_history::{Change, Changes, Issue, Key};
use fields::{IssueNo, Memory, ProjectNo, Text, UserNo};
use rank_strings::Rank;
use std::alloc::Global;
use tracker_calls::{Answer, Refusal, ToldText};
use tracker_keeper::{Created, Row, RowOp, issue_text};
use tracker_state::no_room::refusal_of;
use tracker_state::{IssuePlan, NewExternal, Plan, Prepared, State, external_op, put_rank};
use wanted_values::bytes_of_changes;
use workflow::is_empty;

/// The issue with these values, behind all others, ready to come; or no rank is left there.
pub fn place_last(
    alloc: Global,
    state: &mut State,
    caller: UserNo,
    new: NewValues,
    external: Option<&str>,
) -> Result<Prepared, Refusal>
    // An issue may begin with these values, its author is a user, and the external id may name it.
    requires may { MayBegin state.old.machine new }
    requires author { caller.0 < length state.old.machine.setup.users }
    requires name { MayName state.old.machine.externals (option_copied external) }
    // Nothing changes yet: not the tracker, nor the filters and their verdicts.
    ensures same { state.new.machine ≡ state.old.machine }
    ensures table { state.new.watched.views.table ≡ state.old.watched.views.table }
    ensures filters { state.new.watched.filters ≡ state.old.watched.filters }
    // What is prepared is an issue of these values behind all others.
    ensures prepared { IsPrepared (created_last state.old.machine caller.0
        (option_copied external.entry) new) state.new result }
{
    let rank = last_rank(alloc, state)?;
    open(alloc, state, caller, new, rank, external)
}

// The rank behind all others.
fn last_rank(alloc: Global, state: &State) -> Result<Rank, Refusal>
    ensures rank { IfOk result (λ rank. last_rank state.now.machine ≡ Ok rank) }
    ensures check { Checks (room_refusal (last_rank state.now.machine)) result }
{
    match state.ranks().rank_for(None, Place::Last) {
        Ok(rank) => Ok(rank),
        Err(fault) => Err(refusal_of(alloc, fault)),
    }
}

// The issue with these values and this rank, ready to come.
fn open(
    alloc: Global,
    state: &mut State,
    caller: UserNo,
    values: NewValues,
    rank: Rank,
    external: Option<&str>,
) -> Result<Prepared, Refusal>
    // The rank is the one behind all others.
    requires given { last_rank state.old.machine ≡ Ok rank }
    // An issue may begin with these values, its author is a user, and the external id may name it.
    requires may { MayBegin state.old.machine values }
    requires author { caller.0 < length state.old.machine.setup.users }
    requires name { MayName state.old.machine.externals (option_copied external) }
    // Nothing changes yet: not the tracker, nor the filters and their verdicts.
    ensures same { state.new.machine ≡ state.old.machine }
    ensures table { state.new.watched.views.table ≡ state.old.watched.views.table }
    ensures filters { state.new.watched.filters ≡ state.old.watched.filters }
    // What is prepared is the new issue at that rank.
    ensures prepared { IsPrepared (created state.old.machine caller.0
        (key_of_project state.old.machine values.project)
        (option_copied external.entry) values.changes.items rank) state.new result }
{
    state.is_tracker();
    let (new, row) = new_issue(alloc, state, caller, values, rank, external)?;
    let room = state.take_row_room(alloc);
    let rows = issue_ops(alloc, room, state, row, &new)?;
    let told = ToldText::copy_of(alloc, new.key.as_str())?;
    reserve(state, &new)?;
    let answer = Answer::Create {
        already: false,
        change: state.next_change(),
        issue: told,
    };
    Ok(Prepared::Make {
        plan: Plan::Issue(new),
        answer,
        rows,
    })
}

// Makes room for the issue, its external id, its rank and its verdicts, and for a row of its sprint.
fn reserve(state: &mut State, new: &IssuePlan) -> Result<(), Memory>
    // The tracker stays as it is.
    ensures machine { state.new.machine ≡ state.old.machine }
    // Where memory sufficed, each part of the new issue finds room.
    ensures room { OnOk result (1 ≤ state.new.room) }
    ensures ranks { OnOk result (length state.new.machine.order < state.new.ranks_room) }
    ensures cells { OnOk result (HasIssueRoom state.new.watched) }
    ensures rows { OnOk result (HasRoomFor state.new.work
        (share_now state.new.work.seen new.now.issue.history).sprint) }
    ensures externals { OnOk result (IfSome new.now.external (λ e. 1 ≤ state.new.externals_room)) }
    // The filters and their verdicts stay.
    ensures table { state.new.watched.views.table ≡ state.old.watched.views.table }
    ensures filters { state.new.watched.filters ≡ state.old.watched.filters }
{
    let sprint = state.work().share(&new.issue).sprint;
    reserve_external(state, &new.external)?;
    state.reserve_rows(None, sprint)?;
    state.reserve_issue()
}

// Makes room for the external id, if there is one.
fn reserve_external(state: &mut State, external: &Option<NewExternal>) -> Result<(), Memory>
    ensures room { OnOk result (IfSome external.now (λ e. 1 ≤ state.new.externals_room)) }
    ensures same { state.new ≡ record state.old { externals_room = state.new.externals_room } }
{
    match external {
        Some(_) => state.reserve_external(),
        None => Ok(()),
    }
}

// The operations that keep a new issue, its rank and its external id, in the room of these, which they take the place of.
fn issue_ops(
    alloc: Global,
    room: Vec<RowOp>,
    state: &State,
    row: Row,
    new: &IssuePlan,
) -> Result<Vec<RowOp>, Memory>
    ensures { IfOk result (λ ops. ops.items
        ≡ present_op state.now.machine.balance (state.now.machine.change + 1)
        state.now.machine.moment
        ∷ RowOp.Put row ∷ rank_op new.now.issue.history.no new.now.rank
        ∷ external_ops new.now.issue.history.no (id_of new.now.external)) }
{
    let mut ops = row_ops(
        alloc,
        room,
        state.balance(),
        state.next_change(),
        state.moment(),
        row,
    )?;
    put_rank(alloc, &mut ops, new.issue.no(), &new.rank)?;
    put_external(alloc, &mut ops, new.issue.no(), &new.external)?;
    Ok(ops)
}

// Puts the row of an external id behind other operations, if there is one.
fn put_external(
    alloc: Global,
    ops: &mut Vec<RowOp>,
    issue: IssueNo,
    external: &Option<NewExternal>,
) -> Result<(), Memory>
    ensures { OnOk result (ops.new.items
        ≡ ops.old.items ++ external_ops issue (id_of external.now)) }
{
    let Some(external) = external else {
        return Ok(());
    };
    let op = external_op(alloc, issue, external.id.as_str())?;
    ops.push(op)?;
    Ok(())
}

// The external id that is given, as the new issue has it.
fn new_external(alloc: Global, external: Option<&str>) -> Result<Option<NewExternal>, Memory>
    ensures id { IfOk result (λ new. id_of new ≡ option_copied external.entry) }
    ensures text { IfOk result (λ new. IfSome new (λ e. string_bytes e.text ≡ e.id)) }
{
    let Some(id) = external else {
        return Ok(None);
    };
    let text = String::from_str(alloc, id)?;
    let id = Text::copy_of(alloc, id)?;
    Ok(Some(NewExternal { id, text }))
}

// The new issue with all that is kept of it, and its row.
fn new_issue(
    alloc: Global,
    state: &State,
    caller: UserNo,
    values: NewValues,
    rank: Rank,
    external: Option<&str>,
) -> Result<(IssuePlan, Row), Memory>
    requires { MayBegin state.now.machine values }
    // The issue is the tracker's next one, opens with these values, and has its project's next key.
    ensures history { IfOk result (λ r. r.0.issue.history ≡ opened state.now.machine caller.0
        (key_of_project state.now.machine values.project) (filled values.changes.items)) }
    ensures key { IfOk result (λ r. string_bytes r.0.key
        ≡ next_key state.now.machine (key_of_project state.now.machine values.project)) }
    ensures project { IfOk result (λ r. r.0.project ≡ values.project) }
    // It has the rank that is given, and its text is counted, which is no more than a call may
    // bring.
    ensures rank { IfOk result (λ r. r.0.rank ≡ rank) }
    ensures bytes { IfOk result (λ r. r.0.bytes ≡ history_bytes r.0.issue.history) }
    ensures light { IfOk result (λ r. r.0.bytes ≤ text_reserve) }
    // A row can list its values.
    ensures listed { IfOk result (λ r.
        are_opening (names_in state.now.machine.setup) (filled values.changes.items) ≡ true) }
    // It has the external id that is given, if there is one.
    ensures external { IfOk result (λ r. id_of r.0.external ≡ option_copied external.entry) }
    ensures text { IfOk result (λ r. IfSome r.0.external (λ e. string_bytes e.text ≡ e.id)) }
    // The row keeps what it opens with.
    ensures row { IfOk result (λ r. r.1 ≡ issue_row (names_in state.now.machine.setup)
        (opened state.now.machine caller.0 (key_of_project state.now.machine values.project)
        (filled values.changes.items))) }
{
    let NewValues { project, changes } = values;
    let opening = filled(changes);
    let bytes = bytes_of_changes(opening.as_slice());
    let external = new_external(alloc, external)?;
    let (issue, key, row) = issue_in(alloc, state, caller, project, opening)?;
    let new = IssuePlan {
        issue,
        project,
        key,
        bytes,
        rank,
        external,
    };
    Ok((new, row))
}

// The issue of the project that opens with these values, the text of its key, and its row.
fn issue_in(
    alloc: Global,
    state: &State,
    caller: UserNo,
    project: ProjectNo,
    opening: Changes,
) -> Result<(Issue, String, Row), Memory>
    // There is room for one issue more, its project is there, and a row can list its values.
    requires few { length state.now.machine.histories < most_issues }
    requires there { project.0 < length state.now.machine.setup.project }
    requires listed { are_opening (names_in state.now.machine.setup) opening ≡ true }
    // Issue, key and row all tell of the tracker's next issue, which opens with these values.
    ensures history { IfOk result (λ r. r.0.history ≡ opened state.now.machine caller.0
        (key_of_project state.now.machine project) opening) }
    ensures key { IfOk result (λ r. string_bytes r.1
        ≡ next_key state.now.machine (key_of_project state.now.machine project)) }
    ensures row { IfOk result (λ r. r.2 ≡ issue_row (names_in state.now.machine.setup)
        (opened state.now.machine caller.0 (key_of_project state.now.machine project) opening)) }
{
    let key = next_key(alloc, state, project)?;
    let row = row_of(alloc, state, caller, &key, opening.as_slice())?;
    let text = String::from_str(alloc, key.as_str())?;
    let issue = opened(alloc, state, caller, key, opening)?;
    Ok((issue, text, row))
}

// The number of the next issue.
fn next_no(state: &State) -> IssueNo
    requires { length state.now.machine.histories < most_issues }
    ensures { result.0 ≡ length state.now.machine.histories + 1 }
{
    IssueNo(state.issue_count() as u32 + 1)
}

// The row of the issue with these values.
#[tactic(auto, using(tracker_keeper::proofs::IssuesBack::held_values), unfolding(tracker_keeper::specs::Bodies::body_text))]
fn row_of(
    alloc: Global,
    state: &State,
    caller: UserNo,
    key: &Key,
    values: &[Change],
) -> Result<Row, Memory>
    requires few { length state.now.machine.histories < most_issues }
    requires listed { are_opening (names_in state.now.machine.setup) values.now ≡ true }
    ensures { IfOk result (λ row. row ≡ issue_row (names_in state.now.machine.setup)
        (opening_history state.now.machine caller.0 key.now values.now)) }
{
    let no = next_no(state);
    let created = Created {
        key,
        change: state.next_change(),
        at: state.moment(),
        author: caller,
        values,
    };
    let body = issue_text(alloc, state.setup(), &created)?;
    Ok(Row {
        kind: 3,
        no: u64::from(no.0),
        body,
    })
}

// The issue with these values.
fn opened(
    alloc: Global,
    state: &State,
    caller: UserNo,
    key: Key,
    opening: Changes,
) -> Result<Issue, Memory>
    requires few { length state.now.machine.histories < most_issues }
    ensures { IfOk result (λ issue. issue.history
        ≡ opening_history state.now.machine caller.0 key opening) }
{
    let no = next_no(state);
    let change = state.next_change();
    Issue::open(alloc, no, key, change, state.moment(), caller, opening)
}

// The key of the project's next issue.
fn next_key(alloc: Global, state: &State, project: ProjectNo) -> Result<Key, Memory>
    requires { project.0 < length state.now.machine.setup.project }
    ensures { IfOk result (λ key. key
        ≡ next_key state.now.machine (key_of_project state.now.machine project)) }
{
    let count = state.count_in(project);
    Key::of(alloc, state.project_key(project), count + 1)
}

// The changes that aren't to nothing. They stay in their list, which has room for little more.
fn filled(changes: Vec<Change>) -> Changes
    ensures { result ≡ filled changes.items }
{
    let mut kept = changes;
    keep_filled(&mut kept);
    Changes::of(kept)
}

fn keep_filled(changes: &mut Vec<Change>)
    ensures { changes.new.items ≡ filled changes.old.items }
{
    changes.retain(|change| !is_empty(&change.to));
}
