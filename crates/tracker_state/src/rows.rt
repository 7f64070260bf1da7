// The operations that keep what a call makes.
ghost use Rattle.std.specs.Prelude.{◌≡◌, ◌≤◌, ◌∷◌, [], true, length, IfOk, OnOk, ◌++◌};
ghost use Rattle.field_values.specs.GroupMembers.{is_user_list};
ghost use Rattle.fields.specs.SetupParts.{names, parts};
ghost use Rattle.tracker_machine.specs.Machine.{opening};
ghost use Rattle.tracker_keeper.specs.Kept.{IsPart};
ghost use Rattle.tracker_machine.specs.Kept.{put_part, put_parts, members_from, opening_ops, migrating_ops};
ghost use Rattle.tracker_state.specs.Rows.{present_op, rank_op, external_op, members_op};

use crate::state::State;
use fields::laws::keeps_what_was_read;
use fields::{GroupNo, IssueNo, Memory, Moment, Setup, Text, UserNo};
use rank_balancer::Balance;
use rank_strings::Rank;
use std::alloc::Global;
use tracker_keeper::{Format, Part, Row, RowOp, body_of, present_text};
use tracker_setting::copy_members;

// Puts the row of where the tracker stands.
fn present_op(alloc: Global, balance: Balance, change: u64, moment: Moment) -> Result<RowOp, Memory>
    ensures { IfOk result (λ op. op ≡ present_op balance change moment) }
{
    let body = present_text(alloc, balance, change, Format::Second, moment)?;
    Ok(RowOp::Put(Row {
        kind: 2,
        no: 0,
        body,
    }))
}

/// Puts the row of an issue's rank.
pub fn rank_op(alloc: Global, issue: IssueNo, rank: &Rank) -> Result<RowOp, Memory>
    ensures { IfOk result (λ op. op ≡ rank_op issue rank.now) }
{
    let text = rank.text(alloc)?;
    Ok(RowOp::Put(Row {
        kind: 5,
        no: u64::from(issue.0),
        body: Text::of(text.into_string()),
    }))
}

/// Puts the row of an issue's external id.
pub fn external_op(alloc: Global, issue: IssueNo, id: &str) -> Result<RowOp, Memory>
    ensures { IfOk result (λ op. op ≡ external_op issue id.now) }
{
    let body = Text::copy_of(alloc, id)?;
    Ok(RowOp::Put(Row {
        kind: 6,
        no: u64::from(issue.0),
        body,
    }))
}

// Puts the row of a part.
fn part_op(alloc: Global, setup: &Setup, part: &Part) -> Result<RowOp, Memory>
    requires { IsPart (parts setup.now) part.now }
    ensures { IfOk result (λ op. op ≡ put_part (names setup.now) part.now) }
{
    let body = body_of(alloc, part, setup)?;
    Ok(RowOp::Put(Row {
        kind: part.kind(),
        no: part.number(),
        body,
    }))
}

/// Puts the row of the members of a group.
#[tactic(auto, unfolding(tracker_keeper::specs::Kept::IsPart))]
pub fn members_op(
    alloc: Global,
    setup: &Setup,
    group: GroupNo,
    members: &[UserNo],
) -> Result<RowOp, Memory>
    requires from_one { 1 ≤ group.0 }
    requires there { group.0 ≤ length setup.now.group }
    requires listed { is_user_list (length setup.now.users) members.now ≡ true }
    ensures { IfOk result (λ op. op ≡ members_op (parts setup.now) group members.now) }
{
    let members = copy_members(alloc, members)?;
    part_op(alloc, setup, &Part::Members { group, members })
}

// Puts the rows of the members of each group behind other operations.
fn put_members(alloc: Global, ops: &mut Vec<RowOp>, setup: &Setup) -> Result<(), Memory>
    ensures { OnOk result (ops.new.items
        ≡ ops.old.items ++ put_parts (parts setup.now) (members_from 1 setup.now.group)) }
{
    keeps_what_was_read(setup);
    let mut number = GroupNo(1);
    for group in setup.group.as_slice() {
        let op = members_op(alloc, setup, number, group.members.as_slice())?;
        ops.push(op)?;
        number.0 += 1;
    }
    Ok(())
}

/// The operations that keep a new tracker of this setup.
#[tactic(auto, unfolding(tracker_machine::specs::Kept::opening_ops, tracker_keeper::specs::Bodies::body_text))]
pub fn opening_ops(alloc: Global, setup: &Setup) -> Result<Vec<RowOp>, Memory>
    ensures { IfOk result (λ ops. ops.items
        ≡ opening_ops (opening setup.now.text (parts setup.now))) }
{
    let body = setup.text.copy(alloc)?;
    let op = present_op(alloc, Balance::Idle(0), 0, Moment::first())?;
    let mut ops = Vec::new(alloc);
    ops.push(RowOp::Put(Row {
        kind: 1,
        no: 0,
        body,
    }))?;
    ops.push(op)?;
    put_members(alloc, &mut ops, setup)?;
    Ok(ops)
}

/// The operations that make rows of the second format of a tracker's rows of the first one.
#[tactic(auto, unfolding(tracker_machine::specs::Kept::migrating_ops, tracker_keeper::specs::Bodies::body_text))]
pub fn migrating_ops(alloc: Global, state: &State) -> Result<Vec<RowOp>, Memory>
    ensures { IfOk result (λ ops. ops.items ≡ migrating_ops state.now.machine) }
{
    let mut ops = present_ops(alloc, state.balance(), state.change(), state.moment())?;
    put_members(alloc, &mut ops, state.setup())?;
    Ok(ops)
}

/// The operation that keeps where the tracker stands.
pub fn present_ops(
    alloc: Global,
    balance: Balance,
    change: u64,
    moment: Moment,
) -> Result<Vec<RowOp>, Memory>
    ensures { IfOk result (λ ops. ops.items ≡ present_op balance change moment ∷ []) }
{
    let mut ops = Vec::new(alloc);
    put_present(alloc, &mut ops, balance, change, moment)?;
    Ok(ops)
}

/// Puts the row of where the tracker stands behind other operations.
pub fn put_present(
    alloc: Global,
    ops: &mut Vec<RowOp>,
    balance: Balance,
    change: u64,
    moment: Moment,
) -> Result<(), Memory>
    ensures { OnOk result (ops.new.items
        ≡ ops.old.items ++ present_op balance change moment ∷ []) }
{
    let op = present_op(alloc, balance, change, moment)?;
    ops.push(op)?;
    Ok(())
}

/// Puts the row of an issue's rank behind other operations.
pub fn put_rank(
    alloc: Global,
    ops: &mut Vec<RowOp>,
    issue: IssueNo,
    rank: &Rank,
) -> Result<(), Memory>
    ensures { OnOk result (ops.new.items ≡ ops.old.items ++ rank_op issue rank.now ∷ []) }
{
    let op = rank_op(alloc, issue, rank)?;
    ops.push(op)?;
    Ok(())
}
