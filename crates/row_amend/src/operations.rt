// The operations that amend the rows of a tracker.
ghost use Rattle.std.specs.Prelude.{◌≡◌, ◌<◌, ◌++◌, length, IfOk, OnOk};
ghost use Rattle.fields.specs.SetupParts.{parts};
ghost use Rattle.tracker_machine.specs.Kept.{opening_ops};
ghost use Rattle.tracker_machine.specs.Machine.{opening};
ghost use Rattle.amended_rows.specs.Amended.{amending_ops, member_drops};
ghost use Rattle.row_amend.specs.Faults.{AreSmall};

use crate::kept_members::with_kept_members;
use fields::laws::keeps_what_was_read;
use fields::{Memory, Setup};
use std::alloc::Global;
use tracker_keeper::RowOp;
use tracker_state::{State, opening_ops, put_present};

/// The operations that amend the rows of the tracker whose state this is, so that it has this setup.
#[tactic(auto, using(crate::proofs::Small::small_amending, crate::proofs::Small::some_amending))]
pub(crate) fn amending_ops(alloc: Global, state: &State, setup: Setup) -> Result<Vec<RowOp>, Memory>
    ensures ops { IfOk result (λ ops. ops.items
        ≡ amending_ops state.now.machine setup.text (parts setup)) }
    ensures numbers { IfOk result (λ ops. AreSmall ops.items) }
    ensures some { IfOk result (λ ops. 0 < length ops.items) }
{
    state.is_tracker();
    keeps_what_was_read(&setup);
    made_ops(alloc, state, setup)
}

// The same: all members go, the rows of a new tracker come, and it stands where it stood.
#[tactic(auto, unfolding(amended_rows::specs::Amended::amending_ops, tracker_keeper::specs::Bodies::body_text))]
fn made_ops(alloc: Global, state: &State, setup: Setup) -> Result<Vec<RowOp>, Memory>
    ensures { IfOk result (λ ops. ops.items
        ≡ amending_ops state.now.machine setup.text (parts setup)) }
{
    let kept = with_kept_members(alloc, setup, state.setup())?;
    let mut ops = member_drops(alloc, state.setup().group.as_slice().len())?;
    put_opening(alloc, &mut ops, &kept)?;
    drop(kept);
    put_present(
        alloc,
        &mut ops,
        state.balance(),
        state.change(),
        state.moment(),
    )?;
    Ok(ops)
}

// The members of this many groups are told no more.
#[tactic(auto, using(crate::proofs::Small::drops_more))]
fn member_drops(alloc: Global, count: usize) -> Result<Vec<RowOp>, Memory>
    ensures { IfOk result (λ ops. ops.items ≡ member_drops count) }
{
    let mut ops = Vec::with_capacity(alloc, count)?;
    for place in 0..count {
        ops.push(RowOp::Drop {
            kind: 10,
            no: place as u64 + 1,
        })?;
    }
    Ok(ops)
}

// Puts the rows of a new tracker of the setup behind other operations.
fn put_opening(alloc: Global, ops: &mut Vec<RowOp>, setup: &Setup) -> Result<(), Memory>
    ensures { OnOk result (ops.new.items
        ≡ ops.old.items ++ opening_ops (opening setup.now.text (parts setup.now))) }
{
    let mut more = opening_ops(alloc, setup)?;
    ops.append(&mut more)?;
    Ok(())
}
