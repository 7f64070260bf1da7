// Lists that a desk answers.
ghost use Rattle.std.specs.Prelude.{◌≢◌, ◌≤◌, ◌+◌, IfErr, OnOk};
ghost use Rattle.tracker_core.specs.Desk.{due_in};
ghost use Rattle.tracker_machine.specs.Step.{IsStep, evaluations};
ghost use Rattle.written_shows.specs.Shows.{IsReplyText};

use crate::written_list::write_issue_list;
use fields::{Names, Steps};
use std::alloc::Global;
use std::sync::ledger::Ledger;
use tracker_calls::{Call, Part, Refusal, Reply, Thing};
use tracker_core::{Desk, list_fault};
use tracker_keeper::Keeper;
use tracker_state::{malformed, unknown};

/// Puts the text of the reply to a list by that user in place of what `answer` held, in its room. The reply is that of the desk's
/// `call`, which asks queries as often, and nothing that it tells is copied.
#[tactic(auto, using(crate::proofs::Lists::told_list, crate::proofs::Lists::refused_list, crate::proofs::Lists::refused_list_stranger, crate::proofs::Lists::refused_list_fault, crate::proofs::Lists::list_within))]
pub fn write_list<L: Ledger, P: Keeper + Drop>(
    alloc: Global,
    desk: &Desk<P>,
    caller: &str,
    jql: &str,
    fields: &Option<Names>,
    part: Part,
    steps: &mut Steps<L>,
    answer: &mut Vec<u8>,
) -> Result<(), Refusal>
    ensures told { OnOk result (IsReplyText desk.now.machine caller.now
        (Call.List jql.now fields.now part) answer.new.items) }
    ensures refused { IfErr result (λ r. IsStep desk.now.machine caller.now
        (Call.List jql.now fields.now part) (Reply.Refused r) desk.now.machine) }
    ensures unasked { IfErr result (λ r. r ≢ Refusal.Keeper) }
    ensures steps { steps.new ≤ steps.old + evaluations (due_in desk.now.cells) desk.now.machine
        caller.now (Call.List jql.now fields.now part) }
{
    let state = desk.state();
    if let Some(member) = list_fault(fields, part) {
        return Err(malformed(alloc, member));
    }
    let Some(user) = state.user_named(caller) else {
        return Err(unknown(alloc, Thing::User, caller));
    };
    write_issue_list(alloc, state, user, jql, fields, part, steps, answer)
}
