// Shows that a desk answers.
ghost use Rattle.std.specs.Prelude.{◌≢◌, IfErr, OnOk};
ghost use Rattle.tracker_machine.specs.Step.{IsStep};
ghost use Rattle.written_shows.specs.Shows.{IsReplyText};

use crate::written_show::write_issue_show;
use std::alloc::Global;
use tracker_calls::{Call, Refusal, Reply, Thing};
use tracker_core::Desk;
use tracker_keeper::Keeper;
use tracker_state::unknown;

/// Puts the text of the reply to a show by that user in place of what `answer` held, in its room, which stays with it even
/// if the show is refused. The reply is that of the desk's `call`, and nothing that it tells is copied.
#[tactic(auto, using(crate::proofs::Shows::told_show, crate::proofs::Shows::refused_show, crate::proofs::Shows::refused_stranger))]
pub fn write_show<P: Keeper + Drop>(
    alloc: Global,
    desk: &Desk<P>,
    caller: &str,
    issue: &str,
    answer: &mut Vec<u8>,
) -> Result<(), Refusal>
    ensures told { OnOk result (IsReplyText desk.now.machine caller.now
        (Call.Show issue.now) answer.new.items) }
    ensures refused { IfErr result (λ r. IsStep desk.now.machine caller.now
        (Call.Show issue.now) (Reply.Refused r) desk.now.machine) }
    ensures unasked { IfErr result (λ r. r ≢ Refusal.Keeper) }
{
    let state = desk.state();
    let Some(user) = state.user_named(caller) else {
        return Err(unknown(alloc, Thing::User, caller));
    };
    write_issue_show(alloc, state, user, issue, answer)
}
