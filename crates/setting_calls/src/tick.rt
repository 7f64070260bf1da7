// The call `tick`.
ghost use Rattle.tracker_machine.specs.Tick.{tick_meaning};
ghost use Rattle.tracker_state.specs.Plan.{IsPrepared};

use fields::Moment;
use std::alloc::Global;
use tracker_calls::{Answer, Cause, Refusal};
use tracker_state::{Plan, Prepared, State, present_ops};

/// Prepares that the present moment moves on, or refuses one that is earlier.
#[tactic(auto, unfolding(tracker_machine::specs::Effect::IsAllowed), using(crate::proofs::Ops::moment_ops_are))]
pub fn tick(alloc: Global, state: &State, to: Moment) -> Result<Prepared, Refusal>
    ensures { IsPrepared (tick_meaning state.now.machine to) state.now result }
{
    let kept = state.moment();
    if to < kept {
        return Err(Refusal::Cause(Cause::Earlier { kept }));
    }
    let answer = Answer::Tick { moment: to };
    if to == kept {
        return Ok(Prepared::Tell(answer));
    }
    let rows = present_ops(alloc, state.balance(), state.change(), to)?;
    Ok(Prepared::Make {
        plan: Plan::Moment(to),
        answer,
        rows,
    })
}
