// What worker 0 is to do for a tracker.
ghost use Rattle.std.specs.Prelude.{◌≡◌, IfOk};
ghost use Rattle.fields.specs.Naming.{name_at};
ghost use Rattle.tracker_serve.specs.Due.{due_call, due_in};

use field_values::Memory;
use issue_calls::spelled::name_at;
use rank_balancer::Balance;
use std::alloc::Global;
use tracker_calls::{Call, UserName};
use tracker_rounds::UserCall;
use tracker_state::State;

/// A longest rank of so many bytes is a reason for a rebalancing.
const OFFERED_AT: usize = 128;

/// How many ranks go on at once.
const STEP: u32 = 16;

/// The call that is due in this state, by the setup's rebalancer.
pub fn due_in(alloc: Global, state: &State) -> Result<Option<UserCall>, Memory>
    ensures { IfOk result (λ r. r ≡ due_in state.now.machine) }
{
    let Some(call) = due_call(state) else {
        return Ok(None);
    };
    let user = rebalancer(alloc, state)?;
    Ok(Some(UserCall { user, call }))
}

// A rebalancing is begun, or carried on.
fn due_call(state: &State) -> Option<Call>
    ensures { result ≡ due_call state.now.machine.order state.now.machine.balance }
{
    match state.balance() {
        Balance::Idle(_) => {
            if state.ranks().longest() >= OFFERED_AT {
                Some(Call::RebalanceStart)
            } else {
                None
            }
        }
        Balance::Moving { .. } => Some(Call::RebalanceStep { count: STEP }),
    }
}

fn rebalancer(alloc: Global, state: &State) -> Result<UserName, Memory>
    ensures { IfOk result (λ name. name
        ≡ name_at state.now.machine.setup.users state.now.machine.setup.rebalancer.0) }
{
    let setup = state.setup();
    UserName::copy_of(alloc, name_at(setup.users.as_slice(), setup.rebalancer.0))
}
