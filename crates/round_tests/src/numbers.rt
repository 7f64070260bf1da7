// A maker of calls that owes a look for each filter that it drops.
use field_values::Memory;
use std::alloc::Global;
use tracker_calls::{Answer, Call, Refusal, Reply, UserName};
use tracker_rounds::{UserCall, Watched};

/// Counts the filters that it drops, and owes the begin of a rebalancing for each.
#[derive(Drop)]
pub struct Numbers {
    pub alloc: Global,
    pub dropped: u64,
    pub owed: u64,
}

impl Watched for Numbers {
    ghost use Rattle.std.specs.Prelude.{None};

    ghost State = { Unit {0} };

    ghost tells = { λ n state. ⊥ };

    ghost makes = { λ old caller call reply new. Unit {0} };

    ghost due = { λ state. None };

    fn call(&mut self, _caller: &UserName, call: &Call) -> Reply {
        match call {
            Call::Tick { to } => Reply::Ok(Answer::Tick { moment: *to }),
            Call::DropFilter { filter } => {
                self.dropped = self.dropped.saturating_add(1);
                self.owed = self.owed.saturating_add(1);
                Reply::Ok(Answer::DropFilter { filter: *filter })
            }
            Call::RebalanceStart => {
                self.owed = self.owed.saturating_sub(1);
                Reply::Ok(Answer::RebalanceStart { from: 0, to: 1 })
            }
            _ => Reply::Refused(Refusal::Memory),
        }
    }

    fn due_now(&self) -> Result<Option<UserCall>, Memory> {
        if self.owed == 0 {
            return Ok(None);
        }
        let user = UserName::copy_of(self.alloc, "root")?;
        Ok(Some(UserCall {
            user,
            call: Call::RebalanceStart,
        }))
    }
}
