//! What the text of a filter asks for.
ghost use Rattle.std.specs.Prelude.{IfOk};
ghost use Rattle.fields.specs.SetupParts.{parts};
ghost use Rattle.tracker_machine.specs.Query.{asked};
ghost use Rattle.tracker_loading.specs.Asking.{Asks};

use field_values::{Memory, UserNo};
use fields::Setup;
use jql_bound::Bound;
use std::alloc::Global;
use tracker_calls::Refusal;

/// What the text asks for when that user asks it; `None` exactly where it has a fault.
pub(crate) fn asked(
    alloc: Global,
    setup: &Setup,
    user: UserNo,
    jql: &str,
) -> Result<Option<Bound>, Memory>
    ensures { IfOk result (Asks (asked (parts setup.now) user.0 jql.now)) }
{
    match tracker_state::asked(alloc, setup, user, jql) {
        Ok(bound) => Ok(Some(bound)),
        Err(Refusal::Cause(_)) => Ok(None),
        Err(_) => Err(Memory),
    }
}
