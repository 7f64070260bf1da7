//! A state from what was made of all rows.
ghost use Rattle.std.specs.Prelude.{◌≡◌, [], IfOk};
ghost use Rattle.fields.specs.SetupParts.{parts};
ghost use Rattle.jql_meaning.specs.Surroundings.{surroundings_of};
ghost use Rattle.tracker_machine.specs.Search.{surroundings_in};
ghost use Rattle.tracker_machine.specs.Tracker.{IsTracker};
ghost use Rattle.tracker_state.specs.State.{IsState};
ghost use Rattle.tracker_loading.specs.Assembled.{made_with, machine_with, IsDerived, IsWhole};

use crate::filtered::filters_of;
use crate::making::Making;
use crate::parts::{Base, Derived, Given};
use crate::phases::context_of;
use crate::ranked::ranks_of;
use field_values::Memory;
use std::alloc::Global;
use tracker_setting::Setting;
use tracker_state::State;
use tracker_work::Work;

impl Making {
    /// The state of the tracker that was made.
    pub(crate) fn assemble(self, alloc: Global) -> Result<State, Memory>
        requires { IsTracker self }
        ensures { IfOk result (λ state. state.machine ≡ self) }
    {
        let (base, given) = self.into_parts();
        match derived(alloc, &base, given) {
            Ok(derived) => Ok(put_together(base, derived)),
            Err(Memory) => {
                base.let_go();
                Err(Memory)
            }
        }
    }
}

// What follows from what was made.
fn derived(alloc: Global, base: &Base, given: Given) -> Result<Derived, Memory>
    requires tracker { IsTracker (made_with base.now given) }
    requires whole { IsWhole (made_with base.now given) base.now given }
    ensures { IfOk result (IsDerived (made_with base.now given) given.filters.items) }
{
    let Given {
        balance,
        ranks,
        sprints,
        filters,
    } = given;
    let ranks = ranks_of(alloc, ranks, balance)?;
    let context = context_of(alloc, &base.setup, &sprints)?;
    let issues = base.issues.as_slice();
    let filters = filters_of(alloc, filters, issues, &context, base.moment)?;
    let statuses = base.setup.status.as_slice();
    let work = Work::load(alloc, statuses, base.issues.as_vec(), base.change, sprints)?;
    Ok(Derived {
        context,
        ranks,
        filters,
        work,
    })
}

// The state of both.
fn put_together(base: Base, derived: Derived) -> State
    requires agree { surroundings_of derived.context
        ≡ record (surroundings_in (parts base.setup) []) {
          sprints = derived.context.sprints.items;
        } }
    requires agreed { IsState (machine_with base derived)
        base.issues.tally derived.filters derived.work derived.context }
    ensures { result.machine ≡ machine_with base derived }
{
    let Base {
        setup,
        change,
        moment,
        issues,
        externals,
        boards,
    } = base;
    let Derived {
        context,
        ranks,
        filters,
        work,
    } = derived;
    let setting = Setting { setup, context };
    State::of_parts(
        setting, moment, change, issues, externals, ranks, filters, boards, work,
    )
}
