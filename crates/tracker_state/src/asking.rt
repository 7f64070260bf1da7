// What a text asks for.
ghost use Rattle.std.specs.Prelude.{◌≡◌, Ok, IfOk, IfErr, option_map};
ghost use Rattle.fields.specs.SetupParts.{parts};
ghost use Rattle.jql_syntax.specs.View.{view as tree};
ghost use Rattle.jql_grammar.specs.Binding.{bound_in};
ghost use Rattle.jql_grammar.specs.Scope.{scope_in};
ghost use Rattle.tracker_machine.specs.Query.{asked, bound_or_fault};
ghost use Rattle.tracker_state.specs.State.{query_of};
ghost use Rattle.tracker_state.specs.Asking.{text_refusal, Faults};

use fields::{Setup, UserNo};
use jql_bound::Bound;
use jql_grammar::{BindFault, bind};
use jql_syntax::{JqlFault, Query, parse};
use std::alloc::Global;
use tracker_calls::{Cause, Refusal};

/// What the text asks for when that user asks it.
pub fn asked(alloc: Global, setup: &Setup, caller: UserNo, jql: &str) -> Result<Bound, Refusal>
    ensures query { IfOk result (λ bound. asked (parts setup.now) caller.0 jql.now
        ≡ Ok (query_of bound)) }
    ensures fault { IfErr result (Faults (asked (parts setup.now) caller.0 jql.now)) }
{
    match parse(alloc, jql) {
        Ok(query) => bound(alloc, setup, caller, query),
        Err(fault) => Err(refusal_of(fault)),
    }
}

// The refusal that tells a text's fault.
fn refusal_of(fault: JqlFault) -> Refusal
    ensures { result ≡ text_refusal fault }
{
    match fault {
        JqlFault::Bad { place, kind } => Refusal::Cause(Cause::Query { kind, place }),
        JqlFault::Memory => Refusal::Memory,
    }
}

// The query bound to the setup; it ends here, before what came of it is looked at.
fn bound(alloc: Global, setup: &Setup, caller: UserNo, query: Query) -> Result<Bound, Refusal>
    ensures query { IfOk result (λ bound. bound_or_fault
        (bound_in (scope_in setup.now caller) (option_map tree query.0) query.1)
        ≡ Ok (query_of bound)) }
    ensures fault { IfErr result (Faults (bound_or_fault
        (bound_in (scope_in setup.now caller) (option_map tree query.0) query.1))) }
{
    let bound = bind(alloc, &query, setup, caller);
    drop(query);
    match bound {
        Ok(bound) => Ok(bound),
        Err(BindFault::Bad { place, kind }) => Err(Refusal::Cause(Cause::Query { kind, place })),
        Err(BindFault::Memory) => Err(Refusal::Memory),
    }
}
