// Queries bound to a setup.
ghost use Rattle.std.specs.Prelude.{◌≡◌, IfOk, IfErr, option_map};
ghost use Rattle.jql_syntax.specs.View.{view as tree};
ghost use Rattle.jql_bound.specs.Condition.{view};
ghost use Rattle.jql_grammar.specs.Scope.{scope_in, scope_of};
ghost use Rattle.jql_grammar.specs.Binding.{condition_or_none, tests_or_none, bound_in, Tells};

use crate::conditions::bind_expr;
use crate::fault::BindFault;
use crate::scope::Binder;
use crate::sorting::bind_keys;
use fields::{Setup, UserNo};
use jql_bound::{Bound, Cond, OrderBy};
use jql_syntax::Query;
use std::alloc::Global;

// The condition, where there is one, and how many tests it has.
#[tactic(auto, using(crate::proofs::Denying::made_told))]
fn bind_condition(binder: &Binder<'_>, query: &Query) -> Result<(Option<Cond>, usize), BindFault>
    ensures ok { IfOk result (λ x.
        condition_or_none (scope_of binder.now) (option_map tree query.now.0)
        ≡ Ok (option_map view x.0)) }
    ensures next { IfOk result (λ x. x.1 ≡ tests_or_none (option_map tree query.now.0)) }
    ensures err { IfErr result
        (Tells (condition_or_none (scope_of binder.now) (option_map tree query.now.0))) }
{
    match query.condition() {
        None => Ok((None, 0)),
        Some(expr) => {
            let (cond, next) = bind_expr(binder, false, 0, expr)?;
            Ok((Some(cond), next))
        }
    }
}

/// Binds a query to a setup: names become numbers, `currentUser()` is the caller, and NOT of a condition is its negation. The
/// first fault is told, of the tests from the left and then of the sort keys; within a test in the order field, operator,
/// values, predicates.
pub fn bind(alloc: Global, query: &Query, setup: &Setup, caller: UserNo) -> Result<Bound, BindFault>
    ensures bound { IfOk result
        (λ bound. bound_in (scope_in setup.now caller) (option_map tree query.now.0) query.now.1
        ≡ Ok (option_map view bound.cond, bound.order.keys)) }
    ensures fault { IfErr result
        (Tells (bound_in (scope_in setup.now caller) (option_map tree query.now.0) query.now.1)) }
{
    let binder = Binder {
        alloc,
        setup,
        caller,
    };
    let (cond, tests) = bind_condition(&binder, query)?;
    match bind_keys(&binder, tests, query.order()) {
        Ok(keys) => Ok(Bound {
            cond,
            order: OrderBy { keys },
        }),
        Err(fault) => {
            drop(cond);
            Err(fault)
        }
    }
}
