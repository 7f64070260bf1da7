// Whole conditions.
ghost use Rattle.std.specs.Prelude.{◌≡◌, ◌+◌, IfOk, IfErr};
ghost use Rattle.jql_syntax.specs.View.{view as tree, views as trees};
ghost use Rattle.jql_bound.specs.Condition.{view, views};
ghost use Rattle.jql_grammar.specs.Scope.{scope_of};
ghost use Rattle.jql_grammar.specs.Conditions.{tests, tests_in};
ghost use Rattle.jql_grammar.specs.Asked.{condition_asked, conditions_asked, all_or_any};
ghost use Rattle.jql_grammar.specs.Binding.{Tells, fault_at};
ghost use Rattle.jql_syntax.specs.Tree.{single};

use crate::fault::{BindFault, Stop};
use crate::leaves::leaf_asked;
use crate::scope::Binder;
use jql_bound::Cond;
use jql_syntax::{Expr, Leaf};

// The fault of the test or sort key of that number.
pub(crate) fn fault_at(place: usize, stop: Stop) -> BindFault
    ensures { result ≡ fault_at place stop }
{
    match stop {
        Stop::Memory => BindFault::Memory,
        Stop::At(kind) => BindFault::Bad {
            place,
            kind: kind.number(),
        },
    }
}

// The test of that number, and the next number.
fn bind_leaf(
    binder: &Binder<'_>,
    denied: bool,
    place: usize,
    leaf: &Leaf,
) -> Result<(Cond, usize), BindFault>
    ensures ok { IfOk result (λ x.
        condition_asked (scope_of binder.now) denied place (single leaf.now) ≡ Ok (view x.0)) }
    ensures next { IfOk result (λ x. x.1 ≡ place + 1) }
    ensures err { IfErr result
        (Tells (condition_asked (scope_of binder.now) denied place (single leaf.now))) }
{
    let Some(next) = place.checked_add(1) else {
        return Err(BindFault::Memory);
    };
    match leaf_asked(binder, denied, leaf) {
        Ok(cond) => Ok((cond, next)),
        Err(stop) => Err(fault_at(place, stop)),
    }
}

// All of several conditions, or any of them.
fn all_or_any(all: bool, conds: Vec<Cond>) -> Cond
    ensures { view result ≡ all_or_any all (views conds.items) }
{
    if all {
        Cond::All(conds)
    } else {
        Cond::Any(conds)
    }
}

/// The condition, or where it is denied its negation, whose first test has that number; and the number after its last.
#[cycle(conditions)]
#[tactic(auto, using(crate::proofs::Denying::not_is_asked, crate::proofs::Denying::all_asked, crate::proofs::Denying::any_asked, crate::proofs::Denying::made_told))]
pub(crate) fn bind_expr(
    binder: &Binder<'_>,
    denied: bool,
    place: usize,
    expr: &Expr,
) -> Result<(Cond, usize), BindFault>
    ensures ok { IfOk result (λ x.
        condition_asked (scope_of binder.now) denied place (tree expr.now) ≡ Ok (view x.0)) }
    ensures next { IfOk result (λ x. x.1 ≡ place + tests (tree expr.now)) }
    ensures err { IfErr result
        (Tells (condition_asked (scope_of binder.now) denied place (tree expr.now))) }
{
    match expr {
        Expr::Leaf(leaf) => bind_leaf(binder, denied, place, leaf),
        Expr::Not(inner) => bind_expr(binder, !denied, place, inner),
        Expr::All(exprs) => {
            let (conds, next) = bind_exprs(binder, denied, place, exprs.as_slice())?;
            Ok((all_or_any(!denied, conds), next))
        }
        Expr::Any(exprs) => {
            let (conds, next) = bind_exprs(binder, denied, place, exprs.as_slice())?;
            Ok((all_or_any(denied, conds), next))
        }
    }
}

// Each of several conditions.
#[cycle(conditions)]
fn bind_exprs(
    binder: &Binder<'_>,
    denied: bool,
    place: usize,
    exprs: &[Expr],
) -> Result<(Vec<Cond>, usize), BindFault>
    ensures ok { IfOk result (λ x.
        conditions_asked (scope_of binder.now) denied place (trees exprs.now)
        ≡ Ok (views x.0.items)) }
    ensures next { IfOk result (λ x. x.1 ≡ place + tests_in (trees exprs.now)) }
    ensures err { IfErr result
        (Tells (conditions_asked (scope_of binder.now) denied place (trees exprs.now))) }
{
    let mut conds = Vec::new(binder.alloc);
    let mut next = place;
    for expr in exprs {
        let (cond, after) = bind_expr(binder, denied, next, expr)?;
        conds.push(cond)?;
        next = after;
    }
    Ok((conds, next))
}
