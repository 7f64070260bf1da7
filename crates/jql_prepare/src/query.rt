// Queries whose dates are worked out and whose conditions are in order.
ghost use Rattle.std.specs.Prelude.{◌≡◌, option_map};
ghost use Rattle.change_history.specs.History.{History};
ghost use Rattle.jql_bound.specs.Condition.{view};
ghost use Rattle.jql_meaning.specs.Surroundings.{surroundings_of};
ghost use Rattle.jql_meaning.specs.Truth.{query_holds};
ghost use Rattle.jql_prepare.specs.Same.{IsSame, AreSame};

use crate::cheapest::cheapest_first;
use crate::leaf::settled_leaf;
use field_values::Moment;
use jql_bound::{Bound, Cond, Context, Leaf, Operator, Subject};
use std::mem;

/// Has the query hold of the same issues at the moment, with the dates that it compares by size worked out, and with conditions
/// that cost less asked before others beside them. It takes no memory.
#[tactic(auto, unfolding(jql_meaning::specs::Truth::query_holds))]
pub fn settle(query: &mut Bound, context: &Context, at: Moment)
    ensures holds { (h : History) →
        query_holds (surroundings_of context.now) h at (option_map view query.new.cond)
        ≡ query_holds (surroundings_of context.now) h at (option_map view query.old.cond) }
    ensures order { query.new.order ≡ query.old.order }
{
    if let Some(cond) = &mut query.cond {
        settle_cond(cond, context, at);
    }
}

// The same of a condition, where it lies.
#[cycle(conditions)]
fn settle_cond(cond: &mut Cond, context: &Context, at: Moment)
    ensures { IsSame (surroundings_of context.now) at cond.old cond.new }
{
    let taken = mem::replace(cond, nothing());
    *cond = settled_cond(taken, context, at);
}

// Any condition that takes no memory.
fn nothing() -> Cond {
    Cond::Now(Leaf {
        subject: Subject::Key,
        operator: Operator::IsEmpty,
    })
}

// The same of one that was taken out.
#[cycle(conditions)]
fn settled_cond(cond: Cond, context: &Context, at: Moment) -> Cond
    ensures { IsSame (surroundings_of context.now) at cond result }
{
    match cond {
        Cond::All(conds) => Cond::All(cheapest_first(settled_each(conds, context, at))),
        Cond::Any(conds) => Cond::Any(cheapest_first(settled_each(conds, context, at))),
        Cond::Now(leaf) => Cond::Now(settled_leaf(leaf, context, at)),
        // Most dates of the past are written out.
        Cond::Past(leaf) => Cond::Past(leaf),
    }
}

// The same of each of several.
#[cycle(conditions)]
fn settled_each(mut conds: Vec<Cond>, context: &Context, at: Moment) -> Vec<Cond>
    ensures { AreSame (surroundings_of context.now) at conds.items result.items }
{
    for place in 0..conds.len() {
        settle_cond(&mut conds[place], context, at);
    }
    conds
}
