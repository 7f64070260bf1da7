// Comparisons whose dates are worked out.
ghost use Rattle.std.specs.Prelude.{◌≡◌};
ghost use Rattle.change_history.specs.History.{History};
ghost use Rattle.jql_bound.specs.declared.leaf.Subject.{Subject};
ghost use Rattle.jql_meaning.specs.Surroundings.{surroundings_of};
ghost use Rattle.jql_meaning.specs.Comparison.{order};
ghost use Rattle.jql_meaning.specs.Present.{holds_now};

use crate::date::settled;
use field_values::Moment;
use jql_bound::{Context, Leaf, Operand, Operator};

/// The comparison that holds of the same issues at the moment, with the date worked out that it compares by size. Of the
/// others none is asked for an order.
#[tactic(auto, unfolding(jql_meaning::specs::Present::holds_now))]
pub(crate) fn settled_leaf(mut leaf: Leaf, context: &Context, at: Moment) -> Leaf
    ensures { (h : History) → holds_now (surroundings_of context.now) result h at
        ≡ holds_now (surroundings_of context.now) leaf h at }
{
    if let Operator::Compares(_, operand) = &mut leaf.operator {
        settle_operand(operand, context, at);
    }
    leaf
}

// Has things stand as before to what is compared with, a date among it worked out.
fn settle_operand(operand: &mut Operand, context: &Context, at: Moment)
    ensures { (h : History) (subject : Subject) →
        order (surroundings_of context.now) h at subject operand.new
        ≡ order (surroundings_of context.now) h at subject operand.old }
{
    if let Operand::Date(date) = operand {
        *date = settled(date, context, at);
    }
}
