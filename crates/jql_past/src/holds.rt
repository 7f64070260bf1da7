// Whether a comparison with the past holds.
ghost use Rattle.std.specs.Prelude.{◌≡◌};
ghost use Rattle.jql_meaning.specs.Surroundings.{surroundings_of};
ghost use Rattle.jql_meaning.specs.Past.{holds_past};

use crate::changes::changed;
use crate::spans::was;
use change_history::Issue;
use field_values::Moment;
use jql_bound::{Context, PastLeaf, PastTest};

/// Whether the comparison with the past holds of the issue at the present moment.
#[tactic(auto, unfolding(jql_meaning::specs::Past::holds_past))]
pub fn holds_past(leaf: &PastLeaf, issue: &Issue, context: &Context, at: Moment) -> bool
    ensures { result ≡ holds_past (surroundings_of context.now) leaf.now issue.now.history at }
{
    let field = leaf.field;
    let predicates = leaf.predicates.as_slice();
    match &leaf.test {
        PastTest::Was(operands) => was(context, issue, at, field, operands.as_slice(), predicates),
        PastTest::WasNot(operands) => !was(
            context,
            issue,
            at,
            field,
            operands.as_slice(),
            predicates,
        ),
        PastTest::Changed(endpoints) => changed(
            context,
            issue,
            at,
            field,
            endpoints.as_slice(),
            predicates,
        ),
        PastTest::NotChanged(endpoints) => !changed(
            context,
            issue,
            at,
            field,
            endpoints.as_slice(),
            predicates,
        ),
    }
}
