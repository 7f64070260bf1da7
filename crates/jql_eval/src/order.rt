// The order in which a query lists issues.
ghost use Rattle.std.specs.Prelude.{◌≡◌};
ghost use Rattle.fields.specs.SetupParts.{parts};
ghost use Rattle.jql_meaning.specs.Order.{field_cmp, directed, issue_cmp};

use crate::standing::{category_standing, standing_cmp, standing_of};
use change_history::Issue;
use field_values::FieldNo;
use fields::Setup;
use jql_bound::{Direction, OrderBy, SortField};
use std::cmp::Ordering;

/// How two issues stand to each other: the first sort key that tells them apart decides, and after all of them the issues'
/// numbers. `ranks` says how they stand in the order of ranks.
#[tactic(auto, unfolding(jql_meaning::specs::Order::issue_cmp))]
pub fn compare(
    order: &OrderBy,
    one: &Issue,
    other: &Issue,
    ranks: Ordering,
    setup: &Setup,
) -> Ordering
    ensures { result
        ≡ issue_cmp (parts setup.now) order.now.keys ranks one.now.history other.now.history }
{
    for key in order.keys.as_slice() {
        let decided = directed(
            key.direction,
            field_cmp(key.field, one, other, ranks, setup),
        );
        if decided.is_ne() {
            return decided;
        }
    }
    one.no().0.cmp(&other.no().0)
}

// How they stand by one sort key, upwards.
fn field_cmp(
    field: SortField,
    one: &Issue,
    other: &Issue,
    ranks: Ordering,
    setup: &Setup,
) -> Ordering
    ensures { result ≡ field_cmp (parts setup.now) ranks one.now.history other.now.history field }
{
    match field {
        SortField::Subject(subject) => standing_cmp(
            &standing_of(setup, one, subject),
            &standing_of(setup, other, subject),
        ),
        SortField::StatusCategory => standing_cmp(
            &category_standing(setup, one.value(FieldNo::STATUS)),
            &category_standing(setup, other.value(FieldNo::STATUS)),
        ),
        SortField::Rank => ranks,
    }
}

/// The order upwards, or the other way round where the greatest comes first.
pub fn directed(direction: Direction, order: Ordering) -> Ordering
    ensures { result ≡ directed direction order }
{
    match direction {
        Direction::Ascending => order,
        Direction::Descending => order.reverse(),
    }
}
