// CHANGED: whether one change of the field is such a one.
ghost use Rattle.std.specs.Prelude.{◌≡◌, ◌&&◌, IfSome};
ghost use Rattle.std.specs.List.{list_any, list_all};
ghost use Rattle.field_values.specs.declared.value.Value.{Value};
ghost use Rattle.jql_meaning.specs.Surroundings.{surroundings_of};
ghost use Rattle.jql_meaning.specs.Naming.{names};
ghost use Rattle.jql_meaning.specs.Windows.{is_in_windows, is_by, is_by_each};
ghost use Rattle.jql_meaning.specs.Past.{changed, entry_answers, endpoint_answers};
ghost use Rattle.jql_past.specs.Interval.{IsOfWindows};

use crate::naming::loses;
use crate::windows::{Interval, has_moment, known_interval};
use change_history::{Entry, Issue};
use field_values::{FieldNo, Moment, UserNo};
use jql_bound::{Context, Endpoint, Operand, PastPredicate};
use jql_present::names_user;

/// Whether one of the field's changes lies in every window, is by an author who is asked for, and goes from and to the values
/// that are asked for.
pub fn changed(
    context: &Context,
    issue: &Issue,
    at: Moment,
    field: FieldNo,
    endpoints: &[Endpoint],
    predicates: &[PastPredicate],
) -> bool
    ensures { result
        ≡ changed (surroundings_of context.now) issue.now.history at field endpoints.now
        predicates.now }
{
    let mut known = None;
    let mut place = issue.last_entry(field);
    while let Some(k) = place {
        // An entry stands at each of these places.
        let Some(entry) = issue.entry(k) else {
            return false;
        };
        if entry_answers(&mut known, context, at, endpoints, predicates, entry) {
            return true;
        }
        place = issue.entry_before(k);
    }
    false
}

// The cheap questions come first, and the windows last.
fn entry_answers(
    known: &mut Option<Interval>,
    context: &Context,
    at: Moment,
    endpoints: &[Endpoint],
    predicates: &[PastPredicate],
    entry: &Entry,
) -> bool
    requires { IfSome known.old (IsOfWindows (surroundings_of context.now) at predicates.now) }
    ensures answer { result
        ≡ entry_answers (surroundings_of context.now) at endpoints.now predicates.now entry.now }
    ensures known { IfSome known.new
        (IsOfWindows (surroundings_of context.now) at predicates.now) }
{
    is_wanted(context, endpoints, predicates, entry)
        && is_in_windows(known, context, at, predicates, entry.at)
}

// Whether the change goes from and to the values that are asked for, and is by an author who is
// asked for.
fn is_wanted(
    context: &Context,
    endpoints: &[Endpoint],
    predicates: &[PastPredicate],
    entry: &Entry,
) -> bool
    ensures { result ≡ (list_all (λ endpoint.
        endpoint_answers (surroundings_of context.now) entry.now endpoint) endpoints.now
        && is_by_each (surroundings_of context.now) predicates.now entry.now.author) }
{
    has_endpoints(context, endpoints, entry) && is_by_each(context, predicates, entry.author)
}

// Whether the moment lies in every window.
fn is_in_windows(
    known: &mut Option<Interval>,
    context: &Context,
    at: Moment,
    predicates: &[PastPredicate],
    moment: Moment,
) -> bool
    requires { IfSome known.old (IsOfWindows (surroundings_of context.now) at predicates.now) }
    ensures answer { result
        ≡ is_in_windows (surroundings_of context.now) at predicates.now moment }
    ensures known { IfSome known.new
        (IsOfWindows (surroundings_of context.now) at predicates.now) }
{
    let interval = known_interval(known, context, at, predicates);
    has_moment(interval, moment)
}

fn has_endpoints(context: &Context, endpoints: &[Endpoint], entry: &Entry) -> bool
    ensures { result ≡ list_all (λ endpoint.
        endpoint_answers (surroundings_of context.now) entry.now endpoint) endpoints.now }
{
    endpoints
        .iter()
        .all(|endpoint| endpoint_answers(context, entry, endpoint))
}

fn endpoint_answers(context: &Context, entry: &Entry, endpoint: &Endpoint) -> bool
    ensures { result ≡ endpoint_answers (surroundings_of context.now) entry.now endpoint.now }
{
    match endpoint {
        Endpoint::From(operands) => loses(context, operands.as_slice(), &entry.from, &entry.to),
        Endpoint::To(operands) => loses(context, operands.as_slice(), &entry.to, &entry.from),
    }
}

/// Whether the author is one of those that each BY asks for.
pub fn is_by_each(context: &Context, predicates: &[PastPredicate], author: UserNo) -> bool
    ensures { result ≡ is_by_each (surroundings_of context.now) predicates.now author }
{
    predicates
        .iter()
        .all(|predicate| is_by(context, predicate, author))
}

fn is_by(context: &Context, predicate: &PastPredicate, author: UserNo) -> bool
    ensures { result ≡ is_by (surroundings_of context.now) predicate.now author }
{
    match predicate {
        PastPredicate::By(users) => is_one_of(context, users.as_slice(), author),
        _ => true,
    }
}

fn is_one_of(context: &Context, users: &[Operand], author: UserNo) -> bool
    ensures { result ≡ list_any
        (λ operand. names (surroundings_of context.now) operand (Value.User author)) users.now }
{
    users.iter().any(|user| names_user(context, user, author))
}
