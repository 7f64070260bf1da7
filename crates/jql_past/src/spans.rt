// WAS: whether one span of the field is such a one.
ghost use Rattle.std.specs.Prelude.{◌≡◌, ◌&&◌, IfSome};
ghost use Rattle.change_history.specs.History.{opening_value};
ghost use Rattle.jql_meaning.specs.Surroundings.{surroundings_of};
ghost use Rattle.jql_meaning.specs.Naming.{has_named};
ghost use Rattle.jql_meaning.specs.Moments.{some_moment};
ghost use Rattle.jql_meaning.specs.Windows.{is_in_windows, is_by_each};
ghost use Rattle.jql_meaning.specs.Past.{was, span_answers};
ghost use Rattle.jql_past.specs.Interval.{IsOfWindows};

use crate::changes::is_by_each;
use crate::naming::has_named;
use crate::windows::{Interval, known_interval, meets};
use change_history::{Issue, Span};
use field_values::{FieldNo, Moment, Value};
use jql_bound::{Context, Operand, PastPredicate};

/// Whether one of the field's spans is of one of the values, by an author who is asked for, and has a moment in every window.
pub fn was(
    context: &Context,
    issue: &Issue,
    at: Moment,
    field: FieldNo,
    operands: &[Operand],
    predicates: &[PastPredicate],
) -> bool
    ensures { result
        ≡ was (surroundings_of context.now) issue.now.history at field operands.now predicates.now }
{
    let mut known = None;
    let mut end = None;
    let mut before = None;
    let mut place = issue.last_entry(field);
    while let Some(k) = place {
        // An entry stands at each of these places.
        let Some(entry) = issue.entry(k) else {
            return false;
        };
        let span = Span {
            begin: entry.at,
            end,
            author: entry.author,
            value: &entry.to,
        };
        if span_answers(&mut known, context, at, operands, predicates, &span) {
            return true;
        }
        end = Some(entry.at);
        before = Some(&entry.from);
        place = issue.entry_before(k);
    }
    let first = Span {
        begin: issue.created(),
        end,
        author: issue.author(),
        value: opened_with(issue, field, before),
    };
    span_answers(&mut known, context, at, operands, predicates, &first)
}

// What the field was opened with: what its first entry goes from, where it has one. The opening values lie elsewhere.
fn opened_with<'a>(issue: &'a Issue, field: FieldNo, before: Option<&'a Value>) -> &'a Value
    requires { IfSome before (λ v. v.now ≡ opening_value issue.now.history.opening field) }
    ensures { result.now ≡ opening_value issue.now.history.opening field }
{
    match before {
        Some(value) => value,
        None => issue.opening(field),
    }
}

// The cheap questions come first, and the windows last.
fn span_answers(
    known: &mut Option<Interval>,
    context: &Context,
    at: Moment,
    operands: &[Operand],
    predicates: &[PastPredicate],
    span: &Span<'_>,
) -> bool
    requires { IfSome known.old (IsOfWindows (surroundings_of context.now) at predicates.now) }
    ensures answer { result
        ≡ span_answers (surroundings_of context.now) at operands.now predicates.now
        (record {
          begin = span.now.begin;
          end = span.now.end;
          author = span.now.author;
          value = span.now.value.now;
        }) }
    ensures known { IfSome known.new
        (IsOfWindows (surroundings_of context.now) at predicates.now) }
{
    is_wanted(context, operands, predicates, span)
        && lasts_in_windows(known, context, at, predicates, span)
}

// Whether the span is of one of the values, and by an author who is asked for.
fn is_wanted(
    context: &Context,
    operands: &[Operand],
    predicates: &[PastPredicate],
    span: &Span<'_>,
) -> bool
    ensures { result ≡ (has_named (surroundings_of context.now) operands.now span.now.value.now
        && is_by_each (surroundings_of context.now) predicates.now span.now.author) }
{
    has_named(context, operands, span.value) && is_by_each(context, predicates, span.author)
}

// Whether one of the span's moments lies in every window.
fn lasts_in_windows(
    known: &mut Option<Interval>,
    context: &Context,
    at: Moment,
    predicates: &[PastPredicate],
    span: &Span<'_>,
) -> bool
    requires { IfSome known.old (IsOfWindows (surroundings_of context.now) at predicates.now) }
    ensures answer { result
        ≡ some_moment (λ moment.
        is_in_windows (surroundings_of context.now) at predicates.now moment)
        (record {
          begin = span.now.begin;
          end = span.now.end;
          author = span.now.author;
          value = span.now.value.now;
        }) at }
    ensures known { IfSome known.new
        (IsOfWindows (surroundings_of context.now) at predicates.now) }
{
    let interval = known_interval(known, context, at, predicates);
    meets(interval, span.begin, span.end, at)
}
