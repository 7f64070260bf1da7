// Dates that mean at a moment what they meant, and of which less is left to work out.
ghost use Rattle.std.specs.Prelude.{◌≡◌};
ghost use Rattle.jiff_core.specs.Calendar.{IsWithin};
ghost use Rattle.jql_meaning.specs.Surroundings.{surroundings_of};
ghost use Rattle.jql_meaning.specs.Comparison.{second_now};

use field_values::Moment;
use jql_bound::Context;
use jql_present::second_now;
use relative_dates::{LocalSecond, Term};

/// The date that means the same second at the moment, and that is written out where it was the edge of a period. Where the
/// local clock shows that second twice, no written date means it, and the edge stays.
pub(crate) fn settled(date: &Term, context: &Context, at: Moment) -> Term
    ensures { second_now (surroundings_of context.now) at result
        ≡ second_now (surroundings_of context.now) at date.now }
{
    // The others take a step or two as they are.
    if !is_edge(date) {
        return *date;
    }
    let second = second_now(context, at, date);
    let Some(written) = written_out(context, second) else {
        return *date;
    };
    if second_now(context, at, &written) == second {
        return written;
    }
    *date
}

fn is_edge(date: &Term) -> bool {
    matches!(date, Term::PeriodEdge(_))
}

// What the local clock shows at a second.
fn written_out(context: &Context, second: i64) -> Option<Term>
    requires { IsWithin 200_000_000_000_000 second }
{
    let day = context.calendar.day_of(second);
    let passed = second.checked_sub(context.calendar.start_of(day))?;
    let (Ok(day), Ok(second)) = (i32::try_from(day), u32::try_from(passed)) else {
        return None;
    };
    Some(Term::Literal(LocalSecond { day, second }))
}
