//! A short day of two filters and two issues. Values are worked out by hand.
ghost use Rattle.std.specs.Prelude.{◌≡◌, ◌<◌, IsTrue};
ghost use Rattle.jql_meaning.specs.Surroundings.{surroundings_of};
ghost use Rattle.tracker_filters.specs.Saved.{MayPut};
ghost use Rattle.change_history.specs.History.{histories_of};

use change_history::{Change, Changes, Issue, Key};
use field_values::{
    ChoiceNo, FieldNo, FilterNo, IssueNo, Moment, Sequence, Steps, Text, UserNo, Value,
};
use jql_bound::{Bound, Cond, Context, Inequality, Leaf, Operand, Operator, OrderBy, Subject};
use relative_dates::{Calendar, Term};
use std::alloc::Global;
use std::marker::Brand;
use std::sync::ledger::{Blank, Ledger};
use tracker_filters::{Filter, Filters, ReadyFilter};

/// Issues, and the filters that have seen them.
#[derive(Drop)]
struct Day {
    issues: Vec<Issue>,
    filters: Filters,
    context: Context,
    moment: Moment,
    ghost seen: { histories_of issues.items ≡ filters.histories },
    ghost around: { surroundings_of context ≡ filters.around },
    ghost at: { moment ≡ filters.moment },
}

/// No issue and no filter, a thousand seconds after the first moment.
fn begin(alloc: Global) -> Option<Day> {
    let moment = Moment::new(1_000)?;
    let context = Context {
        sprints: Vec::new(alloc),
        members: Vec::new(alloc),
        calendar: Calendar::new(alloc, 0, 1),
    };
    Some(Day {
        issues: Vec::new(alloc),
        filters: Filters::new(alloc, &context, moment),
        context,
        moment,
    })
}

/// An issue that was opened at the moment in a status.
fn issue_in(alloc: Global, no: u32, at: Moment, status: u16) -> Option<Issue> {
    let key = Key::of(alloc, "OPS", no).ok()?;
    let mut values = Changes::new(alloc);
    let change = Change {
        field: FieldNo::STATUS,
        to: Value::Choice(ChoiceNo(status)),
    };
    values.push(change).ok()?;
    Issue::open(
        alloc,
        IssueNo(no),
        key,
        u64::from(no),
        at,
        UserNo(0),
        values,
    )
    .ok()
}

/// A filter of the issues of which the comparison holds.
fn filter_of(alloc: Global, no: u32, owner: u16, name: &str, leaf: Leaf) -> Option<Filter> {
    Some(Filter {
        no: FilterNo(no),
        owner: UserNo(owner),
        name: Text::copy_of(alloc, name).ok()?,
        text: Text::copy_of(alloc, "").ok()?,
        query: Bound {
            cond: Some(Cond::Now(leaf)),
            order: OrderBy {
                keys: Sequence::new(alloc),
            },
        },
    })
}

/// Those in the first status.
fn open(alloc: Global) -> Option<Leaf> {
    let mut operands = Sequence::new(alloc);
    operands.push(Operand::Choice(ChoiceNo(0))).ok()?;
    Some(Leaf {
        subject: Subject::Field(FieldNo::STATUS),
        operator: Operator::In(operands),
    })
}

/// Those that were created a day ago at most.
fn new() -> Option<Leaf> {
    Some(Leaf {
        subject: Subject::Created,
        operator: Operator::Compares(
            Inequality::GreaterOrEqual,
            Operand::Date(Term::read("-1d")?),
        ),
    })
}

fn create<L: Ledger>(day: &mut Day, issue: Issue, steps: &mut Steps<L>) -> Option<()> {
    if issue.no().0 as usize != day.issues.len() + 1 {
        return None;
    }
    day.issues.reserve(1).ok()?;
    day.filters.reserve_issue().ok()?;
    day.filters.see_new(&issue, &day.context, day.moment, steps);
    day.issues.push_reserved(issue);
    Some(())
}

fn change<L: Ledger>(day: &mut Day, issue: Issue, steps: &mut Steps<L>) -> Option<()> {
    let no = issue.no().0 as usize;
    if no == 0 || day.issues.len() < no {
        return None;
    }
    day.filters
        .see_change(&issue, &day.context, day.moment, steps);
    day.issues[no - 1] = issue;
    Some(())
}

fn tick<L: Ledger>(day: &mut Day, to: u64, steps: &mut Steps<L>) -> Option<()> {
    let to = Moment::new(to)?;
    if to.seconds() < day.moment.seconds() {
        return None;
    }
    day.filters.see_moment(&day.issues, &day.context, to, steps);
    day.moment = to;
    Some(())
}

/// Whether the filter may come.
fn may_put(filters: &Filters, filter: &Filter) -> bool
    ensures { IsTrue result → MayPut filters.now.filters filter.now }
{
    0 < filter.no.0
        && filters.len() < 200
        && filters.named(filter.owner, filter.name.as_str()).is_none()
}

fn save<L: Ledger>(
    alloc: Global,
    day: &mut Day,
    filter: Filter,
    steps: &mut Steps<L>,
) -> Option<()> {
    if !may_put(&day.filters, &filter) {
        return None;
    }
    day.filters.reserve_filter().ok()?;
    let ready = ReadyFilter::of(alloc, filter, &day.issues, &day.context, day.moment, steps).ok()?;
    day.filters.put(ready);
    Some(())
}

fn remove(day: &mut Day, no: u32) -> Option<()> {
    if day.filters.get(FilterNo(no)).is_none() {
        return None;
    }
    day.filters.remove(FilterNo(no));
    Some(())
}

/// Whether these are the filter's members.
fn has_members(alloc: Global, filters: &Filters, no: u32, want: &[u32]) -> bool {
    let mut members = Vec::new(alloc);
    if filters.members(FilterNo(no), &mut members).is_err() || members.len() != want.len() {
        return false;
    }
    members
        .iter()
        .zip(want)
        .all(|(member, number)| member.0 == *number)
}

fn is(holds: bool) -> Option<()> {
    if holds { Some(()) } else { None }
}

/// One issue and two filters, each of which holds of it.
fn morning<L: Ledger>(alloc: Global, day: &mut Day, steps: &mut Steps<L>) -> Option<()> {
    let issue = issue_in(alloc, 1, day.moment, 0)?;
    create(day, issue, steps)?;
    save(
        alloc,
        day,
        filter_of(alloc, 1, 0, "open", open(alloc)?)?,
        steps,
    )?;
    is(day.filters.free_number().0 == 2)?;
    save(alloc, day, filter_of(alloc, 2, 1, "new", new()?)?, steps)?;
    is(has_members(alloc, &day.filters, 1, &[1]))?;
    is(has_members(alloc, &day.filters, 2, &[1]))
}

/// A second issue comes in another status, and the first one goes there.
fn noon<L: Ledger>(alloc: Global, day: &mut Day, steps: &mut Steps<L>) -> Option<()> {
    tick(day, 5_000, steps)?;
    let second = issue_in(alloc, 2, day.moment, 1)?;
    create(day, second, steps)?;
    is(has_members(alloc, &day.filters, 1, &[1]))?;
    is(has_members(alloc, &day.filters, 2, &[1, 2]))?;
    let first = issue_in(alloc, 1, Moment::new(1_000)?, 1)?;
    change(day, first, steps)?;
    is(has_members(alloc, &day.filters, 1, &[]))?;
    is(has_members(alloc, &day.filters, 2, &[1, 2]))
}

/// The issues grow old, a day and a second after they were created.
fn night<L: Ledger>(alloc: Global, day: &mut Day, steps: &mut Steps<L>) -> Option<()> {
    tick(day, 87_400, steps)?;
    is(has_members(alloc, &day.filters, 2, &[1, 2]))?;
    tick(day, 87_401, steps)?;
    is(has_members(alloc, &day.filters, 2, &[2]))?;
    is(day.filters.holds(FilterNo(2), IssueNo(2)) && !day.filters.holds(FilterNo(2), IssueNo(1)))?;
    tick(day, 4_102_444_799, steps)?;
    is(has_members(alloc, &day.filters, 2, &[]))
}

/// The first filter goes, and its number is free.
fn next_day(day: &mut Day) -> Option<()> {
    is(day.filters.named(UserNo(0), "open").is_some())?;
    is(day.filters.named(UserNo(1), "open").is_none())?;
    remove(day, 1)?;
    is(day.filters.named(UserNo(0), "open").is_none())?;
    is(day.filters.len() == 1 && day.filters.free_number().0 == 1)
}

fn passes<L: Ledger>(alloc: Global, blank: Blank) -> Option<()>
    requires name { blank.name ≡ L.name }
    requires parts { blank.parts ≡ L.parts }
    requires some { 0 < L.parts }
{
    let mut steps = Steps::<L>::new(blank);
    let mut day = begin(alloc)?;
    morning(alloc, &mut day, &mut steps)?;
    noon(alloc, &mut day, &mut steps)?;
    night(alloc, &mut day, &mut steps)?;
    next_day(&mut day)
}

#[test]
fn verdicts_end_over_a_day(rt: HostRuntime) {
    let passes = passes::<Brand>(rt.alloc(), Blank::new(1)) == Some(());
    assert!(rt; passes);
}
