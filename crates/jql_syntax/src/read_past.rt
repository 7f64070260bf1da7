// What is asked of changes: when, by whom, from what and to what.
ghost use Rattle.std.specs.Prelude.{◌≡◌, [], ◌∷◌, ◌++◌, map, IfOk, IfErr};
ghost use Rattle.jql_syntax.specs.Node.{a_value, a_predicate, an_aspect, during, after, before, on_day, by_author, predicate_aspect, from_choice, to_choice};
ghost use Rattle.jql_syntax.specs.Form.{one, both, either, many, rule};
ghost use Rattle.jql_syntax.specs.Grammar.{two_dates, later_predicate, key, date, predicate, aspect, on_dates, some, author, item};
ghost use Rattle.jql_syntax.specs.Machine.{first, look};
ghost use Rattle.jql_syntax.specs.Reader.{Goes, Stops, words};
ghost use Rattle.jql_syntax.specs.declared.token.Mark.TheVariants.{Open, Close, Comma, After, Before, On, During, By, From, To};

use crate::query::{Aspect, Predicate, Value};
use crate::read_list::{read_keyed_choice, read_keyed_date};
use crate::read_value::read_date;
use crate::take::{Stop, fault, starts, take};
use crate::token::{Mark, Placed};
use field_values::Sequence;
use std::alloc::Global;

// A comma, the later of two dates and the parenthesis behind it.
fn read_end(alloc: Global, ts: &[Placed]) -> Result<(Value, &[Placed]), Stop>
    ensures ok { IfOk result (λ x. Goes (both (key Comma) (both date (key Close))) ts.now x.1.now
        (a_value x.0 ∷ [])) }
    ensures err { IfErr result (Stops (both (key Comma) (both date (key Close))) ts.now) }
{
    let Some(next) = take(Mark::Comma, ts) else {
        return Err(fault(ts));
    };
    let (end, rest) = read_date(alloc, next)?;
    match take(Mark::Close, rest) {
        Some(after) => Ok((end, after)),
        None => {
            drop(end);
            Err(fault(rest))
        }
    }
}

// Two dates in parentheses, behind their keyword.
fn read_dates(alloc: Global, ts: &[Placed]) -> Result<(Value, Value, &[Placed]), Stop>
    ensures ok { IfOk result (λ x. Goes two_dates ts.now x.2.now (a_value x.0 ∷ a_value x.1 ∷ [])) }
    ensures err { IfErr result (Stops two_dates ts.now) }
{
    let Some(inside) = take(Mark::Open, ts) else {
        return Err(fault(ts));
    };
    let (start, after) = read_date(alloc, inside)?;
    match read_end(alloc, after) {
        Ok((end, rest)) => Ok((start, end, rest)),
        Err(stop) => {
            drop(start);
            Err(stop)
        }
    }
}

// DURING and two dates.
fn read_during(alloc: Global, ts: &[Placed]) -> Result<(Predicate, &[Placed]), Stop>
    ensures ok { IfOk result (λ x. Goes (rule during on_dates) ts.now x.1.now
        (a_predicate x.0 ∷ [])) }
    ensures err { IfErr result (Stops (rule during on_dates) ts.now) }
{
    let Some(rest) = take(Mark::During, ts) else {
        return Err(fault(ts));
    };
    let (start, end, rest) = read_dates(alloc, rest)?;
    Ok((Predicate::During(start, end), rest))
}

// BY and an author or a list of them.
fn read_by(alloc: Global, ts: &[Placed]) -> Result<(Predicate, &[Placed]), Stop>
    ensures ok { IfOk result (λ x. Goes
        (rule by_author (both (key By) (some author))) ts.now x.1.now (a_predicate x.0 ∷ [])) }
    ensures err { IfErr result (Stops (rule by_author (both (key By) (some author))) ts.now) }
{
    let (choice, rest) = read_keyed_choice(alloc, Mark::By, true, ts)?;
    Ok((Predicate::By(choice), rest))
}

// BEFORE, ON, DURING or BY.
fn read_later_predicate(alloc: Global, ts: &[Placed]) -> Result<(Predicate, &[Placed]), Stop>
    ensures ok { IfOk result (λ x. Goes later_predicate ts.now x.1.now (a_predicate x.0 ∷ [])) }
    ensures err { IfErr result (Stops later_predicate ts.now) }
{
    if starts(Mark::Before, ts) {
        let (date, rest) = read_keyed_date(alloc, Mark::Before, ts)?;
        return Ok((Predicate::Before(date), rest));
    }
    if starts(Mark::On, ts) {
        let (date, rest) = read_keyed_date(alloc, Mark::On, ts)?;
        return Ok((Predicate::On(date), rest));
    }
    if starts(Mark::During, ts) {
        return read_during(alloc, ts);
    }
    read_by(alloc, ts)
}

// What is asked of a change's moment or its author.
fn read_predicate(alloc: Global, ts: &[Placed]) -> Result<(Predicate, &[Placed]), Stop>
    ensures ok { IfOk result (λ x. Goes predicate ts.now x.1.now (a_predicate x.0 ∷ [])) }
    ensures err { IfErr result (Stops predicate ts.now) }
{
    if starts(Mark::After, ts) {
        let (date, rest) = read_keyed_date(alloc, Mark::After, ts)?;
        return Ok((Predicate::After(date), rest));
    }
    read_later_predicate(alloc, ts)
}

fn starts_predicate(ts: &[Placed]) -> bool
    ensures { result ≡ first predicate (look (words ts.now)) }
{
    starts(Mark::After, ts)
        || starts(Mark::Before, ts)
        || starts(Mark::On, ts)
        || starts(Mark::During, ts)
        || starts(Mark::By, ts)
}

/// All predicates that follow.
pub(crate) fn read_predicates(
    alloc: Global,
    ts: &[Placed],
) -> Result<(Sequence<Predicate>, &[Placed]), Stop>
    ensures ok { IfOk result (λ x. Goes (many predicate) ts.now x.1.now (map a_predicate x.0)) }
    ensures err { IfErr result (Stops (many predicate) ts.now) }
{
    let mut predicates = Sequence::new(alloc);
    let mut rest = ts;
    'predicates: while starts_predicate(rest) {
        let (predicate, after) = read_predicate(alloc, rest)?;
        predicates.push(predicate)?;
        rest = after;
    }
    Ok((predicates, rest))
}

// A predicate, FROM or TO.
fn read_aspect(alloc: Global, ts: &[Placed]) -> Result<(Aspect, &[Placed]), Stop>
    ensures ok { IfOk result (λ x. Goes aspect ts.now x.1.now (an_aspect x.0 ∷ [])) }
    ensures err { IfErr result (Stops aspect ts.now) }
{
    if starts_predicate(ts) {
        let (predicate, rest) = read_predicate(alloc, ts)?;
        return Ok((Aspect::Predicate(predicate), rest));
    }
    if starts(Mark::From, ts) {
        let (choice, rest) = read_keyed_choice(alloc, Mark::From, false, ts)?;
        return Ok((Aspect::From(choice), rest));
    }
    let (choice, rest) = read_keyed_choice(alloc, Mark::To, false, ts)?;
    Ok((Aspect::To(choice), rest))
}

fn starts_aspect(ts: &[Placed]) -> bool
    ensures { result ≡ first aspect (look (words ts.now)) }
{
    starts_predicate(ts) || starts(Mark::From, ts) || starts(Mark::To, ts)
}

/// All that follows CHANGED.
pub(crate) fn read_aspects(
    alloc: Global,
    ts: &[Placed],
) -> Result<(Sequence<Aspect>, &[Placed]), Stop>
    ensures ok { IfOk result (λ x. Goes (many aspect) ts.now x.1.now (map an_aspect x.0)) }
    ensures err { IfErr result (Stops (many aspect) ts.now) }
{
    let mut aspects = Sequence::new(alloc);
    let mut rest = ts;
    'aspects: while starts_aspect(rest) {
        let (aspect, after) = read_aspect(alloc, rest)?;
        aspects.push(aspect)?;
        rest = after;
    }
    Ok((aspects, rest))
}
