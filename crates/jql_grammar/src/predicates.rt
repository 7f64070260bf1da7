// What is asked of a change, or of a time at which a field had a value.
ghost use Rattle.std.specs.Prelude.{◌≡◌, IfOk, IfErr};
ghost use Rattle.jql_grammar.specs.Steps.{Stops};
ghost use Rattle.jql_grammar.specs.Scope.{scope_of};
ghost use Rattle.jql_grammar.specs.Dates.{date_in};
ghost use Rattle.jql_grammar.specs.Predicates.{predicate_in, predicates_in, endpoint_in, endpoints_in, other_aspect, other_aspects};

use crate::calls::date_called;
use crate::column::ValueKind;
use crate::fault::{FaultKind, Stop};
use crate::items::{authors_in, choice_of};
use crate::scope::Binder;
use fields::Sequence;
use jql_bound::{Endpoint, PastPredicate};
use jql_syntax::{Aspect, Predicate, Value};
use relative_dates::Term;

// A date.
fn date_in(value: &Value) -> Result<Term, Stop>
    ensures ok { IfOk result (λ term. date_in value.now ≡ Ok term) }
    ensures err { IfErr result (Stops (date_in value.now)) }
{
    match value {
        Value::Text(text) => match Term::read(text.as_str()) {
            Some(term) => Ok(term),
            None => Err(Stop::At(FaultKind::UnknownValue)),
        },
        Value::Call(call) => date_called(call),
    }
}

fn predicate_in(binder: &Binder<'_>, predicate: &Predicate) -> Result<PastPredicate, Stop>
    ensures ok { IfOk result (λ x. predicate_in (scope_of binder.now) predicate.now ≡ Ok x) }
    ensures err { IfErr result (Stops (predicate_in (scope_of binder.now) predicate.now)) }
{
    match predicate {
        Predicate::After(date) => {
            let term = date_in(date)?;
            Ok(PastPredicate::After(term))
        }
        Predicate::Before(date) => {
            let term = date_in(date)?;
            Ok(PastPredicate::Before(term))
        }
        Predicate::On(date) => {
            let term = date_in(date)?;
            Ok(PastPredicate::On(term))
        }
        Predicate::During(first, last) => {
            let first = date_in(first)?;
            let last = date_in(last)?;
            Ok(PastPredicate::During(first, last))
        }
        Predicate::By(choice) => {
            let authors = authors_in(binder, choice)?;
            Ok(PastPredicate::By(authors))
        }
    }
}

/// The predicates of a test with WAS.
pub(crate) fn predicates_in(
    binder: &Binder<'_>,
    predicates: &[Predicate],
) -> Result<Sequence<PastPredicate>, Stop>
    ensures ok { IfOk result (λ xs. predicates_in (scope_of binder.now) predicates.now ≡ Ok xs) }
    ensures err { IfErr result (Stops (predicates_in (scope_of binder.now) predicates.now)) }
{
    let mut bound = Sequence::new(binder.alloc);
    for predicate in predicates {
        bound.push(predicate_in(binder, predicate)?)?;
    }
    Ok(bound)
}

// The side of a change that an aspect asks for.
fn endpoint_in(
    binder: &Binder<'_>,
    kind: ValueKind,
    aspect: &Aspect,
) -> Result<Option<Endpoint>, Stop>
    ensures ok { IfOk result (λ x. endpoint_in (scope_of binder.now) kind aspect.now ≡ Ok x) }
    ensures err { IfErr result (Stops (endpoint_in (scope_of binder.now) kind aspect.now)) }
{
    match aspect {
        Aspect::Predicate(_) => Ok(None),
        Aspect::From(choice) => {
            let operands = choice_of(binder, kind, choice)?;
            Ok(Some(Endpoint::From(operands)))
        }
        Aspect::To(choice) => {
            let operands = choice_of(binder, kind, choice)?;
            Ok(Some(Endpoint::To(operands)))
        }
    }
}

// The predicate that an aspect is.
fn other_aspect(binder: &Binder<'_>, aspect: &Aspect) -> Result<Option<PastPredicate>, Stop>
    ensures ok { IfOk result (λ x. other_aspect (scope_of binder.now) aspect.now ≡ Ok x) }
    ensures err { IfErr result (Stops (other_aspect (scope_of binder.now) aspect.now)) }
{
    match aspect {
        Aspect::Predicate(predicate) => {
            let bound = predicate_in(binder, predicate)?;
            Ok(Some(bound))
        }
        Aspect::From(_) | Aspect::To(_) => Ok(None),
    }
}

/// The values that a change is to go from and to.
pub(crate) fn endpoints_in(
    binder: &Binder<'_>,
    kind: ValueKind,
    aspects: &[Aspect],
) -> Result<Sequence<Endpoint>, Stop>
    ensures ok { IfOk result (λ xs. endpoints_in (scope_of binder.now) kind aspects.now ≡ Ok xs) }
    ensures err { IfErr result (Stops (endpoints_in (scope_of binder.now) kind aspects.now)) }
{
    let mut endpoints = Sequence::new(binder.alloc);
    for aspect in aspects {
        if let Some(endpoint) = endpoint_in(binder, kind, aspect)? {
            endpoints.push(endpoint)?;
        }
    }
    Ok(endpoints)
}

/// The predicates of a test with CHANGED.
pub(crate) fn other_aspects(
    binder: &Binder<'_>,
    aspects: &[Aspect],
) -> Result<Sequence<PastPredicate>, Stop>
    ensures ok { IfOk result (λ xs. other_aspects (scope_of binder.now) aspects.now ≡ Ok xs) }
    ensures err { IfErr result (Stops (other_aspects (scope_of binder.now) aspects.now)) }
{
    let mut bound = Sequence::new(binder.alloc);
    for aspect in aspects {
        if let Some(predicate) = other_aspect(binder, aspect)? {
            bound.push(predicate)?;
        }
    }
    Ok(bound)
}
