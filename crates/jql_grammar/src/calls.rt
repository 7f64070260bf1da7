// What functions stand for.
ghost use Rattle.std.specs.Prelude.{◌≡◌, IfOk, IfErr};
ghost use Rattle.relative_dates.specs.Call.{call_of};
ghost use Rattle.jql_grammar.specs.Steps.{Stops};
ghost use Rattle.jql_grammar.specs.Scope.{scope_of};
ghost use Rattle.jql_grammar.specs.Calls.{without, user_called, term_or_fault, date_called, value_called, sprint_function, list_function, group_in, members_called, list_called, list_alone, any_called};

use crate::column::ValueKind;
use crate::fault::{FaultKind, Stop};
use crate::field_name::is_named;
use crate::scope::Binder;
use fields::Text;
use jql_bound::{Operand, Phase};
use jql_syntax::Call;
use relative_dates::{Term, TermCall};

/// A function that stands for a list.
#[derive(Clone, Copy, PartialEq, Eq)]
pub(crate) enum ListFunction {
    /// The members of a group.
    Members,
    /// The sprints of a phase.
    Sprints(Phase),
}

// What a function without an argument stands for.
fn without(operand: Operand, argument: &Option<Text>) -> Result<Operand, Stop>
    ensures ok { IfOk result (λ x. without operand argument.now ≡ Ok x) }
    ensures err { IfErr result (Stops (without operand argument.now)) }
{
    match argument {
        None => Ok(operand),
        Some(_) => Err(Stop::At(FaultKind::UnknownValue)),
    }
}

// The user who asks.
fn user_called(binder: &Binder<'_>, call: &Call) -> Result<Operand, Stop>
    ensures ok { IfOk result (λ x. user_called (scope_of binder.now) call.now ≡ Ok x) }
    ensures err { IfErr result (Stops (user_called (scope_of binder.now) call.now)) }
{
    if is_named(call.name.as_str(), "currentUser") {
        without(Operand::User(binder.caller), &call.argument)
    } else {
        Err(Stop::At(FaultKind::UnknownFunction))
    }
}

fn term_or_fault(answer: TermCall) -> Result<Term, Stop>
    ensures ok { IfOk result (λ term. term_or_fault answer ≡ Ok term) }
    ensures err { IfErr result (Stops (term_or_fault answer)) }
{
    match answer {
        TermCall::Is(term) => Ok(term),
        TermCall::NoSuchName => Err(Stop::At(FaultKind::UnknownFunction)),
        TermCall::BadArgument => Err(Stop::At(FaultKind::UnknownValue)),
    }
}

fn term_called(name: &str, argument: &Option<Text>) -> TermCall
    ensures { result ≡ call_of name.now argument.now }
{
    match argument {
        None => Term::call(name, None),
        Some(text) => Term::call(name, Some(text.as_str())),
    }
}

/// The date that a function stands for.
pub(crate) fn date_called(call: &Call) -> Result<Term, Stop>
    ensures ok { IfOk result (λ term. date_called call.now ≡ Ok term) }
    ensures err { IfErr result (Stops (date_called call.now)) }
{
    term_or_fault(term_called(call.name.as_str(), &call.argument))
}

/// The one value that a function stands for.
pub(crate) fn value_called(
    binder: &Binder<'_>,
    kind: ValueKind,
    call: &Call,
) -> Result<Operand, Stop>
    ensures ok { IfOk result (λ x. value_called (scope_of binder.now) kind call.now ≡ Ok x) }
    ensures err { IfErr result (Stops (value_called (scope_of binder.now) kind call.now)) }
{
    match kind {
        ValueKind::User => user_called(binder, call),
        ValueKind::Date => {
            let term = date_called(call)?;
            Ok(Operand::Date(term))
        }
        _ => Err(Stop::At(FaultKind::UnknownFunction)),
    }
}

fn sprint_function(name: &str) -> Option<ListFunction>
    ensures { result ≡ sprint_function name.now }
{
    if is_named(name, "openSprints") {
        Some(ListFunction::Sprints(Phase::Active))
    } else if is_named(name, "closedSprints") {
        Some(ListFunction::Sprints(Phase::Closed))
    } else if is_named(name, "futureSprints") {
        Some(ListFunction::Sprints(Phase::Future))
    } else {
        None
    }
}

// The function of that name that stands for a list of the field's values.
fn list_function(kind: ValueKind, name: &str) -> Option<ListFunction>
    ensures { result ≡ list_function kind name.now }
{
    match kind {
        ValueKind::User if is_named(name, "membersOf") => Some(ListFunction::Members),
        ValueKind::Sprint => sprint_function(name),
        _ => None,
    }
}

fn group_in(binder: &Binder<'_>, name: &str) -> Option<Operand>
    ensures { result ≡ group_in (scope_of binder.now) name.now }
{
    match binder.setup.group_named(name) {
        Some(no) => Some(Operand::MembersOf(no)),
        None => None,
    }
}

// The members of the group that the argument names.
fn members_called(binder: &Binder<'_>, argument: &Option<Text>) -> Result<Operand, Stop>
    ensures ok { IfOk result (λ x. members_called (scope_of binder.now) argument.now ≡ Ok x) }
    ensures err { IfErr result (Stops (members_called (scope_of binder.now) argument.now)) }
{
    let Some(name) = argument else {
        return Err(Stop::At(FaultKind::UnknownValue));
    };
    match group_in(binder, name.as_str()) {
        Some(operand) => Ok(operand),
        None => Err(Stop::At(FaultKind::UnknownUserOrGroup)),
    }
}

fn list_called(
    binder: &Binder<'_>,
    function: ListFunction,
    argument: &Option<Text>,
) -> Result<Operand, Stop>
    ensures ok { IfOk result (λ x. list_called (scope_of binder.now) function argument.now ≡ Ok x) }
    ensures err { IfErr result (Stops (list_called (scope_of binder.now) function argument.now)) }
{
    match function {
        ListFunction::Members => members_called(binder, argument),
        ListFunction::Sprints(phase) => without(Operand::SprintsIn(phase), argument),
    }
}

/// What a function stands for where a list is wanted.
pub(crate) fn list_alone(binder: &Binder<'_>, kind: ValueKind, call: &Call) -> Result<Operand, Stop>
    ensures ok { IfOk result (λ x. list_alone (scope_of binder.now) kind call.now ≡ Ok x) }
    ensures err { IfErr result (Stops (list_alone (scope_of binder.now) kind call.now)) }
{
    match list_function(kind, call.name.as_str()) {
        Some(function) => list_called(binder, function, &call.argument),
        None => Err(Stop::At(FaultKind::UnknownFunction)),
    }
}

/// What a function stands for where a list or one value is wanted.
pub(crate) fn any_called(binder: &Binder<'_>, kind: ValueKind, call: &Call) -> Result<Operand, Stop>
    ensures ok { IfOk result (λ x. any_called (scope_of binder.now) kind call.now ≡ Ok x) }
    ensures err { IfErr result (Stops (any_called (scope_of binder.now) kind call.now)) }
{
    match list_function(kind, call.name.as_str()) {
        Some(function) => list_called(binder, function, &call.argument),
        None => value_called(binder, kind, call),
    }
}
