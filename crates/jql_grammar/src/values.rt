// What a text stands for where a field is compared with it.
ghost use Rattle.std.specs.Prelude.{◌≡◌, ◌≤◌, option_map, length, IfOk, IfErr};
ghost use Rattle.relative_dates.specs.Reading.{read_term};
ghost use Rattle.jql_grammar.specs.Steps.{Stops, some_or};
ghost use Rattle.jql_grammar.specs.Scope.{scope_of};
ghost use Rattle.jql_grammar.specs.Values.{choice_in, resolution_in, user_in, label_in, number_or_none, number_operand, sprint_in, issue_in, project_in, statuses_of, category_in, value_in};

use crate::column::ValueKind;
use crate::digits::number_in;
use crate::fault::{FaultKind, Stop};
use crate::field_name::is_named;
use crate::forms::{category_named, is_issue_key, is_same_category};
use crate::scope::Binder;
use fields::{
    Category, ChoiceNo, FieldNo, Memory, Names, Project, Sequence, SprintNo, Status, Text, Value,
};
use jql_bound::Operand;
use relative_dates::Term;
use std::alloc::Global;

fn choice_in(binder: &Binder<'_>, field: FieldNo, text: &str) -> Option<Operand>
    ensures { result ≡ choice_in (scope_of binder.now) field.0 text.now }
{
    match binder.setup.choice_named(field, text) {
        Some(no) => Some(Operand::Choice(no)),
        None => None,
    }
}

fn resolution_in(binder: &Binder<'_>, text: &str) -> Option<Operand>
    ensures { result ≡ resolution_in (scope_of binder.now) text.now }
{
    if is_named(text, "Unresolved") {
        Some(Operand::Empty)
    } else {
        choice_in(binder, FieldNo::RESOLUTION, text)
    }
}

fn user_in(binder: &Binder<'_>, text: &str) -> Result<Operand, Stop>
    ensures ok { IfOk result (λ x. user_in (scope_of binder.now) text.now ≡ Ok x) }
    ensures err { IfErr result (Stops (user_in (scope_of binder.now) text.now)) }
{
    match binder.setup.user_named(text) {
        Some(no) => Ok(Operand::User(no)),
        None => Err(Stop::At(FaultKind::UnknownUserOrGroup)),
    }
}

#[tactic(auto, using(crate::proofs::Labels::label_fits))]
fn label_in(binder: &Binder<'_>, text: &str) -> Result<Option<Operand>, Memory>
    ensures { IfOk result (λ x. x ≡ label_in text.now) }
{
    let mut labels = Names::new(binder.alloc);
    labels.push(Text::copy_of(binder.alloc, text)?)?;
    let value = Value::Labels(labels);
    let fits = binder.setup.fits(FieldNo::LABELS, &value);
    drop(value);
    if fits {
        Ok(Some(Operand::Label(Text::copy_of(binder.alloc, text)?)))
    } else {
        Ok(None)
    }
}

fn number_or_none(value: &Option<Value>) -> Option<Operand>
    ensures { result ≡ number_or_none value.now }
{
    match value {
        Some(Value::Number(number)) => Some(Operand::Number(*number)),
        _ => None,
    }
}

fn number_operand(
    binder: &Binder<'_>,
    field: FieldNo,
    text: &str,
) -> Result<Option<Operand>, Memory>
    ensures { IfOk result (λ x. x ≡ number_operand (scope_of binder.now) field.0 text.now) }
{
    let value = binder.setup.value_of(binder.alloc, field, text)?;
    let operand = number_or_none(&value);
    drop(value);
    Ok(operand)
}

fn sprint_in(text: &str) -> Option<Operand>
    ensures { result ≡ sprint_in text.now }
{
    match number_in(text.as_bytes()) {
        Some(number) => Some(Operand::Sprint(SprintNo(number))),
        None => None,
    }
}

fn issue_in(alloc: Global, text: &str) -> Result<Option<Operand>, Memory>
    ensures { IfOk result (λ x. x ≡ issue_in text.now) }
{
    if is_issue_key(text) {
        Ok(Some(Operand::Issue(Text::copy_of(alloc, text)?)))
    } else {
        Ok(None)
    }
}

fn project_named<'a>(binder: &Binder<'a>, text: &str) -> Option<&'a Project>
    ensures { option_map (λ p. p.now) result ≡ project_in (scope_of binder.now) text.now }
{
    match binder.setup.project_named(text) {
        Some(no) => binder.setup.project.as_slice().get(usize::from(no.0)),
        None => None,
    }
}

fn project_in(binder: &Binder<'_>, text: &str) -> Result<Option<Operand>, Memory>
    ensures { IfOk result (λ x. x
        ≡ option_map (λ p. Operand.Project p.key) (project_in (scope_of binder.now) text.now)) }
{
    match project_named(binder, text) {
        Some(project) => Ok(Some(Operand::Project(project.key.copy(binder.alloc)?))),
        None => Ok(None),
    }
}

fn statuses_of(
    alloc: Global,
    category: Category,
    statuses: &[Status],
) -> Result<Sequence<ChoiceNo>, Memory>
    requires { length statuses.now ≤ 50 }
    ensures { IfOk result (λ nos. nos ≡ statuses_of category 0 statuses.now) }
{
    let mut nos = Sequence::new(alloc);
    for (place, status) in statuses.iter().enumerate() {
        if is_same_category(status.category, category) {
            nos.push(ChoiceNo(place as u16))?;
        }
    }
    Ok(nos)
}

fn category_in(binder: &Binder<'_>, text: &str) -> Result<Option<Operand>, Memory>
    ensures { IfOk result (λ x. x ≡ category_in (scope_of binder.now) text.now) }
{
    let Some(category) = category_named(text) else {
        return Ok(None);
    };
    let statuses = statuses_of(binder.alloc, category, binder.setup.status.as_slice())?;
    Ok(Some(Operand::Statuses(statuses)))
}

fn date_in(text: &str) -> Option<Operand>
    ensures { result ≡ option_map Operand.Date (read_term text.now) }
{
    match Term::read(text) {
        Some(term) => Some(Operand::Date(term)),
        None => None,
    }
}

fn or_unknown(operand: Option<Operand>) -> Result<Operand, Stop>
    ensures ok { IfOk result (λ x. some_or FaultKind.UnknownValue operand ≡ Ok x) }
    ensures err { IfErr result (Stops (some_or FaultKind.UnknownValue operand)) }
{
    match operand {
        Some(operand) => Ok(operand),
        None => Err(Stop::At(FaultKind::UnknownValue)),
    }
}

/// The value that a text stands for.
#[tactic(auto, unfolding(crate::specs::Values::value_in))]
pub(crate) fn value_in(binder: &Binder<'_>, kind: ValueKind, text: &str) -> Result<Operand, Stop>
    ensures ok { IfOk result (λ x. value_in (scope_of binder.now) kind text.now ≡ Ok x) }
    ensures err { IfErr result (Stops (value_in (scope_of binder.now) kind text.now)) }
{
    match kind {
        ValueKind::Text => Err(Stop::At(FaultKind::UnknownValue)),
        ValueKind::Choice(field) => or_unknown(choice_in(binder, field, text)),
        ValueKind::Priority => or_unknown(choice_in(binder, FieldNo::PRIORITY, text)),
        ValueKind::Resolution => or_unknown(resolution_in(binder, text)),
        ValueKind::User => user_in(binder, text),
        ValueKind::Versions => or_unknown(choice_in(binder, FieldNo::FIX_VERSION, text)),
        ValueKind::Labels => or_unknown(label_in(binder, text)?),
        ValueKind::Date => or_unknown(date_in(text)),
        ValueKind::Number(field) => or_unknown(number_operand(binder, field, text)?),
        ValueKind::Sprint => or_unknown(sprint_in(text)),
        ValueKind::Project => or_unknown(project_in(binder, text)?),
        ValueKind::Key => or_unknown(issue_in(binder.alloc, text)?),
        ValueKind::Category => or_unknown(category_in(binder, text)?),
    }
}
