// Each call of a load by itself.
ghost use Rattle.std.specs.Prelude.{◌≡◌, ◌≤◌, [], IfOk};
ghost use Rattle.tracker_calls.specs.declared.call.Call.TheVariants as call;
ghost use Rattle.tracker_calls.specs.declared.given.Given.{Given};
ghost use Rattle.tracker_import.specs.Load.{create, finish, into_sprint, key, make_sprint, move_up, save_filter, start, step, with_value};

use field_values::{Memory, Moment, Text};
use std::alloc::Global;
use tracker_calls::{Call, Given, GivenField, GivenFields, ToldText};

/// A tick to that second.
pub fn tick(to: u32) -> Call
    requires { to ≤ 1_000_000 }
    ensures { result ≡ call.Tick to }
{
    match Moment::new(u64::from(to)) {
        Some(to) => Call::Tick { to },
        None => unreachable!(),
    }
}

/// A new issue of that number, with points from 0 to 7.
pub fn create(alloc: Global, i: u32) -> Result<Call, Memory>
    ensures { IfOk result (λ c. c ≡ create i) }
{
    let points = i % 8;
    let points = ToldText::of(Text::of(format!(in alloc; "{points}")?));
    let set = with_value(alloc, "points", Given::Text(points))?;
    let summary = Text::of(format!(in alloc; "load {i}")?);
    let project = ToldText::copy_of(alloc, "OPS")?;
    let issue_type = ToldText::copy_of(alloc, "Task")?;
    Ok(Call::Create {
        project,
        issue_type,
        summary,
        set,
        external: None,
    })
}

pub fn make_sprint(alloc: Global) -> Result<Call, Memory>
    ensures { IfOk result (λ c. c ≡ make_sprint) }
{
    let name = Text::copy_of(alloc, "load")?;
    Ok(Call::MakeSprint { name })
}

/// The issue of that number comes into the first sprint.
pub fn into_sprint(alloc: Global, i: u32) -> Result<Call, Memory>
    ensures { IfOk result (λ c. c ≡ into_sprint i) }
{
    let issue = key(alloc, i)?;
    let set = with_value(alloc, "sprint", Given::Number(1))?;
    Ok(Call::Edit { issue, set })
}

/// A filter of issues that were finished within a day.
pub fn save_filter(alloc: Global) -> Result<Call, Memory>
    ensures { IfOk result (λ c. c ≡ save_filter) }
{
    let name = Text::copy_of(alloc, "load")?;
    let jql = Text::copy_of(alloc, "status CHANGED TO Done AFTER -1d")?;
    Ok(Call::SaveFilter { name, jql })
}

pub fn start(alloc: Global, i: u32) -> Result<Call, Memory>
    ensures { IfOk result (λ c. c ≡ start i) }
{
    transition(alloc, i, "Start")
}

pub fn finish(alloc: Global, i: u32) -> Result<Call, Memory>
    ensures { IfOk result (λ c. c ≡ finish i) }
{
    transition(alloc, i, "Finish")
}

fn transition(alloc: Global, i: u32, name: &str) -> Result<Call, Memory>
    ensures { IfOk result (λ c. c ≡ call.Transition (key i) name.now []) }
{
    let issue = key(alloc, i)?;
    let transition = ToldText::copy_of(alloc, name)?;
    Ok(Call::Transition {
        issue,
        transition,
        set: GivenFields::new(alloc),
    })
}

/// The issue of that number goes before the one that was made ahead of it.
pub fn move_up(alloc: Global, i: u32) -> Result<Call, Memory>
    requires { 1 ≤ i }
    ensures { IfOk result (λ c. c ≡ move_up i) }
{
    let issue = key(alloc, i)?;
    let other = key(alloc, i - 1)?;
    Ok(Call::MoveBefore { issue, other })
}

pub fn step() -> Call
    ensures { result ≡ step }
{
    Call::RebalanceStep { count: 1_000 }
}

// The key of the issue of that number.
fn key(alloc: Global, i: u32) -> Result<ToldText, Memory>
    ensures { IfOk result (λ text. text ≡ key i) }
{
    Ok(ToldText::of(Text::of(format!(in alloc; "OPS-{i}")?)))
}

// A value for one field.
fn with_value(alloc: Global, name: &str, given: Given) -> Result<GivenFields, Memory>
    ensures { IfOk result (λ set. set ≡ with_value name.now given) }
{
    let name = ToldText::copy_of(alloc, name)?;
    let mut set = GivenFields::new(alloc);
    set.push(GivenField { name, given })?;
    Ok(set)
}
