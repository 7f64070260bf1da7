// The call `describe`: what the setup and the present say to whoever asks.
ghost use Rattle.std.specs.Prelude.{◌≡◌, IfOk, OnOk, map};
ghost use Rattle.std.specs.Ordering.{nat_cmp};
ghost use Rattle.fields.specs.SetupParts.{parts, names};
ghost use Rattle.told_setups.specs.Told.{told_field};
ghost use Rattle.tracker_machine.specs.Describe.{described, describe_meaning, fields_by_number};
ghost use Rattle.tracker_machine.specs.Describe.{is_less};
ghost use Rattle.tracker_machine.specs.Listing.{in_order};
ghost use Rattle.tracker_state.specs.Plan.{IsPrepared};

use fields::{FieldNo, Memory, Moment, Permission, Setup, UserNo};
use std::alloc::Global;
use std::cmp::Ordering;
use told_setups::{
    copy_names, minutes_at, status_name, told_field, told_groups, told_projects, told_statuses,
    told_transitions, user_name,
};
use tracker_calls::{Answer, DescribedParts, Description, Refusal, ToldFields, ToldText};
use tracker_state::{Prepared, State};

/// Tells what there is.
pub fn describe(alloc: Global, state: &State, caller: UserNo) -> Result<Prepared, Refusal>
    ensures { IsPrepared (describe_meaning state.now.machine caller.0) state.now result }
{
    let told = description(alloc, state.setup(), state.moment(), caller)?;
    Ok(Prepared::Tell(Answer::Describe { told }))
}

fn description(
    alloc: Global,
    setup: &Setup,
    moment: Moment,
    caller: UserNo,
) -> Result<Description, Memory>
    ensures { IfOk result (λ told. told ≡ described (parts setup.now) moment caller.0) }
{
    let parts = described(alloc, setup, moment, caller)?;
    Description::of(alloc, parts)
}

#[tactic(auto, unfolding(tracker_machine::specs::Describe::described))]
fn described(
    alloc: Global,
    setup: &Setup,
    moment: Moment,
    caller: UserNo,
) -> Result<DescribedParts, Memory>
    ensures { IfOk result (λ told. told ≡ described (parts setup.now) moment caller.0) }
{
    let fields = fields_by_number(alloc, setup)?;
    let first_status = ToldText::copy_of(alloc, status_name(setup, setup.first_status))?;
    let groups = told_groups(alloc, setup)?;
    let projects = told_projects(alloc, setup, caller)?;
    let rebalancer = ToldText::copy_of(alloc, user_name(setup, setup.rebalancer))?;
    let statuses = told_statuses(alloc, setup.status.as_slice())?;
    let transitions = told_transitions(alloc, setup)?;
    let user = ToldText::copy_of(alloc, user_name(setup, caller))?;
    let users = copy_names(alloc, setup.users.as_slice())?;
    Ok(DescribedParts {
        administer: setup.may(caller, Permission::Administer, None),
        fields,
        first_status,
        groups,
        moment,
        offset_minutes: minutes_at(setup, moment),
        plan: setup.may(caller, Permission::Plan, None),
        projects,
        rebalancer,
        statuses,
        transitions,
        user,
        users,
        week_starts: setup.week_starts,
    })
}

fn fields_by_number(alloc: Global, setup: &Setup) -> Result<ToldFields, Memory>
    ensures { IfOk result (λ told. told ≡ fields_by_number (parts setup.now)) }
{
    let mut numbers = setup.field_numbers(alloc)?;
    put_in_order(&mut numbers)?;
    told_fields(alloc, setup, &numbers)
}

fn put_in_order(numbers: &mut Vec<FieldNo>) -> Result<(), Memory>
    ensures { OnOk result (map (λ f. f.0) numbers.new.items
        ≡ in_order is_less (map (λ f. f.0) numbers.old.items)) }
{
    numbers.sort_by(|one, other| numbers_cmp(*one, *other))?;
    Ok(())
}

fn numbers_cmp(one: FieldNo, other: FieldNo) -> Ordering
    ensures { result ≡ nat_cmp one.0 other.0 }
{
    one.0.cmp(&other.0)
}

fn told_fields(alloc: Global, setup: &Setup, numbers: &[FieldNo]) -> Result<ToldFields, Memory>
    ensures { IfOk result (λ told. told
        ≡ map (told_field (names setup.now)) (map (λ f. f.0) numbers.now)) }
{
    let mut told = ToldFields::new(alloc);
    for number in numbers {
        told.push(told_field(alloc, setup, *number)?)?;
    }
    Ok(told)
}
