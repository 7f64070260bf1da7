// The names in `set` that stand for nothing.
ghost use Rattle.std.specs.Prelude.{◌≡◌, map, option_map, None};
ghost use Rattle.tracker_machine.specs.Wanted.{sprint_number};
ghost use Rattle.tracker_machine.specs.Checks.{sprint_given, missing_sprint, names_refusal};
ghost use Rattle.wanted_values.specs.Resolved.{resolved, refusal_of, sooner_of, found_with, first_of};
ghost use Rattle.wanted_values.specs.Wants.{unknown_name_refusal};

use crate::resolved::{ResolvedName, ResolvedSet};
use field_forms::form::is_before;
use fields::{FieldNo, SprintNo};
use tracker_calls::Given;
use tracker_work::Work;

/// A name in `set` that stands for nothing.
#[derive(Clone, Copy)]
pub enum UnknownName<'a> {
    /// It is no field's.
    Field(&'a str),
    /// It is the sprint field's, and there is no sprint of the number that is given.
    Sprint(u32),
}

/// The number of a sprint.
pub fn sprint_number(given: &Given) -> Option<u32>
    ensures { result ≡ sprint_number given.now }
{
    match given {
        Given::Number(number) if *number <= 4_294_967_295 => Some(*number as u32),
        _ => None,
    }
}

/// The sprint into which `set` puts the issue.
pub fn sprint_given(set: &ResolvedSet<'_>) -> Option<u32>
    ensures { result ≡ sprint_given set.now.setup.field set.now.set }
{
    match set.given_for(FieldNo::SPRINT) {
        Some(given) => sprint_number(given),
        None => None,
    }
}

/// The same where that sprint isn't there.
pub fn missing_sprint(sprint: Option<u32>, work: &Work) -> Option<u32>
    ensures { result ≡ missing_sprint work.now.seen.sprints sprint }
{
    match sprint {
        Some(number) => match work.state(SprintNo(number)) {
            Some(_) => None,
            None => Some(number),
        },
        None => None,
    }
}

fn unknown_name<'a>(name: ResolvedName<'a>, missing: Option<u32>) -> Option<UnknownName<'a>>
    ensures { option_map unknown_name_refusal result ≡ refusal_of missing (resolved name.entry) }
{
    match name.field {
        None => Some(UnknownName::Field(name.name)),
        Some(field) => {
            if field != FieldNo::SPRINT {
                return None;
            }
            match missing {
                Some(number) => Some(UnknownName::Sprint(number)),
                None => None,
            }
        }
    }
}

// Of a name found before and another the one that comes first in byte order.
fn sooner<'a>(found: Option<ResolvedName<'a>>, name: ResolvedName<'a>) -> ResolvedName<'a>
    ensures { resolved result ≡ sooner_of (option_map resolved found.entry) (resolved name.entry) }
{
    match found {
        None => name,
        Some(found) => {
            if is_before(name.name, found.name) {
                name
            } else {
                found
            }
        }
    }
}

// The first name found so far, after one more.
fn found_after<'a>(
    found: Option<ResolvedName<'a>>,
    name: ResolvedName<'a>,
    missing: Option<u32>,
) -> Option<ResolvedName<'a>>
    ensures { option_map resolved result
        ≡ found_with missing (option_map resolved found.entry) (resolved name.entry) }
{
    match unknown_name(name, missing) {
        Some(_) => Some(sooner(found, name)),
        None => found,
    }
}

// The first of some names, in byte order, that stand for nothing.
fn first_refused<'a>(names: &[ResolvedName<'a>], missing: Option<u32>) -> Option<ResolvedName<'a>>
    ensures { option_map resolved result ≡ first_of missing None (map resolved names.now) }
{
    let mut found = None;
    for name in names {
        found = found_after(found, *name, missing);
    }
    found
}

/// The first name in `set`, in byte order, that stands for nothing; that sprint is missing, if there is one.
pub fn first_unknown_name<'a>(
    set: &ResolvedSet<'a>,
    missing: Option<u32>,
) -> Option<UnknownName<'a>>
    ensures { option_map unknown_name_refusal result
        ≡ names_refusal set.now.setup.field missing set.now.set }
{
    match first_refused(set.names(), missing) {
        Some(name) => unknown_name(name, missing),
        None => None,
    }
}
