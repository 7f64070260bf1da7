use crate::values::is_spelled;
use field_values::numbers::{ChoiceNo, Day, FieldNo, GroupNo, UserNo};
use field_values::rules::Permission;
use field_values::sequence::Sequence;
use field_values::value::Value;
use fields::{Memory, Setup};
use setup_drafts::fault::SetupFault;
use setup_reading::built_in_text::BUILT_IN;
use std::alloc::Global;

/// A field's name, a text, and the text of the value that it stands for there, which is empty for the value Empty. `!` stands for
/// none.
const VALUES: &str = r#"type | bug | Bug
type | Epic | !
type |  | !
summary | Fix login | Fix login
summary |  | !
status | in progress | In Progress
assignee | ANNA | anna
assignee | zed | !
reporter | Root | root
priority | LOW | Low
resolution | fixed | Fixed
resolution | Unresolved | !
fixVersion | ["1.1","1.0","1.1"] | ["1.0","1.1"]
fixVersion |  [ "1.1" ]  | ["1.1"]
fixVersion | ["2.0"] | !
fixVersion | 1.0 | !
fixVersion | [1.0] | !
fixVersion | [] | 
labels | ["b","a","b"] | ["a","b"]
labels | ["B","a"] | ["B","a"]
labels | ["a b"] | !
labels | [""] | !
labels | ["0123456789012345678901234567890123456789012345678901234567890123"] | ["0123456789012345678901234567890123456789012345678901234567890123"]
labels | ["01234567890123456789012345678901234567890123456789012345678901234"] | !
labels | ["a","a","a","a","a","a","a","a","a","a","a","a","a","a","a","a"] | ["a"]
labels | ["a","a","a","a","a","a","a","a","a","a","a","a","a","a","a","a","a"] | !
labels | [] | 
due | 2024-02-29 | 2024-02-29
due | 2023-02-29 | !
due | 2000-02-29 | 2000-02-29
due | 1970-01-01 | 1970-01-01
due | 1969-12-31 | !
due | 2099-12-31 | 2099-12-31
due | 2100-01-01 | !
due | 2024-4-01 | !
due | 2024/04/01 | !
due | 2024-13-01 | !
due | 2024-00-10 | !
due | 2024-04-31 | !
points | 007.50 | 7.5
points | 5 | 5
points | -0 | 0
points | 0.000 | 0
points | -1 | !
points | +1 | !
points | 1.2345 | !
points | 1. | !
points | .5 | !
points |  | !
points | - | !
points | 1.2.3 | !
points | 1234567890 | !
points | 0000000001 | !
points | 999999999.999 | 999999999.999
points | 0.05 | 0.05
points | 0.005 | 0.005
points | 10.020 | 10.02
sprint | 12 | 12
sprint | 0 | 0
sprint | 012 | !
sprint | 4294967295 | 4294967295
sprint | 4294967296 | !
nothing | x | !"#;

/// The same of texts of several lines, and of texts with a tab.
const LONGER_VALUES: [(&str, &str, Option<&str>); 4] = [
    ("summary", "two\nlines", None),
    ("summary", "a\ttab", None),
    ("description", "two\nlines", Some("two\nlines")),
    ("description", "a\ttab", Some("a\ttab")),
];

/// Whether the text stands for that value in the field; a name of no field stands for a number that none has.
fn is_value(alloc: Global, setup: &Setup, name: &str, text: &str, wanted: Option<&str>) -> bool {
    let field = setup.field_named(name).unwrap_or(FieldNo(14));
    match setup.value_of(alloc, field, text) {
        Ok(Some(value)) => match wanted {
            Some(wanted) => is_spelled(alloc, setup, field, &value, wanted),
            None => false,
        },
        Ok(None) => wanted.is_none(),
        Err(_) => false,
    }
}

fn reads_value(alloc: Global, setup: &Setup, row: &str) -> Option<bool> {
    let (name, rest) = row.split_once(" | ")?;
    let (text, wanted) = rest.split_once(" | ")?;
    let wanted = if wanted == "!" { None } else { Some(wanted) };
    Some(is_value(alloc, setup, name, text, wanted))
}

fn reads_values(alloc: Global, setup: &Setup) -> bool {
    for row in VALUES.split('\n') {
        if reads_value(alloc, setup, row) != Some(true) {
            return false;
        }
    }
    true
}

fn reads_longer_values(alloc: Global, setup: &Setup) -> bool {
    for &(name, text, wanted) in &LONGER_VALUES {
        if !is_value(alloc, setup, name, text, wanted) {
            return false;
        }
    }
    true
}

/// What a field may hold or not.
#[derive(Clone, Copy)]
enum Held {
    Nothing,
    Date(i32),
    Number(i64),
    Choice(u16),
}

fn value_of(held: Held) -> Value {
    match held {
        Held::Nothing => Value::Empty,
        Held::Date(day) => Value::Date(Day(day)),
        Held::Number(number) => Value::Number(number),
        Held::Choice(choice) => Value::Choice(ChoiceNo(choice)),
    }
}

/// A field, a value, and whether the field may hold it; no field has the number 14.
const FITTING: [(FieldNo, Held, bool); 12] = [
    (FieldNo::DUE, Held::Date(47_481), true),
    (FieldNo::DUE, Held::Date(47_482), false),
    (FieldNo::DUE, Held::Date(-1), false),
    (FieldNo::POINTS, Held::Number(999_999_999_999), true),
    (FieldNo::POINTS, Held::Number(1_000_000_000_000), false),
    (FieldNo::POINTS, Held::Number(-1), false),
    (FieldNo::STATUS, Held::Choice(3), true),
    (FieldNo::STATUS, Held::Choice(4), false),
    (FieldNo::ASSIGNEE, Held::Choice(0), false),
    (FieldNo::STATUS, Held::Nothing, false),
    (FieldNo::DESCRIPTION, Held::Nothing, true),
    (FieldNo(14), Held::Nothing, false),
];

fn tells_what_fits(setup: &Setup) -> bool {
    for &(field, held, wanted) in &FITTING {
        if setup.fits(field, &value_of(held)) != wanted {
            return false;
        }
    }
    true
}

/// What has a name: one of the setup's tables, or the choices of a field.
#[derive(Clone, Copy)]
pub(crate) enum Thing {
    User,
    Project,
    Transition,
    Group,
    Field,
    Choice(FieldNo),
}

/// A kind of thing, a name, and the number of the thing of that name.
pub(crate) type Name = (Thing, &'static str, Option<u16>);

const NAMES: [Name; 23] = [
    (Thing::User, "anna", Some(0)),
    (Thing::User, "ROOT", Some(3)),
    (Thing::User, "roo", None),
    (Thing::User, "", None),
    (Thing::Project, "OPS", Some(0)),
    (Thing::Project, "ops", Some(0)),
    (Thing::Project, "OP", None),
    (Thing::Transition, "Start", Some(0)),
    (Thing::Transition, "reopen", Some(3)),
    (Thing::Transition, "close", None),
    (Thing::Group, "TEAM", Some(1)),
    (Thing::Group, "Guests", Some(3)),
    (Thing::Group, "staff", None),
    (Thing::Field, "type", Some(1)),
    (Thing::Field, "FIXVERSION", Some(9)),
    (Thing::Field, "Sprint", Some(13)),
    (Thing::Field, "duedate", None),
    (Thing::Field, "rank", None),
    (Thing::Choice(FieldNo::STATUS), "done", Some(3)),
    (Thing::Choice(FieldNo::STATUS), "In Progress", Some(1)),
    (Thing::Choice(FieldNo::STATUS), "Gone", None),
    (Thing::Choice(FieldNo::FIX_VERSION), "1.1", Some(1)),
    (Thing::Choice(FieldNo::ASSIGNEE), "anna", None),
];

fn transition_named(setup: &Setup, name: &str) -> Option<u16> {
    match setup.transition_named(name) {
        Some(place) => u16::try_from(place).ok(),
        None => None,
    }
}

/// The number of the thing of that name.
fn number_named(setup: &Setup, thing: Thing, name: &str) -> Option<u16> {
    match thing {
        Thing::User => setup.user_named(name).map(|no| no.0),
        Thing::Project => setup.project_named(name).map(|no| no.0),
        Thing::Transition => transition_named(setup, name),
        Thing::Group => setup.group_named(name).map(|no| no.0),
        Thing::Field => setup.field_named(name).map(|no| no.0),
        Thing::Choice(field) => setup.choice_named(field, name).map(|no| no.0),
    }
}

pub(crate) fn finds_names(setup: &Setup, names: &[Name]) -> bool {
    for &(thing, name, wanted) in names {
        if number_named(setup, thing, name) != wanted {
            return false;
        }
    }
    true
}

/// A user, a permission, a project, and whether the user has it there.
type Leave = (&'static str, Permission, Option<&'static str>, bool);

const LEAVES: [Leave; 9] = [
    ("cy", Permission::Browse, Some("OPS"), true),
    ("cy", Permission::Edit, Some("OPS"), false),
    ("bo", Permission::Rank, Some("OPS"), true),
    ("bo", Permission::Create, Some("OPS"), true),
    ("bo", Permission::Transition, Some("OPS"), true),
    ("bo", Permission::Plan, None, true),
    ("bo", Permission::Administer, None, false),
    ("root", Permission::Administer, Some("OPS"), true),
    ("anna", Permission::Edit, None, false),
];

fn may(setup: &Setup, user: &str, permission: Permission, project: Option<&str>) -> Option<bool> {
    let user = setup.user_named(user)?;
    let project = match project {
        Some(project) => setup.project_named(project),
        None => None,
    };
    Some(setup.may(user, permission, project))
}

fn gives_leave(setup: &Setup, leaves: &[Leave]) -> bool {
    for &(user, permission, project, wanted) in leaves {
        if may(setup, user, permission, project) != Some(wanted) {
            return false;
        }
    }
    true
}

/// The same where the administrators have one member, the user cy.
const WITH_CY: [Leave; 3] = [
    ("cy", Permission::Administer, None, true),
    ("root", Permission::Administer, None, false),
    ("anna", Permission::Plan, None, true),
];

fn make_cy_administrator(alloc: Global, setup: &mut Setup) -> Result<bool, Memory> {
    let cy = UserNo(2);
    let mut members = Sequence::new(alloc);
    members.push(cy)?;
    if setup.group.as_slice().len() < 2 || setup.users.as_slice().len() < 3 {
        return Ok(false);
    }
    setup.set_members(GroupNo(2), members);
    Ok(true)
}

/// Other members change what they may, and the setup's text stays.
fn takes_members(alloc: Global, setup: &mut Setup) -> bool {
    if !matches!(make_cy_administrator(alloc, setup), Ok(true)) {
        return false;
    }
    gives_leave(setup, &WITH_CY) && setup.text.as_str() == BUILT_IN
}

fn new_tracker(alloc: Global) -> Option<Box<Setup>> {
    match Setup::built_in(alloc) {
        Ok(setup) => Box::new(alloc, setup).ok(),
        Err(_) => None,
    }
}

fn is_as_built_in(alloc: Global, setup: &mut Setup) -> bool {
    reads_values(alloc, setup)
        && reads_longer_values(alloc, setup)
        && tells_what_fits(setup)
        && finds_names(setup, &NAMES)
        && gives_leave(setup, &LEAVES)
        && takes_members(alloc, setup)
}

#[test]
fn the_setup_of_a_new_tracker(rt: HostRuntime) {
    let passes = match new_tracker(rt.alloc()) {
        Some(mut setup) => is_as_built_in(rt.alloc(), &mut setup),
        None => false,
    };
    assert!(rt; passes);
}

/// The fault of bytes that are no setup's.
fn fault_of(alloc: Global, bytes: &[u8]) -> Option<SetupFault> {
    match Setup::read(alloc, bytes) {
        Ok(setup) => {
            drop(setup);
            None
        }
        Err(fault) => Some(fault),
    }
}

#[test]
fn bytes_that_are_no_text(rt: HostRuntime) {
    let fault = fault_of(rt.alloc(), &[0x75, 0xff, 0x0a]);
    assert!(rt; matches!(&fault, Some(SetupFault::BadToml)));
}
