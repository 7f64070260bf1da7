//! What no request line can ask: inputs that name a field twice, and an issue of no project.

use crate::issues::opened;
use crate::values::{is_spelled, setup_of};
use change_history::{Change, Changes, Issue};
use fields::{BUILT_IN, FieldNo, Moment, Setup, UserNo, Value};
use std::alloc::{AllocError, Global};
use workflow::{PlanFault, net_changes, plan, project_number, refused_input};

/// A transition from Open to Done for each rule that is tested, and a field of the setup's own.
const RULES: &str = r#"
[[transition]]
name = "Plain"
from = ["Open"]
to = "Done"
[[transition]]
name = "Editors"
from = ["Open"]
to = "Done"
conditions = ["permission:edit"]
[[transition]]
name = "Allowed"
from = ["Open"]
to = "Done"
validators = ["permission:edit"]
[[transition]]
name = "To lead"
from = ["Open"]
to = "Done"
post = ["assign:lead"]
[[field]]
number = 10001
name = "Team"
kind = "choice"
options = ["Blue", "Red"]
"#;

fn text(alloc: Global) -> Result<String, AllocError> {
    format!(in alloc; "{BUILT_IN}{RULES}")
}

fn setup(alloc: Global) -> Option<Box<Setup>> {
    let text = text(alloc).ok()?;
    setup_of(alloc, text.as_str())
}

/// Fields by their names with the texts of their values, of which an empty one stands for the value Empty.
type Named = &'static [(&'static str, &'static str)];

fn value_of(alloc: Global, setup: &Setup, name: &str, text: &str) -> Option<Change> {
    let field = setup.field_named(name)?;
    if text.is_empty() {
        return Some(Change {
            field,
            to: Value::Empty,
        });
    }
    match setup.value_of(alloc, field, text) {
        Ok(Some(to)) => Some(Change { field, to }),
        _ => None,
    }
}

fn changes(alloc: Global, setup: &Setup, named: Named) -> Option<Vec<Change>> {
    let mut changes = Vec::new(alloc);
    for &(name, text) in named {
        let change = value_of(alloc, setup, name, text)?;
        changes.push(change).ok()?;
    }
    Some(changes)
}

/// An issue of the project which anna opened with these values.
fn issue(alloc: Global, setup: &Setup, project: &str, opening: Named) -> Option<Issue> {
    let mut values = Changes::new(alloc);
    for change in changes(alloc, setup, opening)? {
        values.push(change).ok()?;
    }
    opened(alloc, project, values).ok()
}

/// Fields by their numbers with the texts of their values.
type Numbered = &'static [(FieldNo, &'static str)];

/// What a plan is or comes to.
#[derive(Clone, Copy)]
enum Plan {
    Makes(Numbered),
    Fails(PlanFault),
}

fn are_changes(alloc: Global, setup: &Setup, changes: &[Change], wanted: Numbered) -> bool {
    if changes.len() != wanted.len() {
        return false;
    }
    for (place, change) in changes.iter().enumerate() {
        let (field, text) = wanted[place];
        if change.field != field || !is_spelled(alloc, setup, change.field, &change.to, text) {
            return false;
        }
    }
    true
}

fn is_answer(
    alloc: Global,
    setup: &Setup,
    answer: &Result<Vec<Change>, PlanFault>,
    wanted: Plan,
) -> bool {
    match (answer, wanted) {
        (Ok(changes), Plan::Makes(wanted)) => {
            are_changes(alloc, setup, changes.as_slice(), wanted)
        }
        (Err(fault), Plan::Fails(wanted)) => *fault == wanted,
        _ => false,
    }
}

/// Whether anna's transition at the first moment is planned so.
fn is_planned(
    alloc: Global,
    setup: &Setup,
    issue: &Issue,
    transition: &str,
    inputs: Vec<Change>,
    wanted: Plan,
) -> Option<bool> {
    let place = setup.transition_named(transition)?;
    if setup.transition.as_slice().len() <= place {
        return None;
    }
    let answer = plan(
        alloc,
        setup,
        issue,
        UserNo(0),
        place,
        inputs,
        Moment::first(),
    );
    Some(is_answer(alloc, setup, &answer, wanted))
}

/// An issue's project and opening values, a transition, its inputs, and the plan.
type Row = (&'static str, Named, &'static str, Named, Plan);

const ROWS: [Row; 6] = [
    (
        "OPS",
        &[("status", "Open")],
        "Plain",
        &[("points", "1"), ("points", "2")],
        Plan::Makes(&[(FieldNo::STATUS, "Done"), (FieldNo::POINTS, "2")]),
    ),
    (
        "OPS",
        &[("status", "Open"), ("points", "2")],
        "Plain",
        &[("points", "1"), ("points", "2")],
        Plan::Makes(&[(FieldNo::STATUS, "Done")]),
    ),
    (
        "OPS",
        &[("status", "Open"), ("points", "2")],
        "Plain",
        &[
            ("Team", "Red"),
            ("due", "2024-04-01"),
            ("points", ""),
            ("points", "1.5"),
        ],
        Plan::Makes(&[
            (FieldNo::STATUS, "Done"),
            (FieldNo::DUE, "2024-04-01"),
            (FieldNo::POINTS, "1.5"),
            (FieldNo(10_001), "Red"),
        ]),
    ),
    (
        "OPSX",
        &[("status", "Open")],
        "Editors",
        &[],
        Plan::Fails(PlanFault::Condition(1)),
    ),
    (
        "OPSX",
        &[("status", "Open")],
        "Allowed",
        &[],
        Plan::Fails(PlanFault::Validator(1)),
    ),
    (
        "OPSX",
        &[("status", "Open"), ("assignee", "bo")],
        "To lead",
        &[],
        Plan::Makes(&[(FieldNo::STATUS, "Done"), (FieldNo::ASSIGNEE, "")]),
    ),
];

fn is_as_in_row(alloc: Global, setup: &Setup, row: &Row) -> Option<bool> {
    let (project, opening, transition, inputs, wanted) = *row;
    let issue = issue(alloc, setup, project, opening)?;
    let inputs = changes(alloc, setup, inputs)?;
    is_planned(alloc, setup, &issue, transition, inputs, wanted)
}

fn are_planned(alloc: Global) -> Option<bool> {
    let setup = setup(alloc)?;
    for row in &ROWS {
        if is_as_in_row(alloc, &setup, row) != Some(true) {
            return Some(false);
        }
    }
    Some(true)
}

#[test]
fn transitions_are_planned(rt: HostRuntime) {
    let passes = are_planned(rt.alloc()) == Some(true);
    assert!(rt; passes);
}

const OPENING: Named = &[("status", "Open"), ("assignee", "bo"), ("points", "2")];

const EDIT: Named = &[
    ("points", "3"),
    ("assignee", "bo"),
    ("points", ""),
    ("due", "2024-04-01"),
];

const NET: Numbered = &[(FieldNo::DUE, "2024-04-01"), (FieldNo::POINTS, "")];

fn comes_to_net(alloc: Global, setup: &Setup) -> Option<bool> {
    let issue = issue(alloc, setup, "OPS", OPENING)?;
    let inputs = changes(alloc, setup, EDIT)?;
    let fits = refused_input(setup, inputs.as_slice()).is_none();
    let net = net_changes(&issue, inputs);
    Some(fits && are_changes(alloc, setup, net.as_slice(), NET))
}

/// The place of an issue's project, and that of an issue of no project.
fn tells_projects(alloc: Global, setup: &Setup) -> Option<bool> {
    let one = issue(alloc, setup, "OPS", OPENING)?;
    let other = issue(alloc, setup, "OPSX", OPENING)?;
    Some(project_number(setup, &one)?.0 == 0 && project_number(setup, &other).is_none())
}

fn edits(alloc: Global) -> Option<bool> {
    let setup = setup(alloc)?;
    Some(comes_to_net(alloc, &setup) == Some(true) && tells_projects(alloc, &setup) == Some(true))
}

#[test]
fn an_edit_comes_to_its_net_changes(rt: HostRuntime) {
    let passes = edits(rt.alloc()) == Some(true);
    assert!(rt; passes);
}
