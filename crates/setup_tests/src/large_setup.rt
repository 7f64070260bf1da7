//! A setup that has as much of each thing as it may have: 200 users, 30 types, 20 priorities, 50 resolutions, 500 versions,
//! 100 groups of all users, 50 projects, 50 statuses, 200 transitions, 30 fields of 200 options and 400 steps of the offset.

use crate::new_tracker::{Name, Thing, finds_names};
use crate::values::setup_of;
use fields::{FieldNo, Setup};
use std::alloc::{AllocError, Global};

/// Its text by pieces, each of which stands there so many times, with `#` for the number in three digits from 001, `^` for the
/// letter, and `%` for the names of all users.
const PIECES: [(usize, &str); 16] = [
    (
        1,
        r#"utc_offset_minutes = 0
week_starts = "monday"
rebalancer = "u200"
users = [%]
types = ["#,
    ),
    (30, r#""y#","#),
    (
        1,
        r#"]
priorities = ["#,
    ),
    (20, r#""p#","#),
    (
        1,
        r#"]
resolutions = ["#,
    ),
    (50, r#""r#","#),
    (
        1,
        r#"]
versions = ["#,
    ),
    (500, r#""v#","#),
    (
        1,
        r#"]
first_status = "s001"
plan = ["g001"]
administer = ["g100"]
"#,
    ),
    (
        100,
        r#"[[group]]
name = "g#"
members = [%]
"#,
    ),
    (
        26,
        r#"[[project]]
key = "B^"
lead = "u196"
browse = ["g097"]
create = ["g097"]
edit = ["g097"]
transition = ["g097"]
rank = ["g097"]
"#,
    ),
    (
        24,
        r#"[[project]]
key = "C^"
lead = "u196"
browse = ["g097"]
create = ["g097"]
edit = ["g097"]
transition = ["g097"]
rank = ["g097"]
"#,
    ),
    (
        50,
        r#"[[status]]
name = "s#"
category = "done"
"#,
    ),
    (
        200,
        r#"[[transition]]
name = "t#"
from = ["s001", "s046"]
to = "s045"
conditions = ["any:group:g097|assignee"]
validators = ["required:f030"]
post = ["set:f030=u196"]
"#,
    ),
    (
        30,
        r#"[[field]]
number = 10#
name = "f#"
kind = "choice"
options = [%]
"#,
    ),
    (
        400,
        r#"[[offset]]
from = 1#000000
minutes = 60
"#,
    ),
];

const LETTERS: [&str; 26] = [
    "A", "B", "C", "D", "E", "F", "G", "H", "I", "J", "K", "L", "M", "N", "O", "P", "Q", "R", "S",
    "T", "U", "V", "W", "X", "Y", "Z",
];

/// The part so many times over.
fn repeated(alloc: Global, count: usize, part: &str) -> Result<String, AllocError> {
    let mut text = String::new(alloc);
    for n in 0..count {
        let letter = part.replace(alloc, "^", LETTERS[n % 26])?;
        let digits = format!(in alloc; "{:03}", n.saturating_add(1))?;
        let piece = letter.as_str().replace(alloc, "#", digits.as_str())?;
        text.push_str(piece.as_str())?;
    }
    Ok(text)
}

/// The setup's text, but for the names of all users.
fn nameless_text(alloc: Global) -> Result<String, AllocError> {
    let mut text = String::new(alloc);
    for &(count, part) in &PIECES {
        let piece = repeated(alloc, count, part)?;
        text.push_str(piece.as_str())?;
    }
    Ok(text)
}

/// The setup's text.
fn large_text(alloc: Global) -> Result<String, AllocError> {
    let users = repeated(alloc, 200, "\"u#\",")?;
    let text = nameless_text(alloc)?;
    text.as_str().replace(alloc, "%", users.as_str())
}

const NAMES: [Name; 9] = [
    (Thing::User, "U196", Some(195)),
    (Thing::User, "u200", Some(199)),
    (Thing::Project, "cx", Some(49)),
    (Thing::Transition, "T200", Some(199)),
    (Thing::Group, "G100", Some(100)),
    (Thing::Field, "F030", Some(10_030)),
    (Thing::Choice(FieldNo::STATUS), "S050", Some(49)),
    (Thing::Choice(FieldNo::FIX_VERSION), "V500", Some(499)),
    (Thing::Choice(FieldNo(10_030)), "U196", Some(195)),
];

/// The setup has 400 steps, of which the last is at 1,400,000,000 seconds.
fn tells_its_steps(setup: &Setup) -> Option<bool> {
    let last = setup.step(399)?;
    Some(
        setup.steps() == 400
            && last.0.seconds() == 1_400_000_000
            && setup.step(400).is_none()
            && setup.day_of(last.0).0 == 16_203,
    )
}

fn is_large(alloc: Global) -> Option<bool> {
    let text = large_text(alloc).ok()?;
    let setup = setup_of(alloc, text.as_str())?;
    Some(finds_names(&setup, &NAMES) && tells_its_steps(&setup) == Some(true))
}

#[test]
fn a_large_setup(rt: HostRuntime) {
    let passes = is_large(rt.alloc()) == Some(true);
    assert!(rt; passes);
}
