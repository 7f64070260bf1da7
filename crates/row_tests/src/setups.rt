use crate::rows::{Answer, answer_for, built_in};
use fields::{BUILT_IN, Setup};
use std::alloc::Global;

/// A piece of the setup that a new tracker has, and what stands in its place in another one.
const READ: &str = r#"week_starts = "monday" => week_starts = "monday"
week_starts = "monday" => week_starts = "sunday"
utc_offset_minutes = 0 => utc_offset_minutes = -840
utc_offset_minutes = 0 => utc_offset_minutes = 840
utc_offset_minutes = 0 =>   utc_offset_minutes   =   60 # Paris
rebalancer = "root" => rebalancer = "anna"
types = ["Task", "Bug"] => types = ["Task"]
priorities = ["High", "Medium", "Low"] => priorities = ["Low"]
first_status = "Open" => first_status = "Done"
plan = ["team"] => plan = []
lead = "anna" => lead = "bo"
category = "todo" => category = "done""#;

/// The same, where the text is no setup.
const REFUSED: &str = r#"utc_offset_minutes = 0 => utc_offset_minutes = 841
utc_offset_minutes = 0 => utc_offset_minutes = 00
utc_offset_minutes = 0 => utc_offset_minutes = "0"
week_starts = "monday" => week_starts = "Monday"
week_starts = "monday" => week_begins = "monday"
rebalancer = "root" => rebalancer = "zed"
users = ["anna", "bo", "cy", "root"] => users = []
types = ["Task", "Bug"] => types = ["Task", "task"]
priorities = ["High", "Medium", "Low"] => priorities = ["High", ""]
first_status = "Open" => first_status = "Closed"
lead = "anna" => lead = "zed"
to = "In Progress" => to = "Nowhere""#;

fn answer_to(alloc: Global, setup: &Setup, line: &str) -> Option<Answer> {
    let (old, new) = line.split_once(" => ")?;
    let (before, after) = BUILT_IN.split_once(old)?;
    let text = format!(in alloc; "{before}{new}{after}").ok()?;
    answer_for(alloc, setup, 1, 0, text.as_str())
}

fn all_answer(alloc: Global, lines: &str, wanted: Answer) -> bool {
    let Some(setup) = built_in(alloc) else {
        return false;
    };
    for line in lines.split('\n') {
        if answer_to(alloc, &setup, line) != Some(wanted) {
            return false;
        }
    }
    true
}

fn are_told_apart(alloc: Global) -> bool {
    all_answer(alloc, READ, Answer::Body) && all_answer(alloc, REFUSED, Answer::Refused)
}

#[test]
fn texts_of_setups_are_told_from_others(rt: HostRuntime) {
    let passes = are_told_apart(rt.alloc());
    assert!(rt; passes);
}
