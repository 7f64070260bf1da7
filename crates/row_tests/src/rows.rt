// Rows as lines of a text: kind, number and body with one space between.
use fields::Setup;
use std::alloc::Global;
use tracker_keeper::{body_of, read_body};

/// What a row's body is.
#[derive(Clone, Copy, PartialEq, Eq)]
pub(crate) enum Answer {
    /// That of a part of its kind and number, for which it is written again.
    Body,
    /// None.
    Refused,
    /// Something else.
    Wrong,
}

/// What the body of a row of that kind and number is.
pub(crate) fn answer_for(
    alloc: Global,
    setup: &Setup,
    kind: u8,
    no: u64,
    body: &str,
) -> Option<Answer> {
    let Some(part) = read_body(alloc, kind, no, body, setup).ok()? else {
        return Some(Answer::Refused);
    };
    let written = body_of(alloc, &part, setup).ok()?;
    let same = written.as_str() == body && part.kind() == kind && part.number() == no;
    Some(if same { Answer::Body } else { Answer::Wrong })
}

fn answer_to(alloc: Global, setup: &Setup, line: &str) -> Option<Answer> {
    let (kind, rest) = line.split_once(' ')?;
    let (no, body) = rest.split_once(' ')?;
    let kind = kind.parse::<u8>().ok()?;
    let no = no.parse::<u64>().ok()?;
    answer_for(alloc, setup, kind, no, body)
}

/// The setup that a new tracker has. In a box it is let go by one call, which spares each proof a look at all its parts.
pub(crate) fn built_in(alloc: Global) -> Option<Box<Setup>> {
    match Setup::built_in(alloc) {
        Ok(setup) => Box::new(alloc, setup).ok(),
        Err(_) => None,
    }
}

/// Whether each line has that answer.
pub(crate) fn all_answer(alloc: Global, lines: &str, wanted: Answer) -> bool {
    let Some(setup) = built_in(alloc) else {
        return false;
    };
    for line in lines.split('\n') {
        if answer_to(alloc, &setup, line) != Some(wanted) {
            return false;
        }
    }
    true
}
