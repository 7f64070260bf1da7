//! Stored runs of what the product is made of: standard input has sections, and each line of a section has one line of reply.
//!
//! A section begins with a line of `==`, a space and one of these words, with a file of this crate's `data/` behind it where a setup is
//! read from there; otherwise the setup is that of a new tracker.
//!
//! - `check`: each line is a JQL text. The reply is that of the command `check`.
//! - `lines FILE`: each line is a request line to the desk of a new tracker. The reply is the desk's.
//! - `times FILE`: as `lines`, but a line is a number, a tab, and request lines with tabs between them: these are made in turn, so many
//!   times, and the last reply is told. It shows what comes at the limits.
//! - `rows FILE`: each line is a query about an issue with its history. See `rows`.
//! - `lists FILE`: each line has issues, and a query that lists them. See `rows`.
//! - `setup`: each line is a list of edits of the text of a new tracker's setup. See `setups`.
//! - `dumps`: each line is request lines to the desk of a new tracker, with tabs between them. The reply is the dump of the rows that
//!   they leave, and that of what restores it, if that is another one. See `dumps`.
//!
//! Lines before the first section, lines that begin one, and, but under `check`, lines that are empty or begin with `#` are copied.
#![tactic(auto)]

mod dumps;
mod requests;
mod rows;
mod section;
mod setups;

ghost use Rattle.std.specs.Prelude.{◌≡◌, ◌<◌};

use field_values::Steps;
use section::Section;
use std::alloc::Global;
use std::io::{self, BufRead, BufReader, Write};
use std::marker::Brand;
use std::process::ExitCode;
use std::sync::ledger::{Blank, Ledger};

fn main(rt: HostRuntime) -> ExitCode {
    match play::<Brand>(&rt, Blank::new(1)) {
        Some(()) => ExitCode::SUCCESS,
        None => ExitCode::FAILURE,
    }
}

// Answers standard input. `None` where something failed.
fn play<L: Ledger>(rt: &HostRuntime, blank: Blank) -> Option<()>
    requires name { blank.name ≡ L.name }
    requires parts { blank.parts ≡ L.parts }
    requires some { 0 < L.parts }
{
    let alloc = rt.alloc();
    let mut steps = Steps::<L>::new(blank);
    let mut section = Section::Before;
    let input = BufReader::new(alloc, rt.reader()).ok()?;
    for line in input.split(alloc, b'\n') {
        let line = line.ok()?;
        play_line(rt, alloc, &mut section, line.as_slice(), &mut steps)?;
    }
    Some(())
}

// Answers a line, or begins the section that it begins.
fn play_line<L: Ledger>(
    rt: &HostRuntime,
    alloc: Global,
    section: &mut Section,
    line: &[u8],
    steps: &mut Steps<L>,
) -> Option<()> {
    let mut answer = Vec::new(alloc);
    match line.strip_prefix(b"== ") {
        Some(words) => {
            *section = Section::of(rt, alloc, words)?;
            put_line(line, &mut answer)?;
        }
        None => section.answer(alloc, line, steps, &mut answer)?,
    }
    io::writer(rt).write_all(answer.as_slice()).ok()
}

/// Puts a line and its end.
fn put_line(line: &[u8], answer: &mut Vec<u8>) -> Option<()> {
    answer.extend_from_slice(line).ok()?;
    answer.push(b'\n').ok()
}
