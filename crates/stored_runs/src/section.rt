// The sections of a stored run.
use crate::dumps::dump_reply;
use crate::put_line;
use crate::requests::{last_reply, reply_to_line};
use crate::rows::{Setting, list_reply, row_reply};
use crate::setups::setup_reply;
use field_values::Steps;
use fields::Setup;
use jql_print::check_line;
use std::alloc::Global;
use std::sync::ledger::Ledger;
use std::{fs, str};
use tracker_core::Desk;
use tracker_keeper::NeverFails;

/// What the lines of a section are asked of.
#[derive(Drop)]
pub enum Section {
    /// Before the first section.
    Before,
    Check,
    Lines(Box<Desk<NeverFails>>),
    Times(Box<Desk<NeverFails>>),
    Rows(Box<Setting>),
    Lists(Box<Setting>),
    Setup,
    Dumps,
}

impl Section {
    /// The section that begins with these words.
    pub fn of(rt: &HostRuntime, alloc: Global, words: &[u8]) -> Option<Section> {
        let words = str::from_utf8(words).ok()?;
        let (word, file) = words.split_once(' ').unwrap_or((words, ""));
        match word {
            "check" => Some(Section::Check),
            "lines" => Some(Section::Lines(desk_by(rt, alloc, file)?)),
            "times" => Some(Section::Times(desk_by(rt, alloc, file)?)),
            "rows" => Some(Section::Rows(setting_by(rt, alloc, file)?)),
            "lists" => Some(Section::Lists(setting_by(rt, alloc, file)?)),
            "setup" => Some(Section::Setup),
            "dumps" => Some(Section::Dumps),
            _ => None,
        }
    }

    /// Puts the reply to a line of the section.
    pub fn answer<L: Ledger>(
        &mut self,
        alloc: Global,
        line: &[u8],
        steps: &mut Steps<L>,
        answer: &mut Vec<u8>,
    ) -> Option<()> {
        if let Section::Check = self {
            return check_line(alloc, line, answer).ok();
        }
        if line.is_empty() || line.starts_with(b"#") {
            return put_line(line, answer);
        }
        let reply = self.reply(alloc, line, steps)?;
        put_line(reply.as_str().as_bytes(), answer)
    }

    // The reply to a line that is no comment.
    fn reply<L: Ledger>(
        &mut self,
        alloc: Global,
        line: &[u8],
        steps: &mut Steps<L>,
    ) -> Option<String> {
        match self {
            Section::Lines(desk) => reply_to_line(alloc, desk, line, steps),
            Section::Times(desk) => last_reply(alloc, desk, line, steps),
            Section::Rows(setting) => row_reply(alloc, setting, line, steps),
            Section::Lists(setting) => list_reply(alloc, setting, line),
            Section::Setup => setup_reply(alloc, line),
            Section::Dumps => dump_reply(alloc, line, steps),
            Section::Before | Section::Check => String::from_utf8_lossy(alloc, line).ok(),
        }
    }
}

fn desk_by(rt: &HostRuntime, alloc: Global, file: &str) -> Option<Box<Desk<NeverFails>>> {
    let setup = setup_in(rt, alloc, file)?;
    let keeper = NeverFails::new(alloc, &[]).ok()?;
    let desk = Desk::create(alloc, keeper, Box::into_inner(setup)).ok()?;
    Box::new(alloc, desk).ok()
}

fn setting_by(rt: &HostRuntime, alloc: Global, file: &str) -> Option<Box<Setting>> {
    Setting::of(alloc, setup_in(rt, alloc, file)?).ok()
}

// The setup in that file, or that of a new tracker where none is named.
fn setup_in(rt: &HostRuntime, alloc: Global, file: &str) -> Option<Box<Setup>> {
    if file.is_empty() {
        return Box::new(alloc, Setup::built_in(alloc).ok()?).ok();
    }
    let text = fs::read_to_string(rt, file).ok()?;
    Box::new(alloc, Setup::read(alloc, text.as_bytes()).ok()?).ok()
}
