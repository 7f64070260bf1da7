//! Queries about issues with histories, from a query's text to its verdict, one a line, as
//! `OPS-7: 0 anna status=Open; points=3 | 60 bo status=In Progress | 90 cy asks status WAS Open`. Anna opened the issue at the moment 0 with
//! these values, bo changed it a minute later, and cy asks the query at the moment 90. A moment is a number of seconds since
//! 1970-01-01 00:00:00 UTC. A value is a text as in the setup, a JSON array where it is a set or labels, and nothing where the field is
//! empty; a step that changes nothing is none. Sprint 1 is closed, sprint 2 is active, and sprint 3 is to come.
//!
//! The reply has three parts: `yes` or `no`, whether the query holds; the moment up to which the verdict says that this stays; and the
//! first moment at which it is the other way, found by asking again at each such moment, of which at most 1,000 are tried. `-` stands
//! for no moment. `fault PLACE KIND` tells the fault of the query, and `no row` that the line is no row.
//!
//! A line of `lists` has issues, their numbers as they are ranked, and a query, as
//! `OPS-1: 0 anna points=3 || OPS-2: 60 bo points=5 ranked 2 1 listed ORDER BY rank`. The first issue has the number 1. The reply is their
//! keys, in the order in which the query lists them.
mod answer;
mod fault;
mod listing;
mod names;
mod row;
mod setting;
mod story;

use answer::answer_to;
use fault::Fault;
use field_values::Steps;
use listing::listing_of;
pub use setting::Setting;
use std::alloc::Global;
use std::str;
use std::sync::ledger::Ledger;

/// The reply to a row.
pub fn row_reply<L: Ledger>(
    alloc: Global,
    setting: &Setting,
    line: &[u8],
    steps: &mut Steps<L>,
) -> Option<String> {
    match answer_to(alloc, setting, str::from_utf8(line).ok()?, steps) {
        Ok(answer) => format!(in alloc; "{answer}").ok(),
        Err(fault) => fault_reply(alloc, fault),
    }
}

/// The reply to a line of `lists`.
pub fn list_reply(alloc: Global, setting: &Setting, line: &[u8]) -> Option<String> {
    match listing_of(alloc, setting, str::from_utf8(line).ok()?) {
        Ok(keys) => Some(keys),
        Err(fault) => fault_reply(alloc, fault),
    }
}

fn fault_reply(alloc: Global, fault: Fault) -> Option<String> {
    match fault {
        Fault::Memory => None,
        fault => format!(in alloc; "{fault}").ok(),
    }
}
