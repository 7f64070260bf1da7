// The answer to a row.
use crate::rows::fault::Fault;
use crate::rows::names::{moment_of, user_of};
use crate::rows::row::{Row, row_of};
use crate::rows::setting::Setting;
use crate::rows::story::issue_of;
use change_history::Issue;
use field_values::{Moment, Steps, UserNo};
use fields::Setup;
use jql_bound::{Bound, Context};
use jql_eval::{Verdict, evaluate};
use jql_grammar::bind;
use jql_syntax::parse;
use std::alloc::Global;
use std::fmt;
use std::sync::ledger::Ledger;

/// How many ends are tried at most.
const MOST_ENDS: usize = 1_000;

/// The answer to a row.
#[derive(Clone, Copy)]
pub struct Answer {
    /// Whether the query holds.
    holds: bool,
    /// Up to when the verdict says that this stays.
    end: Option<Moment>,
    /// When it first is the other way.
    turn: Option<Moment>,
}

impl fmt::Display for Answer {
    fn fmt<W: fmt::Write>(&self, f: &mut fmt::Formatter<W>) -> fmt::Result {
        f.write_str(if self.holds { "yes" } else { "no" })?;
        write_moment(f, self.end)?;
        write_moment(f, self.turn)
    }
}

fn write_moment<W: fmt::Write>(f: &mut fmt::Formatter<W>, moment: Option<Moment>) -> fmt::Result {
    match moment {
        Some(moment) => {
            let seconds = moment.seconds();
            write!(f, " {seconds}")
        }
        None => write!(f, " -"),
    }
}

/// The answer to the row that the line is.
pub fn answer_to<L: Ledger>(
    alloc: Global,
    setting: &Setting,
    line: &str,
    steps: &mut Steps<L>,
) -> Result<Answer, Fault> {
    let Some(row) = row_of(line) else {
        return Err(Fault::NoRow);
    };
    let issue = issue_of(alloc, &setting.setup, 1, row.key, row.story)?;
    answer_of(alloc, setting, row, &issue, steps)
}

// The answer to the row of that issue.
fn answer_of<L: Ledger>(
    alloc: Global,
    setting: &Setting,
    row: Row<'_>,
    issue: &Issue,
    steps: &mut Steps<L>,
) -> Result<Answer, Fault> {
    let at = moment_of(row.at)?;
    if at.seconds() < issue.updated().seconds() {
        return Err(Fault::NoRow);
    }
    let caller = user_of(&setting.setup, row.user)?;
    let query = query_of(alloc, &setting.setup, caller, row.query)?;
    Ok(asked(&query, issue, &setting.context, at, steps))
}

/// What the text asks for when that user asks it.
pub fn query_of(alloc: Global, setup: &Setup, caller: UserNo, text: &str) -> Result<Bound, Fault> {
    let query = parse(alloc, text)?;
    Ok(bind(alloc, &query, setup, caller)?)
}

fn asked<L: Ledger>(
    query: &Bound,
    issue: &Issue,
    context: &Context,
    at: Moment,
    steps: &mut Steps<L>,
) -> Answer {
    let verdict = evaluate(query, issue, context, at, steps);
    Answer {
        holds: verdict.holds(),
        end: verdict.until(),
        turn: turn_after(query, issue, context, verdict, steps),
    }
}

// The first end at which the query's truth is the other one.
fn turn_after<L: Ledger>(
    query: &Bound,
    issue: &Issue,
    context: &Context,
    first: Verdict,
    steps: &mut Steps<L>,
) -> Option<Moment> {
    let mut verdict = first;
    for _ in 0..MOST_ENDS {
        let end = verdict.until()?;
        verdict = evaluate(query, issue, context, end, steps);
        if verdict.holds() != first.holds() {
            return Some(end);
        }
    }
    None
}
