// The calls of paths that are got, each with its members in the order in which a fault is told.
ghost use Rattle.std.specs.Prelude.{◌≡◌};
ghost use Rattle.call_lines.specs.Asked.{UnlessMemory};
ghost use Rattle.tracker_http.specs.Calls.{show_of, history_of, search_of, front_of, member_of, list_call, list_of};

use crate::named::{issue_in, number_in};
use crate::query::{Pair, first_unknown, part_in, text_in};
use call_lines::misses;
use field_values::{BoardNo, FilterNo, SprintNo, Text};
use std::alloc::Global;
use tracker_calls::{Call, MOST_ENTRIES, MOST_LISTED, Part, Refusal, ToldText, UserName};

/// An issue's present values.
pub fn show_of(
    alloc: Global,
    path: &[u8],
    pairs: &[Pair],
    user: &str,
) -> Result<(UserName, Call), Refusal>
    ensures { UnlessMemory result (show_of path.now pairs.now user.now) }
{
    let Some(issue) = issue_in(path) else {
        return misses(alloc, "issue");
    };
    if let Some(other) = first_unknown(pairs, &[]) {
        return misses(alloc, other);
    }
    let issue = ToldText::copy_of(alloc, issue)?;
    let user = UserName::copy_of(alloc, user)?;
    Ok((user, Call::Show { issue }))
}

/// A part of an issue's entries.
pub fn history_of(
    alloc: Global,
    path: &[u8],
    pairs: &[Pair],
    user: &str,
) -> Result<(UserName, Call), Refusal>
    ensures { UnlessMemory result (history_of path.now pairs.now user.now) }
{
    let Some(issue) = issue_in(path) else {
        return misses(alloc, "issue");
    };
    let part = match part_in(pairs, MOST_ENTRIES, &["from", "count"]) {
        Ok(part) => part,
        Err(member) => return misses(alloc, member),
    };
    let issue = ToldText::copy_of(alloc, issue)?;
    let user = UserName::copy_of(alloc, user)?;
    Ok((user, Call::History { issue, part }))
}

/// A part of the issues of which a query holds.
pub fn search_of(alloc: Global, pairs: &[Pair], user: &str) -> Result<(UserName, Call), Refusal>
    ensures { UnlessMemory result (search_of pairs.now user.now) }
{
    let Some(jql) = text_in(pairs, "jql") else {
        return misses(alloc, "jql");
    };
    let part = match part_in(pairs, MOST_LISTED, &["jql", "from", "count"]) {
        Ok(part) => part,
        Err(member) => return misses(alloc, member),
    };
    let jql = Text::copy_of(alloc, jql)?;
    let user = UserName::copy_of(alloc, user)?;
    Ok((user, Call::Search { jql, part }))
}

/// Of what a path asks for a part by its number.
#[derive(Clone, Copy)]
pub enum ListOf {
    /// A saved filter: its issues.
    Filter,

    /// A board: its issues.
    Board,

    /// A sprint: the changes of what it has left.
    Sprint,
}

// What stands in a path before the number.
fn front_of(what: ListOf) -> &'static [u8]
    ensures { result.now ≡ front_of what }
{
    match what {
        ListOf::Filter => b"/filters/",
        ListOf::Board => b"/boards/",
        ListOf::Sprint => b"/sprints/",
    }
}

// The member that is at fault where there is no number.
fn member_of(what: ListOf) -> &'static str
    ensures { result.now ≡ member_of what }
{
    match what {
        ListOf::Filter => "filter",
        ListOf::Board => "board",
        ListOf::Sprint => "sprint",
    }
}

fn list_call(what: ListOf, number: u32, part: Part) -> Call
    ensures { result ≡ list_call what number part }
{
    match what {
        ListOf::Filter => Call::Filter {
            filter: FilterNo(number),
            part,
        },
        ListOf::Board => Call::Board {
            board: BoardNo(number),
            part,
        },
        ListOf::Sprint => Call::Burndown {
            sprint: SprintNo(number),
            part,
        },
    }
}

/// A part of what belongs to a filter, a board or a sprint.
pub fn list_of(
    alloc: Global,
    what: ListOf,
    path: &[u8],
    pairs: &[Pair],
    user: &str,
) -> Result<(UserName, Call), Refusal>
    ensures { UnlessMemory result (list_of what path.now pairs.now user.now) }
{
    let Some(number) = number_in(path, front_of(what)) else {
        return misses(alloc, member_of(what));
    };
    let part = match part_in(pairs, MOST_LISTED, &["from", "count"]) {
        Ok(part) => part,
        Err(member) => return misses(alloc, member),
    };
    let user = UserName::copy_of(alloc, user)?;
    Ok((user, list_call(what, number, part)))
}
