// Issues in the order of a query's sort keys.
use crate::rows::answer::query_of;
use crate::rows::fault::Fault;
use crate::rows::setting::Setting;
use crate::rows::story::issue_of;
use change_history::Issue;
use field_values::UserNo;
use fields::Setup;
use jql_bound::OrderBy;
use jql_eval::compare;
use std::alloc::{AllocError, Global};
use std::cmp::Ordering;

/// The keys of the line's issues, in the order in which its query lists them.
pub fn listing_of(alloc: Global, setting: &Setting, line: &str) -> Result<String, Fault> {
    let Some((issues, rest)) = line.split_once(" ranked ") else {
        return Err(Fault::NoRow);
    };
    let Some((ranks, query)) = rest.split_once(" listed ") else {
        return Err(Fault::NoRow);
    };
    let query = query_of(alloc, &setting.setup, UserNo(0), query)?;
    let mut issues = issues_of(alloc, &setting.setup, issues)?;
    sort(&mut issues, &query.order, ranks, &setting.setup)?;
    Ok(keys_of(alloc, &issues)?)
}

fn sort(
    issues: &mut Vec<Issue>,
    order: &OrderBy,
    ranks: &str,
    setup: &Setup,
) -> Result<(), AllocError> {
    issues.sort_by(|one, other| compare(order, one, other, ranked(ranks, one, other), setup))
}

// How two issues stand to each other in the order of ranks.
fn ranked(ranks: &str, one: &Issue, other: &Issue) -> Ordering {
    rank_of(ranks, one).cmp(&rank_of(ranks, other))
}

// How many issues stand before this one.
fn rank_of(ranks: &str, issue: &Issue) -> u32 {
    let mut before = 0u32;
    for number in ranks.split(' ') {
        if number.parse::<u32>() == Ok(issue.no().0) {
            return before;
        }
        before = before.saturating_add(1);
    }
    before
}

fn issues_of(alloc: Global, setup: &Setup, text: &str) -> Result<Vec<Issue>, Fault> {
    let mut issues = Vec::new(alloc);
    for (no, text) in (1u32..).zip(text.split(" || ")) {
        let Some((key, story)) = text.split_once(": ") else {
            return Err(Fault::NoRow);
        };
        let issue = issue_of(alloc, setup, no, key, story)?;
        let Ok(()) = issues.push(issue) else {
            return Err(Fault::Memory);
        };
    }
    Ok(issues)
}

fn keys_of(alloc: Global, issues: &[Issue]) -> Result<String, AllocError> {
    let mut keys = String::new(alloc);
    for issue in issues {
        if !keys.is_empty() {
            keys.push_str(" ")?;
        }
        keys.push_str(issue.key().as_str())?;
    }
    Ok(keys)
}
