// Parts as bodies, and bodies as parts.
ghost use Rattle.std.specs.Prelude.{◌≡◌, ◌≢◌, IfOk, MatchOption};
ghost use Rattle.fields.specs.SetupParts.{names, parts};
ghost use Rattle.rank_strings.specs.Text.{rank_text};
ghost use Rattle.tracker_keeper.specs.Bodies.{body_text};
ghost use Rattle.tracker_keeper.specs.Kept.{IsPart, IsRowOf};
ghost use Rattle.tracker_keeper.specs.LookingAtRows.{told_like, part_like};
ghost use Rattle.tracker_keeper.specs.declared.part.Part.{Part};
ghost use Rattle.serde_json.specs.View.{view};

use crate::lone_texts::{read_rank, read_setup};
use crate::looking::{board_like, data_of, external_like, filter_like, present_like, sprint_like};
use crate::looking_at_groups::group_like;
use crate::looking_at_issues::issue_like;
use crate::looking_at_members::members_like;
use crate::part::Part;
use crate::spelled::name_at;
use crate::written::{board_text, filter_text, present_text, sprint_text};
use crate::written_history::{group_text, members_text};
use crate::written_issue::{Created, issue_text};
use field_values::{Memory, Text};
use fields::Setup;
use fields::laws::keeps_what_was_read;
use rank_strings::Rank;
use serde_json::Value;
use std::alloc::Global;

fn rank_body(alloc: Global, rank: &Rank) -> Result<Text, Memory>
    ensures { IfOk result (λ text. text ≡ rank_text rank.now) }
{
    let text = rank.text(alloc)?;
    Ok(Text::of(text.into_string()))
}

/// The body of the part's row. All that the part names of the setup must be in it, each of its values is to be empty or to
/// fit its field, and its number, names and texts are to have their forms.
#[tactic(auto, using(crate::proofs::IssuesBack::held_values), unfolding(crate::specs::Bodies::body_text, crate::specs::Kept::IsPart))]
pub fn body_of(alloc: Global, part: &Part, setup: &Setup) -> Result<Text, Memory>
    requires { IsPart (parts setup.now) part.now }
    ensures { IfOk result (λ text. text ≡ body_text (names setup.now) part.now) }
{
    match part {
        Part::Setup { text } => text.copy(alloc),
        Part::Present {
            balance,
            change,
            format,
            moment,
        } => present_text(alloc, *balance, *change, *format, *moment),
        Part::Issue {
            no: _,
            key,
            change,
            at,
            author,
            values,
        } => issue_text(
            alloc,
            setup,
            &Created {
                key,
                change: *change,
                at: *at,
                author: *author,
                values: values.as_slice(),
            },
        ),
        Part::Group { issue, group } => group_text(alloc, setup, *issue, group),
        Part::Rank { issue: _, rank } => rank_body(alloc, rank),
        Part::External { issue: _, external } => external.copy(alloc),
        Part::Sprint { no: _, sprint } => {
            sprint_text(alloc, sprint.name.as_str(), &sprint.state)
        }
        Part::Filter {
            no: _,
            owner,
            name,
            jql,
        } => filter_text(
            alloc,
            jql.as_str(),
            name.as_str(),
            name_at(setup.users.as_slice(), owner.0),
        ),
        Part::Board {
            no: _,
            name,
            filter,
        } => board_text(alloc, *filter, name.as_str()),
        Part::Members { group: _, members } => members_text(alloc, setup, members.as_slice()),
    }
}

// What the JSON of a body would be the row of.
fn told_like(
    alloc: Global,
    setup: &Setup,
    kind: u8,
    no: u64,
    value: &Value,
) -> Result<Option<Part>, Memory>
    ensures { IfOk result (λ part. part ≡ told_like (parts setup.now) kind no (view value.now)) }
{
    match kind {
        2 => Ok(present_like(no, value)),
        3 => issue_like(alloc, setup, no, value),
        4 => group_like(alloc, setup, no, value),
        7 => sprint_like(alloc, no, value),
        8 => filter_like(alloc, setup, no, value),
        9 => board_like(alloc, no, value),
        10 => members_like(alloc, setup, no, value),
        _ => Ok(None),
    }
}

// What a body would be the row of.
#[tactic(auto, unfolding(crate::specs::LookingAtRows::part_like))]
fn part_like(
    alloc: Global,
    setup: &Setup,
    kind: u8,
    no: u64,
    body: &str,
) -> Result<Option<Part>, Memory>
    ensures { IfOk result (λ part. part ≡ part_like (parts setup.now) kind no body.now) }
{
    if kind == 6 {
        return external_like(alloc, no, body);
    }
    let Some(value) = data_of(alloc, body)? else {
        return Ok(None);
    };
    told_like(alloc, setup, kind, no, &value)
}

// The part, if its body is that text.
fn of_text(alloc: Global, setup: &Setup, part: Part, body: &str) -> Result<Option<Part>, Memory>
    requires { IsPart (parts setup.now) part }
    ensures { IfOk result (λ found. MatchOption found
        (body_text (names setup.now) part ≢ body.now)
        (λ p. (p ≡ part) × (body_text (names setup.now) part ≡ body.now))) }
{
    let written = body_of(alloc, &part, setup)?;
    if written.as_str() == body {
        Ok(Some(part))
    } else {
        Ok(None)
    }
}

// A body that tells one thing or another in JSON, or an external id.
#[tactic(auto, using(crate::proofs::RowsBack::none_of_row, crate::proofs::RowsBack::part_fits))]
fn read_told(
    alloc: Global,
    setup: &Setup,
    kind: u8,
    no: u64,
    body: &str,
) -> Result<Option<Part>, Memory>
    requires setup { kind ≢ 1 }
    requires rank { kind ≢ 5 }
    ensures { IfOk result (λ found. MatchOption found
        ((p : Part) → ¬ IsRowOf (parts setup.now) kind no body.now p)
        (λ p. IsRowOf (parts setup.now) kind no body.now p)) }
{
    keeps_what_was_read(setup);
    let Some(part) = part_like(alloc, setup, kind, no, body)? else {
        return Ok(None);
    };
    of_text(alloc, setup, part, body)
}

/// The part of which the row of that kind and number has that body; `None` exactly where it is of no part that may be kept.
pub fn read_body(
    alloc: Global,
    kind: u8,
    no: u64,
    body: &str,
    setup: &Setup,
) -> Result<Option<Part>, Memory>
    ensures { IfOk result (λ found. MatchOption found
        ((p : Part) → ¬ IsRowOf (parts setup.now) kind no body.now p)
        (λ p. IsRowOf (parts setup.now) kind no body.now p)) }
{
    match kind {
        1 => read_setup(alloc, no, body),
        5 => read_rank(alloc, no, body),
        _ => read_told(alloc, setup, kind, no, body),
    }
}
