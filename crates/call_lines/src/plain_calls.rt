// The calls that a plain line may ask for.
ghost use Rattle.std.specs.Prelude.{◌≡◌, IfOk, IfSome, Some, codes};
ghost use Rattle.serde_json.specs.Data.{object};
ghost use Rattle.call_lines.specs.Asked.{other_than};
ghost use Rattle.json_texts.specs.JsonMembers.{text_at};
ghost use Rattle.call_lines.specs.Plain.{AskFor, HaveNoOther, values_of};

use crate::kind::CallKind;
use crate::plain_members::{member, set_at, set_if_there, text_member};
use field_values::{Memory, Text};
use json::Value;
use std::alloc::Global;
use tracker_calls::{Call, MOST_ENTRIES, MOST_LISTED, Part, ToldText};

/// The call of that kind, whoever asks for it, of members among which is no other; `None` where it isn't known to be one.
pub fn kind_call<'a>(
    alloc: Global,
    kind: CallKind,
    members: &[(&'a str, Value<'a>)],
) -> Result<Option<Call>, Memory>
    requires { HaveNoOther kind members.now }
    ensures { IfOk result (λ found. IfSome found (AskFor kind members.now)) }
{
    match kind {
        CallKind::Create => create_in(alloc, members),
        CallKind::Edit => edit_in(alloc, members),
        CallKind::Transition => transition_in(alloc, members),
        CallKind::MoveBefore => move_before_in(alloc, members),
        CallKind::MoveAfter => move_after_in(alloc, members),
        CallKind::Show => show_in(alloc, members),
        CallKind::History => history_in(alloc, members),
        CallKind::Search => search_in(alloc, members),
        _ => Ok(None),
    }
}

// A create without an external id.
fn create_in<'a>(alloc: Global, members: &[(&'a str, Value<'a>)]) -> Result<Option<Call>, Memory>
    requires { HaveNoOther CallKind.Create members.now }
    ensures { IfOk result (λ found. IfSome found (AskFor CallKind.Create members.now)) }
{
    let Some(project) = text_member(members, "project") else {
        return Ok(None);
    };
    let Some(issue_type) = text_member(members, "type") else {
        return Ok(None);
    };
    let Some(summary) = text_member(members, "summary") else {
        return Ok(None);
    };
    let None = member(members, "external") else {
        return Ok(None);
    };
    let Some(set) = set_if_there(alloc, members)? else {
        return Ok(None);
    };
    let project = ToldText::copy_of(alloc, project)?;
    let issue_type = ToldText::copy_of(alloc, issue_type)?;
    let summary = Text::copy_of(alloc, summary)?;
    Ok(Some(Call::Create {
        project,
        issue_type,
        summary,
        set,
        external: None,
    }))
}

fn edit_in<'a>(alloc: Global, members: &[(&'a str, Value<'a>)]) -> Result<Option<Call>, Memory>
    requires { HaveNoOther CallKind.Edit members.now }
    ensures { IfOk result (λ found. IfSome found (AskFor CallKind.Edit members.now)) }
{
    let Some(issue) = text_member(members, "issue") else {
        return Ok(None);
    };
    let Some(set) = set_at(alloc, members)? else {
        return Ok(None);
    };
    let issue = ToldText::copy_of(alloc, issue)?;
    Ok(Some(Call::Edit { issue, set }))
}

fn transition_in<'a>(
    alloc: Global,
    members: &[(&'a str, Value<'a>)],
) -> Result<Option<Call>, Memory>
    requires { HaveNoOther CallKind.Transition members.now }
    ensures { IfOk result (λ found. IfSome found (AskFor CallKind.Transition members.now)) }
{
    let Some(issue) = text_member(members, "issue") else {
        return Ok(None);
    };
    let Some(transition) = text_member(members, "transition") else {
        return Ok(None);
    };
    let Some(set) = set_if_there(alloc, members)? else {
        return Ok(None);
    };
    let issue = ToldText::copy_of(alloc, issue)?;
    let transition = ToldText::copy_of(alloc, transition)?;
    Ok(Some(Call::Transition {
        issue,
        transition,
        set,
    }))
}

fn move_before_in<'a>(
    alloc: Global,
    members: &[(&'a str, Value<'a>)],
) -> Result<Option<Call>, Memory>
    requires { HaveNoOther CallKind.MoveBefore members.now }
    ensures { IfOk result (λ found. IfSome found (AskFor CallKind.MoveBefore members.now)) }
{
    match moved_in(alloc, members)? {
        Some((issue, other)) => Ok(Some(Call::MoveBefore { issue, other })),
        None => Ok(None),
    }
}

fn move_after_in<'a>(
    alloc: Global,
    members: &[(&'a str, Value<'a>)],
) -> Result<Option<Call>, Memory>
    requires { HaveNoOther CallKind.MoveAfter members.now }
    ensures { IfOk result (λ found. IfSome found (AskFor CallKind.MoveAfter members.now)) }
{
    match moved_in(alloc, members)? {
        Some((issue, other)) => Ok(Some(Call::MoveAfter { issue, other })),
        None => Ok(None),
    }
}

// The issue of either move, and the other one.
fn moved_in<'a>(
    alloc: Global,
    members: &[(&'a str, Value<'a>)],
) -> Result<Option<(ToldText, ToldText)>, Memory>
    ensures issue { IfOk result (λ found. IfSome found (λ moved.
        text_at (codes "issue") (object (values_of members.now)) ≡ Some moved.0)) }
    ensures other { IfOk result (λ found. IfSome found (λ moved.
        other_than moved.0 (object (values_of members.now)) ≡ Some moved.1)) }
{
    let Some(issue) = text_member(members, "issue") else {
        return Ok(None);
    };
    let Some(other) = text_member(members, "other") else {
        return Ok(None);
    };
    if other == issue {
        return Ok(None);
    }
    let issue = ToldText::copy_of(alloc, issue)?;
    let other = ToldText::copy_of(alloc, other)?;
    Ok(Some((issue, other)))
}

fn show_in<'a>(alloc: Global, members: &[(&'a str, Value<'a>)]) -> Result<Option<Call>, Memory>
    requires { HaveNoOther CallKind.Show members.now }
    ensures { IfOk result (λ found. IfSome found (AskFor CallKind.Show members.now)) }
{
    let Some(issue) = text_member(members, "issue") else {
        return Ok(None);
    };
    let issue = ToldText::copy_of(alloc, issue)?;
    Ok(Some(Call::Show { issue }))
}

// A history from its beginning.
fn history_in<'a>(alloc: Global, members: &[(&'a str, Value<'a>)]) -> Result<Option<Call>, Memory>
    requires { HaveNoOther CallKind.History members.now }
    ensures { IfOk result (λ found. IfSome found (AskFor CallKind.History members.now)) }
{
    let Some(issue) = text_member(members, "issue") else {
        return Ok(None);
    };
    let None = member(members, "from") else {
        return Ok(None);
    };
    let None = member(members, "count") else {
        return Ok(None);
    };
    let issue = ToldText::copy_of(alloc, issue)?;
    Ok(Some(Call::History {
        issue,
        part: Part {
            from: 0,
            count: MOST_ENTRIES,
        },
    }))
}

// The first issues of a search.
fn search_in<'a>(alloc: Global, members: &[(&'a str, Value<'a>)]) -> Result<Option<Call>, Memory>
    requires { HaveNoOther CallKind.Search members.now }
    ensures { IfOk result (λ found. IfSome found (AskFor CallKind.Search members.now)) }
{
    let Some(jql) = text_member(members, "jql") else {
        return Ok(None);
    };
    let None = member(members, "from") else {
        return Ok(None);
    };
    let None = member(members, "count") else {
        return Ok(None);
    };
    let jql = Text::copy_of(alloc, jql)?;
    Ok(Some(Call::Search {
        jql,
        part: Part {
            from: 0,
            count: MOST_LISTED,
        },
    }))
}
