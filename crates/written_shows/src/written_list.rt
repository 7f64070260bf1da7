// The reply to a list, written from the issues and the setup: nothing that it tells is copied before.
ghost use Rattle.std.specs.Prelude.{◌≡◌, ◌≤◌, ◌+◌, length, map, IfErr, OnOk};
ghost use Rattle.std.specs.List.{All};
ghost use Rattle.json_texts.specs.JsonTokens.{after};
ghost use Rattle.fields.specs.SetupParts.{parts, names_in};
ghost use Rattle.serde_json.specs.Data.{array};
ghost use Rattle.serde_json.specs.View.{items_of};
ghost use Rattle.reply_texts.specs.Reply.{list_data, listed_data, reply_data, reply_text};
ghost use Rattle.tracker_machine.specs.IssueList.{list_answer, list_meaning, listed_issue};
ghost use Rattle.tracker_state.specs.Plan.{IsRefused, cost_to_prepare};
ghost use Rattle.tracker_state.specs.State.{query_of};
ghost use Rattle.page_calls.specs.Fitting.{HoldsWhatFits};
ghost use Rattle.written_shows.specs.Shows.{IsToldText};
ghost use Rattle.written_shows.specs.Written.{members_by, with_present};

use crate::written_show::{FEW, put_field, write_issue};
use change_history::Issue;
use fields::{FieldNo, Memory, Names, Setup, Steps, UserNo};
use jql_bound::Bound;
use json_texts::JsonText;
use list_calls::search::found_part;
use page_calls::wanted::wanted_fields;
use short_lists::ShortList;
use std::alloc::Global;
use std::mem;
use std::sync::ledger::Ledger;
use tracker_calls::{Answer, Part, Refusal, Reply};
use tracker_state::{State, asked, part_of};

/// Puts the text of the reply that tells a part of what the query finds in place of what `answer` held, in its room. Fields are looked
/// for and issues are found as the desk does it for the same call.
#[tactic(auto, unfolding(tracker_machine::specs::IssueList::list_meaning))]
pub fn write_issue_list<L: Ledger>(
    alloc: Global,
    state: &State,
    caller: UserNo,
    jql: &str,
    fields: &Option<Names>,
    part: Part,
    steps: &mut Steps<L>,
    answer: &mut Vec<u8>,
) -> Result<(), Refusal>
    ensures told { OnOk result (IsToldText
        (list_meaning state.now.machine caller.0 jql.now fields.now part) answer.new.items) }
    ensures refused { IfErr result (IsRefused
        (list_meaning state.now.machine caller.0 jql.now fields.now part)) }
    ensures steps { steps.new ≤ steps.old + cost_to_prepare
        (list_meaning state.now.machine caller.0 jql.now fields.now part) state.now.machine }
{
    let fields = wanted_fields(alloc, state.setup(), fields)?;
    let mut bound = asked(alloc, state.setup(), caller, jql)?;
    let written = write_found(
        alloc, state, caller, &mut bound, &fields, part, steps, answer,
    );
    drop(bound);
    match written {
        Ok(()) => Ok(()),
        Err(_) => Err(Refusal::Memory),
    }
}

// Writes the part of what the query finds, with these fields.
fn write_found<L: Ledger>(
    alloc: Global,
    state: &State,
    caller: UserNo,
    bound: &mut Bound,
    fields: &[FieldNo],
    part: Part,
    steps: &mut Steps<L>,
    answer: &mut Vec<u8>,
) -> Result<(), Memory>
    ensures text { OnOk result (answer.new.items ≡ reply_text (Reply.Ok (list_answer
        state.now.machine caller.0 (map (λ f. f.0) fields.now) part (query_of bound.old)))) }
    ensures steps { steps.new ≤ steps.old + length state.now.machine.histories }
{
    state.is_tracker();
    let found = found_part(alloc, state, caller, bound, part, steps)?;
    let issues = part_of(&found.issues, part);
    write_text(alloc, state.setup(), issues, fields, found.total, answer)?;
    Ok(())
}

// Writes the text into the answer's room.
fn write_text(
    alloc: Global,
    setup: &Setup,
    issues: &[&Issue],
    fields: &[FieldNo],
    total: u64,
    answer: &mut Vec<u8>,
) -> Result<(), Memory>
    requires { All (λ i. HoldsWhatFits (parts setup.now) i.now.history) issues.now }
    ensures { OnOk result (answer.new.items ≡ reply_text (Reply.Ok (Answer.List
        (map (λ i. listed_issue (parts setup.now) (map (λ f. f.0) fields.now) i.now.history)
        issues.now) total))) }
{
    let room = mem::replace(answer, Vec::new(alloc));
    let mut text = JsonText::in_room(alloc, room);
    let written = write_reply(alloc, &mut text, setup, issues, fields, total);
    *answer = text.into_bytes();
    written?;
    Ok(())
}

fn write_reply(
    alloc: Global,
    out: &mut JsonText,
    setup: &Setup,
    issues: &[&Issue],
    fields: &[FieldNo],
    total: u64,
) -> Result<(), Memory>
    requires { All (λ i. HoldsWhatFits (parts setup.now) i.now.history) issues.now }
    ensures { OnOk result (out.new ≡ after (reply_data (Reply.Ok (Answer.List
        (map (λ i. listed_issue (parts setup.now) (map (λ f. f.0) fields.now) i.now.history)
        issues.now) total))) out.old) }
{
    out.begin_object()?;
    out.key("ok")?;
    write_list(alloc, out, setup, issues, fields, total)?;
    out.end_object()
}

fn write_list(
    alloc: Global,
    out: &mut JsonText,
    setup: &Setup,
    issues: &[&Issue],
    fields: &[FieldNo],
    total: u64,
) -> Result<(), Memory>
    requires { All (λ i. HoldsWhatFits (parts setup.now) i.now.history) issues.now }
    ensures { OnOk result (out.new ≡ after (list_data
        (map (λ i. listed_issue (parts setup.now) (map (λ f. f.0) fields.now) i.now.history)
        issues.now) total) out.old) }
{
    out.begin_object()?;
    out.key("issues")?;
    write_issues(alloc, out, setup, issues, fields)?;
    out.number_member("total", total)?;
    out.end_object()
}

fn write_issues(
    alloc: Global,
    out: &mut JsonText,
    setup: &Setup,
    issues: &[&Issue],
    fields: &[FieldNo],
) -> Result<(), Memory>
    requires { All (λ i. HoldsWhatFits (parts setup.now) i.now.history) issues.now }
    ensures { OnOk result (out.new ≡ after (array (items_of (map listed_data
        (map (λ i. listed_issue (parts setup.now) (map (λ f. f.0) fields.now) i.now.history)
        issues.now)))) out.old) }
{
    out.begin_array()?;
    for issue in issues {
        write_listed(alloc, out, setup, *issue, fields)?;
    }
    out.end_array()
}

// Writes the issue with those of these fields that aren't empty.
#[tactic(auto, using(crate::proofs::Writing::present_is_shown))]
fn write_listed(
    alloc: Global,
    out: &mut JsonText,
    setup: &Setup,
    issue: &Issue,
    fields: &[FieldNo],
) -> Result<(), Memory>
    requires { HoldsWhatFits (parts setup.now) issue.now.history }
    ensures { OnOk result (out.new ≡ after (listed_data (listed_issue (parts setup.now)
        (map (λ f. f.0) fields.now) issue.now.history)) out.old) }
{
    let mut sorted = ShortList::new(alloc);
    put_fields(&mut sorted, setup, issue, fields)?;
    write_issue(out, setup, issue, sorted.as_slice())
}

// Puts those of these fields that aren't empty where their names belong.
fn put_fields<'a>(
    sorted: &mut ShortList<(&'a str, FieldNo), FEW>,
    setup: &'a Setup,
    issue: &Issue,
    fields: &[FieldNo],
) -> Result<(), Memory>
    ensures { OnOk result
        (members_by (names_in (parts setup.now)) issue.now.history sorted.new
        ≡ with_present (names_in (parts setup.now)) issue.now.history
        (members_by (names_in (parts setup.now)) issue.now.history sorted.old)
        (map (λ f. f.0) fields.now)) }
{
    for field in fields {
        put_field(sorted, setup, issue, *field)?;
    }
    Ok(())
}
