// The text of a reply: compact JSON, the members of each object in byte order of their names.
ghost use Rattle.std.specs.Prelude.{◌≡◌, IfOk, OnOk};
ghost use Rattle.json_texts.specs.JsonTokens.{after};
ghost use Rattle.reply_texts.specs.Reply.{reply_text, reply_data, answer_data, create_data};
ghost use Rattle.reply_texts.specs.Reply.{edit_data, tick_data, search_data, refusal_data};
ghost use Rattle.reply_texts.specs.Reply.{number_data};

use crate::cause_json::write_cause;
use crate::described_json::write_describe;
use crate::filters_json::{
    write_board, write_board_number, write_filter_number, write_save_filter,
};
use crate::groups_json::write_set_group;
use crate::history_json::write_history;
use crate::pages_json::{write_boards, write_filters, write_issues, write_sprints};
use crate::ranks_json::{
    write_balance, write_move, write_ranks, write_rebalance_start, write_rebalance_step,
};
use crate::show_json::write_show;
use crate::sprints_json::{write_burndown, write_make_sprint, write_sprint_phase};
use field_values::{Memory, Moment, Text};
use json_texts::JsonText;
use std::alloc::Global;
use tracker_calls::{Answer, Refusal, Reply, ToldText};

// The bytes that most replies have at most.
const ROOM: usize = 480;

/// The text of the refusal of a keeper that failed, which is written without memory.
pub const KEEPER_TEXT: &str = "{\"refused\":{\"no\":14}}";

/// The text of the refusal for want of memory, which is written without memory.
pub const MEMORY_TEXT: &str = "{\"refused\":{\"no\":15}}";

/// The compact JSON text of a reply.
#[tactic(auto, unfolding(crate::specs::Reply::reply_text), using(json_texts::proofs::JsonTexts::whole))]
pub fn reply_text(alloc: Global, reply: &Reply) -> Result<Text, Memory>
    ensures { IfOk result (λ text. text ≡ reply_text reply.now) }
{
    let mut text = JsonText::with_room(alloc, ROOM)?;
    write_reply(alloc, &mut text, reply)?;
    Ok(text.into_text())
}

/// The bytes of that text, in the room of these, which it takes the place of.
#[tactic(auto, unfolding(crate::specs::Reply::reply_text), using(json_texts::proofs::JsonTexts::whole))]
pub fn reply_bytes(alloc: Global, reply: &Reply, room: Vec<u8>) -> Result<Vec<u8>, Memory>
    ensures { IfOk result (λ bytes. bytes.items ≡ reply_text reply.now) }
{
    let mut text = JsonText::in_room(alloc, room);
    write_reply(alloc, &mut text, reply)?;
    Ok(text.into_bytes())
}

fn write_reply(alloc: Global, out: &mut JsonText, reply: &Reply) -> Result<(), Memory>
    ensures { OnOk result (out.new ≡ after (reply_data reply.now) out.old) }
{
    out.begin_object()?;
    match reply {
        Reply::Ok(answer) => {
            out.key("ok")?;
            write_answer(alloc, out, answer)?;
        }
        Reply::Refused(refusal) => {
            out.key("refused")?;
            write_refusal(alloc, out, refusal)?;
        }
    }
    out.end_object()
}

fn write_answer(alloc: Global, out: &mut JsonText, answer: &Answer) -> Result<(), Memory>
    ensures { OnOk result (out.new ≡ after (answer_data answer.now) out.old) }
{
    match answer {
        Answer::Create {
            already,
            change,
            issue,
        } => write_create(out, *already, *change, issue),
        Answer::Edit { change, issue } => write_edit(out, *change, issue),
        Answer::Transition { change, issue } => write_edit(out, *change, issue),
        Answer::Tick { moment } => write_tick(out, *moment),
        Answer::Show {
            created,
            fields,
            issue,
            updated,
        } => write_show(alloc, out, *created, fields, issue, *updated),
        Answer::History { entries, total } => write_history(out, entries.as_slice(), *total),
        Answer::Search { issues, total } => write_search(out, issues.as_slice(), *total),
        Answer::Move { issue, rank } => write_move(out, issue, rank),
        Answer::Ranks { ranks, total } => write_ranks(out, ranks.as_slice(), *total),
        Answer::RebalanceStart { from, to } => write_rebalance_start(out, *from, *to),
        Answer::RebalanceStep { left, moved } => write_rebalance_step(out, *left, *moved),
        Answer::Balance {
            state,
            longest,
            offer,
        } => write_balance(out, *state, *longest, *offer),
        Answer::SaveFilter { filter, members } => write_save_filter(out, *filter, *members),
        Answer::DropFilter { filter } => write_filter_number(out, *filter),
        Answer::Filter { issues, total } => write_search(out, issues.as_slice(), *total),
        Answer::MakeBoard { board } => write_board_number(out, *board),
        Answer::DropBoard { board } => write_board_number(out, *board),
        Answer::Board { columns, total } => write_board(out, columns.as_slice(), *total),
        Answer::MakeSprint { sprint } => write_make_sprint(out, *sprint),
        Answer::SetGroup { group, members } => write_set_group(out, group, *members),
        Answer::SprintPhase { sprint, state } => write_sprint_phase(out, *sprint, *state),
        Answer::Burndown {
            left,
            rows,
            start,
            state,
            total,
        } => write_burndown(out, *left, rows.as_slice(), *start, *state, *total),
        Answer::List { issues, total } => write_issues(alloc, out, issues.as_slice(), *total),
        Answer::Filters { filters, total } => write_filters(out, filters.as_slice(), *total),
        Answer::Boards { boards, total } => write_boards(out, boards.as_slice(), *total),
        Answer::Sprints { sprints, total } => write_sprints(out, sprints.as_slice(), *total),
        Answer::Describe { told } => write_describe(out, told),
    }
}

fn write_create(
    out: &mut JsonText,
    already: bool,
    change: u64,
    issue: &ToldText,
) -> Result<(), Memory>
    ensures { OnOk result (out.new ≡ after (create_data already change issue.now) out.old) }
{
    out.begin_object()?;
    out.boolean_member("already", already)?;
    out.number_member("change", change)?;
    out.text_member("issue", issue.as_str())?;
    out.end_object()
}

fn write_edit(out: &mut JsonText, change: Option<u64>, issue: &ToldText) -> Result<(), Memory>
    ensures { OnOk result (out.new ≡ after (edit_data change issue.now) out.old) }
{
    out.begin_object()?;
    out.key("change")?;
    out.number_or_null(change)?;
    out.text_member("issue", issue.as_str())?;
    out.end_object()
}

fn write_tick(out: &mut JsonText, moment: Moment) -> Result<(), Memory>
    ensures { OnOk result (out.new ≡ after (tick_data moment) out.old) }
{
    out.begin_object()?;
    out.number_member("moment", moment.seconds())?;
    out.end_object()
}

fn write_search(out: &mut JsonText, issues: &[Text], total: u64) -> Result<(), Memory>
    ensures { OnOk result (out.new ≡ after (search_data issues.now total) out.old) }
{
    out.begin_object()?;
    out.key("issues")?;
    out.texts(issues)?;
    out.number_member("total", total)?;
    out.end_object()
}

fn write_refusal(alloc: Global, out: &mut JsonText, refusal: &Refusal) -> Result<(), Memory>
    ensures { OnOk result (out.new ≡ after (refusal_data refusal.now) out.old) }
{
    match refusal {
        Refusal::Cause(cause) => write_cause(alloc, out, cause),
        Refusal::Keeper => write_number(out, 14),
        Refusal::Memory => write_number(out, 15),
    }
}

// The refusals that have a number alone.
fn write_number(out: &mut JsonText, number: u64) -> Result<(), Memory>
    ensures { OnOk result (out.new ≡ after (number_data number) out.old) }
{
    out.begin_object()?;
    out.number_member("no", number)?;
    out.end_object()
}
