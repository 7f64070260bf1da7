// The texts of bodies.
ghost use Rattle.std.specs.Prelude.{◌≡◌, ◌++◌, IfOk, OnOk, string_bytes};
ghost use Rattle.serde_json.specs.Written.{compact_text};
ghost use Rattle.json_texts.specs.JsonTokens.{after};
ghost use Rattle.tracker_keeper.specs.Bodies.{pair_data, balance_data, start_data};
ghost use Rattle.tracker_keeper.specs.Bodies.{close_data, present_data, sprint_data, filter_data};
ghost use Rattle.tracker_keeper.specs.Bodies.{board_data};

use crate::part::Format;
use field_values::{FilterNo, Memory, Moment, Text};
use json_texts::JsonText;
use rank_balancer::Balance;
use sprints::SprintState;
use std::alloc::{AllocError, Global};

/// The bytes that most bodies have at most.
pub(crate) const ROOM: usize = 240;

/// The bytes that the body of where the tracker stands has at most.
const PRESENT_ROOM: usize = 82;

/// The body of where the tracker stands. Each commit writes one, so it is written at once and not token by token.
pub fn present_text(
    alloc: Global,
    balance: Balance,
    change: u64,
    format: Format,
    moment: Moment,
) -> Result<Text, Memory>
    ensures { IfOk result (λ text. text
        ≡ compact_text (present_data balance change format moment)) }
{
    let mut text = String::with_capacity(alloc, PRESENT_ROOM)?;
    push_present(&mut text, balance, change, format, moment)?;
    Ok(Text::of(text))
}

fn push_present(
    text: &mut String,
    balance: Balance,
    change: u64,
    format: Format,
    moment: Moment,
) -> Result<(), AllocError>
    ensures { OnOk result (string_bytes text.new ≡ string_bytes text.old
        ++ compact_text (present_data balance change format moment)) }
{
    let format = format.number();
    let moment = moment.seconds();
    text.push_str("{\"balance\":")?;
    push_balance(text, balance)?;
    write!(
        text,
        ",\"change\":{change},\"format\":{format},\"moment\":{moment}}}"
    )
}

fn push_balance(text: &mut String, balance: Balance) -> Result<(), AllocError>
    ensures { OnOk result (string_bytes text.new ≡ string_bytes text.old
        ++ compact_text (balance_data balance)) }
{
    match balance {
        Balance::Idle(bucket) => write!(text, "[{bucket}]"),
        Balance::Moving { from, to } => write!(text, "[{from},{to}]"),
    }
}

fn put_pair(out: &mut JsonText, one: u64, other: u64) -> Result<(), Memory>
    ensures { OnOk result (out.new ≡ after (pair_data one other) out.old) }
{
    out.begin_array()?;
    out.number(one)?;
    out.number(other)?;
    out.end_array()
}

/// The body of a sprint.
#[tactic(auto, using(json_texts::proofs::JsonTexts::whole))]
pub fn sprint_text(alloc: Global, name: &str, state: &SprintState) -> Result<Text, Memory>
    ensures { IfOk result (λ text. text ≡ compact_text (sprint_data name.now state.now)) }
{
    let mut out = JsonText::with_room(alloc, ROOM)?;
    put_sprint(&mut out, name, state)?;
    Ok(out.into_text())
}

#[tactic(auto, unfolding(crate::specs::Bodies::sprint_data))]
fn put_sprint(out: &mut JsonText, name: &str, state: &SprintState) -> Result<(), Memory>
    ensures { OnOk result (out.new ≡ after (sprint_data name.now state.now) out.old) }
{
    out.begin_object()?;
    out.key("close")?;
    put_close(out, state)?;
    out.text_member("name", name)?;
    out.key("start")?;
    put_start(out, state)?;
    out.end_object()
}

fn put_close(out: &mut JsonText, state: &SprintState) -> Result<(), Memory>
    ensures { OnOk result (out.new ≡ after (close_data state.now) out.old) }
{
    match *state {
        SprintState::Future | SprintState::Active { .. } => out.null(),
        SprintState::Closed { at, change, .. } => put_pair(out, at.seconds(), change),
    }
}

fn put_start(out: &mut JsonText, state: &SprintState) -> Result<(), Memory>
    ensures { OnOk result (out.new ≡ after (start_data state.now) out.old) }
{
    match *state {
        SprintState::Future => out.null(),
        SprintState::Active { at, change } => put_pair(out, at.seconds(), change),
        SprintState::Closed {
            start_at,
            start_change,
            ..
        } => put_pair(out, start_at.seconds(), start_change),
    }
}

/// The body of a saved filter.
#[tactic(auto, using(json_texts::proofs::JsonTexts::whole))]
pub fn filter_text(alloc: Global, jql: &str, name: &str, owner: &str) -> Result<Text, Memory>
    ensures { IfOk result (λ text. text ≡ compact_text (filter_data jql.now name.now owner.now)) }
{
    let mut out = JsonText::with_room(alloc, ROOM)?;
    put_filter(&mut out, jql, name, owner)?;
    Ok(out.into_text())
}

#[tactic(auto, unfolding(crate::specs::Bodies::filter_data))]
fn put_filter(out: &mut JsonText, jql: &str, name: &str, owner: &str) -> Result<(), Memory>
    ensures { OnOk result (out.new ≡ after (filter_data jql.now name.now owner.now) out.old) }
{
    out.begin_object()?;
    out.text_member("jql", jql)?;
    out.text_member("name", name)?;
    out.text_member("owner", owner)?;
    out.end_object()
}

/// The body of a board.
#[tactic(auto, using(json_texts::proofs::JsonTexts::whole))]
pub fn board_text(alloc: Global, filter: FilterNo, name: &str) -> Result<Text, Memory>
    ensures { IfOk result (λ text. text ≡ compact_text (board_data filter.0 name.now)) }
{
    let mut out = JsonText::with_room(alloc, ROOM)?;
    put_board(&mut out, filter, name)?;
    Ok(out.into_text())
}

#[tactic(auto, unfolding(crate::specs::Bodies::board_data))]
fn put_board(out: &mut JsonText, filter: FilterNo, name: &str) -> Result<(), Memory>
    ensures { OnOk result (out.new ≡ after (board_data filter.0 name.now) out.old) }
{
    out.begin_object()?;
    out.number_member("filter", u64::from(filter.0))?;
    out.text_member("name", name)?;
    out.end_object()
}
