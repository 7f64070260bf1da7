// What a body would be the row of, by what it says where such a row says it.
ghost use Rattle.std.specs.Prelude.{◌≡◌, ◌<◌, ◌==◌, IfOk, Some, None, option_map, if◌then◌else◌};
ghost use Rattle.rank_balancer.specs.Balance.{next_bucket};
ghost use Rattle.rank_balancer.specs.declared.balance.Balance.TheVariants.{Moving};
ghost use Rattle.serde_json.specs.Read.{read};
ghost use Rattle.serde_json.specs.View.{view};
ghost use Rattle.tracker_keeper.specs.Looking.{number_in, moment_of, moment_at};
ghost use Rattle.json_texts.specs.JsonMembers.{text_at, title_at};
ghost use Rattle.tracker_keeper.specs.Looking.{whole_of, whole_at, pair_of, stamp_of, state_by};
ghost use Rattle.tracker_keeper.specs.Looking.{state_at, format_at, small_of, small_at, user_at};
ghost use Rattle.tracker_keeper.specs.Looking.{bucket_of, balance_of, present_like, external_like};
ghost use Rattle.tracker_keeper.specs.Looking.{filter_like, board_like, sprint_like};

use crate::forms::next_bucket;
use crate::part::{Format, Part};
use external_ids::is_external;
use field_forms::name_form::is_title;
use field_values::{BoardNo, FilterNo, IssueNo, Memory, Moment, SprintNo, Text, UserNo};
use fields::Setup;
use rank_balancer::Balance;
use serde_json::Value;
use sprints::{Sprint, SprintState};
use std::alloc::Global;

/// The JSON of a body; `None` exactly where it is none.
pub(crate) fn data_of(alloc: Global, body: &str) -> Result<Option<Value>, Memory>
    ensures { IfOk result (λ found. option_map view found ≡ read body.now) }
{
    match Value::from_str(alloc, body) {
        Ok(value) => Ok(Some(value)),
        Err(e) => { if e.is_memory() { Err(Memory) } else { Ok(None) } }
    }
}

/// The number of an issue, a sprint, a filter or a board.
pub(crate) fn number_in(no: u64) -> Option<u32>
    ensures { result ≡ number_in no }
{
    if 1 <= no && no < 4_294_967_296 {
        Some(no as u32)
    } else {
        None
    }
}

pub(crate) fn text_at<'v>(value: &'v Value, name: &str) -> Option<&'v str>
    ensures { option_map (λ text. text.now) result ≡ text_at name.now (view value.now) }
{
    value.get(name).and_then(Value::as_str)
}

fn title_at<'v>(value: &'v Value, name: &str) -> Option<&'v str>
    ensures { option_map (λ text. text.now) result ≡ title_at name.now (view value.now) }
{
    let text = text_at(value, name)?;
    if is_title(text) { Some(text) } else { None }
}

fn small_of(value: &Value) -> Option<u32>
    ensures { result ≡ small_of (view value.now) }
{
    let number = value.as_u64()?;
    if number < 4_294_967_296 {
        Some(number as u32)
    } else {
        None
    }
}

fn moment_of(value: &Value) -> Option<Moment>
    ensures { result ≡ moment_of (view value.now) }
{
    value.as_u64().and_then(Moment::new)
}

pub(crate) fn moment_at(value: &Value, name: &str) -> Option<Moment>
    ensures { result ≡ moment_at name.now (view value.now) }
{
    let value = value.get(name)?;
    moment_of(value)
}

fn whole_of(value: &Value) -> Option<u64>
    ensures { result ≡ whole_of (view value.now) }
{
    match value.as_u64() {
        Some(number) => Some(number),
        None => None,
    }
}

fn whole_at(value: &Value, name: &str) -> Option<u64>
    ensures { result ≡ whole_at name.now (view value.now) }
{
    let value = value.get(name)?;
    whole_of(value)
}

// A moment and a change number.
fn pair_of(value: &Value) -> Option<(Moment, u64)>
    ensures { result ≡ pair_of (view value.now) }
{
    match value.as_array()?.as_slice() {
        [] => None,
        [_] => None,
        [one, other] => {
            let at = moment_of(one)?;
            let change = whole_of(other)?;
            Some((at, change))
        }
        _ => None,
    }
}

fn small_at(value: &Value, name: &str) -> Option<u32>
    ensures { result ≡ small_at name.now (view value.now) }
{
    let value = value.get(name)?;
    small_of(value)
}

#[tactic(auto, unfolding(crate::specs::Looking::external_like))]
pub(crate) fn external_like(alloc: Global, no: u64, body: &str) -> Result<Option<Part>, Memory>
    ensures { IfOk result (λ part. part ≡ external_like no body.now) }
{
    let Some(no) = number_in(no) else {
        return Ok(None);
    };
    if !is_external(body) {
        return Ok(None);
    }
    Ok(Some(Part::External {
        issue: IssueNo(no),
        external: Text::copy_of(alloc, body)?,
    }))
}

#[tactic(auto, unfolding(crate::specs::Looking::board_like))]
pub(crate) fn board_like(alloc: Global, no: u64, value: &Value) -> Result<Option<Part>, Memory>
    ensures { IfOk result (λ part. part ≡ board_like no (view value.now)) }
{
    let Some(no) = number_in(no) else {
        return Ok(None);
    };
    let Some(name) = title_at(value, "name") else {
        return Ok(None);
    };
    let Some(filter) = small_at(value, "filter") else {
        return Ok(None);
    };
    Ok(Some(Part::Board {
        no: BoardNo(no),
        name: Text::copy_of(alloc, name)?,
        filter: FilterNo(filter),
    }))
}

// A stamp, or null.
fn stamp_of(value: &Value) -> Option<Option<(Moment, u64)>>
    ensures { result ≡ stamp_of (view value.now) }
{
    if value.is_null() {
        return Some(None);
    }
    let pair = pair_of(value)?;
    Some(Some(pair))
}

fn state_by(start: Option<(Moment, u64)>, close: Option<(Moment, u64)>) -> Option<SprintState>
    ensures { result ≡ state_by start close }
{
    match (start, close) {
        (None, None) => Some(SprintState::Future),
        (Some((at, change)), None) => Some(SprintState::Active { at, change }),
        (Some((start_at, start_change)), Some((at, change))) => Some(SprintState::Closed {
            start_at,
            start_change,
            at,
            change,
        }),
        (None, Some(_)) => None,
    }
}

fn state_at(value: &Value) -> Option<SprintState>
    ensures { result ≡ state_at (view value.now) }
{
    let start = stamp_of(value.get("start")?)?;
    let close = stamp_of(value.get("close")?)?;
    state_by(start, close)
}

#[tactic(auto, unfolding(crate::specs::Looking::sprint_like))]
pub(crate) fn sprint_like(alloc: Global, no: u64, value: &Value) -> Result<Option<Part>, Memory>
    ensures { IfOk result (λ part. part ≡ sprint_like no (view value.now)) }
{
    let Some(no) = number_in(no) else {
        return Ok(None);
    };
    let Some(name) = title_at(value, "name") else {
        return Ok(None);
    };
    let Some(state) = state_at(value) else {
        return Ok(None);
    };
    let name = Text::copy_of(alloc, name)?;
    Ok(Some(Part::Sprint {
        no: SprintNo(no),
        sprint: Sprint { name, state },
    }))
}

fn format_at(value: &Value) -> Option<Format>
    ensures { result ≡ format_at (view value.now) }
{
    match value.get("format")?.as_u64()? {
        1 => Some(Format::First),
        2 => Some(Format::Second),
        _ => None,
    }
}

// One of the three buckets.
fn bucket_of(value: &Value) -> Option<u8>
    ensures { result ≡ bucket_of (view value.now) }
{
    let number = value.as_u64()?;
    if number < 3 { Some(number as u8) } else { None }
}

fn balance_of(value: &Value) -> Option<Balance>
    ensures { result ≡ balance_of (view value.now) }
{
    match value.as_array()?.as_slice() {
        [one] => {
            let bucket = bucket_of(one)?;
            Some(Balance::Idle(bucket))
        }
        [one, other] => {
            let from = bucket_of(one)?;
            let to = bucket_of(other)?;
            moving(from, to)
        }
        _ => None,
    }
}

fn moving(from: u8, to: u8) -> Option<Balance>
    requires { from < 3 }
    ensures { result ≡ (if to == next_bucket from then Some (Moving from to) else None) }
{
    if to == next_bucket(from) {
        Some(Balance::Moving { from, to })
    } else {
        None
    }
}

#[tactic(auto, unfolding(crate::specs::Looking::present_like))]
pub(crate) fn present_like(no: u64, value: &Value) -> Option<Part>
    ensures { result ≡ present_like no (view value.now) }
{
    if no != 0 {
        return None;
    }
    let balance = balance_of(value.get("balance")?)?;
    let change = whole_at(value, "change")?;
    let format = format_at(value)?;
    let moment = moment_at(value, "moment")?;
    Some(Part::Present {
        balance,
        change,
        format,
        moment,
    })
}

// The user of a name, ASCII case ignored: whether it is spelled as the setup spells it is asked of the whole text.
#[tactic(auto, using(crate::proofs::Found::user_of))]
pub(crate) fn user_at(setup: &Setup, value: &Value, name: &str) -> Option<UserNo>
    ensures { result ≡ user_at setup.now.users name.now (view value.now) }
{
    let name = text_at(value, name)?;
    setup.user_named(name)
}

#[tactic(auto, unfolding(crate::specs::Looking::filter_like))]
pub(crate) fn filter_like(
    alloc: Global,
    setup: &Setup,
    no: u64,
    value: &Value,
) -> Result<Option<Part>, Memory>
    ensures { IfOk result (λ part. part ≡ filter_like setup.now.users no (view value.now)) }
{
    let Some(no) = number_in(no) else {
        return Ok(None);
    };
    let Some(owner) = user_at(setup, value, "owner") else {
        return Ok(None);
    };
    let Some(name) = title_at(value, "name") else {
        return Ok(None);
    };
    let Some(jql) = text_at(value, "jql") else {
        return Ok(None);
    };
    let name = Text::copy_of(alloc, name)?;
    let jql = Text::copy_of(alloc, jql)?;
    Ok(Some(Part::Filter {
        no: FilterNo(no),
        owner,
        name,
        jql,
    }))
}
